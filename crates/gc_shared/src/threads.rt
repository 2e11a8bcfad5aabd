ghost use Rattle.std.specs.Prelude.{◌≡◌, ◌≤◌, ◌<◌, ◌+◌, [], IfOk, OnOk, length, map, vec_len, vec_capacity};
ghost use Rattle.std.specs.List.{range_with_len};
ghost use Rattle.gc_graph.specs.Limits.{most_words, most_mutators};
ghost use Rattle.gc_shared.specs.Seats.{fresh};
ghost use Rattle.gc_shared.specs.Scripts.{HasRunScripts};
ghost use Rattle.gc_shared.specs.Internal.Scripts.{HasPerformed, HasTurned, HavePlayed, HaveEnded};
ghost use Rattle.gc_shared.specs.Internal.Players.{AreToPlay};

use crate::fault::ThreadsFault;
use crate::gate::Gate;
use crate::script::{play, turn};
use crate::seat::Seat;
use crate::shared::Shared;
use gc_graph::Op;
use gc_world::World;
use std::alloc::Global;
use std::sync::Wait;
use std::thread;
use std::thread::{Promise, PromisedHandle, Scope, Threads};

/// What a mutator's thread promises: it returns its seat with the receipts of the script's commands.
#[derive(Clone, Copy)]
struct Plays<'a> {
    number: u8,
    script: &'a [Op],
}

impl<'a> Promise<Result<Seat, ThreadsFault>> for Plays<'a> {
    ghost kept_by = { λ plays result. IfOk result (HasPerformed plays.number plays.script.now) };
}

/// What the collector's thread promises: it returns its seat with the receipts of this many useful steps.
#[derive(Clone, Copy)]
struct Turns {
    number: u8,
    turns: u64,
}

impl Promise<Result<Seat, ThreadsFault>> for Turns {
    ghost kept_by = { λ turns result. IfOk result (HasTurned turns.number turns.turns) };
}

/// Runs 1 to 16 scripts, each in its own thread, in a world of `size` words, 1 to 1048576. Mutator m runs script m. One
/// more thread, with the collector's seat, performs `turns` useful steps. All threads are started before any is joined,
/// and every started thread is joined, whatever happens.
///
/// If several threads fail, returns the fault of the lowest seat. A thread that fails does not stop the others.
pub fn run_threads<R: Threads + Wait + Sync, G: Gate + Sync>(
    rt: &R,
    alloc: Global,
    size: u32,
    scripts: Vec<Vec<Op>>,
    turns: u64,
    gate: &G,
) -> Result<World, ThreadsFault>
    requires low { 1 ≤ size }
    requires high { size ≤ most_words }
    requires some { 1 ≤ vec_len scripts }
    requires few { vec_len scripts ≤ most_mutators }
    ensures { IfOk result (HasRunScripts size scripts.items turns) }
{
    let mutators = scripts.len() as u8;
    let (shared, seats) = Shared::open(alloc, size, mutators, 1)?;
    let ended = in_threads(rt, &shared, seats, scripts.as_slice(), turns, gate);
    match shared.close(ended?) {
        Ok(world) => Ok(world),
        Err(fault) => Err(ThreadsFault::Close(fault.kind)),
    }
}

// Runs the scripts and the collector in threads, waits until all have ended, and returns the seats.
fn in_threads<R: Threads + Wait + Sync, G: Gate + Sync>(
    rt: &R,
    shared: &Shared,
    seats: Vec<Seat>,
    scripts: &[Vec<Op>],
    turns: u64,
    gate: &G,
) -> Result<Vec<Seat>, ThreadsFault>
    requires { seats.items ≡ map (fresh (length scripts.now)) (range_with_len 0 (length scripts.now + 1)) }
    ensures { IfOk result (λ ended. HaveEnded scripts.now turns ended.items) }
{
    thread::scope(
        thread::scope_env(),
        rt,
        |scope| -> Result<Vec<Seat>, ThreadsFault>
            requires { seats.items ≡ map (fresh (length scripts.now)) (range_with_len 0 (length scripts.now + 1)) }
            ensures { IfOk result (λ ended. HaveEnded scripts.entry.now turns ended.items) }
        { run_all(scope, rt, shared, seats, scripts, turns, gate) },
    )
}

type Player<'e> = PromisedHandle<Result<Seat, ThreadsFault>, Plays<'e>>;

type Turner = PromisedHandle<Result<Seat, ThreadsFault>, Turns>;

// Starts all threads, then joins those that started. The list for the seats is allocated before any thread starts.
fn run_all<'s, 'e, R: Threads + Wait + Sync, G: Gate + Sync>(
    scope: &'s Scope<'s, &'e ()>,
    rt: &'e R,
    shared: &'e Shared,
    mut seats: Vec<Seat>,
    scripts: &'e [Vec<Op>],
    turns: u64,
    gate: &'e G,
) -> Result<Vec<Seat>, ThreadsFault>
    requires { seats.items ≡ map (fresh (length scripts.now)) (range_with_len 0 (length scripts.now + 1)) }
    ensures { IfOk result (λ ended. HaveEnded scripts.now turns ended.items) }
{
    let mut back = Vec::with_capacity(shared.alloc(), scripts.len() + 1)?;
    let mut players = Vec::with_capacity(shared.alloc(), scripts.len())?;
    let Some(last) = seats.pop() else {
        unreachable!()
    };
    match start_players(scope, rt, shared, seats, scripts, gate, &mut players) {
        Ok(()) => (),
        Err(fault) => {
            let _ = join_players(rt, players, scripts, &mut back);
            return Err(fault);
        }
    }
    let collector = match start_collector(scope, rt, shared, last, turns, gate) {
        Ok(collector) => collector,
        Err(fault) => {
            let _ = join_players(rt, players, scripts, &mut back);
            return Err(fault);
        }
    };
    let played = join_players(rt, players, scripts, &mut back);
    let turned = collector.join(rt);
    played?;
    back.push_reserved(turned?);
    Ok(back)
}

// Starts a thread for each script, until one cannot be started.
fn start_players<'s, 'e, R: Threads + Wait + Sync, G: Gate + Sync>(
    scope: &'s Scope<'s, &'e ()>,
    rt: &'e R,
    shared: &'e Shared,
    seats: Vec<Seat>,
    scripts: &'e [Vec<Op>],
    gate: &'e G,
    players: &mut Vec<Player<'e>>,
) -> Result<(), ThreadsFault>
    requires seats { seats.items ≡ map (fresh (length scripts.now)) (range_with_len 0 (length scripts.now)) }
    requires none { vec_len players.old ≡ 0 }
    requires room { length scripts.now ≤ vec_capacity players.old }
    ensures all { OnOk result (vec_len players.new ≡ length scripts.now) }
    ensures some { vec_len players.new ≤ length scripts.now }
    ensures each { AreToPlay scripts.now players.new.items }
{
    for seat in seats {
        let script = scripts[players.len()].as_slice();
        let player = start_player(scope, rt, shared, seat, script, gate)?;
        players.push_reserved(player);
    }
    Ok(())
}

// Starts the thread that runs this script with this seat.
fn start_player<'s, 'e, R: Threads + Wait + Sync, G: Gate + Sync>(
    scope: &'s Scope<'s, &'e ()>,
    rt: &'e R,
    shared: &'e Shared,
    seat: Seat,
    script: &'e [Op],
    gate: &'e G,
) -> Result<Player<'e>, ThreadsFault>
    requires { seat.receipts ≡ [] }
    ensures { IfOk result (λ player.
        (player.promise.number ≡ seat.number) × (player.promise.script.now ≡ script.now)) }
{
    let promised = Plays {
        number: seat.number(),
        script,
    };
    Ok(scope.spawn_with(promised, move || play(rt, shared, seat, script, gate))?)
}

// Starts the thread that performs this many useful steps with the collector's seat.
fn start_collector<'s, 'e, R: Threads + Wait + Sync, G: Gate + Sync>(
    scope: &'s Scope<'s, &'e ()>,
    rt: &'e R,
    shared: &'e Shared,
    seat: Seat,
    turns: u64,
    gate: &'e G,
) -> Result<Turner, ThreadsFault>
    requires { seat.receipts ≡ [] }
    ensures { IfOk result (λ turner.
        (turner.promise.number ≡ seat.number) × (turner.promise.turns ≡ turns)) }
{
    let promised = Turns {
        number: seat.number(),
        turns,
    };
    let turner = scope.spawn_with(
        promised,
        move || -> Result<Seat, ThreadsFault>
            requires { seat.receipts ≡ [] }
            ensures { IfOk result (HasTurned seat.number turns) }
        { turn(rt, shared, seat, turns, gate) },
    )?;
    Ok(turner)
}

// Joins all threads and appends their seats to `back`. Returns the fault of the lowest seat, if any.
fn join_players<'e, R: Threads>(
    rt: &R,
    players: Vec<Player<'e>>,
    scripts: &[Vec<Op>],
    back: &mut Vec<Seat>,
) -> Result<(), ThreadsFault>
    requires each { AreToPlay scripts.now players.items }
    requires none { vec_len back.old ≡ 0 }
    requires room { vec_len players < vec_capacity back.old }
    ensures ok { OnOk result (HavePlayed scripts.now (vec_len players.entry) back.new.items) }
    ensures room { vec_len back.new < vec_capacity back.new }
{
    let mut fault = Ok(());
    for player in players {
        match player.join(rt) {
            Ok(seat) => back.push_reserved(seat),
            Err(found) => {
                if fault.is_ok() {
                    fault = Err(found);
                }
            }
        }
    }
    fault
}
