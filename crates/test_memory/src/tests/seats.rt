//! The shared world: its calls, its closing, and scripts in threads. A failed call leaves the seat's receipts
//! unchanged, and the world can be closed later.

ghost use Rattle.std.specs.Prelude.{◌≡◌, ◌≤◌, IfOk, IfSome, vec_len};
ghost use Rattle.gc_shared.specs.Seats.{HasSize};

use super::expecting::expect;
use super::marks::{fence, retried};
use gc_copy::{Step, StepReply};
use gc_graph::{Number, Op, Reply, Slot, View};
use gc_shared::{CallFault, CloseKind, Gate, Seat, Shared, ThreadsFault, run_threads};
use std::alloc::{AllocError, Global};
use std::process::Abort;
use std::sync::Wait;
use std::test::Fail;
use std::thread::Threads;

/// Closes the world, and tests that it has this many events.
fn expect_world(rt: &impl Abort, shared: Shared, seats: Vec<Seat>, events: usize) {
    match shared.close(seats) {
        Ok(world) => expect(rt, world.history().len() == events, "all events"),
        Err(_) => expect(rt, false, "a world that closes"),
    }
}

/// Opens a world for one mutator and this many collectors, and tests that all their seats are there.
fn expect_open(rt: &impl Abort, alloc: Global, collectors: u8)
    requires { collectors ≤ 16 }
{
    fence(alloc);
    let mut opened = Shared::open(alloc, 32, 1, collectors);
    fence(alloc);
    if opened.is_err() {
        retried(alloc);
        opened = Shared::open(alloc, 32, 1, collectors);
    }
    let (shared, seats) = opened.expect(rt, "a world");
    expect(rt, shared.mutators() == 1, "one mutator");
    expect(rt, seats.len() == 1 + usize::from(collectors), "all seats");
    expect_world(rt, shared, seats, 0);
}

#[test]
fn shared_open(rt: HostRuntime) {
    expect_open(&rt, rt.alloc(), 1);
}

#[test]
fn shared_open_of_16_collectors(rt: HostRuntime) {
    expect_open(&rt, rt.alloc(), 16);
}

/// Performs a command, and tests its reply.
fn expect_call(
    rt: &(impl Wait + Abort),
    alloc: Global,
    shared: &Shared,
    seat: &mut Seat,
    op: &Op,
    reply: Reply,
) {
    let count = seat.receipts().len();
    fence(alloc);
    let mut answer = shared.call(rt, seat, op);
    fence(alloc);
    if answer == Err(CallFault::NoMemory) {
        retried(alloc);
        expect(rt, seat.receipts().len() == count, "no receipt");
        answer = shared.call(rt, seat, op);
    }
    expect(rt, answer == Ok(reply), "the reply");
    expect(
        rt,
        seat.receipts().len() == count.saturating_add(1),
        "a receipt",
    );
}

/// Opens a world for one mutator and one collector, and returns it with both seats.
fn opened(rt: &impl Abort, alloc: Global) -> (Shared, Seat, Seat) {
    let (shared, mut seats) = Shared::open(alloc, 32, 1, 1).expect(rt, "a world");
    let collector = seats.pop().expect(rt, "two seats");
    let mutator = seats.pop().expect(rt, "two seats");
    (shared, mutator, collector)
}

/// Closes a world with these seats, and tests that it has this many events.
fn expect_events(
    rt: &impl Abort,
    alloc: Global,
    shared: Shared,
    mutator: Seat,
    collector: Seat,
    events: usize,
) {
    let mut seats = Vec::new(alloc);
    seats.push(mutator).expect(rt, "room");
    seats.push(collector).expect(rt, "room");
    expect_world(rt, shared, seats, events);
}

#[test]
fn shared_call(rt: HostRuntime) {
    let _named = View::Nil;
    let alloc = rt.alloc();
    let r0 = Slot::own(0).expect(&rt, "a slot");
    let new = Op::New {
        d: r0,
        kind: 1,
        len: 1,
    };
    let put = Op::Put { s: r0, i: 0, t: r0 };
    let (shared, mut mutator, mut collector) = opened(&rt, alloc);
    expect_call(&rt, alloc, &shared, &mut mutator, &new, Reply::Made);
    let begun = shared.step(&rt, &mut collector, Step::Begin);
    expect(&rt, begun == Ok(StepReply::Begun), "an open collection");
    // While a collection is open, this also needs room in the log.
    expect_call(&rt, alloc, &shared, &mut mutator, &put, Reply::Done);
    expect_events(&rt, alloc, shared, mutator, collector, 3);
}

/// Performs this step, or the useful one if none is given. Returns the step and its reply.
fn collected(
    rt: &(impl Threads + Wait + Sync),
    shared: &Shared,
    seat: &mut Seat,
    step: Option<Step>,
) -> Result<(Step, StepReply), CallFault>
    requires { IfSome step HasSize }
{
    match step {
        Some(step) => Ok((step, shared.step(rt, seat, step)?)),
        None => shared.useful(rt, seat),
    }
}

/// Performs a step, and tests which one it was, and its reply.
fn expect_step(
    rt: &(impl Threads + Wait + Abort + Sync),
    alloc: Global,
    shared: &Shared,
    seat: &mut Seat,
    step: Option<Step>,
    expected: (Step, StepReply),
)
    requires { IfSome step HasSize }
{
    let count = seat.receipts().len();
    fence(alloc);
    let mut answer = collected(rt, shared, seat, step);
    fence(alloc);
    if answer == Err(CallFault::NoMemory) {
        retried(alloc);
        expect(rt, seat.receipts().len() == count, "no receipt");
        answer = collected(rt, shared, seat, step);
    }
    expect(rt, answer == Ok(expected), "the reply");
    expect(
        rt,
        seat.receipts().len() == count.saturating_add(1),
        "a receipt",
    );
}

/// Performs a begin and a flip. `begin` is the begin that is asked for, and `flip` the flip, or none for useful steps.
fn expect_steps(
    rt: &(impl Threads + Wait + Abort + Sync),
    alloc: Global,
    begin: Option<Step>,
    flip: Option<Step>,
)
    requires begin { IfSome begin HasSize }
    requires flip { IfSome flip HasSize }
{
    let (shared, mutator, mut collector) = opened(rt, alloc);
    let begun = (begin.unwrap_or(Step::Begin), StepReply::Begun);
    expect_step(rt, alloc, &shared, &mut collector, begin, begun);
    let flipped = (Step::Flip, StepReply::Flipped { pairs: 0 });
    expect_step(rt, alloc, &shared, &mut collector, flip, flipped);
    expect_events(rt, alloc, shared, mutator, collector, 2);
}

#[test]
fn shared_step(rt: HostRuntime) {
    expect_steps(&rt, rt.alloc(), Some(Step::Begin), Some(Step::Flip));
}

#[test]
fn shared_step_of_a_size(rt: HostRuntime) {
    expect_steps(
        &rt,
        rt.alloc(),
        Some(Step::BeginSized(64)),
        Some(Step::Flip),
    );
}

#[test]
fn shared_useful(rt: HostRuntime) {
    expect_steps(&rt, rt.alloc(), None, None);
}

/// Returns a world with a begin and a flip, and its seats.
fn flipped(rt: &(impl Threads + Wait + Abort + Sync), alloc: Global) -> (Shared, Vec<Seat>) {
    let (shared, mut seats) = Shared::open(alloc, 32, 1, 1).expect(rt, "a world");
    let mut collector = seats.pop().expect(rt, "two seats");
    for expected in [StepReply::Begun, StepReply::Flipped { pairs: 0 }] {
        let made = shared.useful(rt, &mut collector);
        expect(
            rt,
            matches!(made, Ok((_, reply)) if reply == expected),
            "the reply",
        );
    }
    seats.push(collector).expect(rt, "room");
    (shared, seats)
}

#[test]
fn shared_close(rt: HostRuntime) {
    let alloc = rt.alloc();
    let (shared, seats) = flipped(&rt, alloc);
    fence(alloc);
    let closed = shared.close(seats);
    fence(alloc);
    let mut world = match closed {
        Ok(world) => world,
        Err(fault) => {
            retried(alloc);
            expect(&rt, fault.kind == CloseKind::NoMemory, "the fault");
            fault.world
        }
    };
    // Whether or not an allocation failed, the world has its whole history and its kept pair.
    expect(&rt, world.history().len() == 2, "two events");
    expect(&rt, world.take_flip().is_some(), "a kept pair");
}

/// A gate that lets every call pass.
struct Open;

impl Gate for Open {
    fn before(&self, seat: u32, n: u64) -> bool {
        true
    }

    fn after(&self, seat: u32, n: u64) {}
}

/// Returns two scripts. The first writes 5 to the field of a new shared object, and the second reads the field.
fn scripts(alloc: Global) -> Result<Vec<Vec<Op>>, Fail>
    ensures { IfOk result (λ scripts. vec_len scripts ≡ 2) }
{
    let g0 = Slot::shared(0).ok_or("slot")?;
    let r0 = Slot::own(0).ok_or("slot")?;
    let r1 = Slot::own(1).ok_or("slot")?;
    let five = Number::new(5).ok_or("number")?;
    let writes = [
        Op::New {
            d: g0,
            kind: 1,
            len: 1,
        },
        Op::Num { d: r0, n: five },
        Op::Put { s: g0, i: 0, t: r0 },
    ];
    let reads = [Op::Get { d: r1, s: g0, i: 0 }];
    Ok(two(alloc, &writes, &reads)?)
}

fn two(alloc: Global, first: &[Op], second: &[Op]) -> Result<Vec<Vec<Op>>, AllocError>
    ensures { IfOk result (λ scripts. vec_len scripts ≡ 2) }
{
    let mut scripts = Vec::new(alloc);
    scripts.push(Vec::from_slice(alloc, first)?)?;
    scripts.push(Vec::from_slice(alloc, second)?)?;
    Ok(scripts)
}

/// The only faults are those that a failed allocation can cause. The run is not retried, since the scripts are gone.
#[test]
fn threads_run_scripts(rt: HostRuntime) -> Result<(), Fail> {
    let _named = View::Nil;
    let alloc = rt.alloc();
    let scripts = scripts(alloc)?;
    fence(alloc);
    let run = run_threads(&rt, alloc, 64, scripts, 40, &Open);
    fence(alloc);
    match run {
        Ok(world) => expect(&rt, world.history().len() == 44, "all events"),
        Err(fault) => {
            retried(alloc);
            let allowed = fault == ThreadsFault::NotStarted
                || fault == ThreadsFault::NoMemory
                || fault == ThreadsFault::Close(CloseKind::NoMemory);
            expect(&rt, allowed, "a fault that a failed allocation causes");
        }
    }
    Ok(())
}
