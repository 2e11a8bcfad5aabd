//! The exports by address, for tables that a program keeps by the addresses of objects: they tell an object's address, follow it over a flip, make a reference of it,
//! and read the object there.

ghost use Rattle.std.specs.Prelude.{◌≡◌, ◌≢◌, ◌<◌, ◌≤◌, ⊤, IsSomeAnd};
ghost use Rattle.gc_check.specs.InC.{done, no_memory, IsRefusal};
ghost use Rattle.gc_graph.specs.Graph.{Ref, lookup};
ghost use Rattle.gc_graph.specs.Machine.{view_of};
ghost use Rattle.gc_words.specs.Views.{graph_value};
ghost use Rattle.gc_heap.specs.Heap.{graph_in};
ghost use Rattle.gc_concurrent.specs.Holders.{beginning_of, cells_of, heap_in, moves_in};
ghost use Rattle.gc_concurrent.specs.Moves.{moved_to};
ghost use Rattle.gc_in_c.specs.Replies.{seen_in_c, view_in_c};
ghost use Rattle.gc_in_c.specs.Telling.{TellsField, TellsNumber, value_in_c};
ghost use Rattle.gcflip_beside_c.specs.Addresses.{HasFlipped, Refers, address_of_root, after_refer, beginning_at, flips_in, moves_at};
ghost use Rattle.gcflip_beside_c.specs.Commands.{IsBesideCall, IsBesideReply};
ghost use Rattle.gcflip_beside_c.specs.HandleStage.{stage, runs, cells_at};

use crate::answer::{CLOSED, NO_FIELD, OUT_OF_RANGE, PARKED};
use crate::end::End;
use crate::guards::{in_range, lent};
use crate::handle::GcflipEnd;
use gc_concurrent::Commander;
use gc_graph::{Reply, View};
use gc_in_c::{GcflipView, of_look, of_reply, tell_number};
use gc_words::{OldAddr, Value};

// Writes the address of the object that root `s` refers to.
fn address_told(commander: &Commander, s: u32, address: &mut u32) -> u32
    ensures call { IsBesideCall (λ roots. s < roots) (λ old new. (new ≡ old) × TellsNumber (address_of_root old s) address.old address.new result)
        (runs (heap_in commander.now)) (runs (heap_in commander.now)) result }
    ensures silent { IsRefusal result → address.new ≡ address.old }
    ensures memory { result ≢ no_memory }
{
    in_range!(commander, s);
    tell_number(commander.address_root(s).map(|at| at.0), address)
}

/// Writes the address of the object that root `s` refers to to `address`, if there is one. A flip gives objects other addresses.
#[unsafe(no_mangle)]
pub extern "C" fn gcflip_beside_address(mutator: &mut GcflipEnd, s: u32, address: &mut u32) -> u32
    ensures call { IsBesideCall (λ roots. s < roots) (λ old new. (new ≡ old) × TellsNumber (address_of_root old s) address.old address.new result)
        (stage mutator.old.end) (stage mutator.new.end) result }
    ensures silent { IsRefusal result → address.new ≡ address.old }
    ensures memory { result ≢ no_memory }
    ensures cells { cells_at mutator.new.end ≡ cells_at mutator.old.end }
    ensures moves { moves_at mutator.new.end ≡ moves_at mutator.old.end }
    ensures begun { beginning_at mutator.new.end ≡ beginning_at mutator.old.end }
{
    if mutator.is_empty() {
        return CLOSED;
    }
    match mutator.end_mut() {
        End::Running(runner) => address_told(&runner.commander, s, address),
        End::Parked(_) => PARKED,
        _ => CLOSED,
    }
}

// Writes the address to which the last flip moved the object that was at the address `old` before it.
fn move_told(commander: &Commander, old: u32, address: &mut u32) -> u32
    ensures call { IsBesideCall (λ _. 1 ≤ (moves_in commander.now).flips)
        (λ before after. (after ≡ before) × TellsNumber (moved_to (moves_in commander.now) old) address.old address.new result)
        (runs (heap_in commander.now)) (runs (heap_in commander.now)) result }
    ensures silent { IsRefusal result → address.new ≡ address.old }
    ensures memory { result ≢ no_memory }
{
    if commander.flips() == 0 {
        return OUT_OF_RANGE;
    }
    tell_number(commander.moved(OldAddr(old)).map(|at| at.0), address)
}

/// Writes the address to which the last flip moved the object that was at the address `old` before it. Returns 18 if the object died, and 2 before the first flip.
/// For an `old` at which no object started, either may come. Takes constant time.
#[unsafe(no_mangle)]
pub extern "C" fn gcflip_beside_moved(mutator: &mut GcflipEnd, old: u32, address: &mut u32) -> u32
    ensures call { IsBesideCall (λ _. HasFlipped (moves_at mutator.old.end))
        (λ before after. (after ≡ before) × IsSomeAnd (moves_at mutator.old.end) (λ moves. TellsNumber (moved_to moves old) address.old address.new result))
        (stage mutator.old.end) (stage mutator.new.end) result }
    ensures silent { IsRefusal result → address.new ≡ address.old }
    ensures memory { result ≢ no_memory }
    ensures cells { cells_at mutator.new.end ≡ cells_at mutator.old.end }
    ensures moves { moves_at mutator.new.end ≡ moves_at mutator.old.end }
    ensures begun { beginning_at mutator.new.end ≡ beginning_at mutator.old.end }
{
    if mutator.is_empty() {
        return CLOSED;
    }
    match mutator.end_mut() {
        End::Running(runner) => move_told(&runner.commander, old, address),
        End::Parked(_) => PARKED,
        _ => CLOSED,
    }
}

/// Puts a reference to the object that starts at this address into root `d`. Returns 18 if no object starts there; the root then keeps its value. The flip of this
/// collection may copy an object that was unreachable when it began. Takes constant time.
#[unsafe(no_mangle)]
pub extern "C" fn gcflip_beside_refer(mutator: &mut GcflipEnd, d: u32, address: u32) -> u32
    ensures call { IsBesideReply (λ roots. d < roots) (Refers d address) (stage mutator.old.end) (stage mutator.new.end) result }
    ensures memory { result ≢ no_memory }
    ensures cells { cells_at mutator.new.end ≡ cells_at mutator.old.end }
    ensures moves { moves_at mutator.new.end ≡ moves_at mutator.old.end }
    ensures begun { result ≢ done → beginning_at mutator.new.end ≡ beginning_at mutator.old.end }
    ensures referred { result ≡ done → beginning_at mutator.new.end ≡ after_refer (beginning_at mutator.old.end) }
{
    let runner = match lent!(mutator) {
        End::Running(runner) => runner,
        End::Parked(_) => return PARKED,
        _ => return CLOSED,
    };
    in_range!(runner.commander, d);
    of_reply(&runner.commander.refer_root(d, OldAddr(address)))
}

/// Tells what a look at a reference to this address would see, and writes it to `view`: nil if no object starts there. Takes constant time.
#[unsafe(no_mangle)]
pub extern "C" fn gcflip_beside_object_at(
    mutator: &mut GcflipEnd,
    address: u32,
    view: &mut GcflipView,
) -> u32
    ensures call { IsBesideCall (λ _. ⊤) (λ old new. (new ≡ old) × (result ≡ seen_in_c (view_of (graph_in old).objects (Ref address)))
        × (view.new ≡ view_in_c (view_of (graph_in old).objects (Ref address)))) (stage mutator.old.end) (stage mutator.new.end) result }
    ensures silent { IsRefusal result → view.new ≡ view.old }
    ensures memory { result ≢ no_memory }
    ensures cells { cells_at mutator.new.end ≡ cells_at mutator.old.end }
    ensures moves { moves_at mutator.new.end ≡ moves_at mutator.old.end }
    ensures begun { beginning_at mutator.new.end ≡ beginning_at mutator.old.end }
{
    let runner = match lent!(mutator) {
        End::Running(runner) => runner,
        End::Parked(_) => return PARKED,
        _ => return CLOSED,
    };
    of_look(
        &Reply::Saw(runner.commander.view_at(OldAddr(address))),
        view,
    )
}

// Tells a value, with the address of its object.
fn value_told(commander: &mut Commander, value: Value, view: &mut GcflipView) -> u32
    ensures answer { result ≡ seen_in_c (view_of (graph_in (heap_in commander.old)).objects (graph_value value)) }
    ensures view { view.new ≡ value_in_c (graph_in (heap_in commander.old)).objects (graph_value value) }
    ensures made { ¬ IsRefusal result }
    ensures heap { heap_in commander.new ≡ heap_in commander.old }
    ensures cells { cells_of commander.new ≡ cells_of commander.old }
    ensures moves { moves_in commander.new ≡ moves_in commander.old }
    ensures begun { beginning_of commander.new ≡ beginning_of commander.old }
{
    match value {
        Value::Nil => of_look(&Reply::Saw(View::Nil), view),
        Value::Num(n) => of_look(&Reply::Saw(View::Num(n)), view),
        Value::Ref(at) => {
            let answer = of_look(&Reply::Saw(commander.view_at(OldAddr(at.0))), view);
            view.number = u64::from(at.0);
            answer
        }
    }
}

// Tells the value in field `i` of the object at this address.
fn field_told(commander: &mut Commander, address: OldAddr, i: u32, view: &mut GcflipView) -> u32
    ensures tells { TellsField (graph_in (heap_in commander.old)).objects (lookup (graph_in (heap_in commander.old)).objects address.0) i view.old view.new result }
    ensures made { ¬ IsRefusal result }
    ensures heap { heap_in commander.new ≡ heap_in commander.old }
    ensures cells { cells_of commander.new ≡ cells_of commander.old }
    ensures moves { moves_in commander.new ≡ moves_in commander.old }
    ensures begun { beginning_of commander.new ≡ beginning_of commander.old }
{
    match commander.view_at(address) {
        View::Nil => of_look(&Reply::Saw(View::Nil), view),
        _ => match commander.field_at(address, i) {
            None => NO_FIELD,
            Some(value) => value_told(commander, value, view),
        },
    }
}

/// Tells the value in field `i` of the object at this address, as `gcflip_beside_peek` tells it of a root's object. For a reference, also writes the address of its
/// object to `number` of the view. Tells nil if no object starts at the address. Takes constant time.
#[unsafe(no_mangle)]
pub extern "C" fn gcflip_beside_field_at(
    mutator: &mut GcflipEnd,
    address: u32,
    i: u32,
    view: &mut GcflipView,
) -> u32
    ensures call { IsBesideCall (λ _. ⊤) (λ old new. (new ≡ old) × TellsField (graph_in old).objects (lookup (graph_in old).objects address) i view.old view.new result)
        (stage mutator.old.end) (stage mutator.new.end) result }
    ensures silent { IsRefusal result → view.new ≡ view.old }
    ensures memory { result ≢ no_memory }
    ensures cells { cells_at mutator.new.end ≡ cells_at mutator.old.end }
    ensures moves { moves_at mutator.new.end ≡ moves_at mutator.old.end }
    ensures begun { beginning_at mutator.new.end ≡ beginning_at mutator.old.end }
{
    let runner = match lent!(mutator) {
        End::Running(runner) => runner,
        End::Parked(_) => return PARKED,
        _ => return CLOSED,
    };
    field_told(&mut runner.commander, OldAddr(address), i, view)
}

/// Returns the number of flips that a mutator which runs has gone through, otherwise 0. Its low 64 bits are kept.
#[unsafe(no_mangle)]
pub extern "C" fn gcflip_beside_flips(mutator: &mut GcflipEnd) -> u64
    ensures flips { result ≡ flips_in (stage mutator.old.end) (moves_at mutator.old.end) }
    ensures end { mutator.new.end ≡ mutator.old.end }
{
    if mutator.is_empty() {
        return 0;
    }
    match mutator.end_mut() {
        End::Running(runner) => runner.commander.flips(),
        _ => 0,
    }
}
