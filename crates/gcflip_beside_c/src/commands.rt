//! The exports that perform commands. They name a root by its place: first the 32 slots, then the extra roots.

ghost use Rattle.std.specs.Prelude.{◌≡◌, ◌≢◌, ◌<◌, ◌^◌};
ghost use Rattle.gc_check.specs.InC.{no_memory, IsRefusal};
ghost use Rattle.gc_graph.specs.Limits.{kinds, lengths};
ghost use Rattle.gc_graph.specs.declared.command.Op.{Op};
ghost use Rattle.gc_graph.specs.Graph.{Nil, Num};
ghost use Rattle.gc_heap.specs.Places.{root_at};
ghost use Rattle.gc_concurrent.specs.Holders.{heap_in};
ghost use Rattle.gc_concurrent.specs.Machines.{MakesPair, PutsValue};
ghost use Rattle.gc_in_c.specs.Replies.{reply_in_c, got_in_c, number_after, view_after};
ghost use Rattle.gcflip_beside_c.specs.Addresses.{beginning_at, moves_at};
ghost use Rattle.gcflip_beside_c.specs.Commands.{IsBesideCall, IsBesideCommand, IsBesideReply, GetsReply, field_numbered, room_in, roots_in};
ghost use Rattle.gcflip_beside_c.specs.HandleStage.{stage, runs, cells_at};

use crate::answer::{CLOSED, OUT_OF_RANGE, PARKED};
use crate::end::End;
use crate::guards::{in_range, lent};
use crate::handle::GcflipEnd;
use gc_concurrent::Commander;
use gc_graph::Number;
use gc_in_c::{GcflipView, of_got, of_look, of_reply, of_result};

// The field with this number. No object has field 65535, which stands for all that follow.
pub(crate) fn field(i: u32) -> u16
    ensures { result ≡ field_numbered i }
{
    if i < 65536 { i as u16 } else { 65535 }
}

/// Makes an object of this kind with `count` fields, all nil, and puts a reference to it into root `d`.
#[unsafe(no_mangle)]
pub extern "C" fn gcflip_beside_new(mutator: &mut GcflipEnd, d: u32, kind: u32, count: u32) -> u32
    ensures call { IsBesideCommand (λ roots. (d < roots) × (kind < kinds) × (count < lengths)) (Op.New (root_at d) kind count)
        (stage mutator.old.end) (stage mutator.new.end) result }
    ensures memory { result ≢ no_memory }
    ensures cells { cells_at mutator.new.end ≡ cells_at mutator.old.end }
    ensures moves { moves_at mutator.new.end ≡ moves_at mutator.old.end }
    ensures begun { beginning_at mutator.new.end ≡ beginning_at mutator.old.end }
{
    let runner = match lent!(mutator) {
        End::Running(runner) => runner,
        End::Parked(_) => return PARKED,
        _ => return CLOSED,
    };
    in_range!(runner.commander, d);
    if kind > 255 || count > 65535 {
        return OUT_OF_RANGE;
    }
    of_reply(&runner.commander.new_root(d, kind as u8, count as u16))
}

/// Makes a raw object of this kind with `count` fields that are numbers, all 0, and puts a reference to it into root `d`.
#[unsafe(no_mangle)]
pub extern "C" fn gcflip_beside_new_raw(
    mutator: &mut GcflipEnd,
    d: u32,
    kind: u32,
    count: u32,
) -> u32
    ensures call { IsBesideCommand (λ roots. (d < roots) × (kind < kinds) × (count < lengths)) (Op.NewRaw (root_at d) kind count)
        (stage mutator.old.end) (stage mutator.new.end) result }
    ensures memory { result ≢ no_memory }
    ensures cells { cells_at mutator.new.end ≡ cells_at mutator.old.end }
    ensures moves { moves_at mutator.new.end ≡ moves_at mutator.old.end }
    ensures begun { beginning_at mutator.new.end ≡ beginning_at mutator.old.end }
{
    let runner = match lent!(mutator) {
        End::Running(runner) => runner,
        End::Parked(_) => return PARKED,
        _ => return CLOSED,
    };
    in_range!(runner.commander, d);
    if kind > 255 || count > 65535 {
        return OUT_OF_RANGE;
    }
    of_reply(&runner.commander.new_raw_root(d, kind as u8, count as u16))
}

/// Puts the number `n`, which must be below 2^63, into root `d`.
#[unsafe(no_mangle)]
pub extern "C" fn gcflip_beside_set_number(mutator: &mut GcflipEnd, d: u32, n: u64) -> u32
    ensures call { IsBesideCommand (λ roots. (d < roots) × (n < 2 ^ 63)) (Op.Num (root_at d) n) (stage mutator.old.end) (stage mutator.new.end) result }
    ensures memory { result ≢ no_memory }
    ensures cells { cells_at mutator.new.end ≡ cells_at mutator.old.end }
    ensures moves { moves_at mutator.new.end ≡ moves_at mutator.old.end }
    ensures begun { beginning_at mutator.new.end ≡ beginning_at mutator.old.end }
{
    let runner = match lent!(mutator) {
        End::Running(runner) => runner,
        End::Parked(_) => return PARKED,
        _ => return CLOSED,
    };
    in_range!(runner.commander, d);
    let Some(number) = Number::new(n) else {
        return OUT_OF_RANGE;
    };
    of_reply(&runner.commander.num_root(d, number))
}

/// Puts nil into root `d`.
#[unsafe(no_mangle)]
pub extern "C" fn gcflip_beside_set_nil(mutator: &mut GcflipEnd, d: u32) -> u32
    ensures call { IsBesideCommand (λ roots. d < roots) (Op.Nil (root_at d)) (stage mutator.old.end) (stage mutator.new.end) result }
    ensures memory { result ≢ no_memory }
    ensures cells { cells_at mutator.new.end ≡ cells_at mutator.old.end }
    ensures moves { moves_at mutator.new.end ≡ moves_at mutator.old.end }
    ensures begun { beginning_at mutator.new.end ≡ beginning_at mutator.old.end }
{
    let runner = match lent!(mutator) {
        End::Running(runner) => runner,
        End::Parked(_) => return PARKED,
        _ => return CLOSED,
    };
    in_range!(runner.commander, d);
    of_reply(&runner.commander.nil_root(d))
}

/// Copies the value of root `s` into root `d`.
#[unsafe(no_mangle)]
pub extern "C" fn gcflip_beside_copy(mutator: &mut GcflipEnd, d: u32, s: u32) -> u32
    ensures call { IsBesideCommand (λ roots. (d < roots) × (s < roots)) (Op.Move (root_at d) (root_at s))
        (stage mutator.old.end) (stage mutator.new.end) result }
    ensures memory { result ≢ no_memory }
    ensures cells { cells_at mutator.new.end ≡ cells_at mutator.old.end }
    ensures moves { moves_at mutator.new.end ≡ moves_at mutator.old.end }
    ensures begun { beginning_at mutator.new.end ≡ beginning_at mutator.old.end }
{
    let runner = match lent!(mutator) {
        End::Running(runner) => runner,
        End::Parked(_) => return PARKED,
        _ => return CLOSED,
    };
    in_range!(runner.commander, d);
    in_range!(runner.commander, s);
    of_reply(&runner.commander.copy_root(d, s))
}

/// Reads field `i` of the object that root `s` refers to into root `d`. If the value is a number, also writes it to `number`. If it is a reference, the
/// reply does not say whether the object is raw.
#[unsafe(no_mangle)]
pub extern "C" fn gcflip_beside_get(
    mutator: &mut GcflipEnd,
    d: u32,
    s: u32,
    i: u32,
    number: &mut u64,
) -> u32
    ensures call { IsBesideCall (λ roots. (d < roots) × (s < roots)) (GetsReply (Op.Get (root_at d) (root_at s) (field_numbered i))
        (λ reply. (result ≡ got_in_c reply) × (number.new ≡ number_after number.old reply))) (stage mutator.old.end) (stage mutator.new.end) result }
    ensures silent { IsRefusal result → number.new ≡ number.old }
    ensures memory { result ≢ no_memory }
    ensures cells { cells_at mutator.new.end ≡ cells_at mutator.old.end }
    ensures moves { moves_at mutator.new.end ≡ moves_at mutator.old.end }
    ensures begun { beginning_at mutator.new.end ≡ beginning_at mutator.old.end }
{
    let runner = match lent!(mutator) {
        End::Running(runner) => runner,
        End::Parked(_) => return PARKED,
        _ => return CLOSED,
    };
    in_range!(runner.commander, d);
    in_range!(runner.commander, s);
    of_got(&runner.commander.get_root(d, s, field(i)), number)
}

/// Writes the value of root `t` to field `i` of the object that root `s` refers to, and logs the field once the collector has begun to copy. Only this command
/// allocates.
#[unsafe(no_mangle)]
pub extern "C" fn gcflip_beside_put(mutator: &mut GcflipEnd, s: u32, i: u32, t: u32) -> u32
    ensures call { IsBesideCommand (λ roots. (s < roots) × (t < roots)) (Op.Put (root_at s) (field_numbered i) (root_at t))
        (stage mutator.old.end) (stage mutator.new.end) result }
    ensures cells { cells_at mutator.new.end ≡ cells_at mutator.old.end }
    ensures moves { moves_at mutator.new.end ≡ moves_at mutator.old.end }
    ensures begun { beginning_at mutator.new.end ≡ beginning_at mutator.old.end }
{
    let runner = match lent!(mutator) {
        End::Running(runner) => runner,
        End::Parked(_) => return PARKED,
        _ => return CLOSED,
    };
    in_range!(runner.commander, s);
    in_range!(runner.commander, t);
    of_result(runner.commander.put_root(s, field(i), t))
}

/// Writes the number `n`, which must be below 2^63, to field `i` of the object that root `s` refers to, as `gcflip_beside_put` writes a root's value. No root
/// changes.
#[unsafe(no_mangle)]
pub extern "C" fn gcflip_beside_put_number(mutator: &mut GcflipEnd, s: u32, i: u32, n: u64) -> u32
    ensures call { IsBesideReply (λ roots. (s < roots) × (n < 2 ^ 63)) (PutsValue s (field_numbered i) (Num n))
        (stage mutator.old.end) (stage mutator.new.end) result }
    ensures cells { cells_at mutator.new.end ≡ cells_at mutator.old.end }
    ensures moves { moves_at mutator.new.end ≡ moves_at mutator.old.end }
    ensures begun { beginning_at mutator.new.end ≡ beginning_at mutator.old.end }
{
    let runner = match lent!(mutator) {
        End::Running(runner) => runner,
        End::Parked(_) => return PARKED,
        _ => return CLOSED,
    };
    in_range!(runner.commander, s);
    let Some(number) = Number::new(n) else {
        return OUT_OF_RANGE;
    };
    of_result(runner.commander.put_number_root(s, field(i), number))
}

/// Writes nil to field `i` of the object that root `s` refers to, as `gcflip_beside_put_number` writes a number.
#[unsafe(no_mangle)]
pub extern "C" fn gcflip_beside_put_nil(mutator: &mut GcflipEnd, s: u32, i: u32) -> u32
    ensures call { IsBesideReply (λ roots. s < roots) (PutsValue s (field_numbered i) Nil) (stage mutator.old.end) (stage mutator.new.end) result }
    ensures cells { cells_at mutator.new.end ≡ cells_at mutator.old.end }
    ensures moves { moves_at mutator.new.end ≡ moves_at mutator.old.end }
    ensures begun { beginning_at mutator.new.end ≡ beginning_at mutator.old.end }
{
    let runner = match lent!(mutator) {
        End::Running(runner) => runner,
        End::Parked(_) => return PARKED,
        _ => return CLOSED,
    };
    in_range!(runner.commander, s);
    of_result(runner.commander.put_nil_root(s, field(i)))
}

/// Makes an object of this kind with two fields, which take the values of roots `s` and `t`, and puts a reference to it into root `d`. Root `d` is set first, so
/// a field filled from root `d` refers to the object itself. Both fields are logged once the collector has begun to copy.
#[unsafe(no_mangle)]
pub extern "C" fn gcflip_beside_new_pair(
    mutator: &mut GcflipEnd,
    d: u32,
    kind: u32,
    s: u32,
    t: u32,
) -> u32
    ensures call { IsBesideReply (λ roots. (d < roots) × (s < roots) × (t < roots) × (kind < kinds)) (MakesPair d kind s t)
        (stage mutator.old.end) (stage mutator.new.end) result }
    ensures cells { cells_at mutator.new.end ≡ cells_at mutator.old.end }
    ensures moves { moves_at mutator.new.end ≡ moves_at mutator.old.end }
    ensures begun { beginning_at mutator.new.end ≡ beginning_at mutator.old.end }
{
    let runner = match lent!(mutator) {
        End::Running(runner) => runner,
        End::Parked(_) => return PARKED,
        _ => return CLOSED,
    };
    in_range!(runner.commander, d);
    in_range!(runner.commander, s);
    in_range!(runner.commander, t);
    if kind > 255 {
        return OUT_OF_RANGE;
    }
    of_result(runner.commander.new_pair_root(d, kind as u8, s, t))
}

// Compares the values of two roots, which this command leaves as they are.
fn compared(commander: &Commander, s: u32, t: u32) -> u32
    ensures call { IsBesideCommand (λ roots. (s < roots) × (t < roots)) (Op.Same (root_at s) (root_at t))
        (runs (heap_in commander.now)) (runs (heap_in commander.now)) result }
    ensures memory { result ≢ no_memory }
{
    in_range!(commander, s);
    in_range!(commander, t);
    of_reply(&commander.same_root(s, t))
}

/// Compares the values of two roots.
#[unsafe(no_mangle)]
pub extern "C" fn gcflip_beside_same(mutator: &mut GcflipEnd, s: u32, t: u32) -> u32
    ensures call { IsBesideCommand (λ roots. (s < roots) × (t < roots)) (Op.Same (root_at s) (root_at t))
        (stage mutator.old.end) (stage mutator.new.end) result }
    ensures memory { result ≢ no_memory }
    ensures cells { cells_at mutator.new.end ≡ cells_at mutator.old.end }
    ensures moves { moves_at mutator.new.end ≡ moves_at mutator.old.end }
    ensures begun { beginning_at mutator.new.end ≡ beginning_at mutator.old.end }
{
    if mutator.is_empty() {
        return CLOSED;
    }
    match mutator.end_mut() {
        End::Running(runner) => compared(&runner.commander, s, t),
        End::Parked(_) => PARKED,
        _ => CLOSED,
    }
}

/// Looks at the value of root `s`, and writes what it saw to `view`.
#[unsafe(no_mangle)]
pub extern "C" fn gcflip_beside_look(mutator: &mut GcflipEnd, s: u32, view: &mut GcflipView) -> u32
    ensures call { IsBesideCall (λ roots. s < roots) (GetsReply (Op.Look (root_at s))
        (λ reply. (result ≡ reply_in_c reply) × (view.new ≡ view_after view.old reply))) (stage mutator.old.end) (stage mutator.new.end) result }
    ensures silent { IsRefusal result → view.new ≡ view.old }
    ensures memory { result ≢ no_memory }
    ensures cells { cells_at mutator.new.end ≡ cells_at mutator.old.end }
    ensures moves { moves_at mutator.new.end ≡ moves_at mutator.old.end }
    ensures begun { beginning_at mutator.new.end ≡ beginning_at mutator.old.end }
{
    let runner = match lent!(mutator) {
        End::Running(runner) => runner,
        End::Parked(_) => return PARKED,
        _ => return CLOSED,
    };
    in_range!(runner.commander, s);
    of_look(&runner.commander.look_root(s), view)
}

/// Returns the number of roots of a mutator that runs, otherwise 0.
#[unsafe(no_mangle)]
pub extern "C" fn gcflip_beside_roots(mutator: &mut GcflipEnd) -> u32
    ensures count { result ≡ roots_in (stage mutator.old.end) }
    ensures end { mutator.new.end ≡ mutator.old.end }
{
    if mutator.is_empty() {
        return 0;
    }
    match mutator.end_mut() {
        End::Running(runner) => runner.commander.count_roots(),
        _ => 0,
    }
}

/// Returns the number of free words of a mutator that runs, otherwise 0.
#[unsafe(no_mangle)]
pub extern "C" fn gcflip_beside_room(mutator: &mut GcflipEnd) -> u32
    ensures words { result ≡ room_in (stage mutator.old.end) }
    ensures end { mutator.new.end ≡ mutator.old.end }
{
    if mutator.is_empty() {
        return 0;
    }
    match mutator.end_mut() {
        End::Running(runner) => runner.commander.room(),
        _ => 0,
    }
}
