//! The exports that perform many commands at once, and those that read without a root.

ghost use Rattle.std.specs.Prelude.{◌≡◌, ◌≢◌, ◌⊎◌, ◌<◌, ◌≤◌, ◌+◌, ◌-◌, ◌↔◌, IsTrue, length};
ghost use Rattle.std.specs.List.{AllByRecursion};
ghost use Rattle.gc_check.specs.InC.{done, no_memory, IsRefusal};
ghost use Rattle.gc_graph.specs.Limits.{kinds, lengths};
ghost use Rattle.gc_heap.specs.Raws.{numbers_in};
ghost use Rattle.gc_concurrent.specs.Bulk.{clear_commands, object_of_root, places_from, CopiesFields, FillsFields, MakesFrom, Peeks, PerformsEach, ReadsNumbers, Spreads, WritesNumbers};
ghost use Rattle.gc_in_c.specs.Replies.{reply_in_c, view_after};
ghost use Rattle.gcflip_beside_c.specs.Bulk.{TellsReply};
ghost use Rattle.gcflip_beside_c.specs.Addresses.{beginning_at, moves_at};
ghost use Rattle.gcflip_beside_c.specs.Commands.{IsBesideCall, IsBesideReply, field_numbered};
ghost use Rattle.gcflip_beside_c.specs.HandleStage.{stage, cells_at};

use crate::answer::{CLOSED, DONE, OUT_OF_RANGE, PARKED};
use crate::commands::field;
use crate::end::End;
use crate::guards::{in_range, lent};
use crate::handle::GcflipEnd;
use gc_concurrent::Commander;
use gc_in_c::{GcflipView, are_places, of_look, of_reply, of_result};

// Returns whether the mutator has a root at each of so many places, from `first` on.
fn has_range(commander: &Commander, first: u32, count: u32) -> bool
    ensures { IsTrue result ↔ (first + count ≤ length commander.now.roots.items) }
{
    u64::from(first) + u64::from(count) <= u64::from(commander.count_roots())
}

/// Puts nil into the roots from place `from` on, and below place `to`.
#[unsafe(no_mangle)]
pub extern "C" fn gcflip_beside_clear(mutator: &mut GcflipEnd, from: u32, to: u32) -> u32
    ensures call { IsBesideCall (λ roots. (from ≤ to) × (to ≤ roots)) (λ old new. (result ≡ done) × PerformsEach (clear_commands from (to - from)) old new)
        (stage mutator.old.end) (stage mutator.new.end) result }
    ensures memory { result ≢ no_memory }
    ensures cells { cells_at mutator.new.end ≡ cells_at mutator.old.end }
    ensures moves { moves_at mutator.new.end ≡ moves_at mutator.old.end }
    ensures begun { beginning_at mutator.new.end ≡ beginning_at mutator.old.end }
{
    let runner = match lent!(mutator) {
        End::Running(runner) => runner,
        End::Parked(_) => return PARKED,
        _ => return CLOSED,
    };
    if from > to || to > runner.commander.count_roots() {
        return OUT_OF_RANGE;
    }
    runner.commander.clear_roots(from, to);
    DONE
}

/// Reads field `i` of the object that root `s` refers to into no root, and writes what it saw to `view`.
#[unsafe(no_mangle)]
pub extern "C" fn gcflip_beside_peek(
    mutator: &mut GcflipEnd,
    s: u32,
    i: u32,
    view: &mut GcflipView,
) -> u32
    ensures call { IsBesideCall (λ roots. s < roots) (TellsReply (λ heap reply. Peeks s (field_numbered i) heap reply × (result ≡ reply_in_c reply) × (view.new ≡ view_after view.old reply)))
        (stage mutator.old.end) (stage mutator.new.end) result }
    ensures silent { IsRefusal result → view.new ≡ view.old }
    ensures memory { result ≢ no_memory }
    ensures cells { cells_at mutator.new.end ≡ cells_at mutator.old.end }
    ensures moves { moves_at mutator.new.end ≡ moves_at mutator.old.end }
    ensures begun { beginning_at mutator.new.end ≡ beginning_at mutator.old.end }
{
    let runner = match lent!(mutator) {
        End::Running(runner) => runner,
        End::Parked(_) => return PARKED,
        _ => return CLOSED,
    };
    in_range!(runner.commander, s);
    of_look(&runner.commander.peek_root(s, field(i)), view)
}

/// Makes an object of this kind, and puts a reference to it into root `d`. `fields` has a place for each field, which takes the value of the root there. Root `d`
/// is set first, so a field filled from root `d` refers to the object itself. The fields are logged once the collector has begun to copy.
#[unsafe(no_mangle)]
pub extern "C" fn gcflip_beside_new_from(
    mutator: &mut GcflipEnd,
    d: u32,
    kind: u32,
    fields: &[u32],
) -> u32
    ensures call { IsBesideReply (λ roots. (d < roots) × (kind < kinds) × (length fields.now < lengths) × AllByRecursion (λ p. p < roots) fields.now) (MakesFrom d kind fields.now)
        (stage mutator.old.end) (stage mutator.new.end) result }
    ensures cells { cells_at mutator.new.end ≡ cells_at mutator.old.end }
    ensures moves { moves_at mutator.new.end ≡ moves_at mutator.old.end }
    ensures begun { beginning_at mutator.new.end ≡ beginning_at mutator.old.end }
{
    let runner = match lent!(mutator) {
        End::Running(runner) => runner,
        End::Parked(_) => return PARKED,
        _ => return CLOSED,
    };
    in_range!(runner.commander, d);
    let roots = runner.commander.count_roots() as usize;
    if kind > 255 || fields.len() > 65535 || !are_places(fields, roots) {
        return OUT_OF_RANGE;
    }
    of_result(runner.commander.new_from_root(d, kind as u8, fields))
}

/// Makes an object of this kind with `count` fields, which take the values of the roots from `first` on, as `gcflip_beside_new_from` does.
#[unsafe(no_mangle)]
pub extern "C" fn gcflip_beside_gather(
    mutator: &mut GcflipEnd,
    d: u32,
    kind: u32,
    first: u32,
    count: u32,
) -> u32
    ensures call { IsBesideReply (λ roots. (d < roots) × (kind < kinds) × (count < lengths) × (first + count ≤ roots)) (MakesFrom d kind (places_from first count))
        (stage mutator.old.end) (stage mutator.new.end) result }
    ensures cells { cells_at mutator.new.end ≡ cells_at mutator.old.end }
    ensures moves { moves_at mutator.new.end ≡ moves_at mutator.old.end }
    ensures begun { beginning_at mutator.new.end ≡ beginning_at mutator.old.end }
{
    let runner = match lent!(mutator) {
        End::Running(runner) => runner,
        End::Parked(_) => return PARKED,
        _ => return CLOSED,
    };
    in_range!(runner.commander, d);
    if kind > 255 || count > 65535 || !has_range(&runner.commander, first, count) {
        return OUT_OF_RANGE;
    }
    of_result(
        runner
            .commander
            .gather_root(d, kind as u8, first, count as u16),
    )
}

/// Reads the first `count` fields of the object that root `s` refers to into the roots from `first` on, which do not have root `s` among them.
#[unsafe(no_mangle)]
pub extern "C" fn gcflip_beside_spread(
    mutator: &mut GcflipEnd,
    first: u32,
    s: u32,
    count: u32,
) -> u32
    ensures call { IsBesideReply (λ roots. (s < roots) × (first + count ≤ roots) × ((s < first) ⊎ (first + count ≤ s))) (Spreads first s count)
        (stage mutator.old.end) (stage mutator.new.end) result }
    ensures memory { result ≢ no_memory }
    ensures cells { cells_at mutator.new.end ≡ cells_at mutator.old.end }
    ensures moves { moves_at mutator.new.end ≡ moves_at mutator.old.end }
    ensures begun { beginning_at mutator.new.end ≡ beginning_at mutator.old.end }
{
    let runner = match lent!(mutator) {
        End::Running(runner) => runner,
        End::Parked(_) => return PARKED,
        _ => return CLOSED,
    };
    in_range!(runner.commander, s);
    if !has_range(&runner.commander, first, count) {
        return OUT_OF_RANGE;
    }
    if s >= first && s - first < count {
        return OUT_OF_RANGE;
    }
    of_reply(&runner.commander.spread_root(first, s, count))
}

/// Writes the value of root `t` to the fields from `from` to `to - 1` of the object that root `s` refers to, and logs them once the collector has begun to copy.
#[unsafe(no_mangle)]
pub extern "C" fn gcflip_beside_fill(
    mutator: &mut GcflipEnd,
    s: u32,
    from: u32,
    to: u32,
    t: u32,
) -> u32
    ensures call { IsBesideReply (λ roots. (s < roots) × (t < roots) × (from ≤ to)) (FillsFields s from to t) (stage mutator.old.end) (stage mutator.new.end) result }
    ensures cells { cells_at mutator.new.end ≡ cells_at mutator.old.end }
    ensures moves { moves_at mutator.new.end ≡ moves_at mutator.old.end }
    ensures begun { beginning_at mutator.new.end ≡ beginning_at mutator.old.end }
{
    let runner = match lent!(mutator) {
        End::Running(runner) => runner,
        End::Parked(_) => return PARKED,
        _ => return CLOSED,
    };
    in_range!(runner.commander, s);
    in_range!(runner.commander, t);
    if from > to {
        return OUT_OF_RANGE;
    }
    of_result(runner.commander.fill_root(s, from, to, t))
}

/// Copies `count` fields, from field `from` on, of the object that root `s` refers to, to field `to` and on of the object that root `d` refers to, and logs them
/// once the collector has begun to copy. No root changes.
#[unsafe(no_mangle)]
pub extern "C" fn gcflip_beside_copy_fields(
    mutator: &mut GcflipEnd,
    d: u32,
    to: u32,
    s: u32,
    from: u32,
    count: u32,
) -> u32
    ensures call { IsBesideReply (λ roots. (d < roots) × (s < roots)) (CopiesFields d to s from count) (stage mutator.old.end) (stage mutator.new.end) result }
    ensures cells { cells_at mutator.new.end ≡ cells_at mutator.old.end }
    ensures moves { moves_at mutator.new.end ≡ moves_at mutator.old.end }
    ensures begun { beginning_at mutator.new.end ≡ beginning_at mutator.old.end }
{
    let runner = match lent!(mutator) {
        End::Running(runner) => runner,
        End::Parked(_) => return PARKED,
        _ => return CLOSED,
    };
    in_range!(runner.commander, d);
    in_range!(runner.commander, s);
    of_result(runner.commander.copy_fields_root(d, to, s, from, count))
}

/// Copies the numbers in the fields of the raw object that root `s` refers to, from field `first` on: as many as `words` takes. No root changes.
#[unsafe(no_mangle)]
pub extern "C" fn gcflip_beside_raw_read(
    mutator: &mut GcflipEnd,
    s: u32,
    first: u32,
    words: &mut [u64],
) -> u32
    ensures call { IsBesideCall (λ roots. s < roots) (TellsReply (λ heap reply. ReadsNumbers first (numbers_in (object_of_root heap s)) words.old reply words.new × (result ≡ reply_in_c reply)))
        (stage mutator.old.end) (stage mutator.new.end) result }
    ensures silent { IsRefusal result → words.new ≡ words.old }
    ensures memory { result ≢ no_memory }
    ensures cells { cells_at mutator.new.end ≡ cells_at mutator.old.end }
    ensures moves { moves_at mutator.new.end ≡ moves_at mutator.old.end }
    ensures begun { beginning_at mutator.new.end ≡ beginning_at mutator.old.end }
{
    let runner = match lent!(mutator) {
        End::Running(runner) => runner,
        End::Parked(_) => return PARKED,
        _ => return CLOSED,
    };
    in_range!(runner.commander, s);
    of_reply(&runner.commander.read_numbers_root(s, first, words))
}

/// Copies these numbers into the fields of the raw object that root `s` refers to, from field `first` on, and logs them once the collector has begun to copy. All
/// are written or none. No root changes.
#[unsafe(no_mangle)]
pub extern "C" fn gcflip_beside_raw_write(
    mutator: &mut GcflipEnd,
    s: u32,
    first: u32,
    words: &[u64],
) -> u32
    ensures call { IsBesideReply (λ roots. s < roots) (WritesNumbers s first words.now) (stage mutator.old.end) (stage mutator.new.end) result }
    ensures cells { cells_at mutator.new.end ≡ cells_at mutator.old.end }
    ensures moves { moves_at mutator.new.end ≡ moves_at mutator.old.end }
    ensures begun { beginning_at mutator.new.end ≡ beginning_at mutator.old.end }
{
    let runner = match lent!(mutator) {
        End::Running(runner) => runner,
        End::Parked(_) => return PARKED,
        _ => return CLOSED,
    };
    in_range!(runner.commander, s);
    of_result(runner.commander.write_numbers_root(s, first, words))
}
