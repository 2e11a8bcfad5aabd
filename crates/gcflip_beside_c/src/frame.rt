//! The exports on frames, which are stacks in the extra roots.

ghost use Rattle.std.specs.Prelude.{◌≡◌, ◌≢◌, ◌<◌, ◌^◌, ◌↔◌, IsTrue, length};
ghost use Rattle.gc_check.specs.InC.{done, no_memory};
ghost use Rattle.gc_concurrent.specs.Bulk.{PerformsEach};
ghost use Rattle.gc_concurrent.specs.Holders.{beginning_of, cells_of, heap_in, moves_in};
ghost use Rattle.gcflip_beside_c.specs.Answers.{frame_empty, frame_full};
ghost use Rattle.gcflip_beside_c.specs.Bulk.{HasFrame, MovesFrame, pop_commands, popped, push_commands, pushed, trim_commands, trimmed};
ghost use Rattle.gcflip_beside_c.specs.Addresses.{beginning_at, moves_at};
ghost use Rattle.gcflip_beside_c.specs.Commands.{IsBesideCall};
ghost use Rattle.gcflip_beside_c.specs.HandleStage.{stage, cells_at};

use crate::answer::{CLOSED, DONE, FRAME_EMPTY, FRAME_FULL, OUT_OF_RANGE, PARKED};
use crate::end::End;
use crate::guards::{in_range, lent};
use crate::handle::GcflipEnd;
use gc_concurrent::Commander;

/// The number of roots that are no extra roots, which are also the places before that of the first extra root.
const SLOTS: u32 = 32;

/// A frame: the extra roots from `first` on and below `end` as a stack. Those below `top` hold its values. Those from `top` on and below
/// `high` may hold values that the program dropped when it lowered `top`. C sees the same record.
#[repr(C)]
#[derive(Clone, Copy, Debug, Drop, PartialEq, Eq)]
pub struct GcflipFrame {
    /// The first extra root of the frame.
    pub first: u32,
    /// The extra root behind its last one.
    pub end: u32,
    /// The extra root that the next push sets.
    pub top: u32,
    /// The extra root behind the last one that may hold a value. If it is below `top`, it counts as `top`.
    pub high: u32,
}

// Returns whether the numbers of the frame are in order, and the mutator has its roots.
fn is_in(frame: &GcflipFrame, commander: &Commander) -> bool
    ensures is { IsTrue result ↔ HasFrame frame.now (length commander.now.roots.items) }
    ensures few { length commander.now.roots.items < 2 ^ 32 }
{
    frame.first <= frame.top
        && frame.top <= frame.end
        && frame.high <= frame.end
        && u64::from(SLOTS) + u64::from(frame.end) <= u64::from(commander.count_roots())
}

// Copies the value of root `s` to the top of the frame, if that has a root left.
fn push(commander: &mut Commander, s: u32, frame: &mut GcflipFrame) -> u32
    requires place { s < length commander.old.roots.items }
    requires frame { HasFrame frame.old (length commander.old.roots.items) }
    requires few { length commander.old.roots.items < 2 ^ 32 }
    ensures step { MovesFrame frame.old.top frame.old.end frame_full (push_commands frame.old s) result (heap_in commander.old) (heap_in commander.new) }
    ensures frame { result ≡ done → frame.new ≡ pushed frame.old }
    ensures stuck { result ≢ done → frame.new ≡ frame.old }
    ensures cells { cells_of commander.new ≡ cells_of commander.old }
    ensures moves { moves_in commander.new ≡ moves_in commander.old }
    ensures begun { beginning_of commander.new ≡ beginning_of commander.old }
{
    let top = frame.top;
    if top == frame.end {
        return FRAME_FULL;
    }
    frame.top = top + 1;
    if frame.high <= top {
        frame.high = top + 1;
    }
    let _done = commander.copy_root(SLOTS + top, s);
    DONE
}

// Copies the value at the top of the frame into root `d`, if the frame has one.
fn pop(commander: &mut Commander, d: u32, frame: &mut GcflipFrame) -> u32
    requires place { d < length commander.old.roots.items }
    requires frame { HasFrame frame.old (length commander.old.roots.items) }
    requires few { length commander.old.roots.items < 2 ^ 32 }
    ensures step { MovesFrame frame.old.top frame.old.first frame_empty (pop_commands frame.old d) result (heap_in commander.old) (heap_in commander.new) }
    ensures frame { result ≡ done → frame.new ≡ popped frame.old }
    ensures stuck { result ≢ done → frame.new ≡ frame.old }
    ensures cells { cells_of commander.new ≡ cells_of commander.old }
    ensures moves { moves_in commander.new ≡ moves_in commander.old }
    ensures begun { beginning_of commander.new ≡ beginning_of commander.old }
{
    let top = frame.top;
    if top == frame.first {
        return FRAME_EMPTY;
    }
    frame.top = top - 1;
    if frame.high <= top {
        frame.high = top - 1;
    }
    let last = SLOTS + (top - 1);
    let _moved = commander.copy_root(d, last);
    let _cleared = commander.nil_root(last);
    DONE
}

// Sets at most `most` of the roots from the top of the frame on and below `high` to nil, the last ones.
fn trim(commander: &mut Commander, frame: &mut GcflipFrame, most: u32)
    requires frame { HasFrame frame.old (length commander.old.roots.items) }
    requires few { length commander.old.roots.items < 2 ^ 32 }
    ensures step { PerformsEach (trim_commands frame.old most) (heap_in commander.old) (heap_in commander.new) }
    ensures frame { frame.new ≡ trimmed frame.old most }
    ensures cells { cells_of commander.new ≡ cells_of commander.old }
    ensures moves { moves_in commander.new ≡ moves_in commander.old }
    ensures begun { beginning_of commander.new ≡ beginning_of commander.old }
{
    let low = frame.top.max(frame.high.saturating_sub(most));
    let high = low.max(frame.high);
    commander.clear_roots(SLOTS + low, SLOTS + high);
    frame.high = low;
}

/// Copies the value of root `s` to the top of the frame, and moves the top up, and `high` with it unless that is above. Returns 28 if
/// the frame is full; nothing has changed then.
#[unsafe(no_mangle)]
pub extern "C" fn gcflip_beside_frame_push(
    mutator: &mut GcflipEnd,
    s: u32,
    frame: &mut GcflipFrame,
) -> u32
    ensures call { IsBesideCall (λ roots. (s < roots) × HasFrame frame.old roots) (MovesFrame frame.old.top frame.old.end frame_full (push_commands frame.old s) result)
        (stage mutator.old.end) (stage mutator.new.end) result }
    ensures frame { result ≡ done → frame.new ≡ pushed frame.old }
    ensures silent { result ≢ done → frame.new ≡ frame.old }
    ensures memory { result ≢ no_memory }
    ensures cells { cells_at mutator.new.end ≡ cells_at mutator.old.end }
    ensures moves { moves_at mutator.new.end ≡ moves_at mutator.old.end }
    ensures begun { beginning_at mutator.new.end ≡ beginning_at mutator.old.end }
{
    let runner = match lent!(mutator) {
        End::Running(runner) => runner,
        End::Parked(_) => return PARKED,
        _ => return CLOSED,
    };
    in_range!(runner.commander, s);
    if !is_in(frame, &runner.commander) {
        return OUT_OF_RANGE;
    }
    push(&mut runner.commander, s, frame)
}

/// Moves the top of the frame down, copies the value there into root `d`, and sets that root to nil. Moves `high` down too, unless it
/// was above the top. Returns 29 if the frame is empty; nothing has changed then.
#[unsafe(no_mangle)]
pub extern "C" fn gcflip_beside_frame_pop(
    mutator: &mut GcflipEnd,
    d: u32,
    frame: &mut GcflipFrame,
) -> u32
    ensures call { IsBesideCall (λ roots. (d < roots) × HasFrame frame.old roots) (MovesFrame frame.old.top frame.old.first frame_empty (pop_commands frame.old d) result)
        (stage mutator.old.end) (stage mutator.new.end) result }
    ensures frame { result ≡ done → frame.new ≡ popped frame.old }
    ensures silent { result ≢ done → frame.new ≡ frame.old }
    ensures memory { result ≢ no_memory }
    ensures cells { cells_at mutator.new.end ≡ cells_at mutator.old.end }
    ensures moves { moves_at mutator.new.end ≡ moves_at mutator.old.end }
    ensures begun { beginning_at mutator.new.end ≡ beginning_at mutator.old.end }
{
    let runner = match lent!(mutator) {
        End::Running(runner) => runner,
        End::Parked(_) => return PARKED,
        _ => return CLOSED,
    };
    in_range!(runner.commander, d);
    if !is_in(frame, &runner.commander) {
        return OUT_OF_RANGE;
    }
    pop(&mut runner.commander, d, frame)
}

/// Sets at most `most` of the roots from the top of the frame on and below `high` to nil, the last ones, and lowers `high` to the first
/// of them.
#[unsafe(no_mangle)]
pub extern "C" fn gcflip_beside_frame_trim(
    mutator: &mut GcflipEnd,
    frame: &mut GcflipFrame,
    most: u32,
) -> u32
    ensures call { IsBesideCall (HasFrame frame.old) (λ old new. (result ≡ done) × PerformsEach (trim_commands frame.old most) old new)
        (stage mutator.old.end) (stage mutator.new.end) result }
    ensures frame { result ≡ done → frame.new ≡ trimmed frame.old most }
    ensures silent { result ≢ done → frame.new ≡ frame.old }
    ensures memory { result ≢ no_memory }
    ensures cells { cells_at mutator.new.end ≡ cells_at mutator.old.end }
    ensures moves { moves_at mutator.new.end ≡ moves_at mutator.old.end }
    ensures begun { beginning_at mutator.new.end ≡ beginning_at mutator.old.end }
{
    let runner = match lent!(mutator) {
        End::Running(runner) => runner,
        End::Parked(_) => return PARKED,
        _ => return CLOSED,
    };
    if !is_in(frame, &runner.commander) {
        return OUT_OF_RANGE;
    }
    trim(&mut runner.commander, frame, most);
    DONE
}
