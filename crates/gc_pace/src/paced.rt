//! The steps that are due, performed in one call.

ghost use Rattle.std.specs.Prelude.{◌≡◌, ◌≤◌, min, Some, None, IfOk, OnErr};
ghost use Rattle.gc_pace.specs.Beside.{LeavesBeside, WasRefused};
ghost use Rattle.gc_pace.specs.Pace.{IsPacedWork};
ghost use Rattle.gc_pace.specs.Work.{IsWork, no_work};
ghost use Rattle.gc_pace.specs.declared.work.Looks.{Looks};

use crate::counts::Counts;
use crate::pace::Pace;
use crate::work::{Work, only_looks, work_bounded, work_through};
use gc_collected::CollectedHeap;
use gc_graph::NoMemory;

/// Performs this many useful steps, or none. Unless `words` is 0, 32 looks count as a step, and it ends once it performed `words` steps, or took twice
/// as many looks, or replicas took `words` words.
#[tactic(auto, using(crate::proofs::Waiting::unworked))]
fn work_due(heap: &mut CollectedHeap, words: u32, due: u32) -> Result<Work, NoMemory>
    ensures none { due ≡ 0 → IfOk result (λ work. (heap.new ≡ heap.old) × (work ≡ no_work)) }
    ensures some { 1 ≤ due → words ≡ 0 → IfOk result (IsWork Looks.AreFree None None due heap.old.core heap.new.core) }
    ensures within { 1 ≤ due → 1 ≤ words → IfOk result (IsWork (Looks.CountUpTo words) None (Some words) (min due words) heap.old.core heap.new.core) }
    ensures beside { IfOk result (LeavesBeside None heap.old heap.new) }
    ensures refused { OnErr result (WasRefused None heap.old heap.new) }
{
    if due == 0 {
        return Ok(only_looks(0));
    }
    if words == 0 {
        return work_through(heap, due);
    }
    work_bounded(heap, due.min(words), words)
}

/// Performs the useful steps that are due before the program allocates `wanted` words, and reports them. Stops early for the reasons of
/// `work_on` and, if the pace bounds the words, once it performed as many units, or took twice as many looks, or its replicas took as many words. The pace
/// keeps the steps that are left then. On `NoMemory` it is unchanged.
pub fn work_at_pace(
    heap: &mut CollectedHeap,
    pace: &mut Pace,
    wanted: u32,
) -> Result<Work, NoMemory>
    ensures work { IfOk result (IsPacedWork wanted heap.old heap.new pace.old pace.new) }
    ensures beside { IfOk result (LeavesBeside None heap.old heap.new) }
    ensures pace { OnErr result (pace.new ≡ pace.old) }
    ensures refused { OnErr result (WasRefused None heap.old heap.new) }
{
    heap.is_sound();
    let due = pace.steps_due(&Counts::of(heap), wanted);
    let work = work_due(heap, pace.words, due)?;
    pace.remember_work(due, &work, &Counts::of(heap));
    Ok(work)
}
