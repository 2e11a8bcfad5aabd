//! The exports that decide by a pace how many steps are due, and perform them.

ghost use Rattle.std.specs.Prelude.{◌≡◌, ◌⊎◌, ◌≤◌, ◌↔◌, None, IsSomeAnd};
ghost use Rattle.gc_check.specs.InC.{done, no_memory};
ghost use Rattle.gc_model.specs.Steps.{useful_step};
ghost use Rattle.gc_collected.specs.CollectedHeap.{Allocates};
ghost use Rattle.gc_pace.specs.Counts.{counts_in};
ghost use Rattle.gc_pace.specs.Pace.{IsPace, IsPacedWork, Pays, pace_from, steps_due};
ghost use Rattle.gcflip_heap_c.specs.Commands.{heap_behind};
ghost use Rattle.gc_in_c.specs.Answers.{out_of_range, closed_handle};
ghost use Rattle.gcflip_heap_c.specs.Work.{IsWorkCall, RefusedRooms};

use crate::answer::{DONE, OUT_OF_RANGE};
use crate::guards::lent;
use crate::handle::GcflipHeap;
use crate::work::{GcflipWork, of_work};
use gc_pace::{Counts, Pace, work_at_pace};

/// Returns the number of useful steps that are due before the program allocates `wanted` words. This is the whole policy of paced work:
/// it reads nothing but its arguments.
#[unsafe(no_mangle)]
pub extern "C" fn gcflip_pace_due(pace: &Pace, counts: &Counts, wanted: u32) -> u32
    ensures due { result ≡ steps_due pace.now counts.now wanted }
    ensures paid { Pays pace.now counts.now result }
{
    pace.steps_due(counts, wanted)
}

/// Makes the pace remember this heap as it is, as if it had just flipped. Returns 2 if the factor is out of range.
#[unsafe(no_mangle)]
pub extern "C" fn gcflip_heap_pace(heap: &mut GcflipHeap, pace: &mut Pace) -> u32
    ensures answers { (result ≡ done) ⊎ ((result ≡ out_of_range) ⊎ (result ≡ closed_handle)) }
    ensures pace { result ≡ done → IsSomeAnd heap.old.state (λ s. pace.new ≡ pace_from pace.old (counts_in (heap_behind heap.old s))) }
    ensures heap { heap.new.state ≡ heap.old.state }
    ensures silent { 1 ≤ result → pace.new ≡ pace.old }
    ensures outside { (result ≡ out_of_range) ↔ IsSomeAnd heap.old.state (λ s. ¬ IsPace pace.old) }
    ensures closed { (result ≡ closed_handle) ↔ (heap.old.state ≡ None) }
    ensures beside { heap.new.beside ≡ heap.old.beside }
{
    let heap = lent!(heap);
    if !pace.is_fit() {
        return OUT_OF_RANGE;
    }
    pace.remember(&Counts::of(heap));
    DONE
}

/// Performs the useful steps that are due before the program allocates `wanted` words, and writes a report of them to `work`. Stops early
/// for the reasons of `gcflip_heap_work` and, if the pace bounds the words, once it performed as many units, or took twice as many looks, or its replicas
/// took as many words. The pace keeps the steps that are left then.
#[unsafe(no_mangle)]
pub extern "C" fn gcflip_heap_work_paced(
    heap: &mut GcflipHeap,
    pace: &mut Pace,
    wanted: u32,
    work: &mut GcflipWork,
) -> u32
    ensures call { IsWorkCall (IsPace pace.old) None (λ old new. IsPacedWork wanted old new pace.old pace.new) heap.old heap.new work.new result }
    ensures silent { 1 ≤ result → (pace.new ≡ pace.old) × (work.new ≡ work.old) }
    ensures memory { result ≡ no_memory → IsSomeAnd heap.old.state (λ s. Allocates s (useful_step s)) }
    // A refused call changes nothing but the memory that waits.
    ensures unchanged { 1 ≤ result → heap.new.beside ≡ record heap.old.beside { rooms = heap.new.beside.rooms } }
    ensures freed { 1 ≤ result → RefusedRooms result heap.old.beside.rooms heap.new.beside.rooms }
{
    let heap = lent!(heap);
    if !pace.is_fit() {
        return OUT_OF_RANGE;
    }
    of_work(work_at_pace(heap, pace, wanted), work)
}
