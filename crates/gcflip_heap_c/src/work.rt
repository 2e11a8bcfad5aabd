//! The exports that perform many useful steps in one call.

ghost use Rattle.std.specs.Prelude.{◌≡◌, ◌≤◌, ◌↔◌, Some, None, IfSome, IsSomeAnd, IsTrue, IfOk, OnErr};
ghost use Rattle.gc_check.specs.InC.{done, no_memory};
ghost use Rattle.gc_model.specs.Steps.{useful_step};
ghost use Rattle.gc_collected.specs.CollectedHeap.{Allocates};
ghost use Rattle.gc_pace.specs.Work.{IsWork, sized_step};
ghost use Rattle.gc_pace.specs.declared.work.Looks.{Looks};
ghost use Rattle.gcflip_heap_c.specs.Work.{IsWorkCall, RefusedRooms, work_in_c};

use crate::answer::{DONE, NO_MEMORY, OUT_OF_RANGE};
use crate::guards::lent;
use crate::handle::GcflipHeap;
use crate::reply::{of_step, pairs_of};
use gc_graph::NoMemory;
use gc_pace::{Work, work_on, work_within};

/// What a call of work did, as C sees it.
#[repr(C)]
#[derive(Clone, Copy, Debug, Drop, PartialEq, Eq)]
pub struct GcflipWork {
    /// The number of steps performed.
    pub steps: u32,
    /// The number of words that these steps' replicas took in the new space (to-space).
    pub copied: u32,
    /// The number that stands for the reply to the last step, or 0 if no step was performed.
    pub last: u32,
    /// The number of pairs if the last step flipped, otherwise 0.
    pub pairs: u32,
    /// The number of looks at extra roots whose targets had replicas.
    pub looks: u32,
}

/// Returns the report as C sees it.
pub(crate) fn report(work: Work) -> GcflipWork
    ensures { result ≡ work_in_c work }
{
    let (last, pairs) = match work.last {
        None => (0, 0),
        Some(reply) => (of_step(reply), pairs_of(reply, 0)),
    };
    GcflipWork {
        steps: work.steps,
        copied: work.copied,
        last,
        pairs,
        looks: work.looks,
    }
}

/// Writes the report of a call of work to `told`, unless memory was refused. Returns C's number for the call.
#[inline(always)]
pub(crate) fn of_work(made: Result<Work, NoMemory>, told: &mut GcflipWork) -> u32
    ensures done { IfOk made (λ work. (result ≡ done) × (told.new ≡ work_in_c work)) }
    ensures refused { OnErr made ((result ≡ no_memory) × (told.new ≡ told.old)) }
{
    match made {
        Ok(work) => {
            *told = report(work);
            DONE
        }
        Err(NoMemory) => NO_MEMORY,
    }
}

// Returns whether work can perform this many steps with a begin of this size.
fn is_fit(size: Option<u32>, most: u32) -> bool
    ensures { IsTrue result ↔ ((1 ≤ most) × IfSome size (λ words. 1 ≤ words)) }
{
    most >= 1 && !matches!(size, Some(0))
}

// Performs at most `most` units of work, unless an argument is out of range.
fn work_sized(heap: &mut GcflipHeap, size: Option<u32>, most: u32, work: &mut GcflipWork) -> u32
    ensures call { IsWorkCall ((1 ≤ most) × IfSome size (λ words. 1 ≤ words)) size (λ old new. IsWork Looks.Count size None most old.core new.core) heap.old heap.new work.new result }
    ensures silent { 1 ≤ result → work.new ≡ work.old }
    ensures memory { result ≡ no_memory → IsSomeAnd heap.old.state (λ s. Allocates s (sized_step size s)) }
    // A refused call changes nothing but the memory that waits.
    ensures unchanged { 1 ≤ result → heap.new.beside ≡ record heap.old.beside { rooms = heap.new.beside.rooms } }
    ensures freed { 1 ≤ result → RefusedRooms result heap.old.beside.rooms heap.new.beside.rooms }
{
    let heap = lent!(heap);
    if !is_fit(size, most) {
        return OUT_OF_RANGE;
    }
    of_work(work_on(heap, size, most), work)
}

/// Performs at most `most` units of work, and writes a report of them to `work`. A useful step is a unit, and so are 32 looks at extra roots that find
/// nothing to copy. Stops after a flip, and after a step that finds no room. If an allocation fails, stops before that step, and returns 1 only if that
/// was the first step.
#[unsafe(no_mangle)]
pub extern "C" fn gcflip_heap_work(heap: &mut GcflipHeap, most: u32, work: &mut GcflipWork) -> u32
    ensures call { IsWorkCall (1 ≤ most) None (λ old new. IsWork Looks.Count None None most old.core new.core) heap.old heap.new work.new result }
    ensures silent { 1 ≤ result → work.new ≡ work.old }
    ensures memory { result ≡ no_memory → IsSomeAnd heap.old.state (λ s. Allocates s (useful_step s)) }
    // A refused call changes nothing but the memory that waits.
    ensures unchanged { 1 ≤ result → heap.new.beside ≡ record heap.old.beside { rooms = heap.new.beside.rooms } }
    ensures freed { 1 ≤ result → RefusedRooms result heap.old.beside.rooms heap.new.beside.rooms }
{
    work_sized(heap, None, most, work)
}

/// Does the same, but if a step is a begin, the new space gets `size` words, at least 1.
#[unsafe(no_mangle)]
pub extern "C" fn gcflip_heap_work_sized(
    heap: &mut GcflipHeap,
    most: u32,
    size: u32,
    work: &mut GcflipWork,
) -> u32
    ensures call { IsWorkCall ((1 ≤ most) × (1 ≤ size)) (Some size) (λ old new. IsWork Looks.Count (Some size) None most old.core new.core) heap.old heap.new work.new result }
    ensures silent { 1 ≤ result → work.new ≡ work.old }
    ensures memory { result ≡ no_memory → IsSomeAnd heap.old.state (λ s. Allocates s (sized_step (Some size) s)) }
    // A refused call changes nothing but the memory that waits.
    ensures unchanged { 1 ≤ result → heap.new.beside ≡ record heap.old.beside { rooms = heap.new.beside.rooms } }
    ensures freed { 1 ≤ result → RefusedRooms result heap.old.beside.rooms heap.new.beside.rooms }
{
    work_sized(heap, Some(size), most, work)
}

/// Does the same as `gcflip_heap_work`, but also stops after the step with which the replicas of this call take `words` words or more.
#[unsafe(no_mangle)]
pub extern "C" fn gcflip_heap_work_within(
    heap: &mut GcflipHeap,
    most: u32,
    words: u32,
    work: &mut GcflipWork,
) -> u32
    ensures call { IsWorkCall (1 ≤ most) None (λ old new. IsWork Looks.Count None (Some words) most old.core new.core) heap.old heap.new work.new result }
    ensures silent { 1 ≤ result → work.new ≡ work.old }
    ensures memory { result ≡ no_memory → IsSomeAnd heap.old.state (λ s. Allocates s (useful_step s)) }
    // A refused call changes nothing but the memory that waits.
    ensures unchanged { 1 ≤ result → heap.new.beside ≡ record heap.old.beside { rooms = heap.new.beside.rooms } }
    ensures freed { 1 ≤ result → RefusedRooms result heap.old.beside.rooms heap.new.beside.rooms }
{
    let heap = lent!(heap);
    if most == 0 {
        return OUT_OF_RANGE;
    }
    of_work(work_within(heap, most, words), work)
}
