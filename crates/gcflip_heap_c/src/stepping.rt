//! The exports that perform collector steps.

ghost use Rattle.std.specs.Prelude.{◌≡◌, ◌≢◌, ◌⊎◌, ◌↔◌, ◌<◌, ◌≤◌, None, IfSome, IsSome, IsSomeAnd, IsTrue, MatchOption, ⊤};
ghost use Rattle.gc_check.specs.InC.{done, no_memory, IsRefusal};
ghost use Rattle.gc_model.specs.declared.step.Step.{Step};
ghost use Rattle.gc_model.specs.Steps.{collect, useful_step};
ghost use Rattle.gc_collected.specs.CollectedHeap.{Allocates};
ghost use Rattle.gc_model.specs.declared.step.StepReply.{StepReply};
ghost use Rattle.gc_collected.specs.Flip.{FormerAfter, HasRoomIfLarge, new_size};
ghost use Rattle.gc_collected.specs.Collected.{BeginsIn, checks_whole, rooms_flipped, rooms_given_up, turns_after};
ghost use Rattle.gc_collected.specs.declared.flip.Keep.{Keep};
ghost use Rattle.gc_in_c.specs.Answers.{closed_handle};
ghost use Rattle.gcflip_heap_c.specs.Commands.{IsCall, Replies};
ghost use Rattle.gcflip_heap_c.specs.Steps.{IsStepCall, ShowsReply, step_in_c};
ghost use Rattle.gcflip_heap_c.specs.Replies.{step_reply_in_c, pairs_after};
ghost use Rattle.gc_pace.specs.Work.{IsSoundReply};
ghost use Rattle.gcflip_heap_c.specs.Work.{RefusedRooms};

use crate::answer::{DONE, NO_MEMORY, OUT_OF_RANGE};
use crate::guards::{lent, lent_to};
use crate::handle::GcflipHeap;
use crate::reply::{of_step, pairs_of};
use gc_check::Sequential;
use gc_collected::Keep;
use gc_copy::Step;
use gc_graph::NoMemory;

/// A step as C sees it.
#[repr(C)]
#[derive(Clone, Copy, Debug, Drop, PartialEq, Eq)]
pub struct GcflipStep {
    /// The number that stands for the step.
    pub name: u32,
    /// The mutator whose log the step applies, or 0 if it applies none.
    pub mutator: u32,
}

/// Returns the step as C sees it.
fn of_useful(step: Step) -> GcflipStep
    ensures { result ≡ step_in_c step }
{
    let (name, mutator) = match step {
        Step::Begin => (1, 0),
        Step::BeginSized(_) => (2, 0),
        Step::Roots => (3, 0),
        Step::Scan => (4, 0),
        Step::Apply(m) => (5, u32::from(m)),
        Step::Flip => (6, 0),
        Step::Drop => (7, 0),
    };
    GcflipStep { name, mutator }
}

/// Writes the useful step to `step`, and performs none.
#[unsafe(no_mangle)]
pub extern "C" fn gcflip_heap_useful(heap: &mut GcflipHeap, step: &mut GcflipStep) -> u32
    ensures answers { (result ≡ done) ⊎ (result ≡ closed_handle) }
    ensures step { IfSome heap.old.state (λ s. step.new ≡ step_in_c (useful_step s)) }
    ensures heap { heap.new.state ≡ heap.old.state }
    ensures silent { result ≡ closed_handle → step.new ≡ step.old }
    ensures closed { (result ≡ closed_handle) ↔ (heap.old.state ≡ None) }
    ensures beside { heap.new.beside ≡ heap.old.beside }
{
    *step = of_useful(lent!(heap).next_useful_step());
    DONE
}

/// Opens a collection whose new space is as large as the heap. Allocates the new space and the logs.
#[unsafe(no_mangle)]
pub extern "C" fn gcflip_heap_step_begin(heap: &mut GcflipHeap) -> u32
    ensures call { IsStepCall (λ _. ⊤) Step.Begin heap.old.state heap.new.state result }
    ensures memory { result ≡ no_memory → IsSomeAnd heap.old.state (λ s. Allocates s Step.Begin) }
    // The old space of the last flip stays until a collection begins.
    ensures former { ¬ IsRefusal result → IsSomeAnd heap.old.state (λ s. FormerAfter Keep.Room s heap.old.beside.former (collect s Step.Begin).0 heap.new.beside.former) }
    ensures turns { heap.new.beside.turns ≡ heap.old.beside.turns }
    ensures rooms { result ≡ step_reply_in_c StepReply.Begun → IsSomeAnd heap.old.state (λ s. BeginsIn s.size heap.old.beside heap.new.beside.rooms) }
    ensures freed { result ≢ step_reply_in_c StepReply.Begun → RefusedRooms result heap.old.beside.rooms heap.new.beside.rooms }
    ensures pair { heap.new.beside.pair ≡ heap.old.beside.pair }
    ensures unchanged { IsRefusal result → heap.new.beside.former ≡ heap.old.beside.former }
{
    match lent!(heap).begin() {
        Ok(begun) => of_step(begun),
        Err(NoMemory) => NO_MEMORY,
    }
}

/// Opens a collection whose new space has `size` words, at least 1. Allocates the new space and the logs.
#[unsafe(no_mangle)]
pub extern "C" fn gcflip_heap_step_begin_sized(heap: &mut GcflipHeap, size: u32) -> u32
    ensures call { IsStepCall (λ _. 1 ≤ size) (Step.BeginSized size) heap.old.state heap.new.state result }
    ensures memory { result ≡ no_memory → IsSomeAnd heap.old.state (λ s. Allocates s (Step.BeginSized size)) }
    // The old space of the last flip stays until a collection begins.
    ensures former { ¬ IsRefusal result → IsSomeAnd heap.old.state (λ s. FormerAfter Keep.Room s heap.old.beside.former (collect s (Step.BeginSized size)).0 heap.new.beside.former) }
    ensures turns { heap.new.beside.turns ≡ heap.old.beside.turns }
    ensures rooms { result ≡ step_reply_in_c StepReply.Begun → IsSomeAnd heap.old.state (λ s. BeginsIn size heap.old.beside heap.new.beside.rooms) }
    ensures freed { result ≢ step_reply_in_c StepReply.Begun → RefusedRooms result heap.old.beside.rooms heap.new.beside.rooms }
    ensures pair { heap.new.beside.pair ≡ heap.old.beside.pair }
    ensures unchanged { IsRefusal result → heap.new.beside.former ≡ heap.old.beside.former }
{
    let heap = lent!(heap);
    if size < 1 {
        return OUT_OF_RANGE;
    }
    match heap.begin_sized(size) {
        Ok(begun) => of_step(begun),
        Err(NoMemory) => NO_MEMORY,
    }
}

/// Replicates the target of the first root whose target has no replica.
#[unsafe(no_mangle)]
pub extern "C" fn gcflip_heap_step_roots(heap: &mut GcflipHeap) -> u32
    ensures call { IsStepCall (λ _. ⊤) Step.Roots heap.old.state heap.new.state result }
    ensures memory { result ≢ no_memory }
    ensures room { ¬ IsRefusal result → IsSomeAnd heap.old.state (λ s. ShowsReply (HasRoomIfLarge s) result) }
    ensures beside { heap.new.beside ≡ heap.old.beside }
{
    of_step(lent!(heap).roots())
}

/// Brings the field at the scan pointer up to date, or moves on to the next replica.
#[unsafe(no_mangle)]
pub extern "C" fn gcflip_heap_step_scan(heap: &mut GcflipHeap) -> u32
    ensures call { IsStepCall (λ _. ⊤) Step.Scan heap.old.state heap.new.state result }
    ensures memory { result ≢ no_memory }
    ensures room { ¬ IsRefusal result → IsSomeAnd heap.old.state (λ s. ShowsReply (HasRoomIfLarge s) result) }
    ensures beside { heap.new.beside ≡ heap.old.beside }
{
    of_step(lent!(heap).scan())
}

/// Applies the oldest entry of mutator `m`'s log.
#[unsafe(no_mangle)]
pub extern "C" fn gcflip_heap_step_apply(heap: &mut GcflipHeap, m: u8) -> u32
    ensures call { IsStepCall (λ s. m < s.mutators) (Step.Apply m) heap.old.state heap.new.state result }
    ensures memory { result ≢ no_memory }
    ensures room { ¬ IsRefusal result → IsSomeAnd heap.old.state (λ s. ShowsReply (HasRoomIfLarge s) result) }
    ensures beside { heap.new.beside ≡ heap.old.beside }
{
    let heap = lent_to!(heap, m);
    of_step(heap.apply_log(m))
}

/// Flips if the open collection is ready and a checker accepts it. Then writes the number of pairs to `pairs`. Allocates nothing if the
/// standing checker decides. If both spaces are checked whole, it allocates the moved roots, the certificate and the checker's tables, and
/// frees them before it returns.
#[unsafe(no_mangle)]
pub extern "C" fn gcflip_heap_step_flip(heap: &mut GcflipHeap, pairs: &mut u32) -> u32
    ensures call { IsCall (λ _. ⊤) (Replies (λ s. collect s Step.Flip)
        (λ reply. (result ≡ step_reply_in_c reply) × (pairs.new ≡ pairs_after pairs.old reply))) heap.old.state heap.new.state result }
    ensures memory { result ≡ no_memory → IsSomeAnd heap.old.state (λ s. Allocates s Step.Flip) }
    // It flips only if the certificate holds. It is not refused, and a ready collection flips.
    ensures flips { ¬ IsRefusal result → IsSomeAnd heap.old.state (λ s. IsSomeAnd heap.new.state (Replies (λ s. collect s Step.Flip)
        (λ reply. (result ≡ step_reply_in_c reply) × IsSoundReply s reply) s)) }
    // The old space stays, and tells the pairs of that certificate.
    ensures former { ¬ IsRefusal result → IsSomeAnd heap.old.state (λ s. FormerAfter Keep.Room s heap.old.beside.former (collect s Step.Flip).0 heap.new.beside.former) }
    // It is counted as checked whole if that was due.
    ensures turns { ¬ IsRefusal result → IsSomeAnd heap.old.state (λ s. heap.new.beside.turns ≡ turns_after Keep.Room heap.old.beside.turns (collect s Step.Flip).0) }
    ensures rooms { IsSome heap.old.state → heap.new.beside.rooms ≡ rooms_flipped Keep.Room heap.old.beside }
    ensures due { result ≡ no_memory → IsTrue (checks_whole Keep.Room heap.old.beside.turns) }
    ensures pair { heap.new.beside.pair ≡ heap.old.beside.pair }
    // A refused call changes nothing but the memory that waits.
    ensures unchanged { IsRefusal result → heap.new.beside ≡ record heap.old.beside { rooms = heap.new.beside.rooms } }
    ensures silent { IsRefusal result → pairs.new ≡ pairs.old }
{
    match lent!(heap).flip(&Sequential, Keep::Room) {
        Ok(reply) => {
            *pairs = pairs_of(reply, *pairs);
            of_step(reply)
        }
        Err(NoMemory) => NO_MEMORY,
    }
}

/// Gives the open collection up. Keeps its new space for the next one, and frees the entries of its logs.
#[unsafe(no_mangle)]
pub extern "C" fn gcflip_heap_step_give_up(heap: &mut GcflipHeap) -> u32
    ensures call { IsStepCall (λ _. ⊤) Step.Drop heap.old.state heap.new.state result }
    ensures memory { result ≢ no_memory }
    // The room of the collection waits for the next one, or leaves if there is room already. Nothing else beside the state changes.
    ensures rooms { MatchOption heap.old.state (heap.new.beside ≡ heap.old.beside)
        (λ s. heap.new.beside ≡ record heap.old.beside { rooms = rooms_given_up (new_size s) heap.old.beside.rooms }) }
{
    of_step(lent!(heap).give_up())
}
