//! The exports on extra roots, and on frames, which are stacks of them.

ghost use Rattle.std.specs.Prelude.{◌≡◌, ◌≢◌, ◌⊎◌, ◌<◌, ◌≤◌, ◌-◌, ◌↔◌, ◌∷◌, []};
ghost use Rattle.gc_check.specs.InC.{done, no_memory, IsRefusal};
ghost use Rattle.gc_model.specs.State.{extra_roots_of};
ghost use Rattle.gc_collected.specs.ExtraRoots.{clear_step};
ghost use Rattle.gcflip_heap_c.specs.Answers.{frame_full, frame_empty};
ghost use Rattle.gcflip_heap_c.specs.Commands.{IsCall, IsCommandCall};
ghost use Rattle.gc_pace.specs.Frames.{HasFrame, load_step, store_step, pop_step, trim_step, pushed, popped, trimmed};
ghost use Rattle.gcflip_heap_c.specs.ExtraRoots.{NamesFrame, IsFrameCall};
ghost use Rattle.gcflip_heap_c.specs.Slots.{NamesSlots, numbered_slot};

use crate::answer::{DONE, FRAME_EMPTY, FRAME_FULL, OUT_OF_RANGE};
use crate::guards::{lent, lent_to, slot_named};
use crate::handle::GcflipHeap;
use gc_in_c::of_reply;
use gc_pace::Frame;

/// Copies the value of extra root `k` into slot `d`.
#[unsafe(no_mangle)]
pub extern "C" fn gcflip_heap_root_load(heap: &mut GcflipHeap, m: u8, d: u8, k: u32) -> u32
    ensures call { IsCommandCall (λ state. NamesSlots m (d ∷ []) state × (k < extra_roots_of state))
        (λ state. load_step state m (numbered_slot d) k) heap.old.state heap.new.state result }
    ensures memory { result ≢ no_memory }
    ensures beside { heap.new.beside ≡ heap.old.beside }
{
    let heap = lent_to!(heap, m);
    if k >= heap.extra_roots() {
        return OUT_OF_RANGE;
    }
    let d = slot_named!(d);
    of_reply(&heap.load(m, d, k))
}

/// Copies the value of slot `s` into extra root `k`.
#[unsafe(no_mangle)]
pub extern "C" fn gcflip_heap_root_store(heap: &mut GcflipHeap, m: u8, k: u32, s: u8) -> u32
    ensures call { IsCommandCall (λ state. NamesSlots m (s ∷ []) state × (k < extra_roots_of state))
        (λ state. store_step state m k (numbered_slot s)) heap.old.state heap.new.state result }
    ensures memory { result ≢ no_memory }
    ensures beside { heap.new.beside ≡ heap.old.beside }
{
    let heap = lent_to!(heap, m);
    if k >= heap.extra_roots() {
        return OUT_OF_RANGE;
    }
    let s = slot_named!(s);
    of_reply(&heap.store(m, k, s))
}

/// Sets the extra roots from `from` on, and below `to`, to nil.
#[unsafe(no_mangle)]
pub extern "C" fn gcflip_heap_root_clear(heap: &mut GcflipHeap, from: u32, to: u32) -> u32
    ensures call { IsCall (λ state. (from ≤ to) × (to ≤ extra_roots_of state))
        (λ old new. (result ≡ done) × (clear_step old from (to - from) ≡ new)) heap.old.state heap.new.state result }
    ensures memory { result ≢ no_memory }
    ensures beside { heap.new.beside ≡ heap.old.beside }
{
    let heap = lent!(heap);
    if from > to || to > heap.extra_roots() {
        return OUT_OF_RANGE;
    }
    heap.clear(from, to);
    DONE
}

/// Copies the value of slot `s` to the top of the frame, and moves the top up, and `high` with it unless that is above. Returns 28 if
/// the frame is full; nothing has changed then.
#[unsafe(no_mangle)]
pub extern "C" fn gcflip_heap_frame_push(
    heap: &mut GcflipHeap,
    m: u8,
    s: u8,
    frame: &mut Frame,
) -> u32
    ensures call { IsFrameCall (NamesFrame m s frame.old) (frame.old.top ≡ frame.old.end) frame_full
        (λ state. store_step state m frame.old.top (numbered_slot s)) heap.old.state heap.new.state result }
    ensures frame { ¬ IsRefusal result → result ≢ frame_full → frame.new ≡ pushed frame.old }
    ensures silent { IsRefusal result ⊎ (result ≡ frame_full) → frame.new ≡ frame.old }
    ensures memory { result ≢ no_memory }
    ensures beside { heap.new.beside ≡ heap.old.beside }
{
    let heap = lent_to!(heap, m);
    if !frame.is_in(heap) {
        return OUT_OF_RANGE;
    }
    let s = slot_named!(s);
    match frame.push(heap, m, s) {
        None => FRAME_FULL,
        Some(reply) => of_reply(&reply),
    }
}

/// Moves the top of the frame down, copies the value there into slot `d`, and sets that root to nil. Moves `high` down too, unless it
/// was above the top. Returns 29 if the frame is empty; nothing has changed then.
#[unsafe(no_mangle)]
pub extern "C" fn gcflip_heap_frame_pop(
    heap: &mut GcflipHeap,
    m: u8,
    d: u8,
    frame: &mut Frame,
) -> u32
    ensures call { IsFrameCall (NamesFrame m d frame.old) (frame.old.top ≡ frame.old.first) frame_empty
        (λ state. pop_step state m (numbered_slot d) (frame.old.top - 1)) heap.old.state heap.new.state result }
    ensures frame { ¬ IsRefusal result → result ≢ frame_empty → frame.new ≡ popped frame.old }
    ensures silent { IsRefusal result ⊎ (result ≡ frame_empty) → frame.new ≡ frame.old }
    ensures memory { result ≢ no_memory }
    ensures beside { heap.new.beside ≡ heap.old.beside }
{
    let heap = lent_to!(heap, m);
    if !frame.is_in(heap) {
        return OUT_OF_RANGE;
    }
    let d = slot_named!(d);
    match frame.pop(heap, m, d) {
        None => FRAME_EMPTY,
        Some(reply) => of_reply(&reply),
    }
}

/// Sets at most `most` of the roots from the top of the frame on and below `high` to nil, the last ones, and lowers `high` to the first
/// of them.
#[unsafe(no_mangle)]
pub extern "C" fn gcflip_heap_frame_trim(heap: &mut GcflipHeap, frame: &mut Frame, most: u32) -> u32
    ensures call { IsCall (HasFrame frame.old) (λ old new. (result ≡ done) × (trim_step old frame.old most ≡ new))
        heap.old.state heap.new.state result }
    ensures memory { result ≢ no_memory }
    ensures frame { ¬ IsRefusal result → frame.new ≡ trimmed frame.old most }
    ensures silent { IsRefusal result → frame.new ≡ frame.old }
    ensures beside { heap.new.beside ≡ heap.old.beside }
{
    let heap = lent!(heap);
    if !frame.is_in(heap) {
        return OUT_OF_RANGE;
    }
    frame.trim(heap, most);
    DONE
}
