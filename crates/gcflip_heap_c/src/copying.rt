//! The exports that copy fields from one object to another, or write one value to many fields.

ghost use Rattle.std.specs.Prelude.{◌≡◌, ◌≢◌, ◌<◌, ◌≤◌, ◌∷◌, [], IsSome, IsSomeAnd};
ghost use Rattle.gc_check.specs.InC.{no_memory};
ghost use Rattle.gc_collected.specs.Copying.{copy_fields_step, copy_values_step, fill_fields_step};
ghost use Rattle.gcflip_heap_c.specs.Commands.{IsCommandCall};
ghost use Rattle.gcflip_heap_c.specs.Places.{HasRoots};
ghost use Rattle.gcflip_heap_c.specs.Slots.{NamesSlots, numbered_slot};

use crate::answer::OUT_OF_RANGE;
use crate::guards::{lent, lent_to, slot_named};
use crate::handle::GcflipHeap;
use gc_in_c::of_result;

/// Copies `count` fields: from field `from` on, of the object that slot `s` refers to, to field `to` and on of the object that slot `d`
/// refers to. For each field this is a `gcflip_heap_get` into slot `t` and a `gcflip_heap_put` of slot `t`, in rising order and in one call,
/// so `t` keeps the last value; it is another slot than `d` and `s`. All are copied or none. Allocates only while a collection is open.
#[unsafe(no_mangle)]
pub extern "C" fn gcflip_heap_copy_fields(
    heap: &mut GcflipHeap,
    m: u8,
    d: u8,
    to: u16,
    s: u8,
    from: u16,
    t: u8,
    count: u16,
) -> u32
    ensures call { IsCommandCall (λ state. NamesSlots m (d ∷ s ∷ t ∷ []) state × (t ≢ d) × (t ≢ s))
        (λ state. copy_fields_step state m (numbered_slot d) to (numbered_slot s) from (numbered_slot t) count) heap.old.state heap.new.state result }
    ensures memory { result ≡ no_memory → IsSomeAnd heap.old.state (λ s. IsSome s.collection) }
    ensures beside { heap.new.beside ≡ heap.old.beside }
{
    let heap = lent_to!(heap, m);
    if t == d || t == s {
        return OUT_OF_RANGE;
    }
    let target = slot_named!(d);
    let source = slot_named!(s);
    let value = slot_named!(t);
    of_result(heap.copy_fields(m, target, to, source, from, value, count))
}

/// Copies `count` fields: from field `from` on, of the object that root `s` refers to, to field `to` and on of the object that root `d` refers to. Each takes,
/// in rising order, the value that the other field has then. No root changes. All are copied or none. While a collection is open, the fields are logged in
/// mutator `m`'s log. Allocates only then.
#[unsafe(no_mangle)]
pub extern "C" fn gcflip_copy_fields(
    heap: &mut GcflipHeap,
    m: u32,
    d: u32,
    to: u32,
    s: u32,
    from: u32,
    count: u32,
) -> u32
    ensures call { IsCommandCall (λ state. (m < state.mutators) × HasRoots (d ∷ s ∷ []) state)
        (λ state. copy_values_step state m d to s from count) heap.old.state heap.new.state result }
    ensures memory { result ≡ no_memory → IsSomeAnd heap.old.state (λ s. IsSome s.collection) }
    ensures beside { heap.new.beside ≡ heap.old.beside }
    ensures looks { heap.new.roots_left ≡ heap.old.roots_left }
{
    let heap = lent!(heap);
    let roots = heap.root_places();
    if m >= u32::from(heap.mutators()) || d as usize >= roots || s as usize >= roots {
        return OUT_OF_RANGE;
    }
    of_result(heap.copy_root_fields(m as u8, d, to, s, from, count))
}

/// Writes the value of root `t` to the fields from `from` to `to - 1` of the object that root `s` refers to. For each field this is a `gcflip_put`, in rising
/// order and in one call. All are written or none. While a collection is open, the fields are logged in mutator `m`'s log. Allocates only then.
#[unsafe(no_mangle)]
pub extern "C" fn gcflip_fill(
    heap: &mut GcflipHeap,
    m: u32,
    s: u32,
    from: u32,
    to: u32,
    t: u32,
) -> u32
    ensures call { IsCommandCall (λ state. (m < state.mutators) × HasRoots (s ∷ t ∷ []) state × (from ≤ to))
        (λ state. fill_fields_step state m s from to t) heap.old.state heap.new.state result }
    ensures memory { result ≡ no_memory → IsSomeAnd heap.old.state (λ s. IsSome s.collection) }
    ensures beside { heap.new.beside ≡ heap.old.beside }
    ensures looks { heap.new.roots_left ≡ heap.old.roots_left }
{
    let heap = lent!(heap);
    let roots = heap.root_places();
    if m >= u32::from(heap.mutators()) || from > to {
        return OUT_OF_RANGE;
    }
    if s as usize >= roots || t as usize >= roots {
        return OUT_OF_RANGE;
    }
    of_result(heap.fill(m as u8, s, from, to, t))
}
