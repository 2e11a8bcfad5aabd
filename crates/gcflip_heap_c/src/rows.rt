//! The exports by places that make an object of several roots, or set several roots, to the fields of one or to nil.

ghost use Rattle.std.specs.Prelude.{◌≡◌, ◌≢◌, ◌⊎◌, ◌<◌, ◌≤◌, ◌+◌, ◌-◌, ◌↔◌, ◌∷◌, [], IsSomeAnd, IsSome, IsTrue, length, map};
ghost use Rattle.std.specs.List.{AllByRecursion};
ghost use Rattle.gc_check.specs.InC.{done, no_memory};
ghost use Rattle.gc_graph.specs.Limits.{kinds, lengths};
ghost use Rattle.gc_heap.specs.Places.{root_at};
ghost use Rattle.gc_collected.specs.CollectedHeap.{new_from_step, roots_from};
ghost use Rattle.gc_collected.specs.Spreading.{spread_step};
ghost use Rattle.gc_collected.specs.Spreading.{AskForRow};
ghost use Rattle.gc_collected.specs.Values.{clear_roots_step};
ghost use Rattle.gcflip_heap_c.specs.Commands.{IsCall, IsCommandCall};
ghost use Rattle.gcflip_heap_c.specs.Places.{HasRootRange, HasRoots};

use crate::answer::{DONE, OUT_OF_RANGE};
use crate::guards::lent;
use crate::handle::GcflipHeap;
use gc_collected::{CollectedHeap, RootRow};
use gc_in_c::{are_places, of_reply, of_result};

// Returns whether the heap has a root at each of so many places, from `first` on.
#[inline(always)]
fn has_range(heap: &CollectedHeap, first: u32, count: u32) -> bool
    ensures { IsTrue result ↔ HasRootRange first count heap.now.core }
{
    u64::from(first) + u64::from(count) <= heap.root_places() as u64
}

// The roots at these places, in order.
#[derive(Drop)]
struct Places<'a> {
    places: &'a [u32],
}

impl RootRow for Places<'_> {
    ghost is_row = { λ row m roots. (length row.places.now < lengths) × AllByRecursion (λ p. p < roots) row.places.now };

    ghost names = { λ row. map root_at row.places.now };

    fn count(&self) -> u16 {
        self.places.len() as u16
    }

    #[inline(always)]
    #[tactic(auto, using(crate::proofs::Entries::named_at, crate::proofs::Entries::below_at))]
    fn place(&self, m: u8, i: u16) -> u32 {
        self.places[usize::from(i)]
    }
}

/// Makes an object of this kind with two fields, which take the values of roots `s` and `t`, and puts a reference to it into root `d`. This is
/// `gcflip_new_from` with these two roots.
#[unsafe(no_mangle)]
pub extern "C" fn gcflip_new_pair(
    heap: &mut GcflipHeap,
    m: u32,
    d: u32,
    kind: u32,
    s: u32,
    t: u32,
) -> u32
    ensures call { IsCommandCall (λ state. (m < state.mutators) × HasRoots (d ∷ s ∷ t ∷ []) state × (kind < kinds))
        (λ state. new_from_step state m (root_at d) kind (root_at s ∷ root_at t ∷ [])) heap.old.state heap.new.state result }
    ensures memory { result ≡ no_memory → IsSomeAnd heap.old.state (λ s. IsSome s.collection) }
    ensures beside { heap.new.beside ≡ heap.old.beside }
    ensures looks { AskForRow d 1 heap.old.roots_left heap.new.roots_left }
{
    let heap = lent!(heap);
    let roots = heap.root_places();
    if m >= u32::from(heap.mutators()) || kind > 255 {
        return OUT_OF_RANGE;
    }
    if d as usize >= roots || s as usize >= roots || t as usize >= roots {
        return OUT_OF_RANGE;
    }
    of_result(heap.new_pair_at_root(m as u8, d, kind as u8, s, t))
}

/// Makes an object of this kind, and puts a reference to it into root `d`. `fields` has a place for each field, which takes the value of the root there.
/// This is a `gcflip_new` followed by a `gcflip_put` for each field, in one call. Root `d` is set first, so a field filled from root `d` refers to the
/// object itself. While a collection is open, the fields are logged in mutator `m`'s log. Allocates only then.
#[unsafe(no_mangle)]
pub extern "C" fn gcflip_new_from(
    heap: &mut GcflipHeap,
    m: u32,
    d: u32,
    kind: u32,
    fields: &[u32],
) -> u32
    ensures call { IsCommandCall (λ state. (m < state.mutators) × HasRoots (d ∷ fields.now) state × (kind < kinds) × (length fields.now < lengths))
        (λ state. new_from_step state m (root_at d) kind (map root_at fields.now)) heap.old.state heap.new.state result }
    ensures memory { result ≡ no_memory → IsSomeAnd heap.old.state (λ s. IsSome s.collection) }
    ensures beside { heap.new.beside ≡ heap.old.beside }
    ensures looks { AskForRow d 1 heap.old.roots_left heap.new.roots_left }
{
    let heap = lent!(heap);
    let roots = heap.root_places();
    if m >= u32::from(heap.mutators()) || d as usize >= roots || kind > 255 {
        return OUT_OF_RANGE;
    }
    if fields.len() > usize::from(u16::MAX) || !are_places(fields, roots) {
        return OUT_OF_RANGE;
    }
    let fields = Places { places: fields };
    of_result(heap.new_from_roots(m as u8, d, kind as u8, &fields))
}

/// Makes an object of this kind with `count` fields, which take the values of the roots from `first` on, and puts a reference to it into root `d`. This
/// is `gcflip_new_from` with these roots.
#[unsafe(no_mangle)]
pub extern "C" fn gcflip_gather(
    heap: &mut GcflipHeap,
    m: u32,
    d: u32,
    kind: u32,
    first: u32,
    count: u32,
) -> u32
    ensures call { IsCommandCall (λ state. (m < state.mutators) × HasRoots (d ∷ []) state × (kind < kinds) × (count < lengths) × HasRootRange first count state)
        (λ state. new_from_step state m (root_at d) kind (roots_from first count)) heap.old.state heap.new.state result }
    ensures memory { result ≡ no_memory → IsSomeAnd heap.old.state (λ s. IsSome s.collection) }
    ensures beside { heap.new.beside ≡ heap.old.beside }
    ensures looks { AskForRow d 1 heap.old.roots_left heap.new.roots_left }
{
    let heap = lent!(heap);
    if m >= u32::from(heap.mutators()) || d as usize >= heap.root_places() || kind > 255 {
        return OUT_OF_RANGE;
    }
    if count > 65535 || !has_range(heap, first, count) {
        return OUT_OF_RANGE;
    }
    of_result(heap.gather(m as u8, d, kind as u8, first, count as u16))
}

/// Reads the first `count` fields of the object that root `s` refers to into the roots from `first` on, which do not have root `s` among them. This is a
/// `gcflip_get` for each, in rising order and in one call. All are read or none. Returns 19 if the object has fewer fields.
#[unsafe(no_mangle)]
pub extern "C" fn gcflip_spread(heap: &mut GcflipHeap, first: u32, s: u32, count: u32) -> u32
    ensures call { IsCommandCall (λ state. HasRoots (s ∷ []) state × HasRootRange first count state × ((s < first) ⊎ (first + count ≤ s)))
        (λ state. spread_step state first s count) heap.old.state heap.new.state result }
    ensures memory { result ≢ no_memory }
    ensures beside { heap.new.beside ≡ heap.old.beside }
    ensures looks { AskForRow first count heap.old.roots_left heap.new.roots_left }
{
    let heap = lent!(heap);
    if s as usize >= heap.root_places() || !has_range(heap, first, count) {
        return OUT_OF_RANGE;
    }
    if s >= first && s - first < count {
        return OUT_OF_RANGE;
    }
    of_reply(&heap.spread(first, s, count))
}

/// Puts nil into the roots from root `from` on, and below root `to`.
#[unsafe(no_mangle)]
pub extern "C" fn gcflip_clear(heap: &mut GcflipHeap, from: u32, to: u32) -> u32
    ensures call { IsCall (λ state. (from ≤ to) × (to ≤ length state.heap.graph.roots))
        (λ old new. (result ≡ done) × (clear_roots_step old from (to - from) ≡ new)) heap.old.state heap.new.state result }
    ensures memory { result ≢ no_memory }
    ensures beside { heap.new.beside ≡ heap.old.beside }
    ensures looks { (heap.old.roots_left ≤ heap.new.roots_left) × (heap.new.roots_left ≤ heap.old.roots_left + (to - from)) }
{
    let heap = lent!(heap);
    if from > to || to as usize > heap.root_places() {
        return OUT_OF_RANGE;
    }
    heap.clear_roots(from, to);
    DONE
}
