//! Makes objects whose fields take the values of roots.

ghost use Rattle.std.specs.Prelude.{ℕ, ◌≡◌, ◌<◌, ◌≤◌, ◌+◌, ◌^◌, ◌∷◌, [], List, length, get_or, is_some, IfOk, OnErr, IsSome};
ghost use Rattle.gc_graph.specs.Slots.{SlotName, place};
ghost use Rattle.gc_graph.specs.declared.reply.Reply.{Reply};
ghost use Rattle.gc_heap.specs.Filling.{TakesFields};
ghost use Rattle.gc_roots.specs.Twins.{AsksForLook};
ghost use Rattle.gc_heap.specs.Places.{root_at};
ghost use Rattle.gc_collected.specs.CollectedHeap.{new_from_step, roots_from};
ghost use Rattle.gc_collected.specs.Internal.CollectedHeap.{BelongsIfOpen, Fits, HasSpare, state_in};
ghost use Rattle.gc_collected.specs.Internal.Follows.{Follows};
ghost use Rattle.gc_collected.specs.Internal.Together.{PerformsAll, fields_from, puts};

use crate::barrier::{are_sound_in, note_in, reserve_in};
use crate::collected_heap::CollectedHeap;
use crate::places::has_made;
use gc_copy::{Collection, heaps_have_addresses_as_names};
use gc_graph::{NoMemory, Reply, Slot, root_count};
use gc_heap::Heap;
use gc_monitor::Monitor;
use gc_words::OldAddr;

/// Roots in a row, under whatever names their owner knows them.
pub trait RootRow {
    // Holds of a row whose names are all, for this mutator, those of roots of a heap with so many roots.
    ghost is_row: { Self → ℕ → ℕ → Type 0 };

    ghost names: { Self → List SlotName };

    /// Returns the number of roots.
    fn count(&self) -> u16
        requires { (m : ℕ) × (roots : ℕ) × is_row self.now m roots }
        ensures { result ≡ length (names self.now) };

    /// Returns the place of root `i`, counted from 0, which mutator `m` names.
    fn place(&self, m: u8, i: u16) -> u32
        requires row { (roots : ℕ) × is_row self.now m roots }
        requires inside { i < length (names self.now) }
        ensures place { result ≡ place (get_or (names self.now) i (root_at 0)) m }
        ensures within { (roots : ℕ) → is_row self.now m roots → result < roots };
}

impl CollectedHeap {
    /// Makes an object of this kind with two fields, which take what `s` and `t` hold, and sets `d` to a reference to
    /// it, as `new_pair_at_root` does by places.
    #[inline(always)]
    pub fn cons(&mut self, m: u8, d: Slot, kind: u8, s: Slot, t: Slot) -> Result<Reply, NoMemory>
        requires { m < self.old.core.mutators }
        ensures step { IfOk result (λ reply. new_from_step self.old.core m d kind (s ∷ t ∷ []) ≡ (reply, self.new.core)) }
        ensures refused { OnErr result (self.new ≡ self.old) }
        ensures open { OnErr result (IsSome self.old.core.collection) }
        ensures mutators { self.new.core.mutators ≡ self.old.core.mutators }
        ensures beside { self.new.beside ≡ self.old.beside }
    {
        self.is_sound();
        // Here the prover learns that the heap is sound.
        let _ = self.heap.space();
        let pair = Pair {
            first: s.place(m) as u32,
            second: t.place(m) as u32,
        };
        self.new_from_roots(m, d.place(m) as u32, kind, &pair)
    }

    /// Makes an object of this kind and sets `d` to a reference to it, as `new_from_roots` does by places.
    #[inline(always)]
    pub fn new_from<R: RootRow>(
        &mut self,
        m: u8,
        d: Slot,
        kind: u8,
        fields: &R,
    ) -> Result<Reply, NoMemory>
        requires mutator { m < self.old.core.mutators }
        requires row { R.is_row fields.now m (length self.old.core.heap.graph.roots) }
        ensures step { IfOk result (λ reply.
            new_from_step self.old.core m d kind (R.names fields.now) ≡ (reply, self.new.core)) }
        ensures refused { OnErr result (self.new ≡ self.old) }
        ensures open { OnErr result (IsSome self.old.core.collection) }
        ensures mutators { self.new.core.mutators ≡ self.old.core.mutators }
        ensures beside { self.new.beside ≡ self.old.beside }
    {
        // Here the prover learns that the heap is sound.
        let _ = self.heap.space();
        self.new_from_roots(m, d.place(m) as u32, kind, fields)
    }

    /// Makes an object of this kind with two fields, which take what roots `s` and `t` hold, and sets root `d` to a reference to it. This is
    /// `new_from_roots` with these two roots.
    #[inline(always)]
    pub fn new_pair_at_root(
        &mut self,
        m: u8,
        d: u32,
        kind: u8,
        s: u32,
        t: u32,
    ) -> Result<Reply, NoMemory>
        requires mutator { m < self.old.core.mutators }
        requires object { d < length self.old.core.heap.graph.roots }
        requires first { s < length self.old.core.heap.graph.roots }
        requires second { t < length self.old.core.heap.graph.roots }
        ensures step { IfOk result (λ reply.
            new_from_step self.old.core m (root_at d) kind (root_at s ∷ root_at t ∷ []) ≡ (reply, self.new.core)) }
        ensures refused { OnErr result (self.new ≡ self.old) }
        ensures open { OnErr result (IsSome self.old.core.collection) }
        ensures mutators { self.new.core.mutators ≡ self.old.core.mutators }
        ensures beside { self.new.beside ≡ self.old.beside }
        ensures looks { IfOk result (λ _. AsksForLook d self.old.roots_left self.new.roots_left) }
        ensures full { IfOk result (λ reply. reply ≡ Reply.Full → self.new.roots_left ≡ self.old.roots_left) }
    {
        let pair = Pair {
            first: s,
            second: t,
        };
        self.new_from_roots(m, d, kind, &pair)
    }

    /// Makes an object of this kind with `count` fields, which take what the roots from `first` on hold, and sets root `d` to a reference to it. This
    /// is `new_from_roots` with these roots.
    #[inline(always)]
    pub fn gather(
        &mut self,
        m: u8,
        d: u32,
        kind: u8,
        first: u32,
        count: u16,
    ) -> Result<Reply, NoMemory>
        requires mutator { m < self.old.core.mutators }
        requires object { d < length self.old.core.heap.graph.roots }
        requires range { first + count ≤ length self.old.core.heap.graph.roots }
        ensures step { IfOk result (λ reply.
            new_from_step self.old.core m (root_at d) kind (roots_from first count) ≡ (reply, self.new.core)) }
        ensures refused { OnErr result (self.new ≡ self.old) }
        ensures open { OnErr result (IsSome self.old.core.collection) }
        ensures mutators { self.new.core.mutators ≡ self.old.core.mutators }
        ensures beside { self.new.beside ≡ self.old.beside }
        ensures looks { IfOk result (λ _. AsksForLook d self.old.roots_left self.new.roots_left) }
        ensures full { IfOk result (λ reply. reply ≡ Reply.Full → self.new.roots_left ≡ self.old.roots_left) }
    {
        // Here the prover learns how many roots there may be.
        let _ = self.root_places();
        let range = Range { first, count };
        self.new_from_roots(m, d, kind, &range)
    }

    /// Makes an object of this kind and sets root `d` to a reference to it. `fields` has a root for each field, which takes what that root holds.
    /// This is a `new_at_root` followed by mutator `m`'s `put_root` for each field, in one call. Returns `Made`, or `Full` if there is no room; then
    /// nothing has changed. Root `d` is set first, so a field filled from it refers to the object itself. Returns `NoMemory` only while a collection
    /// is open; the heap is then unchanged.
    #[inline(always)]
    pub fn new_from_roots<R: RootRow>(
        &mut self,
        m: u8,
        d: u32,
        kind: u8,
        fields: &R,
    ) -> Result<Reply, NoMemory>
        requires mutator { m < self.old.core.mutators }
        requires object { d < length self.old.core.heap.graph.roots }
        requires row { R.is_row fields.now m (length self.old.core.heap.graph.roots) }
        ensures step { IfOk result (λ reply.
            new_from_step self.old.core m (root_at d) kind (R.names fields.now) ≡ (reply, self.new.core)) }
        ensures refused { OnErr result (self.new ≡ self.old) }
        ensures open { OnErr result (IsSome self.old.core.collection) }
        ensures mutators { self.new.core.mutators ≡ self.old.core.mutators }
        ensures beside { self.new.beside ≡ self.old.beside }
        ensures looks { IfOk result (λ _. AsksForLook d self.old.roots_left self.new.roots_left) }
        ensures full { IfOk result (λ reply. reply ≡ Reply.Full → self.new.roots_left ≡ self.old.roots_left) }
    {
        // Here the prover learns that the heap is sound.
        let _ = self.heap.space();
        let is_open = self.collection.is_some();
        reserve_in(&mut self.collection, m, usize::from(fields.count()))?;
        let made = make_filled(
            &mut self.collection,
            &mut self.heap,
            &mut self.watch,
            is_open,
            m,
            d,
            kind,
            fields,
        );
        let slots = root_count(self.heap.mutators());
        self.known
            .took_if(has_made(&made), (d as usize) < slots, d, slots);
        Ok(made)
    }
}

// Two roots, by their places.
#[derive(Drop)]
struct Pair {
    first: u32,
    second: u32,
}

impl RootRow for Pair {
    ghost is_row = { λ row m roots. (row.first < roots) × (row.second < roots) };

    ghost names = { λ row. root_at row.first ∷ root_at row.second ∷ [] };

    #[inline(always)]
    fn count(&self) -> u16 {
        2
    }

    #[inline(always)]
    fn place(&self, m: u8, i: u16) -> u32 {
        if i == 0 { self.first } else { self.second }
    }
}

// So many roots, from the one at place `first` on.
#[derive(Drop)]
struct Range {
    first: u32,
    count: u16,
}

impl RootRow for Range {
    ghost is_row = { λ row m roots. (row.first + row.count ≤ roots) × (row.first + row.count < 2 ^ 32) };

    ghost names = { λ row. roots_from row.first row.count };

    #[inline(always)]
    fn count(&self) -> u16 {
        self.count
    }

    #[inline(always)]
    fn place(&self, m: u8, i: u16) -> u32 {
        self.first + u32::from(i)
    }
}

// Makes an object and fills it from these roots, as `new_from_roots` does. If a collection is open, which `is_open` says, logs each field; then the
// log needs room for them. A new object has no replica, so the monitor is told of the object alone.
#[inline(always)]
fn make_filled<R: RootRow>(
    collection: &mut Option<Collection>,
    heap: &mut Heap,
    watch: &mut Monitor,
    is_open: bool,
    m: u8,
    d: u32,
    kind: u8,
    fields: &R,
) -> Reply
    requires belongs { BelongsIfOpen heap.old collection.old }
    requires open { is_open ≡ is_some collection.old }
    requires mutator { m < heap.old.mutators }
    requires object { d < length heap.old.roots }
    requires row { R.is_row fields.now m (length heap.old.roots) }
    requires room { HasSpare collection.old m (length (R.names fields.now)) }
    ensures step { new_from_step (state_in heap.old collection.old) m (root_at d) kind (R.names fields.now) ≡ (result, state_in heap.new collection.new) }
    ensures fits { (epoch : ℕ) → Fits epoch heap.old collection.old → Fits epoch heap.new collection.new }
    ensures mutators { heap.new.mutators ≡ heap.old.mutators }
    ensures follows { Follows (state_in heap.old collection.old) watch.old → Follows (state_in heap.new collection.new) watch.new }
{
    heaps_have_addresses_as_names();
    are_sound_in(collection, heap);
    // Here the prover learns that the heap is sound.
    let _ = heap.space();
    let object = OldAddr(heap.space().end());
    let count = fields.count();
    let made = heap.new_at_root(d, kind, count);
    if let Reply::Full = made {
        return made;
    }
    fill_each(heap, m, d, object, fields);
    note_in(collection, is_open, m, object, 0, count);
    watch.made(heap.space().words());
    made
}

// Fills the new object in root `d` from these roots, in the heap alone.
#[inline(always)]
fn fill_each<R: RootRow>(heap: &mut Heap, m: u8, d: u32, object: OldAddr, fields: &R)
    requires row { R.is_row fields.now m (length heap.old.roots) }
    requires takes { TakesFields heap.old d object.0 (length (R.names fields.now)) }
    ensures performs { PerformsAll heap.old m (puts (root_at d) 0 (R.names fields.now)) (fields_from object.0 0 (length (R.names fields.now))) heap.new }
    ensures mutators { heap.new.mutators ≡ heap.old.mutators }
{
    for i in 0..fields.count() {
        let _put = heap.fill_root(d, object, i, fields.place(m, i));
    }
}
