//! Commands that set a root by its place, as those of `places.rt` and `values.rt` do, for a caller that says whether the root is a slot. A command on slots
//! knows that it is, and the compiler then leaves the other case out.

ghost use Rattle.std.specs.Prelude.{◌≡◌, ◌≢◌, ◌↔◌, ◌<◌, ◌-◌, IsFalse, IsTrue, length};
ghost use Rattle.gc_graph.specs.Slots.{roots_of};
ghost use Rattle.gc_graph.specs.declared.command.Op.{Op};
ghost use Rattle.gc_graph.specs.declared.reply.Reply.{Reply};
ghost use Rattle.gc_heap.specs.Places.{root_at};
ghost use Rattle.gc_model.specs.Steps.{mutate};
ghost use Rattle.gc_roots.specs.Twins.{AskForLooks, AsksForLook};
ghost use Rattle.gc_collected.specs.CollectedHeap.{Fetches, HasMissed};

use crate::barrier::new_root_in;
use crate::collected_heap::CollectedHeap;
use crate::places::{field_number, has_made};
use gc_copy::heaps_have_addresses_as_names;
use gc_graph::{Number, Reply, root_count};
use gc_heap::Fetched;

impl CollectedHeap {
    /// Returns whether the root at this place is a slot.
    #[inline(always)]
    pub(crate) fn is_slot(&self, place: u32) -> bool
        ensures { IsTrue result ↔ place < roots_of self.now.core.mutators }
    {
        (place as usize) < root_count(self.heap.mutators())
    }

    /// Does what `new_at_root` does.
    #[inline(always)]
    pub(crate) fn new_into(&mut self, d: u32, is_slot: bool, kind: u8, len: u16) -> Reply
        requires root { d < length self.old.core.heap.graph.roots }
        requires slot { IsTrue is_slot ↔ d < roots_of self.old.core.mutators }
        ensures step { mutate self.old.core 0 (Op.New (root_at d) kind len) ≡ (result, self.new.core) }
        ensures mutators { self.new.core.mutators ≡ self.old.core.mutators }
        ensures beside { self.new.beside ≡ self.old.beside }
        ensures looks { AsksForLook d self.old.roots_left self.new.roots_left }
        ensures slots { IsTrue is_slot → self.new.roots_left ≡ self.old.roots_left }
        ensures full { result ≡ Reply.Full → self.new.roots_left ≡ self.old.roots_left }
    {
        // Here the prover learns that the heap is sound.
        let _ = self.heap.space();
        // A slot asks for no look, so it needs no test of the reply.
        if is_slot {
            self.known.slots = 0;
            return new_root_in(
                &self.collection,
                &mut self.heap,
                &mut self.watch,
                d,
                kind,
                len,
            );
        }
        let made = new_root_in(
            &self.collection,
            &mut self.heap,
            &mut self.watch,
            d,
            kind,
            len,
        );
        let slots = root_count(self.heap.mutators());
        self.known.took_if(has_made(&made), is_slot, d, slots);
        made
    }

    /// Does what `new_raw_at_root` does.
    #[inline(always)]
    pub(crate) fn new_raw_into(&mut self, d: u32, is_slot: bool, kind: u8, len: u16) -> Reply
        requires root { d < length self.old.core.heap.graph.roots }
        requires slot { IsTrue is_slot ↔ d < roots_of self.old.core.mutators }
        ensures step { mutate self.old.core 0 (Op.NewRaw (root_at d) kind len) ≡ (result, self.new.core) }
        ensures mutators { self.new.core.mutators ≡ self.old.core.mutators }
        ensures beside { self.new.beside ≡ self.old.beside }
        ensures looks { AsksForLook d self.old.roots_left self.new.roots_left }
        ensures slots { IsTrue is_slot → self.new.roots_left ≡ self.old.roots_left }
        ensures full { result ≡ Reply.Full → self.new.roots_left ≡ self.old.roots_left }
    {
        self.is_sound();
        // Here the prover learns that the heap is sound.
        let _ = self.heap.space();
        heaps_have_addresses_as_names();
        let made = self.heap.new_raw_at_root(d, kind, len);
        let slots = root_count(self.heap.mutators());
        self.known.took_if(has_made(&made), is_slot, d, slots);
        self.watch.made(self.heap.space().words());
        made
    }

    /// Does what `num_root` does.
    #[inline(always)]
    pub(crate) fn num_into(&mut self, d: u32, is_slot: bool, n: Number) -> Reply
        requires root { d < length self.old.core.heap.graph.roots }
        requires slot { IsTrue is_slot ↔ d < roots_of self.old.core.mutators }
        ensures step { mutate self.old.core 0 (Op.Num (root_at d) n) ≡ (result, self.new.core) }
        ensures mutators { self.new.core.mutators ≡ self.old.core.mutators }
        ensures beside { self.new.beside ≡ self.old.beside }
        ensures looks { AsksForLook d self.old.roots_left self.new.roots_left }
        ensures slots { IsTrue is_slot → self.new.roots_left ≡ self.old.roots_left }
    {
        self.is_sound();
        // Here the prover learns that the heap is sound.
        let _ = self.heap.space();
        let slots = root_count(self.heap.mutators());
        self.known.took_plain(is_slot, d, slots);
        self.heap.num_root(d, n)
    }

    /// Does what `nil_root` does.
    #[inline(always)]
    pub(crate) fn nil_into(&mut self, d: u32, is_slot: bool) -> Reply
        requires root { d < length self.old.core.heap.graph.roots }
        requires slot { IsTrue is_slot ↔ d < roots_of self.old.core.mutators }
        ensures step { mutate self.old.core 0 (Op.Nil (root_at d)) ≡ (result, self.new.core) }
        ensures mutators { self.new.core.mutators ≡ self.old.core.mutators }
        ensures beside { self.new.beside ≡ self.old.beside }
        ensures looks { AskForLooks 1 self.old.roots_left self.new.roots_left }
        ensures slots { IsTrue is_slot → self.new.roots_left ≡ self.old.roots_left }
    {
        self.is_sound();
        // Here the prover learns that the heap is sound.
        let _ = self.heap.space();
        let slots = root_count(self.heap.mutators());
        self.known.took_nil(is_slot, d, slots);
        self.heap.nil_root(d)
    }

    /// Does what `copy_root` does. The look that it asks for is counted from the first extra root on.
    #[inline(always)]
    pub(crate) fn copy_into(&mut self, d: u32, is_slot: bool, s: u32) -> Reply
        requires taker { d < length self.old.core.heap.graph.roots }
        requires giver { s < length self.old.core.heap.graph.roots }
        requires slot { IsTrue is_slot ↔ d < roots_of self.old.core.mutators }
        ensures step { mutate self.old.core 0 (Op.Move (root_at d) (root_at s)) ≡ (result, self.new.core) }
        ensures mutators { self.new.core.mutators ≡ self.old.core.mutators }
        ensures beside { self.new.beside ≡ self.old.beside }
        ensures looks { AsksForLook (d - roots_of self.old.core.mutators) self.old.roots_left self.new.roots_left }
        ensures slots { IsTrue is_slot → self.new.roots_left ≡ self.old.roots_left }
    {
        self.is_sound();
        // Here the prover learns that the heap is sound.
        let _ = self.heap.space();
        let slots = root_count(self.heap.mutators());
        self.known.took(is_slot, d, slots);
        self.heap.copy_root(d, s)
    }

    /// Does what `fetch_root` does.
    #[inline(always)]
    pub(crate) fn fetch_into(&mut self, d: u32, is_slot: bool, s: u32, i: u32) -> Fetched
        requires taker { d < length self.old.core.heap.graph.roots }
        requires giver { s < length self.old.core.heap.graph.roots }
        requires slot { IsTrue is_slot ↔ d < roots_of self.old.core.mutators }
        ensures fetches { Fetches self.old.core 0 (root_at d) (root_at s) i result self.new.core }
        ensures mutators { self.new.core.mutators ≡ self.old.core.mutators }
        ensures beside { self.new.beside ≡ self.old.beside }
        ensures looks { AsksForLook d self.old.roots_left self.new.roots_left }
        ensures slots { IsTrue is_slot → self.new.roots_left ≡ self.old.roots_left }
        ensures missed { HasMissed result → self.new.roots_left ≡ self.old.roots_left }
    {
        self.is_sound();
        // Here the prover learns that the heap is sound.
        let _ = self.heap.space();
        let field = field_number(i);
        // A slot asks for no look, so it needs no test of what is found.
        if is_slot {
            self.known.slots = 0;
            return self.heap.fetch_root(d, s, field);
        }
        let fetched = self.heap.fetch_root(d, s, field);
        let slots = root_count(self.heap.mutators());
        self.known.took_if(has_fetched(&fetched), is_slot, d, slots);
        fetched
    }
}

// Returns whether a `Get` with this outcome found a value.
#[inline(always)]
fn has_fetched(fetched: &Fetched) -> bool
    ensures found { IsTrue result → ¬ HasMissed fetched.now }
    ensures missed { IsFalse result → HasMissed fetched.now }
{
    match fetched {
        Fetched::NoObject | Fetched::NoField => false,
        _ => true,
    }
}
