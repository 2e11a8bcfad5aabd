//! Commands on extra roots. Each is the command on the root at its place.

ghost use Rattle.std.specs.Prelude.{◌≡◌, ◌<◌, ◌≤◌, ◌+◌, ◌-◌, length};
ghost use Rattle.gc_graph.specs.Slots.{roots_of};
ghost use Rattle.gc_graph.specs.declared.command.Op.{Op};
ghost use Rattle.gc_heap.specs.ExtraRoots.{extra_root};
ghost use Rattle.gc_model.specs.State.{extra_roots_of};
ghost use Rattle.gc_model.specs.Steps.{mutate};
ghost use Rattle.gc_roots.specs.Twins.{AskForLooks, AsksForLook};
ghost use Rattle.gc_collected.specs.ExtraRoots.{clear_step};

use crate::collected_heap::CollectedHeap;
use gc_graph::{Reply, Slot, root_count};

impl CollectedHeap {
    /// Returns the number of extra roots.
    pub fn extra_roots(&self) -> u32
        ensures { result ≡ extra_roots_of self.now.core }
    {
        self.heap.extra_roots()
    }

    /// Sets `d` to what extra root `k` holds. Returns `Done`. Does not allocate, and logs nothing.
    #[inline(always)]
    #[tactic(auto, using(crate::proofs::Together::logged_none))]
    pub fn load(&mut self, m: u8, d: Slot, k: u32) -> Reply
        requires mutator { m < self.old.core.mutators }
        requires root { k < extra_roots_of self.old.core }
        ensures step { mutate self.old.core m (Op.Move d (extra_root self.old.core.mutators k)) ≡ (result, self.new.core) }
        ensures mutators { self.new.core.mutators ≡ self.old.core.mutators }
        ensures beside { self.new.beside ≡ self.old.beside }
        ensures looks { self.new.roots_left ≡ self.old.roots_left }
    {
        self.copy_into(self.place(m, d), true, self.extra_place(k))
    }

    /// Sets extra root `k` to what `s` holds. Returns `Done`. Does not allocate, and logs nothing.
    #[inline(always)]
    #[tactic(auto, using(crate::proofs::Together::logged_none))]
    pub fn store(&mut self, m: u8, k: u32, s: Slot) -> Reply
        requires mutator { m < self.old.core.mutators }
        requires root { k < extra_roots_of self.old.core }
        ensures step { mutate self.old.core m (Op.Move (extra_root self.old.core.mutators k) s) ≡ (result, self.new.core) }
        ensures mutators { self.new.core.mutators ≡ self.old.core.mutators }
        ensures beside { self.new.beside ≡ self.old.beside }
        ensures looks { AsksForLook k self.old.roots_left self.new.roots_left }
    {
        self.copy_into(self.extra_place(k), false, self.place(m, s))
    }

    /// Sets the extra roots from `from` on, and below `to`, to nil. Does not allocate, and logs nothing. Asks for one look at each, at most.
    #[inline(always)]
    pub fn clear(&mut self, from: u32, to: u32)
        requires { to ≤ extra_roots_of self.old.core }
        ensures step { clear_step self.old.core from (to - from) ≡ self.new.core }
        ensures mutators { self.new.core.mutators ≡ self.old.core.mutators }
        ensures beside { self.new.beside ≡ self.old.beside }
        ensures looks { AskForLooks (to - from) self.old.roots_left self.new.roots_left }
    {
        for k in from..to {
            let _done = self.nil_into(self.extra_place(k), false);
        }
    }

    // Returns the place of extra root `k` in the list of roots.
    #[inline(always)]
    fn extra_place(&self, k: u32) -> u32
        requires { k < extra_roots_of self.now.core }
        ensures place { result ≡ roots_of self.now.core.mutators + k }
        ensures root { result < length self.now.core.heap.graph.roots }
    {
        // Here the prover learns how many roots there are.
        let _ = self.root_places();
        root_count(self.heap.mutators()) as u32 + k
    }
}
