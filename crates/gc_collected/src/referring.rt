//! References made from addresses. No command of a mutator names an address. These calls serve tables of weak references, which keep addresses
//! outside the heap.

ghost use Rattle.std.specs.Prelude.{◌≡◌, ◌<◌, is_some, length};
ghost use Rattle.gc_graph.specs.Graph.{lookup};
ghost use Rattle.gc_heap.specs.Places.{root_at};
ghost use Rattle.gc_graph.specs.declared.reply.Reply.{Reply};
ghost use Rattle.gc_roots.specs.Twins.{AsksForLook};
ghost use Rattle.gc_collected.specs.Referring.{refer_step};

use crate::collected_heap::CollectedHeap;
use crate::watching::marks_tell_starts;
use gc_graph::{Reply, Slot, root_count};
use gc_words::{Addr, OldAddr};

impl CollectedHeap {
    /// Returns whether an object starts at `a`. Where the standing checker goes along, its row of the old space tells it, in constant time;
    /// elsewhere this is a walk over the objects before `a`.
    pub fn has_object(&self, a: OldAddr) -> bool
        ensures { result ≡ is_some (lookup self.now.core.heap.graph.objects a.0) }
    {
        marks_tell_starts();
        if self.along {
            return self.watch.starts_at(a.0);
        }
        self.heap.space().is_start(Addr(a.0))
    }

    /// Sets `d` to a reference to the object that starts at `a`, as `refer_root` does by places.
    pub fn refer(&mut self, m: u8, d: Slot, a: OldAddr) -> Reply
        requires { m < self.old.core.mutators }
        ensures step { refer_step self.old.core m d a.0 ≡ (result, self.new.core) }
        ensures mutators { self.new.core.mutators ≡ self.old.core.mutators }
        ensures beside { self.new.beside ≡ self.old.beside }
    {
        // Here the prover learns how many roots there are.
        let _ = self.root_places();
        self.refer_root(d.place(m) as u32, a)
    }

    /// Sets root `d` to a reference to the object that starts at `a`: `Done`. Where no object starts there, nothing has changed, and the reply is
    /// `NoObject`. Does not allocate, and logs nothing.
    pub fn refer_root(&mut self, d: u32, a: OldAddr) -> Reply
        requires { d < length self.old.core.heap.graph.roots }
        ensures step { refer_step self.old.core 0 (root_at d) a.0 ≡ (result, self.new.core) }
        ensures mutators { self.new.core.mutators ≡ self.old.core.mutators }
        ensures beside { self.new.beside ≡ self.old.beside }
        ensures looks { AsksForLook d self.old.roots_left self.new.roots_left }
        ensures missed { result ≡ Reply.NoObject → self.new.roots_left ≡ self.old.roots_left }
    {
        if !self.has_object(a) {
            return Reply::NoObject;
        }
        self.is_sound();
        // Here the prover learns that the heap is sound.
        let _ = self.heap.space();
        let slots = root_count(self.heap.mutators());
        self.known.took((d as usize) < slots, d, slots);
        self.heap.refer_root(d, a);
        Reply::Done
    }
}
