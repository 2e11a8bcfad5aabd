ghost use Rattle.std.specs.Prelude.{◌≡◌, ◌-◌, ◌+◌, ◌<◌, ◌≤◌, ◌^◌, ℕ, IfOk, IsTrue, [], map, replicate, length};
ghost use Rattle.gc_words.specs.Image.{is_start};
ghost use Rattle.gc_words.specs.Spelling.{link_at};
ghost use Rattle.gc_words.specs.Space.{image_with, without_links};
ghost use Rattle.gc_words.specs.Views.{image_of, addresses};
ghost use Rattle.gc_heap.specs.Heap.{IsHeap, graph_in};
ghost use Rattle.gc_model.specs.Members.{In};
ghost use Rattle.gc_model.specs.State.{Replica, pairs_of};
ghost use Rattle.gc_model.specs.Steps.{collect, is_ready};
ghost use Rattle.gc_copy.specs.Words.{IsCollection, collection_in, idle_state, open_state, BelongsTo, HasNoLinks, LinksNothing, TellsMoves, entries_of, new_root_words};
ghost use Rattle.gc_copy.specs.Internal.Words.{KeepsGraph};
ghost use Rattle.gc_model.specs.declared.step.Step.{Step};
ghost use Rattle.gc_model.specs.declared.step.StepReply.{StepReply};

use super::Collection;
use super::copying::link_mark;
use super::room::Room;
use crate::log::MutationLog;
use crate::pairs::linked_pairs;
use gc_graph::NoMemory;
use gc_heap::Heap;
use gc_words::{Addr, ImageRef, NewAddr, OldAddr, Pair, Space};
use std::alloc::Global;

/// What the heap had before a flip that swaps its roots.
#[derive(Debug, Drop)]
pub struct Swapped {
    /// Its memory, with the collection's logs, as room for the next collection.
    pub room: Room,
    pub roots: Vec<u64>,
    /// The number of pairs.
    pub pairs: u32,
}

impl Collection {
    /// Returns the certificate: each original with its replica, in the order of the replicas. Allocates once.
    pub fn pairs(&self, alloc: Global) -> Result<Vec<Pair>, NoMemory>
        ensures few { IfOk result (λ pairs. length pairs.items < 2 ^ 32) }
        ensures pairs { IfOk result (λ pairs. map addresses pairs.items ≡ pairs_of (collection_in self.now)) }
    {
        linked_pairs(alloc, self.space.words(), self.replicas)
    }

    /// Returns the image of the new space with these roots, including links.
    pub fn new_image<'a>(&'a self, roots: &'a [u64]) -> ImageRef<'a>
        ensures words { image_of result ≡ image_with self.now.space roots.now }
        ensures sound { IsCollection self.now }
    {
        self.space.image(roots)
    }

    /// Switches the mutators to the new space and to these roots, which `new_roots` returned. Clears the new space's links. Returns
    /// the old space, including links, and the old roots.
    pub fn flip_into(self, heap: &mut Heap, roots: Vec<u64>) -> (Space, Vec<u64>)
        requires belongs { BelongsTo heap.old self }
        requires ready { IsTrue (is_ready (collection_in self) (graph_in heap.old)) }
        requires roots { roots.items ≡ new_root_words heap.old (collection_in self) }
        ensures step { collect (open_state heap.old self) Step.Flip
            ≡ (StepReply.Flipped (length (pairs_of (collection_in self))), idle_state heap.new) }
        ensures heap { heap.new ≡ record heap.old { space = without_links self.space; roots = roots.items } }
        ensures links { HasNoLinks heap.new }
        ensures space { result.0 ≡ heap.old.space }
        ensures roots { result.1.items ≡ heap.old.roots }
        ensures sound { IsHeap heap.new }
    {
        // Here the prover learns that the heap is sound.
        let _ = heap.space();
        let Collection { mut space, .. } = self;
        space.clear_links();
        heap.replace(space, roots)
    }

    /// Switches the mutators to the new space and to these roots, in the place of the heap's row. Clears no link: the new space keeps those of the
    /// replicas, which lead nowhere from epoch 1 on. Takes constant time. Returns what the heap had: the room tells where each object went.
    pub fn flip_swapping(self, heap: &mut Heap, roots: Vec<u64>) -> Swapped
        requires belongs { BelongsTo heap.old self }
        requires ready { IsTrue (is_ready (collection_in self) (graph_in heap.old)) }
        requires roots { roots.items ≡ new_root_words heap.old (collection_in self) }
        ensures step { collect (open_state heap.old self) Step.Flip
            ≡ (StepReply.Flipped (length (pairs_of (collection_in self))), idle_state heap.new) }
        ensures heap { heap.new ≡ record heap.old { space = self.space; roots = new_root_words heap.old (collection_in self) } }
        ensures links { (epoch : ℕ) → 1 ≤ epoch → LinksNothing epoch heap.new }
        ensures room { (result.room.size ≡ heap.old.space.size) × (result.room.mutators ≡ heap.old.mutators) }
        ensures moves { TellsMoves (graph_in heap.old) (pairs_of (collection_in self)) result.room }
        ensures roots { result.roots.items ≡ heap.old.roots }
        ensures count { result.pairs ≡ length (pairs_of (collection_in self)) }
        ensures sound { IsHeap heap.new }
    {
        // Here the prover learns that the heap is sound.
        let _ = heap.space();
        let Collection {
            space,
            logs,
            epoch,
            replicas,
            ..
        } = self;
        let (space, roots) = heap.replace(space, roots);
        let room = Room { space, logs, epoch };
        Swapped {
            room,
            roots,
            pairs: replicas,
        }
    }

    /// Takes the mark from the links of originals, and clears all other links of the old space, so that its words are those of a collection
    /// of epoch 0. Reads each object of the heap once, unless they are.
    pub fn unmark(&mut self, heap: &mut Heap)
        requires belongs { BelongsTo heap.old self.old }
        ensures belongs { BelongsTo heap.new self.new }
        ensures state { open_state heap.new self.new ≡ open_state heap.old self.old }
        ensures unmarked { self.new ≡ record self.old { epoch = 0 } }
        ensures sound { IsHeap heap.new }
    {
        // Here the prover learns that the heap is sound.
        let _ = heap.space();
        if self.epoch == 0 {
            return;
        }
        lower_links(heap, link_mark(self.epoch));
        self.epoch = 0;
        // Here the prover learns that it still is.
        let _ = heap.space();
    }

    /// Ends the collection without a flip, and leaves the links of the old space as they are: in the next epoch none is above the mark. Returns that
    /// epoch, and the memory of this collection for the next one. The time depends on the number of mutators and of log entries alone.
    pub fn abandon(self, heap: &Heap) -> (Room, u32)
        requires belongs { BelongsTo heap.now self }
        requires epoch { self.epoch < 4294967295 }
        ensures step { collect (open_state heap.now self) Step.Drop ≡ (StepReply.Dropped, idle_state heap.now) }
        ensures links { LinksNothing result.1 heap.now }
        ensures room { (result.0.size ≡ self.space.size) × (result.0.mutators ≡ heap.now.mutators) }
        ensures epoch { result.1 ≡ self.epoch + 1 }
    {
        // Here the prover learns that the heap is sound.
        let _ = heap.space();
        let Collection {
            space,
            mut logs,
            epoch,
            ..
        } = self;
        clear_logs(&mut logs);
        let room = Room {
            space,
            logs,
            epoch: 0,
        };
        (room, epoch + 1)
    }

    /// Ends the collection without a flip: frees the new space (to-space) and the logs, and clears the old space's
    /// links. Only originals have links, and each replica's link leads to its original. So the work grows with
    /// the number of replicas, not with the number of objects in the heap.
    pub fn drop_into(self, heap: &mut Heap)
        requires { BelongsTo heap.old self }
        ensures step { collect (open_state heap.old self) Step.Drop ≡ (StepReply.Dropped, idle_state heap.new) }
        ensures heap { self.epoch ≡ 0 → heap.new ≡ record heap.old { space = without_links heap.old.space } }
        ensures links { LinksNothing self.epoch heap.new }
        // In every epoch no original keeps a link.
        ensures originals { (r : Replica) → In r (collection_in self).replicas → link_at heap.new.space.words r.original ≡ 0 }
        ensures sound { IsHeap heap.new }
    {
        let _room = self.clear_into(heap);
    }

    /// Ends the collection as `drop_into` does, and returns its memory for the next one.
    pub fn clear_into(self, heap: &mut Heap) -> Room
        requires { BelongsTo heap.old self }
        ensures step { collect (open_state heap.old self) Step.Drop ≡ (StepReply.Dropped, idle_state heap.new) }
        ensures heap { self.epoch ≡ 0 → heap.new ≡ record heap.old { space = without_links heap.old.space } }
        ensures links { LinksNothing self.epoch heap.new }
        ensures originals { (r : Replica) → In r (collection_in self).replicas → link_at heap.new.space.words r.original ≡ 0 }
        ensures room { (result.size ≡ self.space.size) × (result.mutators ≡ heap.old.mutators) }
        ensures sound { IsHeap heap.new }
    {
        // Here the prover learns that the heap is sound.
        let _ = heap.space();
        let mut at = Addr(1);
        while at.0 < self.space.end() {
            let original = OldAddr(self.space.link(at) as u32);
            heap.set_link(original, NewAddr(0));
            at = self.space.next_start(at);
        }
        let Collection {
            space,
            mut logs,
            ..
        } = self;
        clear_logs(&mut logs);
        Room {
            space,
            logs,
            epoch: 0,
        }
    }
}

/// Removes all entries of these logs.
fn clear_logs(logs: &mut [MutationLog])
    ensures { map entries_of logs.new ≡ replicate (length logs.old) [] }
{
    for m in 0..logs.len() {
        logs[m].clear();
    }
}

/// Takes this number from each link of the heap, or sets the link to 0 if it is not larger.
fn lower_links(heap: &mut Heap, mark: u64)
    ensures links { (a : ℕ) → IsTrue (is_start heap.old.space.words a) → link_at heap.new.space.words a ≡ link_at heap.old.space.words a - mark }
    ensures graph { KeepsGraph heap.old heap.new }
{
    // Here the prover learns that the heap is sound.
    let _ = heap.space();
    let mut at = Addr(1);
    while at.0 < heap.space().end() {
        let next = heap.space().next_start(at);
        let link = heap.space().link(at).saturating_sub(mark);
        heap.set_link_word(OldAddr(at.0), link);
        at = next;
    }
}
