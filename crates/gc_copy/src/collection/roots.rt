ghost use Rattle.std.specs.Prelude.{IfSome, ◌≡◌, ◌≤◌, ◌<◌, ℕ, IfOk, IsTrue, length, None, MatchResult, ⊤};
ghost use Rattle.gc_model.specs.State.{replica_of};
ghost use Rattle.std.specs.Option.{option_map};
ghost use Rattle.gc_graph.specs.Graph.{Ref, root};
ghost use Rattle.gc_words.specs.Image.{is_start};
ghost use Rattle.gc_heap.specs.Heap.{graph_in};
ghost use Rattle.gc_model.specs.Staying.{HasReplicaOf, IsMissing};
ghost use Rattle.gc_model.specs.Steps.{root_target, roots_done as roots_done_in};
ghost use Rattle.gc_copy.specs.Words.{collection_in, BelongsTo, new_root_words};
ghost use Rattle.gc_copy.specs.Twins.{IsTwin};

use super::Collection;
use gc_graph::NoMemory;
use gc_heap::Heap;
use gc_words::OldAddr;
use std::alloc::Global;

/// A root whose target has no replica.
#[derive(Clone, Copy, Debug, PartialEq, Eq)]
pub struct MissingRoot {
    /// The root's place in the list of roots.
    pub place: usize,
    /// The object that it refers to.
    pub target: OldAddr,
}

impl Collection {
    /// Returns whether the target of each root has a replica.
    pub fn roots_done(&self, heap: &Heap) -> bool
        requires { BelongsTo heap.now self.now }
        ensures { result ≡ roots_done_in (collection_in self.now) (graph_in heap.now) }
    {
        self.first_root(heap).is_none()
    }

    /// Returns the first root whose target has no replica.
    pub fn first_root(&self, heap: &Heap) -> Option<MissingRoot>
        requires { BelongsTo heap.now self.now }
        ensures target { option_map (λ r. r.target.0) result ≡ root_target (collection_in self.now) (graph_in heap.now) }
        ensures start { IfSome result (λ r. IsTrue (is_start heap.now.space.words r.target.0)) }
    {
        self.missing_root(heap, 0, heap.roots().len())
    }

    /// Returns the first root whose target has no replica, of those from place `from` on and below place `to`. Reads each root up to that
    /// one once.
    pub fn missing_root(&self, heap: &Heap, from: usize, to: usize) -> Option<MissingRoot>
        requires belongs { BelongsTo heap.now self.now }
        requires within { to ≤ length heap.now.roots }
        ensures none { result ≡ None → (p : ℕ) → from ≤ p → p < to
            → HasReplicaOf (collection_in self.now) (root (graph_in heap.now) p) }
        ensures first { IfSome result (λ r. IsMissing (collection_in self.now) (graph_in heap.now) from to r.place r.target.0) }
        ensures start { IfSome result (λ r. IsTrue (is_start heap.now.space.words r.target.0)) }
    {
        for place in from..to {
            if let Err(target) = self.root_twin(heap, place) {
                return Some(MissingRoot { place, target });
            }
        }
        None
    }

    /// Returns the word that the root at this place takes at a flip, or the object that the root refers to if that has no replica. Reads one root.
    #[inline(always)]
    pub fn root_twin(&self, heap: &Heap, place: usize) -> Result<u64, OldAddr>
        requires belongs { BelongsTo heap.now self.now }
        requires within { place < length heap.now.roots }
        ensures twin { MatchResult result (IsTwin (collection_in self.now) (root (graph_in heap.now) place))
            (λ a. (root (graph_in heap.now) place ≡ Ref a.0) × (replica_of (collection_in self.now) a.0 ≡ None)) }
        ensures start { MatchResult result (λ _. ⊤) (λ a. IsTrue (is_start heap.now.space.words a.0)) }
    {
        self.twin_of(heap, heap.roots()[place])
    }

    /// Returns the root words for after a flip: each reference leads to the replica instead of the original. Allocates once.
    pub fn new_roots(&self, alloc: Global, heap: &Heap) -> Result<Vec<u64>, NoMemory>
        requires belongs { BelongsTo heap.now self.now }
        requires done { IsTrue (roots_done_in (collection_in self.now) (graph_in heap.now)) }
        ensures { IfOk result (λ words. words.items ≡ new_root_words heap.now (collection_in self.now)) }
    {
        let mut roots = Vec::with_capacity(alloc, heap.roots().len())?;
        for word in heap.roots() {
            roots.push_reserved(self.twin_of(heap, *word).unwrap());
        }
        Ok(roots)
    }
}
