//! What a watch and the tables of a monitor tell, as laws.

ghost use Rattle.std.specs.Prelude.{◌≡◌, ◌↔◌, ℕ, Some, slice_index_or};
ghost use Rattle.gc_words.specs.Space.{end_of};
ghost use Rattle.gc_heap.specs.Heap.{HeapWords, IsHeap, graph_in};
ghost use Rattle.gc_model.specs.Belonging.{IsNamed};
ghost use Rattle.gc_model.specs.State.{Collection, State, heap_end};
ghost use Rattle.gc_copy.specs.Words.{BelongsTo, CollectionWords, IsCollection, collection_in};
ghost use Rattle.gc_monitor.specs.Tables.{Tables};
ghost use Rattle.gc_monitor.specs.Telling.{IsMark};
ghost use Rattle.gc_monitor.specs.Watch.{Watch, Watches};
ghost use Rattle.gc_collected.specs.Flip.{flip_pair};
ghost use Rattle.gc_collected.specs.Internal.Knows.{KnowsAll};
ghost use Rattle.gc_collected.specs.Internal.Stays.{GoesAlong};

use crate::collected_heap::CollectedHeap;
use gc_copy::images_show_links;

/// A watch that goes along with a collection watches the words of both spaces: each field is due or corresponds.
pub(crate) fn watches_know_the_words()
    ensures words { (heap : HeapWords) (c : CollectionWords) (w : Watch)
        → IsHeap heap → IsCollection c → BelongsTo heap c
        → GoesAlong (graph_in heap).objects (end_of heap.space) (collection_in c) w
        → Watches heap.space.words c.space.words w }
{}

/// The marks of tables that know a heap tell where its objects start.
pub(crate) fn marks_tell_starts()
    ensures { (s : State) (t : Tables) (a : ℕ) → KnowsAll s t → IsMark (slice_index_or t.olds a 0) ↔ IsNamed s.heap.graph.objects a }
{}

impl CollectedHeap {
    /// Does nothing. A watch that goes along with the open collection watches the words of both images.
    #[inline(always)]
    pub(crate) fn is_watched(&self)
        ensures { (c : Collection) (w : Watch) → self.now.core.collection ≡ Some c
            → GoesAlong self.now.core.heap.graph.objects (heap_end self.now.core) c w
            → Watches (flip_pair self.now.core c).old.words (flip_pair self.now.core c).new.words w }
    {
        images_show_links();
        watches_know_the_words();
        // Here the prover learns that the mutators' heap is sound.
        let _ = self.heap.space();
        if let Some(collection) = &self.collection {
            // And here, that the collection is.
            let _ = collection.new_image(&[]);
        }
    }
}
