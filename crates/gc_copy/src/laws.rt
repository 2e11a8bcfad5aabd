//! Laws that follow from the definitions, for heaps and collections of words. Crates that depend on this one use them in proofs by calling these functions.

ghost use Rattle.std.specs.Prelude.{◌≡◌, ◌≢◌, [], ℕ, List, ◌-◌, ◌≤◌, IsTrue};
ghost use Rattle.gc_graph.specs.Limits.{largest_space};
ghost use Rattle.gc_graph.specs.Graph.{Graph, IsUnused, root};
ghost use Rattle.gc_graph.specs.Machine.{roomy_step};
ghost use Rattle.gc_graph.specs.declared.command.Op.{Op};
ghost use Rattle.gc_words.specs.Spelling.{link_at};
ghost use Rattle.gc_words.specs.Space.{free_in, end_of, image_with};
ghost use Rattle.gc_words.specs.Certificate.{Certified};
ghost use Rattle.gc_heap.specs.Heap.{HeapWords, IsHeap, KeepsLinks, image_of, graph_in, roomy_in};
ghost use Rattle.gc_heap.specs.Commands.{Performs};
ghost use Rattle.gc_heap.specs.declared.options.HeapOptions.{HeapOptions};
ghost use Rattle.gc_copy.specs.Words.{CollectionWords, IsCollection, BelongsTo, BelongsToBut, HasNoLinks, LinksNothing, collection_in, idle_state, open_state, new_root_words};
ghost use Rattle.gc_graph.specs.declared.reply.Reply.{Reply};
ghost use Rattle.gc_model.specs.State.{pairs_of};
ghost use Rattle.gc_copy.specs.Opening.{opening_state_with};
ghost use Rattle.gc_model.specs.Linked.{image_of_graph, linked_image, old_image, new_image, LeadsTo};
ghost use Rattle.gc_model.specs.Steps.{written, WritesField, mutate, collect, is_ready};
ghost use Rattle.gc_model.specs.Belonging.{IsSpaceGraph, IsState};
ghost use Rattle.gc_model.specs.Carried.{CarriesOnlyLiveFrom};
ghost use Rattle.gc_model.specs.Runs.{AreRootEvents, state_after};
ghost use Rattle.gc_model.specs.declared.event.Event.{Event};
ghost use Rattle.gc_model.specs.declared.step.Step.{Step};
ghost use Rattle.gc_model.specs.declared.step.StepReply.TheVariants.{NoRoom};

/// The names in the graph of a heap of words are addresses, and the heap's image is the image of this graph with the heap's
/// links. No object has the heap's end as its name.
pub fn heaps_have_addresses_as_names()
    ensures graph { (heap : HeapWords) → IsHeap heap
        → IsSpaceGraph heap.space.size (free_in heap.space) (graph_in heap) }
    ensures image { (heap : HeapWords) → IsHeap heap
        → image_of heap
        ≡ linked_image (link_at heap.space.words) heap.space.size (graph_in heap) }
    ensures unused { (size free : ℕ) (g : Graph)
        → IsSpaceGraph size free g → IsUnused g (size - free) }
{}

/// Says what the images of a heap and of the collection that belongs to it are, with their links. If the collection is ready, its
/// certificate holds of these images. If no collection is open, all links are 0.
pub fn images_show_links()
    ensures idle { (heap : HeapWords) → IsHeap heap → HasNoLinks heap
        → image_of heap ≡ image_of_graph heap.space.size (graph_in heap) }
    ensures old { (heap : HeapWords) (c : CollectionWords) → IsHeap heap → BelongsTo heap c → c.epoch ≡ 0
        → image_of heap ≡ old_image (open_state heap c) (collection_in c) }
    // Marked links lead to the replicas all the same.
    ensures linked { (heap : HeapWords) (c : CollectionWords) → BelongsTo heap c → IsCollection c
        → LeadsTo (link_at heap.space.words) (collection_in c) }
    ensures new { (heap : HeapWords) (c : CollectionWords) → IsCollection c → BelongsTo heap c
        → image_with c.space (new_root_words heap (collection_in c))
        ≡ new_image (open_state heap c) (collection_in c) }
    ensures certified { (heap : HeapWords) (c : CollectionWords)
        → IsHeap heap → IsCollection c → BelongsTo heap c
        → IsTrue (is_ready (collection_in c) (graph_in heap))
        → Certified (image_of heap) (image_with c.space (new_root_words heap (collection_in c)))
        (pairs_of (collection_in c)) }
{}

/// After a mutator's command, a collection belongs to the heap except for the field that the command wrote, if any. `note` then
/// logs that field, and the collection belongs to the heap again.
pub fn commands_keep_collections()
    ensures but { (heap new : HeapWords) (c : CollectionWords) (m : ℕ) (op : Op) (reply : Reply)
        → BelongsTo heap c → KeepsLinks heap.space.words new.space.words
        → new.mutators ≡ heap.mutators
        → roomy_step (roomy_in heap) m op (end_of heap.space) ≡ (reply, roomy_in new)
        → BelongsToBut (written (graph_in heap) m op reply) new c }
    ensures none { (heap : HeapWords) (c : CollectionWords)
        → BelongsToBut [] heap c → BelongsTo heap c }
    // While no collection is open, no object has a link, or none above the mark.
    ensures idle { (heap new : HeapWords)
        → HasNoLinks heap → KeepsLinks heap.space.words new.space.words → HasNoLinks new }
    ensures nothing { (heap new : HeapWords) (epoch : ℕ)
        → LinksNothing epoch heap → KeepsLinks heap.space.words new.space.words → LinksNothing epoch new }
{}

/// A command other than `Put` leaves an open collection unchanged, and the collection still belongs to the heap. If no collection
/// is open, no command opens one, or gives an object a link above the mark.
pub fn commands_leave_collections()
    ensures collecting { (heap new : HeapWords) (c : CollectionWords) (m : ℕ) (op : Op) (reply : Reply)
        → IsHeap heap → BelongsTo heap c → ¬ WritesField op → Performs heap m op reply new
        → (mutate (open_state heap c) m op ≡ (reply, open_state new c)) × BelongsTo new c }
    ensures idle { (heap new : HeapWords) (m : ℕ) (op : Op) (reply : Reply)
        → IsHeap heap → Performs heap m op reply new → mutate (idle_state heap) m op ≡ (reply, idle_state new) }
    ensures linked { (epoch : ℕ) (heap new : HeapWords) (m : ℕ) (op : Op) (reply : Reply)
        → Performs heap m op reply new → LinksNothing epoch heap → LinksNothing epoch new }
{}

/// A heap that was opened with extra roots is well formed, and so is every state that a run leads it to. A command may name an extra root.
pub fn extra_roots_stay()
    ensures opening { (options : HeapOptions)
        → 1 ≤ options.size → options.size ≤ largest_space → IsState (opening_state_with options) }
    ensures runs { (options : HeapOptions) (events : List Event)
        → 1 ≤ options.size → options.size ≤ largest_space → AreRootEvents options.mutators events
        → IsState (state_after (opening_state_with options) events) }
    // Each original of an open collection was reachable when the collection began, or was made later.
    ensures carried { (options : HeapOptions)
        → 1 ≤ options.size → options.size ≤ largest_space → CarriesOnlyLiveFrom (opening_state_with options) }
{}

/// If a new space of words is at least as large as the old one, no step lacks room.
pub fn new_spaces_have_room()
    ensures { (heap : HeapWords) (c : CollectionWords) (step : Step)
        → IsHeap heap → IsCollection c → BelongsTo heap c → heap.space.size ≤ c.space.size
        → (collect (open_state heap c) step).0 ≢ NoRoom }
{}
