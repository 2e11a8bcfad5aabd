ghost use Rattle.std.specs.Prelude.{◌≡◌, ◌<◌, ◌^◌, IfOk, IsTrue, length};
ghost use Rattle.gc_model.specs.Steps.{is_ready};
ghost use Rattle.gc_copy.specs.Words.{BelongsTo, IsCollection, collection_in};
ghost use Rattle.gc_heap.specs.Heap.{graph_in};
ghost use Rattle.gc_collected.specs.Internal.Flip.{IsDraft, IsNewImage};

use gc_cert::Image;
use gc_copy::Collection;
use gc_graph::NoMemory;
use gc_heap::Heap;
use gc_words::Pair;
use std::alloc::Global;

/// What a flip keeps of the old space.
#[derive(Clone, Copy, Debug, PartialEq, Eq)]
pub enum Keep {
    /// Its memory, as room for the next collection, which tells where each object went.
    Room,
    /// The pair of heaps that the checker accepted: the old words and roots as they are, a copy of the new ones, and the certificate. Such a
    /// flip checks both spaces whole. A record of flips needs the pair, and a runtime does not.
    Pair,
}

/// What the checker sees in addition to the two spaces and the old roots: the certificate and the moved roots.
#[derive(Debug, Drop)]
pub(crate) struct Draft {
    pub(crate) pairs: Vec<Pair>,
    pub(crate) roots: Vec<u64>,
}

impl Draft {
    /// Returns the draft of a ready collection's flip. Allocates twice.
    pub(crate) fn new(
        alloc: Global,
        heap: &Heap,
        collection: &Collection,
    ) -> Result<Draft, NoMemory>
        requires belongs { BelongsTo heap.now collection.now }
        requires ready { IsTrue (is_ready (collection_in collection.now) (graph_in heap.now)) }
        ensures draft { IfOk result (IsDraft heap.now collection.now) }
        ensures few { IfOk result (λ draft. length draft.pairs.items < 2 ^ 32) }
    {
        let pairs = collection.pairs(alloc)?;
        let roots = collection.new_roots(alloc, heap)?;
        Ok(Draft { pairs, roots })
    }
}

/// A flip that a checker accepted, with what it needs, so that it cannot fail any more.
#[derive(Debug, Drop)]
pub(crate) enum Approved {
    /// The standing checker accepts the outlines of both images. The twins are the new roots.
    Along,
    /// The checker of both spaces whole accepts the certificate.
    Whole(Draft),
    /// The same, and the pair is to be kept: here is a copy of the new image.
    Pair(Draft, Image),
}

/// Copies the image of the new space with these roots. Allocates twice.
pub(crate) fn new_image_copied(
    alloc: Global,
    collection: &Collection,
    roots: &[u64],
) -> Result<Image, NoMemory>
    ensures copy { IfOk result (IsNewImage collection.now roots.now) }
    ensures sound { IsCollection collection.now }
{
    let new = collection.new_image(roots);
    let words = Vec::from_slice(alloc, new.words)?;
    let roots = Vec::from_slice(alloc, roots)?;
    Ok(Image {
        size: new.size,
        end: new.end,
        words,
        roots,
        raws: new.raws,
    })
}
