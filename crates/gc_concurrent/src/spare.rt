//! Memory that a flip takes and leaves, so that it allocates and frees no large block while the mutator waits.
ghost use Rattle.std.specs.Prelude.{◌≡◌, ◌∷◌, [], IfOk, length, replicate};
ghost use Rattle.gc_concurrent.specs.Moves.{half};

use crate::cells::Cells;
use crate::moves::half;
use crate::next::NextSpace;
use gc_graph::NoMemory;
use std::alloc::Global;
use std::sync::Arc;

/// The memory of the collection that a flip begins: a claim for each two words of its heap, and a new space of one word. Nothing is copied.
#[derive(Drop)]
pub struct Spare {
    pub(crate) claims: Vec<u32>,
    pub(crate) space: NextSpace,
    ghost clear: { claims.items ≡ replicate (length claims.items) 0 },
    ghost small: { (space.size ≡ 1) × (space.words ≡ 0 ∷ []) },
}

/// Memory that a flip has put aside: the cells of the heap before it, which no end knows any more, and the row of moves of the flip before it.
#[derive(Drop)]
pub struct Former {
    pub(crate) cells: Arc<Cells, Global>,
    pub(crate) row: Vec<u32>,
    pub(crate) starts: Vec<u64>,
}

impl Spare {
    /// Makes the memory of a collection of a heap of `size` words.
    pub(crate) fn new(alloc: Global, size: u32) -> Result<Spare, NoMemory>
        ensures { IfOk result (λ spare. length spare.claims.items ≡ half size) }
    {
        let claims = Vec::from_elem(alloc, 0u32, half(size))?;
        let space = NextSpace::new(alloc, 1)?;
        Ok(Spare { claims, space })
    }
}
