//! The words of a space as cells, each of which changes in one atomic step. They serve a mutator from one flip to the next.
use gc_cells::{Seat, Table, TableRule};
use std::alloc::Global;
use std::marker::Model;

/// What a seat knows. No value of it is made.
pub struct CellsView {
    pub nothing: u8,
}

impl Model for CellsView {
    ghost use Rattle.gc_concurrent.specs.Ends.{Known, opening_view};
    ghost use Rattle.gc_concurrent.specs.Internal.Rule.{no_heap};
    ghost use Rattle.gc_concurrent.specs.Internal.Codes.{known_coded};

    ghost Value = { Known };

    ghost coded = { known_coded };

    ghost view = { λ _. opening_view no_heap 0 };
}

/// What cells begin with, beside their words: the size of the space, the end of its objects, and the roots of its heap.
#[derive(Drop)]
pub struct CellsKey {
    pub size: u32,
    pub end: u32,
    pub roots: Vec<u64>,
}

/// The rule of the cells, which holds between any two steps on them.
pub struct CellsRule;

impl TableRule<Vec<u64>, CellsView, CellsKey> for CellsRule {
    ghost use Rattle.gc_concurrent.specs.Ends.{one_heap, opening_view};
    ghost use Rattle.gc_concurrent.specs.Internal.Plain.{space_in};
    ghost use Rattle.gc_concurrent.specs.Internal.Rule.{IsConcurrent};

    ghost holds = { λ k. IsConcurrent k.size };

    ghost first = { λ k words. opening_view (one_heap (space_in words k.end) k.roots.items) 1 };
}

/// The cells with their memory. Both ends own them. They have no slots: `Vec<u64>` is the type of what one would hold.
pub type Cells = Table<Vec<u64>, CellsView, CellsKey, CellsRule, Global>;

/// One end of a heap: the right to step on its cells, and what its owner knows.
pub type CellsEnd = Seat<Vec<u64>, CellsView>;
