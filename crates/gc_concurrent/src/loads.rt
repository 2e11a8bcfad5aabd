//! How the standing checker reads the words of the mutator's space.
ghost use Rattle.std.specs.Prelude.{◌≡◌, ◌<◌, ℕ};
ghost use Rattle.atomic_table.specs.Table.{Allows, step};
ghost use mathlib.Core.Option.{none};
ghost use Rattle.gc_concurrent.specs.Internal.Rule.{IsConcurrent};

use crate::cells::{Cells, CellsEnd, CellsView};
use atomic_table::Play;
use gc_monitor::Reader;
use std::marker::PhantomData;

/// The words of the mutator's space. Each is read by a step on the cells, which tells this.
#[derive(Clone, Copy)]
pub(crate) struct Loads<'a, P> {
    pub(crate) cells: &'a Cells,
    pub(crate) size: u32,
    pub(crate) play: PhantomData<P>,
}

impl<'a, P> Reader for Loads<'a, P>
where
    P: Play<Vec<u64>, CellsView> + Copy,
{
    type Seat = CellsEnd;

    ghost count = { λ loads. loads.size };

    ghost can_read = { λ loads seat at. (seat.table_id ≡ loads.cells.now.shared.table_id) × (at < loads.cells.now.shared.table_id.words)
        × Allows (IsConcurrent loads.cells.now.shared.key.size) loads.cells.now.shared.table_id.slots seat.id seat.me at (λ n. n) (P.then (step loads.cells.now.shared.table_id.slots at 0 0 none) seat.me) };

    ghost reads = { λ loads seat at word after. (after.table_id ≡ seat.table_id) × P.then (step loads.cells.now.shared.table_id.slots at 0 0 none) seat.me word after.me };

    // Behind the last object the cells have 0.
    ghost ends = { λ _ word. word ≡ 0 };

    #[inline(always)]
    fn len(self) -> usize {
        self.size as usize
    }

    #[inline(always)]
    fn is_end(self, word: u64) -> bool {
        word == 0
    }

    #[inline(always)]
    fn word(self, seat: &mut CellsEnd, at: usize) -> u64 {
        self.cells.shared.load::<P>(seat, at)
    }
}
