//! The end of a collection: its new space becomes the heap of the mutator.
ghost use Rattle.std.specs.Prelude.{◌≡◌, ◌⊎◌, length, IfErr, IfOk};
ghost use Rattle.gc_heap.specs.Heap.{IsHeap};
ghost use Rattle.gc_concurrent.specs.Ends.{one_heap};
ghost use Rattle.gc_concurrent.specs.Moves.{half};
ghost use Rattle.gc_concurrent.specs.Internal.Copiers.{restarted};
ghost use Rattle.gc_concurrent.specs.Internal.Openings.{heap_opened};

use crate::cells::Cells;
use crate::copier::{Copier, restart};
use crate::next::Opened;
use crate::spare::Spare;
use gc_monitor::Monitor;
use std::alloc::Global;
use std::sync::Arc;

/// What a collector has at the end of a collection: the new heap, the memory of the next collection, and what is left of this one.
#[derive(Drop)]
pub(crate) struct Ended {
    pub(crate) opened: Opened,
    pub(crate) spare: Spare,
    pub(crate) cells: Arc<Cells, Global>,
    pub(crate) claims: Vec<u32>,
    pub(crate) due: Vec<(u32, u16)>,
    pub(crate) standing: Monitor,
}

impl Copier {
    /// Makes a heap of the new space, with these roots. If an allocation fails, the collection goes on as it stands. If the new cells get no second owner,
    /// the new space is lost, and the collection begins anew in one of one word.
    pub(crate) fn end(mut self, alloc: Global, roots: Vec<u64>) -> Result<Ended, Copier>
        requires sound { IsHeap (one_heap self.space roots.items) }
        ensures heap { IfOk result (λ e. heap_opened e.opened ≡ one_heap self.space roots.items) }
        ensures spare { IfOk result (λ e. length e.spare.claims.items ≡ half self.space.size) }
        ensures claims { IfOk result (λ e. e.claims.items ≡ self.claims.items) }
        ensures standing { IfOk result (λ e. e.standing ≡ self.standing) }
        ensures known { IfErr result (λ copier. (copier.seat.me ≡ self.seat.me) ⊎ (copier.seat.me ≡ restarted self.seat.me)) }
        ensures row { IfErr result (λ copier. (copier.seat.table_id ≡ self.seat.table_id) × (copier.size ≡ self.size)) }
    {
        let Ok(spare) = self.take_spare(alloc) else {
            return Err(self);
        };
        let Copier {
            cells,
            mut seat,
            space,
            mut claims,
            mut due,
            next,
            fill,
            fill_next,
            fill_left,
            scan_place,
            scan_field,
            has_wanted,
            wanted,
            spare: _,
            former,
            mut standing,
            size,
        } = self;
        match space.begin(alloc, roots) {
            Ok(opened) => Ok(Ended {
                opened,
                spare,
                cells,
                claims,
                due,
                standing,
            }),
            Err(Some(space)) => Err(Copier {
                cells,
                seat,
                space,
                claims,
                due,
                next,
                fill,
                fill_next,
                fill_left,
                scan_place,
                scan_field,
                has_wanted,
                wanted,
                spare: Some(spare),
                former,
                standing,
                size,
            }),
            Err(None) => {
                restart(&cells, &mut seat, &mut claims, &mut standing, false, 1);
                due.clear();
                let Spare { claims: _, space } = spare;
                Err(Copier {
                    cells,
                    seat,
                    space,
                    claims,
                    due,
                    next: 0,
                    fill: 0,
                    fill_next: 0,
                    fill_left: 0,
                    scan_place: 1,
                    scan_field: 0,
                    has_wanted: false,
                    wanted: 0,
                    spare: None,
                    former,
                    standing,
                    size,
                })
            }
        }
    }
}
