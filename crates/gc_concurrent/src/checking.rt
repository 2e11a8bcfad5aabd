//! A flip asks its checker. Both ends are in hand, so the words of both spaces stay as they are meanwhile.
ghost use Rattle.std.specs.Prelude.{◌≡◌, ◌≤◌, ◌⊎◌, IfErr, IfOk, IsTrue, OnErr, OnOk, length, true, false};
ghost use Rattle.gc_concurrent.specs.Checking.{CertifiesFlip, IsVouchedBy, flip_shown};
ghost use Rattle.gc_concurrent.specs.Ends.{one_heap};
ghost use Rattle.gc_concurrent.specs.Turns.{IfAsked};
ghost use Rattle.gc_concurrent.specs.Internal.Rule.{seeing};
ghost use Rattle.gc_concurrent.specs.Internal.Flip.{Flips, HasNothingLeft, moved_words};

use crate::cells::{Cells, CellsEnd};
use crate::copier::Copier;
use crate::held::{Held, NoFlip};
use crate::plays::Got;
use gc_check::{CheckFault, Checks};
use gc_copy::linked_pairs;
use gc_graph::NoMemory;
use gc_monitor::{Outline, a_yes_is_sound};
use gc_words::{ImageRef, no_fault_where_certified};
use std::alloc::Global;

/// Loads the words of a space up to its end, one by one. Allocates once.
fn loaded(alloc: Global, cells: &Cells, seat: &mut CellsEnd, end: u32) -> Result<Vec<u64>, NoMemory>
    requires cells { seat.old.table_id ≡ cells.now.shared.table_id }
    requires wide { end ≤ cells.now.shared.table_id.words }
    requires writes { seat.old.me.0.writes ≡ true }
    requires end { length seat.old.me.0.mine.space.words ≡ end }
    ensures words { IfOk result (λ words. words.items ≡ seat.old.me.0.mine.space.words) }
    ensures same { seat.new.me ≡ seat.old.me }
    ensures row { seat.new.table_id ≡ seat.old.table_id }
{
    let mut words = Vec::with_capacity(alloc, end as usize)?;
    for k in 0..end {
        let word = cells.shared.load::<Got>(seat, k as usize);
        words.push(word)?;
    }
    Ok(words)
}

impl Copier {
    /// With both ends at hand: loads the words of the mutator's space. Allocates once.
    fn old_words(&mut self, alloc: Global, end: u32) -> Result<Vec<u64>, NoMemory>
        requires both { self.old.seat.me.0.writes ≡ true }
        requires end { length self.old.seat.me.0.mine.space.words ≡ end }
        requires fits { end ≤ self.old.size }
        ensures words { IfOk result (λ words. words.items ≡ self.old.seat.me.0.mine.space.words) }
        ensures same { self.new.seat.me ≡ self.old.seat.me }
        ensures row { (self.new.seat.table_id ≡ self.old.seat.table_id) × (self.new.size ≡ self.old.size) }
        ensures space { self.new.space ≡ self.old.space }
    {
        let cells = &*self.cells;
        loaded(alloc, cells, &mut self.seat, end)
    }
}

impl Held {
    ghost use Rattle.gc_concurrent.specs.Holders.{heap_held, known_to, moves_held};

    /// If nothing is left to do, asks the standing checker whether the mutator may go on in the new space with these roots. The checker first walks on to the
    /// end of the mutator's space, by a load for each object that it has not seen. It is proved to say yes. Allocates nothing.
    fn vouches(&mut self, moved: &[u64]) -> bool
        requires left { HasNothingLeft self.old.roots.items self.old.copier.seat.me.0 }
        requires moved { moved.now ≡ moved_words (known_to self.old.copier) self.old.roots.items }
        ensures surely { IsTrue result }
        ensures yes { IsTrue result → IsVouchedBy self.old.copier.standing (heap_held self.old) (one_heap self.old.copier.space moved.now) }
        ensures told { HasNothingLeft self.old.roots.items self.old.copier.seat.me.0 → Flips self.old.roots.items self.old.copier.seat.me.0.mine self.old.copier.seat.me.0.theirs }
        ensures seen { self.new.copier.seat.me ≡ seeing self.new.copier.seat.me.0.seen self.old.copier.seat.me }
        ensures row { self.new.copier.seat.table_id ≡ self.old.copier.seat.table_id }
        ensures space { self.new.copier.space ≡ self.old.copier.space }
        ensures roots { self.new.roots ≡ self.old.roots }
        ensures moves { moves_held self.new ≡ moves_held self.old }
    {
        a_yes_is_sound();
        let end = self.end;
        self.copier.see(end);
        self.copier.look();
        let new_end = self.copier.space.end();
        let old = Outline {
            size: self.copier.size,
            end,
            count: end as usize,
            roots: self.roots.as_slice(),
            nils: 0,
            raws: true,
        };
        let new = Outline {
            size: self.copier.space.size(),
            end: new_end,
            count: new_end as usize,
            roots: moved,
            nils: 0,
            raws: true,
        };
        self.copier.standing.says_yes(old, new)
    }

    /// If nothing is left to do, asks this checker if `whole` says so, and otherwise the standing one. Returns whether this one was asked. Fails if the one
    /// that was asked refuses, which is proved never to occur, or if an allocation fails. The standing checker needs none.
    pub(crate) fn certify<C: Checks>(
        &mut self,
        alloc: Global,
        checker: &C,
        moved: &[u64],
        whole: bool,
    ) -> Result<bool, NoFlip>
        requires can { C.can_check checker.now }
        requires left { HasNothingLeft self.old.roots.items self.old.copier.seat.me.0 }
        requires moved { moved.now ≡ moved_words (known_to self.old.copier) self.old.roots.items }
        ensures asked { IfOk result (λ asked. IfAsked asked (C.says_yes checker.now (flip_shown (heap_held self.old) (known_to self.old.copier)))
            (IsVouchedBy self.old.copier.standing (heap_held self.old) (one_heap self.old.copier.space moved.now))) }
        ensures along { IfOk result (λ asked. asked ≡ whole) }
        ensures room { whole ≡ false → OnErr result ⊥ }
        ensures certified { OnOk result (CertifiesFlip (heap_held self.old) (known_to self.old.copier)) }
        ensures memory { IfErr result (λ why. why ≡ NoFlip.NoMemory) }
        ensures told { Flips self.old.roots.items self.old.copier.seat.me.0.mine self.old.copier.seat.me.0.theirs }
        ensures seen { self.new.copier.seat.me ≡ seeing self.new.copier.seat.me.0.seen self.old.copier.seat.me }
        ensures row { self.new.copier.seat.table_id ≡ self.old.copier.seat.table_id }
        ensures space { self.new.copier.space ≡ self.old.copier.space }
        ensures roots { self.new.roots ≡ self.old.roots }
        ensures moves { moves_held self.new ≡ moves_held self.old }
    {
        if whole {
            self.check(alloc, checker, moved)?;
            return Ok(true);
        }
        if !self.vouches(moved) {
            return Err(NoFlip::Refused);
        }
        Ok(false)
    }

    /// Asks the checker whether the mutator may go on in the new space with these roots, if nothing is left to do. Fails if the checker refuses,
    /// which is proved never to occur, or if an allocation fails.
    fn check<C: Checks>(&mut self, alloc: Global, checker: &C, moved: &[u64]) -> Result<(), NoFlip>
        requires can { C.can_check checker.now }
        requires left { HasNothingLeft self.old.roots.items self.old.copier.seat.me.0 }
        requires moved { moved.now ≡ moved_words (known_to self.old.copier) self.old.roots.items }
        ensures asked { OnOk result (C.says_yes checker.now (flip_shown (heap_held self.old) (known_to self.old.copier))) }
        ensures certified { OnOk result (CertifiesFlip (heap_held self.old) (known_to self.old.copier)) }
        ensures memory { IfErr result (λ why. why ≡ NoFlip.NoMemory) }
        ensures told { Flips self.old.roots.items self.old.copier.seat.me.0.mine self.old.copier.seat.me.0.theirs }
        ensures same { self.new.copier.seat.me ≡ self.old.copier.seat.me }
        ensures row { self.new.copier.seat.table_id ≡ self.old.copier.seat.table_id }
        ensures space { self.new.copier.space ≡ self.old.copier.space }
        ensures roots { self.new.roots ≡ self.old.roots }
        ensures moves { moves_held self.new ≡ moves_held self.old }
    {
        self.copier.look();
        let end = self.end;
        let words = self.copier.old_words(alloc, end)?;
        let held = &*self;
        let placed = held.copier.space.words();
        let new_end = held.copier.space.end();
        // Each object takes two words or more.
        let pairs = linked_pairs(alloc, placed, new_end / 2)?;
        let old = ImageRef {
            size: held.copier.size,
            end,
            words: words.as_slice(),
            roots: held.roots.as_slice(),
            raws: true,
        };
        let new = ImageRef {
            size: held.copier.space.size(),
            end: new_end,
            words: placed,
            roots: moved,
            raws: true,
        };
        no_fault_where_certified();
        match checker.check(alloc, old, new, pairs.as_slice()) {
            Ok(_) => Ok(()),
            Err(CheckFault::Refused(_)) => Err(NoFlip::Refused),
            Err(CheckFault::NoMemory) => Err(NoFlip::NoMemory),
        }
    }
}
