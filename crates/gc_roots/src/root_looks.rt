//! The standing checker's row of the extra roots. It compares a root with its twin at each look, by its own pairs, and believes nobody.

ghost use Rattle.std.specs.Prelude.{◌≡◌, ◌≢◌, ◌↔◌, ◌<◌, ◌≤◌, ◌*◌, ◌+◌, ◌++◌, ◌-◌, ℕ, List, length, max, replicate, slice_index, slice_set, true, false, IsTrue, IsFalse, IfOk};
ghost use Rattle.gc_words.specs.Marks.{is_marked};
ghost use Rattle.gc_words.specs.Word.{words_correspond};
ghost use Rattle.gc_monitor.specs.Claims.{Accepts};
ghost use Rattle.gc_monitor.specs.Origins.{pairs_in};
ghost use Rattle.gc_monitor.specs.Outline.{outline_in};
ghost use Rattle.gc_monitor.specs.Tables.{RowsAgree};
ghost use Rattle.gc_roots.specs.Looks.{LookRow, HasLooked, IsCompared, IsTold, CorrespondAt, AreCompared, ComparesOnly, ComparesOnlyAt};
ghost use Rattle.gc_roots.specs.Internal.Rows.{HasLookedAtAll};

use crate::due::DueRow;
use crate::root_twins::LookedAt;
use gc_graph::NoMemory;
use gc_monitor::{Monitor, Outline, Watcher};
use std::alloc::Global;
use std::marker::Model;

/// Which extra roots a standing checker has compared with their twins since they were written.
#[derive(Debug, Drop)]
pub struct RootLooks {
    due: DueRow,
    front: usize,
    /// For so many extra roots the row has room.
    room: usize,
}

impl Model for RootLooks {
    ghost use Rattle.std.specs.Prelude.{◌≤◌, ◌*◌, ◌<◌, ◌^◌, length};
    ghost use Rattle.gc_roots.specs.Looks.{LookRow};

    ghost Value = { LookRow };

    ghost view = { λ r. record { marks = r.due; front = r.front; room = r.room } };

    ghost invariant = { λ r. (r.room ≤ 64 * length r.due) × (r.front ≤ r.room) × (r.room < 2 ^ 32) };
}

impl RootLooks {
    /// Returns a row with room for so many extra roots, none of which was compared.
    pub fn new(alloc: Global, extra: u32) -> Result<RootLooks, NoMemory>
        ensures { IfOk result (λ row. (row.front ≡ 0) × (row.room ≡ extra)) }
    {
        let due = DueRow::new(alloc, extra)?;
        Ok(RootLooks {
            due,
            front: 0,
            room: extra as usize,
        })
    }

    /// Nothing is compared from now on.
    pub fn restart(&mut self)
        ensures { self.new ≡ record self.old { front = 0 } }
    {
        self.front = 0;
    }

    /// Notes that extra root `k` was written, whatever it holds.
    #[inline(always)]
    pub fn written(&mut self, k: u32)
        ensures looked { (pairs : List (ℕ × ℕ)) (slots x : ℕ) (olds news : List ℕ) → HasLooked pairs slots olds news self.old
            → HasLooked pairs slots (slice_set olds (slots + k) x) news self.new }
        ensures told { IsTold self.old self.new k }
    {
        let k = k as usize;
        if k < self.front {
            self.due.mark(k);
        }
    }

    /// Compares extra root `k`, which holds this word, with its twin, whoever has written that.
    #[inline(always)]
    pub fn look(&mut self, standing: &Monitor, k: u32, word: u64, twin: u64)
        ensures looked { k < self.new.front → is_marked self.new.marks k ≡ false → words_correspond (pairs_in standing.now.origins) word twin ≡ true }
        ensures compared { words_correspond (pairs_in standing.now.origins) word twin ≡ true → k ≤ self.old.front → k < self.old.room → IsCompared self.old self.new k }
        ensures others { ComparesOnly self.old self.new k }
        ensures room { self.new.room ≡ self.old.room }
    {
        if k as usize != self.front {
            self.look_again(standing, k, word, twin);
        } else if self.front < self.room && standing.roots_are_alike(word, twin) {
            self.due.unmark(self.front);
            self.front += 1;
        }
    }

    /// Compares the extra roots from `from` on and below `to` with their twins, whoever has written those. The rows have all root words and all
    /// twins, and begin with so many slots.
    pub fn look_on(
        &mut self,
        standing: &Monitor,
        roots: &[u64],
        twins: &[u64],
        slots: usize,
        at: LookedAt,
    )
        requires order { at.from ≤ at.to }
        requires roots { slots + at.to ≤ length roots.now }
        requires twins { slots + at.to ≤ length twins.now }
        ensures looked { (k : ℕ) → at.from ≤ k → k < at.to → k < self.new.front → is_marked self.new.marks k ≡ false
            → words_correspond (pairs_in standing.now.origins) (slice_index roots.now (slots + k)) (slice_index twins.now (slots + k)) ≡ true }
        ensures compared { CorrespondAt (pairs_in standing.now.origins) slots roots.now twins.now at → at.from ≤ self.old.front → at.to ≤ self.old.room
            → AreCompared self.new at }
        ensures others { ComparesOnlyAt self.old self.new at }
    {
        let from = at.from as usize;
        let to = at.to as usize;
        if from == self.front && to <= self.room && self.due.first().is_none() {
            self.front = alike_until(standing, roots, twins, slots + from, slots + to) - slots;
            return;
        }
        for k in at.from..at.to {
            self.look(
                standing,
                k,
                roots[slots + k as usize],
                twins[slots + k as usize],
            );
        }
    }

    /// Compares an extra root with its twin again. Extra root `k` is not the first one that was not compared.
    #[inline(never)]
    fn look_again(&mut self, standing: &Monitor, k: u32, word: u64, twin: u64)
        ensures looked { k < self.new.front → is_marked self.new.marks k ≡ false → words_correspond (pairs_in standing.now.origins) word twin ≡ true }
        ensures compared { words_correspond (pairs_in standing.now.origins) word twin ≡ true → k < self.old.front → IsCompared self.old self.new k }
        ensures others { ComparesOnly self.old self.new k }
        ensures room { self.new.room ≡ self.old.room }
    {
        let k = k as usize;
        if k < self.front {
            if standing.roots_are_alike(word, twin) {
                self.due.unmark(k);
            } else {
                self.due.mark(k);
            }
        }
    }

    /// Returns whether the first `count` extra roots were compared, and none of them was written since.
    fn knows(&self, count: usize) -> bool
        ensures { IsTrue result ↔ HasLookedAtAll self.now count }
    {
        if self.front < count {
            return false;
        }
        match self.due.first() {
            None => true,
            Some(k) => k >= count,
        }
    }

    /// Returns whether the checker accepts these outlines by what it has compared of the extra roots. Reads the slots, of which there are so many,
    /// and no other root.
    fn says_yes(&self, standing: &Monitor, old: Outline, new: Outline, slots: usize) -> bool
        ensures yes { IsTrue result → HasLooked (pairs_in standing.now.origins) slots (outline_in old.entry).roots (outline_in new.entry).roots self.now
            → Accepts standing.now (outline_in old.entry) (outline_in new.entry) }
        ensures agree { IsTrue result → RowsAgree standing.now }
    {
        if !standing.has_seen_all(old, new) {
            return false;
        }
        if old.roots.len() != new.roots.len() {
            return false;
        }
        if old.nils != new.nils {
            return false;
        }
        if old.roots.len() < slots {
            return false;
        }
        if !self.knows(old.roots.len() - slots) {
            return false;
        }
        alike_until(standing, old.roots, new.roots, 0, slots) == slots
    }
}

/// A standing checker with its row of the extra roots, beside a heap with so many slots.
#[derive(Clone, Copy, Debug)]
pub struct RootWatcher<'a> {
    pub standing: &'a Monitor,
    pub looks: &'a RootLooks,
    pub slots: usize,
}

impl Watcher for RootWatcher<'_> {
    ghost use Rattle.gc_monitor.specs.Claims.{Accepts};
    ghost use Rattle.gc_monitor.specs.Origins.{pairs_in};
    ghost use Rattle.gc_monitor.specs.Tables.{RowsAgree};
    ghost use Rattle.gc_roots.specs.Looks.{HasLooked};

    // It was told of each extra root that was written since it looked at it.
    ghost accepted = { λ w old new. HasLooked (pairs_in w.standing.now.origins) w.slots old.roots new.roots w.looks.now
        → RowsAgree w.standing.now × Accepts w.standing.now old new };

    ghost sure = { λ w. Accepts w.standing.now };

    // Where it has not compared each extra root, or not found it alike, it reads them all.
    fn accepts(&self, old: Outline, new: Outline) -> bool {
        self.looks.says_yes(self.standing, old, new, self.slots) || self.standing.says_yes(old, new)
    }
}

/// Returns the first place from `from` on and below `to` at which the words do not stand for each other, or `to`.
fn alike_until(standing: &Monitor, old: &[u64], new: &[u64], from: usize, to: usize) -> usize
    requires order { from ≤ to }
    requires old { to ≤ length old.now }
    requires new { to ≤ length new.now }
    ensures low { from ≤ result }
    ensures high { result ≤ to }
    ensures alike { (p : ℕ) → from ≤ p → p < result → words_correspond (pairs_in standing.now.origins) (slice_index old.now p) (slice_index new.now p) ≡ true }
    ensures differs { result < to → words_correspond (pairs_in standing.now.origins) (slice_index old.now result) (slice_index new.now result) ≡ false }
{
    for place in from..to {
        if !standing.roots_are_alike(old[place], new[place]) {
            return place;
        }
    }
    to
}
