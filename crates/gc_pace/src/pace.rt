//! The pace of collector steps: how many are due, as a function of counts.

ghost use Rattle.std.specs.Prelude.{◌≡◌};
ghost use Rattle.gc_pace.specs.Pace as paces;

use crate::counts::{Counts, units_of};
use crate::work::Work;

/// The lowest factor of a pace, in hundredths.
const LOWEST_FACTOR: u32 = 100;

/// The highest factor of a pace, in hundredths.
const HIGHEST_FACTOR: u32 = 10_000;

/// When a collection begins and how fast it goes on, and what paced work remembers of the call before. C sees the same record.
#[repr(C)]
#[derive(Clone, Copy, Debug, Drop, PartialEq, Eq)]
pub struct Pace {
    /// A collection begins where this many hundredths of the words that the last flip left are in use: 100 to 10,000.
    pub factor: u32,
    /// The steps for each word allocated, each entry logged and each 32 looks more that stores to roots ask for, or 0 if they follow from the counts.
    pub rate: u32,
    /// The words in use below which no collection begins, unless little room is left.
    pub least: u32,
    /// A call ends once it performed this many units of work, or took twice as many looks at extra roots, or its replicas took this many words; or 0
    /// if it performs all steps that are due.
    pub words: u32,
    /// The heap's end after the last flip.
    pub left: u32,
    /// The heap's end after the last call.
    pub end: u32,
    /// The number of log entries after the last call.
    pub logged: u32,
    /// The number of steps that were due at the last call and that its bound left undone.
    pub owed: u32,
    /// The looks at extra roots that were left after the last call.
    pub roots: u32,
}

impl Pace {
    ghost use Rattle.std.specs.Prelude.{◌≡◌, ◌<◌, ◌≤◌, ◌↔◌, ◌^◌, ◌+◌, ◌*◌, min, IsTrue};
    ghost use Rattle.gc_pace.specs.Pace as paces;

    /// Returns whether the factor is in range.
    pub fn is_fit(&self) -> bool
        ensures { IsTrue result ↔ paces.IsPace self.now }
    {
        self.factor >= LOWEST_FACTOR && self.factor <= HIGHEST_FACTOR
    }

    /// Returns the number of useful steps that are due before the program allocates `wanted` words. This is the whole policy of paced
    /// work: it reads nothing but its arguments.
    #[tactic(auto, using(crate::proofs::Paid::paid))]
    pub fn steps_due(&self, counts: &Counts, wanted: u32) -> u32
        ensures due { result ≡ paces.steps_due self.now counts.now wanted }
        ensures paid { paces.Pays self.now counts.now result }
    {
        let due = self.due_with(counts, counts.free.saturating_sub(wanted));
        due.min(u64::from(u32::MAX)) as u32
    }

    /// Remembers a heap with these counts, as if it had just flipped. No step is owed.
    pub fn remember(&mut self, counts: &Counts)
        ensures { self.new ≡ paces.pace_from self.old counts.now }
    {
        self.left = counts.end;
        self.end = counts.end;
        self.logged = counts.logged;
        self.owed = 0;
        self.roots = counts.roots_left;
    }

    /// Remembers the counts after this work, for which so many steps were due.
    pub(crate) fn remember_work(&mut self, due: u32, work: &Work, counts: &Counts)
        ensures { self.new ≡ paces.pace_after self.old due work.now counts.now }
    {
        self.owed = self.owed_after(due, work);
        if work.has_flipped() {
            self.left = counts.end;
        }
        self.end = counts.end;
        self.logged = counts.logged;
        self.roots = counts.roots_left;
    }

    /// Returns the number of words allocated, entries logged and units of looks that rose since the call before.
    fn spent(&self, counts: &Counts) -> u64
        ensures value { result ≡ paces.spent self.now counts.now }
        ensures bound { result < 2 ^ 34 }
    {
        let allocated = counts.end.saturating_sub(self.end);
        let logged = counts.logged.saturating_sub(self.logged);
        let stored = units_of(counts.roots_left).saturating_sub(units_of(self.roots));
        u64::from(allocated) + u64::from(logged) + stored
    }

    /// Returns the number of words in use at which a collection begins.
    fn beginning(&self, counts: &Counts) -> u64
        ensures { result ≡ paces.beginning self.now counts.now }
    {
        let grown = u64::from(self.factor) * u64::from(self.left) / 100;
        let halfway = (u64::from(self.left) + u64::from(counts.size)) / 2;
        grown.max(u64::from(self.least)).min(halfway)
    }

    /// Returns the number of steps for each word, entry and unit spent, where this much room is left.
    fn rate(&self, counts: &Counts, room: u32) -> u64
        requires { 1 ≤ room }
        ensures value { result ≡ paces.rate_of self.now counts.now room }
        ensures bound { result < 2 ^ 35 }
    {
        if self.rate == 0 {
            2 + counts.steps_left() / u64::from(room)
        } else {
            u64::from(self.rate)
        }
    }

    /// Returns the number of steps that are due while a collection is open.
    fn due_while_open(&self, counts: &Counts, room: u32) -> u64
        requires { 1 ≤ room }
        ensures { result ≡ min (paces.steps_left counts.now) (self.now.owed + paces.spent self.now counts.now * paces.rate_of self.now counts.now room) }
    {
        let left = counts.steps_left();
        let paid = u128::from(self.spent(counts)) * u128::from(self.rate(counts, room));
        if paid < u128::from(left) {
            left.min(u64::from(self.owed) + paid as u64)
        } else {
            left
        }
    }

    /// Returns the number of steps that are due, where this much room is left.
    fn due_with(&self, counts: &Counts, room: u32) -> u64
        ensures { result ≡ paces.due_with self.now counts.now room }
    {
        if room == 0 {
            return counts.steps_left();
        }
        if counts.is_open != 0 {
            return self.due_while_open(counts, room);
        }
        if u64::from(counts.end) < self.beginning(counts) {
            0
        } else {
            1
        }
    }

    /// Returns whether the pace bounds the words of a call, and this one performed as many units, or took twice as many looks, or its replicas took as
    /// many words.
    fn took_its_words(&self, work: &Work) -> bool
        ensures { result ≡ paces.took_its_words self.now work.now }
    {
        self.words > 0
            && (work.units() >= u64::from(self.words)
                || u64::from(work.looks) >= 2 * u64::from(self.words)
                || work.copied >= self.words)
    }

    /// Returns the steps that are owed after this work, for which so many were due.
    fn owed_after(&self, due: u32, work: &Work) -> u32
        ensures { result ≡ paces.owed_after self.now due work.now }
    {
        if work.is_over() {
            return 0;
        }
        if self.took_its_words(work) {
            u64::from(due).saturating_sub(work.units()) as u32
        } else {
            0
        }
    }
}
