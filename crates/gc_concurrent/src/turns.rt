//! When a flip asks the whole checker, and how many flips did.
ghost use Rattle.std.specs.Prelude.{◌≡◌};
ghost use Rattle.gc_concurrent.specs.Turns.{after_flip, whole_is_due, turns_at_open};

/// When the next flip asks the whole checker, and how many flips did so far.
#[derive(Clone, Copy, Debug, Drop, PartialEq, Eq)]
pub struct Turns {
    /// Each flip with this number asks the whole checker, counted from the last one that did. If it is 0, none does for its number.
    pub each: u32,
    /// The number of flips since the last one that asked it, or since the heap was opened.
    pub since: u32,
    /// The flips for which only the standing checker was asked.
    pub along: u64,
    /// The flips for which the whole checker said yes.
    pub whole: u64,
}

impl Turns {
    /// Returns the turns of a heap that was just opened.
    pub(crate) fn at_open(each: u32) -> Turns
        ensures { result ≡ turns_at_open each }
    {
        Turns {
            each,
            since: 0,
            along: 0,
            whole: 0,
        }
    }

    /// Returns whether the next flip asks the whole checker for its number.
    pub(crate) fn is_due(self) -> bool
        ensures { result ≡ whole_is_due self }
    {
        self.each != 0 && self.since >= self.each - 1
    }

    /// Returns the turns after a flip that asked the whole checker, or did not.
    pub(crate) fn after(self, whole: bool) -> Turns
        ensures { result ≡ after_flip whole self }
    {
        if whole {
            Turns {
                each: self.each,
                since: 0,
                along: self.along,
                whole: self.whole.saturating_add(1),
            }
        } else {
            Turns {
                each: self.each,
                since: self.since.saturating_add(1),
                along: self.along.saturating_add(1),
                whole: self.whole,
            }
        }
    }
}
