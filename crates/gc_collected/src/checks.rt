//! When a flip is checked whole, and how many were.

ghost use Rattle.std.specs.Prelude.{◌≡◌, ◌+◌, ◌<◌, ◌^◌, nat_le, nat_lt, ◌&&◌};

/// When the checker looks at a collection.
#[derive(Clone, Copy, Debug, Drop, PartialEq, Eq)]
pub enum Checking {
    /// The flip checks both spaces whole.
    AtFlip,
    /// A standing checker looks at each field when the collector brings it up to date. The flip looks at a count and the roots.
    Along {
        /// No more flips in a row than this number less one rest on the standing checker: the next one checks both spaces whole. If it is 0,
        /// any number of flips may.
        whole_each: u32,
    },
}

/// How many flips each checker has accepted since the heap was opened.
#[derive(Clone, Copy, Debug, Drop, PartialEq, Eq)]
pub struct FlipChecks {
    /// Those of the standing checker.
    pub along: u64,
    /// Those of the checker of both spaces whole.
    pub whole: u64,
}

impl FlipChecks {
    ghost use Rattle.gc_collected.specs.Collected.{counted};

    // With one flip more. A count stays at the largest number that it can hold.
    pub(crate) fn with(self, whole: bool) -> FlipChecks
        ensures { result ≡ counted whole self }
    {
        let FlipChecks {
            along,
            whole: wholes,
        } = self;
        if whole {
            FlipChecks {
                along,
                whole: wholes.saturating_add(1),
            }
        } else {
            FlipChecks {
                along: along.saturating_add(1),
                whole: wholes,
            }
        }
    }
}

/// When the next check of both spaces whole is due.
#[derive(Clone, Copy, Debug, Drop, PartialEq, Eq)]
pub(crate) struct Turn {
    /// Each flip with this number is checked whole, counted from the last one that was. If it is 0, none is for its number.
    each: u32,
    /// The number of flips since the last one that was checked whole, or since the heap was opened.
    since: u32,
}

impl Turn {
    ghost use Rattle.gc_collected.specs.Collected.{opening_turns, since_after};

    // Returns the turn of a heap that was just opened.
    pub(crate) fn at_open(checking: Checking) -> Turn
        ensures each { result.each ≡ (opening_turns checking).each }
        ensures since { result.since ≡ 0 }
    {
        let each = match checking {
            Checking::AtFlip => 1,
            Checking::Along { whole_each } => whole_each,
        };
        Turn { each, since: 0 }
    }

    // Whether the next flip is to be checked whole for its number.
    pub(crate) fn is_due(self) -> bool
        ensures { result ≡ (nat_lt 0 self.each && nat_le self.each (self.since + 1)) }
    {
        self.each != 0 && self.since >= self.each - 1
    }

    // After a flip that was checked whole, or was not.
    pub(crate) fn after(self, whole: bool) -> Turn
        ensures each { result.each ≡ self.each }
        ensures since { result.since ≡ since_after whole self.since }
    {
        let since = if whole {
            0
        } else {
            self.since.saturating_add(1)
        };
        Turn {
            each: self.each,
            since,
        }
    }
}
