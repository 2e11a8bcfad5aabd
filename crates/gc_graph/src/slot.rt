ghost use Rattle.std.specs.Prelude.{◌≡◌};
ghost use Rattle.gc_graph.specs.Slots.{roots_of};

use crate::limits::SLOTS_EACH;
use std::marker::Model;

/// One of the sixteen slots that all mutators share, or one of a mutator's own sixteen.
#[derive(Clone, Copy, Debug, PartialEq, Eq)]
pub struct Slot {
    shared: bool,
    index: u8,
}

impl Model for Slot {
    ghost use Rattle.std.specs.Prelude.{◌<◌};
    ghost use Rattle.gc_graph.specs.Limits.{slots_each};
    ghost use Rattle.gc_graph.specs.Slots.{SlotName};
    ghost use Rattle.gc_graph.specs.Internal.Slots.{coded_slot};

    ghost Value = { SlotName };

    ghost coded = { coded_slot };

    ghost view = { λ s. record { shared = s.shared; index = s.index } };

    ghost invariant = { λ s. s.index < slots_each };

    ghost inverse = { λ s. record { shared = s.shared; index = s.index } };
}

impl Slot {
    ghost use Rattle.std.specs.Prelude.{◌≡◌, ◌<◌, ◌+◌, ◌*◌, true, false, SomeIff};
    ghost use Rattle.gc_graph.specs.Limits.{slots_each};
    ghost use Rattle.gc_graph.specs.Slots.{own_slot, shared_slot, place as place_of, roots_of};

    /// Returns a mutator's own slot, or `None` if `index` is not below `SLOTS_EACH`.
    pub fn own(index: u8) -> Option<Slot>
        ensures { SomeIff result (index < slots_each) (own_slot index) }
    {
        if index < SLOTS_EACH {
            Some(Slot {
                shared: false,
                index,
            })
        } else {
            None
        }
    }

    /// Returns a slot that all mutators share, or `None` if `index` is not below `SLOTS_EACH`.
    pub fn shared(index: u8) -> Option<Slot>
        ensures { SomeIff result (index < slots_each) (shared_slot index) }
    {
        if index < SLOTS_EACH {
            Some(Slot {
                shared: true,
                index,
            })
        } else {
            None
        }
    }

    /// Returns whether all mutators share the slot.
    pub fn is_shared(self) -> bool
        ensures { result ≡ self.shared }
    {
        self.shared
    }

    /// Returns the slot's number among the shared slots, or among a mutator's own.
    pub fn index(self) -> u8
        ensures value { result ≡ self.index }
        ensures bound { result < slots_each }
    {
        self.index
    }

    /// Returns the place of mutator `m`'s slot in the list of roots.
    pub fn place(self, m: u8) -> usize
        ensures value { result ≡ place_of self m }
        ensures bound { result < roots_of (m + 1) }
    {
        let index = usize::from(self.index);
        if self.shared {
            index
        } else {
            root_count(m) + index
        }
    }
}

/// Returns the number of roots of `mutators` mutators: the shared slots, and each mutator's own.
pub fn root_count(mutators: u8) -> usize
    ensures { result ≡ roots_of mutators }
{
    let each = usize::from(SLOTS_EACH);
    each + each * usize::from(mutators)
}
