//! Slots by the numbers that C gives them.

ghost use Rattle.std.specs.Prelude.{◌≡◌, ◌<◌, ◌≤◌, ◌+◌, ◌↔◌, nat_lt, if◌then◌else◌, Some, None, IsTrue, length, map};
ghost use Rattle.std.specs.List.{AllByRecursion};
ghost use Rattle.gc_graph.specs.Limits.{lengths};
ghost use Rattle.gc_graph.specs.Slots.{roots_of};
ghost use Rattle.gcflip_heap_c.specs.Slots.{slot_numbers, numbered_slot};

use gc_collected::RootRow;
use gc_graph::Slot;

/// The number of slots that a mutator can name: sixteen of its own, and the sixteen that all mutators share.
pub(crate) const SLOT_NUMBERS: u8 = 32;

/// Returns the slot with this number, which must be below `SLOT_NUMBERS`. Numbers below 16 are the mutator's own slots,
/// and the others are the shared ones. Both have the same index, so that no branch is needed.
#[inline(always)]
pub(crate) fn numbered_slot(number: u8) -> Slot
    requires { number < slot_numbers }
    ensures { result ≡ numbered_slot number }
{
    let index = number % 16;
    if number < 16 {
        Slot::own(index).unwrap()
    } else {
        Slot::shared(index).unwrap()
    }
}

/// Returns the slot with this number, or `None` if there is no such slot.
pub(crate) fn slot(number: u8) -> Option<Slot>
    ensures { result ≡ if nat_lt number slot_numbers then Some (numbered_slot number) else None }
{
    if number < SLOT_NUMBERS {
        Some(numbered_slot(number))
    } else {
        None
    }
}

/// Returns whether every number is that of a slot.
pub(crate) fn are_slots(numbers: &[u8]) -> bool
    ensures { IsTrue result ↔ AllByRecursion (λ n. n < slot_numbers) numbers.now }
{
    for number in numbers {
        if *number >= SLOT_NUMBERS {
            return false;
        }
    }
    true
}

/// The slots with these numbers, in order.
#[derive(Drop)]
pub(crate) struct NumberedSlots<'a> {
    pub(crate) numbers: &'a [u8],
}

impl RootRow for NumberedSlots<'_> {
    ghost is_row = { λ row m roots. (length row.numbers.now < lengths) × AllByRecursion (λ n. n < slot_numbers) row.numbers.now × (roots_of (m + 1) ≤ roots) };

    ghost names = { λ row. map numbered_slot row.numbers.now };

    fn count(&self) -> u16 {
        self.numbers.len() as u16
    }

    #[inline(always)]
    #[tactic(auto, using(crate::proofs::Entries::named_at, crate::proofs::Entries::below_at))]
    fn place(&self, m: u8, i: u16) -> u32 {
        numbered_slot(self.numbers[usize::from(i)]).place(m) as u32
    }
}
