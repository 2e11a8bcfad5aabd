ghost use Rattle.std.specs.Prelude.{◌≡◌, ◌≤◌, ◌+◌, IfOk, map};
ghost use Rattle.std.specs.List.{range_with_len};
ghost use Rattle.gc_shared.specs.Seats.{fresh};

use gc_world::{Answer, Entry, Event};
use std::alloc::{AllocError, Global};
use std::marker::Model;

/// The record of an answered call: its event, the answer, and its place in the history. It takes 32 bytes.
#[derive(Clone, Copy, Debug, PartialEq, Eq)]
pub struct Receipt {
    pub(crate) place: usize,
    pub(crate) entry: Entry,
}

impl Receipt {
    ghost use Rattle.std.specs.Prelude.{◌≡◌};

    /// Returns the event's place in the history: the number of events before it.
    pub fn place(&self) -> usize
        ensures { result ≡ self.now.place }
    {
        self.place
    }

    /// Returns the event.
    pub fn event(&self) -> Event
        ensures { result ≡ self.now.entry.event }
    {
        self.entry.event()
    }

    /// Returns the answer.
    pub fn answer(&self) -> Answer
        ensures { result ≡ self.now.entry.answer }
    {
        self.entry.answer()
    }

    /// Returns the event and the answer as an entry of a history.
    pub fn entry(&self) -> Entry
        ensures { result ≡ self.now.entry }
    {
        self.entry
    }
}

const _: () = prove!(size_of::<Receipt>() == 32);

/// The right to make calls under one number, a mutator's or a collector's. It has a receipt for each answered call, in
/// order.
#[derive(Debug, Drop)]
pub struct Seat {
    pub(crate) number: u8,
    pub(crate) is_mutator: bool,
    pub(crate) receipts: Vec<Receipt>,
}

impl Model for Seat {
    ghost use Rattle.gc_shared.specs.Seats.{SeatValue};

    ghost Value = { SeatValue };

    ghost view = { λ s. record {
      number = s.number;
      is_mutator = s.is_mutator;
      receipts = s.receipts.items;
    } };
}

impl Seat {
    /// Returns the seat's number. The mutators' seats are numbered from 0, and the collectors' seats follow.
    pub fn number(&self) -> u8
        ensures { result ≡ self.now.number }
    {
        self.number
    }

    /// Returns whether this is a mutator's seat, which performs commands. A collector's seat performs steps.
    pub fn is_mutator(&self) -> bool
        ensures { result ≡ self.now.is_mutator }
    {
        self.is_mutator
    }

    /// Returns the receipts, in order.
    pub fn receipts(&self) -> &[Receipt]
        ensures { result.now ≡ self.now.receipts }
    {
        self.receipts.as_slice()
    }
}

/// Returns the seats of an opening, without receipts: first the mutators', then the collectors'.
pub(crate) fn seats_of(alloc: Global, mutators: u8, collectors: u8) -> Result<Vec<Seat>, AllocError>
    requires { mutators + collectors ≤ 32 }
    ensures { IfOk result (λ seats. seats.items ≡ map (fresh mutators) (range_with_len 0 (mutators + collectors))) }
{
    (0..mutators + collectors)
        .map(|number| Seat {
            number,
            is_mutator: number < mutators,
            receipts: Vec::new(alloc),
        })
        .collect(alloc)
}
