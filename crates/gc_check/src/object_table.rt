//! A table with a number for each object of an image.

use crate::starts::Starts;
use std::alloc::{AllocError, Global};
use std::marker::Model;

/// A number for each object of an image, or 0. An object takes two words or more, so no other one starts at an address with the same half:
/// the table has an entry for two words. Contracts see the entries.
#[derive(Drop)]
pub(crate) struct ObjectTable {
    entries: Vec<u32>,
}

impl Model for ObjectTable {
    ghost use Rattle.std.specs.Prelude.{ℕ, List};

    ghost Value = { List ℕ };

    ghost view = { λ table. table.entries.items };
}

impl ObjectTable {
    ghost use Rattle.std.specs.Prelude.{◌≡◌, ◌<◌, ◌==◌, IfOk, IsOk, IsTrue, length, replicate, slice_index, slice_set};
    ghost use Rattle.gc_words.specs.Image.{is_start, walk_words};
    ghost use Rattle.gc_check.specs.Internal.Tables.{HasEntries, by_address};

    /// Returns a table of zeros for the objects that start here. Allocates once.
    #[tactic(auto, using(crate::proofs::ByAddress::zeros_by_address))]
    pub(crate) fn new(alloc: Global, starts: &Starts) -> Result<ObjectTable, AllocError>
        requires { IsOk (walk_words starts.now.words) }
        ensures entries { IfOk result (λ table. HasEntries starts.now.words table) }
        ensures zeros { IfOk result (λ table. by_address starts.now.words table ≡ replicate (length starts.now.words) 0) }
    {
        let entries = vec![in alloc; 0u32; starts.places() / 2 + 1]?;
        Ok(ObjectTable { entries })
    }

    /// Returns the number of the object that starts at this place, or 0 if none does.
    #[tactic(auto, using(crate::proofs::ByAddress::number_read, crate::proofs::ByAddress::no_number))]
    pub(crate) fn get(&self, starts: &Starts, place: u32) -> u32
        requires { HasEntries starts.now.words self.now }
        ensures { result ≡ slice_index (by_address starts.now.words self.now) place }
    {
        if !starts.contains(place) {
            return 0;
        }
        self.entries[place as usize / 2]
    }

    /// Returns the number of entries.
    pub(crate) fn len(&self) -> usize
        ensures { result ≡ length self.now }
    {
        self.entries.len()
    }

    /// Returns whether the object that starts in words `2 * half` and `2 * half + 1`, if one does, has the number 0.
    pub(crate) fn is_zero(&self, half: usize) -> bool
        requires { half < length self.now }
        ensures { result ≡ (slice_index self.now half == 0) }
    {
        self.entries[half] == 0
    }

    /// Sets the number of the object that starts at this place.
    #[tactic(auto, using(crate::proofs::ByAddress::entry_within, crate::proofs::ByAddress::set_by_address))]
    pub(crate) fn set(&mut self, starts: &Starts, place: u32, number: u32)
        requires entries { HasEntries starts.now.words self.old }
        requires start { IsTrue (is_start starts.now.words place) }
        ensures entries { HasEntries starts.now.words self.new }
        ensures number { by_address starts.now.words self.new
            ≡ slice_set (by_address starts.now.words self.old) place number }
    {
        self.entries[place as usize / 2] = number;
    }
}
