//! The original of each replica, by half the replica's address.

use crate::zeros::{add_addresses, add_words, touch_addresses, touch_words};
use gc_graph::NoMemory;
use gc_words::{is_marked, mark};
use std::alloc::Global;
use std::marker::Model;

/// The number of places that a word has a bit for.
const PER_WORD: usize = 64;

/// The number of originals for the places of a word.
const HALVES: usize = 32;

/// By place, the original of the replica that starts there, or 0. An object takes two words or more, so no other one starts at an address with
/// the same half: there is an entry for two places. Contracts see the originals by place, and for how many places there is room.
#[derive(Debug, Drop)]
pub(crate) struct OriginRow {
    /// A bit for each place: a replica starts there.
    starts: Vec<u64>,
    /// By half a place: the original of the replica that starts there, if one does. There are `HALVES` for each word of bits.
    originals: Vec<u32>,
    len: usize,
}

impl Model for OriginRow {
    ghost use Rattle.std.specs.Prelude.{◌≡◌, ◌⊎◌, ◌≤◌, vec_capacity};
    ghost use Rattle.gc_monitor.specs.Internal.InWords.{Origins, HasOrigins, origins_in, room_for};

    ghost Value = { Origins };

    ghost view = { λ row. record {
      origins = origins_in row.starts.items row.originals.items row.len;
      room = room_for (vec_capacity row.starts) (vec_capacity row.originals);
    } };

    ghost invariant = { λ row. HasOrigins row.starts.items row.originals.items row.len
        × (row.len ≤ room_for (vec_capacity row.starts) (vec_capacity row.originals))
        × ((1 ≤ row.len) ⊎ (room_for (vec_capacity row.starts) (vec_capacity row.originals) ≡ 0)) };
}

impl OriginRow {
    ghost use Rattle.std.specs.Prelude.{◌≡◌, ◌+◌, ◌<◌, ◌≤◌, ◌∷◌, ◌++◌, [], IfOk, OnOk, length, replicate, slice_index_or};

    /// Returns a row of place 0 alone, with no original and room for so many places. Allocates twice.
    pub(crate) fn new(alloc: Global, places: u32) -> Result<OriginRow, NoMemory>
        requires { 1 ≤ places }
        ensures { IfOk result (λ row. (row.origins ≡ 0 ∷ []) × (places ≤ row.room)) }
    {
        let words = words_of(places as usize);
        let mut starts = Vec::with_capacity(alloc, words)?;
        let mut originals = Vec::with_capacity(alloc, HALVES * words)?;
        add_words(&mut starts, 1);
        add_addresses(&mut originals, HALVES);
        Ok(OriginRow {
            starts,
            originals,
            len: 1,
        })
    }

    /// Returns a row of no places, without room. Does not allocate.
    pub(crate) fn absent(alloc: Global) -> OriginRow
        ensures { result ≡ record { origins = []; room = 0 } }
    {
        OriginRow {
            starts: Vec::new(alloc),
            originals: Vec::new(alloc),
            len: 0,
        }
    }

    /// Makes room for so many places. If memory is refused, the originals stay as they are.
    pub(crate) fn reserve(&mut self, places: u32) -> Result<(), NoMemory>
        requires { 1 ≤ self.old.room }
        ensures origins { self.new.origins ≡ self.old.origins }
        ensures room { self.old.room ≤ self.new.room }
        ensures reserved { OnOk result (places ≤ self.new.room) }
    {
        let words = words_of(places as usize);
        if self.starts.len() < words {
            self.starts.reserve_exact(words - self.starts.len())?;
        }
        let halves = HALVES * words;
        if self.originals.len() < halves {
            self.originals.reserve_exact(halves - self.originals.len())?;
        }
        Ok(())
    }

    /// Writes to all memory of the row once.
    pub(crate) fn touch(&mut self)
        ensures origins { self.new.origins ≡ self.old.origins }
        ensures room { self.old.room ≤ self.new.room }
    {
        if self.len == 0 {
            return;
        }
        touch_words(&mut self.starts);
        touch_addresses(&mut self.originals);
    }

    /// Place 0 alone is left, with no original.
    pub(crate) fn restart(&mut self)
        requires { 1 ≤ self.old.room }
        ensures origins { self.new.origins ≡ 0 ∷ [] }
        ensures room { self.old.room ≤ self.new.room }
    {
        self.starts.clear();
        add_words(&mut self.starts, 1);
        self.originals.clear();
        add_addresses(&mut self.originals, HALVES);
        self.len = 1;
    }

    /// Returns the number of places.
    #[inline(always)]
    pub(crate) fn len(&self) -> usize
        ensures { result ≡ length self.now.origins }
    {
        self.len
    }

    /// Returns the original of the replica that starts at this place, or 0.
    #[inline(always)]
    pub(crate) fn get(&self, place: usize) -> u32
        ensures origin { result ≡ slice_index_or self.now.origins place 0 }
        ensures place { 1 ≤ result → (1 ≤ place) × (place < 4294967295) }
    {
        if place >= self.len {
            return 0;
        }
        // Fewer instructions find the word of a place with 32 bits.
        let at = place as u32;
        if !is_marked(self.starts.as_slice(), at as usize) {
            return 0;
        }
        self.originals[place / 2]
    }

    /// Adds a replica with so many fields.
    #[inline(always)]
    pub(crate) fn add(&mut self, fields: u16, original: u32)
        requires { length self.old.origins + (fields + 2) ≤ self.old.room }
        ensures origins { self.new.origins ≡ self.old.origins ++ original ∷ 0 ∷ replicate fields 0 }
        ensures room { self.old.room ≤ self.new.room }
    {
        let at = self.len;
        let len = at + (usize::from(fields) + 2);
        grow(&mut self.starts, &mut self.originals, len);
        mark(self.starts.as_mut_slice(), at);
        self.originals[at / 2] = original;
        self.len = len;
    }
}

ghost use Rattle.std.specs.Prelude.{◌≡◌, ◌+◌, ◌-◌, ◌*◌, ◌/◌, ◌≤◌, ◌++◌, replicate, vec_len, vec_capacity};

// The number of words for a bit of each of so many places.
#[inline(always)]
fn words_of(places: usize) -> usize
    requires { places ≤ 4294967295 }
    ensures { result ≡ (places + 63) / 64 }
{
    (places + 63) / PER_WORD
}

// Adds zeros up to the words for so many places, and the originals for them.
#[inline(always)]
fn grow(starts: &mut Vec<u64>, originals: &mut Vec<u32>, places: usize)
    requires few { places ≤ 4294967295 }
    requires words { vec_len starts.old ≤ (places + 63) / 64 }
    requires halves { vec_len originals.old ≡ 32 * vec_len starts.old }
    requires room { (places + 63) / 64 ≤ vec_capacity starts.old }
    requires room_for_halves { 32 * ((places + 63) / 64) ≤ vec_capacity originals.old }
    ensures starts { starts.new.items ≡ starts.old.items ++ replicate ((places + 63) / 64 - vec_len starts.old) 0 }
    ensures originals { originals.new.items ≡ originals.old.items ++ replicate (32 * ((places + 63) / 64) - vec_len originals.old) 0 }
    ensures starts_capacity { vec_capacity starts.old ≤ vec_capacity starts.new }
    ensures originals_capacity { vec_capacity originals.old ≤ vec_capacity originals.new }
{
    // Mostly the words are there. This test takes fewer instructions than `words_of`.
    if places / PER_WORD < starts.len() {
        return;
    }
    let words = words_of(places);
    add_words(starts, words);
    add_addresses(originals, HALVES * words);
}
