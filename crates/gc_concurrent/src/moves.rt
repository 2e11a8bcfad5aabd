//! Where the last flip moved the mutator's objects, for a table by addresses outside of the heap.
ghost use Rattle.std.specs.Prelude.{◌≡◌, ◌+◌, ◌%◌, ◌^◌, ◌<◌, ℕ, List, Some};
ghost use Rattle.std.specs.Option.{option_map};
ghost use Rattle.gc_graph.specs.Graph.{Ref, at_path};
ghost use Rattle.gc_heap.specs.Heap.{graph_in};
ghost use Rattle.gc_concurrent.specs.Moves.{FlipsTo, Situation, Stays, StaysOrFlips, half, moved_to, no_moves};
ghost use Rattle.gc_concurrent.specs.Holders.{moves_in};

use crate::commands::Commander;
use gc_words::{NewAddr, OldAddr};
use std::alloc::Global;
use std::marker::Model;

/// Returns the index of the entry of the object at this address, which is half of the address. An object takes two words or more, so no two objects
/// start at addresses with the same half.
pub(crate) fn half(at: u32) -> usize
    ensures { result ≡ half at }
{
    (at / 2) as usize
}

/// The place of each object's replica at the last flip, or 0, by half of the address that the object had before it; and the number of flips.
#[derive(Drop)]
pub struct Moves {
    row: Vec<u32>,
    flips: u64,
}

impl Model for Moves {
    ghost use Rattle.gc_concurrent.specs.Moves.{MovesWords};

    ghost Value = { MovesWords };

    ghost view = { λ m. record { row = m.row.items; flips = m.flips } };
}

impl Moves {
    /// Before the first flip nothing has moved. Allocates nothing.
    pub(crate) fn none(alloc: Global) -> Moves
        ensures { result ≡ no_moves }
    {
        Moves {
            row: Vec::new(alloc),
            flips: 0,
        }
    }

    /// Counts a flip that moved objects by these claims. Returns the row of the flip before it too, whose memory is not needed any more.
    pub(crate) fn after_flip(self, claims: Vec<u32>) -> (Moves, Vec<u32>)
        ensures { result.0 ≡ record { row = claims.items; flips = (self.flips + 1) % 2 ^ 64 } }
    {
        let Moves { row, flips } = self;
        (
            Moves {
                row: claims,
                flips: flips.wrapping_add(1),
            },
            row,
        )
    }

    // The place in the row, or none if it is 0 or the row is shorter.
    fn place(&self, original: OldAddr) -> Option<NewAddr>
        ensures { option_map (λ a. a.0) result ≡ moved_to self.now original.0 }
    {
        let at = half(original.0);
        let place = if at < self.row.len() { self.row[at] } else { 0 };
        if place == 0 {
            None
        } else {
            Some(NewAddr(place))
        }
    }
}

impl Commander {
    /// Returns the address to which the last flip moved the object that was at this address before it, or `None` if it moved none. For an
    /// address at which no object started, any answer may come. Takes constant time.
    pub fn moved(&self, original: OldAddr) -> Option<NewAddr>
        ensures { option_map (λ a. a.0) result ≡ moved_to (moves_in self.now) original.0 }
    {
        self.moves.place(original)
    }

    /// Returns the number of flips that the mutator has gone through, of which the low 64 bits are kept. While it stays the same, so do all addresses.
    pub fn flips(&self) -> u64
        ensures { result ≡ (moves_in self.now).flips }
    {
        self.moves.flips
    }
}

/// What a program relies on that follows a table by addresses. While the count of flips stays the same, so does all that the mutator has. After a flip, a path that found
/// an object before it finds the object at the address that the row tells. So an object of which the row tells nothing was found by no path.
pub fn flips_tell_moves()
    ensures same { (old new : Situation) → StaysOrFlips old new → old.moves.flips < 2 ^ 64 → new.moves.flips ≡ old.moves.flips → Stays old new }
    ensures paths { (old new : Situation) → FlipsTo old new → (place : ℕ) (fields : List ℕ) (a : ℕ) → at_path (graph_in old.heap) place fields ≡ Some (Ref a)
        → (b : ℕ) × (moved_to new.moves a ≡ Some b) × (at_path (graph_in new.heap) place fields ≡ Some (Ref b)) }
{}
