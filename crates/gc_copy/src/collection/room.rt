ghost use Rattle.std.specs.Prelude.{◌≡◌, ◌≤◌, ◌-◌, [], IfOk, map, replicate};
ghost use Rattle.std.specs.Option.{option_map};
ghost use Rattle.gc_copy.specs.Words.{entries_of, held_in, moved_in};

use super::copying::link_mark;
use crate::log::MutationLog;
use gc_graph::NoMemory;
use gc_words::{NewAddr, OldAddr, Space};
use std::alloc::Global;
use std::marker::Model;

/// The memory that a collection takes: a space, and an empty log for each mutator. A flip gives it back, so that the next collection
/// need not ask for any. Until a collection begins in it, its space keeps the words that the heap had before the flip. Their links say
/// where each object went.
#[derive(Debug, Drop)]
pub struct Room {
    pub(super) space: Space,
    pub(super) logs: Vec<MutationLog>,
    // The mark by which the links of originals lead to their replicas, as a multiple of 2^32.
    pub(super) epoch: u32,
}

impl Model for Room {
    ghost use Rattle.std.specs.Prelude.{length};
    ghost use Rattle.gc_copy.specs.Words.{RoomWords};
    ghost use Rattle.gc_copy.specs.Internal.Words.{IsRoom, moves_of};

    ghost Value = { RoomWords };

    ghost view = { λ r. record { size = r.space.size; mutators = length r.logs.items; moves = moves_of r.epoch r.space.words } };

    ghost invariant = { λ r. IsRoom r.space r.logs.items };
}

impl Room {
    /// Returns room for a collection whose new space has `size` words, at least 1, of a heap with so many mutators.
    pub fn new(alloc: Global, size: u32, mutators: u8) -> Result<Room, NoMemory>
        requires low { 1 ≤ size }
        ensures size { IfOk result (λ room. room.size ≡ size) }
        ensures mutators { IfOk result (λ room. room.mutators ≡ mutators) }
    {
        let space = Space::new(alloc, size)?;
        let logs = empty_logs(alloc, mutators)?;
        Ok(Room {
            space,
            logs,
            epoch: 0,
        })
    }

    /// Writes to all of the space's memory once, so that no later write meets a page for the first time.
    pub fn touch(&mut self)
        ensures { self.new ≡ self.old }
    {
        self.space.touch();
    }

    /// Frees the memory of the last `words` words of the space, of which the room then keeps none. Returns the rest, or `None` if there is no
    /// other word. Allocates nothing.
    pub fn without(self, words: u32) -> Option<Room>
        ensures { held_in result ≡ self.size - words }
    {
        let Room { space, logs, .. } = self;
        let left = space.size().saturating_sub(words);
        if left == 0 {
            return None;
        }
        let mut space = space.emptied();
        space.shrink(left);
        Some(Room {
            space,
            logs,
            epoch: 0,
        })
    }

    /// Returns the number of words of the space.
    pub fn size(&self) -> u32
        ensures { result ≡ self.now.size }
    {
        self.space.size()
    }

    /// Returns the number of logs.
    pub fn mutators(&self) -> usize
        ensures { result ≡ self.now.mutators }
    {
        self.logs.len()
    }

    /// Returns the address to which the last flip moved the object that was at this address before it, or `None` if it moved none. For an
    /// address at which no object started, any answer may come. Takes constant time.
    #[tactic(auto, using(crate::proofs::Moves::moves_at))]
    pub fn moved(&self, original: OldAddr) -> Option<NewAddr>
        ensures { option_map (λ a. a.0) result ≡ moved_in self.now original.0 }
    {
        let words = self.space.words();
        let at = original.0 as usize + 1;
        let link = if at < words.len() { words[at] } else { 0 };
        let place = (link.saturating_sub(link_mark(self.epoch)) % link_mark(1)) as u32;
        if place == 0 {
            None
        } else {
            Some(NewAddr(place))
        }
    }
}

// Returns an empty log for each mutator.
fn empty_logs(alloc: Global, mutators: u8) -> Result<Vec<MutationLog>, NoMemory>
    ensures { IfOk result (λ logs. map entries_of logs.items ≡ replicate mutators []) }
{
    let mut logs = Vec::with_capacity(alloc, usize::from(mutators))?;
    for _ in 0..mutators {
        logs.push(MutationLog::new(alloc))?;
    }
    Ok(logs)
}
