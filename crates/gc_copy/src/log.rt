//! Mutation logs.

use gc_graph::NoMemory;
use gc_words::OldAddr;
use std::alloc::Global;
use std::collections::VecDeque;
use std::marker::Model;
use std::mem;

/// An entry of a mutation log: a field of the old space that a mutator wrote.
#[derive(Clone, Copy, Debug, PartialEq, Eq)]
pub struct LogEntry {
    pub object: OldAddr,
    pub field: u16,
}

// The number of entries of a full segment.
const SEGMENT: usize = 1024;

// A log has no more segments than this. Their entries would take 8 EiB.
const MOST_SEGMENTS: usize = 1 << 50;

/// The fields that one mutator wrote while a collection is open, oldest first. They lie in segments, so that no call moves an entry.
#[derive(Debug, Drop)]
pub(crate) struct MutationLog {
    // Full segments, the oldest first, and then empty ones.
    segments: VecDeque<Vec<LogEntry>>,
    full: usize,
    // The entries after those of the full segments.
    last: Vec<LogEntry>,
    // The number of entries of the first segment that were removed.
    gone: usize,
}

impl Model for MutationLog {
    ghost use Rattle.std.specs.Prelude.{◌+◌, ◌-◌, ◌*◌, ◌++◌, drop, length, map};
    ghost use Rattle.std.specs.Vec.{vec_len, vec_capacity};
    ghost use Rattle.gc_copy.specs.Words.{Log};
    ghost use Rattle.gc_copy.specs.Entries.{entry_in};
    ghost use Rattle.gc_copy.specs.Internal.Segments.{segment, joined, IsLog};

    ghost Value = { Log };

    ghost view = { λ log. record {
      entries = map entry_in (drop log.gone (joined log.segments.items ++ log.last.items));
      spare = vec_capacity log.last - vec_len log.last + (length log.segments.items - log.full) * segment;
    } };

    ghost invariant = { λ log. IsLog log.segments.items log.full log.last log.gone };
}

impl MutationLog {
    ghost use Rattle.std.specs.Prelude.{◌≡◌, ◌≤◌, ◌+◌, ◌-◌, ◌++◌, ◌∷◌, [], drop, length, slice_get, OnOk};
    ghost use Rattle.std.specs.Option.{option_map};
    ghost use Rattle.gc_model.specs.Steps.{is_empty};
    ghost use Rattle.gc_copy.specs.Entries.{entry_in};

    /// Returns a log without entries. Does not allocate.
    pub(crate) fn new(alloc: Global) -> MutationLog
        ensures { result.entries ≡ [] }
    {
        MutationLog {
            segments: VecDeque::new(alloc),
            full: 0,
            last: Vec::new(alloc),
            gone: 0,
        }
    }

    pub(crate) fn is_empty(&self) -> bool
        ensures { result ≡ is_empty self.now.entries }
    {
        self.last.is_empty()
    }

    pub(crate) fn len(&self) -> usize
        ensures { result ≡ length self.now.entries }
    {
        self.full * SEGMENT + self.last.len() - self.gone
    }

    /// Returns entry `k`, counted from the oldest.
    pub(crate) fn entry(&self, k: usize) -> Option<LogEntry>
        ensures { option_map entry_in result ≡ slice_get self.now.entries k }
    {
        if k >= self.len() {
            return None;
        }
        let place = self.gone + k;
        if place / SEGMENT < self.full {
            self.segments[place / SEGMENT].get(place % SEGMENT).copied()
        } else {
            self.last.get(place - self.full * SEGMENT).copied()
        }
    }

    /// Makes room for `more` further entries. On `NoMemory` no entry changes, and no room is lost.
    pub(crate) fn reserve(&mut self, more: usize) -> Result<(), NoMemory>
        ensures entries { self.new.entries ≡ self.old.entries }
        ensures room { OnOk result (more ≤ self.new.spare) }
        ensures spare { self.old.spare ≤ self.new.spare }
    {
        if more <= self.last.capacity() - self.last.len() {
            return Ok(());
        }
        self.add_segments(more)
    }

    // Adds empty segments, so that there is room for `more` further entries.
    #[cold]
    #[inline(never)]
    fn add_segments(&mut self, more: usize) -> Result<(), NoMemory>
        ensures entries { self.new.entries ≡ self.old.entries }
        ensures room { OnOk result (more ≤ self.new.spare) }
        ensures spare { self.old.spare ≤ self.new.spare }
    {
        while self.spare() < more {
            self.add_segment()?;
        }
        Ok(())
    }

    // Adds an empty segment.
    fn add_segment(&mut self) -> Result<(), NoMemory>
        ensures entries { self.new.entries ≡ self.old.entries }
        ensures room { OnOk result (self.new.spare ≡ self.old.spare + SEGMENT) }
        ensures spare { self.old.spare ≤ self.new.spare }
    {
        let segment = Vec::with_capacity(*self.last.allocator(), SEGMENT)?;
        if self.last.capacity() == 0 {
            self.last = segment;
        } else if self.segments.len() < MOST_SEGMENTS {
            self.segments.push_back(segment)?;
        } else {
            return Err(NoMemory);
        }
        Ok(())
    }

    fn spare(&self) -> usize
        ensures { result ≡ self.now.spare }
    {
        self.last.capacity() - self.last.len() + (self.segments.len() - self.full) * SEGMENT
    }

    /// Appends an entry, for which `reserve` has made room.
    pub(crate) fn note(&mut self, entry: LogEntry)
        requires { 1 ≤ self.old.spare }
        ensures entries { self.new.entries ≡ self.old.entries ++ entry_in entry ∷ [] }
        ensures room { self.new.spare ≡ self.old.spare - 1 }
    {
        if self.last.len() < self.last.capacity() {
            self.last.push_reserved(entry);
        } else {
            change_last(&mut self.segments, self.full, &mut self.last);
            self.full += 1;
            self.last.push_reserved(entry);
        }
    }

    /// Removes all entries. Keeps the memory of one segment at most.
    pub(crate) fn clear(&mut self)
        ensures { self.new.entries ≡ [] }
    {
        self.segments.clear();
        self.full = 0;
        self.last.clear();
        self.gone = 0;
    }

    /// Returns the oldest entry.
    pub(crate) fn oldest(&self) -> Option<LogEntry>
        ensures { option_map entry_in result ≡ slice_get self.now.entries 0 }
    {
        if self.full > 0 {
            self.segments[0].get(self.gone).copied()
        } else {
            self.last.get(self.gone).copied()
        }
    }

    /// Removes the oldest entry.
    pub(crate) fn drop_oldest(&mut self)
        ensures { self.new.entries ≡ drop 1 self.old.entries }
    {
        if self.last.is_empty() {
            return;
        }
        self.gone += 1;
        if self.full == 0 {
            if self.gone == self.last.len() {
                self.last.clear();
                self.gone = 0;
            }
        } else if self.gone == SEGMENT {
            drop_first(&mut self.segments, self.full);
            self.full -= 1;
            self.gone = 0;
        }
    }
}

ghost use Rattle.std.specs.Prelude.{◌≡◌, ◌≤◌, ◌<◌, ◌-◌, drop, length, slice_get, slice_set, Some};
ghost use Rattle.gc_copy.specs.Internal.Segments.{segment, joined, AreSegments};

// Puts the first empty segment in the place of the last one, which is full.
#[cold]
#[inline(never)]
fn change_last(segments: &mut VecDeque<Vec<LogEntry>>, full: usize, last: &mut Vec<LogEntry>)
    requires { full < length segments.old.items }
    ensures segments { segments.new.items ≡ slice_set segments.old.items full last.old }
    ensures last { slice_get segments.old.items full ≡ Some last.new }
{
    mem::swap(last, &mut segments[full]);
}

// Removes the first segment, which is full, or makes it the only empty one.
#[cold]
#[inline(never)]
fn drop_first(segments: &mut VecDeque<Vec<LogEntry>>, full: usize)
    requires full { 1 ≤ full }
    requires segments { AreSegments full segments.old.items }
    ensures segments { AreSegments (full - 1) segments.new.items }
    ensures joined { joined segments.new.items ≡ drop segment (joined segments.old.items) }
    ensures fewer { length segments.new.items ≤ length segments.old.items }
{
    let Some(mut first) = segments.pop_front() else {
        return;
    };
    if segments.len() == full - 1 {
        first.clear();
        segments.push_back_reserved(first);
    }
}
