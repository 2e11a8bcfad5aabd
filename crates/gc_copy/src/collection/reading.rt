//! Reads the state of an open collection, for a debugger or for a runtime that decides which step comes next.

ghost use Rattle.std.specs.Prelude.{◌≡◌, ◌<◌, length, slice_get};
ghost use Rattle.std.specs.Option.{option_map};
ghost use Rattle.gc_copy.specs.Entries.{entry_in};
ghost use Rattle.gc_model.specs.State.{new_end};
ghost use Rattle.gc_model.specs.Steps.{log_at};
ghost use Rattle.gc_copy.specs.Words.{collection_in};

use super::Collection;
use crate::log::LogEntry;

impl Collection {
    /// Returns the size of the new space (to-space) in words.
    pub fn size(&self) -> u32
        ensures { result ≡ self.now.space.size }
    {
        self.space.size()
    }

    /// Returns the address of the first free word in the new space (to-space).
    pub fn end(&self) -> u32
        ensures { result ≡ new_end (collection_in self.now) }
    {
        self.space.end()
    }

    /// Returns the scan pointer's place in the new space.
    pub fn scan_place(&self) -> u32
        ensures { result ≡ self.now.scan_place }
    {
        self.scan_place.0
    }

    /// Returns the number of scanned fields of the replica at the scan pointer.
    pub fn scan_field(&self) -> u16
        ensures { result ≡ self.now.scan_field }
    {
        self.scan_field
    }

    /// Returns the epoch of this collection's links, which is 0 if they have no mark.
    pub fn epoch(&self) -> u32
        ensures { result ≡ self.now.epoch }
    {
        self.epoch
    }

    /// Returns the number of entries in mutator `m`'s log.
    pub fn log_len(&self, m: u8) -> usize
        requires { m < length self.now.logs }
        ensures { result ≡ length (log_at (collection_in self.now) m) }
    {
        self.logs[m as usize].len()
    }

    /// Returns entry `k` of mutator `m`'s log, counted from the oldest, or `None` if there is no such entry.
    pub fn log_entry(&self, m: u8, k: usize) -> Option<LogEntry>
        requires { m < length self.now.logs }
        ensures { option_map entry_in result ≡ slice_get (log_at (collection_in self.now) m) k }
    {
        self.logs[m as usize].entry(k)
    }
}
