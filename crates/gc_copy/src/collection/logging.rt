ghost use Rattle.std.specs.Prelude.{◌≡◌, ◌<◌, ◌≤◌, ◌+◌, ◌++◌, ◌∷◌, [], ℕ, length, OnOk};
ghost use Rattle.gc_heap.specs.Heap.{HeapWords, graph_in};
ghost use Rattle.gc_model.specs.Steps.{log_at, with_log, first_log};
ghost use Rattle.gc_model.specs.Belonging.{HasField};
ghost use Rattle.gc_copy.specs.Words.{collection_in, BelongsTo, BelongsToBut, spare_of};

use super::Collection;
use crate::log::LogEntry;
use gc_graph::NoMemory;
use gc_words::OldAddr;

impl Collection {
    /// Makes room for one more entry in mutator `m`'s log. No entry changes, and no log loses room.
    pub fn reserve(&mut self, m: u8) -> Result<(), NoMemory>
        requires { m < length self.old.logs }
        ensures room { OnOk result (1 ≤ spare_of self.new m) }
        ensures spare { (k : ℕ) → spare_of self.old k ≤ spare_of self.new k }
        ensures collection { collection_in self.new ≡ collection_in self.old }
        ensures space { self.new.space ≡ self.old.space }
        ensures epoch { self.new.epoch ≡ self.old.epoch }
        ensures belongs { (heap : HeapWords) → BelongsTo heap self.old → BelongsTo heap self.new }
    {
        self.reserve_more(m, 1)
    }

    /// Makes room for `more` further entries in mutator `m`'s log. No entry changes, and no log loses room.
    #[inline(always)]
    pub fn reserve_more(&mut self, m: u8, more: usize) -> Result<(), NoMemory>
        requires { m < length self.old.logs }
        ensures room { OnOk result (more ≤ spare_of self.new m) }
        ensures spare { (k : ℕ) → spare_of self.old k ≤ spare_of self.new k }
        ensures collection { collection_in self.new ≡ collection_in self.old }
        ensures space { self.new.space ≡ self.old.space }
        ensures epoch { self.new.epoch ≡ self.old.epoch }
        ensures belongs { (heap : HeapWords) → BelongsTo heap self.old → BelongsTo heap self.new }
    {
        self.logs[m as usize].reserve(more)
    }

    /// Logs a field that mutator `m` wrote. Needs room in the log, which `reserve` makes.
    pub fn note(&mut self, m: u8, object: OldAddr, field: u16)
        requires log { m < length self.old.logs }
        requires room { 1 ≤ spare_of self.old m }
        ensures collection { collection_in self.new
            ≡ with_log (collection_in self.old) m (log_at (collection_in self.old) m ++ (object.0, field) ∷ []) }
        ensures space { self.new.space ≡ self.old.space }
        ensures epoch { self.new.epoch ≡ self.old.epoch }
        ensures spare { spare_of self.old m ≤ spare_of self.new m + 1 }
        // If only this field was out of date, the collection belongs to the heap again.
        ensures belongs { (heap : HeapWords) → HasField (graph_in heap).objects object.0 field
            → BelongsToBut ((object.0, field) ∷ []) heap self.old → BelongsTo heap self.new }
    {
        self.logs[m as usize].note(LogEntry { object, field });
    }

    /// Returns the first mutator whose log has an entry, or `None`.
    pub fn next_log(&self) -> Option<u8>
        ensures { result ≡ first_log 0 (collection_in self.now).logs }
    {
        for m in 0..self.logs.len() {
            if !self.logs[m].is_empty() {
                return Some(m as u8);
            }
        }
        None
    }
}
