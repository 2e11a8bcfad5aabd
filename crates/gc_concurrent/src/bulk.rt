//! Commands in bulk. Each call performs many of gc_graph's commands, on roots by their places.
ghost use Rattle.std.specs.Prelude.{◌≡◌, ℕ, suc, true, None, ◌+◌, ◌-◌, ◌^◌, ◌<◌, ◌≤◌, ◌↔◌, length, map, take, drop, IfOk, IfNone, IfSome, OnErr, IsTrue};
ghost use Rattle.std.specs.List.{AllByRecursion, list_all};
ghost use Rattle.gc_graph.specs.Graph.{Num, fields_of, root, number_of as number_meant};
ghost use Rattle.gc_graph.specs.Machine.{is_number};
ghost use Rattle.gc_graph.specs.declared.reply.Reply.{Reply};
ghost use Rattle.gc_heap.specs.Heap.{graph_in};
ghost use Rattle.gc_heap.specs.Raws.{is_number_word, numbers_in};
ghost use Rattle.gc_concurrent.specs.Holders.{beginning_of, cells_of, heap_in, log_length, logs_writes, moves_in};
ghost use Rattle.gc_concurrent.specs.Internal.LogRoom.{HasLogRoom};
ghost use Rattle.gc_concurrent.specs.Internal.Shapes.{FitsHeader, row_told};
ghost use Rattle.gc_concurrent.specs.Machines.{PutsValue};
ghost use Rattle.gc_concurrent.specs.Bulk.{clear_commands, fill_commands, get_commands, put_commands, places_from, object_of_root, value_in, CopiesEach, CopiesFields, FillsFields, MakesFrom, Peeks, PerformsEach, PutsEach, ReadsNumbers, Spreads, WritesNumbers};

use crate::commands::{Commander, number_of};
use gc_graph::{NoMemory, Reply};
use gc_heap::are_numbers;
use gc_words::{Header, Value, encode, target_of};

// Returns whether an object with this header has so many fields, from field `first` on.
fn has_row(header: Header, first: u32, count: u32) -> bool
    ensures { IsTrue result ↔ (first + count ≤ header.len) }
{
    u64::from(first) + u64::from(count) <= u64::from(header.len())
}

// Whether there is a raw object with so many fields, from field `first` on.
fn row_reply(object: Option<Header>, first: u32, count: usize) -> Reply
    ensures { result ≡ row_told first count object }
{
    match object {
        Some(header) if header.is_raw() => {
            let len = usize::from(header.len());
            if count <= len && first as usize <= len - count {
                Reply::Done
            } else {
                Reply::NoField
            }
        }
        _ => Reply::NoObject,
    }
}

/// Each takes places of roots, which have to be below `count_roots`: 0 to 31 are the slots, and the extra roots follow. A call that writes fields logs each of
/// them once the collector has begun to copy, and makes room in the log before it begins. So it performs all or nothing.
impl Commander {
    /// Sets the roots from place `from` to the one before place `to` to nil. This is a `Nil` for each.
    pub fn clear_roots(&mut self, from: u32, to: u32)
        requires order { from ≤ to }
        requires range { to ≤ length self.old.roots.items }
        ensures step { PerformsEach (clear_commands from (to - from)) (heap_in self.old) (heap_in self.new) }
        ensures log { log_length self.new ≡ log_length self.old }
        ensures cells { cells_of self.new ≡ cells_of self.old }
        ensures moves { moves_in self.new ≡ moves_in self.old }
        ensures begun { beginning_of self.new ≡ beginning_of self.old }
        ensures roots { length self.new.roots.items ≡ length self.old.roots.items }
    {
        for p in from..to {
            let _done = self.nil_root(p);
        }
    }

    /// Returns what `get_root` would reply: `Saw`, `NoObject` or `NoField`. No root takes the value.
    pub fn peek_root(&mut self, s: u32, i: u16) -> Reply
        requires { s < length self.old.roots.items }
        ensures step { Peeks s i (heap_in self.old) result }
        ensures heap { heap_in self.new ≡ heap_in self.old }
        ensures log { log_length self.new ≡ log_length self.old }
        ensures cells { cells_of self.new ≡ cells_of self.old }
        ensures moves { moves_in self.new ≡ moves_in self.old }
        ensures begun { beginning_of self.new ≡ beginning_of self.old }
    {
        match self.fetched(s as usize, i) {
            Ok(word) => Reply::Saw(self.view(word)),
            Err(reply) => reply,
        }
    }

    /// Makes a new object, to which root `d` then refers, and whose fields take the values of the roots at these places. This is a `New` and a `Put` for each
    /// field: `Made` or `Full`. A field that is filled from root `d` refers to the object itself.
    pub fn new_from_root(&mut self, d: u32, kind: u8, places: &[u32]) -> Result<Reply, NoMemory>
        requires object { d < length self.old.roots.items }
        requires fields { AllByRecursion (λ p. p < length self.old.roots.items) places.now }
        requires few { length places.now < 2 ^ 16 }
        ensures step { IfOk result (λ reply. MakesFrom d kind places.now (heap_in self.old) reply (heap_in self.new)) }
        ensures err { OnErr result (heap_in self.new ≡ heap_in self.old) }
        ensures logs { OnErr result (logs_writes self.old ≡ true) }
        ensures log { log_length self.new ≤ log_length self.old + length places.now }
        ensures cells { cells_of self.new ≡ cells_of self.old }
        ensures moves { moves_in self.new ≡ moves_in self.old }
        ensures begun { beginning_of self.new ≡ beginning_of self.old }
        ensures roots { length self.new.roots.items ≡ length self.old.roots.items }
    {
        self.reserve(places.len())?;
        match self.make(d as usize, false, kind, places.len() as u16) {
            Reply::Made => {
                self.put_each(d, places);
                Ok(Reply::Made)
            }
            full => Ok(full),
        }
    }

    // Writes the values of the roots at these places to the fields of the object that root `d` refers to.
    fn put_each(&mut self, d: u32, places: &[u32])
        requires room { HasLogRoom (length places.now) self.old }
        requires object { d < length self.old.roots.items }
        requires fields { AllByRecursion (λ p. p < length self.old.roots.items) places.now }
        requires few { length places.now < 2 ^ 16 }
        ensures step { PerformsEach (put_commands d 0 places.now) (heap_in self.old) (heap_in self.new) }
        ensures log { log_length self.new ≤ log_length self.old + length places.now }
        ensures cells { cells_of self.new ≡ cells_of self.old }
        ensures moves { moves_in self.new ≡ moves_in self.old }
        ensures begun { beginning_of self.new ≡ beginning_of self.old }
        ensures roots { length self.new.roots.items ≡ length self.old.roots.items }
    {
        for k in 0..places.len() {
            let _put = self.put(d as usize, k as u16, places[k] as usize);
        }
    }

    /// Does what `new_from_root` does with the `count` roots from place `first` on.
    pub fn gather_root(
        &mut self,
        d: u32,
        kind: u8,
        first: u32,
        count: u16,
    ) -> Result<Reply, NoMemory>
        requires object { d < length self.old.roots.items }
        requires fields { first + count ≤ length self.old.roots.items }
        ensures step { IfOk result (λ reply. MakesFrom d kind (places_from first count) (heap_in self.old) reply (heap_in self.new)) }
        ensures err { OnErr result (heap_in self.new ≡ heap_in self.old) }
        ensures logs { OnErr result (logs_writes self.old ≡ true) }
        ensures log { log_length self.new ≤ log_length self.old + count }
        ensures cells { cells_of self.new ≡ cells_of self.old }
        ensures moves { moves_in self.new ≡ moves_in self.old }
        ensures begun { beginning_of self.new ≡ beginning_of self.old }
        ensures roots { length self.new.roots.items ≡ length self.old.roots.items }
    {
        self.reserve(usize::from(count))?;
        match self.make(d as usize, false, kind, count) {
            Reply::Made => {
                self.put_row(d, first, count);
                Ok(Reply::Made)
            }
            full => Ok(full),
        }
    }

    // Writes the values of so many roots, from place `first` on, to the fields of the object that root `d` refers to.
    fn put_row(&mut self, d: u32, first: u32, count: u16)
        requires room { HasLogRoom count self.old }
        requires object { d < length self.old.roots.items }
        requires fields { first + count ≤ length self.old.roots.items }
        ensures step { PerformsEach (put_commands d 0 (places_from first count)) (heap_in self.old) (heap_in self.new) }
        ensures log { log_length self.new ≤ log_length self.old + count }
        ensures cells { cells_of self.new ≡ cells_of self.old }
        ensures moves { moves_in self.new ≡ moves_in self.old }
        ensures begun { beginning_of self.new ≡ beginning_of self.old }
        ensures roots { length self.new.roots.items ≡ length self.old.roots.items }
    {
        for k in 0..count {
            let _put = self.put(d as usize, k, first as usize + usize::from(k));
        }
    }

    /// Sets `count` roots, from place `first` on, to the first fields of the object that root `s` refers to, which is none of them. This is a `Get` for each:
    /// `Done`. Or nothing changes: `NoObject`, or `NoField` if the object has fewer fields.
    pub fn spread_root(&mut self, first: u32, s: u32, count: u32) -> Reply
        requires range { first + count ≤ length self.old.roots.items }
        requires giver { s < length self.old.roots.items }
        ensures step { Spreads first s count (heap_in self.old) result (heap_in self.new) }
        ensures log { log_length self.new ≡ log_length self.old }
        ensures cells { cells_of self.new ≡ cells_of self.old }
        ensures moves { moves_in self.new ≡ moves_in self.old }
        ensures begun { beginning_of self.new ≡ beginning_of self.old }
        ensures roots { length self.new.roots.items ≡ length self.old.roots.items }
    {
        let Some(header) = self.header_at_root(s as usize) else {
            return Reply::NoObject;
        };
        if count > u32::from(header.len()) {
            return Reply::NoField;
        }
        self.get_each(first, s, count as u16);
        Reply::Done
    }

    // Sets the roots to the fields.
    fn get_each(&mut self, first: u32, s: u32, count: u16)
        requires range { first + count ≤ length self.old.roots.items }
        requires giver { s < length self.old.roots.items }
        ensures step { PerformsEach (get_commands first s 0 count) (heap_in self.old) (heap_in self.new) }
        ensures log { log_length self.new ≡ log_length self.old }
        ensures cells { cells_of self.new ≡ cells_of self.old }
        ensures moves { moves_in self.new ≡ moves_in self.old }
        ensures begun { beginning_of self.new ≡ beginning_of self.old }
        ensures roots { length self.new.roots.items ≡ length self.old.roots.items }
    {
        for k in 0..count {
            let _got = self.get_root(first + u32::from(k), s, k);
        }
    }

    /// Writes the value of root `t` to the fields from `from` to the one before `to` of the object that root `s` refers to. This is a `Put` for each: `Done`. Or
    /// nothing changes: `NoObject`, `NoField` if the object has fewer than `to` fields, or `NoNumber` if it is raw and root `t` holds no number.
    pub fn fill_root(&mut self, s: u32, from: u32, to: u32, t: u32) -> Result<Reply, NoMemory>
        requires target { s < length self.old.roots.items }
        requires giver { t < length self.old.roots.items }
        requires order { from ≤ to }
        ensures step { IfOk result (λ reply. FillsFields s from to t (heap_in self.old) reply (heap_in self.new)) }
        ensures err { OnErr result (heap_in self.new ≡ heap_in self.old) }
        ensures logs { OnErr result (logs_writes self.old ≡ true) }
        ensures log { log_length self.new ≤ log_length self.old + (to - from) }
        ensures cells { cells_of self.new ≡ cells_of self.old }
        ensures moves { moves_in self.new ≡ moves_in self.old }
        ensures begun { beginning_of self.new ≡ beginning_of self.old }
        ensures roots { length self.new.roots.items ≡ length self.old.roots.items }
    {
        let Some(header) = self.header_at_root(s as usize) else {
            return Ok(Reply::NoObject);
        };
        if to > u32::from(header.len()) {
            return Ok(Reply::NoField);
        }
        if header.is_raw() && !self.is_number_at(t as usize) {
            return Ok(Reply::NoNumber);
        }
        let count = (to - from) as u16;
        self.reserve(usize::from(count))?;
        self.fill_each(s, from as u16, count, t);
        Ok(Reply::Done)
    }

    // Writes the value of root `t` to so many fields, from field `from` on.
    fn fill_each(&mut self, s: u32, from: u16, count: u16, t: u32)
        requires room { HasLogRoom count self.old }
        requires target { s < length self.old.roots.items }
        requires giver { t < length self.old.roots.items }
        requires fields { from + count < 2 ^ 16 }
        ensures step { PerformsEach (fill_commands s from count t) (heap_in self.old) (heap_in self.new) }
        ensures log { log_length self.new ≤ log_length self.old + count }
        ensures cells { cells_of self.new ≡ cells_of self.old }
        ensures moves { moves_in self.new ≡ moves_in self.old }
        ensures begun { beginning_of self.new ≡ beginning_of self.old }
        ensures roots { length self.new.roots.items ≡ length self.old.roots.items }
    {
        for k in 0..count {
            let _put = self.put(s as usize, from + k, t as usize);
        }
    }

    /// Writes these numbers to the fields, from field `first` on, of the raw object that root `s` refers to. Each is written as by `put_number_root`, in rising
    /// order: `Done`. Or nothing changes: `NoObject` if the root refers to no raw object, `NoField` if that has fewer fields, or `NoNumber` if a number is 2^63 or
    /// more. No root changes.
    pub fn write_numbers_root(
        &mut self,
        s: u32,
        first: u32,
        numbers: &[u64],
    ) -> Result<Reply, NoMemory>
        requires { s < length self.old.roots.items }
        ensures step { IfOk result (λ reply. WritesNumbers s first numbers.now (heap_in self.old) reply (heap_in self.new)) }
        ensures err { OnErr result (heap_in self.new ≡ heap_in self.old) }
        ensures logs { OnErr result (logs_writes self.old ≡ true) }
        ensures log { log_length self.new ≤ log_length self.old + length numbers.now }
        ensures cells { cells_of self.new ≡ cells_of self.old }
        ensures moves { moves_in self.new ≡ moves_in self.old }
        ensures begun { beginning_of self.new ≡ beginning_of self.old }
        ensures roots { length self.new.roots.items ≡ length self.old.roots.items }
    {
        let reply = row_reply(self.header_at_root(s as usize), first, numbers.len());
        let Reply::Done = reply else {
            return Ok(reply);
        };
        if !are_numbers(numbers) {
            return Ok(Reply::NoNumber);
        }
        self.reserve(numbers.len())?;
        self.write_each(s, first as u16, numbers);
        Ok(Reply::Done)
    }

    // Writes these numbers to the fields of the object that root `s` refers to.
    fn write_each(&mut self, s: u32, first: u16, numbers: &[u64])
        requires room { HasLogRoom (length numbers.now) self.old }
        requires target { s < length self.old.roots.items }
        requires fields { first + length numbers.now < 2 ^ 16 }
        requires numbers { IsTrue (list_all is_number_word numbers.now) }
        ensures step { PutsEach s first (map Num numbers.now) (heap_in self.old) (heap_in self.new) }
        ensures log { log_length self.new ≤ log_length self.old + length numbers.now }
        ensures cells { cells_of self.new ≡ cells_of self.old }
        ensures moves { moves_in self.new ≡ moves_in self.old }
        ensures begun { beginning_of self.new ≡ beginning_of self.old }
        ensures roots { length self.new.roots.items ≡ length self.old.roots.items }
    {
        for k in 0..numbers.len() {
            let word = 2 * numbers[k] + 1;
            let _put = self.write(s as usize, first + k as u16, word);
        }
    }

    /// Reads the numbers of the raw object that root `s` refers to, from field `first` on, as many as `numbers` takes: `Done`. Or `numbers` is unchanged:
    /// `NoObject` if the root refers to no raw object, or `NoField` if that has fewer fields.
    pub fn read_numbers_root(&mut self, s: u32, first: u32, numbers: &mut [u64]) -> Reply
        requires { s < length self.old.roots.items }
        ensures step { ReadsNumbers first (numbers_in (object_of_root (heap_in self.old) s)) numbers.old result numbers.new }
        ensures heap { heap_in self.new ≡ heap_in self.old }
        ensures log { log_length self.new ≡ log_length self.old }
        ensures cells { cells_of self.new ≡ cells_of self.old }
        ensures moves { moves_in self.new ≡ moves_in self.old }
        ensures begun { beginning_of self.new ≡ beginning_of self.old }
    {
        let reply = row_reply(self.header_at_root(s as usize), first, numbers.len());
        let Reply::Done = reply else {
            return reply;
        };
        self.read_each(s as usize, first as u16, numbers);
        Reply::Done
    }

    // Reads the numbers in the fields from `first` on, as many as `numbers` takes.
    fn read_each(&mut self, s: usize, first: u16, numbers: &mut [u64])
        requires giver { s < length self.old.roots.items }
        requires fields { first + length numbers.old < 2 ^ 16 }
        requires long { first + length numbers.old ≤ length (fields_of (object_of_root (heap_in self.old) s)) }
        ensures read { numbers.new ≡ take (length numbers.old) (drop first (map number_meant (fields_of (object_of_root (heap_in self.old) s)))) }
        ensures heap { heap_in self.new ≡ heap_in self.old }
        ensures log { log_length self.new ≡ log_length self.old }
        ensures cells { cells_of self.new ≡ cells_of self.old }
        ensures moves { moves_in self.new ≡ moves_in self.old }
        ensures begun { beginning_of self.new ≡ beginning_of self.old }
    {
        for k in 0..numbers.len() {
            numbers[k] = self.number_at(s, first + k as u16);
        }
    }

    // The number in field `i` of the object that root `s` refers to, or 0.
    fn number_at(&mut self, s: usize, i: u16) -> u64
        requires { s < length self.old.roots.items }
        ensures value { result ≡ number_meant (value_in (graph_in (heap_in self.old)) s i) }
        ensures heap { heap_in self.new ≡ heap_in self.old }
        ensures log { log_length self.new ≡ log_length self.old }
        ensures cells { cells_of self.new ≡ cells_of self.old }
        ensures moves { moves_in self.new ≡ moves_in self.old }
        ensures begun { beginning_of self.new ≡ beginning_of self.old }
    {
        match self.fetched(s, i) {
            Ok(word) => number_of(word).unwrap_or(0),
            Err(_) => 0,
        }
    }

    /// Copies `count` fields: from field `from` on, of the object that root `s` refers to, to field `to` and on of the object that root `d` refers to. Each is
    /// written, in rising order, as by a `Put` of a root with the value that the other field has then: `Done`. Or nothing changes: `NoObject`, `NoField` if one of
    /// the objects has too few fields, or `NoNumber` if the object in `d` is raw and a value is no number. No root changes.
    pub fn copy_fields_root(
        &mut self,
        d: u32,
        to: u32,
        s: u32,
        from: u32,
        count: u32,
    ) -> Result<Reply, NoMemory>
        requires target { d < length self.old.roots.items }
        requires source { s < length self.old.roots.items }
        ensures step { IfOk result (λ reply. CopiesFields d to s from count (heap_in self.old) reply (heap_in self.new)) }
        ensures err { OnErr result (heap_in self.new ≡ heap_in self.old) }
        ensures logs { OnErr result (logs_writes self.old ≡ true) }
        ensures log { log_length self.new ≤ log_length self.old + count }
        ensures cells { cells_of self.new ≡ cells_of self.old }
        ensures moves { moves_in self.new ≡ moves_in self.old }
        ensures begun { beginning_of self.new ≡ beginning_of self.old }
        ensures roots { length self.new.roots.items ≡ length self.old.roots.items }
    {
        let target = self.header_at_root(d as usize);
        let source = self.header_at_root(s as usize);
        let (Some(target), Some(source)) = (target, source) else {
            return Ok(Reply::NoObject);
        };
        if !has_row(target, to, count) || !has_row(source, from, count) {
            return Ok(Reply::NoField);
        }
        let (to, from, count) = (to as u16, from as u16, count as u16);
        if target.is_raw() && !self.are_numbers_at(s as usize, from, count) {
            return Ok(Reply::NoNumber);
        }
        self.reserve(usize::from(count))?;
        self.copy_each(d as usize, to, s as usize, from, count);
        Ok(Reply::Done)
    }

    // Returns whether so many fields, from field `from` on, hold numbers.
    fn are_numbers_at(&mut self, s: usize, from: u16, count: u16) -> bool
        requires giver { s < length self.old.roots.items }
        requires fields { from + count < 2 ^ 16 }
        requires long { from + count ≤ length (fields_of (object_of_root (heap_in self.old) s)) }
        ensures all { result ≡ list_all is_number (take count (drop from (fields_of (object_of_root (heap_in self.old) s)))) }
        ensures heap { heap_in self.new ≡ heap_in self.old }
        ensures logs { logs_writes self.new ≡ logs_writes self.old }
        ensures log { log_length self.new ≡ log_length self.old }
        ensures cells { cells_of self.new ≡ cells_of self.old }
        ensures moves { moves_in self.new ≡ moves_in self.old }
        ensures begun { beginning_of self.new ≡ beginning_of self.old }
    {
        for k in 0..count {
            if !self.is_number_in(s, from + k) {
                return false;
            }
        }
        true
    }

    // Returns whether field `i` of the object that root `s` refers to holds a number.
    fn is_number_in(&mut self, s: usize, i: u16) -> bool
        requires { s < length self.old.roots.items }
        ensures value { result ≡ is_number (value_in (graph_in (heap_in self.old)) s i) }
        ensures heap { heap_in self.new ≡ heap_in self.old }
        ensures logs { logs_writes self.new ≡ logs_writes self.old }
        ensures log { log_length self.new ≡ log_length self.old }
        ensures cells { cells_of self.new ≡ cells_of self.old }
        ensures moves { moves_in self.new ≡ moves_in self.old }
        ensures begun { beginning_of self.new ≡ beginning_of self.old }
    {
        match self.fetched(s, i) {
            Ok(word) => number_of(word).is_some(),
            Err(_) => false,
        }
    }

    // Copies so many fields.
    fn copy_each(&mut self, d: usize, to: u16, s: usize, from: u16, count: u16)
        requires room { HasLogRoom count self.old }
        requires target { d < length self.old.roots.items }
        requires giver { s < length self.old.roots.items }
        requires fields { (to + count < 2 ^ 16) × (from + count < 2 ^ 16) }
        ensures step { CopiesEach d to s from count (heap_in self.old) (heap_in self.new) }
        ensures log { log_length self.new ≤ log_length self.old + count }
        ensures cells { cells_of self.new ≡ cells_of self.old }
        ensures moves { moves_in self.new ≡ moves_in self.old }
        ensures begun { beginning_of self.new ≡ beginning_of self.old }
        ensures roots { length self.new.roots.items ≡ length self.old.roots.items }
    {
        for k in 0..count {
            let _put = self.copy_one(d, to + k, s, from + k);
        }
    }

    // Copies the value of field `j` of the object in root `s` to field `i` of the object in root `d`, if it is there.
    fn copy_one(&mut self, d: usize, i: u16, s: usize, j: u16) -> Reply
        requires room { HasLogRoom 1 self.old }
        requires target { d < length self.old.roots.items }
        requires giver { s < length self.old.roots.items }
        ensures step { PutsValue d i (value_in (graph_in (heap_in self.old)) s j) (heap_in self.old) result (heap_in self.new) }
        ensures room { (n : ℕ) → HasLogRoom (suc n) self.old → HasLogRoom n self.new }
        ensures log { log_length self.new ≤ log_length self.old + 1 }
        ensures cells { cells_of self.new ≡ cells_of self.old }
        ensures moves { moves_in self.new ≡ moves_in self.old }
        ensures begun { beginning_of self.new ≡ beginning_of self.old }
        ensures roots { self.new.roots.items ≡ self.old.roots.items }
    {
        let word = match self.fetched(s, j) {
            Ok(word) => word,
            Err(_) => encode(Value::Nil),
        };
        self.write(d, i, word)
    }

    // Returns the header of the object that root `s` refers to.
    fn header_at_root(&mut self, s: usize) -> Option<Header>
        requires { s < length self.old.roots.items }
        ensures none { IfNone result (object_of_root (heap_in self.old) s ≡ None) }
        ensures some { IfSome result (λ header. FitsHeader header (object_of_root (heap_in self.old) s)) }
        ensures heap { heap_in self.new ≡ heap_in self.old }
        ensures logs { logs_writes self.new ≡ logs_writes self.old }
        ensures log { log_length self.new ≡ log_length self.old }
        ensures cells { cells_of self.new ≡ cells_of self.old }
        ensures moves { moves_in self.new ≡ moves_in self.old }
        ensures begun { beginning_of self.new ≡ beginning_of self.old }
    {
        let at = target_of(self.roots[s])?;
        Some(self.mutator.header(at))
    }

    // Returns whether root `t` holds a number.
    fn is_number_at(&self, t: usize) -> bool
        requires { t < length self.now.roots.items }
        ensures { result ≡ is_number (root (graph_in (heap_in self.now)) t) }
    {
        number_of(self.roots[t]).is_some()
    }
}
