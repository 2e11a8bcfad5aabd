//! A code for each place, two bits each.

use crate::walking::START;
use crate::zeros::{add_words, touch_words};
use gc_graph::NoMemory;
use std::alloc::Global;
use std::cmp::min;
use std::marker::Model;

/// The number of codes in a word.
const PER_WORD: usize = 32;

/// A row that grows gets so many words more than its places take, if there is room for them.
const AHEAD: usize = 64;

/// The word whose codes are all 1.
const ONES: u64 = 0x5555_5555_5555_5555;

/// A row has no more words than this, so that an address can name the last of their places.
const MOST_WORDS: usize = 1 << 27;

/// The codes of places, which are below 4. Contracts see the codes, and for how many places there is room.
#[derive(Debug, Drop)]
pub(crate) struct CodeRow {
    words: Vec<u64>,
    len: usize,
}

impl Model for CodeRow {
    ghost use Rattle.std.specs.Prelude.{◌≤◌, vec_capacity};
    ghost use Rattle.gc_monitor.specs.Internal.InWords.{Codes, HasCodes, codes_in, room_of};

    ghost Value = { Codes };

    ghost view = { λ row. record { codes = codes_in row.words.items row.len; room = room_of (vec_capacity row.words) } };

    ghost invariant = { λ row. HasCodes row.words.items row.len × (row.len ≤ room_of (vec_capacity row.words)) };
}

impl CodeRow {
    ghost use Rattle.std.specs.Prelude.{◌≡◌, ◌+◌, ◌<◌, ◌≤◌, ◌∷◌, ◌++◌, ◌-◌, [], IfOk, OnOk, IsTrue, length, replicate, take, slice_index, slice_index_or, slice_set, ◌⊎◌, ◌≢◌, ◌%◌, ◌/◌, ℕ, IsFalse};
    ghost use Rattle.gc_monitor.specs.Internal.InWords.{freed};
    ghost use Rattle.gc_monitor.specs.Events.{code_of, object_codes};
    ghost use Rattle.gc_monitor.specs.Internal.Rows.{dues_from, row_set};

    /// Returns a row of place 0 alone, whose code is 0, with room for so many places. Allocates once.
    pub(crate) fn new(alloc: Global, places: u32) -> Result<CodeRow, NoMemory>
        requires { 1 ≤ places }
        ensures { IfOk result (λ row. (row.codes ≡ 0 ∷ []) × (places ≤ row.room)) }
    {
        let mut words = Vec::with_capacity(alloc, words_of(places as usize))?;
        words.push_reserved(0);
        Ok(CodeRow { words, len: 1 })
    }

    /// Returns a row of no places, without room. Does not allocate.
    pub(crate) fn absent(alloc: Global) -> CodeRow
        ensures { result ≡ record { codes = []; room = 0 } }
    {
        CodeRow {
            words: Vec::new(alloc),
            len: 0,
        }
    }

    /// Makes room for so many places. If memory is refused, the row stays as it is.
    pub(crate) fn reserve(&mut self, places: u32) -> Result<(), NoMemory>
        ensures codes { self.new.codes ≡ self.old.codes }
        ensures room { self.old.room ≤ self.new.room }
        ensures reserved { OnOk result (places ≤ self.new.room) }
    {
        let words = words_of(places as usize);
        if self.words.len() < words {
            self.words.reserve_exact(words - self.words.len())?;
        }
        Ok(())
    }

    /// Writes to all memory of the row once.
    pub(crate) fn touch(&mut self)
        ensures codes { self.new.codes ≡ self.old.codes }
        ensures room { self.old.room ≤ self.new.room }
    {
        touch_words(&mut self.words);
    }

    /// Place 0 alone is left, with code 0.
    pub(crate) fn restart(&mut self)
        requires { 1 ≤ self.old.room }
        ensures codes { self.new.codes ≡ 0 ∷ [] }
        ensures room { self.old.room ≤ self.new.room }
    {
        self.words.clear();
        self.words.push_reserved(0);
        self.len = 1;
    }

    /// Returns the number of places.
    #[inline(always)]
    pub(crate) fn len(&self) -> usize
        ensures { result ≡ length self.now.codes }
    {
        self.len
    }

    /// Returns the code of this place.
    #[inline(always)]
    pub(crate) fn get(&self, place: usize) -> u8
        requires { place < length self.now.codes }
        ensures { result ≡ slice_index self.now.codes place }
    {
        code_in(self.words[place / PER_WORD], place % PER_WORD)
    }

    /// Gives this place another code, and returns the one that it had.
    #[inline(always)]
    pub(crate) fn replace(&mut self, place: usize, code: u8) -> u8
        requires within { place < length self.old.codes }
        requires code { code < 4 }
        ensures was { result ≡ slice_index self.old.codes place }
        ensures codes { self.new.codes ≡ slice_set self.old.codes place code }
        ensures room { self.old.room ≤ self.new.room }
    {
        let at = place / PER_WORD;
        let word = self.words[at];
        self.words[at] = with_code(word, place % PER_WORD, code);
        code_in(word, place % PER_WORD)
    }

    /// Returns whether so many places, and one more, have their words already.
    #[inline(always)]
    pub(crate) fn covers(&self, places: usize) -> bool
        ensures room { IsTrue result → places ≤ self.now.room }
        ensures few { IsTrue result → places ≤ 4294967295 }
    {
        places / PER_WORD < self.words.len()
    }

    /// Adds a place with this code, and so many behind it with code 0.
    #[inline(always)]
    pub(crate) fn add(&mut self, code: u8, more: usize)
        requires code { code < 4 }
        requires room { length self.old.codes + (more + 1) ≤ self.old.room }
        ensures codes { self.new.codes ≡ self.old.codes ++ code ∷ replicate more 0 }
        ensures room { self.old.room ≤ self.new.room }
    {
        let place = self.len;
        let len = place + (more + 1);
        if len / PER_WORD >= self.words.len() {
            self.add_behind(code, more);
            return;
        }
        let at = place / PER_WORD;
        self.words[at] = with_first(self.words[at], place % PER_WORD, code);
        self.len = len;
    }

    // The same where the places may need further words.
    #[cold]
    #[inline(never)]
    fn add_behind(&mut self, code: u8, more: usize)
        requires code { code < 4 }
        requires room { length self.old.codes + (more + 1) ≤ self.old.room }
        ensures codes { self.new.codes ≡ self.old.codes ++ code ∷ replicate more 0 }
        ensures room { self.old.room ≤ self.new.room }
    {
        let place = self.len;
        let len = place + more + 1;
        cover(&mut self.words, words_of(len));
        let at = place / PER_WORD;
        self.words[at] = with_first(self.words[at], place % PER_WORD, code);
        self.len = len;
    }

    /// Adds the codes of an object with so many fields, all of which are due.
    #[inline(always)]
    pub(crate) fn add_due(&mut self, fields: u16)
        requires room { length self.old.codes + (fields + 2) ≤ self.old.room }
        ensures codes { self.new.codes ≡ self.old.codes ++ object_codes fields 3 }
        ensures room { self.old.room ≤ self.new.room }
    {
        let count = usize::from(fields);
        let place = self.len;
        let first = place + 2;
        if count == 0
            || first % PER_WORD + count > PER_WORD
            || first / PER_WORD >= self.words.len()
        {
            self.add_due_behind(fields);
            return;
        }
        let at = place / PER_WORD;
        self.words[at] = with_first(self.words[at], place % PER_WORD, START);
        self.len = first + count;
        self.set_in_word(first, count, true);
    }

    // The same where the fields lie in two words, or may need further ones.
    #[inline(never)]
    fn add_due_behind(&mut self, fields: u16)
        requires room { length self.old.codes + (fields + 2) ≤ self.old.room }
        ensures codes { self.new.codes ≡ self.old.codes ++ object_codes fields 3 }
        ensures room { self.old.room ≤ self.new.room }
    {
        let count = usize::from(fields);
        self.add(START, count + 1);
        self.fill(count);
    }

    /// Gives the last so many places code 3.
    #[inline(always)]
    pub(crate) fn fill(&mut self, places: usize)
        requires { places ≤ length self.old.codes }
        ensures codes { self.new.codes ≡ take (length self.old.codes - places) self.old.codes ++ replicate places 3 }
        ensures room { self.old.room ≤ self.new.room }
    {
        let from = self.len - places;
        if places >= 1 && from % PER_WORD + places <= PER_WORD {
            self.set_in_word(from, places, true);
            return;
        }
        self.fill_words(places);
    }

    // Does what `fill` does, one word of codes after the other.
    #[inline(never)]
    fn fill_words(&mut self, places: usize)
        requires { places ≤ length self.old.codes }
        ensures codes { self.new.codes ≡ take (length self.old.codes - places) self.old.codes ++ replicate places 3 }
        ensures room { self.old.room ≤ self.new.room }
    {
        let len = self.len;
        let mut from = len - places;
        while from < len {
            let count = min(PER_WORD - from % PER_WORD, len - from);
            self.set_in_word(from, count, true);
            from += count;
        }
    }

    /// Takes so many places from this one on for due or not, one word of codes after the other: gives them code 3 or 0.
    pub(crate) fn set_from(&mut self, first: usize, count: usize, due: bool)
        requires within { first + count ≤ length self.old.codes }
        requires few { first + count ≤ 4295098367 }
        ensures codes { self.new.codes ≡ row_set (code_of due) self.old.codes first count }
        ensures room { self.old.room ≤ self.new.room }
    {
        let end = first + count;
        let mut from = first;
        while from < end {
            let some = min(PER_WORD - from % PER_WORD, end - from);
            self.set_in_word(from, some, due);
            from += some;
        }
    }

    /// Returns how many of so many places from this one on have code 3, one word of codes after the other.
    pub(crate) fn count_from(&self, first: usize, count: usize) -> usize
        requires within { first + count ≤ length self.now.codes }
        requires few { first + count ≤ 4295098367 }
        ensures { result ≡ dues_from self.now.codes first count }
    {
        let behind = first + count;
        let mut from = first;
        let mut dues = 0;
        while from < behind {
            let some = min(PER_WORD - from % PER_WORD, behind - from);
            dues += self.count_in_word(from, some);
            from += some;
        }
        dues
    }

    // Returns how many of so many places of one word have code 3. Tells first whether all have it.
    #[inline(always)]
    fn count_in_word(&self, from: usize, count: usize) -> usize
        requires some { 1 ≤ count }
        requires word { from % 32 + count ≤ 32 }
        requires within { from + count ≤ length self.now.codes }
        requires few { from + count ≤ 4295098367 }
        ensures { result ≡ dues_from self.now.codes from count }
    {
        let word = self.words[from / PER_WORD];
        if filled(word, from % PER_WORD, count) == word {
            return count;
        }
        self.count_each(from, count)
    }

    // Returns how many of so many places from this one on have code 3, one place after the other.
    fn count_each(&self, first: usize, count: usize) -> usize
        requires within { first + count ≤ length self.now.codes }
        requires few { first + count ≤ 4295098367 }
        ensures { result ≡ dues_from self.now.codes first count }
    {
        let mut dues = 0;
        for k in 0..count {
            dues += counted(self.get(first + k));
        }
        dues
    }

    /// Gives so many places from this one on code 0 if all of them have code 3. Returns whether they had; else the row stays as it is.
    #[inline(always)]
    pub(crate) fn settle(&mut self, first: usize, count: usize) -> bool
        requires some { 1 ≤ count }
        requires within { first + count ≤ length self.old.codes }
        requires few { first + count ≤ 4295098367 }
        ensures due { IsTrue result → dues_from self.old.codes first count ≡ count }
        ensures settled { IsTrue result → self.new.codes ≡ row_set 0 self.old.codes first count }
        ensures stays { IsFalse result → self.new.codes ≡ self.old.codes }
        ensures room { self.old.room ≤ self.new.room }
    {
        if first % PER_WORD + count > PER_WORD {
            return self.settle_words(first, count);
        }
        if self.count_in_word(first, count) != count {
            return false;
        }
        self.set_in_word(first, count, false);
        true
    }

    // Does what `settle` does, one word of codes after the other.
    #[inline(never)]
    fn settle_words(&mut self, first: usize, count: usize) -> bool
        requires within { first + count ≤ length self.old.codes }
        requires few { first + count ≤ 4295098367 }
        ensures due { IsTrue result → dues_from self.old.codes first count ≡ count }
        ensures settled { IsTrue result → self.new.codes ≡ row_set 0 self.old.codes first count }
        ensures stays { IsFalse result → self.new.codes ≡ self.old.codes }
        ensures room { self.old.room ≤ self.new.room }
    {
        if self.count_from(first, count) != count {
            return false;
        }
        self.set_from(first, count, false);
        true
    }

    /// Frees the codes of this word.
    pub(crate) fn free(&mut self, word: usize)
        ensures len { length self.new.codes ≡ length self.old.codes }
        ensures freed { (place : ℕ) → place / 32 ≡ word → slice_index_or self.new.codes place 0 ≡ freed (slice_index_or self.old.codes place 0) }
        ensures others { (place : ℕ) → place / 32 ≢ word → slice_index_or self.new.codes place 0 ≡ slice_index_or self.old.codes place 0 }
        ensures room { self.old.room ≤ self.new.room }
    {
        if word >= self.words.len() {
            return;
        }
        self.words[word] = freed(self.words[word]);
    }

    // Takes so many places of one word for due or not.
    #[inline(always)]
    fn set_in_word(&mut self, from: usize, count: usize, due: bool)
        requires some { 1 ≤ count }
        requires word { from % 32 + count ≤ 32 }
        requires within { from + count ≤ length self.old.codes }
        ensures len { length self.new.codes ≡ length self.old.codes }
        ensures run { (place : ℕ) → from ≤ place → place < from + count → slice_index self.new.codes place ≡ code_of due }
        ensures others { (place : ℕ) → (place < from) ⊎ (from + count ≤ place) → slice_index self.new.codes place ≡ slice_index self.old.codes place }
        ensures room { self.old.room ≤ self.new.room }
    {
        let at = from / PER_WORD;
        self.words[at] = with_run(self.words[at], from % PER_WORD, count, due);
    }
}

ghost use Rattle.std.specs.Prelude.{◌≡◌, ◌≢◌, ◌⊎◌, ◌==◌, ℕ, ◌+◌, ◌-◌, ◌/◌, ◌<◌, ◌≤◌, ◌++◌, replicate, vec_len, vec_capacity};
ghost use Rattle.gc_monitor.specs.Events.{code_of};
ghost use Rattle.gc_monitor.specs.Internal.Watch.{bit};
ghost use Rattle.gc_monitor.specs.Internal.InWords.{code_in, freed};

// 1 for code 3, and 0 for any other.
#[inline(always)]
fn counted(code: u8) -> usize
    ensures { result ≡ bit (code == 3) }
{
    if code == 3 { 1 } else { 0 }
}

// The number of words for so many places.
#[inline(always)]
fn words_of(places: usize) -> usize
    requires { places ≤ 4294967295 }
    ensures { result ≡ (places + 31) / 32 }
{
    (places + 31) / PER_WORD
}

// Adds zeros where there are fewer words than these, and further ones, so that the next objects find theirs.
fn cover(words: &mut Vec<u64>, count: usize)
    requires room { count ≤ vec_capacity words.old }
    requires few { count ≤ 134217728 }
    ensures items { words.new.items ≡ words.old.items ++ replicate (vec_len words.new - vec_len words.old) 0 }
    ensures some { count ≤ vec_len words.new }
    ensures more { vec_len words.old ≤ vec_len words.new }
    ensures few { vec_len words.old ≤ 134217728 → vec_len words.new ≤ 134217728 }
    ensures capacity { vec_capacity words.old ≤ vec_capacity words.new }
{
    let room = min(words.capacity(), MOST_WORDS);
    let wanted = if room - count < AHEAD {
        room
    } else {
        count + AHEAD
    };
    if words.len() < wanted {
        add_words(words, wanted);
    }
}

// The code at this place of a word.
#[inline(always)]
fn code_in(word: u64, place: usize) -> u8
    requires { place < 32 }
    ensures { result ≡ code_in word place }
{
    ((word >> (2 * place)) % 4) as u8
}

// The word with another code at this place.
#[inline(always)]
fn with_code(word: u64, place: usize, code: u8) -> u64
    requires place { place < 32 }
    requires code { code < 4 }
    ensures here { code_in result place ≡ code }
    ensures others { (other : ℕ) → other ≢ place → code_in result other ≡ code_in word other }
{
    let was = (word >> (2 * place)) % 4;
    word ^ ((was ^ u64::from(code)) << (2 * place))
}

// The word with this code at a place that has code 0.
#[inline(always)]
fn with_first(word: u64, place: usize, code: u8) -> u64
    requires place { place < 32 }
    requires code { code < 4 }
    requires none { code_in word place ≡ 0 }
    ensures here { code_in result place ≡ code }
    ensures others { (other : ℕ) → other ≢ place → code_in result other ≡ code_in word other }
{
    word ^ (u64::from(code) << (2 * place))
}

// The word with all its codes freed.
#[inline(always)]
fn freed(word: u64) -> u64
    ensures { (k : ℕ) → k < 32 → code_in result k ≡ freed (code_in word k) }
{
    let high = word >> 1;
    let twos = high & (high ^ word) & ONES;
    word ^ (3 * twos)
}

// The word with code 3 at so many places if they are due, else with code 0 there.
#[inline(always)]
fn with_run(word: u64, place: usize, count: usize, due: bool) -> u64
    requires some { 1 ≤ count }
    requires within { place + count ≤ 32 }
    ensures run { (k : ℕ) → place ≤ k → k < place + count → code_in result k ≡ code_of due }
    ensures others { (k : ℕ) → (k < place) ⊎ (place + count ≤ k) → code_in result k ≡ code_in word k }
{
    let all = filled(word, place, count);
    if due {
        return all;
    }
    all ^ filled(0, place, count)
}

// The word with code 3 at so many places.
#[inline(always)]
fn filled(word: u64, place: usize, count: usize) -> u64
    requires some { 1 ≤ count }
    requires within { place + count ≤ 32 }
    ensures filled { (k : ℕ) → place ≤ k → k < place + count → code_in result k ≡ 3 }
    ensures others { (k : ℕ) → (k < place) ⊎ (place + count ≤ k) → code_in result k ≡ code_in word k }
{
    word | ((u64::MAX >> (64 - 2 * count)) << (2 * place))
}
