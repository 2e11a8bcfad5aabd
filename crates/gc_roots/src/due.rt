//! Marks of roots that are due, with the first of them found in constant time.

ghost use Rattle.std.specs.Prelude.{◌≡◌, ◌≢◌, ◌<◌, ◌≤◌, ◌*◌, ◌+◌, ◌/◌, ◌%◌, ◌^◌, ℕ, length, true, false, slice_index, IsTrue, IfOk, IfSome, None};
ghost use Rattle.gc_words.specs.Marks.{is_marked};
ghost use Rattle.std.specs.Int.{bit_at};

use gc_graph::NoMemory;
use gc_words::is_marked;
use std::alloc::Global;
use std::marker::Model;

/// A mark for each of so many places. A second row has a mark for each word of the first that is not 0, so that the first mark is found by
/// looking at a few words: a million places have 256 of the second row.
#[derive(Debug, Drop)]
pub(crate) struct DueRow {
    bits: Vec<u64>,
    sums: Vec<u64>,
    /// No word of the second row below this one has a mark.
    low: usize,
}

impl Model for DueRow {
    ghost use Rattle.std.specs.Prelude.{List, ℕ};
    ghost use Rattle.gc_roots.specs.Internal.Due.{IsDueRow};

    ghost Value = { List ℕ };

    ghost view = { λ d. d.bits.items };

    ghost invariant = { λ d. IsDueRow d.bits.items d.sums.items d.low };
}

impl DueRow {
    /// Returns a row of so many places and a few more, none of which is marked. Allocates twice.
    pub(crate) fn new(alloc: Global, places: u32) -> Result<DueRow, NoMemory>
        ensures room { IfOk result (λ row. places < 64 * length row) }
        ensures none { IfOk result (λ row. (k : ℕ) → is_marked row k ≡ false) }
    {
        let words = places as usize / 64 + 1;
        let bits = vec![in alloc; 0u64; words]?;
        let sums = vec![in alloc; 0u64; words / 64 + 1]?;
        let low = sums.len();
        Ok(DueRow { bits, sums, low })
    }

    /// Returns whether this place is marked.
    #[inline(always)]
    pub(crate) fn contains(&self, place: usize) -> bool
        requires { place < 64 * length self.now }
        ensures { result ≡ is_marked self.now place }
    {
        is_marked(self.bits.as_slice(), place)
    }

    /// Marks this place.
    #[inline(always)]
    #[tactic(auto, using(crate::proofs::Rows::mark_row, crate::proofs::Marks::mark_is_set, crate::proofs::Marks::marks_stay_beside))]
    pub(crate) fn mark(&mut self, place: usize)
        requires { place < 64 * length self.old }
        ensures len { length self.new ≡ length self.old }
        ensures marked { is_marked self.new place ≡ true }
        ensures others { (other : ℕ) → other ≢ place → is_marked self.new other ≡ is_marked self.old other }
    {
        let word = place / 64;
        self.bits[word] |= 1 << (place % 64);
        self.sums[word / 64] |= 1 << (word % 64);
        if word / 64 < self.low {
            self.low = word / 64;
        }
    }

    /// Takes the mark of this place away, if it has one. Most places have none.
    #[inline(always)]
    pub(crate) fn unmark(&mut self, place: usize)
        requires { place < 64 * length self.old }
        ensures len { length self.new ≡ length self.old }
        ensures unmarked { is_marked self.new place ≡ false }
        ensures others { (other : ℕ) → other ≢ place → is_marked self.new other ≡ is_marked self.old other }
    {
        if self.contains(place) {
            self.take_mark(place);
        }
    }

    /// Takes the mark of this place away, and passes the words of the second row that are 0.
    #[inline(never)]
    #[tactic(auto, using(crate::proofs::Rows::unmark_all, crate::proofs::Rows::unmark_some, crate::proofs::Marks::mark_is_gone, crate::proofs::Marks::other_marks_stay))]
    fn take_mark(&mut self, place: usize)
        requires { place < 64 * length self.old }
        ensures len { length self.new ≡ length self.old }
        ensures unmarked { is_marked self.new place ≡ false }
        ensures others { (other : ℕ) → other ≢ place → is_marked self.new other ≡ is_marked self.old other }
    {
        let word = place / 64;
        self.bits[word] &= !(1 << (place % 64));
        if self.bits[word] == 0 {
            self.sums[word / 64] &= !(1 << (word % 64));
            self.low = first_word(self.sums.as_slice(), self.low);
        }
    }

    /// Returns the first place that is marked. Takes constant time, since `take_mark` has passed the words of the second row that are 0.
    #[inline(always)]
    pub(crate) fn first(&self) -> Option<usize>
        ensures none { result ≡ None → (k : ℕ) → is_marked self.now k ≡ false }
        ensures marked { IfSome result (λ k. is_marked self.now k ≡ true) }
        ensures within { IfSome result (λ k. k < 64 * length self.now) }
        ensures before { IfSome result (λ k. (i : ℕ) → i < k → is_marked self.now i ≡ false) }
    {
        if self.low >= self.sums.len() {
            return None;
        }
        self.first_mark()
    }

    /// Returns the first place that is marked, by the words of the second row that were not passed.
    #[inline(never)]
    fn first_mark(&self) -> Option<usize>
        ensures none { result ≡ None → (k : ℕ) → is_marked self.now k ≡ false }
        ensures marked { IfSome result (λ k. is_marked self.now k ≡ true) }
        ensures within { IfSome result (λ k. k < 64 * length self.now) }
        ensures before { IfSome result (λ k. (i : ℕ) → i < k → is_marked self.now i ≡ false) }
    {
        let at = first_word(self.sums.as_slice(), self.low);
        if at == self.sums.len() {
            return None;
        }
        let word = place_in(self.sums.as_slice(), at);
        Some(place_in(self.bits.as_slice(), word))
    }
}

/// Returns the first word from this one on that is not 0, or the number of words.
fn first_word(words: &[u64], from: usize) -> usize
    ensures high { result ≤ length words.now }
    ensures zeros { (j : ℕ) → from ≤ j → j < result → slice_index words.now j ≡ 0 }
    ensures found { result < length words.now → 1 ≤ slice_index words.now result }
{
    for j in from..words.len() {
        if words[j] != 0 {
            return j;
        }
    }
    words.len()
}

/// Returns the first marked place of this word, which is not 0.
#[inline(always)]
#[tactic(auto, using(crate::proofs::Rows::word_within, crate::proofs::Marks::mark_of_bit, crate::proofs::Marks::no_mark_in))]
fn place_in(bits: &[u64], word: usize) -> usize
    requires some { 1 ≤ slice_index bits.now word }
    requires few { length bits.now < 2 ^ 40 }
    ensures marked { is_marked bits.now result ≡ true }
    ensures at { result / 64 ≡ word }
    ensures before { (i : ℕ) → i / 64 ≡ word → i < result → is_marked bits.now i ≡ false }
{
    64 * word + lowest(bits[word])
}

/// Returns the place of the lowest bit of a word that is not 0.
#[inline(always)]
fn lowest(word: u64) -> usize
    requires { 1 ≤ word }
    ensures below { result < 64 }
    ensures set { bit_at word result ≡ 1 }
    ensures before { (i : ℕ) → i < result → bit_at word i ≡ 0 }
{
    word.trailing_zeros() as usize
}
