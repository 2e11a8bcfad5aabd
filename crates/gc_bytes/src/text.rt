//! A text of bytes, as the words of a raw object have it.

ghost use Rattle.std.specs.Prelude.{◌≡◌, ◌≢◌, ◌<◌, ◌≤◌, ◌+◌, ◌*◌, ◌^◌, ◌++◌, ℕ, List, IsFalse, IsTrue, Some, get_or, length, slice_range, take};
ghost use Rattle.std.specs.Option.{option_map};
ghost use Rattle.std.specs.Cmp.Lexicographic.{slice_cmp};
ghost use Rattle.std.specs.Ordering.{nat_cmp};
ghost use Rattle.gc_bytes.specs.Text.{bytes_of, changed_words, fields_for as fields_in, spelled, text_of};

use crate::changing::ChangedWords;
use crate::comparing::compare_bytes;
use crate::parts::{joined_word, part_word};
use crate::reading::{read_bytes, text_length};
use std::cmp::Ordering;
use std::marker::Model;

/// A text of bytes that the words of a raw object are. Contracts see the list of its bytes.
#[derive(Drop)]
pub struct Text<'a> {
    words: &'a [u64],
    count: usize,
}

impl<'a> Model for Text<'a> {
    ghost Value = { List ℕ };

    ghost view = { λ t. take t.count (bytes_of t.words.now) };

    ghost invariant = { λ t. (t.count ≤ 7 * length t.words.now) × (length t.words.now < 2 ^ 59) };
}

impl<'a> Text<'a> {
    /// Returns the text that these words are, or `None` if they are none. Reads the last word alone.
    #[inline(always)]
    pub fn of(words: &'a [u64]) -> Option<Text<'a>>
        requires { length words.now < 2 ^ 59 }
        ensures { result ≡ text_of words.now }
    {
        let count = text_length(words)?;
        Some(Text { words, count })
    }

    /// Returns the text that these words are, which is known to have `count` bytes. Reads no word.
    #[inline(always)]
    pub fn with_length(words: &'a [u64], count: usize) -> Text<'a>
        requires few { length words.now < 2 ^ 59 }
        requires counted { option_map length (text_of words.now) ≡ Some count }
        ensures { Some result ≡ text_of words.now }
    {
        Text { words, count }
    }
}

impl Text<'_> {
    /// Returns the number of bytes.
    #[inline(always)]
    pub fn len(&self) -> usize
        ensures { result ≡ length self.now }
    {
        self.count
    }

    /// Copies bytes from byte `at` on: as many as `out` takes.
    pub fn read(&self, at: usize, out: &mut [u8])
        requires { at + length out.old ≤ length self.now }
        ensures { out.new ≡ slice_range self.now at (at + length out.old) }
    {
        read_bytes(self.words, at, out);
    }

    /// Returns the order of both texts: that of unsigned bytes, in which a shorter beginning comes first.
    pub fn compare(&self, other: &Text<'_>) -> Ordering
        ensures { result ≡ slice_cmp nat_cmp self.now other.now }
    {
        compare_bytes(self.words, self.count, other.words, other.count)
    }

    /// Returns whether both texts have the same bytes.
    pub fn is_same(&self, other: &Text<'_>) -> bool
        ensures same { IsTrue result → self.now ≡ other.now }
        ensures other { IsFalse result → self.now ≢ other.now }
    {
        if self.len() != other.len() {
            return false;
        }
        matches!(self.compare(other), Ordering::Equal)
    }

    /// Returns word `i` of the text that has `count` of these bytes, from byte `at` on.
    #[inline(always)]
    pub fn part_word(&self, at: usize, count: usize, i: usize) -> u64
        requires inside { at + count ≤ length self.now }
        requires word { i < fields_in count }
        ensures word { result ≡ get_or (spelled (slice_range self.now at (at + count))) i 0 }
        ensures number { result < 2 ^ 63 }
    {
        part_word(self.words, at, count, i)
    }

    /// Returns word `i` of the text that has the bytes of this one, and behind them those of the other.
    #[inline(always)]
    pub fn joined_word(&self, other: &Text<'_>, i: usize) -> u64
        requires { i < fields_in (length self.now + length other.now) }
        ensures word { result ≡ get_or (spelled (self.now ++ other.now)) i 0 }
        ensures number { result < 2 ^ 63 }
    {
        joined_word(self.words, self.count, other.words, other.count, i)
    }

    /// Returns the words of this text that change where these bytes are written over its own, from byte `at` on.
    #[inline(always)]
    pub fn changed_by<'b>(&self, at: usize, bytes: &'b [u8]) -> ChangedWords<'b>
        requires some { 0 < length bytes.now }
        requires inside { at + length bytes.now ≤ length self.now }
        ensures { result ≡ changed_words self.now at bytes.now }
    {
        let first = part_word(self.words, 0, self.count, at / 7);
        let end = at + bytes.len() - 1;
        ChangedWords {
            first,
            last: part_word(self.words, 0, self.count, end / 7),
            skip: at % 7,
            bytes,
        }
    }
}
