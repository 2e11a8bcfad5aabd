//! Words of a text that change where bytes are written over some of its own.

ghost use Rattle.std.specs.Prelude.{◌≡◌, ◌<◌, ◌≤◌, ◌+◌, ◌*◌, ◌^◌, ℕ, List, get_or, length};
ghost use Rattle.gc_bytes.specs.Changed.{changed_in, patched_word as patched_in};

use crate::parts::{low, raised};
use crate::spelling::{number_of, whole_word};
use std::marker::Model;

/// The words of a text that change where bytes are written over some of its own. Contracts see the list of these words.
#[derive(Drop)]
pub struct ChangedWords<'a> {
    // The first and the last of these words as they were.
    pub(crate) first: u64,
    pub(crate) last: u64,
    // The number of bytes that the first word keeps in front of those that are written.
    pub(crate) skip: usize,
    pub(crate) bytes: &'a [u8],
}

impl<'a> Model for ChangedWords<'a> {
    ghost Value = { List ℕ };

    ghost view = { λ c. changed_in c.first c.last c.skip c.bytes.now };

    ghost invariant = { λ c. (c.skip < 7) × (0 < length c.bytes.now) × (length c.bytes.now < 2 ^ 62) × (c.first < 2 ^ 63) × (c.last < 2 ^ 63) };
}

impl ChangedWords<'_> {
    /// Returns the number of these words.
    #[inline(always)]
    pub fn count(&self) -> usize
        ensures { result ≡ length self.now }
    {
        (self.skip + self.bytes.len() + 6) / 7
    }

    /// Returns word `i` of these.
    #[inline(always)]
    pub fn word(&self, i: usize) -> u64
        requires { i < length self.now }
        ensures word { result ≡ get_or self.now i 0 }
        ensures number { result < 2 ^ 63 }
    {
        if i == 0 {
            let front = self.bytes.len().min(7 - self.skip);
            return patched_word(self.first, self.skip, &self.bytes[..front]);
        }
        let from = 7 * i - self.skip;
        let rest = &self.bytes[from..];
        if rest.len() > 7 {
            whole_word(rest)
        } else {
            patched_word(self.last, 0, rest)
        }
    }
}

// Returns the word with these bytes in its places from `at` on.
#[inline(always)]
fn patched_word(word: u64, at: usize, bytes: &[u8]) -> u64
    requires within { at + length bytes.now ≤ 7 }
    requires number { word < 2 ^ 63 }
    ensures word { result ≡ patched_in word at bytes.now }
    ensures number { result < 2 ^ 63 }
{
    let kept = word - low(word, at + bytes.len()) + low(word, at);
    kept + raised(number_of(bytes), at, bytes.len())
}
