//! Fields with top bits that change where words are written over some of a vector's own.

ghost use Rattle.std.specs.Prelude.{◌≡◌, ◌<◌, ◌≤◌, ◌+◌, ◌-◌, ◌*◌, ◌^◌, ℕ, List, get_or, length, map};
ghost use Rattle.gc_bytes.specs.ChangedTops.{changed_tops_in, patched_top as patched_in};
ghost use Rattle.gc_bytes.specs.Vector.{bits_number, top_bit};

use std::marker::Model;

/// The fields with top bits that change where words are written over some of a vector's own. Contracts see the list of these fields.
#[derive(Drop)]
pub struct ChangedTops<'a> {
    // The first and the last of these fields as they were.
    pub(crate) first: u64,
    pub(crate) last: u64,
    // The number of bits that the first field keeps in front of those that are written.
    pub(crate) skip: usize,
    pub(crate) words: &'a [u64],
}

impl<'a> Model for ChangedTops<'a> {
    ghost Value = { List ℕ };

    ghost view = { λ c. changed_tops_in c.first c.last c.skip c.words.now };

    ghost invariant = { λ c. (c.skip < 63) × (0 < length c.words.now) × (length c.words.now < 2 ^ 60) × (c.first < 2 ^ 63) × (c.last < 2 ^ 63) };
}

impl ChangedTops<'_> {
    /// Returns the number of these fields.
    #[inline(always)]
    pub fn count(&self) -> usize
        ensures { result ≡ length self.now }
    {
        (self.skip + self.words.len() + 62) / 63
    }

    /// Returns field `i` of these.
    #[inline(always)]
    pub fn field(&self, i: usize) -> u64
        requires { i < length self.now }
        ensures field { result ≡ get_or self.now i 0 }
        ensures number { result < 2 ^ 63 }
    {
        if i == 0 {
            let front = self.words.len().min(63 - self.skip);
            return patched_top(self.first, self.skip, &self.words[..front]);
        }
        let rest = &self.words[63 * i - self.skip..];
        let count = rest.len().min(63);
        patched_top(self.last, 0, &rest[..count])
    }
}

// Returns the field with the top bits of these words from bit `at` on.
#[inline(always)]
fn patched_top(field: u64, at: usize, words: &[u64]) -> u64
    requires within { at + length words.now ≤ 63 }
    requires number { field < 2 ^ 63 }
    ensures field { result ≡ patched_in field at words.now }
    ensures number { result < 2 ^ 63 }
{
    let end = at + words.len();
    let kept = field % (1 << at) + ((field >> end) << end);
    kept + (number_of_tops(words) << at)
}

// Returns the number whose bits are the top bits of these words.
#[inline(always)]
fn number_of_tops(words: &[u64]) -> u64
    requires { length words.now ≤ 63 }
    ensures value { result ≡ bits_number (map top_bit words.now) }
    ensures small { result < 2 ^ length words.now }
{
    let mut number = 0;
    let mut k = words.len();
    while k > 0 {
        k -= 1;
        number = number * 2 + (words[k] >> 63);
    }
    number
}
