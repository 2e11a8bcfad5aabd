//! Words of texts that are parts of another text, or two texts joined. No byte is read by itself.

ghost use Rattle.std.specs.Prelude.{◌≡◌, ◌<◌, ◌≤◌, ◌+◌, ◌*◌, ◌%◌, ◌^◌, ◌++◌, drop, get_or, length, take};
ghost use Rattle.gc_bytes.specs.Text.{bytes_of, fields_for as fields_in, bytes_number, spelled};

use crate::spelling::counted;

/// Returns word `i` of the text that has `count` bytes of these words, from byte `at` on.
#[inline(always)]
pub(crate) fn part_word(words: &[u64], at: usize, count: usize, i: usize) -> u64
    requires few { length words.now < 2 ^ 59 }
    requires inside { at + count ≤ 7 * length words.now }
    requires word { i < fields_in count }
    ensures word { result ≡ get_or (spelled (take count (drop at (bytes_of words.now)))) i 0 }
    ensures number { result < 2 ^ 63 }
{
    let left = count - 7 * i;
    if left > 7 {
        bytes_at(words, at + 7 * i, 7)
    } else {
        counted(bytes_at(words, at + 7 * i, left), left)
    }
}

/// Returns word `i` of the text that has the first `count` bytes of the words `one`, and behind them the first `more` bytes of the words `other`.
#[inline(always)]
pub(crate) fn joined_word(one: &[u64], count: usize, other: &[u64], more: usize, i: usize) -> u64
    requires few { (length one.now < 2 ^ 59) × (length other.now < 2 ^ 59) }
    requires one { count ≤ 7 * length one.now }
    requires other { more ≤ 7 * length other.now }
    requires word { i < fields_in (count + more) }
    ensures word { result ≡ get_or (spelled (take count (bytes_of one.now) ++ take more (bytes_of other.now))) i 0 }
    ensures number { result < 2 ^ 63 }
{
    let left = count + more - 7 * i;
    if left > 7 {
        bytes_across(one, count, other, 7 * i, 7)
    } else {
        counted(bytes_across(one, count, other, 7 * i, left), left)
    }
}

// Returns the number of `n` bytes, from byte `at` on, of the first `count` bytes of `one` and all bytes of `other` behind them.
#[inline(always)]
fn bytes_across(one: &[u64], count: usize, other: &[u64], at: usize, n: usize) -> u64
    requires few { (length one.now < 2 ^ 59) × (length other.now < 2 ^ 59) }
    requires within { n ≤ 7 }
    requires one { count ≤ 7 * length one.now }
    requires inside { at + n ≤ count + 7 * length other.now }
    ensures value { result ≡ bytes_number (take n (drop at (take count (bytes_of one.now) ++ bytes_of other.now))) }
    ensures small { result < 2 ^ 56 }
{
    if at + n <= count {
        bytes_at(one, at, n)
    } else if at >= count {
        bytes_at(other, at - count, n)
    } else {
        let front = count - at;
        bytes_at(one, at, front) + raised(bytes_at(other, 0, n - front), front, n - front)
    }
}

// Returns the number of `n` bytes of these words, from byte `at` on.
#[inline(always)]
fn bytes_at(words: &[u64], at: usize, n: usize) -> u64
    requires few { length words.now < 2 ^ 59 }
    requires within { n ≤ 7 }
    requires inside { at + n ≤ 7 * length words.now }
    ensures value { result ≡ bytes_number (take n (drop at (bytes_of words.now))) }
    ensures small { result < 2 ^ (8 * n) }
{
    if n == 0 {
        return 0;
    }
    let first = at / 7;
    let skip = at % 7;
    let rest = words[first] >> (8 * skip);
    let front = 7 - skip;
    if n <= front {
        low(rest, n)
    } else {
        low(rest, front) + raised(low(words[first + 1], n - front), front, n - front)
    }
}

/// Returns what the word has in its n lowest bytes.
#[inline(always)]
pub(crate) fn low(word: u64, n: usize) -> u64
    requires { n ≤ 7 }
    ensures value { result ≡ word % 2 ^ (8 * n) }
    ensures small { result < 2 ^ (8 * n) }
{
    word % (1 << (8 * n))
}

/// Returns the number of k bytes, raised by n bytes.
#[inline(always)]
pub(crate) fn raised(number: u64, n: usize, k: usize) -> u64
    requires within { n + k ≤ 7 }
    requires number { number < 2 ^ (8 * k) }
    ensures { result ≡ number * 2 ^ (8 * n) }
{
    number << (8 * n)
}
