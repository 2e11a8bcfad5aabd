//! Vectors of 64-bit words in the fields of a raw object.

ghost use Rattle.std.specs.Prelude.{◌≡◌, ◌<◌, ◌≤◌, ◌+◌, ◌/◌, ◌%◌, ◌^◌, length, slice_range};
ghost use Rattle.gc_bytes.specs.Vector.{changed_tops as changed_in, first_top as first_in, word_at, words_in as words_for, words_of};

use crate::changing_tops::ChangedTops;

/// Returns the number of words that so many fields have. Of 64 fields, one has the top bits of the others' words.
#[inline(always)]
pub fn words_in(fields: usize) -> usize
    requires { fields < 2 ^ 63 }
    ensures { result ≡ words_for fields }
{
    fields - (fields + 63) / 64
}

/// Copies words of the vector with these fields, from word `at` on: as many as `out` takes.
pub fn read_words(fields: &[u64], at: usize, out: &mut [u64])
    requires few { length fields.now < 2 ^ 60 }
    requires inside { at + length out.old ≤ words_for (length fields.now) }
    ensures { out.new ≡ slice_range (words_of fields.now) at (at + length out.old) }
{
    let mut tops = words_in(fields.len()) + at / 63;
    let mut bit = at % 63;
    for k in 0..out.len() {
        out[k] = word(fields, at + k, tops, bit);
        bit += 1;
        if bit == 63 {
            bit = 0;
            tops += 1;
        }
    }
}

// Returns word `i` of the vector. Its top bit is this one of field `tops`.
#[inline(always)]
fn word(fields: &[u64], i: usize, tops: usize, bit: usize) -> u64
    requires few { length fields.now < 2 ^ 60 }
    requires inside { i < words_for (length fields.now) }
    requires field { tops ≡ words_for (length fields.now) + i / 63 }
    requires bit { bit ≡ i % 63 }
    ensures { result ≡ word_at fields.now i }
{
    fields[i] % (1 << 63) + (((fields[tops] >> bit) % 2) << 63)
}

/// Returns the place of the first field with top bits that changes where words are written over those from word `at` on.
#[inline(always)]
pub fn first_top(fields: &[u64], at: usize) -> usize
    requires few { length fields.now < 2 ^ 60 }
    requires inside { at < words_for (length fields.now) }
    ensures index { result ≡ first_in fields.now at }
    ensures within { result < length fields.now }
{
    words_in(fields.len()) + at / 63
}

/// Returns the fields with top bits that change where these words are written over those from word `at` on.
#[inline(always)]
pub fn changed_tops<'a>(fields: &[u64], at: usize, words: &'a [u64]) -> ChangedTops<'a>
    requires few { length fields.now < 2 ^ 60 }
    requires some { 0 < length words.now }
    requires inside { at + length words.now ≤ words_for (length fields.now) }
    ensures { result ≡ changed_in fields.now at words.now }
{
    ChangedTops {
        first: fields[first_top(fields, at)] % (1 << 63),
        last: fields[first_top(fields, at + words.len() - 1)] % (1 << 63),
        skip: at % 63,
        words,
    }
}
