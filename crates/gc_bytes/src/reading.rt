//! From words to bytes.

ghost use Rattle.std.specs.Prelude.{◌≡◌, ◌<◌, ◌≤◌, ◌+◌, ◌*◌, ◌^◌, IfSome, drop, length, take};
ghost use Rattle.gc_bytes.specs.Text.{bytes_of, digits, text_length as length_in};

/// Returns the number of bytes in the text that these words are, or `None` if they are none. Reads the last word alone.
#[inline(always)]
pub(crate) fn text_length(words: &[u64]) -> Option<usize>
    requires { length words.now < 2 ^ 60 }
    ensures length { result ≡ length_in words.now }
    ensures within { IfSome result (λ n. n ≤ 7 * length words.now) }
{
    let count = words.len();
    if count == 0 {
        return Some(0);
    }
    let last = (words[count - 1] >> 56) as usize;
    if last == 0 || last > 7 {
        return None;
    }
    Some(7 * (count - 1) + last)
}

/// Copies bytes of these words, seven of each, from byte `at` on: as many as `out` takes.
pub(crate) fn read_bytes(words: &[u64], at: usize, out: &mut [u8])
    requires few { length words.now < 2 ^ 60 }
    requires inside { at + length out.old ≤ 7 * length words.now }
    ensures { out.new ≡ take (length out.old) (drop at (bytes_of words.now)) }
{
    let first = at / 7;
    let skip = at % 7;
    if skip == 0 {
        read_words(&words[first..], out);
    } else if out.len() > 7 - skip {
        let (front, rest) = out.split_at_mut(7 - skip);
        write_digits(words[first] >> (8 * skip), front);
        read_words(&words[first + 1..], rest);
    } else if out.len() > 0 {
        write_digits(words[first] >> (8 * skip), out);
    }
}

// Copies the first bytes of these words, seven of each: as many as `out` takes.
fn read_words(words: &[u64], out: &mut [u8])
    requires few { length words.now < 2 ^ 60 }
    requires inside { length out.old ≤ 7 * length words.now }
    ensures { out.new ≡ take (length out.old) (bytes_of words.now) }
{
    let whole = out.len() / 7;
    for w in 0..whole {
        write_whole(words[w], &mut out[7 * w..7 * w + 7]);
    }
    if out.len() > 7 * whole {
        write_digits(words[whole], &mut out[7 * whole..]);
    }
}

// Writes the seven lowest digits of the word to the base 256, the lowest first.
#[inline(always)]
fn write_whole(word: u64, out: &mut [u8])
    requires { length out.old ≡ 7 }
    ensures { out.new ≡ digits 7 word }
{
    let bytes = word.to_le_bytes();
    out.copy_from_slice(&bytes[..7]);
}

// Writes as many of the lowest digits of the word to the base 256 as `out` takes, the lowest first.
#[inline(always)]
fn write_digits(word: u64, out: &mut [u8])
    ensures { out.new ≡ digits (length out.old) word }
{
    let mut rest = word;
    for k in 0..out.len() {
        out[k] = (rest % 256) as u8;
        rest /= 256;
    }
}
