//! From bytes to words.

ghost use Rattle.std.specs.Prelude.{◌≡◌, ◌<◌, ◌≤◌, ◌+◌, ◌*◌, ◌^◌, get_or, length, take};
ghost use Rattle.gc_bytes.specs.Text.{fields_for as fields_in, last_word as last_of, bytes_number, spelled};

/// The number of bytes in the longest text: those that 65,535 fields have.
pub const MOST_BYTES: usize = 458_745;

/// Returns the number of fields that so many bytes take.
#[inline(always)]
pub fn fields_for(bytes: usize) -> usize
    requires { bytes < 2 ^ 63 }
    ensures { result ≡ fields_in bytes }
{
    (bytes + 6) / 7
}

/// Returns word `i` of those that spell the bytes.
#[inline(always)]
pub fn spelled_word(bytes: &[u8], i: usize) -> u64
    requires { i < fields_in (length bytes.now) }
    ensures word { result ≡ get_or (spelled bytes.now) i 0 }
    ensures number { result < 2 ^ 63 }
{
    let rest = &bytes[7 * i..];
    if rest.len() > 7 {
        whole_word(rest)
    } else {
        last_word(rest)
    }
}

/// Returns the word with the first seven of these bytes. Reads eight at once.
#[inline(always)]
pub(crate) fn whole_word(bytes: &[u8]) -> u64
    requires { 8 ≤ length bytes.now }
    ensures word { result ≡ bytes_number (take 7 bytes.now) }
    ensures small { result < 2 ^ 56 }
{
    let eight = u64::from_le_bytes([
        bytes[0], bytes[1], bytes[2], bytes[3], bytes[4], bytes[5], bytes[6], bytes[7],
    ]);
    eight % (1 << 56)
}

// Returns the last word of a text, which has these bytes and says how many they are.
fn last_word(bytes: &[u8]) -> u64
    requires { length bytes.now ≤ 7 }
    ensures word { result ≡ last_of bytes.now }
    ensures small { result < 2 ^ 59 }
{
    counted(number_of(bytes), bytes.len())
}

/// Returns the last word of a text that has this number of `n` bytes there.
#[inline(always)]
pub(crate) fn counted(number: u64, n: usize) -> u64
    requires few { n ≤ 7 }
    requires number { number < 2 ^ 56 }
    ensures word { result ≡ number + 2 ^ 56 * n }
    ensures small { result < 2 ^ 59 }
{
    number + ((n as u64) << 56)
}

/// Returns the number with these digits to the base 256, the lowest first.
#[inline(always)]
pub(crate) fn number_of(digits: &[u8]) -> u64
    requires { length digits.now ≤ 7 }
    ensures value { result ≡ bytes_number digits.now }
    ensures small { result < 2 ^ 56 }
{
    let mut number = 0;
    let mut k = digits.len();
    while k > 0 {
        k -= 1;
        number = number * 256 + u64::from(digits[k]);
    }
    number
}
