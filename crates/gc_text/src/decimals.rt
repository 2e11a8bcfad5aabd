ghost use Rattle.std.specs.Prelude.{◌≡◌, ◌<◌, ◌%◌, ◌^◌, ◌↔◌, ℕ, List, take, IsTrue, MatchOption};
ghost use Rattle.std.specs.Str.Parse.{digits_value};
ghost use Rattle.std.specs.Float.Numeral.{digits_len};
ghost use Rattle.gc_text.specs.Fronts.{BeginsWithNumber};
ghost use Rattle.gc_text.specs.Internal.Decimals.{IsDecimal};

use core::dec2flt::read_digits;

/// The smallest number of twenty digits.
const LEAST_OF_TWENTY: u64 = 10000000000000000000;

/// Returns whether the digits at the front of the text are the decimal of a number below 2^64. `count` is the number of digits,
/// and `wrapped` is their value modulo 2^64. Twenty digits that begin with 1 spell too large a number exactly if `wrapped` has
/// fewer than twenty digits.
#[inline(always)]
fn is_decimal(text: &[u8], count: usize, wrapped: u64) -> bool
    requires some { 0 < count }
    requires digits { count ≡ digits_len text.now }
    requires value { wrapped ≡ digits_value 10 (take count text.now) % 2 ^ 64 }
    ensures { IsTrue result ↔ IsDecimal (take count text.now) }
{
    match text[0] {
        b'0' => count == 1,
        b'1' => count < 20 || count == 20 && wrapped >= LEAST_OF_TWENTY,
        _ => count < 20,
    }
}

/// Returns the number whose decimal is at the front of the text, and the rest of the text. Returns `None` if the text does not
/// begin with the decimal of a number below 2^64.
#[inline(always)]
pub fn front_number(text: &[u8]) -> Option<(u64, &[u8])>
    ensures { MatchOption result ((n : ℕ) (rest : List ℕ) → ¬ BeginsWithNumber text.now n rest)
        (λ found. BeginsWithNumber text.now found.0 found.1.now) }
{
    let (end, value) = read_digits(text, 0, 0);
    if end > 0 && is_decimal(text, end, value) {
        Some((value, &text[end..]))
    } else {
        None
    }
}
