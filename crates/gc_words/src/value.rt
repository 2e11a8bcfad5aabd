ghost use Rattle.std.specs.Prelude.{◌≡◌, ◌≤◌, ◌+◌, ◌*◌, ◌/◌, ◌%◌, ◌^◌, Some, IfSome, IsTrue};
ghost use Rattle.std.specs.Option.{option_map};
ghost use Rattle.gc_graph.specs.Graph.{name_of};
ghost use Rattle.gc_graph.specs.Limits.{most_words};
ghost use Rattle.gc_words.specs.Word.{is_value, value_of, read_value, read_value_within, word_of, HasAddress, HasAddressWithin};
ghost use Rattle.gc_words.specs.Views.{graph_value};

use gc_graph::{MOST_WORDS, Number};

/// The place of a word in a space. Any number is an `Addr`; the calls that take one restrict it.
#[derive(Clone, Copy, Debug, PartialEq, Eq)]
pub struct Addr(pub u32);

/// An address in the old space of a pair of spaces.
#[repr(C)]
#[derive(Clone, Copy, Debug, PartialEq, Eq)]
pub struct OldAddr(pub u32);

/// An address in the new space of a pair of spaces.
#[repr(C)]
#[derive(Clone, Copy, Debug, PartialEq, Eq)]
pub struct NewAddr(pub u32);

/// The value of a field or a root.
#[derive(Clone, Copy, Debug, PartialEq, Eq)]
pub enum Value {
    Nil,
    Num(Number),
    /// A reference to the object that starts at this address.
    Ref(Addr),
}

/// Decodes a word of a space of at most `MOST_WORDS` words: 0 is nil, `2n + 1` the number n, `2a` a reference to the
/// address a, which is below 2^20. Returns `None` for any other word.
pub fn decode(word: u64) -> Option<Value>
    ensures value { option_map graph_value result ≡ read_value_within most_words word }
    ensures address { IfSome result (λ value. HasAddress (graph_value value)) }
{
    decode_within(MOST_WORDS, word)
}

/// Decodes a word of a space of any size: the address of a reference is below 2^32 - 1. Returns `None` for any other word.
pub fn decode_wide(word: u64) -> Option<Value>
    ensures value { option_map graph_value result ≡ read_value word }
    ensures address { IfSome result (λ value. HasAddress (graph_value value)) }
{
    decode_within(u32::MAX, word)
}

// Decodes a word of a space of this many words, at least 1.
fn decode_within(size: u32, word: u64) -> Option<Value>
    requires { 1 ≤ size }
    ensures value { option_map graph_value result ≡ read_value_within size word }
    ensures address { IfSome result (λ value. HasAddress (graph_value value)) }
{
    if word == 0 {
        Some(Value::Nil)
    } else if word % 2 == 1 {
        Number::new(word / 2).map(Value::Num)
    } else if word < 2 * u64::from(size) {
        Some(Value::Ref(Addr((word / 2) as u32)))
    } else {
        None
    }
}

/// Decodes a word that is known to be a value. It tests less than `decode_wide`.
pub fn value_in(word: u64) -> Value
    requires { IsTrue (is_value word) }
    ensures value { graph_value result ≡ value_of word }
    ensures address { HasAddress (graph_value result) }
{
    if word == 0 {
        Value::Nil
    } else if word % 2 == 1 {
        Value::Num(Number::new(word / 2).unwrap())
    } else {
        Value::Ref(Addr((word / 2) as u32))
    }
}

/// Returns the address that a word refers to, or `None` for nil and numbers.
pub fn target_of(word: u64) -> Option<Addr>
    requires { IsTrue (is_value word) }
    ensures { option_map (λ a. a.0) result ≡ name_of (value_of word) }
{
    let half = half_of(word);
    // One test tells references from nil, whose half less 1 is the largest word, and from numbers.
    if half.wrapping_sub(1) >= u64::from(u32::MAX) - 1 {
        return None;
    }
    Some(Addr(half as u32))
}

/// Returns half the word if it is even, and otherwise a number that is no address. It takes fewer instructions than a test of the lowest bit.
#[inline(always)]
pub fn half_of(word: u64) -> u64
    ensures { result ≡ word / 2 + word % 2 * 2 ^ 63 }
{
    word / 2 + word % 2 * (1 << 63)
}

/// Encodes the value as a word, which `decode_wide` decodes again, and `decode` too if its address is below 2^20.
pub fn encode(value: Value) -> u64
    requires { HasAddress (graph_value value) }
    ensures word { result ≡ word_of (graph_value value) }
    ensures read_back { read_value result ≡ Some (graph_value value) }
    ensures decoded { HasAddressWithin most_words (graph_value value) → read_value_within most_words result ≡ Some (graph_value value) }
{
    match value {
        Value::Nil => 0,
        Value::Num(number) => 2 * number.get() + 1,
        Value::Ref(address) => 2 * u64::from(address.0),
    }
}
