//! Reads words of a space in which every reference refers to a start.

ghost use Rattle.std.specs.Prelude.{◌≡◌, ◌↔◌, Some, None, IsTrue, IsSome, IfSome, is_none, not, ◌&&◌, ◌<◌, ◌^◌};
ghost use Rattle.std.specs.List.{list_all};
ghost use Rattle.gc_graph.specs.Graph.{Num, Ref};
ghost use Rattle.gc_graph.specs.Machine.{view_of, is_number};
ghost use Rattle.gc_graph.specs.declared.reply.Reply.TheVariants.{Saw};
ghost use Rattle.gc_heap.specs.Commands.{fetched_of};
ghost use Rattle.gc_heap.specs.Raws.{is_number_word};
ghost use Rattle.gc_words.specs.Word.{is_value, value_of, field_value};
ghost use Rattle.gc_words.specs.Image.{is_start, header_at, field_at, objects_of};
ghost use Rattle.gc_words.specs.Space.{IsSpace};
ghost use Rattle.gc_words.specs.Closed.{IsRootWord, IsFieldWord};

use crate::taken::Fetched;
use gc_graph::View;
use gc_words::{Addr, Header, Space, Value, value_in};

/// Returns whether the object that starts here, and has this header, has a field `i`.
#[tactic(auto, using(gc_words::proofs::Public::field_within, std::proofs::lemmas::Bool::cases_Bool, gc_words::proofs::Public::field_past))]
pub fn has_field(space: &Space, at: Addr, header: Header, i: u16) -> bool
    requires header { header_at space.now.words at.0 ≡ Some header }
    requires shaped { IsSpace space.now }
    ensures { IsTrue result ↔ IsSome (field_at space.now.words at.0 i) }
{
    i < header.len()
}

/// Returns what a mutator sees of the value of a word.
pub fn view(space: &Space, word: u64) -> View
    requires word { IsRootWord space.now.words word }
    requires shaped { IsSpace space.now }
    ensures { result ≡ view_of (objects_of space.now.words) (value_of word) }
{
    match value_in(word) {
        Value::Nil => View::Nil,
        Value::Num(n) => View::Num(n),
        Value::Ref(at) => object_view(space, at),
    }
}

/// Returns what a mutator sees of a reference to the object that starts here.
pub fn object_view(space: &Space, at: Addr) -> View
    requires start { IsTrue (is_start space.now.words at.0) }
    requires shaped { IsSpace space.now }
    ensures { result ≡ view_of (objects_of space.now.words) (Ref at.0) }
{
    let header = space.header(at);
    let kind = header.kind();
    let len = header.len();
    if header.is_raw() {
        View::RawObj { kind, len }
    } else {
        View::Obj { kind, len }
    }
}

/// Returns what `fetch` shows of the value of a word. It does not read the object.
pub fn fetched(space: &Space, word: u64) -> Fetched
    requires word { IsRootWord space.now.words word }
    requires shaped { IsSpace space.now }
    ensures { result ≡ fetched_of (Saw (view_of (objects_of space.now.words) (value_of word))) }
{
    match value_in(word) {
        Value::Nil => Fetched::Nil,
        Value::Num(n) => Fetched::Num(n),
        Value::Ref(_) => Fetched::Object,
    }
}

/// Converts a field word of an object with this header to the root word of the same value.
pub fn root_word(space: &Space, header: Header, field: u64) -> u64
    requires { IsFieldWord space.now.words header field }
    ensures value { value_of result ≡ field_value header field }
    ensures word { IsRootWord space.now.words result }
{
    if header.is_raw() {
        2 * field + 1
    } else {
        field
    }
}

/// Converts a root word to the field word of the same value in an object with this header. Returns `None` if the object
/// is raw and the value is not a number.
pub fn field_word(space: &Space, header: Header, word: u64) -> Option<u64>
    requires { IsRootWord space.now.words word }
    ensures refused { is_none result ≡ (header.raw && not (is_number (value_of word))) }
    ensures value { IfSome result (λ field. field_value header field ≡ value_of word) }
    ensures word { IfSome result (λ field. IsFieldWord space.now.words header field) }
{
    if header.is_raw() {
        number_of(word)
    } else {
        Some(word)
    }
}

/// Returns the number that a word encodes.
fn number_of(word: u64) -> Option<u64>
    requires { IsTrue (is_value word) }
    ensures refused { is_none result ≡ not (is_number (value_of word)) }
    ensures value { IfSome result (λ n. Num n ≡ value_of word) }
    ensures bound { IfSome result (λ n. n < 2 ^ 63) }
{
    match value_in(word) {
        Value::Num(n) => Some(n.get()),
        _ => None,
    }
}

/// Returns whether all words are numbers, as the fields of a raw object are.
pub fn are_numbers(words: &[u64]) -> bool
    ensures { result ≡ list_all is_number_word words.now }
{
    // A loop without a branch for each word, which the compiler turns into vector code.
    let mut so_far = true;
    for k in 0..words.len() {
        so_far &= words[k] < 1 << 63;
    }
    so_far
}
