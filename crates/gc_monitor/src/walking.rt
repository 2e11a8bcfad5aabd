//! The walks over both spaces: the next object, what a replica's link claims, and the codes of an object's places.

ghost use Rattle.std.specs.Prelude.{◌≡◌, ◌↔◌, ◌≤◌, ◌<◌, ◌+◌, ◌++◌, ◌%◌, ◌^◌, ℕ, IsTrue, MatchOption, Some, length, slice_index};
ghost use Rattle.gc_words.specs.Layout.{fields_place, link_place};
ghost use Rattle.gc_words.specs.Word.{read_header};
ghost use Rattle.gc_words.specs.declared.header.Header.{Header};
ghost use Rattle.gc_monitor.specs.Watch.{IsNext};
ghost use Rattle.gc_monitor.specs.Events.{IsCopy, object_codes, code_of};

use crate::code_row::CodeRow;
use gc_words::Header;

/// An object starts here. In the old table: no replica of it was seen.
pub(crate) const START: u8 = 1;
/// In the old table: a start whose replica was seen.
pub(crate) const TAKEN: u8 = 2;
/// In the new table: a field that has yet to be compared.
pub(crate) const DUE: u8 = 3;

/// A link modulo this number, which is its low 32 bits, is the place that it claims. The checker does not read the other bits.
const PLACES: u64 = 1 << 32;

/// Returns the header of the object that starts at this place, if one does.
#[inline(always)]
pub(crate) fn header_at(words: &[u64], at: u32) -> Option<Header>
    ensures { MatchOption result ((h : Header) → at < length words.now → read_header (slice_index words.now at) ≡ Some h → ⊥)
        (λ h. (at < length words.now) × (read_header (slice_index words.now at) ≡ Some h)) }
{
    let at = at as usize;
    if at >= words.len() {
        return None;
    }
    read_word(words[at])
}

/// Decodes a header word, as `Header::read` does. The length is the same for both kinds of headers, so it is decoded after the test.
#[inline(always)]
pub(crate) fn read_word(word: u64) -> Option<Header>
    ensures { result ≡ read_header word }
{
    if Header::read(word).is_none() {
        return None;
    }
    Some(Header::of_word(word))
}

/// Returns the header of the next object of a walk, if there is one.
#[inline(always)]
pub(crate) fn next_within(words: &[u64], at: usize) -> Option<Header>
    requires { at < length words.now }
    ensures { MatchOption result ((h : Header) → IsNext at words.now h → ⊥)
        (λ h. (read_header (slice_index words.now at) ≡ Some h) × (at + (h.len + 2) ≤ length words.now)) }
{
    header_in(words[at], words.len() - at)
}

/// Returns the header that is this word, if so many words are enough for its object.
#[inline(always)]
pub(crate) fn header_in(word: u64, left: usize) -> Option<Header>
    ensures { MatchOption result ((h : Header) → read_header word ≡ Some h → h.len + 2 ≤ left → ⊥) (λ h. (read_header word ≡ Some h) × (h.len + 2 ≤ left)) }
{
    let header = read_word(word)?;
    if usize::from(header.len()) + 2 > left {
        return None;
    }
    Some(header)
}

/// Returns the address that the word of a replica's link claims, if it can be one.
#[inline(always)]
pub(crate) fn claim_in(link: u64) -> Option<u32>
    ensures { MatchOption result (1 ≤ link → link < 4294967295 → ⊥) (λ a. (link ≡ a) × (1 ≤ a)) }
{
    if link < 1 {
        return None;
    }
    if link >= u64::from(u32::MAX) {
        return None;
    }
    Some(link as u32)
}

/// Returns the place that the link of the object at `a` claims, which its low 32 bits tell.
#[inline(always)]
pub(crate) fn link_of(old: &[u64], a: u32) -> Option<u32>
    ensures { MatchOption result (link_place a < length old.now → ⊥) (λ b. (link_place a < length old.now) × (slice_index old.now (link_place a) % 2 ^ 32 ≡ b)) }
{
    let link = a as usize + 1;
    if link >= old.len() {
        return None;
    }
    Some((old[link] % PLACES) as u32)
}

/// Returns whether the object at `at` is raw and its field words are those of its original.
#[inline(always)]
pub(crate) fn is_copy(header: Header, old: &[u64], new: &[u64], original: u32, at: usize) -> bool
    requires { at + (header.len + 2) ≤ length new.now }
    ensures copy { IsTrue result → IsCopy old.now new.now header original at }
    ensures whole { IsCopy old.now new.now header original at → fields_place original + header.len ≤ length old.now → IsTrue result }
{
    if !header.is_raw() {
        return false;
    }
    let len = usize::from(header.len());
    let from = original as usize + 2;
    if from + len > old.len() {
        return false;
    }
    let first = at + 2;
    are_equal(&old[from..from + len], &new[first..first + len])
}

// Returns whether both rows of words are equal. It goes on behind the first difference, so that several words are compared at once.
fn are_equal(one: &[u64], other: &[u64]) -> bool
    requires { length one.now ≡ length other.now }
    ensures { IsTrue result ↔ (one.now ≡ other.now) }
{
    let mut same = true;
    for k in 0..one.len() {
        if one[k] != other[k] {
            same = false;
        }
    }
    same
}

/// Adds the codes of an object.
#[inline(always)]
pub(crate) fn add_codes(row: &mut CodeRow, len: u16, due: bool)
    requires { length row.old.codes + (len + 2) ≤ row.old.room }
    ensures codes { row.new.codes ≡ row.old.codes ++ object_codes len (code_of due) }
    ensures room { row.old.room ≤ row.new.room }
{
    if due {
        row.add_due(len);
    } else {
        row.add(START, usize::from(len) + 1);
    }
}

/// Returns the code of a field: `DUE`, or 0 if it is not due.
pub(crate) fn code_of(due: bool) -> u8
    ensures { result ≡ code_of due }
{
    if due { DUE } else { 0 }
}
