//! Reads headers and fields of objects from the words of a space. Links are ignored.

ghost use Rattle.std.specs.Prelude.{◌≡◌, Some, IsOk, IsSome, IsTrue, length};
ghost use Rattle.gc_words.specs.Word.{read_header};
ghost use Rattle.gc_words.specs.Image.{walk_words, is_start, header_at, block_at};

use gc_words::{Addr, Header, field_index};

/// Returns the header word of the object that starts at this place of a space's words.
#[tactic(auto, using(crate::proofs::StartMarks::start_stands, crate::proofs::StartMarks::start_within))]
pub(crate) fn header_word_at(words: &[u64], start: u32) -> u64
    requires walked { IsOk (walk_words words.now) }
    requires start { IsTrue (is_start words.now start) }
    ensures value { read_header result ≡ header_at words.now start }
    ensures header { IsSome (read_header result) }
{
    words[start as usize]
}

/// Returns the fields of the object with this header that starts at this place of a space's words.
pub(crate) fn fields_at(words: &[u64], start: u32, header: Header) -> &[u64]
    requires walked { IsOk (walk_words words.now) }
    requires header { header_at words.now start ≡ Some header }
    ensures object { block_at words.now start ≡ Some (record { header = header; fields = result.now }) }
    ensures count { length result.now ≡ header.len }
{
    let first = field_index(Addr(start), 0);
    &words[first..first + usize::from(header.len())]
}
