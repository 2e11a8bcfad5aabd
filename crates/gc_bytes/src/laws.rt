//! What is spelled is read again.

ghost use Rattle.std.specs.Prelude.{◌≡◌, ◌<◌, ◌≤◌, ◌+◌, ◌*◌, ◌/◌, ◌^◌, ℕ, List, length, Some};
ghost use Rattle.std.specs.List.{All};
ghost use Rattle.gc_bytes.specs.Text.{AreBytes, changed_words, fields_for, overwritten, spelled, text_of};
ghost use Rattle.gc_bytes.specs.Vector.{AreWords, changed_tops, first_top, rewritten, tops_for, vector_fields, words_in, words_of};

/// The words that spell bytes are a text with these bytes. There are as many as `fields_for` says, and each is below 2^63, so a field of a raw object takes
/// it. A text has at most seven bytes for each word.
#[tactic(auto, using(crate::proofs::Spelled::text_again, crate::proofs::Spelled::fields_counted, crate::proofs::Spelled::text_short, crate::proofs::Spelled::all_numbers))]
pub fn texts_are_read_again()
    ensures text { (bytes : List ℕ) → AreBytes bytes → text_of (spelled bytes) ≡ Some bytes }
    ensures fields { (bytes : List ℕ) → length (spelled bytes) ≡ fields_for (length bytes) }
    ensures short { (words bytes : List ℕ) → text_of words ≡ Some bytes → length bytes ≤ 7 * length words }
    ensures numbers { (bytes : List ℕ) → AreBytes bytes → All (λ w. w < 2 ^ 63) (spelled bytes) }
{}

/// Where the words that change are written over those of a text, the words are the text with these bytes from byte `at` on. All others of its bytes are as
/// before, and so is their number. A text has as many words as `fields_for` says, and these words lie within it.
#[tactic(auto, using(crate::proofs::Overwritten::text_changed, crate::proofs::Overwritten::changed_within, crate::proofs::Overwritten::words_counted))]
pub fn changed_texts_are_read_again()
    ensures text { (words text bytes : List ℕ) (at : ℕ) → AreBytes bytes → text_of words ≡ Some text → at + length bytes ≤ length text
        → text_of (overwritten words (at / 7) (changed_words text at bytes)) ≡ Some (overwritten text at bytes) }
    ensures counted { (words text : List ℕ) → text_of words ≡ Some text → length words ≡ fields_for (length text) }
    ensures within { (text bytes : List ℕ) (at : ℕ) → at + length bytes ≤ length text → at / 7 + length (changed_words text at bytes) ≤ fields_for (length text) }
{}

/// The fields that a vector with these words has are a vector with these words. There is one field for each word, and one for each 63 words begun. Fields have
/// as many words as `words_in` says.
#[tactic(auto, using(crate::proofs::Vectors::vector_again, crate::proofs::Vectors::fields_counted, crate::proofs::Vectors::words_per_fields))]
pub fn vectors_are_read_again()
    ensures words { (words : List ℕ) → AreWords words → words_of (vector_fields words) ≡ words }
    ensures fields { (words : List ℕ) → length (vector_fields words) ≡ length words + tops_for (length words) }
    ensures counted { (fields : List ℕ) → length (words_of fields) ≡ words_in (length fields) }
{}

/// Where words were written over those of a vector, the fields are the vector with these words from word `at` on. All others of its words are as before, and
/// so is their number. The fields that change lie within it.
#[tactic(auto, using(crate::proofs::Vectors::words_rewritten, crate::proofs::Vectors::tops_within))]
pub fn changed_vectors_are_read_again()
    ensures words { (fields words : List ℕ) (at : ℕ) → AreWords words → at + length words ≤ words_in (length fields)
        → words_of (rewritten fields at words) ≡ overwritten (words_of fields) at words }
    ensures within { (fields words : List ℕ) (at : ℕ) → at + length words ≤ words_in (length fields)
        → first_top fields at + length (changed_tops fields at words) ≤ length fields }
{}
