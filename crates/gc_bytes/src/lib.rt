//! Texts of bytes in the fields of raw objects, seven bytes to a word, and vectors of 64-bit words there, 63 words to 64 fields.
#![tactic(auto)]

mod changing;
mod changing_tops;
mod comparing;
mod laws;
mod parts;
mod reading;
mod spelling;
mod text;
mod vector;

pub use changing::ChangedWords;
pub use changing_tops::ChangedTops;
pub use laws::{
    changed_texts_are_read_again, changed_vectors_are_read_again, texts_are_read_again,
    vectors_are_read_again,
};
pub use spelling::{MOST_BYTES, fields_for, spelled_word};
pub use text::Text;
pub use vector::{changed_tops, first_top, read_words, words_in};
