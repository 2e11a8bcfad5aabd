//! The mutators' heap: a space of words and roots. Each command does exactly what the machine without a collector does.
#![tactic(auto)]

mod heap;
mod options;
mod reading;
mod taken;

pub use heap::Heap;
pub use options::{HeapOptions, MOST_EXTRA_ROOTS};
pub use reading::{are_numbers, field_word, object_view, root_word, view};
pub use taken::Fetched;
