//! Mutator commands and replies, the machine without a collector that defines what they mean, and the streams of bytes that texts are read from and written to.
#![tactic(auto)]

mod command;
mod laws;
mod limits;
mod no_memory;
mod number;
mod objects;
mod plain;
mod reply;
mod sink;
mod slot;
mod source;

pub use command::Op;
pub use laws::{corresponding_graphs_reply_alike, names_do_not_matter, worked_rows};
pub use limits::{MOST_MUTATORS, MOST_WORDS, SLOTS_EACH};
pub use no_memory::NoMemory;
pub use number::Number;
pub use plain::{Plain, object_words};
pub use reply::{Reply, View};
pub use sink::Sink;
pub use slot::{Slot, root_count};
pub use source::{Failed, Source};
