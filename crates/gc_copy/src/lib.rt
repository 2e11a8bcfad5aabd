//! The collector: an open collection of a heap, its steps on words, its mutation logs, and the proof that a ready flip passes the
//! check.
#![tactic(auto)]

mod collection;
mod laws;
mod log;
mod pairs;

pub use collection::{Collection, MissingRoot, Room, StepRun, Swapped, link_mark};
pub use gc_model::{Step, StepReply};
pub use laws::{
    commands_keep_collections, commands_leave_collections, extra_roots_stay,
    heaps_have_addresses_as_names, images_show_links, new_spaces_have_room,
};
pub use log::LogEntry;
pub use pairs::linked_pairs;
