//! The model of a collection, without a word of memory: its states, its steps, the runs of a heap with its collector, and laws of
//! them. gc_copy does on words what the model says.
#![tactic(auto)]

mod event;
mod laws;
mod step;

pub use event::{Answer, Event};
pub use laws::{
    answers_tell_changes, belonging_stays, images_have_their_graphs, links_tell_replicas,
    only_live_is_carried, ready_flips_pass, room_suffices, root_replicas_stay,
    scans_and_pairs_are_bounded, states_stay, useful_steps_end, worked_rows,
};
pub use step::{Step, StepReply};
