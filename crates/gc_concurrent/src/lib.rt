//! A heap of objects that a mutator reads and writes while a collector's thread copies it into a space of its own.
#![tactic(auto)]

mod addresses;
mod beside;
mod bulk;
mod cells;
mod checking;
mod commands;
mod copier;
mod ended;
mod handshake;
mod held;
mod loads;
mod logging;
mod machine;
mod moves;
mod mutator;
mod next;
mod places;
mod plays;
mod runs;
mod spare;
mod turns;
mod watching;

pub use beside::{CutReplies, beside_collector};
pub use commands::Commander;
pub use copier::Work;
pub use handshake::{
    Asking, Collector, Holding, Runner, Unflipped, Waiting, open, open_checked, open_with,
};
pub use held::NoFlip;
pub use logging::logs_are_bounded;
pub use moves::{Moves, flips_tell_moves};
pub use runs::{CutShort, mutate, mutate_all, runs_reply_alike, what_is_shown_stays};
pub use turns::Turns;
