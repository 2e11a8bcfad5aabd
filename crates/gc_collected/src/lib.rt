//! The collected heap: mutator commands, collector steps and checked flips, with a monitor or without one. It keeps no history.
#![tactic(auto)]

mod barrier;
mod bytes;
mod checking;
mod checks;
mod collected_heap;
mod commands;
mod copying;
mod extra_roots;
mod filling;
mod flip;
mod flipping;
mod giving;
mod into;
mod known;
mod laws;
mod mixed;
mod numbers;
mod performing;
mod places;
mod reading;
mod referring;
mod rooms;
mod spreading;
mod steps;
mod values;
mod vectors;
mod viewing;
mod watching;
mod writing;

pub use checking::Finding;
pub use checks::{Checking, FlipChecks};
pub use collected_heap::CollectedHeap;
pub use filling::RootRow;
pub use flip::Keep;
pub use giving::{FieldValue, ValueRow};
pub use laws::{
    flips_are_counted, runs_are_legal, written_texts_are_read_again, written_vectors_are_read_again,
};
pub use mixed::{FieldSource, SourceRow};
pub use reading::NewSpace;
pub use steps::Choice;
pub use values::Plain;
