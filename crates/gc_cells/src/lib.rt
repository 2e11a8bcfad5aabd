//! Words that threads share, each of which changes in single atomic steps. A table takes over the words of a plain vector, and gives them back. The crate is
//! a fork of the toolchain's `atomic_table`, whose tables copy the words with which they begin.
#![tactic(auto)]

mod send_lease;
mod shared;
mod shell;
mod steps;
mod strip;
mod table;

pub use shared::{Seat, Shared, TableRule};
pub use table::Table;
