//! The program's faults, with their texts and exit statuses.

mod fault;
mod statuses;

pub use fault::{Fault, write_fault};
