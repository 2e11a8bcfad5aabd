//! The subcommands, each on any reader and writer.

mod check;
mod plays;
mod threads;

pub use check::check_from;
pub use plays::{pair_from, play_from, report_from};
pub use threads::{ThreadsRunFault, threads_from, threads_run};
