//! The checker in several threads, with the same answers as gc_check's, whatever the threads do.
#![tactic(auto)]

mod checker;
mod inference;
mod parallel;
mod text;

pub use checker::{check_par, check_par_wide};
pub use inference::compare_par;
pub use parallel::Parallel;
pub use text::check_text_par;
