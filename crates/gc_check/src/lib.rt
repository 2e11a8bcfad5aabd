//! The checker: decides whether a certificate holds of two images, and proves what follows if it does.
#![tactic(auto)]

mod checker;
mod checks;
mod in_c;
mod inference;
mod laws;
mod meet;
mod object;
mod object_table;
mod partners;
mod refusal_parts;
mod shortest_path;
mod starts;
mod tables;
mod text;
mod verdict;
mod verdict_text;
mod visits;

pub use checker::{check, check_sizes, check_wide};
pub use checks::{Checks, ComparesObjects, Sequential};
pub use gc_words::Refusal;
pub use in_c::{DONE, GcflipVerdict, NO_MEMORY, REFUSED};
pub use inference::{Comparison, compare, compare_by, infer};
pub use laws::{certified_is_replicated, small_images_mean_the_same, worked_rows};
pub use shortest_path::{Path, path_to};
pub use tables::Tables;
pub use text::{check_text, check_text_by};
pub use verdict::{CheckFault, RunFault, Verdict, Yes};
pub use verdict_text::write_verdict;
