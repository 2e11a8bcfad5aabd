//! Roots with twins: while a collection is open, each extra root has a twin, the word that it will be after the flip. A flip swaps the two rows.
#![tactic(auto)]

mod due;
mod laws;
mod root_looks;
mod root_twins;

pub use laws::{
    a_done_row_is_the_new_roots, commands_keep_twins, looks_outlast_pairs, steps_keep_twins,
    twins_are_alike, writes_ask_for_looks,
};
pub use root_looks::{RootLooks, RootWatcher};
pub use root_twins::{LookedAt, RootTwins};
