//! The tests of gc_cells and gc_concurrent, by their public calls.
#![tactic(auto)]

#[cfg(test)]
mod tests;
