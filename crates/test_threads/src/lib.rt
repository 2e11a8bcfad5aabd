//! The tests of gc_shared, by its public calls.
#![tactic(auto)]

#[cfg(test)]
mod tests;
