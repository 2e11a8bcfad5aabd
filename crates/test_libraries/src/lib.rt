//! The tests of the libraries. Each module of `tests` has the tests of one library, by its public calls.
#![tactic(auto)]

#[cfg(test)]
mod tests;
