//! The tests of gc_trace and gc_par, by their public calls.
#![tactic(auto)]

#[cfg(test)]
mod tests;
