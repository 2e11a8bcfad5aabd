//! Tests that make each allocation of a call fail in turn. They need the refusing allocator of `tests/program`, which
//! `tests/run` loads before them; without it each call is made once, with enough memory.
#![tactic(auto)]

#[cfg(test)]
mod tests;
