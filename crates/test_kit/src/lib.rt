//! What the tests of several crates share: commands and replies in short, and streams that stop or fail.
#![tactic(auto)]

pub mod commands;
pub mod streams;
