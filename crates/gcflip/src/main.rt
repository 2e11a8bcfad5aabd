//! The program. It plays traces of a collector and its mutators, reports them, and runs them in threads. It writes the
//! pairs of their flips, and checks pairs of heaps.
#![tactic(auto)]

mod commands;
mod faults;
mod program;
mod task;

use program::run;
use std::process::ExitCode;

fn main(rt: HostRuntime) -> ExitCode {
    ExitCode::from(run(&rt, &rt.stderr()))
}

#[cfg(test)]
mod tests;
