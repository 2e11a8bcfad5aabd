ghost use Rattle.std.specs.Prelude.{◌≡◌, map, IfOk};
ghost use Rattle.gc_model.specs.Runs.{commands_of};
ghost use Rattle.gc_trace.specs.Scripts.{scripts};

use crate::trace::Trace;
use gc_graph::{NoMemory, Op};
use gc_model::Event;
use std::alloc::Global;

/// Returns a script for each mutator: its commands in the trace, in order, without the collector's steps.
pub fn scripts_of(alloc: Global, trace: &Trace) -> Result<Vec<Vec<Op>>, NoMemory>
    ensures { IfOk result (λ made.
        map (λ script. script.items) made.items ≡ scripts trace.now.mutators trace.now.events.items) }
{
    let mut scripts = Vec::new(alloc);
    for m in 0..trace.mutators {
        let script = script_of(alloc, m, &trace.events)?;
        scripts.push(script)?;
    }
    Ok(scripts)
}

// Returns the commands of mutator `m`.
fn script_of(alloc: Global, m: u8, events: &[Event]) -> Result<Vec<Op>, NoMemory>
    ensures { IfOk result (λ script. script.items ≡ commands_of m events.now) }
{
    let mut script = Vec::new(alloc);
    for event in events {
        if let Event::Mutate { m: other, op } = event {
            if *other == m {
                script.push(*op)?;
            }
        }
    }
    Ok(script)
}
