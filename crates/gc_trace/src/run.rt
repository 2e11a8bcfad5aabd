ghost use Rattle.std.specs.Prelude.{◌≡◌, IfOk, OnOk, OnErr};
ghost use Rattle.gc_graph.specs.Limits.{most_words};
ghost use Rattle.gc_model.specs.Runs.{IsEventWithin};
ghost use Rattle.gc_world.specs.History.{answers_of};
ghost use Rattle.gc_world.specs.World.{present};
ghost use Rattle.gc_trace.specs.Grammar.{IsInRange};
ghost use Rattle.gc_trace.specs.Plays.{trace_answers, last_state};
ghost use Rattle.gc_trace.specs.WorldRuns.{Happens, HasRun};
ghost use Rattle.gc_trace.specs.Views.{recording};

use crate::trace::Trace;
use gc_graph::NoMemory;
use gc_model::Event;
use gc_world::{World, histories_grow};
use std::alloc::Global;

/// Performs the event in the world. On `NoMemory` the world is unchanged.
pub fn happen(world: &mut World, event: &Event) -> Result<(), NoMemory>
    requires { IsEventWithin most_words world.old.mutators event.now }
    ensures happened { OnOk result (Happens world.old event.now world.new) }
    ensures refused { OnErr result (world.new ≡ world.old) }
{
    histories_grow();
    match event {
        Event::Mutate { m, op } => match world.mutate(*m, op) {
            Ok(_) => Ok(()),
            Err(fault) => Err(fault),
        },
        Event::Collect(step) => match world.collect(*step) {
            Ok(_) => Ok(()),
            Err(fault) => Err(fault),
        },
    }
}

/// Performs all events of the trace, in order, in a new world, and returns the world.
pub fn run_trace(alloc: Global, trace: &Trace) -> Result<World, NoMemory>
    requires { IsInRange (recording trace.now) }
    ensures run { IfOk result (λ world. HasRun (recording trace.now) world) }
    // Its answers and its state are the core's.
    ensures answers { IfOk result (λ world. answers_of world.entries ≡ trace_answers (recording trace.now)) }
    ensures state { IfOk result (λ world. present world ≡ last_state (recording trace.now)) }
{
    let mut world = World::open(alloc, trace.size, trace.mutators)?;
    for event in &trace.events {
        happen(&mut world, event)?;
    }
    // Here the prover learns that the world's entries are a history.
    let _ = world.history();
    Ok(world)
}
