//! Rows: a test states the events of a world, and the answer to each, as one table. `play` performs the rows in order.

ghost use Rattle.std.specs.Prelude.{◌≡◌, ◌<◌};
ghost use Rattle.gc_graph.specs.Limits.{most_words};
ghost use Rattle.gc_model.specs.Runs.{IsStepWithin};

use gc_copy::{Step, StepReply};
use gc_graph::{MOST_WORDS, NoMemory, Op, Reply};
use gc_world::World;
use std::process::Abort;
use std::thread::Threads;

/// A row of a table: an event or a question, with the answer that the world must give.
#[derive(Clone, Copy, Debug)]
pub enum Row {
    /// The first mutator performs a command.
    Command(Op, Reply),
    /// The collector performs this step.
    Step(Step, StepReply),
    /// The collector performs the useful step, which must be this one.
    Useful(Step, StepReply),
    /// Asks for the useful step, and performs nothing.
    NextUseful(Step),
    /// Asks whether a collection is open.
    IsOpen(bool),
}

/// Performs the rows in order and tests each answer. If `in_threads`, several threads check the flips.
pub fn play(
    rt: &(impl Threads + Sync + Abort),
    world: &mut World,
    in_threads: bool,
    rows: &[Row],
) -> Result<(), NoMemory>
    requires { 0 < world.old.mutators }
    ensures { world.new.mutators ≡ world.old.mutators }
{
    for (place, row) in rows.iter().enumerate() {
        perform(rt, world, in_threads, place, row)?;
    }
    Ok(())
}

/// Performs a row and tests its answer. On `NoMemory` the world is unchanged.
fn perform(
    rt: &(impl Threads + Sync + Abort),
    world: &mut World,
    in_threads: bool,
    place: usize,
    row: &Row,
) -> Result<(), NoMemory>
    requires { 0 < world.old.mutators }
    ensures { world.new.mutators ≡ world.old.mutators }
{
    match row {
        Row::Command(op, reply) => {
            assert_eq!(rt; world.mutate(0, op)?, *reply, "row {place}");
        }
        Row::Step(step, reply) => {
            assert!(rt; step.is_within(MOST_WORDS, world.mutators()), "row {place}");
            let got = collect(rt, world, in_threads, *step)?;
            assert_eq!(rt; got, *reply, "row {place}");
        }
        Row::Useful(step, reply) => {
            assert_eq!(rt; world.collect_useful(rt)?, (*step, *reply), "row {place}");
        }
        Row::NextUseful(step) => assert_eq!(rt; world.useful_step(), *step, "row {place}"),
        Row::IsOpen(open) => assert_eq!(rt; world.is_open(), *open, "row {place}"),
    }
    Ok(())
}

/// Performs a collector step. If `in_threads`, several threads check its flip.
fn collect(
    rt: &(impl Threads + Sync),
    world: &mut World,
    in_threads: bool,
    step: Step,
) -> Result<StepReply, NoMemory>
    requires { IsStepWithin most_words world.old.mutators step }
    ensures { world.new.mutators ≡ world.old.mutators }
{
    if in_threads {
        world.collect_par(rt, step)
    } else {
        world.collect(step)
    }
}
