//! Rows: a test states the events of a heap, and the answer to each, as one table. `play` performs the rows in order.

ghost use Rattle.std.specs.Prelude.{◌≡◌, ◌<◌};
ghost use Rattle.gc_model.specs.Runs.{IsStep};

use gc_check::Sequential;
use gc_collected::{CollectedHeap, Keep};
use gc_copy::{Step, StepReply};
use gc_graph::{NoMemory, Op, Reply};
use std::fmt::Debug;
use std::process::Abort;

/// A row of a table: an event or a question, with the answer that the heap must give.
#[derive(Clone, Copy)]
pub enum Row {
    /// The first mutator performs a command.
    Command(Op, Reply),
    /// `collect` performs this step.
    Step(Step, StepReply),
    /// The call named after this step performs it.
    Call(Step, StepReply),
    /// Asks `useful_step`, and performs nothing.
    Useful(Step),
    /// Asks `next_useful_step`, which remembers what it found.
    NextUseful(Step),
}

/// Performs the rows in order and tests each answer.
pub fn play(rt: &impl Abort, heap: &mut CollectedHeap, rows: &[Row]) -> Result<(), NoMemory>
    requires { 0 < heap.old.core.mutators }
    ensures { heap.new.core.mutators ≡ heap.old.core.mutators }
{
    for (place, row) in rows.iter().enumerate() {
        perform(rt, heap, place, row)?;
    }
    Ok(())
}

/// Performs a row and tests its answer. On `NoMemory` the heap is unchanged.
fn perform(
    rt: &impl Abort,
    heap: &mut CollectedHeap,
    place: usize,
    row: &Row,
) -> Result<(), NoMemory>
    requires { 0 < heap.old.core.mutators }
    ensures { heap.new.core.mutators ≡ heap.old.core.mutators }
{
    match row {
        Row::Command(op, reply) => expect(rt, place, heap.mutate(0, op)?, *reply),
        Row::Step(step, reply) => {
            assert!(rt; step.is_within(u32::MAX, heap.mutators()), "row {place}");
            expect(
                rt,
                place,
                heap.collect(&Sequential, *step, Keep::Room)?,
                *reply,
            );
        }
        Row::Call(step, reply) => {
            assert!(rt; step.is_within(u32::MAX, heap.mutators()), "row {place}");
            expect(rt, place, call(heap, *step)?, *reply);
        }
        Row::Useful(step) => expect(rt, place, heap.useful_step(), *step),
        Row::NextUseful(step) => expect(rt, place, heap.next_useful_step(), *step),
    }
    Ok(())
}

/// Tests that the answer to the row at this place is the one that the row states.
fn expect<T: Copy + PartialEq + Debug>(rt: &impl Abort, place: usize, got: T, want: T) {
    assert_eq!(rt; got, want, "row {place}");
}

/// Performs a step by the call named after it.
fn call(heap: &mut CollectedHeap, step: Step) -> Result<StepReply, NoMemory>
    requires { IsStep heap.old.core.mutators step }
    ensures { heap.new.core.mutators ≡ heap.old.core.mutators }
{
    match step {
        Step::Begin => heap.begin(),
        Step::BeginSized(size) => heap.begin_sized(size),
        Step::Roots => Ok(heap.roots()),
        Step::Scan => Ok(heap.scan()),
        Step::Apply(m) => Ok(heap.apply_log(m)),
        Step::Flip => heap.flip(&Sequential, Keep::Room),
        Step::Drop => Ok(heap.give_up()),
    }
}
