//! Rows: a test states the calls of one mutator's and one collector's seat, and the answer to each, as one table. `play`
//! performs the rows in order.

ghost use Rattle.std.specs.Prelude.{IsTrue};
ghost use Rattle.gc_shared.specs.Seats.{HasSize};

use gc_copy::{Step, StepReply};
use gc_graph::{MOST_WORDS, Op, Reply};
use gc_shared::{Seat, Shared};
use gc_world::Entry;
use std::alloc::Global;
use std::process::Abort;
use std::sync::Wait;
use std::test::Fail;
use std::thread::Threads;

/// A shared world with one seat of each kind.
#[derive(Drop)]
pub struct Opened {
    pub shared: Shared,
    pub mutator: Seat,
    pub collector: Seat,
}

/// A call of one of the two seats, with the answer that it must give.
#[derive(Clone, Copy)]
pub enum Row {
    /// The mutator's seat performs a command.
    Call(Op, Reply),
    /// The collector's seat performs a step.
    Step(Step, StepReply),
    /// The collector's seat performs the useful step, which must be this one.
    Useful(Step, StepReply),
}

/// Opens a world of 32 words for one mutator and one collector.
pub fn fresh(alloc: Global) -> Result<Opened, Fail> {
    let (shared, mut seats) = Shared::open(alloc, 32, 1, 1)?;
    let collector = seats.pop().ok_or("two seats")?;
    let mutator = seats.pop().ok_or("two seats")?;
    Ok(Opened {
        shared,
        mutator,
        collector,
    })
}

/// Returns the seats as `Shared::close` takes them.
pub fn two_seats(alloc: Global, first: Seat, second: Seat) -> Result<Vec<Seat>, Fail> {
    let mut seats = Vec::new(alloc);
    seats.push(first)?;
    seats.push(second)?;
    Ok(seats)
}

/// Performs the rows in order and tests each answer.
pub fn play(rt: &(impl Threads + Wait + Abort + Sync), opened: &mut Opened, rows: &[Row]) {
    for (place, row) in rows.iter().enumerate() {
        assert!(rt; is_answered(rt, opened, row), "row {place}");
    }
}

/// Performs a row, and returns whether it gave the answer of the row.
fn is_answered(rt: &(impl Threads + Wait + Abort + Sync), opened: &mut Opened, row: &Row) -> bool {
    let Opened {
        shared,
        mutator,
        collector,
    } = opened;
    match row {
        Row::Call(op, reply) => shared.call(rt, mutator, op) == Ok(*reply),
        Row::Step(step, reply) => {
            has_size(*step) && shared.step(rt, collector, *step) == Ok(*reply)
        }
        Row::Useful(step, reply) => shared.useful(rt, collector) == Ok((*step, *reply)),
    }
}

/// Returns whether the step's size is in range, as `Shared::step` requires.
fn has_size(step: Step) -> bool
    ensures { IsTrue result → HasSize step }
{
    match step {
        Step::BeginSized(size) => 1 <= size && size <= MOST_WORDS,
        _ => true,
    }
}

/// Returns the entry of the history that the row leaves.
fn entry_of(row: &Row) -> Entry {
    match row {
        Row::Call(op, reply) => Entry::command(0, op, reply),
        Row::Step(step, reply) => Entry::step(*step, *reply),
        Row::Useful(step, reply) => Entry::useful(*step, *reply),
    }
}

/// Returns whether the history is that of the rows.
pub fn is_history_of(history: &[Entry], rows: &[Row]) -> bool {
    if history.len() != rows.len() {
        return false;
    }
    for (entry, row) in history.iter().zip(rows) {
        if *entry != entry_of(row) {
            return false;
        }
    }
    true
}
