//! Rows: a test lists what happens to an open collection, with the answers, as a table. `play` performs the rows in
//! order.

ghost use Rattle.std.specs.Prelude.{◌≡◌, ◌<◌};
ghost use Rattle.gc_copy.specs.Words.{BelongsTo, HasNoLinks};

use gc_copy::{Collection, StepReply, commands_keep_collections};
use gc_graph::{NoMemory, Op, Reply};
use gc_heap::Heap;
use std::fmt::Debug;
use std::process::Abort;

/// A row of a table: a command, a step or a question, with the answer that the collection must give.
#[derive(Clone, Copy)]
pub enum Row {
    /// This mutator performs a command.
    Command(u8, Op, Reply),
    /// The first root whose target has no replica is copied.
    Roots(StepReply),
    /// The field at the scan pointer is brought up to date.
    Scan(StepReply),
    /// The oldest entry of this mutator's log is applied.
    Apply(u8, StepReply),
    /// Asks which mutator's log has an entry.
    NextLog(Option<u8>),
    /// Asks whether each root's target has a replica.
    RootsDone(bool),
    /// Asks whether the scan pointer is at the end.
    ScanDone(bool),
    /// Asks whether the collection may flip.
    Ready(bool),
}

/// Performs commands of the first mutator while no collection is open, and tests each reply.
pub fn play_idle(rt: &impl Abort, heap: &mut Heap, rows: &[(Op, Reply)])
    requires mutator { 0 < heap.old.mutators }
    requires idle { HasNoLinks heap.old }
    ensures idle { HasNoLinks heap.new }
    ensures mutators { heap.new.mutators ≡ heap.old.mutators }
{
    for (place, (op, reply)) in rows.iter().enumerate() {
        expect(rt, place, command(heap, op), *reply);
    }
}

/// Performs a command of the first mutator while no collection is open.
fn command(heap: &mut Heap, op: &Op) -> Reply
    requires mutator { 0 < heap.old.mutators }
    requires idle { HasNoLinks heap.old }
    ensures idle { HasNoLinks heap.new }
    ensures mutators { heap.new.mutators ≡ heap.old.mutators }
{
    commands_keep_collections();
    heap.apply(0, op)
}

/// Performs the rows in order and tests each answer.
pub fn play(
    rt: &impl Abort,
    collection: &mut Collection,
    heap: &mut Heap,
    rows: &[Row],
) -> Result<(), NoMemory>
    requires { BelongsTo heap.old collection.old }
    ensures belongs { BelongsTo heap.new collection.new }
    ensures mutators { heap.new.mutators ≡ heap.old.mutators }
    ensures epoch { collection.new.epoch ≡ collection.old.epoch }
{
    for (place, row) in rows.iter().enumerate() {
        perform(rt, collection, heap, place, row)?;
    }
    Ok(())
}

/// Performs a row and tests its answer.
fn perform(
    rt: &impl Abort,
    collection: &mut Collection,
    heap: &mut Heap,
    place: usize,
    row: &Row,
) -> Result<(), NoMemory>
    requires { BelongsTo heap.old collection.old }
    ensures belongs { BelongsTo heap.new collection.new }
    ensures mutators { heap.new.mutators ≡ heap.old.mutators }
    ensures epoch { collection.new.epoch ≡ collection.old.epoch }
{
    match row {
        Row::Command(m, op, reply) => {
            assert!(rt; *m < heap.mutators(), "row {place}");
            expect(rt, place, mutate(collection, heap, *m, op)?, *reply);
        }
        Row::Roots(reply) => expect(rt, place, collection.roots(heap), *reply),
        Row::Scan(reply) => expect(rt, place, collection.scan(heap), *reply),
        Row::Apply(m, reply) => {
            assert!(rt; *m < heap.mutators(), "row {place}");
            expect(rt, place, collection.apply_log(*m, heap), *reply);
        }
        Row::NextLog(m) => expect(rt, place, collection.next_log(), *m),
        Row::RootsDone(done) => expect(rt, place, collection.roots_done(heap), *done),
        Row::ScanDone(done) => expect(rt, place, collection.scan_done(), *done),
        Row::Ready(ready) => expect(rt, place, collection.ready(heap), *ready),
    }
    Ok(())
}

/// Tests that the answer at this place of a table is the one in the row.
fn expect<T: Copy + PartialEq + Debug>(rt: &impl Abort, place: usize, got: T, want: T) {
    assert_eq!(rt; got, want, "row {place}");
}

/// Performs a command of mutator `m` while the collection is open.
fn mutate(collection: &mut Collection, heap: &mut Heap, m: u8, op: &Op) -> Result<Reply, NoMemory>
    requires belongs { BelongsTo heap.old collection.old }
    requires mutator { m < heap.old.mutators }
    ensures belongs { BelongsTo heap.new collection.new }
    ensures mutators { heap.new.mutators ≡ heap.old.mutators }
    ensures epoch { collection.new.epoch ≡ collection.old.epoch }
{
    commands_keep_collections();
    let Op::Put { s, i, t } = *op else {
        return Ok(heap.apply(m, op));
    };
    collection.reserve(m)?;
    Ok(collection.put(heap, m, s, i, t))
}
