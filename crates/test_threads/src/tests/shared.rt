mod all_seats;
mod closing;
mod counted_gates;
mod gates;
mod rows;

use gc_copy::{Step, StepReply};
use gc_graph::{Number, Op, Reply, Slot, View};
use gc_shared::{CallFault, CloseKind, Receipt, Seat, Shared, ThreadsFault};
use gc_world::{Answer, Entry, Event};
use rows::{Opened, Row, fresh, is_history_of, play, two_seats};
use std::alloc::Global;
use std::fmt::Display;
use std::process::Abort;
use std::sync::Wait;
use std::test::Fail;
use std::thread::{Threads, join};

/// Returns the rows of a run in which the mutator writes to an object that is already copied.
fn write_while_scanning(r0: Slot) -> [Row; 10] {
    let new = Op::New {
        d: r0,
        kind: 0,
        len: 1,
    };
    [
        Row::Call(new, Reply::Made),
        Row::Step(Step::Scan, StepReply::Idle),
        Row::Step(Step::Apply(0), StepReply::Idle),
        Row::Useful(Step::Begin, StepReply::Begun),
        Row::Useful(Step::Roots, StepReply::Copied),
        Row::Useful(Step::Scan, StepReply::Scanned),
        Row::Useful(Step::Scan, StepReply::Passed),
        Row::Call(write_of(r0), Reply::Done),
        Row::Useful(Step::Apply(0), StepReply::Applied),
        Row::Useful(Step::Flip, StepReply::Flipped { pairs: 1 }),
    ]
}

/// Returns the command that writes a reference to the object in `r0` to that object's first field.
fn write_of(r0: Slot) -> Op {
    Op::Put { s: r0, i: 0, t: r0 }
}

#[test]
fn one_seat_of_each_kind(rt: HostRuntime) -> Result<(), Fail> {
    let r0 = Slot::own(0).ok_or("slot")?;
    let rows = write_while_scanning(r0);
    let mut opened = fresh(rt.alloc())?;
    assert!(rt; are_fresh(&opened));
    assert!(rt; refuses_the_wrong_seats(&rt, &mut opened, r0));
    play(&rt, &mut opened, &rows);
    assert!(rt; has_receipts_of_the_write(&opened, r0));
    let seats = two_seats(rt.alloc(), opened.collector, opened.mutator)?;
    let world = opened.shared.close(seats).map_err(|fault| fault.kind)?;
    assert!(rt; is_history_of(world.history(), &rows));
    Ok(())
}

/// Returns whether the seats are the mutator's and the collector's, in this order, and the mutator's has no receipts.
fn are_fresh(opened: &Opened) -> bool {
    let mutator = &opened.mutator;
    let collector = &opened.collector;
    opened.shared.mutators() == 1
        && (
            mutator.number(),
            mutator.is_mutator(),
            mutator.receipts().len(),
        ) == (0, true, 0)
        && (collector.number(), collector.is_mutator()) == (1, false)
}

/// Returns whether the collector's seat may make no command, the mutator's no step, and neither a step whose log does
/// not exist.
fn refuses_the_wrong_seats<R: Threads + Wait + Sync>(
    rt: &R,
    opened: &mut Opened,
    r0: Slot,
) -> bool {
    let shared = &opened.shared;
    shared.call(rt, &mut opened.collector, &Op::Nil { d: r0 }) == Err(CallFault::NotAMutator)
        && shared.step(rt, &mut opened.mutator, Step::Scan) == Err(CallFault::NotACollector)
        && shared.useful(rt, &mut opened.mutator) == Err(CallFault::NotACollector)
        && shared.step(rt, &mut opened.collector, Step::Apply(1)) == Err(CallFault::NoSuchMutator)
}

/// Returns whether the mutator's seat has two receipts, the last of the write, which is the eighth event, and the
/// collector's seat the eight others.
fn has_receipts_of_the_write(opened: &Opened, r0: Slot) -> bool {
    let receipts = opened.mutator.receipts();
    receipts.len() == 2
        && opened.collector.receipts().len() == 8
        && receipts
            .last()
            .is_some_and(|written| is_of_the_write(written, write_of(r0)))
}

/// Returns whether the receipt is that of the write.
fn is_of_the_write(receipt: &Receipt, put: Op) -> bool {
    receipt.place() == 7
        && receipt.event() == Event::Mutate { m: 0, op: put }
        && receipt.answer() == Answer::Mutator(Reply::Done)
        && receipt.entry() == Entry::command(0, &put, &Reply::Done)
}

#[test]
fn a_seat_of_another_opening(rt: HostRuntime) -> Result<(), Fail> {
    let _named = View::Nil;
    let alloc = rt.alloc();
    let nil = Op::Nil {
        d: Slot::own(0).ok_or("slot")?,
    };
    let (x, mut of_x) = Shared::open(alloc, 8, 1, 0)?;
    let (y, of_y) = Shared::open(alloc, 8, 1, 0)?;
    let (z, of_z) = Shared::open(alloc, 8, 1, 0)?;
    let mut seat = of_x.pop().ok_or("one seat")?;
    assert!(rt; y.call(&rt, &mut seat, &nil) == Ok(Reply::Done));
    of_x.push(seat)?;
    expect_fault(&rt, x, of_x, CloseKind::Torn { seat: 0, n: 0 }, 0);
    expect_fault(&rt, y, of_y, CloseKind::Extra, 1);
    expect_fault(&rt, z, Vec::new(alloc), CloseKind::Seats, 0);
    drop(of_z);
    Ok(())
}

/// Asserts that closing these seats finds this fault, and returns a world with this many events.
fn expect_fault(rt: &impl Abort, shared: Shared, seats: Vec<Seat>, kind: CloseKind, events: usize) {
    match shared.close(seats) {
        Ok(_world) => panic!(rt; "closed"),
        Err(fault) => {
            assert_eq!(rt; fault.kind, kind);
            assert_eq!(rt; fault.world.history().len(), events);
        }
    }
}

#[test]
fn three_seats_in_threads(rt: HostRuntime) -> Result<(), Fail> {
    let _named = View::Nil;
    let (shared, mut seats) = Shared::open(rt.alloc(), 512, 2, 1)?;
    let collector = seats.pop().ok_or("three seats")?;
    let second = seats.pop().ok_or("three seats")?;
    let first = seats.pop().ok_or("three seats")?;
    let (make, write) = make_and_write()?;
    let (first, (second, collector)) = join(
        &rt,
        || commands(&rt, &shared, first, &make),
        || {
            join(
                &rt,
                || commands(&rt, &shared, second, &write),
                || steps(&rt, &shared, collector),
            )
        },
    );
    seats.push(first)?;
    seats.push(second)?;
    seats.push(collector)?;
    let world = shared.close(seats).map_err(|fault| fault.kind)?;
    assert_eq!(rt; world.history().len(), 300);
    Ok(())
}

/// Returns the commands of two mutators. The first makes a shared object, the second writes its field and reads it.
fn make_and_write() -> Result<([Op; 2], [Op; 2]), Fail> {
    let g0 = Slot::shared(0).ok_or("slot")?;
    let r0 = Slot::own(0).ok_or("slot")?;
    let seven = Number::new(7).ok_or("number")?;
    let make = [
        Op::New {
            d: g0,
            kind: 3,
            len: 1,
        },
        Op::Num { d: r0, n: seven },
    ];
    let write = [
        Op::Put { s: g0, i: 0, t: g0 },
        Op::Get { d: r0, s: g0, i: 0 },
    ];
    Ok((make, write))
}

/// Performs the two commands fifty times.
fn commands(rt: &(impl Wait + Abort), shared: &Shared, mut seat: Seat, ops: &[Op; 2]) -> Seat {
    for _ in 0..50 {
        assert!(rt; shared.call(rt, &mut seat, &ops[0]).is_ok());
        assert!(rt; shared.call(rt, &mut seat, &ops[1]).is_ok());
    }
    seat
}

/// Performs a hundred useful steps.
fn steps(rt: &(impl Threads + Wait + Abort + Sync), shared: &Shared, mut seat: Seat) -> Seat {
    for _ in 0..100 {
        assert!(rt; shared.useful(rt, &mut seat).is_ok());
    }
    seat
}

/// Asserts that the fault is shown by this text.
fn expect_text(
    rt: &impl Abort,
    alloc: Global,
    fault: &impl Display,
    text: &str,
) -> Result<(), Fail> {
    assert_eq!(rt; fault.to_string(alloc)?.as_str(), text);
    Ok(())
}

#[test]
fn faults_have_their_texts(rt: HostRuntime) -> Result<(), Fail> {
    let alloc = rt.alloc();
    let gate = ThreadsFault::Gate { seat: 2, n: 40 };
    let torn = ThreadsFault::Close(CloseKind::Torn { seat: 1, n: 17 });
    expect_text(&rt, alloc, &gate, "threads: gate at seat 2 call 40")?;
    expect_text(
        &rt,
        alloc,
        &ThreadsFault::NotStarted,
        "threads: not started",
    )?;
    expect_text(&rt, alloc, &torn, "close: torn seat 1 receipt 17")?;
    expect_text(&rt, alloc, &CloseKind::Seats, "close: seats")?;
    expect_text(&rt, alloc, &CloseKind::Extra, "close: extra")?;
    expect_text(&rt, alloc, &CallFault::NoMemory, "no memory")?;
    Ok(())
}
