//! Tests of closing: whatever the seats are, the returned world is the one behind the lock, with its history and its
//! kept pair.

use super::rows::{Opened, Row, fresh, play, two_seats};
use gc_copy::{Step, StepReply};
use gc_graph::{Op, Reply, Slot};
use gc_shared::{CloseFault, CloseKind, Shared};
use gc_world::World;
use std::alloc::Global;
use std::process::Abort;
use std::sync::Wait;
use std::test::Fail;
use std::thread::Threads;

/// Returns a world that has begun a collection and flipped, so it has two events and keeps a pair.
fn flipped(rt: &(impl Threads + Wait + Abort + Sync), alloc: Global) -> Result<Opened, Fail> {
    let mut opened = fresh(alloc)?;
    let rows = [
        Row::Useful(Step::Begin, StepReply::Begun),
        Row::Useful(Step::Flip, StepReply::Flipped { pairs: 0 }),
    ];
    play(rt, &mut opened, &rows);
    Ok(opened)
}

/// The same world after another collection that was given up, a third one that is open, and 200 commands.
fn flipped_long_ago(
    rt: &(impl Threads + Wait + Abort + Sync),
    alloc: Global,
) -> Result<Opened, Fail> {
    let nil = Op::Nil {
        d: Slot::own(0).ok_or("slot")?,
    };
    let mut opened = flipped(rt, alloc)?;
    let rows = [
        Row::Step(Step::Begin, StepReply::Begun),
        Row::Step(Step::Drop, StepReply::Dropped),
        Row::Useful(Step::Begin, StepReply::Begun),
    ];
    play(rt, &mut opened, &rows);
    for _ in 0..200 {
        play(rt, &mut opened, &[Row::Call(nil, Reply::Done)]);
    }
    Ok(opened)
}

/// Asserts that the world has this many mutators, all its events and its pair.
fn expect_whole(rt: &impl Abort, mut world: World, mutators: u8, events: usize) {
    assert!(rt; world.size() == 32 && world.mutators() == mutators);
    assert_eq!(rt; world.history().len(), events);
    assert!(rt; world.take_flip().is_some());
}

/// Returns the world of a refused closing, which must have this fault.
fn refused(
    rt: &impl Abort,
    closed: Result<World, CloseFault>,
    kind: CloseKind,
) -> Result<World, Fail> {
    match closed {
        Ok(_world) => Err("closed".into()),
        Err(fault) => {
            assert_eq!(rt; fault.kind, kind);
            Ok(fault.world)
        }
    }
}

#[test]
fn its_own_seats(rt: HostRuntime) -> Result<(), Fail> {
    let opened = flipped(&rt, rt.alloc())?;
    let seats = two_seats(rt.alloc(), opened.collector, opened.mutator)?;
    let world = opened.shared.close(seats).map_err(|fault| fault.kind)?;
    expect_whole(&rt, world, 1, 2);
    Ok(())
}

/// A pair stays until `take_flip` takes it, whatever happens after its flip.
#[test]
fn a_pair_outlives_later_events(rt: HostRuntime) -> Result<(), Fail> {
    let opened = flipped_long_ago(&rt, rt.alloc())?;
    let seats = two_seats(rt.alloc(), opened.mutator, opened.collector)?;
    let world = opened.shared.close(seats).map_err(|fault| fault.kind)?;
    expect_whole(&rt, world, 1, 205);
    Ok(())
}

#[test]
fn no_seats(rt: HostRuntime) -> Result<(), Fail> {
    let opened = flipped(&rt, rt.alloc())?;
    let closed = opened.shared.close(Vec::new(rt.alloc()));
    let world = refused(&rt, closed, CloseKind::Seats)?;
    expect_whole(&rt, world, 1, 2);
    Ok(())
}

#[test]
fn no_seats_after_many_events(rt: HostRuntime) -> Result<(), Fail> {
    let opened = flipped_long_ago(&rt, rt.alloc())?;
    let closed = opened.shared.close(Vec::new(rt.alloc()));
    let world = refused(&rt, closed, CloseKind::Seats)?;
    expect_whole(&rt, world, 1, 205);
    Ok(())
}

#[test]
fn no_seats_of_two_mutators(rt: HostRuntime) -> Result<(), Fail> {
    let (shared, mut seats) = Shared::open(rt.alloc(), 32, 2, 1)?;
    let mut collector = seats.pop().ok_or("three seats")?;
    let begun = shared.useful(&rt, &mut collector)?;
    assert!(rt; begun == (Step::Begin, StepReply::Begun));
    let flipped = shared.useful(&rt, &mut collector)?;
    assert!(rt; flipped == (Step::Flip, StepReply::Flipped { pairs: 0 }));
    let closed = shared.close(Vec::new(rt.alloc()));
    let world = refused(&rt, closed, CloseKind::Seats)?;
    expect_whole(&rt, world, 2, 2);
    Ok(())
}

/// Takes the mutator's receipt from another world. Its place is that of a step in this one.
#[test]
fn a_receipt_that_does_not_stand(rt: HostRuntime) -> Result<(), Fail> {
    let nil = Op::Nil {
        d: Slot::own(0).ok_or("slot")?,
    };
    let opened = flipped(&rt, rt.alloc())?;
    let mut other = fresh(rt.alloc())?;
    play(&rt, &mut other, &[Row::Call(nil, Reply::Done)]);
    let seats = two_seats(rt.alloc(), opened.collector, other.mutator)?;
    let closed = opened.shared.close(seats);
    let world = refused(&rt, closed, CloseKind::Torn { seat: 0, n: 0 })?;
    expect_whole(&rt, world, 1, 2);
    Ok(())
}

/// Takes the collector's seat from another world, where it performed no step.
#[test]
fn events_without_receipts(rt: HostRuntime) -> Result<(), Fail> {
    let opened = flipped(&rt, rt.alloc())?;
    let other = fresh(rt.alloc())?;
    let seats = two_seats(rt.alloc(), opened.mutator, other.collector)?;
    let closed = opened.shared.close(seats);
    let world = refused(&rt, closed, CloseKind::Extra)?;
    expect_whole(&rt, world, 1, 2);
    Ok(())
}
