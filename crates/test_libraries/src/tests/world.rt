mod entries;
mod rows;

use gc_copy::{Step, StepReply};
use gc_graph::{Number, Op, Reply, Slot, View};
use gc_words::{NewAddr, OldAddr, Pair};
use gc_world::World;
use rows::{Row, play};
use std::alloc::Global;
use std::process::Abort;
use std::test::Fail;
use std::thread::Threads;
use test_kit::commands::new;

/// Returns the rows of a run that collects a full heap and then allocates again.
fn full_and_collected(r0: Slot, r1: Slot) -> [Row; 16] {
    [
        Row::NextUseful(Step::Begin),
        Row::Command(new(r0, 1, 2), Reply::Made),
        Row::Command(new(r0, 1, 2), Reply::Made),
        Row::Command(new(r1, 0, 0), Reply::Full),
        Row::Step(Step::Begin, StepReply::Begun),
        Row::IsOpen(true),
        Row::Step(Step::Roots, StepReply::Copied),
        Row::NextUseful(Step::Scan),
        Row::Step(Step::Scan, StepReply::Scanned),
        Row::Step(Step::Scan, StepReply::Scanned),
        Row::Step(Step::Scan, StepReply::Passed),
        Row::Step(Step::Scan, StepReply::Clean),
        Row::Step(Step::Roots, StepReply::Clean),
        Row::Step(Step::Flip, StepReply::Flipped { pairs: 1 }),
        Row::IsOpen(false),
        Row::Command(new(r1, 0, 0), Reply::Made),
    ]
}

fn collect_when_full(
    rt: &(impl Threads + Sync + Abort),
    alloc: Global,
    in_threads: bool,
) -> Result<(), Fail> {
    let r0 = Slot::own(0).ok_or("slot")?;
    let r1 = Slot::own(1).ok_or("slot")?;
    let rows = full_and_collected(r0, r1);
    let mut world = World::open(alloc, 9, 1)?;
    play(rt, &mut world, in_threads, &rows)?;
    assert_eq!(rt; world.history().len(), 12);
    assert_eq!(rt; world.heap().space().free(), 2);
    Ok(())
}

#[test]
fn collect_when_full_by_one_thread(rt: HostRuntime) -> Result<(), Fail> {
    collect_when_full(&rt, rt.alloc(), false)
}

#[test]
fn collect_when_full_in_threads(rt: HostRuntime) -> Result<(), Fail> {
    collect_when_full(&rt, rt.alloc(), true)
}

#[test]
fn a_flip_keeps_its_pair(rt: HostRuntime) -> Result<(), Fail> {
    let r0 = Slot::own(0).ok_or("slot")?;
    let mut world = World::open(rt.alloc(), 9, 1)?;
    assert!(rt; world.take_flip().is_none());
    let rows = [
        Row::Command(new(r0, 1, 2), Reply::Made),
        Row::Command(new(r0, 1, 2), Reply::Made),
        Row::Step(Step::Begin, StepReply::Begun),
        Row::Step(Step::Roots, StepReply::Copied),
        Row::Step(Step::Scan, StepReply::Scanned),
        Row::Step(Step::Scan, StepReply::Scanned),
        Row::Step(Step::Scan, StepReply::Passed),
        Row::Step(Step::Flip, StepReply::Flipped { pairs: 1 }),
    ];
    play(&rt, &mut world, false, &rows)?;
    let file = world.take_flip().ok_or("no pair")?;
    let old = [0u64, 16842754, 0, 0, 0, 16842754, 1, 0, 0];
    assert_eq!(rt; file.old.words.as_slice(), old.as_slice());
    assert_eq!(rt; file.old.roots.get(16).copied(), Some(10));
    let new = [0u64, 16842754, 5, 0, 0];
    assert_eq!(rt; file.new.words.as_slice(), new.as_slice());
    assert_eq!(rt; file.new.roots.get(16).copied(), Some(2));
    let pairs = [Pair {
        old: OldAddr(5),
        new: NewAddr(1),
    }];
    assert_eq!(rt; file.pairs.as_slice(), pairs.as_slice());
    assert!(rt; world.take_flip().is_none());
    Ok(())
}

#[test]
fn a_flip_of_nothing_keeps_an_empty_certificate(rt: HostRuntime) -> Result<(), Fail> {
    let mut world = World::open(rt.alloc(), 8, 1)?;
    let rows = [
        Row::Step(Step::Begin, StepReply::Begun),
        Row::Step(Step::Flip, StepReply::Flipped { pairs: 0 }),
    ];
    play(&rt, &mut world, false, &rows)?;
    let file = world.take_flip().ok_or("no pair")?;
    assert!(rt; file.pairs.is_empty());
    assert!(rt; world.take_flip().is_none());
    Ok(())
}

/// Writes to a field that is already scanned, and applies the log entry before the flip.
fn write_while_scanning(
    rt: &(impl Threads + Sync + Abort),
    alloc: Global,
    in_threads: bool,
) -> Result<(), Fail> {
    let r0 = Slot::own(0).ok_or("slot")?;
    let r1 = Slot::own(1).ok_or("slot")?;
    let r2 = Slot::own(2).ok_or("slot")?;
    let nine = Number::new(9).ok_or("number")?;
    let put = Op::Put { s: r0, i: 0, t: r1 };
    let get = Op::Get { d: r2, s: r0, i: 0 };
    let mut world = World::open(alloc, 32, 1)?;
    let rows = [
        Row::Command(new(r0, 1, 1), Reply::Made),
        Row::Command(Op::Num { d: r1, n: nine }, Reply::Done),
        Row::Step(Step::Begin, StepReply::Begun),
        Row::Step(Step::Roots, StepReply::Copied),
        Row::Step(Step::Scan, StepReply::Scanned),
        Row::Command(put, Reply::Done),
        Row::Step(Step::Scan, StepReply::Passed),
        Row::Step(Step::Flip, StepReply::NotReady),
        Row::NextUseful(Step::Apply(0)),
        Row::Step(Step::Apply(0), StepReply::Applied),
        Row::NextUseful(Step::Flip),
        Row::Step(Step::Flip, StepReply::Flipped { pairs: 1 }),
        Row::Command(get, Reply::Saw(View::Num(nine))),
    ];
    play(rt, &mut world, in_threads, &rows)?;
    Ok(())
}

#[test]
fn write_while_scanning_by_one_thread(rt: HostRuntime) -> Result<(), Fail> {
    write_while_scanning(&rt, rt.alloc(), false)
}

#[test]
fn write_while_scanning_in_threads(rt: HostRuntime) -> Result<(), Fail> {
    write_while_scanning(&rt, rt.alloc(), true)
}

#[test]
fn steps_without_a_collection(rt: HostRuntime) -> Result<(), Fail> {
    let mut world = World::open(rt.alloc(), 16, 1)?;
    let rows = [
        Row::Step(Step::Scan, StepReply::Idle),
        Row::Step(Step::Apply(0), StepReply::Idle),
        Row::Step(Step::Roots, StepReply::Idle),
        Row::Step(Step::Flip, StepReply::Idle),
        Row::Step(Step::Drop, StepReply::Idle),
        Row::Step(Step::BeginSized(8), StepReply::Begun),
        Row::Step(Step::Begin, StepReply::Busy),
        Row::Step(Step::Flip, StepReply::Flipped { pairs: 0 }),
    ];
    play(&rt, &mut world, false, &rows)?;
    assert_eq!(rt; world.size(), 16);
    assert_eq!(rt; world.heap().space().size(), 8);
    assert_eq!(rt; world.mutators(), 1);
    Ok(())
}

#[test]
fn useful_steps(rt: HostRuntime) -> Result<(), Fail> {
    let r0 = Slot::own(0).ok_or("slot")?;
    let put = Op::Put { s: r0, i: 0, t: r0 };
    let mut world = World::open(rt.alloc(), 8, 1)?;
    let rows = [
        Row::Command(new(r0, 0, 1), Reply::Made),
        Row::Step(Step::Scan, StepReply::Idle),
        Row::Step(Step::Apply(0), StepReply::Idle),
        Row::Useful(Step::Begin, StepReply::Begun),
        Row::Useful(Step::Roots, StepReply::Copied),
        Row::Useful(Step::Scan, StepReply::Scanned),
        Row::Useful(Step::Scan, StepReply::Passed),
        Row::Command(put, Reply::Done),
        Row::Useful(Step::Apply(0), StepReply::Applied),
        Row::Useful(Step::Flip, StepReply::Flipped { pairs: 1 }),
    ];
    play(&rt, &mut world, true, &rows)?;
    assert_eq!(rt; world.history().len(), 10);
    Ok(())
}
