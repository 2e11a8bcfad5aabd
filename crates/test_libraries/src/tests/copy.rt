mod rows;

ghost use Rattle.std.specs.Prelude.{◌≡◌, ◌≤◌, IfOk};
ghost use Rattle.gc_graph.specs.Limits.{most_words, most_mutators};
ghost use Rattle.gc_copy.specs.Words.{BelongsTo, HasNoLinks};

use gc_copy::{Collection, StepReply};
use gc_graph::{NoMemory, Op, Reply, Slot, View};
use gc_heap::Heap;
use gc_words::{NewAddr, OldAddr, Pair};
use rows::{Row, play, play_idle};
use std::alloc::Global;
use std::process::Abort;
use std::test::Fail;
use test_kit::commands::{get, new, num, own, put, saw};

/// Returns a heap without objects.
fn empty(alloc: Global, size: u32, mutators: u8) -> Result<Heap, NoMemory>
    requires low { 1 ≤ size }
    requires high { size ≤ most_words }
    requires some { 1 ≤ mutators }
    requires few { mutators ≤ most_mutators }
    ensures idle { IfOk result HasNoLinks }
    ensures mutators { IfOk result (λ heap. heap.mutators ≡ mutators) }
{
    Heap::new(alloc, size, mutators)
}

/// Performs the rows and flips. Returns how many pairs there were, the first of them, and the new root word of r0.
fn play_and_flip(
    rt: &impl Abort,
    alloc: Global,
    mut collection: Collection,
    heap: &mut Heap,
    rows: &[Row],
) -> Result<(usize, Option<Pair>, Option<u64>), NoMemory>
    requires belongs { BelongsTo heap.old collection }
    ensures idle { IfOk result (λ _. HasNoLinks heap.new) }
    ensures mutators { heap.new.mutators ≡ heap.old.mutators }
{
    play(rt, &mut collection, heap, rows)?;
    assert!(rt; collection.ready(heap));
    let pairs = collection.pairs(alloc)?;
    let flipped = (pairs.len(), pairs.first().copied());
    let roots = collection.new_roots(alloc, heap)?;
    let r0 = roots.get(16).copied();
    let (_, _) = collection.flip_into(heap, roots);
    Ok((flipped.0, flipped.1, r0))
}

/// Performs the rows and gives the collection up.
fn play_and_drop(
    rt: &impl Abort,
    mut collection: Collection,
    heap: &mut Heap,
    rows: &[Row],
) -> Result<(), NoMemory>
    requires belongs { BelongsTo heap.old collection }
    requires epoch { collection.epoch ≡ 0 }
    ensures idle { IfOk result (λ _. HasNoLinks heap.new) }
    ensures mutators { heap.new.mutators ≡ heap.old.mutators }
{
    play(rt, &mut collection, heap, rows)?;
    collection.drop_into(heap);
    Ok(())
}

#[test]
fn write_while_scanning(rt: HostRuntime) -> Result<(), Fail> {
    let r0 = own(0);
    let r1 = own(1);
    let r2 = own(2);
    let mut heap = empty(rt.alloc(), 32, 1)?;
    let made = [(new(r0, 1, 1), Reply::Made), (num(r1, 9), Reply::Done)];
    play_idle(&rt, &mut heap, &made);
    let collection = Collection::begin(rt.alloc(), &heap)?;
    let rows = [
        Row::Roots(StepReply::Copied),
        Row::Scan(StepReply::Scanned),
        Row::Command(0, put(r0, 0, r1), Reply::Done),
        Row::Scan(StepReply::Passed),
        Row::Ready(false),
        Row::Apply(0, StepReply::Applied),
        Row::Ready(true),
    ];
    let flipped = play_and_flip(&rt, rt.alloc(), collection, &mut heap, &rows)?;
    let copied = Pair {
        old: OldAddr(1),
        new: NewAddr(1),
    };
    assert_eq!(rt; flipped, (1, Some(copied), Some(2)));
    play_idle(&rt, &mut heap, &[(get(r2, r0, 0), saw(9))]);
    Ok(())
}

/// Makes a raw object with two fields in r0, and writes 8 to its first field through r1.
fn raw_eight(rt: &impl Abort, alloc: Global, r0: Slot, r1: Slot) -> Result<Heap, NoMemory>
    ensures idle { IfOk result HasNoLinks }
    ensures mutators { IfOk result (λ heap. heap.mutators ≡ 1) }
{
    let new_raw = Op::NewRaw {
        d: r0,
        kind: 7,
        len: 2,
    };
    let rows = [
        (new_raw, Reply::Made),
        (num(r1, 8), Reply::Done),
        (put(r0, 0, r1), Reply::Done),
    ];
    let mut heap = empty(alloc, 16, 1)?;
    play_idle(rt, &mut heap, &rows);
    Ok(heap)
}

#[test]
fn raw_object_is_written_while_it_is_copied(rt: HostRuntime) -> Result<(), Fail> {
    let r0 = own(0);
    let r1 = own(1);
    let mut heap = raw_eight(&rt, rt.alloc(), r0, r1)?;
    let collection = Collection::begin(rt.alloc(), &heap)?;
    let rows = [
        Row::Roots(StepReply::Copied),
        Row::Command(0, num(r1, 10), Reply::Done),
        Row::Command(0, put(r0, 1, r1), Reply::Done),
        Row::Scan(StepReply::Passed),
        Row::Scan(StepReply::Clean),
        Row::Ready(false),
        Row::Apply(0, StepReply::Applied),
    ];
    let (_, _, root) = play_and_flip(&rt, rt.alloc(), collection, &mut heap, &rows)?;
    assert_eq!(rt; root, Some(2));
    let read = [(get(r1, r0, 0), saw(8)), (get(r1, r0, 1), saw(10))];
    play_idle(&rt, &mut heap, &read);
    Ok(())
}

#[test]
fn refused_write_to_a_raw_object_is_not_logged(rt: HostRuntime) -> Result<(), Fail> {
    let r0 = own(0);
    let r1 = own(1);
    let r2 = own(2);
    let mut heap = raw_eight(&rt, rt.alloc(), r0, r1)?;
    let mut collection = Collection::begin(rt.alloc(), &heap)?;
    let rows = [
        Row::Command(0, put(r0, 1, r2), Reply::NoNumber),
        Row::NextLog(None),
    ];
    play(&rt, &mut collection, &mut heap, &rows)?;
    Ok(())
}

#[test]
fn log_across_two_mutators(rt: HostRuntime) -> Result<(), Fail> {
    let g0 = Slot::shared(0).expect(&rt, "a slot");
    let r0 = own(0);
    let r1 = own(1);
    let mut heap = empty(rt.alloc(), 32, 2)?;
    play_idle(&rt, &mut heap, &[(new(g0, 1, 1), Reply::Made)]);
    let collection = Collection::begin(rt.alloc(), &heap)?;
    let rows = [
        Row::Roots(StepReply::Copied),
        Row::Scan(StepReply::Scanned),
        Row::Scan(StepReply::Passed),
        Row::Command(0, num(r0, 7), Reply::Done),
        Row::Command(0, put(g0, 0, r0), Reply::Done),
        Row::Command(1, Op::Look { s: r0 }, Reply::Saw(View::Nil)),
        Row::Command(1, num(r0, 8), Reply::Done),
        Row::Command(1, put(g0, 0, r0), Reply::Done),
        Row::NextLog(Some(0)),
        // The later write is applied first, and applying the earlier one does not undo it.
        Row::Apply(1, StepReply::Applied),
        Row::Apply(0, StepReply::Applied),
        Row::Apply(0, StepReply::Clean),
        Row::NextLog(None),
    ];
    let (pairs, _, _) = play_and_flip(&rt, rt.alloc(), collection, &mut heap, &rows)?;
    assert_eq!(rt; pairs, 1);
    play_idle(&rt, &mut heap, &[(get(r1, g0, 0), saw(8))]);
    Ok(())
}

#[test]
fn link_left_over(rt: HostRuntime) -> Result<(), Fail> {
    let r0 = own(0);
    let mut heap = empty(rt.alloc(), 16, 1)?;
    play_idle(&rt, &mut heap, &[(new(r0, 2, 1), Reply::Made)]);
    let copied_and_logged = [
        Row::Roots(StepReply::Copied),
        Row::Command(0, put(r0, 0, r0), Reply::Done),
    ];
    let given_up = Collection::begin(rt.alloc(), &heap)?;
    play_and_drop(&rt, given_up, &mut heap, &copied_and_logged)?;
    let collection = Collection::begin(rt.alloc(), &heap)?;
    let rows = [
        Row::Apply(0, StepReply::Clean),
        Row::Roots(StepReply::Copied),
        Row::RootsDone(true),
        Row::ScanDone(false),
        Row::Scan(StepReply::Scanned),
        Row::Scan(StepReply::Passed),
        Row::ScanDone(true),
    ];
    let (pairs, _, root) = play_and_flip(&rt, rt.alloc(), collection, &mut heap, &rows)?;
    assert_eq!(rt; (pairs, root), (1, Some(2)));
    Ok(())
}

#[test]
fn entry_stays_without_room(rt: HostRuntime) -> Result<(), Fail> {
    let r0 = own(0);
    let r1 = own(1);
    let mut heap = empty(rt.alloc(), 16, 1)?;
    play_idle(&rt, &mut heap, &[(new(r0, 1, 1), Reply::Made)]);
    let collection = Collection::begin_sized(rt.alloc(), &heap, 5)?;
    let rows = [
        Row::Roots(StepReply::Copied),
        Row::Scan(StepReply::Scanned),
        Row::Scan(StepReply::Passed),
        Row::Command(0, new(r1, 2, 0), Reply::Made),
        Row::Command(0, put(r0, 0, r1), Reply::Done),
        Row::Apply(0, StepReply::NoRoom),
        Row::Apply(0, StepReply::NoRoom),
        Row::Command(0, Op::Nil { d: r1 }, Reply::Done),
        Row::Command(0, put(r0, 0, r1), Reply::Done),
        Row::Apply(0, StepReply::Applied),
        Row::Apply(0, StepReply::Applied),
        Row::Apply(0, StepReply::Clean),
    ];
    let (pairs, _, _) = play_and_flip(&rt, rt.alloc(), collection, &mut heap, &rows)?;
    assert_eq!(rt; pairs, 1);
    // The mutators' space has the new size.
    assert_eq!(rt; heap.space().size(), 5);
    Ok(())
}

#[test]
fn too_small_for_a_replica(rt: HostRuntime) -> Result<(), Fail> {
    let r0 = own(0);
    let mut heap = empty(rt.alloc(), 7, 1)?;
    play_idle(&rt, &mut heap, &[(new(r0, 3, 4), Reply::Made)]);
    let full = [Row::Roots(StepReply::NoRoom), Row::Ready(false)];
    let small = Collection::begin_sized(rt.alloc(), &heap, 6)?;
    play_and_drop(&rt, small, &mut heap, &full)?;
    let collection = Collection::begin_sized(rt.alloc(), &heap, 12)?;
    let rows = [
        Row::Roots(StepReply::Copied),
        Row::Scan(StepReply::Scanned),
        Row::Scan(StepReply::Scanned),
        Row::Scan(StepReply::Scanned),
        Row::Scan(StepReply::Scanned),
        Row::Scan(StepReply::Passed),
    ];
    let (pairs, _, _) = play_and_flip(&rt, rt.alloc(), collection, &mut heap, &rows)?;
    assert_eq!(rt; pairs, 1);
    assert_eq!(rt; heap.space().free(), 5);
    Ok(())
}
