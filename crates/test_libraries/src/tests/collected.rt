mod rows;
mod runs;

ghost use Rattle.std.specs.Prelude.{◌≡◌, IfOk};

use gc_check::Sequential;
use gc_collected::{CollectedHeap, Keep, NewSpace};
use gc_copy::{LogEntry, Step, StepReply};
use gc_graph::{NoMemory, Reply, View};
use gc_words::{NewAddr, OldAddr, Pair};
use rows::{Row, play};
use std::alloc::Global;
use std::process::Abort;
use std::test::Fail;
use test_kit::commands::{get, new, num, own, put, saw};

/// Returns a heap with an open collection, in which a number was written into an object after its field was scanned.
fn written_while_scanning(rt: &impl Abort, alloc: Global) -> Result<CollectedHeap, NoMemory>
    ensures { IfOk result (λ heap. heap.core.mutators ≡ 1) }
{
    let r0 = own(0);
    let r1 = own(1);
    let mut heap = CollectedHeap::open(alloc, 32, 1)?;
    let rows = [
        Row::Command(new(r0, 1, 1), Reply::Made),
        Row::Command(num(r1, 9), Reply::Done),
        Row::Call(Step::Begin, StepReply::Begun),
        Row::Call(Step::Roots, StepReply::Copied),
        Row::Call(Step::Scan, StepReply::Scanned),
        Row::Command(put(r0, 0, r1), Reply::Done),
        Row::Call(Step::Scan, StepReply::Passed),
    ];
    play(rt, &mut heap, &rows)?;
    Ok(heap)
}

/// Flips and keeps the pair. Returns the reply, and of a kept pair how many pairs of objects it has, the first of them,
/// and the new root word of r0.
fn flip_and_keep(
    heap: &mut CollectedHeap,
) -> Result<(StepReply, Option<(usize, Option<Pair>, Option<u64>)>), NoMemory>
    ensures { heap.new.core.mutators ≡ heap.old.core.mutators }
{
    let reply = heap.flip(&Sequential, Keep::Pair)?;
    let kept = heap.take_pair().as_ref().map(|file| {
        (
            file.pairs.len(),
            file.pairs.first().copied(),
            file.new.roots.get(16).copied(),
        )
    });
    Ok((reply, kept))
}

#[test]
fn write_while_scanning(rt: HostRuntime) -> Result<(), Fail> {
    let r0 = own(0);
    let r1 = own(1);
    let mut heap = written_while_scanning(&rt, rt.alloc())?;
    let early = flip_and_keep(&mut heap)?;
    assert!(rt; early == (StepReply::NotReady, None));
    let apply = [
        Row::Useful(Step::Apply(0)),
        Row::Call(Step::Apply(0), StepReply::Applied),
    ];
    play(&rt, &mut heap, &apply)?;
    let copied = Pair {
        old: OldAddr(1),
        new: NewAddr(1),
    };
    let flipped = flip_and_keep(&mut heap)?;
    let kept = Some((1, Some(copied), Some(2)));
    assert!(rt; flipped == (StepReply::Flipped { pairs: 1 }, kept));
    let read = [Row::Command(get(r1, r0, 0), saw(9))];
    play(&rt, &mut heap, &read)?;
    Ok(())
}

#[test]
fn no_collection_to_read(rt: HostRuntime) -> Result<(), Fail> {
    let heap = CollectedHeap::open(rt.alloc(), 32, 1)?;
    assert!(rt; !heap.is_open());
    assert!(rt; heap.new_space() == None && heap.new_words().is_none());
    assert_eq!(rt; (heap.mutators(), heap.log_len(0)), (1, 0));
    Ok(())
}

#[test]
fn readings_of_an_open_collection(rt: HostRuntime) -> Result<(), Fail> {
    let heap = written_while_scanning(&rt, rt.alloc())?;
    assert!(rt; heap.is_open());
    assert_eq!(rt; (heap.size(), heap.end(), heap.free()), (32, 4, 28));
    let scanned = NewSpace {
        size: 32,
        end: 4,
        scan_place: 4,
        scan_field: 0,
    };
    assert!(rt; heap.new_space() == Some(scanned));
    let written = LogEntry {
        object: OldAddr(1),
        field: 0,
    };
    assert!(rt; heap.log_len(0) == 1 && heap.log_entry(0, 0) == Some(written));
    assert!(rt; heap.log_entry(0, 1) == None);
    Ok(())
}

/// Returns the words at two places.
fn words_at(words: &[u64], first: usize, second: usize) -> (Option<u64>, Option<u64>) {
    (words.get(first).copied(), words.get(second).copied())
}

/// Returns the words of the mutators' space, with their exact links.
fn copied_words(alloc: Global, heap: &CollectedHeap) -> Result<Vec<u64>, Fail> {
    let mut words = Vec::from_slice(alloc, heap.image().words)?;
    heap.copy_words(&mut words);
    Ok(words)
}

#[test]
fn words_of_an_open_collection(rt: HostRuntime) -> Result<(), Fail> {
    let heap = written_while_scanning(&rt, rt.alloc())?;
    let words = copied_words(rt.alloc(), &heap)?;
    // The original's link is its replica, and the replica's its original.
    assert_eq!(rt; words_at(&words, 2, 3), (Some(1), Some(19)));
    let new_words = heap.new_words().ok_or("no words")?;
    assert_eq!(rt; words_at(new_words, 2, 3), (Some(1), Some(0)));
    Ok(())
}

#[test]
fn a_flip_that_keeps_room(rt: HostRuntime) -> Result<(), Fail> {
    let mut heap = written_while_scanning(&rt, rt.alloc())?;
    let rows = [Row::Step(Step::Apply(0), StepReply::Applied)];
    play(&rt, &mut heap, &rows)?;
    assert!(rt; heap.former().is_none());
    let reply = heap.flip(&Sequential, Keep::Room)?;
    assert_eq!(rt; reply, StepReply::Flipped { pairs: 1 });
    assert!(rt; heap.take_pair().is_none());
    let went = heap.former().and_then(|room| room.moved(OldAddr(1)));
    assert!(rt; went == Some(NewAddr(1)));
    assert!(rt; !heap.is_open());
    Ok(())
}

#[test]
fn steps_without_a_collection(rt: HostRuntime) -> Result<(), Fail> {
    let mut heap = CollectedHeap::open(rt.alloc(), 16, 1)?;
    let rows = [
        Row::Step(Step::Scan, StepReply::Idle),
        Row::Step(Step::Apply(0), StepReply::Idle),
        Row::Step(Step::Roots, StepReply::Idle),
        Row::Step(Step::Flip, StepReply::Idle),
        Row::Step(Step::Drop, StepReply::Idle),
    ];
    play(&rt, &mut heap, &rows)?;
    Ok(())
}

#[test]
fn dropped_and_begun_once_more(rt: HostRuntime) -> Result<(), Fail> {
    let r0 = own(0);
    let mut heap = CollectedHeap::open(rt.alloc(), 16, 1)?;
    let rows = [
        Row::Command(new(r0, 2, 1), Reply::Made),
        Row::Step(Step::Begin, StepReply::Begun),
        Row::Step(Step::Begin, StepReply::Busy),
        Row::Call(Step::BeginSized(8), StepReply::Busy),
        Row::Step(Step::Roots, StepReply::Copied),
        Row::Command(put(r0, 0, r0), Reply::Done),
        Row::Call(Step::Drop, StepReply::Dropped),
        Row::Step(Step::Begin, StepReply::Begun),
        Row::Step(Step::Apply(0), StepReply::Clean),
        Row::Step(Step::Roots, StepReply::Copied),
        Row::Step(Step::Scan, StepReply::Scanned),
        Row::Step(Step::Scan, StepReply::Passed),
        Row::Useful(Step::Flip),
        Row::Step(Step::Flip, StepReply::Flipped { pairs: 1 }),
    ];
    play(&rt, &mut heap, &rows)?;
    assert_eq!(rt; heap.heap().space().free(), 12);
    Ok(())
}

#[test]
fn a_command_makes_the_roots_be_tested_again(rt: HostRuntime) -> Result<(), Fail> {
    let r0 = own(0);
    let r1 = own(1);
    let mut heap = CollectedHeap::open(rt.alloc(), 16, 1)?;
    let rows = [
        Row::Command(new(r0, 0, 0), Reply::Made),
        Row::NextUseful(Step::Begin),
        Row::Step(Step::Begin, StepReply::Begun),
        Row::NextUseful(Step::Roots),
        Row::Step(Step::Roots, StepReply::Copied),
        Row::NextUseful(Step::Scan),
        Row::Command(new(r1, 1, 0), Reply::Made),
        Row::NextUseful(Step::Roots),
    ];
    play(&rt, &mut heap, &rows)?;
    Ok(())
}

#[test]
fn a_reference_is_made_of_an_address(rt: HostRuntime) -> Result<(), Fail> {
    // The prover knows a reply only if the function names a view.
    let _named = View::Nil;
    let r0 = own(0);
    let r1 = own(1);
    let at = OldAddr(1);
    let mut heap = CollectedHeap::open(rt.alloc(), 16, 1)?;
    assert!(rt; !heap.has_object(at));
    let rows = [
        Row::Command(new(r0, 7, 2), Reply::Made),
        Row::Command(num(r0, 9), Reply::Done),
        Row::Step(Step::Begin, StepReply::Begun),
        Row::NextUseful(Step::Flip),
    ];
    play(&rt, &mut heap, &rows)?;
    assert!(rt; !heap.has_object(OldAddr(0)));
    assert!(rt; !heap.has_object(OldAddr(2)));
    assert!(rt; !heap.has_object(OldAddr(5)));
    assert!(rt; 0 < heap.mutators());
    assert!(rt; heap.has_object(at));
    assert_eq!(rt; heap.refer(0, r1, at), Reply::Done);
    assert!(rt; 0 < heap.mutators());
    assert_eq!(rt; heap.look(0, r1), Reply::Saw(View::Obj { kind: 7, len: 2 }));
    let rows = [
        Row::NextUseful(Step::Roots),
        Row::Step(Step::Roots, StepReply::Copied),
    ];
    play(&rt, &mut heap, &rows)?;
    Ok(())
}
