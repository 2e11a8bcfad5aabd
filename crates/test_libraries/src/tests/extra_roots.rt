ghost use Rattle.std.specs.Prelude.{◌≤◌};
ghost use Rattle.gc_heap.specs.ExtraRoots.{CanOpen, most_extra_roots};

use gc_check::Sequential;
use gc_collected::{Checking, CollectedHeap, Keep};
use gc_copy::StepReply;
use gc_graph::{Reply, Slot, View};
use gc_heap::{Heap, HeapOptions};
use std::process::Abort;
use std::test::Fail;
use test_kit::commands::own;

/// A heap of 64 words with two mutators and this many extra roots.
fn with_extra_roots(extra_roots: u32) -> HeapOptions
    requires { extra_roots ≤ most_extra_roots }
    ensures { CanOpen result }
{
    HeapOptions {
        size: 64,
        mutators: 2,
        extra_roots,
    }
}

fn store(rt: &impl Abort, heap: &mut CollectedHeap, m: u8, k: u32, s: Slot) {
    assert!(rt; m < heap.mutators());
    assert!(rt; k < heap.extra_roots());
    assert_eq!(rt; heap.store(m, k, s), Reply::Done);
}

/// Loads an extra root, and returns what it holds.
fn load(rt: &impl Abort, heap: &mut CollectedHeap, m: u8, d: Slot, k: u32) -> Reply {
    assert!(rt; m < heap.mutators());
    assert!(rt; k < heap.extra_roots());
    assert_eq!(rt; heap.load(m, d, k), Reply::Done);
    assert!(rt; m < heap.mutators());
    heap.look(m, d)
}

fn clear(rt: &impl Abort, heap: &mut CollectedHeap, from: u32, to: u32) {
    assert!(rt; to <= heap.extra_roots());
    heap.clear(from, to);
}

fn make(rt: &impl Abort, heap: &mut CollectedHeap, m: u8, d: Slot, kind: u8) {
    assert!(rt; m < heap.mutators());
    assert_eq!(rt; heap.new_object(m, d, kind, 0), Reply::Made);
}

fn set_nil(rt: &impl Abort, heap: &mut CollectedHeap, m: u8, d: Slot) {
    assert!(rt; m < heap.mutators());
    assert_eq!(rt; heap.nil(m, d), Reply::Done);
}

fn object(kind: u8) -> Reply {
    Reply::Saw(View::Obj { kind, len: 0 })
}

#[test]
fn extra_roots_survive_a_flip(rt: HostRuntime) -> Result<(), Fail> {
    let _named = View::Nil;
    let r0 = own(0);
    let r1 = own(1);
    let mut heap = CollectedHeap::open_with(rt.alloc(), &with_extra_roots(3), Checking::AtFlip)?;
    assert_eq!(rt; heap.extra_roots(), 3);
    make(&rt, &mut heap, 0, r0, 7);
    store(&rt, &mut heap, 0, 2, r0);
    set_nil(&rt, &mut heap, 0, r0);
    assert!(rt; heap.begin()? == StepReply::Begun);
    assert!(rt; heap.roots() == StepReply::Copied);
    assert!(rt; heap.roots() == StepReply::Clean);
    // Extra root 0 is below the one that was copied.
    make(&rt, &mut heap, 1, r0, 8);
    store(&rt, &mut heap, 1, 0, r0);
    set_nil(&rt, &mut heap, 1, r0);
    assert!(rt; heap.roots() == StepReply::Copied);
    assert!(rt; heap.roots() == StepReply::Clean);
    assert!(rt; heap.scan() == StepReply::Passed);
    assert!(rt; heap.scan() == StepReply::Passed);
    let reply = heap.flip(&Sequential, Keep::Room)?;
    assert!(rt; reply == StepReply::Flipped { pairs: 2 });
    assert!(rt; load(&rt, &mut heap, 1, r1, 2) == object(7));
    assert!(rt; load(&rt, &mut heap, 0, r1, 0) == object(8));
    assert!(rt; load(&rt, &mut heap, 0, r1, 1) == Reply::Saw(View::Nil));
    clear(&rt, &mut heap, 1, 3);
    assert!(rt; load(&rt, &mut heap, 0, r1, 2) == Reply::Saw(View::Nil));
    assert!(rt; load(&rt, &mut heap, 0, r1, 0) == object(8));
    Ok(())
}

/// By their places: 16 and 32 are the first slots of the two mutators, and 49 is extra root 1.
#[test]
fn extra_roots_of_a_heap(rt: HostRuntime) -> Result<(), Fail> {
    let mut heap = Heap::open_with(rt.alloc(), &with_extra_roots(2))?;
    assert_eq!(rt; heap.extra_roots(), 2);
    assert_eq!(rt; heap.roots().len(), 50);
    assert!(rt; 32 < heap.root_places());
    assert_eq!(rt; heap.new_at_root(32, 3, 0), Reply::Made);
    assert!(rt; 49 < heap.root_places());
    assert_eq!(rt; heap.copy_root(49, 32), Reply::Done);
    assert_eq!(rt; heap.roots().get(49).copied(), Some(2));
    assert_eq!(rt; heap.roots().get(48).copied(), Some(0));
    assert!(rt; 49 < heap.root_places());
    assert_eq!(rt; heap.copy_root(16, 49), Reply::Done);
    assert_eq!(rt; heap.roots().get(16).copied(), Some(2));
    assert!(rt; 49 < heap.root_places());
    assert_eq!(rt; heap.nil_root(49), Reply::Done);
    assert_eq!(rt; heap.roots().get(49).copied(), Some(0));
    Ok(())
}
