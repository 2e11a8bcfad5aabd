//! Collected heaps without a world around them. A flip allocates what its check needs, and copies a pair only if it
//! is to be kept.

use super::expecting::expect;
use super::marks::{fence, retried};
use gc_check::Sequential;
use gc_collected::{CollectedHeap, Keep};
use gc_copy::{Step, StepReply};
use gc_graph::{Op, Slot, View};
use std::alloc::Global;
use std::process::Abort;

/// Performs a command of the first mutator. No allocation fails.
fn command(rt: &impl Abort, heap: &mut CollectedHeap, op: &Op) {
    assert!(rt; heap.mutators() > 0);
    let _reply = heap.mutate(0, op).expect(rt, "a reply");
}

/// Returns a heap with 1,000 chained objects whose collection is ready to flip.
fn chain(rt: &impl Abort, alloc: Global) -> CollectedHeap {
    let _named = View::Nil;
    let r0 = Slot::own(0).expect(rt, "a slot");
    let r1 = Slot::own(1).expect(rt, "a slot");
    let link = [
        Op::New {
            d: r1,
            kind: 0,
            len: 1,
        },
        Op::Put { s: r1, i: 0, t: r0 },
        Op::Move { d: r0, s: r1 },
    ];
    let mut heap = CollectedHeap::open(alloc, 4096, 1).expect(rt, "a heap");
    for _ in 0..1000 {
        for op in &link {
            command(rt, &mut heap, op);
        }
    }
    make_ready(rt, &mut heap);
    heap
}

/// Performs the steps of a collection up to its flip.
fn make_ready(rt: &impl Abort, heap: &mut CollectedHeap) {
    for _ in 0..4000 {
        let step = heap.useful_step();
        if step == Step::Flip {
            return;
        }
        let _reply = heap
            .collect(&Sequential, step, Keep::Room)
            .expect(rt, "a step");
    }
}

/// Flips a heap with 1,000 objects, and tests that it keeps the pair if that is asked for. If an allocation fails, the
/// collection is still open.
fn expect_flip(rt: &impl Abort, alloc: Global, keep: Keep, keeps: bool) {
    let mut heap = chain(rt, alloc);
    fence(alloc);
    let mut reply = heap.flip(&Sequential, keep);
    fence(alloc);
    if reply.is_err() {
        retried(alloc);
        expect(rt, heap.is_open(), "an open collection");
        reply = heap.flip(&Sequential, keep);
    }
    let reply = reply.expect(rt, "a flip");
    expect(rt, reply == StepReply::Flipped { pairs: 1000 }, "the reply");
    expect(rt, heap.take_pair().is_some() == keeps, "the pair");
    expect(rt, !heap.is_open(), "no open collection");
}

#[test]
fn flip_of_1000_that_keeps_room(rt: HostRuntime) {
    expect_flip(&rt, rt.alloc(), Keep::Room, false);
}

#[test]
fn flip_of_1000_that_keeps_the_pair(rt: HostRuntime) {
    expect_flip(&rt, rt.alloc(), Keep::Pair, true);
}
