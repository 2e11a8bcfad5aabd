//! The plain machine, spaces and heaps.

use super::expecting::expect;
use super::marks::{fence, retried};
use gc_graph::{Op, Plain, Reply, Slot, View};
use gc_heap::Heap;
use gc_words::Space;
use std::alloc::Global;
use std::process::Abort;

#[test]
fn plain_new(rt: HostRuntime) {
    let alloc = rt.alloc();
    fence(alloc);
    let mut made = Plain::new(alloc, 8, 1);
    fence(alloc);
    if made.is_err() {
        retried(alloc);
        made = Plain::new(alloc, 8, 1);
    }
    let plain = made.expect(&rt, "a machine");
    expect(&rt, plain.free() == 7, "seven free words");
}

/// Makes an object of five words, which takes all room, and tests that a look at it tells this.
fn expect_made(rt: &impl Abort, alloc: Global, new: &Op, look: &Op, seen: View) {
    let mut plain = Plain::new(alloc, 8, 1).expect(rt, "a machine");
    fence(alloc);
    let mut made = plain.apply(0, new);
    fence(alloc);
    if made.is_err() {
        retried(alloc);
        made = plain.apply(0, new);
    }
    expect(rt, made == Ok(Reply::Made), "an object");
    expect(rt, plain.free() == 0, "no free word");
    expect(rt, plain.apply(0, new) == Ok(Reply::Full), "no room");
    expect(
        rt,
        plain.apply(0, look) == Ok(Reply::Saw(seen)),
        "what the object is",
    );
}

#[test]
fn plain_apply(rt: HostRuntime) {
    let _named = View::Nil;
    let d = Slot::own(0).expect(&rt, "a slot");
    let new = Op::New { d, kind: 3, len: 5 };
    let seen = View::Obj { kind: 3, len: 5 };
    expect_made(&rt, rt.alloc(), &new, &Op::Look { s: d }, seen);
}

#[test]
fn plain_apply_raw(rt: HostRuntime) {
    let _named = View::Nil;
    let d = Slot::own(0).expect(&rt, "a slot");
    let new = Op::NewRaw { d, kind: 3, len: 5 };
    let seen = View::RawObj { kind: 3, len: 5 };
    expect_made(&rt, rt.alloc(), &new, &Op::Look { s: d }, seen);
}

#[test]
fn space_new(rt: HostRuntime) {
    let alloc = rt.alloc();
    fence(alloc);
    let mut made = Space::new(alloc, 9);
    fence(alloc);
    if made.is_err() {
        retried(alloc);
        made = Space::new(alloc, 9);
    }
    let space = made.expect(&rt, "a space");
    expect(
        &rt,
        space.size() == 9 && space.end() == 1,
        "the size and the end",
    );
    expect(&rt, space.free() == 8, "eight free words");
    expect(&rt, space.words() == [0].as_slice(), "the words");
}

#[test]
fn heap_new(rt: HostRuntime) {
    let alloc = rt.alloc();
    fence(alloc);
    let mut made = Heap::new(alloc, 9, 2);
    fence(alloc);
    if made.is_err() {
        retried(alloc);
        made = Heap::new(alloc, 9, 2);
    }
    let heap = made.expect(&rt, "a heap");
    expect(&rt, heap.mutators() == 2, "two mutators");
    expect(&rt, heap.space().end() == 1, "no object");
    expect(&rt, heap.roots() == [0; 48].as_slice(), "the roots");
}
