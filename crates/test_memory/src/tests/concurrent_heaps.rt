//! Runs of commands beside a collector: no reply is lost. The opening, a write that is logged and a flip are tested from C, in tests/c/beside.c.

use super::expecting::expect;
use super::marks::{fence, retried};
use gc_concurrent::{Collector, CutShort, Runner, mutate, mutate_all, open};
use gc_graph::{Number, Op, Reply, Slot, View};
use std::alloc::Global;
use std::process::Abort;
use std::sync::Wait;

/// The slot with this number.
fn slot(rt: &impl Abort, index: u8) -> Slot {
    Slot::own(index).expect(rt, "a slot")
}

/// Opens a heap, and fails the test if there is too little memory.
fn opened(rt: &impl Abort, alloc: Global) -> (Runner, Collector) {
    open(alloc, 64).expect(rt, "a heap")
}

/// What a mutator sees of the number 9.
fn nine(rt: &impl Abort) -> View {
    View::Num(Number::new(9).expect(rt, "a number"))
}

/// The command that writes the number into the object.
fn put(rt: &impl Abort) -> Op {
    Op::Put {
        s: slot(rt, 0),
        i: 0,
        t: slot(rt, 1),
    }
}

/// The command that reads the object's field.
fn get(rt: &impl Abort) -> Op {
    Op::Get {
        d: slot(rt, 2),
        s: slot(rt, 0),
        i: 0,
    }
}

/// Performs the commands again from the one on for which memory ran out. Returns all replies.
fn resumed<R: Wait + Abort>(rt: &R, alloc: Global, cut: CutShort, ops: &[Op]) -> Vec<Reply> {
    let _named = View::Nil;
    retried(alloc);
    let mut replies = cut.replies;
    let done = replies.len().min(ops.len());
    let run = mutate(rt, alloc, cut.runner, &ops[done..]);
    let (_runner, rest) = run.ok().expect(rt, "enough memory");
    for reply in &rest {
        replies.push(*reply).expect(rt, "enough memory");
    }
    replies
}

/// Tests the replies to the commands of a run.
fn expect_told(rt: &impl Abort, replies: &[Reply]) {
    let _named = View::Nil;
    let told = [Reply::Made, Reply::Done, Reply::Done, Reply::Saw(nine(rt))];
    expect(rt, replies == told.as_slice(), "the replies");
}

/// Makes an object, and writes and reads its field.
fn commands(rt: &impl Abort) -> [Op; 4] {
    [
        Op::New {
            d: slot(rt, 0),
            kind: 3,
            len: 1,
        },
        Op::Num {
            d: slot(rt, 1),
            n: Number::new(9).expect(rt, "a number"),
        },
        put(rt),
        get(rt),
    ]
}

#[test]
fn concurrent_mutate(rt: HostRuntime) {
    let _named = View::Nil;
    let alloc = rt.alloc();
    let ops = commands(&rt);
    let (runner, _collector) = opened(&rt, alloc);
    fence(alloc);
    let run = mutate(&rt, alloc, runner, &ops);
    fence(alloc);
    let replies = match run {
        Ok((_runner, replies)) => replies,
        Err(cut) => resumed(&rt, alloc, cut, &ops),
    };
    expect_told(&rt, replies.as_slice());
}

#[test]
fn concurrent_mutate_all(rt: HostRuntime) {
    let _named = View::Nil;
    let alloc = rt.alloc();
    let ops = commands(&rt);
    let (runner, _collector) = opened(&rt, alloc);
    fence(alloc);
    let run = mutate_all(&rt, alloc, runner, &ops);
    fence(alloc);
    let replies = match run {
        Ok((_runner, replies)) => replies,
        Err(cut) => resumed(&rt, alloc, cut, &ops),
    };
    expect_told(&rt, replies.as_slice());
}
