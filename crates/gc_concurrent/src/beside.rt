//! A mutator and a collector in two threads, over one heap of objects.
ghost use Rattle.std.specs.Prelude.{◌≤◌, ◌≡◌, IfErr, IfOk};
ghost use Rattle.gc_concurrent.specs.Holders.{heap_in};
ghost use Rattle.gc_concurrent.specs.Law.{AreAllReplies, AreReplies, AreRepliesFromNothing, HasNoFull, StandsFromNothing};

use crate::copier::Work;
use crate::handshake::{Asking, Collector, Holding, Runner, open};
use crate::runs::mutate_all;
use gc_check::Sequential;
use gc_graph::{Op, Reply, View};
use std::alloc::Global;
use std::sync::Wait;
use std::sync::atomic::{AtomicU64, Ordering};
use std::thread;
use std::thread::{Threads, join};

/// A run that ended because memory ran out. It has the replies so far, none if no heap could be opened.
#[derive(Drop)]
pub struct CutReplies {
    pub replies: Vec<Reply>,
}

fn mutate_and_stop<R: Wait>(
    rt: &R,
    alloc: Global,
    runner: Runner,
    ops: &[Op],
    stop: &AtomicU64,
) -> Result<Vec<Reply>, CutReplies>
    ensures replies { IfOk result (λ replies. AreAllReplies (heap_in runner.commander) ops.now replies.items) }
    ensures cut { IfErr result (λ cut. AreReplies (heap_in runner.commander) ops.now cut.replies.items × HasNoFull cut.replies.items) }
{
    let _named = View::Nil;
    let done = mutate_all(rt, alloc, runner, ops);
    stop.store(1, Ordering::SeqCst);
    match done {
        Ok((_runner, replies)) => Ok(replies),
        Err(cut) => Err(CutReplies {
            replies: cut.replies,
        }),
    }
}

fn collect<R: Wait>(rt: &R, alloc: Global, collector: Collector, size: u32, stop: &AtomicU64) -> u64
    requires { 1 ≤ size }
{
    let mut collector = collector;
    let mut flips = 0u64;
    for _ in rt.forever() {
        if stop.load(Ordering::SeqCst) != 0 {
            break;
        }
        match cycle(rt, alloc, collector, size, stop) {
            Some(next) => collector = next,
            None => break,
        }
        flips = flips.wrapping_add(1);
    }
    flips
}

fn cycle<R: Wait>(
    rt: &R,
    alloc: Global,
    collector: Collector,
    size: u32,
    stop: &AtomicU64,
) -> Option<Collector>
    requires { 1 ≤ size }
{
    let mut collector = collector;
    for _ in 0..u64::MAX {
        if collector.work() != Work::Step {
            break;
        }
    }
    let asking = asked(rt, collector, stop)?;
    let holding = taken(rt, asking, stop)?;
    let flipped = flipped(rt, alloc, holding, stop)?;
    prepared(rt, alloc, flipped, size, stop)
}

fn asked<R: Wait>(rt: &R, collector: Collector, stop: &AtomicU64) -> Option<Asking> {
    let mut collector = collector;
    for _ in rt.forever() {
        if stop.load(Ordering::SeqCst) != 0 {
            return None;
        }
        match collector.ask() {
            Ok(asking) => return Some(asking),
            Err(still) => collector = still,
        }
        thread::yield_now();
    }
    unreachable!()
}

fn taken<R: Wait>(rt: &R, asking: Asking, stop: &AtomicU64) -> Option<Holding> {
    let mut asking = asking;
    for _ in rt.forever() {
        if stop.load(Ordering::SeqCst) != 0 {
            return None;
        }
        match asking.take() {
            Ok(holding) => return Some(holding),
            Err(still) => asking = still,
        }
        asking.work();
    }
    unreachable!()
}

fn flipped<R: Wait>(
    rt: &R,
    alloc: Global,
    holding: Holding,
    stop: &AtomicU64,
) -> Option<Collector> {
    let mut holding = holding;
    for _ in rt.forever() {
        match holding.finish(alloc, &Sequential) {
            Ok(collector) => return Some(collector),
            Err(refused) => holding = refused.holding,
        }
    }
    unreachable!()
}

// Makes the memory of the next flip, and retries while an allocation fails.
fn prepared<R: Wait>(
    rt: &R,
    alloc: Global,
    collector: Collector,
    size: u32,
    stop: &AtomicU64,
) -> Option<Collector>
    requires { 1 ≤ size }
{
    let mut collector = collector;
    for _ in rt.forever() {
        if stop.load(Ordering::SeqCst) != 0 {
            return Some(collector);
        }
        if collector.prepare(alloc, size).is_ok() {
            return Some(collector);
        }
        thread::yield_now();
    }
    unreachable!()
}

/// Opens a heap of `size` words, and performs all commands in it, while a collector's thread collects and flips without a pause. Each flip
/// rests on the standing checker. Returns the replies. If memory runs out, it returns those to the first commands, none of which is `Full`.
pub fn beside_collector<R: Threads + Wait + Sync>(
    rt: &R,
    alloc: Global,
    size: u32,
    ops: &[Op],
) -> Result<Vec<Reply>, CutReplies>
    requires { 1 ≤ size }
    ensures replies { IfOk result (λ replies. AreRepliesFromNothing ops.now replies.items) }
    ensures cut { IfErr result (λ cut. StandsFromNothing ops.now cut.replies.items) }
{
    let _named = View::Nil;
    let Ok((runner, collector)) = open(alloc, size) else {
        return Err(CutReplies {
            replies: Vec::new(alloc),
        });
    };
    let flag = AtomicU64::new(0);
    let stop = &flag;
    let (replies, _flips) = join(
        rt,
        move || mutate_and_stop(rt, alloc, runner, ops, stop),
        move || collect(rt, alloc, collector, size, stop),
    );
    replies
}
