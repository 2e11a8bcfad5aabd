//! Whole runs: a mutator and a collector in two threads, beside the plain machine.
ghost use Rattle.gc_graph.specs.Machine.{HasMutator};

use gc_check::Sequential;
use gc_concurrent::{
    Collector, Holding, Runner, Waiting, beside_collector, mutate, open, open_checked,
};
use gc_graph::{NoMemory, Number, Op, Plain, Reply, Slot, View};
use std::alloc::{AllocError, Global};
use std::test::Fail;
use test_kit::commands::{new, num, own};

/// A number that looks random.
fn next(state: u64) -> u64 {
    let a = state ^ state.wrapping_shl(13);
    let b = a ^ a.wrapping_shr(7);
    b ^ b.wrapping_shl(17)
}

/// Returns a command of any kind, mostly one that makes an object, writes or reads.
fn command(state: u64) -> Option<Op> {
    let r = state.wrapping_shr(8);
    let d = Slot::own((r % 16) as u8)?;
    let s = Slot::own((r.wrapping_shr(4) % 16) as u8)?;
    let i = (r.wrapping_shr(8) % 4) as u16;
    match state % 16 {
        0..=3 => Some(Op::New {
            d,
            kind: (r.wrapping_shr(12) % 250) as u8,
            len: 4,
        }),
        4 => Some(Op::NewRaw { d, kind: 7, len: 5 }),
        5 => Some(Op::Num {
            d,
            n: Number::new(r % (1 << 40))?,
        }),
        6 => Some(Op::Nil { d }),
        7 => Some(Op::Move { d, s }),
        8..=10 => Some(Op::Get { d, s, i }),
        11..=13 => Some(Op::Put { s: d, i, t: s }),
        14 => Some(Op::Same { s: d, t: s }),
        _ => Some(Op::Look { s: d }),
    }
}

fn commands(alloc: Global, count: usize, seed: u64) -> Result<Vec<Op>, AllocError> {
    let mut ops = Vec::new(alloc);
    let mut state = seed;
    for _ in 0..count {
        state = next(state);
        if let Some(op) = command(state) {
            ops.push(op)?;
        }
    }
    Ok(ops)
}

/// Performs a command of the machine without a collector, and keeps its reply.
fn keep_plain_reply(plain: &mut Plain, op: &Op, replies: &mut Vec<Reply>) -> Result<(), NoMemory>
    requires { HasMutator plain.old.graph 0 }
    ensures { HasMutator plain.new.graph 0 }
{
    let _named = View::Nil;
    let reply = plain.apply(0, op)?;
    match replies.push(reply) {
        Ok(()) => Ok(()),
        Err(_) => Err(NoMemory),
    }
}

/// Returns the replies of the machine without a collector, with room for all.
fn plain_replies(alloc: Global, ops: &[Op]) -> Result<Vec<Reply>, NoMemory> {
    let mut plain = Plain::new(alloc, 1 << 20, 1)?;
    let mut replies = Vec::new(alloc);
    for op in ops {
        keep_plain_reply(&mut plain, op, &mut replies)?;
    }
    Ok(replies)
}

// The commands allocate some 4,000 words in a heap of 512, so it flips again and again: a command without room waits for a flip.
#[test]
fn replies_are_those_of_the_plain_machine(rt: HostRuntime) -> Result<(), Fail> {
    let _named = View::Nil;
    let alloc = rt.alloc();
    for seed in [88_172_645_463_325_252, 1] {
        let ops = commands(alloc, 2_048, seed)?;
        let replies = beside_collector(&rt, alloc, 512, ops.as_slice())
            .ok()
            .ok_or("memory suffices")?;
        let plain = plain_replies(alloc, ops.as_slice())?;
        assert!(rt; plain.as_slice() == replies.as_slice());
        assert!(rt; replies.len() == ops.len());
    }
    Ok(())
}

#[test]
fn a_run_ends_where_a_command_finds_no_room(rt: HostRuntime) -> Result<(), Fail> {
    let _named = View::Nil;
    let alloc = rt.alloc();
    let (runner, _collector) = open(alloc, 8)?;
    let ops = [new(own(0), 3, 1), num(own(1), 5), new(own(2), 3, 3)];
    let (_runner, replies) = mutate(&rt, alloc, runner, &ops)
        .ok()
        .ok_or("memory suffices")?;
    assert!(rt; replies.as_slice() == [Reply::Made, Reply::Done].as_slice());
    Ok(())
}

/// The steps that a test lets a collector perform at most.
const MOST_STEPS: u32 = 1_000_000;

/// Stops the mutator, wherever the collection stands, and lets its collector take it.
fn stopped(runner: Runner, collector: Collector) -> Result<(Waiting, Holding), Fail> {
    let mut asking = collector.ask().ok().ok_or("the mutator runs")?;
    let waiting = runner.stop().ok().ok_or("the mutator is asked")?;
    for _ in 0..MOST_STEPS {
        match asking.take() {
            Ok(holding) => return Ok((waiting, holding)),
            Err(still) => asking = still,
        }
        asking.work();
    }
    Err(Fail::from("the entries of a log come to an end"))
}

/// Performs the commands in one thread with the collector, which performs a step after each. Of 64 commands the 32nd is followed by a stop after which
/// the mutator goes on in the same space, and the last by a flip.
fn run_in_turns(
    alloc: Global,
    mut runner: Runner,
    mut collector: Collector,
    ops: &[Op],
) -> Result<Collector, Fail> {
    let _named = View::Nil;
    for k in 0..ops.len() {
        let op = ops[k];
        let _ = runner.commander.apply(&op);
        if k % 32 != 31 {
            collector.work();
            continue;
        }
        let (waiting, mut holding) = stopped(runner, collector)?;
        if k % 64 == 31 {
            let _ = holding.place_roots();
            collector = holding.go();
        } else {
            let flipped = holding.finish(alloc, &Sequential);
            collector = flipped.ok().ok_or("it flips")?;
            collector.prepare(alloc, 512)?;
        }
        runner = waiting.resume().ok().ok_or("it may go on")?;
    }
    Ok(collector)
}

// Of 64 flips each rests on the standing checker, and where each seventh asks the whole one, the others do. The mutator writes and makes objects beside the collector.
#[test]
fn the_whole_checker_is_asked_only_by_turns(rt: HostRuntime) -> Result<(), Fail> {
    let _named = View::Nil;
    let alloc = rt.alloc();
    let ops = commands(alloc, 4_096, 88_172_645_463_325_252)?;
    for (each, whole) in [(0u32, 0u64), (7, 9)] {
        let (runner, collector) = open_checked(alloc, 512, 0, each)?;
        let collector = run_in_turns(alloc, runner, collector, ops.as_slice())?;
        assert!(rt; collector.turns.whole == whole);
        assert!(rt; collector.turns.along == 64 - whole);
    }
    Ok(())
}
