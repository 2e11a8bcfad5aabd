//! Worlds: opening, commands and collector steps. If an allocation fails, the history does not have the event; after
//! the retry it has the event once.

ghost use Rattle.std.specs.Prelude.{◌≡◌, ◌<◌, ◌^◌};
ghost use Rattle.gc_graph.specs.Limits.{most_words};
ghost use Rattle.gc_model.specs.Runs.{IsStepWithin};
ghost use Rattle.gc_trace.specs.Grammar.{IsRecording};
ghost use Rattle.gc_trace.specs.Views.{recording};

use super::expecting::expect;
use super::marks::{fence, retried};
use super::texts::{BEFORE_BEGIN, BEFORE_FLIP, LOG_ACROSS_TWO_MUTATORS, WRITE_WHILE_SCANNING};
use gc_copy::{Step, StepReply};
use gc_graph::{MOST_MUTATORS, MOST_WORDS, NoMemory, Op, Slot, Source, View};
use gc_trace::{Trace, read_trace, run_trace};
use gc_world::{Event, World};
use std::alloc::Global;
use std::process::Abort;
use std::thread::Threads;

fn trace_of(rt: &impl Abort, alloc: Global, text: &[u8]) -> Trace
    ensures { IsRecording (recording result) }
{
    read_trace(alloc, &mut Source::new(text)).expect(rt, "a trace")
}

#[test]
fn world_open(rt: HostRuntime) {
    let alloc = rt.alloc();
    fence(alloc);
    let mut made = World::open(alloc, 9, 2);
    fence(alloc);
    if made.is_err() {
        retried(alloc);
        made = World::open(alloc, 9, 2);
    }
    let world = made.expect(&rt, "a world");
    expect(&rt, world.size() == 9 && world.mutators() == 2, "the space");
    expect(&rt, world.history().is_empty(), "no event");
}

/// Performs a command. If an allocation fails, the history stays as long as it was.
fn mutate(rt: &impl Abort, alloc: Global, world: &mut World, m: u8, op: &Op)
    requires { m < world.old.mutators }
    ensures { world.new.mutators ≡ world.old.mutators }
{
    let count = world.history().len();
    fence(alloc);
    let mut answer = world.mutate(m, op);
    fence(alloc);
    if answer.is_err() {
        retried(alloc);
        expect(rt, world.history().len() == count, "no event");
        answer = world.mutate(m, op);
    }
    let _reply = answer.expect(rt, "a reply");
}

/// Performs one event of a trace. Only the allocations of commands are counted, so only they can fail.
fn perform(rt: &impl Abort, alloc: Global, world: &mut World, event: &Event) {
    match event {
        Event::Mutate { m, op } => {
            let m = *m;
            assert!(rt; m < world.mutators());
            mutate(rt, alloc, world, m, op);
        }
        Event::Collect(step) => {
            let step = *step;
            assert!(rt; step.is_within(MOST_WORDS, world.mutators()));
            let _reply = world.collect(step).expect(rt, "a step");
        }
    }
}

/// Opens the world of a trace.
fn opened(rt: &impl Abort, alloc: Global, trace: &Trace) -> World {
    let size = trace.size;
    let mutators = trace.mutators;
    assert!(rt; size > 0 && size <= MOST_WORDS);
    assert!(rt; mutators > 0 && mutators <= MOST_MUTATORS);
    World::open(alloc, size, mutators).expect(rt, "a world")
}

/// Performs the events of a trace, and tests that the world has them all, with the replies that it has with ample memory.
fn expect_events(rt: &impl Abort, alloc: Global, text: &[u8], events: usize) {
    let trace = trace_of(rt, alloc, text);
    let usual = run_trace(alloc, &trace).expect(rt, "a world");
    let mut world = opened(rt, alloc, &trace);
    for event in &trace.events {
        perform(rt, alloc, &mut world, event);
    }
    expect(rt, world.history().len() == events, "all events");
    expect(rt, world.history() == usual.history(), "the usual replies");
}

#[test]
fn world_mutate_while_scanning(rt: HostRuntime) {
    expect_events(&rt, rt.alloc(), WRITE_WHILE_SCANNING, 11);
}

#[test]
fn world_mutate_across_logs(rt: HostRuntime) {
    expect_events(&rt, rt.alloc(), LOG_ACROSS_TWO_MUTATORS, 15);
}

/// How a collector step is asked for.
#[derive(Clone, Copy)]
enum Way {
    Alone,
    InThreads,
    /// The world picks the step.
    Useful,
}

fn collected(
    rt: &(impl Threads + Sync),
    way: Way,
    world: &mut World,
    step: Step,
) -> Result<(Step, StepReply), NoMemory>
    requires { IsStepWithin most_words world.old.mutators step }
    ensures { world.new.mutators ≡ world.old.mutators }
{
    match way {
        Way::Alone => Ok((step, world.collect(step)?)),
        Way::InThreads => Ok((step, world.collect_par(rt, step)?)),
        Way::Useful => world.collect_useful(rt),
    }
}

/// Performs a collector step, and tests its reply. If an allocation fails, the history stays as long as it was, and an open
/// collection stays open.
fn expect_step(
    rt: &(impl Threads + Abort + Sync),
    alloc: Global,
    way: Way,
    world: &mut World,
    step: Step,
    reply: StepReply,
)
    requires { IsStepWithin most_words world.old.mutators step }
{
    let count = world.history().len();
    let open = world.is_open();
    fence(alloc);
    let mut answer = collected(rt, way, world, step);
    fence(alloc);
    if answer.is_err() {
        retried(alloc);
        expect(rt, world.history().len() == count, "no event");
        expect(rt, world.is_open() == open, "the same collection");
        answer = collected(rt, way, world, step);
    }
    expect(rt, answer == Ok((step, reply)), "the reply");
    expect(
        rt,
        world.history().len() == count.saturating_add(1),
        "one event",
    );
}

/// Begins a collection after two events.
fn expect_begin(rt: &(impl Threads + Abort + Sync), alloc: Global, way: Way) {
    let trace = trace_of(rt, alloc, BEFORE_BEGIN);
    let mut world = run_trace(alloc, &trace).expect(rt, "a world");
    expect_step(rt, alloc, way, &mut world, Step::Begin, StepReply::Begun);
    expect(rt, world.is_open(), "an open collection");
    expect(rt, world.history().len() == 3, "three events");
}

#[test]
fn world_collect_begin(rt: HostRuntime) {
    expect_begin(&rt, rt.alloc(), Way::Alone);
}

#[test]
fn world_collect_par_begin(rt: HostRuntime) {
    expect_begin(&rt, rt.alloc(), Way::InThreads);
}

#[test]
fn world_collect_useful_begin(rt: HostRuntime) {
    expect_begin(&rt, rt.alloc(), Way::Useful);
}

/// Flips in the tenth event, and tests that the world keeps the pair.
fn expect_flip(rt: &(impl Threads + Abort + Sync), alloc: Global, way: Way) {
    let trace = trace_of(rt, alloc, BEFORE_FLIP);
    let mut world = run_trace(alloc, &trace).expect(rt, "a world");
    expect_step(
        rt,
        alloc,
        way,
        &mut world,
        Step::Flip,
        StepReply::Flipped { pairs: 1 },
    );
    expect(rt, !world.is_open(), "no open collection");
    expect(rt, world.history().len() == 10, "ten events");
    let file = world.take_flip().expect(rt, "a pair");
    expect(rt, file.new.roots.get(16).copied() == Some(2), "a root");
}

#[test]
fn world_collect_flip(rt: HostRuntime) {
    expect_flip(&rt, rt.alloc(), Way::Alone);
}

#[test]
fn world_collect_par_flip(rt: HostRuntime) {
    expect_flip(&rt, rt.alloc(), Way::InThreads);
}

#[test]
fn world_collect_useful_flip(rt: HostRuntime) {
    expect_flip(&rt, rt.alloc(), Way::Useful);
}

/// Performs a command of the first mutator. No allocation fails.
fn command(rt: &impl Abort, world: &mut World, op: &Op) {
    assert!(rt; world.mutators() > 0);
    let _reply = world.mutate(0, op).expect(rt, "a reply");
}

/// Returns a world with this many chained objects, 2,700 at most.
fn chain(rt: &impl Abort, alloc: Global, objects: u32) -> World {
    let _named = View::Nil;
    let r0 = Slot::own(0).expect(rt, "a slot");
    let r1 = Slot::own(1).expect(rt, "a slot");
    let link = [
        Op::New {
            d: r1,
            kind: 0,
            len: 1,
        },
        Op::Put { s: r1, i: 0, t: r0 },
        Op::Move { d: r0, s: r1 },
    ];
    let mut world = World::open(alloc, 8192, 1).expect(rt, "a world");
    for _ in 0..objects {
        for op in &link {
            command(rt, &mut world, op);
        }
    }
    world
}

/// Performs the steps of a collection up to its flip, and then commands until the world has this many events.
fn make_ready(rt: &(impl Threads + Abort + Sync), world: &mut World, events: usize) {
    for _ in 0..10000 {
        if world.useful_step() == Step::Flip {
            break;
        }
        let _reply = world.collect_useful(rt).expect(rt, "a step");
    }
    let look = Op::Look {
        s: Slot::own(0).expect(rt, "a slot"),
    };
    for _ in world.history().len()..events {
        command(rt, world, &look);
    }
}

/// Flips a world with this many chained objects, after this many events.
fn expect_long_flip(
    rt: &(impl Threads + Abort + Sync),
    alloc: Global,
    way: Way,
    objects: u32,
    events: usize,
) {
    let mut world = chain(rt, alloc, objects);
    make_ready(rt, &mut world, events);
    expect(rt, world.history().len() == events, "so many events");
    expect_step(
        rt,
        alloc,
        way,
        &mut world,
        Step::Flip,
        StepReply::Flipped { pairs: objects },
    );
}

/// After 8,192 events the history has no room for one more.
#[test]
fn flip_of_1000_with_a_full_history(rt: HostRuntime) {
    expect_long_flip(&rt, rt.alloc(), Way::Alone, 1000, 8192);
}

#[test]
fn flip_of_1000_with_a_spare_place(rt: HostRuntime) {
    expect_long_flip(&rt, rt.alloc(), Way::Alone, 1000, 8191);
}

#[test]
fn flip_of_1000_in_threads(rt: HostRuntime) {
    expect_long_flip(&rt, rt.alloc(), Way::InThreads, 1000, 8191);
}

/// With 2,048 pairs or more, the check asks for threads.
#[test]
fn flip_of_2500_in_threads(rt: HostRuntime) {
    expect_long_flip(&rt, rt.alloc(), Way::InThreads, 2500, 16383);
}

#[test]
fn useful_flip_of_2500_in_threads(rt: HostRuntime) {
    expect_long_flip(&rt, rt.alloc(), Way::Useful, 2500, 16383);
}
