//! Tests of scripts in threads: the recorded run is a trace of the same scripts, and plays to the same replies.

use super::traces::{FULL, RAW};
use crate::commands::{ThreadsRunFault, threads_from, threads_run};
use crate::faults::Fault;
use gc_graph::{Number, Reply, Sink, Source, View};
use gc_shared::{Gate, run_threads};
use gc_trace::{
    TraceFault, play, read_trace, run_trace, scripts_are_commands, scripts_of, write_trace,
};
use gc_world::{Answer, Event, World};
use std::alloc::Global;
use std::process::Abort;
use std::sync::Wait;
use std::sync::atomic::{AtomicBool, Ordering};
use std::test::Fail;
use std::thread;
use std::thread::Threads;
use std::time::{Clock, Duration};

/// A trace in which one mutator writes a number that the other may see.
const SHARED: &[u8] = b"heaptrace 1\nspace 64 mutators 2\n\
    m 0 new g0 1 1\nm 0 num r0 5\nm 0 put g0 0 r0\nm 1 get r1 g0 0\n";

#[test]
fn one_script_and_no_turn_is_the_trace_itself(rt: HostRuntime) -> Result<(), Fail> {
    let mut sink = Sink::new(Vec::new(rt.alloc()));
    let found = threads_from(&rt, rt.alloc(), 0, &mut Source::new(FULL), &mut sink);
    assert_eq!(rt; found, Ok(0));
    assert_eq!(rt; sink.into_inner().as_slice(), FULL);
    Ok(())
}

/// Only the mutator's commands run, in order.
#[test]
fn raw_objects_are_recorded_in_the_third_version(rt: HostRuntime) -> Result<(), Fail> {
    let mut sink = Sink::new(Vec::new(rt.alloc()));
    let found = threads_from(&rt, rt.alloc(), 0, &mut Source::new(RAW), &mut sink);
    assert_eq!(rt; found, Ok(0));
    let want = b"heaptrace 3\nspace 8 mutators 1\n\
        m 0 raw r0 7 2\nm 0 put r0 0 r0\nm 0 num r1 8\nm 0 put r0 0 r1\nm 0 put r0 1 r1\n\
        m 0 look r0\nm 0 get r2 r0 1\n";
    assert_eq!(rt; sink.into_inner().as_slice(), want.as_slice());
    Ok(())
}

/// Runs both scripts with forty collector steps, and returns the recorded trace.
fn recorded(rt: &(impl Threads + Wait + Abort + Sync), alloc: Global) -> Result<Vec<u8>, Fail> {
    let _named = View::Nil;
    let mut sink = Sink::new(Vec::new(alloc));
    assert_eq!(rt;
        threads_run(rt, alloc, 40, &mut Source::new(SHARED), &mut sink),
        Ok(())
    );
    Ok(sink.into_inner())
}

fn is_collect(event: &Event) -> bool {
    matches!(event, Event::Collect(_))
}

#[test]
fn what_is_recorded_has_the_scripts_and_the_turns(rt: HostRuntime) -> Result<(), Fail> {
    let text = recorded(&rt, rt.alloc())?;
    let trace = read_trace(rt.alloc(), &mut Source::new(text.as_slice()))?;
    let given = read_trace(rt.alloc(), &mut Source::new(SHARED))?;
    assert_eq!(rt; trace.size, given.size);
    let scripts = scripts_of(rt.alloc(), &trace)?;
    assert!(rt; scripts == scripts_of(rt.alloc(), &given)?);
    let steps = trace
        .events
        .iter()
        .filter(|event| is_collect(event))
        .count();
    assert_eq!(rt; steps, 40);
    Ok(())
}

#[test]
fn what_is_recorded_can_be_played(rt: HostRuntime) -> Result<(), Fail> {
    let text = recorded(&rt, rt.alloc())?;
    let mut sink = Sink::new(Vec::new(rt.alloc()));
    let report = play(rt.alloc(), &mut Source::new(text.as_slice()), &mut sink)?;
    assert_eq!(rt; report.events, 44);
    let replies = sink.into_inner();
    let lines = replies.iter().filter(|byte| **byte == b'\n').count();
    assert_eq!(rt; lines, 44);
    Ok(())
}

/// Makes the second mutator's first command wait for the first mutator's third, for at most five seconds.
#[derive(Drop)]
struct WaitsForWrite<'a, R> {
    rt: &'a R,
    written: AtomicBool,
}

impl<'a, R: Clock> Gate for WaitsForWrite<'a, R> {
    fn before(&self, seat: u32, n: u64) -> bool {
        if seat != 1 || n != 0 {
            return true;
        }
        for _ in 0..5000 {
            if self.written.load(Ordering::SeqCst) {
                return true;
            }
            thread::sleep(self.rt, Duration::from_millis(1));
        }
        false
    }

    fn after(&self, seat: u32, n: u64) {
        if seat == 0 && n == 2 {
            self.written.store(true, Ordering::SeqCst);
        }
    }
}

/// Runs both scripts and forty steps so that the second mutator reads after the write, and returns the world.
fn seen_in_threads(
    rt: &(impl Threads + Wait + Clock + Sync),
    alloc: Global,
) -> Result<World, Fail> {
    scripts_are_commands();
    let given = read_trace(alloc, &mut Source::new(SHARED))?;
    let scripts = scripts_of(alloc, &given)?;
    let gate = WaitsForWrite {
        rt,
        written: AtomicBool::new(false),
    };
    Ok(run_threads(rt, alloc, given.size, scripts, 40, &gate)?)
}

/// Writes a world's history as a trace, plays it, and returns that world.
fn played_again(alloc: Global, world: &World) -> Result<World, Fail> {
    let mut sink = Sink::new(Vec::new(alloc));
    write_trace(&mut sink, world.size(), world.mutators(), world.history())?;
    let text = sink.into_inner();
    let trace = read_trace(alloc, &mut Source::new(text.as_slice()))?;
    Ok(run_trace(alloc, &trace)?)
}

/// Returns the answer as playing a trace gives it: without the mark `Useful`.
fn as_played(answer: &Answer) -> Answer {
    match *answer {
        Answer::Useful(reply) => Answer::Collector(reply),
        answer => answer,
    }
}

/// Returns how many commands of the second mutator saw the number 5.
fn times_seen(world: &World) -> Result<u32, Fail> {
    let five = Number::new(5).ok_or("number")?;
    let seen = Answer::Mutator(Reply::Saw(View::Num(five)));
    let mut times: u32 = 0;
    for entry in world.history() {
        if matches!(entry.event(), Event::Mutate { m: 1, op: _ }) && entry.answer() == seen {
            times = times.saturating_add(1);
        }
    }
    Ok(times)
}

/// Returns whether the second world has the events of the first, with the answers as playing a trace gives them.
fn is_played_again(world: &World, played: &World) -> bool {
    if world.history().len() != played.history().len() {
        return false;
    }
    for (entry, again) in world.history().iter().zip(played.history()) {
        if again.event() != entry.event() || again.answer() != as_played(&entry.answer()) {
            return false;
        }
    }
    true
}

#[test]
fn what_threads_recorded_plays_to_the_same_replies(rt: HostRuntime) -> Result<(), Fail> {
    let world = seen_in_threads(&rt, rt.alloc())?;
    let played = played_again(rt.alloc(), &world)?;
    assert_eq!(rt; world.history().len(), 44);
    assert!(rt; is_played_again(&world, &played));
    assert_eq!(rt; times_seen(&world)?, 1);
    assert_eq!(rt; times_seen(&played)?, 1);
    Ok(())
}

#[test]
fn bad_traces_are_not_run(rt: HostRuntime) {
    let mut sink = Sink::new(Vec::new(rt.alloc()));
    let found = threads_from(&rt, rt.alloc(), 1, &mut Source::new(&FULL[..20]), &mut sink);
    let header = Fault::Threads(ThreadsRunFault::Trace(TraceFault::BadHeader));
    assert_eq!(rt; found, Err(header));
    assert!(rt; sink.into_inner().is_empty());
}

#[test]
fn runs_without_room_have_no_status(rt: HostRuntime) {
    let mut room = [0u8; 16];
    let mut sink = Sink::new(room.as_mut_slice());
    let found = threads_from(&rt, rt.alloc(), 3, &mut Source::new(SHARED), &mut sink);
    assert_eq!(rt; found, Err(Fault::Threads(ThreadsRunFault::Write)));
    assert!(rt; sink.failed());
    assert_eq!(rt; room, *b"heaptrace 1\nspac");
}
