//! Traces: reading, running and playing them, their reports, and the pair of a flip.

ghost use Rattle.std.specs.Prelude.{IfOk};
ghost use Rattle.gc_trace.specs.Grammar.{IsRecording};
ghost use Rattle.gc_trace.specs.Views.{recording};

use super::expecting::expect;
use super::marks::{fence, retried};
use super::texts::{
    COLLECT_WHEN_FULL, Fixed, LOG_ACROSS_TWO_MUTATORS, ONE_KEPT, REPLIES_ACROSS_TWO_MUTATORS,
    REPORT,
};
use gc_graph::{Op, Sink, Source};
use gc_trace::{
    PlayFault, Trace, TraceFault, play, play_pair, play_report, read_trace, run_trace, scripts_of,
};
use std::alloc::Global;
use std::process::Abort;

/// Reads the trace with the logs of two mutators.
fn read(alloc: Global) -> Result<Trace, TraceFault>
    ensures { IfOk result (λ trace. IsRecording (recording trace)) }
{
    read_trace(alloc, &mut Source::new(LOG_ACROSS_TWO_MUTATORS))
}

#[test]
fn trace_read(rt: HostRuntime) {
    let alloc = rt.alloc();
    fence(alloc);
    let mut trace = read(alloc);
    fence(alloc);
    if let Err(TraceFault::NoMemory) = trace {
        retried(alloc);
        trace = read(alloc);
    }
    let trace = trace.expect(&rt, "a trace");
    expect(&rt, trace.size == 32 && trace.mutators == 2, "the space");
    expect(&rt, trace.events.len() == 15, "the events");
}

#[test]
fn trace_run(rt: HostRuntime) {
    let alloc = rt.alloc();
    let trace = read(alloc).expect(&rt, "a trace");
    fence(alloc);
    let mut run = run_trace(alloc, &trace);
    fence(alloc);
    if run.is_err() {
        retried(alloc);
        run = run_trace(alloc, &trace);
    }
    let world = run.expect(&rt, "a world");
    expect(&rt, world.history().len() == 15, "the history");
    expect(&rt, !world.is_open(), "no open collection");
}

/// Returns the lengths of two scripts, or zeros if there are not two.
fn lengths_of(scripts: &[Vec<Op>]) -> [usize; 2] {
    match scripts {
        [first, second] => [first.len(), second.len()],
        _ => [0, 0],
    }
}

#[test]
fn scripts_of_a_trace(rt: HostRuntime) {
    let alloc = rt.alloc();
    let trace = read(alloc).expect(&rt, "a trace");
    fence(alloc);
    let mut made = scripts_of(alloc, &trace);
    fence(alloc);
    if made.is_err() {
        retried(alloc);
        made = scripts_of(alloc, &trace);
    }
    let scripts = made.expect(&rt, "scripts");
    expect(
        &rt,
        lengths_of(&scripts) == [4, 3],
        "the lengths of two scripts",
    );
}

/// What is written of a trace.
#[derive(Clone, Copy)]
enum Written {
    Replies,
    Report,
    Pair,
}

fn write(
    alloc: Global,
    what: Written,
    trace: &[u8],
    sink: &mut Sink<Fixed>,
) -> Result<(), PlayFault> {
    let mut source = Source::new(trace);
    match what {
        Written::Replies => {
            play(alloc, &mut source, sink)?;
        }
        Written::Report => {
            play_report(alloc, &mut source, sink)?;
        }
        Written::Pair => play_pair(alloc, 1, &mut source, sink)?,
    }
    Ok(())
}

/// Tests what is written of a trace. A failed call writes nothing.
fn expect_written(rt: &impl Abort, alloc: Global, what: Written, trace: &[u8], text: &[u8]) {
    let mut sink = Sink::new(Fixed::new());
    fence(alloc);
    let mut answer = write(alloc, what, trace, &mut sink);
    fence(alloc);
    if answer == Err(PlayFault::NoMemory) {
        retried(alloc);
        answer = write(alloc, what, trace, &mut sink);
    }
    expect(rt, answer.is_ok(), "no fault");
    expect(rt, sink.into_inner().taken() == text, "the text");
}

#[test]
fn trace_play(rt: HostRuntime) {
    let replies = REPLIES_ACROSS_TWO_MUTATORS;
    expect_written(
        &rt,
        rt.alloc(),
        Written::Replies,
        LOG_ACROSS_TWO_MUTATORS,
        replies,
    );
}

#[test]
fn trace_report(rt: HostRuntime) {
    expect_written(&rt, rt.alloc(), Written::Report, COLLECT_WHEN_FULL, REPORT);
}

#[test]
fn trace_pair(rt: HostRuntime) {
    expect_written(&rt, rt.alloc(), Written::Pair, COLLECT_WHEN_FULL, ONE_KEPT);
}
