//! A long trace, and helpers that play or read a text.

use gc_graph::{Sink, Source};
use gc_trace::{PlayFault, Report, TraceFault, play, read_trace};
use std::alloc::Global;
use std::io::Read;
use std::test::Fail;
use test_kit::streams::Narrow;

/// A trace of so many `flip` steps without a collection. It has 31 bytes, and 7 for each step.
pub fn flips(alloc: Global, steps: usize) -> Result<Vec<u8>, Fail> {
    let mut text = Vec::new(alloc);
    text.extend_from_slice(b"heaptrace 1\nspace 1 mutators 1\n")?;
    for _ in 0..steps {
        text.extend_from_slice(b"c flip\n")?;
    }
    Ok(text)
}

/// Plays the text, and returns what is written.
pub fn played(alloc: Global, text: &[u8]) -> Result<Vec<u8>, PlayFault> {
    let mut sink = Sink::new(Vec::new(alloc));
    play(alloc, &mut Source::new(text), &mut sink)?;
    Ok(sink.into_inner())
}

/// Plays the text to this writer. Returns the result, and the writer with what it took.
pub fn played_to(
    alloc: Global,
    text: &[u8],
    writer: Narrow,
) -> (Result<Report, PlayFault>, Narrow) {
    let mut sink = Sink::new(writer);
    let answer = play(alloc, &mut Source::new(text), &mut sink);
    (answer, sink.into_inner())
}

/// Returns the number of events of a text.
pub fn count_of<R: Read + Drop>(alloc: Global, reader: R) -> Result<usize, TraceFault> {
    let trace = read_trace(alloc, &mut Source::new(reader))?;
    Ok(trace.events.len())
}
