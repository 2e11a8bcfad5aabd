ghost use Rattle.std.specs.Prelude.{◌≡◌, ◌≤◌, Some, IfOk, IfErr, OnOk};
ghost use Rattle.std.specs.Io.KnownBytes.{Appends};
ghost use Rattle.gc_graph.specs.Streams.{bytes_left, bytes_written};
ghost use Rattle.gc_cert.specs.Grammar.{CertifiedPair, spelling};
ghost use Rattle.gc_trace.specs.Flips.{nth_flip};
ghost use Rattle.gc_trace.specs.Plays.{IsTraceAnd, trace_answers, report_in};
ghost use Rattle.gc_trace.specs.Replies.{reply_text};
ghost use Rattle.gc_trace.specs.Report.{report_text};
ghost use Rattle.gcflip.specs.Outcomes.{IsOfPlay};

use crate::faults::Fault;
use gc_graph::{Sink, Source};
use std::alloc::Global;
use std::io::{Read, Write};

/// Reads a trace, plays it, and writes the line of each reply. Returns status 0.
pub fn play_from<R: Read, W: Write>(
    alloc: Global,
    reader: &mut Source<R>,
    writer: &mut Sink<W>,
) -> Result<u8, Fault>
    // All reply lines are written, and nothing else.
    ensures played { OnOk result (IsTraceAnd (bytes_left R.remaining reader.old) (λ t. Appends
        (bytes_written W.contents writer.old) (bytes_written W.contents writer.new) (reply_text (trace_answers t)))) }
    ensures statuses { IfOk result (λ status. status ≡ 0) }
    ensures player { IfErr result IsOfPlay }
{
    gc_trace::play(alloc, reader, writer)?;
    Ok(0)
}

/// Reads a trace, plays it, and writes its report. Returns status 0.
pub fn report_from<R: Read, W: Write>(
    alloc: Global,
    reader: &mut Source<R>,
    writer: &mut Sink<W>,
) -> Result<u8, Fault>
    // The whole text of the report is written, and nothing else.
    ensures reported { OnOk result (IsTraceAnd (bytes_left R.remaining reader.old) (λ t. Appends
        (bytes_written W.contents writer.old) (bytes_written W.contents writer.new) (report_text (report_in t)))) }
    ensures statuses { IfOk result (λ status. status ≡ 0) }
    ensures player { IfErr result IsOfPlay }
{
    gc_trace::play_report(alloc, reader, writer)?;
    Ok(0)
}

/// Reads a trace, plays it up to its n-th flip, counted from 1, and writes the pair of that flip. Returns status 0.
pub fn pair_from<R: Read, W: Write>(
    alloc: Global,
    n: u32,
    reader: &mut Source<R>,
    writer: &mut Sink<W>,
) -> Result<u8, Fault>
    requires { 1 ≤ n }
    // The whole text of the pair is written, and nothing else.
    ensures written { OnOk result (IsTraceAnd (bytes_left R.remaining reader.old) (λ t. (pair : CertifiedPair)
        × (nth_flip n t ≡ Some pair)
        × Appends (bytes_written W.contents writer.old) (bytes_written W.contents writer.new) (spelling pair))) }
    ensures statuses { IfOk result (λ status. status ≡ 0) }
    ensures player { IfErr result IsOfPlay }
{
    gc_trace::play_pair(alloc, n, reader, writer)?;
    Ok(0)
}
