ghost use Rattle.std.specs.Prelude.{◌≡◌, ◌≢◌, ◌≤◌, ◌↔◌, true, Some, None, IfSome, IfOk, OnOk, OnErr, Err};
ghost use Rattle.std.specs.Io.KnownBytes.{Appends};
ghost use Rattle.gc_graph.specs.Streams.{bytes_left, bytes_written, source_failed, sink_failed, SendsFront};
ghost use Rattle.gc_cert.specs.Grammar.{CertifiedPair, spelling};
ghost use Rattle.gc_trace.specs.Faults.{ReadingMayFail};
ghost use Rattle.gc_trace.specs.Plays.{IsTraceAnd, trace_answers, report_in};
ghost use Rattle.gc_trace.specs.Replies.{reply_text};
ghost use Rattle.gc_trace.specs.Report.{report_text};
ghost use Rattle.gc_trace.specs.Flips.{nth_flip};
ghost use Rattle.gc_trace.specs.declared.fault.TraceFault.{TraceFault};

use crate::fault::{PlayFault, TraceFault};
use crate::flips::nth_flip;
use crate::playing::{Gather, play_all};
use crate::reader::read_trace;
use crate::report::{Report, write_report};
use gc_cert::{pair_fits, write_pair};
use gc_graph::{Sink, Source};
use std::alloc::Global;
use std::io::{Read, Write};

/// Reads and plays a trace. After the last event, writes the reply lines and returns the report of the run.
pub fn play<R: Read, W: Write>(
    alloc: Global,
    reader: &mut Source<R>,
    writer: &mut Sink<W>,
) -> Result<Report, PlayFault>
    // All reply lines are written, and nothing else.
    ensures played { IfOk result (λ report. IsTraceAnd (bytes_left R.remaining reader.old) (λ t. (report ≡ report_in t) × Appends
        (bytes_written W.contents writer.old) (bytes_written W.contents writer.new) (reply_text (trace_answers t)))) }
    // A bad text gives its first fault.
    ensures fault { (fault : TraceFault) → result ≡ Err (PlayFault.Trace fault) →
        IfSome (bytes_left R.remaining reader.old) (λ text. ReadingMayFail fault text) }
    ensures memory { result ≢ Err (PlayFault.Trace TraceFault.NoMemory) }
    ensures runs { result ≢ Err PlayFault.NoSuchFlip }
    ensures unread { (result ≡ Err (PlayFault.Trace TraceFault.Read)) ↔ (source_failed reader.new ≡ true) }
    ensures unwritten { result ≡ Err PlayFault.Write → sink_failed writer.new ≡ true }
    // Nothing goes out before the last event has run.
    ensures silent { OnErr result (result ≢ Err PlayFault.Write → writer.new ≡ writer.old) }
    // A prefix of the reply lines went out.
    ensures front { result ≡ Err PlayFault.Write → IsTraceAnd (bytes_left R.remaining reader.old) (λ t. SendsFront
        (bytes_written W.contents writer.old) (bytes_written W.contents writer.new) (reply_text (trace_answers t))) }
{
    let played = play_all(alloc, reader, Gather::Replies)?;
    match writer.write_all(&played.replies) {
        Ok(()) => Ok(played.report),
        Err(_) => Err(PlayFault::Write),
    }
}

/// Reads and plays a trace, and writes only the text of its report.
pub fn play_report<R: Read, W: Write>(
    alloc: Global,
    reader: &mut Source<R>,
    writer: &mut Sink<W>,
) -> Result<Report, PlayFault>
    // The whole text of the report is written, and nothing else.
    ensures played { IfOk result (λ report. IsTraceAnd (bytes_left R.remaining reader.old) (λ t. (report ≡ report_in t) × Appends
        (bytes_written W.contents writer.old) (bytes_written W.contents writer.new) (report_text (report_in t)))) }
    // A bad text gives its first fault.
    ensures fault { (fault : TraceFault) → result ≡ Err (PlayFault.Trace fault) →
        IfSome (bytes_left R.remaining reader.old) (λ text. ReadingMayFail fault text) }
    ensures memory { result ≢ Err (PlayFault.Trace TraceFault.NoMemory) }
    ensures runs { result ≢ Err PlayFault.NoSuchFlip }
    ensures unread { (result ≡ Err (PlayFault.Trace TraceFault.Read)) ↔ (source_failed reader.new ≡ true) }
    ensures unwritten { result ≡ Err PlayFault.Write → sink_failed writer.new ≡ true }
    // Nothing goes out before the last event has run.
    ensures silent { OnErr result (result ≢ Err PlayFault.Write → writer.new ≡ writer.old) }
    // A prefix of the report's text went out.
    ensures front { result ≡ Err PlayFault.Write → IsTraceAnd (bytes_left R.remaining reader.old) (λ t. SendsFront
        (bytes_written W.contents writer.old) (bytes_written W.contents writer.new) (report_text (report_in t))) }
{
    let report = play_all(alloc, reader, Gather::Nothing)?.report;
    match write_report(writer, &report) {
        Ok(()) => Ok(report),
        Err(_) => Err(PlayFault::Write),
    }
}

/// Reads a trace, plays it up to its n-th flip, counted from 1, and writes the text of that flip's pair. The text has
/// both images as the checker saw them, and the certificate.
pub fn play_pair<R: Read, W: Write>(
    alloc: Global,
    n: u32,
    reader: &mut Source<R>,
    writer: &mut Sink<W>,
) -> Result<(), PlayFault>
    requires { 1 ≤ n }
    // The whole text of the pair is written, and nothing else.
    ensures played { OnOk result (IsTraceAnd (bytes_left R.remaining reader.old) (λ t. (pair : CertifiedPair)
        × (nth_flip n t ≡ Some pair)
        × Appends (bytes_written W.contents writer.old) (bytes_written W.contents writer.new) (spelling pair))) }
    // The trace has fewer flips.
    ensures none { result ≡ Err PlayFault.NoSuchFlip →
        IsTraceAnd (bytes_left R.remaining reader.old) (λ t. nth_flip n t ≡ None) }
    // A bad text gives its first fault.
    ensures fault { (fault : TraceFault) → result ≡ Err (PlayFault.Trace fault) →
        IfSome (bytes_left R.remaining reader.old) (λ text. ReadingMayFail fault text) }
    ensures memory { result ≢ Err (PlayFault.Trace TraceFault.NoMemory) }
    ensures unread { (result ≡ Err (PlayFault.Trace TraceFault.Read)) ↔ (source_failed reader.new ≡ true) }
    ensures unwritten { result ≡ Err PlayFault.Write → sink_failed writer.new ≡ true }
    // Nothing goes out before the flip is found.
    ensures silent { OnErr result (result ≢ Err PlayFault.Write → writer.new ≡ writer.old) }
    // A prefix of the pair's text went out.
    ensures front { result ≡ Err PlayFault.Write → IsTraceAnd (bytes_left R.remaining reader.old) (λ t. (pair : CertifiedPair)
        × (nth_flip n t ≡ Some pair)
        × SendsFront (bytes_written W.contents writer.old) (bytes_written W.contents writer.new) (spelling pair)) }
{
    let trace = read_trace(alloc, reader)?;
    let Some(file) = nth_flip(alloc, &trace, n)? else {
        return Err(PlayFault::NoSuchFlip);
    };
    let old = file.old.as_ref();
    let new = file.new.as_ref();
    let fits = pair_fits(old, new, &file.pairs);
    prove!(fits);
    match write_pair(writer, old, new, &file.pairs) {
        Ok(()) => Ok(()),
        Err(_) => Err(PlayFault::Write),
    }
}
