ghost use Rattle.std.specs.Prelude.{◌≡◌, ◌+◌, ◌↔◌, drop, Some, true, IfSome, IfOk, MatchResult, Err};
ghost use Rattle.gc_graph.specs.Streams.{bytes_left, source_failed};
ghost use Rattle.gc_trace.specs.Grammar.{IsRecording, IsInRange};
ghost use Rattle.gc_trace.specs.Faults.{trace_limit, IsReadAsTrace, ReadingMayFail};
ghost use Rattle.gc_trace.specs.Views.{recording};

use crate::event_reader::EventReader;
use crate::fault::TraceFault;
use crate::trace::Trace;
use gc_graph::Source;
use std::alloc::Global;
use std::io::Read;

#[tactic(auto, using(crate::proofs::Ranges::in_range))]
/// Reads a trace text to its end. Returns the trace, or the first fault. If the text has more than 16777216 bytes,
/// reads 16777217 of them and returns `TooLarge`.
pub fn read_trace<R: Read>(alloc: Global, reader: &mut Source<R>) -> Result<Trace, TraceFault>
    ensures exact { IfSome (bytes_left R.remaining reader.old) (λ text.
        MatchResult result (λ t. IsReadAsTrace (recording t) text) (λ fault. ReadingMayFail fault text)) }
    ensures sound { IfOk result (λ t. IsRecording (recording t)) }
    ensures ranges { IfOk result (λ t. IsInRange (recording t)) }
    ensures stops { result ≡ Err TraceFault.TooLarge → IfSome (bytes_left R.remaining reader.old)
        (λ text. bytes_left R.remaining reader.new ≡ Some (drop (trace_limit + 1) text)) }
    ensures read { (result ≡ Err TraceFault.Read) ↔ (source_failed reader.new ≡ true) }
{
    let mut lines = EventReader::open(alloc, reader)?;
    let mut events = Vec::new(alloc);
    while let Some(event) = lines.next(reader)? {
        events.push(event)?;
    }
    Ok(Trace {
        version: lines.version,
        size: lines.size,
        mutators: lines.mutators,
        events,
    })
}
