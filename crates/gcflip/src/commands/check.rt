ghost use Rattle.std.specs.Prelude.{◌≡◌, ◌≢◌, ◌↔◌, ◌⊎◌, true, IfSome, IfOk, IfErr, OnErr, Ok, Err};
ghost use Rattle.gc_graph.specs.Streams.{bytes_left, bytes_written, source_failed, sink_failed};
ghost use Rattle.gc_cert.specs.Grammar.{CertifiedPair};
ghost use Rattle.gc_cert.specs.Faults.{IsReadAsPair, MayFail};
ghost use Rattle.gc_cert.specs.declared.fault.PairFault.{PairFault};
ghost use Rattle.gc_check.specs.Headline.{Replicated};
ghost use Rattle.gc_check.specs.Texts.{TellsFront};
ghost use Rattle.gc_check.specs.declared.verdict.RunFault.{RunFault};
ghost use Rattle.gcflip.specs.Verdicts.{TellsVerdict};
ghost use Rattle.gcflip.specs.Outcomes.{IsOfCheck};
ghost use Rattle.gcflip.specs.Statuses.{verdict_status};

use crate::faults::Fault;
use gc_check::Verdict;
use gc_graph::{Sink, Source};
use std::alloc::Global;
use std::io::{Read, Write};
use std::thread::Threads;

/// Returns the exit status of a verdict.
fn status(verdict: &Verdict) -> u8
    ensures { result ≡ verdict_status verdict.now }
{
    match verdict {
        Verdict::Yes { .. } => 0,
        Verdict::Refused(_) => 1,
    }
}

/// Reads a pair text, checks the pair, writes the line of the verdict, and returns its status. Several threads may
/// share the work.
pub fn check_from<R: Read, W: Write>(
    rt: &(impl Threads + Sync),
    alloc: Global,
    reader: &mut Source<R>,
    writer: &mut Sink<W>,
) -> Result<u8, Fault>
    // The status is 0 exactly for a yes, and 1 exactly for a refusal. The verdict's line is written, and nothing else.
    ensures verdict { IfOk result (λ status. IfSome (bytes_left R.remaining reader.old) (λ text. TellsVerdict
        text status (bytes_written W.contents writer.old) (bytes_written W.contents writer.new))) }
    ensures statuses { IfOk result (λ status. (status ≡ 0) ⊎ (status ≡ 1)) }
    // The soundness theorem for the heaps that the text spells.
    ensures replicated { result ≡ Ok 0 → IfSome (bytes_left R.remaining reader.old)
        (λ text. (pair : CertifiedPair) → IsReadAsPair pair text → Replicated pair.old pair.new pair.pairs) }

    // A bad text gives its first fault.
    ensures fault { (fault : PairFault) → result ≡ Err (Fault.Check (RunFault.Pair fault)) →
        IfSome (bytes_left R.remaining reader.old) (λ text. MayFail fault text) }
    ensures checker { IfErr result IsOfCheck }
    ensures memory { result ≢ Err (Fault.Check (RunFault.Pair PairFault.NoMemory)) }
    ensures unread { (result ≡ Err (Fault.Check (RunFault.Pair PairFault.Read)))
        ↔ (source_failed reader.new ≡ true) }
    ensures unwritten { result ≡ Err (Fault.Check RunFault.Write) → sink_failed writer.new ≡ true }
    ensures silent { OnErr result (result ≢ Err (Fault.Check RunFault.Write) → writer.new ≡ writer.old) }
    // What went out is a prefix of the verdict's line.
    ensures front { result ≡ Err (Fault.Check RunFault.Write) → TellsFront (bytes_left R.remaining reader.old)
        (bytes_written W.contents writer.old) (bytes_written W.contents writer.new) }
{
    match gc_par::check_text_par(rt, alloc, reader, writer) {
        Ok(verdict) => Ok(status(&verdict)),
        Err(fault) => Err(Fault::Check(fault)),
    }
}
