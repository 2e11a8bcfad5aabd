ghost use Rattle.std.specs.Prelude.{◌≡◌, ◌∷◌, ◌++◌, ◌+◌, ◌≤◌, true, length, codes, OnOk, OnErr};
ghost use Rattle.std.specs.Io.KnownBytes.{Appends};
ghost use Rattle.gc_graph.specs.Streams.{bytes_written, sink_failed, SendsFront};
ghost use Rattle.gc_text.specs.Lines.{line};
ghost use Rattle.gc_check.specs.Verdict.{refusal_words, verdict_line};

use crate::refusal_parts::parts_of;
use crate::verdict::Verdict;
use gc_cert::WriteFault;
use gc_graph::Sink;
use gc_text::Printer;
use gc_words::Refusal;
use std::io::Write;

/// Writes the verdict's line. If the writer fails, a prefix of it went out.
pub fn write_verdict<W: Write>(writer: &mut Sink<W>, verdict: &Verdict) -> Result<(), WriteFault>
    ensures ok { OnOk result (Appends
        (bytes_written W.contents writer.old) (bytes_written W.contents writer.new) (verdict_line verdict.now)) }
    ensures err { OnErr result (SendsFront
        (bytes_written W.contents writer.old) (bytes_written W.contents writer.new) (verdict_line verdict.now)) }
    ensures failed { OnErr result (sink_failed writer.new ≡ true) }
{
    let mut printer = Printer::new();
    print_verdict(&mut printer, verdict);
    match printer.flush(writer) {
        Ok(()) => Ok(()),
        Err(_) => Err(WriteFault::Write),
    }
}

#[tactic(auto, unfolding(crate::specs::Verdict::verdict_words))]
fn print_verdict(printer: &mut Printer, verdict: &Verdict)
    requires { length printer.old + 128 ≤ 16384 }
    ensures { printer.new ≡ printer.old ++ verdict_line verdict.now }
{
    match verdict {
        Verdict::Yes { pairs } => {
            printer.numbered(b"yes ", u64::from(*pairs));
            printer.bytes(b"\n");
        }
        Verdict::Refused(refusal) => print_refusal(printer, *refusal),
    }
}

#[tactic(auto, unfolding(crate::specs::Verdict::refusal_words))]
fn print_refusal(printer: &mut Printer, refusal: Refusal)
    requires { length printer.old + 128 ≤ 16384 }
    ensures { printer.new ≡ printer.old ++ line (codes "refused" ∷ refusal_words refusal) }
{
    let parts = parts_of(refusal);
    printer.numbered(b"refused ", u64::from(parts.number));
    printer.bytes(b" ");
    printer.bytes(parts.name);
    if let Some(place) = parts.place {
        printer.numbered(b" ", place);
    }
    if let Some(field) = parts.field {
        printer.numbered(b" ", field);
    }
    printer.bytes(b"\n");
}
