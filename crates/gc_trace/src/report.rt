use gc_cert::WriteFault;
use gc_copy::heaps_have_addresses_as_names;
use gc_graph::{Reply, Sink};
use gc_model::StepReply;
use gc_text::Printer;
use gc_words::Space;
use gc_world::{Answer, World, runs_keep_states};
use std::io::Write;

/// The counts of a run, and the end and the free words of its space.
#[derive(Clone, Copy, Debug, PartialEq, Eq)]
pub struct Report {
    /// The number of events.
    pub events: u64,
    /// The number of objects that mutators made.
    pub made: u64,
    /// The number of allocations that found the heap full.
    pub full: u64,
    /// The number of collections that began.
    pub begun: u64,
    /// The number of replicated targets of roots.
    pub copied: u64,
    /// The number of scanned fields.
    pub scanned: u64,
    /// The number of applied log entries.
    pub applied: u64,
    /// The number of flips.
    pub flips: u64,
    /// The total number of pairs of all flips.
    pub pairs: u64,
    /// The number of collections that ended without a flip.
    pub dropped: u64,
    /// The number of flips that the checker refused.
    pub refused: u64,
    /// The first free word of the mutators' space after the last event.
    pub end: u64,
    /// The number of free words of that space.
    pub free: u64,
}

/// A report whose numbers are all 0.
const NOTHING: Report = Report {
    events: 0,
    made: 0,
    full: 0,
    begun: 0,
    copied: 0,
    scanned: 0,
    applied: 0,
    flips: 0,
    pairs: 0,
    dropped: 0,
    refused: 0,
    end: 0,
    free: 0,
};

impl Report {
    ghost use Rattle.std.specs.Prelude.{◌≡◌};
    ghost use Rattle.gc_words.specs.Space.{free_in, end_of};
    ghost use Rattle.gc_model.specs.declared.event.Answer.TheVariants.{Mutator, Collector};
    ghost use Rattle.gc_world.specs.History.{unmarked};
    ghost use Rattle.gc_trace.specs.Internal.Report.{FitsU64, with_count, with_answer};

    /// Returns the report of a run without events in this space.
    pub(crate) fn of_space(space: &Space) -> Report
        ensures { result ≡ record {
          events = 0;
          made = 0;
          full = 0;
          begun = 0;
          copied = 0;
          scanned = 0;
          applied = 0;
          flips = 0;
          pairs = 0;
          dropped = 0;
          refused = 0;
          end = end_of space.now;
          free = free_in space.now;
        } }
    {
        NOTHING.with_space(space)
    }

    /// Returns the same counts with the end and the free words of this space.
    pub(crate) fn with_space(self, space: &Space) -> Report
        ensures { result ≡ record self {
          end = end_of space.now;
          free = free_in space.now;
        } }
    {
        Report {
            end: u64::from(space.end()),
            free: u64::from(space.free()),
            ..self
        }
    }

    /// Counts an event by its answer.
    pub(crate) fn count(&mut self, answer: &Answer)
        requires { FitsU64 (with_answer self.old (unmarked answer.now)) }
        ensures { self.new ≡ with_answer self.old (unmarked answer.now) }
    {
        match answer {
            Answer::Mutator(reply) => self.count_reply(reply),
            Answer::Collector(reply) | Answer::Useful(reply) => self.count_step(reply),
        }
        self.events += 1;
    }

    /// Counts a mutator's reply, but not the event.
    fn count_reply(&mut self, reply: &Reply)
        requires { FitsU64 (with_answer self.old (Mutator reply.now)) }
        ensures { self.new ≡ with_count self.old (Mutator reply.now) }
    {
        match reply {
            Reply::Made => self.made += 1,
            Reply::Full => self.full += 1,
            _ => {}
        }
    }

    /// Counts the reply to a step, but not the event.
    fn count_step(&mut self, reply: &StepReply)
        requires { FitsU64 (with_answer self.old (Collector reply.now)) }
        ensures { self.new ≡ with_count self.old (Collector reply.now) }
    {
        match reply {
            StepReply::Begun => self.begun += 1,
            StepReply::Copied => self.copied += 1,
            StepReply::Scanned => self.scanned += 1,
            StepReply::Applied => self.applied += 1,
            StepReply::Flipped { pairs } => {
                self.flips += 1;
                self.pairs += u64::from(*pairs);
            }
            StepReply::Dropped => self.dropped += 1,
            StepReply::Refused => self.refused += 1,
            _ => {}
        }
    }
}

ghost use Rattle.std.specs.Prelude.{◌≡◌, ◌+◌, ◌++◌, ◌∷◌, ◌≤◌, [], true, length, decimal, OnOk, OnErr};
ghost use Rattle.std.specs.Io.KnownBytes.{Appends};
ghost use Rattle.gc_text.specs.Lines.{line};
ghost use Rattle.gc_graph.specs.Streams.{bytes_written, sink_failed, SendsFront};
ghost use Rattle.gc_world.specs.History.{answers_of};
ghost use Rattle.gc_world.specs.World.{present};
ghost use Rattle.gc_trace.specs.Report.{report_of, report_text};

/// Returns the report of a world's history, with the end and the free words of its space.
pub fn report_of(world: &World) -> Report
    ensures { result ≡ report_of (answers_of world.now.entries) (present world.now) }
{
    runs_keep_states();
    heaps_have_addresses_as_names();
    let mut report = Report::of_space(world.heap().space());
    for entry in world.history() {
        report.count(&entry.answer());
    }
    report
}

/// Writes the report's lines. If the writer fails, a prefix of them has been written. Does not allocate.
pub fn write_report<W: Write>(writer: &mut Sink<W>, report: &Report) -> Result<(), WriteFault>
    ensures ok { OnOk result (Appends
        (bytes_written W.contents writer.old) (bytes_written W.contents writer.new) (report_text report.now)) }
    ensures err { OnErr result (SendsFront
        (bytes_written W.contents writer.old) (bytes_written W.contents writer.new) (report_text report.now)) }
    ensures failed { OnErr result (sink_failed writer.new ≡ true) }
{
    let mut printer = Printer::new();
    print_report(&mut printer, report);
    match printer.flush(writer) {
        Ok(()) => Ok(()),
        Err(_) => Err(WriteFault::Write),
    }
}

fn print_report(printer: &mut Printer, report: &Report)
    requires { printer.old ≡ [] }
    ensures { printer.new ≡ report_text report.now }
{
    print_count(printer, b"events", report.events);
    print_count(printer, b"made", report.made);
    print_count(printer, b"full", report.full);
    print_count(printer, b"begun", report.begun);
    print_count(printer, b"copied", report.copied);
    print_count(printer, b"scanned", report.scanned);
    print_count(printer, b"applied", report.applied);
    print_count(printer, b"flips", report.flips);
    print_count(printer, b"pairs", report.pairs);
    print_count(printer, b"dropped", report.dropped);
    print_count(printer, b"refused", report.refused);
    print_count(printer, b"end", report.end);
    print_count(printer, b"free", report.free);
}

// Prints a name and a count.
fn print_count(printer: &mut Printer, name: &[u8], count: u64)
    requires room { length printer.old + length name.now + 22 ≤ 16384 }
    ensures text { printer.new ≡ printer.old ++ line (name.now ∷ decimal count ∷ []) }
    ensures room { length printer.new ≤ length printer.old + length name.now + 22 }
{
    printer.bytes(name);
    printer.bytes(b" ");
    printer.number(count);
    printer.bytes(b"\n");
}
