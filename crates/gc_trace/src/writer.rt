ghost use Rattle.std.specs.Prelude.{◌≡◌, ◌∷◌, ◌++◌, ◌+◌, ◌≤◌, [], true, length, decimal, OnOk, OnErr};
ghost use Rattle.std.specs.Io.KnownBytes.{Appends};
ghost use Rattle.gc_graph.specs.Streams.{bytes_written, sink_failed, SendsFront};
ghost use Rattle.gc_text.specs.Lines.{space};
ghost use Rattle.gc_trace.specs.Grammar.{slot, event_line, trace_heading, trace_text, version_of, least_version, least_trace};
ghost use Rattle.gc_world.specs.History.{events_of};
ghost use Rattle.gc_model.specs.declared.event.Event.TheVariants.{Mutate, Collect};

use crate::trace::{RAW, SIZED};
use gc_cert::WriteFault;
use gc_graph::{Op, Sink, Slot};
use gc_model::{Event, Step};
use gc_text::Printer;
use gc_world::Entry;
use std::io::Write;

/// An upper bound on the number of bytes in a line of a trace.
const LINE: usize = 128;

/// Prints a space and a number.
fn number_token(printer: &mut Printer, n: u64)
    requires { length printer.old + 21 ≤ 16384 }
    ensures text { printer.new ≡ printer.old ++ space ∷ decimal n }
    ensures room { length printer.new ≤ length printer.old + 21 }
{
    printer.bytes(b" ");
    printer.number(n);
}

/// Prints a space and a slot.
#[tactic(auto, unfolding(crate::specs::Grammar::slot))]
fn slot_token(printer: &mut Printer, token: Slot)
    requires { length printer.old + 22 ≤ 16384 }
    ensures text { printer.new ≡ printer.old ++ space ∷ slot token }
    ensures room { length printer.new ≤ length printer.old + 22 }
{
    if token.is_shared() {
        printer.bytes(b" g");
    } else {
        printer.bytes(b" r");
    }
    printer.number(u64::from(token.index()));
}

/// Prints two slots, each after a space.
fn two_slot_tokens(printer: &mut Printer, first: Slot, second: Slot)
    requires { length printer.old + 44 ≤ 16384 }
    ensures text { printer.new ≡ (printer.old ++ space ∷ slot first) ++ space ∷ slot second }
    ensures room { length printer.new ≤ length printer.old + 44 }
{
    slot_token(printer, first);
    slot_token(printer, second);
}

/// Prints the line of mutator `m`'s command.
#[tactic(auto, unfolding(crate::specs::Grammar::op_tokens, crate::specs::Grammar::event_tokens, crate::specs::Grammar::event_line))]
fn print_command(printer: &mut Printer, m: u8, op: &Op)
    requires { length printer.old + 128 ≤ 16384 }
    ensures { printer.new ≡ printer.old ++ event_line (Mutate m op.now) }
{
    printer.bytes(b"m");
    number_token(printer, u64::from(m));
    match *op {
        Op::New { d, kind, len } => {
            printer.bytes(b" new");
            slot_token(printer, d);
            number_token(printer, u64::from(kind));
            number_token(printer, u64::from(len));
        }
        Op::NewRaw { d, kind, len } => {
            printer.bytes(b" raw");
            slot_token(printer, d);
            number_token(printer, u64::from(kind));
            number_token(printer, u64::from(len));
        }
        Op::Num { d, n } => {
            printer.bytes(b" num");
            slot_token(printer, d);
            number_token(printer, n.get());
        }
        Op::Nil { d } => {
            printer.bytes(b" nil");
            slot_token(printer, d);
        }
        Op::Move { d, s } => {
            printer.bytes(b" move");
            two_slot_tokens(printer, d, s);
        }
        Op::Get { d, s, i } => {
            printer.bytes(b" get");
            two_slot_tokens(printer, d, s);
            number_token(printer, u64::from(i));
        }
        Op::Put { s, i, t } => {
            printer.bytes(b" put");
            slot_token(printer, s);
            number_token(printer, u64::from(i));
            slot_token(printer, t);
        }
        Op::Same { s, t } => {
            printer.bytes(b" same");
            two_slot_tokens(printer, s, t);
        }
        Op::Look { s } => {
            printer.bytes(b" look");
            slot_token(printer, s);
        }
    }
    printer.bytes(b"\n");
}

/// Prints the line of a step.
#[tactic(auto, unfolding(crate::specs::Grammar::step_tokens, crate::specs::Grammar::event_tokens, crate::specs::Grammar::event_line))]
fn print_step(printer: &mut Printer, step: Step)
    requires { length printer.old + 128 ≤ 16384 }
    ensures { printer.new ≡ printer.old ++ event_line (Collect step) }
{
    match step {
        Step::Begin => printer.bytes(b"c begin\n"),
        Step::BeginSized(size) => {
            printer.bytes(b"c begin");
            number_token(printer, u64::from(size));
            printer.bytes(b"\n");
        }
        Step::Roots => printer.bytes(b"c roots\n"),
        Step::Scan => printer.bytes(b"c scan\n"),
        Step::Apply(k) => {
            printer.bytes(b"c apply");
            number_token(printer, u64::from(k));
            printer.bytes(b"\n");
        }
        Step::Flip => printer.bytes(b"c flip\n"),
        Step::Drop => printer.bytes(b"c drop\n"),
    }
}

/// Prints the line of an event.
fn print_event(printer: &mut Printer, event: &Event)
    requires { length printer.old + 128 ≤ 16384 }
    ensures { printer.new ≡ printer.old ++ event_line event.now }
{
    match event {
        Event::Mutate { m, op } => print_command(printer, *m, op),
        Event::Collect(step) => print_step(printer, *step),
    }
}

/// Prints lines 1 and 2.
#[tactic(auto, unfolding(crate::specs::Grammar::trace_heading))]
fn print_heading(printer: &mut Printer, version: u8, size: u32, mutators: u8)
    requires { printer.old ≡ [] }
    ensures { printer.new ≡ trace_heading version size mutators }
{
    printer.bytes(b"heaptrace");
    number_token(printer, u64::from(version));
    printer.bytes(b"\nspace");
    number_token(printer, u64::from(size));
    printer.bytes(b" mutators");
    number_token(printer, u64::from(mutators));
    printer.bytes(b"\n");
}

/// Returns the first version that has the event's line.
fn version_of(event: &Event) -> u8
    ensures { result ≡ version_of event.now }
{
    match event {
        Event::Mutate {
            op: Op::NewRaw { .. },
            ..
        } => RAW,
        Event::Collect(Step::BeginSized(_)) => SIZED,
        _ => 1,
    }
}

/// Returns the first version that has the lines of all events.
#[tactic(auto, using(crate::proofs::Versions::least_all))]
fn least_version(history: &[Entry]) -> u8
    ensures { result ≡ least_version (events_of history.now) }
{
    let mut version = 1;
    for entry in history {
        version = version.max(version_of(&entry.event()));
    }
    version
}

/// Writes the trace of a history's events, for a space of `size` words and `mutators` mutators. The text is in the
/// first version that has all its lines. If the writer fails, a prefix of the text has been written. Does not
/// allocate.
pub fn write_trace<W: Write>(
    writer: &mut Sink<W>,
    size: u32,
    mutators: u8,
    history: &[Entry],
) -> Result<(), WriteFault>
    ensures ok { OnOk result (Appends
        (bytes_written W.contents writer.old) (bytes_written W.contents writer.new)
        (trace_text (least_trace size mutators (events_of history.now)))) }
    ensures err { OnErr result (SendsFront
        (bytes_written W.contents writer.old) (bytes_written W.contents writer.new)
        (trace_text (least_trace size mutators (events_of history.now)))) }
    ensures failed { OnErr result (sink_failed writer.new ≡ true) }
{
    let mut printer = Printer::new();
    print_heading(&mut printer, least_version(history), size, mutators);
    for entry in history {
        match printer.make_room(writer, LINE) {
            Ok(()) => print_event(&mut printer, &entry.event()),
            Err(_) => return Err(WriteFault::Write),
        }
    }
    match printer.flush(writer) {
        Ok(()) => Ok(()),
        Err(_) => Err(WriteFault::Write),
    }
}
