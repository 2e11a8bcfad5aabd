use crate::commands::ThreadsRunFault;
use crate::faults::statuses::{play_status, run_status, threads_run_status};
use gc_check::RunFault;
use gc_graph::Sink;
use gc_text::{Message, Printer};
use gc_trace::PlayFault;
use std::io::Write;
use thiserror::Error;

/// Why the program did not perform its task.
#[derive(Clone, Copy, Debug, PartialEq, Eq, Error)]
#[error("{}", self.message())]
pub enum Fault {
    /// The file cannot be opened.
    Open,
    /// An allocation failed while the arguments were read or the file was opened.
    NoMemory,
    /// Playing a trace failed.
    Play(PlayFault),
    /// Checking a pair of heaps failed.
    Check(RunFault),
    /// Running the scripts of a trace in threads failed.
    Threads(ThreadsRunFault),
}

impl Fault {
    ghost use Rattle.std.specs.Prelude.{◌≡◌};
    ghost use Rattle.gcflip.specs.Faults.{fault_text};
    ghost use Rattle.gcflip.specs.Statuses.{status_of};

    /// Returns the text of the fault.
    #[tactic(auto, unfolding(crate::specs::Faults::fault_text))]
    pub fn message(&self) -> Message
        ensures { result ≡ fault_text self.now }
    {
        match self {
            Fault::Open => Message::text("cannot read"),
            Fault::NoMemory => Message::text("no memory"),
            Fault::Play(fault) => fault.message(),
            Fault::Check(fault) => fault.message(),
            Fault::Threads(fault) => fault.message(),
        }
    }

    /// Returns the status that the program ends with.
    pub fn status(&self) -> u8
        ensures { result ≡ status_of self.now }
    {
        match self {
            Fault::Open => 4,
            Fault::NoMemory => 5,
            Fault::Play(fault) => play_status(fault),
            Fault::Check(fault) => run_status(fault),
            Fault::Threads(fault) => threads_run_status(fault),
        }
    }
}

impl From<PlayFault> for Fault {
    ghost use Rattle.std.specs.Prelude.{◌≡◌};
    ghost use Rattle.gcflip.specs.declared.faults.fault.Fault.TheVariants as faults;

    ghost from_gives = { λ fault made. made ≡ faults.Play fault };

    fn from(fault: PlayFault) -> Fault {
        Fault::Play(fault)
    }
}

ghost use Rattle.std.specs.Prelude.{◌≡◌, [], false};
ghost use Rattle.std.specs.Io.KnownBytes.{Appends};
ghost use Rattle.gc_graph.specs.Streams.{bytes_written, sink_failed, SendsFront};
ghost use Rattle.gc_text.specs.Lines.{ended};
ghost use Rattle.gcflip.specs.Faults.{fault_text};
ghost use Rattle.gcflip.specs.Statuses.{status_of};

/// Appends the fault's line to an empty printer.
fn print_line(printer: &mut Printer, fault: &Fault)
    requires { printer.old ≡ [] }
    ensures { printer.new ≡ ended (fault_text fault.now) }
{
    fault.message().print(printer);
    printer.bytes(b"\n");
}

/// Writes the fault's line, and returns the fault's status. If the writer fails, a prefix of the line went out.
pub fn write_fault<W: Write>(writer: &mut Sink<W>, fault: &Fault) -> u8
    ensures status { result ≡ status_of fault.now }
    ensures front { SendsFront (bytes_written W.contents writer.old) (bytes_written W.contents writer.new) (ended (fault_text fault.now)) }
    ensures whole { sink_failed writer.new ≡ false →
        Appends (bytes_written W.contents writer.old) (bytes_written W.contents writer.new) (ended (fault_text fault.now)) }
{
    let mut printer = Printer::new();
    print_line(&mut printer, fault);
    // The status is the same even if the line cannot be written.
    let _ = printer.flush(writer);
    fault.status()
}
