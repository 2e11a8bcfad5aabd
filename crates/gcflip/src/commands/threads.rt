ghost use Rattle.std.specs.Prelude.{◌≡◌, ◌≢◌, ◌↔◌, List, true, IfSome, IfOk, IfErr, OnOk, OnErr, Err};
ghost use Rattle.std.specs.Io.KnownBytes.{Appends};
ghost use Rattle.gc_graph.specs.Streams.{bytes_left, bytes_written, source_failed, sink_failed, SendsFront};
ghost use Rattle.gc_world.specs.declared.entry.Entry.{Entry};
ghost use Rattle.gc_trace.specs.Faults.{ReadingMayFail};
ghost use Rattle.gc_trace.specs.Plays.{IsTraceAnd};
ghost use Rattle.gc_trace.specs.declared.fault.TraceFault.{TraceFault};
ghost use Rattle.gc_shared.specs.declared.fault.ThreadsFault.{ThreadsFault};
ghost use Rattle.gcflip.specs.Outcomes.{IsOfThreads};
ghost use Rattle.gcflip.specs.ThreadedRuns.{IsThreadedRun, recorded};

use crate::faults::Fault;
use gc_graph::{NoMemory, Sink, Source};
use gc_shared::{Gate, ThreadsFault, run_threads};
use gc_text::Message;
use gc_trace::{TraceFault, read_trace, scripts_are_commands, scripts_of, write_trace};
use std::alloc::Global;
use std::io::{Read, Write};
use std::sync::Wait;
use std::thread::Threads;
use thiserror::Error;

/// Why the scripts of a trace did not run in threads.
#[derive(Clone, Copy, Debug, PartialEq, Eq, Error)]
#[error("{}", self.message())]
pub enum ThreadsRunFault {
    /// The trace cannot be read. Never holds `TraceFault::NoMemory`.
    Trace(TraceFault),
    /// The threads did not run to their end, or closing failed. Never holds `ThreadsFault::NoMemory`, but may hold
    /// `CloseKind::NoMemory`.
    Threads(ThreadsFault),
    /// An allocation failed, while reading or while running.
    NoMemory,
    /// The writer failed.
    Write,
}

impl ThreadsRunFault {
    ghost use Rattle.std.specs.Prelude.{◌≡◌};
    ghost use Rattle.gcflip.specs.Faults.{threads_run_fault_text};

    /// Returns the text of the fault.
    pub fn message(&self) -> Message
        ensures { result ≡ threads_run_fault_text self.now }
    {
        match self {
            ThreadsRunFault::Trace(fault) => fault.message(),
            ThreadsRunFault::Threads(fault) => fault.message(),
            ThreadsRunFault::NoMemory => Message::text("no memory"),
            ThreadsRunFault::Write => Message::text("cannot write"),
        }
    }
}

impl From<TraceFault> for ThreadsRunFault {
    ghost use Rattle.std.specs.Prelude.{◌≡◌};
    ghost use Rattle.gcflip.specs.Internal.ThreadedRuns.{threads_fault_of};

    ghost from_gives = { λ fault made. made ≡ threads_fault_of fault };

    fn from(fault: TraceFault) -> ThreadsRunFault {
        match fault {
            TraceFault::NoMemory => ThreadsRunFault::NoMemory,
            fault => ThreadsRunFault::Trace(fault),
        }
    }
}

impl From<ThreadsFault> for ThreadsRunFault {
    ghost use Rattle.std.specs.Prelude.{◌≡◌};
    ghost use Rattle.gcflip.specs.Internal.ThreadedRuns.{fault_of_threads};

    ghost from_gives = { λ fault made. made ≡ fault_of_threads fault };

    fn from(fault: ThreadsFault) -> ThreadsRunFault {
        match fault {
            ThreadsFault::NoMemory => ThreadsRunFault::NoMemory,
            fault => ThreadsRunFault::Threads(fault),
        }
    }
}

impl From<NoMemory> for ThreadsRunFault {
    ghost use Rattle.std.specs.Prelude.{◌≡◌};
    ghost use Rattle.gcflip.specs.declared.commands.threads.ThreadsRunFault.TheVariants as faults;

    ghost from_gives = { λ fault made. made ≡ faults.NoMemory };

    fn from(_fault: NoMemory) -> ThreadsRunFault {
        ThreadsRunFault::NoMemory
    }
}

/// A gate that lets every call pass.
struct Passing;

impl Gate for Passing {
    ghost use Rattle.std.specs.Prelude.{◌≡◌, true};

    fn before(&self, _seat: u32, _n: u64) -> bool
        ensures { result ≡ true }
    {
        true
    }

    fn after(&self, _seat: u32, _n: u64) {}
}

/// Reads a trace, and runs each mutator's commands in its own thread. One more thread performs `turns` useful steps.
/// Then writes the history as a trace. Ignores the collector steps of the text.
pub fn threads_run<R: Read, W: Write>(
    rt: &(impl Threads + Wait + Sync),
    alloc: Global,
    turns: u64,
    reader: &mut Source<R>,
    writer: &mut Sink<W>,
) -> Result<(), ThreadsRunFault>
    // The whole recorded trace is written, and nothing else.
    ensures ran { OnOk result (IsTraceAnd (bytes_left R.remaining reader.old) (λ t. (entries : List Entry)
        × IsThreadedRun t turns entries
        × Appends (bytes_written W.contents writer.old) (bytes_written W.contents writer.new) (recorded t entries))) }
    // A bad text gives its first fault.
    ensures fault { (fault : TraceFault) → result ≡ Err (ThreadsRunFault.Trace fault) →
        IfSome (bytes_left R.remaining reader.old) (λ text. ReadingMayFail fault text) }
    ensures memory { (result ≢ Err (ThreadsRunFault.Trace TraceFault.NoMemory))
        × (result ≢ Err (ThreadsRunFault.Threads ThreadsFault.NoMemory)) }
    ensures unread { (result ≡ Err (ThreadsRunFault.Trace TraceFault.Read)) ↔ (source_failed reader.new ≡ true) }
    ensures unwritten { result ≡ Err ThreadsRunFault.Write → sink_failed writer.new ≡ true }
    // Nothing goes out before the world is closed.
    ensures silent { OnErr result (result ≢ Err ThreadsRunFault.Write → writer.new ≡ writer.old) }
    // What went out is a prefix of the recorded trace.
    ensures front { result ≡ Err ThreadsRunFault.Write → IsTraceAnd (bytes_left R.remaining reader.old) (λ t. (entries : List Entry)
        × IsThreadedRun t turns entries
        × SendsFront (bytes_written W.contents writer.old) (bytes_written W.contents writer.new) (recorded t entries)) }
{
    scripts_are_commands();
    let trace = read_trace(alloc, reader)?;
    let scripts = scripts_of(alloc, &trace)?;
    let world = run_threads(rt, alloc, trace.size, scripts, turns, &Passing)?;
    match write_trace(writer, trace.size, trace.mutators, world.history()) {
        Ok(()) => Ok(()),
        Err(_) => Err(ThreadsRunFault::Write),
    }
}

/// Runs the scripts of a trace in threads, as `threads_run` does. Returns status 0.
pub fn threads_from<R: Read, W: Write>(
    rt: &(impl Threads + Wait + Sync),
    alloc: Global,
    turns: u64,
    reader: &mut Source<R>,
    writer: &mut Sink<W>,
) -> Result<u8, Fault>
    // The whole recorded trace is written, and nothing else.
    ensures ran { OnOk result (IsTraceAnd (bytes_left R.remaining reader.old) (λ t. (entries : List Entry)
        × IsThreadedRun t turns entries
        × Appends (bytes_written W.contents writer.old) (bytes_written W.contents writer.new) (recorded t entries))) }
    ensures statuses { IfOk result (λ status. status ≡ 0) }
    ensures threads { IfErr result IsOfThreads }
    // A bad text gives its first fault.
    ensures fault { (fault : TraceFault) → result ≡ Err (Fault.Threads (ThreadsRunFault.Trace fault)) →
        IfSome (bytes_left R.remaining reader.old) (λ text. ReadingMayFail fault text) }
    ensures memory { (result ≢ Err (Fault.Threads (ThreadsRunFault.Trace TraceFault.NoMemory)))
        × (result ≢ Err (Fault.Threads (ThreadsRunFault.Threads ThreadsFault.NoMemory))) }
    ensures unread { (result ≡ Err (Fault.Threads (ThreadsRunFault.Trace TraceFault.Read)))
        ↔ (source_failed reader.new ≡ true) }
    ensures unwritten { result ≡ Err (Fault.Threads ThreadsRunFault.Write) → sink_failed writer.new ≡ true }
    ensures silent { OnErr result (result ≢ Err (Fault.Threads ThreadsRunFault.Write) → writer.new ≡ writer.old) }
    // What went out is a prefix of the recorded trace.
    ensures front { result ≡ Err (Fault.Threads ThreadsRunFault.Write) →
        IsTraceAnd (bytes_left R.remaining reader.old) (λ t. (entries : List Entry)
        × IsThreadedRun t turns entries
        × SendsFront (bytes_written W.contents writer.old) (bytes_written W.contents writer.new) (recorded t entries)) }
{
    match threads_run(rt, alloc, turns, reader, writer) {
        Ok(()) => Ok(0),
        Err(fault) => Err(Fault::Threads(fault)),
    }
}
