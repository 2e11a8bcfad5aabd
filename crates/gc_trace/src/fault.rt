use gc_graph::NoMemory;
use gc_text::{Message, ReadFault};
use std::alloc::AllocFailed;
use thiserror::Error;

/// Why a trace cannot be read: the first fault of the text. Lines are counted from 1.
#[derive(Clone, Copy, Debug, PartialEq, Eq, Error)]
#[error("{}", self.message())]
pub enum TraceFault {
    /// The reader failed.
    Read,
    /// The text has more than 16777216 bytes.
    TooLarge,
    /// Lines 1 and 2 are not a valid heading.
    BadHeader,
    /// This line is not an event line, or lacks its line feed.
    BadLine(u64),
    /// This line is an event line, but its mutator, or the mutator of its log, does not exist.
    NoSuchMutator(u64),
    /// An allocation failed.
    NoMemory,
}

impl TraceFault {
    ghost use Rattle.std.specs.Prelude.{◌≡◌};
    ghost use Rattle.gc_trace.specs.FaultTexts.{trace_fault_text};

    /// Returns the fault's text.
    pub fn message(&self) -> Message
        ensures { result ≡ trace_fault_text self.now }
    {
        match self {
            TraceFault::Read => Message::text("cannot read"),
            TraceFault::TooLarge => Message::text("trace: too large"),
            TraceFault::BadHeader => Message::text("trace: bad header"),
            TraceFault::BadLine(n) => Message::numbered("trace: bad line ", *n),
            TraceFault::NoSuchMutator(n) => Message::numbered(
                "trace: no such mutator at line ",
                *n,
            ),
            TraceFault::NoMemory => Message::text("no memory"),
        }
    }
}

impl From<ReadFault> for TraceFault {
    ghost use Rattle.std.specs.Prelude.{◌≡◌};
    ghost use Rattle.gc_trace.specs.Internal.Faults.{trace_fault_of};

    ghost from_gives = { λ fault made. made ≡ trace_fault_of fault };

    fn from(fault: ReadFault) -> TraceFault {
        match fault {
            ReadFault::Read => TraceFault::Read,
            ReadFault::TooLarge => TraceFault::TooLarge,
            ReadFault::NoMemory => TraceFault::NoMemory,
        }
    }
}

impl From<NoMemory> for TraceFault {
    ghost use Rattle.std.specs.Prelude.{◌≡◌};
    ghost use Rattle.gc_trace.specs.declared.fault.TraceFault.TheVariants as faults;

    ghost from_gives = { λ _ made. made ≡ faults.NoMemory };

    fn from(_refused: NoMemory) -> TraceFault {
        TraceFault::NoMemory
    }
}

impl<T: Drop> From<AllocFailed<T>> for TraceFault {
    ghost use Rattle.std.specs.Prelude.{◌≡◌};
    ghost use Rattle.gc_trace.specs.declared.fault.TraceFault.TheVariants as faults;

    ghost from_gives = { λ _ made. made ≡ faults.NoMemory };

    fn from(_refused: AllocFailed<T>) -> TraceFault {
        TraceFault::NoMemory
    }
}

/// Why a trace cannot be played.
#[derive(Clone, Copy, Debug, PartialEq, Eq, Error)]
#[error("{}", self.message())]
pub enum PlayFault {
    /// The trace cannot be read. Never holds `TraceFault::NoMemory`, which becomes `PlayFault::NoMemory`.
    Trace(TraceFault),
    /// The trace has fewer flips than the number asked for.
    NoSuchFlip,
    /// An allocation failed, while reading or while playing.
    NoMemory,
    /// The writer failed.
    Write,
}

impl PlayFault {
    ghost use Rattle.std.specs.Prelude.{◌≡◌};
    ghost use Rattle.gc_trace.specs.FaultTexts.{play_fault_text};

    /// Returns the fault's text.
    pub fn message(&self) -> Message
        ensures { result ≡ play_fault_text self.now }
    {
        match self {
            PlayFault::Trace(fault) => fault.message(),
            PlayFault::NoSuchFlip => Message::text("trace: no such flip"),
            PlayFault::NoMemory => Message::text("no memory"),
            PlayFault::Write => Message::text("cannot write"),
        }
    }
}

impl From<TraceFault> for PlayFault {
    ghost use Rattle.std.specs.Prelude.{◌≡◌};
    ghost use Rattle.gc_trace.specs.Internal.Faults.{fault_of_trace};

    ghost from_gives = { λ fault made. made ≡ fault_of_trace fault };

    fn from(fault: TraceFault) -> PlayFault {
        match fault {
            TraceFault::NoMemory => PlayFault::NoMemory,
            fault => PlayFault::Trace(fault),
        }
    }
}

impl From<NoMemory> for PlayFault {
    ghost use Rattle.std.specs.Prelude.{◌≡◌};
    ghost use Rattle.gc_trace.specs.declared.fault.PlayFault.TheVariants as faults;

    ghost from_gives = { λ fault made. made ≡ faults.NoMemory };

    fn from(_fault: NoMemory) -> PlayFault {
        PlayFault::NoMemory
    }
}
