use gc_text::{Message, ReadFault};
use std::alloc::AllocFailed;
use thiserror::Error;

/// The reason why a pair text could not be read. If the text is not too large, its fault is the first from the top. Lines are
/// counted from 1.
#[derive(Clone, Copy, Debug, PartialEq, Eq, Error)]
#[error("{}", self.message())]
pub enum PairFault {
    /// The reader failed.
    Read,
    /// The text has more than 67108864 bytes.
    TooLarge,
    /// This line has a line feed and cannot follow the lines before it, or bytes follow the line `end`.
    BadLine(u64),
    /// All lines so far are right, and the text ends before the line feed of the line `end`.
    EndsEarly,
    NoMemory,
}

impl PairFault {
    ghost use Rattle.std.specs.Prelude.{◌≡◌};
    ghost use Rattle.gc_cert.specs.FaultTexts.{pair_fault_text};

    /// Returns the text of the fault.
    pub fn message(&self) -> Message
        ensures { result ≡ pair_fault_text self.now }
    {
        match self {
            PairFault::Read => Message::text("cannot read"),
            PairFault::TooLarge => Message::text("pair: too large"),
            PairFault::BadLine(n) => Message::numbered("pair: bad line ", *n),
            PairFault::EndsEarly => Message::text("pair: ends early"),
            PairFault::NoMemory => Message::text("no memory"),
        }
    }
}

impl From<ReadFault> for PairFault {
    ghost use Rattle.std.specs.Prelude.{◌≡◌};
    ghost use Rattle.gc_cert.specs.Internal.Faults.{fault_of_reading};

    ghost from_gives = { λ fault made. made ≡ fault_of_reading fault };

    fn from(fault: ReadFault) -> PairFault {
        match fault {
            ReadFault::Read => PairFault::Read,
            ReadFault::TooLarge => PairFault::TooLarge,
            ReadFault::NoMemory => PairFault::NoMemory,
        }
    }
}

impl<T: Drop> From<AllocFailed<T>> for PairFault {
    ghost use Rattle.std.specs.Prelude.{◌≡◌};
    ghost use Rattle.gc_cert.specs.declared.fault.PairFault.TheVariants as faults;

    ghost from_gives = { λ _ made. made ≡ faults.NoMemory };

    fn from(_refused: AllocFailed<T>) -> PairFault {
        PairFault::NoMemory
    }
}

/// The reason why a pair text could not be written.
#[derive(Clone, Copy, Debug, PartialEq, Eq, Error)]
pub enum WriteFault {
    /// The writer failed.
    #[error("cannot write")]
    Write,
}
