use gc_graph::NoMemory;
use gc_text::Message;
use gc_world::World;
use std::alloc::AllocError;
use std::thread::SpawnError;
use thiserror::Error;

/// Why a call was refused. No event happened, and the seat is unchanged.
#[derive(Clone, Copy, Debug, PartialEq, Eq, Error)]
pub enum CallFault {
    /// An allocation failed.
    #[error("no memory")]
    NoMemory,
    /// A command with a collector's seat, or with the seat of a mutator that this world does not have.
    #[error("not a mutator's seat")]
    NotAMutator,
    /// A step with a mutator's seat.
    #[error("not a collector's seat")]
    NotACollector,
    /// A step that applies the log of a mutator that this world does not have.
    #[error("no such mutator")]
    NoSuchMutator,
}

impl From<NoMemory> for CallFault {
    ghost use Rattle.std.specs.Prelude.{◌≡◌};
    ghost use Rattle.gc_shared.specs.declared.fault.CallFault.TheVariants as faults;

    ghost from_gives = { λ _ fault. fault ≡ faults.NoMemory };

    fn from(_refused: NoMemory) -> CallFault {
        CallFault::NoMemory
    }
}

impl From<AllocError> for CallFault {
    ghost use Rattle.std.specs.Prelude.{◌≡◌};
    ghost use Rattle.gc_shared.specs.declared.fault.CallFault.TheVariants as faults;

    ghost from_gives = { λ _ fault. fault ≡ faults.NoMemory };

    fn from(_refused: AllocError) -> CallFault {
        CallFault::NoMemory
    }
}

/// Why a world and its seats do not agree: the first of these faults that applies.
#[derive(Clone, Copy, Debug, PartialEq, Eq, Error)]
#[error("{}", self.message())]
pub enum CloseKind {
    /// The seats are not those of the opening, each once.
    Seats,
    /// Receipt `n` of this seat is the first one that is wrong (both count from 0). It differs from the history at its
    /// place, its place is not above that of the receipt before it, or a receipt of a seat with a lower number has the
    /// same place.
    Torn { seat: u8, n: usize },
    /// The history has more events than the seats have receipts.
    Extra,
    /// An allocation failed, and the receipts were not compared.
    NoMemory,
}

impl CloseKind {
    ghost use Rattle.std.specs.Prelude.{◌≡◌};
    ghost use Rattle.gc_shared.specs.FaultTexts.{close_kind_text};

    /// Returns the text of the fault.
    pub fn message(&self) -> Message
        ensures { result ≡ close_kind_text self.now }
    {
        match self {
            CloseKind::Seats => Message::text("close: seats"),
            CloseKind::Torn { seat, n } => {
                Message::numbered_twice(
                    "close: torn seat ",
                    u64::from(*seat),
                    " receipt ",
                    *n as u64,
                )
            }
            CloseKind::Extra => Message::text("close: extra"),
            CloseKind::NoMemory => Message::text("no memory"),
        }
    }
}

/// A world that does not agree with its seats, and the reason. The seats have been dropped.
#[derive(Debug, Drop)]
pub struct CloseFault {
    pub world: World,
    pub kind: CloseKind,
}

/// Why scripts did not run to their end. The scripts and the world have been dropped.
#[derive(Clone, Copy, Debug, PartialEq, Eq, Error)]
#[error("{}", self.message())]
pub enum ThreadsFault {
    /// A thread could not be started. This fault comes before all others.
    NotStarted,
    /// The gate ended this seat's thread before its call `n`. Both count from 0.
    Gate { seat: u32, n: u64 },
    /// An allocation failed.
    NoMemory,
    /// Closing failed. If a call refuses a thread's seat, the fault is `Seats`.
    Close(CloseKind),
}

impl ThreadsFault {
    ghost use Rattle.std.specs.Prelude.{◌≡◌};
    ghost use Rattle.gc_shared.specs.FaultTexts.{threads_fault_text};

    /// Returns the text of the fault.
    pub fn message(&self) -> Message
        ensures { result ≡ threads_fault_text self.now }
    {
        match self {
            ThreadsFault::NotStarted => Message::text("threads: not started"),
            ThreadsFault::Gate { seat, n } => {
                Message::numbered_twice("threads: gate at seat ", u64::from(*seat), " call ", *n)
            }
            ThreadsFault::NoMemory => Message::text("no memory"),
            ThreadsFault::Close(kind) => kind.message(),
        }
    }
}

impl From<NoMemory> for ThreadsFault {
    ghost use Rattle.std.specs.Prelude.{◌≡◌};
    ghost use Rattle.gc_shared.specs.declared.fault.ThreadsFault.TheVariants as faults;

    ghost from_gives = { λ _ made. made ≡ faults.NoMemory };

    fn from(_refused: NoMemory) -> ThreadsFault {
        ThreadsFault::NoMemory
    }
}

impl From<AllocError> for ThreadsFault {
    ghost use Rattle.std.specs.Prelude.{◌≡◌};
    ghost use Rattle.gc_shared.specs.declared.fault.ThreadsFault.TheVariants as faults;

    ghost from_gives = { λ _ made. made ≡ faults.NoMemory };

    fn from(_refused: AllocError) -> ThreadsFault {
        ThreadsFault::NoMemory
    }
}

impl<F: Drop> From<SpawnError<F>> for ThreadsFault {
    ghost use Rattle.std.specs.Prelude.{◌≡◌};
    ghost use Rattle.gc_shared.specs.declared.fault.ThreadsFault.TheVariants as faults;

    ghost from_gives = { λ _ made. made ≡ faults.NotStarted };

    fn from(_refused: SpawnError<F>) -> ThreadsFault {
        ThreadsFault::NotStarted
    }
}

impl From<CallFault> for ThreadsFault {
    ghost use Rattle.std.specs.Prelude.{◌≡◌};
    ghost use Rattle.gc_shared.specs.Internal.Faults.{fault_of_call};

    ghost from_gives = { λ fault made. made ≡ fault_of_call fault };

    fn from(fault: CallFault) -> ThreadsFault {
        match fault {
            CallFault::NoMemory => ThreadsFault::NoMemory,
            CallFault::NotAMutator | CallFault::NotACollector | CallFault::NoSuchMutator => {
                ThreadsFault::Close(CloseKind::Seats)
            }
        }
    }
}
