use gc_cert::PairFault;
use gc_graph::NoMemory;
use gc_text::Message;
use gc_words::Refusal;
use std::alloc::AllocError;
use thiserror::Error;

/// The certificate holds.
#[derive(Clone, Copy, Debug, PartialEq, Eq)]
pub struct Yes {
    /// The number of its pairs.
    pub pairs: u32,
}

/// The reason why a check does not say yes.
#[derive(Clone, Copy, Debug, PartialEq, Eq, Error)]
pub enum CheckFault {
    /// The first condition of a certificate that fails.
    #[error("refused")]
    Refused(Refusal),
    /// An allocation failed.
    #[error("no memory")]
    NoMemory,
}

impl From<AllocError> for CheckFault {
    ghost use Rattle.std.specs.Prelude.{◌≡◌};
    ghost use Rattle.gc_check.specs.declared.verdict.CheckFault.TheVariants as faults;

    ghost from_gives = { λ _ made. made ≡ faults.NoMemory };

    fn from(_refused: AllocError) -> CheckFault {
        CheckFault::NoMemory
    }
}

impl From<NoMemory> for CheckFault {
    ghost use Rattle.std.specs.Prelude.{◌≡◌};
    ghost use Rattle.gc_check.specs.declared.verdict.CheckFault.TheVariants as faults;

    ghost from_gives = { λ _ made. made ≡ faults.NoMemory };

    fn from(_refused: NoMemory) -> CheckFault {
        CheckFault::NoMemory
    }
}

/// The answer of a checker that has enough memory.
#[derive(Clone, Copy, Debug, PartialEq, Eq)]
pub enum Verdict {
    Yes { pairs: u32 },
    Refused(Refusal),
}

/// The reason why `check_text` returns no verdict.
#[derive(Clone, Copy, Debug, PartialEq, Eq, Error)]
#[error("{}", self.message())]
pub enum RunFault {
    /// The first fault of the text.
    Pair(PairFault),
    /// An allocation failed, perhaps while reading.
    NoMemory,
    /// The writer failed.
    Write,
}

impl From<NoMemory> for RunFault {
    ghost use Rattle.std.specs.Prelude.{◌≡◌};
    ghost use Rattle.gc_check.specs.declared.verdict.RunFault.TheVariants as faults;

    ghost from_gives = { λ _ made. made ≡ faults.NoMemory };

    fn from(_refused: NoMemory) -> RunFault {
        RunFault::NoMemory
    }
}

impl RunFault {
    ghost use Rattle.std.specs.Prelude.{◌≡◌};
    ghost use Rattle.gc_check.specs.FaultTexts.{run_fault_text};

    /// Returns the text of the fault.
    pub fn message(&self) -> Message
        ensures { result ≡ run_fault_text self.now }
    {
        match self {
            RunFault::Pair(fault) => fault.message(),
            RunFault::NoMemory => Message::text("no memory"),
            RunFault::Write => Message::text("cannot write"),
        }
    }
}
