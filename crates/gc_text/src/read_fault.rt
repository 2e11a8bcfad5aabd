use std::alloc::AllocError;
use thiserror::Error;

/// The reason why a text could not be read.
#[derive(Clone, Copy, Debug, PartialEq, Eq, Error)]
pub enum ReadFault {
    #[error("cannot read")]
    Read,
    /// The reader has more bytes than the limit.
    #[error("too large")]
    TooLarge,
    #[error("no memory")]
    NoMemory,
}

impl From<AllocError> for ReadFault {
    ghost use Rattle.std.specs.Prelude.{◌≡◌};
    ghost use Rattle.gc_text.specs.declared.read_fault.ReadFault.TheVariants as faults;

    ghost from_gives = { λ _ made. made ≡ faults.NoMemory };

    fn from(_refused: AllocError) -> ReadFault {
        ReadFault::NoMemory
    }
}
