//! The numbers that only these calls return.

pub(crate) use gc_in_c::{
    CLOSED, DONE, FLIPPED, NO_FIELD, NO_MEMORY, NO_OBJECT, NO_ROOM, OPEN, OUT_OF_RANGE,
};

/// The mutator has stopped, and its collector has not let it go on.
pub(crate) const PARKED: u32 = 12;

/// The other end is not so far.
pub(crate) const NOT_YET: u32 = 13;

/// Nothing is left for this step.
pub(crate) const CLEAN: u32 = 35;

/// Something is left to do before the flip.
pub(crate) const NOT_READY: u32 = 41;

/// No root of the frame is left for a push.
pub(crate) const FRAME_FULL: u32 = 28;

/// The frame has no value for a pop.
pub(crate) const FRAME_EMPTY: u32 = 29;
