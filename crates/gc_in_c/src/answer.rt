//! The numbers that calls return: 1 to 15 say why nothing was done; 0 and the numbers from 16 on are replies.

pub use gc_check::{DONE, NO_MEMORY};

/// An argument is out of range.
pub const OUT_OF_RANGE: u32 = 2;

/// The handle has nothing.
pub const CLOSED: u32 = 3;

/// The handle is in use already.
pub const OPEN: u32 = 4;

/// The slot refers to no object of the kind that is asked for.
pub const NO_OBJECT: u32 = 18;

/// The object has no such field.
pub const NO_FIELD: u32 = 19;

/// The value is nil.
pub const NIL: u32 = 24;

/// The value is a number.
pub const NUMBER: u32 = 25;

/// The value is a reference to an object, which is not raw if the call tells.
pub const OBJECT: u32 = 26;

/// The new space has no room for a replica.
pub const NO_ROOM: u32 = 36;

/// Mutators continue in the new space.
pub const FLIPPED: u32 = 43;
