/// The maximum size of a space in words.
pub const MOST_WORDS: u32 = 1048576;

/// The maximum number of mutators.
pub const MOST_MUTATORS: u8 = 16;

/// The number of shared slots, and also of each mutator's own slots.
pub const SLOTS_EACH: u8 = 16;
