use crate::value::{NewAddr, OldAddr};

/// The maximum number of roots of an image: 16 shared slots, and 16 for each of 16 mutators.
pub const MOST_ROOTS: usize = 272;

/// The maximum number of pairs of a certificate. No space has more objects: each takes at least two words, and word 0 belongs
/// to no object.
pub const MOST_PAIRS: usize = 524287;

/// A heap image: the words of a space, and roots. A checker takes any image; nothing is assumed about its numbers.
#[derive(Clone, Copy, Debug)]
pub struct ImageRef<'a> {
    /// The size of the space in words.
    pub size: u32,
    /// The address of the first free word, which is the end of the last object.
    pub end: u32,
    /// Words 0 to `end - 1`, including links.
    pub words: &'a [u64],
    pub roots: &'a [u64],
    /// Whether headers of raw objects count. They do in every image of a `Space`.
    pub raws: bool,
}

/// An object of an old space and its replica in a new one. The layout is C's, so that C programs can pass pairs without a copy.
#[repr(C)]
#[derive(Clone, Copy, Debug, PartialEq, Eq)]
pub struct Pair {
    pub old: OldAddr,
    pub new: NewAddr,
}
