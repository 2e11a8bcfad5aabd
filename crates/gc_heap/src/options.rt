ghost use Rattle.std.specs.Prelude.{◌≡◌};

/// The maximum number of extra roots of a heap.
pub const MOST_EXTRA_ROOTS: u32 = 1048576;

/// What a heap is opened with.
#[derive(Clone, Copy, Debug, PartialEq, Eq)]
pub struct HeapOptions {
    /// The number of words of the space, at least 1.
    pub size: u32,
    /// The number of mutators, 1 to 16.
    pub mutators: u8,
    /// The number of roots beside the slots, at most `MOST_EXTRA_ROOTS`.
    pub extra_roots: u32,
}

impl HeapOptions {
    /// Returns the options for a heap of `size` words without extra roots.
    pub fn new(size: u32, mutators: u8) -> HeapOptions
        ensures { result ≡ record { size = size; mutators = mutators; extra_roots = 0 } }
    {
        HeapOptions {
            size,
            mutators,
            extra_roots: 0,
        }
    }
}
