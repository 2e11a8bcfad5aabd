/// The first condition of a certificate that fails. Pairs, fields and roots are counted from 0.
#[derive(Clone, Copy, Debug, PartialEq, Eq)]
pub enum Refusal {
    /// The old image is not shaped. `at` is 0, or the first address at which an object should start and none does.
    OldShape { at: u64 },
    /// The new image is not shaped. `at` is as for the old image.
    NewShape { at: u64 },
    /// The images have different numbers of roots.
    RootCount,
    /// No object starts at the old address of pair `k`.
    OldNotStart { k: u64 },
    /// No object starts at the new address of pair `k`.
    NewNotStart { k: u64 },
    /// The new address of pair `k` is not above that of the pair before it.
    NotRising { k: u64 },
    /// An earlier pair has the old address of pair `k`.
    Twice { k: u64 },
    /// The headers of the objects of pair `k` differ.
    HeaderDiffers { k: u64 },
    /// Field `i` of the objects of pair `k` is the first that does not correspond.
    FieldDiffers { k: u64, i: u64 },
    /// The root words at this place are the first that do not correspond.
    RootDiffers { slot: u64 },
}
