//! Who reads the words of a space: a slice is its own reader, and cells that another thread writes are read by steps.
ghost use Rattle.std.specs.Prelude.{◌≡◌, ◌↔◌, ◌<◌, ℕ, ⊤, IsTrue, length, slice_index};

/// The words of a space, which are read one by one.
pub trait Reader: Copy {
    /// What the caller knows of the words. A read may change it.
    type Seat;

    // How many places the space has.
    ghost count: { Self → ℕ };

    // Holds of a place that may be read where this is known.
    ghost can_read: { Self → Self.Seat → ℕ → Type 0 };

    // Holds of a place and the word that was read there, between what was known before and what is known now.
    ghost reads: { Self → Self.Seat → ℕ → ℕ → Self.Seat → Type 0 };

    // Holds of a word that no object begins with: the last object is before it, where the space has more places than words.
    ghost ends: { Self → ℕ → Type 0 };

    /// Returns how many places the space has.
    fn len(self) -> usize
        ensures { result ≡ count self };

    /// Returns whether the objects end before a place with this word.
    fn is_end(self, word: u64) -> bool
        ensures { IsTrue result ↔ ends self word };

    /// Reads the word at this place.
    fn word(self, seat: &mut Self::Seat, at: usize) -> u64
        requires within { at < count self }
        requires can { can_read self seat.old at }
        ensures { reads self seat.old at result seat.new };
}

impl Reader for &[u64] {
    type Seat = ();

    ghost count = { λ words. length words.now };

    ghost can_read = { λ _ _ _. ⊤ };

    ghost reads = { λ words _ at word _. slice_index words.now at ≡ word };

    ghost ends = { λ _ _. ⊥ };

    #[inline(always)]
    fn len(self) -> usize {
        self.len()
    }

    #[inline(always)]
    fn is_end(self, _word: u64) -> bool {
        false
    }

    #[inline(always)]
    fn word(self, _seat: &mut (), at: usize) -> u64 {
        self[at]
    }
}
