//! A mark for each place, a bit each.

ghost use Rattle.std.specs.Prelude.{◌≡◌, ◌≢◌, ℕ, ◌/◌, ◌<◌, length, true};
ghost use Rattle.gc_words.specs.Marks.{is_marked};

/// Returns whether this place is marked.
#[inline(always)]
#[tactic(auto, using(crate::proofs::MarkBits::marked_is))]
pub fn is_marked(bits: &[u64], place: usize) -> bool
    requires { place / 64 < length bits.now }
    ensures { result ≡ is_marked bits.now place }
{
    (bits[place / 64] >> (place % 64)) & 1 == 1
}

/// Marks this place.
#[inline(always)]
#[tactic(auto, using(crate::proofs::MarkBits::mark_is_set, crate::proofs::MarkBits::other_marks_stay))]
pub fn mark(bits: &mut [u64], place: usize)
    requires { place / 64 < length bits.old }
    ensures len { length bits.new ≡ length bits.old }
    ensures marked { is_marked bits.new place ≡ true }
    ensures others { (other : ℕ) → other ≢ place → is_marked bits.new other ≡ is_marked bits.old other }
{
    bits[place / 64] |= 1 << (place % 64);
}
