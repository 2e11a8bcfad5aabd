//! The guards of the exports. Each stands at the head of an export, which returns C's number of the refusal where it fails.

/// Lends the end of a handle. An export whose handle has none returns `CLOSED`.
macro_rules! lent {
    ($handle:ident) => {{
        if $handle.is_empty() {
            return $crate::answer::CLOSED;
        }
        $handle.end_mut()
    }};
}

/// An export returns `OUT_OF_RANGE` if the mutator has no root at this place.
macro_rules! in_range {
    ($commander:expr, $place:ident) => {{
        if $place >= $commander.count_roots() {
            return $crate::answer::OUT_OF_RANGE;
        }
    }};
}

pub(crate) use in_range;
pub(crate) use lent;
