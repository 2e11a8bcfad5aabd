//! The guards of the exports. Each stands at the head of an export, which returns C's number of the refusal where it fails.

/// Lends the heap of a handle. An export whose handle has no heap returns `CLOSED`, in the form that is given.
macro_rules! lent {
    ($handle:ident) => {
        $crate::guards::lent!($handle, $crate::answer::CLOSED)
    };
    ($handle:ident, $refusal:expr) => {{
        if $handle.is_empty() {
            return $refusal;
        }
        $handle.heap_mut()
    }};
}

/// Lends the heap of a handle for mutator `m`. An export also returns `OUT_OF_RANGE` if the heap has no such mutator.
macro_rules! lent_to {
    ($handle:ident, $m:ident) => {{
        let heap = $crate::guards::lent!($handle);
        if $m >= heap.mutators() {
            return $crate::answer::OUT_OF_RANGE;
        }
        heap
    }};
}

/// Gives the slot with this number. An export returns `OUT_OF_RANGE` if there is no such slot.
macro_rules! slot_named {
    ($number:ident) => {{
        let Some(slot) = $crate::slots::slot($number) else {
            return $crate::answer::OUT_OF_RANGE;
        };
        slot
    }};
}

pub(crate) use lent;
pub(crate) use lent_to;
pub(crate) use slot_named;
