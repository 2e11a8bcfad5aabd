//! A verdict as the libraries for C return it.

use crate::refusal_parts::parts_of;
use crate::verdict::Verdict;
use gc_words::Refusal;

/// The number that stands for a certificate that holds, and for a call that was performed and has no other reply.
pub const DONE: u32 = 0;

/// The number of a call that did nothing, because an allocation failed.
pub const NO_MEMORY: u32 = 1;

/// The number that stands for a certificate that does not hold.
pub const REFUSED: u32 = 48;

/// A verdict as C sees it.
#[repr(C)]
#[derive(Clone, Copy, Debug, Drop, PartialEq, Eq)]
pub struct GcflipVerdict {
    /// The number of the refusal, 1 to 10, or 0 if nothing is refused.
    pub refusal: u32,
    /// The number of pairs, if the verdict is yes, otherwise 0.
    pub pairs: u32,
    /// The address, the pair or the root that is refused, or the number of a bad line, otherwise 0.
    pub place: u64,
    /// The field that is refused, if a field is, otherwise 0.
    pub field: u64,
}

impl GcflipVerdict {
    ghost use Rattle.std.specs.Prelude.{◌≡◌};
    ghost use Rattle.gc_check.specs.InC.{refusal_in_c, IsReported};

    /// Returns the number and the places of a refusal.
    pub fn of_refusal(refusal: Refusal) -> GcflipVerdict
        ensures { result ≡ refusal_in_c refusal }
    {
        let parts = parts_of(refusal);
        GcflipVerdict {
            refusal: parts.number,
            pairs: 0,
            place: parts.place.unwrap_or(0),
            field: parts.field.unwrap_or(0),
        }
    }

    /// Becomes this verdict, and returns the number of the answer: `DONE` for a yes, otherwise `REFUSED`.
    pub fn report(&mut self, verdict: Verdict) -> u32
        ensures { IsReported verdict result self.new }
    {
        match verdict {
            Verdict::Yes { pairs } => {
                *self = GcflipVerdict {
                    refusal: 0,
                    pairs,
                    place: 0,
                    field: 0,
                };
                DONE
            }
            Verdict::Refused(refusal) => {
                *self = GcflipVerdict::of_refusal(refusal);
                REFUSED
            }
        }
    }
}
