ghost use Rattle.std.specs.Prelude.{◌≡◌, ◌⊎◌, ◌<◌, ◌^◌, length};
ghost use Rattle.gc_words.specs.Certificate.{Certified};
ghost use Rattle.gc_words.specs.Views.{image_of};
ghost use Rattle.gc_check.specs.Headline.{Replicated};
ghost use Rattle.gc_check.specs.Verdict.{pairs_of, verdict_of};
ghost use Rattle.gc_check.specs.InC.{done, no_memory, IsReported};
ghost use Rattle.gcflip_c.specs.Answers.{IsVerdict};

use gc_check::{CheckFault, GcflipVerdict, NO_MEMORY, Verdict, check_wide};
use gc_words::{ImageRef, Pair, no_fault_where_certified};
use std::alloc::Global;

/// There are 2^32 pairs or more, or more than have room.
pub(crate) const TOO_MANY: u32 = 7;

/// The text has more than 67108864 bytes.
pub(crate) const TOO_LARGE: u32 = 8;

/// A line of the text is bad.
pub(crate) const BAD_LINE: u32 = 49;

/// The text ends before its last line is complete.
pub(crate) const ENDS_EARLY: u32 = 50;

/// No path leads to the address.
pub(crate) const NO_PATH: u32 = 51;

/// The path has more fields than have room.
pub(crate) const LONG_PATH: u32 = 52;

/// Checks the certificate, writes the verdict, and returns `DONE` or `REFUSED`. On `NO_MEMORY` the verdict is unchanged.
pub(crate) fn answer(
    alloc: Global,
    old: ImageRef,
    new: ImageRef,
    pairs: &[Pair],
    verdict: &mut GcflipVerdict,
) -> u32
    requires { length pairs.now < 2 ^ 32 }
    ensures answers { IsVerdict result ⊎ (result ≡ no_memory) }
    ensures silent { result ≡ no_memory → verdict.new ≡ verdict.old }
    ensures verdict { IsVerdict result → IsReported
        (verdict_of (image_of old.entry) (image_of new.entry) (pairs_of pairs.now)) result verdict.new }
    ensures yes { result ≡ done → Certified (image_of old.entry) (image_of new.entry) (pairs_of pairs.now) }
    ensures replicated { result ≡ done
        → Replicated (image_of old.entry) (image_of new.entry) (pairs_of pairs.now) }
{
    no_fault_where_certified();
    match check_wide(alloc, old, new, pairs) {
        Ok(yes) => verdict.report(Verdict::Yes { pairs: yes.pairs }),
        Err(CheckFault::Refused(refusal)) => verdict.report(Verdict::Refused(refusal)),
        Err(CheckFault::NoMemory) => NO_MEMORY,
    }
}
