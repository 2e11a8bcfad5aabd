ghost use Rattle.std.specs.Prelude.{◌≡◌, ◌⊎◌, ◌≤◌, ◌^◌, ◌↔◌, length};
ghost use Rattle.gc_words.specs.Certificate.{Certified};
ghost use Rattle.gc_check.specs.Headline.{Replicated};
ghost use Rattle.gc_check.specs.Verdict.{pairs_of, verdict_of};
ghost use Rattle.gc_check.specs.InC.{done, no_memory, IsRefusal, IsReported};
ghost use Rattle.gcflip_c.specs.Answers.{too_many, IsVerdict};
ghost use Rattle.gcflip_c.specs.Images.{image};

use crate::answer::{TOO_MANY, answer};
use gc_check::GcflipVerdict;
use gc_words::{ImageRef, Pair};
use std::alloc::Global;

/// Checks a certificate against two heap images. Returns 0 (yes), 48 (refused), 1 (an allocation failed) or 7
/// (2^32 pairs or more). Writes nothing but the verdict, and that only if it returns 0 or 48.
#[unsafe(no_mangle)]
pub extern "C" fn gcflip_check(
    alloc: Global,
    old_size: u32,
    old_end: u32,
    old_raws: bool,
    old_words: &[u64],
    old_roots: &[u64],
    new_size: u32,
    new_end: u32,
    new_raws: bool,
    new_words: &[u64],
    new_roots: &[u64],
    pairs: &[Pair],
    verdict: &mut GcflipVerdict,
) -> u32
    ensures answers { IsVerdict result ⊎ ((result ≡ no_memory) ⊎ (result ≡ too_many)) }
    ensures many { (result ≡ too_many) ↔ (2 ^ 32 ≤ length pairs.now) }
    ensures silent { IsRefusal result → verdict.new ≡ verdict.old }
    // The verdict is yes with the number of pairs, or the first refusal.
    ensures verdict { IsVerdict result → IsReported (verdict_of
        (image old_size old_end old_raws old_words.now old_roots.now)
        (image new_size new_end new_raws new_words.now new_roots.now) (pairs_of pairs.now))
        result verdict.new }
    ensures yes { result ≡ done → Certified
        (image old_size old_end old_raws old_words.now old_roots.now)
        (image new_size new_end new_raws new_words.now new_roots.now) (pairs_of pairs.now) }
    // The soundness theorem, for mutators that continue in the new heap.
    ensures replicated { result ≡ done → Replicated
        (image old_size old_end old_raws old_words.now old_roots.now)
        (image new_size new_end new_raws new_words.now new_roots.now) (pairs_of pairs.now) }
{
    if pairs.len() > u32::MAX as usize {
        return TOO_MANY;
    }
    let old = ImageRef {
        size: old_size,
        end: old_end,
        words: old_words,
        roots: old_roots,
        raws: old_raws,
    };
    let new = ImageRef {
        size: new_size,
        end: new_end,
        words: new_words,
        roots: new_roots,
        raws: new_raws,
    };
    answer(alloc, old, new, pairs, verdict)
}
