ghost use Rattle.std.specs.Prelude.{◌≡◌, ◌⊎◌, take};
ghost use Rattle.gc_words.specs.Certificate.{Certified};
ghost use Rattle.gc_check.specs.Headline.{Replicated};
ghost use Rattle.gc_words.specs.Fault.{AreComparable};
ghost use Rattle.gc_check.specs.Infer.{AreClosed, AreForced, AreTogether, Certifiable};
ghost use Rattle.gc_check.specs.Verdict.{pairs_of, verdict_of};
ghost use Rattle.gc_check.specs.InC.{done, no_memory, refused, IsRefusal, IsReported};
ghost use Rattle.gcflip_c.specs.Answers.{too_many, IsVerdict};
ghost use Rattle.gcflip_c.specs.Images.{image};

use crate::answer::TOO_MANY;
use gc_check::{GcflipVerdict, NO_MEMORY, Verdict, compare};
use gc_graph::NoMemory;
use gc_words::{ImageRef, Pair};
use std::alloc::Global;

/// Infers a certificate from two heap images, and checks it. Returns 0 (the pairs hold), 48 (no certificate holds), 1 (an allocation
/// failed) or 7 (there is no room for the pairs). With 0 and 48 it writes the pairs and their number, and the verdict on them; with 1 and 7
/// it writes nothing.
#[unsafe(no_mangle)]
pub extern "C" fn gcflip_infer(
    alloc: Global,
    old_size: u32,
    old_end: u32,
    old_raws: bool,
    old_words: &[u64],
    old_roots: &[u64],
    new_size: u32,
    new_end: u32,
    new_raws: bool,
    new_words: &[u64],
    new_roots: &[u64],
    pairs: &mut [Pair],
    count: &mut usize,
    verdict: &mut GcflipVerdict,
) -> u32
    ensures answers { IsVerdict result ⊎ ((result ≡ no_memory) ⊎ (result ≡ too_many)) }
    ensures silent { IsRefusal result → (pairs.new ≡ pairs.old) × (count.new ≡ count.old) × (verdict.new ≡ verdict.old) }
    // The verdict is that of gcflip_check on the pairs that are written.
    ensures verdict { IsVerdict result → IsReported (verdict_of
        (image old_size old_end old_raws old_words.now old_roots.now)
        (image new_size new_end new_raws new_words.now new_roots.now) (pairs_of (take count.new pairs.new)))
        result verdict.new }
    // Every certificate that holds has these pairs.
    ensures forced { IsVerdict result → AreForced
        (image old_size old_end old_raws old_words.now old_roots.now)
        (image new_size new_end new_raws new_words.now new_roots.now) (pairs_of (take count.new pairs.new)) }
    // The same path finds the two objects of each pair.
    ensures together { IsVerdict result → AreTogether
        (image old_size old_end old_raws old_words.now old_roots.now)
        (image new_size new_end new_raws new_words.now new_roots.now) (pairs_of (take count.new pairs.new)) }
    // The roots and the fields of the pairs lead to no further pair.
    ensures closed { IsVerdict result → AreComparable
        (image old_size old_end old_raws old_words.now old_roots.now)
        (image new_size new_end new_raws new_words.now new_roots.now)
        → AreClosed (image old_size old_end old_raws old_words.now old_roots.now)
        (image new_size new_end new_raws new_words.now new_roots.now) (pairs_of (take count.new pairs.new)) }
    ensures yes { result ≡ done → Certified
        (image old_size old_end old_raws old_words.now old_roots.now)
        (image new_size new_end new_raws new_words.now new_roots.now) (pairs_of (take count.new pairs.new)) }
    ensures replicated { result ≡ done → Replicated
        (image old_size old_end old_raws old_words.now old_roots.now)
        (image new_size new_end new_raws new_words.now new_roots.now) (pairs_of (take count.new pairs.new)) }
    // No certificate holds.
    ensures refused { result ≡ refused → Certifiable
        (image old_size old_end old_raws old_words.now old_roots.now)
        (image new_size new_end new_raws new_words.now new_roots.now) → ⊥ }
{
    let old = ImageRef {
        size: old_size,
        end: old_end,
        words: old_words,
        roots: old_roots,
        raws: old_raws,
    };
    let new = ImageRef {
        size: new_size,
        end: new_end,
        words: new_words,
        roots: new_roots,
        raws: new_raws,
    };
    let comparison = match compare(alloc, old, new) {
        Ok(comparison) => comparison,
        Err(NoMemory) => return NO_MEMORY,
    };
    let found = comparison.pairs.len();
    if found > pairs.len() {
        return TOO_MANY;
    }
    pairs[..found].copy_from_slice(comparison.pairs.as_slice());
    *count = found;
    match comparison.verdict {
        Verdict::Yes { pairs } => verdict.report(Verdict::Yes { pairs }),
        Verdict::Refused(refusal) => verdict.report(Verdict::Refused(refusal)),
    }
}
