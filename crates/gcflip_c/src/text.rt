ghost use Rattle.std.specs.Prelude.{◌≡◌, ◌⊎◌};
ghost use Rattle.gc_cert.specs.Grammar.{CertifiedPair};
ghost use Rattle.gc_cert.specs.Faults.{IsReadAsPair, IsPairFaultOf};
ghost use Rattle.gc_cert.specs.declared.fault.PairFault.{PairFault};
ghost use Rattle.gc_check.specs.Headline.{Replicated};
ghost use Rattle.gc_check.specs.InC.{done, no_memory, IsRefusal};
ghost use Rattle.gcflip_c.specs.Answers.{too_large, bad_line, ends_early, IsVerdict};
ghost use Rattle.gcflip_c.specs.Verdicts.{IsReportedOf, line_in_c};

use crate::answer::{BAD_LINE, ENDS_EARLY, TOO_LARGE, answer};
use gc_cert::{PairFault, read_pair, texts_have_one_reading};
use gc_check::{GcflipVerdict, NO_MEMORY};
use gc_graph::Source;
use std::alloc::Global;

/// Checks the pair of heap images that a text spells. Returns 0 (yes), 48 (refused), 1 (an allocation failed),
/// 8 (the text is too large), 49 (a bad line, whose number is the verdict's place) or 50 (the text ends early).
/// Writes nothing but the verdict, and that only if it returns 0, 48 or 49.
#[unsafe(no_mangle)]
pub extern "C" fn gcflip_check_text(alloc: Global, text: &[u8], verdict: &mut GcflipVerdict) -> u32
    ensures answers { IsVerdict result ⊎ ((result ≡ no_memory) ⊎ ((result ≡ too_large) ⊎ ((result ≡ bad_line) ⊎ (result ≡ ends_early)))) }
    ensures silent { IsRefusal result ⊎ (result ≡ ends_early) → verdict.new ≡ verdict.old }
    // This is the verdict on the pair that the text spells.
    ensures verdict { IsVerdict result → IsReportedOf text.now result verdict.new }
    // The soundness theorem, for the images that the text spells.
    ensures replicated { result ≡ done → (pair : CertifiedPair) → IsReadAsPair pair text.now
        → Replicated pair.old pair.new pair.pairs }
    // A bad text gives its first fault.
    ensures large { result ≡ too_large → IsPairFaultOf PairFault.TooLarge text.now }
    ensures line { result ≡ bad_line → (verdict.new ≡ line_in_c verdict.new.place)
        × IsPairFaultOf (PairFault.BadLine verdict.new.place) text.now }
    ensures early { result ≡ ends_early → IsPairFaultOf PairFault.EndsEarly text.now }
{
    texts_have_one_reading();
    // Reading from memory does not fail.
    match read_pair(alloc, &mut Source::new(text)) {
        Ok(file) => answer(
            alloc,
            file.old.as_ref(),
            file.new.as_ref(),
            &file.pairs,
            verdict,
        ),
        Err(PairFault::TooLarge) => TOO_LARGE,
        Err(PairFault::BadLine(line)) => {
            *verdict = of_line(line);
            BAD_LINE
        }
        Err(PairFault::EndsEarly) => ENDS_EARLY,
        Err(PairFault::Read) | Err(PairFault::NoMemory) => NO_MEMORY,
    }
}

/// Returns the report of a text in which the line with this number is bad.
fn of_line(line: u64) -> GcflipVerdict
    ensures { result ≡ line_in_c line }
{
    GcflipVerdict {
        refusal: 0,
        pairs: 0,
        place: line,
        field: 0,
    }
}
