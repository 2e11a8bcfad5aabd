//! The exports that tell of checks, and the one that checks an open collection.

ghost use Rattle.std.specs.Prelude.{◌≡◌, ◌⊎◌, ◌↔◌, None, IsSomeAnd};
ghost use Rattle.gc_check.specs.InC.{done, no_memory, IsRefusal};
ghost use Rattle.gc_model.specs.declared.step.Step.{Step};
ghost use Rattle.gc_collected.specs.Checking.{finding};
ghost use Rattle.gc_collected.specs.CollectedHeap.{Allocates};
ghost use Rattle.gc_in_c.specs.Answers.{closed_handle};
ghost use Rattle.gcflip_heap_c.specs.Checking.{TellsFinding, IsSoundFinding};

use crate::answer::{DONE, NO_MEMORY};
use crate::guards::lent;
use crate::handle::GcflipHeap;
use crate::reply::of_step;
use gc_check::{GcflipVerdict, Sequential, Verdict};
use gc_collected::Finding;
use gc_copy::StepReply;
use gc_graph::NoMemory;

/// How many flips each checker has accepted since the heap was opened, as C sees it.
#[repr(C)]
#[derive(Clone, Copy, Debug, Drop, PartialEq, Eq)]
pub struct GcflipFlipChecks {
    /// Those of the checker that goes along.
    pub along: u64,
    /// Those of the checker of both spaces whole.
    pub whole: u64,
}

/// Reads how many flips each checker has accepted.
#[unsafe(no_mangle)]
pub extern "C" fn gcflip_heap_flip_checks(
    heap: &mut GcflipHeap,
    checks: &mut GcflipFlipChecks,
) -> u32
    ensures answers { (result ≡ done) ⊎ (result ≡ closed_handle) }
    ensures heap { heap.new.state ≡ heap.old.state }
    // The counts are those of the flips since the heap was opened.
    ensures counts { result ≡ done → (checks.new.along ≡ heap.old.beside.turns.checks.along) × (checks.new.whole ≡ heap.old.beside.turns.checks.whole) }
    ensures silent { result ≡ closed_handle → checks.new ≡ checks.old }
    ensures closed { (result ≡ closed_handle) ↔ (heap.old.state ≡ None) }
    ensures beside { heap.new.beside ≡ heap.old.beside }
{
    let counted = lent!(heap).flip_checks();
    *checks = GcflipFlipChecks {
        along: counted.along,
        whole: counted.whole,
    };
    DONE
}

/// Returns the number for the finding, and writes the verdict, if the collection was checked.
fn of_finding(found: Finding, verdict: &mut GcflipVerdict) -> u32
    ensures found { TellsFinding found verdict.old verdict.new result }
    ensures made { ¬ IsRefusal result }
{
    match found {
        Finding::Idle => of_step(StepReply::Idle),
        Finding::NotReady => of_step(StepReply::NotReady),
        Finding::Holds { pairs } => verdict.report(Verdict::Yes { pairs }),
        Finding::Refused(refusal) => verdict.report(Verdict::Refused(refusal)),
    }
}

/// Checks both spaces of the open collection whole, if it is ready, and changes nothing. Returns 0 and writes the verdict if the certificate
/// holds. Returns 34 if no collection is open, and 41 if it is not ready. Allocates the certificate, the moved roots and the checker's
/// tables, and frees them before it returns. That it returns 48, with the first condition that fails, is proved never to occur, unless
/// somebody else writes into the heap's memory. It tests the shape of both spaces of any open collection, before it asks whether that is ready.
#[unsafe(no_mangle)]
pub extern "C" fn gcflip_heap_check(heap: &mut GcflipHeap, verdict: &mut GcflipVerdict) -> u32
    ensures found { ¬ IsRefusal result → IsSomeAnd heap.old.state (λ s. TellsFinding (finding s) verdict.old verdict.new result) }
    // The answer 0 rests on the checker's yes.
    ensures sound { result ≡ done → IsSomeAnd heap.old.state IsSoundFinding }
    ensures heap { heap.new.state ≡ heap.old.state }
    ensures silent { IsRefusal result → verdict.new ≡ verdict.old }
    ensures answers { IsRefusal result → (result ≡ no_memory) ⊎ (result ≡ closed_handle) }
    ensures memory { result ≡ no_memory → IsSomeAnd heap.old.state (λ s. Allocates s Step.Flip) }
    ensures closed { (result ≡ closed_handle) ↔ (heap.old.state ≡ None) }
    ensures beside { heap.new.beside ≡ heap.old.beside }
{
    match lent!(heap).check(&Sequential) {
        Ok(found) => of_finding(found, verdict),
        Err(NoMemory) => NO_MEMORY,
    }
}
