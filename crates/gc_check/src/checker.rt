ghost use Rattle.std.specs.Prelude.{◌≡◌, ◌<◌, ◌≤◌, ◌^◌, Option, None, Some, length, IfOk, IfErr, OnOk};
ghost use Rattle.gc_graph.specs.Limits.{most_words};
ghost use Rattle.gc_words.specs.Certificate.{Certified};
ghost use Rattle.gc_words.specs.Fault.{first_fault, object_faults, root_fault};
ghost use Rattle.gc_words.specs.Image.{Image};
ghost use Rattle.gc_words.specs.Views.{image_of};
ghost use Rattle.gc_words.specs.declared.refusal.Refusal.{Refusal};
ghost use Rattle.gc_check.specs.Headline.{Replicated};
ghost use Rattle.gc_check.specs.Profile.{CertifiedSmall, small_shapes_or_else, first_small_fault};
ghost use Rattle.gc_check.specs.Verdict.{pairs_of, IsRefusalOf};

use crate::laws::certified_is_replicated;
use crate::starts::Starts;
use crate::tables::Tables;
use crate::verdict::{CheckFault, Yes};
use gc_words::{ImageRef, MOST_WORDS, Pair, Refusal, no_fault_where_certified};
use std::alloc::Global;

/// Checks a certificate against two heap images of at most `MOST_WORDS` words, which a text can hold. Makes no other
/// assumption about the images or who produced them.
///
/// Returns the number of pairs if the certificate holds. Returns `Refused` with the first condition that fails, in
/// the order of `Refusal`, or `NoMemory` if its tables cannot be allocated. A larger image is refused by `OldShape` or
/// `NewShape` at 0.
#[tactic(auto, using(crate::proofs::Sizes::small_fault))]
pub fn check(alloc: Global, old: ImageRef, new: ImageRef, cert: &[Pair]) -> Result<Yes, CheckFault>
    requires { length cert.now < 2 ^ 32 }
    ensures pairs { IfOk result (λ yes. yes.pairs ≡ length cert.now) }
    ensures yes { OnOk result (CertifiedSmall (image_of old.entry) (image_of new.entry) (pairs_of cert.now)) }
    ensures refused { IfErr result
        (IsRefusalOf (first_small_fault (image_of old.entry) (image_of new.entry) (pairs_of cert.now))) }
    // The soundness theorem: what a yes promises for everything that mutators do afterwards.
    ensures replicated { OnOk result
        (Replicated (image_of old.entry) (image_of new.entry) (pairs_of cert.now)) }
{
    match check_sizes(alloc, old, new) {
        Ok(()) => check_wide(alloc, old, new, cert),
        Err(fault) => Err(fault),
    }
}

/// Refuses images of more than `MOST_WORDS` words, as `check` does.
#[tactic(auto, using(crate::proofs::Sizes::large_old))]
pub fn check_sizes(alloc: Global, old: ImageRef, new: ImageRef) -> Result<(), CheckFault>
    ensures small { OnOk result ((image_of old.entry).size ≤ most_words × (image_of new.entry).size ≤ most_words) }
    ensures refused { (rest : Option Refusal) → IfErr result
        (IsRefusalOf (small_shapes_or_else (image_of old.entry) (image_of new.entry) rest)) }
{
    if old.size > MOST_WORDS {
        return Err(CheckFault::Refused(Refusal::OldShape { at: 0 }));
    }
    if new.size > MOST_WORDS {
        return Err(fault_of_large_new(alloc, old));
    }
    Ok(())
}

// Returns the first fault if the new image is too large: one of the old image's shape, or else the new one's size.
#[tactic(auto, using(crate::proofs::Sizes::large_new))]
fn fault_of_large_new(alloc: Global, old: ImageRef) -> CheckFault
    requires { old.size ≤ most_words }
    ensures { (new : Image) (rest : Option Refusal) → most_words < new.size
        → IsRefusalOf (small_shapes_or_else (image_of old.entry) new rest) result }
{
    let Err(fault) = Starts::new(alloc, old) else {
        return CheckFault::Refused(Refusal::NewShape { at: 0 });
    };
    fault.of_old()
}

/// Checks a certificate against two heap images of any size. Makes no assumption about the images or who produced them.
///
/// Returns the number of pairs if the certificate holds. Returns `Refused` with the first condition that fails, in
/// the order of `Refusal`, or `NoMemory` if its three tables cannot be allocated.
pub fn check_wide(
    alloc: Global,
    old: ImageRef,
    new: ImageRef,
    cert: &[Pair],
) -> Result<Yes, CheckFault>
    requires { length cert.now < 2 ^ 32 }
    ensures pairs { IfOk result (λ yes. yes.pairs ≡ length cert.now) }
    ensures yes { OnOk result (Certified (image_of old.entry) (image_of new.entry) (pairs_of cert.now)) }
    ensures refused { IfErr result
        (IsRefusalOf (first_fault (image_of old.entry) (image_of new.entry) (pairs_of cert.now))) }

    // The soundness theorem: what a yes promises for everything that mutators do afterwards.
    ensures replicated { OnOk result
        (Replicated (image_of old.entry) (image_of new.entry) (pairs_of cert.now)) }
{
    let tables = Tables::new_wide(alloc, old, new, cert)?;
    let pairs = cert.len() as u32;
    if let Some(refusal) = first_pair_fault(&tables, pairs) {
        return Err(CheckFault::Refused(refusal));
    }
    if let Some(refusal) = tables.root_fault() {
        return Err(CheckFault::Refused(refusal));
    }
    no_fault_where_certified();
    certified_is_replicated();
    Ok(Yes { pairs })
}

/// Returns the first fault of the objects of a pair, going through the pairs in order.
pub(crate) fn first_pair_fault(tables: &Tables, count: u32) -> Option<Refusal>
    requires { count ≡ length tables.now.pairs }
    ensures { result ≡ object_faults tables.now.old tables.now.new tables.now.pairs }
{
    for k in 0..count {
        if let Some(refusal) = tables.pair_fault(k) {
            return Some(refusal);
        }
    }
    None
}
