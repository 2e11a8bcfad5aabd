//! Infers a certificate from two images alone.

ghost use Rattle.std.specs.Prelude.{◌≡◌, ℕ, ◌<◌, ◌≤◌, ◌^◌, ◌+◌, List, ◌++◌, [], drop, length, vec_capacity, Err, IfOk, IfErr, IsTrue};
ghost use Rattle.std.specs.Option.{option_map_or};
ghost use Rattle.gc_words.specs.Certificate.{Certified};
ghost use Rattle.gc_words.specs.Fault.{AreComparable, table_fault, object_faults, root_fault, ◌or_else◌};
ghost use Rattle.gc_words.specs.Image.{Image};
ghost use Rattle.gc_words.specs.Views.{image_of};
ghost use Rattle.gc_words.specs.declared.refusal.Refusal.{Refusal};
ghost use Rattle.gc_check.specs.Infer.{AreClosed, AreForced, AreTogether, Certifiable, Decides, IsComparison};
ghost use Rattle.gc_check.specs.Internal.Meetings.{risen, taken_in};
ghost use Rattle.gc_check.specs.Internal.Tables.{HasEntries, HasTables, by_address};
ghost use Rattle.gc_check.specs.Verdict.{pairs_of, verdict_of, IsRefusalOf};
ghost use Rattle.gc_check.specs.declared.verdict.CheckFault.{CheckFault};
ghost use Rattle.gc_check.specs.declared.verdict.Verdict.{Verdict};
ghost use Rattle.gc_check.specs.declared.verdict.Verdict.TheVariants as verdicts;

use crate::checks::{ComparesObjects, Sequential};
use crate::laws::certified_is_replicated;
use crate::meet::{Found, find};
use crate::object_table::ObjectTable;
use crate::starts::Starts;
use crate::tables::Tables;
use crate::verdict::{CheckFault, Verdict};
use gc_graph::NoMemory;
use gc_words::{ImageRef, NewAddr, OldAddr, Pair, Refusal, no_fault_where_certified};
use std::alloc::Global;

/// What two heap images say without a certificate.
#[derive(Drop)]
pub struct Comparison {
    /// The pairs that every certificate has which holds of the images.
    pub pairs: Vec<Pair>,
    /// The verdict on these pairs. A refusal says that no certificate holds.
    pub verdict: Verdict,
}

/// Decides whether any certificate holds of two heap images, in the calling thread. Makes no assumption about the images or who
/// produced them. Returns `NoMemory` if an allocation fails.
pub fn compare(alloc: Global, old: ImageRef, new: ImageRef) -> Result<Comparison, NoMemory>
    ensures { IfOk result (λ comparison. IsComparison (image_of old.entry) (image_of new.entry)
        (pairs_of comparison.pairs.items) comparison.verdict) }
{
    compare_by(&Sequential, alloc, old, new)
}

/// Decides the same with this comparison of objects, which may use several threads. It is asked only if the search of the pairs has met words that
/// do not correspond, to find the first fault.
pub fn compare_by<C: ComparesObjects>(
    comparer: &C,
    alloc: Global,
    old: ImageRef,
    new: ImageRef,
) -> Result<Comparison, NoMemory>
    requires can { C.can_compare comparer.now }
    ensures { IfOk result (λ comparison. IsComparison (image_of old.entry) (image_of new.entry)
        (pairs_of comparison.pairs.items) comparison.verdict) }
{
    let Inferred {
        old,
        pairs,
        partners,
        alike,
    } = match infer_with_table(alloc, old, new) {
        Ok(inferred) => inferred,
        Err(CheckFault::Refused(refusal)) => return Ok(Comparison {
            pairs: Vec::new(alloc),
            verdict: Verdict::Refused(refusal),
        }),
        Err(CheckFault::NoMemory) => return Err(NoMemory),
    };
    verdicts_decide();
    let verdict = verdict_on(
        comparer,
        &Tables::of_partners(old, new, pairs.as_slice(), partners),
        alike,
    );
    Ok(Comparison { pairs, verdict })
}

// The verdict on pairs that hold if any certificate does decides whether there is one.
#[tactic(auto, using(crate::proofs::Joined::decided))]
fn verdicts_decide()
    ensures { (old new : Image) (pairs : List (ℕ × ℕ)) (verdict : Verdict) → verdict ≡ verdict_of old new pairs
        → (Certifiable old new → Certified old new pairs) → Decides verdict old new pairs }
{
    no_fault_where_certified();
    certified_is_replicated();
}

// Returns the verdict on pairs whose addresses are right. `alike` says that the walk has already compared them, and the roots.
fn verdict_on<C: ComparesObjects>(comparer: &C, tables: &Tables, alike: bool) -> Verdict
    requires can { C.can_compare comparer.now }
    requires alike { IsTrue alike → Certified tables.now.old tables.now.new tables.now.pairs }
    ensures { result ≡ option_map_or verdicts.Refused
        (object_faults tables.now.old tables.now.new tables.now.pairs or_else root_fault tables.now.old tables.now.new tables.now.pairs)
        (verdicts.Yes (length tables.now.pairs)) }
{
    if alike {
        no_fault_where_certified();
        return Verdict::Yes {
            pairs: tables.count(),
        };
    }
    if let Some(refusal) = comparer.object_fault(tables) {
        return Verdict::Refused(refusal);
    }
    if let Some(refusal) = tables.root_fault() {
        return Verdict::Refused(refusal);
    }
    Verdict::Yes {
        pairs: tables.count(),
    }
}

/// Infers pairs from two heap images alone, in the order of new addresses. They are a certificate that holds if any does. Makes
/// no assumption about the images or who produced them. Returns no pairs if an image is not shaped or the images have
/// different numbers of roots, and `NoMemory` if an allocation fails.
pub fn infer(alloc: Global, old: ImageRef, new: ImageRef) -> Result<Vec<Pair>, NoMemory>
    ensures few { IfOk result (λ pairs. length pairs.items < 2 ^ 32) }
    // Every certificate that holds has these pairs.
    ensures forced { IfOk result (λ pairs.
        AreForced (image_of old.entry) (image_of new.entry) (pairs_of pairs.items)) }
    // The same path finds the two objects of each pair.
    ensures together { IfOk result (λ pairs.
        AreTogether (image_of old.entry) (image_of new.entry) (pairs_of pairs.items)) }
    // The roots and the fields of the pairs lead to no further pair, also if no certificate holds.
    ensures closed { IfOk result (λ pairs. AreComparable (image_of old.entry) (image_of new.entry)
        → AreClosed (image_of old.entry) (image_of new.entry) (pairs_of pairs.items)) }
    // If any certificate holds, this one does.
    ensures complete { IfOk result (λ pairs. Certifiable (image_of old.entry) (image_of new.entry)
        → Certified (image_of old.entry) (image_of new.entry) (pairs_of pairs.items)) }
{
    match infer_with_table(alloc, old, new) {
        Ok(inferred) => Ok(inferred.pairs),
        Err(CheckFault::Refused(_)) => Ok(Vec::new(alloc)),
        Err(CheckFault::NoMemory) => Err(NoMemory),
    }
}

/// Pairs that were inferred, in the order of new addresses, and the table of their partners.
#[derive(Drop)]
struct Inferred<'a> {
    /// Where the objects of the old image start.
    old: Starts<'a>,
    pairs: Vec<Pair>,
    /// For each old object: the new address that is paired with it, or 0.
    partners: ObjectTable,
    /// The certificate was seen to hold as the pairs were found. If not, the objects are still to be compared.
    alike: bool,
}

// Infers pairs as `infer` does. Returns the first fault of shapes or root counts, or `NoMemory`.
fn infer_with_table<'a>(
    alloc: Global,
    old: ImageRef<'a>,
    new: ImageRef<'a>,
) -> Result<Inferred<'a>, CheckFault>
    ensures forced { IfOk result (λ inferred.
        AreForced (image_of old.entry) (image_of new.entry) (pairs_of inferred.pairs.items)) }
    ensures together { IfOk result (λ inferred.
        AreTogether (image_of old.entry) (image_of new.entry) (pairs_of inferred.pairs.items)) }
    ensures closed { IfOk result (λ inferred.
        AreClosed (image_of old.entry) (image_of new.entry) (pairs_of inferred.pairs.items)) }
    ensures complete { IfOk result (λ inferred. Certifiable (image_of old.entry) (image_of new.entry)
        → Certified (image_of old.entry) (image_of new.entry) (pairs_of inferred.pairs.items)) }
    ensures old { IfOk result (λ inferred. inferred.old ≡ image_of old.entry) }
    ensures table { IfOk result (λ inferred. HasTables (record {
      old = image_of old.entry;
      new = image_of new.entry;
      pairs = pairs_of inferred.pairs.items;
    }) inferred.partners) }
    ensures alike { IfOk result (λ inferred. IsTrue inferred.alike
        → Certified (image_of old.entry) (image_of new.entry) (pairs_of inferred.pairs.items)) }
    ensures refused { IfErr result
        (IsRefusalOf (table_fault (image_of old.entry) (image_of new.entry) [])) }
    ensures impossible { (refusal : Refusal) → result ≡ Err (CheckFault.Refused refusal)
        → AreComparable (image_of old.entry) (image_of new.entry) → ⊥ }
{
    let old_starts = match Starts::new(alloc, old) {
        Ok(starts) => starts,
        Err(fault) => return Err(fault.of_old()),
    };
    let new_starts = match Starts::new(alloc, new) {
        Ok(starts) => starts,
        Err(fault) => return Err(fault.of_new()),
    };
    if old.roots.len() != new.roots.len() {
        return Err(CheckFault::Refused(Refusal::RootCount));
    }
    let walk = find(alloc, &old_starts, &new_starts)?;
    let alike = walk.alike;
    let Found {
        partners,
        originals,
        mut pairs,
    } = walk.found;
    // The row has room for all pairs. The walk no longer needs their order.
    pairs.clear();
    enter_rising(&new_starts, &originals, &mut pairs);
    Ok(Inferred {
        old: old_starts,
        pairs,
        partners,
        alike,
    })
}

// Appends a pair for each new address that has an original, in the order of new addresses.
fn enter_rising(new: &Starts, originals: &ObjectTable, pairs: &mut Vec<Pair>)
    requires none { pairs.old.items ≡ [] }
    requires few { length new.now.words < 2 ^ 32 }
    requires entries { HasEntries new.now.words originals.now }
    requires room { taken_in (by_address new.now.words originals.now) ≤ vec_capacity pairs.old }
    ensures pairs { pairs_of pairs.new.items ≡ risen 0 (by_address new.now.words originals.now) }
{
    for half in 0..originals.len() {
        if originals.is_zero(half) {
            continue;
        }
        enter(new, originals, 2 * half as u32, pairs);
        enter(new, originals, 2 * half as u32 + 1, pairs);
    }
}

// Appends the pair of the new object that starts at this place, if one does and has an original. The pairs of later places are still to come.
fn enter(new: &Starts, originals: &ObjectTable, place: u32, pairs: &mut Vec<Pair>)
    requires entries { HasEntries new.now.words originals.now }
    requires room { length pairs.old.items
        + taken_in (drop place (by_address new.now.words originals.now)) ≤ vec_capacity pairs.old }
    ensures pairs { pairs_of pairs.new.items ++ risen (place + 1) (drop (place + 1) (by_address new.now.words originals.now))
        ≡ pairs_of pairs.old.items ++ risen place (drop place (by_address new.now.words originals.now)) }
    ensures room { length pairs.new.items
        + taken_in (drop (place + 1) (by_address new.now.words originals.now)) ≤ vec_capacity pairs.new }
{
    let original = originals.get(new, place);
    if original == 0 {
        return;
    }
    pairs.push_reserved(Pair {
        old: OldAddr(original),
        new: NewAddr(place),
    });
}
