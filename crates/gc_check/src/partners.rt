//! The table of partners: the pairs of a certificate, entered one after the other.

ghost use Rattle.std.specs.Prelude.{◌≡◌, None, Some, length, replicate, IsOk, MatchResult};
ghost use Rattle.gc_words.specs.Image.{walk_words};
ghost use Rattle.gc_words.specs.Fault.{place_faults};
ghost use Rattle.gc_words.specs.Views.{addresses};
ghost use Rattle.gc_check.specs.Internal.Tables.{HasEntries, HoldsPartners, by_address, entry_fault};
ghost use Rattle.gc_check.specs.Verdict.{pairs_of, IsRefusalOf};

use crate::object_table::ObjectTable;
use crate::starts::Starts;
use crate::verdict::CheckFault;
use gc_words::{NewAddr, Pair, Refusal};
use std::alloc::Global;

/// Returns the table of partners of old objects, or the first fault of a pair's addresses. Allocates once.
pub(crate) fn partners_of(
    alloc: Global,
    old: &Starts,
    new: &Starts,
    cert: &[Pair],
) -> Result<ObjectTable, CheckFault>
    requires old_walked { IsOk (walk_words old.now.words) }
    requires new_walked { IsOk (walk_words new.now.words) }
    ensures { MatchResult result
        (λ partners. (place_faults old.now new.now (pairs_of cert.now) ≡ None)
        × HasEntries old.now.words partners
        × HoldsPartners (by_address old.now.words partners) (pairs_of cert.now))
        (IsRefusalOf (place_faults old.now new.now (pairs_of cert.now))) }
{
    let mut partners = ObjectTable::new(alloc, old)?;
    match enter_pairs(old, new, cert, &mut partners) {
        Ok(()) => Ok(partners),
        Err(refusal) => Err(CheckFault::Refused(refusal)),
    }
}

// Enters the pairs up to the first fault of a pair's addresses.
fn enter_pairs(
    old: &Starts,
    new: &Starts,
    cert: &[Pair],
    partners: &mut ObjectTable,
) -> Result<(), Refusal>
    requires old_walked { IsOk (walk_words old.now.words) }
    requires new_walked { IsOk (walk_words new.now.words) }
    requires entries { HasEntries old.now.words partners.old }
    requires empty { by_address old.now.words partners.old ≡ replicate (length old.now.words) 0 }
    ensures { MatchResult result
        (λ _. (place_faults old.now new.now (pairs_of cert.now) ≡ None)
        × HasEntries old.now.words partners.new
        × HoldsPartners (by_address old.now.words partners.new) (pairs_of cert.now))
        (λ refusal. place_faults old.now new.now (pairs_of cert.now) ≡ Some refusal) }
{
    // No object starts at 0, so every new address is above it.
    let mut last = NewAddr(0);
    for (k, pair) in cert.iter().enumerate() {
        if let Some(refusal) = place_fault(old, new, partners, last, k as u64, *pair) {
            return Err(refusal);
        }
        partners.set(old, pair.old.0, pair.new.0);
        last = pair.new;
    }
    Ok(())
}

// Returns the fault of pair `k`'s addresses. `last` is the new address of the pair before, or 0.
fn place_fault(
    old: &Starts,
    new: &Starts,
    partners: &ObjectTable,
    last: NewAddr,
    k: u64,
    pair: Pair,
) -> Option<Refusal>
    requires { HasEntries old.now.words partners.now }
    ensures { result
        ≡ entry_fault old.now new.now (by_address old.now.words partners.now) last.0 k (addresses pair) }
{
    if !old.contains(pair.old.0) {
        Some(Refusal::OldNotStart { k })
    } else if !new.contains(pair.new.0) {
        Some(Refusal::NewNotStart { k })
    } else if pair.new.0 <= last.0 {
        Some(Refusal::NotRising { k })
    } else if partners.get(old, pair.old.0) != 0 {
        Some(Refusal::Twice { k })
    } else {
        None
    }
}
