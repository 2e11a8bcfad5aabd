ghost use Rattle.std.specs.Prelude.{◌≡◌, ◌<◌, ◌^◌, length, IfOk, IfErr, OnOk};
ghost use Rattle.gc_words.specs.Certificate.{Certified};
ghost use Rattle.gc_words.specs.Fault.{first_fault, object_faults};
ghost use Rattle.gc_words.specs.Views.{image_of};
ghost use Rattle.gc_check.specs.Headline.{Replicated};
ghost use Rattle.gc_check.specs.Profile.{CertifiedSmall, first_small_fault};
ghost use Rattle.gc_check.specs.Verdict.{pairs_of, IsRefusalOf};
ghost use Rattle.gc_par.specs.Internal.Least.{fault_at, place_or, IsFirst};

use gc_check::{CheckFault, Refusal, Tables, Yes, certified_is_replicated, check_sizes};
use gc_words::{ImageRef, Pair, no_fault_where_certified};
use rayon::prelude::*;
use std::alloc::Global;
use std::thread::Threads;

/// Checks a certificate against two heap images, as `gc_check::check` does. If there are many pairs, several threads
/// compare their objects. The verdict does not depend on the threads.
#[tactic(auto, using(gc_check::proofs::Public::small_fault))]
pub fn check_par(
    rt: &(impl Threads + Sync),
    alloc: Global,
    old: ImageRef,
    new: ImageRef,
    cert: &[Pair],
) -> Result<Yes, CheckFault>
    requires { length cert.now < 2 ^ 32 }
    ensures pairs { IfOk result (λ yes. yes.pairs ≡ length cert.now) }
    ensures yes { OnOk result (CertifiedSmall (image_of old.entry) (image_of new.entry) (pairs_of cert.now)) }
    ensures refused { IfErr result
        (IsRefusalOf (first_small_fault (image_of old.entry) (image_of new.entry) (pairs_of cert.now))) }

    // The soundness theorem: what a yes promises for everything that mutators do afterwards.
    ensures replicated { OnOk result
        (Replicated (image_of old.entry) (image_of new.entry) (pairs_of cert.now)) }
{
    match check_sizes(alloc, old, new) {
        Ok(()) => check_par_wide(rt, alloc, old, new, cert),
        Err(fault) => Err(fault),
    }
}

/// The same for images of any size, as `gc_check::check_wide` does.
pub fn check_par_wide(
    rt: &(impl Threads + Sync),
    alloc: Global,
    old: ImageRef,
    new: ImageRef,
    cert: &[Pair],
) -> Result<Yes, CheckFault>
    requires { length cert.now < 2 ^ 32 }
    ensures pairs { IfOk result (λ yes. yes.pairs ≡ length cert.now) }
    ensures yes { OnOk result (Certified (image_of old.entry) (image_of new.entry) (pairs_of cert.now)) }
    ensures refused { IfErr result
        (IsRefusalOf (first_fault (image_of old.entry) (image_of new.entry) (pairs_of cert.now))) }

    // The soundness theorem: what a yes promises for everything that mutators do afterwards.
    ensures replicated { OnOk result
        (Replicated (image_of old.entry) (image_of new.entry) (pairs_of cert.now)) }
{
    let tables = match Tables::new_wide(alloc, old, new, cert) {
        Ok(tables) => tables,
        Err(fault) => return Err(fault),
    };
    let pairs = cert.len() as u32;
    if let Some(refusal) = first_pair_fault(rt, &tables, pairs) {
        return Err(CheckFault::Refused(refusal));
    }
    if let Some(refusal) = tables.root_fault() {
        return Err(CheckFault::Refused(refusal));
    }
    no_fault_where_certified();
    certified_is_replicated();
    Ok(Yes { pairs })
}

/// Returns the first fault of the objects of a pair, going through the pairs in order.
#[tactic(auto, using(crate::proofs::Least::first_has_first_fault))]
pub(crate) fn first_pair_fault(
    rt: &(impl Threads + Sync),
    tables: &Tables,
    count: u32,
) -> Option<Refusal>
    requires { count ≡ length tables.now.pairs }
    ensures { result ≡ object_faults tables.now.old tables.now.new tables.now.pairs }
{
    let first = first_faulty(rt, tables, count);
    if first < count {
        tables.pair_fault(first)
    } else {
        None
    }
}

// Returns the number of the first pair that has a fault, or the number of pairs.
fn first_faulty(rt: &(impl Threads + Sync), tables: &Tables, count: u32) -> u32
    requires { count ≡ length tables.now.pairs }
    ensures { IsFirst (fault_at tables.now) count result }
{
    (0..count)
        .into_par_iter()
        .map(
            |k: u32| -> u32
                requires { (k < count) × (count ≡ length tables.now.pairs) }
                ensures { result ≡ place_or count (fault_at tables.entry.now) k }
            {
                if tables.pair_fault(k).is_some() {
                    k
                } else {
                    count
                }
            },
        )
        .min(rt)
        .unwrap_or(count)
}
