ghost use Rattle.std.specs.Prelude.{◌≡◌, ◌<◌, ◌^◌, ⊤, length, IfOk, IfErr, OnOk};
ghost use Rattle.gc_cert.specs.Grammar.{CertifiedPair};
ghost use Rattle.gc_cert.specs.Views.{pair_of};
ghost use Rattle.gc_words.specs.Certificate.{Certified};
ghost use Rattle.gc_words.specs.Fault.{first_fault, object_faults};
ghost use Rattle.gc_words.specs.Views.{image_of};
ghost use Rattle.gc_check.specs.Headline.{Replicated};
ghost use Rattle.gc_check.specs.Verdict.{pairs_of, IsRefusalOf};

use crate::checker::{check_wide, first_pair_fault};
use crate::tables::Tables;
use crate::verdict::{CheckFault, Yes};
use gc_words::{ImageRef, Pair, Refusal};
use std::alloc::Global;

/// A checker: decides whether a certificate holds of two heap images.
///
/// Code that flips is generic over its checker, so that one body serves one thread and several. Its contract
/// then shows that the checker was really asked: generic code knows nothing of `says_yes`, and only a yes of
/// the method `check` establishes it.
pub trait Checks {
    // What a caller must establish before it asks a checker. In an impl, the prover does not know that a parameter
    // is `Sync`, even with that bound; this member carries it.
    ghost can_check: { Self → Type 0 } = { λ _. ⊤ };

    // Holds of a checker and a pair of images with a certificate to which it says yes.
    ghost says_yes: { Self → CertifiedPair → Type 0 };

    /// Checks a certificate against two heap images. Makes no assumption about the images or who produced
    /// them. Returns the number of pairs, or the first refusal in the fixed order, or `NoMemory` if the
    /// tables cannot be allocated.
    fn check(
        &self,
        alloc: Global,
        old: ImageRef,
        new: ImageRef,
        cert: &[Pair],
    ) -> Result<Yes, CheckFault>
        requires can { can_check self.now }
        requires few { length cert.now < 2 ^ 32 }
        ensures said { OnOk result (says_yes self.now (pair_of old.entry new.entry cert.now)) }
        ensures pairs { IfOk result (λ yes. yes.pairs ≡ length cert.now) }
        ensures yes { OnOk result (Certified (image_of old.entry) (image_of new.entry) (pairs_of cert.now)) }
        ensures refused { IfErr result
            (IsRefusalOf (first_fault (image_of old.entry) (image_of new.entry) (pairs_of cert.now))) }
        ensures replicated { OnOk result
            (Replicated (image_of old.entry) (image_of new.entry) (pairs_of cert.now)) };
}

/// Compares the objects of pairs whose addresses are right, in the calling thread or in several. It names the first fault when the walk that
/// inferred the pairs has met one, with the tables of that walk.
pub trait ComparesObjects {
    // What a caller must establish before it asks, as for `Checks`.
    ghost can_compare: { Self → Type 0 } = { λ _. ⊤ };

    /// Returns the first fault of the objects of a pair, going through the pairs in order.
    fn object_fault(&self, tables: &Tables) -> Option<Refusal>
        requires can { can_compare self.now }
        ensures fault { result ≡ object_faults tables.now.old tables.now.new tables.now.pairs };
}

/// Checks in the calling thread, by `check_wide`.
#[derive(Debug, Drop)]
pub struct Sequential;

impl ComparesObjects for Sequential {
    fn object_fault(&self, tables: &Tables) -> Option<Refusal> {
        first_pair_fault(tables, tables.count())
    }
}

impl Checks for Sequential {
    ghost says_yes = { λ _ pair. Certified pair.old pair.new pair.pairs };

    fn check(
        &self,
        alloc: Global,
        old: ImageRef,
        new: ImageRef,
        cert: &[Pair],
    ) -> Result<Yes, CheckFault> {
        check_wide(alloc, old, new, cert)
    }
}
