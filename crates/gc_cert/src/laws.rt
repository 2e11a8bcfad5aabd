ghost use Rattle.std.specs.Prelude.{◌≡◌, ℕ, List, ◌⊎◌};
ghost use Rattle.gc_cert.specs.Grammar.{CertifiedPair, HasText, IsTextOf, spelling};
ghost use Rattle.gc_cert.specs.Faults.{IsPairFaultOf, IsReadAsPair};
ghost use Rattle.gc_cert.specs.Rows.{Rows};
ghost use Rattle.gc_cert.specs.declared.fault.PairFault.{PairFault};

/// Each text has one reading: either one pair of images or one first fault.
pub fn texts_have_one_reading()
    ensures value { (f g : CertifiedPair) (text : List ℕ) → IsTextOf f text → IsTextOf g text → f ≡ g }
    ensures good { (f : CertifiedPair) (fault : PairFault) (text : List ℕ) → IsReadAsPair f text → IsPairFaultOf fault text → ⊥ }
    ensures some { (text : List ℕ) → ((f : CertifiedPair) × IsReadAsPair f text) ⊎ ((fault : PairFault) × IsPairFaultOf fault text) }
    ensures fault { (p q : PairFault) (text : List ℕ) → IsPairFaultOf p text → IsPairFaultOf q text → p ≡ q }
{}

/// The text of a pair is within the limit and is read back as that pair.
#[tactic(auto, using(crate::proofs::TextLimit::written_reads))]
pub fn written_is_read()
    ensures { (f : CertifiedPair) → HasText f → IsReadAsPair f (spelling f) }
{}

/// The worked examples hold of the definitions, by computation.
#[tactic(auto, using(crate::proofs::RowProofs::rows))]
pub fn worked_rows()
    ensures { Rows }
{}
