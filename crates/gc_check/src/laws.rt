//! Laws: consequences of the definitions alone. `check` calls the first one for its proof.

ghost use Rattle.std.specs.Prelude.{◌≡◌, ◌↔◌, ℕ, List};
ghost use Rattle.gc_words.specs.Image.{Image};
ghost use Rattle.gc_words.specs.Certificate.{Certified};
ghost use Rattle.gc_check.specs.Headline.{Replicated};
ghost use Rattle.gc_check.specs.Profile.{CertifiedSmall, first_small_fault, CertifiedAsSmall, first_fault_as_small, MeanTheSame};
ghost use Rattle.gc_check.specs.Rows.{Rows};

/// The soundness theorem over the definitions alone. If the certificate holds, each reachable object has one
/// replica of its own, equal to it field by field, and later commands get the same replies from both heaps.
pub fn certified_is_replicated()
    ensures { (old new : Image) (pairs : List (ℕ × ℕ))
        → Certified old new pairs → Replicated old new pairs }
{
    gc_graph::corresponding_graphs_reply_alike();
    gc_words::certified_graphs_correspond();
}

/// For small images it makes no difference whether a reference that goes beyond a small space is a value: `check` accepts the
/// same certificates and names the same first fault as if a small space were the largest. Once shapes and addresses have no
/// fault, the same words correspond.
pub fn small_images_mean_the_same()
    ensures words { (old new : Image) (pairs : List (ℕ × ℕ)) → MeanTheSame old new pairs }
    ensures certified { (old new : Image) (pairs : List (ℕ × ℕ))
        → CertifiedAsSmall old new pairs ↔ CertifiedSmall old new pairs }
    ensures fault { (old new : Image) (pairs : List (ℕ × ℕ))
        → first_fault_as_small old new pairs ≡ first_small_fault old new pairs }
{}

/// The worked examples hold of the definitions, by computation.
pub fn worked_rows()
    ensures { Rows }
{}
