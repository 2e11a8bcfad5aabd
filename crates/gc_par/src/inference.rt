ghost use Rattle.std.specs.Prelude.{IfOk};
ghost use Rattle.gc_words.specs.Views.{image_of};
ghost use Rattle.gc_check.specs.Infer.{IsComparison};
ghost use Rattle.gc_check.specs.Verdict.{pairs_of};

use crate::parallel::Parallel;
use gc_check::{Comparison, compare_by};
use gc_graph::NoMemory;
use gc_words::ImageRef;
use std::alloc::Global;
use std::thread::Threads;

/// Decides whether any certificate holds of two heap images, as `gc_check::compare` does. The calling thread infers the pairs, and compares
/// words as it meets them. If some do not correspond and there are many pairs, several threads look for the first fault. Returns `NoMemory` if an
/// allocation fails.
pub fn compare_par(
    rt: &(impl Threads + Sync),
    alloc: Global,
    old: ImageRef,
    new: ImageRef,
) -> Result<Comparison, NoMemory>
    ensures { IfOk result (λ comparison. IsComparison (image_of old.entry) (image_of new.entry)
        (pairs_of comparison.pairs.items) comparison.verdict) }
{
    compare_by(&Parallel::new(rt), alloc, old, new)
}
