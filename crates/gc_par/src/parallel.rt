ghost use Rattle.std.specs.Thread.{IsSync};
ghost use Rattle.gc_words.specs.Certificate.{Certified};

use crate::checker::{check_par_wide, first_pair_fault};
use gc_check::{CheckFault, Checks, ComparesObjects, Tables, Yes};
use gc_words::{ImageRef, Pair, Refusal};
use std::alloc::Global;
use std::thread::Threads;

/// A checker that calls `check_par_wide` with the threads of a runtime.
#[derive(Debug, Drop)]
pub struct Parallel<'a, R> {
    rt: &'a R,
}

impl<'a, R> Parallel<'a, R> {
    /// Returns a checker that starts its threads through `rt`.
    pub fn new(rt: &'a R) -> Parallel<'a, R> {
        Parallel { rt }
    }
}

impl<R: Threads + Sync> Checks for Parallel<'_, R> {
    // The bound alone does not tell the prover that `R` is `Sync` within an impl.
    ghost can_check = { λ _. IsSync R.row };

    ghost says_yes = { λ _ pair. Certified pair.old pair.new pair.pairs };

    fn check(
        &self,
        alloc: Global,
        old: ImageRef,
        new: ImageRef,
        cert: &[Pair],
    ) -> Result<Yes, CheckFault> {
        check_par_wide(self.rt, alloc, old, new, cert)
    }
}

impl<R: Threads + Sync> ComparesObjects for Parallel<'_, R> {
    ghost can_compare = { λ _. IsSync R.row };

    fn object_fault(&self, tables: &Tables) -> Option<Refusal> {
        first_pair_fault(self.rt, tables, tables.count())
    }
}
