//! Laws of the rows of a standing checker.

ghost use Rattle.std.specs.Prelude.{◌≡◌, ◌≤◌, ◌==◌, ◌∷◌, ◌++◌, [], ℕ, List, length, replicate, slice_index_or};
ghost use Rattle.gc_graph.specs.Correspond.{paired};
ghost use Rattle.gc_monitor.specs.Origins.{pairs_in};

/// A row of originals by new place holds pairs as well as a row of partners by old place does, and grows at its end alone.
pub fn origins_tell_pairs()
    ensures paired { (origins : List ℕ) (a b : ℕ) → 1 ≤ a
        → paired (pairs_in origins) a b ≡ (slice_index_or origins b 0 == a) }
    ensures placed { (origins : List ℕ) (a n : ℕ) → 1 ≤ a
        → pairs_in (origins ++ a ∷ replicate n 0) ≡ pairs_in origins ++ (a, length origins) ∷ [] }
    ensures walked { (origins : List ℕ) (n : ℕ) → pairs_in (origins ++ replicate n 0) ≡ pairs_in origins }
{}
