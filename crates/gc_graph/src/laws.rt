ghost use Rattle.std.specs.Prelude.{◌≡◌, ℕ, List, take};
ghost use Rattle.gc_graph.specs.Machine.{Roomy};
ghost use Rattle.gc_graph.specs.Runs.{replies, replies_by, AreUnused, HasRoom};
ghost use Rattle.gc_graph.specs.Correspond.{Corresponding};
ghost use Rattle.gc_graph.specs.Rows.{Rows};
ghost use Rattle.gc_graph.specs.declared.command.Op.{Op};

/// The replies to a list of commands do not depend on which unused names new objects take.
pub fn names_do_not_matter()
    ensures any_two { (s : Roomy) (commands : List (ℕ × Op)) (names others : List ℕ)
        → AreUnused s names commands → AreUnused s others commands → replies_by s names commands ≡ replies_by s others commands }
    ensures fresh { (s : Roomy) (commands : List (ℕ × Op)) (names : List ℕ)
        → AreUnused s names commands → replies_by s names commands ≡ replies s commands }
{}

/// Graphs that correspond give the same replies while both have room.
pub fn corresponding_graphs_reply_alike()
    ensures { (s t : Roomy) (pairs : List (ℕ × ℕ)) → Corresponding pairs s.graph t.graph → (commands : List (ℕ × Op)) (n : ℕ)
        → HasRoom s commands n → HasRoom t commands n → take n (replies s commands) ≡ take n (replies t commands) }
{}

/// The worked examples hold of the definitions, by computation.
pub fn worked_rows()
    ensures { Rows }
{}
