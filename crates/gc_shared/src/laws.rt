ghost use Rattle.gc_shared.specs.Rows.{Rows};

/// The worked examples hold of the definitions, by computation.
pub fn worked_rows()
    ensures { Rows }
{}
