ghost use Rattle.std.specs.Prelude.{◌≡◌, ◌≤◌, ℕ, List, length, ◌⊎◌};
ghost use Rattle.std.specs.List.{AllByRecursion};
ghost use Rattle.gc_graph.specs.Range.{IsCommand};
ghost use Rattle.gc_world.specs.History.{IsHistory, answers_of, state_after, events_of};
ghost use Rattle.gc_world.specs.declared.entry.Entry.{Entry};
ghost use Rattle.gc_model.specs.declared.event.Event.{Event};
ghost use Rattle.gc_trace.specs.Grammar.{Recording, IsTraceText, IsOf, trace_text, least_trace};
ghost use Rattle.gc_trace.specs.Faults.{trace_limit, IsTraceFaultOf, IsReadAsTrace};
ghost use Rattle.gc_trace.specs.Plays.{trace_answers};
ghost use Rattle.gc_trace.specs.Rows.{TextRows, SizedRows, RawRows, LineRows};
ghost use Rattle.gc_trace.specs.Report.{report_of};
ghost use Rattle.gc_trace.specs.ReportRows.{ReportRows};
ghost use Rattle.gc_model.specs.Runs.{commands_of};
ghost use Rattle.gc_trace.specs.Scripts.{scripts};
ghost use Rattle.gc_trace.specs.declared.fault.TraceFault.{TraceFault};

/// A text has one reading: one trace, or one first fault.
pub fn texts_have_one_reading()
    ensures value { (t u : Recording) (text : List ℕ) → IsTraceText t text → IsTraceText u text → t ≡ u }
    ensures good { (t : Recording) (fault : TraceFault) (text : List ℕ) → IsReadAsTrace t text → IsTraceFaultOf fault text → ⊥ }
    ensures some { (text : List ℕ) → ((t : Recording) × IsReadAsTrace t text) ⊎ ((f : TraceFault) × IsTraceFaultOf f text) }
    ensures fault { (f g : TraceFault) (text : List ℕ) → IsTraceFaultOf f text → IsTraceFaultOf g text → f ≡ g }
{}

/// The text of a world's history is read back as its events, if the text is within the limit. Playing these events
/// gives the history's answers.
#[tactic(auto, using(crate::proofs::HistoryTexts::history_has_text, crate::proofs::HistoryTexts::same_answers))]
pub fn written_is_read()
    ensures read { (size mutators : ℕ) (entries : List Entry)
        → IsHistory size mutators entries
        → length (trace_text (least_trace size mutators (events_of entries))) ≤ trace_limit
        → IsReadAsTrace (least_trace size mutators (events_of entries)) (trace_text (least_trace size mutators (events_of entries))) }
    ensures answers { (size mutators : ℕ) (entries : List Entry) → IsHistory size mutators entries
        → trace_answers (least_trace size mutators (events_of entries)) ≡ answers_of entries }
{}

/// The worked examples hold of the definitions, by computation.
#[tactic(auto, using(crate::proofs::RowProofs::text_rows, crate::proofs::RowProofs::sized_rows, crate::proofs::RowProofs::raw_rows, crate::proofs::RowProofs::line_rows))]
pub fn worked_rows()
    ensures texts { TextRows }
    ensures sized { SizedRows }
    ensures raws { RawRows }
    ensures lines { LineRows }
{}

/// The worked example of a report holds of the definitions, by computation.
pub fn worked_report()
    ensures { ReportRows }
{}

/// Each replica is placed by a different step, so a report has no more pairs than events.
pub fn pairs_are_placed_by_steps()
    ensures { (size mutators : ℕ) (entries : List Entry) → IsHistory size mutators entries
        → (let report = report_of (answers_of entries) (state_after size mutators entries) in
        report.pairs ≤ report.events) }
{}

/// Each mutator has a script, and the numbers in its commands are in range if those in the events are.
pub fn scripts_are_commands()
    ensures count { (mutators : ℕ) (events : List Event) → length (scripts mutators events) ≡ mutators }
    ensures commands { (m mutators : ℕ) (events : List Event)
        → AllByRecursion (IsOf mutators) events → AllByRecursion IsCommand (commands_of m events) }
{}
