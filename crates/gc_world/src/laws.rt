//! Laws: consequences of the definitions, for the crates that build on this one.

ghost use Rattle.std.specs.Prelude.{◌≡◌, ◌≢◌, ◌++◌, ◌∷◌, [], ℕ, List, ◌≤◌};
ghost use Rattle.std.specs.List.{All};
ghost use Rattle.gc_graph.specs.Legal.{IsLegal};
ghost use Rattle.gc_graph.specs.Limits.{most_words, most_mutators};
ghost use Rattle.gc_model.specs.State.{opening_state};
ghost use Rattle.gc_model.specs.Runs.{IsEventWithin, after, answer, HasSizesWithin};
ghost use Rattle.gc_model.specs.declared.event.Answer.TheVariants.{Collector};
ghost use Rattle.gc_model.specs.Belonging.{IsState};
ghost use Rattle.gc_model.specs.Passing.{PassesWhereReady, AlwaysHasRoom};
ghost use Rattle.gc_model.specs.Carried.{OnlyLiveIsPaired, base_of_run};
ghost use Rattle.gc_model.specs.declared.step.StepReply.TheVariants.{Refused};
ghost use Rattle.gc_world.specs.History.{unmarked, events_of, state_after, told_of};
ghost use Rattle.gc_world.specs.History.{IsUseful, IsHistory};
ghost use Rattle.gc_world.specs.declared.entry.Entry.{Entry};

/// The empty list is a history. A history followed by an event with the core's answer is a history, if the mark
/// `Useful` is only on the useful step. The state after it is the one that the event leaves.
pub fn histories_grow()
    ensures opening { (size mutators : ℕ)
        → 1 ≤ size → size ≤ most_words → 1 ≤ mutators → mutators ≤ most_mutators → IsHistory size mutators [] }
    ensures event { (size mutators : ℕ) (entries : List Entry) (entry : Entry)
        → IsHistory size mutators entries
        → IsEventWithin most_words mutators entry.event
        → unmarked entry.answer
        ≡ answer (state_after size mutators entries) entry.event
        → IsUseful (state_after size mutators entries) entry.event entry.answer
        → IsHistory size mutators (entries ++ entry ∷ []) }
    ensures state { (size mutators : ℕ) (entries : List Entry) (entry : Entry)
        → state_after size mutators (entries ++ entry ∷ [])
        ≡ after (state_after size mutators entries) entry.event }
{}

/// In every history, the replies that mutators got are possible without a collector. The one exception is that an
/// allocation may find the heap full.
pub fn runs_are_legal()
    ensures { (size mutators : ℕ) (entries : List Entry)
        → IsHistory size mutators entries → IsLegal mutators (told_of entries) }
{}

/// The state that a history leads to is a state of the core, with as many mutators as the world was opened with. In
/// that state, the flip of a ready collection replies `Flipped` with the number of pairs. If the new space is at least
/// as large as the old one, no step replies `NoRoom`. Each original of an open collection was reachable when the
/// collection began, or was made later. No answer of a history is `Refused`. Both spaces are small enough for a text.
pub fn runs_keep_states()
    ensures states { (size mutators : ℕ) (entries : List Entry)
        → IsHistory size mutators entries → IsState (state_after size mutators entries) }
    ensures mutators { (size mutators : ℕ) (entries : List Entry)
        → IsHistory size mutators entries → (state_after size mutators entries).mutators ≡ mutators }
    ensures flips { (size mutators : ℕ) (entries : List Entry)
        → IsHistory size mutators entries → PassesWhereReady (state_after size mutators entries) }
    ensures none_refused { (size mutators : ℕ) (entries : List Entry)
        → IsHistory size mutators entries
        → All (λ (entry : Entry). unmarked entry.answer ≢ Collector Refused) entries }
    ensures room { (size mutators : ℕ) (entries : List Entry)
        → IsHistory size mutators entries → AlwaysHasRoom (state_after size mutators entries) }
    ensures kept { (size mutators : ℕ) (entries : List Entry)
        → IsHistory size mutators entries
        → (let opening = opening_state size mutators in
        OnlyLiveIsPaired (base_of_run opening opening (events_of entries))
        (state_after size mutators entries).collection) }
    ensures small { (size mutators : ℕ) (entries : List Entry)
        → IsHistory size mutators entries → HasSizesWithin most_words (state_after size mutators entries) }
{}
