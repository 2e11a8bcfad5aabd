//! How long a mutator's log gets, and what a log costs its collector at a stop.
ghost use Rattle.std.specs.Prelude.{◌≡◌, ◌≤◌, ◌+◌, ◌*◌, ℕ, List, length};
ghost use Rattle.gc_model.specs.State.{new_end};
ghost use Rattle.gc_concurrent.specs.Ends.{Theirs, its};
ghost use Rattle.gc_concurrent.specs.Logging.{Doing, RunsTo, fields_written};
ghost use Rattle.gc_concurrent.specs.Moves.{Situation};
ghost use Rattle.gc_concurrent.specs.Nearing.{steps_ahead};
ghost use Rattle.gc_concurrent.specs.Works.{TakesLog};
ghost use Rattle.gc_concurrent.specs.Waiters.{situation_left, situation_taken};
ghost use Rattle.gc_concurrent.specs.declared.handshake.Holding.{Holding};
ghost use Rattle.gc_concurrent.specs.declared.handshake.Waiting.{Waiting};
ghost use Rattle.gc_concurrent.specs.Internal.Handshakes.{HandshakeState, IsHandshake, IsSeatOf};

/// From one moment to a later one, calls and safepoints make the log at most as much longer as fields were written. So at a stop it has at most the fields that
/// were written since it was empty. A log that is taken costs its collector two steps for each entry, and what it has to do then is bounded by the end of the
/// mutator's space.
pub fn logs_are_bounded()
    ensures bound { (doings : List Doing) (old new : Situation) → RunsTo doings old new → new.logged ≤ old.logged + fields_written doings }
    ensures taken { (end : ℕ) (old new : Theirs) → TakesLog old new → steps_ahead end new ≡ steps_ahead end old + 2 * length new.due }
    ensures steps { (end : ℕ) (t : Theirs) → new_end (its t) ≤ end → steps_ahead end t ≤ 4 * end + 2 * length t.due + 1 }
{}

/// Between two steps of a handshake, what its collector holds is what its mutator left in it, with as long a log.
pub(crate) fn what_is_held_was_left()
    ensures { (s : HandshakeState) (waiting : Waiting) (holding : Holding) → IsHandshake s → IsSeatOf s waiting.seat.me.0 → IsSeatOf s holding.seat.me.0 → situation_taken holding ≡ situation_left waiting }
{}
