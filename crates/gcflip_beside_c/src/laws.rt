//! The law over whole runs of C's calls: it follows from what the clauses of the exports say.
ghost use Rattle.std.specs.Prelude.{◌≡◌, ℕ, true, List, length};
ghost use Rattle.gc_graph.specs.Machine.{Roomy};
ghost use Rattle.gc_graph.specs.Runs.{replies, is_full, HasRoom};
ghost use Rattle.gc_graph.specs.declared.command.Op.{Op};
ghost use Rattle.gc_heap.specs.Heap.{HeapWords, IsHeap};
ghost use Rattle.gc_concurrent.specs.Law.{Shows, by_one};
ghost use Rattle.gcflip_beside_c.specs.Commands.{RunsOn, GetsReply};
ghost use Rattle.gcflip_beside_c.specs.HandleStage.{HandleStage, runs};
ghost use Rattle.gcflip_beside_c.specs.Stages.{Stops, Resumes};
ghost use Rattle.gcflip_beside_c.specs.Whole.{CallsRan, HasSoundHeap, StillShows, numbers_in_c};

use gc_concurrent::{runs_reply_alike, what_is_shown_stays};

/// What a mutator's handle shows, it shows after a safepoint, after the mutator has gone on, and after a command that found no room.
pub fn handles_still_show()
    ensures stops { (old new : HandleStage) (answer : ℕ) → Stops old new answer → StillShows old new }
    ensures resumes { (old new : HandleStage) (answer : ℕ) → HasSoundHeap new → Resumes old new answer → StillShows old new }
    ensures full { (old new : HandleStage) (op : Op) → RunsOn (GetsReply op (λ reply. is_full reply ≡ true)) old new → StillShows old new }
{
    what_is_shown_stays();
}

/// If every command found room at last, with safepoints anywhere between, the calls returned the numbers of the replies of each machine with room that has
/// the graph that the heap showed.
pub fn calls_reply_alike()
    ensures { (heap : HeapWords) (new : HandleStage) (ops : List Op) (told : List ℕ) → IsHeap heap → CallsRan (runs heap) ops told new
        → (s : Roomy) → Shows s.graph heap → HasRoom s (by_one ops) (length ops) → told ≡ numbers_in_c ops (replies s (by_one ops)) }
{
    runs_reply_alike();
}
