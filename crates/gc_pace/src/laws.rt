//! Laws about many calls of paced work.

ghost use Rattle.std.specs.Prelude.{◌≡◌, ◌⊎◌, ◌<◌, ◌≤◌, ◌+◌, ◌*◌, ℕ, List};
ghost use Rattle.gc_graph.specs.declared.command.Op.{Op};
ghost use Rattle.gc_model.specs.Belonging.{IsState};
ghost use Rattle.gc_collected.specs.Collected.{Collected};
ghost use Rattle.gc_pace.specs.Counts.{counts_in};
ghost use Rattle.gc_pace.specs.Pace.{CountsAll, HasEnded, IsPacedWork, steps_left, units_left, units_of};
ghost use Rattle.gc_pace.specs.Turns.{Turn, ArePacedCalls, AreCommands, AreFew, AreTurns, FindsRoom, HasJustFlipped, HaveTaken, IsDefault, IsUnbounded, Remembers, TakeAtMost, after_commands, after_turns, unpaid};
ghost use Rattle.gc_pace.specs.Work.{units};
ghost use Rattle.gc_pace.specs.declared.pace.Pace.{Pace};
ghost use Rattle.gc_pace.specs.declared.work.Work.{Work};

/// If calls of paced work alone keep a collection going, with commands between them, then after each call all logs together have fewer
/// entries than units of work were left at first, besides the steps that the pace owes. After the begin these units are at most the heap's end, and
/// one for each 32 extra roots in use. A pace that does not bound the words of a call owes no step.
pub fn paced_work_bounds_logs()
    ensures work { (heap : Collected) (pace : Pace) (turns : List Turn) (most : ℕ)
        → IsState heap.core → Remembers pace heap → AreTurns heap pace turns → units_left heap ≤ most + pace.owed
        → units_left (after_turns heap pace turns).0 ≤ most + (after_turns heap pace turns).1.owed }
    ensures logs { (heap : Collected) (pace : Pace) (turns : List Turn) (most : ℕ)
        → IsState heap.core → Remembers pace heap → AreTurns heap pace turns → units_left heap ≤ most + pace.owed
        → (counts_in (after_turns heap pace turns).0).logged + units_of (after_turns heap pace turns).0.roots_left < most + (after_turns heap pace turns).1.owed }
    ensures owes { (heap : Collected) (pace : Pace) (turns : List Turn)
        → AreTurns heap pace turns → pace.words ≡ 0 → pace.owed ≡ 0 → (after_turns heap pace turns).1.owed ≡ 0 }
{}

/// If the steps follow from the counts, then the work that is left in units, but for the steps that the pace owes, falls at least as fast as the room,
/// in proportion: after any number of calls, with commands between them, `work / free` is no more than at first. So where no step was owed, and the work
/// was at most `most` times the free words, it stays so but for the steps owed. A call that finds no more room than it wants, and whose pace does not
/// bound its words, performs what is left, which ends the collection.
pub fn paced_work_keeps_up()
    ensures ratio { (heap : Collected) (pace : Pace) (turns : List Turn)
        → IsState heap.core → Remembers pace heap → AreTurns heap pace turns → AreFew turns → pace.rate ≡ 0
        → (let last = after_turns heap pace turns in unpaid last.0 last.1 * heap.core.heap.free ≤ unpaid heap pace * last.0.core.heap.free) }
    ensures most { (heap : Collected) (pace : Pace) (turns : List Turn) (most : ℕ)
        → IsState heap.core → Remembers pace heap → AreTurns heap pace turns → AreFew turns → pace.rate ≡ 0
        → 1 ≤ heap.core.heap.free → units_left heap ≤ most * heap.core.heap.free + pace.owed
        → (let last = after_turns heap pace turns in units_left last.0 ≤ most * last.0.core.heap.free + last.1.owed) }
    ensures room { (wanted : ℕ) (old new : Collected) (before after : Pace) (work : Work)
        → IsPacedWork wanted old new before after work → CountsAll (counts_in old) → steps_left (counts_in old) ≤ 4294967295 → before.words ≡ 0
        → (wanted < (counts_in old).free) ⊎ HasEnded new.core work }
{}

/// The longest wait of a program whose pace bounds no call. At first the work in units was at most `most` times the free words; where a collection
/// begins with n words in use, no extra roots and f free words, `most` is n / f, rounded up. Between two calls the program allocates at most `words`
/// words and logs at most `entries` entries, its stores to roots ask for at most `looks` looks more, and no call wants more than `words`. Then each call
/// finds more room than it wants, or it ends the collection, by at most `(2 * most + 1) * words + entries` units, and those of the looks: how long it
/// takes depends on what the program does between two calls, and not on the size of the heap.
pub fn waits_are_short()
    ensures { (heap : Collected) (pace : Pace) (turns : List Turn) (most : ℕ)
        → IsState heap.core → Remembers pace heap → AreTurns heap pace turns → AreFew turns → IsUnbounded pace → 1 ≤ heap.core.heap.free → units_left heap ≤ most * heap.core.heap.free
        → (let last = after_turns heap pace turns in
        (commands : List (ℕ × Op)) (words entries looks wanted : ℕ) (found new : Collected) (after : Pace) (work : Work)
        → AreCommands last.0.core.mutators commands → found.core ≡ after_commands last.0.core commands → HaveTaken words entries looks last.0 found → wanted ≤ words
        → IsPacedWork wanted found new last.1 after work → CountsAll (counts_in found) → steps_left (counts_in found) ≤ 4294967295
        → (wanted < (counts_in found).free) ⊎ (HasEnded new.core work × (units work ≤ (2 * most + 1) * words + entries + units_of looks))) }
{}

/// Bounded calls find the room that they want, if their bound is large enough. Between two calls the program allocates at most `words` words, logs at
/// most `entries` entries, and its stores to roots ask for at most `looks` looks more. No call wants more than `words` words, and each leaves at most
/// `roots` looks. The steps follow from the counts, and the bound of a call is above `(4 * most + 2) * words + entries`, and above what the looks add. Then
/// each call finds more room than it wants, or it ends the collection, unless an allocation fails. Without extra roots `looks` and `roots` are 0. The
/// heap's words, times `2 * most + 1`, and twice the bound are below 2^32, so that all counts are exact.
pub fn bounded_calls_find_room()
    // While a collection is open: at first no step was owed, and the work in units was at most `most` times the free words.
    ensures room { (heap : Collected) (pace : Pace) (turns : List Turn) (most words entries looks roots : ℕ)
        → IsState heap.core → 1 ≤ (counts_in heap).is_open → Remembers pace heap → ArePacedCalls heap pace turns → TakeAtMost words entries looks roots heap turns
        → pace.rate ≡ 0 → pace.owed ≡ 0 → (2 * most + 1) * heap.core.size + 2 * pace.words ≤ 4294967295
        → units_left heap ≤ most * heap.core.heap.free → heap.roots_left ≤ roots
        → (4 * most + 2) * words + entries + looks + units_of looks + roots < pace.words
        → (let last = after_turns heap pace turns in FindsRoom words entries looks last.0 last.1) }
    // From one flip to the next: the words that the flip left, and twice `words`, are at most the part `(most - 1) / (most + 1)` of the heap, less
    // what the looks add. With 2 it is a third, with 3 a half.
    ensures cycle { (heap : Collected) (pace : Pace) (turns : List Turn) (most words entries looks roots : ℕ)
        → IsState heap.core → HasJustFlipped heap pace → ArePacedCalls heap pace turns → TakeAtMost words entries looks roots heap turns
        → pace.rate ≡ 0 → (2 * most + 1) * heap.core.size + 2 * pace.words ≤ 4294967295
        → (most + 1) * ((counts_in heap).end + 2 * words) + 2 * (units_of roots + units_of looks) + heap.core.size ≤ most * heap.core.size
        → (counts_in heap).end + 4 * words < heap.core.size → heap.roots_left ≤ roots
        → (4 * most + 2) * words + entries + looks + units_of looks + roots < pace.words
        → (let last = after_turns heap pace turns in FindsRoom words entries looks last.0 last.1) }
    // The same by the numbers of the default pace, where the flip left a third of the heap at most.
    ensures default { (heap : Collected) (pace : Pace) (turns : List Turn) (words entries looks roots : ℕ)
        → IsState heap.core → HasJustFlipped heap pace → ArePacedCalls heap pace turns → TakeAtMost words entries looks roots heap turns
        → IsDefault pace → 5 * heap.core.size + 2048 ≤ 4294967295
        → 3 * ((counts_in heap).end + 2 * words) + 2 * (units_of roots + units_of looks) ≤ heap.core.size → heap.roots_left ≤ roots
        → 10 * words + entries + looks + units_of looks + roots < 1024
        → (let last = after_turns heap pace turns in FindsRoom words entries looks last.0 last.1) }
{}
