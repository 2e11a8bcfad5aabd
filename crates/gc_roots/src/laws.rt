//! Laws: what commands and steps leave of the rows, whoever wrote them.

ghost use Rattle.std.specs.Prelude.{◌≡◌, ◌≢◌, ◌<◌, ◌≤◌, ◌+◌, ◌++◌, ℕ, List, Some, None, true, length, map, max};
ghost use Rattle.gc_graph.specs.Slots.{roots_of};
ghost use Rattle.gc_graph.specs.Graph.{Nil, root};
ghost use Rattle.gc_graph.specs.declared.command.Op.{Op};
ghost use Rattle.gc_graph.specs.Graph.{Object};
ghost use Rattle.gc_graph.specs.Limits.{largest_space};
ghost use Rattle.gc_words.specs.Word.{is_value, value_of, word_of, words_correspond};
ghost use Rattle.gc_heap.specs.Heap.{HeapWords, IsHeap, graph_in};
ghost use Rattle.gc_model.specs.Belonging.{Belongs, IsOpened};
ghost use Rattle.gc_copy.specs.Twins.{IsTwin};
ghost use Rattle.gc_model.specs.State.{Collection, State, new_graph, pairs_of};
ghost use Rattle.gc_model.specs.Staying.{root_written};
ghost use Rattle.gc_model.specs.Steps.{mutate, collect, with_collection, root_target};
ghost use Rattle.gc_model.specs.declared.step.Step.{Step};
ghost use Rattle.gc_roots.specs.Twins.{RootRow, AskForLooks, AsksForLook, KeepsTwins, IsWritten, IsDone, SlotsAreTwins, begun, looks_left};
ghost use Rattle.gc_roots.specs.Looks.{LookRow, ComparesKnown, HasLooked};

/// A command that writes no extra root leaves the row of twins as it is. After one that writes an extra root, the row in which this root is
/// marked, if it was looked at, keeps the twins.
pub fn commands_keep_twins()
    ensures slots { (row : RootRow) (s : State) (m : ℕ) (op : Op) → ((q : ℕ) → root_written m op ≡ Some q → q < roots_of s.mutators)
        → KeepsTwins row s → KeepsTwins row (mutate s m op).1 }
    ensures roots { (row now : RootRow) (s : State) (m k : ℕ) (op : Op) → root_written m op ≡ Some (roots_of s.mutators + k) → IsWritten row now k → row.used ≤ now.used
        → roots_of s.mutators + now.used ≤ length row.twins → (now.used ≤ k → root (mutate s m op).1.heap.graph (roots_of s.mutators + k) ≡ Nil)
        → KeepsTwins row s → KeepsTwins now (mutate s m op).1 }
{}

/// A write of an extra root takes no look away, and asks for one at most, unless no root from it on was in use. That is so for an open collection, and for
/// one that begins afterwards.
pub fn writes_ask_for_looks()
    ensures takes { (row now : RootRow) (k : ℕ) → IsWritten row now k → now.used ≡ max row.used (k + 1)
        → AsksForLook k (looks_left row) (looks_left now) × AsksForLook k (looks_left (begun row)) (looks_left (begun now)) }
    ensures becomes_nil { (row now : RootRow) (k : ℕ) → IsWritten row now k → now.used ≡ row.used
        → AskForLooks 1 (looks_left row) (looks_left now) × AskForLooks 1 (looks_left (begun row)) (looks_left (begun now)) }
{}

/// A step of the collector that does not flip leaves the row as it is: it moves no replica and takes none away. Where a collection begins or ends
/// without a flip, nothing is looked at any more.
pub fn steps_keep_twins()
    ensures steps { (row : RootRow) (s : State) (c : Collection) (step : Step) → s.collection ≡ Some c → step ≢ Step.Flip
        → KeepsTwins row s → KeepsTwins row (collect s step).1 }
    ensures ends { (row : RootRow) (s : State) (o : Collection) → KeepsTwins row s → KeepsTwins (begun row) (with_collection s (Some o)) }
    ensures gives_up { (row : RootRow) (s : State) → KeepsTwins row s → KeepsTwins (begun row) (with_collection s None) }
{}

/// Where no extra root has to be looked at, and the slots have their twins, the row is the list of the new root words, and each root's target has
/// a replica.
pub fn a_done_row_is_the_new_roots()
    ensures words { (row : RootRow) (s : State) (c : Collection) → s.collection ≡ Some c → KeepsTwins row s → IsDone row → SlotsAreTwins row s c
        → row.twins ≡ map word_of (new_graph c s.heap.graph.roots).roots }
    ensures known { (row : RootRow) (s : State) (c : Collection) → s.collection ≡ Some c → KeepsTwins row s → IsDone row → SlotsAreTwins row s c
        → root_target c s.heap.graph ≡ None }
{}

/// What the checker has compared stays right as pairs come.
pub fn looks_outlast_pairs()
    ensures { (pairs more : List (ℕ × ℕ)) (slots : ℕ) (olds news : List ℕ) (row : LookRow)
        → HasLooked pairs slots olds news row → HasLooked (pairs ++ more) slots olds news row }
{}

/// A checker that has the collection's pairs finds each twin alike to its root. So none of this collector's looks is in vain, and where the checker
/// has compared only roots whose twins are up to date, each of them is alike to the new root.
pub fn twins_are_alike()
    ensures words { (objects : List (ℕ × Object)) (c : Collection) (w u : ℕ) → Belongs objects c → c.size ≤ largest_space → is_value w ≡ true
        → IsTwin c (value_of w) u → words_correspond (pairs_of c) w u ≡ true }
    ensures rows { (heap : HeapWords) (s : State) (c : Collection) (row : RootRow) (looks : LookRow) → IsHeap heap → s.heap.graph ≡ graph_in heap
        → s.collection ≡ Some c → IsOpened s c → KeepsTwins row s → ComparesKnown row looks
        → HasLooked (pairs_of c) (roots_of s.mutators) heap.roots (map word_of (new_graph c s.heap.graph.roots).roots) looks }
{}
