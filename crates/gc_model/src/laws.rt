//! Laws that follow from the definitions. A function that calls one of these may use what it says.

ghost use Rattle.std.specs.Prelude.{◌≡◌, ◌≢◌, ◌+◌, ◌++◌, ◌∷◌, [], ℕ, List, ◌-◌, ◌<◌, ◌≤◌, ◌==◌, length, Some, is_none, ◌⊎◌, IsTrue, IsFalse, IfSome};
ghost use Rattle.gc_graph.specs.Limits.{largest_space};
ghost use Rattle.gc_graph.specs.Graph.{Value, Ref, Object, Graph, root, set_field};
ghost use Rattle.gc_graph.specs.Correspond.{Corresponding};
ghost use Rattle.gc_graph.specs.Machine.{Roomy, roomy_step};
ghost use Rattle.gc_graph.specs.Range.{IsCommand};
ghost use Rattle.gc_graph.specs.declared.command.Op.{Op};
ghost use Rattle.gc_words.specs.Image.{IsShaped, graph_of, roomy_of};
ghost use Rattle.gc_words.specs.Certificate.{Certified};
ghost use Rattle.gc_model.specs.State.{Replica, Collection, State, opening_state, heap_end, new_end, new_objects, new_free, pairs_of, replica_of, replica_at, moved, new_graph};
ghost use Rattle.gc_model.specs.Linked.{linked_image, old_links, new_links};
ghost use Rattle.gc_model.specs.Steps.{written, log_at, with_log, write_replica, fresh_collection, mutate, collect, is_change, is_ready, useful_step};
ghost use Rattle.gc_model.specs.Members.{In};
ghost use Rattle.gc_model.specs.Belonging.{HasRawNumbers, IsSpaceGraph, HasField, Belongs, BelongsBut, IsOpened, IsState};
ghost use Rattle.gc_model.specs.Runs.{HasRange, IsStep, InEveryRun};
ghost use Rattle.gc_model.specs.Passing.{HasImage, PassesWhereReady, NeverRefused, AlwaysHasRoom, ScansToTheEnd, HasFewPairs};
ghost use Rattle.gc_model.specs.Progress.{ChangesLower, Advances, Ends, entries_in, entries_left, work_left};
ghost use Rattle.gc_model.specs.Carried.{CarriesOnlyLive, CarriesOnlyLiveFrom, NamesOnlyLive};
ghost use Rattle.gc_model.specs.Staying.{KnowsRoot, root_written};
ghost use Rattle.gc_model.specs.Rows.{Rows, SizedRows, FlipPairRows};
ghost use Rattle.gc_model.specs.declared.step.Step.{Step};
ghost use Rattle.gc_model.specs.declared.step.StepReply.TheVariants.{NoRoom};

/// The worked examples hold of the definitions, by computation.
pub fn worked_rows()
    ensures answers { Rows }
    ensures sized { SizedRows }
    ensures kept { FlipPairRows }
{}

/// A collection that has just begun belongs to its heap. A command keeps the heap sound, and the collection belongs to it except
/// for the field that the command wrote. A log entry for this field restores that.
pub fn belonging_stays()
    ensures begins { (objects : List (ℕ × Object)) (mutators size : ℕ) → HasRawNumbers objects
        → 1 ≤ size → Belongs objects (fresh_collection mutators size) }
    ensures heaps { (size : ℕ) (heap : Roomy) (m : ℕ) (op : Op)
        → IsSpaceGraph size heap.free heap.graph → IsCommand op
        → (let next = roomy_step heap m op (size - heap.free) in
        IsSpaceGraph size next.1.free next.1.graph) }
    ensures commands { (heap : Roomy) (c : Collection) (m : ℕ) (op : Op) (name : ℕ)
        → Belongs heap.graph.objects c
        → (let next = roomy_step heap m op name in
        BelongsBut (λ a i. In (a, i) (written heap.graph m op next.0)) next.1.graph.objects c) }
    ensures fields { (heap : Roomy) (m : ℕ) (op : Op) (name a i : ℕ)
        → (let next = roomy_step heap m op name in
        In (a, i) (written heap.graph m op next.0) → HasField next.1.graph.objects a i) }
    ensures notes { (objects : List (ℕ × Object)) (c : Collection) (m a i : ℕ)
        → m < length c.logs → HasField objects a i
        → BelongsBut (λ b j. (b ≡ a) × (j ≡ i)) objects c
        → Belongs objects (with_log c m (log_at c m ++ (a, i) ∷ [])) }
{}

/// Commands and steps keep the heap sound, and an open collection still belongs to it.
pub fn states_stay()
    ensures opening { (size mutators : ℕ)
        → 1 ≤ size → size ≤ largest_space → IsState (opening_state size mutators) }
    ensures commands { (s : State) (m : ℕ) (op : Op)
        → IsState s → m < s.mutators → IsCommand op → IsState (mutate s m op).1 }
    ensures steps { (s : State) (step : Step)
        → IsState s → IsStep s.mutators step → IsState (collect s step).1 }
    ensures runs { InEveryRun IsState }
    // A command may name any root, and so an extra one.
    ensures root_commands { (s : State) (m : ℕ) (op : Op)
        → IsState s → m < s.mutators → HasRange op → IsState (mutate s m op).1 }
{}

/// A heap is the graph of its image, whatever the links are.
pub fn images_have_their_graphs()
    ensures shaped { (links : ℕ → ℕ) (size free : ℕ) (g : Graph)
        → IsSpaceGraph size free g → IsShaped (linked_image links size g) }
    ensures graph { (links : ℕ → ℕ) (size free : ℕ) (g : Graph)
        → IsSpaceGraph size free g → graph_of (linked_image links size g) ≡ g }
    ensures roomy { (links : ℕ → ℕ) (size free : ℕ) (g : Graph)
        → IsSpaceGraph size free g
        → roomy_of (linked_image links size g) ≡ record { graph = g; free = free } }
    ensures runs { InEveryRun HasImage }
{}

/// The link of an object in the old space is its replica's address, or 0 if it has none. The link of a replica is its original's
/// address. Writing a field at a replica's address changes that replica.
pub fn links_tell_replicas()
    ensures by_name { (objects : List (ℕ × Object)) (c : Collection) (r : Replica)
        → Belongs objects c → In r c.replicas → replica_of c r.original ≡ Some r }
    ensures by_place { (objects : List (ℕ × Object)) (c : Collection) (r : Replica)
        → Belongs objects c → In r c.replicas → replica_at c r.place ≡ Some r }
    ensures zero { (objects : List (ℕ × Object)) (c : Collection) (a : ℕ)
        → Belongs objects c → (old_links c a == 0) ≡ is_none (replica_of c a) }
    ensures moved { (objects : List (ℕ × Object)) (c : Collection) (a : ℕ) (r : Replica)
        → Belongs objects c → replica_of c a ≡ Some r → moved c (Ref a) ≡ Ref (old_links c a) }
    ensures back { (objects : List (ℕ × Object)) (c : Collection) (a : ℕ) (r : Replica)
        → Belongs objects c → replica_of c a ≡ Some r → new_links c (old_links c a) ≡ a }
    ensures writes { (objects : List (ℕ × Object)) (c : Collection) (a i : ℕ) (v : Value) (r : Replica)
        → Belongs objects c → replica_of c a ≡ Some r
        → new_objects (write_replica c a i v) ≡ set_field (new_objects c) r.place i v }
{}

/// The certificate of a ready collection holds, whatever the links are. Its new space is a heap whose graph corresponds to the old
/// one. So its flip passes the check, and no flip is ever refused.
pub fn ready_flips_pass()
    ensures certified { (links others : ℕ → ℕ) (size free : ℕ) (g : Graph) (c : Collection)
        → IsSpaceGraph size free g → Belongs g.objects c → c.size ≤ largest_space → IsTrue (is_ready c g)
        → Certified (linked_image links size g) (linked_image others c.size (new_graph c g.roots)) (pairs_of c) }
    ensures heap { (size free : ℕ) (g : Graph) (c : Collection)
        → IsSpaceGraph size free g → Belongs g.objects c → c.size ≤ largest_space → IsTrue (is_ready c g)
        → IsSpaceGraph c.size (new_free c) (new_graph c g.roots) }
    ensures corresponding { (size free : ℕ) (g : Graph) (c : Collection)
        → IsSpaceGraph size free g → Belongs g.objects c → c.size ≤ largest_space → IsTrue (is_ready c g)
        → Corresponding (pairs_of c) g (new_graph c g.roots) }
    ensures passes { (s : State) → IsState s → PassesWhereReady s }
    ensures never_refused { (s : State) → IsState s → NeverRefused s }
    ensures runs { InEveryRun PassesWhereReady }
    ensures runs_never_refused { InEveryRun NeverRefused }
{}

/// A step whose reply means no change leaves the state unchanged. The useful step changes something unless it replies `NoRoom`.
#[tactic(auto, using(crate::proofs::Changes::quiet_answers, crate::proofs::Changes::useful_brings))]
pub fn answers_tell_changes()
    ensures quiet { (s : State) (step : Step)
        → IsFalse (is_change (collect s step).0) → (collect s step).1 ≡ s }
    ensures useful { (s : State) → IsState s
        → (let answer = (collect s (useful_step s)).0 in
        (answer ≡ NoRoom) ⊎ IsTrue (is_change answer)) }
{}

/// In every run, each original of an open collection was reachable when the collection began, or was made
/// later. The same is true of each object that a root, or a field of such an object, refers to.
#[tactic(auto, using(crate::proofs::Carried::carries_only_live, crate::proofs::Carried::carries_from, crate::proofs::Carried::names_only_live))]
pub fn only_live_is_carried()
    ensures pairs { CarriesOnlyLive }
    ensures names { NamesOnlyLive }
    // So it is in runs from any well-formed state without a collection, whose commands may name extra roots.
    ensures extra_roots { (s : State) → IsState s → s.collection ≡ None → CarriesOnlyLiveFrom s }
{}

/// If the new space is at least as large as the old one, no step lacks room, because all replicas together never take more words than are
/// in use. Until the flip no step removes a replica, so the end of the new space only grows.
pub fn room_suffices()
    ensures states { (s : State) → IsState s → AlwaysHasRoom s }
    ensures runs { InEveryRun AlwaysHasRoom }
    ensures within { (s : State) (c : Collection) → IsState s → s.collection ≡ Some c → new_end c ≤ heap_end s }
    ensures grows { (s : State) (c next : Collection) (step : Step)
        → s.collection ≡ Some c → (collect s step).1.collection ≡ Some next → new_end c ≤ new_end next }
{}

/// `Scan` replies `Clean` exactly if the scan pointer is at the new end. Twice the pairs of a collection are fewer than the words of
/// its new space.
pub fn scans_and_pairs_are_bounded()
    ensures scans { (s : State) → IsState s → ScansToTheEnd s }
    ensures pairs { (s : State) → IsState s → HasFewPairs s }
    ensures run_scans { InEveryRun ScansToTheEnd }
    ensures run_pairs { InEveryRun HasFewPairs }
{}

/// Once the target of a root has a replica, it keeps it: no step removes a replica. A command changes no root but the one that it
/// writes.
pub fn root_replicas_stay()
    ensures steps { (s : State) (c : Collection) (step : Step) (p : ℕ)
        → s.collection ≡ Some c → KnowsRoot s p → KnowsRoot (collect s step).1 p }
    ensures commands { (s : State) (m : ℕ) (op : Op) (p : ℕ)
        → root_written m op ≢ Some p → KnowsRoot s p → KnowsRoot (mutate s m op).1 p }
    ensures values { (s : State) (m : ℕ) (op : Op) (p : ℕ)
        → root_written m op ≢ Some p → root (mutate s m op).1.heap.graph p ≡ root s.heap.graph p }
{}

/// What a collection has left to do is a number, and each step that changes something lowers it. So one of the next `work_left`
/// useful steps flips or lacks room, if no command comes between. A command raises the number by the words that it allocates and the
/// entries that it logs.
pub fn useful_steps_end()
    ensures lowers { (s : State) → IsSpaceGraph s.size s.heap.free s.heap.graph → IfSome s.collection (IsOpened s)
        → ChangesLower s }
    ensures useful { (s : State) → IsSpaceGraph s.size s.heap.free s.heap.graph → IfSome s.collection (IsOpened s)
        → Advances s }
    // No step logs an entry.
    ensures entries { (s : State) (step : Step) → entries_left (collect s step).1 ≤ entries_left s }
    ensures ends { (s : State) → IsState s → Ends s }
    ensures runs { InEveryRun Ends }
    ensures bounded { (s : State) (c : Collection) → IsSpaceGraph s.size s.heap.free s.heap.graph
        → IfSome s.collection (IsOpened s) → s.collection ≡ Some c
        → work_left s ≤ (heap_end s - c.scan_place) + entries_in c.logs + 1 }
    ensures commands { (s : State) (m : ℕ) (op : Op) → IsSpaceGraph s.size s.heap.free s.heap.graph
        → IfSome s.collection (IsOpened s) → m < s.mutators
        → (let t = (mutate s m op).1 in
        work_left t + heap_end s + entries_left s ≡ work_left s + heap_end t + entries_left t) }
{}
