//! The row of twins, beside a heap and its open collection.

ghost use Rattle.std.specs.Prelude.{◌≡◌, ◌≢◌, ◌⊎◌, ◌<◌, ◌≤◌, ◌*◌, ◌+◌, ◌-◌, ℕ, length, max, replicate, slice_index, slice_set, take, true, false, IsTrue, IfOk, IfSome, MatchResult, None, Some, ⊤};
ghost use Rattle.gc_graph.specs.Slots.{roots_of};
ghost use Rattle.gc_graph.specs.Graph.{Nil, root};
ghost use Rattle.gc_words.specs.Image.{is_start};
ghost use Rattle.gc_words.specs.Marks.{is_marked};
ghost use Rattle.gc_heap.specs.Heap.{HeapWords, IsHeap, graph_in};
ghost use Rattle.gc_model.specs.State.{State, pairs_of};
ghost use Rattle.gc_model.specs.Staying.{IsMissing};
ghost use Rattle.gc_model.specs.Steps.{collect, is_ready, root_target};
ghost use Rattle.gc_model.specs.declared.step.Step.{Step};
ghost use Rattle.gc_model.specs.declared.step.StepReply.{StepReply};
ghost use Rattle.gc_copy.specs.Twins.{IsTwin};
ghost use Rattle.gc_copy.specs.Words.{AreMoved, BelongsTo, LinksNothing, TellsMoves, collection_in, idle_state, open_state, new_root_words};
ghost use Rattle.gc_roots.specs.Twins.{RootRow, KeepsTwins, HasLookedInRow, IsWritten, IsLooked, IsDone, IsNextRoot, HasLookedOn, SlotsAreTwins, begun, is_due_root, looks_left};

use crate::due::DueRow;
use gc_copy::{Collection, Room, Swapped};
use gc_graph::{NoMemory, root_count};
use gc_heap::Heap;
use gc_words::OldAddr;
use std::alloc::Global;
use std::cmp::max;
use std::marker::Model;
use std::mem::replace;

/// Extra roots that were looked at in a row.
#[derive(Clone, Copy, Debug, PartialEq, Eq)]
pub struct LookedAt {
    /// The first of them.
    pub from: u32,
    /// The extra root behind the last of them.
    pub to: u32,
}

/// The twins of a heap's roots.
#[derive(Debug, Drop)]
pub struct RootTwins {
    alloc: Global,
    /// A word for each root.
    twins: Vec<u64>,
    /// Extra roots whose twins may be out of date.
    due: DueRow,
    /// The extra roots from this one on were not looked at in the open collection.
    front: usize,
    /// The number of marks below `front`.
    again: usize,
    /// The extra roots from this one on are nil.
    used: usize,
    /// The twins from this one on, and from `front` on, are 0.
    stale: usize,
}

impl Model for RootTwins {
    ghost use Rattle.std.specs.Prelude.{◌≡◌, ◌≤◌, ◌*◌, ◌<◌, ◌^◌, length};
    ghost use Rattle.gc_roots.specs.Twins.{RootRow, marks_below};

    ghost Value = { RootRow };

    ghost view = { λ r. record { twins = r.twins.items; marks = r.due; front = r.front; used = r.used; stale = r.stale } };

    ghost invariant = { λ r. (length r.twins.items ≤ 64 * length r.due) × (r.front ≤ length r.twins.items) × (r.used ≤ length r.twins.items) × (r.stale ≤ length r.twins.items)
        × (length r.twins.items < 2 ^ 32) × (r.again ≡ marks_below r.due r.front) };
}

impl RootTwins {
    /// Returns the row of a heap with so many roots, all of which are nil.
    pub fn new(alloc: Global, roots: u32) -> Result<RootTwins, NoMemory>
        ensures { IfOk result (λ row. (row.twins ≡ replicate roots 0) × (row.front ≡ 0) × (row.used ≡ 0) × (row.stale ≡ 0)) }
    {
        let due = DueRow::new(alloc, roots)?;
        let twins = vec![in alloc; 0u64; roots as usize]?;
        Ok(RootTwins {
            alloc,
            twins,
            due,
            front: 0,
            again: 0,
            used: 0,
            stale: 0,
        })
    }

    /// Notes that extra root `k` was written.
    #[inline(always)]
    pub fn wrote(&mut self, k: u32)
        requires { k < length self.old.twins }
        ensures written { IsWritten self.old self.new k }
        ensures used { self.new.used ≡ max self.old.used (k + 1) }
    {
        let k = k as usize;
        self.mark_looked(k);
        self.used = max(self.used, k + 1);
    }

    /// Notes that extra root `k` became nil.
    #[inline(always)]
    pub fn nilled(&mut self, k: u32)
        ensures written { IsWritten self.old self.new k }
        ensures used { self.new.used ≡ self.old.used }
    {
        let k = k as usize;
        self.mark_looked(k);
    }

    /// Marks extra root `k`, if it was looked at.
    #[inline(always)]
    fn mark_looked(&mut self, k: usize)
        ensures written { IsWritten self.old self.new k }
        ensures used { self.new.used ≡ self.old.used }
    {
        if k < self.front && !self.due.contains(k) {
            self.due.mark(k);
            self.again += 1;
        }
    }

    /// Notes that a collection begins, or was given up: no root was looked at.
    pub fn begin(&mut self)
        ensures { self.new ≡ begun self.old }
    {
        self.stale = max(self.stale, self.front);
        self.front = 0;
        self.again = 0;
    }

    /// Returns the first extra root that has to be looked at.
    #[inline(always)]
    #[tactic(auto, using(crate::proofs::Counted::some_mark))]
    pub fn next(&self) -> Option<usize>
        ensures none { result ≡ None → IsDone self.now }
        ensures next { IfSome result (IsNextRoot self.now) }
        ensures left { IfSome result (λ _. 1 ≤ looks_left self.now) }
    {
        if let Some(k) = self.due.first() {
            if k < self.front {
                return Some(k);
            }
        }
        if self.front < max(self.used, self.stale) {
            Some(self.front)
        } else {
            None
        }
    }

    /// Returns the number of looks until no extra root has to be looked at, if none is written.
    #[inline(always)]
    pub fn looks_left(&self) -> u32
        ensures { result ≡ looks_left self.now }
    {
        (self.again + max(self.used, self.stale).saturating_sub(self.front)) as u32
    }

    /// Returns how many looks a collection takes that begins now, if no extra root is written.
    #[inline(always)]
    pub fn looks_begun(&self) -> u32
        ensures { result ≡ looks_left (begun self.now) }
    {
        max(self.used, max(self.stale, self.front)) as u32
    }

    /// Returns the number of the first extra root that is not in use.
    #[inline(always)]
    pub fn used(&self) -> usize
        ensures { result ≡ self.now.used }
    {
        self.used
    }

    /// Returns the twins.
    #[inline(always)]
    pub fn words(&self) -> &[u64]
        ensures { result.now ≡ self.now.twins }
    {
        &self.twins
    }

    /// Looks at extra root `k`, which is the next one, and brings its twin up to date. Returns the twin, or the root's target if that has no replica.
    /// If the root is nil, and the last one in use too, then that is in use no more.
    #[inline(always)]
    pub fn look(&mut self, heap: &Heap, collection: &Collection, k: usize) -> Result<u64, OldAddr>
        requires belongs { BelongsTo heap.now collection.now }
        requires keeps { KeepsTwins self.old (open_state heap.now collection.now) }
        requires next { IsNextRoot self.old k }
        ensures keeps { KeepsTwins self.new (open_state heap.now collection.now) }
        ensures looked { MatchResult result (IsLooked self.old self.new (roots_of heap.now.mutators) k) (λ a. (self.new ≡ self.old) × IsMissing (collection_in collection.now)
            (graph_in heap.now) (roots_of heap.now.mutators) (length (graph_in heap.now).roots) (roots_of heap.now.mutators + k) a.0) }
        ensures start { MatchResult result (λ _. ⊤) (λ a. IsTrue (is_start heap.now.space.words a.0)) }
        // One look less is left, or two less, where the last root in use is nil.
        ensures less { MatchResult result (λ _. HasLookedOn 1 (looks_left self.old) (looks_left self.new)) (λ _. ⊤) }
    {
        let slots = root_count(heap.mutators());
        match collection.root_twin(heap, slots + k) {
            Err(target) => Err(target),
            Ok(word) => {
                self.looked(slots, k, word);
                self.trim(heap, slots, usize::from(word == 0));
                Ok(word)
            }
        }
    }

    /// Looks at the extra roots in a row that were not looked at, if none is marked, and brings their twins up to date. Looks at no more than `most`,
    /// and stops before the first root whose target has no replica. As many of the last roots in use as it has looked at, if they are nil, are in use
    /// no more.
    pub fn look_on(&mut self, heap: &Heap, collection: &Collection, most: u32) -> LookedAt
        requires belongs { BelongsTo heap.now collection.now }
        requires keeps { KeepsTwins self.old (open_state heap.now collection.now) }
        ensures keeps { KeepsTwins self.new (open_state heap.now collection.now) }
        ensures looked { HasLookedInRow self.old self.new result }
        ensures most { result.to ≤ result.from + most }
        ensures less { HasLookedOn (result.to - result.from) (looks_left self.old) (looks_left self.new) }
    {
        let from = self.front;
        let count = self.ahead(most);
        if count != 0 {
            let slots = root_count(heap.mutators());
            self.write_on(heap, collection, slots, count);
            self.trim(heap, slots, self.front - from);
        }
        LookedAt {
            from: from as u32,
            to: self.front as u32,
        }
    }

    /// Returns the number of extra roots from the front on that may be looked at in a row, at most this many: none if a root is marked.
    #[inline(always)]
    fn ahead(&self, most: u32) -> usize
        ensures none { 1 ≤ result → (k : ℕ) → is_marked self.now.marks k ≡ false }
        ensures within { self.now.front + result ≤ max self.now.used (max self.now.stale self.now.front) }
        ensures most { result ≤ most }
    {
        if self.due.first().is_some() {
            return 0;
        }
        let ahead = max(self.used, self.stale).saturating_sub(self.front);
        ahead.min(most as usize)
    }

    /// Writes the twins of so many extra roots from the front on, and moves the front behind them. Stops before the first whose target has no replica.
    #[inline(always)]
    fn write_on(&mut self, heap: &Heap, collection: &Collection, slots: usize, count: usize)
        requires belongs { BelongsTo heap.now collection.now }
        requires keeps { KeepsTwins self.old (open_state heap.now collection.now) }
        requires slots { slots ≡ roots_of heap.now.mutators }
        requires none { (k : ℕ) → is_marked self.old.marks k ≡ false }
        requires within { self.old.front + count ≤ max self.old.used (max self.old.stale self.old.front) }
        ensures keeps { KeepsTwins self.new (open_state heap.now collection.now) }
        ensures rest { self.new ≡ record self.old { twins = self.new.twins; front = self.new.front } }
        ensures front { (self.old.front ≤ self.new.front) × (self.new.front ≤ self.old.front + count) }
    {
        let from = slots + self.front;
        let behind = write_twins(
            collection,
            heap,
            self.twins.as_mut_slice(),
            from,
            from + count,
        );
        self.front = behind - slots;
    }

    /// Notes that the last extra roots in use are not in use any more, if they are nil: at most so many.
    #[inline(always)]
    fn trim(&mut self, heap: &Heap, slots: usize, most: usize)
        requires slots { slots ≡ roots_of heap.now.mutators }
        requires within { slots + self.old.used ≤ length heap.now.roots }
        ensures keeps { (s : State) → s.heap.graph ≡ graph_in heap.now → s.mutators ≡ heap.now.mutators → KeepsTwins self.old s → KeepsTwins self.new s }
        ensures rest { self.new ≡ record self.old { used = self.new.used } }
        ensures used { (self.new.used ≤ self.old.used) × (self.old.used ≤ self.new.used + most) }
    {
        self.used = in_use(heap, slots, self.used, most);
    }

    /// Notes that the twin of extra root `k` is this word, where there are so many slots.
    #[inline(always)]
    fn looked(&mut self, slots: usize, k: usize, word: u64)
        requires within { slots + k < length self.old.twins }
        requires low { k ≤ self.old.front }
        requires due { is_due_root self.old k ≡ true }
        ensures looked { IsLooked self.old self.new slots k word }
        ensures used { self.new.used ≡ self.old.used }
    {
        self.twins[slots + k] = word;
        self.due.unmark(k);
        if k < self.front {
            self.again -= 1;
        } else {
            self.front = k + 1;
        }
    }

    /// Writes the twins of the slots, where no extra root has to be looked at. Then the row is the new roots.
    pub fn settle(&mut self, heap: &Heap, collection: &Collection)
        requires belongs { BelongsTo heap.now collection.now }
        requires keeps { KeepsTwins self.old (open_state heap.now collection.now) }
        requires known { root_target (collection_in collection.now) (graph_in heap.now) ≡ None }
        requires done { IsDone self.old }
        ensures keeps { KeepsTwins self.new (open_state heap.now collection.now) }
        ensures done { IsDone self.new }
        ensures slots { SlotsAreTwins self.new (open_state heap.now collection.now) (collection_in collection.now) }
        ensures rest { self.new ≡ record self.old { twins = self.new.twins } }
        ensures moved { AreMoved (take (roots_of heap.now.mutators + self.new.used) self.new.twins) heap.now (collection_in collection.now) }
    {
        for place in 0..root_count(heap.mutators()) {
            match collection.root_twin(heap, place) {
                Ok(word) => self.settled(place, word),
                Err(_target) => {}
            }
        }
    }

    /// Writes the twin of the root at this place.
    fn settled(&mut self, place: usize, word: u64)
        requires { place < length self.old.twins }
        ensures { self.new ≡ record self.old { twins = slice_set self.old.twins place word } }
    {
        self.twins[place] = word;
    }

    /// Switches the mutators to the new space and to the twins. The roots that the heap had are the next row. Takes constant time. Returns the
    /// room of this collection's heap for the next one, and the number of pairs.
    pub fn flip(&mut self, collection: Collection, heap: &mut Heap) -> (Room, u32)
        requires belongs { BelongsTo heap.old collection }
        requires ready { IsTrue (is_ready (collection_in collection) (graph_in heap.old)) }
        requires keeps { KeepsTwins self.old (open_state heap.old collection) }
        requires done { IsDone self.old }
        requires slots { SlotsAreTwins self.old (open_state heap.old collection) (collection_in collection) }
        ensures step { collect (open_state heap.old collection) Step.Flip
            ≡ (StepReply.Flipped (length (pairs_of (collection_in collection))), idle_state heap.new) }
        ensures heap { heap.new ≡ record heap.old { space = collection.space; roots = new_root_words heap.old (collection_in collection) } }
        ensures keeps { KeepsTwins self.new (idle_state heap.new) }
        ensures links { (epoch : ℕ) → 1 ≤ epoch → LinksNothing epoch heap.new }
        ensures room { (result.0.size ≡ heap.old.space.size) × (result.0.mutators ≡ heap.old.mutators) }
        ensures moves { TellsMoves (graph_in heap.old) (pairs_of (collection_in collection)) result.0 }
        ensures count { result.1 ≡ length (pairs_of (collection_in collection)) }
        ensures sound { IsHeap heap.new }
    {
        // Here the prover learns that the heap is sound.
        let _ = heap.space();
        let twins = replace(&mut self.twins, Vec::new(self.alloc));
        let Swapped { room, roots, pairs } = collection.flip_swapping(heap, twins);
        self.twins = roots;
        self.expire();
        (room, pairs)
    }

    /// Notes that the heap has flipped, where no extra root had to be looked at. The words of roots in use are no twins any more, and the others are 0.
    pub fn expire(&mut self)
        ensures { self.new ≡ record self.old { front = 0; stale = self.old.used } }
    {
        self.stale = self.used;
        self.front = 0;
        self.again = 0;
    }
}

/// Writes the twins of the roots from place `from` on and below place `to`, and stops before the first whose target has no replica. Returns the
/// place at which it stopped.
fn write_twins(
    collection: &Collection,
    heap: &Heap,
    twins: &mut [u64],
    from: usize,
    to: usize,
) -> usize
    requires belongs { BelongsTo heap.now collection.now }
    requires order { from ≤ to }
    requires roots { to ≤ length heap.now.roots }
    requires twins { to ≤ length twins.old }
    ensures low { from ≤ result }
    ensures high { result ≤ to }
    ensures len { length twins.new ≡ length twins.old }
    ensures right { (p : ℕ) → from ≤ p → p < result → IsTwin (collection_in collection.now) (root (graph_in heap.now) p) (slice_index twins.new p) }
    ensures before { (p : ℕ) → p < from → slice_index twins.new p ≡ slice_index twins.old p }
    ensures behind { (p : ℕ) → result ≤ p → slice_index twins.new p ≡ slice_index twins.old p }
{
    for place in from..to {
        match collection.root_twin(heap, place) {
            Ok(word) => twins[place] = word,
            Err(_target) => return place,
        }
    }
    to
}

/// Returns how many of the first `used` extra roots may be in use, if at most `most` of the last ones are found to be nil.
#[inline(always)]
fn in_use(heap: &Heap, slots: usize, used: usize, most: usize) -> usize
    requires within { slots + used ≤ length heap.now.roots }
    ensures low { used ≤ result + most }
    ensures high { result ≤ used }
    ensures nil { (k : ℕ) → result ≤ k → k < used → root (graph_in heap.now) (slots + k) ≡ Nil }
{
    let mut left = used;
    for nils in 0..most {
        if left == 0 || heap.roots()[slots + left - 1] != 0 {
            return left;
        }
        left -= 1;
    }
    left
}
