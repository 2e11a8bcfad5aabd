//! What a collected heap knows of its roots, and how far the search for roots whose targets have no replicas has come.

ghost use Rattle.std.specs.Prelude.{◌≡◌, ◌⊎◌, ◌↔◌, ◌<◌, ◌≤◌, ◌+◌, ◌-◌, IfOk, IfSome, IsFalse, IsTrue, None, length, max, replicate};
ghost use Rattle.std.specs.Option.{option_map};
ghost use Rattle.gc_graph.specs.Slots.{roots_of};
ghost use Rattle.gc_heap.specs.Heap.{graph_in};
ghost use Rattle.gc_words.specs.Image.{is_start};
ghost use Rattle.gc_model.specs.Staying.{IsMissing};
ghost use Rattle.gc_model.specs.Steps.{root_target};
ghost use Rattle.gc_copy.specs.Words.{collection_in, open_state, BelongsTo};
ghost use Rattle.gc_roots.specs.Twins.{HasLookedOn, IsDone, begun, looks_left};
ghost use Rattle.gc_collected.specs.Internal.KnownRoots.{ComparesTwins, HasStored, HasWritten, KnowsRoots, without_slots};
ghost use Rattle.gc_collected.specs.Internal.Found.{IsAtStart, FindsFirst, IsMissingExtra};
ghost use Rattle.gc_collected.specs.declared.known.Found.{Found};

use gc_copy::{Collection, MissingRoot};
use gc_graph::{NoMemory, root_count};
use gc_heap::Heap;
use gc_monitor::Monitor;
use gc_roots::{RootLooks, RootTwins};
use std::alloc::Global;

/// Roots whose targets are known to have replicas in the open collection: the slots below a place, and the extra roots that have twins.
///
/// A command writes a slot much more often than a step copies an extra root's target, so the slots have a mark of their own: one mark for all
/// roots would go back below all extra roots with each such command.
#[derive(Debug, Drop)]
pub(crate) struct KnownRoots {
    /// The targets of the slots below this place have replicas.
    pub(crate) slots: usize,
    /// The twins of the roots. Those of the slots are written at a flip.
    pub(crate) twins: RootTwins,
    /// The extra roots that the monitor has compared with their twins.
    pub(crate) looks: RootLooks,
}

impl KnownRoots {
    /// Returns what is known of a heap with so many roots, which are all nil. The monitor has room for `watched` of them. Allocates five times.
    pub(crate) fn new(alloc: Global, roots: u32, watched: u32) -> Result<KnownRoots, NoMemory>
        ensures slots { IfOk result (λ known. known.slots ≡ 0) }
        ensures twins { IfOk result (λ known. (known.twins.twins ≡ replicate roots 0) × (known.twins.front ≡ 0) × (known.twins.used ≡ 0) × (known.twins.stale ≡ 0)) }
        ensures compares { IfOk result ComparesTwins }
    {
        let twins = RootTwins::new(alloc, roots)?;
        let looks = RootLooks::new(alloc, watched)?;
        Ok(KnownRoots {
            slots: 0,
            twins,
            looks,
        })
    }

    /// Notes that extra root `k` was written.
    #[inline(always)]
    pub(crate) fn wrote(&mut self, k: u32)
        requires { k < length self.old.twins.twins }
        ensures written { HasWritten self.old self.new k }
        ensures used { self.new.twins.used ≡ max self.old.twins.used (k + 1) }
    {
        self.twins.wrote(k);
        self.looks.written(k);
    }

    /// Notes that the root at this place was written, where there are so many slots. `is_slot` says whether it is one of them.
    #[inline(always)]
    pub(crate) fn took(&mut self, is_slot: bool, place: u32, slots: usize)
        requires slot { IsTrue is_slot ↔ place < slots }
        requires within { (slots ≤ place) → place - slots < length self.old.twins.twins }
        ensures { HasStored self.old self.new 0 (max self.old.twins.used (place - slots + 1)) slots place }
    {
        if is_slot {
            self.slots = 0;
        } else {
            self.wrote(place - slots as u32);
        }
    }

    /// The same, if it was written. Of a slot nothing is known afterwards, written or not: no look is asked for at slots.
    #[inline(always)]
    pub(crate) fn took_if(&mut self, is_written: bool, is_slot: bool, place: u32, slots: usize)
        requires slot { IsTrue is_slot ↔ place < slots }
        requires within { (slots ≤ place) → place - slots < length self.old.twins.twins }
        ensures written { IsTrue is_written → HasStored self.old self.new 0 (max self.old.twins.used (place - slots + 1)) slots place }
        ensures none { IsFalse is_written → (self.new ≡ self.old) ⊎ (self.new ≡ without_slots self.old) }
    {
        if is_slot {
            self.slots = 0;
        } else if is_written {
            self.wrote(place - slots as u32);
        }
    }

    /// The same as `took` for nil or a number, which needs no replica.
    #[inline(always)]
    pub(crate) fn took_plain(&mut self, is_slot: bool, place: u32, slots: usize)
        requires slot { IsTrue is_slot ↔ place < slots }
        requires within { (slots ≤ place) → place - slots < length self.old.twins.twins }
        ensures { HasStored self.old self.new self.old.slots (max self.old.twins.used (place - slots + 1)) slots place }
    {
        if !is_slot {
            self.wrote(place - slots as u32);
        }
    }

    /// The same for nil.
    #[inline(always)]
    pub(crate) fn took_nil(&mut self, is_slot: bool, place: u32, slots: usize)
        requires { IsTrue is_slot ↔ place < slots }
        ensures { HasStored self.old self.new self.old.slots self.old.twins.used slots place }
    {
        if is_slot {
            return;
        }
        self.nilled(place - slots as u32);
    }

    /// Notes that extra root `k` became nil.
    #[inline(always)]
    pub(crate) fn nilled(&mut self, k: u32)
        ensures written { HasWritten self.old self.new k }
        ensures used { self.new.twins.used ≡ self.old.twins.used }
    {
        self.twins.nilled(k);
        self.looks.written(k);
    }

    /// Notes that a collection begins: no root is known to have a replica.
    pub(crate) fn begin(&mut self)
        ensures slots { self.new.slots ≡ 0 }
        ensures twins { self.new.twins ≡ begun self.old.twins }
        ensures compares { ComparesTwins self.new }
    {
        self.slots = 0;
        self.twins.begin();
        self.looks.restart();
    }
}

/// Returns whether each root is known to have a replica of its target, if it has one. Reads no root.
#[inline(always)]
pub(crate) fn all_known(collection: &Collection, heap: &Heap, known: &KnownRoots) -> bool
    requires belongs { BelongsTo heap.now collection.now }
    requires knows { KnowsRoots known.now (open_state heap.now collection.now) }
    ensures { IsTrue result → root_target (collection_in collection.now) (graph_in heap.now) ≡ None }
{
    known.slots == root_count(heap.mutators()) && known.twins.next().is_none()
}

/// Returns the first root whose target has no replica, and remembers nothing. Reads all extra roots, if one of them may have none.
pub(crate) fn missing(
    collection: &Collection,
    heap: &Heap,
    known: &KnownRoots,
) -> Option<MissingRoot>
    requires belongs { BelongsTo heap.now collection.now }
    requires knows { KnowsRoots known.now (open_state heap.now collection.now) }
    ensures { option_map (λ r. r.target.0) result ≡ root_target (collection_in collection.now) (graph_in heap.now) }
{
    if all_known(collection, heap, known) {
        return None;
    }
    collection.first_root(heap)
}

/// What a search of the roots found.
#[derive(Clone, Copy, Debug, Drop, PartialEq, Eq)]
pub(crate) enum Found {
    /// The first root whose target has no replica.
    Missing(MissingRoot),
    /// Each root's target has a replica.
    AllKnown,
    /// The search took as many looks as it might, and extra roots are left to look at.
    Unfinished,
}

/// How far a search came.
#[derive(Clone, Copy, Debug, Drop, PartialEq, Eq)]
pub(crate) struct Searched {
    /// The number of extra roots that it looked at and whose targets have replicas.
    pub(crate) looks: u32,
    pub(crate) found: Found,
}

/// Searches the roots that are not known to have replicas of their targets, up to the first without, and looks at no more than `most` extra roots.
/// Reads each root once, and brings the twin of each extra root up to date that it passes. The monitor compares it.
pub(crate) fn search_within(
    collection: &Collection,
    heap: &Heap,
    watch: &Monitor,
    known: &mut KnownRoots,
    most: u32,
) -> Searched
    requires belongs { BelongsTo heap.now collection.now }
    requires knows { KnowsRoots known.old (open_state heap.now collection.now) }
    ensures knows { KnowsRoots known.new (open_state heap.now collection.now) }
    ensures compares { ComparesTwins known.old → ComparesTwins known.new }
    ensures first { FindsFirst (collection_in collection.now) (graph_in heap.now) result.found }
    ensures start { IsAtStart heap.now.space.words result.found }
    ensures done { result.found ≡ Found.AllKnown → IsDone known.new.twins }
    ensures looks { HasLookedOn result.looks (looks_left known.old.twins) (looks_left known.new.twins) }
    ensures within { result.looks ≤ most }
    ensures unfinished { result.found ≡ Found.Unfinished → (result.looks ≡ most) × (1 ≤ looks_left known.new.twins) }
{
    let slots = root_count(heap.mutators());
    if let Some(missing) = collection.missing_root(heap, known.slots, slots) {
        known.slots = missing.place;
        return Searched {
            looks: 0,
            found: Found::Missing(missing),
        };
    }
    known.slots = slots;
    search_extra(collection, heap, watch, known, most)
}

/// Searches the extra roots whose twins may be out of date, as `search_within` does.
fn search_extra(
    collection: &Collection,
    heap: &Heap,
    watch: &Monitor,
    known: &mut KnownRoots,
    most: u32,
) -> Searched
    requires belongs { BelongsTo heap.now collection.now }
    requires knows { KnowsRoots known.old (open_state heap.now collection.now) }
    ensures knows { KnowsRoots known.new (open_state heap.now collection.now) }
    ensures compares { ComparesTwins known.old → ComparesTwins known.new }
    ensures missing { IsMissingExtra (collection_in collection.now) (graph_in heap.now) (roots_of heap.now.mutators) result.found }
    ensures start { IsAtStart heap.now.space.words result.found }
    ensures done { result.found ≡ Found.AllKnown → IsDone known.new.twins }
    ensures looks { HasLookedOn result.looks (looks_left known.old.twins) (looks_left known.new.twins) }
    ensures within { result.looks ≤ most }
    ensures unfinished { result.found ≡ Found.Unfinished → (result.looks ≡ most) × (1 ≤ looks_left known.new.twins) }
{
    let slots = root_count(heap.mutators());
    let mut looks: u32 = 0;
    while let Some(k) = known.twins.next() {
        if looks == most {
            return Searched {
                looks,
                found: Found::Unfinished,
            };
        }
        match known.twins.look(heap, collection, k) {
            Err(target) => {
                let place = slots + k;
                return Searched {
                    looks,
                    found: Found::Missing(MissingRoot { place, target }),
                };
            }
            Ok(twin) => {
                let word = heap.roots()[slots + k];
                known.looks.look(watch, k as u32, word, twin);
                looks += 1;
            }
        }
        // One root alone may be known because the last step has copied its target; then the target of the next one lacks a replica.
        let ahead = if looks == 1 { 0 } else { most - looks };
        looks += look_on(collection, heap, watch, known, ahead);
    }
    Searched {
        looks,
        found: Found::AllKnown,
    }
}

/// Looks at the extra roots behind those that were looked at, up to the first whose target has no replica, and at no more than `most`. Looks at none
/// if one has to be looked at again. The monitor compares them. Returns their number.
fn look_on(
    collection: &Collection,
    heap: &Heap,
    watch: &Monitor,
    known: &mut KnownRoots,
    most: u32,
) -> u32
    requires belongs { BelongsTo heap.now collection.now }
    requires knows { KnowsRoots known.old (open_state heap.now collection.now) }
    ensures knows { KnowsRoots known.new (open_state heap.now collection.now) }
    ensures compares { ComparesTwins known.old → ComparesTwins known.new }
    ensures looks { HasLookedOn result (looks_left known.old.twins) (looks_left known.new.twins) }
    ensures within { result ≤ most }
{
    if most == 0 {
        return 0;
    }
    let at = known.twins.look_on(heap, collection, most);
    let slots = root_count(heap.mutators());
    known
        .looks
        .look_on(watch, heap.roots(), known.twins.words(), slots, at);
    at.to - at.from
}

/// Searches the roots that are not known to have replicas of their targets, up to the first without, as `search_within` does, and however many extra
/// roots it has to look at.
pub(crate) fn search(
    collection: &Collection,
    heap: &Heap,
    watch: &Monitor,
    known: &mut KnownRoots,
) -> Option<MissingRoot>
    requires belongs { BelongsTo heap.now collection.now }
    requires knows { KnowsRoots known.old (open_state heap.now collection.now) }
    ensures knows { KnowsRoots known.new (open_state heap.now collection.now) }
    ensures compares { ComparesTwins known.old → ComparesTwins known.new }
    ensures first { option_map (λ r. r.target.0) result ≡ root_target (collection_in collection.now) (graph_in heap.now) }
    ensures start { IfSome result (λ r. IsTrue (is_start heap.now.space.words r.target.0)) }
    ensures done { result ≡ None → IsDone known.new.twins }
    ensures looks { looks_left known.new.twins ≤ looks_left known.old.twins }
{
    // No more looks are left than one search may take.
    let left = known.twins.looks_left();
    match search_within(collection, heap, watch, known, left).found {
        Found::Missing(missing) => Some(missing),
        Found::AllKnown | Found::Unfinished => None,
    }
}
