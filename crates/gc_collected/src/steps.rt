//! The steps of a collection, but for its flip, and the choice of the useful step.

ghost use Rattle.std.specs.Prelude.{◌≡◌, not, if◌then◌else◌, Some};
ghost use Rattle.std.specs.Option.{option_map_or};
ghost use Rattle.gc_model.specs.Steps.{collect, scan_done, first_log};
ghost use Rattle.gc_copy.specs.Words.{BelongsTo, LinksNothing, collection_in, idle_state, open_state};
ghost use Rattle.gc_model.specs.declared.step.Step.{Step};
ghost use Rattle.gc_model.specs.declared.step.StepReply.{StepReply};

use crate::barrier;
use crate::collected_heap::CollectedHeap;
use crate::flip::Keep;
use crate::known::{Found, Searched, all_known, missing, search, search_within};
use crate::rooms::{keep_room, room_for};
use gc_check::Checks;
use gc_copy::{Collection, Room, Step, StepReply, StepRun};
use gc_graph::NoMemory;
use gc_heap::Heap;
use gc_model::root_replicas_stay;
use std::cmp::max;

/// The useful step, and the looks that it took to find it.
#[derive(Clone, Copy, Debug, Drop, PartialEq, Eq)]
pub struct Choice {
    /// The number of extra roots that were looked at.
    pub looks: u32,
    /// The step, if it was found.
    pub step: Option<Step>,
}

impl Choice {
    // A step that took no look.
    fn at_once(step: Step) -> Choice
        ensures { (result.looks ≡ 0) × (result.step ≡ Some step) }
    {
        Choice {
            looks: 0,
            step: Some(step),
        }
    }
}

impl CollectedHeap {
    ghost use Rattle.std.specs.Prelude.{◌≡◌, ◌≢◌, ◌<◌, ◌≤◌, ◌⊎◌, None, IfOk, IfSome, IsTrue, IsFalse, OnErr};
    ghost use Rattle.gc_model.specs.Steps.{collect, useful_step};
    ghost use Rattle.gc_model.specs.Runs.{IsStep};
    ghost use Rattle.gc_copy.specs.StepRuns.{IsApplyRun, IsScanRun};
    ghost use Rattle.gc_model.specs.declared.step.StepReply.{StepReply};
    ghost use Rattle.gc_monitor.specs.Claims.{Accepts};
    ghost use Rattle.gc_monitor.specs.Tables.{Tables};
    ghost use Rattle.gc_roots.specs.Twins.{HasLookedOn};
    ghost use Rattle.gc_collected.specs.Collected.{BeginsIn, HasStepped, IsUnchangedButRooms, WereRefused, checks_whole, rooms_flipped, rooms_given_up, turns_after};
    ghost use Rattle.gc_collected.specs.CollectedHeap.{Allocates};
    ghost use Rattle.gc_collected.specs.Flip.{FlipsOnly, FormerAfter, HasAccepted, HasRoomIfLarge, IsCertified, PassesIfReady, new_size, pair_after};

    /// Performs one collector step. A flip happens only if a checker accepts it. On `NoMemory` nothing has changed but the memory that
    /// waits. Only a step that opens a collection and the flip of a ready one can return it.
    #[inline(always)]
    pub fn collect<C: Checks>(
        &mut self,
        checker: &C,
        step: Step,
        keep: Keep,
    ) -> Result<StepReply, NoMemory>
        requires can { C.can_check checker.now }
        requires step { IsStep self.old.core.mutators step }
        ensures step { IfOk result (λ reply. collect self.old.core step ≡ (reply, self.new.core)) }
        // Where both spaces are to be checked whole, a flip happens only if this checker said yes.
        ensures asked { IsTrue (checks_whole keep self.old.beside.turns) → IfOk result (FlipsOnly (C.says_yes checker.now) self.old.core) }
        // Otherwise it happens only if tables of a standing checker accept both images.
        ensures along { IsFalse (checks_whole keep self.old.beside.turns) → IfOk result (λ reply.
            (t : Tables) × FlipsOnly (HasAccepted (Accepts t)) self.old.core reply) }
        // A flip happens only if the certificate holds.
        ensures sound { IfOk result (FlipsOnly IsCertified self.old.core) }
        // A ready collection passes, so no flip is refused.
        ensures passes { step ≡ Step.Flip → IfOk result (PassesIfReady self.old.core) }
        ensures never_refused { IfOk result (λ reply. reply ≢ StepReply.Refused) }
        ensures room { IfOk result (HasRoomIfLarge self.old.core) }
        ensures turns { IfOk result (λ reply. self.new.beside.turns ≡ turns_after keep self.old.beside.turns reply) }
        ensures rooms { IfOk result (λ reply. HasStepped keep step reply self.old self.new.beside.rooms) }
        ensures former { IfOk result (λ reply. FormerAfter keep self.old.core self.old.beside.former reply self.new.beside.former) }
        ensures pair { IfOk result (λ reply. self.new.beside.pair ≡ pair_after keep self.old.beside.pair self.old.core reply) }
        ensures refused { OnErr result (IsUnchangedButRooms self.old self.new) }
        ensures freed { OnErr result (WereRefused self.old.beside.rooms self.new.beside.rooms) }
        // A flip frees what leaves where a check of both spaces whole is due, and no other memory, also if memory was refused.
        ensures flipped { step ≡ Step.Flip → self.new.beside.rooms ≡ rooms_flipped keep self.old.beside }
        ensures due { step ≡ Step.Flip → OnErr result (IsTrue (checks_whole keep self.old.beside.turns)) }
        ensures allocates { OnErr result (Allocates self.old.core step) }
        ensures mutators { self.new.core.mutators ≡ self.old.core.mutators }
        // But for a flip and a collection that is given up, a step leaves no more looks than there were. Only `Roots` looks.
        ensures looks { step ≢ Step.Flip → step ≢ Step.Drop → self.new.roots_left ≤ self.old.roots_left }
        ensures looked { OnErr result (self.new.roots_left ≤ self.old.roots_left) }
    {
        match step {
            Step::Begin => self.begin(),
            Step::BeginSized(size) => self.begin_sized(size),
            Step::Roots => Ok(self.roots()),
            Step::Scan => Ok(self.scan()),
            Step::Apply(m) => Ok(self.apply_log(m)),
            Step::Flip => self.flip(checker, keep),
            Step::Drop => Ok(self.give_up()),
        }
    }

    /// Opens a collection whose new space has `size` words, at least 1. Returns `Begun`, or `Busy` if one is already open. The collection takes
    /// the room that the last flip left if that has so many words, or else the spare room, or else new memory. Room that it does not take is
    /// given back by later calls of `give_back`, or else by the next begin. On `NoMemory` none is open, and only the spare room and what was
    /// leaving may have been freed.
    pub fn begin_sized(&mut self, size: u32) -> Result<StepReply, NoMemory>
        requires low { 1 ≤ size }
        ensures step { IfOk result (λ reply. collect self.old.core (Step.BeginSized size) ≡ (reply, self.new.core)) }
        ensures reply { IfOk result (λ reply. (reply ≡ StepReply.Begun) ⊎ (reply ≡ StepReply.Busy)) }
        ensures busy { IfOk result (λ reply. reply ≡ StepReply.Busy → self.new ≡ self.old) }
        ensures turns { self.new.beside.turns ≡ self.old.beside.turns }
        ensures rooms { IfOk result (λ reply. reply ≡ StepReply.Begun → BeginsIn size self.old.beside self.new.beside.rooms) }
        ensures former { IfOk result (λ reply. reply ≡ StepReply.Begun → self.new.beside.former ≡ None) }
        ensures pair { self.new.beside.pair ≡ self.old.beside.pair }
        ensures refused { OnErr result (IsUnchangedButRooms self.old self.new) }
        ensures freed { OnErr result (WereRefused self.old.beside.rooms self.new.beside.rooms) }
        ensures allocates { OnErr result (Allocates self.old.core (Step.BeginSized size)) }
        ensures looks { self.new.roots_left ≡ self.old.roots_left }
        ensures mutators { self.new.core.mutators ≡ self.old.core.mutators }
    {
        if self.collection.is_some() {
            return Ok(StepReply::Busy);
        }
        self.is_sound();
        // What is left of it could be what this collection needs.
        self.leaving = None;
        self.watch.reserve(max(size, self.heap.space().size()))?;
        let room = room_for(
            self.alloc,
            size,
            self.heap.mutators(),
            &mut self.former,
            &mut self.spare,
            &mut self.leaving,
        )?;
        self.collection = Some(Collection::begin_in(room, &self.heap, self.epoch));
        self.known.begin();
        Ok(StepReply::Begun)
    }

    /// Opens a collection whose new space is as large as the heap, as `begin_sized` does.
    pub fn begin(&mut self) -> Result<StepReply, NoMemory>
        ensures step { IfOk result (λ reply. collect self.old.core Step.Begin ≡ (reply, self.new.core)) }
        ensures reply { IfOk result (λ reply. (reply ≡ StepReply.Begun) ⊎ (reply ≡ StepReply.Busy)) }
        ensures busy { IfOk result (λ reply. reply ≡ StepReply.Busy → self.new ≡ self.old) }
        ensures turns { self.new.beside.turns ≡ self.old.beside.turns }
        ensures rooms { IfOk result (λ reply. reply ≡ StepReply.Begun → BeginsIn self.old.core.size self.old.beside self.new.beside.rooms) }
        ensures former { IfOk result (λ reply. reply ≡ StepReply.Begun → self.new.beside.former ≡ None) }
        ensures pair { self.new.beside.pair ≡ self.old.beside.pair }
        ensures refused { OnErr result (IsUnchangedButRooms self.old self.new) }
        ensures freed { OnErr result (WereRefused self.old.beside.rooms self.new.beside.rooms) }
        ensures allocates { OnErr result (Allocates self.old.core Step.Begin) }
        ensures looks { self.new.roots_left ≡ self.old.roots_left }
        ensures mutators { self.new.core.mutators ≡ self.old.core.mutators }
    {
        let size = self.heap.space().size();
        self.begin_sized(size)
    }

    /// Replicates the target of the first root whose target has no replica. Returns `Copied` or `NoRoom`, `Clean` if
    /// there is no such root, or `Idle` if no collection is open. Does not allocate.
    pub fn roots(&mut self) -> StepReply
        ensures step { collect self.old.core Step.Roots ≡ (result, self.new.core) }
        ensures room { HasRoomIfLarge self.old.core result }
        ensures mutators { self.new.core.mutators ≡ self.old.core.mutators }
        ensures beside { self.new.beside ≡ self.old.beside }
        ensures looks { self.new.roots_left ≤ self.old.roots_left }
    {
        let Some(collection) = &mut self.collection else {
            return StepReply::Idle;
        };
        let missing = search(collection, &self.heap, &self.watch, &mut self.known);
        barrier::replicate_root(collection, &mut self.heap, &mut self.watch, missing)
    }

    /// Brings the field at the scan pointer up to date (`Scanned` or `NoRoom`), or moves on to the next replica
    /// (`Passed`). Returns `Clean` if all replicas are scanned, or `Idle` if no collection is open. Does not allocate.
    #[inline(always)]
    pub fn scan(&mut self) -> StepReply
        ensures step { collect self.old.core Step.Scan ≡ (result, self.new.core) }
        ensures room { HasRoomIfLarge self.old.core result }
        ensures mutators { self.new.core.mutators ≡ self.old.core.mutators }
        ensures beside { self.new.beside ≡ self.old.beside }
        ensures looks { self.new.roots_left ≡ self.old.roots_left }
    {
        root_replicas_stay();
        match &mut self.collection {
            None => StepReply::Idle,
            Some(collection) => barrier::scan(collection, &mut self.heap, &mut self.watch),
        }
    }

    /// Performs scans in order, at least one and at most `most`. None follows one that finds no room, or that leaves nothing to scan, or after
    /// which the new space ends at `until` or beyond it. Does not allocate.
    pub fn scan_run(&mut self, most: u32, until: u32) -> StepRun
        requires { 1 ≤ most }
        ensures run { IsScanRun until result.steps self.old.core self.new.core result.reply }
        ensures within { result.steps ≤ most }
        ensures mutators { self.new.core.mutators ≡ self.old.core.mutators }
        ensures beside { self.new.beside ≡ self.old.beside }
        ensures looks { self.new.roots_left ≡ self.old.roots_left }
    {
        match &mut self.collection {
            None => StepRun {
                steps: 1,
                reply: StepReply::Idle,
            },
            Some(collection) => {
                barrier::scan_run(collection, &mut self.heap, &mut self.watch, most, until)
            }
        }
    }

    /// Applies the oldest entry of mutator `m`'s log. Returns `Applied` or `NoRoom`, `Clean` if the log is empty, or
    /// `Idle` if no collection is open. Does not allocate.
    pub fn apply_log(&mut self, m: u8) -> StepReply
        requires { m < self.old.core.mutators }
        ensures step { collect self.old.core (Step.Apply m) ≡ (result, self.new.core) }
        ensures room { HasRoomIfLarge self.old.core result }
        ensures mutators { self.new.core.mutators ≡ self.old.core.mutators }
        ensures beside { self.new.beside ≡ self.old.beside }
        ensures looks { self.new.roots_left ≡ self.old.roots_left }
    {
        root_replicas_stay();
        match &mut self.collection {
            None => StepReply::Idle,
            Some(collection) => {
                barrier::apply_log(collection, m, &mut self.heap, &mut self.watch)
            }
        }
    }

    /// Applies entries of mutator `m`'s log in order, the oldest first, at least one and at most `most`. None follows one that finds no room, or
    /// that leaves something to scan or no entry, or after which the new space ends at `until` or beyond it. Does not allocate.
    pub fn apply_run(&mut self, m: u8, most: u32, until: u32) -> StepRun
        requires mutator { m < self.old.core.mutators }
        requires some { 1 ≤ most }
        ensures run { IsApplyRun m until result.steps self.old.core self.new.core result.reply }
        ensures within { result.steps ≤ most }
        ensures mutators { self.new.core.mutators ≡ self.old.core.mutators }
        ensures beside { self.new.beside ≡ self.old.beside }
        ensures looks { self.new.roots_left ≡ self.old.roots_left }
    {
        match &mut self.collection {
            None => StepRun {
                steps: 1,
                reply: StepReply::Idle,
            },
            Some(collection) => {
                barrier::apply_run(collection, m, &mut self.heap, &mut self.watch, most, until)
            }
        }
    }

    /// Gives the open collection up. Its new space is left for the next one, and the entries of its logs are freed. Returns `Dropped`, or `Idle`
    /// if none is open. Does not allocate. The time does not depend on how far the collection has come.
    pub fn give_up(&mut self) -> StepReply
        ensures step { collect self.old.core Step.Drop ≡ (result, self.new.core) }
        ensures mutators { self.new.core.mutators ≡ self.old.core.mutators }
        ensures beside { self.new.beside ≡ record self.old.beside { rooms = rooms_given_up (new_size self.old.core) self.old.beside.rooms } }
    {
        self.is_sound();
        let Some(collection) = self.collection.take() else {
            return StepReply::Idle;
        };
        let (room, epoch) = end(collection, &mut self.heap);
        self.epoch = epoch;
        keep_room(room, &mut self.spare, &mut self.leaving);
        self.watch.dropped();
        StepReply::Dropped
    }

    /// Returns the useful step: the one that advances the collection, or opens one.
    #[inline(always)]
    pub fn useful_step(&self) -> Step
        ensures useful { result ≡ useful_step self.now.core }
        ensures step { IsStep self.now.core.mutators result }
    {
        let Some(collection) = &self.collection else {
            return Step::Begin;
        };
        if missing(collection, &self.heap, &self.known).is_some() {
            return Step::Roots;
        }
        step_after_roots(collection)
    }

    /// Returns the useful step, and leaves the heap as it is. Remembers how far it searched the roots, so that the next call reads
    /// only those that a command wrote since, and those that the search did not reach.
    #[inline(always)]
    pub fn next_useful_step(&mut self) -> Step
        ensures useful { result ≡ useful_step self.old.core }
        ensures step { IsStep self.old.core.mutators result }
        ensures core { self.new.core ≡ self.old.core }
        ensures beside { self.new.beside ≡ self.old.beside }
        ensures looks { self.new.roots_left ≤ self.old.roots_left }
    {
        // No more looks are left than the search may take.
        let most = self.roots_left();
        self.choose_step(most).step.unwrap()
    }

    /// Returns the useful step, as `next_useful_step` does, or `None` if it takes more than `most` looks at extra roots to find it.
    #[inline(always)]
    pub fn choose_step(&mut self, most: u32) -> Choice
        ensures useful { IfSome result.step (λ step. step ≡ useful_step self.old.core) }
        ensures step { IfSome result.step (IsStep self.old.core.mutators) }
        ensures core { self.new.core ≡ self.old.core }
        ensures beside { self.new.beside ≡ self.old.beside }
        ensures looks { HasLookedOn result.looks self.old.roots_left self.new.roots_left }
        ensures within { result.looks ≤ most }
        // It took them all, and more are left.
        ensures none { result.step ≡ None → (result.looks ≡ most) × (1 ≤ self.new.roots_left) }
    {
        let Some(collection) = &self.collection else {
            return Choice::at_once(Step::Begin);
        };
        let known = &mut self.known;
        if all_known(collection, &self.heap, known) {
            return Choice::at_once(step_after_roots(collection));
        }
        let Searched { looks, found } = search_within(
            collection,
            &self.heap,
            &self.watch,
            known,
            most,
        );
        let step = match found {
            Found::Missing(_) => Some(Step::Roots),
            Found::AllKnown => Some(step_after_roots(collection)),
            Found::Unfinished => None,
        };
        Choice { looks, step }
    }

    /// Returns how many looks at extra roots are left until the open collection knows each of them, or would be after a begin.
    #[inline(always)]
    pub fn roots_left(&self) -> u32
        ensures { result ≡ self.now.roots_left }
    {
        if self.collection.is_some() {
            self.known.twins.looks_left()
        } else {
            self.known.twins.looks_begun()
        }
    }
}

/// Returns the useful step of a collection that has a replica of each root's target.
#[inline(always)]
fn step_after_roots(collection: &Collection) -> Step
    ensures { result ≡ (if not (scan_done (collection_in collection.now)) then Step.Scan
        else option_map_or Step.Apply (first_log 0 (collection_in collection.now).logs) Step.Flip) }
{
    if !collection.scan_done() {
        return Step::Scan;
    }
    match collection.next_log() {
        Some(m) => Step::Apply(m),
        None => Step::Flip,
    }
}

// Ends this collection without a flip. Returns its memory, and the epoch of the next collection's links.
fn end(collection: Collection, heap: &mut Heap) -> (Room, u32)
    requires { BelongsTo heap.old collection }
    ensures step { collect (open_state heap.old collection) Step.Drop ≡ (StepReply.Dropped, idle_state heap.new) }
    ensures links { LinksNothing result.1 heap.new }
    ensures size { result.0.size ≡ collection.space.size }
{
    let epoch = collection.epoch();
    if epoch == u32::MAX {
        let room = collection.clear_into(heap);
        return (room, epoch);
    }
    collection.abandon(heap)
}
