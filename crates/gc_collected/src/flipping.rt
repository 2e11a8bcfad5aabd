//! Flips: a decision, and its execution, which cannot fail.

ghost use Rattle.std.specs.Prelude.{◌≡◌, ◌≢◌, ◌<◌, ◌≤◌, ◌^◌, Some, None, IfOk, IfSome, IsTrue, IsFalse, OnErr, MatchResult, is_none, length};
ghost use Rattle.std.specs.Option.{option_map};
ghost use Rattle.gc_cert.specs.Views.{pair_in};
ghost use Rattle.gc_heap.specs.Heap.{graph_in};
ghost use Rattle.gc_model.specs.Steps.{collect, is_ready, root_target};
ghost use Rattle.gc_copy.specs.Words.{AreMoved, BelongsTo, IsCollection, LinksNothing, collection_in, idle_state, new_root_words, open_state};
ghost use Rattle.gc_model.specs.declared.step.Step.{Step};
ghost use Rattle.gc_model.specs.declared.step.StepReply.{StepReply};
ghost use Rattle.gc_collected.specs.Flip.{FormerAfter, HasAccepted, flip_pair, IsCertified, pair_after};
ghost use Rattle.gc_collected.specs.Internal.Flip.{AsAsked, IsDraft, IsFlipOf, IsNewImage, IsNoFlip, keep_in};
ghost use Rattle.gc_monitor.specs.Origins.{pairs_in};
ghost use Rattle.gc_model.specs.State.{pairs_of};
ghost use Rattle.gc_roots.specs.Looks.{ComparesKnown, HasLooked};
ghost use Rattle.gc_roots.specs.Twins.{RootRow, KeepsTwins, IsDone, SlotsAreTwins};
ghost use Rattle.gc_collected.specs.declared.flip.Keep.{Keep};

use crate::barrier::are_shown;
use crate::checking::{Finding, found_by};
use crate::collected_heap::CollectedHeap;
use crate::flip::{Approved, Draft, Keep, new_image_copied};
use crate::known::search;
use crate::rooms::free_if;
use gc_cert::{Image, PairFile};
use gc_check::Checks;
use gc_copy::{
    Collection, Room, StepReply, Swapped, heaps_have_addresses_as_names, images_show_links,
};
use gc_graph::{NoMemory, root_count};
use gc_heap::Heap;
use gc_monitor::{Monitor, Outline, Watcher, a_yes_is_sound};
use gc_roots::{RootLooks, RootTwins, RootWatcher, twins_are_alike};
use std::alloc::Global;

impl CollectedHeap {
    ghost use Rattle.gc_monitor.specs.Claims.{Accepts};
    ghost use Rattle.gc_monitor.specs.Tables.{Tables};
    ghost use Rattle.gc_collected.specs.Collected.{IsUnchangedButRooms, checks_whole, rooms_flipped, turns_after};
    ghost use Rattle.gc_collected.specs.CollectedHeap.{Allocates};
    ghost use Rattle.gc_collected.specs.Flip.{FlipsOnly, PassesIfReady};

    /// Flips if the open collection is ready and a checker accepts it: this one the certificate, if both spaces are to be checked whole, and
    /// otherwise the standing checker the outlines of both images. Returns `Flipped` with the number of pairs; otherwise `Idle` or `NotReady`.
    /// Then nothing has changed, and on `NoMemory` nothing but the memory that waits: all allocations come before the first change.
    ///
    /// A ready collection is proved to pass. It is checked all the same, so that a flip rests on the checker's theorem alone, which knows
    /// nothing of the collector.
    #[inline(never)]
    pub fn flip<C: Checks>(&mut self, checker: &C, keep: Keep) -> Result<StepReply, NoMemory>
        requires { C.can_check checker.now }
        ensures step { IfOk result (λ reply. collect self.old.core Step.Flip ≡ (reply, self.new.core)) }
        // Where both spaces are to be checked whole, a flip happens only if this checker said yes.
        ensures asked { IsTrue (checks_whole keep self.old.beside.turns) → IfOk result (FlipsOnly (C.says_yes checker.now) self.old.core) }
        // Otherwise it happens only if tables of a standing checker accept both images.
        ensures along { IsFalse (checks_whole keep self.old.beside.turns) → IfOk result (λ reply.
            (t : Tables) × FlipsOnly (HasAccepted (Accepts t)) self.old.core reply) }
        // A flip happens only if the certificate holds.
        ensures sound { IfOk result (FlipsOnly IsCertified self.old.core) }
        // A ready collection passes, so no flip is refused.
        ensures passes { IfOk result (PassesIfReady self.old.core) }
        ensures never_refused { IfOk result (λ reply. reply ≢ StepReply.Refused) }
        ensures turns { IfOk result (λ reply. self.new.beside.turns ≡ turns_after keep self.old.beside.turns reply) }
        ensures rooms { self.new.beside.rooms ≡ rooms_flipped keep self.old.beside }
        ensures former { IfOk result (λ reply. FormerAfter keep self.old.core self.old.beside.former reply self.new.beside.former) }
        ensures pair { IfOk result (λ reply. self.new.beside.pair ≡ pair_after keep self.old.beside.pair self.old.core reply) }
        ensures refused { OnErr result (IsUnchangedButRooms self.old self.new) }
        // Only the flip of a ready collection allocates, and only where both spaces are to be checked whole.
        ensures allocates { OnErr result (Allocates self.old.core Step.Flip) }
        ensures memory { OnErr result (IsTrue (checks_whole keep self.old.beside.turns)) }
        ensures mutators { self.new.core.mutators ≡ self.old.core.mutators }
        ensures looked { OnErr result (self.new.roots_left ≤ self.old.roots_left) }
    {
        self.is_sound();
        self.is_watched();
        a_yes_is_sound();
        let whole = self.is_whole(keep);
        // A whole check allocates, and takes longer than this.
        free_if(&mut self.leaving, whole);
        let Some(collection) = &mut self.collection else {
            return Ok(StepReply::Idle);
        };
        let roots_done = search(collection, &self.heap, &self.watch, &mut self.known).is_none();
        let along = root_watcher(
            &self.watch,
            &self.known.looks,
            &self.known.twins,
            &self.heap,
            collection,
        );
        let decided = decide(
            self.alloc,
            &mut self.heap,
            collection,
            roots_done,
            &mut self.known.twins,
            &along,
            checker,
            whole,
            keep,
        )?;
        let approved = match decided {
            Ok(approved) => approved,
            Err(reply) => return Ok(reply),
        };
        let collection = self.collection.take().unwrap();
        let pairs = carry_out(
            &mut self.heap,
            collection,
            &mut self.known.twins,
            approved,
            &mut self.former,
            &mut self.pair,
        );
        self.known.looks.restart();
        self.epoch = 1;
        self.checks = self.checks.with(whole);
        self.turn = self.turn.after(whole);
        self.watch.flipped();
        Ok(StepReply::Flipped { pairs })
    }

    // Returns whether the next flip checks both spaces whole.
    fn is_whole(&self, keep: Keep) -> bool
        ensures { result ≡ checks_whole keep self.now.beside.turns }
    {
        match keep {
            Keep::Pair => true,
            Keep::Room => !self.along || self.turn.is_due(),
        }
    }

    /// Takes the pair of the last flip. Returns `None` if it was not to be kept, or if it has been taken already.
    pub fn take_pair(&mut self) -> Option<PairFile>
        ensures taken { option_map pair_in result ≡ self.old.beside.pair }
        ensures rest { self.new ≡ record self.old { beside = record self.old.beside { pair = None } } }
    {
        self.pair.take()
    }
}

// Returns the monitor with what it has compared of the roots. These are alike to the new roots.
fn root_watcher<'a>(
    standing: &'a Monitor,
    looks: &'a RootLooks,
    twins: &RootTwins,
    heap: &Heap,
    collection: &Collection,
) -> RootWatcher<'a>
    requires belongs { BelongsTo heap.now collection.now }
    requires keeps { KeepsTwins twins.now (open_state heap.now collection.now) }
    requires compares { ComparesKnown twins.now looks.now }
    ensures standing { result.standing.now ≡ standing.now }
    ensures looked { pairs_in result.standing.now.origins ≡ pairs_of (collection_in collection.now)
        → HasLooked (pairs_in result.standing.now.origins) result.slots (flip_pair (open_state heap.now collection.now) (collection_in collection.now)).old.roots
        (flip_pair (open_state heap.now collection.now) (collection_in collection.now)).new.roots result.looks.now }
{
    heaps_have_addresses_as_names();
    images_show_links();
    twins_are_alike();
    are_shown(heap, collection);
    RootWatcher {
        standing,
        looks,
        slots: root_count(heap.mutators()),
    }
}

// Decides whether the open collection flips. If so, returns what the flip needs: all allocations are made here. If not, returns the reply. It
// knows of neither checker more than their bounds say, so that its clauses tell which was asked.
fn decide<W: Watcher, C: Checks>(
    alloc: Global,
    heap: &mut Heap,
    collection: &mut Collection,
    roots_done: bool,
    twins: &mut RootTwins,
    along: &W,
    checker: &C,
    whole: bool,
    keep: Keep,
) -> Result<Result<Approved, StepReply>, NoMemory>
    requires can { C.can_check checker.now }
    requires belongs { BelongsTo heap.old collection.old }
    requires roots { roots_done ≡ is_none (root_target (collection_in collection.old) (graph_in heap.old)) }
    requires keeps { KeepsTwins twins.old (open_state heap.old collection.old) }
    requires done { IsTrue roots_done → IsDone twins.old }
    requires pair { keep ≡ Keep.Pair → IsTrue whole }
    ensures state { open_state heap.new collection.new ≡ open_state heap.old collection.old }
    ensures belongs { BelongsTo heap.new collection.new }
    ensures keeps { KeepsTwins twins.new (open_state heap.new collection.new) }
    ensures rest { twins.new ≡ record twins.old { twins = twins.new.twins } }
    ensures done { IfOk result (λ decided. IfOk decided (λ approved. IsDone twins.new)) }
    ensures approved { IfOk result (λ decided. MatchResult decided
        (λ approved. IsTrue (is_ready (collection_in collection.old) (graph_in heap.old))
        × IsFlipOf heap.new collection.new twins.new approved × (keep_in approved ≡ keep))
        (IsNoFlip whole (is_ready (collection_in collection.old) (graph_in heap.old))
        (HasAccepted (W.sure along.now) (flip_pair (open_state heap.old collection.old) (collection_in collection.old))))) }
    // A flip rests on the yes of the checker that was to be asked.
    ensures asked { IfOk result (λ decided. IfOk decided (λ approved. AsAsked whole
        (C.says_yes checker.now (flip_pair (open_state heap.old collection.old) (collection_in collection.old)))
        (HasAccepted (W.accepted along.now) (flip_pair (open_state heap.old collection.old) (collection_in collection.old))))) }
    ensures certified { IsTrue whole → IfOk result (λ decided. IfOk decided (λ approved.
        IsCertified (flip_pair (open_state heap.old collection.old) (collection_in collection.old)))) }
    ensures ready { OnErr result (IsTrue (is_ready (collection_in collection.old) (graph_in heap.old))) }
    ensures memory { OnErr result (IsTrue whole) }
{
    if !collection.ready_with(heap, roots_done) {
        return Ok(Err(StepReply::NotReady));
    }
    if whole {
        return decide_whole(alloc, heap, collection, checker, keep);
    }
    twins.settle(heap, collection);
    let in_use = root_count(heap.mutators()) + twins.used();
    if is_accepted(along, heap, collection, &twins.words()[..in_use]) {
        Ok(Ok(Approved::Along))
    } else {
        Ok(Err(StepReply::Refused))
    }
}

// Asks the checker of both spaces whole about the ready collection.
fn decide_whole<C: Checks>(
    alloc: Global,
    heap: &mut Heap,
    collection: &mut Collection,
    checker: &C,
    keep: Keep,
) -> Result<Result<Approved, StepReply>, NoMemory>
    requires can { C.can_check checker.now }
    requires belongs { BelongsTo heap.old collection.old }
    requires ready { IsTrue (is_ready (collection_in collection.old) (graph_in heap.old)) }
    ensures state { open_state heap.new collection.new ≡ open_state heap.old collection.old }
    ensures belongs { BelongsTo heap.new collection.new }
    ensures approved { IfOk result (λ decided. MatchResult decided
        (λ approved. ((row : RootRow) → IsFlipOf heap.new collection.new row approved) × (keep_in approved ≡ keep)) (λ reply. ⊥)) }
    ensures asked { IfOk result (λ decided. C.says_yes checker.now (flip_pair (open_state heap.old collection.old) (collection_in collection.old))) }
    ensures certified { IfOk result (λ decided. IsCertified (flip_pair (open_state heap.old collection.old) (collection_in collection.old))) }
{
    // The checker and the pair that is kept see the links as they are without a mark.
    collection.unmark(heap);
    let draft = Draft::new(alloc, heap, collection)?;
    let Finding::Holds { .. } = found_by(checker, alloc, heap, collection, &draft)? else {
        return Ok(Err(StepReply::Refused));
    };
    match keep {
        Keep::Room => Ok(Ok(Approved::Whole(draft))),
        Keep::Pair => {
            let copy = new_image_copied(alloc, collection, &draft.roots)?;
            Ok(Ok(Approved::Pair(draft, copy)))
        }
    }
}

// Carries out a flip that was approved. Keeps the old space as room, or the pair. Returns the number of pairs.
fn carry_out(
    heap: &mut Heap,
    collection: Collection,
    twins: &mut RootTwins,
    approved: Approved,
    former: &mut Option<Room>,
    pair: &mut Option<PairFile>,
) -> u32
    requires belongs { BelongsTo heap.old collection }
    requires ready { IsTrue (is_ready (collection_in collection) (graph_in heap.old)) }
    requires keeps { KeepsTwins twins.old (open_state heap.old collection) }
    requires done { IsDone twins.old }
    requires approved { IsFlipOf heap.old collection twins.old approved }
    ensures step { collect (open_state heap.old collection) Step.Flip ≡ (StepReply.Flipped result, idle_state heap.new) }
    ensures count { result ≡ length (collection_in collection).replicas }
    ensures keeps { KeepsTwins twins.new (idle_state heap.new) }
    ensures links { LinksNothing 1 heap.new }
    ensures mutators { heap.new.mutators ≡ heap.old.mutators }
    ensures former { FormerAfter (keep_in approved) (open_state heap.old collection) former.old (StepReply.Flipped result) former.new }
    ensures pair { option_map pair_in pair.new
        ≡ pair_after (keep_in approved) (option_map pair_in pair.old) (open_state heap.old collection) (StepReply.Flipped result) }
{
    match approved {
        Approved::Along => leave_twins(heap, collection, twins, former),
        Approved::Whole(draft) => {
            twins.expire();
            leave_room(heap, collection, draft.roots, former)
        }
        Approved::Pair(draft, copy) => {
            twins.expire();
            let (pairs, file) = leave_pair(heap, collection, draft, copy);
            *pair = Some(file);
            pairs
        }
    }
}

// Flips to the twins of the roots, and keeps the old space as room. Takes constant time.
fn leave_twins(
    heap: &mut Heap,
    collection: Collection,
    twins: &mut RootTwins,
    former: &mut Option<Room>,
) -> u32
    requires belongs { BelongsTo heap.old collection }
    requires ready { IsTrue (is_ready (collection_in collection) (graph_in heap.old)) }
    requires keeps { KeepsTwins twins.old (open_state heap.old collection) }
    requires done { IsDone twins.old }
    requires slots { SlotsAreTwins twins.old (open_state heap.old collection) (collection_in collection) }
    ensures step { collect (open_state heap.old collection) Step.Flip ≡ (StepReply.Flipped result, idle_state heap.new) }
    ensures count { result ≡ length (collection_in collection).replicas }
    ensures keeps { KeepsTwins twins.new (idle_state heap.new) }
    ensures links { LinksNothing 1 heap.new }
    ensures mutators { heap.new.mutators ≡ heap.old.mutators }
    ensures former { FormerAfter Keep.Room (open_state heap.old collection) former.old (StepReply.Flipped result) former.new }
{
    let (room, pairs) = twins.flip(collection, heap);
    *former = Some(room);
    pairs
}

// Flips to these roots, and keeps the old space as room.
fn leave_room(
    heap: &mut Heap,
    collection: Collection,
    roots: Vec<u64>,
    former: &mut Option<Room>,
) -> u32
    requires belongs { BelongsTo heap.old collection }
    requires ready { IsTrue (is_ready (collection_in collection) (graph_in heap.old)) }
    requires roots { roots.items ≡ new_root_words heap.old (collection_in collection) }
    ensures step { collect (open_state heap.old collection) Step.Flip ≡ (StepReply.Flipped result, idle_state heap.new) }
    ensures count { result ≡ length (collection_in collection).replicas }
    ensures links { LinksNothing 1 heap.new }
    ensures mutators { heap.new.mutators ≡ heap.old.mutators }
    ensures former { FormerAfter Keep.Room (open_state heap.old collection) former.old (StepReply.Flipped result) former.new }
{
    let Swapped { room, pairs, .. } = collection.flip_swapping(heap, roots);
    *former = Some(room);
    pairs
}

// Flips, and returns the pair that the checker saw, with this copy of the new image.
fn leave_pair(heap: &mut Heap, collection: Collection, draft: Draft, copy: Image) -> (u32, PairFile)
    requires belongs { BelongsTo heap.old collection }
    requires ready { IsTrue (is_ready (collection_in collection) (graph_in heap.old)) }
    requires unmarked { collection.epoch ≡ 0 }
    requires draft { IsDraft heap.old collection draft }
    requires copy { IsNewImage collection draft.roots.items copy }
    requires few { length draft.pairs.items < 2 ^ 32 }
    ensures step { collect (open_state heap.old collection) Step.Flip ≡ (StepReply.Flipped result.0, idle_state heap.new) }
    ensures count { result.0 ≡ length (collection_in collection).replicas }
    ensures links { LinksNothing 1 heap.new }
    ensures mutators { heap.new.mutators ≡ heap.old.mutators }
    ensures pair { pair_in result.1 ≡ flip_pair (open_state heap.old collection) (collection_in collection) }
{
    images_show_links();
    // Here the prover learns that the heap is sound.
    let _ = heap.space();
    // And here, that the collection is.
    let _ = collection.new_image(&[]);
    let Draft { pairs, roots } = draft;
    let count = pairs.len() as u32;
    let (old_space, old_roots) = collection.flip_into(heap, roots);
    let old = Image {
        size: old_space.size(),
        end: old_space.end(),
        words: old_space.into_words(),
        roots: old_roots,
        raws: copy.raws,
    };
    let file = PairFile {
        old,
        new: copy,
        pairs,
    };
    (count, file)
}

// Returns whether the checker that went along accepts the outlines of both images as they are now, where these are the moved roots.
fn is_accepted<W: Watcher>(along: &W, heap: &Heap, collection: &Collection, roots: &[u64]) -> bool
    requires belongs { BelongsTo heap.now collection.now }
    requires roots { AreMoved roots.now heap.now (collection_in collection.now) }
    ensures yes { IsTrue result → HasAccepted (W.accepted along.now)
        (flip_pair (open_state heap.now collection.now) (collection_in collection.now)) }
    ensures sure { HasAccepted (W.sure along.now)
        (flip_pair (open_state heap.now collection.now) (collection_in collection.now)) → IsTrue result }
{
    heaps_have_addresses_as_names();
    images_show_links();
    // Here the prover learns that the number of roots fits.
    let _ = heap.mutators();
    let all = heap.roots();
    let nils = (all.len() - roots.len()) as u32;
    let old = Outline::with_nils(heap.space().image(&all[..roots.len()]), nils);
    let new = Outline::with_nils(collection.new_image(roots), nils);
    along.accepts(old, new)
}
