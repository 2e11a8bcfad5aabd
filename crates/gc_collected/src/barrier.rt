//! The write barrier, and what a monitor is told of each step and of each object made. Each function here has the heap, its open collection and
//! the monitor at hand; the monitor may be absent. Those whose names end in `_in` serve a heap with or without an open collection. None of them
//! can fail: where one needs room in a log, `reserve_in` makes it.

ghost use Rattle.std.specs.Prelude.{ℕ, ◌≡◌, ◌≢◌, ◌<◌, ◌≤◌, ◌+◌, length, IfSome, IsSome, IsFalse, IsTrue, OnOk, OnErr, None, is_some};
ghost use Rattle.std.specs.Option.{option_map};
ghost use Rattle.gc_graph.specs.Slots.{place};
ghost use Rattle.gc_graph.specs.declared.command.Op.{Op};
ghost use Rattle.gc_heap.specs.Places.{root_at};
ghost use Rattle.gc_words.specs.Image.{is_start};
ghost use Rattle.gc_heap.specs.Heap.{HeapWords, IsHeap, graph_in};
ghost use Rattle.gc_model.specs.Steps.{collect, mutate, root_target};
ghost use Rattle.gc_model.specs.declared.step.Step.{Step};
ghost use Rattle.gc_model.specs.declared.step.StepReply.{StepReply};
ghost use Rattle.gc_model.specs.Belonging.{IsSpaceGraph, IsOpened};
ghost use Rattle.gc_copy.specs.StepRuns.{IsScanRun, IsApplyRun};
ghost use Rattle.gc_copy.specs.Words.{collection_in, open_state, spare_of, BelongsTo};
ghost use Rattle.gc_monitor.specs.Claims.{CanWriteRow};
ghost use Rattle.gc_monitor.specs.Events.{WroteRow};
ghost use Rattle.gc_collected.specs.Internal.Beside.{AreOld, replica_words};
ghost use Rattle.gc_collected.specs.Internal.Follows.{Follows};
ghost use Rattle.gc_collected.specs.Internal.Together.{Logs, LogsIfOpen, fields_from};
ghost use Rattle.gc_collected.specs.Internal.CollectedHeap.{BelongsIfOpen, Fits, HasSpare, state_in};

use gc_copy::{
    Collection, MissingRoot, StepReply, StepRun, heaps_have_addresses_as_names, images_show_links,
};
use gc_graph::{NoMemory, Reply};
use gc_heap::Heap;
use gc_monitor::Monitor;
use gc_words::OldAddr;

/// Does nothing. A heap and the collection that belongs to it are sound, and their words show them.
#[inline(always)]
pub(crate) fn are_shown(heap: &Heap, collection: &Collection)
    requires { BelongsTo heap.now collection.now }
    ensures sound { IsHeap heap.now }
    ensures heap { let s = open_state heap.now collection.now in IsSpaceGraph s.size s.heap.free s.heap.graph }
    ensures opened { IsOpened (open_state heap.now collection.now) (collection_in collection.now) }
    ensures old { AreOld (open_state heap.now collection.now) heap.now.space.words }
    ensures new { collection.now.space.words ≡ replica_words (collection_in collection.now) }
{
    heaps_have_addresses_as_names();
    images_show_links();
    // Here the prover learns that the heap is sound.
    let _ = heap.space();
    // And here, that the collection is.
    let _ = collection.new_image(&[]);
}

/// Performs mutator `m`'s `Put` on roots by their places. A field that it writes is logged, and the monitor is told of it. Needs room in the log.
#[inline(always)]
pub(crate) fn put_root(
    collection: &mut Collection,
    heap: &mut Heap,
    watch: &mut Monitor,
    m: u8,
    s: u32,
    i: u16,
    t: u32,
) -> Reply
    requires belongs { BelongsTo heap.old collection.old }
    requires mutator { m < heap.old.mutators }
    requires target { s < length heap.old.roots }
    requires giver { t < length heap.old.roots }
    requires room { 1 ≤ spare_of collection.old m }
    ensures step { mutate (open_state heap.old collection.old) m (Op.Put (root_at s) i (root_at t)) ≡ (result, open_state heap.new collection.new) }
    ensures belongs { BelongsTo heap.new collection.new }
    ensures mutators { heap.new.mutators ≡ heap.old.mutators }
    ensures follows { Follows (open_state heap.old collection.old) watch.old → Follows (open_state heap.new collection.new) watch.new }
{
    are_shown(heap, collection);
    let (reply, entry) = collection.put_root(heap, m, s, i, t);
    let Some(entry) = entry else {
        return reply;
    };
    are_shown(heap, collection);
    watch.written(heap.space().words(), entry.object.0, entry.field);
    reply
}

/// Replicates the target of the first root whose target has no replica, as `Collection::replicate_root` does. The monitor is told of the replica.
pub(crate) fn replicate_root(
    collection: &mut Collection,
    heap: &mut Heap,
    watch: &mut Monitor,
    first: Option<MissingRoot>,
) -> StepReply
    requires belongs { BelongsTo heap.old collection.old }
    requires first { option_map (λ r. r.target.0) first ≡ root_target (collection_in collection.old) (graph_in heap.old) }
    requires start { IfSome first (λ r. IsTrue (is_start heap.old.space.words r.target.0)) }
    ensures step { collect (open_state heap.old collection.old) Step.Roots ≡ (result, open_state heap.new collection.new) }
    ensures room { heap.old.space.size ≤ collection.old.space.size → result ≢ StepReply.NoRoom }
    ensures belongs { BelongsTo heap.new collection.new }
    ensures mutators { heap.new.mutators ≡ heap.old.mutators }
    ensures follows { Follows (open_state heap.old collection.old) watch.old → Follows (open_state heap.new collection.new) watch.new }
{
    are_shown(heap, collection);
    let reply = collection.replicate_root(heap, first);
    let StepReply::Copied = reply else {
        return reply;
    };
    are_shown(heap, collection);
    watch.placed(heap.space().words(), collection.new_image(&[]).words);
    reply
}

/// Performs scans in order, as `Collection::scan_run` does. Afterwards the monitor is told of all new replicas, and then looks at the scanned
/// fields.
pub(crate) fn scan_run(
    collection: &mut Collection,
    heap: &mut Heap,
    watch: &mut Monitor,
    most: u32,
    until: u32,
) -> StepRun
    requires belongs { BelongsTo heap.old collection.old }
    requires some { 1 ≤ most }
    ensures run { IsScanRun until result.steps (open_state heap.old collection.old) (open_state heap.new collection.new) result.reply }
    ensures within { result.steps ≤ most }
    ensures belongs { BelongsTo heap.new collection.new }
    ensures mutators { heap.new.mutators ≡ heap.old.mutators }
    ensures follows { Follows (open_state heap.old collection.old) watch.old → Follows (open_state heap.new collection.new) watch.new }
{
    are_shown(heap, collection);
    let place = collection.scan_place();
    let field = collection.scan_field();
    let run = collection.scan_run(heap, most, until);
    are_shown(heap, collection);
    let old = heap.space().words();
    let new = collection.new_image(&[]).words;
    let end = collection.scan_place();
    let last = collection.scan_field();
    watch.placed_all(old, new);
    watch.look_all(old, new, place, field, end, last);
    run
}

/// Performs one scan, as `scan_run` does.
pub(crate) fn scan(collection: &mut Collection, heap: &mut Heap, watch: &mut Monitor) -> StepReply
    requires { BelongsTo heap.old collection.old }
    ensures step { collect (open_state heap.old collection.old) Step.Scan ≡ (result, open_state heap.new collection.new) }
    ensures room { heap.old.space.size ≤ collection.old.space.size → result ≢ StepReply.NoRoom }
    ensures belongs { BelongsTo heap.new collection.new }
    ensures mutators { heap.new.mutators ≡ heap.old.mutators }
    ensures follows { Follows (open_state heap.old collection.old) watch.old → Follows (open_state heap.new collection.new) watch.new }
{
    are_shown(heap, collection);
    scan_run(collection, heap, watch, 1, u32::MAX).reply
}

/// Applies the oldest entry of mutator `m`'s log, as `Collection::apply_log` does. The monitor is told of a new replica, and then looks at the
/// entry's field.
#[inline(always)]
pub(crate) fn apply_log(
    collection: &mut Collection,
    m: u8,
    heap: &mut Heap,
    watch: &mut Monitor,
) -> StepReply
    requires belongs { BelongsTo heap.old collection.old }
    requires mutator { m < heap.old.mutators }
    ensures step { collect (open_state heap.old collection.old) (Step.Apply m) ≡ (result, open_state heap.new collection.new) }
    ensures room { heap.old.space.size ≤ collection.old.space.size → result ≢ StepReply.NoRoom }
    ensures belongs { BelongsTo heap.new collection.new }
    ensures mutators { heap.new.mutators ≡ heap.old.mutators }
    ensures follows { Follows (open_state heap.old collection.old) watch.old → Follows (open_state heap.new collection.new) watch.new }
{
    are_shown(heap, collection);
    let (reply, entry) = collection.apply_noted(m, heap);
    let Some(entry) = entry else {
        return reply;
    };
    are_shown(heap, collection);
    let old = heap.space().words();
    let new = collection.new_image(&[]).words;
    watch.placed(old, new);
    watch.applied(old, new, entry.object.0, entry.field);
    reply
}

/// Applies entries of mutator `m`'s log in order, the oldest first, at least one and at most `most`. None follows one that finds no room, or that
/// leaves something to scan or no entry, or after which the new space ends at `until` or beyond it. The monitor is told of each as `apply_log` tells
/// it.
pub(crate) fn apply_run(
    collection: &mut Collection,
    m: u8,
    heap: &mut Heap,
    watch: &mut Monitor,
    most: u32,
    until: u32,
) -> StepRun
    requires belongs { BelongsTo heap.old collection.old }
    requires mutator { m < heap.old.mutators }
    requires some { 1 ≤ most }
    ensures run { IsApplyRun m until result.steps (open_state heap.old collection.old) (open_state heap.new collection.new) result.reply }
    ensures within { result.steps ≤ most }
    ensures belongs { BelongsTo heap.new collection.new }
    ensures mutators { heap.new.mutators ≡ heap.old.mutators }
    ensures follows { Follows (open_state heap.old collection.old) watch.old → Follows (open_state heap.new collection.new) watch.new }
{
    let mut steps = 1;
    let mut reply = apply_log(collection, m, heap, watch);
    while steps < most && collection.applies_on(m, reply, until) {
        reply = apply_log(collection, m, heap, watch);
        steps += 1;
    }
    StepRun { steps, reply }
}

// ---- with or without an open collection

/// Makes room for `more` further entries in mutator `m`'s log, if a collection is open.
#[inline(always)]
pub(crate) fn reserve_in(
    collection: &mut Option<Collection>,
    m: u8,
    more: usize,
) -> Result<(), NoMemory>
    requires log { IfSome collection.old (λ c. m < length c.logs) }
    ensures room { OnOk result (HasSpare collection.new m more) }
    ensures same { option_map collection_in collection.new ≡ option_map collection_in collection.old }
    ensures fits { (epoch : ℕ) (heap : HeapWords) → Fits epoch heap collection.old → Fits epoch heap collection.new }
    ensures open { OnErr result (IsSome collection.old) }
{
    match collection {
        None => Ok(()),
        Some(collection) => collection.reserve_more(m, more),
    }
}

/// Performs a `New` into a root by its place. The monitor is told of the object.
#[inline(always)]
pub(crate) fn new_root_in(
    collection: &Option<Collection>,
    heap: &mut Heap,
    watch: &mut Monitor,
    d: u32,
    kind: u8,
    len: u16,
) -> Reply
    requires belongs { BelongsIfOpen heap.old collection.now }
    requires root { d < length heap.old.roots }
    ensures step { mutate (state_in heap.old collection.now) 0 (Op.New (root_at d) kind len) ≡ (result, state_in heap.new collection.now) }
    ensures fits { (epoch : ℕ) → Fits epoch heap.old collection.now → Fits epoch heap.new collection.now }
    ensures belongs { BelongsIfOpen heap.new collection.now }
    ensures mutators { heap.new.mutators ≡ heap.old.mutators }
    ensures follows { Follows (state_in heap.old collection.now) watch.old → Follows (state_in heap.new collection.now) watch.new }
{
    heaps_have_addresses_as_names();
    are_sound_in(collection, heap);
    // Here the prover learns that the heap is sound.
    let _ = heap.space();
    let reply = heap.new_at_root(d, kind, len);
    watch.made(heap.space().words());
    reply
}

/// Performs mutator `m`'s `Put` on roots by their places, as `put_root` does if a collection is open, which `is_open` says. Then it needs room in the log.
#[inline(always)]
pub(crate) fn put_root_in(
    collection: &mut Option<Collection>,
    heap: &mut Heap,
    watch: &mut Monitor,
    is_open: bool,
    m: u8,
    s: u32,
    i: u16,
    t: u32,
) -> Reply
    requires belongs { BelongsIfOpen heap.old collection.old }
    requires open { is_open ≡ is_some collection.old }
    requires mutator { m < heap.old.mutators }
    requires target { s < length heap.old.roots }
    requires giver { t < length heap.old.roots }
    requires room { HasSpare collection.old m 1 }
    ensures step { mutate (state_in heap.old collection.old) m (Op.Put (root_at s) i (root_at t)) ≡ (result, state_in heap.new collection.new) }
    ensures fits { (epoch : ℕ) → Fits epoch heap.old collection.old → Fits epoch heap.new collection.new }
    ensures belongs { BelongsIfOpen heap.new collection.new }
    ensures mutators { heap.new.mutators ≡ heap.old.mutators }
    ensures follows { Follows (state_in heap.old collection.old) watch.old → Follows (state_in heap.new collection.new) watch.new }
{
    // Here the prover learns that the heap is sound.
    let _ = heap.space();
    if !is_open {
        return heap.put_root(s, i, t);
    }
    put_root(collection.as_mut().unwrap(), heap, watch, m, s, i, t)
}

/// Logs so many fields of this object, from field `first` on, if a collection is open, which `is_open` says. So a caller asks before it changes the
/// heap, and an export that has asked the same needs no second test. Needs room in the log.
#[inline(always)]
pub(crate) fn note_in(
    collection: &mut Option<Collection>,
    is_open: bool,
    m: u8,
    object: OldAddr,
    first: u16,
    count: u16,
)
    requires open { is_open ≡ is_some collection.old }
    requires log { IfSome collection.old (λ c. m < length c.logs) }
    requires fields { first + count ≤ 65535 }
    requires room { HasSpare collection.old m count }
    ensures { LogsIfOpen collection.old m (fields_from object.0 first count) collection.new }
{
    if is_open {
        note_row(collection.as_mut().unwrap(), m, object, first, count);
    }
}

/// Logs so many fields of this object that were written, from field `first` on, and tells the monitor of all of them at once. Needs room in the log.
#[inline(never)]
pub(crate) fn log_row(
    collection: &mut Collection,
    heap: &Heap,
    watch: &mut Monitor,
    m: u8,
    object: OldAddr,
    first: u16,
    count: u16,
)
    requires log { m < length collection.old.logs }
    requires fields { first + count ≤ 65535 }
    requires room { count ≤ spare_of collection.old m }
    ensures logs { Logs collection.old m (fields_from object.0 first count) collection.new }
    ensures spare { spare_of collection.old m ≤ spare_of collection.new m + count }
    ensures wrote { IsFalse watch.new.lost → WroteRow object.0 first count watch.old watch.new }
    ensures stays { IsFalse watch.old.lost → CanWriteRow heap.now.space.words object.0 first count watch.old → IsFalse watch.new.lost }
{
    note_row(collection, m, object, first, count);
    watch.written_row(heap.space().words(), object.0, first, usize::from(count));
}

// Logs so many fields of this object, from field `first` on. Needs room in the log.
#[inline(always)]
fn note_row(collection: &mut Collection, m: u8, object: OldAddr, first: u16, count: u16)
    requires log { m < length collection.old.logs }
    requires fields { first + count ≤ 65535 }
    requires room { count ≤ spare_of collection.old m }
    ensures logs { Logs collection.old m (fields_from object.0 first count) collection.new }
    ensures spare { spare_of collection.old m ≤ spare_of collection.new m + count }
{
    for k in 0..count {
        collection.note(m, object, first + k);
    }
}

/// Does nothing. A collection that belongs to a heap is sound.
#[inline(always)]
pub(crate) fn are_sound_in(collection: &Option<Collection>, heap: &Heap)
    requires { BelongsIfOpen heap.now collection.now }
    ensures { IfSome (state_in heap.now collection.now).collection (IsOpened (state_in heap.now collection.now)) }
{
    if let Some(collection) = collection {
        are_shown(heap, collection);
    }
}
