//! Copies fields from one object to another, and writes one value to many fields.

ghost use Rattle.std.specs.Prelude.{ℕ, ◌≡◌, ◌≢◌, ◌<◌, ◌≤◌, ◌+◌, ◌||◌, not, length, Some, IfOk, IfSome, OnErr, IsSome, IsTrue};
ghost use Rattle.std.specs.List.{list_all};
ghost use Rattle.std.specs.Option.{option_map};
ghost use Rattle.gc_graph.specs.Graph.{Ref, root};
ghost use Rattle.gc_graph.specs.Slots.{place};
ghost use Rattle.gc_graph.specs.Machine.{is_number};
ghost use Rattle.gc_words.specs.Word.{value_of, field_value};
ghost use Rattle.gc_words.specs.Closed.{IsFieldWord};
ghost use Rattle.gc_words.specs.Image.{header_at, object_of_block};
ghost use Rattle.gc_words.specs.declared.header.Header.{Header};
ghost use Rattle.gc_graph.specs.declared.reply.Reply.{Reply};
ghost use Rattle.gc_heap.specs.Filling.{PutsAll, PutsValue};
ghost use Rattle.gc_heap.specs.Heap.{graph_in};
ghost use Rattle.gc_heap.specs.Places.{root_at};
ghost use Rattle.gc_collected.specs.Internal.Given.{CopiesAll, puts_step, same_from};
ghost use Rattle.gc_collected.specs.Internal.Follows.{Follows};
ghost use Rattle.gc_collected.specs.Internal.CollectedHeap.{BelongsIfOpen, Fits, HasSpare, state_in};
ghost use Rattle.gc_collected.specs.Copying.{object_in, copy_reply as reply_in, copy_fields_step, copy_values_step, fill_fields_step, fill_reply as fill_reply_in, fills_step, value_in, values_step};

use crate::barrier::{are_shown, are_sound_in, log_row, reserve_in};
use crate::collected_heap::CollectedHeap;
use gc_copy::Collection;
use gc_graph::{NoMemory, Reply, Slot};
use gc_heap::{Heap, field_word, root_word};
use gc_monitor::Monitor;
use gc_words::{Addr, Header, OldAddr};

impl CollectedHeap {
    /// Copies `count` fields: from field `from` on, of the object that `s` refers to, to field `to` and on of the object that `d` refers
    /// to. For each field this is a `get` into `t` and a `put` of `t`, in rising order, so `t` keeps the last value; within one object, a
    /// field that was written is read as it was written. Returns `Done`. Or nothing is changed, and the reply is `NoObject` where `d` or
    /// `s` refers to no object, `NoField` where one of the objects has too few fields, or `NoNumber` where the object in `d` is raw and
    /// one of the values is no number. `t` is another slot than `d` and `s`. While a collection is open, each field is logged (the write
    /// barrier). Only then can the call return `NoMemory`, and the heap is unchanged.
    pub fn copy_fields(
        &mut self,
        m: u8,
        d: Slot,
        to: u16,
        s: Slot,
        from: u16,
        t: Slot,
        count: u16,
    ) -> Result<Reply, NoMemory>
        requires mutator { m < self.old.core.mutators }
        requires target { place t m ≢ place d m }
        requires source { place t m ≢ place s m }
        ensures step { IfOk result (λ reply. copy_fields_step self.old.core m d to s from t count ≡ (reply, self.new.core)) }
        ensures refused { OnErr result (self.new ≡ self.old) }
        ensures open { OnErr result (IsSome self.old.core.collection) }
        ensures mutators { self.new.core.mutators ≡ self.old.core.mutators }
        ensures beside { self.new.beside ≡ self.old.beside }
    {
        // Here the prover learns that the heap is sound, how many roots there are, and that the slot is in range.
        self.is_sound();
        let _ = self.root_places();
        let _ = t.index();
        let reply = self.copy_root_fields(
            m,
            d.place(m) as u32,
            u32::from(to),
            s.place(m) as u32,
            u32::from(from),
            u32::from(count),
        )?;
        let Reply::Done = reply else {
            return Ok(reply);
        };
        if count == 0 {
            return Ok(reply);
        }
        // The last field has the last value.
        let _got = self.fetch(m, t, d, to + (count - 1));
        Ok(reply)
    }
}

impl CollectedHeap {
    /// Copies `count` fields: from field `from` on, of the object that root `s` refers to, to field `to` and on of the object that root `d` refers to, in
    /// rising order. Each field takes, as by mutator `m`'s `put_plain`, the value that the other field has then; within one object, a field that was
    /// written is read as it was written. No root changes. Returns `Done`. Or nothing is changed, and the reply is `NoObject` where `d` or `s` refers to
    /// no object, `NoField` where one of the objects has too few fields, or `NoNumber` where the object in `d` is raw and one of the values is no number.
    /// While a collection is open, each field is logged (the write barrier). Only then can the call return `NoMemory`, and the heap is unchanged.
    #[inline(always)]
    pub fn copy_root_fields(
        &mut self,
        m: u8,
        d: u32,
        to: u32,
        s: u32,
        from: u32,
        count: u32,
    ) -> Result<Reply, NoMemory>
        requires mutator { m < self.old.core.mutators }
        requires target { d < length self.old.core.heap.graph.roots }
        requires source { s < length self.old.core.heap.graph.roots }
        ensures step { IfOk result (λ reply. copy_values_step self.old.core m d to s from count ≡ (reply, self.new.core)) }
        ensures refused { OnErr result (self.new ≡ self.old) }
        ensures open { OnErr result (IsSome self.old.core.collection) }
        ensures mutators { self.new.core.mutators ≡ self.old.core.mutators }
        ensures beside { self.new.beside ≡ self.old.beside }
        ensures looks { IfOk result (λ _. self.new.roots_left ≡ self.old.roots_left) }
    {
        // Here the prover learns that the heap is sound.
        let _ = self.heap.space();
        let reply = copy_reply(&self.heap, d, to, s, from, count);
        let Reply::Done = reply else {
            return Ok(reply);
        };
        reserve_in(&mut self.collection, m, count as usize)?;
        copy_values(
            &mut self.collection,
            &mut self.heap,
            &mut self.watch,
            m,
            d,
            to as u16,
            s,
            from as u16,
            count as u16,
        );
        Ok(reply)
    }

    /// Writes what root `t` holds to the fields from `from` to `to - 1` of the object that root `s` refers to. This is mutator `m`'s `put_root` for each of
    /// them, in rising order. Returns `Done`. Or nothing is changed, and the reply is `NoObject`, `NoField` where the object has fewer than `to` fields,
    /// or `NoNumber` where it is raw and root `t` holds no number. While a collection is open, each field is logged (the write barrier). Only then can the
    /// call return `NoMemory`, and the heap is unchanged.
    pub fn fill(&mut self, m: u8, s: u32, from: u32, to: u32, t: u32) -> Result<Reply, NoMemory>
        requires mutator { m < self.old.core.mutators }
        requires target { s < length self.old.core.heap.graph.roots }
        requires giver { t < length self.old.core.heap.graph.roots }
        requires order { from ≤ to }
        ensures step { IfOk result (λ reply. fill_fields_step self.old.core m s from to t ≡ (reply, self.new.core)) }
        ensures refused { OnErr result (self.new ≡ self.old) }
        ensures open { OnErr result (IsSome self.old.core.collection) }
        ensures mutators { self.new.core.mutators ≡ self.old.core.mutators }
        ensures beside { self.new.beside ≡ self.old.beside }
        ensures looks { IfOk result (λ _. self.new.roots_left ≡ self.old.roots_left) }
    {
        // Here the prover learns that the heap is sound.
        let _ = self.heap.space();
        let reply = fill_reply(&self.heap, s, to, t);
        let Reply::Done = reply else {
            return Ok(reply);
        };
        reserve_in(&mut self.collection, m, (to - from) as usize)?;
        fill_values(
            &mut self.collection,
            &mut self.heap,
            &mut self.watch,
            m,
            s,
            from as u16,
            (to - from) as u16,
            t,
        );
        Ok(reply)
    }
}

// An object that is found: its address, its header and its field words.
pub(crate) type Found<'a> = (OldAddr, Header, &'a [u64]);

// The object that a root refers to.
#[inline(always)]
pub(crate) fn object(heap: &Heap, p: u32) -> Option<Found<'_>>
    requires { p < length heap.now.roots }
    ensures is { option_map (λ found. object_of_block (record { header = found.1; fields = found.2.now })) result ≡ object_in (graph_in heap.now) (root_at p) 0 }
    ensures target { IfSome result (λ found. root (graph_in heap.now) p ≡ Ref found.0.0) }
    ensures header { IfSome result (λ found. header_at heap.now.space.words found.0.0 ≡ Some found.1) }
    ensures long { IfSome result (λ found. length found.2.now ≡ found.1.len) }
{
    let object = heap.target_root(p)?;
    let at = Addr(object.0);
    Some((object, heap.space().header(at), heap.space().fields(at)))
}

// Whether the values of these words are all numbers.
fn are_numbers(words: &[u64]) -> bool
    ensures { result ≡ list_all (λ w. is_number (value_of w)) words.now }
{
    for k in 0..words.len() {
        if words[k] % 2 == 0 {
            return false;
        }
    }
    true
}

// Whether an object with the header `target` takes these words of an object with the header `source`: any, or only numbers if it is raw.
fn takes(target: Header, source: Header, words: &[u64]) -> bool
    ensures { result ≡ (not target.raw || list_all (λ w. is_number (field_value source w)) words.now) }
{
    if !target.is_raw() {
        return true;
    }
    if source.is_raw() {
        return true;
    }
    are_numbers(words)
}

// Whether so many fields can be copied.
fn copy_reply(heap: &Heap, d: u32, to: u32, s: u32, from: u32, count: u32) -> Reply
    requires target { d < length heap.now.roots }
    requires source { s < length heap.now.roots }
    ensures reply { result ≡ reply_in to from count (object_in (graph_in heap.now) (root_at d) 0) (object_in (graph_in heap.now) (root_at s) 0) }
    ensures fits { result ≡ Reply.Done → (to + count ≤ 65535) × (from + count ≤ 65535) }
{
    let (Some((_, target, _)), Some((_, source, words))) = (object(heap, d), object(heap, s)) else {
        return Reply::NoObject;
    };
    let (first, count) = (from as usize, count as usize);
    if to as usize + count > usize::from(target.len()) || first + count > words.len() {
        return Reply::NoField;
    }
    if !takes(target, source, &words[first..first + count]) {
        return Reply::NoNumber;
    }
    Reply::Done
}

// ---- by places

// Whether the fields below `to` of the object in root `s` can take what root `t` holds.
fn fill_reply(heap: &Heap, s: u32, to: u32, t: u32) -> Reply
    requires target { s < length heap.now.roots }
    requires giver { t < length heap.now.roots }
    ensures reply { result ≡ fill_reply_in to (root (graph_in heap.now) t) (object_in (graph_in heap.now) (root_at s) 0) }
    ensures fits { result ≡ Reply.Done → to ≤ 65535 }
{
    let Some((_, header, _)) = object(heap, s) else {
        return Reply::NoObject;
    };
    if to > u32::from(header.len()) {
        return Reply::NoField;
    }
    match field_word(heap.space(), header, heap.roots()[t as usize]) {
        Some(_) => Reply::Done,
        None => Reply::NoNumber,
    }
}

// Writes what root `t` holds to so many fields of the object in root `s`, which takes it. If a collection is open, logs them, and tells the monitor of
// all of them at once. Then the log needs room for each of them.
#[inline(always)]
fn fill_values(
    collection: &mut Option<Collection>,
    heap: &mut Heap,
    watch: &mut Monitor,
    m: u8,
    s: u32,
    from: u16,
    count: u16,
    t: u32,
)
    requires belongs { BelongsIfOpen heap.old collection.old }
    requires mutator { m < heap.old.mutators }
    requires target { s < length heap.old.roots }
    requires giver { t < length heap.old.roots }
    requires takes { fill_reply_in (from + count) (root (graph_in heap.old) t) (object_in (graph_in heap.old) (root_at s) 0) ≡ Reply.Done }
    requires fields { from + count ≤ 65535 }
    requires room { HasSpare collection.old m count }
    ensures step { fills_step (state_in heap.old collection.old) m s from count t ≡ state_in heap.new collection.new }
    ensures fits { (epoch : ℕ) → Fits epoch heap.old collection.old → Fits epoch heap.new collection.new }
    ensures mutators { heap.new.mutators ≡ heap.old.mutators }
    ensures follows { Follows (state_in heap.old collection.old) watch.old → Follows (state_in heap.new collection.new) watch.new }
{
    // Here the prover learns that the heap is sound.
    let _ = heap.space();
    let (object, header, _) = object(heap, s).unwrap();
    let word = field_word(heap.space(), header, heap.roots()[t as usize]).unwrap();
    put_words(
        collection, heap, watch, m, s, object, header, from, count, word,
    );
}

// Writes this word to so many fields of the object in root `s`, which has this header. If a collection is open, logs them, and tells the monitor of all
// of them at once. Then the log needs room for each of them.
#[inline(always)]
pub(crate) fn put_words(
    collection: &mut Option<Collection>,
    heap: &mut Heap,
    watch: &mut Monitor,
    m: u8,
    s: u32,
    object: OldAddr,
    header: Header,
    from: u16,
    count: u16,
    word: u64,
)
    requires belongs { BelongsIfOpen heap.old collection.old }
    requires mutator { m < heap.old.mutators }
    requires place { s < length heap.old.roots }
    requires target { root (graph_in heap.old) s ≡ Ref object.0 }
    requires header { header_at heap.old.space.words object.0 ≡ Some header }
    requires fields { from + count ≤ header.len }
    requires word { IsFieldWord heap.old.space.words header word }
    requires room { HasSpare collection.old m count }
    ensures step { puts_step (state_in heap.old collection.old) m s (same_from from count (field_value header word)) ≡ state_in heap.new collection.new }
    ensures fits { (epoch : ℕ) → Fits epoch heap.old collection.old → Fits epoch heap.new collection.new }
    ensures mutators { heap.new.mutators ≡ heap.old.mutators }
    ensures follows { Follows (state_in heap.old collection.old) watch.old → Follows (state_in heap.new collection.new) watch.new }
{
    are_sound_in(collection, heap);
    // Here the prover learns that the heap is sound.
    let _ = heap.space();
    fill_each(heap, s, object, header, from, count, word);
    let Some(collection) = collection else {
        return;
    };
    log_row(collection, heap, watch, m, object, from, count);
    are_shown(heap, collection);
}

// Writes this word to so many fields of the object in root `s`, in the heap alone.
#[inline(always)]
fn fill_each(
    heap: &mut Heap,
    s: u32,
    object: OldAddr,
    header: Header,
    from: u16,
    count: u16,
    word: u64,
)
    requires target { root (graph_in heap.old) s ≡ Ref object.0 }
    requires header { header_at heap.old.space.words object.0 ≡ Some header }
    requires fields { from + count ≤ header.len }
    requires word { IsFieldWord heap.old.space.words header word }
    ensures puts { PutsAll heap.old s (same_from from count (field_value header word)) heap.new }
{
    for k in 0..count {
        heap.put_word(s, object, header, from + k, word);
    }
}

// Copies the fields, where the object in root `d` takes them. If a collection is open, logs them, and tells the monitor of all of them at once. Then
// the log needs room for each of them.
#[inline(always)]
fn copy_values(
    collection: &mut Option<Collection>,
    heap: &mut Heap,
    watch: &mut Monitor,
    m: u8,
    d: u32,
    to: u16,
    s: u32,
    from: u16,
    count: u16,
)
    requires belongs { BelongsIfOpen heap.old collection.old }
    requires mutator { m < heap.old.mutators }
    requires target { d < length heap.old.roots }
    requires source { s < length heap.old.roots }
    requires takes { reply_in to from count (object_in (graph_in heap.old) (root_at d) 0) (object_in (graph_in heap.old) (root_at s) 0) ≡ Reply.Done }
    requires fields { (to + count ≤ 65535) × (from + count ≤ 65535) }
    requires room { HasSpare collection.old m count }
    ensures step { values_step (state_in heap.old collection.old) m d to s from count ≡ state_in heap.new collection.new }
    ensures fits { (epoch : ℕ) → Fits epoch heap.old collection.old → Fits epoch heap.new collection.new }
    ensures mutators { heap.new.mutators ≡ heap.old.mutators }
    ensures follows { Follows (state_in heap.old collection.old) watch.old → Follows (state_in heap.new collection.new) watch.new }
{
    are_sound_in(collection, heap);
    // Here the prover learns that the heap is sound.
    let _ = heap.space();
    let (target, taking, _) = object(heap, d).unwrap();
    let (source, giving, _) = object(heap, s).unwrap();
    copy_each_value(heap, d, target, taking, to, s, source, giving, from, count);
    let Some(collection) = collection else {
        return;
    };
    log_row(collection, heap, watch, m, target, to, count);
    are_shown(heap, collection);
}

// Copies the fields in the heap alone, where the object in root `d` takes them.
#[inline(always)]
fn copy_each_value(
    heap: &mut Heap,
    d: u32,
    target: OldAddr,
    taking: Header,
    to: u16,
    s: u32,
    source: OldAddr,
    giving: Header,
    from: u16,
    count: u16,
)
    requires target { root (graph_in heap.old) d ≡ Ref target.0 }
    requires source { root (graph_in heap.old) s ≡ Ref source.0 }
    requires taking { header_at heap.old.space.words target.0 ≡ Some taking }
    requires giving { header_at heap.old.space.words source.0 ≡ Some giving }
    requires takes { reply_in to from count (object_in (graph_in heap.old) (root_at d) 0) (object_in (graph_in heap.old) (root_at s) 0) ≡ Reply.Done }
    requires fields { (to + count ≤ taking.len) × (from + count ≤ giving.len) }
    ensures copies { CopiesAll heap.old d to s from count heap.new }
{
    for k in 0..count {
        copy_one(heap, d, target, taking, to + k, s, source, giving, from + k);
    }
}

// Copies one field in the heap alone, where the object in root `d` takes it.
#[inline(always)]
fn copy_one(
    heap: &mut Heap,
    d: u32,
    target: OldAddr,
    taking: Header,
    i: u16,
    s: u32,
    source: OldAddr,
    giving: Header,
    j: u16,
)
    requires target { root (graph_in heap.old) d ≡ Ref target.0 }
    requires source { root (graph_in heap.old) s ≡ Ref source.0 }
    requires taking { header_at heap.old.space.words target.0 ≡ Some taking }
    requires giving { header_at heap.old.space.words source.0 ≡ Some giving }
    requires taken { IsTrue taking.raw → IsTrue (is_number (value_in (graph_in heap.old) s j)) }
    requires fields { (i < taking.len) × (j < giving.len) }
    ensures puts { PutsValue heap.old d i (value_in (graph_in heap.old) s j) heap.new }
    ensures headers { (a : ℕ) (h : Header) → header_at heap.old.space.words a ≡ Some h → header_at heap.new.space.words a ≡ Some h }
{
    // Here the prover learns that the heap is sound.
    let _ = heap.space();
    let field = heap.space().field(Addr(source.0), j);
    let word = root_word(heap.space(), giving, field);
    let taken = field_word(heap.space(), taking, word).unwrap();
    heap.put_word(d, target, taking, i, taken);
}
