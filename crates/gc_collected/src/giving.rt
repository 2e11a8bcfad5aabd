//! Makes objects whose fields take numbers and the values of roots. No root takes a number for that.

ghost use Rattle.std.specs.Prelude.{ℕ, ◌≡◌, ◌<◌, ◌≤◌, ◌+◌, Some, List, length, get_or, is_some, IfOk, IfSome, OnErr, IsSome, IsFalse};
ghost use Rattle.gc_graph.specs.Graph.{Ref, Value, root};
ghost use Rattle.gc_graph.specs.declared.reply.Reply.{Reply};
ghost use Rattle.gc_heap.specs.Heap.{graph_in};
ghost use Rattle.gc_heap.specs.Filling.{PutsAll};
ghost use Rattle.gc_words.specs.Image.{header_at};
ghost use Rattle.gc_copy.specs.Words.{spare_of};
ghost use Rattle.gc_roots.specs.Twins.{AsksForLook};
ghost use Rattle.gc_collected.specs.Giving.{IsGiven, new_given_step};
ghost use Rattle.gc_collected.specs.declared.giving.FieldValue.{FieldValue};
ghost use Rattle.gc_collected.specs.Internal.CollectedHeap.{BelongsIfOpen, Fits, HasSpare, state_in};
ghost use Rattle.gc_collected.specs.Internal.Follows.{Follows};
ghost use Rattle.gc_collected.specs.Internal.Given.{field_given, fields_given, given_at, given_from};
ghost use Rattle.gc_collected.specs.Internal.Together.{Logs, LogsIfOpen};

use crate::barrier::{are_sound_in, reserve_in};
use crate::collected_heap::CollectedHeap;
use crate::places::has_made;
use gc_copy::{Collection, heaps_have_addresses_as_names};
use gc_graph::{NoMemory, Number, Reply, root_count};
use gc_heap::Heap;
use gc_monitor::Monitor;
use gc_words::{Addr, Header, OldAddr, Value, encode};

/// What a field of a new object takes.
#[derive(Clone, Copy, Debug, Drop)]
pub enum FieldValue {
    /// Nothing: it stays nil.
    Nil,
    /// This number.
    Number(Number),
    /// The value of the root at this place.
    Root(u32),
}

/// What the fields of an object take, in a row, in whatever form their owner has it.
pub trait ValueRow {
    // Holds of a row that names only numbers, and roots of a heap with so many roots.
    ghost is_row: { Self → ℕ → Type 0 };

    ghost values: { Self → List FieldValue };

    /// Returns the number of fields.
    fn count(&self) -> u16
        requires { (roots : ℕ) × is_row self.now roots }
        ensures { result ≡ length (values self.now) };

    /// Returns what field `i` takes.
    fn value(&self, i: u16) -> FieldValue
        requires row { (roots : ℕ) × is_row self.now roots }
        requires inside { i < length (values self.now) }
        ensures value { result ≡ get_or (values self.now) i result }
        ensures within { (roots : ℕ) → is_row self.now roots → IsGiven roots result };
}

impl CollectedHeap {
    /// Makes an object of this kind and sets root `d` to a reference to it. `fields` tells what each field takes: nothing, a number, or the value of a
    /// root. This is a `new_at_root` followed, in rising order, by mutator `m`'s `put_plain` for each number and its `put_root` for each root, in one call.
    /// Root `d` is set first, so a field filled from root `d` refers to the object itself; no other root changes. Returns `Made`, or `Full` if there is
    /// no room; then nothing has changed. Returns `NoMemory` only while a collection is open; the heap is then unchanged.
    pub fn new_given<R: ValueRow>(
        &mut self,
        m: u8,
        d: u32,
        kind: u8,
        fields: &R,
    ) -> Result<Reply, NoMemory>
        requires mutator { m < self.old.core.mutators }
        requires object { d < length self.old.core.heap.graph.roots }
        requires row { R.is_row fields.now (length self.old.core.heap.graph.roots) }
        ensures step { IfOk result (λ reply. new_given_step self.old.core m d kind (R.values fields.now) ≡ (reply, self.new.core)) }
        ensures refused { OnErr result (self.new ≡ self.old) }
        ensures open { OnErr result (IsSome self.old.core.collection) }
        ensures mutators { self.new.core.mutators ≡ self.old.core.mutators }
        ensures beside { self.new.beside ≡ self.old.beside }
        ensures looks { IfOk result (λ reply. AsksForLook d self.old.roots_left self.new.roots_left) }
        ensures full { IfOk result (λ reply. reply ≡ Reply.Full → self.new.roots_left ≡ self.old.roots_left) }
    {
        // Here the prover learns that the heap is sound.
        let _ = self.heap.space();
        let is_open = self.collection.is_some();
        reserve_in(&mut self.collection, m, usize::from(fields.count()))?;
        let made = make_given(
            &mut self.collection,
            &mut self.heap,
            &mut self.watch,
            is_open,
            m,
            d,
            kind,
            fields,
        );
        let slots = root_count(self.heap.mutators());
        self.known
            .took_if(has_made(&made), (d as usize) < slots, d, slots);
        Ok(made)
    }
}

// Makes an object and fills it, as `new_given` does. If a collection is open, which `is_open` says, logs each field that is filled; then the log
// needs room for them. A new object has no replica, so the monitor is told of the object alone.
#[inline(always)]
fn make_given<R: ValueRow>(
    collection: &mut Option<Collection>,
    heap: &mut Heap,
    watch: &mut Monitor,
    is_open: bool,
    m: u8,
    d: u32,
    kind: u8,
    fields: &R,
) -> Reply
    requires belongs { BelongsIfOpen heap.old collection.old }
    requires open { is_open ≡ is_some collection.old }
    requires mutator { m < heap.old.mutators }
    requires object { d < length heap.old.roots }
    requires row { R.is_row fields.now (length heap.old.roots) }
    requires room { HasSpare collection.old m (length (R.values fields.now)) }
    ensures step { new_given_step (state_in heap.old collection.old) m d kind (R.values fields.now) ≡ (result, state_in heap.new collection.new) }
    ensures fits { (epoch : ℕ) → Fits epoch heap.old collection.old → Fits epoch heap.new collection.new }
    ensures mutators { heap.new.mutators ≡ heap.old.mutators }
    ensures follows { Follows (state_in heap.old collection.old) watch.old → Follows (state_in heap.new collection.new) watch.new }
{
    heaps_have_addresses_as_names();
    are_sound_in(collection, heap);
    // Here the prover learns that the heap is sound.
    let _ = heap.space();
    let object = OldAddr(heap.space().end());
    let count = fields.count();
    let made = heap.new_at_root(d, kind, count);
    if let Reply::Full = made {
        return made;
    }
    let header = heap.space().header(Addr(object.0));
    give_each(heap, d, object, header, fields);
    note_values(collection, is_open, m, object, fields);
    watch.made(heap.space().words());
    made
}

// Fills the fields of the object in root `d`, in the heap alone.
#[inline(always)]
fn give_each<R: ValueRow>(heap: &mut Heap, d: u32, object: OldAddr, header: Header, fields: &R)
    requires row { R.is_row fields.now (length heap.old.roots) }
    requires target { root (graph_in heap.old) d ≡ Ref object.0 }
    requires header { header_at heap.old.space.words object.0 ≡ Some header }
    requires plain { IsFalse header.raw }
    requires long { length (R.values fields.now) ≤ header.len }
    ensures puts { PutsAll heap.old d (given_from (graph_in heap.old).roots 0 (R.values fields.now)) heap.new }
{
    for i in 0..fields.count() {
        give_one(heap, d, object, header, i, fields.value(i));
    }
}

// Fills one field of the object in root `d`, in the heap alone.
#[inline(always)]
fn give_one(heap: &mut Heap, d: u32, object: OldAddr, header: Header, i: u16, value: FieldValue)
    requires value { IsGiven (length heap.old.roots) value }
    requires target { root (graph_in heap.old) d ≡ Ref object.0 }
    requires header { header_at heap.old.space.words object.0 ≡ Some header }
    requires plain { IsFalse header.raw }
    requires field { i < header.len }
    ensures puts { PutsAll heap.old d (given_at (graph_in heap.old).roots i value) heap.new }
    ensures roots { heap.new.roots ≡ heap.old.roots }
    ensures header { header_at heap.new.space.words object.0 ≡ Some header }
{
    // Here the prover learns that the heap is sound.
    let _ = heap.space();
    match value {
        FieldValue::Nil => {}
        FieldValue::Number(n) => heap.put_word(d, object, header, i, encode(Value::Num(n))),
        FieldValue::Root(p) => {
            let word = heap.roots()[p as usize];
            heap.put_word(d, object, header, i, word);
        }
    }
}

// Logs the fields of this object that are filled, if a collection is open, which `is_open` says. Needs room in the log.
#[inline(always)]
fn note_values<R: ValueRow>(
    collection: &mut Option<Collection>,
    is_open: bool,
    m: u8,
    object: OldAddr,
    fields: &R,
)
    requires open { is_open ≡ is_some collection.old }
    requires log { IfSome collection.old (λ c. m < length c.logs) }
    requires row { (roots : ℕ) × R.is_row fields.now roots }
    requires room { HasSpare collection.old m (length (R.values fields.now)) }
    ensures { LogsIfOpen collection.old m (fields_given object.0 0 (R.values fields.now)) collection.new }
{
    if is_open {
        note_each(collection.as_mut().unwrap(), m, object, fields);
    }
}

// Logs the fields of this object that are filled. Needs room in the log.
#[inline(never)]
fn note_each<R: ValueRow>(collection: &mut Collection, m: u8, object: OldAddr, fields: &R)
    requires log { m < length collection.old.logs }
    requires row { (roots : ℕ) × R.is_row fields.now roots }
    requires room { length (R.values fields.now) ≤ spare_of collection.old m }
    ensures { Logs collection.old m (fields_given object.0 0 (R.values fields.now)) collection.new }
{
    for i in 0..fields.count() {
        note_one(collection, m, object, i, fields.value(i));
    }
}

// Logs this field of the object, unless it takes nothing. Needs room in the log.
#[inline(always)]
fn note_one(collection: &mut Collection, m: u8, object: OldAddr, i: u16, value: FieldValue)
    requires log { m < length collection.old.logs }
    requires room { 1 ≤ spare_of collection.old m }
    ensures logs { Logs collection.old m (field_given object.0 i value) collection.new }
    ensures spare { spare_of collection.old m ≤ spare_of collection.new m + 1 }
{
    match value {
        FieldValue::Nil => {}
        _ => collection.note(m, object, i),
    }
}
