//! Makes raw objects whose fields take numbers, and writes numbers to the fields of raw objects. Both go by places and through no root.

ghost use Rattle.std.specs.Prelude.{ℕ, ◌≡◌, ◌≢◌, ◌<◌, ◌≤◌, ◌+◌, ◌^◌, List, Some, IfOk, IfSome, IsSome, IsTrue, OnErr, get_or, length};
ghost use Rattle.std.specs.List.{list_all};
ghost use Rattle.std.specs.Option.{option_map};
ghost use Rattle.gc_graph.specs.Graph.{Ref, root};
ghost use Rattle.gc_graph.specs.declared.command.Op.{Op};
ghost use Rattle.gc_graph.specs.declared.reply.Reply.{Reply};
ghost use Rattle.gc_heap.specs.Heap.{graph_in};
ghost use Rattle.gc_heap.specs.Filling.{PutsAll, numbered};
ghost use Rattle.gc_heap.specs.Places.{root_at};
ghost use Rattle.gc_heap.specs.Raws.{is_number_word, raw_numbers};
ghost use Rattle.gc_words.specs.Image.{header_at};
ghost use Rattle.gc_words.specs.Space.{end_of};
ghost use Rattle.gc_model.specs.State.{heap_end};
ghost use Rattle.gc_model.specs.Steps.{mutate};
ghost use Rattle.gc_roots.specs.Twins.{AsksForLook};
ghost use Rattle.gc_collected.specs.Numbers.{new_numbers_step};
ghost use Rattle.gc_collected.specs.Writing.{put_root_numbers_step};
ghost use Rattle.gc_collected.specs.Internal.CollectedHeap.{BelongsIfOpen, Fits, HasSpare, state_in};
ghost use Rattle.gc_collected.specs.Internal.Follows.{Follows};
ghost use Rattle.gc_collected.specs.Internal.Numbered.{AreApart, IsNewRaw, Sources, numbers_given, sources_at};

use crate::barrier::{are_shown, are_sound_in, log_row, reserve_in};
use crate::collected_heap::CollectedHeap;
use crate::copying::{Found, object};
use crate::places::has_made;
use gc_copy::{Collection, heaps_have_addresses_as_names};
use gc_graph::{NoMemory, Reply, root_count};
use gc_heap::{Heap, are_numbers};
use gc_monitor::Monitor;
use gc_words::{Header, OldAddr};

/// Numbers in a row, in whatever form their owner has it. They may be read from two objects of the heap.
pub(crate) trait NumberRow {
    // The names of the two objects.
    ghost names: { Self → ℕ × ℕ };

    // Holds of a row that can be read from these objects.
    ghost is_row: { Self → Sources → Type 0 };

    ghost numbers: { Self → Sources → List ℕ };

    /// Returns how many there are.
    fn count(&self) -> u16
        requires { (sources : Sources) × is_row self.now sources }
        ensures { (sources : Sources) → is_row self.now sources → result ≡ length (numbers self.now sources) };

    /// Returns number `i`.
    fn number(&self, heap: &Heap, i: u16) -> u64
        requires row { is_row self.now (sources_at (graph_in heap.now) (names self.now)) }
        requires inside { i < length (numbers self.now (sources_at (graph_in heap.now) (names self.now))) }
        ensures number { result ≡ get_or (numbers self.now (sources_at (graph_in heap.now) (names self.now))) i 0 }
        ensures small { result < 2 ^ 63 };

    /// Writes the numbers to the fields, from field `first` on, of the raw object in root `s`, which has this address and this header, in the heap alone.
    #[inline(always)]
    fn write(&self, heap: &mut Heap, s: u32, object: OldAddr, header: Header, first: u16)
        requires target { root (graph_in heap.old) s ≡ Ref object.0 }
        requires header { header_at heap.old.space.words object.0 ≡ Some header }
        requires raw { IsTrue header.raw }
        requires row { is_row self.now (sources_at (graph_in heap.old) (names self.now)) }
        requires apart { AreApart (names self.now) object.0 }
        requires fields { first + length (numbers self.now (sources_at (graph_in heap.old) (names self.now))) ≤ header.len }
        ensures puts { PutsAll heap.old s (numbered first (numbers self.now (sources_at (graph_in heap.old) (names self.now)))) heap.new }
        ensures roots { heap.new.roots ≡ heap.old.roots }
        ensures header { header_at heap.new.space.words object.0 ≡ Some header }
    {
        for k in 0..self.count() {
            let number = self.number(heap, k);
            heap.put_word(s, object, header, first + k, number);
        }
    }
}

impl CollectedHeap {
    /// Returns the numbers in the fields of the raw object that root `s` refers to, or `None` if it refers to no raw object.
    #[inline(always)]
    pub fn raw_numbers_root(&self, s: u32) -> Option<&[u64]>
        requires { s < length self.now.core.heap.graph.roots }
        ensures numbers { option_map (λ numbers. numbers.now) result ≡ raw_numbers self.now.core.heap.graph (root_at s) 0 }
        ensures few { IfSome result (λ numbers. length numbers.now ≤ 65535) }
    {
        // Here the prover learns that the heap is sound.
        let _ = self.heap.space();
        let (_, _, numbers) = raw_object(&self.heap, s)?;
        Some(numbers)
    }

    /// Writes these numbers to the fields of the raw object that root `s` refers to, from field `first` on. This is mutator `m`'s `put_plain` for each
    /// number, in rising order, so no root changes. Returns `Done`. Or nothing is changed, and the reply is `NoObject` where root `s` refers to no raw object,
    /// `NoField` where the object has too few fields, or `NoNumber` where one of the words is no number. While a collection is open, each field is logged (the
    /// write barrier). Only then can the call return `NoMemory`, and the heap is unchanged.
    #[inline(always)]
    pub fn put_root_numbers(
        &mut self,
        m: u8,
        s: u32,
        first: u32,
        words: &[u64],
    ) -> Result<Reply, NoMemory>
        requires mutator { m < self.old.core.mutators }
        requires object { s < length self.old.core.heap.graph.roots }
        ensures step { IfOk result (λ reply. put_root_numbers_step self.old.core m s first words.now ≡ (reply, self.new.core)) }
        ensures refused { OnErr result (self.new ≡ self.old) }
        ensures open { OnErr result (IsSome self.old.core.collection) }
        ensures mutators { self.new.core.mutators ≡ self.old.core.mutators }
        ensures beside { self.new.beside ≡ self.old.beside }
        ensures looks { IfOk result (λ _. self.new.roots_left ≡ self.old.roots_left) }
    {
        // Here the prover learns that the heap is sound.
        let _ = self.heap.space();
        let Some((object, header, numbers)) = raw_object(&self.heap, s) else {
            return Ok(Reply::NoObject);
        };
        if first as usize + words.len() > numbers.len() {
            return Ok(Reply::NoField);
        }
        if !are_numbers(words) {
            return Ok(Reply::NoNumber);
        }
        reserve_in(&mut self.collection, m, words.len())?;
        write_numbers(
            &mut self.collection,
            &mut self.heap,
            &mut self.watch,
            m,
            s,
            object,
            header,
            first as u16,
            &Numbers { words },
        );
        Ok(Reply::Done)
    }

    /// Makes a raw object of this kind whose fields take these numbers, and sets root `d` to a reference to it. This is a `new_raw_at_root` followed, in
    /// rising order, by mutator `m`'s `put_plain` for each number, in one call. Returns `Made`, or `Full` if there is no room; then nothing has changed.
    /// Returns `NoMemory` only while a collection is open; the heap is then unchanged.
    #[inline(always)]
    pub(crate) fn new_numbers<R: NumberRow>(
        &mut self,
        m: u8,
        d: u32,
        kind: u8,
        row: &R,
    ) -> Result<Reply, NoMemory>
        requires mutator { m < self.old.core.mutators }
        requires object { d < length self.old.core.heap.graph.roots }
        requires row { R.is_row row.now (sources_at self.old.core.heap.graph (R.names row.now)) }
        requires apart { AreApart (R.names row.now) (heap_end self.old.core) }
        ensures step { IfOk result (λ reply.
            new_numbers_step self.old.core m d kind (R.numbers row.now (sources_at self.old.core.heap.graph (R.names row.now))) ≡ (reply, self.new.core)) }
        ensures refused { OnErr result (self.new ≡ self.old) }
        ensures open { OnErr result (IsSome self.old.core.collection) }
        ensures mutators { self.new.core.mutators ≡ self.old.core.mutators }
        ensures beside { self.new.beside ≡ self.old.beside }
        ensures looks { IfOk result (λ reply. AsksForLook d self.old.roots_left self.new.roots_left) }
        ensures full { IfOk result (λ reply. reply ≡ Reply.Full → self.new.roots_left ≡ self.old.roots_left) }
    {
        // Here the prover learns that the heap is sound.
        let _ = self.heap.space();
        reserve_in(&mut self.collection, m, usize::from(row.count()))?;
        let made = make_numbers(
            &mut self.collection,
            &mut self.heap,
            &mut self.watch,
            m,
            d,
            kind,
            row,
        );
        let slots = root_count(self.heap.mutators());
        self.known
            .took_if(has_made(&made), (d as usize) < slots, d, slots);
        Ok(made)
    }
}

// Numbers that are given one behind the other.
#[derive(Drop)]
struct Numbers<'a> {
    words: &'a [u64],
}

impl NumberRow for Numbers<'_> {
    ghost names = { λ row. (0, 0) };

    ghost is_row = { λ row sources. (length row.words.now ≤ 65535) × IsTrue (list_all is_number_word row.words.now) };

    ghost numbers = { λ row sources. row.words.now };

    #[inline(always)]
    fn count(&self) -> u16 {
        self.words.len() as u16
    }

    #[inline(always)]
    fn number(&self, heap: &Heap, i: u16) -> u64 {
        self.words[usize::from(i)]
    }

    #[inline(always)]
    fn write(&self, heap: &mut Heap, s: u32, object: OldAddr, header: Header, first: u16) {
        heap.put_numbers(s, object, header, first, self.words);
    }
}

/// Returns the raw object that root `s` refers to: its address, its header and its numbers.
#[inline(always)]
pub(crate) fn raw_object(heap: &Heap, s: u32) -> Option<Found<'_>>
    requires { s < length heap.now.roots }
    ensures numbers { option_map (λ found. found.2.now) result ≡ raw_numbers (graph_in heap.now) (root_at s) 0 }
    ensures target { IfSome result (λ found. root (graph_in heap.now) s ≡ Ref found.0.0) }
    ensures header { IfSome result (λ found. header_at heap.now.space.words found.0.0 ≡ Some found.1) }
    ensures raw { IfSome result (λ found. IsTrue found.1.raw) }
    ensures long { IfSome result (λ found. length found.2.now ≡ found.1.len) }
    ensures apart { IfSome result (λ found. 0 ≢ found.0.0) }
{
    heaps_have_addresses_as_names();
    // Here the prover learns that the heap is sound.
    let _ = heap.space();
    let (object, header, numbers) = object(heap, s)?;
    if header.is_raw() {
        Some((object, header, numbers))
    } else {
        None
    }
}

// Makes a raw object and fills it, as `new_numbers` does. If a collection is open, the log needs room for each field.
#[inline(always)]
fn make_numbers<R: NumberRow>(
    collection: &mut Option<Collection>,
    heap: &mut Heap,
    watch: &mut Monitor,
    m: u8,
    d: u32,
    kind: u8,
    row: &R,
) -> Reply
    requires belongs { BelongsIfOpen heap.old collection.old }
    requires mutator { m < heap.old.mutators }
    requires object { d < length heap.old.roots }
    requires row { R.is_row row.now (sources_at (graph_in heap.old) (R.names row.now)) }
    requires apart { AreApart (R.names row.now) (end_of heap.old.space) }
    requires room { HasSpare collection.old m (length (R.numbers row.now (sources_at (graph_in heap.old) (R.names row.now)))) }
    ensures step { new_numbers_step (state_in heap.old collection.old) m d kind (R.numbers row.now (sources_at (graph_in heap.old) (R.names row.now)))
        ≡ (result, state_in heap.new collection.new) }
    ensures fits { (epoch : ℕ) → Fits epoch heap.old collection.old → Fits epoch heap.new collection.new }
    ensures mutators { heap.new.mutators ≡ heap.old.mutators }
    ensures follows { Follows (state_in heap.old collection.old) watch.old → Follows (state_in heap.new collection.new) watch.new }
{
    let made = new_raw_in(collection, heap, watch, d, kind, row.count());
    if let Reply::Full = made {
        return made;
    }
    let (object, header, _) = object(heap, d).unwrap();
    write_numbers(collection, heap, watch, m, d, object, header, 0, row);
    made
}

// Performs a `NewRaw` into root `d`. The monitor is told of the object.
#[inline(always)]
fn new_raw_in(
    collection: &Option<Collection>,
    heap: &mut Heap,
    watch: &mut Monitor,
    d: u32,
    kind: u8,
    len: u16,
) -> Reply
    requires belongs { BelongsIfOpen heap.old collection.now }
    requires root { d < length heap.old.roots }
    ensures step { (m : ℕ) → mutate (state_in heap.old collection.now) m (Op.NewRaw (root_at d) kind len) ≡ (result, state_in heap.new collection.now) }
    ensures fits { (epoch : ℕ) → Fits epoch heap.old collection.now → Fits epoch heap.new collection.now }
    ensures belongs { BelongsIfOpen heap.new collection.now }
    ensures mutators { heap.new.mutators ≡ heap.old.mutators }
    ensures roots { length heap.new.roots ≡ length heap.old.roots }
    ensures follows { Follows (state_in heap.old collection.now) watch.old → Follows (state_in heap.new collection.now) watch.new }
    ensures made { result ≢ Reply.Full → IsNewRaw (graph_in heap.old) (graph_in heap.new) d kind len (end_of heap.old.space) }
{
    heaps_have_addresses_as_names();
    are_sound_in(collection, heap);
    // Here the prover learns that the heap is sound.
    let _ = heap.space();
    let reply = heap.new_raw_at_root(d, kind, len);
    watch.made(heap.space().words());
    reply
}

/// Writes the numbers to the fields, from field `first` on, of the raw object in root `s`, which has this address and this header. If a collection is open,
/// logs the fields, and tells the monitor of all of them at once. Then the log needs room for each of them.
#[inline(always)]
pub(crate) fn write_numbers<R: NumberRow>(
    collection: &mut Option<Collection>,
    heap: &mut Heap,
    watch: &mut Monitor,
    m: u8,
    s: u32,
    object: OldAddr,
    header: Header,
    first: u16,
    row: &R,
)
    requires belongs { BelongsIfOpen heap.old collection.old }
    requires mutator { m < heap.old.mutators }
    requires root { s < length heap.old.roots }
    requires target { root (graph_in heap.old) s ≡ Ref object.0 }
    requires header { header_at heap.old.space.words object.0 ≡ Some header }
    requires raw { IsTrue header.raw }
    requires row { R.is_row row.now (sources_at (graph_in heap.old) (R.names row.now)) }
    requires apart { AreApart (R.names row.now) object.0 }
    requires fields { first + length (R.numbers row.now (sources_at (graph_in heap.old) (R.names row.now))) ≤ header.len }
    requires room { HasSpare collection.old m (length (R.numbers row.now (sources_at (graph_in heap.old) (R.names row.now)))) }
    ensures step { numbers_given (state_in heap.old collection.old) m s first (R.numbers row.now (sources_at (graph_in heap.old) (R.names row.now)))
        ≡ state_in heap.new collection.new }
    ensures fits { (epoch : ℕ) → Fits epoch heap.old collection.old → Fits epoch heap.new collection.new }
    ensures mutators { heap.new.mutators ≡ heap.old.mutators }
    ensures follows { Follows (state_in heap.old collection.old) watch.old → Follows (state_in heap.new collection.new) watch.new }
    // Another row of the same object can be written next.
    ensures belongs { BelongsIfOpen heap.new collection.new }
    ensures roots { heap.new.roots ≡ heap.old.roots }
    ensures header { header_at heap.new.space.words object.0 ≡ Some header }
    ensures spare { (more : ℕ) → HasSpare collection.old m (length (R.numbers row.now (sources_at (graph_in heap.old) (R.names row.now))) + more)
        → HasSpare collection.new m more }
{
    are_sound_in(collection, heap);
    // Here the prover learns that the heap is sound.
    let _ = heap.space();
    row.write(heap, s, object, header, first);
    let Some(collection) = collection else {
        return;
    };
    let count = row.count();
    log_row(collection, heap, watch, m, object, first, count);
    are_shown(heap, collection);
}
