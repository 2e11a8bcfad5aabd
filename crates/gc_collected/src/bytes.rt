//! Texts of bytes in raw objects, by places and through no root.

ghost use Rattle.std.specs.Prelude.{ℕ, ◌≡◌, ◌≢◌, ◌<◌, ◌≤◌, ◌+◌, ◌++◌, [], Some, IfOk, IfSome, IsSome, IsTrue, OnErr, length, slice_range};
ghost use Rattle.std.specs.Option.{option_map, unwrap_or};
ghost use Rattle.gc_bytes.specs.Text.{fields_for as fields_in, most_bytes, spelled};
ghost use Rattle.gc_graph.specs.Graph.{Ref, lookup, root};
ghost use Rattle.gc_graph.specs.declared.reply.Reply.{Reply};
ghost use Rattle.gc_heap.specs.Heap.{graph_in};
ghost use Rattle.gc_words.specs.Image.{header_at};
ghost use Rattle.gc_model.specs.State.{heap_end};
ghost use Rattle.gc_roots.specs.Twins.{AsksForLook};
ghost use Rattle.gc_collected.specs.Bytes.{bytes_in, join_step, part_step, text_in, text_of_object, write_step};
ghost use Rattle.gc_collected.specs.Numbers.{new_numbers_step};

use crate::barrier::reserve_in;
use crate::collected_heap::CollectedHeap;
use crate::numbers::{NumberRow, raw_object, write_numbers};
use gc_bytes::{
    ChangedWords, Text, changed_texts_are_read_again, fields_for, spelled_word,
    texts_are_read_again,
};
use gc_graph::{NoMemory, Reply};
use gc_heap::Heap;
use gc_words::{Addr, Header, OldAddr};

impl CollectedHeap {
    /// Returns the text that root `s` refers to, or `None` if it refers to no raw object, or to one whose words are no text.
    #[inline(always)]
    pub fn text_root(&self, s: u32) -> Option<Text<'_>>
        requires { s < length self.now.core.heap.graph.roots }
        ensures text { result ≡ text_in self.now.core.heap.graph s }
        ensures few { IfSome result (λ text. length text ≤ most_bytes) }
    {
        texts_are_read_again();
        Text::of(self.raw_numbers_root(s)?)
    }

    /// Makes a raw object of this kind, whose fields are a text with these bytes, and sets root `d` to a reference to it. This is a `new_raw_at_root`
    /// followed, in rising order, by mutator `m`'s `put_plain` for each word of the text, in one call. Returns `Made`, or `Full` if there is no room; then
    /// nothing has changed. Returns `NoMemory` only while a collection is open; the heap is then unchanged.
    pub fn new_bytes(&mut self, m: u8, d: u32, kind: u8, bytes: &[u8]) -> Result<Reply, NoMemory>
        requires mutator { m < self.old.core.mutators }
        requires object { d < length self.old.core.heap.graph.roots }
        requires few { length bytes.now ≤ most_bytes }
        ensures step { IfOk result (λ reply. new_numbers_step self.old.core m d kind (spelled bytes.now) ≡ (reply, self.new.core)) }
        ensures refused { OnErr result (self.new ≡ self.old) }
        ensures open { OnErr result (IsSome self.old.core.collection) }
        ensures mutators { self.new.core.mutators ≡ self.old.core.mutators }
        ensures beside { self.new.beside ≡ self.old.beside }
        ensures looks { IfOk result (λ reply. AsksForLook d self.old.roots_left self.new.roots_left) }
        ensures full { IfOk result (λ reply. reply ≡ Reply.Full → self.new.roots_left ≡ self.old.roots_left) }
    {
        self.is_sound();
        let text = Bytes { bytes };
        self.new_numbers(m, d, kind, &text)
    }

    /// Makes a raw object of this kind, whose fields are a text with the bytes of both roots' texts, one behind the other, and sets root `d` to a reference to
    /// it. Returns what `new_bytes` does, or `NoObject`, and then nothing has changed, if one of both roots refers to no text.
    pub fn join_bytes(&mut self, m: u8, d: u32, kind: u8, s: u32, t: u32) -> Result<Reply, NoMemory>
        requires mutator { m < self.old.core.mutators }
        requires object { d < length self.old.core.heap.graph.roots }
        requires one { s < length self.old.core.heap.graph.roots }
        requires other { t < length self.old.core.heap.graph.roots }
        requires few { length (bytes_in self.old.core.heap.graph s) + length (bytes_in self.old.core.heap.graph t) ≤ most_bytes }
        ensures step { IfOk result (λ reply. join_step self.old.core m d kind s t ≡ (reply, self.new.core)) }
        ensures refused { OnErr result (self.new ≡ self.old) }
        ensures open { OnErr result (IsSome self.old.core.collection) }
        ensures mutators { self.new.core.mutators ≡ self.old.core.mutators }
        ensures beside { self.new.beside ≡ self.old.beside }
        ensures looks { IfOk result (λ reply. AsksForLook d self.old.roots_left self.new.roots_left) }
    {
        let Some(one) = self.placed_text(s) else {
            return Ok(Reply::NoObject);
        };
        let Some(other) = self.placed_text(t) else {
            return Ok(Reply::NoObject);
        };
        let both = Joined { one, other };
        self.new_numbers(m, d, kind, &both)
    }

    /// Makes a raw object of this kind, whose fields are a text with `count` bytes of the text that root `s` refers to, from byte `at` on, and sets root `d` to
    /// a reference to it. Returns what `new_bytes` does. Or nothing is changed, and the reply is `NoObject` where root `s` refers to no text, or `NoField`
    /// where the text has fewer bytes.
    pub fn part_bytes(
        &mut self,
        m: u8,
        d: u32,
        kind: u8,
        s: u32,
        at: u32,
        count: u32,
    ) -> Result<Reply, NoMemory>
        requires mutator { m < self.old.core.mutators }
        requires object { d < length self.old.core.heap.graph.roots }
        requires source { s < length self.old.core.heap.graph.roots }
        ensures step { IfOk result (λ reply. part_step self.old.core m d kind s at count ≡ (reply, self.new.core)) }
        ensures refused { OnErr result (self.new ≡ self.old) }
        ensures open { OnErr result (IsSome self.old.core.collection) }
        ensures mutators { self.new.core.mutators ≡ self.old.core.mutators }
        ensures beside { self.new.beside ≡ self.old.beside }
        ensures looks { IfOk result (λ reply. AsksForLook d self.old.roots_left self.new.roots_left) }
    {
        let Some(text) = self.placed_text(s) else {
            return Ok(Reply::NoObject);
        };
        if at as usize + count as usize > text.count {
            return Ok(Reply::NoField);
        }
        let part = Part {
            text,
            at: at as usize,
            count: count as usize,
        };
        self.new_numbers(m, d, kind, &part)
    }

    /// Writes these bytes over those of the text that root `s` refers to, from byte `at` on. This is mutator `m`'s `put_plain` for each word of the text that
    /// changes, in rising order: the words from that of the first byte to that of the last one. The text keeps its length. Returns `Done`. Or nothing is
    /// changed, and the reply is `NoObject` where root `s` refers to no text, or `NoField` where the text has fewer bytes. While a collection is open, each
    /// word is logged (the write barrier). Only then can the call return `NoMemory`, and the heap is unchanged.
    pub fn write_bytes(&mut self, m: u8, s: u32, at: u32, bytes: &[u8]) -> Result<Reply, NoMemory>
        requires mutator { m < self.old.core.mutators }
        requires object { s < length self.old.core.heap.graph.roots }
        ensures step { IfOk result (λ reply. write_step self.old.core m s at bytes.now ≡ (reply, self.new.core)) }
        ensures refused { OnErr result (self.new ≡ self.old) }
        ensures open { OnErr result (IsSome self.old.core.collection) }
        ensures mutators { self.new.core.mutators ≡ self.old.core.mutators }
        ensures beside { self.new.beside ≡ self.old.beside }
        ensures looks { IfOk result (λ _. self.new.roots_left ≡ self.old.roots_left) }
    {
        // Here the prover learns that the heap is sound.
        let _ = self.heap.space();
        let Some((object, header, text)) = text_object(&self.heap, s) else {
            return Ok(Reply::NoObject);
        };
        let at = at as usize;
        if at > text.len() || bytes.len() > text.len() - at {
            return Ok(Reply::NoField);
        }
        if bytes.is_empty() {
            return Ok(Reply::Done);
        }
        changed_texts_are_read_again();
        let words = text.changed_by(at, bytes);
        reserve_in(&mut self.collection, m, words.count())?;
        write_numbers(
            &mut self.collection,
            &mut self.heap,
            &mut self.watch,
            m,
            s,
            object,
            header,
            (at / 7) as u16,
            &words,
        );
        Ok(Reply::Done)
    }

    // Returns where the text lies that root `s` refers to, and how many bytes it has.
    fn placed_text(&self, s: u32) -> Option<PlacedText>
        requires { s < length self.now.core.heap.graph.roots }
        ensures counted { option_map (λ t. t.count) result ≡ option_map length (text_in self.now.core.heap.graph s) }
        ensures name { IfSome result (λ t. root self.now.core.heap.graph s ≡ Ref t.object.0) }
        ensures apart { IfSome result (λ t. t.object.0 ≢ heap_end self.now.core) }
        ensures few { IfSome result (λ t. t.count ≤ most_bytes) }
    {
        self.is_sound();
        let text = self.text_root(s)?;
        let object = self.address_root(s)?;
        Some(PlacedText {
            object,
            count: text.len(),
        })
    }
}

// The words of a text with these bytes.
#[derive(Drop)]
struct Bytes<'a> {
    bytes: &'a [u8],
}

impl NumberRow for Bytes<'_> {
    ghost names = { λ row. (0, 0) };

    ghost is_row = { λ row sources. length row.bytes.now ≤ most_bytes };

    ghost numbers = { λ row sources. spelled row.bytes.now };

    #[inline(always)]
    fn count(&self) -> u16 {
        texts_are_read_again();
        fields_for(self.bytes.len()) as u16
    }

    #[inline(always)]
    fn number(&self, heap: &Heap, i: u16) -> u64 {
        texts_are_read_again();
        spelled_word(self.bytes, usize::from(i))
    }
}

impl NumberRow for ChangedWords<'_> {
    ghost names = { λ row. (0, 0) };

    ghost is_row = { λ row sources. length row ≤ 65535 };

    ghost numbers = { λ row sources. row };

    #[inline(always)]
    fn count(&self) -> u16 {
        self.count() as u16
    }

    #[inline(always)]
    fn number(&self, heap: &Heap, i: u16) -> u64 {
        self.word(usize::from(i))
    }
}

// A text that is found: the address of its object, its header, and its bytes.
type FoundText<'a> = (OldAddr, Header, Text<'a>);

// Returns the text that root `s` refers to, with its object.
#[inline(always)]
fn text_object(heap: &Heap, s: u32) -> Option<FoundText<'_>>
    requires { s < length heap.now.roots }
    ensures text { option_map (λ found. found.2) result ≡ text_in (graph_in heap.now) s }
    ensures target { IfSome result (λ found. root (graph_in heap.now) s ≡ Ref found.0.0) }
    ensures header { IfSome result (λ found. header_at heap.now.space.words found.0.0 ≡ Some found.1) }
    ensures raw { IfSome result (λ found. IsTrue found.1.raw) }
    ensures long { IfSome result (λ found. fields_in (length found.2) ≡ found.1.len) }
    ensures apart { IfSome result (λ found. 0 ≢ found.0.0) }
{
    changed_texts_are_read_again();
    let (object, header, words) = raw_object(heap, s)?;
    let text = Text::of(words)?;
    Some((object, header, text))
}

// Where a text lies, and how many bytes it has.
#[derive(Clone, Copy, Drop)]
struct PlacedText {
    object: OldAddr,
    count: usize,
}

// Returns the text that lies there.
#[inline(always)]
fn text_at(heap: &Heap, text: PlacedText) -> Text<'_>
    requires { option_map length (text_of_object (lookup (graph_in heap.now).objects text.object.0)) ≡ Some text.count }
    ensures { Some result ≡ text_of_object (lookup (graph_in heap.now).objects text.object.0) }
{
    let at = Addr(text.object.0);
    // Here the prover learns that the heap is sound, and that an object has few fields.
    let _ = heap.space().header(at);
    Text::with_length(heap.space().fields(at), text.count)
}

// The words of a text that has the bytes of two others, one behind the other.
#[derive(Drop)]
struct Joined {
    one: PlacedText,
    other: PlacedText,
}

impl NumberRow for Joined {
    ghost names = { λ row. (row.one.object.0, row.other.object.0) };

    ghost is_row = { λ row sources. (option_map length (text_of_object sources.0) ≡ Some row.one.count)
        × (option_map length (text_of_object sources.1) ≡ Some row.other.count) × (row.one.count + row.other.count ≤ most_bytes) };

    ghost numbers = { λ row sources. spelled (unwrap_or (text_of_object sources.0) [] ++ unwrap_or (text_of_object sources.1) []) };

    #[inline(always)]
    fn count(&self) -> u16 {
        texts_are_read_again();
        fields_for(self.one.count + self.other.count) as u16
    }

    #[inline(always)]
    fn number(&self, heap: &Heap, i: u16) -> u64 {
        texts_are_read_again();
        text_at(heap, self.one).joined_word(&text_at(heap, self.other), usize::from(i))
    }
}

// The words of a text that has some bytes of another one.
#[derive(Drop)]
struct Part {
    text: PlacedText,
    at: usize,
    count: usize,
}

impl NumberRow for Part {
    ghost names = { λ row. (row.text.object.0, row.text.object.0) };

    ghost is_row = { λ row sources. (option_map length (text_of_object sources.0) ≡ Some row.text.count)
        × (row.at + row.count ≤ row.text.count) × (row.text.count ≤ most_bytes) };

    ghost numbers = { λ row sources. spelled (slice_range (unwrap_or (text_of_object sources.0) []) row.at (row.at + row.count)) };

    #[inline(always)]
    fn count(&self) -> u16 {
        texts_are_read_again();
        fields_for(self.count) as u16
    }

    #[inline(always)]
    fn number(&self, heap: &Heap, i: u16) -> u64 {
        texts_are_read_again();
        text_at(heap, self.text).part_word(self.at, self.count, usize::from(i))
    }
}
