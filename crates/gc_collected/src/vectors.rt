//! Vectors of 64-bit words in raw objects, by places and through no root.

ghost use Rattle.std.specs.Prelude.{ℕ, ◌≡◌, ◌≢◌, ◌<◌, ◌≤◌, ◌+◌, Some, IfOk, IsSome, IsTrue, OnErr, length, map};
ghost use Rattle.gc_bytes.specs.Vector.{low_bits};
ghost use Rattle.gc_graph.specs.Graph.{Ref, root};
ghost use Rattle.gc_heap.specs.Heap.{graph_in};
ghost use Rattle.gc_words.specs.Image.{header_at};
ghost use Rattle.gc_collected.specs.Vectors.{row_put, write_words_step};
ghost use Rattle.gc_collected.specs.Internal.CollectedHeap.{BelongsIfOpen, Fits, HasSpare, state_in};
ghost use Rattle.gc_collected.specs.Internal.Follows.{Follows};

use crate::barrier::reserve_in;
use crate::collected_heap::CollectedHeap;
use crate::numbers::{NumberRow, raw_object, write_numbers};
use gc_bytes::{ChangedTops, changed_tops, changed_vectors_are_read_again, first_top, words_in};
use gc_copy::Collection;
use gc_graph::{NoMemory, Reply};
use gc_heap::Heap;
use gc_monitor::Monitor;
use gc_words::{Header, OldAddr};

impl CollectedHeap {
    /// Writes these words over those of the vector that root `s` refers to, from word `at` on. This is mutator `m`'s `put_plain` for each field that changes:
    /// in rising order those of the words, and then those with their top bits. Returns `Done`. Or nothing is changed, and the reply is `NoObject` where root
    /// `s` refers to no raw object, or `NoField` where the vector has fewer words. While a collection is open, each field is logged (the write barrier). Only
    /// then can the call return `NoMemory`, and the heap is unchanged.
    pub fn write_words(&mut self, m: u8, s: u32, at: u32, words: &[u64]) -> Result<Reply, NoMemory>
        requires mutator { m < self.old.core.mutators }
        requires object { s < length self.old.core.heap.graph.roots }
        ensures step { IfOk result (λ reply. write_words_step self.old.core m s at words.now ≡ (reply, self.new.core)) }
        ensures refused { OnErr result (self.new ≡ self.old) }
        ensures open { OnErr result (IsSome self.old.core.collection) }
        ensures mutators { self.new.core.mutators ≡ self.old.core.mutators }
        ensures beside { self.new.beside ≡ self.old.beside }
        ensures looks { IfOk result (λ _. self.new.roots_left ≡ self.old.roots_left) }
    {
        // Here the prover learns that the heap is sound.
        let _ = self.heap.space();
        let Some((object, header, fields)) = raw_object(&self.heap, s) else {
            return Ok(Reply::NoObject);
        };
        let at = at as usize;
        let count = words_in(fields.len());
        if at > count || words.len() > count - at {
            return Ok(Reply::NoField);
        }
        if words.is_empty() {
            return Ok(Reply::Done);
        }
        changed_vectors_are_read_again();
        let lows = LowBits { words };
        let first = first_top(fields, at);
        let tops = changed_tops(fields, at, words);
        reserve_in(&mut self.collection, m, words.len() + tops.count())?;
        write_rows(
            &mut self.collection,
            &mut self.heap,
            &mut self.watch,
            m,
            s,
            object,
            header,
            at as u16,
            &lows,
            first as u16,
            &tops,
        );
        Ok(Reply::Done)
    }
}

// Writes both rows of numbers to the fields of the raw object in root `s`: the first one from field `at` on, and then the other one from field `first` on. If a
// collection is open, the log needs room for each field.
fn write_rows(
    collection: &mut Option<Collection>,
    heap: &mut Heap,
    watch: &mut Monitor,
    m: u8,
    s: u32,
    object: OldAddr,
    header: Header,
    at: u16,
    lows: &LowBits<'_>,
    first: u16,
    tops: &ChangedTops<'_>,
)
    requires belongs { BelongsIfOpen heap.old collection.old }
    requires mutator { m < heap.old.mutators }
    requires root { s < length heap.old.roots }
    requires target { root (graph_in heap.old) s ≡ Ref object.0 }
    requires header { header_at heap.old.space.words object.0 ≡ Some header }
    requires raw { IsTrue header.raw }
    requires apart { 0 ≢ object.0 }
    requires lows { at + length lows.now.words.now ≤ header.len }
    requires tops { first + length tops.now ≤ header.len }
    requires room { HasSpare collection.old m (length lows.now.words.now + length tops.now) }
    ensures step { row_put (row_put (state_in heap.old collection.old) m s at (map low_bits lows.now.words.now)) m s first tops.now
        ≡ state_in heap.new collection.new }
    ensures fits { (epoch : ℕ) → Fits epoch heap.old collection.old → Fits epoch heap.new collection.new }
    ensures mutators { heap.new.mutators ≡ heap.old.mutators }
    ensures follows { Follows (state_in heap.old collection.old) watch.old → Follows (state_in heap.new collection.new) watch.new }
{
    write_numbers(collection, heap, watch, m, s, object, header, at, lows);
    write_numbers(collection, heap, watch, m, s, object, header, first, tops);
}

// The low 63 bits of words.
#[derive(Drop)]
struct LowBits<'a> {
    words: &'a [u64],
}

impl NumberRow for LowBits<'_> {
    ghost names = { λ row. (0, 0) };

    ghost is_row = { λ row sources. length row.words.now ≤ 65535 };

    ghost numbers = { λ row sources. map low_bits row.words.now };

    #[inline(always)]
    fn count(&self) -> u16 {
        self.words.len() as u16
    }

    #[inline(always)]
    fn number(&self, heap: &Heap, i: u16) -> u64 {
        self.words[usize::from(i)] % (1 << 63)
    }
}

impl NumberRow for ChangedTops<'_> {
    ghost names = { λ row. (0, 0) };

    ghost is_row = { λ row sources. length row ≤ 65535 };

    ghost numbers = { λ row sources. row };

    #[inline(always)]
    fn count(&self) -> u16 {
        self.count() as u16
    }

    #[inline(always)]
    fn number(&self, heap: &Heap, i: u16) -> u64 {
        self.field(usize::from(i))
    }
}
