//! Fills the fields of a new object, and those of a raw one, and writes a field of an object whose header is known.

ghost use Rattle.std.specs.Prelude.{◌≡◌, ◌<◌, ◌≤◌, ◌+◌, ◌^◌, ℕ, IsTrue, length, Some};
ghost use Rattle.std.specs.List.{All};
ghost use Rattle.gc_graph.specs.Graph.{Ref, object_of, field_of, root};
ghost use Rattle.gc_graph.specs.Machine.{put_field};
ghost use Rattle.gc_graph.specs.declared.command.Op.{Op};
ghost use Rattle.gc_heap.specs.Heap.{IsHeap, KeepsLinks, graph_in};
ghost use Rattle.gc_heap.specs.Commands.{Performs};
ghost use Rattle.gc_words.specs.Closed.{IsFieldWord};
ghost use Rattle.gc_words.specs.Image.{header_at};
ghost use Rattle.gc_words.specs.Word.{field_value};
ghost use Rattle.gc_words.specs.declared.header.Header.{Header};
ghost use Rattle.gc_heap.specs.Filling.{PutsAll, PutsValue, TakesFields, numbered};
ghost use Rattle.gc_heap.specs.Places.{root_at};

use super::Heap;
use gc_graph::Reply;
use gc_words::{Addr, Header, OldAddr};

impl Heap {
    /// Performs a `Put` of root `t` into field `i` of the object that root `d` refers to. The object is known to take it, so neither root `d` nor the
    /// object is read, and the reply is `Done`.
    #[inline(always)]
    pub fn fill_root(&mut self, d: u32, object: OldAddr, i: u16, t: u32) -> Reply
        requires giver { t < length self.old.roots }
        requires field { (len : ℕ) × TakesFields self.old d object.0 len × (i < len) }
        ensures done { result ≡ Reply.Done }
        ensures performs { (m : ℕ) → Performs self.old m (Op.Put (root_at d) i (root_at t)) result self.new }
        ensures roots { self.new.roots ≡ self.old.roots }
        ensures fields { (len : ℕ) → TakesFields self.old d object.0 len → TakesFields self.new d object.0 len }
        ensures sound { IsHeap self.new }
    {
        self.fill_at(d as usize, object, i, t as usize)
    }

    // Writes the value of root `t` to field `i` of the object that root `s` refers to, and does not read root `s`.
    #[inline(always)]
    fn fill_at(&mut self, s: usize, object: OldAddr, i: u16, t: usize) -> Reply
        requires giver { t < length self.old.roots }
        requires field { (len : ℕ) × TakesFields self.old s object.0 len × (i < len) }
        ensures done { result ≡ Reply.Done }
        ensures graph { let object = object_of (graph_in self.old).objects (root (graph_in self.old) s) in
            (result, graph_in self.new) ≡ put_field (graph_in self.old) (root (graph_in self.old) s) object (field_of object i) i (root (graph_in self.old) t) }
        ensures links { KeepsLinks self.old.space.words self.new.space.words }
        ensures end { length self.new.space.words ≡ length self.old.space.words }
        ensures size { self.new.space.size ≡ self.old.space.size }
        ensures mutators { self.new.mutators ≡ self.old.mutators }
        ensures roots { self.new.roots ≡ self.old.roots }
        ensures fields { (len : ℕ) → TakesFields self.old s object.0 len → TakesFields self.new s object.0 len }
        ensures sound { IsHeap self.new }
    {
        self.space.set_field(Addr(object.0), i, self.roots[t]);
        Reply::Done
    }

    /// Writes this word to field `i` of the object that root `p` refers to and that has this header, and reads neither. This is a `Put` of a root with the
    /// same value, whose reply is `Done`, but no root has to hold the value.
    #[inline(always)]
    pub fn put_word(&mut self, p: u32, object: OldAddr, header: Header, i: u16, word: u64)
        requires target { root (graph_in self.old) p ≡ Ref object.0 }
        requires header { header_at self.old.space.words object.0 ≡ Some header }
        requires field { i < header.len }
        requires word { IsFieldWord self.old.space.words header word }
        ensures puts { PutsValue self.old p i (field_value header word) self.new }
        ensures headers { (a : ℕ) (h : Header) → header_at self.old.space.words a ≡ Some h → header_at self.new.space.words a ≡ Some h }
        ensures words { (h : Header) (w : ℕ) → IsFieldWord self.old.space.words h w → IsFieldWord self.new.space.words h w }
        ensures sound { IsHeap self.new }
    {
        // Here the prover learns that the heap is sound.
        let _ = &self.roots;
        self.space.set_field(Addr(object.0), i, word);
    }

    /// Writes these numbers to the fields, from field `first` on, of the raw object that root `p` refers to and that has this header, and reads neither. In
    /// rising order, this is a `Put` for each number, of a root that holds it, whose reply is `Done`, but no root has to hold the number.
    #[inline(always)]
    pub fn put_numbers(
        &mut self,
        p: u32,
        object: OldAddr,
        header: Header,
        first: u16,
        numbers: &[u64],
    )
        requires target { root (graph_in self.old) p ≡ Ref object.0 }
        requires header { header_at self.old.space.words object.0 ≡ Some header }
        requires raw { IsTrue header.raw }
        requires fields { first + length numbers.now ≤ header.len }
        requires numbers { All (λ n. n < 2 ^ 63) numbers.now }
        ensures puts { PutsAll self.old p (numbered first numbers.now) self.new }
        ensures roots { self.new.roots ≡ self.old.roots }
        ensures header { header_at self.new.space.words object.0 ≡ Some header }
        ensures sound { IsHeap self.new }
    {
        // Here the prover learns that the heap is sound.
        let _ = &self.roots;
        self.space.set_fields(Addr(object.0), first, numbers);
    }
}
