//! A mutator with its roots. It makes objects and writes fields.
ghost use Rattle.std.specs.Prelude.{◌≡◌, ◌+◌, ◌-◌, ◌*◌, ◌^◌, ◌<◌, ◌≤◌, true, false, [], ◌∷◌, length, suc};
ghost use Rattle.gc_words.specs.Space.{end_of};
ghost use Rattle.gc_heap.specs.Heap.{IsHeap, graph_in};
ghost use Rattle.gc_model.specs.Carried.{LeadsOnlyTo};
ghost use Rattle.gc_concurrent.specs.Unreachable.{MayBeCopied};
ghost use Rattle.gc_concurrent.specs.Heaps.{heap_of};
ghost use Rattle.gc_concurrent.specs.Internal.Props.{heap_prop, leads_prop};

use crate::moves::Moves;
use crate::mutator::Mutator;
use gc_graph::{NoMemory, Reply, object_words};
use gc_words::{Addr, Header, Value, encode, target_of, value_in};

/// A mutator with its roots.
#[derive(Drop)]
pub struct Commander {
    pub mutator: Mutator,
    pub roots: Vec<u64>,
    pub(crate) end: u32,
    pub moves: Moves,
    ghost ended: { length mutator.seat.me.0.mine.space.words ≡ end },
    ghost sound: { IsHeap (heap_of mutator.seat.me.0.mine roots.items) } by { heap_prop (heap_of mutator.seat.me.0.mine roots.items) },
    ghost behind: { end_of mutator.seat.me.0.mine.base.heap.space ≤ end },
    ghost leads: { LeadsOnlyTo (MayBeCopied mutator.seat.me.0.mine.base) (graph_in (heap_of mutator.seat.me.0.mine roots.items)) } by { leads_prop mutator.seat.me.0.mine.base _ },
}

fn header_of(raw: bool, kind: u8, len: u16) -> Header
    ensures { result ≡ record { raw = raw; kind = kind; len = len } }
{
    if raw {
        Header::new_raw(kind, len)
    } else {
        Header::new(kind, len)
    }
}

ghost use Rattle.std.specs.Prelude.{ℕ, List, IsTrue, IfSome, is_none, not, ◌&&◌};
ghost use Rattle.gc_graph.specs.Graph.{Num};
ghost use Rattle.gc_graph.specs.Machine.{is_number};
ghost use Rattle.gc_words.specs.Word.{is_value, value_of, field_value};
ghost use Rattle.gc_words.specs.Closed.{IsRootWord, IsFieldWord};

/// Returns the number that this word means, if it means one.
pub(crate) fn number_of(word: u64) -> Option<u64>
    requires { IsTrue (is_value word) }
    ensures refused { is_none result ≡ not (is_number (value_of word)) }
    ensures value { IfSome result (λ n. Num n ≡ value_of word) }
    ensures bound { IfSome result (λ n. n < 2 ^ 63) }
{
    match value_in(word) {
        Value::Num(n) => Some(n.get()),
        _ => None,
    }
}

fn field_word(header: Header, word: u64) -> Option<u64>
    requires { IsTrue (is_value word) }
    ensures refused { is_none result ≡ (header.raw && not (is_number (value_of word))) }
    ensures value { IfSome result (λ field. field_value header field ≡ value_of word) }
    ensures word { IfSome result (λ field. (words : List ℕ) → IsRootWord words word → IsFieldWord words header field) }
{
    if header.is_raw() {
        number_of(word)
    } else {
        Some(word)
    }
}

impl Commander {
    ghost use Rattle.gc_concurrent.specs.Holders.{beginning_of, cells_of, heap_in, log_length, logs_writes, moves_in};
    ghost use Rattle.gc_concurrent.specs.Internal.LogRoom.{HasLogRoom};
    ghost use Rattle.gc_model.specs.Belonging.{RefersTo};
    ghost use Rattle.std.specs.Prelude.{OnOk, OnErr};
    ghost use Rattle.gc_graph.specs.Graph.{object_of, field_of, root};
    ghost use Rattle.gc_graph.specs.Machine.{put_field};
    ghost use Rattle.gc_graph.proofs.Public.{make_object};
    ghost use Rattle.gc_heap.specs.Heap.{roomy_in};

    /// Returns the number of free words.
    pub fn room(&self) -> u32
        ensures { result ≡ (roomy_in (heap_in self.now)).free }
    {
        self.mutator.size - self.end
    }

    /// Makes a new object and sets a root to a reference to it, if there is room.
    #[tactic(auto, using(gc_heap::proofs::Public::made))]
    pub(crate) fn make(&mut self, place: usize, raw: bool, kind: u8, len: u16) -> Reply
        requires { place < length self.old.roots.items }
        ensures step { (result, roomy_in (heap_in self.new)) ≡ make_object (roomy_in (heap_in self.old)) place raw kind len (end_of (heap_in self.old).space) }
        ensures log { log_length self.new ≡ log_length self.old }
        ensures cells { cells_of self.new ≡ cells_of self.old }
        ensures moves { moves_in self.new ≡ moves_in self.old }
        ensures begun { beginning_of self.new ≡ beginning_of self.old }
        ensures room { (n : ℕ) → HasLogRoom n self.old → HasLogRoom n self.new }
        ensures roots { length self.new.roots.items ≡ length self.old.roots.items }
    {
        if object_words(len) > self.mutator.size - self.end {
            return Reply::Full;
        }
        let at = self.mutator.place(self.end, header_of(raw, kind, len));
        self.end += object_words(len);
        self.roots[place] = encode(Value::Ref(at));
        Reply::Made
    }

    /// Makes room in the log for `more` entries, once the collector has begun to copy.
    pub(crate) fn reserve(&mut self, more: usize) -> Result<(), NoMemory>
        ensures room { OnOk result (HasLogRoom more self.new) }
        ensures logs { OnErr result (logs_writes self.old ≡ true) }
        ensures heap { heap_in self.new ≡ heap_in self.old }
        ensures log { log_length self.new ≡ log_length self.old }
        ensures cells { cells_of self.new ≡ cells_of self.old }
        ensures moves { moves_in self.new ≡ moves_in self.old }
        ensures begun { beginning_of self.new ≡ beginning_of self.old }
    {
        self.mutator.reserve(more)
    }

    /// Writes a value to field `i` of the object that root `s` refers to. `reserve` has made room for the entry.
    pub(crate) fn write(&mut self, s: usize, i: u16, value: u64) -> Reply
        requires room { HasLogRoom 1 self.old }
        requires target { s < length self.old.roots.items }
        requires word { IsRootWord self.old.mutator.seat.me.0.mine.space.words value }
        requires allowed { RefersTo (MayBeCopied self.old.mutator.seat.me.0.mine.base) (value_of value) }
        ensures graph { let g = graph_in (heap_in self.old) in let object = object_of g.objects (root g s) in
            (result, graph_in (heap_in self.new)) ≡ put_field g (root g s) object (field_of object i) i (value_of value) }
        ensures end { (length (heap_in self.new).space.words ≡ length (heap_in self.old).space.words) × ((heap_in self.new).space.size ≡ (heap_in self.old).space.size) }
        ensures room { (n : ℕ) → HasLogRoom (suc n) self.old → HasLogRoom n self.new }
        ensures roots { self.new.roots.items ≡ self.old.roots.items }
        ensures log { log_length self.new ≤ log_length self.old + 1 }
        ensures cells { cells_of self.new ≡ cells_of self.old }
        ensures moves { moves_in self.new ≡ moves_in self.old }
        ensures begun { beginning_of self.new ≡ beginning_of self.old }
    {
        let target = self.roots[s];
        let Some(at) = target_of(target) else {
            return Reply::NoObject;
        };
        let header = self.mutator.header(at);
        if i >= header.len() {
            return Reply::NoField;
        }
        let Some(word) = field_word(header, value) else {
            return Reply::NoNumber;
        };
        self.mutator.set_field(at, i, word);
        Reply::Done
    }

    /// Writes the value of root `t` to field `i` of the object that root `s` refers to. `reserve` has made room for the entry.
    pub(crate) fn put(&mut self, s: usize, i: u16, t: usize) -> Reply
        requires room { HasLogRoom 1 self.old }
        requires target { s < length self.old.roots.items }
        requires giver { t < length self.old.roots.items }
        ensures graph { let g = graph_in (heap_in self.old) in let object = object_of g.objects (root g s) in
            (result, graph_in (heap_in self.new)) ≡ put_field g (root g s) object (field_of object i) i (root g t) }
        ensures end { (length (heap_in self.new).space.words ≡ length (heap_in self.old).space.words) × ((heap_in self.new).space.size ≡ (heap_in self.old).space.size) }
        ensures room { (n : ℕ) → HasLogRoom (suc n) self.old → HasLogRoom n self.new }
        ensures roots { self.new.roots.items ≡ self.old.roots.items }
        ensures log { log_length self.new ≤ log_length self.old + 1 }
        ensures cells { cells_of self.new ≡ cells_of self.old }
        ensures moves { moves_in self.new ≡ moves_in self.old }
        ensures begun { beginning_of self.new ≡ beginning_of self.old }
    {
        let value = self.roots[t];
        self.write(s, i, value)
    }
}
