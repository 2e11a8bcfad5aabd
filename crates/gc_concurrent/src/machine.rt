//! Any command of gc_graph's machine, and what the commands on roots by their places stand on.
ghost use Rattle.std.specs.Prelude.{◌≡◌, ℕ, List, true, ◌<◌, ◌≤◌, ◌+◌, ◌*◌, ◌^◌, length, slice_set, Some, None, IfOk, IfErr, OnErr, if◌then◌else◌};
ghost use Rattle.gc_graph.specs.Graph.{object_of, field_of, root};
ghost use Rattle.gc_graph.specs.Machine.{get_field, view_of, same as same_in};
ghost use Rattle.gc_graph.specs.Slots.{place as slot_place, roots_of};
ghost use Rattle.gc_words.specs.Word.{value_of, field_value};
ghost use Rattle.gc_words.specs.Image.{objects_of};
ghost use Rattle.gc_words.specs.Closed.{IsRootWord, IsFieldWord};
ghost use Rattle.gc_words.specs.declared.header.Header.{Header};
ghost use Rattle.gc_heap.specs.Heap.{graph_in};
ghost use Rattle.gc_model.specs.Steps.{WritesField};
ghost use Rattle.gc_model.specs.Belonging.{RefersTo};
ghost use Rattle.gc_concurrent.specs.Unreachable.{MayBeCopied};
ghost use Rattle.gc_concurrent.specs.Holders.{beginning_of, cells_of, heap_in, log_length, logs_writes, moves_in};
ghost use Rattle.gc_concurrent.specs.Internal.LogRoom.{HasLogRoom};
ghost use Rattle.gc_concurrent.specs.Bulk.{object_of_root};
ghost use Rattle.gc_concurrent.specs.Internal.Shapes.{GetsField};
ghost use Rattle.gc_concurrent.specs.Logging.{writes_of};
ghost use Rattle.gc_concurrent.specs.Machines.{Does};

use crate::commands::Commander;
use gc_graph::{NoMemory, Op, Reply, Slot, View};
use gc_words::{Header, Value, encode, target_of, value_in};

/// Returns the root word of the same value as this field word of an object with this header.
pub(crate) fn root_word(header: Header, field: u64) -> u64
    requires { header.raw ≡ true → field < 2 ^ 63 }
    ensures value { value_of result ≡ field_value header field }
    ensures word { (words : List ℕ) → IsFieldWord words header field → IsRootWord words result }
{
    if header.is_raw() {
        2 * field + 1
    } else {
        field
    }
}

// The place of the one mutator's slot in the list of roots.
fn place_of(slot: Slot) -> u32
    ensures place { result ≡ slot_place slot 0 }
    ensures slot { result < roots_of 1 }
{
    slot.place(0) as u32
}

impl Commander {
    /// Writes a word into a root.
    pub(crate) fn set_at(&mut self, place: usize, word: u64) -> Reply
        requires root { place < length self.old.roots.items }
        requires word { IsRootWord self.old.mutator.seat.me.0.mine.space.words word }
        requires allowed { RefersTo (MayBeCopied self.old.mutator.seat.me.0.mine.base) (value_of word) }
        ensures done { result ≡ Reply.Done }
        ensures heap { heap_in self.new ≡ record (heap_in self.old) { roots = slice_set self.old.roots.items place word } }
        ensures log { log_length self.new ≡ log_length self.old }
        ensures cells { cells_of self.new ≡ cells_of self.old }
        ensures moves { moves_in self.new ≡ moves_in self.old }
        ensures begun { beginning_of self.new ≡ beginning_of self.old }
    {
        self.roots[place] = word;
        Reply::Done
    }

    /// Returns what mutators see of the value of a word.
    pub(crate) fn view(&mut self, word: u64) -> View
        requires { IsRootWord self.old.mutator.seat.me.0.mine.space.words word }
        ensures value { result ≡ view_of (objects_of self.old.mutator.seat.me.0.mine.space.words) (value_of word) }
        ensures heap { heap_in self.new ≡ heap_in self.old }
        ensures base { self.new.mutator.seat.me.0.mine.base ≡ self.old.mutator.seat.me.0.mine.base }
        ensures log { log_length self.new ≡ log_length self.old }
        ensures cells { cells_of self.new ≡ cells_of self.old }
        ensures moves { moves_in self.new ≡ moves_in self.old }
    {
        match value_in(word) {
            Value::Nil => View::Nil,
            Value::Num(n) => View::Num(n),
            Value::Ref(at) => {
                let header = self.mutator.header(at);
                let kind = header.kind();
                let len = header.len();
                if header.is_raw() {
                    View::RawObj { kind, len }
                } else {
                    View::Obj { kind, len }
                }
            }
        }
    }

    // Whether two roots hold the same value. Equal values have equal words.
    #[tactic(auto, using(gc_heap::proofs::Public::read_root, gc_heap::proofs::Public::root_word, gc_heap::proofs::Public::same_words, gc_heap::proofs::Public::at_root, gc_heap::proofs::Public::other_words))]
    pub(crate) fn same_at(&self, s: usize, t: usize) -> Reply
        requires one { s < length self.now.roots.items }
        requires other { t < length self.now.roots.items }
        ensures { result ≡ (if same_in (graph_in (heap_in self.now)).objects (root (graph_in (heap_in self.now)) s) (root (graph_in (heap_in self.now)) t) then Reply.Yes else Reply.No) }
    {
        if self.roots[s] == self.roots[t] {
            Reply::Yes
        } else {
            Reply::No
        }
    }

    /// Reads field `i` of the object that root `s` refers to, as a word that a root can hold. If it is not there, returns the reply that says so.
    #[inline(always)]
    pub(crate) fn fetched(&mut self, s: usize, i: u16) -> Result<u64, Reply>
        requires giver { s < length self.old.roots.items }
        ensures value { IfOk result (λ word. field_of (object_of_root (heap_in self.old) s) i ≡ Some (value_of word)) }
        ensures word { IfOk result (λ word. IsRootWord self.old.mutator.seat.me.0.mine.space.words word) }
        ensures allowed { IfOk result (λ word. RefersTo (MayBeCopied self.old.mutator.seat.me.0.mine.base) (value_of word)) }
        ensures none { IfErr result (λ reply. field_of (object_of_root (heap_in self.old) s) i ≡ None) }
        // What a `Get` into root `d` would do.
        ensures got { IfOk result (λ word. (d : ℕ) → GetsField (heap_in self.old) d s i (Reply.Saw (view_of (graph_in (heap_in self.old)).objects (value_of word))) (record (heap_in self.old) { roots = slice_set self.old.roots.items d word })) }
        ensures missed { IfErr result (λ reply. (d : ℕ) → GetsField (heap_in self.old) d s i reply (heap_in self.old)) }
        ensures heap { heap_in self.new ≡ heap_in self.old }
        ensures base { self.new.mutator.seat.me.0.mine.base ≡ self.old.mutator.seat.me.0.mine.base }
        ensures room { (n : ℕ) → HasLogRoom n self.old → HasLogRoom n self.new }
        ensures logs { logs_writes self.new ≡ logs_writes self.old }
        ensures log { log_length self.new ≡ log_length self.old }
        ensures cells { cells_of self.new ≡ cells_of self.old }
        ensures moves { moves_in self.new ≡ moves_in self.old }
    {
        let target = self.roots[s];
        let Some(at) = target_of(target) else {
            return Err(Reply::NoObject);
        };
        let header = self.mutator.header(at);
        if i >= header.len() {
            return Err(Reply::NoField);
        }
        let field = self.mutator.field(at, i);
        Ok(root_word(header, field))
    }

    // Sets root `d` to field `i` of the object that root `s` refers to.
    pub(crate) fn get_at(&mut self, d: usize, s: usize, i: u16) -> Reply
        requires taker { d < length self.old.roots.items }
        requires giver { s < length self.old.roots.items }
        ensures graph { let object = object_of (graph_in (heap_in self.old)).objects (root (graph_in (heap_in self.old)) s) in
            (result, graph_in (heap_in self.new)) ≡ get_field (graph_in (heap_in self.old)) d object (field_of object i) }
        ensures space { (heap_in self.new).space ≡ (heap_in self.old).space }
        ensures log { log_length self.new ≡ log_length self.old }
        ensures cells { cells_of self.new ≡ cells_of self.old }
        ensures moves { moves_in self.new ≡ moves_in self.old }
        ensures begun { beginning_of self.new ≡ beginning_of self.old }
    {
        let word = match self.fetched(s, i) {
            Ok(word) => word,
            Err(reply) => return reply,
        };
        let seen = self.view(word);
        let _done = self.set_at(d, word);
        Reply::Saw(seen)
    }

    /// Performs a command. Only a `Put` can fail, if the collector has begun to copy and the log cannot grow. Nothing has changed then.
    pub fn apply(&mut self, op: &Op) -> Result<Reply, NoMemory>
        ensures step { IfOk result (λ reply. Does (heap_in self.old) op.now reply (heap_in self.new)) }
        ensures err { OnErr result (heap_in self.new ≡ heap_in self.old) }
        ensures memory { OnErr result (WritesField op.now) }
        ensures logs { OnErr result (logs_writes self.old ≡ true) }
        ensures log { log_length self.new ≤ log_length self.old + writes_of op.now }
        ensures cells { cells_of self.new ≡ cells_of self.old }
        ensures moves { moves_in self.new ≡ moves_in self.old }
        ensures begun { beginning_of self.new ≡ beginning_of self.old }
    {
        match *op {
            Op::New { d, kind, len } => Ok(self.new_root(place_of(d), kind, len)),
            Op::NewRaw { d, kind, len } => Ok(self.new_raw_root(place_of(d), kind, len)),
            Op::Num { d, n } => Ok(self.num_root(place_of(d), n)),
            Op::Nil { d } => Ok(self.nil_root(place_of(d))),
            Op::Move { d, s } => Ok(self.copy_root(place_of(d), place_of(s))),
            Op::Get { d, s, i } => Ok(self.get_root(place_of(d), place_of(s), i)),
            Op::Put { s, i, t } => self.put_root(place_of(s), i, place_of(t)),
            Op::Same { s, t } => Ok(self.same_root(place_of(s), place_of(t))),
            Op::Look { s } => Ok(self.look_root(place_of(s))),
        }
    }
}
