//! Commands on roots by their places in the list of roots: first the shared slots, then each mutator's own, then the extra roots. Each is the command
//! of any mutator, for whom the root has the name `root_at`, but for `set_root` and `refer_root`. `Heap::apply` calls them. None allocates.

ghost use Rattle.std.specs.Prelude.{◌≡◌, ◌≢◌, ◌<◌, ℕ, length, IfSome, IsTrue};
ghost use Rattle.std.specs.Option.{option_map};
ghost use Rattle.gc_graph.specs.Graph.{Ref, name_of, root, set_root};
ghost use Rattle.gc_graph.specs.declared.command.Op.{Op};
ghost use Rattle.gc_words.specs.Closed.{IsRootWord};
ghost use Rattle.gc_words.specs.Image.{is_start};
ghost use Rattle.gc_words.specs.Space.{end_of};
ghost use Rattle.gc_words.specs.Word.{value_of};
ghost use Rattle.gc_heap.specs.Commands.{Performs, Fetches};
ghost use Rattle.gc_heap.specs.Filling.{TakesFields};
ghost use Rattle.gc_heap.specs.Heap.{IsHeap, graph_in};
ghost use Rattle.gc_heap.specs.Internal.Taken.{taken_reply, IsTakenWord};
ghost use Rattle.gc_heap.specs.Places.{root_at};

use super::Heap;
use crate::reading::{fetched, view};
use crate::taken::{Fetched, Taken};
use gc_graph::{Number, Reply};
use gc_words::{Addr, OldAddr, Value, encode, target_of};

impl Heap {
    /// Returns the number of roots.
    #[inline(always)]
    pub fn root_places(&self) -> usize
        ensures { result ≡ length self.now.roots }
    {
        self.roots.len()
    }

    /// Makes an object of this kind with `len` fields, all nil, and sets root `d` to a reference to it: `Made`, or `Full`.
    #[inline(always)]
    pub fn new_at_root(&mut self, d: u32, kind: u8, len: u16) -> Reply
        requires { d < length self.old.roots }
        ensures performs { (m : ℕ) → Performs self.old m (Op.New (root_at d) kind len) result self.new }
        // Unless there was no room, the object takes its fields.
        ensures fields { result ≢ Reply.Full → TakesFields self.new d (end_of self.old.space) len }
        ensures sound { IsHeap self.new }
    {
        self.make_at(d as usize, false, kind, len)
    }

    /// Makes a raw object, as `new_at_root` makes others: its fields are plain numbers, all 0.
    #[inline(always)]
    pub fn new_raw_at_root(&mut self, d: u32, kind: u8, len: u16) -> Reply
        requires { d < length self.old.roots }
        ensures performs { (m : ℕ) → Performs self.old m (Op.NewRaw (root_at d) kind len) result self.new }
        ensures sound { IsHeap self.new }
    {
        self.make_at(d as usize, true, kind, len)
    }

    /// Sets root `d` to the number: `Done`.
    #[inline(always)]
    pub fn num_root(&mut self, d: u32, n: Number) -> Reply
        requires { d < length self.old.roots }
        ensures performs { (m : ℕ) → Performs self.old m (Op.Num (root_at d) n) result self.new }
        ensures sound { IsHeap self.new }
    {
        self.set_at(d as usize, encode(Value::Num(n)))
    }

    /// Sets root `d` to nil: `Done`.
    #[inline(always)]
    pub fn nil_root(&mut self, d: u32) -> Reply
        requires { d < length self.old.roots }
        ensures performs { (m : ℕ) → Performs self.old m (Op.Nil (root_at d)) result self.new }
        ensures sound { IsHeap self.new }
    {
        self.set_at(d as usize, encode(Value::Nil))
    }

    /// Sets root `d` to the value of this word.
    #[inline(always)]
    pub fn set_root(&mut self, d: u32, word: u64)
        requires root { d < length self.old.roots }
        requires word { IsRootWord self.old.space.words word }
        ensures space { self.new.space ≡ self.old.space }
        ensures graph { graph_in self.new ≡ set_root (graph_in self.old) d (value_of word) }
        ensures mutators { self.new.mutators ≡ self.old.mutators }
        ensures sound { IsHeap self.new }
    {
        let _done = self.set_at(d as usize, word);
    }

    /// Sets root `d` to a reference to the object that starts at `a`. This is no command of a mutator: none of these names an address.
    pub fn refer_root(&mut self, d: u32, a: OldAddr)
        requires root { d < length self.old.roots }
        requires start { IsTrue (is_start self.old.space.words a.0) }
        ensures space { self.new.space ≡ self.old.space }
        ensures graph { graph_in self.new ≡ set_root (graph_in self.old) d (Ref a.0) }
        ensures mutators { self.new.mutators ≡ self.old.mutators }
        ensures sound { IsHeap self.new }
    {
        // Here the prover learns that the heap is sound.
        let _ = &self.roots;
        let _done = self.set_at(d as usize, encode(Value::Ref(Addr(a.0))));
    }

    /// Sets root `d` to the value of root `s`: `Done`.
    #[inline(always)]
    pub fn copy_root(&mut self, d: u32, s: u32) -> Reply
        requires taker { d < length self.old.roots }
        requires giver { s < length self.old.roots }
        ensures performs { (m : ℕ) → Performs self.old m (Op.Move (root_at d) (root_at s)) result self.new }
        ensures sound { IsHeap self.new }
    {
        // Here the prover learns that the heap is sound.
        let _ = &self.roots;
        let word = self.roots[s as usize];
        self.set_at(d as usize, word)
    }

    /// Sets root `d` to field `i` of the object that root `s` refers to, as a `Get` does: the result has no kind and no length.
    #[inline(always)]
    pub fn fetch_root(&mut self, d: u32, s: u32, i: u16) -> Fetched
        requires taker { d < length self.old.roots }
        requires giver { s < length self.old.roots }
        ensures fetches { (m : ℕ) → Fetches self.old m (root_at d) (root_at s) i result self.new }
        ensures sound { IsHeap self.new }
    {
        match self.take_root(d, s, i) {
            Taken::NoObject => Fetched::NoObject,
            Taken::NoField => Fetched::NoField,
            Taken::Word(word) => fetched(&self.space, word),
        }
    }

    /// Does the same, and replies with what the machine's `Get` shows: `Saw`, `NoObject` or `NoField`.
    pub(crate) fn get_root(&mut self, d: u32, s: u32, i: u16) -> Reply
        requires taker { d < length self.old.roots }
        requires giver { s < length self.old.roots }
        ensures performs { (m : ℕ) → Performs self.old m (Op.Get (root_at d) (root_at s) i) result self.new }
        ensures sound { IsHeap self.new }
    {
        match self.take_root(d, s, i) {
            Taken::NoObject => Reply::NoObject,
            Taken::NoField => Reply::NoField,
            Taken::Word(word) => Reply::Saw(view(&self.space, word)),
        }
    }

    // Performs a `Get`, and returns the word that root `d` took.
    #[inline(always)]
    fn take_root(&mut self, d: u32, s: u32, i: u16) -> Taken
        requires taker { d < length self.old.roots }
        requires giver { s < length self.old.roots }
        ensures performs { (m : ℕ) → Performs self.old m (Op.Get (root_at d) (root_at s) i) (taken_reply self.old result) self.new }
        ensures word { IsTakenWord self.old.space.words result }
        ensures space { self.new.space ≡ self.old.space }
        ensures sound { IsHeap self.new }
    {
        self.take_at(d as usize, s as usize, i)
    }

    /// Writes the value of root `t` to field `i` of the object that root `s` refers to: `Done`, `NoObject`, `NoField` or `NoNumber`.
    #[inline(always)]
    pub fn put_root(&mut self, s: u32, i: u16, t: u32) -> Reply
        requires target { s < length self.old.roots }
        requires giver { t < length self.old.roots }
        ensures performs { (m : ℕ) → Performs self.old m (Op.Put (root_at s) i (root_at t)) result self.new }
        ensures sound { IsHeap self.new }
    {
        self.put_at(s as usize, i, t as usize)
    }

    /// Compares the values of two roots: `Yes` or `No`.
    #[inline(always)]
    pub fn same_root(&self, s: u32, t: u32) -> Reply
        requires one { s < length self.now.roots }
        requires other { t < length self.now.roots }
        ensures performs { (m : ℕ) → Performs self.now m (Op.Same (root_at s) (root_at t)) result self.now }
        ensures sound { IsHeap self.now }
    {
        // Here the prover learns that the heap is sound.
        let _ = &self.roots;
        self.same_at(s as usize, t as usize)
    }

    /// Returns what mutators see of the value of root `s`: `Saw`.
    #[inline(always)]
    pub fn look_root(&self, s: u32) -> Reply
        requires { s < length self.now.roots }
        ensures performs { (m : ℕ) → Performs self.now m (Op.Look (root_at s)) result self.now }
        ensures sound { IsHeap self.now }
    {
        // Here the prover learns that the heap is sound.
        let _ = &self.roots;
        let word = self.roots[s as usize];
        Reply::Saw(view(&self.space, word))
    }

    /// Returns the address of the object that root `s` refers to.
    #[inline(always)]
    pub fn target_root(&self, s: u32) -> Option<OldAddr>
        requires { s < length self.now.roots }
        ensures name { option_map (λ a. a.0) result ≡ name_of (root (graph_in self.now) s) }
        ensures start { IfSome result (λ a. IsTrue (is_start self.now.space.words a.0)) }
        ensures sound { IsHeap self.now }
    {
        let at = target_of(self.roots[s as usize])?;
        Some(OldAddr(at.0))
    }
}
