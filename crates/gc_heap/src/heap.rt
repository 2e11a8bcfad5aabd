ghost use Rattle.std.specs.Prelude.{◌≡◌};

mod filling;
mod places;

use crate::options::HeapOptions;
use crate::reading::{field_word, has_field, root_word};
use crate::taken::Taken;
use gc_graph::{NoMemory, Op, Reply, Slot, root_count};
use gc_words::{Addr, Header, ImageRef, NewAddr, OldAddr, Space, Value, encode, target_of};
use std::alloc::Global;
use std::marker::Model;
use std::mem;

/// Returns the header of a new object.
fn header_of(raw: bool, kind: u8, len: u16) -> Header
    ensures { result ≡ record { raw = raw; kind = kind; len = len } }
{
    if raw {
        Header::new_raw(kind, len)
    } else {
        Header::new(kind, len)
    }
}

/// The mutators' heap: objects in a space, and the roots of 1 to 16 mutators, which extra roots may follow. `new` and `open_with`
/// allocate the space and the roots; no command allocates.
///
/// Each object has a link word in addition to its fields. A collector stores the replica's address there, so it needs no table. No
/// command reads a link, and none writes one except that a new object's link is 0.
#[derive(Debug, Drop)]
pub struct Heap {
    space: Space,
    roots: Vec<u64>,
    mutators: u8,
}

impl Model for Heap {
    ghost use Rattle.gc_heap.specs.Heap.{HeapWords, IsHeap};

    ghost Value = { HeapWords };

    ghost view = { λ h. record { space = h.space; roots = h.roots.items; mutators = h.mutators } };

    ghost invariant = { λ h. IsHeap (record { space = h.space; roots = h.roots.items; mutators = h.mutators }) };
}

impl Heap {
    ghost use Rattle.std.specs.Prelude.{◌≡◌, ◌≢◌, ◌<◌, ◌≤◌, IfOk, IsTrue, IsFalse, length, slice_set, if◌then◌else◌};
    ghost use Rattle.gc_graph.specs.Limits.{most_mutators};
    ghost use Rattle.gc_graph.specs.Slots.{place as place_of};
    ghost use Rattle.gc_graph.specs.Graph.{object_of, field_of, root};
    ghost use Rattle.gc_graph.specs.Machine.{roomy_step, opening_roomy, get_field, put_field, same as same_in};
    ghost use Rattle.gc_graph.proofs.Public.{make_object};
    ghost use Rattle.gc_words.specs.Image.{is_start};
    ghost use Rattle.gc_words.specs.Layout.{link_place};
    ghost use Rattle.gc_words.specs.Space.{end_of, with_word, without_links};
    ghost use Rattle.gc_words.specs.Closed.{IsRootWord};
    ghost use Rattle.gc_words.specs.Views as views;
    ghost use Rattle.gc_heap.specs.Internal.Taken.{taken_reply, IsTakenWord};
    ghost use Rattle.gc_heap.specs.Commands.{Performs};
    ghost use Rattle.gc_heap.specs.Heap.{IsHeap, KeepsLinks, empty_heap, image_of, graph_in, roomy_in, extra_roots_in};
    ghost use Rattle.gc_heap.specs.ExtraRoots.{CanOpen, opening_with};
    ghost use Rattle.gc_heap.specs.Filling.{TakesFields};

    /// Returns a heap without objects whose roots are all nil. It has `size` words, at least 1, and 1 to
    /// `MOST_MUTATORS` mutators. It has no extra roots.
    pub fn new(alloc: Global, size: u32, mutators: u8) -> Result<Heap, NoMemory>
        requires low { 1 ≤ size }
        requires some { 1 ≤ mutators }
        requires few { mutators ≤ most_mutators }
        ensures empty { IfOk result (λ heap. heap ≡ empty_heap (record { size = size; mutators = mutators; extra_roots = 0 })) }
        ensures opening { IfOk result (λ heap. roomy_in heap ≡ opening_roomy size mutators) }
        ensures sound { IfOk result IsHeap }
    {
        Heap::open_with(alloc, &HeapOptions::new(size, mutators))
    }

    /// Returns a heap with these options. It has no objects, and all its roots are nil.
    pub fn open_with(alloc: Global, options: &HeapOptions) -> Result<Heap, NoMemory>
        requires { CanOpen options.now }
        ensures empty { IfOk result (λ heap. heap ≡ empty_heap options.now) }
        ensures opening { IfOk result (λ heap. roomy_in heap ≡ opening_with options.now) }
        ensures sound { IfOk result IsHeap }
    {
        let space = Space::new(alloc, options.size)?;
        let count = root_count(options.mutators) + options.extra_roots as usize;
        let roots = vec![in alloc; 0u64; count]?;
        Ok(Heap {
            space,
            roots,
            mutators: options.mutators,
        })
    }

    /// Returns the image of the space and the roots, including links.
    pub fn image(&self) -> ImageRef<'_>
        ensures value { views.image_of result ≡ image_of self.now }
        ensures sound { IsHeap self.now }
    {
        self.space.image(&self.roots)
    }

    /// Returns the number of mutators, 1 to 16.
    pub fn mutators(&self) -> u8
        ensures value { result ≡ self.now.mutators }
        ensures sound { IsHeap self.now }
    {
        self.mutators
    }

    /// Returns the space with the objects.
    pub fn space(&self) -> &Space
        ensures value { result.now ≡ self.now.space }
        ensures sound { IsHeap self.now }
    {
        &self.space
    }

    /// Writes to all of the space's memory once, so that no later write meets a page for the first time. The heap stays as it is.
    pub fn touch(&mut self)
        ensures { self.new ≡ self.old }
    {
        self.space.touch();
    }

    /// Tells the allocator how many of the space's words are in use, so that it can give the pages behind them back. The heap stays as it is.
    pub fn release(&mut self)
        ensures { self.new ≡ self.old }
    {
        self.space.release();
    }

    /// Returns the root words: those of the shared slots first, then those of each mutator, and then the extra ones.
    pub fn roots(&self) -> &[u64]
        ensures value { result.now ≡ self.now.roots }
        ensures sound { IsHeap self.now }
    {
        &self.roots
    }

    /// Returns the number of extra roots.
    pub fn extra_roots(&self) -> u32
        ensures value { result ≡ extra_roots_in self.now }
        ensures sound { IsHeap self.now }
    {
        (self.roots.len() - root_count(self.mutators)) as u32
    }

    /// Performs a command of mutator `m`. Does not allocate.
    pub fn apply(&mut self, m: u8, op: &Op) -> Reply
        requires { m < self.old.mutators }
        // The name of a new object is the end of the space.
        ensures step { roomy_step (roomy_in self.old) m op.now (end_of self.old.space) ≡ (result, roomy_in self.new) }
        ensures links { KeepsLinks self.old.space.words self.new.space.words }
        ensures size { self.new.space.size ≡ self.old.space.size }
        ensures mutators { self.new.mutators ≡ self.old.mutators }
        ensures sound { IsHeap self.new }
    {
        self.perform(m, op)
    }

    // Performs a command by the places of its slots.
    fn perform(&mut self, m: u8, op: &Op) -> Reply
        requires { m < self.old.mutators }
        ensures performs { Performs self.old m op.now result self.new }
        ensures sound { IsHeap self.new }
    {
        match *op {
            Op::New { d, kind, len } => self.new_at_root(self.place(m, d), kind, len),
            Op::NewRaw { d, kind, len } => self.new_raw_at_root(self.place(m, d), kind, len),
            Op::Num { d, n } => self.num_root(self.place(m, d), n),
            Op::Nil { d } => self.nil_root(self.place(m, d)),
            Op::Move { d, s } => self.copy_root(self.place(m, d), self.place(m, s)),
            Op::Get { d, s, i } => self.get_root(self.place(m, d), self.place(m, s), i),
            Op::Put { s, i, t } => self.put_root(self.place(m, s), i, self.place(m, t)),
            Op::Same { s, t } => self.same_root(self.place(m, s), self.place(m, t)),
            Op::Look { s } => self.look_root(self.place(m, s)),
        }
    }

    // Returns the place of mutator `m`'s slot in the list of roots.
    fn place(&self, m: u8, slot: Slot) -> u32
        requires { m < self.now.mutators }
        ensures place { result ≡ place_of slot m }
        ensures root { result < length self.now.roots }
    {
        // Here the prover learns how many roots there are.
        let _ = &self.roots;
        slot.place(m) as u32
    }

    /// Writes the link word of the object that starts at `old`.
    pub fn set_link(&mut self, old: OldAddr, new: NewAddr)
        requires { IsTrue (is_start self.old.space.words old.0) }
        ensures words { self.new ≡ record self.old { space = with_word self.old.space (link_place old.0) new.0 } }
        ensures graph { graph_in self.new ≡ graph_in self.old }
        ensures sound { IsHeap self.new }
    {
        self.space.set_link(Addr(old.0), u64::from(new.0));
    }

    /// Writes any word as the link of the object that starts at `old`.
    pub fn set_link_word(&mut self, old: OldAddr, word: u64)
        requires { IsTrue (is_start self.old.space.words old.0) }
        ensures words { self.new ≡ record self.old { space = with_word self.old.space (link_place old.0) word } }
        ensures graph { graph_in self.new ≡ graph_in self.old }
        ensures sound { IsHeap self.new }
    {
        self.space.set_link(Addr(old.0), word);
    }

    /// Sets all link words to 0.
    pub fn clear_links(&mut self)
        ensures words { self.new ≡ record self.old { space = without_links self.old.space } }
        ensures graph { graph_in self.new ≡ graph_in self.old }
        ensures sound { IsHeap self.new }
    {
        self.space.clear_links();
    }

    /// Replaces the space and the roots, and returns the former ones.
    pub fn replace(&mut self, space: Space, roots: Vec<u64>) -> (Space, Vec<u64>)
        requires { IsHeap (record self.old { space = space; roots = roots.items }) }
        ensures heap { self.new ≡ record self.old { space = space; roots = roots.items } }
        ensures space { result.0 ≡ self.old.space }
        ensures roots { result.1.items ≡ self.old.roots }
    {
        let former_space = mem::replace(&mut self.space, space);
        let former_roots = mem::replace(&mut self.roots, roots);
        (former_space, former_roots)
    }

    /// Makes a new object and sets the root at `place` to a reference to it, if there is room.
    #[inline(always)]
    #[tactic(auto, using(crate::proofs::Links::links_placed, crate::proofs::Steps::with_new, crate::proofs::Steps::made))]
    fn make_at(&mut self, place: usize, raw: bool, kind: u8, len: u16) -> Reply
        requires { place < length self.old.roots }
        ensures step { (result, roomy_in self.new) ≡ make_object (roomy_in self.old) place raw kind len (end_of self.old.space) }
        ensures links { KeepsLinks self.old.space.words self.new.space.words }
        ensures size { self.new.space.size ≡ self.old.space.size }
        ensures mutators { self.new.mutators ≡ self.old.mutators }
        // Unless there is no room, an object with references takes its fields.
        ensures fields { result ≢ Reply.Full → IsFalse raw → TakesFields self.new place (end_of self.old.space) len }
        ensures sound { IsHeap self.new }
    {
        if !self.space.has_room(len) {
            return Reply::Full;
        }
        let at = self.space.place(header_of(raw, kind, len));
        self.roots[place] = encode(Value::Ref(at));
        Reply::Made
    }

    /// Writes a word into a root.
    fn set_at(&mut self, place: usize, word: u64) -> Reply
        requires root { place < length self.old.roots }
        requires word { IsRootWord self.old.space.words word }
        ensures done { result ≡ Reply.Done }
        ensures heap { self.new ≡ record self.old { roots = slice_set self.old.roots place word } }
        ensures sound { IsHeap self.new }
    {
        self.roots[place] = word;
        Reply::Done
    }

    /// Sets root `d` to field `i` of the object that root `s` refers to, and returns the word that it took.
    #[tactic(auto, using(crate::proofs::Commands::header_is, gc_words::proofs::Public::closed_field_read, crate::proofs::Commands::taken_heap))]
    fn take_at(&mut self, d: usize, s: usize, i: u16) -> Taken
        requires taker { d < length self.old.roots }
        requires giver { s < length self.old.roots }
        ensures graph { let object = object_of (graph_in self.old).objects (root (graph_in self.old) s) in
            (taken_reply self.old result, graph_in self.new) ≡ get_field (graph_in self.old) d object (field_of object i) }
        ensures word { IsTakenWord self.old.space.words result }
        ensures space { self.new.space ≡ self.old.space }
        ensures mutators { self.new.mutators ≡ self.old.mutators }
        ensures sound { IsHeap self.new }
    {
        let target = self.roots[s];
        let Some(at) = target_of(target) else {
            return Taken::NoObject;
        };
        let header = self.space.header(at);
        if !has_field(&self.space, at, header, i) {
            return Taken::NoField;
        }
        let field = self.space.field(at, i);
        let word = root_word(&self.space, header, field);
        self.roots[d] = word;
        Taken::Word(word)
    }

    /// Writes the value of root `t` to field `i` of the object that root `s` refers to.
    #[inline(always)]
    #[tactic(auto, using(crate::proofs::Commands::read_root, crate::proofs::Commands::root_word, crate::proofs::Links::links_written))]
    fn put_at(&mut self, s: usize, i: u16, t: usize) -> Reply
        requires target { s < length self.old.roots }
        requires giver { t < length self.old.roots }
        ensures graph { let object = object_of (graph_in self.old).objects (root (graph_in self.old) s) in
            (result, graph_in self.new) ≡ put_field (graph_in self.old) (root (graph_in self.old) s) object (field_of object i) i (root (graph_in self.old) t) }
        ensures links { KeepsLinks self.old.space.words self.new.space.words }
        ensures end { length self.new.space.words ≡ length self.old.space.words }
        ensures size { self.new.space.size ≡ self.old.space.size }
        ensures mutators { self.new.mutators ≡ self.old.mutators }
        ensures sound { IsHeap self.new }
    {
        let target = self.roots[s];
        let Some(at) = target_of(target) else {
            return Reply::NoObject;
        };
        let header = self.space.header(at);
        if !has_field(&self.space, at, header, i) {
            return Reply::NoField;
        }
        let word = self.roots[t];
        // Each kind of object has a write of its own, so that no word is converted for a field that takes it as it is.
        if header.is_raw() {
            let Some(number) = field_word(&self.space, header, word) else {
                return Reply::NoNumber;
            };
            self.space.set_field(at, i, number);
            return Reply::Done;
        }
        self.space.set_field(at, i, word);
        Reply::Done
    }

    /// Returns whether two roots hold the same value. Equal values have equal words.
    #[tactic(auto, using(crate::proofs::Commands::read_root, crate::proofs::Commands::root_word, crate::proofs::Commands::same_words, crate::proofs::Commands::at_root, crate::proofs::Commands::other_words))]
    fn same_at(&self, s: usize, t: usize) -> Reply
        requires one { s < length self.now.roots }
        requires other { t < length self.now.roots }
        ensures { result ≡ (if same_in (graph_in self.now).objects (root (graph_in self.now) s) (root (graph_in self.now) t) then Reply.Yes else Reply.No) }
    {
        if self.roots[s] == self.roots[t] {
            Reply::Yes
        } else {
            Reply::No
        }
    }
}
