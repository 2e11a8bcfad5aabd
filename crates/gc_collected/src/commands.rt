//! The commands of mutators, by slots. Each is the command on the roots at the places of its slots.

ghost use Rattle.std.specs.Prelude.{◌≡◌};

use crate::collected_heap::CollectedHeap;
use crate::values::Plain;
use gc_graph::{NoMemory, Number, Op, Reply, Slot};
use gc_heap::Fetched;

impl CollectedHeap {
    ghost use Rattle.std.specs.Prelude.{◌≡◌, ◌<◌, IfOk, OnErr, IsSome, length};
    ghost use Rattle.gc_graph.specs.Slots.{place, roots_of};
    ghost use Rattle.gc_model.specs.Steps.{mutate, WritesField};
    ghost use Rattle.gc_graph.specs.declared.command.Op.{Op};
    ghost use Rattle.gc_collected.specs.CollectedHeap.{Fetches};

    /// Performs mutator `m`'s command. While a collection is open, a field that the command wrote is logged (the
    /// write barrier). Only a `put` while a collection is open can return `NoMemory`; the heap is then unchanged.
    #[tactic(auto, using(crate::proofs::Together::logged_none))]
    pub fn mutate(&mut self, m: u8, op: &Op) -> Result<Reply, NoMemory>
        requires { m < self.old.core.mutators }
        ensures step { IfOk result (λ reply. mutate self.old.core m op.now ≡ (reply, self.new.core)) }
        ensures refused { OnErr result (self.new ≡ self.old) }
        ensures open { OnErr result (IsSome self.old.core.collection) }
        ensures put { OnErr result (WritesField op.now) }
        ensures mutators { self.new.core.mutators ≡ self.old.core.mutators }
        ensures beside { self.new.beside ≡ self.old.beside }
        ensures looks { self.new.roots_left ≡ self.old.roots_left }
    {
        match *op {
            Op::New { d, kind, len } => Ok(self.new_object(m, d, kind, len)),
            Op::NewRaw { d, kind, len } => Ok(self.new_raw(m, d, kind, len)),
            Op::Num { d, n } => Ok(self.num(m, d, n)),
            Op::Nil { d } => Ok(self.nil(m, d)),
            Op::Move { d, s } => Ok(self.move_slot(m, d, s)),
            Op::Get { d, s, i } => Ok(self.get(m, d, s, i)),
            Op::Put { s, i, t } => self.put(m, s, i, t),
            Op::Same { s, t } => Ok(self.same(m, s, t)),
            Op::Look { s } => Ok(self.look(m, s)),
        }
    }

    /// Makes an object of this kind with `len` fields, all nil, and sets `d` to a reference to it. Returns `Made`, or
    /// `Full` if there is no room; then nothing has changed. Does not allocate.
    #[inline(always)]
    #[tactic(auto, using(crate::proofs::Together::logged_none))]
    pub fn new_object(&mut self, m: u8, d: Slot, kind: u8, len: u16) -> Reply
        requires { m < self.old.core.mutators }
        ensures step { mutate self.old.core m (Op.New d kind len) ≡ (result, self.new.core) }
        ensures mutators { self.new.core.mutators ≡ self.old.core.mutators }
        ensures beside { self.new.beside ≡ self.old.beside }
        ensures looks { self.new.roots_left ≡ self.old.roots_left }
    {
        self.new_into(self.place(m, d), true, kind, len)
    }

    /// Makes a raw object, as `new_object` makes an object. Its fields are plain numbers, all 0. Does not allocate.
    #[inline(always)]
    #[tactic(auto, using(crate::proofs::Together::logged_none))]
    pub fn new_raw(&mut self, m: u8, d: Slot, kind: u8, len: u16) -> Reply
        requires { m < self.old.core.mutators }
        ensures step { mutate self.old.core m (Op.NewRaw d kind len) ≡ (result, self.new.core) }
        ensures mutators { self.new.core.mutators ≡ self.old.core.mutators }
        ensures beside { self.new.beside ≡ self.old.beside }
        ensures looks { self.new.roots_left ≡ self.old.roots_left }
    {
        self.new_raw_into(self.place(m, d), true, kind, len)
    }

    /// Sets `d` to the number. Returns `Done`. Does not allocate.
    #[inline(always)]
    #[tactic(auto, using(crate::proofs::Together::logged_none))]
    pub fn num(&mut self, m: u8, d: Slot, n: Number) -> Reply
        requires { m < self.old.core.mutators }
        ensures step { mutate self.old.core m (Op.Num d n) ≡ (result, self.new.core) }
        ensures mutators { self.new.core.mutators ≡ self.old.core.mutators }
        ensures beside { self.new.beside ≡ self.old.beside }
        ensures looks { self.new.roots_left ≡ self.old.roots_left }
    {
        self.num_into(self.place(m, d), true, n)
    }

    /// Sets `d` to nil. Returns `Done`. Does not allocate.
    #[inline(always)]
    #[tactic(auto, using(crate::proofs::Together::logged_none))]
    pub fn nil(&mut self, m: u8, d: Slot) -> Reply
        requires { m < self.old.core.mutators }
        ensures step { mutate self.old.core m (Op.Nil d) ≡ (result, self.new.core) }
        ensures mutators { self.new.core.mutators ≡ self.old.core.mutators }
        ensures beside { self.new.beside ≡ self.old.beside }
        ensures looks { self.new.roots_left ≡ self.old.roots_left }
    {
        self.nil_into(self.place(m, d), true)
    }

    /// Sets `d` to what `s` holds. Returns `Done`. Does not allocate.
    #[inline(always)]
    #[tactic(auto, using(crate::proofs::Together::logged_none))]
    pub fn move_slot(&mut self, m: u8, d: Slot, s: Slot) -> Reply
        requires { m < self.old.core.mutators }
        ensures step { mutate self.old.core m (Op.Move d s) ≡ (result, self.new.core) }
        ensures mutators { self.new.core.mutators ≡ self.old.core.mutators }
        ensures beside { self.new.beside ≡ self.old.beside }
        ensures looks { self.new.roots_left ≡ self.old.roots_left }
    {
        self.copy_into(self.place(m, d), true, self.place(m, s))
    }

    /// Sets `d` to field `i` of the object that `s` refers to. Returns `Saw`, or else `NoObject` or `NoField`. Does not
    /// allocate.
    #[inline(always)]
    pub fn get(&mut self, m: u8, d: Slot, s: Slot, i: u16) -> Reply
        requires { m < self.old.core.mutators }
        ensures step { mutate self.old.core m (Op.Get d s i) ≡ (result, self.new.core) }
        ensures mutators { self.new.core.mutators ≡ self.old.core.mutators }
        ensures beside { self.new.beside ≡ self.old.beside }
        ensures looks { self.new.roots_left ≡ self.old.roots_left }
    {
        // Here the prover learns that the slot is in range.
        let _ = self.place(m, d);
        match self.fetch(m, d, s, i) {
            Fetched::NoObject => Reply::NoObject,
            Fetched::NoField => Reply::NoField,
            _ => self.look(m, d),
        }
    }

    /// Does what `get` does, but does not read an object that it found, so it returns no kind and no length. Does not
    /// allocate.
    #[inline(always)]
    #[tactic(auto, using(crate::proofs::Together::logged_none))]
    pub fn fetch(&mut self, m: u8, d: Slot, s: Slot, i: u16) -> Fetched
        requires { m < self.old.core.mutators }
        ensures fetches { Fetches self.old.core m d s i result self.new.core }
        ensures mutators { self.new.core.mutators ≡ self.old.core.mutators }
        ensures beside { self.new.beside ≡ self.old.beside }
        ensures looks { self.new.roots_left ≡ self.old.roots_left }
    {
        self.fetch_into(self.place(m, d), true, self.place(m, s), u32::from(i))
    }

    /// Writes what `t` holds to field `i` of the object that `s` refers to. Returns `Done`, or else `NoObject`,
    /// `NoField` or `NoNumber`. While a collection is open, the field is logged (the write barrier). Only then can the
    /// call return `NoMemory`, and the heap is unchanged.
    #[inline(always)]
    pub fn put(&mut self, m: u8, s: Slot, i: u16, t: Slot) -> Result<Reply, NoMemory>
        requires { m < self.old.core.mutators }
        ensures step { IfOk result (λ reply. mutate self.old.core m (Op.Put s i t) ≡ (reply, self.new.core)) }
        ensures refused { OnErr result (self.new ≡ self.old) }
        ensures open { OnErr result (IsSome self.old.core.collection) }
        ensures mutators { self.new.core.mutators ≡ self.old.core.mutators }
        ensures beside { self.new.beside ≡ self.old.beside }
        ensures looks { self.new.roots_left ≡ self.old.roots_left }
    {
        self.put_root(m, self.place(m, s), u32::from(i), self.place(m, t))
    }

    /// Performs a `num` and a `put` in one call: sets `t` to the number, and then writes it to field `i` of the object
    /// that `s` refers to. Returns the reply to the `put`. Returns `NoMemory` only while a collection is open; the heap
    /// is then unchanged.
    #[inline(always)]
    pub fn put_number(
        &mut self,
        m: u8,
        s: Slot,
        i: u16,
        t: Slot,
        n: Number,
    ) -> Result<Reply, NoMemory>
        requires { m < self.old.core.mutators }
        ensures step { IfOk result (λ reply. mutate (mutate self.old.core m (Op.Num t n)).1 m (Op.Put s i t) ≡ (reply, self.new.core)) }
        ensures refused { OnErr result (self.new ≡ self.old) }
        ensures open { OnErr result (IsSome self.old.core.collection) }
        ensures mutators { self.new.core.mutators ≡ self.old.core.mutators }
        ensures beside { self.new.beside ≡ self.old.beside }
        ensures looks { self.new.roots_left ≡ self.old.roots_left }
    {
        self.put_through(m, self.place(m, s), i, self.place(m, t), Plain::Number(n))
    }

    /// Performs a `nil` and a `put` in one call: sets `t` to nil, and then writes it to field `i` of the object that `s`
    /// refers to. Returns the reply to the `put`. Returns `NoMemory` only while a collection is open; the heap is then
    /// unchanged.
    pub fn put_nil(&mut self, m: u8, s: Slot, i: u16, t: Slot) -> Result<Reply, NoMemory>
        requires { m < self.old.core.mutators }
        ensures step { IfOk result (λ reply. mutate (mutate self.old.core m (Op.Nil t)).1 m (Op.Put s i t) ≡ (reply, self.new.core)) }
        ensures refused { OnErr result (self.new ≡ self.old) }
        ensures open { OnErr result (IsSome self.old.core.collection) }
        ensures mutators { self.new.core.mutators ≡ self.old.core.mutators }
        ensures beside { self.new.beside ≡ self.old.beside }
        ensures looks { self.new.roots_left ≡ self.old.roots_left }
    {
        self.put_through(m, self.place(m, s), i, self.place(m, t), Plain::Nil)
    }

    /// Compares what `s` and `t` hold. Returns `Yes` or `No`. Changes nothing.
    #[inline(always)]
    #[tactic(auto, using(crate::proofs::Together::logged_none))]
    pub fn same(&self, m: u8, s: Slot, t: Slot) -> Reply
        requires { m < self.now.core.mutators }
        ensures { mutate self.now.core m (Op.Same s t) ≡ (result, self.now.core) }
    {
        self.same_root(self.place(m, s), self.place(m, t))
    }

    /// Returns `Saw` with what `s` holds. Changes nothing.
    #[inline(always)]
    #[tactic(auto, using(crate::proofs::Together::logged_none))]
    pub fn look(&self, m: u8, s: Slot) -> Reply
        requires { m < self.now.core.mutators }
        ensures { mutate self.now.core m (Op.Look s) ≡ (result, self.now.core) }
    {
        self.look_root(self.place(m, s))
    }

    /// Returns the place of mutator `m`'s slot in the list of roots.
    #[inline(always)]
    pub(crate) fn place(&self, m: u8, slot: Slot) -> u32
        requires { m < self.now.core.mutators }
        ensures place { result ≡ place slot m }
        ensures slot { result < roots_of self.now.core.mutators }
        ensures root { result < length self.now.core.heap.graph.roots }
    {
        // Here the prover learns how many roots there are.
        let _ = self.root_places();
        slot.place(m) as u32
    }
}
