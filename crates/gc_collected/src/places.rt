//! Commands on roots by their places in the list of roots: first the shared slots, then each mutator's own, then the extra roots. Each is a command of
//! the machine, for which the root at a place has the name `root_at`.

ghost use Rattle.std.specs.Prelude.{◌≡◌, ◌≢◌, ◌<◌, ◌≤◌, ◌^◌, IfOk, OnErr, IsFalse, IsSome, IsTrue, length};
ghost use Rattle.gc_graph.specs.Slots.{roots_of};
ghost use Rattle.gc_graph.specs.declared.command.Op.{Op};
ghost use Rattle.gc_graph.specs.declared.reply.Reply.{Reply};
ghost use Rattle.gc_heap.specs.Places.{root_at};
ghost use Rattle.gc_model.specs.Steps.{mutate};
ghost use Rattle.gc_roots.specs.Twins.{AsksForLook};
ghost use Rattle.gc_collected.specs.CollectedHeap.{Fetches, HasMissed};
ghost use Rattle.gc_collected.specs.Surely.{PutsSurely};

use crate::barrier::put_root;
use crate::collected_heap::CollectedHeap;
use gc_copy::commands_leave_collections;
use gc_graph::{NoMemory, Number, Reply};
use gc_heap::Fetched;

impl CollectedHeap {
    /// Returns the number of roots.
    #[inline(always)]
    pub fn root_places(&self) -> usize
        ensures count { result ≡ length self.now.core.heap.graph.roots }
        ensures few { result < 2 ^ 32 }
        ensures slots { roots_of self.now.core.mutators ≤ result }
    {
        // Here the prover learns that the heap is sound, and has few mutators.
        let _ = self.heap.mutators();
        self.heap.root_places()
    }

    /// Makes an object of this kind with `len` fields, all nil, and sets root `d` to a reference to it. Returns `Made`, or `Full` if there is no
    /// room; then nothing has changed. Does not allocate.
    #[inline(always)]
    pub fn new_at_root(&mut self, d: u32, kind: u8, len: u16) -> Reply
        requires { d < length self.old.core.heap.graph.roots }
        ensures step { mutate self.old.core 0 (Op.New (root_at d) kind len) ≡ (result, self.new.core) }
        ensures mutators { self.new.core.mutators ≡ self.old.core.mutators }
        ensures beside { self.new.beside ≡ self.old.beside }
        ensures looks { AsksForLook d self.old.roots_left self.new.roots_left }
        ensures full { result ≡ Reply.Full → self.new.roots_left ≡ self.old.roots_left }
    {
        self.new_into(d, self.is_slot(d), kind, len)
    }

    /// Makes a raw object, as `new_at_root` makes an object. Its fields are plain numbers, all 0. Does not allocate.
    #[inline(always)]
    pub fn new_raw_at_root(&mut self, d: u32, kind: u8, len: u16) -> Reply
        requires { d < length self.old.core.heap.graph.roots }
        ensures step { mutate self.old.core 0 (Op.NewRaw (root_at d) kind len) ≡ (result, self.new.core) }
        ensures mutators { self.new.core.mutators ≡ self.old.core.mutators }
        ensures beside { self.new.beside ≡ self.old.beside }
        ensures looks { AsksForLook d self.old.roots_left self.new.roots_left }
        ensures full { result ≡ Reply.Full → self.new.roots_left ≡ self.old.roots_left }
    {
        self.new_raw_into(d, self.is_slot(d), kind, len)
    }

    /// Sets root `d` to the number. Returns `Done`. Does not allocate.
    #[inline(always)]
    pub fn num_root(&mut self, d: u32, n: Number) -> Reply
        requires { d < length self.old.core.heap.graph.roots }
        ensures step { mutate self.old.core 0 (Op.Num (root_at d) n) ≡ (result, self.new.core) }
        ensures mutators { self.new.core.mutators ≡ self.old.core.mutators }
        ensures beside { self.new.beside ≡ self.old.beside }
        ensures looks { AsksForLook d self.old.roots_left self.new.roots_left }
    {
        self.num_into(d, self.is_slot(d), n)
    }

    /// Sets root `d` to what root `s` holds. Returns `Done`. Does not allocate.
    #[inline(always)]
    pub fn copy_root(&mut self, d: u32, s: u32) -> Reply
        requires taker { d < length self.old.core.heap.graph.roots }
        requires giver { s < length self.old.core.heap.graph.roots }
        ensures step { mutate self.old.core 0 (Op.Move (root_at d) (root_at s)) ≡ (result, self.new.core) }
        ensures mutators { self.new.core.mutators ≡ self.old.core.mutators }
        ensures beside { self.new.beside ≡ self.old.beside }
        ensures looks { AsksForLook d self.old.roots_left self.new.roots_left }
    {
        self.copy_into(d, self.is_slot(d), s)
    }

    /// Sets root `d` to field `i` of the object that root `s` refers to, as a `Get` does, but does not read an object that it found, so it returns no
    /// kind and no length. Does not allocate.
    #[inline(always)]
    pub fn fetch_root(&mut self, d: u32, s: u32, i: u32) -> Fetched
        requires taker { d < length self.old.core.heap.graph.roots }
        requires giver { s < length self.old.core.heap.graph.roots }
        ensures fetches { Fetches self.old.core 0 (root_at d) (root_at s) i result self.new.core }
        ensures mutators { self.new.core.mutators ≡ self.old.core.mutators }
        ensures beside { self.new.beside ≡ self.old.beside }
        ensures looks { AsksForLook d self.old.roots_left self.new.roots_left }
        ensures missed { HasMissed result → self.new.roots_left ≡ self.old.roots_left }
    {
        self.fetch_into(d, self.is_slot(d), s, i)
    }

    /// Writes what root `t` holds to field `i` of the object that root `s` refers to, as mutator `m`'s `Put`. Returns `Done`, or else `NoObject`, `NoField`
    /// or `NoNumber`. While a collection is open, the field is logged (the write barrier). Only then can the call return `NoMemory`, and the heap
    /// is unchanged.
    #[inline(always)]
    pub fn put_root(&mut self, m: u8, s: u32, i: u32, t: u32) -> Result<Reply, NoMemory>
        requires mutator { m < self.old.core.mutators }
        requires target { s < length self.old.core.heap.graph.roots }
        requires giver { t < length self.old.core.heap.graph.roots }
        ensures step { IfOk result (λ reply. mutate self.old.core m (Op.Put (root_at s) i (root_at t)) ≡ (reply, self.new.core)) }
        ensures refused { OnErr result (self.new ≡ self.old) }
        ensures open { OnErr result (IsSome self.old.core.collection) }
        ensures mutators { self.new.core.mutators ≡ self.old.core.mutators }
        ensures beside { self.new.beside ≡ self.old.beside }
        ensures looks { self.new.roots_left ≡ self.old.roots_left }
    {
        commands_leave_collections();
        self.is_sound();
        // Here the prover learns that the heap is sound.
        let _ = self.heap.space();
        let i = field_number(i);
        let Some(collection) = &mut self.collection else {
            return Ok(self.heap.put_root(s, i, t));
        };
        collection.reserve(m)?;
        Ok(put_root(collection, &mut self.heap, &mut self.watch, m, s, i, t))
    }

    /// Does what `put_root` does, and cannot fail: where the log cannot grow, first gives the open collection up.
    pub fn put_surely(&mut self, m: u8, s: u32, i: u32, t: u32) -> Reply
        requires mutator { m < self.old.core.mutators }
        requires target { s < length self.old.core.heap.graph.roots }
        requires giver { t < length self.old.core.heap.graph.roots }
        ensures put { PutsSurely m (Op.Put (root_at s) i (root_at t)) result self.old self.new }
        ensures mutators { self.new.core.mutators ≡ self.old.core.mutators }
    {
        if let Ok(reply) = self.put_root(m, s, i, t) {
            return reply;
        }
        let _dropped = self.give_up();
        match self.put_root(m, s, i, t) {
            Ok(reply) => reply,
            Err(NoMemory) => unreachable!(),
        }
    }

    /// Compares what two roots hold. Returns `Yes` or `No`.
    #[inline(always)]
    pub fn same_root(&self, s: u32, t: u32) -> Reply
        requires one { s < length self.now.core.heap.graph.roots }
        requires other { t < length self.now.core.heap.graph.roots }
        ensures { mutate self.now.core 0 (Op.Same (root_at s) (root_at t)) ≡ (result, self.now.core) }
    {
        // Here the prover learns that the heap is sound.
        let _ = self.heap.space();
        self.heap.same_root(s, t)
    }

    /// Returns `Saw` with what root `s` holds.
    #[inline(always)]
    pub fn look_root(&self, s: u32) -> Reply
        requires { s < length self.now.core.heap.graph.roots }
        ensures { mutate self.now.core 0 (Op.Look (root_at s)) ≡ (result, self.now.core) }
    {
        // Here the prover learns that the heap is sound.
        let _ = self.heap.space();
        self.heap.look_root(s)
    }
}

/// Returns whether a `New` with this reply made an object.
#[inline(always)]
pub(crate) fn has_made(reply: &Reply) -> bool
    ensures made { IsTrue result → reply.now ≢ Reply.Full }
    ensures full { IsFalse result → reply.now ≡ Reply.Full }
{
    match reply {
        Reply::Full => false,
        _ => true,
    }
}

// Returns the number of a field that objects have if they have field `i`: none has a field with the number 65,535 or above.
#[inline(always)]
pub(crate) fn field_number(i: u32) -> u16
    ensures small { i ≤ 65535 → result ≡ i }
    ensures large { 65535 < i → result ≡ 65535 }
{
    if i > 65535 { 65535 } else { i as u16 }
}
