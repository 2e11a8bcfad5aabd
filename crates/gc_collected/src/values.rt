//! Commands by places that set a root or a field to nil or to a number. No other root takes the value.

ghost use Rattle.std.specs.Prelude.{ℕ, List, ◌≡◌, ◌<◌, ◌≤◌, ◌-◌, length, IfOk, OnErr, IsSome};
ghost use Rattle.gc_graph.specs.Slots.{roots_of};
ghost use Rattle.gc_graph.specs.declared.command.Op.{Op};
ghost use Rattle.gc_words.specs.Closed.{IsRootWord};
ghost use Rattle.gc_words.specs.Word.{value_of};
ghost use Rattle.gc_heap.specs.Commands.{Performs};
ghost use Rattle.gc_heap.specs.Heap.{IsHeap};
ghost use Rattle.gc_heap.specs.Places.{root_at};
ghost use Rattle.gc_model.specs.Steps.{mutate};
ghost use Rattle.gc_roots.specs.Twins.{AskForLooks};
ghost use Rattle.gc_collected.specs.Values.{clear_roots_step, put_value_step, value_of_plain};
ghost use Rattle.gc_collected.specs.Internal.Values.{set_plain};
ghost use Rattle.gc_collected.specs.Internal.CollectedHeap.{BelongsIfOpen, Fits, HasSpare, state_in};
ghost use Rattle.gc_collected.specs.Internal.Follows.{Follows};

use crate::barrier::{put_root_in, reserve_in};
use crate::collected_heap::CollectedHeap;
use crate::copying::{object, put_words};
use crate::places::field_number;
use gc_copy::Collection;
use gc_graph::{NoMemory, Number, Reply};
use gc_heap::{Heap, field_word};
use gc_monitor::Monitor;
use gc_words::{Value, encode};

/// A value that refers to no object.
#[derive(Clone, Copy, Debug, Drop)]
pub enum Plain {
    Nil,
    Number(Number),
}

impl CollectedHeap {
    /// Sets root `d` to nil. Returns `Done`. Does not allocate.
    #[inline(always)]
    pub fn nil_root(&mut self, d: u32) -> Reply
        requires { d < length self.old.core.heap.graph.roots }
        ensures step { mutate self.old.core 0 (Op.Nil (root_at d)) ≡ (result, self.new.core) }
        ensures mutators { self.new.core.mutators ≡ self.old.core.mutators }
        ensures beside { self.new.beside ≡ self.old.beside }
        ensures looks { AskForLooks 1 self.old.roots_left self.new.roots_left }
    {
        self.nil_into(d, self.is_slot(d))
    }

    /// Sets the roots from root `from` on, and below root `to`, to nil, each by a `Nil`, in rising order. Does not allocate, and logs nothing.
    pub fn clear_roots(&mut self, from: u32, to: u32)
        requires { to ≤ length self.old.core.heap.graph.roots }
        ensures step { clear_roots_step self.old.core from (to - from) ≡ self.new.core }
        ensures mutators { self.new.core.mutators ≡ self.old.core.mutators }
        ensures beside { self.new.beside ≡ self.old.beside }
        ensures looks { AskForLooks (to - from) self.old.roots_left self.new.roots_left }
    {
        for p in from..to {
            let _done = self.nil_root(p);
        }
    }

    /// Writes nil or a number to field `i` of the object that root `s` refers to, as mutator `m`'s `Put` of a root that holds it. No root changes. Returns
    /// `Done`, or else `NoObject` or `NoField`, or `NoNumber` for nil and a raw object. While a collection is open, the field is logged (the write
    /// barrier). Only then can the call return `NoMemory`, and the heap is unchanged.
    #[inline(always)]
    pub fn put_plain(&mut self, m: u8, s: u32, i: u32, value: Plain) -> Result<Reply, NoMemory>
        requires mutator { m < self.old.core.mutators }
        requires target { s < length self.old.core.heap.graph.roots }
        ensures step { IfOk result (λ reply. put_value_step self.old.core m s i (value_of_plain value) ≡ (reply, self.new.core)) }
        ensures refused { OnErr result (self.new ≡ self.old) }
        ensures open { OnErr result (IsSome self.old.core.collection) }
        ensures mutators { self.new.core.mutators ≡ self.old.core.mutators }
        ensures beside { self.new.beside ≡ self.old.beside }
        ensures looks { IfOk result (λ _. self.new.roots_left ≡ self.old.roots_left) }
    {
        self.is_sound();
        // Here the prover learns that the heap is sound.
        let _ = self.heap.space();
        reserve_in(&mut self.collection, m, 1)?;
        Ok(put_plain_in(
            &mut self.collection,
            &mut self.heap,
            &mut self.watch,
            m,
            s,
            field_number(i),
            value,
        ))
    }

    /// Sets slot `t`, by its place, to nil or a number, and then performs mutator `m`'s `put_root` of it, in one call. Returns the reply to the `put_root`.
    /// Returns `NoMemory` only while a collection is open; the heap is then unchanged.
    #[inline(always)]
    pub(crate) fn put_through(
        &mut self,
        m: u8,
        s: u32,
        i: u16,
        t: u32,
        value: Plain,
    ) -> Result<Reply, NoMemory>
        requires mutator { m < self.old.core.mutators }
        requires target { s < length self.old.core.heap.graph.roots }
        requires giver { t < roots_of self.old.core.mutators }
        ensures step { IfOk result (λ reply.
            mutate (mutate self.old.core m (set_plain t value)).1 m (Op.Put (root_at s) i (root_at t)) ≡ (reply, self.new.core)) }
        ensures refused { OnErr result (self.new ≡ self.old) }
        ensures open { OnErr result (IsSome self.old.core.collection) }
        ensures mutators { self.new.core.mutators ≡ self.old.core.mutators }
        ensures beside { self.new.beside ≡ self.old.beside }
        ensures looks { self.new.roots_left ≡ self.old.roots_left }
    {
        self.is_sound();
        // Here the prover learns that the heap is sound, and how many roots there are.
        let _ = self.heap.space();
        let _ = self.root_places();
        let is_open = self.collection.is_some();
        reserve_in(&mut self.collection, m, 1)?;
        let _done = set_plain(&mut self.heap, t, value);
        Ok(put_root_in(
            &mut self.collection,
            &mut self.heap,
            &mut self.watch,
            is_open,
            m,
            s,
            i,
            t,
        ))
    }
}

// Sets root `d` to nil or a number. Returns `Done`.
#[inline(always)]
fn set_plain(heap: &mut Heap, d: u32, value: Plain) -> Reply
    requires { d < length heap.old.roots }
    ensures performs { (m : ℕ) → Performs heap.old m (set_plain d value) result heap.new }
    ensures sound { IsHeap heap.new }
{
    match value {
        Plain::Nil => heap.nil_root(d),
        Plain::Number(n) => heap.num_root(d, n),
    }
}

// Performs a `Put` of the value by mutator `m`, as `put_plain` does. If a collection is open, the log needs room.
#[inline(always)]
fn put_plain_in(
    collection: &mut Option<Collection>,
    heap: &mut Heap,
    watch: &mut Monitor,
    m: u8,
    s: u32,
    i: u16,
    value: Plain,
) -> Reply
    requires belongs { BelongsIfOpen heap.old collection.old }
    requires mutator { m < heap.old.mutators }
    requires target { s < length heap.old.roots }
    requires room { HasSpare collection.old m 1 }
    ensures step { put_value_step (state_in heap.old collection.old) m s i (value_of_plain value) ≡ (result, state_in heap.new collection.new) }
    ensures fits { (epoch : ℕ) → Fits epoch heap.old collection.old → Fits epoch heap.new collection.new }
    ensures mutators { heap.new.mutators ≡ heap.old.mutators }
    ensures follows { Follows (state_in heap.old collection.old) watch.old → Follows (state_in heap.new collection.new) watch.new }
{
    // Here the prover learns that the heap is sound.
    let _ = heap.space();
    let Some((object, header, _)) = object(heap, s) else {
        return Reply::NoObject;
    };
    if i >= header.len() {
        return Reply::NoField;
    }
    let Some(word) = field_word(heap.space(), header, plain_word(value)) else {
        return Reply::NoNumber;
    };
    put_words(collection, heap, watch, m, s, object, header, i, 1, word);
    Reply::Done
}

// The word of a root that holds the value.
#[inline(always)]
fn plain_word(value: Plain) -> u64
    ensures root { (words : List ℕ) → IsRootWord words result }
    ensures value { value_of result ≡ value_of_plain value }
{
    match value {
        Plain::Nil => encode(Value::Nil),
        Plain::Number(n) => encode(Value::Num(n)),
    }
}
