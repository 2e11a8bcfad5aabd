//! The exports that perform commands on any root, which they name by its place in the list of roots: first the shared slots, then each mutator's own, then
//! the extra roots.

ghost use Rattle.std.specs.Prelude.{◌≡◌, ◌≢◌, ◌<◌, ◌≤◌, ◌+◌, ◌^◌, ◌∷◌, [], IsSomeAnd, IsSome};
ghost use Rattle.gc_check.specs.InC.{no_memory, IsRefusal};
ghost use Rattle.gc_graph.specs.Graph.{Nil, Num};
ghost use Rattle.gc_graph.specs.Limits.{kinds, lengths};
ghost use Rattle.gc_graph.specs.declared.command.Op.{Op};
ghost use Rattle.gc_graph.specs.declared.reply.Reply.{Reply};
ghost use Rattle.gc_heap.specs.Places.{root_at};
ghost use Rattle.gc_model.specs.Steps.{mutate};
ghost use Rattle.gc_collected.specs.Surely.{PutsSurely};
ghost use Rattle.gc_collected.specs.Values.{put_value_step};
ghost use Rattle.gc_collected.specs.Viewing.{get_reply};
ghost use Rattle.gc_collected.specs.Spreading.{AskForRow};
ghost use Rattle.gcflip_heap_c.specs.Commands.{IsCall, IsCommandCall, Replies, heap_behind};
ghost use Rattle.gcflip_heap_c.specs.Places.{HasRoots};
ghost use Rattle.gc_in_c.specs.Replies.{reply_in_c, got_in_c, number_after, view_after};

use crate::answer::OUT_OF_RANGE;
use crate::guards::lent;
use crate::handle::GcflipHeap;
use crate::rare::put_at_roots_while_open;
use gc_collected::Plain;
use gc_graph::Number;
use gc_in_c::{GcflipView, of_fetched, of_look, of_reply, of_result};

/// Makes an object of this kind with `count` fields, all nil, and puts a reference to it into root `d`.
#[unsafe(no_mangle)]
pub extern "C" fn gcflip_new(heap: &mut GcflipHeap, d: u32, kind: u32, count: u32) -> u32
    ensures call { IsCommandCall (λ state. HasRoots (d ∷ []) state × (kind < kinds) × (count < lengths))
        (λ state. mutate state 0 (Op.New (root_at d) kind count)) heap.old.state heap.new.state result }
    ensures memory { result ≢ no_memory }
    ensures beside { heap.new.beside ≡ heap.old.beside }
    ensures looks { AskForRow d 1 heap.old.roots_left heap.new.roots_left }
{
    let heap = lent!(heap);
    if d as usize >= heap.root_places() || kind > 255 || count > 65535 {
        return OUT_OF_RANGE;
    }
    of_reply(&heap.new_at_root(d, kind as u8, count as u16))
}

/// Makes a raw object of this kind, with `count` fields that are numbers, all 0. Puts a reference to it into root `d`.
#[unsafe(no_mangle)]
pub extern "C" fn gcflip_new_raw(heap: &mut GcflipHeap, d: u32, kind: u32, count: u32) -> u32
    ensures call { IsCommandCall (λ state. HasRoots (d ∷ []) state × (kind < kinds) × (count < lengths))
        (λ state. mutate state 0 (Op.NewRaw (root_at d) kind count)) heap.old.state heap.new.state result }
    ensures memory { result ≢ no_memory }
    ensures beside { heap.new.beside ≡ heap.old.beside }
    ensures looks { AskForRow d 1 heap.old.roots_left heap.new.roots_left }
{
    let heap = lent!(heap);
    if d as usize >= heap.root_places() || kind > 255 || count > 65535 {
        return OUT_OF_RANGE;
    }
    of_reply(&heap.new_raw_at_root(d, kind as u8, count as u16))
}

/// Puts the number `n`, which must be below 2^63, into root `d`.
#[unsafe(no_mangle)]
pub extern "C" fn gcflip_set_number(heap: &mut GcflipHeap, d: u32, n: u64) -> u32
    ensures call { IsCommandCall (λ state. HasRoots (d ∷ []) state × (n < 2 ^ 63))
        (λ state. mutate state 0 (Op.Num (root_at d) n)) heap.old.state heap.new.state result }
    ensures memory { result ≢ no_memory }
    ensures beside { heap.new.beside ≡ heap.old.beside }
    ensures looks { AskForRow d 1 heap.old.roots_left heap.new.roots_left }
{
    let heap = lent!(heap);
    if d as usize >= heap.root_places() {
        return OUT_OF_RANGE;
    }
    let Some(number) = Number::new(n) else {
        return OUT_OF_RANGE;
    };
    of_reply(&heap.num_root(d, number))
}

/// Puts nil into root `d`.
#[unsafe(no_mangle)]
pub extern "C" fn gcflip_set_nil(heap: &mut GcflipHeap, d: u32) -> u32
    ensures call { IsCommandCall (HasRoots (d ∷ []))
        (λ state. mutate state 0 (Op.Nil (root_at d))) heap.old.state heap.new.state result }
    ensures memory { result ≢ no_memory }
    ensures beside { heap.new.beside ≡ heap.old.beside }
    ensures looks { (heap.old.roots_left ≤ heap.new.roots_left) × (heap.new.roots_left ≤ heap.old.roots_left + 1) }
{
    let heap = lent!(heap);
    if d as usize >= heap.root_places() {
        return OUT_OF_RANGE;
    }
    of_reply(&heap.nil_root(d))
}

/// Copies the value of root `s` into root `d`.
#[unsafe(no_mangle)]
pub extern "C" fn gcflip_copy(heap: &mut GcflipHeap, d: u32, s: u32) -> u32
    ensures call { IsCommandCall (HasRoots (d ∷ s ∷ []))
        (λ state. mutate state 0 (Op.Move (root_at d) (root_at s))) heap.old.state heap.new.state result }
    ensures memory { result ≢ no_memory }
    ensures beside { heap.new.beside ≡ heap.old.beside }
    ensures looks { AskForRow d 1 heap.old.roots_left heap.new.roots_left }
{
    let heap = lent!(heap);
    let roots = heap.root_places();
    if d as usize >= roots || s as usize >= roots {
        return OUT_OF_RANGE;
    }
    of_reply(&heap.copy_root(d, s))
}

/// Reads field `i` of the object that root `s` refers to into root `d`. If the value is a number, also writes it to `number`. If it is a reference, the
/// reply does not say whether the object is raw.
#[unsafe(no_mangle)]
pub extern "C" fn gcflip_get(heap: &mut GcflipHeap, d: u32, s: u32, i: u32, number: &mut u64) -> u32
    ensures call { IsCall (HasRoots (d ∷ s ∷ [])) (Replies (λ state. mutate state 0 (Op.Get (root_at d) (root_at s) i))
        (λ reply. (result ≡ got_in_c reply) × (number.new ≡ number_after number.old reply))) heap.old.state heap.new.state result }
    ensures silent { IsRefusal result → number.new ≡ number.old }
    ensures memory { result ≢ no_memory }
    ensures beside { heap.new.beside ≡ heap.old.beside }
    ensures looks { AskForRow d 1 heap.old.roots_left heap.new.roots_left }
{
    let heap = lent!(heap);
    let roots = heap.root_places();
    if d as usize >= roots || s as usize >= roots {
        return OUT_OF_RANGE;
    }
    of_fetched(heap.fetch_root(d, s, i), number)
}

/// Writes the value of root `t` to field `i` of the object that root `s` refers to. While a collection is open, the field is logged in mutator `m`'s log.
/// Allocates only then.
#[unsafe(no_mangle)]
pub extern "C" fn gcflip_put(heap: &mut GcflipHeap, m: u32, s: u32, i: u32, t: u32) -> u32
    ensures call { IsCommandCall (λ state. (m < state.mutators) × HasRoots (s ∷ t ∷ []) state)
        (λ state. mutate state m (Op.Put (root_at s) i (root_at t))) heap.old.state heap.new.state result }
    ensures memory { result ≡ no_memory → IsSomeAnd heap.old.state (λ s. IsSome s.collection) }
    ensures beside { heap.new.beside ≡ heap.old.beside }
    ensures looks { heap.new.roots_left ≡ heap.old.roots_left }
{
    let heap = lent!(heap);
    let roots = heap.root_places();
    if m >= u32::from(heap.mutators()) || s as usize >= roots || t as usize >= roots {
        return OUT_OF_RANGE;
    }
    if heap.is_open() {
        return put_at_roots_while_open(heap, m as u8, s, i, t);
    }
    of_result(heap.put_root(m as u8, s, i, t))
}

/// Does what `gcflip_put` does, but never lacks memory: where the log cannot grow, first gives the open collection up.
#[unsafe(no_mangle)]
pub extern "C" fn gcflip_put_sure(heap: &mut GcflipHeap, m: u32, s: u32, i: u32, t: u32) -> u32
    ensures call { IsCall (λ state. (m < state.mutators) × HasRoots (s ∷ t ∷ []) state) (λ before after. (reply : Reply)
        × PutsSurely m (Op.Put (root_at s) i (root_at t)) reply (heap_behind heap.old before) (heap_behind heap.new after) × (result ≡ reply_in_c reply)) heap.old.state heap.new.state result }
    ensures memory { result ≢ no_memory }
    ensures unchanged { IsRefusal result → heap.new.beside ≡ heap.old.beside }
{
    let heap = lent!(heap);
    let roots = heap.root_places();
    if m >= u32::from(heap.mutators()) || s as usize >= roots || t as usize >= roots {
        return OUT_OF_RANGE;
    }
    of_reply(&heap.put_surely(m as u8, s, i, t))
}

/// Writes the number `n`, which must be below 2^63, to field `i` of the object that root `s` refers to. No root changes. While a collection is open, the
/// field is logged in mutator `m`'s log. Allocates only then.
#[unsafe(no_mangle)]
pub extern "C" fn gcflip_put_number(heap: &mut GcflipHeap, m: u32, s: u32, i: u32, n: u64) -> u32
    ensures call { IsCommandCall (λ state. (m < state.mutators) × HasRoots (s ∷ []) state × (n < 2 ^ 63))
        (λ state. put_value_step state m s i (Num n)) heap.old.state heap.new.state result }
    ensures memory { result ≡ no_memory → IsSomeAnd heap.old.state (λ s. IsSome s.collection) }
    ensures beside { heap.new.beside ≡ heap.old.beside }
    ensures looks { heap.new.roots_left ≡ heap.old.roots_left }
{
    let heap = lent!(heap);
    if m >= u32::from(heap.mutators()) || s as usize >= heap.root_places() {
        return OUT_OF_RANGE;
    }
    let Some(number) = Number::new(n) else {
        return OUT_OF_RANGE;
    };
    of_result(heap.put_plain(m as u8, s, i, Plain::Number(number)))
}

/// Writes nil to field `i` of the object that root `s` refers to, as `gcflip_put_number` writes a number.
#[unsafe(no_mangle)]
pub extern "C" fn gcflip_put_nil(heap: &mut GcflipHeap, m: u32, s: u32, i: u32) -> u32
    ensures call { IsCommandCall (λ state. (m < state.mutators) × HasRoots (s ∷ []) state)
        (λ state. put_value_step state m s i Nil) heap.old.state heap.new.state result }
    ensures memory { result ≡ no_memory → IsSomeAnd heap.old.state (λ s. IsSome s.collection) }
    ensures beside { heap.new.beside ≡ heap.old.beside }
    ensures looks { heap.new.roots_left ≡ heap.old.roots_left }
{
    let heap = lent!(heap);
    if m >= u32::from(heap.mutators()) || s as usize >= heap.root_places() {
        return OUT_OF_RANGE;
    }
    of_result(heap.put_plain(m as u8, s, i, Plain::Nil))
}

/// Compares the values of two roots.
#[unsafe(no_mangle)]
pub extern "C" fn gcflip_same(heap: &mut GcflipHeap, s: u32, t: u32) -> u32
    ensures call { IsCommandCall (HasRoots (s ∷ t ∷ []))
        (λ state. mutate state 0 (Op.Same (root_at s) (root_at t))) heap.old.state heap.new.state result }
    ensures memory { result ≢ no_memory }
    ensures beside { heap.new.beside ≡ heap.old.beside }
{
    let heap = lent!(heap);
    let roots = heap.root_places();
    if s as usize >= roots || t as usize >= roots {
        return OUT_OF_RANGE;
    }
    of_reply(&heap.same_root(s, t))
}

/// Looks at the value of root `s`, and writes what it saw to `view`.
#[unsafe(no_mangle)]
pub extern "C" fn gcflip_look(heap: &mut GcflipHeap, s: u32, view: &mut GcflipView) -> u32
    ensures call { IsCall (HasRoots (s ∷ [])) (Replies (λ state. mutate state 0 (Op.Look (root_at s)))
        (λ reply. (result ≡ reply_in_c reply) × (view.new ≡ view_after view.old reply))) heap.old.state heap.new.state result }
    ensures silent { IsRefusal result → view.new ≡ view.old }
    ensures memory { result ≢ no_memory }
    ensures beside { heap.new.beside ≡ heap.old.beside }
{
    let heap = lent!(heap);
    if s as usize >= heap.root_places() {
        return OUT_OF_RANGE;
    }
    of_look(&heap.look_root(s), view)
}

/// Reads field `i` of the object that root `s` refers to, as `gcflip_get` does, but into no root. Writes what it saw to `view`.
#[unsafe(no_mangle)]
pub extern "C" fn gcflip_peek(heap: &mut GcflipHeap, s: u32, i: u32, view: &mut GcflipView) -> u32
    ensures call { IsCall (HasRoots (s ∷ [])) (λ old new. (new ≡ old) × (result ≡ reply_in_c (get_reply old s i))
        × (view.new ≡ view_after view.old (get_reply old s i))) heap.old.state heap.new.state result }
    ensures silent { IsRefusal result → view.new ≡ view.old }
    ensures memory { result ≢ no_memory }
    ensures beside { heap.new.beside ≡ heap.old.beside }
{
    let heap = lent!(heap);
    if s as usize >= heap.root_places() {
        return OUT_OF_RANGE;
    }
    of_look(&heap.peek_root(s, i), view)
}
