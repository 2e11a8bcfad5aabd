//! Commands in the rarer cases: long objects, and writes while a collection is open. They are functions of their own, which an export calls
//! last. So the common case of the export calls at most what makes the standing checker's rows longer, and saves fewer registers.

ghost use Rattle.std.specs.Prelude.{◌≡◌, ◌≢◌, ◌<◌, ◌∷◌, [], Some, IsSome, length};
ghost use Rattle.gc_heap.specs.Places.{root_at};
ghost use Rattle.gc_check.specs.InC.{no_memory};
ghost use Rattle.gc_graph.specs.declared.command.Op.{Op};
ghost use Rattle.gc_model.specs.Steps.{mutate};
ghost use Rattle.gc_collected.specs.CollectedHeap.{new_from_step};
ghost use Rattle.gcflip_heap_c.specs.Commands.{IsCommandCall};
ghost use Rattle.gcflip_heap_c.specs.Places.{HasRoots};
ghost use Rattle.gcflip_heap_c.specs.Slots.{NamesSlots, numbered_slot};

use crate::answer::OUT_OF_RANGE;
use crate::guards::slot_named;
use crate::slots::{SLOT_NUMBERS, numbered_slot};
use gc_collected::CollectedHeap;
use gc_graph::Number;
use gc_in_c::{of_reply, of_result};

/// The most fields of an object that is filled in line: gc_words writes a link and so many fields without a call.
pub(crate) const MOST_IN_LINE: u16 = 9;

/// Makes a long object, as `gcflip_heap_new_object` does.
#[inline(never)]
pub(crate) fn new_long(heap: &mut CollectedHeap, m: u8, d: u8, kind: u8, count: u16) -> u32
    requires { m < heap.old.core.mutators }
    ensures call { IsCommandCall (NamesSlots m (d ∷ []))
        (λ state. mutate state m (Op.New (numbered_slot d) kind count)) (Some heap.old.core) (Some heap.new.core) result }
    ensures beside { heap.new.beside ≡ heap.old.beside }
    ensures memory { result ≢ no_memory }
{
    let d = slot_named!(d);
    of_reply(&heap.new_object(m, d, kind, count))
}

/// Makes a long raw object, as `gcflip_heap_new_raw` does.
#[inline(never)]
pub(crate) fn new_long_raw(heap: &mut CollectedHeap, m: u8, d: u8, kind: u8, count: u16) -> u32
    requires { m < heap.old.core.mutators }
    ensures call { IsCommandCall (NamesSlots m (d ∷ []))
        (λ state. mutate state m (Op.NewRaw (numbered_slot d) kind count)) (Some heap.old.core) (Some heap.new.core) result }
    ensures beside { heap.new.beside ≡ heap.old.beside }
    ensures memory { result ≢ no_memory }
{
    let d = slot_named!(d);
    of_reply(&heap.new_raw(m, d, kind, count))
}

/// Performs `gcflip_heap_put` while a collection is open.
#[inline(never)]
pub(crate) fn put_while_open(heap: &mut CollectedHeap, m: u8, s: u8, i: u16, t: u8) -> u32
    requires { m < heap.old.core.mutators }
    ensures call { IsCommandCall (NamesSlots m (s ∷ t ∷ []))
        (λ state. mutate state m (Op.Put (numbered_slot s) i (numbered_slot t))) (Some heap.old.core) (Some heap.new.core) result }
    ensures beside { heap.new.beside ≡ heap.old.beside }
    ensures memory { result ≡ no_memory → IsSome heap.old.core.collection }
{
    if s >= SLOT_NUMBERS || t >= SLOT_NUMBERS {
        return OUT_OF_RANGE;
    }
    let (s, t) = (numbered_slot(s), numbered_slot(t));
    of_result(heap.put(m, s, i, t))
}

/// Performs `gcflip_put` while a collection is open.
#[inline(never)]
pub(crate) fn put_at_roots_while_open(
    heap: &mut CollectedHeap,
    m: u8,
    s: u32,
    i: u32,
    t: u32,
) -> u32
    requires mutator { m < heap.old.core.mutators }
    requires target { s < length heap.old.core.heap.graph.roots }
    requires giver { t < length heap.old.core.heap.graph.roots }
    ensures call { IsCommandCall (λ state. (m < state.mutators) × HasRoots (s ∷ t ∷ []) state)
        (λ state. mutate state m (Op.Put (root_at s) i (root_at t))) (Some heap.old.core) (Some heap.new.core) result }
    ensures beside { heap.new.beside ≡ heap.old.beside }
    ensures memory { result ≡ no_memory → IsSome heap.old.core.collection }
    ensures looks { heap.new.roots_left ≡ heap.old.roots_left }
{
    of_result(heap.put_root(m, s, i, t))
}

/// Performs `gcflip_heap_put_number` while a collection is open.
#[inline(never)]
pub(crate) fn put_number_while_open(
    heap: &mut CollectedHeap,
    m: u8,
    s: u8,
    i: u16,
    t: u8,
    n: Number,
) -> u32
    requires { m < heap.old.core.mutators }
    ensures call { IsCommandCall (NamesSlots m (s ∷ t ∷ []))
        (λ state. mutate (mutate state m (Op.Num (numbered_slot t) n)).1 m (Op.Put (numbered_slot s) i (numbered_slot t))) (Some heap.old.core) (Some heap.new.core) result }
    ensures beside { heap.new.beside ≡ heap.old.beside }
    ensures memory { result ≡ no_memory → IsSome heap.old.core.collection }
{
    if s >= SLOT_NUMBERS || t >= SLOT_NUMBERS {
        return OUT_OF_RANGE;
    }
    let (s, t) = (numbered_slot(s), numbered_slot(t));
    of_result(heap.put_number(m, s, i, t, n))
}

/// Performs `gcflip_heap_new_pair` while a collection is open.
#[inline(never)]
pub(crate) fn new_pair_while_open(
    heap: &mut CollectedHeap,
    m: u8,
    d: u8,
    kind: u8,
    s: u8,
    t: u8,
) -> u32
    requires { m < heap.old.core.mutators }
    ensures call { IsCommandCall (NamesSlots m (d ∷ s ∷ t ∷ []))
        (λ state. new_from_step state m (numbered_slot d) kind (numbered_slot s ∷ numbered_slot t ∷ [])) (Some heap.old.core) (Some heap.new.core) result }
    ensures beside { heap.new.beside ≡ heap.old.beside }
    ensures memory { result ≡ no_memory → IsSome heap.old.core.collection }
{
    if d >= SLOT_NUMBERS || s >= SLOT_NUMBERS || t >= SLOT_NUMBERS {
        return OUT_OF_RANGE;
    }
    let (d, s, t) = (numbered_slot(d), numbered_slot(s), numbered_slot(t));
    of_result(heap.cons(m, d, kind, s, t))
}
