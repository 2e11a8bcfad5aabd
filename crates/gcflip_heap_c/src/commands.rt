//! The exports that perform mutators' commands, with C's numbers as arguments.

ghost use Rattle.std.specs.Prelude.{◌≡◌, ◌≢◌, ◌<◌, ◌^◌, ◌∷◌, [], length, map, IsSomeAnd, IsSome};
ghost use Rattle.gc_check.specs.InC.{no_memory, IsRefusal};
ghost use Rattle.gc_graph.specs.Limits.{lengths};
ghost use Rattle.gc_graph.specs.declared.command.Op.{Op};
ghost use Rattle.gc_model.specs.Steps.{mutate};
ghost use Rattle.gc_collected.specs.CollectedHeap.{new_from_step};
ghost use Rattle.gcflip_heap_c.specs.Commands.{IsCall, IsCommandCall, Replies};
ghost use Rattle.gc_in_c.specs.Replies.{reply_in_c, got_in_c, number_after, view_after};
ghost use Rattle.gcflip_heap_c.specs.Slots.{NamesSlots, numbered_slot};

use crate::answer::OUT_OF_RANGE;
use crate::guards::{lent_to, slot_named};
use crate::handle::GcflipHeap;
use crate::rare::{
    MOST_IN_LINE, new_long, new_long_raw, new_pair_while_open, put_number_while_open,
    put_while_open,
};
use crate::slots::{NumberedSlots, SLOT_NUMBERS, are_slots, numbered_slot};
use gc_graph::Number;
use gc_in_c::{GcflipView, of_fetched, of_look, of_reply, of_result};

/// Makes an object of this kind with `count` fields, all nil, and puts a reference to it into slot `d`.
#[unsafe(no_mangle)]
pub extern "C" fn gcflip_heap_new_object(
    heap: &mut GcflipHeap,
    m: u8,
    d: u8,
    kind: u8,
    count: u16,
) -> u32
    ensures call { IsCommandCall (NamesSlots m (d ∷ []))
        (λ state. mutate state m (Op.New (numbered_slot d) kind count)) heap.old.state heap.new.state result }
    ensures memory { result ≢ no_memory }
    ensures beside { heap.new.beside ≡ heap.old.beside }
{
    let heap = lent_to!(heap, m);
    if count > MOST_IN_LINE {
        return new_long(heap, m, d, kind, count);
    }
    let d = slot_named!(d);
    of_reply(&heap.new_object(m, d, kind, count))
}

/// Makes a raw object of this kind, with `count` fields that are numbers, all 0. Puts a reference to it into slot `d`.
#[unsafe(no_mangle)]
pub extern "C" fn gcflip_heap_new_raw(
    heap: &mut GcflipHeap,
    m: u8,
    d: u8,
    kind: u8,
    count: u16,
) -> u32
    ensures call { IsCommandCall (NamesSlots m (d ∷ []))
        (λ state. mutate state m (Op.NewRaw (numbered_slot d) kind count)) heap.old.state heap.new.state result }
    ensures memory { result ≢ no_memory }
    ensures beside { heap.new.beside ≡ heap.old.beside }
{
    let heap = lent_to!(heap, m);
    if count > MOST_IN_LINE {
        return new_long_raw(heap, m, d, kind, count);
    }
    let d = slot_named!(d);
    of_reply(&heap.new_raw(m, d, kind, count))
}

/// Puts the number `n`, which must be below 2^63, into slot `d`.
#[unsafe(no_mangle)]
pub extern "C" fn gcflip_heap_set_number(heap: &mut GcflipHeap, m: u8, d: u8, n: u64) -> u32
    ensures call { IsCommandCall (λ state. NamesSlots m (d ∷ []) state × (n < 2 ^ 63))
        (λ state. mutate state m (Op.Num (numbered_slot d) n)) heap.old.state heap.new.state result }
    ensures memory { result ≢ no_memory }
    ensures beside { heap.new.beside ≡ heap.old.beside }
{
    let heap = lent_to!(heap, m);
    let d = slot_named!(d);
    let Some(number) = Number::new(n) else {
        return OUT_OF_RANGE;
    };
    of_reply(&heap.num(m, d, number))
}

/// Puts nil into slot `d`.
#[unsafe(no_mangle)]
pub extern "C" fn gcflip_heap_set_nil(heap: &mut GcflipHeap, m: u8, d: u8) -> u32
    ensures call { IsCommandCall (NamesSlots m (d ∷ [])) (λ state. mutate state m (Op.Nil (numbered_slot d))) heap.old.state heap.new.state result }
    ensures memory { result ≢ no_memory }
    ensures beside { heap.new.beside ≡ heap.old.beside }
{
    let heap = lent_to!(heap, m);
    let d = slot_named!(d);
    of_reply(&heap.nil(m, d))
}

/// Copies the value of slot `s` into slot `d`.
#[unsafe(no_mangle)]
pub extern "C" fn gcflip_heap_move(heap: &mut GcflipHeap, m: u8, d: u8, s: u8) -> u32
    ensures call { IsCommandCall (NamesSlots m (d ∷ s ∷ []))
        (λ state. mutate state m (Op.Move (numbered_slot d) (numbered_slot s))) heap.old.state heap.new.state result }
    ensures memory { result ≢ no_memory }
    ensures beside { heap.new.beside ≡ heap.old.beside }
{
    let heap = lent_to!(heap, m);
    let d = slot_named!(d);
    let s = slot_named!(s);
    of_reply(&heap.move_slot(m, d, s))
}

/// Reads field `i` of the object that slot `s` refers to into slot `d`. If the value is a number, also writes it to
/// `number`. If it is a reference, the reply does not say whether the object is raw.
#[unsafe(no_mangle)]
pub extern "C" fn gcflip_heap_get(
    heap: &mut GcflipHeap,
    m: u8,
    d: u8,
    s: u8,
    i: u16,
    number: &mut u64,
) -> u32
    ensures call { IsCall (NamesSlots m (d ∷ s ∷ [])) (Replies (λ state. mutate state m (Op.Get (numbered_slot d) (numbered_slot s) i))
        (λ reply. (result ≡ got_in_c reply) × (number.new ≡ number_after number.old reply))) heap.old.state heap.new.state result }
    ensures silent { IsRefusal result → number.new ≡ number.old }
    ensures memory { result ≢ no_memory }
    ensures beside { heap.new.beside ≡ heap.old.beside }
{
    let heap = lent_to!(heap, m);
    let d = slot_named!(d);
    let s = slot_named!(s);
    of_fetched(heap.fetch(m, d, s, i), number)
}

/// Writes the value of slot `t` to field `i` of the object that slot `s` refers to. Allocates only while a collection
/// is open.
#[unsafe(no_mangle)]
pub extern "C" fn gcflip_heap_put(heap: &mut GcflipHeap, m: u8, s: u8, i: u16, t: u8) -> u32
    ensures call { IsCommandCall (NamesSlots m (s ∷ t ∷ []))
        (λ state. mutate state m (Op.Put (numbered_slot s) i (numbered_slot t))) heap.old.state heap.new.state result }
    ensures memory { result ≡ no_memory → IsSomeAnd heap.old.state (λ s. IsSome s.collection) }
    ensures beside { heap.new.beside ≡ heap.old.beside }
{
    let heap = lent_to!(heap, m);
    if heap.is_open() {
        return put_while_open(heap, m, s, i, t);
    }
    let s = slot_named!(s);
    let t = slot_named!(t);
    of_result(heap.put(m, s, i, t))
}

/// Puts the number `n` into slot `t`, and then writes it to field `i` of the object that slot `s` refers to. This is a
/// `gcflip_heap_set_number` followed by a `gcflip_heap_put`, in one call. Allocates only while a collection is open.
#[unsafe(no_mangle)]
pub extern "C" fn gcflip_heap_put_number(
    heap: &mut GcflipHeap,
    m: u8,
    s: u8,
    i: u16,
    t: u8,
    n: u64,
) -> u32
    ensures call { IsCommandCall (λ state. NamesSlots m (s ∷ t ∷ []) state × (n < 2 ^ 63))
        (λ state. mutate (mutate state m (Op.Num (numbered_slot t) n)).1 m (Op.Put (numbered_slot s) i (numbered_slot t))) heap.old.state heap.new.state result }
    ensures memory { result ≡ no_memory → IsSomeAnd heap.old.state (λ s. IsSome s.collection) }
    ensures beside { heap.new.beside ≡ heap.old.beside }
{
    let heap = lent_to!(heap, m);
    let Some(n) = Number::new(n) else {
        return OUT_OF_RANGE;
    };
    if heap.is_open() {
        return put_number_while_open(heap, m, s, i, t, n);
    }
    if s >= SLOT_NUMBERS || t >= SLOT_NUMBERS {
        return OUT_OF_RANGE;
    }
    let (s, t) = (numbered_slot(s), numbered_slot(t));
    of_result(heap.put_number(m, s, i, t, n))
}

/// Puts nil into slot `t`, and then writes it to field `i` of the object that slot `s` refers to. This is a
/// `gcflip_heap_set_nil` followed by a `gcflip_heap_put`, in one call. Allocates only while a collection is open.
#[unsafe(no_mangle)]
pub extern "C" fn gcflip_heap_put_nil(heap: &mut GcflipHeap, m: u8, s: u8, i: u16, t: u8) -> u32
    ensures call { IsCommandCall (NamesSlots m (s ∷ t ∷ []))
        (λ state. mutate (mutate state m (Op.Nil (numbered_slot t))).1 m (Op.Put (numbered_slot s) i (numbered_slot t))) heap.old.state heap.new.state result }
    ensures memory { result ≡ no_memory → IsSomeAnd heap.old.state (λ s. IsSome s.collection) }
    ensures beside { heap.new.beside ≡ heap.old.beside }
{
    let heap = lent_to!(heap, m);
    let s = slot_named!(s);
    let t = slot_named!(t);
    of_result(heap.put_nil(m, s, i, t))
}

/// Makes an object of this kind with two fields, which take the values of slots `s` and `t`, and puts a reference to
/// it into slot `d`. This is a `gcflip_heap_new_object` followed by two `gcflip_heap_put`, in one call. Slot `d` is set
/// first, so a field filled from slot `d` refers to the object itself. Allocates only while a collection is open.
#[unsafe(no_mangle)]
pub extern "C" fn gcflip_heap_new_pair(
    heap: &mut GcflipHeap,
    m: u8,
    d: u8,
    kind: u8,
    s: u8,
    t: u8,
) -> u32
    ensures call { IsCommandCall (NamesSlots m (d ∷ s ∷ t ∷ []))
        (λ state. new_from_step state m (numbered_slot d) kind (numbered_slot s ∷ numbered_slot t ∷ [])) heap.old.state heap.new.state result }
    ensures memory { result ≡ no_memory → IsSomeAnd heap.old.state (λ s. IsSome s.collection) }
    ensures beside { heap.new.beside ≡ heap.old.beside }
{
    let heap = lent_to!(heap, m);
    if heap.is_open() {
        return new_pair_while_open(heap, m, d, kind, s, t);
    }
    if d >= SLOT_NUMBERS || s >= SLOT_NUMBERS || t >= SLOT_NUMBERS {
        return OUT_OF_RANGE;
    }
    let (d, s, t) = (numbered_slot(d), numbered_slot(s), numbered_slot(t));
    of_result(heap.cons(m, d, kind, s, t))
}

/// Makes an object of this kind, and puts a reference to it into slot `d`. `fields` has a slot number for each field,
/// which takes the value of that slot. This is a `gcflip_heap_new_object` followed by a `gcflip_heap_put` for each field, in
/// one call. Slot `d` is set first, so a field filled from slot `d` refers to the object itself. Allocates only while
/// a collection is open.
#[unsafe(no_mangle)]
pub extern "C" fn gcflip_heap_new_from(
    heap: &mut GcflipHeap,
    m: u8,
    d: u8,
    kind: u8,
    fields: &[u8],
) -> u32
    ensures call { IsCommandCall (λ state. NamesSlots m (d ∷ fields.now) state × (length fields.now < lengths))
        (λ state. new_from_step state m (numbered_slot d) kind (map numbered_slot fields.now)) heap.old.state heap.new.state result }
    ensures memory { result ≡ no_memory → IsSomeAnd heap.old.state (λ s. IsSome s.collection) }
    ensures beside { heap.new.beside ≡ heap.old.beside }
{
    let heap = lent_to!(heap, m);
    let d = slot_named!(d);
    if fields.len() > usize::from(u16::MAX) || !are_slots(fields) {
        return OUT_OF_RANGE;
    }
    // Here the prover learns how many roots there are.
    let _ = heap.root_places();
    let fields = NumberedSlots { numbers: fields };
    of_result(heap.new_from(m, d, kind, &fields))
}

/// Compares the values of slots `s` and `t`.
#[unsafe(no_mangle)]
pub extern "C" fn gcflip_heap_same(heap: &mut GcflipHeap, m: u8, s: u8, t: u8) -> u32
    ensures call { IsCommandCall (NamesSlots m (s ∷ t ∷ []))
        (λ state. mutate state m (Op.Same (numbered_slot s) (numbered_slot t))) heap.old.state heap.new.state result }
    ensures memory { result ≢ no_memory }
    ensures beside { heap.new.beside ≡ heap.old.beside }
{
    let heap = lent_to!(heap, m);
    let s = slot_named!(s);
    let t = slot_named!(t);
    of_reply(&heap.same(m, s, t))
}

/// Looks at the value of slot `s`, and writes what it saw to `view`.
#[unsafe(no_mangle)]
pub extern "C" fn gcflip_heap_look(
    heap: &mut GcflipHeap,
    m: u8,
    s: u8,
    view: &mut GcflipView,
) -> u32
    ensures call { IsCall (NamesSlots m (s ∷ [])) (Replies (λ state. mutate state m (Op.Look (numbered_slot s)))
        (λ reply. (result ≡ reply_in_c reply) × (view.new ≡ view_after view.old reply))) heap.old.state heap.new.state result }
    ensures silent { IsRefusal result → view.new ≡ view.old }
    ensures memory { result ≢ no_memory }
    ensures beside { heap.new.beside ≡ heap.old.beside }
{
    let heap = lent_to!(heap, m);
    let s = slot_named!(s);
    of_look(&heap.look(m, s), view)
}
