//! The exports that make an object whose fields take numbers, and the values of roots or of slots.

ghost use Rattle.std.specs.Prelude.{ℕ, ◌≡◌, ◌≢◌, ◌<◌, ◌^◌, ◌↔◌, ◌∷◌, [], IsTrue, IsSome, IsSomeAnd, map};
ghost use Rattle.std.specs.List.{AllByRecursion};
ghost use Rattle.gc_check.specs.InC.{no_memory};
ghost use Rattle.gc_graph.specs.Limits.{kinds};
ghost use Rattle.gc_collected.specs.Giving.{IsGiven, new_given_step};
ghost use Rattle.gc_collected.specs.Mixed.{new_with_step};
ghost use Rattle.gc_collected.specs.Spreading.{AskForRow};
ghost use Rattle.gcflip_heap_c.specs.Commands.{IsCommandCall};
ghost use Rattle.gcflip_heap_c.specs.Mixed.{is_field, source_of as source_in, value_of_field, AreFields, AreSources, GivesFields};
ghost use Rattle.gcflip_heap_c.specs.Places.{HasRoots};
ghost use Rattle.gcflip_heap_c.specs.Slots.{NamesSlots, numbered_slot, slot_numbers};

use crate::answer::OUT_OF_RANGE;
use crate::guards::{lent, lent_to, slot_named};
use crate::handle::GcflipHeap;
use crate::slots::{SLOT_NUMBERS, numbered_slot};
use gc_collected::{FieldSource, FieldValue, SourceRow, ValueRow};
use gc_graph::Number;
use gc_in_c::of_result;

/// What a field of a new object takes, as C says it.
#[repr(C)]
#[derive(Clone, Copy, Debug, Drop, PartialEq, Eq)]
pub struct GcflipField {
    /// 0: the field stays nil. 1: it takes the number `value`. 2: it takes the value of the root at the place `value`, or in a call by slots that of the slot
    /// with this number.
    pub holds: u32,
    /// A number below 2^63, or the place of a root, or the number of a slot.
    pub value: u64,
}

// Whether the record says nothing, or names a number, or one of so many slots or roots.
fn is_field(field: GcflipField, names: usize) -> bool
    ensures { result ≡ is_field names field }
{
    match field.holds {
        0 => true,
        1 => field.value < 1 << 63,
        2 => field.value < names as u64,
        _ => false,
    }
}

// Whether all records do.
fn are_fields(fields: &[GcflipField], names: usize) -> bool
    ensures { IsTrue result ↔ AllByRecursion (λ f. IsTrue (is_field names f)) fields.now }
{
    for field in fields {
        if !is_field(*field, names) {
            return false;
        }
    }
    true
}

// What the field takes, by slots.
fn source_of(field: GcflipField) -> FieldSource
    requires { IsTrue (is_field slot_numbers field) }
    ensures { result ≡ source_in field }
{
    match field.holds {
        1 => FieldSource::Number(Number::new(field.value).unwrap()),
        2 => FieldSource::Slot(numbered_slot(field.value as u8)),
        _ => FieldSource::Nil,
    }
}

/// What the fields take that these records describe by slots, in order.
#[derive(Drop)]
struct SlotFields<'a> {
    fields: &'a [GcflipField],
}

impl SourceRow for SlotFields<'_> {
    ghost is_row = { λ row. AreSources row.fields.now };

    ghost sources = { λ row. map source_in row.fields.now };

    fn count(&self) -> u16 {
        self.fields.len() as u16
    }

    #[inline(always)]
    fn source(&self, i: u16) -> FieldSource {
        source_of(self.fields[usize::from(i)])
    }
}

// What the field takes, by places.
fn value_of(field: GcflipField) -> FieldValue
    requires { (names : ℕ) × IsTrue (is_field names field) × (names < 2 ^ 32) }
    ensures value { result ≡ value_of_field field }
    ensures given { (names : ℕ) → IsTrue (is_field names field) → IsGiven names result }
{
    match field.holds {
        1 => FieldValue::Number(Number::new(field.value).unwrap()),
        2 => FieldValue::Root(field.value as u32),
        _ => FieldValue::Nil,
    }
}

/// What the fields take that these records describe by places, in order.
#[derive(Drop)]
struct RootFields<'a> {
    fields: &'a [GcflipField],
}

impl ValueRow for RootFields<'_> {
    ghost is_row = { λ row roots. AreFields roots row.fields.now × (roots < 2 ^ 32) };

    ghost values = { λ row. map value_of_field row.fields.now };

    fn count(&self) -> u16 {
        self.fields.len() as u16
    }

    #[inline(always)]
    fn value(&self, i: u16) -> FieldValue {
        value_of(self.fields[usize::from(i)])
    }
}

/// Makes an object of this kind, and puts a reference to it into root `d`. `fields` has a record for each field: it stays nil, or takes a number or the
/// value of a root. This is a `gcflip_new`, and then, in rising order, a `gcflip_put_number` for each number and a `gcflip_put` for each root, in one call.
/// Root `d` is set first, so a field filled from root `d` refers to the object itself. No other root changes. While a collection is open, the fields are
/// logged in mutator `m`'s log. Allocates only then.
#[unsafe(no_mangle)]
pub extern "C" fn gcflip_new_with(
    heap: &mut GcflipHeap,
    m: u32,
    d: u32,
    kind: u32,
    fields: &[GcflipField],
) -> u32
    ensures call { IsCommandCall (λ state. (m < state.mutators) × HasRoots (d ∷ []) state × (kind < kinds) × GivesFields fields.now state)
        (λ state. new_given_step state m d kind (map value_of_field fields.now)) heap.old.state heap.new.state result }
    ensures memory { result ≡ no_memory → IsSomeAnd heap.old.state (λ s. IsSome s.collection) }
    ensures beside { heap.new.beside ≡ heap.old.beside }
    ensures looks { AskForRow d 1 heap.old.roots_left heap.new.roots_left }
{
    let heap = lent!(heap);
    let roots = heap.root_places();
    if m >= u32::from(heap.mutators()) || d as usize >= roots || kind > 255 {
        return OUT_OF_RANGE;
    }
    if fields.len() > usize::from(u16::MAX) || !are_fields(fields, roots) {
        return OUT_OF_RANGE;
    }
    let fields = RootFields { fields };
    of_result(heap.new_given(m as u8, d, kind as u8, &fields))
}

/// Makes an object of this kind, and puts a reference to it into slot `d`. `fields` has a record for each field: it stays nil, or takes a
/// number or the value of a slot. This is a `gcflip_heap_new_object`, and then a `gcflip_heap_put_number` through slot `t` for each number and a
/// `gcflip_heap_put` for each slot, in one call. Slot `d` is set first, so a field filled from slot `d` refers to the object itself. Slot `t` is
/// another one than `d`. Allocates only while a collection is open.
#[unsafe(no_mangle)]
pub extern "C" fn gcflip_heap_new_with(
    heap: &mut GcflipHeap,
    m: u8,
    d: u8,
    kind: u8,
    t: u8,
    fields: &[GcflipField],
) -> u32
    ensures call { IsCommandCall (λ state. NamesSlots m (d ∷ t ∷ []) state × (t ≢ d) × AreSources fields.now)
        (λ state. new_with_step state m (numbered_slot d) kind (numbered_slot t) (map source_in fields.now)) heap.old.state heap.new.state result }
    ensures memory { result ≡ no_memory → IsSomeAnd heap.old.state (λ s. IsSome s.collection) }
    ensures beside { heap.new.beside ≡ heap.old.beside }
{
    let heap = lent_to!(heap, m);
    if t == d {
        return OUT_OF_RANGE;
    }
    let object = slot_named!(d);
    let number = slot_named!(t);
    if fields.len() > usize::from(u16::MAX) || !are_fields(fields, usize::from(SLOT_NUMBERS)) {
        return OUT_OF_RANGE;
    }
    let fields = SlotFields { fields };
    of_result(heap.new_with(m, object, kind, number, &fields))
}
