//! Makes objects whose fields take numbers and the values of slots.

ghost use Rattle.std.specs.Prelude.{◌≡◌, ◌≢◌, ◌<◌, ◌≤◌, ◌+◌, List, None, length, get_or, take, IfOk, OnErr, IsSome};
ghost use Rattle.gc_graph.specs.Slots.{place, roots_of};
ghost use Rattle.gc_collected.specs.Internal.Sources.{last_number_of, slot_by_place, sources_by_place};
ghost use Rattle.gc_collected.specs.Mixed.{new_with_step};
ghost use Rattle.gc_collected.specs.declared.mixed.FieldSource.{FieldSource};

use crate::collected_heap::CollectedHeap;
use crate::giving::{FieldValue, ValueRow};
use gc_graph::{NoMemory, Number, Reply, Slot};

/// What a field of a new object takes.
#[derive(Clone, Copy, Debug, Drop)]
pub enum FieldSource {
    /// Nothing: it stays nil.
    Nil,
    /// This number.
    Number(Number),
    /// The value of this slot.
    Slot(Slot),
}

/// What the fields of an object take, in a row, in whatever form their owner has it.
pub trait SourceRow {
    // Holds of a row that names only numbers and slots.
    ghost is_row: { Self → Type 0 };

    ghost sources: { Self → List FieldSource };

    /// Returns the number of fields.
    fn count(&self) -> u16
        requires { is_row self.now }
        ensures { result ≡ length (sources self.now) };

    /// Returns what field `i` takes.
    fn source(&self, i: u16) -> FieldSource
        requires row { is_row self.now }
        requires inside { i < length (sources self.now) }
        ensures { result ≡ get_or (sources self.now) i result };
}

impl CollectedHeap {
    /// Makes an object of this kind and sets `d` to a reference to it. `fields` tells what each field takes. This is a `new_object` followed,
    /// for each number, by a `num` of `t` and a `put` of `t`, and for each slot by a `put` of that slot, in one call; a field that takes
    /// nothing stays nil. Returns `Made`, or `Full` if there is no room; then nothing has changed. `d` is set first, so a field filled from
    /// slot `d` refers to the object itself. `t` is another slot than `d`, and keeps the last number, if there is one. Returns `NoMemory`
    /// only while a collection is open; the heap is then unchanged.
    pub fn new_with<R: SourceRow>(
        &mut self,
        m: u8,
        d: Slot,
        kind: u8,
        t: Slot,
        fields: &R,
    ) -> Result<Reply, NoMemory>
        requires mutator { m < self.old.core.mutators }
        requires apart { place t m ≢ place d m }
        requires row { R.is_row fields.now }
        ensures step { IfOk result (λ reply. new_with_step self.old.core m d kind t (R.sources fields.now) ≡ (reply, self.new.core)) }
        ensures refused { OnErr result (self.new ≡ self.old) }
        ensures open { OnErr result (IsSome self.old.core.collection) }
        ensures mutators { self.new.core.mutators ≡ self.old.core.mutators }
        ensures beside { self.new.beside ≡ self.old.beside }
    {
        // Here the prover learns how many roots there are.
        let _ = self.root_places();
        let row = SourcesByPlace {
            fields,
            m,
            t: t.place(m) as u32,
        };
        let made = self.new_given(m, d.place(m) as u32, kind, &row)?;
        if let Reply::Full = made {
            return Ok(made);
        }
        let Some(n) = last_number(fields, fields.count()) else {
            return Ok(made);
        };
        let _set = self.num(m, t, n);
        Ok(made)
    }
}

// What the fields take by places, where no number goes through the slot `t` at this place. A field that takes slot `t` takes the number that went
// through it last.
#[derive(Drop)]
struct SourcesByPlace<'a, R> {
    fields: &'a R,
    m: u8,
    t: u32,
}

impl<R: SourceRow> ValueRow for SourcesByPlace<'_, R> {
    ghost is_row = { λ row roots. R.is_row row.fields.now × (roots_of (row.m + 1) ≤ roots) };

    ghost values = { λ row. sources_by_place row.m row.t None (R.sources row.fields.now) };

    #[inline(always)]
    fn count(&self) -> u16 {
        self.fields.count()
    }

    #[inline(always)]
    fn value(&self, i: u16) -> FieldValue {
        match self.fields.source(i) {
            FieldSource::Nil => FieldValue::Nil,
            FieldSource::Number(n) => FieldValue::Number(n),
            FieldSource::Slot(s) => held(self.fields, i, self.t, s.place(self.m) as u32),
        }
    }
}

// What the slot at place `p` holds when field `i` takes its value: the slot at place `t` has the last number of the fields before.
#[inline(always)]
fn held<R: SourceRow>(fields: &R, i: u16, t: u32, p: u32) -> FieldValue
    requires row { R.is_row fields.now }
    requires inside { i < length (R.sources fields.now) }
    ensures { result ≡ slot_by_place t (last_number_of None (take i (R.sources fields.now))) p }
{
    if p == t
        && let Some(n) = last_number(fields, i)
    {
        return FieldValue::Number(n);
    }
    FieldValue::Root(p)
}

// The last number among so many of the first fields.
fn last_number<R: SourceRow>(fields: &R, count: u16) -> Option<Number>
    requires row { R.is_row fields.now }
    requires inside { count ≤ length (R.sources fields.now) }
    ensures { result ≡ last_number_of None (take count (R.sources fields.now)) }
{
    let mut i = count;
    while i > 0 {
        i -= 1;
        if let FieldSource::Number(n) = fields.source(i) {
            return Some(n);
        }
    }
    None
}
