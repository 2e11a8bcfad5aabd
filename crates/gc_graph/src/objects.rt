ghost use Rattle.std.specs.Prelude.{◌≡◌, ◌<◌, Some, IfOk, OnErr, is_some, length, if◌then◌else◌};
ghost use Rattle.std.specs.Option.{option_map};
ghost use Rattle.gc_graph.specs.Limits.{lengths};
ghost use Rattle.gc_graph.specs.Graph.{object_of, lookup, field_of, root as root_in, set_root, set_field, first_value, new_object, add_object};
ghost use Rattle.gc_graph.specs.Machine.{view_of, view_of_object, same as same_in, get_field, put_field};
ghost use Rattle.gc_graph.specs.Bounded.{AreBelow, AreShort};
ghost use Rattle.gc_graph.specs.Records.{plain_value, object_of_record, objects_of, graph_of};

use crate::number::Number;
use crate::reply::{Reply, View};
use std::alloc::{AllocError, Global};
use std::collections::BTreeMap;

/// The value of a root or a field: nil, a number, or an object's name.
#[derive(Clone, Copy, Debug, PartialEq, Eq)]
pub enum PlainValue {
    Nil,
    Num(Number),
    Ref(u64),
}

/// An object.
#[derive(Debug, Drop)]
pub struct Record {
    raw: bool,
    kind: u8,
    fields: Vec<PlainValue>,
}

impl Record {
    fn field(&self, i: u16) -> Option<PlainValue>
        ensures { option_map plain_value result ≡ field_of (Some (object_of_record self.now)) i }
    {
        self.fields.get(usize::from(i)).copied()
    }

    fn view(&self) -> View
        requires { length self.now.fields.items < lengths }
        ensures { result ≡ view_of_object (Some (object_of_record self.now)) }
    {
        let kind = self.kind;
        let len = self.fields.len() as u16;
        if self.raw {
            View::RawObj { kind, len }
        } else {
            View::Obj { kind, len }
        }
    }
}

/// Returns the initial value of a new object's fields.
fn first_value(raw: bool) -> PlainValue
    ensures { plain_value result ≡ first_value raw }
{
    if raw {
        PlainValue::Num(Number::zero())
    } else {
        PlainValue::Nil
    }
}

type Records = BTreeMap<u64, Record>;

/// Returns the object with this name.
#[tactic(auto, using(crate::proofs::Plains::found_record))]
fn record_of(records: &Records, name: u64) -> Option<&Record>
    ensures { option_map object_of_record (option_map (λ r. r.now) result) ≡ lookup (objects_of records.now.entries) name }
{
    records.get(&name)
}

/// Writes a field of the named object, if the object exists and has the field.
fn write_field(records: &mut Records, name: u64, i: u16, value: PlainValue) -> bool
    ensures there { result ≡ is_some (field_of (lookup (objects_of records.old.entries) name) i) }
    ensures objects { objects_of records.new.entries
        ≡ (if result then set_field (objects_of records.old.entries) name i (plain_value value) else objects_of records.old.entries) }
{
    let place = i as usize;
    match records.get_mut(&name) {
        Some(record) => {
            if place < record.fields.len() {
                record.fields[place] = value;
                true
            } else {
                false
            }
        }
        None => false,
    }
}

/// An object graph: objects by name in an ordered map, and roots.
#[derive(Drop)]
pub struct Objects {
    pub records: Records,
    pub roots: Vec<PlainValue>,
}

impl Objects {
    /// Returns the value of a root.
    pub fn root(&self, place: usize) -> PlainValue
        requires { place < length self.now.roots.items }
        ensures { plain_value result ≡ root_in (graph_of self.now) place }
    {
        self.roots[place]
    }

    /// Writes a value into a root.
    pub fn set(&mut self, place: usize, value: PlainValue) -> Reply
        requires { place < length self.old.roots.items }
        ensures done { result ≡ Reply.Done }
        ensures graph { graph_of self.new ≡ set_root (graph_of self.old) place (plain_value value) }
    {
        self.roots[place] = value;
        Reply::Done
    }

    /// Adds an object. Its name must be above all names in the graph.
    #[tactic(auto, using(crate::proofs::Plains::pushed, crate::proofs::Plains::entries_push, crate::proofs::Plains::held_each, crate::proofs::Plains::record_keys))]
    pub fn add(
        &mut self,
        alloc: Global,
        name: u64,
        raw: bool,
        kind: u8,
        len: u16,
    ) -> Result<(), AllocError>
        requires { AreBelow name (graph_of self.old) }
        ensures ok { IfOk result (λ _. graph_of self.new ≡ add_object (graph_of self.old) name (new_object raw kind len)) }
        ensures roots { length self.new.roots.items ≡ length self.old.roots.items }
        ensures err { OnErr result (graph_of self.new ≡ graph_of self.old) }
    {
        let fields = vec![in alloc; first_value(raw); usize::from(len)]?;
        let _ = self.records.insert(name, Record { raw, kind, fields })?;
        Ok(())
    }

    /// Returns what a mutator sees of a value.
    pub fn view(&self, value: &PlainValue) -> View
        requires { AreShort (graph_of self.now) }
        ensures { result ≡ view_of (graph_of self.now).objects (plain_value value.now) }
    {
        match value {
            PlainValue::Nil => View::Nil,
            PlainValue::Num(n) => View::Num(*n),
            PlainValue::Ref(name) => match record_of(&self.records, *name) {
                Some(record) => record.view(),
                None => View::Nil,
            },
        }
    }

    /// Returns whether two values are the same: nil and nil, equal numbers, or one object.
    fn same(&self, one: PlainValue, other: PlainValue) -> bool
        ensures { result ≡ same_in (graph_of self.now).objects (plain_value one) (plain_value other) }
    {
        match one {
            PlainValue::Nil => matches!(other, PlainValue::Nil),
            PlainValue::Num(a) => matches!(other, PlainValue::Num(b) if a.get() == b.get()),
            PlainValue::Ref(a) => {
                matches!(other, PlainValue::Ref(b) if a == b)
                    && record_of(&self.records, a).is_some()
            }
        }
    }

    /// Returns the reply to `Same` for these two values.
    pub fn compare(&self, one: PlainValue, other: PlainValue) -> Reply
        ensures { result ≡ (if same_in (graph_of self.now).objects (plain_value one) (plain_value other) then Reply.Yes else Reply.No) }
    {
        if self.same(one, other) {
            Reply::Yes
        } else {
            Reply::No
        }
    }

    /// Sets root `d` to field `i` of the object that `target` refers to.
    pub fn get(&mut self, d: usize, target: PlainValue, i: u16) -> Reply
        requires root { d < length self.old.roots.items }
        requires short { AreShort (graph_of self.old) }
        ensures { let object = object_of (graph_of self.old).objects (plain_value target) in
            (result, graph_of self.new) ≡ get_field (graph_of self.old) d object (field_of object i) }
    {
        let PlainValue::Ref(name) = target else {
            return Reply::NoObject;
        };
        let Some(record) = record_of(&self.records, name) else {
            return Reply::NoObject;
        };
        let Some(value) = record.field(i) else {
            return Reply::NoField;
        };
        let view = self.view(&value);
        self.roots[d] = value;
        Reply::Saw(view)
    }

    /// Writes the value to field `i` of the object that `target` refers to.
    pub fn put(&mut self, target: PlainValue, i: u16, value: PlainValue) -> Reply
        ensures { let object = object_of (graph_of self.old).objects (plain_value target) in
            (result, graph_of self.new) ≡ put_field (graph_of self.old) (plain_value target) object (field_of object i) i (plain_value value) }
    {
        let PlainValue::Ref(name) = target else {
            return Reply::NoObject;
        };
        let Some(record) = record_of(&self.records, name) else {
            return Reply::NoObject;
        };
        if record.field(i).is_none() {
            return Reply::NoField;
        }
        if record.raw && !matches!(value, PlainValue::Num(_)) {
            return Reply::NoNumber;
        }
        let _ = write_field(&mut self.records, name, i, value);
        Reply::Done
    }
}
