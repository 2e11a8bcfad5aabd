use crate::number::Number;
use crate::slot::Slot;

/// A mutator's command. `d` is the slot that is set, `s` and `t` are slots that are read, and `i` is a field, counted from 0.
#[derive(Clone, Copy, Debug, PartialEq, Eq)]
pub enum Op {
    /// Makes an object of this kind with `len` fields, all nil, and sets `d` to a reference to it.
    New { d: Slot, kind: u8, len: u16 },
    /// Makes a raw object: its fields are plain numbers, all 0, and the collector does not scan them.
    NewRaw { d: Slot, kind: u8, len: u16 },
    /// Sets `d` to the number.
    Num { d: Slot, n: Number },
    /// Sets `d` to nil.
    Nil { d: Slot },
    /// Sets `d` to the value of `s`.
    Move { d: Slot, s: Slot },
    /// Sets `d` to field `i` of the object that `s` refers to.
    Get { d: Slot, s: Slot, i: u16 },
    /// Writes the value of `t` to field `i` of the object that `s` refers to.
    Put { s: Slot, i: u16, t: Slot },
    /// Asks whether `s` and `t` hold the same value: nil and nil, equal numbers, or one object.
    Same { s: Slot, t: Slot },
    /// Asks what mutators see of the value of `s`.
    Look { s: Slot },
}
