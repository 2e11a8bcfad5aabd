//! Commands and replies in short.

ghost use Rattle.std.specs.Prelude.{◌<◌, ◌^◌};

use gc_graph::{Number, Op, Reply, Slot, View};

/// Returns slot r0, r1, .. of a mutator.
pub fn own(index: u8) -> Slot
    requires { index < 16 }
{
    Slot::own(index).unwrap()
}

/// Returns the command that makes an object with `len` fields, and sets `d` to a reference to it.
pub fn new(d: Slot, kind: u8, len: u16) -> Op {
    Op::New { d, kind, len }
}

/// Returns the command that sets `d` to a number.
pub fn num(d: Slot, number: u64) -> Op
    requires { number < 2 ^ 63 }
{
    let n = Number::new(number).unwrap();
    Op::Num { d, n }
}

/// Returns the command that writes slot `t` to field `i` of the object in slot `s`.
pub fn put(s: Slot, i: u16, t: Slot) -> Op {
    Op::Put { s, i, t }
}

/// Returns the command that reads field `i` of the object in slot `s` into slot `d`.
pub fn get(d: Slot, s: Slot, i: u16) -> Op {
    Op::Get { d, s, i }
}

/// Returns the reply that shows a number.
pub fn saw(number: u64) -> Reply
    requires { number < 2 ^ 63 }
{
    Reply::Saw(View::Num(Number::new(number).unwrap()))
}
