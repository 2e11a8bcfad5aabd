use crate::number::Number;

/// What a mutator sees of a value. An object shows its kind and its number of fields, but no address.
#[derive(Clone, Copy, Debug, PartialEq, Eq)]
pub enum View {
    Nil,
    Num(Number),
    Obj { kind: u8, len: u16 },
    /// An object whose fields are plain numbers.
    RawObj { kind: u8, len: u16 },
}

/// The reply to a mutator's command.
#[derive(Clone, Copy, Debug, PartialEq, Eq)]
pub enum Reply {
    /// There is no room for the new object. Nothing changed.
    Full,
    /// The object was made.
    Made,
    /// The slot or the field was set.
    Done,
    /// The slot does not refer to an object. Nothing changed.
    NoObject,
    /// The object has no such field. Nothing changed.
    NoField,
    /// The object is raw and the value is not a number. Nothing changed.
    NoNumber,
    /// The value that was seen.
    Saw(View),
    /// The two values are the same.
    Yes,
    /// The two values differ.
    No,
}
