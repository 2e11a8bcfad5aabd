use gc_graph::Number;

/// The result of `Heap::fetch`: the value that the slot took, or the reason why it took none. `fetch` does not read the object
/// that a reference refers to, so the result has no kind and no length.
#[derive(Clone, Copy, Debug, PartialEq, Eq)]
pub enum Fetched {
    /// The source slot refers to no object.
    NoObject,
    /// The object has no such field.
    NoField,
    /// The slot took nil.
    Nil,
    /// The slot took this number.
    Num(Number),
    /// The slot took a reference.
    Object,
}

/// The root word that a slot took from a field, or the reason why it took none.
#[derive(Clone, Copy, Debug, PartialEq, Eq)]
pub(crate) enum Taken {
    NoObject,
    NoField,
    Word(u64),
}
