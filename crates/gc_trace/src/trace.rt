use gc_model::Event;

/// The first version in which `begin` can give the size of the new space.
pub(crate) const SIZED: u8 = 2;

/// The first version with raw objects.
pub(crate) const RAW: u8 = 3;

/// A trace: what mutators and the collector do in a space.
#[derive(Debug, Drop)]
pub struct Trace {
    /// The version of its text, 1 to 3. Version 2 adds `begin` with a size, and version 3 adds raw objects.
    pub version: u8,
    /// The size of the space in words, 1 to 1048576.
    pub size: u32,
    /// The number of mutators, 1 to 16.
    pub mutators: u8,
    /// The events in order. Each is a command of one of these mutators, or a collector step.
    pub events: Vec<Event>,
}
