use crate::step::{Step, StepReply};
use gc_graph::{Op, Reply};

/// One atomic step of a heap: a mutator's command or a collector step.
#[derive(Clone, Copy, Debug, PartialEq, Eq)]
pub enum Event {
    /// Mutator `m` performs a command.
    Mutate { m: u8, op: Op },
    /// The collector performs a step.
    Collect(Step),
}

/// The answer to an event.
#[derive(Clone, Copy, Debug, PartialEq, Eq)]
pub enum Answer {
    /// The reply to a command.
    Mutator(Reply),
    /// The reply to a step.
    Collector(StepReply),
    /// The reply to a step that was chosen as the useful one.
    Useful(StepReply),
}
