//! One end of a heap, at each of its stages.

ghost use Rattle.std.specs.Prelude.{MatchBool};
ghost use Rattle.gcflip_beside_c.specs.HandleStage.{stage_of, IsMutator, IsCollector};

use gc_concurrent::{Asking, Collector, Holding, Runner, Waiting};

/// The mutator's end or the collector's. `Nothing` stands in its place while a call leads it from one stage to another.
#[derive(Drop)]
pub enum End {
    Nothing,
    Running(Runner),
    Parked(Waiting),
    Working(Collector),
    Asking(Asking),
    Holding(Holding),
}

impl End {
    /// Returns whether this is a mutator.
    pub(crate) fn is_mutator(&self) -> bool
        ensures { MatchBool result (IsMutator (stage_of self.now)) (¬ IsMutator (stage_of self.now)) }
    {
        matches!(self, End::Running(_) | End::Parked(_))
    }

    /// Returns whether this is a collector.
    pub(crate) fn is_collector(&self) -> bool
        ensures { MatchBool result (IsCollector (stage_of self.now)) (¬ IsCollector (stage_of self.now)) }
    {
        matches!(self, End::Working(_) | End::Asking(_) | End::Holding(_))
    }
}
