ghost use Rattle.gc_collected.specs.declared.flip.Keep.{Keep};

use crate::collected_heap::CollectedHeap;
use crate::flip::Keep;
use gc_check::Checks;
use gc_copy::StepReply;
use gc_graph::{NoMemory, Op, Reply, View};
use gc_model::{Answer, Event};

impl CollectedHeap {
    ghost use Rattle.std.specs.Prelude.{◌≡◌, IfOk, IsTrue, OnOk, OnErr};
    ghost use Rattle.gc_model.specs.Runs.{IsEvent, after, answer};
    ghost use Rattle.gc_model.specs.declared.event.Answer.{Answer};
    ghost use Rattle.gc_model.specs.declared.step.StepReply.{StepReply};
    ghost use Rattle.gc_collected.specs.Collected.{IsUnchangedButRooms, checks_whole};
    ghost use Rattle.gc_collected.specs.Flip.{FlipsOnly, IsCertified};
    ghost use Rattle.gc_collected.specs.Performing.{kept_with};

    /// Performs one event: a mutator's command or a collector step. On `NoMemory` nothing has changed but the memory that waits.
    pub fn perform<C: Checks>(
        &mut self,
        checker: &C,
        event: &Event,
        keep: Keep,
    ) -> Result<Answer, NoMemory>
        requires can { C.can_check checker.now }
        requires event { IsEvent self.old.core.mutators event.now }
        ensures answer { IfOk result (λ done. done ≡ answer self.old.core event.now) }
        ensures happened { OnOk result (self.new.core ≡ after self.old.core event.now) }
        // Where both spaces are to be checked whole, a flip happens only if this checker said yes.
        ensures asked { IsTrue (checks_whole keep self.old.beside.turns) → IfOk result (λ done. (reply : StepReply) → done ≡ Answer.Collector reply
            → FlipsOnly (C.says_yes checker.now) self.old.core reply) }
        // A flip happens only if the certificate holds.
        ensures sound { IfOk result (λ done. (reply : StepReply) → done ≡ Answer.Collector reply → FlipsOnly IsCertified self.old.core reply) }
        ensures pair { OnOk result (self.new.beside.pair ≡ kept_with keep self.old.beside.pair self.old.core event.now) }
        ensures refused { OnErr result (IsUnchangedButRooms self.old self.new) }
        ensures mutators { self.new.core.mutators ≡ self.old.core.mutators }
    {
        // A body that holds an answer must name the types of its parts.
        let _named: (Option<Op>, Option<Reply>, Option<StepReply>, Option<View>) = (
            None, None, None, None,
        );
        match event {
            Event::Mutate { m, op } => Ok(Answer::Mutator(self.mutate(*m, op)?)),
            Event::Collect(step) => Ok(Answer::Collector(self.collect(checker, *step, keep)?)),
        }
    }
}
