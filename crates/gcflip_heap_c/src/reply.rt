//! Replies to steps, as C sees them.

ghost use Rattle.std.specs.Prelude.{◌≡◌};
ghost use Rattle.gc_check.specs.InC.{IsRefusal};
ghost use Rattle.gcflip_heap_c.specs.Replies.{step_reply_in_c, pairs_after};

use crate::answer::{FLIPPED, NO_ROOM};
use gc_copy::StepReply;

/// Returns C's number for the collector's reply.
pub(crate) fn of_step(reply: StepReply) -> u32
    ensures value { result ≡ step_reply_in_c reply }
    ensures made { ¬ IsRefusal result }
{
    match reply {
        StepReply::Busy => 32,
        StepReply::Begun => 33,
        StepReply::Idle => 34,
        StepReply::Clean => 35,
        StepReply::NoRoom => NO_ROOM,
        StepReply::Copied => 37,
        StepReply::Passed => 38,
        StepReply::Scanned => 39,
        StepReply::Applied => 40,
        StepReply::NotReady => 41,
        StepReply::Refused => 42,
        StepReply::Flipped { .. } => FLIPPED,
        StepReply::Dropped => 44,
    }
}

/// Returns the number of pairs if the step flipped, otherwise `before`.
pub(crate) fn pairs_of(reply: StepReply, before: u32) -> u32
    ensures { result ≡ pairs_after before reply }
{
    match reply {
        StepReply::Flipped { pairs } => pairs,
        _ => before,
    }
}
