//! The exports by which a mutator stops at a safepoint and goes on. None of them waits.

ghost use Rattle.std.specs.Prelude.{◌≡◌, IsTrue};
ghost use Rattle.gcflip_beside_c.specs.Addresses.{ComesThrough, situation_at, situation_of_end};
ghost use Rattle.gcflip_beside_c.specs.Stages.{Stops, Resumes};
ghost use Rattle.gcflip_beside_c.specs.HandleStage.{stage, stage_of, IsRunning};

use crate::answer::{CLOSED, DONE, NOT_YET, PARKED};
use crate::end::End;
use crate::guards::lent;
use crate::handle::GcflipEnd;
use std::mem::replace;

// Stops the mutator if its collector asks for it.
fn stopped(end: End) -> (End, u32)
    ensures stops { Stops (stage_of end) (stage_of result.0) result.1 }
    ensures moves { situation_of_end result.0 ≡ situation_of_end end }
{
    match end {
        End::Running(runner) => {
            if !runner.is_asked() {
                return (End::Running(runner), DONE);
            }
            match runner.stop() {
                Ok(waiting) => (End::Parked(waiting), PARKED),
                Err(runner) => (End::Running(runner), DONE),
            }
        }
        End::Parked(waiting) => (End::Parked(waiting), PARKED),
        other => (other, CLOSED),
    }
}

// Returns whether the end is a mutator that runs and is not asked to stop.
fn runs_on(end: &End) -> bool
    ensures { IsTrue result → IsRunning (stage_of end.now) }
{
    match end {
        End::Running(runner) => !runner.is_asked(),
        _ => false,
    }
}

// Stops the mutator of this end if its collector asks for it. Moves the end, which takes room on the stack.
#[inline(never)]
fn stop(end: &mut End) -> u32
    ensures stops { Stops (stage_of end.old) (stage_of end.new) result }
    ensures moves { situation_of_end end.new ≡ situation_of_end end.old }
{
    let (next, answer) = stopped(replace(end, End::Nothing));
    *end = next;
    answer
}

/// A safepoint: if the collector asks for it, the mutator stops. Returns 0 if it runs on, 12 if it has stopped, and 3 if the handle has no mutator.
#[unsafe(no_mangle)]
#[tactic(auto, using(crate::proofs::Stopping::runs_still))]
pub extern "C" fn gcflip_beside_safepoint(mutator: &mut GcflipEnd) -> u32
    ensures stops { Stops (stage mutator.old.end) (stage mutator.new.end) result }
    ensures moves { situation_at mutator.new.end ≡ situation_at mutator.old.end }
{
    let end = lent!(mutator);
    // Mostly nobody asks, and the end stays where it is.
    if runs_on(end) {
        return DONE;
    }
    stop(end)
}

// Lets the mutator go on if its collector allows it.
fn resumed(end: End) -> (End, u32)
    ensures resumes { Resumes (stage_of end) (stage_of result.0) result.1 }
    ensures moves { ComesThrough (stage_of end) (situation_of_end end) (stage_of result.0) (situation_of_end result.0) }
{
    match end {
        End::Running(runner) => (End::Running(runner), DONE),
        End::Parked(waiting) => match waiting.resume() {
            Ok(runner) => (End::Running(runner), DONE),
            Err(waiting) => (End::Parked(waiting), NOT_YET),
        },
        other => (other, CLOSED),
    }
}

/// Lets a mutator that has stopped go on, if its collector allows it. Returns 0 if it runs, 13 if it has to wait longer, and 3 if the handle has no mutator.
#[unsafe(no_mangle)]
pub extern "C" fn gcflip_beside_resume(mutator: &mut GcflipEnd) -> u32
    ensures resumes { Resumes (stage mutator.old.end) (stage mutator.new.end) result }
    ensures moves { ComesThrough (stage mutator.old.end) (situation_at mutator.old.end) (stage mutator.new.end) (situation_at mutator.new.end) }
{
    let end = lent!(mutator);
    let (next, answer) = resumed(replace(end, End::Nothing));
    *end = next;
    answer
}
