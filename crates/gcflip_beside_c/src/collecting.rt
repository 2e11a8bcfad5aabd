//! The exports of the collector's end. None of them waits.

ghost use Rattle.std.specs.Prelude.{◌≡◌, ◌≢◌, ◌≤◌};
ghost use Rattle.gcflip_beside_c.specs.Addresses.{CarriesReachable, beginning_at, beginning_of_end};
ghost use Rattle.gc_concurrent.specs.Holders.{beginning_held, heap_held, known_to};
ghost use Rattle.gcflip_beside_c.specs.Internal.Unflipped.{why_in_c};
ghost use Rattle.gcflip_beside_c.specs.Stages.{Asks, IsBesidePrepare, PreparesSpace, TakesMutator, Goes, PlacesRoots, FlipsHeld, FinishesHeld, IsCertifiedPair, HasWorked, IsBesideWork, TurnsByFinish, TurnsByFlip};
ghost use Rattle.gcflip_beside_c.specs.HandleStage.{works, asks, holds, stage, stage_of, turns_at, turns_of_end, IsCollector};

use crate::answer::{
    CLEAN, CLOSED, DONE, FLIPPED, NO_MEMORY, NO_ROOM, NOT_READY, NOT_YET, OUT_OF_RANGE,
};
use crate::end::End;
use crate::guards::lent;
use crate::handle::GcflipEnd;
use gc_check::{Checks, Sequential};
use gc_concurrent::{Asking, Collector, Holding, NoFlip, Work};
use gc_graph::NoMemory;
use std::alloc::Global;
use std::mem::replace;

/// Performs at most so many steps of a collector. A loop for each stage keeps the test of the stage out of the steps.
macro_rules! steps_of {
    ($collector:ident, $most:ident) => {{
        for k in 0..$most {
            match $collector.work() {
                Work::Step => {}
                Work::Done => return CLEAN,
                Work::NoRoom => return NO_ROOM,
            }
        }
        DONE
    }};
}

// Performs at most so many steps beside a mutator.
fn steps_beside(collector: &mut Collector, most: u32) -> u32
    ensures stages { HasWorked most (works (known_to collector.old.copier)) (works (known_to collector.new.copier)) result }
    ensures turns { collector.new.turns ≡ collector.old.turns }
{
    steps_of!(collector, most)
}

// The same once the mutator is asked to stop.
fn steps_asking(asking: &mut Asking, most: u32) -> u32
    ensures stages { HasWorked most (asks (known_to asking.old.copier)) (asks (known_to asking.new.copier)) result }
    ensures turns { asking.new.turns ≡ asking.old.turns }
{
    steps_of!(asking, most)
}

// The same while the mutator waits.
fn steps_holding(holding: &mut Holding, most: u32) -> u32
    ensures stages { HasWorked most (holds (known_to holding.old.held.copier) (heap_held holding.old.held)) (holds (known_to holding.new.held.copier) (heap_held holding.new.held)) result }
    ensures turns { holding.new.turns ≡ holding.old.turns }
    ensures begun { beginning_held holding.new.held ≡ beginning_held holding.old.held }
{
    steps_of!(holding, most)
}

// Performs at most so many steps.
fn steps(end: &mut End, most: u32) -> u32
    requires { IsCollector (stage_of end.old) }
    ensures stages { HasWorked most (stage_of end.old) (stage_of end.new) result }
    ensures turns { turns_of_end end.new ≡ turns_of_end end.old }
    ensures begun { beginning_of_end end.new ≡ beginning_of_end end.old }
{
    match end {
        End::Working(collector) => steps_beside(collector, most),
        End::Asking(asking) => steps_asking(asking, most),
        End::Holding(holding) => steps_holding(holding, most),
        _ => unreachable!(),
    }
}

/// Performs `most` steps, or fewer if nothing is left to do. Returns 0 if it performed all of them, and 35 if nothing is left. Returns 3 if the handle has
/// no collector, and 2 if `most` is 0.
#[unsafe(no_mangle)]
pub extern "C" fn gcflip_beside_work(collector: &mut GcflipEnd, most: u32) -> u32
    ensures stages { IsBesideWork most (stage collector.old.end) (stage collector.new.end) result }
    ensures turns { turns_at collector.new.end ≡ turns_at collector.old.end }
    ensures begun { beginning_at collector.new.end ≡ beginning_at collector.old.end }
{
    let end = lent!(collector);
    if !end.is_collector() {
        return CLOSED;
    }
    if most == 0 {
        return OUT_OF_RANGE;
    }
    steps(end, most)
}

// Begins the collection anew, in a new space of this size.
fn prepared(alloc: Global, end: &mut End, size: u32) -> u32
    requires { 1 ≤ size }
    ensures stages { PreparesSpace size (stage_of end.old) (stage_of end.new) result }
    ensures turns { turns_of_end end.new ≡ turns_of_end end.old }
{
    match end {
        End::Working(collector) => match collector.prepare(alloc, size) {
            Ok(()) => DONE,
            Err(NoMemory) => NO_MEMORY,
        },
        End::Asking(_) | End::Holding(_) => NOT_YET,
        _ => CLOSED,
    }
}

/// Begins the collection anew, in a new space of `size` words, with the memory that its flip takes. Frees the memory of the heap before the last flip. Returns
/// 0, or 13 if the collector has asked its mutator to stop or holds it. Returns 3 if the handle has no collector, and 2 if `size` is 0. Returns 1 if an
/// allocation fails: the collection then goes on as it stands.
#[unsafe(no_mangle)]
pub extern "C" fn gcflip_beside_prepare(alloc: Global, collector: &mut GcflipEnd, size: u32) -> u32
    ensures stages { IsBesidePrepare size (stage collector.old.end) (stage collector.new.end) result }
    ensures turns { turns_at collector.new.end ≡ turns_at collector.old.end }
{
    let end = lent!(collector);
    if !end.is_collector() {
        return CLOSED;
    }
    if size == 0 {
        return OUT_OF_RANGE;
    }
    prepared(alloc, end, size)
}

fn asked(end: End) -> (End, u32)
    ensures stages { Asks (stage_of end) (stage_of result.0) result.1 }
    ensures turns { turns_of_end result.0 ≡ turns_of_end end }
{
    match end {
        End::Working(collector) => match collector.ask() {
            Ok(asking) => (End::Asking(asking), DONE),
            Err(collector) => (End::Working(collector), NOT_YET),
        },
        End::Asking(asking) => (End::Asking(asking), DONE),
        End::Holding(holding) => (End::Holding(holding), DONE),
        other => (other, CLOSED),
    }
}

/// Asks the mutator to stop at its next safepoint. Returns 0 if it is asked or has stopped, 13 if it has not gone on since the last time, and 3 if the
/// handle has no collector.
#[unsafe(no_mangle)]
pub extern "C" fn gcflip_beside_ask(collector: &mut GcflipEnd) -> u32
    ensures stages { Asks (stage collector.old.end) (stage collector.new.end) result }
    ensures turns { turns_at collector.new.end ≡ turns_at collector.old.end }
{
    let end = lent!(collector);
    let (next, answer) = asked(replace(end, End::Nothing));
    *end = next;
    answer
}

fn taken(end: End) -> (End, u32)
    ensures stages { TakesMutator (stage_of end) (stage_of result.0) result.1 }
    ensures turns { turns_of_end result.0 ≡ turns_of_end end }
{
    match end {
        End::Working(collector) => (End::Working(collector), NOT_YET),
        End::Asking(asking) => match asking.take() {
            Ok(holding) => (End::Holding(holding), DONE),
            Err(asking) => (End::Asking(asking), NOT_YET),
        },
        End::Holding(holding) => (End::Holding(holding), DONE),
        other => (other, CLOSED),
    }
}

/// Takes the mutator with its log, if it has stopped and no entry of an earlier log is left. Returns 0 if the collector holds it, 13 if not yet, and 3 if the handle has no
/// collector.
#[unsafe(no_mangle)]
pub extern "C" fn gcflip_beside_take(collector: &mut GcflipEnd) -> u32
    ensures stages { TakesMutator (stage collector.old.end) (stage collector.new.end) result }
    ensures turns { turns_at collector.new.end ≡ turns_at collector.old.end }
{
    let end = lent!(collector);
    let (next, answer) = taken(replace(end, End::Nothing));
    *end = next;
    answer
}

fn gone(end: End) -> (End, u32)
    ensures stages { Goes (stage_of end) (stage_of result.0) result.1 }
    ensures turns { turns_of_end result.0 ≡ turns_of_end end }
{
    match end {
        End::Working(collector) => (End::Working(collector), DONE),
        End::Asking(asking) => (End::Working(asking.withdraw()), DONE),
        End::Holding(holding) => (End::Working(holding.go()), DONE),
        other => (other, CLOSED),
    }
}

/// Asks no longer, and lets a mutator that has stopped go on in the same space. The collection stays open. Returns 0, or 3 if the handle has no collector.
#[unsafe(no_mangle)]
pub extern "C" fn gcflip_beside_go(collector: &mut GcflipEnd) -> u32
    ensures stages { Goes (stage collector.old.end) (stage collector.new.end) result }
    ensures turns { turns_at collector.new.end ≡ turns_at collector.old.end }
{
    let end = lent!(collector);
    let (next, answer) = gone(replace(end, End::Nothing));
    *end = next;
    answer
}

// The number for a flip that was not made.
fn why(refused: NoFlip) -> u32
    requires { refused ≢ NoFlip.Refused }
    ensures { result ≡ why_in_c refused }
{
    match refused {
        NoFlip::NotReady => NOT_READY,
        NoFlip::NoMemory => NO_MEMORY,
        NoFlip::Refused => unreachable!(),
    }
}

// Gives the roots of a mutator that is held replicas of their targets.
fn rooted(end: &mut End) -> u32
    ensures stages { PlacesRoots (stage_of end.old) (stage_of end.new) result }
    ensures turns { turns_of_end end.new ≡ turns_of_end end.old }
    ensures begun { beginning_of_end end.new ≡ beginning_of_end end.old }
{
    match end {
        End::Working(_) | End::Asking(_) => NOT_YET,
        End::Holding(holding) => { if holding.place_roots() { DONE } else { NO_ROOM } }
        _ => CLOSED,
    }
}

/// Copies the object of each root that has no replica, while the mutator waits. Does not allocate. Returns 0 if each root's object has a replica, 13 if the
/// collector does not hold the mutator, and 3 if the handle has no collector.
#[unsafe(no_mangle)]
pub extern "C" fn gcflip_beside_place_roots(collector: &mut GcflipEnd) -> u32
    ensures stages { PlacesRoots (stage collector.old.end) (stage collector.new.end) result }
    ensures turns { turns_at collector.new.end ≡ turns_at collector.old.end }
    ensures begun { beginning_at collector.new.end ≡ beginning_at collector.old.end }
{
    rooted(lent!(collector))
}

#[tactic(auto, using(crate::proofs::Vouching::turned_by_some))]
fn flipped<C: Checks>(alloc: Global, checker: &C, end: End) -> (End, u32)
    requires { C.can_check checker.now }
    ensures stages { FlipsHeld (C.says_yes checker.now) (stage_of end) (stage_of result.0) result.1 }
    ensures carried { CarriesReachable (stage_of end) (beginning_of_end end) (stage_of result.0) }
    ensures turns { TurnsByFlip (C.says_yes checker.now) (stage_of end) (stage_of result.0) (turns_of_end end) (turns_of_end result.0) }
{
    match end {
        End::Working(collector) => (End::Working(collector), NOT_YET),
        End::Asking(asking) => (End::Asking(asking), NOT_YET),
        End::Holding(holding) => match holding.flip(alloc, checker) {
            Ok(collector) => (End::Working(collector), FLIPPED),
            Err(refused) => (End::Holding(refused.holding), why(refused.why)),
        },
        other => (other, CLOSED),
    }
}

/// Flips if the collection is ready: the mutator that the collector holds may go on in the new space, and the next collection begins. The flip is made only
/// if the standing checker vouches for it, or the checker accepts both spaces whole. Returns 43 if it flipped, and 41 if something is left to do or a root's object has no replica. Returns 13 if the
/// collector does not hold the mutator, 3 if the handle has no collector, and 1 if an allocation fails. If it does not flip, nothing has changed, but that
/// after an answer of 1 the collection may have begun anew, as gc_concurrent's `Holding::flip` says.
#[unsafe(no_mangle)]
pub extern "C" fn gcflip_beside_flip(alloc: Global, collector: &mut GcflipEnd) -> u32
    ensures stages { FlipsHeld IsCertifiedPair (stage collector.old.end) (stage collector.new.end) result }
    ensures carried { CarriesReachable (stage collector.old.end) (beginning_at collector.old.end) (stage collector.new.end) }
    ensures turns { TurnsByFlip IsCertifiedPair (stage collector.old.end) (stage collector.new.end) (turns_at collector.old.end) (turns_at collector.new.end) }
{
    let end = lent!(collector);
    let (next, answer) = flipped(alloc, &Sequential, replace(end, End::Nothing));
    *end = next;
    answer
}

fn finished<C: Checks>(alloc: Global, checker: &C, end: End) -> (End, u32)
    requires { C.can_check checker.now }
    ensures stages { FinishesHeld (C.says_yes checker.now) (stage_of end) (stage_of result.0) result.1 }
    ensures turns { TurnsByFinish (C.says_yes checker.now) (stage_of end) (stage_of result.0) (turns_of_end end) (turns_of_end result.0) }
{
    match end {
        End::Working(collector) => (End::Working(collector), NOT_YET),
        End::Asking(asking) => (End::Asking(asking), NOT_YET),
        End::Holding(holding) => match holding.finish(alloc, checker) {
            Ok(collector) => (End::Working(collector), FLIPPED),
            Err(refused) => (End::Holding(refused.holding), why(refused.why)),
        },
        other => (other, CLOSED),
    }
}

/// Copies the objects of roots, performs all steps that are left, and flips. Returns 43 if it flipped, 13 if the collector does not hold the mutator, and 3 if the handle has no
/// collector. Returns 1 if an allocation fails. The mutator's heap is then unchanged, and the collector still holds it.
#[unsafe(no_mangle)]
pub extern "C" fn gcflip_beside_finish(alloc: Global, collector: &mut GcflipEnd) -> u32
    ensures stages { FinishesHeld IsCertifiedPair (stage collector.old.end) (stage collector.new.end) result }
    ensures turns { TurnsByFinish IsCertifiedPair (stage collector.old.end) (stage collector.new.end) (turns_at collector.old.end) (turns_at collector.new.end) }
{
    let end = lent!(collector);
    let (next, answer) = finished(alloc, &Sequential, replace(end, End::Nothing));
    *end = next;
    answer
}
