//! The exports that tell, make and free room.

ghost use Rattle.std.specs.Prelude.{◌≡◌, ◌≢◌, ◌⊎◌, ◌↔◌, ◌==◌, ⊤, None, IsSome, IsSomeAnd, IsTrue, if◌then◌else◌};
ghost use Rattle.std.specs.Option.{option_map_or};
ghost use Rattle.gc_check.specs.InC.{done, no_memory, IsRefusal};
ghost use Rattle.gc_collected.specs.Collected.{released};
ghost use Rattle.gc_pace.specs.Beside.{LeavesBeside, WasRefused};
ghost use Rattle.gc_pace.specs.Counts.{counts_in};
ghost use Rattle.gc_pace.specs.Pace.{IsPace, IsPacedWork, pace_from};
ghost use Rattle.gc_pace.specs.Work.{no_work};
ghost use Rattle.gc_in_c.specs.Answers.{closed_handle};
ghost use Rattle.gcflip_heap_c.specs.Commands.{IsCall, heap_behind};
ghost use Rattle.gcflip_heap_c.specs.Room.{Collects, CollectsAnew, Finishes, Reserves, TellsRoom, busy, full, joined_report, lack_of as lack_in, starved, whole_answer as answer_in};

use crate::answer::{DONE, NO_ROOM, OUT_OF_RANGE};
use crate::guards::lent;
use crate::handle::GcflipHeap;
use crate::reply::of_step;
use crate::work::{GcflipWork, report};
use gc_collected::CollectedHeap;
use gc_copy::StepReply;
use gc_graph::NoMemory;
use gc_pace::{Counts, Pace, Work, work_at_pace, work_on};

/// Fewer words are free, after a whole collection.
const FULL: u32 = 17;

/// Fewer words are free, and no whole collection was performed.
const STARVED: u32 = 45;

/// Returns the number of free words, which is 0 if the handle has no heap.
#[unsafe(no_mangle)]
pub extern "C" fn gcflip_room(heap: &mut GcflipHeap) -> u32
    ensures words { result ≡ option_map_or (λ s. s.heap.free) heap.old.state 0 }
    ensures heap { heap.new.state ≡ heap.old.state }
    ensures beside { heap.new.beside ≡ heap.old.beside }
{
    if heap.is_empty() {
        return 0;
    }
    heap.heap_mut().free()
}

/// Performs the useful steps that are due before the program allocates `words` words. If fewer words are free then, ends the open collection, and performs
/// one more if that does not help. Returns 17 if fewer words are free though a collection that began in this call flipped, and 45 if none could.
#[unsafe(no_mangle)]
pub extern "C" fn gcflip_reserve(
    heap: &mut GcflipHeap,
    pace: &mut Pace,
    words: u32,
    work: &mut GcflipWork,
) -> u32
    ensures call { IsCall (λ _. IsPace pace.old) (λ s t. TellsRoom words t.heap.free result × Reserves words pace.old pace.new
        (heap_behind heap.old s) (heap_behind heap.new t) work.new result) heap.old.state heap.new.state result }
    ensures silent { IsRefusal result → (pace.new ≡ pace.old) × (work.new ≡ work.old) }
    ensures memory { result ≢ no_memory }
    ensures unchanged { IsRefusal result → heap.new.beside ≡ heap.old.beside }
{
    let heap = lent!(heap);
    if !pace.is_fit() {
        return OUT_OF_RANGE;
    }
    reserve(heap, pace, words, work)
}

/// Performs a whole collection that begins in this call, so that what is garbage now is gone afterwards. Ends the open one first, if there is one. Returns
/// 36 where a step of the last collection found no room, and 45 where memory was refused for one; that collection is then open, or did not begin.
#[unsafe(no_mangle)]
pub extern "C" fn gcflip_collect(heap: &mut GcflipHeap, work: &mut GcflipWork) -> u32
    ensures call { IsCall (λ _. ⊤) (λ s t. CollectsAnew (heap_behind heap.old s) (heap_behind heap.new t) work.new result)
        heap.old.state heap.new.state result }
    ensures silent { IsRefusal result → work.new ≡ work.old }
    ensures memory { result ≢ no_memory }
    ensures unchanged { IsRefusal result → heap.new.beside ≡ heap.old.beside }
{
    let heap = lent!(heap);
    let made = collect_anew(heap);
    *work = made.report;
    made.answer
}

/// Frees the memory that waits: the old space of the last flip, which is room for the next collection, and other room. Returns 32, and frees nothing,
/// while a collection is open.
#[unsafe(no_mangle)]
pub extern "C" fn gcflip_release(heap: &mut GcflipHeap) -> u32
    ensures answers { (result ≡ done) ⊎ (result ≡ busy) ⊎ (result ≡ closed_handle) }
    ensures heap { heap.new.state ≡ heap.old.state }
    ensures freed { result ≡ done → heap.new.beside ≡ released heap.old.beside }
    ensures unchanged { result ≢ done → heap.new.beside ≡ heap.old.beside }
    ensures open { (result ≡ busy) ↔ IsSomeAnd heap.old.state (λ s. IsSome s.collection) }
    ensures closed { (result ≡ closed_handle) ↔ (heap.old.state ≡ None) }
{
    let heap = lent!(heap);
    if heap.is_open() {
        return of_step(StepReply::Busy);
    }
    heap.release();
    DONE
}

// Ends the open collection, if there is one, and performs a whole one unless it is open still.
fn collect_anew(heap: &mut CollectedHeap) -> Made
    ensures { CollectsAnew heap.old heap.new result.report result.answer }
{
    let first = end_open(heap);
    if heap.is_open() {
        return Made {
            answer: lack_of(first),
            report: joined(report(first), report(NOTHING)),
        };
    }
    let second = finish(heap);
    Made {
        answer: whole_answer(second),
        report: joined(report(first), report(second)),
    }
}

// Ends the open collection, if there is one, and returns what was done.
fn end_open(heap: &mut CollectedHeap) -> Work
    ensures { ((heap.old.core.collection ≡ None) × (heap.new ≡ heap.old) × (result ≡ no_work)) ⊎ (IsSome heap.old.core.collection × Finishes heap.old heap.new result) }
{
    if heap.is_open() {
        finish(heap)
    } else {
        NOTHING
    }
}

// Returns why work ended before a flip.
fn lack_of(work: Work) -> u32
    ensures { result ≡ lack_in work }
{
    match work.last {
        Some(StepReply::NoRoom) => NO_ROOM,
        _ => STARVED,
    }
}

// Returns the answer of a collection that began with this work.
fn whole_answer(work: Work) -> u32
    ensures { result ≡ answer_in work }
{
    if work.has_flipped() {
        DONE
    } else {
        lack_of(work)
    }
}

// Reserves room, as `gcflip_reserve` does.
fn reserve(heap: &mut CollectedHeap, pace: &mut Pace, words: u32, work: &mut GcflipWork) -> u32
    ensures tells { TellsRoom words heap.new.core.heap.free result }
    ensures reserves { Reserves words pace.old pace.new heap.old heap.new work.new result }
{
    let due = at_pace(heap, pace, words);
    if heap.free() >= words {
        *work = report(due);
        return DONE;
    }
    let made = collect_for(heap, words);
    remember_unless_starved(heap, pace, made.answer);
    *work = joined(report(due), made.report);
    made.answer
}

// Performs the useful steps that are due, and returns what they did: nothing if memory was refused for the first one.
fn at_pace(heap: &mut CollectedHeap, pace: &mut Pace, words: u32) -> Work
    ensures { (IsPacedWork words heap.old heap.new pace.old pace.new result × LeavesBeside None heap.old heap.new result)
        ⊎ (WasRefused None heap.old heap.new × (pace.new ≡ pace.old) × (result ≡ no_work)) }
{
    match work_at_pace(heap, pace, words) {
        Ok(work) => work,
        Err(NoMemory) => NOTHING,
    }
}

// Makes the pace remember the heap as it is after a flip that it did not ask for.
fn remember_unless_starved(heap: &CollectedHeap, pace: &mut Pace, answer: u32)
    ensures { pace.new ≡ (if answer == starved then pace.old else pace_from pace.old (counts_in heap.now)) }
{
    if answer != STARVED {
        pace.remember(&Counts::of(heap));
    }
}

/// What collections for room did.
#[derive(Drop)]
struct Made {
    answer: u32,
    report: GcflipWork,
}

// Ends the open collection, if there is one, and performs one more if that does not help.
fn collect_for(heap: &mut CollectedHeap, words: u32) -> Made
    ensures tells { TellsRoom words heap.new.core.heap.free result.answer }
    ensures collects { Collects heap.old heap.new result.report result.answer }
{
    let anew = !heap.is_open();
    let first = finish(heap);
    if heap.free() >= words || anew || !first.has_flipped() {
        return Made {
            answer: answer_of(heap, words, anew && first.has_flipped()),
            report: joined(report(first), report(NOTHING)),
        };
    }
    let anew = !heap.is_open();
    let second = finish(heap);
    Made {
        answer: answer_of(heap, words, anew && second.has_flipped()),
        report: joined(report(first), report(second)),
    }
}

const NOTHING: Work = Work {
    steps: 0,
    copied: 0,
    last: None,
    looks: 0,
};

// Performs useful steps up to a flip, and returns what they did: nothing if memory was refused for the first one.
fn finish(heap: &mut CollectedHeap) -> Work
    ensures { Finishes heap.old heap.new result }
{
    match work_on(heap, None, u32::MAX) {
        Ok(work) => work,
        Err(NoMemory) => NOTHING,
    }
}

// Returns whether so many words are free, and if not, whether there was a whole collection.
fn answer_of(heap: &CollectedHeap, words: u32, whole: bool) -> u32
    ensures tells { TellsRoom words heap.now.core.heap.free result }
    ensures whole { result ≡ full → IsTrue whole }
{
    if heap.free() >= words {
        DONE
    } else if whole {
        FULL
    } else {
        STARVED
    }
}

// Returns the report of two calls of work.
fn joined(first: GcflipWork, second: GcflipWork) -> GcflipWork
    ensures { result ≡ joined_report first second }
{
    let (last, pairs) = if second.steps == 0 {
        (first.last, first.pairs)
    } else {
        (second.last, second.pairs)
    };
    GcflipWork {
        steps: first.steps.saturating_add(second.steps),
        copied: first.copied.saturating_add(second.copied),
        last,
        pairs,
        looks: first.looks.saturating_add(second.looks),
    }
}
