//! Many useful steps in one call.

ghost use Rattle.std.specs.Prelude.{◌≡◌, ◌⊎◌, ◌<◌, ◌≤◌, ◌+◌, ◌*◌, ◌-◌, ◌^◌, ℕ, suc, true, false, ⊤, Option, Some, None, IfSome, IsSome, IsTrue, IfOk, OnErr};
ghost use Rattle.gc_model.specs.State.{State};
ghost use Rattle.gc_model.specs.Steps.{collect, useful_step};
ghost use Rattle.gc_model.specs.Runs.{IsStep};
ghost use Rattle.gc_model.specs.Progress.{work_left};
ghost use Rattle.gc_model.specs.declared.step.Step.{Step};
ghost use Rattle.gc_model.specs.declared.step.StepReply.{StepReply};
ghost use Rattle.gc_collected.specs.CollectedHeap.{Allocates};
ghost use Rattle.gc_collected.specs.Flip.{FormerAfter};
ghost use Rattle.gc_collected.specs.Collected.{IsUnchangedButRooms, WereRefused, turns_after};
ghost use Rattle.gc_collected.specs.declared.flip.Keep.{Keep};
ghost use Rattle.gc_pace.specs.Beside.{LeavesAfter, HaveRooms, LeavesBeside, WasRefused};
ghost use Rattle.gc_pace.specs.Internal.Leaving.{LeavesLess, EndsBelow};
ghost use Rattle.gc_pace.specs.Internal.Performed.{HasDone, HasSeen, at_once, joined_run, steps_in};
ghost use Rattle.gc_pace.specs.Internal.Waiting.{HasLacked, HaveRun};
ghost use Rattle.gc_pace.specs.Work.{HaveFewLooks, IsSoundReply, IsRun, IsWork, with_size, IsSpent, sized_step, after_useful, useful_reply, goes_on, is_flip, end_in, end_after, no_work};
ghost use Rattle.gc_pace.specs.declared.work.Looks.{Looks};

use gc_check::Sequential;
use gc_collected::{Choice, CollectedHeap, Keep};
use gc_copy::{Step, StepReply, StepRun};
use gc_graph::NoMemory;
use gc_model::useful_steps_end;

/// What a call of work did.
#[derive(Clone, Copy, Debug, Drop, PartialEq, Eq)]
pub struct Work {
    /// The number of steps performed.
    pub steps: u32,
    /// The number of words that these steps' replicas took in the new space (to-space).
    pub copied: u32,
    /// The reply to the last step, if one was performed.
    pub last: Option<StepReply>,
    /// The number of looks at extra roots whose targets had replicas.
    pub looks: u32,
}

/// So many looks that find nothing to copy count as a step.
const LOOKS_A_UNIT: u32 = 32;

/// What looks at extra roots are to a call of work.
#[derive(Clone, Copy, Debug, Drop, PartialEq, Eq)]
pub enum Looks {
    /// 32 looks that find nothing to copy are a unit, as a step is.
    Count,
    /// The same, and a call takes no more than twice this many looks.
    CountUpTo(u32),
    /// A call takes as many looks as its steps need.
    AreFree,
}

impl Work {
    ghost use Rattle.std.specs.Prelude.{◌≡◌};
    ghost use Rattle.gc_pace.specs.Work.{has_flipped, is_over, units};

    /// Returns the units of work: the steps, and one for each 32 looks.
    pub fn units(&self) -> u64
        ensures { result ≡ units self.now }
    {
        u64::from(self.steps) + u64::from(self.looks / LOOKS_A_UNIT)
    }

    /// Returns whether the last step flipped.
    pub fn has_flipped(&self) -> bool
        ensures { result ≡ has_flipped self.now }
    {
        matches!(self.last, Some(StepReply::Flipped { .. }))
    }

    /// Returns whether the last step flipped or found no room.
    pub fn is_over(&self) -> bool
        ensures { result ≡ is_over self.now }
    {
        matches!(
            self.last,
            Some(StepReply::Flipped { .. } | StepReply::NoRoom)
        )
    }
}

/// Returns the step, but with `size` words for the new space if it is a begin and a size is given.
#[inline(always)]
fn sized(step: Step, size: Option<u32>) -> Step
    requires { IfSome size (λ words. 1 ≤ words) }
    ensures step { result ≡ with_size size step }
    ensures range { (mutators : ℕ) → IsStep mutators step → IsStep mutators result }
{
    match (step, size) {
        (Step::Begin, Some(words)) => Step::BeginSized(words),
        (step, _) => step,
    }
}

/// Performs this step, which is the useful one, or a begin of this size in its place.
#[inline(always)]
fn one_step(heap: &mut CollectedHeap, size: Option<u32>, step: Step) -> Result<StepReply, NoMemory>
    requires size { IfSome size (λ words. 1 ≤ words) }
    requires useful { step ≡ sized_step size heap.old.core }
    requires range { IsStep heap.old.core.mutators step }
    ensures step { IfOk result (λ reply. collect heap.old.core (sized_step size heap.old.core) ≡ (reply, heap.new.core)) }
    ensures sound { IfOk result (IsSoundReply heap.old.core) }
    ensures former { IfOk result (λ reply. FormerAfter Keep.Room heap.old.core heap.old.beside.former reply heap.new.beside.former) }
    ensures turns { IfOk result (λ reply. heap.new.beside.turns ≡ turns_after Keep.Room heap.old.beside.turns reply) }
    ensures leaves { IfOk result (LeavesLess heap.old.core heap.new.core) }
    ensures rooms { IfOk result (λ reply. HaveRooms size heap.old.core heap.old.beside (is_flip reply) heap.new.beside.rooms) }
    ensures pair { heap.new.beside.pair ≡ heap.old.beside.pair }
    ensures refused { OnErr result (IsUnchangedButRooms heap.old heap.new) }
    ensures freed { OnErr result (WereRefused heap.old.beside.rooms heap.new.beside.rooms) }
    // While a collection is open, only a flip can lack memory.
    ensures lacked { OnErr result (HasLacked heap.old heap.new.beside.rooms) }
    ensures allocates { OnErr result (Allocates heap.old.core (sized_step size heap.old.core)) }
    ensures looks { IfOk result (λ reply. is_flip reply ≡ false → heap.new.roots_left ≤ heap.old.roots_left) }
    ensures looked { OnErr result (heap.new.roots_left ≤ heap.old.roots_left) }
{
    heap.is_sound();
    useful_steps_end();
    heap.collect(&Sequential, step, Keep::Room)
}

/// Performs scans, at least one and at most `most`. The first is the useful step, and none follows one after which the new space ends at `until`
/// or beyond it.
#[inline(always)]
fn some_scans(heap: &mut CollectedHeap, size: Option<u32>, most: u32, until: u32) -> StepRun
    requires size { IfSome size (λ words. 1 ≤ words) }
    requires some { 1 ≤ most }
    requires useful { sized_step size heap.old.core ≡ Step.Scan }
    ensures run { IsRun size result.steps heap.old.core heap.new.core result.reply }
    ensures within { result.steps ≤ most }
    ensures short { EndsBelow size until result.steps heap.old.core }
    ensures former { LeavesAfter size result.steps heap.old.core heap.old.beside.former heap.new.beside.former }
    ensures flips { is_flip result.reply ≡ false }
    ensures open { IsSome heap.old.core.collection }
    ensures beside { heap.new.beside ≡ heap.old.beside }
    ensures looks { heap.new.roots_left ≡ heap.old.roots_left }
{
    heap.is_sound();
    useful_steps_end();
    heap.scan_run(most, until)
}

/// Applies entries of mutator `m`'s log, at least one and at most `most`. The first is the useful step, and none follows one after which the new
/// space ends at `until` or beyond it.
#[inline(always)]
fn some_entries(
    heap: &mut CollectedHeap,
    size: Option<u32>,
    m: u8,
    most: u32,
    until: u32,
) -> StepRun
    requires size { IfSome size (λ words. 1 ≤ words) }
    requires some { 1 ≤ most }
    requires useful { sized_step size heap.old.core ≡ Step.Apply m }
    requires mutator { m < heap.old.core.mutators }
    ensures run { IsRun size result.steps heap.old.core heap.new.core result.reply }
    ensures within { result.steps ≤ most }
    ensures short { EndsBelow size until result.steps heap.old.core }
    ensures former { LeavesAfter size result.steps heap.old.core heap.old.beside.former heap.new.beside.former }
    ensures flips { is_flip result.reply ≡ false }
    ensures open { IsSome heap.old.core.collection }
    ensures beside { heap.new.beside ≡ heap.old.beside }
    ensures looks { heap.new.roots_left ≡ heap.old.roots_left }
{
    heap.is_sound();
    useful_steps_end();
    heap.apply_run(m, most, until)
}

/// Performs useful steps, the first of which is this one, at least one and at most `most`: scans, as `some_scans` does, entries, as `some_entries`
/// does, or one step of another kind. If that is a begin, the new space gets `size` words, or as many as the heap has.
#[inline(always)]
fn some_steps(
    heap: &mut CollectedHeap,
    size: Option<u32>,
    step: Step,
    most: u32,
    until: u32,
) -> Result<StepRun, NoMemory>
    requires size { IfSome size (λ words. 1 ≤ words) }
    requires useful { step ≡ useful_step heap.old.core }
    requires range { IsStep heap.old.core.mutators step }
    requires some { 1 ≤ most }
    ensures run { IfOk result (λ run. IsRun size run.steps heap.old.core heap.new.core run.reply) }
    ensures within { IfOk result (λ run. run.steps ≤ most) }
    ensures short { IfOk result (λ run. EndsBelow size until run.steps heap.old.core) }
    ensures former { IfOk result (λ run. LeavesAfter size run.steps heap.old.core heap.old.beside.former heap.new.beside.former) }
    ensures turns { IfOk result (λ run. heap.new.beside.turns ≡ turns_after Keep.Room heap.old.beside.turns run.reply) }
    ensures rooms { IfOk result (λ run. HaveRooms size heap.old.core heap.old.beside (is_flip run.reply) heap.new.beside.rooms) }
    ensures pair { heap.new.beside.pair ≡ heap.old.beside.pair }
    ensures refused { OnErr result (IsUnchangedButRooms heap.old heap.new) }
    ensures freed { OnErr result (WereRefused heap.old.beside.rooms heap.new.beside.rooms) }
    ensures lacked { OnErr result (HasLacked heap.old heap.new.beside.rooms) }
    ensures allocates { OnErr result (Allocates heap.old.core (sized_step size heap.old.core)) }
    ensures looks { IfOk result (λ run. is_flip run.reply ≡ false → heap.new.roots_left ≤ heap.old.roots_left) }
    ensures looked { OnErr result (heap.new.roots_left ≤ heap.old.roots_left) }
{
    match sized(step, size) {
        Step::Scan => Ok(some_scans(heap, size, most, until)),
        Step::Apply(m) => Ok(some_entries(heap, size, m, most, until)),
        step => {
            let reply = one_step(heap, size, step)?;
            Ok(StepRun { steps: 1, reply })
        }
    }
}

/// Performs some steps for `useful_steps`, and tells when they are enough. Generic code knows nothing of `failed`, and gets it only
/// from a step that returned `NoMemory`.
trait Performs {
    // Holds of a state in which an allocation of the useful step failed.
    ghost failed: { Self → Option ℕ → State → Type 0 };

    // Holds of the state after a step with this reply, which goes on, if no further step is performed.
    ghost stops: { Self → Option ℕ → State → StepReply → Type 0 };

    // Holds of the state after a step with this reply if that is not enough.
    ghost short: { Self → State → StepReply → Type 0 };

    fn perform(
        &self,
        heap: &mut CollectedHeap,
        size: Option<u32>,
        step: Step,
        most: u32,
    ) -> Result<StepRun, NoMemory>
        requires size { IfSome size (λ words. 1 ≤ words) }
        requires useful { step ≡ useful_step heap.old.core }
        requires range { IsStep heap.old.core.mutators step }
        requires some { 1 ≤ most }
        ensures run { IfOk result (λ run. IsRun size run.steps heap.old.core heap.new.core run.reply) }
        ensures within { IfOk result (λ run. run.steps ≤ most) }
        // No step before the last one was enough.
        ensures short { IfOk result (λ run. (k : ℕ) → suc k < run.steps
            → short self.now (after_useful size (suc k) heap.old.core) (useful_reply size k heap.old.core)) }
        ensures former { IfOk result (λ run. LeavesAfter size run.steps heap.old.core heap.old.beside.former heap.new.beside.former) }
        ensures turns { IfOk result (λ run. heap.new.beside.turns ≡ turns_after Keep.Room heap.old.beside.turns run.reply) }
        ensures rooms { IfOk result (λ run. HaveRooms size heap.old.core heap.old.beside (is_flip run.reply) heap.new.beside.rooms) }
        ensures pair { heap.new.beside.pair ≡ heap.old.beside.pair }
        ensures refused { OnErr result (IsUnchangedButRooms heap.old heap.new) }
        ensures freed { OnErr result (WereRefused heap.old.beside.rooms heap.new.beside.rooms) }
        ensures lacked { OnErr result (HasLacked heap.old heap.new.beside.rooms) }
        ensures looks { IfOk result (λ run. is_flip run.reply ≡ false → heap.new.roots_left ≤ heap.old.roots_left) }
        ensures looked { OnErr result (heap.new.roots_left ≤ heap.old.roots_left) }
        ensures failed { OnErr result (failed self.now size heap.old.core) }
        ensures stops { OnErr result ((reply : StepReply) → stops self.now size heap.old.core reply) };

    fn has_enough(&self, heap: &CollectedHeap, reply: StepReply) -> bool
        ensures stops { result ≡ true → (size : Option ℕ) → stops self.now size heap.now.core reply }
        ensures short { result ≡ false → short self.now heap.now.core reply };
}

/// Performs useful steps, of which there are never enough.
struct Useful;

impl Performs for Useful {
    ghost failed = { λ _ size s. Allocates s (sized_step size s) };

    ghost stops = { λ _ size s _. Allocates s (sized_step size s) };

    ghost short = { λ _ _ _. ⊤ };

    #[inline(always)]
    fn perform(
        &self,
        heap: &mut CollectedHeap,
        size: Option<u32>,
        step: Step,
        most: u32,
    ) -> Result<StepRun, NoMemory> {
        some_steps(heap, size, step, most, u32::MAX)
    }

    #[inline(always)]
    fn has_enough(&self, _heap: &CollectedHeap, _reply: StepReply) -> bool {
        false
    }
}

/// Returns a place before which fewer than so many words lie from `start` on.
#[inline(always)]
fn place_behind(start: u32, words: u32) -> u32
    ensures { (end : ℕ) → end < result → end - start < words }
{
    if words == 0 {
        0
    } else {
        start.saturating_add(words)
    }
}

/// Performs useful steps until replicas have taken `words` words from `start` on.
#[derive(Drop)]
struct Within {
    start: u32,
    words: u32,
}

impl Performs for Within {
    ghost failed = { λ _ size s. Allocates s (sized_step size s) };

    ghost stops = { λ w size s reply. Allocates s (sized_step size s) ⊎ (w.words ≤ end_after s reply - w.start) };

    ghost short = { λ w s reply. end_after s reply - w.start < w.words };

    #[inline(always)]
    fn perform(
        &self,
        heap: &mut CollectedHeap,
        size: Option<u32>,
        step: Step,
        most: u32,
    ) -> Result<StepRun, NoMemory> {
        let until = place_behind(self.start, self.words);
        some_steps(heap, size, step, most, until)
    }

    #[inline(always)]
    fn has_enough(&self, heap: &CollectedHeap, reply: StepReply) -> bool {
        end_behind(heap, reply).saturating_sub(self.start) >= self.words
    }
}

/// Returns whether work continues after this reply.
fn can_go_on(reply: StepReply) -> bool
    ensures { result ≡ goes_on reply }
{
    !matches!(reply, StepReply::Flipped { .. } | StepReply::NoRoom)
}

/// The useful steps that a call performed, and the looks that it took to find them.
#[derive(Clone, Copy, Debug, Drop)]
struct Performed {
    looks: u32,
    /// The steps, if there were any.
    run: Option<StepRun>,
}

/// Returns the steps of two runs, the second of which begins where the first ended.
#[inline(always)]
fn joined(run: Option<StepRun>, next: StepRun) -> StepRun
    requires { IfSome run (λ first. first.steps + next.steps < 2 ^ 32) }
    ensures { result ≡ joined_run run next }
{
    match run {
        None => next,
        Some(first) => StepRun {
            steps: first.steps + next.steps,
            reply: next.reply,
        },
    }
}

/// Returns the looks that a call which took so many may take to choose a step.
#[inline(always)]
fn looks_at_once(looks_as: Looks, taken: u32) -> u32
    ensures { result ≡ at_once looks_as taken }
{
    match looks_as {
        Looks::Count => LOOKS_A_UNIT,
        Looks::CountUpTo(most) => {
            let left = (2 * u64::from(most)).saturating_sub(u64::from(taken));
            left.min(u64::from(LOOKS_A_UNIT)) as u32
        }
        Looks::AreFree => u32::MAX,
    }
}

/// Performs at most `most` units of work: useful steps, and looks, if these count. Stops after a step that flips or finds no room, and after one that is
/// enough. If an allocation fails, it stops before that step, and returns `NoMemory` only if that was the first step.
fn useful_steps<P: Performs>(
    performs: &P,
    heap: &mut CollectedHeap,
    size: Option<u32>,
    looks_as: Looks,
    most: u32,
) -> Result<Performed, NoMemory>
    requires size { IfSome size (λ words. 1 ≤ words) }
    ensures done { IfOk result (λ p. HasDone (P.short performs.now) size heap.old heap.new p.run) }
    ensures steps { IfOk result (λ p. steps_in p.run ≤ most) }
    // It stops early only after such a reply, or because a step failed for lack of memory.
    ensures ended { IfOk result (λ p. IsSpent looks_as most p.looks (steps_in p.run) ⊎ IfSome p.run (λ run. (goes_on run.reply ≡ false) ⊎ P.stops performs.now size heap.new.core run.reply)) }
    ensures busy { IfOk result (λ p. p.run ≡ None → IsSpent looks_as most p.looks 0) }
    ensures rooms { IfOk result (λ p. IfSome p.run (λ run. HaveRun size heap.old.core heap.new.core heap.old.beside (is_flip run.reply) heap.new.beside.rooms)) }
    ensures looks { IfOk result (λ p. HasSeen heap.old.roots_left heap.new.roots_left p.looks p.run) }
    ensures few { IfOk result (λ p. HaveFewLooks looks_as most p.looks) }
    ensures pair { heap.new.beside.pair ≡ heap.old.beside.pair }
    ensures refused { OnErr result (IsUnchangedButRooms heap.old heap.new) }
    ensures freed { OnErr result (WereRefused heap.old.beside.rooms heap.new.beside.rooms) }
    ensures failed { OnErr result (P.failed performs.now size heap.old.core) }
{
    // Here the prover learns that 32 bits hold the looks that are left.
    let _ = heap.roots_left();
    let mut done = Performed {
        looks: 0,
        run: None,
    };
    let mut units: u32 = 0;
    while units < most {
        let limit = looks_at_once(looks_as, done.looks);
        let Choice { looks, step } = heap.choose_step(limit);
        done.looks += looks;
        match step {
            None => {
                // The call took all looks that it may take.
                if looks < LOOKS_A_UNIT {
                    return Ok(done);
                }
                units += 1;
            }
            Some(step) => match performs.perform(heap, size, step, most - units) {
                Err(refused) => {
                    if done.run.is_none() {
                        return Err(refused);
                    }
                    return Ok(done);
                }
                Ok(next) => {
                    units += next.steps;
                    done.run = Some(joined(done.run, next));
                    if !can_go_on(next.reply) {
                        return Ok(done);
                    }
                    if performs.has_enough(heap, next.reply) {
                        return Ok(done);
                    }
                }
            },
        }
    }
    Ok(done)
}

/// Returns the first word of the open collection's new space that no replica takes, or 1 if none is open.
fn end_of_new(heap: &CollectedHeap) -> u32
    ensures { result ≡ end_in heap.now.core }
{
    match heap.new_space() {
        None => 1,
        Some(space) => space.end,
    }
}

/// Returns the same after a step with this reply. After a flip, the new space is the heap's.
fn end_behind(heap: &CollectedHeap, reply: StepReply) -> u32
    ensures { result ≡ end_after heap.now.core reply }
{
    match reply {
        StepReply::Flipped { .. } => heap.end(),
        _ => end_of_new(heap),
    }
}

/// Returns a report of these steps and looks. The new space ended at `start` before them.
#[inline(always)]
fn report(heap: &CollectedHeap, start: u32, looks: u32, run: StepRun) -> Work
    ensures steps { result.steps ≡ run.steps }
    ensures copied { result.copied ≡ end_after heap.now.core run.reply - start }
    ensures last { result.last ≡ Some run.reply }
    ensures looks { result.looks ≡ looks }
{
    let StepRun { steps, reply } = run;
    Work {
        steps,
        copied: end_behind(heap, reply).saturating_sub(start),
        last: Some(reply),
        looks,
    }
}

/// Returns a report of looks alone.
#[inline(always)]
pub(crate) fn only_looks(looks: u32) -> Work
    ensures { result ≡ record no_work { looks = looks } }
{
    Work {
        steps: 0,
        copied: 0,
        last: None,
        looks,
    }
}

/// Performs at most `most` units of work and reports them: useful steps, and looks at extra roots, of which 32 that find nothing to copy are a unit.
/// If a step is a begin, the new space gets `size` words, or as many as the heap has. Stops after a flip, and after a step that finds no room. If an
/// allocation fails, stops before that step, and returns `NoMemory` only if that was the first step.
pub fn work_on(heap: &mut CollectedHeap, size: Option<u32>, most: u32) -> Result<Work, NoMemory>
    requires size { IfSome size (λ words. 1 ≤ words) }
    requires some { 1 ≤ most }
    ensures work { IfOk result (IsWork Looks.Count size None most heap.old.core heap.new.core) }
    ensures beside { IfOk result (LeavesBeside size heap.old heap.new) }
    ensures refused { OnErr result (WasRefused size heap.old heap.new) }
{
    work_as(heap, size, Looks::Count, most)
}

/// Performs at most `most` useful steps, as `work_on` does, and looks at as many extra roots as they take.
pub(crate) fn work_through(heap: &mut CollectedHeap, most: u32) -> Result<Work, NoMemory>
    requires { 1 ≤ most }
    ensures work { IfOk result (IsWork Looks.AreFree None None most heap.old.core heap.new.core) }
    ensures beside { IfOk result (LeavesBeside None heap.old heap.new) }
    ensures refused { OnErr result (WasRefused None heap.old heap.new) }
{
    work_as(heap, None, Looks::AreFree, most)
}

// Performs at most `most` units of work.
fn work_as(
    heap: &mut CollectedHeap,
    size: Option<u32>,
    looks_as: Looks,
    most: u32,
) -> Result<Work, NoMemory>
    requires size { IfSome size (λ words. 1 ≤ words) }
    requires some { 1 ≤ most }
    ensures work { IfOk result (IsWork looks_as size None most heap.old.core heap.new.core) }
    ensures beside { IfOk result (LeavesBeside size heap.old heap.new) }
    ensures refused { OnErr result (WasRefused size heap.old heap.new) }
{
    let start = end_of_new(heap);
    let Performed { looks, run } = useful_steps(&Useful, heap, size, looks_as, most)?;
    let Some(run) = run else {
        return Ok(only_looks(looks));
    };
    let work = report(heap, start, looks, run);
    heap.give_back();
    Ok(work)
}

/// Does the same as `work_on`, but also stops after the step with which the replicas of this call take `words` words or more.
pub fn work_within(heap: &mut CollectedHeap, most: u32, words: u32) -> Result<Work, NoMemory>
    requires { 1 ≤ most }
    ensures work { IfOk result (IsWork Looks.Count None (Some words) most heap.old.core heap.new.core) }
    ensures beside { IfOk result (LeavesBeside None heap.old heap.new) }
    ensures refused { OnErr result (WasRefused None heap.old heap.new) }
{
    work_within_as(heap, Looks::Count, most, words)
}

/// Does the same as `work_within`, and takes no more than `words` looks.
pub(crate) fn work_bounded(
    heap: &mut CollectedHeap,
    most: u32,
    words: u32,
) -> Result<Work, NoMemory>
    requires { 1 ≤ most }
    ensures work { IfOk result (IsWork (Looks.CountUpTo words) None (Some words) most heap.old.core heap.new.core) }
    ensures beside { IfOk result (LeavesBeside None heap.old heap.new) }
    ensures refused { OnErr result (WasRefused None heap.old heap.new) }
{
    work_within_as(heap, Looks::CountUpTo(words), most, words)
}

// Performs at most `most` units of work, and stops after the step with which the replicas of this call take `words` words or more.
fn work_within_as(
    heap: &mut CollectedHeap,
    looks_as: Looks,
    most: u32,
    words: u32,
) -> Result<Work, NoMemory>
    requires { 1 ≤ most }
    ensures work { IfOk result (IsWork looks_as None (Some words) most heap.old.core heap.new.core) }
    ensures beside { IfOk result (LeavesBeside None heap.old heap.new) }
    ensures refused { OnErr result (WasRefused None heap.old heap.new) }
{
    let start = end_of_new(heap);
    let within = Within { start, words };
    let Performed { looks, run } = useful_steps(&within, heap, None, looks_as, most)?;
    let Some(run) = run else {
        return Ok(only_looks(looks));
    };
    let work = report(heap, start, looks, run);
    heap.give_back();
    Ok(work)
}
