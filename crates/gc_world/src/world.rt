use crate::entry::Entry;
use crate::laws::histories_grow;
use gc_cert::PairFile;
use gc_check::{Checks, Sequential};
use gc_collected::{CollectedHeap, Keep};
use gc_copy::{Step, StepReply};
use gc_graph::{NoMemory, Op, Reply};
use gc_heap::Heap;
use gc_par::Parallel;
use std::alloc::Global;
use std::marker::Model;
use std::thread::Threads;

/// A collected heap with its history: every event with its answer. The heap keeps the pair of a flip that the checker
/// accepted, until `take_flip` takes it.
#[derive(Debug, Drop)]
pub struct World {
    size: u32,
    heap: CollectedHeap,
    history: Vec<Entry>,
}

impl Model for World {
    ghost use Rattle.gc_world.specs.World.{Past};
    ghost use Rattle.gc_world.specs.Internal.World.{IsWorld};

    ghost Value = { Past };

    ghost view = { λ w. record {
      size = w.size;
      mutators = w.heap.core.mutators;
      entries = w.history.items;
      kept = w.heap.beside.pair;
    } };

    ghost invariant = { λ w. IsWorld w.heap.core (record {
      size = w.size;
      mutators = w.heap.core.mutators;
      entries = w.history.items;
      kept = w.heap.beside.pair;
    }) };
}

impl World {
    ghost use Rattle.std.specs.Prelude.{◌≡◌, ◌<◌, ◌≤◌, ◌++◌, ◌∷◌, [], None, IfOk, OnErr, IsTrue};
    ghost use Rattle.std.specs.Prelude.{if◌then◌else◌, is_some, IfSome};
    ghost use Rattle.std.specs.Option.{option_map};
    ghost use Rattle.gc_graph.specs.Limits.{most_words, most_mutators};
    ghost use Rattle.gc_heap.specs.Heap.{roomy_in};
    ghost use Rattle.gc_cert.specs.Views.{pair_in};
    ghost use Rattle.gc_model.specs.Steps.{mutate, useful_step};
    ghost use Rattle.gc_model.specs.Runs.{IsStepWithin};
    ghost use Rattle.gc_collected.specs.Flip.{IsCertified};
    ghost use Rattle.gc_world.specs.History.{IsHistory};
    ghost use Rattle.gc_world.specs.World.{present, entry_of, IsCollected};
    ghost use Rattle.gc_model.specs.declared.event.Event.{Event};
    ghost use Rattle.gc_model.specs.declared.event.Answer.{Answer};

    /// Returns a world with an empty heap of `size` words, 1 to 1048576, for 1 to 16 mutators, and an empty history.
    pub fn open(alloc: Global, size: u32, mutators: u8) -> Result<World, NoMemory>
        requires low { 1 ≤ size }
        requires high { size ≤ most_words }
        requires some { 1 ≤ mutators }
        requires few { mutators ≤ most_mutators }
        ensures { IfOk result (λ world. world ≡ record {
          size = size;
          mutators = mutators;
          entries = [];
          kept = None;
        }) }
    {
        histories_grow();
        let heap = CollectedHeap::open(alloc, size, mutators)?;
        Ok(World {
            size,
            heap,
            history: Vec::new(alloc),
        })
    }

    /// Performs mutator `m`'s command. On `NoMemory` the world is unchanged.
    pub fn mutate(&mut self, m: u8, op: &Op) -> Result<Reply, NoMemory>
        requires { m < self.old.mutators }
        ensures answered { IfOk result (λ reply.
            self.new ≡ record self.old {
              entries = self.old.entries ++ entry_of (Event.Mutate m op.now) (Answer.Mutator reply) ∷ [];
            }) }
        ensures step { IfOk result (λ reply.
            mutate (present self.old) m op.now ≡ (reply, present self.new)) }
        ensures refused { OnErr result (self.new ≡ self.old) }
    {
        histories_grow();
        make_room(&mut self.history)?;
        let reply = self.heap.mutate(m, op)?;
        record_command(&mut self.history, m, *op, &reply);
        Ok(reply)
    }

    /// Performs one collector step, whose size, if it has one, is one that a trace can hold. A flip happens only if the
    /// checker accepts the certificate; the world then keeps the accepted pair of heaps. On `NoMemory` the world is
    /// unchanged.
    pub fn collect(&mut self, step: Step) -> Result<StepReply, NoMemory>
        requires { IsStepWithin most_words self.old.mutators step }
        ensures collected { IfOk result (λ reply.
            IsCollected self.old self.new step reply (Answer.Collector reply)) }
        ensures refused { OnErr result (self.new ≡ self.old) }
    {
        self.collect_by(&Sequential, step, false)
    }

    /// Performs one collector step, as `collect` does, but lets several threads check a flip with many pairs. On
    /// `NoMemory` the world is unchanged.
    pub fn collect_par(
        &mut self,
        rt: &(impl Threads + Sync),
        step: Step,
    ) -> Result<StepReply, NoMemory>
        requires { IsStepWithin most_words self.old.mutators step }
        ensures collected { IfOk result (λ reply.
            IsCollected self.old self.new step reply (Answer.Collector reply)) }
        ensures refused { OnErr result (self.new ≡ self.old) }
    {
        self.collect_by(&Parallel::new(rt), step, false)
    }

    /// Performs the useful step, as `collect_par` does, and returns it with its reply. The history marks the answer as
    /// `Useful`. On `NoMemory` the world is unchanged.
    pub fn collect_useful(
        &mut self,
        rt: &(impl Threads + Sync),
    ) -> Result<(Step, StepReply), NoMemory>
        ensures useful { IfOk result (λ made. made.0 ≡ useful_step (present self.old)) }
        ensures collected { IfOk result (λ made.
            IsCollected self.old self.new made.0 made.1 (Answer.Useful made.1)) }
        ensures refused { OnErr result (self.new ≡ self.old) }
    {
        let step = self.heap.next_useful_step();
        let reply = self.collect_by(&Parallel::new(rt), step, true)?;
        Ok((step, reply))
    }

    // Performs a step of the collector with this checker. If it was chosen as the useful step, its answer is marked as such.
    fn collect_by<C: Checks>(
        &mut self,
        checker: &C,
        step: Step,
        useful: bool,
    ) -> Result<StepReply, NoMemory>
        requires can { C.can_check checker.now }
        requires step { IsStepWithin most_words self.old.mutators step }
        requires useful { IsTrue useful → step ≡ useful_step (present self.old) }
        ensures collected { IfOk result (λ reply.
            IsCollected self.old self.new step reply
            (if useful then Answer.Useful reply else Answer.Collector reply)) }
        ensures refused { OnErr result (self.new ≡ self.old) }
    {
        histories_grow();
        make_room(&mut self.history)?;
        let reply = perform(&mut self.heap, checker, step)?;
        self.history
            .push_reserved(Entry::of_step(step, reply, useful));
        Ok(reply)
    }

    /// Returns the useful step: the one that advances the collection, or opens one.
    pub fn useful_step(&self) -> Step
        ensures { result ≡ useful_step (present self.now) }
    {
        self.heap.useful_step()
    }

    /// Returns whether a collection is open, for callers that pace their collections.
    pub fn is_open(&self) -> bool
        ensures { result ≡ is_some (present self.now).collection }
    {
        self.heap.is_open()
    }

    /// Returns the size of the space when the world was opened, in words.
    pub fn size(&self) -> u32
        ensures { result ≡ self.now.size }
    {
        self.size
    }

    /// Returns the number of mutators, 1 to 16.
    pub fn mutators(&self) -> u8
        ensures { result ≡ self.now.mutators }
    {
        self.heap.mutators()
    }

    /// Returns the mutators' heap.
    pub fn heap(&self) -> &Heap
        ensures { roomy_in result.now ≡ (present self.now).heap }
    {
        self.heap.heap()
    }

    /// Takes the pair of the last flip out of the world. Returns `None` if there was no flip, or if the pair has
    /// already been taken.
    pub fn take_flip(&mut self) -> Option<PairFile>
        ensures taken { option_map pair_in result ≡ self.old.kept }
        ensures certified { IfSome result (λ file. IsCertified (pair_in file)) }
        ensures small { IfSome result (λ file.
            (pair_in file).old.size ≤ most_words × (pair_in file).new.size ≤ most_words) }
        ensures rest { self.new ≡ record self.old { kept = None } }
    {
        self.heap.take_pair()
    }

    /// Returns the history: all events with their answers, in order.
    pub fn history(&self) -> &[Entry]
        ensures entries { result.now ≡ self.now.entries }
        ensures history { IsHistory self.now.size self.now.mutators self.now.entries }
    {
        &self.history
    }
}

ghost use Rattle.std.specs.Prelude.{◌≡◌, ◌≢◌, ◌<◌, ◌++◌, ◌∷◌, [], IfOk, OnOk, OnErr, vec_len, vec_capacity};
ghost use Rattle.gc_graph.specs.Limits.{most_words};
ghost use Rattle.gc_graph.specs.Range.{IsCommand};
ghost use Rattle.gc_model.specs.Steps.{collect};
ghost use Rattle.gc_model.specs.Runs.{IsStepWithin, HasSizesWithin};
ghost use Rattle.gc_collected.specs.Flip.{kept_after, PassesIfReady, HasRoomIfLarge};
ghost use Rattle.gc_model.specs.declared.step.Step.{Step};
ghost use Rattle.gc_model.specs.declared.step.StepReply.{StepReply};
ghost use Rattle.gc_world.specs.World.{entry_of};
ghost use Rattle.gc_world.specs.Internal.World.{IsKeptPair};
ghost use Rattle.gc_model.specs.declared.event.Event.{Event};
ghost use Rattle.gc_model.specs.declared.event.Answer.{Answer};

// Makes room for one more entry.
fn make_room(history: &mut Vec<Entry>) -> Result<(), NoMemory>
    ensures items { history.new.items ≡ history.old.items }
    ensures room { OnOk result (vec_len history.new < vec_capacity history.new) }
{
    Ok(history.reserve(1)?)
}

// Appends a command to the history, which has room for it. The type `Op` ensures that the command is in range.
fn record_command(history: &mut Vec<Entry>, m: u8, op: Op, reply: &Reply)
    requires { vec_len history.old < vec_capacity history.old }
    ensures entry { history.new.items
        ≡ history.old.items ++ entry_of (Event.Mutate m op) (Answer.Mutator reply.now) ∷ [] }
    ensures command { IsCommand op }
{
    history.push_reserved(Entry::command(m, &op, reply));
}

// Performs a step. The heap keeps the pair of a flip.
#[tactic(auto, using(crate::proofs::Sizes::heap_step))]
fn perform<C: Checks>(
    heap: &mut CollectedHeap,
    checker: &C,
    step: Step,
) -> Result<StepReply, NoMemory>
    requires can { C.can_check checker.now }
    requires step { IsStepWithin most_words heap.old.core.mutators step }
    requires small { HasSizesWithin most_words heap.old.core }
    ensures step { IfOk result (λ reply. collect heap.old.core step ≡ (reply, heap.new.core)) }
    ensures passes { step ≡ Step.Flip → IfOk result (PassesIfReady heap.old.core) }
    ensures never_refused { IfOk result (λ reply. reply ≢ StepReply.Refused) }
    ensures room { IfOk result (HasRoomIfLarge heap.old.core) }
    ensures kept { IfOk result (λ reply. heap.new.beside.pair ≡ kept_after heap.old.beside.pair heap.old.core reply) }
    ensures certified { OnOk result (IsKeptPair heap.old.beside.pair → IsKeptPair heap.new.beside.pair) }
    ensures refused { OnErr result ((heap.new.core ≡ heap.old.core) × (heap.new.beside.pair ≡ heap.old.beside.pair)) }
    ensures mutators { heap.new.core.mutators ≡ heap.old.core.mutators }
{
    heap.collect(checker, step, Keep::Pair)
}
