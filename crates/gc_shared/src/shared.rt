use crate::closing;
use crate::fault::{CallFault, CloseFault};
use crate::seat::{Receipt, Seat, seats_of};
use gc_copy::{Step, StepReply};
use gc_graph::{MOST_WORDS, NoMemory, Op, Reply};
use gc_world::{Entry, World};
use std::alloc::Global;
use std::marker::Model;
use std::sync::{Mutex, Wait};
use std::thread::Threads;

/// A world behind one lock, with the size and the numbers of mutators and collectors that it was opened with.
#[derive(Drop)]
pub struct Shared {
    alloc: Global,
    size: u32,
    mutators: u8,
    collectors: u8,
    world: Mutex<World>,
}

impl Model for Shared {
    ghost use Rattle.std.specs.Prelude.{◌≤◌};
    ghost use Rattle.gc_graph.specs.Limits.{most_mutators};
    ghost use Rattle.gc_shared.specs.Seats.{Opening};

    ghost Value = { Opening };

    ghost view = { λ s. record {
      size = s.size;
      mutators = s.mutators;
      collectors = s.collectors;
    } };

    ghost invariant = { λ s. (s.mutators ≤ most_mutators) × (s.collectors ≤ 16) };
}

impl Shared {
    ghost use Rattle.std.specs.Prelude.{◌≡◌, ◌≢◌, ◌≤◌, ◌+◌, ◌⊎◌, ◌↔◌, map, true, false};
    ghost use Rattle.std.specs.Prelude.{IfOk, IfErr, OnErr, Err};
    ghost use Rattle.std.specs.List.{range_with_len};
    ghost use Rattle.gc_graph.specs.Limits.{most_words, most_mutators};
    ghost use Rattle.gc_model.specs.Runs.{IsStepWithin};
    ghost use Rattle.gc_model.specs.declared.event.Event.{Event};
    ghost use Rattle.gc_model.specs.declared.event.Answer.{Answer};
    ghost use Rattle.gc_shared.specs.Seats.{opened_with, fresh, IsPossible, IsPossibleIn, AddsReceipt, HasSize, IsApply};
    ghost use Rattle.gc_shared.specs.Closing.{IsWhole, IsFirstCloseFault};

    /// Opens a world of `size` words, 1 to 1048576, behind a lock. Returns it with the seats of its 1 to 16 mutators
    /// and, after them, those of its 0 to 16 collectors.
    pub fn open(
        alloc: Global,
        size: u32,
        mutators: u8,
        collectors: u8,
    ) -> Result<(Shared, Vec<Seat>), NoMemory>
        requires low { 1 ≤ size }
        requires high { size ≤ most_words }
        requires some { 1 ≤ mutators }
        requires few { mutators ≤ most_mutators }
        requires few_collectors { collectors ≤ 16 }
        ensures opening { IfOk result (λ opened. opened.0 ≡ opened_with size mutators collectors) }
        ensures seats { IfOk result (λ opened.
            opened.1.items ≡ map (fresh mutators) (range_with_len 0 (mutators + collectors))) }
    {
        let seats = seats_of(alloc, mutators, collectors)?;
        let world = World::open(alloc, size, mutators)?;
        let shared = Shared {
            alloc,
            size,
            mutators,
            collectors,
            world: Mutex::new(world),
        };
        Ok((shared, seats))
    }

    /// Returns the number of mutators that the world was opened with.
    pub fn mutators(&self) -> u8
        ensures { result ≡ self.now.mutators }
    {
        self.mutators
    }

    /// Returns its allocator.
    pub(crate) fn alloc(&self) -> Global {
        self.alloc
    }

    /// Performs a command of the seat's mutator under the lock, and adds its receipt to the seat. May wait for the
    /// lock. Returns `NotAMutator` for a collector's seat, or for a mutator that this world does not have, and
    /// `NoMemory` if an allocation fails. The seat is then unchanged.
    pub fn call<R: Wait>(&self, rt: &R, seat: &mut Seat, op: &Op) -> Result<Reply, CallFault>
        // A world of the opening's size and number of mutators can give the reply at the receipt's place.
        ensures answered { IfOk result (λ reply. AddsReceipt (IsPossibleIn self.now.size self.now.mutators)
            seat.old seat.new (Event.Mutate seat.old.number op.now) (Answer.Mutator reply)) }
        ensures refused { OnErr result (seat.new ≡ seat.old) }

        // A wrong kind of seat is refused before anything is allocated.
        ensures collector { seat.old.is_mutator ≡ false → result ≡ Err CallFault.NotAMutator }
        ensures beyond { self.now.mutators ≤ seat.old.number → result ≡ Err CallFault.NotAMutator }
        ensures faults { IfErr result (λ fault.
            (fault ≡ CallFault.NoMemory) ⊎ (fault ≡ CallFault.NotAMutator)) }
    {
        if !seat.is_mutator || seat.number >= self.mutators {
            return Err(CallFault::NotAMutator);
        }
        seat.receipts.reserve(1)?;
        let m = seat.number;
        let mut world = self.world.lock(rt);
        if world.size() != self.size || world.mutators() != self.mutators {
            return Err(CallFault::NotAMutator);
        }
        let reply = world.mutate(m, op)?;
        let place = world.history().len() - 1;
        drop(world);
        let entry = Entry::command(m, op, &reply);
        seat.receipts.push_reserved(Receipt { place, entry });
        Ok(reply)
    }

    /// Performs a collector step under the lock, and adds its receipt to the seat. May wait for the lock. Returns
    /// `NotACollector` for a mutator's seat, `NoSuchMutator` for a log that does not exist, and `NoMemory` if an
    /// allocation fails. The seat is then unchanged.
    pub fn step<R: Threads + Wait + Sync>(
        &self,
        rt: &R,
        seat: &mut Seat,
        step: Step,
    ) -> Result<StepReply, CallFault>
        requires { HasSize step }
        ensures answered { IfOk result (λ reply.
            AddsReceipt IsPossible seat.old seat.new (Event.Collect step) (Answer.Collector reply)) }
        ensures refused { OnErr result (seat.new ≡ seat.old) }

        // A wrong kind of seat is refused first, then a log that does not exist, both before anything is allocated.
        ensures mutator { (result ≡ Err CallFault.NotACollector) ↔ (seat.old.is_mutator ≡ true) }
        ensures beyond { seat.old.is_mutator ≡ false → (IsStepWithin most_words self.now.mutators step → ⊥)
            → result ≡ Err CallFault.NoSuchMutator }
        ensures log { result ≡ Err CallFault.NoSuchMutator → IsApply step }
        ensures faults { result ≢ Err CallFault.NotAMutator }
    {
        if seat.is_mutator {
            return Err(CallFault::NotACollector);
        }
        if !step.is_within(MOST_WORDS, self.mutators) {
            return Err(CallFault::NoSuchMutator);
        }
        seat.receipts.reserve(1)?;
        let mut world = self.world.lock(rt);
        if !step.is_within(MOST_WORDS, world.mutators()) {
            return Err(CallFault::NoSuchMutator);
        }
        let reply = world.collect_par(rt, step)?;
        let place = world.history().len() - 1;
        drop(world);
        let entry = Entry::step(step, reply);
        seat.receipts.push_reserved(Receipt { place, entry });
        Ok(reply)
    }

    /// Finds and performs the useful step under one hold of the lock, and adds its receipt to the seat. May wait for
    /// the lock. Returns `NotACollector` for a mutator's seat, and `NoMemory` if an allocation fails. The seat is then
    /// unchanged.
    pub fn useful<R: Threads + Wait + Sync>(
        &self,
        rt: &R,
        seat: &mut Seat,
    ) -> Result<(Step, StepReply), CallFault>
        ensures answered { IfOk result (λ made.
            AddsReceipt IsPossible seat.old seat.new (Event.Collect made.0) (Answer.Useful made.1)) }
        ensures refused { OnErr result (seat.new ≡ seat.old) }
        ensures mutator { (result ≡ Err CallFault.NotACollector) ↔ (seat.old.is_mutator ≡ true) }
        ensures faults { IfErr result (λ fault.
            (fault ≡ CallFault.NoMemory) ⊎ (fault ≡ CallFault.NotACollector)) }
    {
        if seat.is_mutator {
            return Err(CallFault::NotACollector);
        }
        seat.receipts.reserve(1)?;
        let mut world = self.world.lock(rt);
        let (step, reply) = world.collect_useful(rt)?;
        let place = world.history().len() - 1;
        drop(world);
        let entry = Entry::useful(step, reply);
        seat.receipts.push_reserved(Receipt { place, entry });
        Ok((step, reply))
    }

    /// Takes the world out of the lock, and compares its history with the seats' receipts. Returns the world if they
    /// agree, otherwise the first fault together with the world. Does not wait. Drops the seats in either case.
    pub fn close(self, seats: Vec<Seat>) -> Result<World, CloseFault>
        ensures ok { IfOk result (λ world. IsWhole self world seats.items) }
        ensures err { IfErr result (λ fault. IsFirstCloseFault self fault.world seats.items fault.kind) }
    {
        let Shared {
            alloc,
            size,
            mutators,
            collectors,
            world,
        } = self;
        let seats = seats.as_slice();
        closing::compare(alloc, size, mutators, collectors, world.into_inner(), seats)
    }
}
