use crate::checks::{Checking, FlipChecks, Turn};
use crate::known::KnownRoots;
use gc_cert::PairFile;
use gc_copy::{Collection, Room, heaps_have_addresses_as_names};
use gc_graph::NoMemory;
use gc_heap::{Heap, HeapOptions};
use gc_monitor::Monitor;
use std::alloc::Global;
use std::marker::Model;

/// A heap that mutators work on, with its open collection if there is one, and with a monitor or without one.
///
/// The collection needs the heap's link words: an original's link is its replica, so the collector finds replicas
/// without a table. Heap and collection are therefore kept in one type, whose invariant ties them together. Contracts
/// see the core's state: the heap's graph with addresses as names, and the replicas, logs and scan pointer of the
/// open collection; and beside it how flips are checked, the memory that waits, and what the last flip left. The type
/// keeps no history, so a runtime can use it for days.
///
/// The monitor is the standing checker, which goes along with the collection. It is absent unless flips are checked along. If
/// there is one, it follows the heap: it is not lost, it has seen what the collection did, and its tables know the heap.
#[derive(Debug, Drop)]
pub struct CollectedHeap {
    pub(crate) alloc: Global,
    pub(crate) heap: Heap,
    pub(crate) collection: Option<Collection>,
    pub(crate) known: KnownRoots,
    /// The epoch of the next collection's links. No object has a link above its mark.
    pub(crate) epoch: u32,
    /// The monitor.
    pub(crate) watch: Monitor,
    /// Whether there is one.
    pub(crate) along: bool,
    pub(crate) checks: FlipChecks,
    pub(crate) turn: Turn,
    /// The old space of the last flip, if it was to stay as room for the next collection and none has begun since.
    pub(crate) former: Option<Room>,
    /// The pair of the last flip, if it was to be kept and nobody has taken it.
    pub(crate) pair: Option<PairFile>,
    /// Room for the next collection if no flip has left any.
    pub(crate) spare: Option<Room>,
    /// Room that no collection will use. Its memory is given back in slices.
    pub(crate) leaving: Option<Room>,
}

impl Model for CollectedHeap {
    ghost use Rattle.gc_collected.specs.Collected.{Collected};

    ghost Value = { Collected };

    ghost use Rattle.std.specs.Prelude.{IsTrue};
    ghost use Rattle.std.specs.Option.{option_map};
    ghost use Rattle.gc_cert.specs.Views.{pair_in};
    ghost use Rattle.gc_copy.specs.Words.{collection_in, held_in, state_of};
    ghost use Rattle.gc_collected.specs.Internal.Follows.{Follows};
    ghost use Rattle.gc_collected.specs.Internal.CollectedHeap.{Fits};
    ghost use Rattle.gc_collected.specs.Internal.KnownRoots.{ComparesTwins, KnowsRoots, roots_left_in};

    ghost view = { λ h. record {
      core = state_of h.heap (option_map collection_in h.collection);
      beside = record {
        turns = record { along = h.along; each = h.turn.each; since = h.turn.since; checks = h.checks };
        rooms = record { spare = held_in h.spare; leaving = held_in h.leaving };
        former = h.former;
        pair = option_map pair_in h.pair;
      };
      roots_left = roots_left_in h.collection h.known.twins;
    } };

    ghost invariant = { λ h. (Fits h.epoch h.heap h.collection × KnowsRoots h.known (state_of h.heap (option_map collection_in h.collection))
        × ComparesTwins h.known) × (IsTrue h.along → Follows (state_of h.heap (option_map collection_in h.collection)) h.watch) };
}

impl CollectedHeap {
    ghost use Rattle.std.specs.Prelude.{◌≡◌, ◌≤◌, IfOk, IfSome, is_some};
    ghost use Rattle.gc_graph.specs.Limits.{most_mutators};
    ghost use Rattle.gc_model.specs.State.{opening_state};
    ghost use Rattle.gc_model.specs.Belonging.{IsSpaceGraph, IsOpened};
    ghost use Rattle.gc_copy.specs.Opening.{opening_state_with};
    ghost use Rattle.gc_heap.specs.ExtraRoots.{CanOpen};
    ghost use Rattle.gc_heap.specs.Heap.{roomy_in};
    ghost use Rattle.gc_collected.specs.declared.checks.Checking.{Checking};
    ghost use Rattle.gc_collected.specs.Collected.{opening_beside};

    /// Returns an empty heap of `size` words, at least 1, for 1 to 16 mutators. Each flip checks both spaces whole.
    pub fn open(alloc: Global, size: u32, mutators: u8) -> Result<CollectedHeap, NoMemory>
        requires low { 1 ≤ size }
        requires some { 1 ≤ mutators }
        requires few { mutators ≤ most_mutators }
        ensures core { IfOk result (λ heap. heap.core ≡ opening_state size mutators) }
        ensures beside { IfOk result (λ heap. heap.beside ≡ opening_beside Checking.AtFlip) }
    {
        CollectedHeap::open_with(alloc, &HeapOptions::new(size, mutators), Checking::AtFlip)
    }

    /// Returns an empty heap with these options, which may ask for extra roots, whose flips are checked in this way. All roots are nil.
    pub fn open_with(
        alloc: Global,
        options: &HeapOptions,
        checking: Checking,
    ) -> Result<CollectedHeap, NoMemory>
        requires { CanOpen options.now }
        ensures core { IfOk result (λ heap. heap.core ≡ opening_state_with options.now) }
        // The checking that was asked for is that of the heap.
        ensures beside { IfOk result (λ heap. heap.beside ≡ opening_beside checking) }
    {
        let heap = Heap::open_with(alloc, options)?;
        let along = matches!(checking, Checking::Along { .. });
        let roots = heap.roots().len() as u32;
        let watched = if along { heap.extra_roots() } else { 0 };
        let known = KnownRoots::new(alloc, roots, watched)?;
        let watch = monitor(alloc, options.size, along)?;
        Ok(CollectedHeap {
            alloc,
            heap,
            collection: None,
            known,
            epoch: 0,
            watch,
            along,
            checks: FlipChecks { along: 0, whole: 0 },
            turn: Turn::at_open(checking),
            former: None,
            pair: None,
            spare: None,
            leaving: None,
        })
    }

    /// Returns the mutators' heap.
    pub fn heap(&self) -> &Heap
        ensures { roomy_in result.now ≡ self.now.core.heap }
    {
        &self.heap
    }

    /// Returns how many flips each checker has accepted.
    pub fn flip_checks(&self) -> FlipChecks
        ensures { result ≡ self.now.beside.turns.checks }
    {
        self.checks
    }

    /// Returns the number of mutators, 1 to 16.
    pub fn mutators(&self) -> u8
        ensures { result ≡ self.now.core.mutators }
    {
        self.heap.mutators()
    }

    /// Returns whether a collection is open.
    pub fn is_open(&self) -> bool
        ensures { result ≡ is_some self.now.core.collection }
    {
        self.collection.is_some()
    }

    /// Does nothing. Each state of a heap is sound: its objects lie back to back, and an open collection belongs to it.
    #[inline(always)]
    pub fn is_sound(&self)
        ensures heap { IsSpaceGraph self.now.core.size self.now.core.heap.free self.now.core.heap.graph }
        ensures open { IfSome self.now.core.collection (IsOpened self.now.core) }
    {
        heaps_have_addresses_as_names();
        // Here the prover learns that the mutators' heap is sound.
        let _ = self.heap.space();
        if let Some(collection) = &self.collection {
            // And here, that the collection is.
            let _ = collection.new_image(&[]);
        }
    }
}

ghost use Rattle.std.specs.Prelude.{◌≡◌, ◌≤◌, IfOk, IsTrue, IsFalse};
ghost use Rattle.gc_monitor.specs.Events.{absent_tables, opening_tables};

// The monitor of a heap of this size, or an absent one, which asks for no memory.
fn monitor(alloc: Global, size: u32, along: bool) -> Result<Monitor, NoMemory>
    requires { 1 ≤ size }
    ensures along { IsTrue along → IfOk result (λ standing. standing ≡ opening_tables size) }
    ensures absent { IsFalse along → IfOk result (λ standing. standing ≡ absent_tables) }
{
    if along {
        Monitor::new(alloc, size)
    } else {
        Ok(Monitor::absent(alloc))
    }
}
