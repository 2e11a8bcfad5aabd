ghost use Rattle.std.specs.Prelude.{◌≡◌, ◌<◌, ◌≤◌, ◌^◌, IfOk, IsTrue, OnErr, length};
ghost use Rattle.gc_heap.specs.Heap.{graph_in};
ghost use Rattle.gc_model.specs.Steps.{is_ready};
ghost use Rattle.gc_copy.specs.Words.{BelongsTo, collection_in, open_state};
ghost use Rattle.gc_collected.specs.Flip.{flip_pair, IsCertified};
ghost use Rattle.gc_collected.specs.Internal.Flip.{IsDraft};
ghost use Rattle.gc_collected.specs.declared.checking.Finding.{Finding};

use crate::collected_heap::CollectedHeap;
use crate::flip::Draft;
use crate::known::search;
use gc_check::{CheckFault, Checks};
use gc_copy::{Collection, images_show_links};
use gc_graph::NoMemory;
use gc_heap::Heap;
use gc_words::{Refusal, no_fault_where_certified};
use std::alloc::Global;

/// What a check of the open collection finds.
#[derive(Clone, Copy, Debug, PartialEq, Eq)]
pub enum Finding {
    /// No collection is open.
    Idle,
    /// The open collection is not ready for its flip.
    NotReady,
    /// The certificate of the open collection holds. It has this many pairs.
    Holds { pairs: u32 },
    /// The first condition of the certificate that fails. This is proved never to occur, unless somebody else writes into the heap's memory.
    Refused(Refusal),
}

impl CollectedHeap {
    ghost use Rattle.gc_collected.specs.CollectedHeap.{Allocates};
    ghost use Rattle.gc_collected.specs.Checking.{finding, HoldsOnly};
    ghost use Rattle.gc_model.specs.declared.step.Step.{Step};

    /// Checks the certificate of the open collection, if that is ready, by both spaces whole. The heap stays as it is. Allocates what a
    /// checked flip does, and frees it before it returns. First it checks that the spaces of an open collection are shaped.
    pub fn check<C: Checks>(&mut self, checker: &C) -> Result<Finding, NoMemory>
        requires { C.can_check checker.now }
        ensures finding { IfOk result (λ found. found ≡ finding self.old.core) }
        // It finds that the certificate holds only if this checker said yes.
        ensures asked { IfOk result (HoldsOnly (C.says_yes checker.now) self.old.core) }
        ensures sound { IfOk result (HoldsOnly IsCertified self.old.core) }
        // Only the check of a ready collection allocates.
        ensures allocates { OnErr result (Allocates self.old.core Step.Flip) }
        ensures core { self.new.core ≡ self.old.core }
        ensures beside { self.new.beside ≡ self.old.beside }
        ensures looks { self.new.roots_left ≤ self.old.roots_left }
    {
        if let Some(refusal) = self.shape_refusal() {
            return Ok(Finding::Refused(refusal));
        }
        let Some(collection) = &mut self.collection else {
            return Ok(Finding::Idle);
        };
        let roots_done = search(collection, &self.heap, &self.watch, &mut self.known).is_none();
        if !collection.ready_with(&self.heap, roots_done) {
            return Ok(Finding::NotReady);
        }
        // The checker sees the links as they are without a mark.
        collection.unmark(&mut self.heap);
        let draft = Draft::new(self.alloc, &self.heap, collection)?;
        found_by(checker, self.alloc, &self.heap, collection, &draft)
    }

    /// Returns the refusal of a space that is not shaped, if a collection is open. There is none, as for `old_fault` and `new_fault`.
    fn shape_refusal(&self) -> Option<Refusal>
        ensures { result ≡ None }
    {
        if !self.is_open() {
            return None;
        }
        if let Some(fault) = self.old_fault() {
            return Some(Refusal::OldShape { at: fault.at });
        }
        let fault = self.new_fault()?;
        Some(Refusal::NewShape { at: fault.at })
    }
}

/// Asks the checker about the certificate of a ready collection, which always holds.
pub(crate) fn found_by<C: Checks>(
    checker: &C,
    alloc: Global,
    heap: &Heap,
    collection: &Collection,
    draft: &Draft,
) -> Result<Finding, NoMemory>
    requires can { C.can_check checker.now }
    requires belongs { BelongsTo heap.now collection.now }
    requires ready { IsTrue (is_ready (collection_in collection.now) (graph_in heap.now)) }
    requires unmarked { collection.now.epoch ≡ 0 }
    requires draft { IsDraft heap.now collection.now draft.now }
    requires few { length draft.now.pairs.items < 2 ^ 32 }
    ensures holds { IfOk result (λ found. found ≡ Finding.Holds (length (collection_in collection.now).replicas)) }
    ensures asked { IfOk result (λ found. C.says_yes checker.now
        (flip_pair (open_state heap.now collection.now) (collection_in collection.now))) }
    ensures certified { IfOk result (λ found. IsCertified
        (flip_pair (open_state heap.now collection.now) (collection_in collection.now))) }
{
    images_show_links();
    no_fault_where_certified();
    let old = heap.image();
    let new = collection.new_image(&draft.roots);
    match checker.check(alloc, old, new, &draft.pairs) {
        Ok(yes) => Ok(Finding::Holds { pairs: yes.pairs }),
        Err(CheckFault::Refused(refusal)) => Ok(Finding::Refused(refusal)),
        Err(CheckFault::NoMemory) => Err(NoMemory),
    }
}
