ghost use Rattle.std.specs.Prelude.{◌≡◌, ◌≤◌, IfOk};
ghost use Rattle.gc_model.specs.Steps.{collect};
ghost use Rattle.gc_copy.specs.Words.{idle_state, open_state, HasNoLinks, LinksNothing, BelongsTo};
ghost use Rattle.gc_model.specs.declared.step.Step.{Step};
ghost use Rattle.gc_model.specs.declared.step.StepReply.{StepReply};

use super::Collection;
use super::room::Room;
use gc_graph::NoMemory;
use gc_heap::Heap;
use gc_words::Addr;
use std::alloc::Global;

impl Collection {
    /// Opens a collection of this heap whose new space is as large as the heap's.
    pub fn begin(alloc: Global, heap: &Heap) -> Result<Collection, NoMemory>
        requires { HasNoLinks heap.now }
        ensures step { IfOk result (λ c. collect (idle_state heap.now) Step.Begin ≡ (StepReply.Begun, open_state heap.now c)) }
        ensures belongs { IfOk result (BelongsTo heap.now) }
        // Its links have no mark.
        ensures epoch { IfOk result (λ c. c.epoch ≡ 0) }
    {
        Collection::begin_sized(alloc, heap, heap.space().size())
    }

    /// Opens a collection of this heap whose new space has `size` words, at least 1.
    pub fn begin_sized(alloc: Global, heap: &Heap, size: u32) -> Result<Collection, NoMemory>
        requires links { HasNoLinks heap.now }
        requires low { 1 ≤ size }
        ensures step { IfOk result (λ c. collect (idle_state heap.now) (Step.BeginSized size) ≡ (StepReply.Begun, open_state heap.now c)) }
        ensures belongs { IfOk result (BelongsTo heap.now) }
        // Its links have no mark.
        ensures epoch { IfOk result (λ c. c.epoch ≡ 0) }
    {
        let room = Room::new(alloc, size, heap.mutators())?;
        Ok(Collection::begin_in(room, heap, 0))
    }

    /// Opens a collection of this heap in this room, of which it keeps no word. Its links are of this epoch. Does not allocate.
    pub fn begin_in(room: Room, heap: &Heap, epoch: u32) -> Collection
        requires links { LinksNothing epoch heap.now }
        requires mutators { room.mutators ≡ heap.now.mutators }
        ensures step { collect (idle_state heap.now) (Step.BeginSized room.size) ≡ (StepReply.Begun, open_state heap.now result) }
        ensures belongs { BelongsTo heap.now result }
        ensures epoch { result.epoch ≡ epoch }
    {
        let Room { space, logs, .. } = room;
        Collection {
            space: space.emptied(),
            logs,
            scan_place: Addr(1),
            scan_field: 0,
            epoch,
            replicas: 0,
        }
    }
}
