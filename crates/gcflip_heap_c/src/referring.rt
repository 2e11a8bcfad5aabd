//! The exports that take any address: two make a reference of it, for a table of weak references, and two tell the object there and its fields, for a walk
//! over the heap.

ghost use Rattle.std.specs.Prelude.{◌≡◌, ◌≢◌, ◌∷◌, [], ⊤};
ghost use Rattle.gc_check.specs.InC.{no_memory, IsRefusal};
ghost use Rattle.gc_graph.specs.Graph.{lookup};
ghost use Rattle.gc_heap.specs.Places.{root_at};
ghost use Rattle.gc_collected.specs.Referring.{refer_step};
ghost use Rattle.gc_collected.specs.Viewing.{view_at};
ghost use Rattle.gc_collected.specs.Spreading.{AskForRow};
ghost use Rattle.gcflip_heap_c.specs.Commands.{IsCall, IsCommandCall};
ghost use Rattle.gcflip_heap_c.specs.Places.{HasRoots};
ghost use Rattle.gc_in_c.specs.Telling.{TellsField};
ghost use Rattle.gc_in_c.specs.Replies.{seen_in_c, view_in_c};
ghost use Rattle.gcflip_heap_c.specs.Slots.{NamesSlots, numbered_slot};

use crate::answer::{NO_FIELD, OUT_OF_RANGE};
use crate::guards::{lent, lent_to, slot_named};
use crate::handle::GcflipHeap;
use crate::seen::field_seen;
use gc_graph::Reply;
use gc_in_c::{GcflipView, of_look, of_reply};
use gc_words::OldAddr;

/// Puts a reference to the object that starts at this address into slot `d`. Returns 18 if no object starts there; the slot then keeps its
/// value. Takes constant time where the standing checker goes along, and else walks over the objects before the address.
#[unsafe(no_mangle)]
pub extern "C" fn gcflip_heap_refer(heap: &mut GcflipHeap, m: u8, d: u8, address: u32) -> u32
    ensures call { IsCommandCall (NamesSlots m (d ∷ []))
        (λ state. refer_step state m (numbered_slot d) address) heap.old.state heap.new.state result }
    ensures memory { result ≢ no_memory }
    ensures beside { heap.new.beside ≡ heap.old.beside }
{
    let heap = lent_to!(heap, m);
    let d = slot_named!(d);
    of_reply(&heap.refer(m, d, OldAddr(address)))
}

/// Puts a reference to the object that starts at this address into root `d`, as `gcflip_heap_refer` does.
#[unsafe(no_mangle)]
pub extern "C" fn gcflip_refer(heap: &mut GcflipHeap, d: u32, address: u32) -> u32
    ensures call { IsCommandCall (HasRoots (d ∷ []))
        (λ state. refer_step state 0 (root_at d) address) heap.old.state heap.new.state result }
    ensures memory { result ≢ no_memory }
    ensures beside { heap.new.beside ≡ heap.old.beside }
    ensures looks { AskForRow d 1 heap.old.roots_left heap.new.roots_left }
{
    let heap = lent!(heap);
    if d as usize >= heap.root_places() {
        return OUT_OF_RANGE;
    }
    of_reply(&heap.refer_root(d, OldAddr(address)))
}

/// Tells what a look at a reference to this address would see, and writes it to `view`: nil if no object starts there. Takes constant time where the
/// standing checker goes along, and else walks over the objects before the address.
#[unsafe(no_mangle)]
pub extern "C" fn gcflip_object_at(
    heap: &mut GcflipHeap,
    address: u32,
    view: &mut GcflipView,
) -> u32
    ensures call { IsCall (λ _. ⊤) (λ old new. (new ≡ old) × (result ≡ seen_in_c (view_at old address)) × (view.new ≡ view_in_c (view_at old address)))
        heap.old.state heap.new.state result }
    ensures silent { IsRefusal result → view.new ≡ view.old }
    ensures memory { result ≢ no_memory }
    ensures beside { heap.new.beside ≡ heap.old.beside }
{
    let heap = lent!(heap);
    of_look(&Reply::Saw(heap.view_at(OldAddr(address))), view)
}

/// Tells the value in field `i` of the object at this address, as `gcflip_peek` tells it of a root's object. For a reference, also writes the address of its
/// object to `number` of the view. Tells nil if no object starts at the address. Takes the time of `gcflip_object_at`.
#[unsafe(no_mangle)]
pub extern "C" fn gcflip_field_at(
    heap: &mut GcflipHeap,
    address: u32,
    i: u32,
    view: &mut GcflipView,
) -> u32
    ensures call { IsCall (λ _. ⊤) (λ old new. (new ≡ old) × TellsField old.heap.graph.objects (lookup old.heap.graph.objects address) i view.old view.new result)
        heap.old.state heap.new.state result }
    ensures silent { IsRefusal result → view.new ≡ view.old }
    ensures memory { result ≢ no_memory }
    ensures beside { heap.new.beside ≡ heap.old.beside }
{
    let heap = lent!(heap);
    let seen = field_seen(heap, OldAddr(address), i);
    if u32::from(seen.answer) != NO_FIELD {
        *view = seen.view();
    }
    u32::from(seen.answer)
}
