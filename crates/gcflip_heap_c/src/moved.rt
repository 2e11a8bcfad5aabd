//! The exports that tell where the last flip moved an object, for a table by address.

ghost use Rattle.std.specs.Prelude.{◌≡◌, ◌≢◌, IsSome, IsSomeAnd};
ghost use Rattle.gc_check.specs.InC.{no_memory, IsRefusal};
ghost use Rattle.gc_copy.specs.Words.{moved_in};
ghost use Rattle.gcflip_heap_c.specs.Commands.{IsCall};
ghost use Rattle.gc_in_c.specs.Telling.{TellsNumber};

use crate::answer::OUT_OF_RANGE;
use crate::guards::lent;
use crate::handle::GcflipHeap;
use gc_in_c::tell_number;
use gc_words::OldAddr;

/// Writes the address to which the last flip moved the object that was at the address `old` before it. Returns 18 if the object died, and 2
/// if a collection has begun since the flip, or no flip has been. For an `old` at which no object started, any of these may come. Calls
/// nothing back, and takes constant time.
#[unsafe(no_mangle)]
pub extern "C" fn gcflip_moved(heap: &mut GcflipHeap, old: u32, address: &mut u32) -> u32
    ensures call { IsCall (λ _. IsSome heap.old.beside.former) (λ _ _. IsSomeAnd heap.old.beside.former (λ room. TellsNumber (moved_in room old) address.old address.new result))
        heap.old.state heap.new.state result }
    ensures heap { heap.new.state ≡ heap.old.state }
    ensures silent { IsRefusal result → address.new ≡ address.old }
    ensures memory { result ≢ no_memory }
    ensures beside { heap.new.beside ≡ heap.old.beside }
{
    match lent!(heap).former() {
        None => OUT_OF_RANGE,
        Some(former) => tell_number(former.moved(OldAddr(old)).map(|at| at.0), address),
    }
}

/// Does what `gcflip_moved` does. It has this name beside the calls on slots.
#[unsafe(no_mangle)]
pub extern "C" fn gcflip_heap_moved(heap: &mut GcflipHeap, old: u32, address: &mut u32) -> u32
    ensures call { IsCall (λ _. IsSome heap.old.beside.former) (λ _ _. IsSomeAnd heap.old.beside.former (λ room. TellsNumber (moved_in room old) address.old address.new result))
        heap.old.state heap.new.state result }
    ensures heap { heap.new.state ≡ heap.old.state }
    ensures silent { IsRefusal result → address.new ≡ address.old }
    ensures memory { result ≢ no_memory }
    ensures beside { heap.new.beside ≡ heap.old.beside }
{
    gcflip_moved(heap, old, address)
}
