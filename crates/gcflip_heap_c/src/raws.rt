//! The exports that read or write the numbers of a raw object at once, and those that tell the address of an object.

ghost use Rattle.std.specs.Prelude.{◌≡◌, ◌≢◌, ◌<◌, ◌^◌, ◌∷◌, [], IsSome, IsSomeAnd};
ghost use Rattle.gc_check.specs.InC.{no_memory, IsRefusal};
ghost use Rattle.std.specs.Option.{option_map};
ghost use Rattle.gc_heap.specs.Places.{root_at};
ghost use Rattle.gc_heap.specs.Raws.{raw_numbers};
ghost use Rattle.gc_collected.specs.Writing.{put_numbers_step, put_root_numbers_step};
ghost use Rattle.gcflip_heap_c.specs.Commands.{IsCall, IsCommandCall};
ghost use Rattle.gcflip_heap_c.specs.Places.{HasRoots};
ghost use Rattle.gcflip_heap_c.specs.Raws.{Reads, address_in};
ghost use Rattle.gc_in_c.specs.Telling.{TellsNumber};
ghost use Rattle.gcflip_heap_c.specs.Slots.{NamesSlots, numbered_slot};

use crate::answer::{DONE, NO_FIELD, NO_OBJECT, OUT_OF_RANGE};
use crate::guards::{lent, lent_to, slot_named};
use crate::handle::GcflipHeap;
use gc_in_c::{of_result, tell_number};

/// Copies these numbers, if there are any, from number `first` on, if there are as many as the array takes.
fn read_raw(numbers: Option<&[u64]>, first: usize, words: &mut [u64]) -> u32
    requires { first < 2 ^ 32 }
    ensures { Reads first (option_map (λ numbers. numbers.now) numbers.entry) words.old words.new result }
{
    let Some(numbers) = numbers else {
        return NO_OBJECT;
    };
    if first > numbers.len() || words.len() > numbers.len() - first {
        return NO_FIELD;
    }
    words.copy_from_slice(&numbers[first..first + words.len()]);
    DONE
}

/// Copies the numbers in the fields of the raw object that slot `s` refers to, from field `first` on: as many as `words` takes. No
/// slot changes.
#[unsafe(no_mangle)]
pub extern "C" fn gcflip_heap_raw_read(
    heap: &mut GcflipHeap,
    m: u8,
    s: u8,
    first: u16,
    words: &mut [u64],
) -> u32
    ensures call { IsCall (NamesSlots m (s ∷ [])) (λ state _. Reads first (raw_numbers state.heap.graph (numbered_slot s) m) words.old words.new result)
        heap.old.state heap.new.state result }
    ensures heap { heap.new.state ≡ heap.old.state }
    ensures silent { IsRefusal result → words.new ≡ words.old }
    ensures memory { result ≢ no_memory }
    ensures beside { heap.new.beside ≡ heap.old.beside }
{
    let heap = lent_to!(heap, m);
    let s = slot_named!(s);
    read_raw(heap.raw_numbers(m, s), usize::from(first), words)
}

/// Copies these numbers into the fields of the raw object that slot `s` refers to, from field `first` on. For each number this is a
/// `gcflip_heap_set_number` of slot `t` and a `gcflip_heap_put` of it, in one call, so `t` keeps the last number; `s` and `t` differ.
/// All are written or none. Allocates only while a collection is open.
#[unsafe(no_mangle)]
pub extern "C" fn gcflip_heap_raw_write(
    heap: &mut GcflipHeap,
    m: u8,
    s: u8,
    first: u16,
    t: u8,
    words: &[u64],
) -> u32
    ensures call { IsCommandCall (λ state. NamesSlots m (s ∷ t ∷ []) state × (s ≢ t))
        (λ state. put_numbers_step state m (numbered_slot s) first (numbered_slot t) words.now) heap.old.state heap.new.state result }
    ensures memory { result ≡ no_memory → IsSomeAnd heap.old.state (λ s. IsSome s.collection) }
    ensures beside { heap.new.beside ≡ heap.old.beside }
{
    let heap = lent_to!(heap, m);
    if s == t {
        return OUT_OF_RANGE;
    }
    let object = slot_named!(s);
    let number = slot_named!(t);
    of_result(heap.put_numbers(m, object, first, number, words))
}

/// Copies the numbers in the fields of the raw object that root `s` refers to, from field `first` on, as `gcflip_heap_raw_read` does.
#[unsafe(no_mangle)]
pub extern "C" fn gcflip_raw_read(
    heap: &mut GcflipHeap,
    s: u32,
    first: u32,
    words: &mut [u64],
) -> u32
    ensures call { IsCall (HasRoots (s ∷ [])) (λ state _. Reads first (raw_numbers state.heap.graph (root_at s) 0) words.old words.new result)
        heap.old.state heap.new.state result }
    ensures heap { heap.new.state ≡ heap.old.state }
    ensures silent { IsRefusal result → words.new ≡ words.old }
    ensures memory { result ≢ no_memory }
    ensures beside { heap.new.beside ≡ heap.old.beside }
{
    let heap = lent!(heap);
    if s as usize >= heap.root_places() {
        return OUT_OF_RANGE;
    }
    read_raw(heap.raw_numbers_root(s), first as usize, words)
}

/// Copies these numbers into the fields of the raw object that root `s` refers to, from field `first` on. This is a `gcflip_put_number` for each number, in
/// one call. No root changes. All are written or none. While a collection is open, the fields are logged in mutator `m`'s log. Allocates only then.
#[unsafe(no_mangle)]
pub extern "C" fn gcflip_raw_write(
    heap: &mut GcflipHeap,
    m: u32,
    s: u32,
    first: u32,
    words: &[u64],
) -> u32
    ensures call { IsCommandCall (λ state. (m < state.mutators) × HasRoots (s ∷ []) state) (λ state. put_root_numbers_step state m s first words.now)
        heap.old.state heap.new.state result }
    ensures memory { result ≡ no_memory → IsSomeAnd heap.old.state (λ s. IsSome s.collection) }
    ensures beside { heap.new.beside ≡ heap.old.beside }
    ensures looks { heap.new.roots_left ≡ heap.old.roots_left }
{
    let heap = lent!(heap);
    if m >= u32::from(heap.mutators()) || s as usize >= heap.root_places() {
        return OUT_OF_RANGE;
    }
    of_result(heap.put_root_numbers(m as u8, s, first, words))
}

/// Writes the address of the object that slot `s` refers to to `address`, if there is one. A flip gives objects other addresses.
#[unsafe(no_mangle)]
pub extern "C" fn gcflip_heap_address(heap: &mut GcflipHeap, m: u8, s: u8, address: &mut u32) -> u32
    ensures call { IsCall (NamesSlots m (s ∷ [])) (λ state _. TellsNumber (address_in state (numbered_slot s) m) address.old address.new result)
        heap.old.state heap.new.state result }
    ensures heap { heap.new.state ≡ heap.old.state }
    ensures silent { IsRefusal result → address.new ≡ address.old }
    ensures memory { result ≢ no_memory }
    ensures beside { heap.new.beside ≡ heap.old.beside }
{
    let heap = lent_to!(heap, m);
    let s = slot_named!(s);
    tell_number(heap.address(m, s).map(|at| at.0), address)
}

/// Writes the address of the object that root `s` refers to to `address`, as `gcflip_heap_address` does.
#[unsafe(no_mangle)]
pub extern "C" fn gcflip_address(heap: &mut GcflipHeap, s: u32, address: &mut u32) -> u32
    ensures call { IsCall (HasRoots (s ∷ [])) (λ state _. TellsNumber (address_in state (root_at s) 0) address.old address.new result)
        heap.old.state heap.new.state result }
    ensures heap { heap.new.state ≡ heap.old.state }
    ensures silent { IsRefusal result → address.new ≡ address.old }
    ensures memory { result ≢ no_memory }
    ensures beside { heap.new.beside ≡ heap.old.beside }
{
    let heap = lent!(heap);
    if s as usize >= heap.root_places() {
        return OUT_OF_RANGE;
    }
    tell_number(heap.address_root(s).map(|at| at.0), address)
}
