//! The exports that open and close a heap.

ghost use Rattle.std.specs.Prelude.{◌≡◌, ◌<◌, ◌≤◌, ◌⊎◌, ◌↔◌, None, Some, IsSome, IsSomeAnd, IsTrue, IfOk};
ghost use Rattle.gc_check.specs.InC.{done, no_memory};
ghost use Rattle.gc_heap.specs.ExtraRoots as heaps;
ghost use Rattle.gc_copy.specs.Opening.{opening_state_with};
ghost use Rattle.gc_collected.specs.Collected.{opening_beside, rooms_touched};
ghost use Rattle.gcflip_heap_c.specs.Commands.{heap_behind};
ghost use Rattle.gc_in_c.specs.Answers.{out_of_range, closed_handle, open_handle};
ghost use Rattle.gcflip_heap_c.specs.Opening.{CanOpenWith, checking_in, options_in};

use crate::answer::{CLOSED, DONE, NO_MEMORY, OPEN, OUT_OF_RANGE};
use crate::guards::lent;
use crate::handle::GcflipHeap;
use gc_collected::{Checking, CollectedHeap};
use gc_graph::{MOST_MUTATORS, NoMemory};
use gc_heap::{HeapOptions, MOST_EXTRA_ROOTS};
use std::alloc::Global;

/// The number of bytes of `GcflipOptions`.
const OPTIONS_BYTES: u32 = 20;

/// The checker goes along with the collection.
const ALONG: u8 = 0;

/// Each flip checks both spaces whole.
const AT_FLIP: u8 = 1;

/// What a heap is opened with, as C sees it.
#[repr(C)]
#[derive(Clone, Copy, Debug, Drop, PartialEq, Eq)]
pub struct GcflipOptions {
    /// The number of bytes of this record. A library with more options can tell by it which ones the caller knows.
    pub bytes: u32,
    /// The number of words, at least 1.
    pub size: u32,
    /// The number of roots beside the slots, at most 1,048,576.
    pub extra_roots: u32,
    /// The number of mutators, 1 to 16.
    pub mutators: u8,
    /// 0 if the checker goes along with the collection, 1 if each flip checks both spaces whole.
    pub checking: u8,
    /// If the checker goes along: each flip with this number checks both spaces whole, counted from the last one that did; 0 if none does for
    /// its number.
    pub whole_each: u32,
}

/// Opens an empty heap with these options. Returns 0, or 4 if the handle already has a heap, 2 if an option is out of range,
/// and 1 if an allocation fails. Then nothing has changed.
#[unsafe(no_mangle)]
pub extern "C" fn gcflip_heap_open(
    alloc: Global,
    heap: &mut GcflipHeap,
    options: &GcflipOptions,
) -> u32
    ensures answers { (result ≡ done) ⊎ ((result ≡ no_memory) ⊎ ((result ≡ out_of_range) ⊎ (result ≡ open_handle))) }
    ensures done { result ≡ done → heap.new.state ≡ Some (opening_state_with (options_in options.now)) }
    // Flips are checked as the options ask for, no memory waits, and no flip has been.
    ensures beside { result ≡ done → heap.new.beside ≡ opening_beside (checking_in options.now) }
    ensures refused { 1 ≤ result → (heap.new.state ≡ heap.old.state) × (heap.new.beside ≡ heap.old.beside) }
    ensures open { (result ≡ open_handle) ↔ IsSome heap.old.state }
    ensures outside { (result ≡ out_of_range) ↔ ((heap.old.state ≡ None) × (¬ CanOpenWith options.now)) }
{
    if !heap.is_empty() {
        return OPEN;
    }
    if !is_fit(options) {
        return OUT_OF_RANGE;
    }
    let checking = checking_in(options);
    let options = HeapOptions {
        size: options.size,
        mutators: options.mutators,
        extra_roots: options.extra_roots,
    };
    match boxed_heap(alloc, &options, checking) {
        Ok(boxed) => {
            *heap = GcflipHeap::full(boxed);
            DONE
        }
        Err(NoMemory) => NO_MEMORY,
    }
}

/// Writes to all memory of both spaces once, so that no later call meets a page of theirs for the first time. If a collection is open, its new
/// space is left out. Allocates the space for the next collection, unless a flip has left one. Returns 0, or 3 if the handle has no heap,
/// and 1 if the allocation fails. The heap stays as it is.
#[unsafe(no_mangle)]
pub extern "C" fn gcflip_heap_touch(heap: &mut GcflipHeap) -> u32
    ensures answers { (result ≡ done) ⊎ ((result ≡ no_memory) ⊎ (result ≡ closed_handle)) }
    ensures heap { heap.new.state ≡ heap.old.state }
    // Then there is room for a collection as large as the heap, unless one is open. Nothing else has changed.
    ensures rooms { result ≡ done → IsSomeAnd heap.old.state (λ s.
        heap.new.beside ≡ record heap.old.beside { rooms = rooms_touched (heap_behind heap.old s) }) }
    ensures unchanged { 1 ≤ result → heap.new.beside ≡ heap.old.beside }
    ensures closed { (result ≡ closed_handle) ↔ (heap.old.state ≡ None) }
{
    match lent!(heap).touch() {
        Ok(()) => DONE,
        Err(NoMemory) => NO_MEMORY,
    }
}

// Returns whether a heap can be opened with these options.
fn is_fit(options: &GcflipOptions) -> bool
    ensures { IsTrue result ↔ CanOpenWith options.now }
{
    options.bytes == OPTIONS_BYTES
        && options.size >= 1
        && options.mutators >= 1
        && options.mutators <= MOST_MUTATORS
        && options.extra_roots <= MOST_EXTRA_ROOTS
        && (options.checking == ALONG || options.checking == AT_FLIP)
}

// Returns how the flips of a heap with these options are checked.
fn checking_in(options: &GcflipOptions) -> Checking
    ensures { result ≡ checking_in options.now }
{
    if options.checking == ALONG {
        Checking::Along {
            whole_each: options.whole_each,
        }
    } else {
        Checking::AtFlip
    }
}

// Opens a heap in a box of its own. Allocates the words, the roots, the standing checker's tables if it has one, and the box.
fn boxed_heap(
    alloc: Global,
    options: &HeapOptions,
    checking: Checking,
) -> Result<Box<CollectedHeap>, NoMemory>
    requires { heaps.CanOpen options.now }
    ensures state { IfOk result (λ heap. heap.value.core ≡ opening_state_with options.now) }
    ensures beside { IfOk result (λ heap. heap.value.beside ≡ opening_beside checking) }
{
    let opened = CollectedHeap::open_with(alloc, options, checking)?;
    Ok(Box::new(alloc, opened)?)
}

/// Frees the heap, and leaves the handle without one. Returns 0, or 3 if the handle had no heap.
#[unsafe(no_mangle)]
pub extern "C" fn gcflip_heap_close(alloc: Global, heap: &mut GcflipHeap) -> u32
    ensures answers { (result ≡ done) ⊎ (result ≡ closed_handle) }
    ensures closed { (result ≡ closed_handle) ↔ (heap.old.state ≡ None) }
    ensures none { heap.new.state ≡ None }
{
    match heap.take(alloc) {
        Some(opened) => {
            drop(opened);
            DONE
        }
        None => CLOSED,
    }
}
