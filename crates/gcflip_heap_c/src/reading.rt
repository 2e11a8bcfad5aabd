//! The exports that read a heap: counts for a runtime's decisions, and logs and copies of both spaces for debuggers.

ghost use Rattle.std.specs.Prelude.{◌≡◌, ◌≢◌, ◌≤◌, ◌⊎◌, ◌↔◌, None, Some, IfSome, IsSomeAnd, IsTrue, IsFalse, length};
ghost use Rattle.gc_check.specs.InC.{done};
ghost use Rattle.gc_collected.specs.Readings.{heap_image, new_words, log_of};
ghost use Rattle.gcflip_heap_c.specs.Commands.{heap_behind};
ghost use Rattle.gc_in_c.specs.Answers.{out_of_range, closed_handle};
ghost use Rattle.gcflip_heap_c.specs.Answers.{damaged};
ghost use Rattle.gc_pace.specs.Counts.{counts_in};
ghost use Rattle.gcflip_heap_c.specs.Readings.{log_entry_at, FitsImage};

use crate::answer::{DAMAGED, DONE, OUT_OF_RANGE};
use crate::guards::{lent, lent_to};
use crate::handle::GcflipHeap;
use gc_collected::CollectedHeap;
use gc_pace::Counts;

/// A log entry as C sees it: the field that a mutator wrote.
#[repr(C)]
#[derive(Clone, Copy, Debug, Drop, PartialEq, Eq)]
pub struct GcflipLogEntry {
    /// The address of the object.
    pub object: u32,
    /// The number of the field.
    pub field: u32,
}

/// Reads the sizes of the heap, and how far its open collection has come.
#[unsafe(no_mangle)]
pub extern "C" fn gcflip_heap_counts(heap: &mut GcflipHeap, counts: &mut Counts) -> u32
    ensures answers { (result ≡ done) ⊎ (result ≡ closed_handle) }
    ensures counts { IfSome heap.old.state (λ s. counts.new ≡ counts_in (heap_behind heap.old s)) }
    ensures heap { heap.new.state ≡ heap.old.state }
    ensures silent { result ≡ closed_handle → counts.new ≡ counts.old }
    ensures closed { (result ≡ closed_handle) ↔ (heap.old.state ≡ None) }
    ensures beside { heap.new.beside ≡ heap.old.beside }
{
    *counts = Counts::of(lent!(heap));
    DONE
}

/// Reads the number of entries in mutator `m`'s log, which is 0 if no collection is open.
#[unsafe(no_mangle)]
pub extern "C" fn gcflip_heap_log_length(heap: &mut GcflipHeap, m: u8, count: &mut usize) -> u32
    ensures answers { (result ≡ done) ⊎ ((result ≡ out_of_range) ⊎ (result ≡ closed_handle)) }
    ensures count { result ≡ done → IsSomeAnd heap.old.state (λ s. count.new ≡ length (log_of s m)) }
    ensures heap { heap.new.state ≡ heap.old.state }
    ensures silent { 1 ≤ result → count.new ≡ count.old }
    ensures outside { (result ≡ out_of_range) ↔ IsSomeAnd heap.old.state (λ s. s.mutators ≤ m) }
    ensures closed { (result ≡ closed_handle) ↔ (heap.old.state ≡ None) }
    ensures beside { heap.new.beside ≡ heap.old.beside }
{
    let heap = lent_to!(heap, m);
    *count = heap.log_len(m);
    DONE
}

/// Writes entry `k` of mutator `m`'s log to `entry` if it exists. Returns whether it exists.
fn copy_entry(heap: &CollectedHeap, m: u8, k: usize, entry: &mut GcflipLogEntry) -> bool
    ensures found { IsTrue result → log_entry_at heap.now.core m k ≡ Some entry.new }
    ensures none { IsFalse result → (log_entry_at heap.now.core m k ≡ None) × (entry.new ≡ entry.old) }
{
    if m >= heap.mutators() {
        return false;
    }
    let Some(logged) = heap.log_entry(m, k) else {
        return false;
    };
    *entry = GcflipLogEntry {
        object: logged.object.0,
        field: u32::from(logged.field),
    };
    true
}

/// Reads entry `k` of mutator `m`'s log, counted from the oldest. Returns 2 if there is no such entry.
#[unsafe(no_mangle)]
pub extern "C" fn gcflip_heap_log_entry(
    heap: &mut GcflipHeap,
    m: u8,
    k: usize,
    entry: &mut GcflipLogEntry,
) -> u32
    ensures answers { (result ≡ done) ⊎ ((result ≡ out_of_range) ⊎ (result ≡ closed_handle)) }
    ensures entry { result ≡ done → IsSomeAnd heap.old.state (λ s. log_entry_at s m k ≡ Some entry.new) }
    ensures heap { heap.new.state ≡ heap.old.state }
    ensures silent { 1 ≤ result → entry.new ≡ entry.old }
    ensures outside { (result ≡ out_of_range) ↔ IsSomeAnd heap.old.state (λ s. log_entry_at s m k ≡ None) }
    ensures closed { (result ≡ closed_handle) ↔ (heap.old.state ≡ None) }
    ensures beside { heap.new.beside ≡ heap.old.beside }
{
    if copy_entry(lent!(heap), m, k, entry) {
        DONE
    } else {
        OUT_OF_RANGE
    }
}

/// Copies the image if the arrays are as long as its words and roots. Returns whether they are.
fn copy_image(heap: &CollectedHeap, words: &mut [u64], roots: &mut [u64]) -> bool
    ensures fits { IsTrue result ↔ FitsImage words.old roots.old heap.now.core }
    ensures copied { IsTrue result → (words.new ≡ (heap_image heap.now.core).words) × (roots.new ≡ (heap_image heap.now.core).roots) }
    ensures unchanged { IsFalse result → (words.new ≡ words.old) × (roots.new ≡ roots.old) }
{
    let image = heap.image();
    if words.len() != image.words.len() || roots.len() != image.roots.len() {
        return false;
    }
    heap.copy_words(words);
    roots.copy_from_slice(image.roots);
    true
}

/// Copies the words of the mutators' space, links included, and the roots. Returns 2 if the arrays do not have
/// exactly these lengths. First tests that the words are shaped. That it returns 11, because they are not, is proved never to occur, unless
/// other code writes into the heap's memory.
#[unsafe(no_mangle)]
pub extern "C" fn gcflip_heap_image(
    heap: &mut GcflipHeap,
    words: &mut [u64],
    roots: &mut [u64],
) -> u32
    ensures answers { (result ≡ done) ⊎ ((result ≡ out_of_range) ⊎ (result ≡ closed_handle)) }
    ensures image { result ≡ done → IsSomeAnd heap.old.state (λ s. (words.new ≡ (heap_image s).words)
        × (roots.new ≡ (heap_image s).roots)) }
    ensures heap { heap.new.state ≡ heap.old.state }
    ensures silent { 1 ≤ result → (words.new ≡ words.old) × (roots.new ≡ roots.old) }
    ensures outside { (result ≡ out_of_range) ↔ IsSomeAnd heap.old.state (λ s. ¬ FitsImage words.old roots.old s) }
    // The words of a heap are always shaped: only code that is not proved can change that.
    ensures undamaged { result ≢ damaged }
    ensures closed { (result ≡ closed_handle) ↔ (heap.old.state ≡ None) }
    ensures beside { heap.new.beside ≡ heap.old.beside }
{
    let heap = &*lent!(heap);
    if heap.old_fault().is_some() {
        return DAMAGED;
    }
    if copy_image(heap, words, roots) {
        DONE
    } else {
        OUT_OF_RANGE
    }
}

/// Copies the words of the new space if the array has that length. Returns whether it has.
fn copy_new_words(heap: &CollectedHeap, words: &mut [u64]) -> bool
    ensures fits { IsTrue result ↔ IsSomeAnd (new_words heap.now.core) (λ new. length words.old ≡ length new) }
    ensures copied { IsTrue result → new_words heap.now.core ≡ Some words.new }
    ensures unchanged { IsFalse result → words.new ≡ words.old }
{
    let Some(source) = heap.new_words() else {
        return false;
    };
    if words.len() != source.len() {
        return false;
    }
    words.copy_from_slice(source);
    true
}

/// Copies the words of the open collection's new space (to-space), links included. Returns 2 if the array does not have
/// exactly that length, or if no collection is open. Tests the words first, and returns 11, as `gcflip_heap_image` does.
#[unsafe(no_mangle)]
pub extern "C" fn gcflip_heap_new_words(heap: &mut GcflipHeap, words: &mut [u64]) -> u32
    ensures answers { (result ≡ done) ⊎ ((result ≡ out_of_range) ⊎ (result ≡ closed_handle)) }
    ensures words { result ≡ done → IsSomeAnd heap.old.state (λ s. new_words s ≡ Some words.new) }
    ensures heap { heap.new.state ≡ heap.old.state }
    ensures silent { 1 ≤ result → words.new ≡ words.old }
    ensures outside { (result ≡ out_of_range) ↔ IsSomeAnd heap.old.state (λ s. ¬ IsSomeAnd (new_words s) (λ new. length words.old ≡ length new)) }
    ensures undamaged { result ≢ damaged }
    ensures closed { (result ≡ closed_handle) ↔ (heap.old.state ≡ None) }
    ensures beside { heap.new.beside ≡ heap.old.beside }
{
    let heap = &*lent!(heap);
    if heap.new_fault().is_some() {
        return DAMAGED;
    }
    if copy_new_words(heap, words) {
        DONE
    } else {
        OUT_OF_RANGE
    }
}
