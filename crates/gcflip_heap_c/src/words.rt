//! The exports for vectors of 64-bit words in raw objects, by places.

ghost use Rattle.std.specs.Prelude.{◌≡◌, ◌≢◌, ◌<◌, ◌^◌, ◌∷◌, [], IsSome, IsSomeAnd, length};
ghost use Rattle.gc_bytes.specs.Vector.{words_in as words_for, words_of};
ghost use Rattle.gc_check.specs.InC.{no_memory, IsRefusal};
ghost use Rattle.gc_collected.specs.Vectors.{vector_in, write_words_step};
ghost use Rattle.gcflip_heap_c.specs.Commands.{IsCall, IsCommandCall};
ghost use Rattle.gcflip_heap_c.specs.Places.{HasRoots};
ghost use Rattle.gcflip_heap_c.specs.Raws.{Reads};

use crate::answer::{DONE, NO_FIELD, NO_OBJECT, OUT_OF_RANGE};
use crate::guards::lent;
use crate::handle::GcflipHeap;
use gc_bytes::{vectors_are_read_again, words_in};
use gc_collected::CollectedHeap;
use gc_in_c::of_result;

// Copies the words of the vector that root `s` refers to, from word `at` on, if it has as many as the array takes.
fn read_words(heap: &CollectedHeap, s: u32, at: u32, words: &mut [u64]) -> u32
    requires { s < length heap.now.core.heap.graph.roots }
    ensures { Reads at (vector_in heap.now.core.heap.graph s) words.old words.new result }
{
    let Some(fields) = heap.raw_numbers_root(s) else {
        return NO_OBJECT;
    };
    let start = at as usize;
    let count = count_words(fields);
    if start > count || words.len() > count - start {
        return NO_FIELD;
    }
    gc_bytes::read_words(fields, start, words);
    DONE
}

// Returns the number of words of the vector with these fields.
#[inline(always)]
fn count_words(fields: &[u64]) -> usize
    requires { length fields.now < 2 ^ 60 }
    ensures words { result ≡ length (words_of fields.now) }
    ensures fields { result ≡ words_for (length fields.now) }
{
    vectors_are_read_again();
    words_in(fields.len())
}

/// Copies words of the vector that root `s` refers to, from word `at` on: as many as `words` takes. No root changes.
#[unsafe(no_mangle)]
pub extern "C" fn gcflip_words_read(
    heap: &mut GcflipHeap,
    s: u32,
    at: u32,
    words: &mut [u64],
) -> u32
    ensures call { IsCall (HasRoots (s ∷ [])) (λ state _. Reads at (vector_in state.heap.graph s) words.old words.new result)
        heap.old.state heap.new.state result }
    ensures heap { heap.new.state ≡ heap.old.state }
    ensures silent { IsRefusal result → words.new ≡ words.old }
    ensures memory { result ≢ no_memory }
    ensures beside { heap.new.beside ≡ heap.old.beside }
{
    let heap = lent!(heap);
    if s as usize >= heap.root_places() {
        return OUT_OF_RANGE;
    }
    read_words(heap, s, at, words)
}

/// Writes these words over those of the vector that root `s` refers to, from word `at` on. This is a `gcflip_put_number` for each field that changes, in one
/// call: in rising order those of the words, and then those with their top bits. No root changes. While a collection is open, the fields are logged in mutator
/// `m`'s log. Allocates only then.
#[unsafe(no_mangle)]
pub extern "C" fn gcflip_words_write(
    heap: &mut GcflipHeap,
    m: u32,
    s: u32,
    at: u32,
    words: &[u64],
) -> u32
    ensures call { IsCommandCall (λ state. (m < state.mutators) × HasRoots (s ∷ []) state) (λ state. write_words_step state m s at words.now)
        heap.old.state heap.new.state result }
    ensures memory { result ≡ no_memory → IsSomeAnd heap.old.state (λ s. IsSome s.collection) }
    ensures beside { heap.new.beside ≡ heap.old.beside }
    ensures looks { heap.new.roots_left ≡ heap.old.roots_left }
{
    let heap = lent!(heap);
    if m >= u32::from(heap.mutators()) || s as usize >= heap.root_places() {
        return OUT_OF_RANGE;
    }
    of_result(heap.write_words(m as u8, s, at, words))
}
