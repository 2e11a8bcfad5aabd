//! The exports for texts of bytes in raw objects, by places.

ghost use Rattle.std.specs.Prelude.{◌≡◌, ◌≢◌, ◌<◌, ◌≤◌, ◌+◌, ◌∷◌, [], IsSome, IsSomeAnd, length};
ghost use Rattle.std.specs.Option.{option_map};
ghost use Rattle.gc_bytes.specs.Text.{most_bytes, spelled};
ghost use Rattle.gc_check.specs.InC.{no_memory, IsRefusal};
ghost use Rattle.gc_graph.specs.Limits.{kinds};
ghost use Rattle.gc_collected.specs.Bytes.{bytes_in, join_step, part_step, text_in, write_step};
ghost use Rattle.gc_collected.specs.Numbers.{new_numbers_step};
ghost use Rattle.gcflip_heap_c.specs.Commands.{IsCall, IsCommandCall};
ghost use Rattle.gcflip_heap_c.specs.Places.{HasRoots};
ghost use Rattle.gcflip_heap_c.specs.Raws.{Reads};
ghost use Rattle.gc_in_c.specs.Telling.{TellsNumber};
ghost use Rattle.gcflip_heap_c.specs.Bytes.{TellsOrder, TellsSame, order_in_c};

use crate::answer::{DONE, NO_FIELD, NO_OBJECT, OUT_OF_RANGE};
use crate::guards::lent;
use crate::handle::GcflipHeap;
use gc_bytes::MOST_BYTES;
use gc_collected::CollectedHeap;
use gc_graph::Reply;
use gc_in_c::{of_reply, of_result};
use std::cmp::Ordering;

/// Makes a raw object of this kind, whose fields are a text with these bytes, and puts a reference to it into root `d`. This is a `gcflip_new_raw`, and then,
/// in rising order, a `gcflip_put_number` for each word of the text, in one call. No other root changes. While a collection is open, the fields are logged in
/// mutator `m`'s log. Allocates only then.
#[unsafe(no_mangle)]
pub extern "C" fn gcflip_new_bytes(
    heap: &mut GcflipHeap,
    m: u32,
    d: u32,
    kind: u32,
    bytes: &[u8],
) -> u32
    ensures call { IsCommandCall (λ state. (m < state.mutators) × HasRoots (d ∷ []) state × (kind < kinds) × (length bytes.now ≤ most_bytes))
        (λ state. new_numbers_step state m d kind (spelled bytes.now)) heap.old.state heap.new.state result }
    ensures memory { result ≡ no_memory → IsSomeAnd heap.old.state (λ s. IsSome s.collection) }
    ensures beside { heap.new.beside ≡ heap.old.beside }
{
    let heap = lent!(heap);
    if m >= u32::from(heap.mutators()) || d as usize >= heap.root_places() {
        return OUT_OF_RANGE;
    }
    if kind > 255 || bytes.len() > MOST_BYTES {
        return OUT_OF_RANGE;
    }
    of_result(heap.new_bytes(m as u8, d, kind as u8, bytes))
}

/// Makes a raw object of this kind, whose fields are a text with the bytes of both roots' texts, one behind the other, and puts a reference to it into root
/// `d`, which may be one of both. No other root changes. While a collection is open, the fields are logged in mutator `m`'s log. Allocates only then.
#[unsafe(no_mangle)]
pub extern "C" fn gcflip_bytes_join(
    heap: &mut GcflipHeap,
    m: u32,
    d: u32,
    kind: u32,
    s: u32,
    t: u32,
) -> u32
    ensures call { IsCommandCall (λ state. (m < state.mutators) × HasRoots (d ∷ s ∷ t ∷ []) state × (kind < kinds)
        × (length (bytes_in state.heap.graph s) + length (bytes_in state.heap.graph t) ≤ most_bytes))
        (λ state. join_step state m d kind s t) heap.old.state heap.new.state result }
    ensures memory { result ≡ no_memory → IsSomeAnd heap.old.state (λ s. IsSome s.collection) }
    ensures beside { heap.new.beside ≡ heap.old.beside }
{
    let heap = lent!(heap);
    let roots = heap.root_places();
    if m >= u32::from(heap.mutators()) || d as usize >= roots || kind > 255 {
        return OUT_OF_RANGE;
    }
    if s as usize >= roots || t as usize >= roots {
        return OUT_OF_RANGE;
    }
    if count_bytes(heap, s) + count_bytes(heap, t) > MOST_BYTES {
        return OUT_OF_RANGE;
    }
    of_result(heap.join_bytes(m as u8, d, kind as u8, s, t))
}

// Returns the number of bytes of the text that root `s` refers to, or 0 if it refers to none.
fn count_bytes(heap: &CollectedHeap, s: u32) -> usize
    requires { s < length heap.now.core.heap.graph.roots }
    ensures count { result ≡ length (bytes_in heap.now.core.heap.graph s) }
    ensures small { result ≤ most_bytes }
{
    match heap.text_root(s) {
        Some(text) => text.len(),
        None => 0,
    }
}

/// Makes a raw object of this kind, whose fields are a text with `count` bytes of the text that root `s` refers to, from byte `at` on, and puts a reference to
/// it into root `d`, which may be `s`. No other root changes. While a collection is open, the fields are logged in mutator `m`'s log. Allocates only then.
#[unsafe(no_mangle)]
pub extern "C" fn gcflip_bytes_part(
    heap: &mut GcflipHeap,
    m: u32,
    d: u32,
    kind: u32,
    s: u32,
    at: u32,
    count: u32,
) -> u32
    ensures call { IsCommandCall (λ state. (m < state.mutators) × HasRoots (d ∷ s ∷ []) state × (kind < kinds))
        (λ state. part_step state m d kind s at count) heap.old.state heap.new.state result }
    ensures memory { result ≡ no_memory → IsSomeAnd heap.old.state (λ s. IsSome s.collection) }
    ensures beside { heap.new.beside ≡ heap.old.beside }
{
    let heap = lent!(heap);
    let roots = heap.root_places();
    if m >= u32::from(heap.mutators()) || d as usize >= roots || kind > 255 || s as usize >= roots {
        return OUT_OF_RANGE;
    }
    of_result(heap.part_bytes(m as u8, d, kind as u8, s, at, count))
}

// Writes the number of bytes of the text that root `s` refers to, if it refers to one.
fn tell_length(heap: &CollectedHeap, s: u32, count: &mut u32) -> u32
    requires { s < length heap.now.core.heap.graph.roots }
    ensures { TellsNumber (option_map length (text_in heap.now.core.heap.graph s)) count.old count.new result }
{
    let Some(text) = heap.text_root(s) else {
        return NO_OBJECT;
    };
    *count = text.len() as u32;
    DONE
}

/// Writes the number of bytes of the text that root `s` refers to to `count`, if it refers to one. Reads the text's last word alone.
#[unsafe(no_mangle)]
pub extern "C" fn gcflip_bytes_length(heap: &mut GcflipHeap, s: u32, count: &mut u32) -> u32
    ensures call { IsCall (HasRoots (s ∷ [])) (λ state _. TellsNumber (option_map length (text_in state.heap.graph s)) count.old count.new result)
        heap.old.state heap.new.state result }
    ensures heap { heap.new.state ≡ heap.old.state }
    ensures silent { IsRefusal result → count.new ≡ count.old }
    ensures memory { result ≢ no_memory }
    ensures beside { heap.new.beside ≡ heap.old.beside }
{
    let heap = lent!(heap);
    if s as usize >= heap.root_places() {
        return OUT_OF_RANGE;
    }
    tell_length(heap, s, count)
}

// Copies the bytes of the text that root `s` refers to, from byte `at` on, if it has as many as the array takes.
fn read_bytes(heap: &CollectedHeap, s: u32, at: u32, bytes: &mut [u8]) -> u32
    requires { s < length heap.now.core.heap.graph.roots }
    ensures { Reads at (text_in heap.now.core.heap.graph s) bytes.old bytes.new result }
{
    let Some(text) = heap.text_root(s) else {
        return NO_OBJECT;
    };
    let start = at as usize;
    if start > text.len() || bytes.len() > text.len() - start {
        return NO_FIELD;
    }
    text.read(start, bytes);
    DONE
}

/// Copies bytes of the text that root `s` refers to, from byte `at` on: as many as `bytes` takes. No root changes.
#[unsafe(no_mangle)]
pub extern "C" fn gcflip_bytes_read(heap: &mut GcflipHeap, s: u32, at: u32, bytes: &mut [u8]) -> u32
    ensures call { IsCall (HasRoots (s ∷ [])) (λ state _. Reads at (text_in state.heap.graph s) bytes.old bytes.new result)
        heap.old.state heap.new.state result }
    ensures heap { heap.new.state ≡ heap.old.state }
    ensures silent { IsRefusal result → bytes.new ≡ bytes.old }
    ensures memory { result ≢ no_memory }
    ensures beside { heap.new.beside ≡ heap.old.beside }
{
    let heap = lent!(heap);
    if s as usize >= heap.root_places() {
        return OUT_OF_RANGE;
    }
    read_bytes(heap, s, at, bytes)
}

/// Writes these bytes over those of the text that root `s` refers to, from byte `at` on. This is, in rising order, a `gcflip_put_number` for each word of the
/// text that changes, in one call. The text keeps its length, and no root changes. While a collection is open, the fields are logged in mutator `m`'s log.
/// Allocates only then.
#[unsafe(no_mangle)]
pub extern "C" fn gcflip_bytes_write(
    heap: &mut GcflipHeap,
    m: u32,
    s: u32,
    at: u32,
    bytes: &[u8],
) -> u32
    ensures call { IsCommandCall (λ state. (m < state.mutators) × HasRoots (s ∷ []) state × (length bytes.now ≤ most_bytes))
        (λ state. write_step state m s at bytes.now) heap.old.state heap.new.state result }
    ensures memory { result ≡ no_memory → IsSomeAnd heap.old.state (λ s. IsSome s.collection) }
    ensures beside { heap.new.beside ≡ heap.old.beside }
    ensures looks { heap.new.roots_left ≡ heap.old.roots_left }
{
    let heap = lent!(heap);
    if m >= u32::from(heap.mutators()) || s as usize >= heap.root_places() {
        return OUT_OF_RANGE;
    }
    if bytes.len() > MOST_BYTES {
        return OUT_OF_RANGE;
    }
    of_result(heap.write_bytes(m as u8, s, at, bytes))
}

// Returns whether the texts that both roots refer to have the same bytes.
fn same_bytes(heap: &CollectedHeap, s: u32, t: u32) -> u32
    requires one { s < length heap.now.core.heap.graph.roots }
    requires other { t < length heap.now.core.heap.graph.roots }
    ensures { TellsSame (text_in heap.now.core.heap.graph s) (text_in heap.now.core.heap.graph t) result }
{
    let (Some(one), Some(other)) = (heap.text_root(s), heap.text_root(t)) else {
        return NO_OBJECT;
    };
    if one.is_same(&other) {
        of_reply(&Reply::Yes)
    } else {
        of_reply(&Reply::No)
    }
}

/// Returns whether the texts that roots `s` and `t` refer to have the same bytes. Copies none.
#[unsafe(no_mangle)]
pub extern "C" fn gcflip_bytes_same(heap: &mut GcflipHeap, s: u32, t: u32) -> u32
    ensures call { IsCall (HasRoots (s ∷ t ∷ [])) (λ state _. TellsSame (text_in state.heap.graph s) (text_in state.heap.graph t) result)
        heap.old.state heap.new.state result }
    ensures heap { heap.new.state ≡ heap.old.state }
    ensures memory { result ≢ no_memory }
    ensures beside { heap.new.beside ≡ heap.old.beside }
{
    let heap = lent!(heap);
    let roots = heap.root_places();
    if s as usize >= roots || t as usize >= roots {
        return OUT_OF_RANGE;
    }
    same_bytes(heap, s, t)
}

// Writes the order of the texts that both roots refer to.
fn compare_bytes(heap: &CollectedHeap, s: u32, t: u32, order: &mut i32) -> u32
    requires one { s < length heap.now.core.heap.graph.roots }
    requires other { t < length heap.now.core.heap.graph.roots }
    ensures { TellsOrder (text_in heap.now.core.heap.graph s) (text_in heap.now.core.heap.graph t) order.old order.new result }
{
    let (Some(one), Some(other)) = (heap.text_root(s), heap.text_root(t)) else {
        return NO_OBJECT;
    };
    *order = order_number(one.compare(&other));
    DONE
}

// Returns C's number for an order.
fn order_number(order: Ordering) -> i32
    ensures { result ≡ order_in_c order }
{
    match order {
        Ordering::Less => -1,
        Ordering::Equal => 0,
        Ordering::Greater => 1,
    }
}

/// Writes the order of the texts that roots `s` and `t` refer to to `order`: -1, 0 or 1. It is that of unsigned bytes, in which a shorter beginning comes
/// first. Copies no byte.
#[unsafe(no_mangle)]
pub extern "C" fn gcflip_bytes_compare(
    heap: &mut GcflipHeap,
    s: u32,
    t: u32,
    order: &mut i32,
) -> u32
    ensures call { IsCall (HasRoots (s ∷ t ∷ []))
        (λ state _. TellsOrder (text_in state.heap.graph s) (text_in state.heap.graph t) order.old order.new result) heap.old.state heap.new.state result }
    ensures heap { heap.new.state ≡ heap.old.state }
    ensures silent { IsRefusal result → order.new ≡ order.old }
    ensures memory { result ≢ no_memory }
    ensures beside { heap.new.beside ≡ heap.old.beside }
{
    let heap = lent!(heap);
    let roots = heap.root_places();
    if s as usize >= roots || t as usize >= roots {
        return OUT_OF_RANGE;
    }
    compare_bytes(heap, s, t, order)
}
