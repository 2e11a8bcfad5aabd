//! A collection during which a mutator writes to a field that is already scanned.

ghost use Rattle.std.specs.Prelude.{◌≡◌, ◌≤◌, ◌<◌, IfSome, IfOk};
ghost use Rattle.gc_copy.specs.Words.{spare_of, BelongsTo, HasNoLinks};

use super::expecting::expect;
use super::marks::{fence, retried};
use gc_copy::{Collection, StepReply, commands_keep_collections};
use gc_graph::{NoMemory, Number, Op, Reply, Slot, View};
use gc_heap::Heap;
use gc_words::{NewAddr, OldAddr, Pair};
use std::alloc::Global;
use std::process::Abort;

/// Performs a command while no collection is open.
fn command(heap: &mut Heap, op: &Op)
    requires mutator { 0 < heap.old.mutators }
    requires idle { HasNoLinks heap.old }
    ensures idle { HasNoLinks heap.new }
    ensures mutators { heap.new.mutators ≡ heap.old.mutators }
{
    commands_keep_collections();
    let _reply = heap.apply(0, op);
}

/// Returns a heap with an object of one field in `r0`, and the number 9 in `r1`.
fn one_object(rt: &impl Abort, alloc: Global) -> Heap
    ensures idle { HasNoLinks result }
    ensures mutators { result.mutators ≡ 1 }
{
    let _named = View::Nil;
    let r0 = Slot::own(0).expect(rt, "a slot");
    let r1 = Slot::own(1).expect(rt, "a slot");
    let nine = Number::new(9).expect(rt, "a number");
    let mut heap = Heap::new(alloc, 32, 1).expect(rt, "a heap");
    let new = Op::New {
        d: r0,
        kind: 1,
        len: 1,
    };
    command(&mut heap, &new);
    command(&mut heap, &Op::Num { d: r1, n: nine });
    heap
}

/// Begins a collection, with a new space of this size if one is given.
fn begun(alloc: Global, heap: &Heap, size: Option<u32>) -> Result<Collection, NoMemory>
    requires links { HasNoLinks heap.now }
    requires low { IfSome size (λ size. 1 ≤ size) }
    ensures { IfOk result (BelongsTo heap.now) }
{
    match size {
        None => Collection::begin(alloc, heap),
        Some(size) => Collection::begin_sized(alloc, heap, size),
    }
}

/// Begins a collection of a heap with one object, and tests what it starts with: an empty new space of so many words.
fn expect_begun(rt: &impl Abort, alloc: Global, size: Option<u32>, words: u32)
    requires { IfSome size (λ size. 1 ≤ size) }
{
    let mut heap = one_object(rt, alloc);
    fence(alloc);
    let mut begins = begun(alloc, &heap, size);
    fence(alloc);
    if begins.is_err() {
        retried(alloc);
        begins = begun(alloc, &heap, size);
    }
    let mut collection = begins.expect(rt, "a collection");
    let image = collection.new_image(&[]);
    expect(rt, image.size == words && image.end == 1, "an empty space");
    expect(rt, collection.next_log().is_none(), "empty logs");
    expect(
        rt,
        collection.roots(&mut heap) == StepReply::Copied,
        "a replica",
    );
}

#[test]
fn collection_begin(rt: HostRuntime) {
    expect_begun(&rt, rt.alloc(), None, 32);
}

#[test]
fn collection_begin_sized(rt: HostRuntime) {
    expect_begun(&rt, rt.alloc(), Some(9), 9);
}

/// Returns a collection of this heap whose roots have their replicas.
fn with_roots(rt: &impl Abort, alloc: Global, heap: &mut Heap) -> Collection
    requires idle { HasNoLinks heap.old }
    ensures belongs { BelongsTo heap.new result }
    ensures mutators { heap.new.mutators ≡ heap.old.mutators }
{
    let mut collection = Collection::begin(alloc, heap).expect(rt, "a collection");
    expect(rt, collection.roots(heap) == StepReply::Copied, "a replica");
    collection
}

/// Makes room in the log of mutator 0.
fn reserve(rt: &impl Abort, alloc: Global, collection: &mut Collection, heap: &Heap)
    requires belongs { BelongsTo heap.now collection.old }
    requires mutator { 0 < heap.now.mutators }
    ensures belongs { BelongsTo heap.now collection.new }
    ensures room { 1 ≤ spare_of collection.new 0 }
{
    fence(alloc);
    let mut reserved = collection.reserve(0);
    fence(alloc);
    if reserved.is_err() {
        retried(alloc);
        reserved = collection.reserve(0);
    }
    reserved.expect(rt, "room");
}

#[test]
fn collection_reserve(rt: HostRuntime) {
    let _named = View::Nil;
    let r0 = Slot::own(0).expect(&rt, "a slot");
    let r1 = Slot::own(1).expect(&rt, "a slot");
    let mut heap = one_object(&rt, rt.alloc());
    let mut collection = with_roots(&rt, rt.alloc(), &mut heap);
    reserve(&rt, rt.alloc(), &mut collection, &heap);
    expect(
        &rt,
        collection.put(&mut heap, 0, r0, 0, r1) == Reply::Done,
        "a write",
    );
    expect(&rt, collection.next_log() == Some(0), "an entry");
    expect(
        &rt,
        collection.apply_log(0, &mut heap) == StepReply::Applied,
        "an entry applied",
    );
    expect(
        &rt,
        collection.apply_log(0, &mut heap) == StepReply::Clean,
        "no entry left",
    );
}

#[test]
fn collection_pairs(rt: HostRuntime) {
    let alloc = rt.alloc();
    let mut heap = one_object(&rt, alloc);
    let collection = with_roots(&rt, alloc, &mut heap);
    fence(alloc);
    let mut pairs = collection.pairs(alloc);
    fence(alloc);
    if pairs.is_err() {
        retried(alloc);
        pairs = collection.pairs(alloc);
    }
    let pair = Pair {
        old: OldAddr(1),
        new: NewAddr(1),
    };
    let pairs = pairs.expect(&rt, "pairs");
    expect(&rt, pairs.as_slice() == [pair].as_slice(), "the pairs");
}

#[test]
fn collection_new_roots(rt: HostRuntime) {
    let alloc = rt.alloc();
    let mut heap = one_object(&rt, alloc);
    let collection = with_roots(&rt, alloc, &mut heap);
    assert!(rt; collection.roots_done(&heap));
    fence(alloc);
    let mut roots = collection.new_roots(alloc, &heap);
    fence(alloc);
    if roots.is_err() {
        retried(alloc);
        roots = collection.new_roots(alloc, &heap);
    }
    let roots = roots.expect(&rt, "roots");
    assert!(rt; roots.len() == 32);
    expect(&rt, roots[16] == 2 && roots[17] == 19, "the roots");
}
