//! Runs of scans, and of entries: a run leaves the heap, the new space and the monitor as so many single steps do.

ghost use Rattle.std.specs.Prelude.{◌≡◌, ◌≤◌, IfOk};

use gc_check::Sequential;
use gc_collected::{Checking, CollectedHeap, Keep};
use gc_copy::{StepReply, StepRun};
use gc_graph::{NoMemory, Op};
use gc_heap::HeapOptions;
use std::alloc::Global;
use std::process::Abort;
use std::test::Fail;
use test_kit::commands::{new, num, own, put};

/// Returns a heap whose flips the standing checker decides. Its first slot refers to a list of objects: pairs, raw objects, one without fields
/// and one of 40 fields, each of which refers to the one before.
fn of_many_kinds(alloc: Global) -> Result<CollectedHeap, NoMemory>
    ensures { IfOk result (λ heap. heap.core.mutators ≡ 1) }
{
    let first = own(0);
    let last = own(1);
    let number = own(2);
    let raw = own(3);
    let along = Checking::Along { whole_each: 0 };
    let mut heap = CollectedHeap::open_with(alloc, &HeapOptions::new(2000, 1), along)?;
    heap.mutate(0, &num(number, 7))?;
    heap.mutate(0, &new(last, 1, 0))?;
    for turn in 0..20 {
        let fields: u16 = if turn == 11 { 40 } else { 2 };
        let filler = if turn % 3 == 0 { raw } else { number };
        heap.mutate(
            0,
            &Op::NewRaw {
                d: raw,
                kind: 4,
                len: fields,
            },
        )?;
        heap.mutate(0, &new(first, 2, fields))?;
        heap.mutate(0, &put(first, 0, last))?;
        heap.mutate(0, &put(first, 1, filler))?;
        heap.mutate(0, &Op::Move { d: last, s: first })?;
    }
    Ok(heap)
}

/// Opens a collection whose new space has so many words, and copies the targets of the roots.
fn begin_and_copy_roots(heap: &mut CollectedHeap, size: u32) -> Result<(), NoMemory>
    requires { 1 ≤ size }
    ensures { heap.new.core.mutators ≡ heap.old.core.mutators }
{
    heap.begin_sized(size)?;
    for _ in 0..18 {
        let _copied = heap.roots();
    }
    Ok(())
}

/// Returns whether everything is scanned.
fn is_scanned(heap: &CollectedHeap) -> bool {
    heap.new_space()
        .is_none_or(|space| space.scan_place == space.end)
}

/// Performs single scans for as long as a run of at most `most` scans goes on, whose new space is to end below `until`.
fn scan_one_by_one(heap: &mut CollectedHeap, most: u32, until: u32) -> StepRun
    requires { 1 ≤ most }
    ensures { heap.new.core.mutators ≡ heap.old.core.mutators }
{
    let mut reply = heap.scan();
    for steps in 1..most {
        let ends = heap.new_space().is_none_or(|space| space.end >= until);
        if reply == StepReply::NoRoom || is_scanned(heap) || ends {
            return StepRun { steps, reply };
        }
        reply = heap.scan();
    }
    StepRun { steps: most, reply }
}

/// Tests that both heaps show the same words, and have come as far.
fn expect_same(rt: &impl Abort, one: &CollectedHeap, other: &CollectedHeap) {
    assert!(rt; one.new_space() == other.new_space());
    assert!(rt; one.new_words() == other.new_words());
    assert!(rt; one.image().words == other.image().words);
}

/// Scans one heap in runs of at most `most` scans, each of which ends once the new space ends at `until`, and another one by single scans. Tests
/// after each run that both are as far.
fn scan_both(
    rt: &impl Abort,
    alloc: Global,
    size: u32,
    most: u32,
    until: u32,
) -> Result<CollectedHeap, NoMemory>
    requires size { 1 ≤ size }
    requires most { 1 ≤ most }
    ensures { IfOk result (λ heap. heap.core.mutators ≡ 1) }
{
    let mut one = of_many_kinds(alloc)?;
    let mut other = of_many_kinds(alloc)?;
    begin_and_copy_roots(&mut one, size)?;
    begin_and_copy_roots(&mut other, size)?;
    for _ in 0..400 {
        let run = one.scan_run(most, until);
        let single = scan_one_by_one(&mut other, most, until);
        assert!(rt; (run.steps, run.reply) == (single.steps, single.reply));
        expect_same(rt, &one, &other);
    }
    Ok(one)
}

#[test]
fn runs_scan_as_single_scans(rt: HostRuntime) -> Result<(), Fail> {
    for most in [1, 2, 3, 7, 41, u32::MAX] {
        for until in [1, 30, 200, u32::MAX] {
            let mut heap = scan_both(&rt, rt.alloc(), 2000, most, until)?;
            assert!(rt; is_scanned(&heap));
            let flipped = heap.flip(&Sequential, Keep::Room)?;
            // The list's 21 objects, the raw ones of every third turn, and the last raw one.
            assert!(rt; flipped == StepReply::Flipped { pairs: 21 + 7 + 1 });
            assert_eq!(rt;
                (heap.flip_checks().along, heap.flip_checks().whole),
                (1, 0)
            );
        }
    }
    Ok(())
}

#[test]
fn runs_end_where_no_room_is_left(rt: HostRuntime) -> Result<(), Fail> {
    for size in [5, 20, 60, 100, 150] {
        for most in [1, 3, u32::MAX] {
            let mut heap = scan_both(&rt, rt.alloc(), size, most, u32::MAX)?;
            let run = heap.scan_run(most, u32::MAX);
            assert!(rt; (run.steps, run.reply) == (1, StepReply::NoRoom));
            assert!(rt; heap.give_up() == StepReply::Dropped);
        }
    }
    Ok(())
}

#[test]
fn runs_without_a_collection_are_idle(rt: HostRuntime) -> Result<(), Fail> {
    let mut heap = of_many_kinds(rt.alloc())?;
    let run = heap.scan_run(7, 7);
    assert!(rt; (run.steps, run.reply) == (1, StepReply::Idle));
    heap.begin()?;
    let clean = heap.scan_run(7, 7);
    assert!(rt; (clean.steps, clean.reply) == (1, StepReply::Clean));
    Ok(())
}

/// Scans everything, and then has mutator 0 write the list's first objects: `writes` references to objects that have replicas, and, as the write with
/// this number, one to an object without a replica.
fn scan_and_write(
    heap: &mut CollectedHeap,
    size: u32,
    writes: u32,
    fresh_at: u32,
) -> Result<(), NoMemory>
    requires size { 1 ≤ size }
    requires mutators { heap.old.core.mutators ≡ 1 }
    ensures { heap.new.core.mutators ≡ 1 }
{
    let first = own(0);
    let number = own(2);
    let raw = own(3);
    let fresh = own(4);
    begin_and_copy_roots(heap, size)?;
    let _scanned = heap.scan_run(u32::MAX, u32::MAX);
    for turn in 0..writes {
        let filler = if turn % 2 == 0 { raw } else { number };
        heap.mutate(0, &put(first, 1, filler))?;
        if turn == fresh_at {
            heap.mutate(0, &new(fresh, 5, 3))?;
            heap.mutate(0, &put(first, 0, fresh))?;
            heap.mutate(0, &Op::Nil { d: fresh })?;
        }
    }
    Ok(())
}

/// Applies single entries for as long as a run of at most `most` entries goes on.
fn apply_one_by_one(heap: &mut CollectedHeap, most: u32) -> StepRun
    requires most { 1 ≤ most }
    requires mutators { heap.old.core.mutators ≡ 1 }
    ensures { heap.new.core.mutators ≡ 1 }
{
    let mut reply = heap.apply_log(0);
    for steps in 1..most {
        if reply != StepReply::Applied || !is_scanned(heap) || heap.log_len(0) == 0 {
            return StepRun { steps, reply };
        }
        reply = heap.apply_log(0);
    }
    StepRun { steps: most, reply }
}

/// Applies the entries of one heap in runs, and those of another one by one, with a scan of what is new between the runs. Tests after each run that
/// both are as far.
fn apply_both(
    rt: &impl Abort,
    alloc: Global,
    most: u32,
    fresh_at: u32,
) -> Result<CollectedHeap, NoMemory>
    requires { 1 ≤ most }
    ensures { IfOk result (λ heap. heap.core.mutators ≡ 1) }
{
    let mut one = of_many_kinds(alloc)?;
    let mut other = of_many_kinds(alloc)?;
    scan_and_write(&mut one, 2000, 30, fresh_at)?;
    scan_and_write(&mut other, 2000, 30, fresh_at)?;
    assert!(rt; one.log_len(0) == if fresh_at < 30 { 31 } else { 30 });
    for _ in 0..40 {
        let run = one.apply_run(0, most, u32::MAX);
        let single = apply_one_by_one(&mut other, most);
        assert!(rt; (run.steps, run.reply) == (single.steps, single.reply));
        expect_same(rt, &one, &other);
        assert!(rt; one.log_len(0) == other.log_len(0));
        let _scanned = one.scan_run(u32::MAX, u32::MAX);
        let _also = other.scan_run(u32::MAX, u32::MAX);
    }
    Ok(one)
}

#[test]
fn runs_apply_as_single_entries(rt: HostRuntime) -> Result<(), Fail> {
    for most in [1, 2, 7, 31, u32::MAX] {
        for fresh_at in [0, 13, 29, 30] {
            let mut heap = apply_both(&rt, rt.alloc(), most, fresh_at)?;
            assert!(rt; heap.log_len(0) == 0);
            assert!(rt;
                matches!(
                    heap.flip(&Sequential, Keep::Room)?,
                    StepReply::Flipped { .. }
                )
            );
            assert_eq!(rt;
                (heap.flip_checks().along, heap.flip_checks().whole),
                (1, 0)
            );
        }
    }
    Ok(())
}

#[test]
fn a_run_of_entries_ends_where_a_replica_is_left_to_scan(rt: HostRuntime) -> Result<(), Fail> {
    let mut heap = of_many_kinds(rt.alloc())?;
    scan_and_write(&mut heap, 2000, 30, 13)?;
    // Entries 0 to 13 are of field 1; entry 14 refers to the fresh object.
    let run = heap.apply_run(0, u32::MAX, u32::MAX);
    assert!(rt; (run.steps, run.reply) == (15, StepReply::Applied));
    assert!(rt; heap.log_len(0) == 16);
    assert!(rt; !is_scanned(&heap));
    Ok(())
}

#[test]
fn a_run_of_entries_ends_at_the_bound(rt: HostRuntime) -> Result<(), Fail> {
    let mut heap = of_many_kinds(rt.alloc())?;
    scan_and_write(&mut heap, 2000, 30, 30)?;
    let run = heap.apply_run(0, u32::MAX, 7);
    assert!(rt; (run.steps, run.reply) == (1, StepReply::Applied));
    assert!(rt; heap.log_len(0) == 29);
    Ok(())
}

#[test]
fn an_entry_that_finds_no_room_stays(rt: HostRuntime) -> Result<(), Fail> {
    // The list takes 20 objects of 4 words and more; the words that its replicas take are counted first.
    let mut measured = of_many_kinds(rt.alloc())?;
    scan_and_write(&mut measured, 2000, 0, 0)?;
    let taken = measured.new_space().map_or(0, |space| space.end);
    let mut heap = of_many_kinds(rt.alloc())?;
    scan_and_write(&mut heap, taken + 1, 30, 13)?;
    let run = heap.apply_run(0, u32::MAX, u32::MAX);
    assert!(rt; (run.steps, run.reply) == (15, StepReply::NoRoom));
    assert!(rt; heap.log_len(0) == 17);
    let again = heap.apply_run(0, u32::MAX, u32::MAX);
    assert!(rt; (again.steps, again.reply) == (1, StepReply::NoRoom));
    assert!(rt; heap.log_len(0) == 17);
    Ok(())
}

#[test]
fn runs_of_entries_without_any_are_clean(rt: HostRuntime) -> Result<(), Fail> {
    let mut heap = of_many_kinds(rt.alloc())?;
    let idle = heap.apply_run(0, 7, 7);
    assert!(rt; (idle.steps, idle.reply) == (1, StepReply::Idle));
    heap.begin()?;
    let clean = heap.apply_run(0, 7, 7);
    assert!(rt; (clean.steps, clean.reply) == (1, StepReply::Clean));
    Ok(())
}
