//! The exports that open a heap with both ends, and close each of them.

ghost use Rattle.std.specs.Prelude.{◌≡◌, ◌≤◌, ◌<◌, ◌⊎◌, ◌↔◌, None, Some, IsSome, IfOk, MatchOption};
ghost use Rattle.gc_check.specs.InC.{done, no_memory};
ghost use Rattle.gc_heap.specs.ExtraRoots.{most_extra_roots};
ghost use Rattle.gc_in_c.specs.Answers.{out_of_range, closed_handle, open_handle};
ghost use Rattle.gcflip_beside_c.specs.Opening.{AreOpened, CanOpenBeside, CanOpenBesideWith, empty_beside};
ghost use Rattle.gcflip_beside_c.specs.Addresses.{beginning_at, beginning_of_end, moves_at, moves_of_end};
ghost use Rattle.gcflip_beside_c.specs.HandleStage.{stage, stage_of, cells_at, turns_at, turns_of_end, IsCollector, IsMutator};
ghost use Rattle.gc_concurrent.specs.Ends.{begun_with};
ghost use Rattle.gc_concurrent.specs.Moves.{no_moves};
ghost use Rattle.gc_concurrent.specs.Turns.{turns_at_open};

use crate::answer::{CLOSED, DONE, NO_MEMORY, OPEN, OUT_OF_RANGE};
use crate::end::End;
use crate::guards::lent;
use crate::handle::GcflipEnd;
use gc_concurrent::open_checked;
use gc_graph::NoMemory;
use gc_heap::MOST_EXTRA_ROOTS;
use std::alloc::Global;
use std::mem::replace;

/// The number of bytes of `GcflipBesideOptions`.
const OPTIONS_BYTES: u32 = 16;

/// What a heap is opened with, as C sees it.
#[repr(C)]
#[derive(Clone, Copy, Debug, Drop, PartialEq, Eq)]
pub struct GcflipBesideOptions {
    /// The number of bytes of this record. A library with more options can tell by it which ones the caller knows.
    pub bytes: u32,
    /// The number of words, at least 1.
    pub size: u32,
    /// The number of roots beside the 32 slots, at most 1,048,576.
    pub extra_roots: u32,
    /// Each flip with this number asks the whole checker, counted from the last one that did; 0 if none does for its number.
    pub whole_each: u32,
}

// Opens a heap with each of its ends in a box.
fn boxed_ends(
    alloc: Global,
    size: u32,
    extra: u32,
    whole_each: u32,
) -> Result<(Box<End>, Box<End>), NoMemory>
    requires size { 1 ≤ size }
    requires extra { extra ≤ most_extra_roots }
    ensures ends { IfOk result (λ both. AreOpened size extra (Some both.0.value) (Some both.1.value)) }
    ensures turns { IfOk result (λ both. turns_of_end both.1.value ≡ Some (turns_at_open whole_each)) }
    ensures moves { IfOk result (λ both. moves_of_end both.0.value ≡ Some no_moves) }
    ensures begun { IfOk result (λ both. beginning_of_end both.0.value ≡ Some (begun_with (empty_beside size extra))) }
{
    let mut one = Box::new(alloc, End::Nothing)?;
    let mut other = Box::new(alloc, End::Nothing)?;
    let (runner, collector) = open_checked(alloc, size, extra, whole_each)?;
    *one = End::Running(runner);
    *other = End::Working(collector);
    Ok((one, other))
}

// Opens an empty heap with both ends.
fn opened(
    alloc: Global,
    mutator: &mut GcflipEnd,
    collector: &mut GcflipEnd,
    size: u32,
    extra_roots: u32,
    whole_each: u32,
) -> u32
    ensures answers { (result ≡ done) ⊎ ((result ≡ no_memory) ⊎ ((result ≡ out_of_range) ⊎ (result ≡ open_handle))) }
    ensures done { result ≡ done → AreOpened size extra_roots mutator.new.end collector.new.end }
    ensures turns { result ≡ done → turns_at collector.new.end ≡ Some (turns_at_open whole_each) }
    ensures moves { result ≡ done → moves_at mutator.new.end ≡ Some no_moves }
    ensures begun { result ≡ done → beginning_at mutator.new.end ≡ Some (begun_with (empty_beside size extra_roots)) }
    ensures refused { 1 ≤ result → (mutator.new.end ≡ mutator.old.end) × (collector.new.end ≡ collector.old.end) }
    ensures open { (result ≡ open_handle) ↔ (IsSome mutator.old.end ⊎ IsSome collector.old.end) }
    ensures outside { (result ≡ out_of_range) ↔ ((mutator.old.end ≡ None) × (collector.old.end ≡ None) × (¬ CanOpenBeside size extra_roots)) }
{
    if !mutator.is_empty() || !collector.is_empty() {
        return OPEN;
    }
    if size == 0 || extra_roots > MOST_EXTRA_ROOTS {
        return OUT_OF_RANGE;
    }
    match boxed_ends(alloc, size, extra_roots, whole_each) {
        Ok((one, other)) => {
            *mutator = GcflipEnd::full(one);
            *collector = GcflipEnd::full(other);
            DONE
        }
        Err(NoMemory) => NO_MEMORY,
    }
}

/// Opens an empty heap of `size` words, at least 1, with 32 roots and `extra_roots` more, at most 1,048,576, and begins a collection, whose new space has the
/// same size. Returns 0, or 4 if a handle has an end already, 2 if an argument is out of range, and 1 if an allocation fails. Then nothing has changed.
#[unsafe(no_mangle)]
pub extern "C" fn gcflip_beside_open(
    alloc: Global,
    mutator: &mut GcflipEnd,
    collector: &mut GcflipEnd,
    size: u32,
    extra_roots: u32,
) -> u32
    ensures answers { (result ≡ done) ⊎ ((result ≡ no_memory) ⊎ ((result ≡ out_of_range) ⊎ (result ≡ open_handle))) }
    ensures done { result ≡ done → AreOpened size extra_roots mutator.new.end collector.new.end }
    // No flip asks the whole checker for its number.
    ensures turns { result ≡ done → turns_at collector.new.end ≡ Some (turns_at_open 0) }
    ensures moves { result ≡ done → moves_at mutator.new.end ≡ Some no_moves }
    ensures begun { result ≡ done → beginning_at mutator.new.end ≡ Some (begun_with (empty_beside size extra_roots)) }
    ensures refused { 1 ≤ result → (mutator.new.end ≡ mutator.old.end) × (collector.new.end ≡ collector.old.end) }
    ensures open { (result ≡ open_handle) ↔ (IsSome mutator.old.end ⊎ IsSome collector.old.end) }
    ensures outside { (result ≡ out_of_range) ↔ ((mutator.old.end ≡ None) × (collector.old.end ≡ None) × (¬ CanOpenBeside size extra_roots)) }
{
    opened(alloc, mutator, collector, size, extra_roots, 0)
}

/// Opens an empty heap as `gcflip_beside_open` does, with these options. Each flip with the number `whole_each` asks the whole checker, counted from the last one
/// that did; if it is 0, none does for its number.
#[unsafe(no_mangle)]
pub extern "C" fn gcflip_beside_open_with(
    alloc: Global,
    mutator: &mut GcflipEnd,
    collector: &mut GcflipEnd,
    options: &GcflipBesideOptions,
) -> u32
    ensures answers { (result ≡ done) ⊎ ((result ≡ no_memory) ⊎ ((result ≡ out_of_range) ⊎ (result ≡ open_handle))) }
    ensures done { result ≡ done → AreOpened options.now.size options.now.extra_roots mutator.new.end collector.new.end }
    ensures turns { result ≡ done → turns_at collector.new.end ≡ Some (turns_at_open options.now.whole_each) }
    ensures moves { result ≡ done → moves_at mutator.new.end ≡ Some no_moves }
    ensures begun { result ≡ done → beginning_at mutator.new.end ≡ Some (begun_with (empty_beside options.now.size options.now.extra_roots)) }
    ensures refused { 1 ≤ result → (mutator.new.end ≡ mutator.old.end) × (collector.new.end ≡ collector.old.end) }
    ensures open { (result ≡ open_handle) ↔ (IsSome mutator.old.end ⊎ IsSome collector.old.end) }
    ensures outside { (result ≡ out_of_range) ↔ ((mutator.old.end ≡ None) × (collector.old.end ≡ None) × (¬ CanOpenBesideWith options.now)) }
{
    if !mutator.is_empty() || !collector.is_empty() {
        return OPEN;
    }
    if options.bytes != OPTIONS_BYTES {
        return OUT_OF_RANGE;
    }
    opened(
        alloc,
        mutator,
        collector,
        options.size,
        options.extra_roots,
        options.whole_each,
    )
}

/// How many flips each checker has accepted since the heap was opened, as C sees it.
#[repr(C)]
#[derive(Clone, Copy, Debug, Drop, PartialEq, Eq)]
pub struct GcflipFlipChecks {
    /// Those for which only the standing checker was asked.
    pub along: u64,
    /// Those for which the whole checker was asked.
    pub whole: u64,
}

/// Reads how many flips each checker has accepted. Returns 0, or 3 if the handle has no collector.
#[unsafe(no_mangle)]
pub extern "C" fn gcflip_beside_flip_checks(
    collector: &mut GcflipEnd,
    checks: &mut GcflipFlipChecks,
) -> u32
    ensures counts { MatchOption (turns_at collector.old.end) ((result ≡ closed_handle) × (checks.new ≡ checks.old))
        (λ turns. (result ≡ done) × (checks.new.along ≡ turns.along) × (checks.new.whole ≡ turns.whole)) }
    ensures end { collector.new.end ≡ collector.old.end }
{
    if collector.is_empty() {
        return CLOSED;
    }
    let turns = match collector.end_mut() {
        End::Working(working) => working.turns,
        End::Asking(asking) => asking.turns,
        End::Holding(holding) => holding.turns,
        _ => return CLOSED,
    };
    *checks = GcflipFlipChecks {
        along: turns.along,
        whole: turns.whole,
    };
    DONE
}

/// Drops the mutator with its objects: 0, or 3 if the handle has no mutator. Its collector can still be used and closed. The last close frees the heap.
#[unsafe(no_mangle)]
pub extern "C" fn gcflip_beside_close_mutator(alloc: Global, mutator: &mut GcflipEnd) -> u32
    ensures answers { (result ≡ done) ⊎ (result ≡ closed_handle) }
    ensures none { result ≡ done → mutator.new.end ≡ None }
    ensures unchanged { result ≡ closed_handle → mutator.new.end ≡ mutator.old.end }
    ensures closed { (result ≡ done) ↔ IsMutator (stage mutator.old.end) }
{
    if !lent!(mutator).is_mutator() {
        return CLOSED;
    }
    drop(mutator.take(alloc));
    DONE
}

// Lets the mutator of a collector go on.
fn let_go(end: End) {
    match end {
        End::Asking(asking) => drop(asking.withdraw()),
        End::Holding(holding) => drop(holding.go()),
        other => drop(other),
    }
}

/// Lets the mutator go on, and drops the collector: 0, or 3 if the handle has no collector. The mutator keeps its objects. The last close frees the heap.
#[unsafe(no_mangle)]
pub extern "C" fn gcflip_beside_close_collector(alloc: Global, collector: &mut GcflipEnd) -> u32
    ensures answers { (result ≡ done) ⊎ (result ≡ closed_handle) }
    ensures none { result ≡ done → collector.new.end ≡ None }
    ensures unchanged { result ≡ closed_handle → collector.new.end ≡ collector.old.end }
    ensures closed { (result ≡ done) ↔ IsCollector (stage collector.old.end) }
{
    let end = lent!(collector);
    if !end.is_collector() {
        return CLOSED;
    }
    let_go(replace(end, End::Nothing));
    drop(collector.take(alloc));
    DONE
}
