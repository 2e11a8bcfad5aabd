//! The codes of the old space. Those of a collection that was given up count no more.

ghost use Rattle.std.specs.Prelude.{◌≡◌, ◌<◌, ◌≤◌, ◌+◌, ◌++◌, ◌∷◌, [], ℕ, IfOk, OnOk, IsFalse, IsTrue, length, replicate, slice_index, slice_index_or, slice_set};
ghost use Rattle.gc_monitor.specs.Internal.InWords.{freed};

use crate::code_row::CodeRow;
use crate::walking::{START, TAKEN};
use crate::zeros::{add_addresses, touch_addresses};
use gc_graph::NoMemory;
use std::alloc::Global;
use std::cmp::min;
use std::marker::Model;
use std::mem::swap;

/// The number of words of codes that have an epoch of their own, and of the places whose codes they hold.
const WORDS: usize = 8;

const PLACES: usize = 256;

/// The number of blocks that all addresses have.
const MOST_BLOCKS: usize = 1 << 24;

/// A row of codes whose codes `TAKEN` become `START` all at once. Each code `TAKEN` counts in the epoch of its block of places alone, and
/// stands for `START` in later ones. Contracts see what the codes stand for.
#[derive(Debug, Drop)]
pub(crate) struct OldRow {
    row: CodeRow,
    /// By block of places, the epoch in which its codes `TAKEN` count. A block that is not there has epoch 0.
    epochs: Vec<u32>,
    /// The epoch that it is.
    epoch: u32,
}

impl Model for OldRow {
    ghost use Rattle.std.specs.Prelude.{ℕ, ◌≤◌, ◌-◌, ◌*◌, slice_index_or, vec_capacity};
    ghost use Rattle.gc_monitor.specs.Internal.InWords.{OldCodes, codes_now};

    ghost Value = { OldCodes };

    ghost view = { λ row. record {
      codes = codes_now row.epochs.items row.epoch 0 row.row.codes;
      room = row.row.room;
      covered = 256 * vec_capacity row.epochs;
      left = 4294967295 - row.epoch;
    } };

    ghost invariant = { λ row. (block : ℕ) → slice_index_or row.epochs.items block 0 ≤ row.epoch };
}

impl OldRow {
    /// Returns a row of place 0 alone, whose code is 0, with room for so many places. Allocates twice.
    pub(crate) fn new(alloc: Global, places: u32) -> Result<OldRow, NoMemory>
        requires { 1 ≤ places }
        ensures codes { IfOk result (λ row. row.codes ≡ 0 ∷ []) }
        ensures room { IfOk result (λ row. places ≤ row.room) }
        ensures covered { IfOk result (λ row. places ≤ row.covered) }
    {
        let row = CodeRow::new(alloc, places)?;
        let epochs = Vec::with_capacity(alloc, blocks_of(places))?;
        Ok(OldRow {
            row,
            epochs,
            epoch: 0,
        })
    }

    /// Returns a row of no places, without room. Does not allocate.
    pub(crate) fn absent(alloc: Global) -> OldRow
        ensures { (result.codes ≡ []) × (result.room ≡ 0) }
    {
        OldRow {
            row: CodeRow::absent(alloc),
            epochs: Vec::new(alloc),
            epoch: 0,
        }
    }

    /// Makes room for so many places. If memory is refused, the row stays as it is.
    pub(crate) fn reserve(&mut self, places: u32) -> Result<(), NoMemory>
        ensures codes { self.new.codes ≡ self.old.codes }
        ensures room { self.old.room ≤ self.new.room }
        ensures reserved { OnOk result ((places ≤ self.new.room) × (places ≤ self.new.covered)) }
    {
        let blocks = blocks_of(places);
        if self.epochs.len() < blocks {
            self.epochs.reserve_exact(blocks - self.epochs.len())?;
        }
        self.row.reserve(places)
    }

    /// Writes to all memory of the row once.
    pub(crate) fn touch(&mut self)
        ensures codes { self.new.codes ≡ self.old.codes }
        ensures room { self.old.room ≤ self.new.room }
    {
        self.row.touch();
        touch_addresses(&mut self.epochs);
    }

    /// Place 0 alone is left, with code 0.
    pub(crate) fn restart(&mut self)
        requires { 1 ≤ self.old.room }
        ensures codes { self.new.codes ≡ 0 ∷ [] }
        ensures room { self.old.room ≤ self.new.room }
    {
        self.row.restart();
        self.epochs.clear();
        self.epoch = 0;
    }

    /// Returns the number of places.
    #[inline(always)]
    pub(crate) fn len(&self) -> usize
        ensures { result ≡ length self.now.codes }
    {
        self.row.len()
    }

    /// Returns the code of this place.
    #[inline(always)]
    pub(crate) fn get(&self, place: usize) -> u8
        requires { place < length self.now.codes }
        ensures { result ≡ slice_index self.now.codes place }
    {
        let code = self.row.get(place);
        if code != TAKEN {
            return code;
        }
        if epoch_of(&self.epochs, place / PLACES) == self.epoch {
            TAKEN
        } else {
            START
        }
    }

    /// Returns false only if this place has another code than `TAKEN`. Reads no epoch.
    #[inline(always)]
    pub(crate) fn may_be_taken(&self, place: usize) -> bool
        requires { place < length self.now.codes }
        ensures { IsFalse result → slice_index self.now.codes place ≢ 2 }
    {
        self.row.get(place) == TAKEN
    }

    /// Returns whether so many places, and one more, have their words already.
    #[inline(always)]
    pub(crate) fn covers(&self, places: usize) -> bool
        ensures room { IsTrue result → places ≤ self.now.room }
        ensures few { IsTrue result → places ≤ 4294967295 }
    {
        self.row.covers(places)
    }

    /// Adds a start, and so many places behind it with code 0.
    #[inline(always)]
    pub(crate) fn add(&mut self, more: usize)
        requires { length self.old.codes + (more + 1) ≤ self.old.room }
        ensures codes { self.new.codes ≡ self.old.codes ++ 1 ∷ replicate more 0 }
        ensures room { self.old.room ≤ self.new.room }
    {
        self.row.add(START, more);
    }

    /// Gives this place code `TAKEN`.
    #[inline(always)]
    pub(crate) fn take(&mut self, place: usize)
        requires { place < length self.old.codes }
        ensures codes { self.new.codes ≡ slice_set self.old.codes place 2 }
        ensures room { self.old.room ≤ self.new.room }
    {
        make_count(
            &mut self.row,
            &mut self.epochs,
            &mut self.epoch,
            place / PLACES,
        );
        let _ = self.row.replace(place, TAKEN);
    }

    /// Gives all places with code `TAKEN` code `START`. Takes constant time, but for one call in 2^32.
    pub(crate) fn release(&mut self)
        ensures len { length self.new.codes ≡ length self.old.codes }
        ensures codes { (a : ℕ) → slice_index_or self.new.codes a 0 ≡ freed (slice_index_or self.old.codes a 0) }
        ensures room { self.old.room ≤ self.new.room }
        // No code is written but in the last epoch.
        ensures left { 1 ≤ self.old.left → self.new.left + 1 ≡ self.old.left }
    {
        keep_below_last(&mut self.row, &mut self.epochs, &mut self.epoch);
        self.epoch += 1;
    }

    /// Takes the codes of the other row, which then has others, of which none counts.
    pub(crate) fn exchange(&mut self, news: &mut CodeRow)
        ensures codes { self.new.codes ≡ news.old.codes }
        ensures room { news.old.room ≤ self.new.room }
        ensures left { self.old.room ≤ news.new.room }
    {
        swap(&mut self.row, news);
        self.epochs.clear();
        self.epoch = 0;
    }
}

ghost use Rattle.std.specs.Prelude.{◌≢◌, ◌*◌, ◌/◌, vec_capacity};
ghost use Rattle.gc_monitor.specs.Internal.InWords.{codes_now};

// The number of blocks for so many places. With fewer, `renew` would write the whole row.
fn blocks_of(places: u32) -> usize
    ensures { places < 256 * result }
{
    places as usize / PLACES + 1
}

// The epoch in which the codes of this block count.
#[inline(always)]
fn epoch_of(epochs: &[u32], block: usize) -> u32
    ensures { result ≡ slice_index_or epochs.now block 0 }
{
    if block < epochs.len() {
        epochs[block]
    } else {
        0
    }
}

// Has the codes of this block count.
#[inline(always)]
fn make_count(row: &mut CodeRow, epochs: &mut Vec<u32>, epoch: &mut u32, block: usize)
    requires { (b : ℕ) → slice_index_or epochs.old.items b 0 ≤ epoch.old }
    ensures codes { codes_now epochs.new.items epoch.new 0 row.new.codes ≡ codes_now epochs.old.items epoch.old 0 row.old.codes }
    ensures here { slice_index_or epochs.new.items block 0 ≡ epoch.new }
    ensures low { (b : ℕ) → slice_index_or epochs.new.items b 0 ≤ epoch.new }
    ensures room { row.old.room ≤ row.new.room }
{
    if epoch_of(epochs, block) != *epoch {
        renew(row, epochs, epoch, block);
    }
}

// Writes what the codes of this block stand for in their places, and has them count from now on.
#[cold]
#[inline(never)]
fn renew(row: &mut CodeRow, epochs: &mut Vec<u32>, epoch: &mut u32, block: usize)
    requires low { (b : ℕ) → slice_index_or epochs.old.items b 0 ≤ epoch.old }
    requires stale { slice_index_or epochs.old.items block 0 ≢ epoch.old }
    ensures codes { codes_now epochs.new.items epoch.new 0 row.new.codes ≡ codes_now epochs.old.items epoch.old 0 row.old.codes }
    ensures here { slice_index_or epochs.new.items block 0 ≡ epoch.new }
    ensures low { (b : ℕ) → slice_index_or epochs.new.items b 0 ≤ epoch.new }
    ensures room { row.old.room ≤ row.new.room }
{
    if block >= min(epochs.capacity(), MOST_BLOCKS) {
        settle_all(row, epochs, epoch);
        return;
    }
    free_block(row, block);
    grow(epochs, block + 1);
    epochs[block] = *epoch;
}

// Adds blocks up to so many, whose epoch is still 0.
fn grow(epochs: &mut Vec<u32>, blocks: usize)
    requires { blocks ≤ vec_capacity epochs.old }
    ensures some { blocks ≤ length epochs.new.items }
    ensures same { (b : ℕ) → slice_index_or epochs.new.items b 0 ≡ slice_index_or epochs.old.items b 0 }
{
    if epochs.len() < blocks {
        add_addresses(epochs, blocks);
    }
}

// Sees to it that an epoch follows this one.
#[inline(always)]
fn keep_below_last(row: &mut CodeRow, epochs: &mut Vec<u32>, epoch: &mut u32)
    requires { (b : ℕ) → slice_index_or epochs.old.items b 0 ≤ epoch.old }
    ensures codes { codes_now epochs.new.items epoch.new 0 row.new.codes ≡ codes_now epochs.old.items epoch.old 0 row.old.codes }
    ensures low { (b : ℕ) → slice_index_or epochs.new.items b 0 ≤ epoch.new }
    ensures last { epoch.new < 4294967295 }
    ensures room { row.old.room ≤ row.new.room }
    ensures same { epoch.old < 4294967295 → (epoch.new ≡ epoch.old) × (epochs.new ≡ epochs.old) × (row.new ≡ row.old) }
{
    if *epoch == u32::MAX {
        settle_all(row, epochs, epoch);
    }
}

// Writes what all codes stand for in their places, and begins with epoch 0 again.
#[cold]
#[inline(never)]
fn settle_all(row: &mut CodeRow, epochs: &mut Vec<u32>, epoch: &mut u32)
    ensures codes { codes_now epochs.new.items epoch.new 0 row.new.codes ≡ codes_now epochs.old.items epoch.old 0 row.old.codes }
    ensures epochs { epochs.new.items ≡ [] }
    ensures epoch { epoch.new ≡ 0 }
    ensures room { row.old.room ≤ row.new.room }
{
    settle(row, epochs, *epoch);
    epochs.clear();
    *epoch = 0;
}

// Frees the codes of this block.
fn free_block(row: &mut CodeRow, block: usize)
    requires { block < 16777216 }
    ensures len { length row.new.codes ≡ length row.old.codes }
    ensures freed { (place : ℕ) → place / 256 ≡ block → slice_index_or row.new.codes place 0 ≡ freed (slice_index_or row.old.codes place 0) }
    ensures others { (place : ℕ) → place / 256 ≢ block → slice_index_or row.new.codes place 0 ≡ slice_index_or row.old.codes place 0 }
    ensures room { row.old.room ≤ row.new.room }
{
    for k in 0..WORDS {
        row.free(WORDS * block + k);
    }
}

// Writes what all codes stand for in their places.
fn settle(row: &mut CodeRow, epochs: &[u32], epoch: u32)
    ensures codes { row.new.codes ≡ codes_now epochs.now epoch 0 row.old.codes }
    ensures room { row.old.room ≤ row.new.room }
{
    for place in 0..row.len() {
        if row.get(place) == TAKEN && epoch_of(epochs, place / PLACES) != epoch {
            let _ = row.replace(place, START);
        }
    }
}
