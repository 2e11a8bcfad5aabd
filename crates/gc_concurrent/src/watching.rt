//! The standing checker goes along with the collector. It loads each word by itself, and believes no word of the collector's.
ghost use Rattle.std.specs.Prelude.{◌≡◌, ◌<◌, ◌≤◌, ◌+◌, ◌++◌, ℕ, List, true, false, Some, IsTrue, IsFalse, length, slice_index, slice_index_or, slice_get, slice_set};
ghost use Rattle.gc_words.specs.Word.{read_header};
ghost use Rattle.gc_words.specs.Layout.{field_place};
ghost use Rattle.gc_words.specs.declared.header.Header.{Header};
ghost use Rattle.gc_concurrent.specs.Internal.Rule.{seeing};
ghost use Rattle.gc_model.specs.State.{Replica};
ghost use Rattle.gc_model.specs.Members.{In};
ghost use Rattle.gc_monitor.specs.Claims.{CanWriteAt, IsPassedField};
ghost use Rattle.gc_concurrent.specs.Ends.{Theirs};
ghost use Rattle.gc_concurrent.specs.Moves.{half};
ghost use Rattle.gc_concurrent.specs.Internal.Following.{Follows, WroteEach};
ghost use Rattle.gc_concurrent.specs.Internal.Knowing.{Compared, Knows, KnowsBefore, PlacedBehind};

use crate::cells::{Cells, CellsEnd};
use crate::loads::Loads;
use crate::moves::half;
use crate::plays::{Headed, Looked, Saw};
use gc_monitor::Monitor;
use std::marker::PhantomData;

/// The walk over the mutator's space goes on up to this end, by a load for each object.
#[inline(always)]
pub(crate) fn walk(cells: &Cells, seat: &mut CellsEnd, standing: &mut Monitor, size: u32, end: u32)
    requires cells { seat.old.table_id ≡ cells.now.shared.table_id }
    requires wide { cells.now.shared.table_id.words ≡ size }
    requires inside { end ≤ size }
    requires old { seat.old.me.0.theirs.old ≤ size }
    requires sized { cells.now.shared.key.size ≡ cells.now.shared.table_id.words }
    requires copies { seat.old.me.0.copies ≡ true }
    requires along { ∥ ((new : List ℕ) × Follows standing.old seat.old.me.0.seen new) ∥₁ }
    requires room { seat.old.me.0.theirs.old ≤ standing.old.room }
    requires found { IsFalse standing.old.lost }
    ensures seen { seat.new.me ≡ seeing seat.new.me.0.seen seat.old.me }
    ensures row { seat.new.table_id ≡ seat.old.table_id }
    ensures along { (new : List ℕ) → ∥ Follows standing.old seat.old.me.0.seen new ∥₁ → ∥ Follows standing.new seat.new.me.0.seen new ∥₁ }
    ensures same { record standing.new { olds = standing.old.olds } ≡ standing.old }
    ensures found { IsFalse standing.new.lost }
    ensures knows { (new : List ℕ) (t : Theirs) → ∥ Follows standing.old seat.old.me.0.seen new ∥₁ → ∥ Knows standing.old seat.old.me.0.seen new t ∥₁ → ∥ Knows standing.new seat.new.me.0.seen new t ∥₁ }
    ensures originals { (r : Replica) → In r seat.old.me.0.theirs.replicas → r.original < end → r.original < length standing.new.olds }
    ensures words { seat.old.me.0.writes ≡ true → end ≤ length seat.old.me.0.mine.space.words → end ≤ length standing.new.olds }
{
    let words: Loads<Saw> = Loads {
        cells,
        size,
        play: PhantomData,
    };
    while standing.seen() < end as usize {
        if !standing.walk(words, seat) {
            return;
        }
    }
}

/// Compares field `i` of the replica at `at`, which has this header word, with this field of its original as it is now. The field of the replica
/// has this word. If the tables have such a replica, the checker is not lost.
#[inline(always)]
pub(crate) fn compare(
    cells: &Cells,
    seat: &mut CellsEnd,
    standing: &mut Monitor,
    size: u32,
    at: u32,
    i: u16,
    header: u64,
    word: u64,
)
    requires cells { seat.old.table_id ≡ cells.now.shared.table_id }
    requires wide { cells.now.shared.table_id.words ≡ size }
    requires copies { seat.old.me.0.copies ≡ true }
    requires along { ∥ ((new : List ℕ) × (slice_index new at ≡ header) × Follows standing.old seat.old.me.0.seen new) ∥₁ }
    requires found { IsFalse standing.old.lost }
    requires passed { ∥ IsPassedField header standing.old at i ∥₁ }
    requires low { field_place (slice_index_or standing.old.origins at 0) i < size }
    ensures found { IsFalse standing.new.lost }
    ensures compared { (new : List ℕ) → slice_index new at ≡ header → field_place at i < length new → ∥ Follows standing.old seat.old.me.0.seen new ∥₁
        → ∥ Compared at i standing.old standing.new seat.old.me.0.seen seat.new.me.0.seen (slice_set new (field_place at i) word) ∥₁ }
    ensures seen { seat.new.me ≡ seeing seat.new.me.0.seen seat.old.me }
    ensures row { seat.new.table_id ≡ seat.old.table_id }
    ensures along { (new : List ℕ) → slice_index new at ≡ header → field_place at i < length new → ∥ Follows standing.old seat.old.me.0.seen new ∥₁
        → ∥ Follows standing.new seat.new.me.0.seen (slice_set new (field_place at i) word) ∥₁ }
{
    let words: Loads<Looked> = Loads {
        cells,
        size,
        play: PhantomData,
    };
    standing.look_through(words, seat, at, i, header, word);
}

/// The replica of the object at `name`, which has this header word, is the next object of the new space. If the walk over the mutator's space has
/// not passed that object, it goes on.
#[inline(always)]
pub(crate) fn place(
    cells: &Cells,
    seat: &mut CellsEnd,
    standing: &mut Monitor,
    size: u32,
    name: u32,
    header: u64,
)
    requires cells { seat.old.table_id ≡ cells.now.shared.table_id }
    requires wide { cells.now.shared.table_id.words ≡ size }
    requires low { name < size }
    requires old { seat.old.me.0.theirs.old ≤ size }
    requires sized { cells.now.shared.key.size ≡ cells.now.shared.table_id.words }
    requires copies { seat.old.me.0.copies ≡ true }
    requires along { ∥ ((new : List ℕ) × Follows standing.old seat.old.me.0.seen new) ∥₁ }
    requires knows { ∥ ((new : List ℕ) × (before : Theirs) × Follows standing.old seat.old.me.0.seen new × KnowsBefore standing.old seat.old.me.0.seen new before seat.old.me.0.theirs name header) ∥₁ }
    ensures found { IsFalse standing.new.lost }
    ensures placed { (new : List ℕ) (before : Theirs) → ∥ Follows standing.old seat.old.me.0.seen new ∥₁ → ∥ Knows standing.old seat.old.me.0.seen new before ∥₁
        → ∥ PlacedBehind standing.old standing.new seat.new.me.0.seen new before name header ∥₁ }
    ensures seen { seat.new.me ≡ seeing seat.new.me.0.seen seat.old.me }
    ensures row { seat.new.table_id ≡ seat.old.table_id }
    ensures along { (new more : List ℕ) (h : Header) → read_header header ≡ Some h → length more ≡ h.len + 2 → slice_index (new ++ more) (length new) ≡ header
        → ∥ Follows standing.old seat.old.me.0.seen new ∥₁
        → ∥ Follows standing.new seat.new.me.0.seen (new ++ more) ∥₁ }
{
    walk(cells, seat, standing, size, name + 1);
    let words: Loads<Headed> = Loads {
        cells,
        size,
        play: PhantomData,
    };
    standing.place_through(words, seat, header, name);
}

// The place of the replica of the object at this address, or 0.
fn claim_of(claims: &[u32], a: u32) -> u32
    ensures { result ≡ slice_index claims.now (half a) }
{
    match claims.get(half(a)) {
        Some(place) => *place,
        None => 0,
    }
}

/// Tells of each entry of a log that is taken. `claims` has the place of each object's replica, or 0, by half of the object's address.
pub(crate) fn tell(standing: &mut Monitor, claims: &[u32], log: &[(u32, u16)])
    requires claims { (a i : ℕ) → In {X = ℕ × ℕ} (a, i) log.now → CanWriteAt a i (slice_index claims.now (half a)) standing.old }
    requires found { IsFalse standing.old.lost }
    ensures found { IsFalse standing.new.lost }
    ensures lost { IsTrue standing.old.lost → IsTrue standing.new.lost }
    ensures told { IsFalse standing.new.lost → WroteEach log.now standing.old standing.new }
{
    for k in 0..log.len() {
        let (a, i) = log[k];
        let claim = claim_of(claims, a);
        standing.wrote(a, i, claim);
    }
}
