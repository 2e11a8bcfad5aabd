//! The collector's thread: it makes replicas in the space of the next heap.
ghost use Rattle.std.specs.Prelude.{◌≡◌, ◌≢◌, ℕ, ◌+◌, ◌-◌, ◌*◌, ◌^◌, ◌<◌, ◌≤◌, true, false, List, [], ◌∷◌, ◌++◌, drop, length, replicate, slice_index, slice_set, IfOk, IfErr, IfSome, IfNone, IsTrue, IsFalse, IsSome, ◌⊎◌, ◌&&◌, if◌then◌else◌, OnErr, OnOk, Some};
ghost use Rattle.std.specs.Arc.{arc_value};
ghost use Rattle.gc_graph.specs.Graph.{Ref};
ghost use Rattle.gc_words.specs.Word.{is_value, value_of};
ghost use Rattle.gc_words.specs.Space.{IsSpace, end_of, with_field_at};
ghost use Rattle.gc_words.specs.Image.{Block, block_at, field_at};
ghost use Rattle.gc_words.specs.Closed.{IsFieldWord, IsRootWord};
ghost use Rattle.gc_heap.specs.Heap.{IsHeap};
ghost use Rattle.gc_model.specs.State.{Replica, replica_of};
ghost use Rattle.gc_model.specs.Steps.{is_empty, scan_done};
ghost use Rattle.gc_model.specs.Members.{In};
ghost use Rattle.gc_copy.specs.Words.{replicas_in};
ghost use Rattle.gc_concurrent.specs.Heaps.{heap_of};
ghost use Rattle.gc_concurrent.specs.Internal.Flip.{HasNothingLeft, Flips};
ghost use Rattle.gc_concurrent.specs.Moves.{half};
ghost use Rattle.gc_concurrent.specs.Ends.{its};
ghost use Rattle.gc_concurrent.specs.Unreachable.{MayBeCopied};
ghost use Rattle.gc_concurrent.specs.Internal.Rule.{begun_anew, entries_of_fields, read_as, seeing, wants, Loose};
ghost use Rattle.gc_concurrent.specs.Internal.Copiers.{Claims, KeepsSeat, Nears, StaysOrNears, logging, moved_by};
ghost use Rattle.gc_concurrent.specs.Internal.Following.{Follows};
ghost use Rattle.gc_concurrent.specs.Internal.Knowing.{Knows};
ghost use Rattle.gc_concurrent.specs.Works.{WhereDone, WhereNoRoom};
ghost use Rattle.gc_concurrent.specs.Internal.Props.{replicas_prop, claims_prop, space_prop};
ghost use Rattle.gc_concurrent.specs.Internal.Spares.{claims_spared};
ghost use Rattle.gc_monitor.specs.Events.{Freed};

use crate::cells::{Cells, CellsEnd};
use crate::moves::half;
use crate::next::NextSpace;
use crate::plays::{Applied, Flipped, Left, Passed, Placed, Renewed, Rooted, Scanned};
use crate::spare::{Former, Spare};
use crate::watching::{compare, place, walk};
use gc_graph::{NoMemory, object_words};
use gc_monitor::Monitor;
use gc_words::{Addr, Header, Value, encode, field_index, target_of};
use std::alloc::Global;
use std::cmp::max;
use std::sync::Arc;

/// What a step of the collector did. `Done`: nothing is due, and every replica is scanned. `NoRoom`: a replica found no room.
#[derive(Clone, Copy, Debug, PartialEq, Eq)]
pub enum Work {
    Step,
    Done,
    NoRoom,
}

/// A collector. The links of the replicas in its space are the addresses of their originals.
#[derive(Drop)]
pub struct Copier {
    pub(crate) cells: Arc<Cells, Global>,
    pub seat: CellsEnd,
    pub(crate) space: NextSpace,
    // The place of each object's replica, or 0, by half of the object's address.
    pub(crate) claims: Vec<u32>,
    // The entries taken of the mutator, of which the first `next` are done.
    pub(crate) due: Vec<(u32, u16)>,
    pub(crate) next: usize,
    // The raw object that is filled, the next of its fields, and how many are left.
    pub(crate) fill: u32,
    pub(crate) fill_next: u16,
    pub(crate) fill_left: u16,
    pub(crate) scan_place: u32,
    pub(crate) scan_field: u16,
    // An object that is to get a replica.
    pub(crate) has_wanted: bool,
    pub(crate) wanted: u32,
    // What the next flip takes, unless nothing was prepared, and what the last one left.
    pub(crate) spare: Option<Spare>,
    pub(crate) former: Option<Former>,
    // It goes along, and knows at the flip which fields it has yet to compare.
    pub(crate) standing: Monitor,
    pub size: u32,
    ghost row: { ((arc_value cells).shared.table_id ≡ seat.table_id) × (seat.table_id.words ≡ size) × ((arc_value cells).shared.key.size ≡ size) },
    ghost copies: { seat.me.0.copies ≡ true },
    ghost shaped: { IsSpace space } by { space_prop _ },
    ghost sized: { (seat.me.0.theirs.old ≡ size) × (space.size ≡ seat.me.0.theirs.size) },
    ghost same: { seat.me.0.theirs.replicas ≡ replicas_in space.words } by { replicas_prop _ _ },
    ghost scans: { (seat.me.0.theirs.scan_place ≡ scan_place) × (seat.me.0.theirs.scan_field ≡ scan_field) },
    ghost dues: { (seat.me.0.theirs.due ≡ entries_of_fields fill fill_next fill_left ++ drop next due.items) × (next ≤ length due.items) × (fill_next + fill_left < 2 ^ 16) },
    ghost wants: { seat.me.0.theirs.wanted ≡ (if has_wanted then wanted ∷ [] else []) },
    ghost aimed: { has_wanted ≡ true → (fill_left ≡ 0) × (slice_index claims.items (half wanted) ≡ 0) },
    ghost fills: { (q : Replica) → In q seat.me.0.theirs.replicas → q.original ≡ fill → fill_left ≢ 0 → q.object.raw ≡ true },
    ghost claimed: { Claims claims.items seat.me.0.theirs } by { claims_prop _ _ },
    ghost loose: { ∥ Loose seat.me.0.theirs ∥₁ },
    ghost along: { ∥ Follows standing seat.me.0.seen space.words ∥₁ },
    ghost knows: { ∥ Knows standing seat.me.0.seen space.words seat.me.0.theirs ∥₁ },
    ghost spared: { claims_spared spare (half space.size) ≡ half space.size },
}

// The word as it refers to replicas, or its target, if that has none.
#[inline(always)]
pub(crate) fn moved_word(claims: &[u32], word: u64) -> Result<u64, Addr>
    requires value { IsTrue (is_value word) }
    requires inside { (a : ℕ) → value_of word ≡ Ref a → half a < length claims.now }
    requires places { (k : ℕ) → slice_index claims.now k < 4294967295 }
    ensures moved { IfOk result (λ w. value_of w ≡ moved_by claims.now (value_of word)) }
    ensures placed { IfOk result (λ w. (a : ℕ) → value_of word ≡ Ref a → slice_index claims.now (half a) ≢ 0) }
    ensures value { IfOk result (λ w. IsTrue (is_value w)) }
    ensures wanted { IfErr result (λ a. (value_of word ≡ Ref a.0) × (slice_index claims.now (half a.0) ≡ 0)) }
{
    let Some(at) = target_of(word) else {
        return Ok(word);
    };
    let place = claims[half(at.0)];
    if place == 0 {
        return Err(at);
    }
    Ok(encode(Value::Ref(Addr(place))))
}

// The word of a field of an object that is raw or not, as it refers to replicas, or its target, if that has none.
#[inline(always)]
fn moved_field(raw: bool, claims: &[u32], word: u64) -> Result<u64, Addr>
    requires value { raw ≡ false → IsTrue (is_value word) }
    requires inside { (a : ℕ) → read_as raw word ≡ Ref a → half a < length claims.now }
    requires places { (k : ℕ) → slice_index claims.now k < 4294967295 }
    ensures moved { IfOk result (λ w. read_as raw w ≡ moved_by claims.now (read_as raw word)) }
    ensures placed { IfOk result (λ w. (a : ℕ) → read_as raw word ≡ Ref a → slice_index claims.now (half a) ≢ 0) }
    ensures value { IfOk result (λ w. raw ≡ false → IsTrue (is_value w)) }
    ensures wanted { IfErr result (λ a. (read_as raw word ≡ Ref a.0) × (slice_index claims.now (half a.0) ≡ 0)) }
{
    if raw {
        return Ok(word);
    }
    moved_word(claims, word)
}

// An entry, and what is left behind it.
#[derive(Clone, Copy)]
struct Oldest {
    name: u32,
    field: u16,
    fill_next: u16,
    fill_left: u16,
    next: usize,
}

// The oldest of the entries that are due.
#[inline(always)]
fn oldest_of(
    fill: u32,
    fill_next: u16,
    fill_left: u16,
    due: &[(u32, u16)],
    next: usize,
) -> Option<Oldest>
    requires fits { fill_next + fill_left < 2 ^ 16 }
    requires low { next ≤ length due.now }
    ensures none { IfNone result (entries_of_fields fill fill_next fill_left ++ drop next due.now ≡ []) }
    ensures some { IfSome result (λ o. entries_of_fields fill fill_next fill_left ++ drop next due.now ≡ (o.name, o.field) ∷ (entries_of_fields fill o.fill_next o.fill_left ++ drop o.next due.now)) }
    ensures filled { IfNone result (fill_left ≡ 0) }
    ensures fills { IfSome result (λ o. (o.fill_left ≤ fill_left) × (fill_left ≢ 0 → o.name ≡ fill)) }
    ensures taken { IfSome result (λ o. fill_left ≢ 0 → o.fill_left + 1 ≡ fill_left) }
    ensures bounds { IfSome result (λ o. (o.next ≤ length due.now) × (o.fill_next + o.fill_left < 2 ^ 16)) }
{
    if fill_left > 0 {
        return Some(Oldest {
            name: fill,
            field: fill_next,
            fill_next: fill_next + 1,
            fill_left: fill_left - 1,
            next,
        });
    }
    if next >= due.len() {
        return None;
    }
    let (name, field) = due[next];
    Some(Oldest {
        name,
        field,
        fill_next,
        fill_left,
        next: next + 1,
    })
}

// The object at `name` has the replica at `place`.
#[inline(always)]
fn claim(claims: &mut Vec<u32>, name: u32, place: u32)
    requires { half name < length claims.old.items }
    ensures { claims.new.items ≡ slice_set claims.old.items (half name) place }
{
    claims[half(name)] = place;
}

// Sets each claim to 0. If there are none, nothing is written.
fn clear_claims(claims: &mut Vec<u32>, are_none: bool)
    requires { IsTrue are_none → claims.old.items ≡ replicate (length claims.old.items) 0 }
    ensures { claims.new.items ≡ replicate (length claims.old.items) 0 }
{
    if !are_none {
        claims.fill(0);
    }
}

/// The collection begins anew, in a new space of `size` words: no object has a replica, and the standing checker forgets those that were seen.
pub(crate) fn restart(
    cells: &Cells,
    seat: &mut CellsEnd,
    claims: &mut Vec<u32>,
    standing: &mut Monitor,
    are_none: bool,
    size: u32,
)
    requires cells { seat.old.table_id ≡ cells.now.shared.table_id }
    requires some { 0 < cells.now.shared.table_id.words }
    requires key { cells.now.shared.key.size ≡ cells.now.shared.table_id.words }
    requires copies { seat.old.me.0.copies ≡ true }
    requires low { 1 ≤ size }
    requires none { IsTrue are_none → claims.old.items ≡ replicate (length claims.old.items) 0 }
    requires found { IsFalse standing.old.lost }
    ensures begun { seat.new.me ≡ (record seat.old.me.0 { theirs = begun_anew size seat.old.me.0.theirs }, seat.old.me.1) }
    ensures loose { ∥ Loose seat.new.me.0.theirs ∥₁ }
    ensures row { seat.new.table_id ≡ seat.old.table_id }
    ensures claims { claims.new.items ≡ replicate (length claims.old.items) 0 }
    ensures found { IsFalse standing.new.lost }
    ensures freed { Freed standing.old standing.new }
{
    cells
        .shared
        .compare_exchange::<Renewed>(seat, 0, u64::from(size), u64::from(size));
    clear_claims(claims, are_none);
    standing.dropped();
}

// How many fields of a new replica are to be filled.
#[inline(always)]
fn to_fill(header: Header) -> u16
    ensures { result ≡ (if header.raw then header.len else 0) }
{
    if header.is_raw() { header.len() } else { 0 }
}

// Nothing of a replica with this header is left to scan.
#[inline(always)]
fn is_scanned(header: Header, field: u16) -> bool
    ensures done { IsTrue result → (header.raw ≡ true) ⊎ (header.len ≤ field) }
    ensures left { IsFalse result → (header.raw ≡ false) × (field < header.len) }
{
    header.is_raw() || field >= header.len()
}

// Writes field `i` of the replica at `at`, and returns its word as it is then.
#[inline(always)]
fn wrote(space: &mut NextSpace, at: Addr, i: u16, word: u64) -> u64
    requires shaped { IsSpace space.old }
    requires there { IsSome (field_at space.old.words at.0 i) }
    requires fits { (b : Block) → block_at space.old.words at.0 ≡ Some b → IsFieldWord space.old.words b.header word }
    ensures words { space.new ≡ with_field_at space.old at.0 i word }
    ensures shaped { IsSpace space.new }
    ensures value { field_at space.new.words at.0 i ≡ Some result }
{
    space.set_field(at, i, word);
    space.field(at, i)
}

impl Copier {
    /// Scans the field at the scan pointer, or goes on behind the replica there.
    #[inline(always)]
    fn scan_one(&mut self)
        requires low { self.old.scan_place < end_of self.old.space }
        requires clear { self.old.has_wanted ≡ false }
        requires filled { self.old.fill_left ≡ 0 }
        ensures nears { Nears self.old.seat.me self.new.seat.me }
        ensures seat { KeepsSeat self.old.seat.me self.new.seat.me }
        ensures row { (self.new.seat.table_id ≡ self.old.seat.table_id) × (self.new.size ≡ self.old.size) }
    {
        let at = Addr(self.scan_place);
        let header = self.space.header(at);
        let cells = &*self.cells;
        if is_scanned(header, self.scan_field) {
            cells.shared.load::<Passed>(&mut self.seat, 0);
            self.scan_place += object_words(header.len());
            self.scan_field = 0;
            return;
        }
        let original = Addr(self.space.link(at) as u32);
        let word = cells
            .shared
            .load::<Scanned>(&mut self.seat, field_index(original, self.scan_field));
        match moved_word(self.claims.as_slice(), word) {
            Ok(moved) => {
                let written = wrote(&mut self.space, at, self.scan_field, moved);
                compare(
                    cells,
                    &mut self.seat,
                    &mut self.standing,
                    self.size,
                    at.0,
                    self.scan_field,
                    header.word(),
                    written,
                );
                self.scan_field += 1;
            }
            Err(target) => {
                self.has_wanted = true;
                self.wanted = target.0;
            }
        }
    }

    /// Brings the field of the oldest entry up to date, or leaves the entry out, if its object has no replica. False if nothing is due.
    #[inline(always)]
    fn apply_one(&mut self) -> bool
        requires clear { self.old.has_wanted ≡ false }
        ensures nears { IsTrue result → Nears self.old.seat.me self.new.seat.me }
        ensures still { result ≡ false → (self.new.has_wanted ≡ false) × (self.new.fill_left ≡ 0) × (self.new.seat.me ≡ self.old.seat.me) }
        ensures seat { KeepsSeat self.old.seat.me self.new.seat.me }
        ensures row { (self.new.seat.table_id ≡ self.old.seat.table_id) × (self.new.size ≡ self.old.size) }
        ensures none { result ≡ false → self.new.seat.me.0.theirs.due ≡ [] }
        ensures filled { self.old.fill_left ≢ 0 → (self.new.has_wanted ≡ false) × (self.new.fill_left + 1 ≡ self.old.fill_left) }
    {
        let Some(oldest) = oldest_of(
            self.fill,
            self.fill_next,
            self.fill_left,
            self.due.as_slice(),
            self.next,
        ) else {
            return false;
        };
        let place = self.claims[half(oldest.name)];
        let cells = &*self.cells;
        if place == 0 {
            cells.shared.load::<Left>(&mut self.seat, 0);
            self.fill_next = oldest.fill_next;
            self.fill_left = oldest.fill_left;
            self.next = oldest.next;
            return true;
        }
        let at = Addr(place);
        let header = self.space.header(at);
        let word = cells.shared.load::<Applied>(
            &mut self.seat,
            field_index(Addr(oldest.name), oldest.field),
        );
        match moved_field(header.is_raw(), self.claims.as_slice(), word) {
            Ok(moved) => {
                let written = wrote(&mut self.space, at, oldest.field, moved);
                compare(
                    cells,
                    &mut self.seat,
                    &mut self.standing,
                    self.size,
                    at.0,
                    oldest.field,
                    header.word(),
                    written,
                );
                self.fill_next = oldest.fill_next;
                self.fill_left = oldest.fill_left;
                self.next = oldest.next;
            }
            Err(target) => {
                self.has_wanted = true;
                self.wanted = target.0;
            }
        }
        true
    }

    /// Gives the object that is wanted a replica. False if there is no room.
    fn place_wanted(&mut self) -> bool
        requires wanted { self.old.has_wanted ≡ true }
        ensures nears { IsTrue result → Nears self.old.seat.me self.new.seat.me }
        ensures clear { IsTrue result → self.new.has_wanted ≡ false }
        ensures placed { IsTrue result → IsSome (replica_of (its self.new.seat.me.0.theirs) self.old.wanted) }
        ensures seat { KeepsSeat self.old.seat.me self.new.seat.me }
        ensures room { IsFalse result → self.new.seat.me.0.theirs.size < self.new.seat.me.0.theirs.old }
        ensures row { (self.new.seat.table_id ≡ self.old.seat.table_id) × (self.new.size ≡ self.old.size) }
    {
        let name = self.wanted;
        let cells = &*self.cells;
        let word = cells.shared.load::<Placed>(&mut self.seat, name as usize);
        let header = Header::of_word(word);
        if !self.space.has_room(header.len()) {
            return false;
        }
        let at = self.space.place(header);
        self.space.set_link(at, u64::from(name));
        place(
            cells,
            &mut self.seat,
            &mut self.standing,
            self.size,
            name,
            header.word(),
        );
        claim(&mut self.claims, name, at.0);
        self.has_wanted = false;
        self.fill = name;
        self.fill_next = 0;
        self.fill_left = to_fill(header);
        true
    }

    /// Performs one step: places a replica that is wanted, fills a raw one, applies an entry, or scans a field.
    #[inline(always)]
    pub(crate) fn work(&mut self) -> Work
        ensures seat { KeepsSeat self.old.seat.me self.new.seat.me }
        ensures row { (self.new.seat.table_id ≡ self.old.seat.table_id) × (self.new.size ≡ self.old.size) }
        ensures done { WhereDone result (self.new.seat.me.0.theirs) }
        ensures room { WhereNoRoom result (self.new.seat.me.0.theirs) }
        ensures nears { result ≡ Work.Step → Nears self.old.seat.me self.new.seat.me }
        ensures still { result ≡ Work.Done → self.new.seat.me ≡ self.old.seat.me }
    {
        if self.has_wanted {
            return if self.place_wanted() {
                Work::Step
            } else {
                Work::NoRoom
            };
        }
        if !self.has_nothing_due() {
            let _applied = self.apply_one();
            return Work::Step;
        }
        if self.scan_place >= self.space.end() {
            return Work::Done;
        }
        self.scan_one();
        Work::Step
    }

    // Fills the raw replica that was placed last. The collector remembers no more than one.
    fn fill_up(&mut self)
        requires clear { self.old.has_wanted ≡ false }
        ensures settled { (self.new.has_wanted ≡ false) × (self.new.fill_left ≡ 0) }
        ensures nears { StaysOrNears self.old.seat.me self.new.seat.me }
        ensures seat { KeepsSeat self.old.seat.me self.new.seat.me }
        ensures row { (self.new.seat.table_id ≡ self.old.seat.table_id) × (self.new.size ≡ self.old.size) }
    {
        let left = self.fill_left;
        for k in 0..left {
            self.apply_one();
        }
    }

    /// Places the object that is wanted, if there is one, and fills the raw replica that was placed last. Returns false if there is no room.
    pub(crate) fn settle(&mut self) -> bool
        ensures settled { IsTrue result → (self.new.has_wanted ≡ false) × (self.new.fill_left ≡ 0) }
        ensures placed { IsTrue result → self.old.has_wanted ≡ true → IsSome (replica_of (its self.new.seat.me.0.theirs) self.old.wanted) }
        ensures nears { IsTrue result → StaysOrNears self.old.seat.me self.new.seat.me }
        ensures seat { KeepsSeat self.old.seat.me self.new.seat.me }
        ensures room { IsFalse result → self.new.seat.me.0.theirs.size < self.new.seat.me.0.theirs.old }
        ensures row { (self.new.seat.table_id ≡ self.old.seat.table_id) × (self.new.size ≡ self.old.size) }
    {
        if self.has_wanted && !self.place_wanted() {
            return false;
        }
        self.fill_up();
        true
    }

    /// Returns whether nothing is due.
    #[inline(always)]
    pub(crate) fn has_nothing_due(&self) -> bool
        ensures filled { IsTrue result → self.now.fill_left ≡ 0 }
        ensures none { IsTrue result → self.now.seat.me.0.theirs.due ≡ [] }
        ensures some { IsFalse result → is_empty self.now.seat.me.0.theirs.due ≡ false }
    {
        if self.fill_left != 0 {
            return false;
        }
        self.next >= self.due.len()
    }

    /// Returns whether nothing is due and every replica is scanned.
    pub(crate) fn is_idle(&self) -> bool
        ensures filled { IsTrue result → self.now.fill_left ≡ 0 }
        ensures idle { IsTrue result → (self.now.seat.me.0.theirs.due ≡ []) × (scan_done (its self.now.seat.me.0.theirs) ≡ true) }
        ensures busy { IsFalse result → is_empty self.now.seat.me.0.theirs.due && scan_done (its self.now.seat.me.0.theirs) ≡ false }
    {
        if !self.has_nothing_due() {
            return false;
        }
        self.scan_place >= self.space.end()
    }

    /// With both ends at hand: the target of one of the mutator's roots is to get a replica. The mutator has to log its writes from now on.
    pub(crate) fn want(&mut self, at: Addr)
        requires both { self.old.seat.me.0.writes ≡ true }
        requires taken { self.old.seat.me.0.mine.log ≡ [] }
        requires low { at.0 < self.old.size }
        requires allowed { MayBeCopied self.old.seat.me.0.mine.base at.0 }
        requires clear { slice_index self.old.claims.items (half at.0) ≡ 0 }
        requires filled { self.old.fill_left ≡ 0 }
        requires root { (w : ℕ) × IsRootWord self.old.seat.me.0.mine.space.words w × (value_of w ≡ Ref at.0) }
        ensures wants { self.new.seat.me.0.theirs ≡ wants at.0 self.old.seat.me.0.theirs }
        ensures wanted { (self.new.has_wanted ≡ true) × (self.new.wanted ≡ at.0) }
        ensures seat { KeepsSeat (logging self.old.seat.me) self.new.seat.me }
        ensures row { (self.new.seat.table_id ≡ self.old.seat.table_id) × (self.new.size ≡ self.old.size) }
    {
        let cells = &*self.cells;
        cells.shared.load::<Rooted>(&mut self.seat, at.0 as usize);
        self.has_wanted = true;
        self.wanted = at.0;
    }

    /// Frees the memory of the heap before the last flip, and begins the collection anew: in a new space of `size` words, with the memory that its flip
    /// takes. The collection goes on as it stands if an allocation fails.
    pub(crate) fn prepare(&mut self, alloc: Global, size: u32) -> Result<(), NoMemory>
        requires low { 1 ≤ size }
        ensures ok { OnOk result (self.new.seat.me ≡ (record self.old.seat.me.0 { theirs = begun_anew size self.old.seat.me.0.theirs }, self.old.seat.me.1)) }
        ensures err { OnErr result (self.new.seat.me ≡ self.old.seat.me) }
        ensures row { (self.new.seat.table_id ≡ self.old.seat.table_id) × (self.new.size ≡ self.old.size) }
    {
        self.former = None;
        let space = NextSpace::new(alloc, size)?;
        let spare = Spare::new(alloc, size)?;
        let reserved = self.standing.reserve(max(size, self.size));
        if reserved.is_err() {
            return Err(NoMemory);
        }
        restart(
            &self.cells,
            &mut self.seat,
            &mut self.claims,
            &mut self.standing,
            self.space.end() == 1,
            size,
        );
        self.due.clear();
        self.next = 0;
        self.fill_next = 0;
        self.fill_left = 0;
        self.scan_place = 1;
        self.scan_field = 0;
        self.has_wanted = false;
        self.space = space;
        self.spare = Some(spare);
        Ok(())
    }

    /// Takes the memory that a flip needs. Makes it if none was prepared: the new space then has one word.
    pub(crate) fn take_spare(&mut self, alloc: Global) -> Result<Spare, NoMemory>
        ensures long { IfOk result (λ spare. length spare.claims.items ≡ half self.old.space.size) }
        ensures kept { (self.new.claims ≡ self.old.claims) × (self.new.standing ≡ self.old.standing) }
        ensures same { self.new.seat.me ≡ self.old.seat.me }
        ensures space { self.new.space ≡ self.old.space }
        ensures row { (self.new.seat.table_id ≡ self.old.seat.table_id) × (self.new.size ≡ self.old.size) }
    {
        match self.spare.take() {
            Some(spare) => Ok(spare),
            None => Spare::new(alloc, self.space.size()),
        }
    }

    /// The standing checker walks on up to this end of the mutator's space.
    pub(crate) fn see(&mut self, end: u32)
        requires { end ≤ self.old.size }
        ensures same { record self.new.standing { olds = self.old.standing.olds } ≡ self.old.standing }
        ensures words { self.old.seat.me.0.writes ≡ true → end ≤ length self.old.seat.me.0.mine.space.words → end ≤ length self.new.standing.olds }
        ensures seen { self.new.seat.me ≡ seeing self.new.seat.me.0.seen self.old.seat.me }
        ensures row { (self.new.seat.table_id ≡ self.old.seat.table_id) × (self.new.size ≡ self.old.size) }
        ensures space { self.new.space ≡ self.old.space }
    {
        let cells = &*self.cells;
        walk(cells, &mut self.seat, &mut self.standing, self.size, end);
    }

    /// With both ends at hand: what holds where nothing is left to do.
    pub(crate) fn look(&mut self)
        requires both { self.old.seat.me.0.writes ≡ true }
        requires low { 1 ≤ self.old.size }
        ensures same { self.new.seat.me ≡ self.old.seat.me }
        ensures row { (self.new.seat.table_id ≡ self.old.seat.table_id) × (self.new.size ≡ self.old.size) }
        ensures space { self.new.space ≡ self.old.space }
        ensures standing { self.new.standing ≡ self.old.standing }
        ensures along { self.old.seat.me.0.mine.log ≡ [] → ∥ Follows self.new.standing self.old.seat.me.0.mine.space.words self.old.space.words ∥₁ }
        ensures knows { self.old.seat.me.0.mine.log ≡ [] → ∥ Knows self.new.standing self.old.seat.me.0.mine.space.words self.old.space.words self.old.seat.me.0.theirs ∥₁ }
        ensures told { (roots : List ℕ) → IsHeap (heap_of self.old.seat.me.0.mine roots) → HasNothingLeft roots self.old.seat.me.0 → Flips roots self.old.seat.me.0.mine self.old.seat.me.0.theirs }
    {
        let cells = &*self.cells;
        cells.shared.load::<Flipped>(&mut self.seat, 0);
    }
}
