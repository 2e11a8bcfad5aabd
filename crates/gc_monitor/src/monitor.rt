mod looking;

use crate::code_row::CodeRow;
use crate::old_row::OldRow;
use crate::origin_row::OriginRow;
use crate::origins_tell_pairs;
use crate::outline::Outline;
use crate::reader::Reader;
use crate::walking::{
    DUE, START, TAKEN, add_codes, claim_in, code_of, header_in, is_copy, link_of, next_within,
    read_word,
};
use crate::watcher::Watcher;
use gc_graph::NoMemory;
use gc_words::{Addr, Header, Value, decode_wide, field_index, half_of};
use std::alloc::Global;
use std::cmp::max;
use std::marker::Model;

/// A checker that goes along with collections. It has its own tables, and believes nobody, but that each write is told.
#[derive(Debug, Drop)]
pub struct Monitor {
    /// By old place, as far as the old space is walked: 0, `START` or `TAKEN`.
    olds: OldRow,
    /// By new place, as far as the new space is walked: 0, `START` or `DUE`.
    news: CodeRow,
    /// By new place: the original of the replica that starts here, or 0.
    origins: OriginRow,
    /// The number of places that are due.
    missing: usize,
    /// The number of words of a space for which there is room.
    room: u32,
    /// Something was not as it was told: no flip passes, and nothing more is noted.
    lost: bool,
}

impl Model for Monitor {
    ghost use Rattle.std.specs.Prelude.{◌⊎◌, ◌≤◌, IsTrue};
    ghost use Rattle.gc_monitor.specs.Tables.{Tables};
    ghost use Rattle.gc_monitor.specs.Internal.Tables.{IsLostOrAgrees};

    ghost Value = { Tables };

    ghost view = { λ s. record {
      olds = s.olds.codes;
      news = s.news.codes;
      origins = s.origins.origins;
      missing = s.missing;
      room = s.room;
      lost = s.lost;
    } };

    ghost invariant = { λ s. (IsTrue s.lost ⊎ (1 ≤ s.room)) × (s.room ≤ 4294967295) × (s.room ≤ s.olds.room) × (s.room ≤ s.news.room) × (s.room ≤ s.origins.room)
        × IsLostOrAgrees (record { olds = s.olds.codes; news = s.news.codes; origins = s.origins.origins; missing = s.missing; room = s.room; lost = s.lost }) };
}

impl Monitor {
    ghost use Rattle.std.specs.Prelude.{◌≡◌, ◌<◌, ◌≤◌, ◌==◌, ◌%◌, ◌^◌, ◌↔◌, ◌∷◌, ◌++◌, ◌+◌, ◌-◌, Some, [], ℕ, true, false, not, IsTrue, IsFalse, ◌⊎◌, IfOk, IfNone, IfSome, OnOk, OnErr, MatchOption, length, slice_index, slice_index_or};
    ghost use Rattle.gc_graph.specs.Correspond.{paired};
    ghost use Rattle.gc_words.specs.Word.{words_correspond, field_words_correspond};
    ghost use Rattle.gc_words.specs.declared.header.Header.{Header};
    ghost use Rattle.gc_words.specs.Layout.{fields_place, link_place};
    ghost use Rattle.gc_monitor.specs.Origins.{pairs_in};
    ghost use Rattle.gc_monitor.specs.Outline.{outline_in};
    ghost use Rattle.gc_monitor.specs.Watch.{RootsCorrespond};
    ghost use Rattle.gc_monitor.specs.Tables.{RowsAgree};
    ghost use Rattle.gc_monitor.specs.Telling.{IsMark};
    ghost use Rattle.gc_monitor.specs.Events.{Made, Saw, StandsThere, Placed, PlacedBy, Wrote, WroteRow, Applied, Freed, HasNoReplica, IsCopy, object_codes, absent_tables, opening_tables, flipped_tables, replica_added, with_due};
    ghost use Rattle.gc_monitor.specs.Internal.Rows.{with_due_row};
    ghost use Rattle.gc_monitor.specs.Runs.{PlacedAll, CanPlaceAll};
    ghost use Rattle.gc_graph.specs.Graph.{Ref};
    ghost use Rattle.gc_words.specs.Word.{read_header, read_value};
    ghost use Rattle.gc_monitor.specs.Tables.{Tables};
    ghost use Rattle.gc_monitor.specs.Claims.{Accepts, CanApply, CanMake, CanSee, FitsBehind, CanPlaceNext, CanWrite, CanWriteAt, CanWriteRow, HasSeenBoth, IsUntaken, IsLinked, OwesNone};

    /// Returns a checker for spaces of up to `size` words, at least 1.
    pub fn new(alloc: Global, size: u32) -> Result<Monitor, NoMemory>
        requires { 1 ≤ size }
        ensures { IfOk result (λ standing. standing ≡ opening_tables size) }
    {
        let olds = OldRow::new(alloc, size)?;
        let news = CodeRow::new(alloc, size)?;
        let origins = OriginRow::new(alloc, size)?;
        Ok(Monitor {
            olds,
            news,
            origins,
            missing: 0,
            room: size,
            lost: false,
        })
    }

    /// Returns a checker without tables, which is lost and stays so: it never accepts. Does not allocate.
    pub fn absent(alloc: Global) -> Monitor
        ensures { result ≡ absent_tables }
    {
        Monitor {
            olds: OldRow::absent(alloc),
            news: CodeRow::absent(alloc),
            origins: OriginRow::absent(alloc),
            missing: 0,
            room: 0,
            lost: true,
        }
    }

    /// Makes room for spaces of `size` words, unless the checker is absent. If memory is refused, all stays as it is.
    pub fn reserve(&mut self, size: u32) -> Result<(), NoMemory>
        ensures tables { self.new ≡ record self.old { room = self.new.room } }
        ensures room { OnOk result ((self.old.room ≡ 0) ⊎ (size ≤ self.new.room)) }
        ensures refused { OnErr result (self.new ≡ self.old) }
    {
        if self.room == 0 || size <= self.room {
            return Ok(());
        }
        self.olds.reserve(size)?;
        self.news.reserve(size)?;
        self.origins.reserve(size)?;
        self.room = size;
        Ok(())
    }

    /// Writes to all memory of the tables once, so that no later event meets a page for the first time.
    pub fn touch(&mut self)
        ensures { self.new ≡ self.old }
    {
        self.olds.touch();
        self.news.touch();
        self.origins.touch();
    }

    /// The walk over the old space goes on by one object, if there is one.
    #[inline(always)]
    pub fn made(&mut self, old: &[u64])
        ensures lost { IsTrue self.old.lost → IsTrue self.new.lost }
        ensures made { IsFalse self.new.lost → Made old.now self.old self.new }
        ensures stays { IsFalse self.old.lost → CanMake old.now self.old → IsFalse self.new.lost }
    {
        let _ = self.walk(old, &mut ());
    }

    /// The walk over the old space goes on by the object whose header word is read next, if there is one. Returns whether it went on.
    #[inline(always)]
    pub fn walk<R: Reader>(&mut self, old: R, seat: &mut R::Seat) -> bool
        requires can { length self.old.olds < R.count old → R.can_read old seat.old (length self.old.olds) }
        ensures lost { IsTrue self.old.lost → IsTrue self.new.lost }
        ensures found { IsTrue result → IsFalse self.new.lost }
        ensures went { IsTrue result → (word : ℕ) × R.reads old seat.old (length self.old.olds) word seat.new × Saw word self.old self.new }
        ensures within { IsTrue result → length self.new.olds ≤ R.count old }
        ensures stands { IsFalse result → IsFalse self.new.lost → (self.new ≡ self.old) × StandsThere R.count R.ends R.reads old seat.old (length self.old.olds) seat.new }
        ensures stays { IsFalse self.old.lost → ((word : ℕ) → length self.old.olds < R.count old → R.reads old seat.old (length self.old.olds) word seat.new → (R.ends old word → ⊥)
            → CanSee word (R.count old) self.old)
            → IsFalse self.new.lost }
    {
        if self.lost {
            return false;
        }
        let at = self.olds.len();
        let end = old.len();
        if at >= end {
            return false;
        }
        let word = old.word(seat, at);
        if old.is_end(word) {
            return false;
        }
        let Some(header) = header_in(word, end - at) else {
            self.lost = true;
            return false;
        };
        self.see(header.len(), at + (usize::from(header.len()) + 2))
    }

    // The walk over the old space goes on by an object with so many fields, which ends here, if there is room for its codes. Returns whether there is.
    #[inline(always)]
    fn see(&mut self, len: u16, end: usize) -> bool
        requires found { IsFalse self.old.lost }
        requires end { end ≡ length self.old.olds + (len + 2) }
        ensures found { IsTrue result → IsFalse self.new.lost }
        ensures lost { IsFalse result → IsTrue self.new.lost }
        ensures made { IsTrue result → (end ≤ 4294967295) × (self.new ≡ record self.old { olds = self.old.olds ++ object_codes len 0 }) }
        ensures stays { end ≤ self.old.room → IsTrue result }
    {
        if !self.olds.covers(end) {
            return self.made_behind(len, end);
        }
        let fields = usize::from(len);
        self.olds.add(fields + 1);
        true
    }

    // The same where the codes may need further words.
    #[cold]
    #[inline(never)]
    fn made_behind(&mut self, len: u16, end: usize) -> bool
        requires found { IsFalse self.old.lost }
        requires end { end ≡ length self.old.olds + (len + 2) }
        ensures found { IsTrue result → IsFalse self.new.lost }
        ensures lost { IsFalse result → IsTrue self.new.lost }
        ensures made { IsTrue result → (end ≤ 4294967295) × (self.new ≡ record self.old { olds = self.old.olds ++ object_codes len 0 }) }
        ensures stays { end ≤ self.old.room → IsTrue result }
    {
        if end > self.room as usize {
            self.lost = true;
            return false;
        }
        self.olds.add(usize::from(len) + 1);
        true
    }

    /// The walk over the new space goes on by one object, if there is one: the replica of the object that its link claims.
    #[inline(always)]
    pub fn placed(&mut self, old: &[u64], new: &[u64])
        ensures lost { IsTrue self.old.lost → IsTrue self.new.lost }
        ensures placed { IsFalse self.new.lost → Placed old.now new.now self.old self.new }
        ensures copied { IsFalse self.new.lost → OwesNone old.now new.now self.old self.new }
        ensures stays { IsFalse self.old.lost → CanPlaceNext old.now new.now self.old → IsFalse self.new.lost }
    {
        if self.lost {
            return;
        }
        if self.news.len() >= new.len() {
            return;
        }
        let _ = self.place_next(old, new);
    }

    /// The walk over the new space goes on to its end, replica by replica, each of which is that of the object that its link claims.
    #[inline(never)]
    pub fn placed_all(&mut self, old: &[u64], new: &[u64])
        ensures lost { IsTrue self.old.lost → IsTrue self.new.lost }
        ensures placed { IsFalse self.new.lost → PlacedAll old.now new.now self.old self.new }
        ensures stays { IsFalse self.old.lost → CanPlaceAll old.now new.now self.old → IsFalse self.new.lost }
    {
        if self.lost {
            return;
        }
        while self.news.len() < new.len() {
            if !self.place_next(old, new) {
                return;
            }
        }
    }

    // The walk over the new space goes on by the next object. Returns whether nothing is lost.
    #[inline(always)]
    fn place_next(&mut self, old: &[u64], new: &[u64]) -> bool
        requires found { IsFalse self.old.lost }
        requires more { length self.old.news < length new.now }
        ensures found { IsTrue result → IsFalse self.new.lost }
        ensures lost { IsFalse result → IsTrue self.new.lost }
        ensures placed { IsFalse self.new.lost → Placed old.now new.now self.old self.new }
        ensures copied { IsFalse self.new.lost → OwesNone old.now new.now self.old self.new }
        ensures stays { CanPlaceNext old.now new.now self.old → IsFalse self.new.lost }
    {
        let at = self.news.len();
        let Some(header) = self.with_room(next_within(new, at)) else {
            self.lost = true;
            return false;
        };
        let Some(original) = claim_in(new[at + 1]) else {
            self.lost = true;
            return false;
        };
        if original as usize >= old.len() || !self.takes(old, &mut (), new[at], original) {
            self.lost = true;
            return false;
        }
        if header.is_raw() {
            let _ = self.add_raw(old, new, header, original, at);
            return true;
        }
        self.add_replica(header, original, true);
        true
    }

    /// The walk over the new space goes on by a replica with this header word, which is said to be that of the object at `claim`, whose header word
    /// is read. The fields of the replica are due, also if it is raw.
    #[inline(always)]
    pub fn place_through<R: Reader>(&mut self, old: R, seat: &mut R::Seat, word: u64, claim: u32)
        requires within { claim < R.count old }
        requires can { R.can_read old seat.old claim }
        ensures lost { IsTrue self.old.lost → IsTrue self.new.lost }
        ensures placed { IsFalse self.new.lost → PlacedBy word claim self.old self.new }
        ensures read { IsFalse self.new.lost → R.reads old seat.old claim word seat.new }
        ensures stays { IsFalse self.old.lost → FitsBehind word self.old
            → ((found : ℕ) → R.reads old seat.old claim found seat.new → (found ≡ word) × IsUntaken claim self.old) → IsFalse self.new.lost }
    {
        if self.lost {
            return;
        }
        let Some(header) = self.with_room(read_word(word)) else {
            self.lost = true;
            return;
        };
        if !self.takes(old, seat, word, claim) {
            self.lost = true;
            return;
        }
        self.add_replica(header, claim, true);
    }

    // The same header, if there is room for the codes of a replica that has it.
    #[inline(always)]
    fn with_room(&self, header: Option<Header>) -> Option<Header>
        requires found { IsFalse self.now.lost }
        ensures some { IfSome result (λ h. (header ≡ Some h) × (length self.now.news + (h.len + 2) ≤ self.now.room)) }
        ensures none { IfNone result ((h : Header) → header ≡ Some h → length self.now.news + (h.len + 2) ≤ self.now.room → ⊥) }
    {
        let header = header?;
        if self.news.len() + (usize::from(header.len()) + 2) > self.room as usize {
            return None;
        }
        Some(header)
    }

    // Whether the object at `claim` has this header word, as it is read, was seen, and has no replica yet.
    #[inline(always)]
    fn takes<R: Reader>(&self, old: R, seat: &mut R::Seat, word: u64, claim: u32) -> bool
        requires within { claim < R.count old }
        requires can { R.can_read old seat.old claim }
        ensures free { IsTrue result → IsUntaken claim self.now }
        ensures read { IsTrue result → R.reads old seat.old claim word seat.new }
        ensures none { IsFalse result → ((found : ℕ) → R.reads old seat.old claim found seat.new
            → (found ≡ word) × IsUntaken claim self.now) → ⊥ }
    {
        let from = claim as usize;
        if old.word(seat, from) != word {
            return false;
        }
        if from == 0 || from >= self.olds.len() {
            return false;
        }
        self.olds.get(from) == START
    }

    // The tables have a raw replica more, which starts at `at`. Returns whether it is a copy of its original, whose fields are not due.
    #[inline(never)]
    fn add_raw(
        &mut self,
        old: &[u64],
        new: &[u64],
        header: Header,
        original: u32,
        at: usize,
    ) -> bool
        requires found { IsFalse self.old.lost }
        requires original { slice_index_or self.old.olds original 0 ≡ 1 }
        requires low { 1 ≤ original }
        requires room { length self.old.news + (header.len + 2) ≤ self.old.room }
        requires within { at + (header.len + 2) ≤ length new.now }
        ensures added { self.new ≡ replica_added self.old header original (not result) }
        ensures copy { IsTrue result → IsCopy old.now new.now header original at }
        ensures whole { IsCopy old.now new.now header original at → fields_place original + header.len ≤ length old.now → IsTrue result }
    {
        let copied = is_copy(header, old, new, original, at);
        self.add_replica(header, original, !copied);
        copied
    }

    // The tables have a replica with this header more, whose fields are due or not.
    #[inline(always)]
    fn add_replica(&mut self, header: Header, original: u32, due: bool)
        requires found { IsFalse self.old.lost }
        requires original { slice_index_or self.old.olds original 0 ≡ 1 }
        requires low { 1 ≤ original }
        requires room { length self.old.news + (header.len + 2) ≤ self.old.room }
        ensures { self.new ≡ replica_added self.old header original due }
    {
        self.olds.take(original as usize);
        self.origins.add(header.len(), original);
        add_codes(&mut self.news, header.len(), due);
        self.missing += due_words(header.len(), due);
    }

    /// Compares field `i` of the replica of the object at `a`, if it has one; its link is the claim.
    #[inline(never)]
    pub fn applied(&mut self, old: &[u64], new: &[u64], a: u32, i: u16)
        ensures lost { IsTrue self.old.lost → IsTrue self.new.lost }
        ensures applied { IsFalse self.new.lost → Applied old.now new.now a i self.old self.new }
        ensures stays { IsFalse self.old.lost → CanApply old.now new.now a i self.old → IsFalse self.new.lost }
    {
        if self.lost {
            return;
        }
        match self.replica(old, a) {
            Some(at) => self.look(old, new, at, i),
            None => self.lose_taken(a),
        }
    }

    // The link of the object at `a` leads to no replica. If one was seen, something is not as it was told.
    #[inline(never)]
    fn lose_taken(&mut self, a: u32)
        requires found { IsFalse self.old.lost }
        ensures none { IsFalse self.new.lost → HasNoReplica self.old a × (self.new ≡ self.old) }
        ensures stays { (slice_index_or self.old.olds a 0 ≡ 2 → ⊥) → IsFalse self.new.lost }
    {
        if self.is_taken(a) {
            self.lost = true;
        }
    }

    /// Field `i` of the object at `a` was written: it is due in its replica, if it has one.
    #[inline(always)]
    pub fn written(&mut self, old: &[u64], a: u32, i: u16)
        ensures lost { IsTrue self.old.lost → IsTrue self.new.lost }
        ensures wrote { IsFalse self.new.lost → Wrote a i self.old self.new }
        ensures stays { IsFalse self.old.lost → CanWrite old.now a i self.old → IsFalse self.new.lost }
    {
        if self.lost {
            return;
        }
        if !self.may_be_taken(a) {
            return;
        }
        match link_of(old, a) {
            Some(claim) => self.write(a, i, claim),
            None => self.lose_taken(a),
        }
    }

    /// The same where the caller says where the object's replica is, if it has one.
    pub fn wrote(&mut self, a: u32, i: u16, claim: u32)
        ensures lost { IsTrue self.old.lost → IsTrue self.new.lost }
        ensures wrote { IsFalse self.new.lost → Wrote a i self.old self.new }
        ensures stays { IsFalse self.old.lost → CanWriteAt a i claim self.old → IsFalse self.new.lost }
    {
        if self.lost {
            return;
        }
        if !self.may_be_taken(a) {
            return;
        }
        self.write(a, i, claim);
    }

    // Field `i` of the object at `a` is due in its replica, if it has one, which is said to be at `claim`.
    #[inline(always)]
    fn write(&mut self, a: u32, i: u16, claim: u32)
        requires found { IsFalse self.old.lost }
        ensures wrote { IsFalse self.new.lost → Wrote a i self.old self.new }
        ensures stays { CanWriteAt a i claim self.old → IsFalse self.new.lost }
    {
        let _ = &self.olds;
        if !self.is_replica(a, claim) {
            self.lose_taken(a);
            return;
        }
        self.set_written(field_index(Addr(claim), i));
    }

    /// So many fields of the object at `a`, from field `first` on, were written: they are due in its replica, if it has one. The replica
    /// is found once.
    #[tactic(auto, using(crate::proofs::RowsDue::unwritten, crate::proofs::RowsDue::wrote_row))]
    pub fn written_row(&mut self, old: &[u64], a: u32, first: u16, count: usize)
        requires { first + count ≤ 65536 }
        ensures lost { IsTrue self.old.lost → IsTrue self.new.lost }
        ensures wrote { IsFalse self.new.lost → WroteRow a first count self.old self.new }
        ensures stays { IsFalse self.old.lost → CanWriteRow old.now a first count self.old → IsFalse self.new.lost }
    {
        if self.lost || count == 0 {
            return;
        }
        if !self.may_be_taken(a) {
            return;
        }
        match self.replica(old, a) {
            Some(at) => self.set_row(field_index(Addr(at), first), count),
            None => self.lose_taken(a),
        }
    }

    // Takes so many places from this one on for due, if there are such places.
    fn set_row(&mut self, place: usize, count: usize)
        requires found { IsFalse self.old.lost }
        requires few { place + count ≤ 4295098367 }
        ensures wrote { IsFalse self.new.lost → (place + count ≤ length self.old.news) × (self.new ≡ with_due_row true self.old place count) }
        ensures stays { place + count ≤ length self.old.news → IsFalse self.new.lost }
    {
        if place + count > self.news.len() {
            self.lost = true;
            return;
        }
        let dues = self.news.count_from(place, count);
        self.news.set_from(place, count, true);
        self.missing += count - dues;
    }

    // Takes this place for due, if there is such a place.
    #[inline(always)]
    fn set_written(&mut self, place: usize)
        requires { IsFalse self.old.lost }
        ensures wrote { IsFalse self.new.lost → (place < length self.old.news) × (self.new ≡ with_due self.old place true) }
        ensures stays { place < length self.old.news → IsFalse self.new.lost }
    {
        if place >= self.news.len() {
            self.lost = true;
            return;
        }
        self.set_due(place, true);
    }

    // Returns false only if the object at `a` has no replica. Its code may be of a collection that was given up.
    #[inline(always)]
    #[tactic(auto, using(crate::proofs::RowsAgree::untaken))]
    fn may_be_taken(&self, a: u32) -> bool
        ensures none { IsFalse self.now.lost → IsFalse result → HasNoReplica self.now a }
        ensures other { IsFalse result → slice_index_or self.now.olds a 0 ≡ 2 → ⊥ }
    {
        let from = a as usize;
        from < self.olds.len() && self.olds.may_be_taken(from)
    }

    // Whether the object at `a` has a replica.
    #[inline(always)]
    #[tactic(auto, using(crate::proofs::RowsAgree::untaken))]
    fn is_taken(&self, a: u32) -> bool
        ensures taken { result ≡ (slice_index_or self.now.olds a 0 == 2) }
        ensures none { IsFalse self.now.lost → IsFalse result → HasNoReplica self.now a }
    {
        let from = a as usize;
        from < self.olds.len() && self.olds.get(from) == TAKEN
    }

    /// Returns whether the row of the old space has the mark of a start at `a`. Takes constant time.
    pub fn starts_at(&self, a: u32) -> bool
        ensures { IsTrue result ↔ IsMark (slice_index_or self.now.olds a 0) }
    {
        let from = a as usize;
        if from >= self.olds.len() {
            return false;
        }
        let code = self.olds.get(from);
        code == START || code == TAKEN
    }

    // The replica of the object at `a`, if the low 32 bits of its link tell it.
    #[inline(always)]
    fn replica(&self, old: &[u64], a: u32) -> Option<u32>
        ensures claim { MatchOption result ((b : ℕ) → IsLinked old.now self.now a b → ⊥) (λ b. (1 ≤ a) × (slice_index_or self.now.origins b 0 ≡ a)) }
        ensures link { IfSome result (λ b. slice_index old.now (link_place a) % 2 ^ 32 ≡ b) }
    {
        let at = link_of(old, a)?;
        if !self.is_replica(a, at) {
            return None;
        }
        Some(at)
    }

    // Whether the replica at `at` is that of the object at `a`.
    #[inline(always)]
    fn is_replica(&self, a: u32, at: u32) -> bool
        ensures { IsTrue result ↔ (1 ≤ a) × (slice_index_or self.now.origins at 0 ≡ a) }
    {
        a != 0 && self.origin_at(at) == a
    }

    /// Returns the number of words of the old space over which the walk has come.
    pub fn seen(&self) -> usize
        ensures { result ≡ length self.now.olds }
    {
        self.olds.len()
    }

    /// Something is not as it was told: no flip passes from now on.
    pub fn lose(&mut self)
        ensures { IsTrue self.new.lost }
    {
        self.lost = true;
    }

    #[inline(always)]
    fn set_due(&mut self, place: usize, due: bool)
        requires found { IsFalse self.old.lost }
        requires within { place < length self.old.news }
        ensures { self.new ≡ with_due self.old place due }
    {
        if self.news.get(place) == code_of(due) {
            return;
        }
        let was = self.news.replace(place, code_of(due)) == DUE;
        self.missing = recounted(self.missing, was, due);
    }

    // Whether the words are fields that stand for each other, of objects with this header. The words of raw objects have to be
    // equal, even if they look like a pair's addresses.
    #[inline(always)]
    fn is_alike(&self, header: Header, old: u64, new: u64) -> bool
        ensures { result ≡ field_words_correspond header (pairs_in self.now.origins) old new }
    {
        if header.is_raw() {
            return old == new;
        }
        self.is_correspondence(old, new)
    }

    // Whether the words are values that stand for each other. Nil, a number, and a reference to an object where the other word refers to its replica
    // need no full decoding.
    #[inline(always)]
    fn is_correspondence(&self, old: u64, new: u64) -> bool
        ensures { result ≡ words_correspond (pairs_in self.now.origins) old new }
    {
        if let Some(address) = reference_in(old) {
            if self.refers_to_replica(new, address) {
                return true;
            }
        } else if is_plain(old) {
            return old == new;
        }
        self.is_other_correspondence(old, new)
    }

    // Whether the word refers to the replica of this object.
    #[inline(always)]
    fn refers_to_replica(&self, word: u64, original: Addr) -> bool
        requires { 1 ≤ original.0 }
        ensures { IsTrue result → (b : ℕ) × (read_value word ≡ Some (Ref b)) × IsTrue (paired (pairs_in self.now.origins) original.0 b) }
    {
        origins_tell_pairs();
        self.origins.get(half_of(word) as usize) == original.0
    }

    // Decodes both words, whatever they are, and returns whether they stand for each other.
    #[inline(never)]
    fn is_other_correspondence(&self, old: u64, new: u64) -> bool
        ensures { result ≡ words_correspond (pairs_in self.now.origins) old new }
    {
        let Some(old) = decode_wide(old) else {
            return false;
        };
        let Some(new) = decode_wide(new) else {
            return false;
        };
        match old {
            Value::Nil => matches!(new, Value::Nil),
            Value::Num(number) => match new {
                Value::Num(other) => number == other,
                _ => false,
            },
            Value::Ref(address) => match new {
                Value::Ref(other) => self.is_partner(address, other),
                _ => false,
            },
        }
    }

    // Whether the addresses are a pair.
    #[inline(always)]
    fn is_partner(&self, old: Addr, new: Addr) -> bool
        requires { 1 ≤ old.0 }
        ensures { result ≡ paired (pairs_in self.now.origins) old.0 new.0 }
    {
        origins_tell_pairs();
        self.origin_at(new.0) == old.0
    }

    // The original of the replica that starts here, or 0.
    #[inline(always)]
    fn origin_at(&self, at: u32) -> u32
        ensures { result ≡ slice_index_or self.now.origins at 0 }
    {
        self.origins.get(at as usize)
    }

    // Whether the roots correspond, place by place. Past the longer of the two rows of first roots, all roots of both outlines are nil.
    fn roots_correspond(&self, old: Outline, new: Outline) -> bool
        ensures { IsTrue result ↔ RootsCorrespond (pairs_in self.now.origins) (outline_in old.entry).roots (outline_in new.entry).roots }
    {
        if old.count_roots() != new.count_roots() {
            return false;
        }
        for i in 0..max(old.roots.len(), new.roots.len()) {
            if !self.is_correspondence(old.root_at(i), new.root_at(i)) {
                return false;
            }
        }
        true
    }

    /// Returns whether these root words stand for each other.
    #[inline(always)]
    pub fn roots_are_alike(&self, old: u64, new: u64) -> bool
        ensures { result ≡ words_correspond (pairs_in self.now.origins) old new }
    {
        self.is_correspondence(old, new)
    }

    /// Returns whether all is seen and compared, and the roots correspond.
    pub fn says_yes(&self, old: Outline, new: Outline) -> bool
        ensures exact { IsTrue result ↔ Accepts self.now (outline_in old.entry) (outline_in new.entry) }
        ensures agree { IsTrue result → RowsAgree self.now }
    {
        self.has_seen_all(old, new) && self.roots_correspond(old, new)
    }

    /// Returns whether all is seen and compared but the roots, which it does not read.
    pub fn has_seen_all(&self, old: Outline, new: Outline) -> bool
        ensures exact { IsTrue result ↔ HasSeenBoth self.now (outline_in old.entry) (outline_in new.entry) }
        ensures agree { IsTrue result → RowsAgree self.now }
    {
        if self.lost {
            return false;
        }
        if self.missing != 0 {
            return false;
        }
        if self.olds.len() != old.count {
            return false;
        }
        if self.news.len() != new.count {
            return false;
        }
        if !is_sized(old) {
            return false;
        }
        is_sized(new)
    }

    /// The new space is the old one from now on, and the next new one is empty.
    pub fn flipped(&mut self)
        ensures lost { IsTrue self.old.lost → IsTrue self.new.lost }
        ensures flipped { IsFalse self.new.lost → self.new ≡ flipped_tables self.old }
        ensures stays { IsFalse self.old.lost → IsFalse self.new.lost }
    {
        if self.lost {
            return;
        }
        self.olds.exchange(&mut self.news);
        self.news.restart();
        self.origins.restart();
        self.missing = 0;
    }

    /// The new space is given up.
    pub fn dropped(&mut self)
        ensures lost { IsTrue self.old.lost → IsTrue self.new.lost }
        ensures freed { IsFalse self.new.lost → Freed self.old self.new }
        ensures stays { IsFalse self.old.lost → IsFalse self.new.lost }
    {
        if self.lost {
            return;
        }
        self.olds.release();
        self.news.restart();
        self.origins.restart();
        self.missing = 0;
    }
}

impl Watcher for Monitor {
    ghost use Rattle.gc_monitor.specs.Tables.{RowsAgree};
    ghost use Rattle.gc_monitor.specs.Claims.{Accepts};

    ghost accepted = { λ t old new. RowsAgree t × Accepts t old new };

    ghost sure = { Accepts };

    fn accepts(&self, old: Outline, new: Outline) -> bool {
        self.says_yes(old, new)
    }
}

ghost use Rattle.std.specs.Prelude.{◌≡◌, ◌⊎◌, ◌↔◌, ◌==◌, ◌≤◌, ◌+◌, ◌*◌, ◌/◌, ◌%◌, ◌^◌, ℕ, List, true, IsTrue, IfSome, Some, if◌then◌else◌, length, slice_index_or};
ghost use Rattle.gc_graph.specs.Graph.{Ref};
ghost use Rattle.gc_words.specs.Word.{read_value, words_correspond};
ghost use Rattle.gc_monitor.specs.Outline.{outline_in};
ghost use Rattle.gc_monitor.specs.Watch.{IsSized};
ghost use Rattle.gc_monitor.specs.Internal.Watch.{bit};

// Whether the word is nil or a number. Such a word stands for the same word and no other.
#[inline(always)]
#[tactic(auto, using(crate::proofs::Plain::nil_alone, crate::proofs::Plain::number_alone))]
fn is_plain(word: u64) -> bool
    ensures { IsTrue result → (pairs : List (ℕ × ℕ)) (other : ℕ) → words_correspond pairs word other ≡ (word == other) }
{
    word == 0 || word % 2 == 1
}

// The address that the word refers to, if it is a reference.
#[inline(always)]
fn reference_in(word: u64) -> Option<Addr>
    ensures { IfSome result (λ a. (read_value word ≡ Some (Ref a.0)) × (1 ≤ a.0)) }
{
    let half = half_of(word);
    if half == 0 || half >= u64::from(u32::MAX) {
        return None;
    }
    Some(Addr(half as u32))
}

// Whether the numbers of an image fit the number of its words.
fn is_sized(outline: Outline) -> bool
    ensures { IsTrue result ↔ IsSized (outline_in outline.entry) }
{
    outline.raws
        && 1 <= outline.end
        && outline.end <= outline.size
        && outline.count == outline.end as usize
}

// The count of due places after one that was due or not is due or not.
#[inline(always)]
fn recounted(missing: usize, was: bool, due: bool) -> usize
    requires few { missing ≤ 4294967295 }
    requires some { bit was ≤ missing }
    ensures { result + bit was ≡ missing + bit due }
{
    let added = if due { 1 } else { 0 };
    let taken = if was { 1 } else { 0 };
    missing + added - taken
}

// How many words of a new replica with `len` fields are due.
#[inline(always)]
fn due_words(len: u16, due: bool) -> usize
    ensures { result ≡ (if due then len else 0) }
{
    if due { usize::from(len) } else { 0 }
}
