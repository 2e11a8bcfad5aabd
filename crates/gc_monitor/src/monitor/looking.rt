//! Fields of replicas, compared with those of their originals as they are now.
use super::Monitor;
use crate::reader::Reader;
use crate::walking::{header_at, read_word};
use gc_words::{Addr, Header, field_index};

/// A field of a replica: the header and the original of the replica, and the place of the field in the new space.
#[derive(Clone, Copy)]
pub(super) struct Field {
    pub(super) header: Header,
    pub(super) original: u32,
    pub(super) place: usize,
}

impl Monitor {
    ghost use Rattle.std.specs.Prelude.{◌≡◌, ◌<◌, ◌≤◌, ◌+◌, ◌-◌, Some, ℕ, List, false, not, IsTrue, IsFalse, IfNone, IfSome, MatchOption, length, slice_index, slice_index_or};
    ghost use Rattle.gc_words.specs.Word.{field_words_correspond, read_header};
    ghost use Rattle.gc_words.specs.declared.header.Header.{Header};
    ghost use Rattle.gc_words.specs.Layout.{field_place};
    ghost use Rattle.gc_monitor.specs.Origins.{pairs_in};
    ghost use Rattle.gc_monitor.specs.Events.{Looked, IsFieldOf, with_due};
    ghost use Rattle.gc_monitor.specs.Internal.Rows.{with_due_row};
    ghost use Rattle.gc_monitor.specs.Runs.{LookedAll, CanLookAll};
    ghost use Rattle.gc_monitor.specs.Internal.Runs.{LooksTo};
    ghost use Rattle.gc_monitor.specs.Tables.{Tables};
    ghost use Rattle.gc_monitor.specs.Claims.{CanLook, IsPassedField, ShowsField};

    /// Compares field `i` of the replica at `at` as it is now.
    #[inline(always)]
    pub fn look(&mut self, old: &[u64], new: &[u64], at: u32, i: u16)
        ensures lost { IsTrue self.old.lost → IsTrue self.new.lost }
        ensures looked { IsFalse self.new.lost → Looked old.now new.now at i self.old self.new }
        ensures stays { IsFalse self.old.lost → CanLook old.now new.now at i self.old → IsFalse self.new.lost }
    {
        if self.lost {
            return;
        }
        // Where the new space has the place of the field, it has the replica's header too.
        let place = field_index(Addr(at), i);
        if place >= new.len() {
            self.lost = true;
            return;
        }
        self.look_through(old, &mut (), at, i, new[at as usize], new[place]);
    }

    /// Compares field `i` of the replica at `at`, which has this header word and this word in the field, with its original's as it is read.
    #[inline(always)]
    pub fn look_through<R: Reader>(
        &mut self,
        old: R,
        seat: &mut R::Seat,
        at: u32,
        i: u16,
        word: u64,
        new: u64,
    )
        requires can { IsPassedField word self.old at i → R.can_read old seat.old (field_place (slice_index_or self.old.origins at 0) i) }
        ensures lost { IsTrue self.old.lost → IsTrue self.new.lost }
        ensures within { IsFalse self.new.lost → field_place (slice_index_or self.old.origins at 0) i < R.count old }
        ensures looked { IsFalse self.new.lost → (v : ℕ) × R.reads old seat.old (field_place (slice_index_or self.old.origins at 0) i) v seat.new
            × ((olds news : List ℕ) → ShowsField olds news self.old at i word v new → Looked olds news at i self.old self.new) }
        ensures stays { IsFalse self.old.lost → IsPassedField word self.old at i → field_place (slice_index_or self.old.origins at 0) i < R.count old → IsFalse self.new.lost }
    {
        if self.lost {
            return;
        }
        let Some(field) = self.field_of(word, at, i) else {
            self.lost = true;
            return;
        };
        let from = field_index(Addr(field.original), i);
        if from >= old.len() {
            self.lost = true;
            return;
        }
        let other = old.word(seat, from);
        self.compare(field, other, new);
    }

    // The field is due exactly if these words, its original's and its own, do not stand for each other.
    #[inline(always)]
    fn compare(&mut self, field: Field, old: u64, new: u64)
        requires found { IsFalse self.old.lost }
        requires within { field.place < length self.old.news }
        ensures { self.new ≡ with_due self.old field.place (not (field_words_correspond field.header (pairs_in self.old.origins) old new)) }
    {
        if self.is_alike(field.header, old, new) {
            self.set_due(field.place, false);
        } else {
            self.set_due(field.place, true);
        }
    }

    // Field `i` of the replica at `at`, whose header word this is, if there is such a field.
    #[inline(always)]
    pub(super) fn field_of(&self, word: u64, at: u32, i: u16) -> Option<Field>
        ensures some { IfSome result (λ f. (read_header word ≡ Some f.header) × (i < f.header.len) × (slice_index_or self.now.origins at 0 ≡ f.original) × (1 ≤ f.original)
            × (f.place ≡ field_place at i) × (f.place < length self.now.news)) }
        ensures none { IfNone result (IsPassedField word self.now at i → ⊥) }
    {
        let original = self.origins.get(at as usize);
        if original == 0 {
            return None;
        }
        let header = read_word(word)?;
        if i >= header.len() {
            return None;
        }
        let place = field_index(Addr(at), i);
        if place >= self.news.len() {
            return None;
        }
        Some(Field {
            header,
            original,
            place,
        })
    }

    /// Compares the fields from field `i` of the replica at `at` on, up to field `end` of the replica at `to`, as they are now.
    #[inline(never)]
    pub fn look_all(&mut self, old: &[u64], new: &[u64], at: u32, i: u16, to: u32, end: u16)
        ensures lost { IsTrue self.old.lost → IsTrue self.new.lost }
        ensures looked { IsFalse self.new.lost → LookedAll old.now new.now at i to end self.old self.new }
        ensures stays { IsFalse self.old.lost → CanLookAll old.now new.now at i to end self.old → IsFalse self.new.lost }
    {
        if self.lost {
            return;
        }
        let mut place = at;
        let mut field = i;
        while place < to {
            let Some(header) = header_at(new, place) else {
                self.lost = true;
                return;
            };
            if !self.look_rest(old, new, header, place, field) {
                return;
            }
            if u32::from(header.len()) + 2 > to - place {
                self.lost = true;
                return;
            }
            place += u32::from(header.len()) + 2;
            field = 0;
        }
        if place != to || field > end {
            self.lost = true;
            return;
        }
        if field < end {
            self.look_last(old, new, to, field, end);
        }
    }

    // Compares the fields from `first` on of the replica at `at`, which has this header, unless it is raw. Returns whether nothing is lost.
    #[inline(always)]
    fn look_rest(&mut self, old: &[u64], new: &[u64], header: Header, at: u32, first: u16) -> bool
        requires found { IsFalse self.old.lost }
        requires within { at < length new.now }
        requires header { read_header (slice_index new.now at) ≡ Some header }
        ensures found { IsTrue result → IsFalse self.new.lost }
        ensures lost { IsFalse result → IsTrue self.new.lost }
        ensures raw { IsTrue header.raw → self.new ≡ self.old }
        ensures looked { IsFalse header.raw → IsFalse self.new.lost → (first ≤ header.len) × LooksTo old.now new.now at first (header.len - first) self.old self.new }
        ensures stays { IsFalse header.raw → first ≤ header.len
            → ((k : ℕ) (mid : Tables) → first + k < header.len → LooksTo old.now new.now at first k self.old mid → CanLook old.now new.now at (first + k) mid)
            → IsFalse self.new.lost }
    {
        if header.is_raw() {
            return true;
        }
        if first > 0 {
            self.look_behind(old, new, at, first, header.len());
            return !self.lost;
        }
        if header.len() == 0 {
            return true;
        }
        self.look_fields(old, new, header, at, 0, header.len())
    }

    // Compares the fields from `first` on, and before `stop`, of the replica at `at`, which may not be raw, if there are such fields.
    #[inline(never)]
    fn look_behind(&mut self, old: &[u64], new: &[u64], at: u32, first: u16, stop: u16)
        requires found { IsFalse self.old.lost }
        ensures looked { IsFalse self.new.lost → (first ≤ stop) × LooksTo old.now new.now at first (stop - first) self.old self.new }
        ensures stays { (h : Header) → at < length new.now → read_header (slice_index new.now at) ≡ Some h → IsFalse h.raw → first ≤ stop
            → ((k : ℕ) (mid : Tables) → first + k < stop → LooksTo old.now new.now at first k self.old mid → CanLook old.now new.now at (first + k) mid)
            → IsFalse self.new.lost }
    {
        if first > stop {
            self.lost = true;
        } else if first < stop {
            self.look_last(old, new, at, first, stop);
        }
    }

    // Compares the fields from `first` on, and before `stop`, of the replica at `at`, which may not be raw.
    #[inline(never)]
    fn look_last(&mut self, old: &[u64], new: &[u64], at: u32, first: u16, stop: u16)
        requires found { IsFalse self.old.lost }
        requires more { first < stop }
        ensures looked { IsFalse self.new.lost → (h : Header) × (read_header (slice_index new.now at) ≡ Some h) × (h.raw ≡ false)
            × LooksTo old.now new.now at first (stop - first) self.old self.new }
        ensures stays { (h : Header) → at < length new.now → read_header (slice_index new.now at) ≡ Some h → IsFalse h.raw
            → ((k : ℕ) (mid : Tables) → first + k < stop → LooksTo old.now new.now at first k self.old mid → CanLook old.now new.now at (first + k) mid)
            → IsFalse self.new.lost }
    {
        let Some(header) = header_at(new, at) else {
            self.lost = true;
            return;
        };
        if header.is_raw() {
            self.lost = true;
            return;
        }
        let _ = self.look_fields(old, new, header, at, first, stop);
    }

    // Compares the fields from `first` on, and before `stop`, of the replica at `at`, which has this header. Returns whether nothing is lost.
    #[inline(always)]
    fn look_fields(
        &mut self,
        old: &[u64],
        new: &[u64],
        header: Header,
        at: u32,
        first: u16,
        stop: u16,
    ) -> bool
        requires found { IsFalse self.old.lost }
        requires header { read_header (slice_index new.now at) ≡ Some header }
        requires more { first < stop }
        ensures found { IsTrue result → IsFalse self.new.lost }
        ensures lost { IsFalse result → IsTrue self.new.lost }
        ensures looked { IsFalse self.new.lost → LooksTo old.now new.now at first (stop - first) self.old self.new }
        ensures stays { ((k : ℕ) (mid : Tables) → first + k < stop → LooksTo old.now new.now at first k self.old mid → CanLook old.now new.now at (first + k) mid)
            → IsFalse self.new.lost }
    {
        let original = self.origin_at(at);
        let last = field_index(Addr(at), stop);
        if original == 0
            || stop > header.len()
            || last > self.news.len()
            || last > new.len()
            || field_index(Addr(original), stop) > old.len()
        {
            self.look_each(old, new, at, first, stop);
            return !self.lost;
        }
        let from = field_index(Addr(original), first);
        let place = field_index(Addr(at), first);
        let count = usize::from(stop - first);
        if self.are_alike(header, old, from, new, place, count) && self.settle(place, count) {
            return true;
        }
        self.look_each(old, new, at, first, stop);
        !self.lost
    }

    // Whether so many words of both, from these places on, are fields that stand for each other, of objects with this header.
    #[inline(always)]
    fn are_alike(
        &self,
        header: Header,
        old: &[u64],
        from: usize,
        new: &[u64],
        place: usize,
        count: usize,
    ) -> bool
        requires old { from + count ≤ length old.now }
        requires new { place + count ≤ length new.now }
        ensures { IsTrue result → (k : ℕ) → k < count
            → IsTrue (field_words_correspond header (pairs_in self.now.origins) (slice_index old.now (from + k)) (slice_index new.now (place + k))) }
    {
        for k in 0..count {
            if !self.is_alike(header, old.word(&mut (), from + k), new[place + k]) {
                return false;
            }
        }
        true
    }

    // Takes so many places from this one on for compared, if all of them are due. Returns whether they were; else all stays as it is.
    #[inline(always)]
    fn settle(&mut self, place: usize, count: usize) -> bool
        requires found { IsFalse self.old.lost }
        requires some { 1 ≤ count }
        requires within { place + count ≤ length self.old.news }
        requires few { place + count ≤ 4295098367 }
        ensures settled { IsTrue result → self.new ≡ with_due_row false self.old place count }
        ensures stays { IsFalse result → self.new ≡ self.old }
    {
        if !self.news.settle(place, count) {
            return false;
        }
        self.missing -= count;
        true
    }

    // Compares the fields from `first` on, and before `stop`, of the replica at `at`, if it has them.
    #[cold]
    #[inline(never)]
    fn look_each(&mut self, old: &[u64], new: &[u64], at: u32, first: u16, stop: u16)
        requires found { IsFalse self.old.lost }
        requires more { first < stop }
        ensures looked { IsFalse self.new.lost → LooksTo old.now new.now at first (stop - first) self.old self.new }
        ensures stays { ((k : ℕ) (mid : Tables) → first + k < stop → LooksTo old.now new.now at first k self.old mid → CanLook old.now new.now at (first + k) mid)
            → IsFalse self.new.lost }
    {
        for i in first..stop {
            self.look(old, new, at, i);
            if self.lost {
                return;
            }
        }
    }
}
