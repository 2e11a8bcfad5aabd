ghost use Rattle.std.specs.Option.{option_map};
ghost use Rattle.gc_words.specs.Image.{header_at, is_start};
ghost use Rattle.gc_words.specs.Spelling.{link_at};
ghost use Rattle.gc_words.specs.declared.header.Header.{Header};
ghost use Rattle.std.specs.Prelude.{IsTrue, IfSome, OnOk, OnErr, Some, None, true, false, length, slice_get, ◌⊎◌, ◌≡◌, ◌≢◌, ◌<◌, ◌≤◌, ◌==◌, ◌||◌};
ghost use Rattle.gc_words.specs.Space.{image_with};
ghost use Rattle.gc_words.specs.Certificate.{Certified};
ghost use Rattle.gc_heap.specs.Heap.{HeapWords, image_of, graph_in};
ghost use Rattle.gc_model.specs.State.{pairs_of, new_end};
ghost use Rattle.gc_copy.specs.Entries.{entry_in};
ghost use Rattle.gc_model.specs.Steps.{collect, is_empty, log_at, root_target, roots_done as roots_done_in, scan_done as scan_done_in, is_ready};
ghost use Rattle.gc_copy.specs.StepRuns.{IsScanRun};
ghost use Rattle.gc_copy.specs.Words.{collection_in, open_state, BelongsTo, new_root_words};
ghost use Rattle.gc_copy.specs.Internal.Words.{KeepsStarts};
ghost use Rattle.gc_model.specs.declared.step.Step.{Step};
ghost use Rattle.gc_model.specs.declared.step.StepReply.{StepReply};

use super::Collection;
use super::copying::NoRoom;
use super::roots::MissingRoot;
use crate::laws::{images_show_links, new_spaces_have_room};
use crate::log::LogEntry;
use gc_graph::object_words;
use gc_heap::Heap;
use gc_model::StepReply;
use gc_words::{Addr, Header, NewAddr, OldAddr};

impl Collection {
    /// Replicates the target of the first root whose target has no replica: `Copied`, `NoRoom`, or `Clean` if there is none. Does not
    /// allocate.
    pub fn roots(&mut self, heap: &mut Heap) -> StepReply
        requires { BelongsTo heap.old self.old }
        ensures step { collect (open_state heap.old self.old) Step.Roots ≡ (result, open_state heap.new self.new) }
        ensures room { heap.old.space.size ≤ self.old.space.size → result ≢ StepReply.NoRoom }
        ensures belongs { BelongsTo heap.new self.new }
        ensures epoch { self.new.epoch ≡ self.old.epoch }
        ensures mutators { heap.new.mutators ≡ heap.old.mutators }
    {
        let first = self.first_root(heap);
        self.replicate_root(heap, first)
    }

    /// The same, where `first` is the first root whose target has no replica. `missing_root` finds it.
    pub fn replicate_root(&mut self, heap: &mut Heap, first: Option<MissingRoot>) -> StepReply
        requires belongs { BelongsTo heap.old self.old }
        requires first { option_map (λ r. r.target.0) first ≡ root_target (collection_in self.old) (graph_in heap.old) }
        requires start { IfSome first (λ r. IsTrue (is_start heap.old.space.words r.target.0)) }
        ensures step { collect (open_state heap.old self.old) Step.Roots ≡ (result, open_state heap.new self.new) }
        ensures room { heap.old.space.size ≤ self.old.space.size → result ≢ StepReply.NoRoom }
        ensures belongs { BelongsTo heap.new self.new }
        ensures epoch { self.new.epoch ≡ self.old.epoch }
        ensures mutators { heap.new.mutators ≡ heap.old.mutators }
    {
        new_spaces_have_room();
        // Here the prover learns that the heap and the collection are sound.
        let _ = heap.space();
        let _ = &self.space;
        let Some(missing) = first else {
            return StepReply::Clean;
        };
        match self.place_replica(heap, missing.target) {
            Ok(()) => StepReply::Copied,
            Err(NoRoom) => StepReply::NoRoom,
        }
    }

    /// Brings the field at the scan pointer up to date (`Scanned` or `NoRoom`), or moves on to the next replica (`Passed`; a raw
    /// one is passed immediately). Returns `Clean` if everything is scanned. Does not allocate.
    #[inline(always)]
    pub fn scan(&mut self, heap: &mut Heap) -> StepReply
        requires { BelongsTo heap.old self.old }
        ensures step { collect (open_state heap.old self.old) Step.Scan ≡ (result, open_state heap.new self.new) }
        ensures room { heap.old.space.size ≤ self.old.space.size → result ≢ StepReply.NoRoom }
        ensures belongs { BelongsTo heap.new self.new }
        ensures epoch { self.new.epoch ≡ self.old.epoch }
        ensures mutators { heap.new.mutators ≡ heap.old.mutators }
    {
        new_spaces_have_room();
        // Here the prover learns that the heap and the collection are sound.
        let _ = heap.space();
        let _ = &self.space;
        if self.scan_done() {
            return StepReply::Clean;
        }
        self.scan_replica(heap, 1, u32::MAX).reply
    }

    /// Performs scans in order, at least one and at most `most`. None follows one that finds no room, or that leaves nothing to scan, or after
    /// which the new space ends at `until` or beyond it. Reads the header and the link of each replica once. Does not allocate.
    pub fn scan_run(&mut self, heap: &mut Heap, most: u32, until: u32) -> StepRun
        requires belongs { BelongsTo heap.old self.old }
        requires some { 1 ≤ most }
        ensures run { IsScanRun until result.steps (open_state heap.old self.old) (open_state heap.new self.new) result.reply }
        ensures within { result.steps ≤ most }
        ensures belongs { BelongsTo heap.new self.new }
        ensures epoch { self.new.epoch ≡ self.old.epoch }
        ensures mutators { heap.new.mutators ≡ heap.old.mutators }
    {
        if self.scan_done() {
            return StepRun {
                steps: 1,
                reply: StepReply::Clean,
            };
        }
        let mut run = self.scan_replica(heap, most, until);
        while run.steps < most && self.scans_on(run.reply, until) {
            let next = self.scan_replica(heap, most - run.steps, until);
            run = StepRun {
                steps: run.steps + next.steps,
                reply: next.reply,
            };
        }
        run
    }

    // Performs such scans of the replica at the scan pointer, of which there has to be one. The last of them passes the replica, unless it ends
    // before.
    #[inline(always)]
    fn scan_replica(&mut self, heap: &mut Heap, most: u32, until: u32) -> StepRun
        requires belongs { BelongsTo heap.old self.old }
        requires some { 1 ≤ most }
        requires left { scan_done_in (collection_in self.old) ≡ false }
        ensures run { IsScanRun until result.steps (open_state heap.old self.old) (open_state heap.new self.new) result.reply }
        ensures within { result.steps ≤ most }
        ensures belongs { BelongsTo heap.new self.new }
        ensures epoch { self.new.epoch ≡ self.old.epoch }
        ensures mutators { heap.new.mutators ≡ heap.old.mutators }
    {
        let header = self.space.header(self.scan_place);
        let original = OldAddr(self.space.link(self.scan_place) as u32);
        let mut steps = 0;
        while !is_scanned(header, self.scan_field) {
            let Ok(()) = self.scan_next(heap, original) else {
                return StepRun {
                    steps: steps + 1,
                    reply: StepReply::NoRoom,
                };
            };
            steps += 1;
            if steps == most || self.space.end() >= until {
                return StepRun {
                    steps,
                    reply: StepReply::Scanned,
                };
            }
        }
        self.pass(header);
        StepRun {
            steps: steps + 1,
            reply: StepReply::Passed,
        }
    }

    // Brings the field at the scan pointer up to date. The replica there is that of `original`, is not raw, and has such a field.
    #[inline(always)]
    fn scan_next(&mut self, heap: &mut Heap, original: OldAddr) -> Result<(), NoRoom>
        requires belongs { BelongsTo heap.old self.old }
        requires start { IsTrue (is_start self.old.space.words self.old.scan_place) }
        requires original { link_at self.old.space.words self.old.scan_place ≡ original.0 }
        requires field { (h : Header) → header_at self.old.space.words self.old.scan_place ≡ Some h → (h.raw ≡ false) × (self.old.scan_field ≢ h.len) }
        ensures scanned { OnOk result (collect (open_state heap.old self.old) Step.Scan ≡ (StepReply.Scanned, open_state heap.new self.new)) }
        ensures full { OnErr result (collect (open_state heap.old self.old) Step.Scan ≡ (StepReply.NoRoom, open_state heap.new self.new)) }
        ensures belongs { BelongsTo heap.new self.new }
        ensures epoch { self.new.epoch ≡ self.old.epoch }
        ensures mutators { heap.new.mutators ≡ heap.old.mutators }
        ensures place { self.new.scan_place ≡ self.old.scan_place }
        // So the header and the link of the replica need not be read again.
        ensures starts { KeepsStarts self.old.space self.new.space }
    {
        // Here the prover learns that the heap is sound.
        let _ = heap.space();
        let replica = NewAddr(self.scan_place.0);
        let field = self.scan_field;
        self.move_field(heap, original, replica, field)?;
        self.scan_field = field + 1;
        Ok(())
    }

    // Moves the scan pointer on to the next replica. The one there has this header, and is raw or scanned.
    #[inline(always)]
    fn pass(&mut self, header: Header)
        requires header { header_at self.old.space.words self.old.scan_place ≡ Some header }
        requires scanned { (header.raw ≡ true) ⊎ (self.old.scan_field ≡ header.len) }
        ensures passed { (heap : HeapWords) → BelongsTo heap self.old → collect (open_state heap self.old) Step.Scan ≡ (StepReply.Passed, open_state heap self.new) }
        ensures belongs { (heap : HeapWords) → BelongsTo heap self.old → BelongsTo heap self.new }
        ensures epoch { self.new.epoch ≡ self.old.epoch }
    {
        self.scan_place = Addr(self.scan_place.0 + object_words(header.len()));
        self.scan_field = 0;
    }

    // Returns whether a scan may follow one with this reply.
    #[inline(always)]
    fn scans_on(&self, reply: StepReply, until: u32) -> bool
        ensures { IsTrue result → (reply ≢ StepReply.NoRoom) × (scan_done_in (collection_in self.now) ≡ false) × (new_end (collection_in self.now) < until) }
    {
        !matches!(reply, StepReply::NoRoom) && !self.scan_done() && self.end() < until
    }

    /// Removes the oldest entry of mutator `m`'s log, and brings its field up to date if its object has a replica: `Applied`. On
    /// `NoRoom` the entry stays. Returns `Clean` if the log is empty. Does not allocate.
    pub fn apply_log(&mut self, m: u8, heap: &mut Heap) -> StepReply
        requires belongs { BelongsTo heap.old self.old }
        requires mutator { m < heap.old.mutators }
        ensures step { collect (open_state heap.old self.old) (Step.Apply m) ≡ (result, open_state heap.new self.new) }
        ensures room { heap.old.space.size ≤ self.old.space.size → result ≢ StepReply.NoRoom }
        ensures belongs { BelongsTo heap.new self.new }
        ensures epoch { self.new.epoch ≡ self.old.epoch }
        ensures mutators { heap.new.mutators ≡ heap.old.mutators }
    {
        let (reply, _) = self.apply_noted(m, heap);
        reply
    }

    /// The same. Also returns the entry, if it was applied, so that the caller can tell a monitor of its field.
    #[inline(always)]
    pub fn apply_noted(&mut self, m: u8, heap: &mut Heap) -> (StepReply, Option<LogEntry>)
        requires belongs { BelongsTo heap.old self.old }
        requires mutator { m < heap.old.mutators }
        ensures step { collect (open_state heap.old self.old) (Step.Apply m) ≡ (result.0, open_state heap.new self.new) }
        ensures applied { IfSome result.1 (λ entry. (result.0 ≡ StepReply.Applied) × (slice_get (log_at (collection_in self.old) m) 0 ≡ Some (entry_in entry))) }
        ensures other { result.1 ≡ None → result.0 ≢ StepReply.Applied }
        ensures room { heap.old.space.size ≤ self.old.space.size → result.0 ≢ StepReply.NoRoom }
        ensures belongs { BelongsTo heap.new self.new }
        ensures epoch { self.new.epoch ≡ self.old.epoch }
        ensures mutators { heap.new.mutators ≡ heap.old.mutators }
    {
        new_spaces_have_room();
        // Here the prover learns that the heap is sound.
        let _ = heap.space();
        let Some(entry) = self.logs[m as usize].oldest() else {
            return (StepReply::Clean, None);
        };
        match self.apply_entry(heap, entry) {
            Ok(()) => {
                self.logs[m as usize].drop_oldest();
                (StepReply::Applied, Some(entry))
            }
            Err(NoRoom) => (StepReply::NoRoom, None),
        }
    }

    /// Returns whether an entry of mutator `m`'s log may be applied by a call that got this reply for the last one: that found room, nothing is left
    /// to scan, the log has an entry, and the new space ends before `until`.
    #[inline(always)]
    pub fn applies_on(&self, m: u8, reply: StepReply, until: u32) -> bool
        requires { m < length self.now.logs }
        ensures { IsTrue result → (reply ≢ StepReply.NoRoom) × (scan_done_in (collection_in self.now) ≡ true) × (is_empty (log_at (collection_in self.now) m) ≡ false)
            × (new_end (collection_in self.now) < until) }
    {
        !matches!(reply, StepReply::NoRoom)
            && self.scan_done()
            && !self.logs[m as usize].is_empty()
            && self.end() < until
    }

    /// Returns whether the scan pointer is at the new end.
    pub fn scan_done(&self) -> bool
        ensures { result ≡ scan_done_in (collection_in self.now) }
    {
        self.scan_place.0 == self.space.end()
    }

    /// Returns whether nothing is left to do: all logs are empty, everything is scanned, and the target of each root has a replica.
    pub fn ready(&self, heap: &Heap) -> bool
        requires { BelongsTo heap.now self.now }
        ensures ready { result ≡ is_ready (collection_in self.now) (graph_in heap.now) }
        // So a checker will accept its flip.
        ensures certified { IsTrue result → Certified (image_of heap.now)
            (image_with self.now.space (new_root_words heap.now (collection_in self.now)))
            (pairs_of (collection_in self.now)) }
    {
        self.ready_with(heap, self.roots_done(heap))
    }

    /// The same, where `roots_done` says whether the target of each root has a replica.
    pub fn ready_with(&self, heap: &Heap, roots_done: bool) -> bool
        requires belongs { BelongsTo heap.now self.now }
        requires done { roots_done ≡ roots_done_in (collection_in self.now) (graph_in heap.now) }
        ensures ready { result ≡ is_ready (collection_in self.now) (graph_in heap.now) }
        // So a checker will accept its flip.
        ensures certified { IsTrue result → Certified (image_of heap.now)
            (image_with self.now.space (new_root_words heap.now (collection_in self.now)))
            (pairs_of (collection_in self.now)) }
    {
        images_show_links();
        // Here the prover learns that the heap and the collection are sound.
        let _ = heap.space();
        let _ = &self.space;
        self.next_log().is_none() && self.scan_done() && roots_done
    }
}

/// The number of steps performed, and the reply to the last one.
#[derive(Clone, Copy, Debug, Drop)]
pub struct StepRun {
    pub steps: u32,
    pub reply: StepReply,
}

/// Returns whether nothing is left to scan from this field on. A raw object is never scanned.
fn is_scanned(header: Header, field: u16) -> bool
    ensures { result ≡ (header.raw || (field == header.len)) }
{
    header.is_raw() || field == header.len()
}
