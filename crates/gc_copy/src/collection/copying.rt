ghost use Rattle.std.specs.Prelude.{◌≤◌, ◌<◌, IfSome, ◌≡◌, IfOk, MatchResult, OnOk, OnErr, Some, None, true, false, IsTrue, IsSome, ⊤};
ghost use Rattle.std.specs.Option.{option_map};
ghost use Rattle.gc_graph.specs.Limits.{largest_space};
ghost use Rattle.gc_graph.specs.Graph.{Ref, lookup};
ghost use Rattle.gc_words.specs.Word.{value_of, word_of};
ghost use Rattle.gc_words.specs.Image.{Block, block_at, is_start, header_at, field_at};
ghost use Rattle.gc_words.specs.Space.{IsSpace, HasRoomFor, end_of, with_block};
ghost use Rattle.gc_words.specs.declared.header.Header.{Header};
ghost use Rattle.gc_words.specs.Closed.{IsRootWord};
ghost use Rattle.gc_heap.specs.Heap.{graph_in};
ghost use Rattle.gc_model.specs.State.{replica_of as replica_in, moved};
ghost use Rattle.gc_model.specs.Steps.{place_replica as placed_in, with_replica as with_replica_in};
ghost use Rattle.gc_model.specs.Steps.{bring_up_to_date as brought_in, apply_entry as applied_in};
ghost use Rattle.gc_copy.specs.Entries.{entry_in};
ghost use Rattle.gc_copy.specs.Twins.{IsTwin};
ghost use Rattle.gc_copy.specs.Words.{collection_in, mark_of, BelongsTo};
ghost use Rattle.gc_copy.specs.Internal.Words.{replica_block, HasReplicaWord, KeepsGraph, KeepsRest, KeepsStarts};

use super::Collection;
use crate::log::LogEntry;
use gc_heap::Heap;
use gc_words::{Addr, NewAddr, OldAddr, Space, Value, encode, target_of};

/// The new space has no room for a replica that is needed.
#[derive(Debug, Drop)]
pub(super) struct NoRoom;

impl Collection {
    /// Returns the address of an object's replica, which is what the object's link has above the mark, or `None` if it is not above it.
    pub(super) fn replica_of(&self, heap: &Heap, original: OldAddr) -> Option<NewAddr>
        requires belongs { BelongsTo heap.now self.now }
        requires start { IsTrue (is_start heap.now.space.words original.0) }
        ensures place { option_map (λ a. a.0) result ≡ option_map (λ r. r.place) (replica_in (collection_in self.now) original.0) }
        ensures address { IfSome result (λ a. (1 ≤ a.0) × (a.0 < largest_space)) }
    {
        // Here the prover learns how large the new space is.
        let _ = &self.space;
        let place = heap
            .space()
            .link(Addr(original.0))
            .saturating_sub(link_mark(self.epoch));
        if place == 0 {
            None
        } else {
            Some(NewAddr(place as u32))
        }
    }

    /// Returns the word for the new space, or the original that the word refers to if that has no replica.
    #[inline(always)]
    pub(super) fn twin_of(&self, heap: &Heap, word: u64) -> Result<u64, OldAddr>
        requires belongs { BelongsTo heap.now self.now }
        requires word { IsRootWord heap.now.space.words word }
        ensures twin { MatchResult result (IsTwin (collection_in self.now) (value_of word))
            (λ a. (value_of word ≡ Ref a.0) × (replica_in (collection_in self.now) a.0 ≡ None)) }
        ensures start { MatchResult result (λ _. ⊤) (λ a. IsTrue (is_start heap.now.space.words a.0)) }
    {
        let Some(at) = target_of(word) else {
            return Ok(word);
        };
        let target = OldAddr(at.0);
        match self.replica_of(heap, target) {
            Some(replica) => Ok(encode(Value::Ref(Addr(replica.0)))),
            None => Err(target),
        }
    }

    /// Places a replica at the new end. It has the original's header. Its fields are nil, or those of the original if it is raw.
    #[inline(always)]
    pub(super) fn place_replica(&mut self, heap: &mut Heap, original: OldAddr) -> Result<(), NoRoom>
        requires belongs { BelongsTo heap.old self.old }
        requires start { IsTrue (is_start heap.old.space.words original.0) }
        requires missing { replica_in (collection_in self.old) original.0 ≡ None }
        ensures placed { OnOk result (placed_in (collection_in self.old) original.0 (lookup (graph_in heap.old).objects original.0)
            ≡ Some (collection_in self.new)) }
        ensures full { OnErr result ((placed_in (collection_in self.old) original.0 (lookup (graph_in heap.old).objects original.0) ≡ None)
            × (self.new ≡ self.old) × (heap.new ≡ heap.old)) }
        ensures belongs { BelongsTo heap.new self.new }
        ensures graph { KeepsGraph heap.old heap.new }
        ensures rest { KeepsRest self.old self.new }
        ensures starts { KeepsStarts self.old.space self.new.space }
    {
        let header = heap.space().header(Addr(original.0));
        if !self.space.has_room(header.len()) {
            return Err(NoRoom);
        }
        let replica = place_fresh(&mut self.space, heap, original);
        self.space.set_link(replica, u64::from(original.0));
        self.replicas += 1;
        heap.set_link_word(original, link_mark(self.epoch) + u64::from(replica.0));
        Ok(())
    }

    /// Returns the word for the new space: a reference to an original becomes one to its replica, which it places first if there is none.
    #[inline(always)]
    pub(super) fn replicated_word(&mut self, heap: &mut Heap, word: u64) -> Result<u64, NoRoom>
        requires belongs { BelongsTo heap.old self.old }
        requires word { IsRootWord heap.old.space.words word }
        ensures placed { OnOk result (with_replica_in (collection_in self.old) (graph_in heap.old) (value_of word)
            ≡ Some (collection_in self.new)) }
        ensures full { OnErr result ((with_replica_in (collection_in self.old) (graph_in heap.old) (value_of word) ≡ None)
            × (self.new ≡ self.old) × (heap.new ≡ heap.old)) }
        ensures replica { OnOk result (HasReplicaWord (collection_in self.new) word) }
        ensures word { IfOk result (λ written. written ≡ word_of (moved (collection_in self.new) (value_of word))) }
        ensures belongs { BelongsTo heap.new self.new }
        ensures graph { KeepsGraph heap.old heap.new }
        ensures rest { KeepsRest self.old self.new }
        ensures starts { KeepsStarts self.old.space self.new.space }
    {
        match self.twin_of(heap, word) {
            Ok(moved) => Ok(moved),
            Err(original) => {
                let replica = self.space.end();
                self.place_replica(heap, original)?;
                Ok(encode(Value::Ref(Addr(replica))))
            }
        }
    }

    /// Reads the original's field as it is now, and writes the same nil, number or raw word to the replica. For a reference
    /// it writes one to the target's replica, which it places first if there is none.
    #[inline(always)]
    pub(super) fn bring_up_to_date(
        &mut self,
        heap: &mut Heap,
        original: OldAddr,
        replica: NewAddr,
        field: u16,
    ) -> Result<(), NoRoom>
        requires belongs { BelongsTo heap.old self.old }
        requires field { IsSome (field_at heap.old.space.words original.0 field) }
        requires replica { option_map (λ r. r.place) (replica_in (collection_in self.old) original.0) ≡ Some replica.0 }
        ensures brought { OnOk result (brought_in (collection_in self.old) (graph_in heap.old) original.0 field
            ≡ Some (collection_in self.new)) }
        ensures full { OnErr result ((brought_in (collection_in self.old) (graph_in heap.old) original.0 field ≡ None)
            × (self.new ≡ self.old) × (heap.new ≡ heap.old)) }
        ensures belongs { BelongsTo heap.new self.new }
        ensures graph { KeepsGraph heap.old heap.new }
        ensures rest { KeepsRest self.old self.new }
    {
        if heap.space().header(Addr(original.0)).is_raw() {
            self.copy_field(heap, original, replica, field);
            Ok(())
        } else {
            self.move_field(heap, original, replica, field)
        }
    }

    /// Brings a field of a raw object's replica up to date.
    fn copy_field(&mut self, heap: &Heap, original: OldAddr, replica: NewAddr, field: u16)
        requires belongs { BelongsTo heap.now self.old }
        requires field { IsSome (field_at heap.now.space.words original.0 field) }
        requires replica { option_map (λ r. r.place) (replica_in (collection_in self.old) original.0) ≡ Some replica.0 }
        requires raw { (h : Header) → header_at heap.now.space.words original.0 ≡ Some h → h.raw ≡ true }
        ensures brought { brought_in (collection_in self.old) (graph_in heap.now) original.0 field
            ≡ Some (collection_in self.new) }
        ensures belongs { BelongsTo heap.now self.new }
        ensures rest { KeepsRest self.old self.new }
    {
        let word = heap.space().field(Addr(original.0), field);
        self.space.set_field(Addr(replica.0), field, word);
    }

    /// Brings a field of any other object's replica up to date.
    #[inline(always)]
    pub(super) fn move_field(
        &mut self,
        heap: &mut Heap,
        original: OldAddr,
        replica: NewAddr,
        field: u16,
    ) -> Result<(), NoRoom>
        requires belongs { BelongsTo heap.old self.old }
        requires field { IsSome (field_at heap.old.space.words original.0 field) }
        requires replica { option_map (λ r. r.place) (replica_in (collection_in self.old) original.0) ≡ Some replica.0 }
        requires plain { (h : Header) → header_at heap.old.space.words original.0 ≡ Some h → h.raw ≡ false }
        ensures brought { OnOk result (brought_in (collection_in self.old) (graph_in heap.old) original.0 field
            ≡ Some (collection_in self.new)) }
        ensures full { OnErr result ((brought_in (collection_in self.old) (graph_in heap.old) original.0 field ≡ None)
            × (self.new ≡ self.old) × (heap.new ≡ heap.old)) }
        ensures belongs { BelongsTo heap.new self.new }
        ensures graph { KeepsGraph heap.old heap.new }
        ensures rest { KeepsRest self.old self.new }
        ensures starts { KeepsStarts self.old.space self.new.space }
    {
        let word = heap.space().field(Addr(original.0), field);
        let moved = self.replicated_word(heap, word)?;
        self.space.set_field(Addr(replica.0), field, moved);
        Ok(())
    }

    /// Brings the entry's field up to date, or does nothing if its object has no replica.
    #[inline(always)]
    pub(super) fn apply_entry(&mut self, heap: &mut Heap, entry: LogEntry) -> Result<(), NoRoom>
        requires belongs { BelongsTo heap.old self.old }
        requires field { IsSome (field_at heap.old.space.words entry.object.0 entry.field) }
        ensures applied { OnOk result (applied_in (collection_in self.old) (graph_in heap.old) (entry_in entry)
            ≡ Some (collection_in self.new)) }
        ensures full { OnErr result ((applied_in (collection_in self.old) (graph_in heap.old) (entry_in entry) ≡ None)
            × (self.new ≡ self.old) × (heap.new ≡ heap.old)) }
        ensures belongs { BelongsTo heap.new self.new }
        ensures graph { KeepsGraph heap.old heap.new }
        ensures rest { KeepsRest self.old self.new }
    {
        match self.replica_of(heap, entry.object) {
            Some(replica) => self.bring_up_to_date(heap, entry.object, replica, entry.field),
            None => Ok(()),
        }
    }
}

/// Returns what the links of originals have in this epoch in addition to the places of their replicas.
#[inline(always)]
pub fn link_mark(epoch: u32) -> u64
    ensures { result ≡ mark_of epoch }
{
    u64::from(epoch) * (1 << 32)
}

/// Places a fresh replica in the new space, and returns its address.
#[inline(always)]
fn place_fresh(space: &mut Space, heap: &Heap, original: OldAddr) -> Addr
    requires start { IsTrue (is_start heap.now.space.words original.0) }
    requires room { (h : Header) → header_at heap.now.space.words original.0 ≡ Some h → HasRoomFor space.old h.len }
    ensures at { result.0 ≡ end_of space.old }
    ensures words { (b : Block) → block_at heap.now.space.words original.0 ≡ Some b
        → space.new ≡ with_block space.old (replica_block b) }
    ensures shaped { IsSpace space.new }
{
    let header = heap.space().header(Addr(original.0));
    if header.is_raw() {
        space.place_copy(heap.space(), Addr(original.0))
    } else {
        space.place(header)
    }
}
