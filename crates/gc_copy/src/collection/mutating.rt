ghost use Rattle.std.specs.Prelude.{◌≡◌, ◌≢◌, ◌<◌, ◌≤◌, ◌+◌, ◌^◌, ℕ, length};
ghost use Rattle.std.specs.Option.{option_map, option_to_list};
ghost use Rattle.gc_heap.specs.Heap.{graph_in};
ghost use Rattle.gc_heap.specs.Places.{root_at};
ghost use Rattle.gc_model.specs.Steps.{mutate, written};
ghost use Rattle.gc_copy.specs.Entries.{entry_in};
ghost use Rattle.gc_copy.specs.Internal.Entries.{if_done};
ghost use Rattle.gc_copy.specs.Words.{open_state, spare_of, BelongsTo};
ghost use Rattle.gc_graph.specs.Slots.{SlotName};
ghost use Rattle.gc_graph.specs.declared.command.Op.{Op};
ghost use Rattle.gc_graph.specs.declared.reply.Reply.{Reply};

use super::Collection;
use crate::laws::commands_leave_collections;
use crate::log::LogEntry;
use gc_graph::{Reply, Slot};
use gc_heap::Heap;

impl Collection {
    /// Performs mutator `m`'s `Put`, and logs the field if it was written (the write barrier). Needs room in the log (`reserve`).
    #[inline(always)]
    pub fn put(&mut self, heap: &mut Heap, m: u8, s: Slot, i: u16, t: Slot) -> Reply
        requires belongs { BelongsTo heap.old self.old }
        requires mutator { m < heap.old.mutators }
        requires room { 1 ≤ spare_of self.old m }
        ensures step { mutate (open_state heap.old self.old) m (Op.Put s i t) ≡ (result, open_state heap.new self.new) }
        ensures belongs { BelongsTo heap.new self.new }
        ensures epoch { self.new.epoch ≡ self.old.epoch }
        ensures mutators { heap.new.mutators ≡ heap.old.mutators }
        ensures spare { spare_of self.old m ≤ spare_of self.new m + 1 }
    {
        // Here the prover learns that the heap is sound, and how many roots there are.
        let _ = heap.space();
        let _ = heap.root_places();
        let (reply, _) = self.put_root(heap, m, s.place(m) as u32, i, t.place(m) as u32);
        reply
    }

    /// Performs mutator `m`'s `Put` on roots by their places, and logs the field if it was written. Also returns the entry that it logged, so that
    /// the caller can tell a monitor of the field. Needs room in the log.
    #[inline(always)]
    pub fn put_root(
        &mut self,
        heap: &mut Heap,
        m: u8,
        s: u32,
        i: u16,
        t: u32,
    ) -> (Reply, Option<LogEntry>)
        requires belongs { BelongsTo heap.old self.old }
        requires mutator { m < heap.old.mutators }
        requires target { s < length heap.old.roots }
        requires giver { t < length heap.old.roots }
        requires room { 1 ≤ spare_of self.old m }
        ensures step { mutate (open_state heap.old self.old) m (Op.Put (root_at s) i (root_at t)) ≡ (result.0, open_state heap.new self.new) }
        ensures entry { option_to_list (option_map entry_in result.1) ≡ written (graph_in heap.old) m (Op.Put (root_at s) i (root_at t)) result.0 }
        ensures belongs { BelongsTo heap.new self.new }
        ensures epoch { self.new.epoch ≡ self.old.epoch }
        ensures mutators { heap.new.mutators ≡ heap.old.mutators }
        ensures spare { spare_of self.old m ≤ spare_of self.new m + 1 }
    {
        // Here the prover learns that the heap is sound.
        let _ = heap.space();
        let put = put_field(heap, s, i);
        let reply = heap.put_root(s, i, t);
        let Some(entry) = written_field(put, &reply) else {
            return (reply, None);
        };
        self.note(m, entry.object, entry.field);
        (reply, Some(entry))
    }
}

// Returns the field that a put into the object of root `s` writes if its reply is `Done`.
fn put_field(heap: &Heap, s: u32, i: u16) -> Option<LogEntry>
    requires { s < length heap.now.roots }
    ensures { (m : ℕ) (t : SlotName) → option_to_list (option_map entry_in result) ≡ written (graph_in heap.now) m (Op.Put (root_at s) i t) Reply.Done }
{
    Some(LogEntry {
        object: heap.target_root(s)?,
        field: i,
    })
}

// Returns the field that was written, given the reply.
fn written_field(put: Option<LogEntry>, reply: &Reply) -> Option<LogEntry>
    ensures { option_map entry_in result ≡ if_done reply.now (option_map entry_in put) }
{
    match reply {
        Reply::Done => put,
        _ => None,
    }
}
