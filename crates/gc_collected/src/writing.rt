//! Writes numbers to a raw object.

ghost use Rattle.std.specs.Prelude.{◌≡◌, ◌≢◌, ◌<◌, IfOk, OnErr, IsSome};
ghost use Rattle.gc_graph.specs.Slots.{place};
ghost use Rattle.gc_collected.specs.Writing.{put_numbers_step};

use crate::collected_heap::CollectedHeap;
use gc_graph::{NoMemory, Number, Reply, Slot};

impl CollectedHeap {
    /// Writes these numbers to the fields of the raw object that `s` refers to, from field `first` on. For each number this is a `num`
    /// of `t` and a `put` of `t`, so `t` keeps the last number. Returns `Done`. Or nothing is changed, and the reply is `NoObject`
    /// where `s` refers to no raw object, `NoField` where the object has too few fields, or `NoNumber` where one of the words is
    /// no number. `t` is another slot than `s`. While a collection is open, each field is logged (the write barrier). Only then can
    /// the call return `NoMemory`, and the heap is unchanged.
    pub fn put_numbers(
        &mut self,
        m: u8,
        s: Slot,
        first: u16,
        t: Slot,
        words: &[u64],
    ) -> Result<Reply, NoMemory>
        requires mutator { m < self.old.core.mutators }
        requires apart { place t m ≢ place s m }
        ensures step { IfOk result (λ reply. put_numbers_step self.old.core m s first t words.now ≡ (reply, self.new.core)) }
        ensures refused { OnErr result (self.new ≡ self.old) }
        ensures open { OnErr result (IsSome self.old.core.collection) }
        ensures mutators { self.new.core.mutators ≡ self.old.core.mutators }
        ensures beside { self.new.beside ≡ self.old.beside }
    {
        // Here the prover learns how many roots there are, and that the slot is in range.
        let _ = self.root_places();
        let _ = t.index();
        let reply = self.put_root_numbers(m, s.place(m) as u32, u32::from(first), words)?;
        let Reply::Done = reply else {
            return Ok(reply);
        };
        if words.len() == 0 {
            return Ok(reply);
        }
        let last = Number::new(words[words.len() - 1]).unwrap();
        let _done = self.num(m, t, last);
        Ok(reply)
    }
}
