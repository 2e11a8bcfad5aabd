//! Roots that take the fields of an object.

ghost use Rattle.std.specs.Prelude.{◌≡◌, ◌≢◌, ◌<◌, ◌≤◌, ◌+◌, ◌^◌, length};
ghost use Rattle.gc_graph.specs.declared.reply.Reply.{Reply};
ghost use Rattle.gc_collected.specs.Spreading.{AskForRow, gets_step, spread_reply as reply_in, spread_step};

use crate::collected_heap::CollectedHeap;
use gc_graph::{Reply, View};

impl CollectedHeap {
    /// Sets `count` roots, from root `first` on, to the first fields of the object that root `s` refers to, which is none of them. This is a `Get` for
    /// each, in rising order. Returns `Done`. Or nothing is changed, and the reply is `NoObject`, or `NoField` where the object has fewer fields. Does
    /// not allocate.
    pub fn spread(&mut self, first: u32, s: u32, count: u32) -> Reply
        requires range { first + count ≤ length self.old.core.heap.graph.roots }
        requires source { s < length self.old.core.heap.graph.roots }
        ensures step { spread_step self.old.core first s count ≡ (result, self.new.core) }
        ensures mutators { self.new.core.mutators ≡ self.old.core.mutators }
        ensures beside { self.new.beside ≡ self.old.beside }
        ensures looks { AskForRow first count self.old.roots_left self.new.roots_left }
        ensures refused { result ≢ Reply.Done → self.new ≡ self.old }
    {
        let _ = self.root_places();
        let reply = spread_reply(&self.look_root(s), count);
        if let Reply::Done = reply {
            self.get_each(first, s, count);
        }
        reply
    }

    // Sets the roots to the fields, each by a `Get`.
    fn get_each(&mut self, first: u32, s: u32, count: u32)
        requires range { first + count ≤ length self.old.core.heap.graph.roots }
        requires few { first + count < 2 ^ 32 }
        requires source { s < length self.old.core.heap.graph.roots }
        ensures step { gets_step self.old.core first s 0 count ≡ self.new.core }
        ensures mutators { self.new.core.mutators ≡ self.old.core.mutators }
        ensures beside { self.new.beside ≡ self.old.beside }
        ensures looks { AskForRow first count self.old.roots_left self.new.roots_left }
    {
        for k in 0..count {
            let _got = self.fetch_root(first + k, s, k);
        }
    }
}

// Returns whether a `Look` with this reply saw an object with so many fields.
fn spread_reply(seen: &Reply, count: u32) -> Reply
    ensures { result ≡ reply_in count seen.now }
{
    match seen {
        Reply::Saw(View::Obj { len, .. }) | Reply::Saw(View::RawObj { len, .. }) => {
            if count <= u32::from(*len) {
                Reply::Done
            } else {
                Reply::NoField
            }
        }
        _ => Reply::NoObject,
    }
}
