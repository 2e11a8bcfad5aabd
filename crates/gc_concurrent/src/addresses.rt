//! What is read of an object by its address, and references that are made from addresses. They serve tables that keep addresses outside the heap.
ghost use Rattle.std.specs.Prelude.{◌≡◌, ◌<◌, ◌||◌, is_some, length};
ghost use Rattle.std.specs.Option.{option_map};
ghost use Rattle.gc_graph.specs.Graph.{Ref, field_of, lookup, name_of, root};
ghost use Rattle.gc_graph.specs.Machine.{view_of};
ghost use Rattle.gc_graph.specs.declared.reply.Reply.{Reply};
ghost use Rattle.gc_words.specs.Image.{is_start};
ghost use Rattle.gc_words.specs.Views.{graph_value};
ghost use Rattle.gc_heap.specs.Heap.{graph_in, roomy_in};
ghost use Rattle.gc_concurrent.specs.Holders.{beginning_of, cells_of, heap_in, log_length, logs_writes, moves_in};
ghost use Rattle.gc_concurrent.specs.Referring.{root_refers};

use crate::commands::Commander;
use crate::machine::root_word;
use gc_graph::{Reply, View};
use gc_words::{Addr, OldAddr, Value, encode, target_of, value_in};

/// A flip gives objects other addresses. No call takes longer in a larger heap.
impl Commander {
    // Returns whether an object starts here.
    fn has_object(&self, a: OldAddr) -> bool
        ensures { result ≡ is_start (heap_in self.now).space.words a.0 }
    {
        if a.0 >= self.end {
            return false;
        }
        self.mutator.starts_at(a.0)
    }

    /// Returns the address of the object that root `s` refers to, or `None` if it refers to none.
    pub fn address_root(&self, s: u32) -> Option<OldAddr>
        requires { s < length self.now.roots.items }
        ensures { option_map (λ a. a.0) result ≡ name_of (root (graph_in (heap_in self.now)) s) }
    {
        let word = self.roots[s as usize];
        let at = target_of(word)?;
        Some(OldAddr(at.0))
    }

    /// Returns what a look at a reference to the object at this address sees, and `Nil` if no object starts there. Any number may be given.
    pub fn view_at(&mut self, a: OldAddr) -> View
        ensures view { result ≡ view_of (graph_in (heap_in self.old)).objects (Ref a.0) }
        ensures heap { heap_in self.new ≡ heap_in self.old }
        ensures log { log_length self.new ≡ log_length self.old }
        ensures cells { cells_of self.new ≡ cells_of self.old }
        ensures moves { moves_in self.new ≡ moves_in self.old }
        ensures begun { beginning_of self.new ≡ beginning_of self.old }
    {
        if !self.has_object(a) {
            return View::Nil;
        }
        self.view(encode(Value::Ref(Addr(a.0))))
    }

    /// Returns the value in field `i` of the object at this address, and `None` if no object starts there or it has no such field. Any numbers may be
    /// given.
    pub fn field_at(&mut self, a: OldAddr, i: u32) -> Option<Value>
        ensures value { option_map graph_value result ≡ field_of (lookup (graph_in (heap_in self.old)).objects a.0) i }
        ensures heap { heap_in self.new ≡ heap_in self.old }
        ensures log { log_length self.new ≡ log_length self.old }
        ensures cells { cells_of self.new ≡ cells_of self.old }
        ensures moves { moves_in self.new ≡ moves_in self.old }
        ensures begun { beginning_of self.new ≡ beginning_of self.old }
    {
        if !self.has_object(a) {
            return None;
        }
        let at = Addr(a.0);
        let header = self.mutator.header(at);
        if i >= u32::from(header.len()) {
            return None;
        }
        let field = self.mutator.field(at, i as u16);
        Some(value_in(root_word(header, field)))
    }

    /// Sets root `d` to a reference to the object that starts at `a`: `Done`. If no object starts there, nothing has changed, and the reply is
    /// `NoObject`. Any number may be given. An object that was unreachable when the collection began may be copied from then on.
    pub fn refer_root(&mut self, d: u32, a: OldAddr) -> Reply
        requires { d < length self.old.roots.items }
        ensures step { root_refers (roomy_in (heap_in self.old)) d a.0 ≡ (result, roomy_in (heap_in self.new)) }
        ensures space { (heap_in self.new).space ≡ (heap_in self.old).space }
        ensures missed { result ≡ Reply.NoObject → heap_in self.new ≡ heap_in self.old }
        ensures log { log_length self.new ≡ log_length self.old }
        ensures cells { cells_of self.new ≡ cells_of self.old }
        ensures roots { length self.new.roots.items ≡ length self.old.roots.items }
        ensures logs { logs_writes self.new ≡ logs_writes self.old }
        ensures moves { moves_in self.new ≡ moves_in self.old }
        ensures begun { beginning_of self.new ≡ (record (beginning_of self.old) { referred = (beginning_of self.old).referred || is_some (lookup (graph_in (heap_in self.old)).objects a.0) }) }
    {
        if !self.has_object(a) {
            return Reply::NoObject;
        }
        let at = Addr(a.0);
        self.mutator.refer(at);
        self.roots[d as usize] = encode(Value::Ref(at));
        Reply::Done
    }
}
