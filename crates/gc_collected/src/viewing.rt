//! What mutators would see without a root for it: the value of a field, and the object at an address. Nothing here changes a heap.

ghost use Rattle.std.specs.Prelude.{◌≡◌, ◌<◌, length, IfSome, IsTrue};
ghost use Rattle.std.specs.Option.{option_map};
ghost use Rattle.gc_graph.specs.Graph.{object_of, field_of, lookup, root};
ghost use Rattle.gc_graph.specs.Machine.{get_field};
ghost use Rattle.gc_words.specs.Closed.{IsRootWord};
ghost use Rattle.gc_words.specs.Image.{is_start};
ghost use Rattle.gc_words.specs.Views.{graph_value};
ghost use Rattle.gc_words.specs.Word.{value_of};
ghost use Rattle.gc_heap.specs.Heap.{IsHeap, graph_in};
ghost use Rattle.gc_collected.specs.Viewing.{get_reply, view_at};

use crate::collected_heap::CollectedHeap;
use gc_graph::{Reply, View};
use gc_heap::{Heap, object_view, root_word, view};
use gc_words::{Addr, OldAddr, Value, value_in};

impl CollectedHeap {
    /// Returns the reply to a `Get` of field `i` of the object that root `s` refers to: `Saw`, or else `NoObject` or `NoField`. No root takes the value.
    #[inline(always)]
    pub fn peek_root(&self, s: u32, i: u32) -> Reply
        requires { s < length self.now.core.heap.graph.roots }
        ensures { result ≡ get_reply self.now.core s i }
    {
        peek(&self.heap, s, i)
    }

    /// Returns what a look at a reference to the object at this address sees, and `Nil` if no object starts there. Any number may be given. Where the
    /// standing checker goes along, its row of the old space tells the starts, in constant time; elsewhere this is a walk over the objects before `a`.
    pub fn view_at(&self, a: OldAddr) -> View
        ensures { result ≡ view_at self.now.core a.0 }
    {
        if !self.has_object(a) {
            return View::Nil;
        }
        object_view(self.heap.space(), Addr(a.0))
    }

    /// Returns the value in field `i` of the object at this address, and `None` if no object starts there or it has no such field. Any numbers may be
    /// given. Takes the time of `view_at`.
    pub fn field_at(&self, a: OldAddr, i: u32) -> Option<Value>
        ensures { option_map graph_value result ≡ field_of (lookup self.now.core.heap.graph.objects a.0) i }
    {
        if self.has_object(a) {
            value_at(&self.heap, a, i)
        } else {
            None
        }
    }
}

// Returns the value in field `i` of the object that starts at `a`.
fn value_at(heap: &Heap, a: OldAddr, i: u32) -> Option<Value>
    requires { IsTrue (is_start heap.now.space.words a.0) }
    ensures { option_map graph_value result ≡ field_of (lookup (graph_in heap.now).objects a.0) i }
{
    let word = word_at(heap, a, i)?;
    Some(value_in(word))
}

// Returns the reply to a `Get` of field `i` of the object that root `s` refers to.
#[inline(always)]
fn peek(heap: &Heap, s: u32, i: u32) -> Reply
    requires { s < length heap.now.roots }
    ensures { let object = object_of (graph_in heap.now).objects (root (graph_in heap.now) s) in
        result ≡ (get_field (graph_in heap.now) s object (field_of object i)).0 }
{
    let Some(at) = heap.target_root(s) else {
        return Reply::NoObject;
    };
    let Some(word) = word_at(heap, at, i) else {
        return Reply::NoField;
    };
    Reply::Saw(view(heap.space(), word))
}

// Returns a root word of the value in field `i` of the object that starts at `a`, or `None` if it has no such field.
#[inline(always)]
fn word_at(heap: &Heap, a: OldAddr, i: u32) -> Option<u64>
    requires { IsTrue (is_start heap.now.space.words a.0) }
    ensures value { option_map value_of result ≡ field_of (lookup (graph_in heap.now).objects a.0) i }
    ensures word { IfSome result (IsRootWord heap.now.space.words) }
    ensures sound { IsHeap heap.now }
{
    let at = Addr(a.0);
    let space = heap.space();
    let header = space.header(at);
    if i >= u32::from(header.len()) {
        return None;
    }
    let field = space.field(at, i as u16);
    Some(root_word(space, header, field))
}
