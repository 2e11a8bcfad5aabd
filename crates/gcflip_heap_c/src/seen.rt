//! The exports that return what they saw. Each does what the export does that it is named for, which writes it to C's variable.

ghost use Rattle.std.specs.Prelude.{◌≡◌, ◌≢◌, ◌<◌, ◌∷◌, [], ⊤};
ghost use Rattle.gc_check.specs.InC.{no_memory, IsRefusal};
ghost use Rattle.gc_graph.specs.Graph.{lookup};
ghost use Rattle.gc_graph.specs.Machine.{view_of};
ghost use Rattle.gc_graph.specs.declared.command.Op.{Op};
ghost use Rattle.gc_graph.specs.declared.reply.Reply.{Reply};
ghost use Rattle.gc_heap.specs.Commands.{fetched_of};
ghost use Rattle.gc_heap.specs.Places.{root_at};
ghost use Rattle.gc_model.specs.Steps.{mutate};
ghost use Rattle.gc_words.specs.Views.{graph_value};
ghost use Rattle.gc_collected.specs.Spreading.{AskForRow};
ghost use Rattle.gc_collected.specs.Viewing.{get_reply, view_at};
ghost use Rattle.gcflip_heap_c.specs.Commands.{IsCall, Replies};
ghost use Rattle.gcflip_heap_c.specs.Places.{HasRoots};
ghost use Rattle.gc_in_c.specs.Telling.{TellsField, value_in_c};
ghost use Rattle.gcflip_heap_c.specs.Seen.{no_view, number_view, shown};
ghost use Rattle.gc_in_c.specs.Replies.{got_in_c, number_after, reply_in_c, seen_in_c, view_after, view_in_c};

use crate::answer::{CLOSED, NO_FIELD, NO_OBJECT, OUT_OF_RANGE};
use crate::guards::lent;
use crate::handle::GcflipHeap;
use gc_collected::CollectedHeap;
use gc_graph::{Reply, View};
use gc_heap::Fetched;
use gc_in_c::{GcflipView, NIL, NUMBER, OBJECT, of_reply};
use gc_words::{OldAddr, Value};

/// The answer of a call, and what it saw. Members that do not apply are 0.
#[repr(C)]
#[derive(Clone, Copy, Debug, Drop, PartialEq, Eq)]
pub struct GcflipSeen {
    /// The number that the other call returns.
    pub answer: u8,
    /// The kind of the object that was seen.
    pub kind: u8,
    /// The number of its fields.
    pub count: u16,
    /// The number that was seen. `gcflip_field_at_seen` tells an object's address here.
    pub number: u64,
}

impl GcflipSeen {
    /// Returns what was seen as C's view has it.
    pub(crate) fn view(&self) -> GcflipView
        ensures { result ≡ shown self.now }
    {
        GcflipView {
            kind: u32::from(self.kind),
            count: u32::from(self.count),
            number: self.number,
        }
    }

    // Returns an answer without a value.
    #[inline(always)]
    fn bare(answer: u32) -> GcflipSeen
        requires { answer < 256 }
        ensures answer { result.answer ≡ answer }
        ensures view { shown result ≡ no_view }
    {
        GcflipSeen {
            answer: answer as u8,
            kind: 0,
            count: 0,
            number: 0,
        }
    }

    // Returns that an object or a number was seen.
    #[inline(always)]
    fn saw(view: &View) -> GcflipSeen
        ensures answer { result.answer ≡ seen_in_c view.now }
        ensures view { shown result ≡ view_in_c view.now }
        ensures made { ¬ IsRefusal result.answer }
    {
        let (answer, kind, count, number) = match view {
            View::Nil => (NIL, 0, 0, 0),
            View::Num(n) => (NUMBER, 0, 0, n.get()),
            View::Obj { kind, len } => (OBJECT, *kind, *len, 0),
            View::RawObj { kind, len } => (27, *kind, *len, 0),
        };
        GcflipSeen {
            answer: answer as u8,
            kind,
            count,
            number,
        }
    }

    // Returns what a reply tells.
    #[inline(always)]
    fn of(reply: &Reply) -> GcflipSeen
        ensures answer { result.answer ≡ reply_in_c reply.now }
        ensures view { shown result ≡ view_after no_view reply.now }
        ensures made { ¬ IsRefusal result.answer }
    {
        match reply {
            Reply::Saw(view) => GcflipSeen::saw(view),
            _ => GcflipSeen::bare(of_reply(reply)),
        }
    }

    // Returns what a get saw.
    #[inline(always)]
    fn of_fetched(fetched: Fetched) -> GcflipSeen
        ensures answer { (reply : Reply) → fetched ≡ fetched_of reply → result.answer ≡ got_in_c reply }
        ensures view { (reply : Reply) → fetched ≡ fetched_of reply → shown result ≡ number_view (number_after 0 reply) }
        ensures made { ¬ IsRefusal result.answer }
    {
        let (answer, number) = match fetched {
            Fetched::NoObject => (NO_OBJECT, 0),
            Fetched::NoField => (NO_FIELD, 0),
            Fetched::Nil => (NIL, 0),
            Fetched::Num(n) => (NUMBER, n.get()),
            Fetched::Object => (OBJECT, 0),
        };
        GcflipSeen {
            answer: answer as u8,
            kind: 0,
            count: 0,
            number,
        }
    }
}

/// Reads field `i` of the object that root `s` refers to into root `d`, as `gcflip_get` does, and returns what it saw.
#[unsafe(no_mangle)]
pub extern "C" fn gcflip_get_seen(heap: &mut GcflipHeap, d: u32, s: u32, i: u32) -> GcflipSeen
    ensures call { IsCall (HasRoots (d ∷ s ∷ [])) (Replies (λ state. mutate state 0 (Op.Get (root_at d) (root_at s) i))
        (λ reply. (result.answer ≡ got_in_c reply) × (shown result ≡ number_view (number_after 0 reply)))) heap.old.state heap.new.state result.answer }
    ensures silent { IsRefusal result.answer → shown result ≡ no_view }
    ensures memory { result.answer ≢ no_memory }
    ensures beside { heap.new.beside ≡ heap.old.beside }
    ensures looks { AskForRow d 1 heap.old.roots_left heap.new.roots_left }
{
    let heap = lent!(heap, GcflipSeen::bare(CLOSED));
    let roots = heap.root_places();
    if d as usize >= roots || s as usize >= roots {
        return GcflipSeen::bare(OUT_OF_RANGE);
    }
    GcflipSeen::of_fetched(heap.fetch_root(d, s, i))
}

/// Looks at the value of root `s`, as `gcflip_look` does, and returns what it saw.
#[unsafe(no_mangle)]
pub extern "C" fn gcflip_look_seen(heap: &mut GcflipHeap, s: u32) -> GcflipSeen
    ensures call { IsCall (HasRoots (s ∷ [])) (Replies (λ state. mutate state 0 (Op.Look (root_at s)))
        (λ reply. (result.answer ≡ reply_in_c reply) × (shown result ≡ view_after no_view reply))) heap.old.state heap.new.state result.answer }
    ensures silent { IsRefusal result.answer → shown result ≡ no_view }
    ensures memory { result.answer ≢ no_memory }
    ensures beside { heap.new.beside ≡ heap.old.beside }
{
    let heap = lent!(heap, GcflipSeen::bare(CLOSED));
    if s as usize >= heap.root_places() {
        return GcflipSeen::bare(OUT_OF_RANGE);
    }
    GcflipSeen::of(&heap.look_root(s))
}

/// Reads field `i` of the object that root `s` refers to into no root, as `gcflip_peek` does, and returns what it saw.
#[unsafe(no_mangle)]
pub extern "C" fn gcflip_peek_seen(heap: &mut GcflipHeap, s: u32, i: u32) -> GcflipSeen
    ensures call { IsCall (HasRoots (s ∷ [])) (λ old new. (new ≡ old) × (result.answer ≡ reply_in_c (get_reply old s i))
        × (shown result ≡ view_after no_view (get_reply old s i))) heap.old.state heap.new.state result.answer }
    ensures silent { IsRefusal result.answer → shown result ≡ no_view }
    ensures memory { result.answer ≢ no_memory }
    ensures beside { heap.new.beside ≡ heap.old.beside }
{
    let heap = lent!(heap, GcflipSeen::bare(CLOSED));
    if s as usize >= heap.root_places() {
        return GcflipSeen::bare(OUT_OF_RANGE);
    }
    GcflipSeen::of(&heap.peek_root(s, i))
}

/// Tells what a look at a reference to this address would see, as `gcflip_object_at` does, and returns it.
#[unsafe(no_mangle)]
pub extern "C" fn gcflip_object_at_seen(heap: &mut GcflipHeap, address: u32) -> GcflipSeen
    ensures call { IsCall (λ _. ⊤) (λ old new. (new ≡ old) × (result.answer ≡ seen_in_c (view_at old address))
        × (shown result ≡ view_in_c (view_at old address))) heap.old.state heap.new.state result.answer }
    ensures silent { IsRefusal result.answer → shown result ≡ no_view }
    ensures memory { result.answer ≢ no_memory }
    ensures beside { heap.new.beside ≡ heap.old.beside }
{
    let heap = lent!(heap, GcflipSeen::bare(CLOSED));
    GcflipSeen::saw(&heap.view_at(OldAddr(address)))
}

/// Tells the value in field `i` of the object at this address, as `gcflip_field_at` does, and returns it. For a reference, `number` is the address of its
/// object.
#[unsafe(no_mangle)]
pub extern "C" fn gcflip_field_at_seen(heap: &mut GcflipHeap, address: u32, i: u32) -> GcflipSeen
    ensures call { IsCall (λ _. ⊤) (λ old new. (new ≡ old) × TellsField old.heap.graph.objects (lookup old.heap.graph.objects address) i
        no_view (shown result) result.answer) heap.old.state heap.new.state result.answer }
    ensures silent { IsRefusal result.answer → shown result ≡ no_view }
    ensures memory { result.answer ≢ no_memory }
    ensures beside { heap.new.beside ≡ heap.old.beside }
{
    let heap = lent!(heap, GcflipSeen::bare(CLOSED));
    field_seen(heap, OldAddr(address), i)
}

// Tells the value in field `i` of the object at this address.
pub(crate) fn field_seen(heap: &CollectedHeap, address: OldAddr, i: u32) -> GcflipSeen
    ensures tells { TellsField heap.now.core.heap.graph.objects (lookup heap.now.core.heap.graph.objects address.0) i no_view (shown result) result.answer }
    ensures made { ¬ IsRefusal result.answer }
{
    if !heap.has_object(address) {
        return GcflipSeen::saw(&View::Nil);
    }
    match heap.field_at(address, i) {
        None => GcflipSeen::bare(NO_FIELD),
        Some(value) => value_seen(heap, value),
    }
}

// Tells a value, with the address of its object.
fn value_seen(heap: &CollectedHeap, value: Value) -> GcflipSeen
    ensures answer { result.answer ≡ seen_in_c (view_of heap.now.core.heap.graph.objects (graph_value value)) }
    ensures view { shown result ≡ value_in_c heap.now.core.heap.graph.objects (graph_value value) }
    ensures made { ¬ IsRefusal result.answer }
{
    match value {
        Value::Nil => GcflipSeen::saw(&View::Nil),
        Value::Num(n) => GcflipSeen::saw(&View::Num(n)),
        Value::Ref(at) => GcflipSeen {
            number: u64::from(at.0),
            ..GcflipSeen::saw(&heap.view_at(OldAddr(at.0)))
        },
    }
}
