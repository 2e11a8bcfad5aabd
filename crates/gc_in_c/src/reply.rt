//! Replies as C sees them.

ghost use Rattle.std.specs.Prelude.{◌≡◌, IfOk, OnErr};
ghost use Rattle.gc_check.specs.InC.{IsRefusal, no_memory};
ghost use Rattle.gc_graph.specs.declared.reply.Reply.{Reply};
ghost use Rattle.gc_heap.specs.Commands.{fetched_of};
ghost use Rattle.gc_in_c.specs.Replies.{seen_in_c, reply_in_c, got_in_c, number_after, view_in_c, view_after};

use crate::answer::{DONE, NIL, NO_FIELD, NO_MEMORY, NO_OBJECT, NUMBER, OBJECT};
use gc_graph::{NoMemory, Reply, View};
use gc_heap::Fetched;

/// What a `look` saw, as C sees it. Members that do not apply are 0.
#[repr(C)]
#[derive(Clone, Copy, Debug, Drop, PartialEq, Eq)]
pub struct GcflipView {
    /// The kind of the object that was seen.
    pub kind: u32,
    /// The number of its fields.
    pub count: u32,
    /// The number that was seen.
    pub number: u64,
}

fn seen(view: &View) -> u32
    ensures { result ≡ seen_in_c view.now }
{
    match view {
        View::Nil => NIL,
        View::Num(_) => NUMBER,
        View::Obj { .. } => OBJECT,
        View::RawObj { .. } => 27,
    }
}

/// Returns C's number for a mutator's reply.
pub fn of_reply(reply: &Reply) -> u32
    ensures value { result ≡ reply_in_c reply.now }
    ensures made { ¬ IsRefusal result }
{
    match reply {
        Reply::Done => DONE,
        Reply::Made => 16,
        Reply::Full => 17,
        Reply::NoObject => NO_OBJECT,
        Reply::NoField => NO_FIELD,
        Reply::NoNumber => 20,
        Reply::Yes => 21,
        Reply::No => 22,
        Reply::Saw(view) => seen(view),
    }
}

/// Returns C's number for the reply to a command that may allocate.
#[inline(always)]
pub fn of_result(made: Result<Reply, NoMemory>) -> u32
    ensures reply { IfOk made (λ reply. (result ≡ reply_in_c reply) × ¬ IsRefusal result) }
    ensures memory { OnErr made (result ≡ no_memory) }
{
    match made {
        Ok(reply) => of_reply(&reply),
        Err(NoMemory) => NO_MEMORY,
    }
}

/// Returns C's number for what a `get` saw. If it saw a number, writes that to `number`.
#[inline(always)]
pub fn of_fetched(fetched: Fetched, number: &mut u64) -> u32
    ensures value { (reply : Reply) → fetched ≡ fetched_of reply → result ≡ got_in_c reply }
    ensures number { (reply : Reply) → fetched ≡ fetched_of reply → number.new ≡ number_after number.old reply }
    ensures made { ¬ IsRefusal result }
{
    match fetched {
        Fetched::NoObject => NO_OBJECT,
        Fetched::NoField => NO_FIELD,
        Fetched::Nil => NIL,
        Fetched::Num(n) => {
            *number = n.get();
            NUMBER
        }
        Fetched::Object => OBJECT,
    }
}

// What a `get` saw, given its reply.
fn fetched_in(reply: &Reply) -> Fetched
    ensures { result ≡ fetched_of reply.now }
{
    match reply {
        Reply::NoField => Fetched::NoField,
        Reply::Saw(View::Nil) => Fetched::Nil,
        Reply::Saw(View::Num(n)) => Fetched::Num(*n),
        Reply::Saw(_) => Fetched::Object,
        _ => Fetched::NoObject,
    }
}

/// Does the same for the reply to a `get`.
pub fn of_got(reply: &Reply, number: &mut u64) -> u32
    ensures value { result ≡ got_in_c reply.now }
    ensures number { number.new ≡ number_after number.old reply.now }
    ensures made { ¬ IsRefusal result }
{
    of_fetched(fetched_in(reply), number)
}

fn view_of(view: &View) -> GcflipView
    ensures { result ≡ view_in_c view.now }
{
    let (kind, count, number) = match view {
        View::Nil => (0, 0, 0),
        View::Num(n) => (0, 0, n.get()),
        View::Obj { kind, len } => (u32::from(*kind), u32::from(*len), 0),
        View::RawObj { kind, len } => (u32::from(*kind), u32::from(*len), 0),
    };
    GcflipView {
        kind,
        count,
        number,
    }
}

/// Returns C's number for the reply to a `look`, and writes what it saw to `view`.
pub fn of_look(reply: &Reply, view: &mut GcflipView) -> u32
    ensures value { result ≡ reply_in_c reply.now }
    ensures view { view.new ≡ view_after view.old reply.now }
    ensures made { ¬ IsRefusal result }
{
    if let Reply::Saw(saw) = reply {
        *view = view_of(saw);
    }
    of_reply(reply)
}
