//! The law over whole runs: what a mutator is told, whatever the collector's thread did.
ghost use Rattle.std.specs.Prelude.{◌≡◌, ◌<◌, List, length, true, false, IfErr, IfOk, OnOk};
ghost use Rattle.std.specs.Vec.{vec_len, vec_capacity};
ghost use Rattle.gc_graph.specs.Graph.{Graph};
ghost use Rattle.gc_graph.specs.Runs.{is_full};
ghost use Rattle.gc_heap.specs.Heap.{HeapWords, IsHeap};
ghost use Rattle.gc_graph.specs.declared.command.Op.{Op};
ghost use Rattle.gc_graph.specs.declared.reply.Reply.{Reply};
ghost use Rattle.gc_concurrent.specs.Holders.{heap_in};
ghost use Rattle.gc_concurrent.specs.Heaps.{GoesOnIn};
ghost use Rattle.gc_concurrent.specs.Machines.{Does, DoesAll};
ghost use Rattle.gc_concurrent.specs.Law.{Shows, AreReplies, AreAllReplies, HasNoFull, EndsAt, ShowsAfter, Serves, Ran, StandsAfter};

use crate::handshake::Runner;
use gc_graph::{NoMemory, Op, Reply, View};
use std::alloc::Global;
use std::sync::Wait;
use std::thread;

/// A run that ended before a command for which memory ran out. It has the mutator, and the replies so far.
#[derive(Drop)]
pub struct CutShort {
    pub runner: Runner,
    pub replies: Vec<Reply>,
}

// Performs a command. Returns the mutator as it was if its log cannot grow.
fn performed(runner: Runner, op: &Op) -> Result<(Runner, Reply), Runner>
    ensures does { IfOk result (λ r. Does (heap_in runner.commander) op.now r.1 (heap_in r.0.commander)) }
    ensures same { IfErr result (λ r. heap_in r.commander ≡ heap_in runner.commander) }
{
    let mut runner = runner;
    match runner.commander.apply(op) {
        Ok(reply) => Ok((runner, reply)),
        Err(NoMemory) => Err(runner),
    }
}

// Performs a command if there is a place for its reply. Returns the mutator as it was if memory runs out.
fn with_place(runner: Runner, told: &mut Vec<Reply>, op: &Op) -> Result<(Runner, Reply), Runner>
    ensures does { IfOk result (λ r. Does (heap_in runner.commander) op.now r.1 (heap_in r.0.commander)) }
    ensures same { IfErr result (λ r. heap_in r.commander ≡ heap_in runner.commander) }
    ensures place { OnOk result (vec_len told.new < vec_capacity told.new) }
    ensures told { told.new.items ≡ told.old.items }
{
    let _named = View::Nil;
    match told.reserve(1) {
        Ok(()) => performed(runner, op),
        Err(_) => Err(runner),
    }
}

/// Performs commands, with a safepoint after each, up to the first that finds no room. Returns the mutator and its replies. If memory runs out,
/// it returns the same, and the next command has not been performed.
pub fn mutate<R: Wait>(
    rt: &R,
    alloc: Global,
    runner: Runner,
    ops: &[Op],
) -> Result<(Runner, Vec<Reply>), CutShort>
    ensures replies { IfOk result (λ r. AreReplies (heap_in runner.commander) ops.now r.1.items) }
    ensures fine { IfOk result (λ r. HasNoFull r.1.items) }
    ensures ends { IfOk result (λ r. EndsAt (heap_in r.0.commander) ops.now (length r.1.items)) }
    ensures heap { IfOk result (λ r. ShowsAfter (heap_in runner.commander) ops.now (length r.1.items) (heap_in r.0.commander)) }
    ensures cut { IfErr result (λ cut. StandsAfter (heap_in runner.commander) ops.now cut.replies.items (heap_in cut.runner.commander)) }
{
    let _named = View::Nil;
    let mut told = Vec::new(alloc);
    let mut runner = runner;
    for op in ops {
        let (next, reply) = match with_place(runner, &mut told, op) {
            Ok(both) => both,
            Err(runner) => {
                return Err(CutShort {
                    runner,
                    replies: told,
                });
            }
        };
        if reply == Reply::Full {
            return Ok((next, told));
        }
        told.push_reserved(reply);
        runner = next.poll(rt);
    }
    Ok((runner, told))
}

/// What a heap shows, it shows after a safepoint too, and after a command that found no room. So runs follow one another.
pub fn what_is_shown_stays()
    ensures safepoint { (g : Graph) (old new : HeapWords) → IsHeap new → Shows g old → GoesOnIn old new → Shows g new }
    ensures full { (g : Graph) (old new : HeapWords) (op : Op) (reply : Reply) → Does old op reply new → is_full reply ≡ true → Shows g old → Shows g new }
{}

/// If every command found room at last, with safepoints anywhere between, the replies are those of each machine with room that has the graph that the heap showed.
pub fn runs_reply_alike()
    ensures replies { (heap new : HeapWords) (ops : List Op) (told : List Reply) → IsHeap heap → Ran heap ops told new → AreAllReplies heap ops told }
    ensures heap { (heap new : HeapWords) (ops : List Op) (told : List Reply) → IsHeap heap → IsHeap new → Ran heap ops told new → ShowsAfter heap ops (length ops) new }
    // A call that performs several commands is such a run.
    ensures many { (heap new : HeapWords) (ops : List Op) (told : List Reply) → IsHeap heap → HasNoFull told → DoesAll heap ops told new → Ran heap ops told new }
{}

// Performs a command, and waits for the collector while there is no room. If memory runs out, the mutator shows what it showed.
fn served<R: Wait>(
    rt: &R,
    runner: Runner,
    told: &mut Vec<Reply>,
    op: &Op,
) -> Result<(Runner, Reply), Runner>
    ensures serves { IfOk result (λ r. Serves (heap_in runner.commander) op.now r.1 (heap_in r.0.commander)) }
    ensures fine { IfOk result (λ r. is_full r.1 ≡ false) }
    ensures shows { IfErr result (λ r. (g : Graph) → Shows g (heap_in runner.commander) → Shows g (heap_in r.commander)) }
    ensures place { OnOk result (vec_len told.new < vec_capacity told.new) }
    ensures told { told.new.items ≡ told.old.items }
{
    let _named = View::Nil;
    let mut runner = runner;
    for _ in rt.forever() {
        let (next, reply) = match with_place(runner, told, op) {
            Ok(both) => both,
            Err(runner) => return Err(runner),
        };
        if reply != Reply::Full {
            return Ok((next, reply));
        }
        runner = next.poll(rt);
        thread::yield_now();
    }
    unreachable!()
}

/// Performs all commands, with a safepoint after each. One that finds no room waits until a flip has made some. If memory runs out, it returns
/// the mutator and the replies so far, and the next command has not been performed.
pub fn mutate_all<R: Wait>(
    rt: &R,
    alloc: Global,
    runner: Runner,
    ops: &[Op],
) -> Result<(Runner, Vec<Reply>), CutShort>
    ensures replies { IfOk result (λ r. AreAllReplies (heap_in runner.commander) ops.now r.1.items) }
    ensures fine { IfOk result (λ r. HasNoFull r.1.items) }
    ensures count { IfOk result (λ r. length r.1.items ≡ length ops.now) }
    ensures heap { IfOk result (λ r. ShowsAfter (heap_in runner.commander) ops.now (length r.1.items) (heap_in r.0.commander)) }
    ensures cut { IfErr result (λ cut. StandsAfter (heap_in runner.commander) ops.now cut.replies.items (heap_in cut.runner.commander)) }
{
    let _named = View::Nil;
    let mut replies = Vec::new(alloc);
    let mut runner = runner;
    for op in ops {
        let (next, reply) = match served(rt, runner, &mut replies, op) {
            Ok(both) => both,
            Err(runner) => return Err(CutShort { runner, replies }),
        };
        replies.push_reserved(reply);
        runner = next.poll(rt);
    }
    Ok((runner, replies))
}
