ghost use Rattle.std.specs.Prelude.{◌≡◌, ◌∷◌, ◌++◌, ◌+◌, ◌≤◌, length, codes};
ghost use Rattle.gc_text.specs.Lines.{line};
ghost use Rattle.gc_trace.specs.Replies.{reply_line, view_tokens, reply_tokens, step_reply_tokens};

use gc_graph::{Reply, View};
use gc_model::StepReply;
use gc_text::Printer;
use gc_world::Answer;
use std::io::Write;

/// An upper bound on the number of bytes in a reply line.
pub const LINE: usize = 64;

/// Prints the line of a `saw` reply.
#[tactic(auto, unfolding(crate::specs::Replies::view_tokens))]
fn print_view(printer: &mut Printer, view: &View)
    requires { length printer.old + 64 ≤ 16384 }
    ensures { printer.new ≡ printer.old ++ line (codes "saw" ∷ view_tokens view.now) }
{
    match view {
        View::Nil => printer.bytes(b"saw nil\n"),
        View::Num(n) => {
            printer.bytes(b"saw num ");
            printer.number(n.get());
            printer.bytes(b"\n");
        }
        View::Obj { kind, len } => {
            printer.bytes(b"saw obj ");
            printer.number(u64::from(*kind));
            printer.bytes(b" ");
            printer.number(u64::from(*len));
            printer.bytes(b"\n");
        }
        View::RawObj { kind, len } => {
            printer.bytes(b"saw raw ");
            printer.number(u64::from(*kind));
            printer.bytes(b" ");
            printer.number(u64::from(*len));
            printer.bytes(b"\n");
        }
    }
}

/// Prints the line of a mutator's reply.
#[tactic(auto, unfolding(crate::specs::Replies::reply_tokens))]
fn print_reply(printer: &mut Printer, reply: &Reply)
    requires { length printer.old + 64 ≤ 16384 }
    ensures { printer.new ≡ printer.old ++ line (reply_tokens reply.now) }
{
    match reply {
        Reply::Full => printer.bytes(b"full\n"),
        Reply::Made => printer.bytes(b"made\n"),
        Reply::Done => printer.bytes(b"done\n"),
        Reply::NoObject => printer.bytes(b"no object\n"),
        Reply::NoField => printer.bytes(b"no field\n"),
        Reply::NoNumber => printer.bytes(b"no number\n"),
        Reply::Saw(view) => print_view(printer, view),
        Reply::Yes => printer.bytes(b"yes\n"),
        Reply::No => printer.bytes(b"no\n"),
    }
}

/// Prints the line of a reply to a step.
#[tactic(auto, unfolding(crate::specs::Replies::step_reply_tokens))]
fn print_step_reply(printer: &mut Printer, reply: StepReply)
    requires { length printer.old + 64 ≤ 16384 }
    ensures { printer.new ≡ printer.old ++ line (step_reply_tokens reply) }
{
    match reply {
        StepReply::Busy => printer.bytes(b"busy\n"),
        StepReply::Begun => printer.bytes(b"begun\n"),
        StepReply::Idle => printer.bytes(b"idle\n"),
        StepReply::Clean => printer.bytes(b"clean\n"),
        StepReply::NoRoom => printer.bytes(b"no room\n"),
        StepReply::Copied => printer.bytes(b"copied\n"),
        StepReply::Passed => printer.bytes(b"passed\n"),
        StepReply::Scanned => printer.bytes(b"scanned\n"),
        StepReply::Applied => printer.bytes(b"applied\n"),
        StepReply::NotReady => printer.bytes(b"not ready\n"),
        StepReply::Refused => printer.bytes(b"refused\n"),
        StepReply::Flipped { pairs } => {
            printer.bytes(b"flipped ");
            printer.number(u64::from(pairs));
            printer.bytes(b"\n");
        }
        StepReply::Dropped => printer.bytes(b"dropped\n"),
    }
}

/// Prints the line of an answer.
#[tactic(auto, unfolding(crate::specs::Replies::answer_tokens))]
pub fn print_answer(printer: &mut Printer, answer: &Answer)
    requires { length printer.old + 64 ≤ 16384 }
    ensures { printer.new ≡ printer.old ++ reply_line answer.now }
{
    match answer {
        Answer::Mutator(reply) => print_reply(printer, reply),
        Answer::Collector(reply) => print_step_reply(printer, *reply),
        Answer::Useful(reply) => print_step_reply(printer, *reply),
    }
}
