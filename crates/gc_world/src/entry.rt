use crate::bare::{BareOp, BareReply};
use gc_copy::{Step, StepReply};
use gc_graph::{Number, Op, Reply, Slot, View};
use gc_model::{Answer, Event};
use std::marker::Model;

/// An event of a history, with its answer. It takes 24 bytes; an `Event` and an `Answer` would take 56.
#[derive(Clone, Copy, Debug, PartialEq, Eq)]
pub struct Entry {
    form: Form,
}

// How an entry is stored: with at most one number of 8 bytes, except for a pair that no world makes.
#[derive(Clone, Copy, Debug, PartialEq, Eq)]
enum Form {
    // A command, and a reply that shows no number.
    Command {
        m: u8,
        reply: BareReply,
        op: Op,
    },
    // A command that gives no number, and the number that its reply shows.
    Shown {
        m: u8,
        op: BareOp,
        n: Number,
    },
    // A `Num` whose reply shows a number. No world gives that reply, but `Entry::command` can be called with it.
    GivenAndShown {
        m: u8,
        d: Slot,
        given: Number,
        shown: Number,
    },
    // A step, its reply, and whether it was chosen as the useful one.
    Step {
        useful: bool,
        step: Step,
        reply: StepReply,
    },
}

impl Model for Entry {
    ghost use Rattle.gc_world.specs.Entries.{EntryValue};

    ghost Value = { EntryValue };

    ghost use Rattle.gc_world.specs.Forms.{meaning};
    ghost use Rattle.gc_world.specs.Internal.Forms.{form_of, forms_come_back};

    ghost view = { λ e. meaning e.form };

    ghost inverse = { λ v. record { form = form_of v.event v.answer } };

    ghost inverse_ok = { λ e h i. record { form = forms_come_back e.form i } };
}

impl Entry {
    ghost use Rattle.std.specs.Prelude.{◌≡◌, ◌↔◌, if◌then◌else◌, IsTrue};
    ghost use Rattle.gc_world.specs.World.{entry_of};
    ghost use Rattle.gc_model.specs.declared.event.Event.{Event};
    ghost use Rattle.gc_model.specs.declared.event.Answer.{Answer};

    /// Returns the entry of mutator `m`'s command and its reply.
    pub fn command(m: u8, op: &Op, reply: &Reply) -> Entry
        ensures { result ≡ entry_of (Event.Mutate m op.now) (Answer.Mutator reply.now) }
    {
        let form = match BareReply::of(reply) {
            Ok(reply) => Form::Command { m, reply, op: *op },
            Err(shown) => form_of_shown(m, op, shown),
        };
        Entry { form }
    }

    /// Returns the entry of a step and its reply.
    pub fn step(step: Step, reply: StepReply) -> Entry
        ensures { result ≡ entry_of (Event.Collect step) (Answer.Collector reply) }
    {
        Entry::of_step(step, reply, false)
    }

    /// Returns the entry of a step that was chosen as the useful one, and its reply.
    pub fn useful(step: Step, reply: StepReply) -> Entry
        ensures { result ≡ entry_of (Event.Collect step) (Answer.Useful reply) }
    {
        Entry::of_step(step, reply, true)
    }

    /// Returns the entry of a step and its reply, and whether it was chosen as the useful one.
    pub(crate) fn of_step(step: Step, reply: StepReply, useful: bool) -> Entry
        ensures { result ≡ entry_of (Event.Collect step)
            (if useful then Answer.Useful reply else Answer.Collector reply) }
    {
        let form = Form::Step {
            useful,
            step,
            reply,
        };
        Entry { form }
    }

    /// Returns the event.
    pub fn event(&self) -> Event
        ensures { result ≡ self.now.event }
    {
        match self.form {
            Form::Command { m, op, .. } => Event::Mutate { m, op },
            Form::Shown { m, op, .. } => Event::Mutate { m, op: op.op() },
            Form::GivenAndShown { m, d, given, .. } => Event::Mutate {
                m,
                op: Op::Num { d, n: given },
            },
            Form::Step { step, .. } => Event::Collect(step),
        }
    }

    /// Returns the answer.
    pub fn answer(&self) -> Answer
        ensures { result ≡ self.now.answer }
    {
        match self.form {
            Form::Command { reply, .. } => Answer::Mutator(reply.reply()),
            Form::Shown { n, .. } => Answer::Mutator(Reply::Saw(View::Num(n))),
            Form::GivenAndShown { shown, .. } => Answer::Mutator(Reply::Saw(View::Num(shown))),
            Form::Step { useful, reply, .. } => {
                if useful {
                    Answer::Useful(reply)
                } else {
                    Answer::Collector(reply)
                }
            }
        }
    }

    /// Returns whether the two have the same event and answer.
    pub fn is(&self, other: &Entry) -> bool
        ensures { IsTrue result ↔ (self.now ≡ other.now) }
    {
        self.form == other.form
    }
}

ghost use Rattle.std.specs.Prelude.{◌≡◌};
ghost use Rattle.gc_model.specs.declared.event.Event.{Event};
ghost use Rattle.gc_model.specs.declared.event.Answer.{Answer};
ghost use Rattle.gc_graph.specs.declared.reply.Reply.TheVariants as replies;
ghost use Rattle.gc_graph.specs.declared.reply.View.TheVariants as views;
ghost use Rattle.gc_world.specs.World.{entry_of};
ghost use Rattle.gc_world.specs.Forms.{meaning};

// Returns the form of a command whose reply shows a number.
fn form_of_shown(m: u8, op: &Op, shown: Number) -> Form
    ensures { meaning result ≡ entry_of (Event.Mutate m op.now) (Answer.Mutator (replies.Saw (views.Num shown))) }
{
    match BareOp::of(op) {
        Ok(op) => Form::Shown { m, op, n: shown },
        Err((d, given)) => Form::GivenAndShown { m, d, given, shown },
    }
}

const _: () = prove!(size_of::<Entry>() == 24);
