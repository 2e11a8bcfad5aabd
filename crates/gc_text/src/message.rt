use crate::printer::Printer;
use std::fmt;
use std::marker::Model;

/// The forms of a message.
#[derive(Clone, Copy, Debug)]
enum Form {
    Text(&'static str),
    Numbered(&'static str, u64),
    NumberedTwice(&'static str, u64, &'static str, u64),
}

/// The text of a fault, with up to two numbers in it. `Display` and `print` show the same text.
#[derive(Debug, Drop)]
pub struct Message {
    form: Form,
}

impl Model for Message {
    ghost use Rattle.std.specs.Prelude.{List, ℕ};
    ghost use Rattle.gc_text.specs.Messages.{text_of_form};
    ghost use Rattle.gc_text.specs.Internal.Messages.{IsShort};

    ghost Value = { List ℕ };

    ghost view = { λ m. text_of_form m.form };

    ghost invariant = { λ m. IsShort m.form };
}

impl Message {
    ghost use Rattle.std.specs.Prelude.{◌≡◌, ◌++◌, ◌+◌, ◌≤◌, length, decimal};

    /// Returns a message without a number.
    pub fn text(text: &'static str) -> Self
        requires { length text.now ≤ 40 }
        ensures { result ≡ text.entry.now }
    {
        Message {
            form: Form::Text(text),
        }
    }

    /// Returns a text followed by a number.
    pub fn numbered(text: &'static str, n: u64) -> Self
        requires { length text.now ≤ 40 }
        ensures { result ≡ text.entry.now ++ decimal n }
    {
        Message {
            form: Form::Numbered(text, n),
        }
    }

    /// Returns two texts, each followed by a number.
    pub fn numbered_twice(first: &'static str, m: u64, second: &'static str, n: u64) -> Self
        requires first { length first.now ≤ 40 }
        requires second { length second.now ≤ 40 }
        ensures { result ≡ (first.entry.now ++ decimal m) ++ (second.entry.now ++ decimal n) }
    {
        Message {
            form: Form::NumberedTwice(first, m, second, n),
        }
    }

    /// Appends the text to the printer's buffer.
    #[tactic(auto, unfolding(crate::specs::Messages::text_of_form))]
    pub fn print(&self, printer: &mut Printer)
        requires { length printer.old + 120 ≤ 16384 }
        ensures text { printer.new ≡ printer.old ++ self.now }
        ensures room { length printer.new ≤ length printer.old + 120 }
    {
        match self.form {
            Form::Text(text) => printer.bytes(text.as_bytes()),
            Form::Numbered(text, n) => printer.numbered(text.as_bytes(), n),
            Form::NumberedTwice(first, m, second, n) => {
                printer.numbered(first.as_bytes(), m);
                printer.numbered(second.as_bytes(), n);
            }
        }
    }
}

impl fmt::Display for Message {
    fn fmt<W: fmt::Write>(&self, f: &mut fmt::Formatter<W>) -> fmt::Result {
        match self.form {
            Form::Text(text) => write!(f, "{text}"),
            Form::Numbered(text, n) => write!(f, "{text}{n}"),
            Form::NumberedTwice(first, m, second, n) => write!(f, "{first}{m}{second}{n}"),
        }
    }
}
