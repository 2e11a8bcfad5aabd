use arrayvec::ArrayVec;
use gc_graph::{Failed, NoMemory, Sink};
use itoa::Buffer;
use std::io::Write;
use std::marker::Model;

/// A buffer for up to 16 KiB of output. Only `gather` and `gather_all` allocate.
#[derive(Drop)]
pub struct Printer {
    waiting: ArrayVec<u8, 16384>,
}

impl Model for Printer {
    ghost use Rattle.std.specs.Prelude.{List, ℕ};

    ghost Value = { List ℕ };

    ghost view = { λ p. p.waiting.items };
}

impl Printer {
    ghost use Rattle.std.specs.Prelude.{◌≡◌, ◌++◌, ◌+◌, ◌≤◌, [], true, length, decimal, OnOk, OnErr};
    ghost use Rattle.std.specs.Io.KnownBytes.{Appends};
    ghost use Rattle.gc_graph.specs.Streams.{bytes_written, sink_failed, SendsFront, HasSent};

    /// Returns an empty buffer.
    pub fn new() -> Self
        ensures { result ≡ [] }
    {
        Printer {
            waiting: ArrayVec::new(),
        }
    }

    /// Makes room for `count` bytes: writes the buffer out if it has too little.
    pub fn make_room<W: Write>(&mut self, writer: &mut Sink<W>, count: usize) -> Result<(), Failed>
        requires { count ≤ 16384 }
        ensures room { OnOk result (length self.new + count ≤ 16384) }
        ensures ok { OnOk result (HasSent
            (bytes_written W.contents writer.old) (bytes_written W.contents writer.new) self.old self.new) }
        ensures err { OnErr result (SendsFront
            (bytes_written W.contents writer.old) (bytes_written W.contents writer.new) self.old) }
        ensures failed { OnErr result (sink_failed writer.new ≡ true) }
    {
        if count <= self.waiting.remaining_capacity() {
            return Ok(());
        }
        self.flush(writer)
    }

    /// Makes room for `count` bytes: moves the buffered bytes to the end of the text if the buffer has too little. On
    /// `NoMemory` nothing has moved.
    pub fn gather(&mut self, text: &mut Vec<u8>, count: usize) -> Result<(), NoMemory>
        requires { count ≤ 16384 }
        ensures room { OnOk result (length self.new + count ≤ 16384) }
        ensures moved { text.new.items ++ self.new ≡ text.old.items ++ self.old }
        ensures refused { OnErr result (self.new ≡ self.old) }
    {
        if count > self.waiting.remaining_capacity() {
            return self.gather_all(text);
        }
        Ok(())
    }

    /// Moves the buffered bytes to the end of the text. On `NoMemory` nothing has moved.
    pub fn gather_all(&mut self, text: &mut Vec<u8>) -> Result<(), NoMemory>
        ensures empty { OnOk result (self.new ≡ []) }
        ensures moved { text.new.items ++ self.new ≡ text.old.items ++ self.old }
        ensures refused { OnErr result (self.new ≡ self.old) }
    {
        text.extend_from_slice(self.waiting.as_slice())?;
        self.waiting.clear();
        Ok(())
    }

    /// Appends the bytes.
    pub fn bytes(&mut self, text: &[u8])
        requires { length self.old + length text.now ≤ 16384 }
        ensures { self.new ≡ self.old ++ text.now }
    {
        let _ = self.waiting.try_extend_from_slice(text);
    }

    /// Appends the number's decimal.
    pub fn number(&mut self, n: u64)
        requires { length self.old + 20 ≤ 16384 }
        ensures text { self.new ≡ self.old ++ decimal n }
        ensures room { length self.new ≤ length self.old + 20 }
    {
        let mut digits = Buffer::new();
        self.bytes(digits.format(n).as_bytes());
    }

    /// Appends the text and the number's decimal.
    pub fn numbered(&mut self, text: &[u8], n: u64)
        requires { length self.old + length text.now + 20 ≤ 16384 }
        ensures text { self.new ≡ self.old ++ (text.now ++ decimal n) }
        ensures room { length self.new ≤ length self.old + length text.now + 20 }
    {
        self.bytes(text);
        self.number(n);
    }

    /// Writes the buffer out and empties it.
    pub fn flush<W: Write>(&mut self, writer: &mut Sink<W>) -> Result<(), Failed>
        ensures empty { OnOk result (self.new ≡ []) }
        ensures ok { OnOk result (Appends
            (bytes_written W.contents writer.old) (bytes_written W.contents writer.new) self.old) }
        ensures err { OnErr result (SendsFront
            (bytes_written W.contents writer.old) (bytes_written W.contents writer.new) self.old) }
        ensures failed { OnErr result (sink_failed writer.new ≡ true) }
    {
        match writer.write_all(self.waiting.as_slice()) {
            Ok(()) => {
                self.waiting.clear();
                Ok(())
            }
            Err(failed) => Err(failed),
        }
    }
}
