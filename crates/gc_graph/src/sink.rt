ghost use Rattle.std.specs.Prelude.{◌≡◌, ◌<◌, true, false, is_err, IsErr, length, IfOk, OnOk, OnErr};
ghost use Rattle.std.specs.Io.{WritesAtMost};
ghost use Rattle.std.specs.Io.KnownBytes.{Appends, WriteAppends};

use crate::source::Failed;
use std::io::Write;

/// A writer. After a failure every call fails.
#[derive(Drop)]
pub struct Sink<W> {
    writer: W,
    failed: bool,
}

impl<W: Write> Sink<W> {
    ghost use Rattle.gc_graph.specs.Streams.{bytes_written, sink_failed, SendsFront};

    pub fn new(writer: W) -> Self
        ensures bytes { bytes_written W.contents result ≡ W.contents writer }
        ensures sound { sink_failed result ≡ false }
    {
        Sink {
            writer,
            failed: false,
        }
    }

    /// Returns the writer.
    pub fn into_inner(self) -> W
        ensures { W.contents result ≡ bytes_written W.contents self }
    {
        self.writer
    }

    /// Returns whether a write has failed.
    pub fn failed(&self) -> bool
        ensures { result ≡ sink_failed self.now }
    {
        self.failed
    }

    /// Writes once; after a failure, not at all. A write of 0 bytes is a failure.
    pub fn write(&mut self, bytes: &[u8]) -> Result<usize, Failed>
        requires { 0 < length bytes.now }
        ensures bound { WritesAtMost result bytes.now }
        ensures some { IfOk result (λ count. 0 < count) }
        ensures bytes { WriteAppends (bytes_written W.contents self.old) (bytes_written W.contents self.new) result bytes.now }
        ensures fails { sink_failed self.new ≡ is_err result }
        ensures stays_failed { sink_failed self.old ≡ true → IsErr result }
        ensures untouched { sink_failed self.old ≡ true → self.new ≡ self.old }
    {
        if self.failed {
            return Err(Failed);
        }
        match self.writer.write(bytes) {
            Ok(count) if count > 0 => Ok(count),
            _ => {
                self.failed = true;
                Err(Failed)
            }
        }
    }

    /// Writes all of the text. If the writer fails, a prefix of the text was written.
    #[tactic(auto, using(crate::proofs::SentText::more_sent_slice))]
    pub fn write_all(&mut self, text: &[u8]) -> Result<(), Failed>
        ensures ok { OnOk result (Appends
            (bytes_written W.contents self.old) (bytes_written W.contents self.new) text.now) }
        ensures err { OnErr result (SendsFront
            (bytes_written W.contents self.old) (bytes_written W.contents self.new) text.now) }
        ensures failed { OnErr result (sink_failed self.new ≡ true) }
    {
        let mut rest = text;
        while !rest.is_empty() {
            let Ok(count) = self.write(rest) else {
                return Err(Failed);
            };
            rest = &rest[count..];
        }
        Ok(())
    }
}
