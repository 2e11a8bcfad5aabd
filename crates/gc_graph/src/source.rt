ghost use Rattle.std.specs.Prelude.{◌≡◌, true, false, is_err, IsErr};
ghost use Rattle.std.specs.Io.{ReadsAtMost};
ghost use Rattle.std.specs.Io.KnownBytes.{ReadConsumes};

use std::io::Read;
use thiserror::Error;

/// A read or a write failed. The kind of error is not kept.
#[derive(Clone, Copy, Debug, PartialEq, Eq, Error)]
#[error("failed")]
pub struct Failed;

/// A reader. After a failure every call fails.
#[derive(Drop)]
pub struct Source<R> {
    reader: R,
    failed: bool,
}

impl<R: Read> Source<R> {
    ghost use Rattle.gc_graph.specs.Streams.{bytes_left, source_failed};

    pub fn new(reader: R) -> Self
        ensures bytes { bytes_left R.remaining result ≡ R.remaining reader }
        ensures sound { source_failed result ≡ false }
    {
        Source {
            reader,
            failed: false,
        }
    }

    /// Returns whether a read has failed.
    pub fn failed(&self) -> bool
        ensures { result ≡ source_failed self.now }
    {
        self.failed
    }

    /// Reads once; after a failure, not at all. `Ok(0)` is the end of input.
    pub fn read(&mut self, buffer: &mut [u8]) -> Result<usize, Failed>
        ensures bound { ReadsAtMost result buffer.new }
        ensures bytes { ReadConsumes (bytes_left R.remaining self.old) (bytes_left R.remaining self.new) result buffer.new }
        ensures fails { source_failed self.new ≡ is_err result }
        ensures stays_failed { source_failed self.old ≡ true → IsErr result }
        ensures untouched { source_failed self.old ≡ true → self.new ≡ self.old }
    {
        if self.failed {
            return Err(Failed);
        }
        match self.reader.read(buffer) {
            Ok(count) => Ok(count),
            Err(_) => {
                self.failed = true;
                Err(Failed)
            }
        }
    }
}
