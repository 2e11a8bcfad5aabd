//! Readers and writers that stop, fail or transfer few bytes at a time, and such that count their calls.

use std::io;
use std::io::{Read, Write};

/// What a stream does after it has given all its bytes, or taken as many as it has room for.
#[derive(Clone, Copy)]
pub enum End {
    /// Gives or takes no more bytes.
    Silent,
    /// Fails.
    Broken,
    /// Returns `Interrupted` each time.
    Interrupted,
}

impl End {
    ghost use Rattle.std.specs.Prelude.{◌≡◌, IfOk};

    fn answer(self) -> io::Result<usize>
        ensures { IfOk result (λ count. count ≡ 0) }
    {
        match self {
            End::Silent => Ok(0),
            End::Broken => Err(io::Error::from(io::ErrorKind::BrokenPipe)),
            End::Interrupted => Err(io::Error::from(io::ErrorKind::Interrupted)),
        }
    }
}

/// A reader that gives its bytes a few at a time.
#[derive(Drop)]
pub struct Slow<'a> {
    pub bytes: &'a [u8],
    pub step: usize,
    pub end: End,
}

impl<'a> Slow<'a> {
    /// Returns a reader that gives twenty bytes at a time.
    pub fn of(bytes: &'a [u8], end: End) -> Self {
        Slow {
            bytes,
            step: 20,
            end,
        }
    }
}

impl Read for Slow<'_> {
    fn read(&mut self, buf: &mut [u8]) -> io::Result<usize> {
        if self.bytes.is_empty() {
            return self.end.answer();
        }
        let all = self.bytes;
        let count = self.step.min(buf.len()).min(all.len());
        buf[..count].copy_from_slice(&all[..count]);
        self.bytes = &all[count..];
        Ok(count)
    }
}

/// A reader of this many bytes `x`.
#[derive(Drop)]
pub struct Same {
    pub left: usize,
    pub end: End,
}

impl Read for Same {
    fn read(&mut self, buf: &mut [u8]) -> io::Result<usize> {
        if self.left == 0 {
            return self.end.answer();
        }
        let count = self.left.min(buf.len());
        buf[..count].fill(b'x');
        self.left -= count;
        Ok(count)
    }
}

/// The maximum number of bytes that a narrow writer takes.
const MOST: usize = 512;

/// A writer that takes the bytes that it has room for. Does not allocate.
#[derive(Drop)]
pub struct Narrow {
    bytes: [u8; 512],
    taken: usize,
    room: usize,
    end: End,
}

impl Narrow {
    pub fn new(room: usize, end: End) -> Narrow {
        Narrow {
            bytes: [0; 512],
            taken: 0,
            room: room.min(MOST),
            end,
        }
    }

    /// Returns the bytes that it took.
    pub fn taken(&self) -> &[u8] {
        &self.bytes[..self.taken.min(MOST)]
    }
}

impl Write for Narrow {
    fn write(&mut self, buf: &[u8]) -> io::Result<usize> {
        let room = self.room.min(MOST);
        if self.taken >= room {
            return self.end.answer();
        }
        let start = self.taken;
        let count = buf.len().min(room - start);
        self.bytes[start..start + count].copy_from_slice(&buf[..count]);
        self.taken = start + count;
        Ok(count)
    }

    fn flush(&mut self) -> io::Result<()> {
        Ok(())
    }
}

/// A reader that gives as many bytes as each call asks for, and counts the calls.
#[derive(Drop)]
pub struct Giving<'a> {
    pub bytes: &'a [u8],
    pub calls: usize,
}

impl Read for Giving<'_> {
    fn read(&mut self, buf: &mut [u8]) -> io::Result<usize> {
        self.calls = self.calls.saturating_add(1);
        let all = self.bytes;
        let count = buf.len().min(all.len());
        buf[..count].copy_from_slice(&all[..count]);
        self.bytes = &all[count..];
        Ok(count)
    }
}

/// A writer that takes all bytes, and counts them and the calls.
#[derive(Drop)]
pub struct Taking {
    pub bytes: usize,
    pub calls: usize,
}

impl Taking {
    pub fn new() -> Taking {
        Taking { bytes: 0, calls: 0 }
    }
}

impl Write for Taking {
    fn write(&mut self, buf: &[u8]) -> io::Result<usize> {
        self.calls = self.calls.saturating_add(1);
        self.bytes = self.bytes.saturating_add(buf.len());
        Ok(buf.len())
    }

    fn flush(&mut self) -> io::Result<()> {
        Ok(())
    }
}
