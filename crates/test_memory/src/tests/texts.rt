//! Texts that the tests read, and a writer that does not allocate.

use std::io;
use std::io::Write;

/// A trace in which a full space is collected: one of two objects is copied.
pub const COLLECT_WHEN_FULL: &[u8] = b"\
    heaptrace 1\nspace 9 mutators 1\nm 0 new r0 1 2\nm 0 new r0 1 2\nm 0 new r1 0 0\nc begin\n\
    c roots\nc scan\nc scan\nc scan\nc scan\nc roots\nc flip\nm 0 new r1 0 0\n";

/// The pair text of that trace's flip.
pub const ONE_KEPT: &[u8] = b"\
    heappair 2\n\
    old 9 9\n0\n16842754\n0\n0\n0\n16842754\n1\n0\n0\n\
    roots 32\n0\n0\n0\n0\n0\n0\n0\n0\n0\n0\n0\n0\n0\n0\n0\n0\n10\n0\n0\n0\n0\n0\n0\n0\n0\n0\n0\n0\n0\n0\n0\n0\n\
    new 9 5\n0\n16842754\n5\n0\n0\n\
    roots 32\n0\n0\n0\n0\n0\n0\n0\n0\n0\n0\n0\n0\n0\n0\n0\n0\n2\n0\n0\n0\n0\n0\n0\n0\n0\n0\n0\n0\n0\n0\n0\n0\n\
    pairs 1\n5 1\nend\n";

/// The report of that trace.
pub const REPORT: &[u8] = b"\
    events 12\nmade 3\nfull 1\nbegun 1\ncopied 1\nscanned 2\napplied 0\nflips 1\npairs 1\ndropped 0\nrefused 0\n\
    end 7\nfree 2\n";

/// A trace in which a mutator writes to a field that is already scanned, and the log entry is applied.
pub const WRITE_WHILE_SCANNING: &[u8] = b"\
    heaptrace 1\nspace 32 mutators 1\nm 0 new r0 1 1\nm 0 num r1 9\nc begin\nc roots\nc scan\n\
    m 0 put r0 0 r1\nc scan\nc flip\nc apply 0\nc flip\nm 0 get r2 r0 0\n";

/// The same trace up to the collection.
pub const BEFORE_BEGIN: &[u8] = b"\
    heaptrace 1\nspace 32 mutators 1\nm 0 new r0 1 1\nm 0 num r1 9\n";

/// The same trace up to the flip that succeeds.
pub const BEFORE_FLIP: &[u8] = b"\
    heaptrace 1\nspace 32 mutators 1\nm 0 new r0 1 1\nm 0 num r1 9\nc begin\nc roots\nc scan\n\
    m 0 put r0 0 r1\nc scan\nc flip\nc apply 0\n";

/// A trace in which two mutators write to the same field, and the log entries are applied in the opposite order.
pub const LOG_ACROSS_TWO_MUTATORS: &[u8] = b"\
    heaptrace 1\nspace 32 mutators 2\nm 0 new g0 1 1\nc begin\nc roots\nc scan\nc scan\n\
    m 0 num r0 7\nm 0 put g0 0 r0\nm 1 look r0\nm 1 num r0 8\nm 1 put g0 0 r0\nc apply 1\n\
    c apply 0\nc apply 0\nc flip\nm 0 get r1 g0 0\n";

/// The reply lines of that trace.
pub const REPLIES_ACROSS_TWO_MUTATORS: &[u8] = b"\
    made\nbegun\ncopied\nscanned\npassed\ndone\ndone\nsaw nil\ndone\ndone\napplied\napplied\n\
    clean\nflipped 1\nsaw num 8\n";

/// The maximum number of bytes that a writer takes.
const MOST: usize = 512;

/// A writer that takes up to 512 bytes. Does not allocate.
#[derive(Drop)]
pub struct Fixed {
    bytes: [u8; 512],
    taken: usize,
}

impl Fixed {
    pub fn new() -> Fixed {
        Fixed {
            bytes: [0; 512],
            taken: 0,
        }
    }

    /// Returns the bytes that it took.
    pub fn taken(&self) -> &[u8] {
        &self.bytes[..self.taken.min(MOST)]
    }
}

impl Write for Fixed {
    fn write(&mut self, buf: &[u8]) -> io::Result<usize> {
        if self.taken >= MOST {
            return Ok(0);
        }
        let start = self.taken;
        let count = buf.len().min(MOST - start);
        self.bytes[start..start + count].copy_from_slice(&buf[..count]);
        self.taken = start + count;
        Ok(count)
    }

    fn flush(&mut self) -> io::Result<()> {
        Ok(())
    }
}
