ghost use Rattle.std.specs.Prelude.{◌≤◌, IfOk};

use gc_graph::{Failed, Number, Op, Plain, Reply, Sink, Slot, Source};
use gc_text::{Lines, ReadFault};
use std::io;
use std::io::{ErrorKind, Read, Write};
use std::process::Abort;
use std::test::Fail;

// The worked rows of the plain machine are in the tests of gc_heap, which play them on it and on a heap.

#[test]
fn numbers_are_below_2_63(rt: HostRuntime) -> Result<(), Fail> {
    let n = Number::new(9223372036854775807).ok_or("number")?;
    assert_eq!(rt; n.get(), 9223372036854775807);
    assert_eq!(rt; Number::new(9223372036854775808), None);
    Ok(())
}

#[test]
fn one_word_is_reserved(rt: HostRuntime) -> Result<(), Fail> {
    let r0 = Slot::own(0).ok_or("slot")?;
    let mut plain = Plain::new(rt.alloc(), 7, 1)?;
    assert_eq!(rt; plain.free(), 6);
    let new = Op::New {
        d: r0,
        kind: 3,
        len: 4,
    };
    assert_eq!(rt; plain.apply(0, &new), Ok(Reply::Made));
    assert_eq!(rt; plain.free(), 0);
    Ok(())
}

#[test]
fn slots_have_places(rt: HostRuntime) -> Result<(), Fail> {
    let own = Slot::own(15).ok_or("slot")?;
    let shared = Slot::shared(15).ok_or("slot")?;
    assert_eq!(rt;
        (own.place(0), own.place(15), shared.place(15)),
        (31, 271, 15)
    );
    assert_eq!(rt; (own.is_shared(), shared.is_shared()), (false, true));
    assert_eq!(rt; (own.index(), shared.index()), (15, 15));
    assert_eq!(rt; (Slot::own(16), Slot::shared(16)), (None, None));
    Ok(())
}

/// A reader whose every call is interrupted.
#[derive(Drop)]
struct Interrupted;

impl Read for Interrupted {
    fn read(&mut self, _: &mut [u8]) -> io::Result<usize> {
        Err(io::ErrorKind::Interrupted.into())
    }
}

/// A writer that takes no byte.
#[derive(Drop)]
struct Closed;

impl Write for Closed {
    fn write(&mut self, _: &[u8]) -> io::Result<usize> {
        Ok(0)
    }

    fn flush(&mut self) -> io::Result<()> {
        Ok(())
    }
}

#[test]
fn an_interrupted_read_is_a_failure_for_good(rt: HostRuntime) {
    let mut source = Source::new(Interrupted);
    let mut buffer = [0u8; 4];
    assert!(rt; !source.failed());
    assert_eq!(rt; source.read(&mut buffer), Err(Failed));
    assert!(rt; source.failed());
    assert_eq!(rt; source.read(&mut buffer), Err(Failed));
}

#[test]
fn a_write_of_no_byte_is_a_failure_for_good(rt: HostRuntime) {
    let mut sink = Sink::new(Closed);
    assert!(rt; !sink.failed());
    assert_eq!(rt; sink.write(b"text"), Err(Failed));
    assert!(rt; sink.failed());
    assert_eq!(rt; sink.write(b"text"), Err(Failed));
}

/// How the first call of a `Hesitant` fails.
#[derive(Clone, Copy)]
enum Hitch {
    /// It returns this error.
    Error(ErrorKind),
    /// It takes no byte.
    NoByte,
}

/// A stream whose first call fails. Later calls would succeed.
#[derive(Drop)]
struct Hesitant {
    hitch: Option<Hitch>,
    calls: usize,
}

impl Hesitant {
    fn new(hitch: Hitch) -> Hesitant {
        Hesitant {
            hitch: Some(hitch),
            calls: 0,
        }
    }

    fn answer(&mut self, all: usize) -> io::Result<usize>
        ensures { IfOk result (λ count. count ≤ all) }
    {
        self.calls = self.calls.saturating_add(1);
        match self.hitch.take() {
            Some(Hitch::Error(kind)) => Err(kind.into()),
            Some(Hitch::NoByte) => Ok(0),
            None => Ok(all),
        }
    }
}

impl Read for Hesitant {
    fn read(&mut self, buf: &mut [u8]) -> io::Result<usize> {
        self.answer(buf.len())
    }
}

impl Write for Hesitant {
    fn write(&mut self, buf: &[u8]) -> io::Result<usize> {
        self.answer(buf.len())
    }

    fn flush(&mut self) -> io::Result<()> {
        Ok(())
    }
}

/// Every kind of error, in the order of the standard library.
const KINDS: [ErrorKind; 42] = [
    ErrorKind::NotFound,
    ErrorKind::PermissionDenied,
    ErrorKind::ConnectionRefused,
    ErrorKind::ConnectionReset,
    ErrorKind::HostUnreachable,
    ErrorKind::NetworkUnreachable,
    ErrorKind::ConnectionAborted,
    ErrorKind::NotConnected,
    ErrorKind::AddrInUse,
    ErrorKind::AddrNotAvailable,
    ErrorKind::NetworkDown,
    ErrorKind::BrokenPipe,
    ErrorKind::AlreadyExists,
    ErrorKind::WouldBlock,
    ErrorKind::NotADirectory,
    ErrorKind::IsADirectory,
    ErrorKind::DirectoryNotEmpty,
    ErrorKind::ReadOnlyFilesystem,
    ErrorKind::FilesystemLoop,
    ErrorKind::StaleNetworkFileHandle,
    ErrorKind::InvalidInput,
    ErrorKind::InvalidData,
    ErrorKind::TimedOut,
    ErrorKind::WriteZero,
    ErrorKind::StorageFull,
    ErrorKind::NotSeekable,
    ErrorKind::QuotaExceeded,
    ErrorKind::FileTooLarge,
    ErrorKind::ResourceBusy,
    ErrorKind::ExecutableFileBusy,
    ErrorKind::Deadlock,
    ErrorKind::CrossesDevices,
    ErrorKind::TooManyLinks,
    ErrorKind::InvalidFilename,
    ErrorKind::ArgumentListTooLong,
    ErrorKind::Interrupted,
    ErrorKind::Unsupported,
    ErrorKind::UnexpectedEof,
    ErrorKind::OutOfMemory,
    ErrorKind::InProgress,
    ErrorKind::Other,
    ErrorKind::Uncategorized,
];

#[test]
fn a_reader_that_fails_once_is_not_asked_again(rt: HostRuntime) {
    for kind in KINDS {
        let hitch = Hitch::Error(kind);
        expect_one_read(&rt, hitch);
        let mut reader = Hesitant::new(hitch);
        let opened = Lines::open(rt.alloc(), 9, &mut Source::new(&mut reader));
        assert_eq!(rt; opened.err(), Some(ReadFault::Read));
        assert_eq!(rt; reader.calls, 1);
    }
}

/// Asserts that a source whose reader fails in this way reads once, and fails from then on.
fn expect_one_read(rt: &impl Abort, hitch: Hitch) {
    let mut reader = Hesitant::new(hitch);
    let mut source = Source::new(&mut reader);
    let mut buffer = [0u8; 4];
    assert_eq!(rt; source.read(&mut buffer), Err(Failed));
    assert!(rt; source.failed());
    assert_eq!(rt; source.read(&mut buffer), Err(Failed));
    assert_eq!(rt; reader.calls, 1);
}

#[test]
fn a_writer_that_fails_once_is_not_asked_again(rt: HostRuntime) {
    expect_one_write(&rt, Hitch::NoByte);
    for kind in KINDS {
        expect_one_write(&rt, Hitch::Error(kind));
    }
}

/// Asserts that a sink whose writer fails in this way writes once, and fails from then on.
fn expect_one_write(rt: &impl Abort, hitch: Hitch) {
    let mut writer = Hesitant::new(hitch);
    let mut sink = Sink::new(&mut writer);
    assert_eq!(rt; sink.write(b"text"), Err(Failed));
    assert!(rt; sink.failed());
    assert_eq!(rt; sink.write(b"text"), Err(Failed));
    assert_eq!(rt; writer.calls, 1);
    let mut writer = Hesitant::new(hitch);
    assert_eq!(rt; Sink::new(&mut writer).write_all(b"text"), Err(Failed));
    assert_eq!(rt; writer.calls, 1);
}

/// The list of kinds has each kind of the standard library once: each stands at its own number, and the last is last.
#[test]
fn all_kinds_of_errors_are_listed(rt: HostRuntime) {
    for (number, kind) in KINDS.iter().enumerate() {
        assert_eq!(rt; *kind as usize, number);
    }
}

#[test]
fn one_read_and_one_write_take_what_they_can(rt: HostRuntime) {
    let mut reader = Hesitant {
        hitch: None,
        calls: 0,
    };
    let mut buffer = [0u8; 4];
    assert_eq!(rt; Source::new(&mut reader).read(&mut buffer), Ok(4));
    assert_eq!(rt; reader.calls, 1);
    let mut writer = Hesitant {
        hitch: None,
        calls: 0,
    };
    assert_eq!(rt; Sink::new(&mut writer).write(b"text"), Ok(4));
    assert_eq!(rt; writer.calls, 1);
}

#[test]
fn bytes_are_handed_on(rt: HostRuntime) -> Result<(), Fail> {
    let mut source = Source::new(b"text".as_slice());
    let mut buffer = [0u8; 3];
    assert_eq!(rt; source.read(&mut buffer), Ok(3));
    assert_eq!(rt; buffer, *b"tex");
    assert_eq!(rt; source.read(&mut buffer), Ok(1));
    assert_eq!(rt; source.read(&mut buffer), Ok(0));
    let mut sink = Sink::new(Vec::new(rt.alloc()));
    assert_eq!(rt; sink.write(b"text"), Ok(4));
    let written = sink.into_inner();
    assert_eq!(rt; written.as_slice(), b"text".as_slice());
    Ok(())
}
