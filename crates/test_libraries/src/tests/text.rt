ghost use Rattle.std.specs.Prelude.{◌≤◌, decimal};

use gc_graph::{Sink, Source};
use gc_text::{Front, LineKind, Lines, Message, Printer, ReadFault, cut};
use std::alloc::Global;
use std::io;
use std::io::Read;
use std::test::Fail;

/// A reader of zeroes, in pieces that grow from one byte.
#[derive(Drop)]
struct Zeroes {
    left: usize,
    piece: usize,
}

impl Read for Zeroes {
    fn read(&mut self, buf: &mut [u8]) -> io::Result<usize> {
        let count = self.piece.min(self.left).min(buf.len());
        buf[..count].fill(0);
        self.left -= count;
        self.piece = self.piece.saturating_add(1);
        Ok(count)
    }
}

/// Reads `left` zeroes under a limit. Returns the number of bytes that wait at the end, or the fault, and how many bytes one
/// more read gets.
fn had(alloc: Global, left: usize, limit: usize) -> (Result<usize, ReadFault>, usize) {
    let mut source = Source::new(Zeroes { left, piece: 1 });
    let had = waiting_at_end(alloc, limit, &mut source);
    let mut rest = [0u8; 64];
    (had, source.read(&mut rest).unwrap_or(0))
}

fn waiting_at_end(
    alloc: Global,
    limit: usize,
    source: &mut Source<Zeroes>,
) -> Result<usize, ReadFault> {
    let mut lines = Lines::open(alloc, limit, source)?;
    lines.read_to_end(source)?;
    Ok(lines.waiting().len())
}

#[test]
fn all_bytes_up_to_the_limit(rt: HostRuntime) {
    assert_eq!(rt; had(rt.alloc(), 0, 0), (Ok(0), 0));
    assert_eq!(rt; had(rt.alloc(), 300000, 300000), (Ok(300000), 0));
    assert_eq!(rt;
        had(rt.alloc(), 300002, 300000),
        (Err(ReadFault::TooLarge), 1)
    );
    assert_eq!(rt; had(rt.alloc(), 1, 0), (Err(ReadFault::TooLarge), 0));
}

/// The kind of a line with one digit.
#[derive(Drop)]
struct Digit;

impl LineKind for Digit {
    type Value = u64;

    ghost fits = { λ _ n. n ≤ 9 };

    ghost line = { λ _ n. decimal n };

    fn take(&self, front: &mut Front<'_>) -> Option<u64> {
        let n = front.number(9)?;
        front.byte(b'\n')?;
        Some(n)
    }
}

/// A line of another kind is not taken, and the text from that line on waits.
#[test]
fn lines_are_taken_in_order(rt: HostRuntime) -> Result<(), ReadFault> {
    let mut source = Source::new(b"1\n2\n3".as_slice());
    let mut lines = Lines::open(rt.alloc(), 5, &mut source)?;
    assert_eq!(rt; lines.taken(), 0);
    assert_eq!(rt; lines.take(&Digit, &mut source)?, Some(1));
    assert_eq!(rt; lines.take(&Digit, &mut source)?, Some(2));
    assert_eq!(rt; lines.take(&Digit, &mut source)?, None);
    assert_eq!(rt; lines.taken(), 2);
    assert_eq!(rt; lines.waiting(), b"3".as_slice());
    Ok(())
}

#[test]
fn numbers_at_the_front_of_a_text(rt: HostRuntime) {
    let rows: [(&[u8], u64, Option<u64>, &[u8]); 16] = [
        (b"0", 0, Some(0), b""),
        (b"7", 6, None, b"7"),
        (b"00", 9, None, b"00"),
        (b"+1", 9, None, b"+1"),
        (
            b"9223372036854775807",
            9223372036854775807,
            Some(9223372036854775807),
            b"",
        ),
        (
            b"99999999999999999999",
            u64::MAX,
            None,
            b"99999999999999999999",
        ),
        (
            b"100000000000000000000",
            u64::MAX,
            None,
            b"100000000000000000000",
        ),
        (b"0 1", 9, Some(0), b" 1"),
        (b"01", 9, None, b"01"),
        (b"10", 9, None, b"10"),
        (b"x1", 9, None, b"x1"),
        (b"", 9, None, b""),
        (
            b"12345678901234567890\n7",
            u64::MAX,
            Some(12345678901234567890),
            b"\n7",
        ),
        (b"18446744073709551615x", u64::MAX, Some(u64::MAX), b"x"),
        (
            b"18446744073709551616x",
            u64::MAX,
            None,
            b"18446744073709551616x",
        ),
        (
            b"20000000000000000000x",
            u64::MAX,
            None,
            b"20000000000000000000x",
        ),
    ];
    for (text, most, want, rest) in rows {
        let mut front = Front::new(text);
        assert_eq!(rt; front.number(most), want, "{text:?}");
        assert_eq!(rt; front.rest(), rest, "{text:?}");
    }
}

#[test]
fn bytes_at_the_front_of_a_text(rt: HostRuntime) {
    let mut front = Front::new(b"ab");
    assert!(rt; front.byte(b'b').is_none());
    assert!(rt; front.byte(b'a').is_some());
    assert_eq!(rt; front.rest(), b"b".as_slice());
    assert!(rt; front.byte(b'b').is_some());
    assert!(rt; front.byte(b'b').is_none());
}

#[test]
fn literals_at_the_front_of_a_text(rt: HostRuntime) {
    let mut front = Front::new(b"space 8");
    assert!(rt; front.literal(b"spaces").is_none());
    assert!(rt; front.literal(b"space 80").is_none());
    assert!(rt; front.literal(b"space").is_some());
    assert_eq!(rt; front.rest(), b" 8".as_slice());
    assert!(rt; front.literal(b"").is_some());
    assert_eq!(rt; front.rest(), b" 8".as_slice());
}

#[test]
fn a_text_is_cut_at_the_first_line_feed(rt: HostRuntime) -> Result<(), Fail> {
    let (line, rest) = cut(b'\n', b"put 12\nmore").ok_or("line")?;
    assert_eq!(rt; line, b"put 12".as_slice());
    assert_eq!(rt; rest, b"more".as_slice());
    assert!(rt; cut(b'\n', rest).is_none());
    Ok(())
}

#[test]
fn what_waits_goes_out_in_order(rt: HostRuntime) -> Result<(), Fail> {
    let mut sink = Sink::new(Vec::new(rt.alloc()));
    let mut printer = Printer::new();
    for _ in 0..2000 {
        printer.make_room(&mut sink, 21)?;
        printer.number(u64::MAX);
        printer.bytes(b"\n");
    }
    printer.flush(&mut sink)?;
    let all = sink.into_inner();
    assert_eq!(rt; all.len(), 42000);
    assert!(rt;
        all.chunks(21)
            .all(|line| line == b"18446744073709551615\n".as_slice())
    );
    Ok(())
}

#[test]
fn messages_are_shown_as_they_are_printed(rt: HostRuntime) -> Result<(), Fail> {
    let alloc = rt.alloc();
    let rows = [
        (Message::text("too large"), "too large"),
        (Message::numbered("bad line ", 0), "bad line 0"),
        (
            Message::numbered_twice("seat ", 2, " call ", u64::MAX),
            "seat 2 call 18446744073709551615",
        ),
    ];
    for (message, text) in &rows {
        let mut printer = Printer::new();
        message.print(&mut printer);
        let mut sink = Sink::new(Vec::new(alloc));
        printer.flush(&mut sink)?;
        assert_eq!(rt; sink.into_inner().as_slice(), text.as_bytes());
        assert_eq!(rt; message.to_string(alloc)?.as_str(), *text);
    }
    Ok(())
}
