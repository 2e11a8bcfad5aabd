use crate::tests::trace::rows::ONE_OBJECT_FILLS_THE_SPACE;
use crate::tests::trace::texts::{count_of, flips};
use gc_copy::Step;
use gc_graph::{Op, Sink, Slot, Source};
use gc_trace::{PlayFault, TraceFault, play, read_trace};
use gc_world::Event;
use std::test::Fail;
use test_kit::streams::{End, Giving, Same, Slow};

/// Bad texts, with slashes for line feeds, and the first fault of each.
const BAD_TEXTS: [(&str, TraceFault); 21] = [
    ("", TraceFault::BadHeader),
    ("heaptrace 1/space 0 mutators 1/", TraceFault::BadHeader),
    ("heaptrace 1/space 8 mutators 17/", TraceFault::BadHeader),
    ("heaptrace 1/space 8 mutators 1", TraceFault::BadHeader),
    (
        "heaptrace 1/space 8 mutators 1/m 0 look r0",
        TraceFault::BadLine(3),
    ),
    (
        "heaptrace 1/space 8 mutators 1/m 0 look r16/",
        TraceFault::BadLine(3),
    ),
    (
        "heaptrace 1/space 8 mutators 1/m 0  look r0/",
        TraceFault::BadLine(3),
    ),
    (
        "heaptrace 1/space 8 mutators 1/m 0 new r0 256 0/",
        TraceFault::BadLine(3),
    ),
    (
        "heaptrace 1/space 8 mutators 1/m 0 num r0 01/",
        TraceFault::BadLine(3),
    ),
    (
        "heaptrace 1/space 7 mutators 1/m 0 num r0 9223372036854775808/m 0 look r0/",
        TraceFault::BadLine(3),
    ),
    (
        "heaptrace 1/space 8 mutators 1/m 16 look r0/",
        TraceFault::BadLine(3),
    ),
    (
        "heaptrace 1/space 8 mutators 1/m 1 look r0/",
        TraceFault::NoSuchMutator(3),
    ),
    (
        "heaptrace 1/space 8 mutators 1/c apply 1/x/",
        TraceFault::NoSuchMutator(3),
    ),
    (
        "heaptrace 1/space 8 mutators 1/m 0 nil g0//",
        TraceFault::BadLine(4),
    ),
    (
        "heaptrace 2/space 8 mutators 1/c begin 0/",
        TraceFault::BadLine(3),
    ),
    (
        "heaptrace 2/space 8 mutators 1/c begin 1048577/",
        TraceFault::BadLine(3),
    ),
    (
        "heaptrace 1/space 8 mutators 1/c begin 12/",
        TraceFault::BadLine(3),
    ),
    (
        "heaptrace 1/space 8 mutators 1/m 0 raw r0 7 2/",
        TraceFault::BadLine(3),
    ),
    (
        "heaptrace 2/space 8 mutators 1/m 0 raw r0 7 2/",
        TraceFault::BadLine(3),
    ),
    (
        "heaptrace 3/space 8 mutators 1/m 0 raw r0 7 65536/",
        TraceFault::BadLine(3),
    ),
    ("heaptrace 4/space 8 mutators 1/", TraceFault::BadHeader),
];

#[test]
fn the_first_fault_is_answered(rt: HostRuntime) -> Result<(), Fail> {
    let alloc = rt.alloc();
    for (lines, want) in BAD_TEXTS {
        let text = lines.replace(alloc, '/', "\n")?;
        assert_eq!(rt; count_of(alloc, text.as_bytes()), Err(want), "of {lines}");
        let mut sink = Sink::new(Vec::new(alloc));
        let found = play(alloc, &mut Source::new(text.as_bytes()), &mut sink);
        assert_eq!(rt; found.err(), Some(PlayFault::Trace(want)), "of {lines}");
        assert!(rt; sink.into_inner().is_empty());
    }
    Ok(())
}

#[test]
fn a_trace_is_read_as_its_parts(rt: HostRuntime) -> Result<(), Fail> {
    let mut source = Source::new(ONE_OBJECT_FILLS_THE_SPACE.trace);
    let trace = read_trace(rt.alloc(), &mut source)?;
    assert_eq!(rt; trace.version, 1);
    assert_eq!(rt; trace.size, 7);
    assert_eq!(rt; trace.mutators, 1);
    assert_eq!(rt; trace.events.len(), 3);
    let s = Slot::own(1).ok_or("slot")?;
    let look = Event::Mutate {
        m: 0,
        op: Op::Look { s },
    };
    assert_eq!(rt; trace.events[2], look);
    Ok(())
}

#[test]
fn a_collection_may_have_its_size_in_the_second_version(rt: HostRuntime) -> Result<(), Fail> {
    let text = b"heaptrace 2\nspace 8 mutators 1\nc begin\nc begin 12\n";
    let trace = read_trace(rt.alloc(), &mut Source::new(text.as_slice()))?;
    assert_eq!(rt; trace.version, 2);
    assert_eq!(rt; trace.events.len(), 2);
    assert_eq!(rt; trace.events[0], Event::Collect(Step::Begin));
    assert_eq!(rt; trace.events[1], Event::Collect(Step::BeginSized(12)));
    Ok(())
}

#[test]
fn raw_objects_are_read_in_the_third_version(rt: HostRuntime) -> Result<(), Fail> {
    let text = b"heaptrace 3\nspace 8 mutators 1\nm 0 raw r1 7 65535\nc begin 12\n";
    let trace = read_trace(rt.alloc(), &mut Source::new(text.as_slice()))?;
    assert_eq!(rt; trace.version, 3);
    assert_eq!(rt; trace.events.len(), 2);
    let d = Slot::own(1).ok_or("slot")?;
    let raw = Event::Mutate {
        m: 0,
        op: Op::NewRaw {
            d,
            kind: 7,
            len: 65535,
        },
    };
    assert_eq!(rt; trace.events[0], raw);
    assert_eq!(rt; trace.events[1], Event::Collect(Step::BeginSized(12)));
    Ok(())
}

/// Returns what the first `end` bytes of the text must give: the number of events or the fault, and the reply lines.
fn front(end: usize) -> (Result<usize, TraceFault>, &'static [u8]) {
    match end {
        0..=30 => (Err(TraceFault::BadHeader), b""),
        31 => (Ok(0), b""),
        46 => (Ok(1), b"made\n"),
        61 => (Ok(2), b"made\nfull\n"),
        73 => (Ok(3), b"made\nfull\nsaw nil\n"),
        32..=45 => (Err(TraceFault::BadLine(3)), b""),
        47..=60 => (Err(TraceFault::BadLine(4)), b""),
        _ => (Err(TraceFault::BadLine(5)), b""),
    }
}

#[test]
fn each_front_of_a_text_has_its_answer(rt: HostRuntime) {
    let alloc = rt.alloc();
    let text = ONE_OBJECT_FILLS_THE_SPACE.trace;
    assert_eq!(rt; text.len(), 73);
    for end in 0..=text.len() {
        let (count, replies) = front(end);
        let cut = &text[..end];
        assert_eq!(rt; count_of(alloc, cut), count, "at {end}");
        let mut sink = Sink::new(Vec::new(alloc));
        let found = play(alloc, &mut Source::new(cut), &mut sink);
        assert_eq!(rt; found.err(), count.err().map(PlayFault::Trace), "at {end}");
        assert_eq!(rt; sink.into_inner().as_slice(), replies, "at {end}");
    }
}

#[test]
fn the_limit_comes_first(rt: HostRuntime) {
    for (left, end, want) in [
        (16777216, End::Silent, TraceFault::BadHeader),
        (16777216, End::Broken, TraceFault::Read),
        (16777217, End::Silent, TraceFault::TooLarge),
        (16777217, End::Broken, TraceFault::TooLarge),
    ] {
        let long = Same { left, end };
        assert_eq!(rt; count_of(rt.alloc(), long), Err(want), "of {left} bytes");
    }
}

#[test]
fn a_slow_reader_changes_no_answer(rt: HostRuntime) {
    for (text, count) in [
        (ONE_OBJECT_FILLS_THE_SPACE.trace, Ok(3)),
        (
            b"heaptrace 1\nspace 8 mutators 1\nm 0 look r0",
            Err(TraceFault::BadLine(3)),
        ),
    ] {
        let slow = Slow {
            bytes: text,
            step: 1,
            end: End::Silent,
        };
        assert_eq!(rt; count_of(rt.alloc(), slow), count);
    }
}

#[test]
fn a_reader_that_fails_midway_is_no_text(rt: HostRuntime) {
    let text = ONE_OBJECT_FILLS_THE_SPACE.trace;
    for end in [End::Broken, End::Interrupted] {
        for given in [0, 20, 46, 73] {
            assert!(rt; given <= text.len());
            let broken = Slow::of(&text[..given], end);
            let mut source = Source::new(broken);
            let found = read_trace(rt.alloc(), &mut source);
            assert_eq!(rt; found.err(), Some(TraceFault::Read), "after {given} bytes");
            assert!(rt; source.failed());
        }
    }
}

#[test]
fn a_text_is_read_in_few_calls(rt: HostRuntime) -> Result<(), Fail> {
    let text = flips(rt.alloc(), 9000)?;
    let mut reader = Giving {
        bytes: &text,
        calls: 0,
    };
    let trace = read_trace(rt.alloc(), &mut Source::new(&mut reader))?;
    assert_eq!(rt; trace.events.len(), 9000);
    assert!(rt; reader.calls < 20, "{} calls", reader.calls);
    Ok(())
}
