use crate::tests::trace::expectations::{expect_bytes, expect_text};
use crate::tests::trace::report::NOTHING;
use crate::tests::trace::rows::{NO_EVENTS, ONE_OBJECT_FILLS_THE_SPACE, ROWS};
use crate::tests::trace::texts::{count_of, flips, played, played_to};
use crate::tests::trace::worlds::run_of;
use gc_graph::{Sink, Source};
use gc_trace::{PlayFault, Report, TraceFault, play};
use std::test::Fail;
use test_kit::streams::{End, Narrow, Slow, Taking};

#[test]
fn replies_are_those_of_the_worked_rows(rt: HostRuntime) -> Result<(), Fail> {
    for row in ROWS {
        let found = played(rt.alloc(), row.trace)?;
        expect_bytes(&rt, found.as_slice(), row.replies, row.name);
    }
    Ok(())
}

#[test]
fn a_play_reports_the_run(rt: HostRuntime) -> Result<(), Fail> {
    let mut sink = Sink::new(Vec::new(rt.alloc()));
    let mut source = Source::new(ONE_OBJECT_FILLS_THE_SPACE.trace);
    let want = Report {
        events: 3,
        made: 1,
        full: 1,
        end: 7,
        ..NOTHING
    };
    assert_eq!(rt; play(rt.alloc(), &mut source, &mut sink)?, want);
    Ok(())
}

#[test]
fn no_events_no_replies(rt: HostRuntime) -> Result<(), Fail> {
    assert_eq!(rt; count_of(rt.alloc(), NO_EVENTS.trace), Ok(0));
    assert!(rt; played(rt.alloc(), NO_EVENTS.trace)?.is_empty());
    Ok(())
}

#[test]
fn more_replies_than_wait_at_once(rt: HostRuntime) -> Result<(), Fail> {
    let mut text = Vec::from_slice(rt.alloc(), b"heaptrace 1\nspace 8 mutators 16\n")?;
    let mut want = Vec::new(rt.alloc());
    for _ in 0..3000 {
        text.extend_from_slice(b"m 15 look r15\n")?;
        want.extend_from_slice(b"saw nil\n")?;
    }
    expect_bytes(
        &rt,
        played(rt.alloc(), &text)?.as_slice(),
        want.as_slice(),
        "",
    );
    Ok(())
}

#[test]
fn a_slow_reader_changes_no_reply(rt: HostRuntime) -> Result<(), Fail> {
    let slow = Slow {
        bytes: ONE_OBJECT_FILLS_THE_SPACE.trace,
        step: 1,
        end: End::Silent,
    };
    let mut sink = Sink::new(Vec::new(rt.alloc()));
    play(rt.alloc(), &mut Source::new(slow), &mut sink)?;
    expect_bytes(
        &rt,
        sink.into_inner().as_slice(),
        ONE_OBJECT_FILLS_THE_SPACE.replies,
        "",
    );
    Ok(())
}

#[test]
fn nothing_is_played_of_a_reader_that_fails(rt: HostRuntime) {
    let text = ONE_OBJECT_FILLS_THE_SPACE.trace;
    assert!(rt; text.len() > 20);
    for end in [End::Broken, End::Interrupted] {
        let broken = Slow {
            bytes: &text[..20],
            step: 8,
            end,
        };
        let mut source = Source::new(broken);
        let mut sink = Sink::new(Vec::new(rt.alloc()));
        let want = PlayFault::Trace(TraceFault::Read);
        assert_eq!(rt; play(rt.alloc(), &mut source, &mut sink), Err(want));
        assert!(rt; source.failed());
        assert!(rt; sink.into_inner().is_empty());
    }
}

#[test]
fn a_front_goes_out_before_the_writer_fails(rt: HostRuntime) {
    let text = ONE_OBJECT_FILLS_THE_SPACE.trace;
    for end in [End::Silent, End::Broken, End::Interrupted] {
        let (answer, writer) = played_to(rt.alloc(), text, Narrow::new(7, end));
        assert_eq!(rt; answer, Err(PlayFault::Write));
        expect_bytes(&rt, writer.taken(), b"made\nfu".as_slice(), "");
    }
}

#[test]
fn faults_are_shown(rt: HostRuntime) -> Result<(), Fail> {
    let alloc = rt.alloc();
    for (fault, text) in [
        (TraceFault::TooLarge, "trace: too large"),
        (TraceFault::BadHeader, "trace: bad header"),
        (TraceFault::BadLine(3), "trace: bad line 3"),
        (
            TraceFault::NoSuchMutator(4),
            "trace: no such mutator at line 4",
        ),
        (TraceFault::Read, "cannot read"),
    ] {
        expect_text(&rt, alloc, &fault, text)?;
        expect_text(&rt, alloc, &PlayFault::Trace(fault), text)?;
    }
    for (fault, text) in [
        (PlayFault::NoSuchFlip, "trace: no such flip"),
        (PlayFault::Write, "cannot write"),
        (PlayFault::NoMemory, "no memory"),
    ] {
        expect_text(&rt, alloc, &fault, text)?;
    }
    Ok(())
}

#[test]
fn replies_are_written_in_few_calls(rt: HostRuntime) -> Result<(), Fail> {
    let text = flips(rt.alloc(), 9000)?;
    let mut writer = Taking::new();
    let mut source = Source::new(text.as_slice());
    play(rt.alloc(), &mut source, &mut Sink::new(&mut writer))?;
    assert_eq!(rt; writer.bytes, 45000);
    assert!(rt; writer.calls < 6, "{} calls", writer.calls);
    Ok(())
}

/// A text has at most 16777216 bytes, so no trace has more events than this one.
#[test]
fn the_longest_trace_is_run(rt: HostRuntime) -> Result<(), Fail> {
    let text = flips(rt.alloc(), 2396740)?;
    assert_eq!(rt; text.len(), 16777211);
    let world = run_of(rt.alloc(), text.as_slice())?;
    assert_eq!(rt; world.history().len(), 2396740);
    Ok(())
}
