use crate::tests::trace::expectations::expect_bytes;
use crate::tests::trace::rows::{COLLECT_WHEN_FULL, NO_EVENTS, RAW_WORDS_KEEP_NOTHING, ROWS};
use crate::tests::trace::worlds::run_of;
use gc_cert::WriteFault;
use gc_copy::StepReply;
use gc_graph::{Sink, Source};
use gc_trace::{PlayFault, Report, TraceFault, play, play_report, report_of, write_report};
use std::alloc::Global;
use std::test::Fail;
use test_kit::streams::{End, Narrow, Slow};

/// A report whose numbers are all 0.
pub const NOTHING: Report = Report {
    events: 0,
    made: 0,
    full: 0,
    begun: 0,
    copied: 0,
    scanned: 0,
    applied: 0,
    flips: 0,
    pairs: 0,
    dropped: 0,
    refused: 0,
    end: 0,
    free: 0,
};

/// The report of a run that collects a full space.
pub const COLLECTED: &[u8] = b"events 12\nmade 3\nfull 1\nbegun 1\ncopied 1\nscanned 2\napplied 0\n\
    flips 1\npairs 1\ndropped 0\nrefused 0\nend 7\nfree 2\n";

#[test]
fn each_answer_is_counted(rt: HostRuntime) -> Result<(), Fail> {
    let world = run_of(rt.alloc(), COLLECT_WHEN_FULL.trace)?;
    let report = report_of(&world);
    let want = Report {
        events: 12,
        made: 3,
        full: 1,
        begun: 1,
        copied: 1,
        scanned: 2,
        flips: 1,
        pairs: 1,
        end: 7,
        free: 2,
        ..NOTHING
    };
    assert_eq!(rt; report, want);
    let mut sink = Sink::new(Vec::new(rt.alloc()));
    assert_eq!(rt; write_report(&mut sink, &report), Ok(()));
    expect_bytes(&rt, sink.into_inner().as_slice(), COLLECTED, "");
    Ok(())
}

#[test]
fn logs_and_drops_are_counted(rt: HostRuntime) -> Result<(), Fail> {
    let text =
        b"heaptrace 1\nspace 16 mutators 1\nm 0 new r0 1 1\nc begin\nm 0 put r0 0 r0\nc apply 0\nc drop\n";
    let world = run_of(rt.alloc(), text)?;
    let want = Report {
        events: 5,
        made: 1,
        begun: 1,
        applied: 1,
        dropped: 1,
        end: 4,
        free: 12,
        ..NOTHING
    };
    assert_eq!(rt; report_of(&world), want);
    Ok(())
}

#[test]
fn useful_steps_count_as_the_collectors(rt: HostRuntime) -> Result<(), Fail> {
    let full = b"heaptrace 1\nspace 9 mutators 1\nm 0 new r0 1 2\nm 0 new r0 1 2\n";
    let mut world = run_of(rt.alloc(), full)?;
    for reply in [
        StepReply::Begun,
        StepReply::Copied,
        StepReply::Scanned,
        StepReply::Scanned,
        StepReply::Passed,
        StepReply::Flipped { pairs: 1 },
    ] {
        assert_eq!(rt; world.collect_useful(&rt)?.1, reply);
    }
    let want = Report {
        events: 8,
        made: 2,
        begun: 1,
        copied: 1,
        scanned: 2,
        flips: 1,
        pairs: 1,
        end: 5,
        free: 4,
        ..NOTHING
    };
    assert_eq!(rt; report_of(&world), want);
    Ok(())
}

#[test]
fn a_failed_writer_has_a_front(rt: HostRuntime) {
    for end in [End::Silent, End::Broken, End::Interrupted] {
        let mut sink = Sink::new(Narrow::new(7, end));
        assert_eq!(rt; write_report(&mut sink, &NOTHING), Err(WriteFault::Write));
        assert!(rt; sink.failed());
        assert_eq!(rt; write_report(&mut sink, &NOTHING), Err(WriteFault::Write));
        expect_bytes(&rt, sink.into_inner().taken(), b"events ".as_slice(), "");
    }
}

/// Returns the text of the report.
fn reported(alloc: Global, text: &[u8]) -> Result<Vec<u8>, PlayFault> {
    let mut sink = Sink::new(Vec::new(alloc));
    play_report(alloc, &mut Source::new(text), &mut sink)?;
    Ok(sink.into_inner())
}

#[test]
fn the_report_of_a_play_is_written_alone(rt: HostRuntime) -> Result<(), Fail> {
    let found = reported(rt.alloc(), COLLECT_WHEN_FULL.trace)?;
    expect_bytes(&rt, found.as_slice(), COLLECTED, "");
    let nothing = b"events 0\nmade 0\nfull 0\nbegun 0\ncopied 0\nscanned 0\napplied 0\n\
        flips 0\npairs 0\ndropped 0\nrefused 0\nend 1\nfree 7\n";
    let found = reported(rt.alloc(), NO_EVENTS.trace)?;
    expect_bytes(&rt, found.as_slice(), nothing.as_slice(), "");
    Ok(())
}

#[test]
fn raw_objects_are_counted_as_others(rt: HostRuntime) -> Result<(), Fail> {
    let want = b"events 13\nmade 2\nfull 1\nbegun 1\ncopied 1\nscanned 0\napplied 0\n\
        flips 1\npairs 1\ndropped 0\nrefused 0\nend 4\nfree 0\n";
    let found = reported(rt.alloc(), RAW_WORDS_KEEP_NOTHING.trace)?;
    expect_bytes(&rt, found.as_slice(), want.as_slice(), "");
    Ok(())
}

#[test]
fn both_plays_report_alike(rt: HostRuntime) -> Result<(), Fail> {
    let alloc = rt.alloc();
    for row in ROWS {
        let mut replies = Sink::new(Vec::new(alloc));
        let played = play(alloc, &mut Source::new(row.trace), &mut replies)?;
        let mut text = Sink::new(Vec::new(alloc));
        let reported = play_report(alloc, &mut Source::new(row.trace), &mut text)?;
        assert_eq!(rt; played, reported, "of {}", row.name);
    }
    Ok(())
}

#[test]
fn a_text_that_is_not_read_has_no_report(rt: HostRuntime) {
    for end in [End::Broken, End::Interrupted] {
        let broken = Slow::of(COLLECT_WHEN_FULL.trace, end);
        let mut sink = Sink::new(Vec::new(rt.alloc()));
        let found = play_report(rt.alloc(), &mut Source::new(broken), &mut sink);
        assert_eq!(rt; found, Err(PlayFault::Trace(TraceFault::Read)));
        assert!(rt; sink.into_inner().is_empty());
    }
    let bad = b"heaptrace 1\nspace 8 mutators 1\nc flip";
    let found = reported(rt.alloc(), bad);
    assert_eq!(rt; found.err(), Some(PlayFault::Trace(TraceFault::BadLine(3))));
}

#[test]
fn a_front_of_the_report_goes_out_before_the_writer_fails(rt: HostRuntime) {
    for end in [End::Silent, End::Broken, End::Interrupted] {
        let mut sink = Sink::new(Narrow::new(7, end));
        let mut source = Source::new(COLLECT_WHEN_FULL.trace);
        let found = play_report(rt.alloc(), &mut source, &mut sink);
        assert_eq!(rt; found, Err(PlayFault::Write));
        assert!(rt; sink.failed());
        expect_bytes(&rt, sink.into_inner().taken(), b"events ".as_slice(), "");
    }
}
