use super::traces::{COLLECT_WHEN_FULL, RAW};
use crate::commands::report_from;
use crate::faults::Fault;
use gc_graph::{Sink, Source};
use gc_trace::{PlayFault, TraceFault};
use std::test::Fail;

#[test]
fn traces_have_their_report_and_status(rt: HostRuntime) -> Result<(), Fail> {
    let want = b"events 12\nmade 3\nfull 1\nbegun 1\ncopied 1\nscanned 2\napplied 0\n\
        flips 1\npairs 1\ndropped 0\nrefused 0\nend 7\nfree 2\n";
    let mut sink = Sink::new(Vec::new(rt.alloc()));
    let found = report_from(rt.alloc(), &mut Source::new(COLLECT_WHEN_FULL), &mut sink);
    assert_eq!(rt; found, Ok(0));
    assert_eq!(rt; sink.into_inner().as_slice(), want.as_slice());
    Ok(())
}

#[test]
fn raw_objects_are_counted_as_others(rt: HostRuntime) -> Result<(), Fail> {
    let want = b"events 12\nmade 1\nfull 0\nbegun 1\ncopied 1\nscanned 0\napplied 1\n\
        flips 1\npairs 1\ndropped 0\nrefused 0\nend 5\nfree 3\n";
    let mut sink = Sink::new(Vec::new(rt.alloc()));
    let found = report_from(rt.alloc(), &mut Source::new(RAW), &mut sink);
    assert_eq!(rt; found, Ok(0));
    assert_eq!(rt; sink.into_inner().as_slice(), want.as_slice());
    Ok(())
}

#[test]
fn bad_traces_have_no_report(rt: HostRuntime) {
    let mut sink = Sink::new(Vec::new(rt.alloc()));
    let unended = &COLLECT_WHEN_FULL[..40];
    let found = report_from(rt.alloc(), &mut Source::new(unended), &mut sink);
    let third = Fault::Play(PlayFault::Trace(TraceFault::BadLine(3)));
    assert_eq!(rt; found, Err(third));
    assert!(rt; sink.into_inner().is_empty());
}

#[test]
fn reports_without_room_have_no_status(rt: HostRuntime) {
    let mut room = [0u8; 12];
    let mut sink = Sink::new(room.as_mut_slice());
    let found = report_from(rt.alloc(), &mut Source::new(COLLECT_WHEN_FULL), &mut sink);
    assert_eq!(rt; found, Err(Fault::Play(PlayFault::Write)));
    assert!(rt; sink.failed());
    assert_eq!(rt; room, *b"events 12\nma");
}
