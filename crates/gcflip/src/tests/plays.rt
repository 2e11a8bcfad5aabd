use super::traces::{FULL, RAW};
use crate::commands::play_from;
use crate::faults::Fault;
use gc_graph::{Sink, Source};
use gc_trace::{PlayFault, TraceFault};
use std::test::Fail;

#[test]
fn traces_have_their_replies_and_status(rt: HostRuntime) -> Result<(), Fail> {
    let mut sink = Sink::new(Vec::new(rt.alloc()));
    let found = play_from(rt.alloc(), &mut Source::new(FULL), &mut sink);
    assert_eq!(rt; found, Ok(0));
    assert_eq!(rt;
        sink.into_inner().as_slice(),
        b"made\nfull\nsaw nil\n".as_slice()
    );
    Ok(())
}

#[test]
fn raw_objects_have_replies_of_their_own(rt: HostRuntime) -> Result<(), Fail> {
    let mut sink = Sink::new(Vec::new(rt.alloc()));
    let found = play_from(rt.alloc(), &mut Source::new(RAW), &mut sink);
    assert_eq!(rt; found, Ok(0));
    let want = b"made\nno number\ndone\ndone\nbegun\ncopied\ndone\npassed\napplied\n\
        flipped 1\nsaw raw 7 2\nsaw num 8\n";
    assert_eq!(rt; sink.into_inner().as_slice(), want.as_slice());
    Ok(())
}

#[test]
fn bad_traces_have_no_status(rt: HostRuntime) {
    let mut sink = Sink::new(Vec::new(rt.alloc()));
    let found = play_from(rt.alloc(), &mut Source::new(&FULL[..20]), &mut sink);
    let header = Fault::Play(PlayFault::Trace(TraceFault::BadHeader));
    assert_eq!(rt; found, Err(header));
    assert!(rt; sink.into_inner().is_empty());
}
