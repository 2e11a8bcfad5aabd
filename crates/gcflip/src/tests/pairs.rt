use super::traces::{COLLECT_WHEN_FULL, RAW};
use crate::commands::{check_from, pair_from};
use crate::faults::Fault;
use gc_graph::{Sink, Source};
use gc_trace::{PlayFault, TraceFault};
use std::test::Fail;

/// The pair text of the first flip. The unreachable object is not copied.
const FIRST_FLIP: &[u8] = b"heappair 2\n\
    old 9 9\n0\n16842754\n0\n0\n0\n16842754\n1\n0\n0\n\
    roots 32\n\
    0\n0\n0\n0\n0\n0\n0\n0\n0\n0\n0\n0\n0\n0\n0\n0\n\
    10\n0\n0\n0\n0\n0\n0\n0\n0\n0\n0\n0\n0\n0\n0\n0\n\
    new 9 5\n0\n16842754\n5\n0\n0\n\
    roots 32\n\
    0\n0\n0\n0\n0\n0\n0\n0\n0\n0\n0\n0\n0\n0\n0\n0\n\
    2\n0\n0\n0\n0\n0\n0\n0\n0\n0\n0\n0\n0\n0\n0\n0\n\
    pairs 1\n5 1\nend\n";

/// The pair text of a flip with a raw object, whose words are its numbers.
const RAW_FLIP: &[u8] = b"heappair 2\n\
    old 8 5\n0\n50790402\n1\n8\n8\n\
    roots 32\n\
    0\n0\n0\n0\n0\n0\n0\n0\n0\n0\n0\n0\n0\n0\n0\n0\n\
    2\n17\n0\n0\n0\n0\n0\n0\n0\n0\n0\n0\n0\n0\n0\n0\n\
    new 8 5\n0\n50790402\n1\n8\n8\n\
    roots 32\n\
    0\n0\n0\n0\n0\n0\n0\n0\n0\n0\n0\n0\n0\n0\n0\n0\n\
    2\n17\n0\n0\n0\n0\n0\n0\n0\n0\n0\n0\n0\n0\n0\n0\n\
    pairs 1\n1 1\nend\n";

#[test]
fn flips_have_their_pair_and_status(rt: HostRuntime) -> Result<(), Fail> {
    for (trace, flip) in [(COLLECT_WHEN_FULL, FIRST_FLIP), (RAW, RAW_FLIP)] {
        let mut sink = Sink::new(Vec::new(rt.alloc()));
        let found = pair_from(rt.alloc(), 1, &mut Source::new(trace), &mut sink);
        assert_eq!(rt; found, Ok(0));
        let pair = sink.into_inner();
        assert_eq!(rt; pair.as_slice(), flip);
        let mut sink = Sink::new(Vec::new(rt.alloc()));
        let checked = check_from(
            &rt,
            rt.alloc(),
            &mut Source::new(pair.as_slice()),
            &mut sink,
        );
        assert_eq!(rt; checked, Ok(0));
        assert_eq!(rt; sink.into_inner().as_slice(), b"yes 1\n".as_slice());
    }
    Ok(())
}

#[test]
fn flips_that_are_not_there_have_no_pair(rt: HostRuntime) {
    for n in [2, u32::MAX] {
        let mut sink = Sink::new(Vec::new(rt.alloc()));
        let found = pair_from(
            rt.alloc(),
            n,
            &mut Source::new(COLLECT_WHEN_FULL),
            &mut sink,
        );
        assert_eq!(rt; found, Err(Fault::Play(PlayFault::NoSuchFlip)), "for {n}");
        assert!(rt; sink.into_inner().is_empty(), "for {n}");
    }
}

/// A trace is read to its end before it is played.
#[test]
fn bad_traces_have_no_pair(rt: HostRuntime) {
    let (whole, _) = COLLECT_WHEN_FULL.split_at(COLLECT_WHEN_FULL.len() - 1);
    let mut sink = Sink::new(Vec::new(rt.alloc()));
    let found = pair_from(rt.alloc(), 1, &mut Source::new(whole), &mut sink);
    let last = Fault::Play(PlayFault::Trace(TraceFault::BadLine(14)));
    assert_eq!(rt; found, Err(last));
    assert!(rt; sink.into_inner().is_empty());
}

#[test]
fn pairs_without_room_have_no_status(rt: HostRuntime) {
    let mut room = [0u8; 18];
    let mut sink = Sink::new(room.as_mut_slice());
    let found = pair_from(
        rt.alloc(),
        1,
        &mut Source::new(COLLECT_WHEN_FULL),
        &mut sink,
    );
    assert_eq!(rt; found, Err(Fault::Play(PlayFault::Write)));
    assert!(rt; sink.failed());
    assert_eq!(rt; room, *b"heappair 2\nold 9 9");
}
