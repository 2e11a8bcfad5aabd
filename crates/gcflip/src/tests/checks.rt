use crate::commands::check_from;
use crate::faults::Fault;
use gc_cert::PairFault;
use gc_check::RunFault;
use gc_graph::{Sink, Source};
use std::test::Fail;

/// A pair text with garbage in the old space, which has no pair in the certificate.
const YES: &[u8] = b"heappair 1\nold 8 5\n0\n16777216\n0\n16777216\n0\nroots 1\n2\n\
    new 8 3\n0\n16777216\n0\nroots 1\n2\npairs 1\n1 1\nend\n";

/// A pair text whose replica has another kind than its original.
const REFUSED: &[u8] = b"heappair 1\nold 8 3\n0\n16777216\n0\nroots 1\n2\n\
    new 8 3\n0\n16842752\n0\nroots 1\n2\npairs 1\n1 1\nend\n";

/// A pair text of version 2 with a raw object. If its word were a value, it would refer to no object.
const RAW: &[u8] = b"heappair 2\nold 9 4\n0\n50331649\n0\n18\nroots 1\n2\n\
    new 9 4\n0\n50331649\n0\n18\nroots 1\n2\npairs 1\n1 1\nend\n";

/// The same as a text of version 1, which has no raw objects.
const RAW_IN_THE_FIRST: &[u8] = b"heappair 1\nold 9 4\n0\n50331649\n0\n18\nroots 1\n2\n\
    new 9 4\n0\n50331649\n0\n18\nroots 1\n2\npairs 1\n1 1\nend\n";

#[test]
fn verdicts_have_their_lines_and_statuses(rt: HostRuntime) -> Result<(), Fail> {
    for (text, line, status) in [
        (YES, b"yes 1\n".as_slice(), 0),
        (REFUSED, b"refused 8 HeaderDiffers 0\n".as_slice(), 1),
        (RAW, b"yes 1\n".as_slice(), 0),
        (RAW_IN_THE_FIRST, b"refused 1 OldShape 1\n".as_slice(), 1),
    ] {
        let mut sink = Sink::new(Vec::new(rt.alloc()));
        let found = check_from(&rt, rt.alloc(), &mut Source::new(text), &mut sink);
        assert_eq!(rt; found, Ok(status));
        assert_eq!(rt; sink.into_inner().as_slice(), line);
    }
    Ok(())
}

#[test]
fn bad_texts_have_no_status(rt: HostRuntime) {
    let mut sink = Sink::new(Vec::new(rt.alloc()));
    let found = check_from(&rt, rt.alloc(), &mut Source::new(&YES[..9]), &mut sink);
    let early = Fault::Check(RunFault::Pair(PairFault::EndsEarly));
    assert_eq!(rt; found, Err(early));
    assert!(rt; sink.into_inner().is_empty());
}

#[test]
fn verdicts_without_room_have_no_status(rt: HostRuntime) {
    for (text, front) in [(YES, b"yes"), (REFUSED, b"ref")] {
        let mut room = [0u8; 3];
        let mut sink = Sink::new(room.as_mut_slice());
        let found = check_from(&rt, rt.alloc(), &mut Source::new(text), &mut sink);
        assert_eq!(rt; found, Err(Fault::Check(RunFault::Write)));
        assert!(rt; sink.failed());
        assert_eq!(rt; room, *front);
    }
}
