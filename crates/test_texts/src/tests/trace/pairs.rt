ghost use Rattle.std.specs.Prelude.{◌≤◌};

use crate::tests::trace::expectations::expect_bytes;
use crate::tests::trace::rows::{
    COLLECT_WHEN_FULL, CYCLE_OF_TWO, ENTRY_WITHOUT_ROOM, LINK_LEFT_OVER, LOG_ACROSS_TWO_MUTATORS,
    LOG_ENTRY_WITHOUT_A_REPLICA, NO_EVENTS, NOTHING_IS_FREED, NOTHING_TO_COPY,
    RAW_WORDS_KEEP_NOTHING, RAW_WRITTEN_WHILE_COPIED, ROOT_MADE_AFTER_THE_SCAN, ROOT_WITHOUT_ROOM,
    Row, SCAN_WITHOUT_ROOM, SECOND_COLLECTION, SMALLER_SPACE, WRITE_WHILE_SCANNING,
};
use gc_check::{Verdict, check_text};
use gc_graph::{Sink, Source};
use gc_trace::{PlayFault, TraceFault, play_pair};
use std::alloc::Global;
use std::test::Fail;
use test_kit::streams::{End, Narrow, Slow};

/// The pair of a collection in a full space: one of two objects is copied, and the other is garbage.
pub const ONE_KEPT: &[u8] = b"\
    heappair 2\n\
    old 9 9\n0\n16842754\n0\n0\n0\n16842754\n1\n0\n0\n\
    roots 32\n0\n0\n0\n0\n0\n0\n0\n0\n0\n0\n0\n0\n0\n0\n0\n0\n10\n0\n0\n0\n0\n0\n0\n0\n0\n0\n0\n0\n0\n0\n0\n0\n\
    new 9 5\n0\n16842754\n5\n0\n0\n\
    roots 32\n0\n0\n0\n0\n0\n0\n0\n0\n0\n0\n0\n0\n0\n0\n0\n0\n2\n0\n0\n0\n0\n0\n0\n0\n0\n0\n0\n0\n0\n0\n0\n0\n\
    pairs 1\n5 1\nend\n";

/// Two objects, both copied. Each replica has the address of its original, so every link is the object's own address.
const BOTH_KEPT: &[u8] = b"\
    heappair 2\n\
    old 9 7\n0\n16842754\n1\n0\n0\n16777216\n5\n\
    roots 32\n0\n0\n0\n0\n0\n0\n0\n0\n0\n0\n0\n0\n0\n0\n0\n0\n2\n10\n0\n0\n0\n0\n0\n0\n0\n0\n0\n0\n0\n0\n0\n0\n\
    new 9 7\n0\n16842754\n1\n0\n0\n16777216\n5\n\
    roots 32\n0\n0\n0\n0\n0\n0\n0\n0\n0\n0\n0\n0\n0\n0\n0\n0\n2\n10\n0\n0\n0\n0\n0\n0\n0\n0\n0\n0\n0\n0\n0\n0\n\
    pairs 2\n1 1\n5 5\nend\n";

/// A raw object. Its words are the numbers themselves, and its replica has the same words.
const RAW_KEPT: &[u8] = b"\
    heappair 2\n\
    old 16 5\n0\n50790402\n1\n8\n10\n\
    roots 32\n0\n0\n0\n0\n0\n0\n0\n0\n0\n0\n0\n0\n0\n0\n0\n0\n2\n21\n0\n0\n0\n0\n0\n0\n0\n0\n0\n0\n0\n0\n0\n0\n\
    new 16 5\n0\n50790402\n1\n8\n10\n\
    roots 32\n0\n0\n0\n0\n0\n0\n0\n0\n0\n0\n0\n0\n0\n0\n0\n0\n2\n21\n0\n0\n0\n0\n0\n0\n0\n0\n0\n0\n0\n0\n0\n0\n\
    pairs 1\n1 1\nend\n";

/// Two spaces without objects.
const NONE_KEPT: &[u8] = b"\
    heappair 2\n\
    old 8 1\n0\n\
    roots 32\n0\n0\n0\n0\n0\n0\n0\n0\n0\n0\n0\n0\n0\n0\n0\n0\n0\n0\n0\n0\n0\n0\n0\n0\n0\n0\n0\n0\n0\n0\n0\n0\n\
    new 8 1\n0\n\
    roots 32\n0\n0\n0\n0\n0\n0\n0\n0\n0\n0\n0\n0\n0\n0\n0\n0\n0\n0\n0\n0\n0\n0\n0\n0\n0\n0\n0\n0\n0\n0\n0\n0\n\
    pairs 0\nend\n";

/// The rows that flip, and the number of pairs of the first flip.
const FIRST_FLIPS: [(Row, u32); 15] = [
    (COLLECT_WHEN_FULL, 1),
    (WRITE_WHILE_SCANNING, 1),
    (LOG_ACROSS_TWO_MUTATORS, 1),
    (ROOT_MADE_AFTER_THE_SCAN, 3),
    (CYCLE_OF_TWO, 2),
    (LOG_ENTRY_WITHOUT_A_REPLICA, 1),
    (LINK_LEFT_OVER, 1),
    (NOTHING_TO_COPY, 0),
    (NOTHING_IS_FREED, 1),
    (ROOT_WITHOUT_ROOM, 1),
    (SMALLER_SPACE, 1),
    (SCAN_WITHOUT_ROOM, 1),
    (ENTRY_WITHOUT_ROOM, 1),
    (RAW_WRITTEN_WHILE_COPIED, 1),
    (RAW_WORDS_KEEP_NOTHING, 1),
];

/// Returns the text of the pair of the trace's n-th flip.
fn pair_text(alloc: Global, n: u32, trace: &[u8]) -> Result<Vec<u8>, PlayFault>
    requires { 1 ≤ n }
{
    let mut sink = Sink::new(Vec::new(alloc));
    play_pair(alloc, n, &mut Source::new(trace), &mut sink)?;
    Ok(sink.into_inner())
}

#[test]
fn the_pair_of_a_flip_is_written(rt: HostRuntime) -> Result<(), Fail> {
    let alloc = rt.alloc();
    expect_bytes(
        &rt,
        pair_text(alloc, 1, COLLECT_WHEN_FULL.trace)?.as_slice(),
        ONE_KEPT,
        "",
    );
    expect_bytes(
        &rt,
        pair_text(alloc, 1, NOTHING_TO_COPY.trace)?.as_slice(),
        NONE_KEPT,
        "",
    );
    expect_bytes(
        &rt,
        pair_text(alloc, 1, RAW_WRITTEN_WHILE_COPIED.trace)?.as_slice(),
        RAW_KEPT,
        "",
    );
    Ok(())
}

#[test]
fn each_flip_has_a_pair_of_its_own(rt: HostRuntime) -> Result<(), Fail> {
    let alloc = rt.alloc();
    let trace = SECOND_COLLECTION.trace;
    expect_bytes(&rt, pair_text(alloc, 1, trace)?.as_slice(), ONE_KEPT, "");
    expect_bytes(&rt, pair_text(alloc, 2, trace)?.as_slice(), BOTH_KEPT, "");
    assert_eq!(rt;
        pair_text(alloc, 3, trace).err(),
        Some(PlayFault::NoSuchFlip)
    );
    Ok(())
}

#[test]
fn where_there_is_no_such_flip_nothing_is_written(rt: HostRuntime) {
    for (n, trace) in [
        (1, NO_EVENTS.trace),
        (3, SECOND_COLLECTION.trace),
        (4294967295, COLLECT_WHEN_FULL.trace),
    ] {
        assert!(rt; n >= 1);
        let mut sink = Sink::new(Vec::new(rt.alloc()));
        let found = play_pair(rt.alloc(), n, &mut Source::new(trace), &mut sink);
        assert_eq!(rt; found, Err(PlayFault::NoSuchFlip));
        assert!(rt; sink.into_inner().is_empty());
    }
}

#[test]
fn the_checker_says_yes_to_each_first_flip(rt: HostRuntime) -> Result<(), Fail> {
    let alloc = rt.alloc();
    for (row, pairs) in FIRST_FLIPS {
        let text = pair_text(alloc, 1, row.trace)?;
        let mut sink = Sink::new(Vec::new(alloc));
        let verdict = check_text(alloc, &mut Source::new(text.as_slice()), &mut sink)?;
        assert_eq!(rt; verdict, Verdict::Yes { pairs }, "of {}", row.name);
        let line = format!(in alloc; "yes {pairs}\n")?;
        expect_bytes(&rt, sink.into_inner().as_slice(), line.as_bytes(), row.name);
    }
    Ok(())
}

#[test]
fn a_bad_text_has_no_pair(rt: HostRuntime) {
    let strange = b"heaptrace 1\nspace 8 mutators 1\nc begin\nc flip\nc apply 1\n";
    let mut sink = Sink::new(Vec::new(rt.alloc()));
    let found = play_pair(
        rt.alloc(),
        1,
        &mut Source::new(strange.as_slice()),
        &mut sink,
    );
    assert_eq!(rt; found, Err(PlayFault::Trace(TraceFault::NoSuchMutator(5))));
    assert!(rt; sink.into_inner().is_empty());
}

#[test]
fn nothing_is_written_for_a_reader_that_fails(rt: HostRuntime) {
    for end in [End::Broken, End::Interrupted] {
        let broken = Slow::of(COLLECT_WHEN_FULL.trace, end);
        let mut sink = Sink::new(Vec::new(rt.alloc()));
        let found = play_pair(rt.alloc(), 1, &mut Source::new(broken), &mut sink);
        assert_eq!(rt; found, Err(PlayFault::Trace(TraceFault::Read)));
        assert!(rt; sink.into_inner().is_empty());
    }
}

#[test]
fn a_front_of_the_pair_goes_out_before_the_writer_fails(rt: HostRuntime) {
    for end in [End::Silent, End::Broken, End::Interrupted] {
        let mut sink = Sink::new(Narrow::new(7, end));
        let mut source = Source::new(COLLECT_WHEN_FULL.trace);
        let found = play_pair(rt.alloc(), 1, &mut source, &mut sink);
        assert_eq!(rt; found, Err(PlayFault::Write));
        assert!(rt; sink.failed());
        expect_bytes(&rt, sink.into_inner().taken(), b"heappai".as_slice(), "");
    }
}
