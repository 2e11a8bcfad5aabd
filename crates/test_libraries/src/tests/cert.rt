use gc_cert::{PairFault, WriteFault, pair_fits, read_pair, write_pair};
use gc_graph::{Sink, Source};
use gc_words::{ImageRef, NewAddr, OldAddr, Pair};
use std::alloc::Global;
use std::io::Read;
use std::process::Abort;
use std::test::Fail;
use test_kit::streams::{End, Narrow, Same, Slow};

/// Two images without objects.
const LEAST: &[u8] = b"heappair 1\nold 1 1\n0\nroots 1\n0\nnew 1 1\n0\nroots 1\n0\npairs 0\nend\n";

/// A raw object whose field word is not a value.
const RAW: &[u8] =
    b"heappair 2\nold 9 4\n0\n50331649\n0\n18446744073709551614\nroots 1\n2\nnew 9 4\n0\n50331649\n0\n18446744073709551614\nroots 1\n2\npairs 1\n1 1\nend\n";

/// One object is kept, and one is left behind.
const ONE_KEPT: &[u8] =
    b"heappair 1\nold 9 9\n0\n16842754\n0\n0\n0\n16842754\n1\n0\n0\nroots 32\n0\n0\n0\n0\n0\n0\n0\n0\n0\n0\n0\n0\n0\n0\n0\n0\n10\n0\n0\n0\n0\n0\n0\n0\n0\n0\n0\n0\n0\n0\n0\n0\nnew 9 5\n0\n16842754\n5\n0\n0\nroots 32\n0\n0\n0\n0\n0\n0\n0\n0\n0\n0\n0\n0\n0\n0\n0\n0\n2\n0\n0\n0\n0\n0\n0\n0\n0\n0\n0\n0\n0\n0\n0\n0\npairs 1\n5 1\nend\n";

/// Returns the fault of a text, if it has one.
fn fault_of<R: Read + Drop>(alloc: Global, reader: R) -> Option<PairFault> {
    read_pair(alloc, &mut Source::new(reader)).err()
}

/// Reads a text and writes it back.
fn written_back(alloc: Global, text: &[u8]) -> Result<Vec<u8>, Fail> {
    let file = read_pair(alloc, &mut Source::new(text))?;
    let (old, new) = (file.old.as_ref(), file.new.as_ref());
    if !pair_fits(old, new, &file.pairs) {
        return Err(Fail::from("does not fit"));
    }
    let mut sink = Sink::new(Vec::new(alloc));
    write_pair(&mut sink, old, new, &file.pairs)?;
    Ok(sink.into_inner())
}

#[test]
fn a_text_is_read_as_its_parts(rt: HostRuntime) -> Result<(), Fail> {
    let file = read_pair(rt.alloc(), &mut Source::new(ONE_KEPT))?;
    assert_eq!(rt; (file.old.size, file.old.end), (9, 9));
    assert_eq!(rt; (file.new.size, file.new.end), (9, 5));
    assert_eq!(rt; (file.old.raws, file.new.raws), (false, false));
    assert_eq!(rt; file.old.words.len(), 9);
    assert_eq!(rt;
        file.new.words.as_slice(),
        [0, 16842754, 5, 0, 0].as_slice()
    );
    assert_eq!(rt;
        (file.old.roots.len(), file.old.roots.get(16).copied()),
        (32, Some(10))
    );
    assert_eq!(rt;
        (file.new.roots.len(), file.new.roots.get(16).copied()),
        (32, Some(2))
    );
    let pair = Pair {
        old: OldAddr(5),
        new: NewAddr(1),
    };
    assert_eq!(rt; file.pairs.as_slice(), [pair].as_slice());
    Ok(())
}

#[test]
fn the_first_line_says_whether_raw_headers_count(rt: HostRuntime) -> Result<(), Fail> {
    let file = read_pair(rt.alloc(), &mut Source::new(RAW))?;
    assert_eq!(rt; (file.old.raws, file.new.raws), (true, true));
    assert_eq!(rt; file.old.words.get(3).copied(), Some(18446744073709551614));
    Ok(())
}

#[test]
fn what_is_read_is_written_back(rt: HostRuntime) -> Result<(), Fail> {
    assert_eq!(rt; written_back(rt.alloc(), LEAST)?.as_slice(), LEAST);
    assert_eq!(rt; written_back(rt.alloc(), ONE_KEPT)?.as_slice(), ONE_KEPT);
    assert_eq!(rt; written_back(rt.alloc(), RAW)?.as_slice(), RAW);
    Ok(())
}

#[test]
fn each_front_of_a_text_ends_early(rt: HostRuntime) {
    for end in 0..LEAST.len() {
        assert_eq!(rt;
            fault_of(rt.alloc(), &LEAST[..end]),
            Some(PairFault::EndsEarly),
            "at {end}"
        );
    }
    assert_eq!(rt; fault_of(rt.alloc(), LEAST), None);
}

#[test]
fn the_first_bad_line_is_answered(rt: HostRuntime) {
    let rows: [(&[u8], PairFault); 12] = [
        (b"heappair 9", PairFault::EndsEarly),
        (b"heappair 9\n", PairFault::BadLine(1)),
        (b"heappair 3\n", PairFault::BadLine(1)),
        (b"heappair 2 \n", PairFault::BadLine(1)),
        (b"heappair 2\nold 0 1\n", PairFault::BadLine(2)),
        (b"heappair 1\nold 0 1\n", PairFault::BadLine(2)),
        (b"heappair 1\nold 1 1048577\n", PairFault::BadLine(2)),
        (b"heappair 1\nold 1 1\n00\n", PairFault::BadLine(3)),
        (
            b"heappair 1\nold 1 1\n18446744073709551616\n",
            PairFault::BadLine(3),
        ),
        (
            b"heappair 1\nold 1 1\n0\nroots 273\n",
            PairFault::BadLine(4),
        ),
        (b"heappair 1\nold 1 1\n0\nroots  0\n", PairFault::BadLine(4)),
        (
            b"heappair 1\nold 1 1\n0\nroots 0\nnew 1 1\n0\nroots 0\npairs 524288\n",
            PairFault::BadLine(8),
        ),
    ];
    for (text, want) in rows {
        assert_eq!(rt; fault_of(rt.alloc(), text), Some(want), "{text:?}");
    }
}

#[test]
fn nothing_may_stand_behind_the_end(rt: HostRuntime) -> Result<(), Fail> {
    let mut text = Vec::from_slice(rt.alloc(), LEAST)?;
    text.extend_from_slice(b"x\n")?;
    assert_eq!(rt;
        fault_of(rt.alloc(), text.as_slice()),
        Some(PairFault::BadLine(12))
    );
    Ok(())
}

#[test]
fn a_slow_reader_changes_no_answer(rt: HostRuntime) -> Result<(), Fail> {
    let slow = Slow {
        bytes: ONE_KEPT,
        step: 1,
        end: End::Silent,
    };
    let file = read_pair(rt.alloc(), &mut Source::new(slow))?;
    assert_eq!(rt; (file.old.words.len(), file.pairs.len()), (9, 1));
    Ok(())
}

#[test]
fn a_reader_that_fails_midway_is_read(rt: HostRuntime) {
    let broken = Slow::of(&LEAST[..20], End::Interrupted);
    assert_eq!(rt; fault_of(rt.alloc(), broken), Some(PairFault::Read));
}

/// Returns the fault of a text with this many bytes, all the same.
fn fault_of_same(alloc: Global, left: usize) -> Option<PairFault> {
    let end = End::Silent;
    fault_of(alloc, Same { left, end })
}

#[test]
fn the_largest_text_is_read(rt: HostRuntime) {
    assert_eq!(rt;
        fault_of_same(rt.alloc(), 67108864),
        Some(PairFault::EndsEarly)
    );
}

#[test]
fn the_limit_comes_first(rt: HostRuntime) {
    assert_eq!(rt;
        fault_of_same(rt.alloc(), 67108865),
        Some(PairFault::TooLarge)
    );
}

#[test]
fn a_front_goes_out_before_the_writer_fails(rt: HostRuntime) -> Result<(), Fail> {
    let file = read_pair(rt.alloc(), &mut Source::new(LEAST))?;
    let (old, new) = (file.old.as_ref(), file.new.as_ref());
    if !pair_fits(old, new, &file.pairs) {
        return Err(Fail::from("does not fit"));
    }
    let mut sink = Sink::new(Narrow::new(7, End::Interrupted));
    assert_eq!(rt;
        write_pair(&mut sink, old, new, &file.pairs),
        Err(WriteFault::Write)
    );
    assert!(rt; sink.failed());
    assert_eq!(rt; sink.into_inner().taken(), b"heappai".as_slice());
    Ok(())
}

/// Returns whether neither of the two has a text with the other.
fn do_not_fit(one: ImageRef, other: ImageRef, pairs: &[Pair]) -> bool {
    !pair_fits(one, other, pairs) && !pair_fits(other, one, pairs)
}

/// Asserts that an image fits with itself, with and without raw headers, and not with one that differs in that.
fn expect_fitting(rt: &impl Abort, good: ImageRef, pairs: &[Pair]) {
    let without = ImageRef {
        raws: false,
        ..good
    };
    assert!(rt; pair_fits(good, good, pairs));
    assert!(rt; pair_fits(without, without, pairs));
    assert!(rt; do_not_fit(good, without, pairs));
}

/// Asserts that an image of two words and 272 roots has no text once a number of it is out of range.
fn expect_out_of_range(rt: &impl Abort, good: ImageRef, pairs: &[Pair]) {
    for size in [0, 1048577] {
        assert!(rt; do_not_fit(ImageRef { size, ..good }, good, pairs));
    }
    for end in [1, 3] {
        assert!(rt; do_not_fit(ImageRef { end, ..good }, good, pairs));
    }
    let empty = ImageRef {
        end: 0,
        words: &[],
        ..good
    };
    assert!(rt; do_not_fit(empty, good, pairs));
    let roots = &[0u64; 273];
    assert!(rt; do_not_fit(ImageRef { roots, ..good }, good, pairs));
}

#[test]
fn what_is_out_of_range_has_no_text(rt: HostRuntime) -> Result<(), Fail> {
    let good = ImageRef {
        size: 1048576,
        end: 2,
        words: &[0u64; 2],
        roots: &[0u64; 272],
        raws: true,
    };
    let pair = Pair {
        old: OldAddr(u32::MAX),
        new: NewAddr(u32::MAX),
    };
    let pairs = vec![in rt.alloc(); pair; 524288]?;
    expect_fitting(&rt, good, &pairs[1..]);
    expect_out_of_range(&rt, good, &pairs[1..]);
    assert!(rt; !pair_fits(good, good, &pairs));
    Ok(())
}

#[test]
fn faults_are_shown(rt: HostRuntime) -> Result<(), Fail> {
    for (fault, text) in [
        (PairFault::Read, "cannot read"),
        (PairFault::TooLarge, "pair: too large"),
        (PairFault::BadLine(3), "pair: bad line 3"),
        (PairFault::EndsEarly, "pair: ends early"),
        (PairFault::NoMemory, "no memory"),
    ] {
        assert_eq!(rt; fault.to_string(rt.alloc())?.as_str(), text);
    }
    assert_eq!(rt;
        WriteFault::Write.to_string(rt.alloc())?.as_str(),
        "cannot write"
    );
    Ok(())
}
