//! Tests of `check` on small pairs, and of `Tables`. The tests of gc_par compare every checker with a slow one, and
//! check pair texts.

mod rows;

use gc_check::{
    CheckFault, Refusal, Tables, Verdict, Yes, check, check_text, check_wide, compare, infer,
    path_to,
};
use gc_graph::{Sink, Source};
use gc_par::compare_par;
use gc_words::{ImageRef, NewAddr, OldAddr, Pair};
use rows::{few_pairs, many_pairs, raw_objects};
use std::alloc::{AllocError, Global};
use std::process::Abort;
use std::test::Fail;
use std::thread::Threads;

/// Two images, the addresses of a certificate, and the checker's answer.
#[derive(Clone, Copy)]
struct Row {
    old: ImageRef<'static>,
    new: ImageRef<'static>,
    pairs: &'static [(u32, u32)],
    answer: Result<Yes, CheckFault>,
}

fn image<'a>(size: u32, end: u32, words: &'a [u64], roots: &'a [u64]) -> ImageRef<'a> {
    ImageRef {
        size,
        end,
        words,
        roots,
        raws: false,
    }
}

/// Returns an image in which headers of raw objects count.
fn with_raws<'a>(size: u32, end: u32, words: &'a [u64], roots: &'a [u64]) -> ImageRef<'a> {
    ImageRef {
        raws: true,
        ..image(size, end, words, roots)
    }
}

fn yes(pairs: u32) -> Result<Yes, CheckFault> {
    Ok(Yes { pairs })
}

fn refused(refusal: Refusal) -> Result<Yes, CheckFault> {
    Err(CheckFault::Refused(refusal))
}

fn certificate(alloc: Global, addresses: &[(u32, u32)]) -> Result<Vec<Pair>, AllocError> {
    let mut pairs = Vec::new(alloc);
    for (old, new) in addresses {
        pairs.push(Pair {
            old: OldAddr(*old),
            new: NewAddr(*new),
        })?;
    }
    Ok(pairs)
}

fn expect_rows(rt: &impl Abort, alloc: Global, rows: &[Row]) -> Result<(), AllocError> {
    for row in rows {
        let cert = certificate(alloc, row.pairs)?;
        assert!(rt; cert.len() <= 2);
        let found = check(alloc, row.old, row.new, cert.as_slice());
        assert_eq!(rt; found, row.answer);
    }
    Ok(())
}

#[test]
fn rows_without_pairs_or_with_one(rt: HostRuntime) -> Result<(), Fail> {
    expect_rows(&rt, rt.alloc(), few_pairs().as_slice())?;
    Ok(())
}

#[test]
fn rows_of_two_pairs(rt: HostRuntime) -> Result<(), Fail> {
    expect_rows(&rt, rt.alloc(), many_pairs().as_slice())?;
    Ok(())
}

#[test]
fn rows_of_raw_objects(rt: HostRuntime) -> Result<(), Fail> {
    expect_rows(&rt, rt.alloc(), raw_objects().as_slice())?;
    Ok(())
}

#[test]
fn a_text_gets_its_line(rt: HostRuntime) -> Result<(), Fail> {
    let alloc = rt.alloc();
    let text =
        b"heappair 1\nold 1 1\n0\nroots 1\n0\nnew 1 1\n0\nroots 1\n0\npairs 0\nend\n".as_slice();
    let mut line = Sink::new(Vec::new(alloc));
    let verdict = check_text(alloc, &mut Source::new(text), &mut line)?;
    assert_eq!(rt; verdict, Verdict::Yes { pairs: 0 });
    assert_eq!(rt; line.into_inner().as_slice(), b"yes 0\n".as_slice());
    Ok(())
}

#[test]
fn tables_refuse_places_alone(rt: HostRuntime) -> Result<(), Fail> {
    let alloc = rt.alloc();
    let words = [0, 16777216, 0, 16777216, 0];
    let old = image(8, 5, &words, &[2, 6]);
    let new = image(8, 3, &words[..3], &[2, 2]);

    let cert = certificate(alloc, &[(1, 1), (3, 1)])?;
    assert!(rt; cert.len() <= 2);
    let tables = Tables::new(alloc, old, new, cert.as_slice());
    assert_eq!(rt;
        tables.err(),
        Some(CheckFault::Refused(Refusal::NotRising { k: 1 }))
    );

    let cert = certificate(alloc, &[(1, 1)])?;
    assert_eq!(rt; cert.len(), 1);
    let tables = Tables::new(alloc, old, new, cert.as_slice())?;
    assert_eq!(rt; tables.pair_fault(0), None);
    assert_eq!(rt; tables.root_fault(), Some(Refusal::RootDiffers { slot: 1 }));
    Ok(())
}

#[test]
fn tables_of_what_passes_name_no_fault(rt: HostRuntime) -> Result<(), Fail> {
    let alloc = rt.alloc();
    let least = image(1, 1, &[0], &[0]);
    let tables = Tables::new(alloc, least, least, &[])?;
    assert_eq!(rt; tables.root_fault(), None);

    // The second object is garbage and has no replica.
    let words = [0, 16777216, 0, 16777216, 0];
    let old = image(8, 5, &words, &[2]);
    let new = image(8, 3, &words[..3], &[2]);
    let cert = certificate(alloc, &[(1, 1)])?;
    assert_eq!(rt; cert.len(), 1);
    let tables = Tables::new(alloc, old, new, cert.as_slice())?;
    assert_eq!(rt; tables.pair_fault(0), None);
    assert_eq!(rt; tables.root_fault(), None);
    Ok(())
}

/// Images that are wrong in their sizes, or that no text holds, with the answers of `check` and of
/// `check_wide`. The tables have the same answers.
#[test]
fn sizes_that_no_text_holds(rt: HostRuntime) -> Result<(), Fail> {
    let alloc = rt.alloc();
    let least = image(1048576, 1, &[0], &[0]);
    let large = image(1048577, 1, &[0], &[0]);
    let most = image(4294967295, 1, &[0], &[0]);
    let wrong = image(8, 2, &[0, 7], &[0]);
    let old = CheckFault::Refused(Refusal::OldShape { at: 0 });
    let new = CheckFault::Refused(Refusal::NewShape { at: 0 });
    let early = CheckFault::Refused(Refusal::OldShape { at: 1 });
    for (one, other, small, wide) in [
        (least, least, None, None),
        (large, least, Some(old), None),
        (least, large, Some(new), None),
        (most, most, Some(old), None),
        (wrong, large, Some(early), Some(early)),
        (
            large,
            wrong,
            Some(old),
            Some(CheckFault::Refused(Refusal::NewShape { at: 1 })),
        ),
    ] {
        assert_eq!(rt; check(alloc, one, other, &[]).err(), small);
        assert_eq!(rt; check_wide(alloc, one, other, &[]).err(), wide);
        assert_eq!(rt; Tables::new(alloc, one, other, &[]).err(), small);
        assert_eq!(rt; Tables::new_wide(alloc, one, other, &[]).err(), wide);
    }
    Ok(())
}

/// References to an object behind the words of a text: the words before it are those of raw objects.
#[test]
fn references_that_no_text_holds(rt: HostRuntime) -> Result<(), Fail> {
    let alloc = rt.alloc();
    let mut words = Vec::new(alloc);
    words.push(0)?;
    for _ in 0..17 {
        words.push(50331648 + 65535)?;
        for _ in 0..65536 {
            words.push(0)?;
        }
    }
    let place = 1 + 17 * 65537;
    words.push(16777216)?;
    words.push(0)?;
    let roots = [2 * u64::from(place)];
    let old = with_raws(2097152, place + 2, words.as_slice(), &roots);
    let new = image(8, 3, &[0, 16777216, 0], &[2]);
    let cert = certificate(alloc, &[(place, 1)])?;
    assert_eq!(rt; cert.len(), 1);
    assert_eq!(rt; check_wide(alloc, old, new, cert.as_slice()), yes(1));
    let back = certificate(alloc, &[(1, place)])?;
    assert_eq!(rt; back.len(), 1);
    assert_eq!(rt; check_wide(alloc, new, old, back.as_slice()), yes(1));
    let other = image(8, 3, &[0, 16777216, 0], &[0]);
    assert_eq!(rt;
        check_wide(alloc, old, other, cert.as_slice()),
        refused(Refusal::RootDiffers { slot: 0 })
    );
    Ok(())
}

/// Expects that these pairs are inferred, in this order, and this verdict on them, whoever compares the objects.
fn expect_inferred(
    rt: &(impl Abort + Threads + Sync),
    alloc: Global,
    old: ImageRef,
    new: ImageRef,
    pairs: &[(u32, u32)],
    verdict: Verdict,
) -> Result<(), Fail> {
    let want = certificate(alloc, pairs)?;
    let inferred = infer(alloc, old, new)?;
    assert_eq!(rt; inferred.as_slice(), want.as_slice());
    let comparison = compare(alloc, old, new)?;
    assert_eq!(rt; comparison.pairs.as_slice(), want.as_slice());
    assert_eq!(rt; comparison.verdict, verdict);
    let comparison = compare_par(rt, alloc, old, new)?;
    assert_eq!(rt; comparison.pairs.as_slice(), want.as_slice());
    assert_eq!(rt; comparison.verdict, verdict);
    Ok(())
}

/// Three objects with one field each: the first refers to the third, which has the number 7, and the second is garbage.
const CHAIN: [u64; 10] = [0, 16842753, 0, 14, 16842753, 0, 15, 16842753, 0, 15];

#[test]
fn pairs_are_inferred_through_fields(rt: HostRuntime) -> Result<(), Fail> {
    let alloc = rt.alloc();
    let old = image(16, 10, &CHAIN, &[2, 0]);
    // The third object stands first, so the pairs come in another order than they are found in.
    let words = [0, 16842753, 0, 15, 16842753, 0, 2];
    let new = image(16, 7, &words, &[8, 0]);
    expect_inferred(
        &rt,
        alloc,
        old,
        new,
        &[(7, 1), (1, 4)],
        Verdict::Yes { pairs: 2 },
    )?;
    // The number of the third object is 8.
    let words = [0, 16842753, 0, 17, 16842753, 0, 2];
    let new = image(16, 7, &words, &[8, 0]);
    let differs = Refusal::FieldDiffers { k: 0, i: 0 };
    expect_inferred(
        &rt,
        alloc,
        old,
        new,
        &[(7, 1), (1, 4)],
        Verdict::Refused(differs),
    )
}

#[test]
fn no_replica_is_shared(rt: HostRuntime) -> Result<(), Fail> {
    let alloc = rt.alloc();
    let words = [0, 16777216, 0, 16777216, 0];
    let new = image(8, 3, &words[..3], &[2, 2]);
    let two_for_one = image(8, 5, &words, &[2, 6]);
    let differs = Refusal::RootDiffers { slot: 1 };
    expect_inferred(
        &rt,
        alloc,
        two_for_one,
        new,
        &[(1, 1)],
        Verdict::Refused(differs),
    )?;
    expect_inferred(
        &rt,
        alloc,
        new,
        two_for_one,
        &[(1, 1)],
        Verdict::Refused(differs),
    )?;
    let one_twice = image(8, 5, &words, &[6, 6]);
    expect_inferred(
        &rt,
        alloc,
        one_twice,
        new,
        &[(3, 1)],
        Verdict::Yes { pairs: 1 },
    )
}

#[test]
fn images_without_shape_get_no_pairs(rt: HostRuntime) -> Result<(), Fail> {
    let alloc = rt.alloc();
    let old = image(16, 10, &CHAIN, &[2, 0]);
    let cut = image(16, 9, &CHAIN[..9], &[2, 0]);
    let refused = Verdict::Refused(Refusal::NewShape { at: 7 });
    expect_inferred(&rt, alloc, old, cut, &[], refused)?;
    let one_root = image(16, 10, &CHAIN, &[2]);
    let refused = Verdict::Refused(Refusal::RootCount);
    expect_inferred(&rt, alloc, old, one_root, &[], refused)
}

/// Expects that the shortest path to the address has this root and these fields, or that there is none.
fn expect_path(
    rt: &impl Abort,
    alloc: Global,
    image: ImageRef,
    address: u32,
    wanted: Option<(u64, &[u64])>,
) -> Result<(), Fail> {
    let path = path_to(alloc, image, address)?;
    match wanted {
        Some((place, fields)) => {
            let path = path.expect(rt, "a path");
            assert_eq!(rt; path.place, place);
            assert_eq!(rt; path.fields.as_slice(), fields);
        }
        None => assert!(rt; path.is_none()),
    }
    Ok(())
}

#[test]
fn paths_are_the_shortest(rt: HostRuntime) -> Result<(), Fail> {
    let alloc = rt.alloc();
    // 1 refers to 5 and to 9, 5 refers to 9, and root 1 to 1.
    let words = [
        0, 16777218, 0, 10, 18, 16777218, 0, 18, 0, 16777216, 0, 16777216, 0,
    ];
    let both = image(16, 13, &words, &[7, 2]);
    expect_path(&rt, alloc, both, 1, Some((1, &[])))?;
    expect_path(&rt, alloc, both, 5, Some((1, &[0])))?;
    expect_path(&rt, alloc, both, 9, Some((1, &[1])))?;
    expect_path(&rt, alloc, both, 11, None)?;
    expect_path(&rt, alloc, both, 2, None)?;
    // No path leads through an image that is not shaped.
    expect_path(&rt, alloc, image(16, 12, &words[..12], &[7, 2]), 1, None)
}

#[test]
fn words_of_raw_objects_lead_nowhere(rt: HostRuntime) -> Result<(), Fail> {
    let alloc = rt.alloc();
    // A raw object whose word 8 would be a reference to 4, and an object that a root refers to only in the old image.
    let words = [0, 50331649, 0, 8, 16777216, 0];
    let old = with_raws(8, 6, &words, &[2, 8]);
    let new = with_raws(8, 6, &words, &[2, 0]);
    let differs = Refusal::RootDiffers { slot: 1 };
    expect_inferred(&rt, alloc, old, new, &[(1, 1)], Verdict::Refused(differs))
}
