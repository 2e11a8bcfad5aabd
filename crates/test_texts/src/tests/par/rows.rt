//! Small pairs of images as texts, with their verdicts.

use super::changed;
use super::slow_check::slow_check;
use gc_cert::{PairFile, read_pair};
use gc_check::{Yes, check};
use gc_graph::Source;
use gc_par::check_par;
use gc_words::{ImageRef, Pair};
use std::alloc::{AllocError, Global};
use std::process::Abort;
use std::test::Fail;
use std::thread::Threads;

/// The lines between the first and the last, with slashes instead of line feeds, and the line of the verdict.
pub(super) const ROWS: [(&str, &str); 18] = [
    ("old 1 1/0/roots 1/0/new 1 1/0/roots 1/0/pairs 0", "yes 0\n"),
    (
        "old 1 1/0/roots 1/0/new 1 1/0/roots 2/0/0/pairs 0",
        "refused 3 RootCount\n",
    ),
    (
        "old 8 5/0/16777216/0/16777216/0/roots 2/2/6/new 8 3/0/16777216/0/roots 2/2/2/pairs 2/1 1/3 1",
        "refused 6 NotRising 1\n",
    ),
    (
        "old 8 3/0/16777216/0/roots 2/2/2/new 8 5/0/16777216/0/16777216/0/roots 2/2/6/pairs 2/1 1/1 3",
        "refused 7 Twice 1\n",
    ),
    (
        "old 8 3/0/16777216/0/roots 1/2/new 8 3/0/16777217/0/roots 1/2/pairs 1/1 1",
        "refused 2 NewShape 1\n",
    ),
    (
        "old 8 1/7/roots 0/new 8 1/0/roots 0/pairs 0",
        "refused 1 OldShape 0\n",
    ),
    (
        "old 8 4/0/16777217/0/1/roots 1/6/new 8 4/0/16777217/0/1/roots 1/6/pairs 2/1 1/3 3",
        "refused 4 OldNotStart 1\n",
    ),
    (
        "old 8 4/0/16777217/0/1/roots 1/6/new 8 4/0/16777217/0/1/roots 1/6/pairs 1/1 1",
        "refused 10 RootDiffers 0\n",
    ),
    (
        "old 8 7/0/16777218/0/1/10/16777216/0/roots 1/2/new 8 5/0/16777218/0/1/2/roots 1/2/pairs 1/1 1",
        "refused 9 FieldDiffers 0 1\n",
    ),
    (
        "old 8 5/0/16777216/0/16777216/0/roots 1/2/new 8 3/0/16777216/0/roots 1/2/pairs 1/1 1",
        "yes 1\n",
    ),
    (
        "old 9 4/0/16777217/0/9/roots 1/2/new 9 4/0/16777217/0/8/roots 1/2/pairs 1/1 1",
        "refused 9 FieldDiffers 0 0\n",
    ),
    (
        "old 8 3/0/16777216/0/roots 1/2/new 8 3/0/16842752/0/roots 1/2/pairs 1/1 1",
        "refused 8 HeaderDiffers 0\n",
    ),
    (
        "old 8 3/0/16777216/0/roots 1/2/new 8 3/0/16777216/0/roots 1/2/pairs 1/1 2",
        "refused 5 NewNotStart 0\n",
    ),
    (
        "old 1 3/0/16777216/0/roots 0/new 1 1/0/roots 0/pairs 0",
        "refused 1 OldShape 0\n",
    ),
    (
        "old 8 3/0/16777216/77/roots 1/2/new 8 3/0/16777216/99/roots 1/2/pairs 1/1 1",
        "yes 1\n",
    ),
    (
        "old 8 4/0/16777217/0/2097152/roots 1/2/new 8 4/0/16777217/0/2097152/roots 1/2/pairs 1/1 1",
        "refused 9 FieldDiffers 0 0\n",
    ),
    (
        "old 8 5/0/16777216/0/16842752/0/roots 2/2/6/new 8 5/0/16842752/0/16777216/0/roots 2/6/2/pairs 2/3 1/1 3",
        "yes 2\n",
    ),
    (
        "old 8 4/0/16777216/0/5/roots 0/new 8 1/0/roots 0/pairs 0",
        "refused 1 OldShape 3\n",
    ),
];

/// Texts of either version with raw objects, or with words that look like their headers.
pub(super) const RAW_ROWS: [(u32, &str, &str); 6] = [
    (
        1,
        "old 8 3/0/50331648/0/roots 1/2/new 8 3/0/50331648/0/roots 1/2/pairs 1/1 1",
        "refused 1 OldShape 1\n",
    ),
    (
        2,
        "old 8 3/0/50331648/0/roots 1/2/new 8 3/0/50331648/0/roots 1/2/pairs 1/1 1",
        "yes 1\n",
    ),
    (
        2,
        "old 9 4/0/50331649/0/18/roots 1/2/new 9 4/0/50331649/0/18/roots 1/2/pairs 1/1 1",
        "yes 1\n",
    ),
    (
        2,
        "old 9 4/0/50331649/0/18/roots 1/2/new 9 4/0/50331649/0/8/roots 1/2/pairs 1/1 1",
        "refused 9 FieldDiffers 0 0\n",
    ),
    (
        2,
        "old 9 4/0/50331649/0/18446744073709551614/roots 1/2/new 9 4/0/50331649/0/18446744073709551614/roots 1/2/pairs 1/1 1",
        "yes 1\n",
    ),
    (
        2,
        "old 8 3/0/16777216/0/roots 1/2/new 8 3/0/50331648/0/roots 1/2/pairs 1/1 1",
        "refused 8 HeaderDiffers 0\n",
    ),
];

/// Returns the text of a row, in this version.
pub(super) fn text_of(alloc: Global, version: u32, lines: &str) -> Result<String, AllocError> {
    let text = format!(in alloc; "heappair {version}/{lines}/end/")?;
    text.replace(alloc, '/', "\n")
}

/// Returns the pair that the text of a row spells.
fn read_row(alloc: Global, version: u32, lines: &str) -> Result<PairFile, Fail> {
    let text = text_of(alloc, version, lines)?;
    Ok(read_pair(alloc, &mut Source::new(text.as_bytes()))?)
}

/// The rows without objects, with one object kept and garbage left behind, and with falling old addresses get a yes.
#[test]
fn pairs_that_are_read_get_yes(rt: HostRuntime) -> Result<(), Fail> {
    let alloc = rt.alloc();
    for (row, pairs) in [(0, 0), (9, 1), (16, 2)] {
        let file = read_row(alloc, 1, ROWS[row].0)?;
        let (old, new) = (file.old.as_ref(), file.new.as_ref());
        assert_eq!(rt; file.pairs.len(), pairs as usize);
        assert_eq!(rt; check(alloc, old, new, &file.pairs), Ok(Yes { pairs }));
        assert_eq!(rt;
            check_par(&rt, alloc, old, new, &file.pairs),
            Ok(Yes { pairs })
        );
    }
    Ok(())
}

/// Words to put at any place of the rows.
const WORDS: [u64; 11] = [
    0, 1, 2, 3, 6, 16777216, 16777217, 16842752, 2097152, 50331648, 50331649,
];

/// Asserts that `check` and `check_par` give the slow checker's answer.
fn expect_slow_answer(
    rt: &(impl Threads + Sync + Abort),
    alloc: Global,
    old: ImageRef,
    new: ImageRef,
    cert: &[Pair],
) {
    assert!(rt; cert.len() <= 2);
    let expected = slow_check(old, new, cert);
    assert_eq!(rt; check(alloc, old, new, cert), expected);
    assert_eq!(rt; check_par(rt, alloc, old, new, cert), expected);
}

fn with_words<'a>(image: ImageRef<'a>, words: &'a [u64]) -> ImageRef<'a> {
    ImageRef { words, ..image }
}

fn with_roots<'a>(image: ImageRef<'a>, roots: &'a [u64]) -> ImageRef<'a> {
    ImageRef { roots, ..image }
}

/// Checks the pair with one word changed, first in the old words and roots, then in the new ones.
fn expect_neighbours(
    rt: &(impl Threads + Sync + Abort),
    alloc: Global,
    old: ImageRef,
    new: ImageRef,
    cert: &[Pair],
    change: (usize, u64),
) -> Result<(), AllocError> {
    let words = changed(alloc, old.words, &[change])?;
    let roots = changed(alloc, old.roots, &[change])?;
    let other = with_words(old, words.as_slice());
    expect_slow_answer(rt, alloc, other, new, cert);
    let other = with_roots(old, roots.as_slice());
    expect_slow_answer(rt, alloc, other, new, cert);

    let words = changed(alloc, new.words, &[change])?;
    let roots = changed(alloc, new.roots, &[change])?;
    let other = with_words(new, words.as_slice());
    expect_slow_answer(rt, alloc, old, other, cert);
    let other = with_roots(new, roots.as_slice());
    expect_slow_answer(rt, alloc, old, other, cert);
    Ok(())
}

#[test]
fn changed_rows_are_answered_alike(rt: HostRuntime) -> Result<(), Fail> {
    for (lines, _) in ROWS {
        let file = read_row(rt.alloc(), 1, lines)?;
        for place in 0..7 {
            for word in WORDS {
                let (old, new) = (file.old.as_ref(), file.new.as_ref());
                expect_neighbours(&rt, rt.alloc(), old, new, &file.pairs, (place, word))?;
            }
        }
    }
    Ok(())
}

#[test]
fn raw_objects_are_compared_word_by_word(rt: HostRuntime) -> Result<(), Fail> {
    for (version, lines, _) in RAW_ROWS {
        let file = read_row(rt.alloc(), version, lines)?;
        for place in 0..4 {
            for word in WORDS {
                let (old, new) = (file.old.as_ref(), file.new.as_ref());
                expect_neighbours(&rt, rt.alloc(), old, new, &file.pairs, (place, word))?;
            }
        }
    }
    Ok(())
}
