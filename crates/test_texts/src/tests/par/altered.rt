//! The image pairs of two flips, with each number changed in turn: every checker gives the slow one's answer.

use super::slow_check::slow_check;
use super::texts::TEXT_CHECKS;
use super::{changed, image, pair, refused};
use gc_cert::{pair_fits, write_pair};
use gc_check::{CheckFault, Refusal, RunFault, Verdict, Yes, check};
use gc_graph::{Sink, Source};
use gc_par::check_par;
use gc_words::{ImageRef, NewAddr, OldAddr, Pair};
use std::alloc::{AllocError, Global};
use std::process::Abort;
use std::test::Fail;
use std::thread::Threads;

/// Two images and the pairs of a certificate, as a flip checks them.
#[derive(Clone, Copy)]
struct Flip<'a> {
    old: ImageRef<'a>,
    new: ImageRef<'a>,
    pairs: &'a [Pair],
}

/// Returns the roots of one mutator: sixteen shared slots, then its own sixteen, which begin with these words.
const fn roots(first: u64, second: u64, third: u64, fourth: u64) -> [u64; 32] {
    [
        0, 0, 0, 0, 0, 0, 0, 0, 0, 0, 0, 0, 0, 0, 0, 0, first, second, third, fourth, 0, 0, 0, 0,
        0, 0, 0, 0, 0, 0, 0, 0,
    ]
}

/// Returns the lists that differ from this one in one number: there it is 0, one more, or the greatest.
fn alterations(alloc: Global, numbers: &[u64], greatest: u64) -> Result<Vec<Vec<u64>>, AllocError> {
    let mut lists = Vec::new(alloc);
    for (place, number) in numbers.iter().enumerate() {
        for other in [0, number.saturating_add(1), greatest] {
            let mut list = Vec::from_slice(alloc, numbers)?;
            if let Some(altered) = list.get_mut(place) {
                *altered = other;
            }
            lists.push(list)?;
        }
    }
    Ok(lists)
}

fn addresses(alloc: Global, pairs: &[Pair]) -> Result<Vec<u64>, AllocError> {
    let mut numbers = Vec::new(alloc);
    for pair in pairs {
        numbers.push(u64::from(pair.old.0))?;
        numbers.push(u64::from(pair.new.0))?;
    }
    Ok(numbers)
}

fn pairs_of(alloc: Global, addresses: &[u64]) -> Result<Vec<Pair>, AllocError> {
    let mut pairs = Vec::new(alloc);
    for two in addresses.chunks_exact(2) {
        pairs.push(Pair {
            old: OldAddr(u32::try_from(two[0]).unwrap_or(0)),
            new: NewAddr(u32::try_from(two[1]).unwrap_or(0)),
        })?;
    }
    Ok(pairs)
}

fn as_verdict(answer: Result<Yes, CheckFault>) -> Result<Verdict, RunFault> {
    match answer {
        Ok(yes) => Ok(Verdict::Yes { pairs: yes.pairs }),
        Err(CheckFault::Refused(refusal)) => Ok(Verdict::Refused(refusal)),
        Err(CheckFault::NoMemory) => Err(RunFault::NoMemory),
    }
}

/// Asserts that every checker gives this answer, the checkers of texts as a verdict.
fn expect_answer(
    rt: &(impl Threads + Sync + Abort),
    alloc: Global,
    flip: Flip,
    expected: Result<Yes, CheckFault>,
) -> Result<(), Fail> {
    let Flip { old, new, pairs } = flip;
    assert!(rt; pair_fits(old, new, pairs));
    assert!(rt; pairs.len() <= 2);
    assert_eq!(rt; slow_check(old, new, pairs), expected);
    assert_eq!(rt; check(alloc, old, new, pairs), expected);
    assert_eq!(rt; check_par(rt, alloc, old, new, pairs), expected);

    let mut text = Sink::new(Vec::new(alloc));
    write_pair(&mut text, old, new, pairs)?;
    let text = text.into_inner();
    for check in TEXT_CHECKS {
        let mut line = Sink::new(Vec::new(alloc));
        let verdict = check.run(rt, alloc, &mut Source::new(text.as_slice()), &mut line);
        assert_eq!(rt; verdict, as_verdict(expected));
    }
    Ok(())
}

/// Asserts that every checker gives the slow one's answer.
fn expect_agreement(
    rt: &(impl Threads + Sync + Abort),
    alloc: Global,
    flip: Flip,
) -> Result<(), Fail> {
    expect_answer(rt, alloc, flip, slow_check(flip.old, flip.new, flip.pairs))
}

/// Changes each word of either image in turn.
fn expect_agreement_on_words(
    rt: &(impl Threads + Sync + Abort),
    alloc: Global,
    flip: Flip,
) -> Result<(), Fail> {
    for list in alterations(alloc, flip.old.words, u64::MAX)?.iter() {
        let words = list.as_slice();
        let old = ImageRef { words, ..flip.old };
        expect_agreement(rt, alloc, Flip { old, ..flip })?;
    }
    for list in alterations(alloc, flip.new.words, u64::MAX)?.iter() {
        let words = list.as_slice();
        let new = ImageRef { words, ..flip.new };
        expect_agreement(rt, alloc, Flip { new, ..flip })?;
    }
    Ok(())
}

/// Changes each root of either image in turn.
fn expect_agreement_on_roots(
    rt: &(impl Threads + Sync + Abort),
    alloc: Global,
    flip: Flip,
) -> Result<(), Fail> {
    for list in alterations(alloc, flip.old.roots, u64::MAX)?.iter() {
        let roots = list.as_slice();
        let old = ImageRef { roots, ..flip.old };
        expect_agreement(rt, alloc, Flip { old, ..flip })?;
    }
    for list in alterations(alloc, flip.new.roots, u64::MAX)?.iter() {
        let roots = list.as_slice();
        let new = ImageRef { roots, ..flip.new };
        expect_agreement(rt, alloc, Flip { new, ..flip })?;
    }
    Ok(())
}

/// Changes each address of the pairs in turn.
fn expect_agreement_on_pairs(
    rt: &(impl Threads + Sync + Abort),
    alloc: Global,
    flip: Flip,
) -> Result<(), Fail> {
    let addresses = addresses(alloc, flip.pairs)?;
    for list in alterations(alloc, addresses.as_slice(), 4294967295)?.iter() {
        let pairs = pairs_of(alloc, list.as_slice())?;
        let pairs = pairs.as_slice();
        expect_agreement(rt, alloc, Flip { pairs, ..flip })?;
    }
    Ok(())
}

/// Two objects refer to each other, and one of them to itself.
#[test]
fn cycle_of_two(rt: HostRuntime) -> Result<(), Fail> {
    let words = [0, 16842754, 1, 10, 2, 16908289, 5, 2];
    let roots = roots(2, 10, 2, 2);
    let both = image(32, &words, &roots);
    let flip = Flip {
        old: both,
        new: both,
        pairs: &[pair(1, 1), pair(5, 5)],
    };
    expect_answer(&rt, rt.alloc(), flip, Ok(Yes { pairs: 2 }))?;
    expect_agreement_on_words(&rt, rt.alloc(), flip)?;
    expect_agreement_on_roots(&rt, rt.alloc(), flip)?;
    expect_agreement_on_pairs(&rt, rt.alloc(), flip)
}

/// A raw object has a word that looks like a reference and one that is not a value; another object refers to it.
#[test]
fn raw_words_are_no_references(rt: HostRuntime) -> Result<(), Fail> {
    let words = [0, 50397186, 1, 18, 18446744073709551614, 16777217, 5, 2];
    let roots = roots(2, 10, 0, 0);
    let both = ImageRef {
        raws: true,
        ..image(32, &words, &roots)
    };
    let flip = Flip {
        old: both,
        new: both,
        pairs: &[pair(1, 1), pair(5, 5)],
    };
    expect_answer(&rt, rt.alloc(), flip, Ok(Yes { pairs: 2 }))?;
    expect_agreement_on_words(&rt, rt.alloc(), flip)?;
    expect_agreement_on_roots(&rt, rt.alloc(), flip)?;
    expect_agreement_on_pairs(&rt, rt.alloc(), flip)
}

/// Returns a flip that keeps one object, at another address, and leaves one behind.
fn one_kept<'a>(old_roots: &'a [u64; 32], new_roots: &'a [u64; 32]) -> Flip<'a> {
    Flip {
        old: image(9, &[0, 16842754, 0, 0, 0, 16842754, 1, 0, 0], old_roots),
        new: image(9, &[0, 16842754, 5, 0, 0], new_roots),
        pairs: &[Pair {
            old: OldAddr(5),
            new: NewAddr(1),
        }],
    }
}

#[test]
fn one_of_two_is_kept(rt: HostRuntime) -> Result<(), Fail> {
    let (old_roots, new_roots) = (roots(10, 0, 0, 0), roots(2, 0, 0, 0));
    let flip = one_kept(&old_roots, &new_roots);
    expect_answer(&rt, rt.alloc(), flip, Ok(Yes { pairs: 1 }))?;
    expect_agreement_on_words(&rt, rt.alloc(), flip)?;
    expect_agreement_on_roots(&rt, rt.alloc(), flip)?;
    expect_agreement_on_pairs(&rt, rt.alloc(), flip)
}

/// Forged variants of `one_kept` get the right answers.
#[test]
fn forgeries_get_their_answers(rt: HostRuntime) -> Result<(), Fail> {
    let alloc = rt.alloc();
    let (old_roots, new_roots) = (roots(10, 0, 0, 0), roots(2, 0, 0, 0));
    let flip = one_kept(&old_roots, &new_roots);
    for (place, word, expected) in [
        (2, 0, Ok(Yes { pairs: 1 })),
        (3, 1, refused(Refusal::FieldDiffers { k: 0, i: 0 })),
        (1, 16842755, refused(Refusal::NewShape { at: 1 })),
    ] {
        let words = changed(alloc, flip.new.words, &[(place, word)])?;
        let words = words.as_slice();
        let new = ImageRef { words, ..flip.new };
        expect_answer(&rt, alloc, Flip { new, ..flip }, expected)?;
    }

    let words = changed(alloc, flip.old.words, &[(5, 16842753)])?;
    let words = words.as_slice();
    let old = ImageRef { words, ..flip.old };
    let forged = Flip { old, ..flip };
    expect_answer(&rt, alloc, forged, refused(Refusal::OldShape { at: 8 }))?;

    for (forged, refusal) in [
        (pair(1, 1), Refusal::RootDiffers { slot: 16 }),
        (pair(5, 2), Refusal::NewNotStart { k: 0 }),
    ] {
        let pairs = [forged];
        let pairs = pairs.as_slice();
        expect_answer(&rt, alloc, Flip { pairs, ..flip }, refused(refusal))?;
    }
    Ok(())
}
