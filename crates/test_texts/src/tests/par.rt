mod altered;
mod rows;
mod slow_check;
mod streams;
mod texts;

use gc_check::{CheckFault, Refusal, Yes, check};
use gc_par::check_par;
use gc_words::{ImageRef, NewAddr, OldAddr, Pair};
use std::alloc::{AllocError, Global};
use std::test::Fail;

fn image<'a>(size: u32, words: &'a [u64], roots: &'a [u64]) -> ImageRef<'a> {
    ImageRef {
        size,
        end: u32::try_from(words.len()).unwrap_or(0),
        words,
        roots,
        raws: false,
    }
}

fn pair(old: u32, new: u32) -> Pair {
    Pair {
        old: OldAddr(old),
        new: NewAddr(new),
    }
}

fn refused(refusal: Refusal) -> Result<Yes, CheckFault> {
    Err(CheckFault::Refused(refusal))
}

/// Returns the words with each of these changes: another word at a place.
fn changed(alloc: Global, words: &[u64], changes: &[(usize, u64)]) -> Result<Vec<u64>, AllocError> {
    let mut words = Vec::from_slice(alloc, words)?;
    for (place, word) in changes {
        if let Some(changed) = words.get_mut(*place) {
            *changed = *word;
        }
    }
    Ok(words)
}

/// Returns the words of 4,096 objects with one field each, the number 0.
fn long_words(alloc: Global) -> Result<Vec<u64>, AllocError> {
    let mut words = Vec::new(alloc);
    words.push(0)?;
    for _ in 0..4096 {
        words.push(16777217)?;
        words.push(0)?;
        words.push(1)?;
    }
    Ok(words)
}

/// Changes to the new image's words of `long_words`, with the answer to each.
const DIFFERENCES: [(&[(usize, u64)], Result<Yes, CheckFault>); 4] = [
    (&[], Ok(Yes { pairs: 4096 })),
    (
        &[(3003, 3), (9003, 3)],
        Err(CheckFault::Refused(Refusal::FieldDiffers { k: 1000, i: 0 })),
    ),
    (
        &[(9003, 3)],
        Err(CheckFault::Refused(Refusal::FieldDiffers { k: 3000, i: 0 })),
    ),
    (
        &[(3003, 3), (9001, 16842753)],
        Err(CheckFault::Refused(Refusal::FieldDiffers { k: 1000, i: 0 })),
    ),
];

/// Compares enough pairs for more than one thread.
#[test]
fn first_of_many_differences(rt: HostRuntime) -> Result<(), Fail> {
    let alloc = rt.alloc();
    let words = long_words(alloc)?;
    let old = image(12289, words.as_slice(), &[]);
    let mut cert = Vec::new(alloc);
    for k in 0..4096 {
        cert.push(pair(1 + 3 * k, 1 + 3 * k))?;
    }
    assert!(rt; cert.len() <= 4096);
    for (changes, expected) in DIFFERENCES {
        let words = changed(alloc, words.as_slice(), changes)?;
        let new = image(12289, words.as_slice(), &[]);
        assert_eq!(rt; check(alloc, old, new, cert.as_slice()), expected);
        assert_eq!(rt; check_par(&rt, alloc, old, new, cert.as_slice()), expected);
    }
    Ok(())
}
