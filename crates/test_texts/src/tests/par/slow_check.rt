//! A slow checker, which follows the rules one after the other, with nested loops and without tables.

use gc_check::{CheckFault, Refusal, Yes};
use gc_words::{Header, ImageRef, Pair};

pub(super) fn slow_check(old: ImageRef, new: ImageRef, cert: &[Pair]) -> Result<Yes, CheckFault> {
    match slow_fault(old, new, cert) {
        Some(refusal) => Err(CheckFault::Refused(refusal)),
        None => Ok(Yes {
            pairs: u32::try_from(cert.len()).unwrap_or(0),
        }),
    }
}

fn slow_fault(old: ImageRef, new: ImageRef, cert: &[Pair]) -> Option<Refusal> {
    if let Some(at) = shape(old) {
        return Some(Refusal::OldShape { at });
    }
    if let Some(at) = shape(new) {
        return Some(Refusal::NewShape { at });
    }
    if old.roots.len() != new.roots.len() {
        return Some(Refusal::RootCount);
    }
    for k in 0..cert.len() {
        if let Some(refusal) = place(old, new, &cert[..k], k as u64, cert[k]) {
            return Some(refusal);
        }
    }
    for k in 0..cert.len() {
        if let Some(refusal) = objects(old, new, cert, k as u64, cert[k]) {
            return Some(refusal);
        }
    }
    for (slot, (v, w)) in old.roots.iter().zip(new.roots).enumerate() {
        if !correspond(cert, *v, *w) {
            return Some(Refusal::RootDiffers { slot: slot as u64 });
        }
    }
    None
}

fn shape(image: ImageRef) -> Option<u64> {
    let sizes = 1 <= image.size && image.size <= 1048576 && 1 <= image.end;
    let words = image.words.len() == image.end as usize && image.words.first() == Some(&0);
    if !sizes || image.end > image.size || !words {
        return Some(0);
    }
    let mut inside = 0;
    for at in 1..image.words.len() {
        if inside > 0 {
            inside -= 1;
            continue;
        }
        match header_in(image, image.words[at]) {
            Some(header) if at + 2 + usize::from(header.len()) <= image.words.len() => {
                inside = usize::from(header.len()) + 1;
            }
            _ => return Some(at as u64),
        }
    }
    None
}

// Returns the header that a word encodes, if any. In some images headers of raw objects do not count.
fn header_in(image: ImageRef, word: u64) -> Option<Header> {
    let header = Header::read(word)?;
    if header.is_raw() && !image.raws {
        return None;
    }
    Some(header)
}

fn is_start(words: &[u64], place: u32) -> bool {
    let mut inside = 0;
    for at in 1..words.len() {
        if inside > 0 {
            inside -= 1;
            continue;
        }
        if at == place as usize {
            return true;
        }
        inside = Header::read(words[at]).map_or(0, |header| usize::from(header.len()) + 1);
    }
    false
}

fn place(old: ImageRef, new: ImageRef, before: &[Pair], k: u64, pair: Pair) -> Option<Refusal> {
    if !is_start(old.words, pair.old.0) {
        return Some(Refusal::OldNotStart { k });
    }
    if !is_start(new.words, pair.new.0) {
        return Some(Refusal::NewNotStart { k });
    }
    if before.last().is_some_and(|last| pair.new.0 <= last.new.0) {
        return Some(Refusal::NotRising { k });
    }
    if before.iter().any(|earlier| earlier.old.0 == pair.old.0) {
        return Some(Refusal::Twice { k });
    }
    None
}

fn objects(old: ImageRef, new: ImageRef, cert: &[Pair], k: u64, pair: Pair) -> Option<Refusal> {
    let old_at = pair.old.0 as usize;
    let new_at = pair.new.0 as usize;
    let header = old.words.get(old_at).copied().unwrap_or(0);
    if Some(&header) != new.words.get(new_at) {
        return Some(Refusal::HeaderDiffers { k });
    }
    let header = Header::read(header)?;
    for i in 0..usize::from(header.len()) {
        let v = old.words.get(old_at + 2 + i).copied().unwrap_or(0);
        let w = new.words.get(new_at + 2 + i).copied().unwrap_or(0);
        let alike = if header.is_raw() {
            v == w
        } else {
            correspond(cert, v, w)
        };
        if !alike {
            return Some(Refusal::FieldDiffers { k, i: i as u64 });
        }
    }
    None
}

// Returns whether both are nil, both are the same number, or both are references to the objects of a pair. A reference is an
// even word below 2^21, but not 0.
fn correspond(cert: &[Pair], v: u64, w: u64) -> bool {
    if v == 0 || v % 2 == 1 {
        return v == w;
    }
    v < 2097152 && w < 2097152 && is_pair(cert, v, w)
}

fn is_pair(cert: &[Pair], v: u64, w: u64) -> bool {
    cert.iter().any(|pair| 2 * u64::from(pair.old.0) == v && 2 * u64::from(pair.new.0) == w)
}
