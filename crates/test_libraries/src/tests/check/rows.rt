//! Small pairs of images, with the answers that the checker must give.

use super::{Row, image, refused, with_raws, yes};
use gc_check::Refusal;

/// Returns the rows without pairs or with one pair.
pub(super) fn few_pairs() -> [Row; 13] {
    [
        Row {
            old: image(1, 1, &[0], &[0]),
            new: image(1, 1, &[0], &[0]),
            pairs: &[],
            answer: yes(0),
        },
        Row {
            old: image(1, 1, &[0], &[0]),
            new: image(1, 1, &[0], &[0, 0]),
            pairs: &[],
            answer: refused(Refusal::RootCount),
        },
        Row {
            old: image(8, 3, &[0, 16777216, 0], &[2]),
            new: image(8, 3, &[0, 16777217, 0], &[2]),
            pairs: &[(1, 1)],
            answer: refused(Refusal::NewShape { at: 1 }),
        },
        Row {
            old: image(8, 1, &[7], &[]),
            new: image(8, 1, &[0], &[]),
            pairs: &[],
            answer: refused(Refusal::OldShape { at: 0 }),
        },
        // The root refers to an address at which no object starts.
        Row {
            old: image(8, 4, &[0, 16777217, 0, 1], &[6]),
            new: image(8, 4, &[0, 16777217, 0, 1], &[6]),
            pairs: &[(1, 1)],
            answer: refused(Refusal::RootDiffers { slot: 0 }),
        },
        // The target of the second field has no replica.
        Row {
            old: image(8, 7, &[0, 16777218, 0, 1, 10, 16777216, 0], &[2]),
            new: image(8, 5, &[0, 16777218, 0, 1, 2], &[2]),
            pairs: &[(1, 1)],
            answer: refused(Refusal::FieldDiffers { k: 0, i: 1 }),
        },
        // Garbage has no replica.
        Row {
            old: image(8, 5, &[0, 16777216, 0, 16777216, 0], &[2]),
            new: image(8, 3, &[0, 16777216, 0], &[2]),
            pairs: &[(1, 1)],
            answer: yes(1),
        },
        // The number 4 and a reference to 4 do not correspond.
        Row {
            old: image(9, 4, &[0, 16777217, 0, 9], &[2]),
            new: image(9, 4, &[0, 16777217, 0, 8], &[2]),
            pairs: &[(1, 1)],
            answer: refused(Refusal::FieldDiffers { k: 0, i: 0 }),
        },
        Row {
            old: image(8, 3, &[0, 16777216, 0], &[2]),
            new: image(8, 3, &[0, 16842752, 0], &[2]),
            pairs: &[(1, 1)],
            answer: refused(Refusal::HeaderDiffers { k: 0 }),
        },
        Row {
            old: image(8, 3, &[0, 16777216, 0], &[2]),
            new: image(8, 3, &[0, 16777216, 0], &[2]),
            pairs: &[(1, 2)],
            answer: refused(Refusal::NewNotStart { k: 0 }),
        },
        // The end is above the size.
        Row {
            old: image(1, 3, &[0, 16777216, 0], &[]),
            new: image(1, 1, &[0], &[]),
            pairs: &[],
            answer: refused(Refusal::OldShape { at: 0 }),
        },
        // Links are not compared.
        Row {
            old: image(8, 3, &[0, 16777216, 77], &[2]),
            new: image(8, 3, &[0, 16777216, 99], &[2]),
            pairs: &[(1, 1)],
            answer: yes(1),
        },
        // A word that is not a value corresponds to no word, not even to itself.
        Row {
            old: image(8, 4, &[0, 16777217, 0, 2097152], &[2]),
            new: image(8, 4, &[0, 16777217, 0, 2097152], &[2]),
            pairs: &[(1, 1)],
            answer: refused(Refusal::FieldDiffers { k: 0, i: 0 }),
        },
    ]
}

/// Returns the rows with two pairs, and one whose old image ends within an object.
pub(super) fn many_pairs() -> [Row; 5] {
    [
        // Two objects have one replica.
        Row {
            old: image(8, 5, &[0, 16777216, 0, 16777216, 0], &[2, 6]),
            new: image(8, 3, &[0, 16777216, 0], &[2, 2]),
            pairs: &[(1, 1), (3, 1)],
            answer: refused(Refusal::NotRising { k: 1 }),
        },
        // An object has two replicas.
        Row {
            old: image(8, 3, &[0, 16777216, 0], &[2, 2]),
            new: image(8, 5, &[0, 16777216, 0, 16777216, 0], &[2, 6]),
            pairs: &[(1, 1), (1, 3)],
            answer: refused(Refusal::Twice { k: 1 }),
        },
        // The second pair has the addresses of a field.
        Row {
            old: image(8, 4, &[0, 16777217, 0, 1], &[6]),
            new: image(8, 4, &[0, 16777217, 0, 1], &[6]),
            pairs: &[(1, 1), (3, 3)],
            answer: refused(Refusal::OldNotStart { k: 1 }),
        },
        // Old addresses need not rise.
        Row {
            old: image(8, 5, &[0, 16777216, 0, 16842752, 0], &[2, 6]),
            new: image(8, 5, &[0, 16842752, 0, 16777216, 0], &[6, 2]),
            pairs: &[(3, 1), (1, 3)],
            answer: yes(2),
        },
        Row {
            old: image(8, 4, &[0, 16777216, 0, 5], &[]),
            new: image(8, 1, &[0], &[]),
            pairs: &[],
            answer: refused(Refusal::OldShape { at: 3 }),
        },
    ]
}

/// Returns the rows with a raw object, or with a word that looks like one.
pub(super) fn raw_objects() -> [Row; 6] {
    [
        // The headers of raw objects do not count.
        Row {
            old: image(8, 3, &[0, 50331648, 0], &[2]),
            new: image(8, 3, &[0, 50331648, 0], &[2]),
            pairs: &[(1, 1)],
            answer: refused(Refusal::OldShape { at: 1 }),
        },
        Row {
            old: with_raws(8, 3, &[0, 50331648, 0], &[2]),
            new: with_raws(8, 3, &[0, 50331648, 0], &[2]),
            pairs: &[(1, 1)],
            answer: yes(1),
        },
        // The raw word 18 is a number, not a reference to 9.
        Row {
            old: with_raws(9, 4, &[0, 50331649, 0, 18], &[2]),
            new: with_raws(9, 4, &[0, 50331649, 0, 18], &[2]),
            pairs: &[(1, 1)],
            answer: yes(1),
        },
        Row {
            old: with_raws(9, 4, &[0, 50331649, 0, 18], &[2]),
            new: with_raws(9, 4, &[0, 50331649, 0, 8], &[2]),
            pairs: &[(1, 1)],
            answer: refused(Refusal::FieldDiffers { k: 0, i: 0 }),
        },
        // A raw word need not be a value.
        Row {
            old: with_raws(9, 4, &[0, 50331649, 0, 18446744073709551614], &[2]),
            new: with_raws(9, 4, &[0, 50331649, 0, 18446744073709551614], &[2]),
            pairs: &[(1, 1)],
            answer: yes(1),
        },
        Row {
            old: with_raws(8, 3, &[0, 16777216, 0], &[2]),
            new: with_raws(8, 3, &[0, 50331648, 0], &[2]),
            pairs: &[(1, 1)],
            answer: refused(Refusal::HeaderDiffers { k: 0 }),
        },
    ]
}
