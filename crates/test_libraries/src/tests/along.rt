//! Tests of the standing checker: collectors that are wrong, and what it says of them.

use gc_monitor::{Monitor, Outline};
use std::alloc::Global;
use std::process::Abort;
use std::test::Fail;

const PAIR: u64 = 16777218;

const EMPTY: u64 = 16777216;

const RAW: u64 = 50331649;
// An object with a reference and a number, and an empty one.
const OLD: [u64; 7] = [0, PAIR, 1, 10, 15, EMPTY, 5];

const NEW: [u64; 7] = [0, PAIR, 1, 10, 15, EMPTY, 5];

fn outline<'a>(words: &[u64], roots: &'a [u64]) -> Outline<'a> {
    Outline {
        size: 32,
        end: 7,
        count: words.len(),
        roots,
        nils: 0,
        raws: true,
    }
}

fn says(standing: &Monitor, old: &[u64], new: &[u64], root: u64) -> bool {
    standing.says_yes(outline(old, &[2]), outline(new, &[root]))
}

/// Returns how many words a test's space has, which are few.
fn count(words: &[u64]) -> u32 {
    words.len().min(1000) as u32
}

/// How a checker hears of replicas and their fields: of each by itself, or of all in one run.
#[derive(Clone, Copy)]
enum Telling {
    OneByOne,
    InRuns,
}

const TELLINGS: [Telling; 2] = [Telling::OneByOne, Telling::InRuns];

/// Tells the checker of the replicas that are new, and lets it look at these fields. In runs it looks at all fields.
fn tell(standing: &mut Monitor, telling: Telling, old: &[u64], new: &[u64], fields: &[(u32, u16)]) {
    match telling {
        Telling::OneByOne => {
            for _ in 0..new.len() {
                standing.placed(old, new);
            }
            for (at, i) in fields {
                standing.look(old, new, *at, *i);
            }
        }
        Telling::InRuns => {
            standing.placed_all(old, new);
            standing.look_all(old, new, 1, 0, count(new), 0);
        }
    }
}

const BOTH_FIELDS: [(u32, u16); 2] = [(1, 0), (1, 1)];

/// Returns a checker that has walked over both spaces and looked at both fields.
fn looked(alloc: Global, telling: Telling, old: &[u64], new: &[u64]) -> Result<Monitor, Fail> {
    let mut standing = Monitor::new(alloc, 32)?;
    standing.made(old);
    standing.made(old);
    tell(&mut standing, telling, old, new, &BOTH_FIELDS);
    Ok(standing)
}

#[test]
fn what_is_right_is_accepted(rt: HostRuntime) -> Result<(), Fail> {
    for telling in TELLINGS {
        let standing = looked(rt.alloc(), telling, &OLD, &NEW)?;
        assert!(rt; says(&standing, &OLD, &NEW, 2));
        assert!(rt; !says(&standing, &OLD, &NEW, 10));
        assert!(rt; !standing.says_yes(outline(&OLD, &[2]), outline(&NEW, &[])));
    }
    Ok(())
}

/// Returns the outline with so many nils behind its roots.
fn with_nils<'a>(outline: Outline<'a>, nils: u32) -> Outline<'a> {
    Outline { nils, ..outline }
}

#[test]
fn nils_may_be_left_out(rt: HostRuntime) -> Result<(), Fail> {
    let standing = looked(rt.alloc(), Telling::InRuns, &OLD, &NEW)?;
    let old = with_nils(outline(&OLD, &[2]), 2);
    let new = with_nils(outline(&NEW, &[2]), 2);
    assert!(rt; standing.says_yes(old, new));
    assert!(rt; standing.says_yes(old, outline(&NEW, &[2, 0, 0])));
    assert!(rt; standing.says_yes(outline(&OLD, &[2, 0, 0]), new));
    assert!(rt; !standing.says_yes(old, outline(&NEW, &[2, 0])));
    assert!(rt; !standing.says_yes(old, outline(&NEW, &[2, 0, 2])));
    assert!(rt; !standing.says_yes(outline(&OLD, &[2, 0, 2]), new));
    Ok(())
}

#[test]
fn a_field_that_is_due_is_not_accepted(rt: HostRuntime) -> Result<(), Fail> {
    for telling in TELLINGS {
        let mut standing = looked(rt.alloc(), telling, &OLD, &NEW)?;
        standing.written(&OLD, 1, 1);
        assert!(rt; !says(&standing, &OLD, &NEW, 2));
        tell(&mut standing, telling, &OLD, &NEW, &BOTH_FIELDS);
        assert!(rt; says(&standing, &OLD, &NEW, 2));
    }
    Ok(())
}

#[test]
fn an_entry_that_is_not_applied_is_not_accepted(rt: HostRuntime) -> Result<(), Fail> {
    // The mutator wrote another number to the first object's second field.
    let old = [0, PAIR, 1, 10, 17, EMPTY, 5];
    for telling in TELLINGS {
        let mut standing = looked(rt.alloc(), telling, &OLD, &NEW)?;
        standing.written(&old, 1, 1);
        tell(&mut standing, telling, &old, &NEW, &BOTH_FIELDS);
        assert!(rt; !says(&standing, &old, &NEW, 2));
        standing.applied(&old, &NEW, 1, 1);
        assert!(rt; !says(&standing, &old, &NEW, 2));
        standing.applied(&old, &old, 1, 1);
        assert!(rt; says(&standing, &old, &old, 2));
    }
    Ok(())
}

#[test]
fn a_field_in_no_run_is_not_accepted(rt: HostRuntime) -> Result<(), Fail> {
    // Each run is one field of the first replica, as the collector's steps may be.
    for left_out in 0..3 {
        let mut standing = Monitor::new(rt.alloc(), 32)?;
        standing.made(&OLD);
        standing.made(&OLD);
        standing.placed_all(&OLD, &NEW);
        for i in 0..2 {
            if i != left_out {
                standing.look_all(&OLD, &NEW, 1, i, 1, i + 1);
            }
        }
        assert!(rt; says(&standing, &OLD, &NEW, 2) == (left_out == 2));
    }
    Ok(())
}

#[test]
fn a_link_claims_by_its_low_bits(rt: HostRuntime) -> Result<(), Fail> {
    // The link of the first object is 1 in its low 32 bits, and 5 above them.
    let old = [0, PAIR, 21474836481, 10, 15, EMPTY, 5];
    // A link that leads elsewhere.
    let wrong = [0, PAIR, 21474836485, 10, 15, EMPTY, 5];
    for telling in TELLINGS {
        let mut standing = looked(rt.alloc(), telling, &old, &NEW)?;
        standing.written(&old, 1, 1);
        assert!(rt; !says(&standing, &old, &NEW, 2));
        standing.applied(&old, &NEW, 1, 1);
        assert!(rt; says(&standing, &old, &NEW, 2));
        standing.written(&wrong, 1, 1);
        assert!(rt; !says(&standing, &old, &NEW, 2));
    }
    Ok(())
}

/// What a collector made of a heap, and the fields that it lets the checker look at, by place and number.
#[derive(Clone, Copy, Drop)]
struct Collected<'a> {
    old: &'a [u64],
    new: &'a [u64],
    old_roots: &'a [u64],
    new_roots: &'a [u64],
    fields: &'a [(u32, u16)],
}

fn whole<'a>(words: &[u64], roots: &'a [u64]) -> Outline<'a> {
    Outline {
        size: 32,
        end: count(words),
        count: words.len(),
        roots,
        nils: 0,
        raws: true,
    }
}

/// Returns whether a checker accepts it, in whichever way it is told.
fn is_accepted(alloc: Global, collected: &Collected) -> Result<bool, Fail> {
    Ok(accepts(alloc, Telling::OneByOne, collected)? && accepts(alloc, Telling::InRuns, collected)?)
}

/// Returns whether a checker refuses it, in whichever way it is told.
fn is_refused(alloc: Global, collected: &Collected) -> Result<bool, Fail> {
    Ok(
        !accepts(alloc, Telling::OneByOne, collected)?
            && !accepts(alloc, Telling::InRuns, collected)?,
    )
}

/// Returns whether a checker accepts it that has walked over both spaces and looked at these fields.
fn accepts(alloc: Global, telling: Telling, collected: &Collected) -> Result<bool, Fail> {
    let Collected {
        old,
        new,
        old_roots,
        new_roots,
        fields,
    } = collected;
    let mut standing = Monitor::new(alloc, 32)?;
    for _ in 0..old.len() {
        standing.made(old);
    }
    tell(&mut standing, telling, old, new, fields);
    Ok(standing.says_yes(whole(old, old_roots), whole(new, new_roots)))
}

/// Returns what the collector makes of `OLD`, if it makes these words and roots of it.
fn of_old<'a>(new: &'a [u64], new_roots: &'a [u64]) -> Collected<'a> {
    Collected {
        old: &OLD,
        new,
        old_roots: &[2],
        new_roots,
        fields: &BOTH_FIELDS,
    }
}

#[test]
fn a_wrong_field_is_not_accepted(rt: HostRuntime) -> Result<(), Fail> {
    let alloc = rt.alloc();
    assert!(rt; is_accepted(alloc, &of_old(&NEW, &[2]))?);
    let number = [0, PAIR, 1, 10, 17, EMPTY, 5];
    assert!(rt; is_refused(alloc, &of_old(&number, &[2]))?);
    let nil = [0, PAIR, 1, 10, 0, EMPTY, 5];
    assert!(rt; is_refused(alloc, &of_old(&nil, &[2]))?);
    Ok(())
}

#[test]
fn a_wrong_target_is_not_accepted(rt: HostRuntime) -> Result<(), Fail> {
    let alloc = rt.alloc();
    let itself = [0, PAIR, 1, 2, 15, EMPTY, 5];
    assert!(rt; is_refused(alloc, &of_old(&itself, &[2]))?);
    let no_start = [0, PAIR, 1, 12, 15, EMPTY, 5];
    assert!(rt; is_refused(alloc, &of_old(&no_start, &[2]))?);
    Ok(())
}

#[test]
fn a_wrong_claim_is_not_accepted(rt: HostRuntime) -> Result<(), Fail> {
    let alloc = rt.alloc();
    let swapped = [0, PAIR, 5, 10, 15, EMPTY, 1];
    assert!(rt; is_refused(alloc, &of_old(&swapped, &[2]))?);
    let twice = [0, PAIR, 1, 10, 15, PAIR, 1];
    assert!(rt; is_refused(alloc, &of_old(&twice, &[2]))?);
    Ok(())
}

#[test]
fn a_replica_with_another_header_is_not_accepted(rt: HostRuntime) -> Result<(), Fail> {
    let alloc = rt.alloc();
    // The second replica has kind 1 in place of 0.
    let kind = [0, PAIR, 1, 10, 15, EMPTY + 65536, 5];
    assert!(rt; is_refused(alloc, &of_old(&kind, &[2]))?);
    // It is raw.
    let raw = [0, PAIR, 1, 10, 15, EMPTY + 33554432, 5];
    assert!(rt; is_refused(alloc, &of_old(&raw, &[2]))?);
    Ok(())
}

#[test]
fn a_wrong_back_link_is_not_accepted(rt: HostRuntime) -> Result<(), Fail> {
    let alloc = rt.alloc();
    let old = [0, EMPTY, 0, EMPTY, 0];
    // Root 0 refers to the first object, root 1 to the second one.
    let right = Collected {
        old: &old,
        new: &[0, EMPTY, 1, EMPTY, 3],
        old_roots: &[2, 6],
        new_roots: &[2, 6],
        fields: &[],
    };
    assert!(rt; is_accepted(alloc, &right)?);
    let swapped = Collected {
        new: &[0, EMPTY, 3, EMPTY, 1],
        ..right
    };
    assert!(rt; is_refused(alloc, &swapped)?);
    let none = Collected {
        new: &[0, EMPTY, 1, EMPTY, 0],
        ..right
    };
    assert!(rt; is_refused(alloc, &none)?);
    let wild = Collected {
        new: &[0, EMPTY, 1, EMPTY, 4294967299],
        ..right
    };
    assert!(rt; is_refused(alloc, &wild)?);
    Ok(())
}

#[test]
fn a_root_without_a_replica_is_not_accepted(rt: HostRuntime) -> Result<(), Fail> {
    let alloc = rt.alloc();
    let old = [0, EMPTY, 0, EMPTY, 0];
    // The second object has no replica, and root 1 refers to it.
    let kept = Collected {
        old: &old,
        new: &[0, EMPTY, 1],
        old_roots: &[2, 6],
        new_roots: &[2, 6],
        fields: &[],
    };
    assert!(rt; is_refused(alloc, &kept)?);
    let forgotten = Collected {
        new_roots: &[2, 0],
        ..kept
    };
    assert!(rt; is_refused(alloc, &forgotten)?);
    let unreachable = Collected {
        old_roots: &[2, 0],
        new_roots: &[2, 0],
        ..kept
    };
    assert!(rt; is_accepted(alloc, &unreachable)?);
    Ok(())
}

#[test]
fn objects_and_replicas_are_one_to_one(rt: HostRuntime) -> Result<(), Fail> {
    let alloc = rt.alloc();
    let old = [0, EMPTY, 0, EMPTY, 0];
    // Both objects become one.
    let merged = Collected {
        old: &old,
        new: &[0, EMPTY, 1],
        old_roots: &[2, 6],
        new_roots: &[2, 2],
        fields: &[],
    };
    assert!(rt; is_refused(alloc, &merged)?);
    // One object becomes two.
    let split = Collected {
        new: &[0, EMPTY, 1, EMPTY, 1],
        old_roots: &[2, 2],
        new_roots: &[2, 6],
        ..merged
    };
    assert!(rt; is_refused(alloc, &split)?);
    Ok(())
}

#[test]
fn an_original_starts_an_object(rt: HostRuntime) -> Result<(), Fail> {
    let alloc = rt.alloc();
    // The number in the raw object's field looks like the header of an empty object.
    let old = [0, RAW, 0, EMPTY];
    let inside = Collected {
        old: &old,
        new: &[0, EMPTY, 3],
        old_roots: &[6],
        new_roots: &[2],
        fields: &[],
    };
    assert!(rt; is_refused(alloc, &inside)?);
    let outside = Collected {
        new: &[0, EMPTY, 4],
        ..inside
    };
    assert!(rt; is_refused(alloc, &outside)?);
    let at_start = Collected {
        new: &[0, RAW, 1, EMPTY],
        old_roots: &[2],
        new_roots: &[2],
        ..inside
    };
    assert!(rt; is_accepted(alloc, &at_start)?);
    Ok(())
}

#[test]
fn raw_words_have_to_be_equal(rt: HostRuntime) -> Result<(), Fail> {
    let alloc = rt.alloc();
    let old = [0, RAW, 3, 8, EMPTY, 1];
    // A collector that takes the raw word 8 for a reference to the object at 4, whose replica is at 1.
    let moved = Collected {
        old: &old,
        new: &[0, EMPTY, 4, RAW, 1, 2],
        old_roots: &[],
        new_roots: &[],
        fields: &[(3, 0)],
    };
    assert!(rt; is_refused(alloc, &moved)?);
    let copied = Collected {
        new: &[0, EMPTY, 4, RAW, 1, 8],
        ..moved
    };
    assert!(rt; is_accepted(alloc, &copied)?);
    Ok(())
}

#[test]
fn raw_words_that_differ_are_not_accepted(rt: HostRuntime) -> Result<(), Fail> {
    let alloc = rt.alloc();
    let old = [0, RAW, 0, 8];
    let right = Collected {
        old: &old,
        new: &[0, RAW, 1, 8],
        old_roots: &[2],
        new_roots: &[2],
        fields: &[],
    };
    assert!(rt; is_accepted(alloc, &right)?);
    let differs = Collected {
        new: &[0, RAW, 1, 9],
        ..right
    };
    assert!(rt; is_refused(alloc, &differs)?);
    let looked = Collected {
        fields: &[(1, 0)],
        ..differs
    };
    assert!(rt; is_refused(alloc, &looked)?);
    Ok(())
}

#[test]
fn what_is_lost_stays_lost(rt: HostRuntime) -> Result<(), Fail> {
    for telling in TELLINGS {
        let mut standing = looked(rt.alloc(), telling, &OLD, &NEW)?;
        assert!(rt; says(&standing, &OLD, &NEW, 2));
        standing.lose();
        assert!(rt; !says(&standing, &OLD, &NEW, 2));
        tell(&mut standing, telling, &OLD, &NEW, &BOTH_FIELDS);
        standing.flipped();
        standing.dropped();
        assert!(rt; !says(&standing, &OLD, &NEW, 2));
    }
    Ok(())
}

#[test]
fn marks_tell_where_objects_start(rt: HostRuntime) -> Result<(), Fail> {
    let standing = looked(rt.alloc(), Telling::InRuns, &OLD, &NEW)?;
    for at in [1, 5] {
        assert!(rt; standing.starts_at(at));
    }
    for at in [0, 2, 6, 7, u32::MAX] {
        assert!(rt; !standing.starts_at(at));
    }
    Ok(())
}

/// Returns a space of so many objects without fields. The link of each is its own address.
fn empty_objects(alloc: Global, count: u64) -> Result<Vec<u64>, Fail> {
    let mut words = Vec::new(alloc);
    words.push(0)?;
    for k in 0..count {
        words.push(EMPTY)?;
        words.push(2 * k + 1)?;
    }
    Ok(words)
}

/// Returns the outline of a full space whose root refers to its first object.
fn full(words: &[u64]) -> Outline<'_> {
    Outline {
        size: count(words),
        end: count(words),
        ..outline(words, &[2])
    }
}

#[test]
fn what_is_given_up_is_placed_again(rt: HostRuntime) -> Result<(), Fail> {
    let words = empty_objects(rt.alloc(), 300)?;
    for telling in TELLINGS {
        let mut standing = Monitor::new(rt.alloc(), 601)?;
        for _ in 0..300 {
            standing.made(&words);
        }
        for placed in [300, 5, 0, 130, 300, 300] {
            let new = empty_objects(rt.alloc(), placed)?;
            tell(&mut standing, telling, &words, &new, &[]);
            let yes = standing.says_yes(full(&words), full(&words));
            assert!(rt; yes == (placed == 300));
            standing.dropped();
            assert!(rt; standing.starts_at(1));
        }
    }
    Ok(())
}

#[test]
fn no_original_is_taken_twice_after_a_collection_is_given_up(rt: HostRuntime) -> Result<(), Fail> {
    let words = empty_objects(rt.alloc(), 2)?;
    let first = [0, EMPTY, 1];
    let twice = [0, EMPTY, 1, EMPTY, 1];
    for telling in TELLINGS {
        for new in [&twice[..], &words[..]] {
            let mut standing = Monitor::new(rt.alloc(), 5)?;
            standing.made(&words);
            standing.made(&words);
            tell(&mut standing, telling, &words, &first, &[]);
            standing.dropped();
            tell(&mut standing, telling, &words, new, &[]);
            let yes = standing.says_yes(full(&words), full(new));
            assert!(rt; yes == (new[4] == 3));
        }
    }
    Ok(())
}
