//! A walk over two images at once, from their roots, that finds which objects must be pairs.

ghost use Rattle.std.specs.Prelude.{◌≡◌, IfOk, IsOk, IsTrue, length};
ghost use Rattle.std.specs.List.{AllZip};
ghost use Rattle.gc_words.specs.Word.{words_correspond};
ghost use Rattle.gc_words.specs.Image.{is_start, walk_words, block_at};
ghost use Rattle.gc_words.specs.Certificate.{BlocksCorrespond};
ghost use Rattle.gc_check.specs.Internal.Meetings.{met, met_all, met_objects, MetTo, AlikeTo, HoldsFound};
ghost use Rattle.gc_check.specs.Verdict.{pairs_of};

use crate::object::{fields_at, header_word_at};
use crate::object_table::ObjectTable;
use crate::starts::Starts;
use gc_graph::NoMemory;
use gc_words::{Addr, Header, NewAddr, OldAddr, Pair, Value, decode_wide};
use std::alloc::Global;

/// The pairs that a walk has found, in the order in which it found them.
#[derive(Drop)]
pub(crate) struct Found {
    /// For each old object: the new address that is paired with it, or 0.
    pub(crate) partners: ObjectTable,
    /// For each new object: the old address that is paired with it, or 0.
    pub(crate) originals: ObjectTable,
    pub(crate) pairs: Vec<Pair>,
}

/// The pairs that a walk has found, and whether all words that it met correspond.
#[derive(Drop)]
pub(crate) struct Walk {
    pub(crate) found: Found,
    pub(crate) alike: bool,
}

/// Finds the pairs of objects that the same path from a root finds in both images, and compares the words on these paths. Allocates
/// three times, at the start.
pub(crate) fn find(alloc: Global, old: &Starts, new: &Starts) -> Result<Walk, NoMemory>
    requires old_walked { IsOk (walk_words old.now.words) }
    requires new_walked { IsOk (walk_words new.now.words) }
    requires roots { length old.now.roots ≡ length new.now.roots }
    ensures held { IfOk result (λ walk. HoldsFound old.now new.now walk.found) }
    ensures met { IfOk result (λ walk.
        MetTo old.now new.now (pairs_of walk.found.pairs.items) (length walk.found.pairs.items)) }
    ensures alike { IfOk result (λ walk. IsTrue walk.alike
        → AlikeTo old.now new.now (pairs_of walk.found.pairs.items) (length walk.found.pairs.items)) }
{
    let partners = ObjectTable::new(alloc, old)?;
    let originals = ObjectTable::new(alloc, new)?;
    let pairs = Vec::with_capacity(alloc, old.count())?;
    let mut found = Found {
        partners,
        originals,
        pairs,
    };
    let roots = meet_all(old, new, &mut found, old.roots(), new.roots());
    let alike = meet_reachable(old, new, &mut found, roots);
    Ok(Walk { found, alike })
}

// Meets the objects of all pairs, also of those that this finds. Returns whether the roots are alike and these are too.
fn meet_reachable(old: &Starts, new: &Starts, found: &mut Found, roots: bool) -> bool
    requires held { HoldsFound old.now new.now found.old }
    requires met { MetTo old.now new.now (pairs_of found.old.pairs.items) 0 }
    requires roots { IsTrue roots → AlikeTo old.now new.now (pairs_of found.old.pairs.items) 0 }
    ensures held { HoldsFound old.now new.now found.new }
    ensures met { MetTo old.now new.now (pairs_of found.new.pairs.items) (length found.new.pairs.items) }
    ensures alike { IsTrue result
        → AlikeTo old.now new.now (pairs_of found.new.pairs.items) (length found.new.pairs.items) }
{
    let mut alike = roots;
    for done in 0..old.places() {
        if done >= found.pairs.len() {
            return alike;
        }
        let pair = found.pairs[done];
        alike = meet_objects(old, new, found, pair) && alike;
    }
    // No more pairs are found than the old image has words.
    alike
}

// Meets the fields of the objects of a pair, if their headers are equal and they are not raw. If this returns true, the objects correspond.
fn meet_objects(old: &Starts, new: &Starts, found: &mut Found, pair: Pair) -> bool
    requires old_start { IsTrue (is_start old.now.words pair.old.0) }
    requires new_start { IsTrue (is_start new.now.words pair.new.0) }
    requires held { HoldsFound old.now new.now found.old }
    ensures held { HoldsFound old.now new.now found.new }
    ensures pairs { pairs_of found.new.pairs.items
        ≡ met_objects old.now new.now (pairs_of found.old.pairs.items) (pair.old.0, pair.new.0) }
    ensures alike { IsTrue result → BlocksCorrespond (pairs_of found.new.pairs.items)
        (block_at old.now.words pair.old.0) (block_at new.now.words pair.new.0) }
{
    let word = header_word_at(old.words(), pair.old.0);
    if word != header_word_at(new.words(), pair.new.0) {
        return false;
    }
    let header = Header::read(word).unwrap();
    let originals = fields_at(old.words(), pair.old.0, header);
    let replicas = fields_at(new.words(), pair.new.0, header);
    if header.is_raw() {
        return originals == replicas;
    }
    meet_all(old, new, found, originals, replicas)
}

// Meets words at the same places of two lists. If this returns true, they correspond.
fn meet_all(
    old: &Starts,
    new: &Starts,
    found: &mut Found,
    originals: &[u64],
    replicas: &[u64],
) -> bool
    requires count { length originals.now ≡ length replicas.now }
    requires held { HoldsFound old.now new.now found.old }
    ensures held { HoldsFound old.now new.now found.new }
    ensures pairs { pairs_of found.new.pairs.items
        ≡ met_all old.now new.now (pairs_of found.old.pairs.items) originals.now replicas.now }
    ensures alike { IsTrue result
        → AllZip (λ v w. IsTrue (words_correspond (pairs_of found.new.pairs.items) v w)) originals.now replicas.now }
{
    let mut alike = true;
    for i in 0..originals.len() {
        alike = meet(old, new, found, originals[i], replicas[i]) && alike;
    }
    alike
}

// Meets two words: if both refer to objects that have no partner yet, these are a pair. Returns whether they correspond then.
fn meet(old: &Starts, new: &Starts, found: &mut Found, original: u64, replica: u64) -> bool
    requires held { HoldsFound old.now new.now found.old }
    ensures held { HoldsFound old.now new.now found.new }
    ensures pairs { pairs_of found.new.pairs.items
        ≡ met old.now new.now (pairs_of found.old.pairs.items) original replica }
    ensures alike { result ≡ words_correspond (pairs_of found.new.pairs.items) original replica }
{
    if original == replica && (original == 0 || original % 2 == 1) {
        return true;
    }
    let Some(Value::Ref(from)) = decode_wide(original) else {
        return false;
    };
    let Some(Value::Ref(to)) = decode_wide(replica) else {
        return false;
    };
    meet_refs(old, new, found, from, to);
    is_pair(old, found, from, to)
}

ghost use Rattle.std.specs.Prelude.{◌≤◌};
ghost use Rattle.gc_graph.specs.Correspond.{paired};
ghost use Rattle.gc_check.specs.Internal.Meetings.{met_refs, is_free};
ghost use Rattle.gc_check.specs.Internal.Tables.{HasEntries, HoldsPartners, by_address};

// Enters two addresses as a pair, if objects start there that have no partner yet.
fn meet_refs(old: &Starts, new: &Starts, found: &mut Found, from: Addr, to: Addr)
    requires held { HoldsFound old.now new.now found.old }
    ensures held { HoldsFound old.now new.now found.new }
    ensures pairs { pairs_of found.new.pairs.items
        ≡ met_refs old.now new.now (pairs_of found.old.pairs.items) from.0 to.0 }
{
    if !is_free(old, new, found, from, to) {
        return;
    }
    let pair = Pair {
        old: OldAddr(from.0),
        new: NewAddr(to.0),
    };
    found.pairs.push_reserved(pair);
    found.partners.set(old, from.0, to.0);
    found.originals.set(new, to.0, from.0);
}

// Returns whether objects start at both addresses and neither has a partner.
#[tactic(auto, using(crate::proofs::Meetings::has_original))]
fn is_free(old: &Starts, new: &Starts, found: &Found, from: Addr, to: Addr) -> bool
    requires held { HoldsFound old.now new.now found.now }
    ensures { result ≡ is_free old.now new.now (pairs_of found.now.pairs.items) from.0 to.0 }
{
    if !old.contains(from.0) {
        return false;
    }
    if !new.contains(to.0) {
        return false;
    }
    if found.partners.get(old, from.0) != 0 {
        return false;
    }
    found.originals.get(new, to.0) == 0
}

// Returns whether the addresses are a pair.
fn is_pair(old: &Starts, found: &Found, from: Addr, to: Addr) -> bool
    requires address { 1 ≤ to.0 }
    requires entries { HasEntries old.now.words found.now.partners }
    requires held { HoldsPartners (by_address old.now.words found.now.partners) (pairs_of found.now.pairs.items) }
    ensures { result ≡ paired (pairs_of found.now.pairs.items) from.0 to.0 }
{
    found.partners.get(old, from.0) == to.0
}
