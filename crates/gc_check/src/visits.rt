//! A walk in breadth from the roots of an image, which notes how it found each object.

ghost use Rattle.std.specs.Prelude.{◌≡◌, ◌↔◌, ℕ, suc, ◌<◌, ◌≤◌, ◌^◌, Some, IfOk, IsOk, IsTrue, MatchOption, length, slice_get};
ghost use Rattle.gc_graph.specs.Graph.{name_of};
ghost use Rattle.gc_words.specs.Word.{value_of};
ghost use Rattle.gc_words.specs.Image.{Image, graph_of, is_start, walk_words};
ghost use Rattle.gc_check.specs.Internal.Visits.{AreVisits, AreAllVisited, AreWithin, Continues, HasReferences, HoldsWalk, IsFirstReference, IsNode, LeadsToVisits, NoneRefers, RefersAt, Visited, references, visit_at};
ghost use Rattle.gc_check.specs.Paths.{PathLeadsTo};
ghost use Rattle.gc_check.specs.declared.visits.Node.TheVariants as Node;

use crate::object::{fields_at, header_word_at};
use crate::object_table::ObjectTable;
use crate::shortest_path::Path;
use crate::starts::Starts;
use gc_graph::NoMemory;
use gc_words::Header;
use std::alloc::Global;

/// What a walk visits: the list of roots, or an object.
#[derive(Clone, Copy, Debug)]
pub(crate) enum Node {
    Roots,
    /// The object that starts at this address.
    Object(u32),
}

/// A visit, and the reference by which the walk found its node.
#[derive(Clone, Copy, Debug)]
pub(crate) struct Visit {
    pub(crate) node: Node,
    /// The number of the visit whose node refers to this one. The visit of the roots has number 0.
    pub(crate) from: u32,
    /// The place of the reference among that node's words.
    pub(crate) place: u64,
    /// The number of references that lead here from the roots.
    pub(crate) depth: u64,
}

/// A reference in the node of a visit.
#[derive(Clone, Copy, Debug)]
pub(crate) struct Reference {
    pub(crate) visit: u32,
    pub(crate) place: u64,
}

/// The visits of a walk so far.
#[derive(Drop)]
struct Visits {
    list: Vec<Visit>,
    /// For each object: the number of its visit, or 0.
    numbers: ObjectTable,
}

/// Visits each reachable object once, those with shorter paths first. Allocates twice.
pub(crate) fn visit_reachable(alloc: Global, starts: &Starts) -> Result<Vec<Visit>, NoMemory>
    requires walked { IsOk (walk_words starts.now.words) }
    requires few { length starts.now.words < 2 ^ 32 }
    ensures visits { IfOk result (λ visits. AreVisits starts.now visits.items) }
    ensures all { IfOk result (λ visits. AreAllVisited starts.now visits.items) }
    ensures few { IfOk result (λ visits. length visits.items ≤ 2 ^ 32) }
{
    let mut list = Vec::with_capacity(alloc, starts.count() + 1)?;
    let numbers = ObjectTable::new(alloc, starts)?;
    list.push_reserved(Visit {
        node: Node::Roots,
        from: 0,
        place: 0,
        depth: 0,
    });
    let mut visits = Visits { list, numbers };
    visit_nodes(starts, &mut visits);
    Ok(visits.list)
}

// Goes through the visits, and visits what their nodes refer to.
fn visit_nodes(starts: &Starts, visits: &mut Visits)
    requires held { HoldsWalk starts.now visits.old }
    requires one { length visits.old.list.items ≡ 1 }
    ensures held { HoldsWalk starts.now visits.new }
    ensures all { AreAllVisited starts.now visits.new.list.items }
{
    let mut done = 0;
    while done < visits.list.len() {
        visit_references(starts, visits, done as u32);
        done += 1;
    }
}

// Visits the objects to which the node of this visit refers, unless they are visited.
fn visit_references(starts: &Starts, visits: &mut Visits, from: u32)
    requires held { HoldsWalk starts.now visits.old }
    requires from { from < length visits.old.list.items }
    requires near { AreWithin visits.old.list.items (suc (visit_at visits.old.list.items from).depth) }
    ensures held { HoldsWalk starts.now visits.new }
    ensures continues { Continues visits.old.list.items visits.new.list.items }
    ensures near { AreWithin visits.new.list.items (suc (visit_at visits.old.list.items from).depth) }
    ensures visited { (some : ℕ) → LeadsToVisits starts.now visits.new.list.items from some }
{
    let words = words_of(starts, visits.list[from as usize].node);
    for i in 0..words.len() {
        visit_word(starts, visits, from, words, i);
    }
}

// Visits the object to which word i of the node of this visit refers, unless it is visited.
fn visit_word(starts: &Starts, visits: &mut Visits, from: u32, words: &[u64], i: usize)
    requires held { HoldsWalk starts.now visits.old }
    requires from { from < length visits.old.list.items }
    requires near { AreWithin visits.old.list.items (suc (visit_at visits.old.list.items from).depth) }
    requires words { HasReferences (graph_of starts.now) (visit_at visits.old.list.items from).node words.now }
    requires within { i < length words.now }
    ensures held { HoldsWalk starts.now visits.new }
    ensures continues { Continues visits.old.list.items visits.new.list.items }
    ensures near { AreWithin visits.new.list.items (suc (visit_at visits.old.list.items from).depth) }
    ensures visited { (a : ℕ) → RefersAt (graph_of starts.now) (visit_at visits.old.list.items from).node i a
        → IsTrue (is_start starts.now.words a) → Visited visits.new.list.items a (suc (visit_at visits.old.list.items from).depth) }
{
    let Some(address) = reference_at(words, i) else {
        return;
    };
    let found = Visit {
        node: Node::Object(address),
        from,
        place: i as u64,
        depth: visits.list[from as usize].depth + 1,
    };
    visit_object(starts, visits, address, found);
}

// Visits an object, if one starts at this address and is not visited.
fn visit_object(starts: &Starts, visits: &mut Visits, address: u32, found: Visit)
    requires held { HoldsWalk starts.now visits.old }
    requires from { found.from < length visits.old.list.items }
    requires node { found.node ≡ Node.Object address }
    requires depth { found.depth ≡ suc (visit_at visits.old.list.items found.from).depth }
    requires near { AreWithin visits.old.list.items found.depth }
    requires refers { RefersAt (graph_of starts.now) (visit_at visits.old.list.items found.from).node found.place address }
    ensures held { HoldsWalk starts.now visits.new }
    ensures continues { Continues visits.old.list.items visits.new.list.items }
    ensures near { AreWithin visits.new.list.items found.depth }
    ensures visited { IsTrue (is_start starts.now.words address) → Visited visits.new.list.items address found.depth }
{
    if !starts.contains(address) {
        return;
    }
    if visits.numbers.get(starts, address) != 0 {
        return;
    }
    visits
        .numbers
        .set(starts, address, visits.list.len() as u32);
    visits.list.push_reserved(found);
}

// Returns the words of a node that may be references.
fn words_of<'s>(starts: &'s Starts, node: Node) -> &'s [u64]
    requires { IsNode starts.now node }
    ensures { HasReferences (graph_of starts.now) node result.now }
{
    match node {
        Node::Roots => starts.roots(),
        Node::Object(address) => values_at(starts, address),
    }
}

// Returns the fields of the object that starts at this address, or none if it is raw.
fn values_at<'s>(starts: &'s Starts, address: u32) -> &'s [u64]
    requires { IsTrue (is_start starts.now.words address) }
    ensures { HasReferences (graph_of starts.now) (Node.Object address) result.now }
{
    let word = header_word_at(starts.words(), address);
    let header = Header::read(word).unwrap();
    if header.is_raw() {
        return &[];
    }
    fields_at(starts.words(), address, header)
}

// Returns the address to which word i refers, if a `u32` can hold it.
fn reference_at(words: &[u64], i: usize) -> Option<u32>
    requires { i < length words.now }
    ensures { (a : ℕ) → a < 2 ^ 32 → (result ≡ Some a) ↔ (slice_get (references words.now) i ≡ Some (Some a)) }
{
    reference_in(words[i])
}

// Returns the address to which a word refers, if a `u32` can hold it.
fn reference_in(word: u64) -> Option<u32>
    ensures { (a : ℕ) → a < 2 ^ 32 → (result ≡ Some a) ↔ (name_of (value_of word) ≡ Some a) }
{
    if word == 0 || word % 2 == 1 {
        return None;
    }
    let address = word / 2;
    if address > u64::from(u32::MAX) {
        return None;
    }
    Some(address as u32)
}

/// Returns the first reference to this address, in the order of the visits.
pub(crate) fn first_reference(starts: &Starts, visits: &[Visit], address: u32) -> Option<Reference>
    requires visits { AreVisits starts.now visits.now }
    requires few { length visits.now ≤ 2 ^ 32 }
    ensures { MatchOption result (NoneRefers starts.now visits.now (length visits.now) address)
        (λ reference. IsFirstReference starts.now visits.now reference address) }
{
    for number in 0..visits.len() {
        if let Some(place) = place_of(starts, visits[number].node, address) {
            return Some(Reference {
                visit: number as u32,
                place,
            });
        }
    }
    None
}

// Returns the first place of a node that refers to this address.
fn place_of(starts: &Starts, node: Node, address: u32) -> Option<u64>
    requires { IsNode starts.now node }
    ensures { MatchOption result ((i : ℕ) → RefersAt (graph_of starts.now) node i address → ⊥)
        (λ place. RefersAt (graph_of starts.now) node place address) }
{
    let words = words_of(starts, node);
    for i in 0..words.len() {
        if is_reference(words, i, address) {
            return Some(i as u64);
        }
    }
    None
}

// Returns whether word i refers to this address.
fn is_reference(words: &[u64], i: usize, address: u32) -> bool
    requires { i < length words.now }
    ensures { IsTrue result ↔ (slice_get (references words.now) i ≡ Some (Some address)) }
{
    let Some(found) = reference_at(words, i) else {
        return false;
    };
    found == address
}

/// Returns the path by which the walk would reach this reference. Allocates once.
pub(crate) fn path_back(
    alloc: Global,
    visits: &[Visit],
    reference: Reference,
) -> Result<Path, NoMemory>
    requires visits { (image : Image) × AreVisits image visits.now }
    requires within { reference.visit < length visits.now }
    ensures path { IfOk result (λ path. (image : Image) (address : ℕ) → AreVisits image visits.now
        → RefersAt (graph_of image) (visit_at visits.now reference.visit).node reference.place address
        → PathLeadsTo image path address × (length path.fields.items ≡ (visit_at visits.now reference.visit).depth)) }
{
    let mut fields = Vec::new(alloc);
    let mut place = reference.place;
    let mut at = reference.visit;
    while at != 0 {
        fields.push(place)?;
        let visit = visits[at as usize];
        place = visit.place;
        at = visit.from;
    }
    fields.as_mut_slice().reverse();
    Ok(Path { place, fields })
}
