//! A space under construction in plain memory. The collector places replicas there and writes their fields, until a flip makes cells of its words.
ghost use Rattle.std.specs.Prelude.{◌≡◌, ◌/◌, ◌<◌, ◌≤◌, [], ◌↔◌, length, Some, IfErr, IfOk, IfSome, IsSome, IsTrue};
ghost use Rattle.std.specs.Arc.{arc_value};
ghost use Rattle.gc_words.specs.Image.{Block, block_at, field_at, fresh_block, header_at, is_start};
ghost use Rattle.gc_words.specs.Spelling.{link_at};
ghost use Rattle.gc_words.specs.Closed.{IsClosed, IsFieldWord};
ghost use Rattle.gc_words.specs.Space.{IsSpace, HasRoomFor, empty_space, end_of, with_field_at, with_link, with_object};
ghost use Rattle.gc_heap.specs.Heap.{IsHeap};
ghost use Rattle.gc_concurrent.specs.Ends.{one_heap, opening_view};
ghost use Rattle.gc_concurrent.specs.Internal.Rule.{Loose};
ghost use Rattle.gc_concurrent.specs.Internal.Starts.{TellsStarts};

use crate::cells::{Cells, CellsEnd, CellsKey};
use gc_graph::{NoMemory, object_words};
use gc_words::{Addr, Header, field_index, mark};
use std::alloc::{AllocFailed, Global};
use std::marker::Model;
use std::sync::Arc;

/// A space under construction, in plain memory. It is at each moment a closed space.
#[derive(Drop)]
pub(crate) struct NextSpace {
    // All words of the space. Those from the end on are 0.
    words: Vec<u64>,
    end: u32,
    // A bit for each word of the space: whether an object starts there.
    starts: Vec<u64>,
}

impl Model for NextSpace {
    ghost use Rattle.gc_words.specs.Space.{SpaceWords};
    ghost use Rattle.gc_concurrent.specs.Internal.Plain.{IsRowOfSpace, space_in};

    ghost Value = { SpaceWords };

    ghost view = { λ s. space_in s.words.items s.end };

    ghost invariant = { λ s. IsRowOfSpace s.words.items s.end s.starts.items };
}

/// The cells of a heap whose collection begins. One seat is both ends.
#[derive(Drop)]
pub(crate) struct Opened {
    pub(crate) one: Arc<Cells, Global>,
    pub(crate) two: Arc<Cells, Global>,
    pub(crate) seat: CellsEnd,
    pub(crate) size: u32,
    pub(crate) end: u32,
    pub(crate) starts: Vec<u64>,
    pub(crate) roots: Vec<u64>,
    ghost row: { ((arc_value one).shared.table_id ≡ seat.table_id) × ((arc_value two).shared.table_id ≡ seat.table_id) × (seat.table_id.words ≡ size) },
    ghost keys: { ((arc_value one).shared.key.size ≡ size) × ((arc_value two).shared.key.size ≡ size) },
    ghost began: { seat.me ≡ (opening_view (one_heap seat.me.0.mine.space roots.items) 1, []) },
    ghost loose: { ∥ Loose seat.me.0.theirs ∥₁ },
    ghost sized: { (size ≡ seat.me.0.mine.space.size) × (end ≡ end_of seat.me.0.mine.space) },
    ghost wide: { size / 64 < length starts.items },
    ghost marked: { TellsStarts starts.items seat.me.0.mine.space.words },
}

impl NextSpace {
    ghost use Rattle.gc_concurrent.specs.Internal.Openings.{heap_opened};

    /// Returns an empty space of `size` words, at least 1. Writes to all of its memory.
    pub(crate) fn new(alloc: Global, size: u32) -> Result<NextSpace, NoMemory>
        requires low { 1 ≤ size }
        ensures empty { IfOk result (λ space. space ≡ empty_space size) }
        ensures shaped { IfOk result IsSpace }
    {
        let words = Vec::from_elem(alloc, 0u64, size as usize)?;
        let starts = Vec::from_elem(alloc, 0u64, size as usize / 64 + 1)?;
        Ok(NextSpace {
            words,
            end: 1,
            starts,
        })
    }

    /// Returns the size in words.
    #[inline(always)]
    pub(crate) fn size(&self) -> u32
        ensures value { result ≡ self.now.size }
        ensures shaped { IsSpace self.now }
    {
        self.words.len() as u32
    }

    /// Returns the address of the first free word.
    #[inline(always)]
    pub(crate) fn end(&self) -> u32
        ensures value { result ≡ end_of self.now }
        ensures shaped { IsSpace self.now }
    {
        self.end
    }

    /// Returns whether there is room for an object with `len` fields.
    #[inline(always)]
    pub(crate) fn has_room(&self, len: u16) -> bool
        ensures { IsTrue result ↔ HasRoomFor self.now len }
    {
        object_words(len) <= self.size() - self.end()
    }

    /// Returns the header of the object that starts here.
    #[inline(always)]
    pub(crate) fn header(&self, at: Addr) -> Header
        requires { IsTrue (is_start self.now.words at.0) }
        ensures { header_at self.now.words at.0 ≡ Some result }
    {
        Header::of_word(self.words[at.0 as usize])
    }

    /// Returns the link word of the object that starts here.
    #[inline(always)]
    pub(crate) fn link(&self, at: Addr) -> u64
        requires { IsTrue (is_start self.now.words at.0) }
        ensures { result ≡ link_at self.now.words at.0 }
    {
        self.words[at.0 as usize + 1]
    }

    /// Returns field word `i` of the object that starts here.
    #[inline(always)]
    pub(crate) fn field(&self, at: Addr, i: u16) -> u64
        requires { IsSome (field_at self.now.words at.0 i) }
        ensures { field_at self.now.words at.0 i ≡ Some result }
    {
        self.words[field_index(at, i)]
    }

    /// Places an object at the end, with link 0 and all field words 0, and returns its address. Writes one word, as the free words are 0.
    #[inline(always)]
    pub(crate) fn place(&mut self, header: Header) -> Addr
        requires { HasRoomFor self.old header.len }
        ensures closed { IsClosed self.old.words [] }
        ensures at { result.0 ≡ end_of self.old }
        ensures words { self.new ≡ with_object self.old header }
        ensures object { block_at self.new.words (end_of self.old) ≡ Some (fresh_block header) }
        ensures shaped { IsSpace self.new }
    {
        let at = self.end;
        self.words[at as usize] = header.word();
        mark(self.starts.as_mut_slice(), at as usize);
        self.end = at + object_words(header.len());
        Addr(at)
    }

    /// Writes the link word of the object that starts here.
    #[inline(always)]
    pub(crate) fn set_link(&mut self, at: Addr, word: u64)
        requires { IsTrue (is_start self.old.words at.0) }
        ensures words { self.new ≡ with_link self.old at.0 word }
        ensures shaped { IsSpace self.new }
    {
        self.words[at.0 as usize + 1] = word;
    }

    /// Writes field word `i` of the object that starts here. A reference has to lead to an object of this space.
    #[inline(always)]
    pub(crate) fn set_field(&mut self, at: Addr, i: u16, word: u64)
        requires there { IsSome (field_at self.old.words at.0 i) }
        requires fits { (b : Block) → block_at self.old.words at.0 ≡ Some b → IsFieldWord self.old.words b.header word }
        ensures words { self.new ≡ with_field_at self.old at.0 i word }
        ensures shaped { IsSpace self.new }
    {
        self.words[field_index(at, i)] = word;
    }

    /// Returns the words up to the end, without a copy.
    #[inline(always)]
    pub(crate) fn words(&self) -> &[u64]
        ensures { result.now ≡ self.now.words }
    {
        &self.words[..self.end as usize]
    }

    /// Makes cells of the words, as a mutator's heap with these roots of which a collection begins in a new space of one word. Copies nothing. If an
    /// allocation fails, the space comes back. If the cells get no second owner, the words are lost: they may have 2^63 owners, so this does not occur, but
    /// no contract says so.
    pub(crate) fn begin(self, alloc: Global, roots: Vec<u64>) -> Result<Opened, Option<NextSpace>>
        requires sound { IsHeap (one_heap self roots.items) }
        ensures heap { IfOk result (λ o. heap_opened o ≡ one_heap self roots.items) }
        ensures refused { IfErr result (λ back. IfSome back (λ space. space ≡ self)) }
    {
        let NextSpace { words, end, starts } = self;
        let size = words.len() as u32;
        let key = CellsKey { size, end, roots };
        let (table, seat) = match Cells::of_vec(alloc, words, &key) {
            Ok(made) => made,
            Err(words) => return Err(Some(NextSpace { words, end, starts })),
        };
        let one = match Arc::new(alloc, table) {
            Ok(one) => one,
            Err(AllocFailed { value }) => {
                let words = value.into_vec(seat);
                return Err(Some(NextSpace { words, end, starts }));
            }
        };
        let Ok(two) = Arc::try_clone(&one) else {
            return Err(None);
        };
        let CellsKey { size, end, roots } = key;
        Ok(Opened {
            one,
            two,
            seat,
            size,
            end,
            starts,
            roots,
        })
    }
}
