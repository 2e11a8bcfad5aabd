use crate::header::Header;
use crate::image::ImageRef;
use crate::layout::{clear_links, field_index, has_start, link_index};
use crate::shape::next_start;
use crate::value::Addr;
use crate::zeros::add_zeros;
use gc_graph::{NoMemory, object_words};
use std::alloc::Global;
use std::marker::Model;

/// A space of up to `size` words, with objects back to back from word 1. `new` allocates all of its memory, so placing an object
/// cannot fail.
#[derive(Debug, Drop)]
pub struct Space {
    size: u32,
    // The words up to the end, including links.
    words: Vec<u64>,
}

impl Model for Space {
    ghost use Rattle.std.specs.Prelude.{◌≤◌, vec_capacity};
    ghost use Rattle.gc_words.specs.Space.{SpaceWords, IsSpace};

    ghost Value = { SpaceWords };

    ghost view = { λ s. record { size = s.size; words = s.words.items } };

    ghost invariant = { λ s. IsSpace (record { size = s.size; words = s.words.items })
        × (s.size ≤ vec_capacity s.words) };
}

impl Space {
    ghost use Rattle.std.specs.Prelude.{◌≡◌, ◌<◌, ◌≤◌, ◌+◌, ◌∷◌, ◌++◌, [], ◌↔◌, length, Some, IsTrue, IsSome, IfOk};
    ghost use Rattle.gc_words.specs.Image.{Block, blocks, block_at, is_start, header_at, field_at, set_block, fresh_block};
    ghost use Rattle.gc_words.specs.Spelling.{link_at};
    ghost use Rattle.gc_words.specs.Layout.{next_place};
    ghost use Rattle.gc_words.specs.Walking.{next_of};
    ghost use Rattle.gc_words.specs.declared.header.Header.{Header};
    ghost use Rattle.gc_words.specs.Space.{IsSpace, empty_space, end_of, free_in, HasRoomFor, HasFields, with_block, with_object, with_field_at, with_fields, with_link, without_links, image_with};
    ghost use Rattle.gc_words.specs.Views.{image_of};

    /// Returns an empty space of `size` words, at least 1.
    pub fn new(alloc: Global, size: u32) -> Result<Space, NoMemory>
        requires low { 1 ≤ size }
        ensures empty { IfOk result (λ space. space ≡ empty_space size) }
        ensures shaped { IfOk result IsSpace }
    {
        let mut words = Vec::with_capacity(alloc, size as usize)?;
        words.push_reserved(0);
        Ok(Space { size, words })
    }

    /// Returns the space without its objects. Allocates nothing, and frees nothing.
    pub fn emptied(self) -> Space
        ensures empty { result ≡ empty_space self.size }
        ensures shaped { IsSpace result }
    {
        let Space { size, mut words } = self;
        words.clear();
        words.push_reserved(0);
        Space { size, words }
    }

    /// Writes to all of the space's memory once, so that no later write meets a page for the first time. The space stays as it is.
    pub fn touch(&mut self)
        ensures { self.new ≡ self.old }
    {
        let end = self.words.len();
        // There is room, so this cannot fail.
        self.words.resize(self.size as usize, 0).unwrap();
        self.words.truncate(end);
    }

    /// Tells the allocator how many of the space's words are in use, so that it can give the pages behind them back to the system. It hears of that where the
    /// block grows by a word and becomes smaller again; if it refuses the word, it hears of nothing. The space stays as it is.
    pub fn release(&mut self)
        ensures { self.new ≡ self.old }
    {
        let free = self.size as usize - self.words.len();
        if self.words.reserve_exact(free + 1).is_ok() {
            self.words.shrink_to(self.size as usize);
        }
    }

    /// Makes the space smaller, and frees the memory of the words that it loses, of which no object may take one. Allocates nothing.
    pub fn shrink(&mut self, size: u32)
        requires room { end_of self.old ≤ size }
        requires less { size ≤ self.old.size }
        ensures { self.new ≡ record self.old { size = size } }
    {
        self.words.shrink_to(size as usize);
        self.size = size;
    }

    /// Returns the size in words.
    pub fn size(&self) -> u32
        ensures value { result ≡ self.now.size }
        ensures shaped { IsSpace self.now }
    {
        self.size
    }

    /// Returns the address of the first free word, which is the end of the last object.
    pub fn end(&self) -> u32
        ensures value { result ≡ end_of self.now }
        ensures shaped { IsSpace self.now }
    {
        self.words.len() as u32
    }

    /// Returns the number of free words.
    pub fn free(&self) -> u32
        ensures value { result ≡ free_in self.now }
        ensures shaped { IsSpace self.now }
    {
        self.size - self.end()
    }

    /// Returns the words up to the end, including links.
    pub fn words(&self) -> &[u64]
        ensures value { result.now ≡ self.now.words }
        ensures shaped { IsSpace self.now }
    {
        self.words.as_slice()
    }

    /// Returns whether an object starts here. Walks over all objects before it, so no event uses it: it is for clients that
    /// hold an address of unknown origin, and for tests.
    pub fn is_start(&self, at: Addr) -> bool
        ensures { result ≡ is_start self.now.words at.0 }
    {
        has_start(&self.words, at.0 as usize)
    }

    /// Returns whether there is room for an object with `len` fields.
    pub fn has_room(&self, len: u16) -> bool
        ensures { IsTrue result ↔ HasRoomFor self.now len }
    {
        object_words(len) <= self.free()
    }

    /// Places an object at the end, with link 0 and all field words 0, and returns its address.
    #[inline(always)]
    #[tactic(auto, using(crate::proofs::Walks::written_back, crate::proofs::Bodies::object_placed))]
    pub fn place(&mut self, header: Header) -> Addr
        requires { HasRoomFor self.old header.len }
        ensures at { result.0 ≡ end_of self.old }
        ensures words { self.new ≡ with_object self.old header }
        ensures objects { blocks self.new.words
            ≡ blocks self.old.words ++ (end_of self.old, fresh_block header) ∷ [] }
        ensures object { block_at self.new.words (end_of self.old) ≡ Some (fresh_block header) }
        ensures shaped { IsSpace self.new }
    {
        let start = self.words.len();
        self.words.push_reserved(header.word());
        add_zeros(&mut self.words, usize::from(header.len()) + 1);
        Addr(start as u32)
    }

    /// Places a copy of another space's object at the end, with its field words and link 0, and returns its address.
    pub fn place_copy(&mut self, from: &Space, at: Addr) -> Addr
        requires start { IsTrue (is_start from.now.words at.0) }
        requires room { (h : Header) → header_at from.now.words at.0 ≡ Some h → HasRoomFor self.old h.len }
        ensures at { result.0 ≡ end_of self.old }
        ensures words { (b : Block) → block_at from.now.words at.0 ≡ Some b → self.new ≡ with_block self.old b }
        ensures shaped { IsSpace self.new }
    {
        let start = self.words.len();
        self.words.push_reserved(from.header(at).word());
        self.words.push_reserved(0);
        // `new` has made the room, so this cannot fail.
        self.words.extend_from_slice(from.fields(at)).unwrap();
        Addr(start as u32)
    }

    /// Returns the header of the object that starts here.
    pub fn header(&self, at: Addr) -> Header
        requires { IsTrue (is_start self.now.words at.0) }
        ensures { header_at self.now.words at.0 ≡ Some result }
    {
        Header::of_word(self.words[at.0 as usize])
    }

    /// Returns the address after the object that starts here: the next object's, or the end.
    #[tactic(auto, using(crate::proofs::Bodies::next_seen))]
    pub fn next_start(&self, at: Addr) -> Addr
        requires { IsTrue (is_start self.now.words at.0) }
        ensures next { next_of self.now.words at.0 ≡ Some result.0 }
        ensures place { (h : Header) → header_at self.now.words at.0 ≡ Some h → result.0 ≡ next_place at.0 h.len }
        ensures shaped { IsSpace self.now }
    {
        Addr(next_start(&self.words, at.0 as usize).unwrap() as u32)
    }

    /// Returns the field words of the object that starts here.
    pub fn fields(&self, at: Addr) -> &[u64]
        requires { IsTrue (is_start self.now.words at.0) }
        ensures value { (b : Block) → block_at self.now.words at.0 ≡ Some b → result.now ≡ b.fields }
        ensures shaped { IsSpace self.now }
    {
        let start = field_index(at, 0);
        let end = start + usize::from(self.header(at).len());
        &self.words[start..end]
    }

    /// Returns field word `i` of the object that starts here.
    pub fn field(&self, at: Addr, i: u16) -> u64
        requires { IsSome (field_at self.now.words at.0 i) }
        ensures { field_at self.now.words at.0 i ≡ Some result }
    {
        self.words[field_index(at, i)]
    }

    /// Writes field word `i` of the object that starts here.
    #[tactic(auto, using(crate::proofs::Bodies::field_at_place))]
    pub fn set_field(&mut self, at: Addr, i: u16, word: u64)
        requires { IsSome (field_at self.old.words at.0 i) }
        ensures words { self.new ≡ with_field_at self.old at.0 i word }
        ensures objects { blocks self.new.words ≡ set_block (blocks self.old.words) at.0 i word }
        ensures field { field_at self.new.words at.0 i ≡ Some word }
        ensures shaped { IsSpace self.new }
    {
        self.words[field_index(at, i)] = word;
    }

    /// Writes these words to the fields of the object that starts here, from field `first` on.
    #[tactic(auto, using(crate::proofs::Spliced::written_at_once))]
    pub fn set_fields(&mut self, at: Addr, first: u16, words: &[u64])
        requires { HasFields self.old at.0 first (length words.now) }
        ensures words { self.new ≡ with_fields self.old at.0 first words.now }
        ensures shaped { IsSpace self.new }
    {
        overwrite(&mut self.words, field_index(at, first), words);
    }

    /// Returns the link word of the object that starts here. The collector uses it to find an object's replica or original;
    /// no command reads it.
    pub fn link(&self, at: Addr) -> u64
        requires { IsTrue (is_start self.now.words at.0) }
        ensures { result ≡ link_at self.now.words at.0 }
    {
        self.words[link_index(at.0 as usize)]
    }

    /// Writes the link word of the object that starts here.
    pub fn set_link(&mut self, at: Addr, word: u64)
        requires { IsTrue (is_start self.old.words at.0) }
        ensures words { self.new ≡ with_link self.old at.0 word }
        ensures objects { blocks self.new.words ≡ blocks self.old.words }
        ensures shaped { IsSpace self.new }
    {
        self.words[link_index(at.0 as usize)] = word;
    }

    /// Sets all links to 0.
    pub fn clear_links(&mut self)
        ensures words { self.new ≡ without_links self.old }
        ensures objects { blocks self.new.words ≡ blocks self.old.words }
        ensures shaped { IsSpace self.new }
    {
        clear_links(&mut self.words);
    }

    /// Returns the image of the space with these roots, links included.
    pub fn image<'a>(&'a self, roots: &'a [u64]) -> ImageRef<'a>
        ensures value { image_of result ≡ image_with self.now roots.now }
        ensures shaped { IsSpace self.now }
    {
        ImageRef {
            size: self.size,
            end: self.end(),
            words: self.words(),
            roots,
            raws: true,
        }
    }

    /// Returns the words up to the end, including links, without a copy.
    pub fn into_words(self) -> Vec<u64>
        ensures value { result.items ≡ self.words }
        ensures shaped { IsSpace self }
    {
        let Space { size: _, words } = self;
        words
    }
}

ghost use Rattle.std.specs.Prelude.{◌≡◌, ◌≤◌, ◌+◌, ◌++◌, take, drop, length, vec_capacity};

// Writes these words over the words of a row from `from` on.
fn overwrite(row: &mut Vec<u64>, from: usize, words: &[u64])
    requires { from + length words.now ≤ length row.old.items }
    ensures items { row.new.items ≡ take from row.old.items ++ words.now ++ drop (from + length words.now) row.old.items }
    ensures capacity { vec_capacity row.new ≡ vec_capacity row.old }
{
    let to = from + words.len();
    row[from..to].copy_from_slice(words);
}
