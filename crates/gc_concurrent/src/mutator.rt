//! The mutator's thread: what gc_words' `Space` offers, over the words of the table.
ghost use Rattle.std.specs.Prelude.{◌≡◌, ◌+◌, ◌-◌, ◌*◌, ◌^◌, ◌/◌, ◌<◌, ◌≤◌, true, false, [], ◌∷◌, length};
ghost use Rattle.gc_concurrent.specs.Internal.Starts.{TellsStarts};
ghost use Rattle.std.specs.Arc.{arc_value};

use crate::cells::{Cells, CellsEnd};
use crate::plays::{Got, Made, Put, Referred};
use gc_graph::NoMemory;
use gc_words::{Addr, Header, field_index, is_marked, mark};
use std::alloc::Global;
use std::sync::Arc;

/// A mutator. Its log lies here.
#[derive(Drop)]
pub struct Mutator {
    pub(crate) cells: Arc<Cells, Global>,
    pub seat: CellsEnd,
    /// Whether writes are logged. They are once the collector has begun to copy.
    pub(crate) logs: bool,
    pub(crate) log: Vec<(u32, u16)>,
    pub size: u32,
    // A bit for each word of the space: whether an object starts there.
    pub(crate) starts: Vec<u64>,
    ghost row: { ((arc_value cells).shared.table_id ≡ seat.table_id) × (seat.table_id.words ≡ size) × ((arc_value cells).shared.key.size ≡ size) },
    ghost writes: { seat.me.0.writes ≡ true },
    ghost hands: { seat.me.1 ≡ [] },
    ghost logging: { seat.me.0.mine.logs ≡ logs },
    ghost logged: { seat.me.0.mine.log ≡ log.items },
    ghost sized: { seat.me.0.mine.space.size ≡ size },
    ghost wide: { size / 64 < length starts.items },
    ghost marked: { TellsStarts starts.items seat.me.0.mine.space.words },
}

impl Mutator {
    ghost use Rattle.std.specs.Prelude.{Some, IsSome, IsTrue, OnOk, OnErr};
    ghost use Rattle.gc_words.specs.Image.{Block, block_at, field_at, fresh_block, header_at, is_start};
    ghost use Rattle.gc_words.specs.Space.{IsSpace, CanPlace, end_of, with_object, with_field_at};
    ghost use Rattle.std.specs.Vec.{vec_len, vec_capacity};
    ghost use Rattle.gc_graph.specs.Machine.{object_words};
    ghost use Rattle.gc_words.specs.Word.{field_value};
    ghost use Rattle.gc_words.specs.Closed.{IsClosed, IsFieldWord};
    ghost use Rattle.gc_model.specs.Belonging.{RefersTo};
    ghost use Rattle.gc_concurrent.specs.Ends.{Mine};
    ghost use Rattle.gc_concurrent.specs.Unreachable.{MayBeCopied};

    /// Reads the header of the object that starts here.
    pub(crate) fn header(&mut self, at: Addr) -> Header
        requires shaped { IsSpace self.old.seat.me.0.mine.space }
        requires start { IsTrue (is_start self.old.seat.me.0.mine.space.words at.0) }
        ensures value { header_at self.old.seat.me.0.mine.space.words at.0 ≡ Some result }
        ensures same { self.new.seat.me ≡ self.old.seat.me }
        ensures row { self.new.seat.table_id ≡ self.old.seat.table_id }
        ensures size { self.new.size ≡ self.old.size }
        ensures logging { self.new.logs ≡ self.old.logs }
        ensures log { self.new.log ≡ self.old.log }
    {
        let cells = &*self.cells;
        let word = cells.shared.load::<Got>(&mut self.seat, at.0 as usize);
        Header::of_word(word)
    }

    /// Reads field `i` of the object that starts here.
    pub(crate) fn field(&mut self, at: Addr, i: u16) -> u64
        requires shaped { IsSpace self.old.seat.me.0.mine.space }
        requires there { IsSome (field_at self.old.seat.me.0.mine.space.words at.0 i) }
        ensures value { field_at self.old.seat.me.0.mine.space.words at.0 i ≡ Some result }
        ensures same { self.new.seat.me ≡ self.old.seat.me }
        ensures row { self.new.seat.table_id ≡ self.old.seat.table_id }
        ensures size { self.new.size ≡ self.old.size }
        ensures logging { self.new.logs ≡ self.old.logs }
        ensures log { self.new.log ≡ self.old.log }
    {
        let cells = &*self.cells;
        cells.shared.load::<Got>(&mut self.seat, field_index(at, i))
    }

    /// Makes room in the log for `more` entries, once the collector has begun to copy.
    pub(crate) fn reserve(&mut self, more: usize) -> Result<(), NoMemory>
        ensures room { OnOk result (self.new.logs ≡ true → vec_len self.new.log + more ≤ vec_capacity self.new.log) }
        ensures logs { OnErr result (self.old.seat.me.0.mine.logs ≡ true) }
        ensures same { self.new.seat.me ≡ self.old.seat.me }
        ensures logging { self.new.logs ≡ self.old.logs }
        ensures row { self.new.seat.table_id ≡ self.old.seat.table_id }
        ensures size { self.new.size ≡ self.old.size }
    {
        if self.logs {
            self.log.reserve(more)?;
        }
        Ok(())
    }

    /// Writes field `i` of the object that starts here, and logs it, once the collector has begun to copy. `reserve` has made room for the entry.
    pub(crate) fn set_field(&mut self, at: Addr, i: u16, word: u64)
        requires room { self.old.logs ≡ true → vec_len self.old.log < vec_capacity self.old.log }
        requires shaped { IsSpace self.old.seat.me.0.mine.space }
        requires there { IsSome (field_at self.old.seat.me.0.mine.space.words at.0 i) }
        requires fits { (b : Block) → block_at self.old.seat.me.0.mine.space.words at.0 ≡ Some b → IsFieldWord self.old.seat.me.0.mine.space.words b.header word }
        requires allowed { (b : Block) → block_at self.old.seat.me.0.mine.space.words at.0 ≡ Some b → RefersTo (MayBeCopied self.old.seat.me.0.mine.base) (field_value b.header word) }
        ensures words { self.new.seat.me.0.mine.space ≡ with_field_at self.old.seat.me.0.mine.space at.0 i word }
        ensures shaped { IsSpace self.new.seat.me.0.mine.space }
        ensures end { end_of self.new.seat.me.0.mine.space ≡ end_of self.old.seat.me.0.mine.space }
        ensures base { self.new.seat.me.0.mine.base ≡ self.old.seat.me.0.mine.base }
        ensures copies { self.new.seat.me.0.copies ≡ self.old.seat.me.0.copies }
        ensures logging { self.new.logs ≡ self.old.logs }
        ensures room { vec_capacity self.new.log ≡ vec_capacity self.old.log }
        ensures entries { vec_len self.new.log ≤ vec_len self.old.log + 1 }
        ensures grows { length self.new.seat.me.0.mine.log ≤ length self.old.seat.me.0.mine.log + 1 }
        ensures row { self.new.seat.table_id ≡ self.old.seat.table_id }
        ensures size { self.new.size ≡ self.old.size }
    {
        let cells = &*self.cells;
        cells
            .shared
            .store::<Put>(&mut self.seat, field_index(at, i), word);
        if self.logs {
            self.log.push_reserved((at.0, i));
        }
    }

    /// Places an object at the end: its header is all that is written, as the free words are 0. `end` is the end.
    pub(crate) fn place(&mut self, end: u32, header: Header) -> Addr
        requires end { end_of self.old.seat.me.0.mine.space ≡ end }
        requires room { CanPlace self.old.seat.me.0.mine.space header }
        ensures closed { IsClosed self.old.seat.me.0.mine.space.words [] }
        ensures at { result.0 ≡ end_of self.old.seat.me.0.mine.space }
        ensures words { self.new.seat.me.0.mine.space ≡ with_object self.old.seat.me.0.mine.space header }
        ensures object { block_at self.new.seat.me.0.mine.space.words end ≡ Some (fresh_block header) }
        ensures shaped { IsSpace self.new.seat.me.0.mine.space }
        ensures longer { end_of self.new.seat.me.0.mine.space ≡ end + object_words header.len }
        ensures base { self.new.seat.me.0.mine.base ≡ self.old.seat.me.0.mine.base }
        ensures copies { self.new.seat.me.0.copies ≡ self.old.seat.me.0.copies }
        ensures logging { self.new.logs ≡ self.old.logs }
        ensures log { self.new.log ≡ self.old.log }
        ensures row { self.new.seat.table_id ≡ self.old.seat.table_id }
        ensures size { self.new.size ≡ self.old.size }
    {
        let cells = &*self.cells;
        cells
            .shared
            .store::<Made>(&mut self.seat, end as usize, header.word());
        mark(self.starts.as_mut_slice(), end as usize);
        Addr(end)
    }

    /// Returns whether an object starts here. Reads one word of the row of starts.
    pub(crate) fn starts_at(&self, at: u32) -> bool
        requires { at < self.now.size }
        ensures { result ≡ is_start self.now.seat.me.0.mine.space.words at }
    {
        is_marked(self.starts.as_slice(), at as usize)
    }

    /// Takes note that a reference is made to the object that starts here, from its address alone.
    pub(crate) fn refer(&mut self, at: Addr)
        requires shaped { IsSpace self.old.seat.me.0.mine.space }
        requires start { IsTrue (is_start self.old.seat.me.0.mine.space.words at.0) }
        ensures base { self.new.seat.me.0.mine.base ≡ record self.old.seat.me.0.mine.base { referred = true } }
        ensures space { self.new.seat.me.0.mine.space ≡ self.old.seat.me.0.mine.space }
        ensures copies { self.new.seat.me.0.copies ≡ self.old.seat.me.0.copies }
        ensures row { self.new.seat.table_id ≡ self.old.seat.table_id }
        ensures size { self.new.size ≡ self.old.size }
        ensures logging { self.new.logs ≡ self.old.logs }
        ensures log { self.new.log ≡ self.old.log }
    {
        let cells = &*self.cells;
        cells.shared.load::<Referred>(&mut self.seat, at.0 as usize);
    }
}
