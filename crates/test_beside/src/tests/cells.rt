//! Tables of gc_cells under a rule that says nothing: what each step finds and writes, and the memory of the words.
ghost use Rattle.std.specs.Prelude.{◌≡◌, ◌<◌, [], IfOk};

use atomic_table::{Join, Play, Split};
use gc_cells::{Seat, Shared, Table, TableRule};
use linked_list_allocator::LocalHeap;
use std::alloc::Global;
use std::test::Fail;
use std::thread::join;

/// A rule that holds of all words. A step tells only that a seat holds no more slots than before.
struct Anything;

impl TableRule<u8, (), ()> for Anything {
    ghost use Rattle.std.specs.Prelude.{⊤};

    ghost holds = { λ _ _. ⊤ };

    ghost first = { λ _ _. tt };
}

impl Play<u8, ()> for Anything {
    ghost use Rattle.std.specs.Prelude.{◌≡◌};

    ghost then = { λ _ before _ after. after.1 ≡ before.1 };
}

impl Split<()> for Anything {
    ghost left = { λ _. tt };

    ghost right = { λ _. tt };
}

impl Join<()> for Anything {
    ghost both = { λ _ _. tt };

    ghost spent = { tt };
}

/// A table in memory from `A`.
type Cells<A> = Table<u8, (), (), Anything, A>;

/// Words that threads share, and the right to step on them.
#[derive(Drop)]
struct End<'a> {
    words: &'a Shared<u8, (), (), Anything>,
    seat: Seat<u8, ()>,
    ghost fits: { seat.table_id ≡ words.now.table_id },
    ghost empty: { seat.me.1 ≡ [] },
    ghost long: { words.now.table_id.words ≡ 3 },
}

impl End<'_> {
    /// Returns one of the three words.
    fn load(&mut self, word: usize) -> u64
        requires { word < 3 }
        ensures { self.new.seat.table_id ≡ self.old.seat.table_id }
    {
        self.words.load::<Anything>(&mut self.seat, word)
    }

    /// Writes one of the three words.
    fn store(&mut self, word: usize, new: u64)
        requires { word < 3 }
        ensures { self.new.seat.table_id ≡ self.old.seat.table_id }
    {
        self.words.store::<Anything>(&mut self.seat, word, new);
    }

    /// Writes one of the three words if it is `old`, and returns it as it was.
    fn exchange(&mut self, word: usize, old: u64, new: u64) -> u64
        requires { word < 3 }
        ensures { self.new.seat.table_id ≡ self.old.seat.table_id }
    {
        self.words
            .compare_exchange::<Anything>(&mut self.seat, word, old, new)
    }

    /// Returns the seat.
    fn into_seat(self) -> Seat<u8, ()>
        ensures fits { result.table_id ≡ self.entry.seat.table_id }
        ensures empty { result.me.1 ≡ [] }
    {
        let End { words: _, seat } = self;
        seat
    }

    /// Counts up to 1,000 in a word that no other thread writes.
    fn count(mut self, word: usize)
        requires { word < 3 }
    {
        for n in 0..1001u64 {
            self.store(word, n);
        }
    }
}

/// Makes a table of the words 10, 20 and 30.
fn three(alloc: Global) -> Result<(Cells<Global>, Seat<u8, ()>), Fail>
    ensures { IfOk result (λ t. (t.0.shared.table_id.words ≡ 3) × (t.1.table_id ≡ t.0.shared.table_id) × (t.1.me.1 ≡ [])) }
{
    let made = Table::of_vec(alloc, vec![in alloc; 10, 20, 30]?, &());
    Ok(made.ok().ok_or("enough memory")?)
}

#[test]
fn a_table_gives_its_words_back(rt: HostRuntime) -> Result<(), Fail> {
    let (table, seat) = three(rt.alloc())?;
    let words = table.into_vec(seat);
    assert!(rt; words.as_slice() == [10, 20, 30].as_slice());
    Ok(())
}

#[test]
fn a_load_finds_what_was_stored(rt: HostRuntime) -> Result<(), Fail> {
    let (table, seat) = three(rt.alloc())?;
    let words = &table.shared;
    let mut end = End { words, seat };
    let before = end.load(1);
    end.store(1, u64::MAX);
    let after = end.load(1);
    let seat = end.into_seat();
    let words = table.into_vec(seat);
    assert!(rt; before == 20 && after == u64::MAX);
    assert!(rt; words.as_slice() == [10, u64::MAX, 30].as_slice());
    Ok(())
}

#[test]
fn an_exchange_needs_the_old_word(rt: HostRuntime) -> Result<(), Fail> {
    let (table, seat) = three(rt.alloc())?;
    let words = &table.shared;
    let mut end = End { words, seat };
    let refused = end.exchange(2, 20, 7);
    let stays = end.load(2);
    let done = end.exchange(2, 30, 8);
    let seat = end.into_seat();
    let words = table.into_vec(seat);
    assert!(rt; refused == 30 && stays == 30 && done == 30);
    assert!(rt; words.as_slice() == [10, 20, 8].as_slice());
    Ok(())
}

#[test]
fn two_seats_become_one(rt: HostRuntime) -> Result<(), Fail> {
    let (table, mut seat) = three(rt.alloc())?;
    let other = table.shared.split_seat::<Anything>(&mut seat);
    table.shared.join_seat::<Anything>(&mut seat, other);
    let words = table.into_vec(seat);
    assert!(rt; words.as_slice() == [10, 20, 30].as_slice());
    Ok(())
}

#[test]
fn two_seats_count_in_two_threads(rt: HostRuntime) -> Result<(), Fail> {
    let (table, mut seat) = three(rt.alloc())?;
    let words = &table.shared;
    let first = words.split_seat::<Anything>(&mut seat);
    let second = words.split_seat::<Anything>(&mut seat);
    let one = End { words, seat: first };
    let two = End {
        words,
        seat: second,
    };
    join(&rt, || one.count(0), || two.count(1));
    let words = table.into_vec(seat);
    assert!(rt; words.as_slice() == [1000, 1000, 30].as_slice());
    Ok(())
}

/// A table in memory of a heap that counts its bytes, and its seat.
type Counted<'a> = (Cells<&'a LocalHeap>, Seat<u8, ()>);

/// Makes a table of words, if there are any. Returns them if memory for it is refused.
fn table_of<'a>(
    heap: &'a LocalHeap,
    words: Vec<u64, &'a LocalHeap>,
) -> Result<Counted<'a>, Vec<u64, &'a LocalHeap>>
    ensures { IfOk result (λ t. t.1.table_id ≡ t.0.shared.table_id) }
{
    if words.is_empty() {
        return Err(words);
    }
    Table::of_vec(heap, words, &())
}

#[test]
fn a_table_frees_its_memory(rt: HostRuntime) -> Result<(), Fail> {
    let heap = LocalHeap::new(rt.alloc(), 4096)?;
    let words = Vec::from_elem(&heap, 7u64, 4)?;
    let of_words = heap.used();
    let (table, seat) = table_of(&heap, words).ok().ok_or("enough memory")?;
    let words = table.into_vec(seat);
    assert!(rt; of_words >= 32 && heap.used() == of_words);
    let (table, _seat) = table_of(&heap, words).ok().ok_or("enough memory")?;
    drop(table);
    assert!(rt; heap.used() == 0);
    Ok(())
}

#[test]
fn a_refused_table_returns_its_words(rt: HostRuntime) -> Result<(), Fail> {
    let heap = LocalHeap::new(rt.alloc(), 64)?;
    let words = Vec::from_elem(&heap, 7u64, 8)?;
    assert!(rt; heap.free() == 0);
    let words = table_of(&heap, words).err().ok_or("no memory is left")?;
    assert!(rt; words.as_slice() == [7; 8].as_slice());
    Ok(())
}
