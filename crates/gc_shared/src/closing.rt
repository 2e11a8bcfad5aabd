ghost use Rattle.std.specs.Prelude.{◌≡◌, ◌↔◌, ◌<◌, ◌≤◌, ◌+◌, ◌==◌, suc, length, IfOk, IfErr, IsTrue, MatchOption, MatchResult, count_by, []};
ghost use Rattle.std.specs.List.{find};
ghost use Rattle.std.specs.Option.{option_copied};
ghost use Rattle.gc_shared.specs.Seats.{opened_with};
ghost use Rattle.gc_shared.specs.Receipts.{IsRecorded};
ghost use Rattle.gc_shared.specs.Closing.{IsSeated, IsWhole, IsFirstCloseFault, IsFirstTorn, AllStand, receipts_of, receipts_below};
ghost use Rattle.gc_shared.specs.Internal.Marks.{HasEachOnce, IsMarked, IsFree, IsFault, AgreeByNumber};

use crate::fault::{CloseFault, CloseKind};
use crate::seat::{Receipt, Seat};
use gc_world::{Entry, World};
use std::alloc::{AllocError, Global};

/// Compares the world with the seats. Returns this world if they agree, otherwise the first fault together with this world.
pub(crate) fn compare(
    alloc: Global,
    size: u32,
    mutators: u8,
    collectors: u8,
    world: World,
    seats: &[Seat],
) -> Result<World, CloseFault>
    requires { mutators + collectors ≤ 32 }
    // The world that comes back is the one that was given.
    ensures same { MatchResult result (λ given. given ≡ world) (λ fault. fault.world ≡ world) }
    ensures ok { IfOk result (λ given. IsWhole (opened_with size mutators collectors) given seats.now) }
    ensures err { IfErr result (λ fault.
        IsFirstCloseFault (opened_with size mutators collectors) fault.world seats.now fault.kind) }
{
    match fault(alloc, size, mutators, collectors, &world, seats) {
        None => Ok(world),
        Some(kind) => Err(CloseFault { world, kind }),
    }
}

/// Returns the first fault that comparing the seats with the world finds. There is a mark for each place of the
/// history; the marks are allocated before any receipt is read.
fn fault(
    alloc: Global,
    size: u32,
    mutators: u8,
    collectors: u8,
    world: &World,
    seats: &[Seat],
) -> Option<CloseKind>
    requires { mutators + collectors ≤ 32 }
    ensures { MatchOption result
        (IsWhole (opened_with size mutators collectors) world.now seats.now)
        (IsFirstCloseFault (opened_with size mutators collectors) world.now seats.now) }
{
    if !is_seated(size, mutators, collectors, world, seats) {
        return Some(CloseKind::Seats);
    }
    let history = world.history();
    match vec![in alloc; false; history.len()] {
        Ok(mut marks) => {
            first_fault(history, seats, mutators + collectors, marks.as_mut_slice())
        }
        Err(AllocError) => Some(CloseKind::NoMemory),
    }
}

// Returns whether each seat number of the opening occurs once, and the world has the opening's size and mutators.
fn is_seated(size: u32, mutators: u8, collectors: u8, world: &World, seats: &[Seat]) -> bool
    requires { mutators + collectors ≤ 32 }
    ensures { IsTrue result ↔ IsSeated (opened_with size mutators collectors) world.now seats.now }
{
    if world.size() != size {
        return false;
    }
    if world.mutators() != mutators {
        return false;
    }
    has_each_once(seats, mutators + collectors)
}

// Returns `Torn` with the first receipt that does not stand, going through the seats by number and their receipts in
// order. If all stand, returns `Extra` if an event has no receipt.
fn first_fault(
    history: &[Entry],
    seats: &[Seat],
    count: u8,
    marks: &mut [bool],
) -> Option<CloseKind>
    requires len { length marks.old ≡ length history.now }
    requires marked { IsMarked marks.old [] }
    ensures { MatchOption result
        (AgreeByNumber history.now seats.now count)
        (IsFault history.now seats.now count) }
{
    for seat in 0..count {
        if let Some(n) = first_torn(history, seats, seat, marks) {
            return Some(CloseKind::Torn { seat, n });
        }
    }
    if count_marked(marks) < history.len() {
        return Some(CloseKind::Extra);
    }
    None
}

// Returns whether the seats have each number below `count` once, and no other.
fn has_each_once(seats: &[Seat], count: u8) -> bool
    ensures { IsTrue result ↔ ((length seats.now ≡ count) × HasEachOnce seats.now count) }
{
    if seats.len() != usize::from(count) {
        return false;
    }
    for number in 0..count {
        if count_with(seats, number) != 1 {
            return false;
        }
    }
    true
}

fn count_with(seats: &[Seat], number: u8) -> usize
    ensures { result ≡ count_by (λ seat. seat.number == number) seats.now }
{
    seats.iter().filter(|seat| seat.number() == number).count()
}

fn seat_with(seats: &[Seat], number: u8) -> Option<&Seat>
    ensures { option_copied result ≡ find (λ seat. seat.number == number) seats.now }
{
    seats.iter().find(|seat| seat.number() == number)
}

// Returns the receipts of the first seat with this number.
fn receipts_with(seats: &[Seat], number: u8) -> &[Receipt]
    ensures { result.now ≡ receipts_of seats.now number }
{
    match seat_with(seats, number) {
        Some(seat) => seat.receipts(),
        None => &[],
    }
}

// Marks the places of a seat's receipts up to the first that does not stand, and returns that receipt's number.
fn first_torn(history: &[Entry], seats: &[Seat], seat: u8, marks: &mut [bool]) -> Option<usize>
    requires len { length marks.old ≡ length history.now }
    requires marked { IsMarked marks.old (receipts_below seats.now seat) }
    ensures { MatchOption result
        (AllStand history.now (receipts_below seats.now seat) 0 (receipts_of seats.now seat)
        × IsMarked marks.new (receipts_below seats.now (suc seat)))
        (IsFirstTorn history.now (receipts_below seats.now seat) (receipts_of seats.now seat)) }
{
    let receipts = receipts_with(seats, seat);
    let mut low = 0;
    for n in 0..receipts.len() {
        let receipt = receipts[n];
        let place = receipt.place;
        if !is_free(history, marks, low, &receipt) {
            return Some(n);
        }
        marks[place] = true;
        low = place + 1;
    }
    None
}

// Returns whether the history has the receipt's event and answer at its place, at or above `low` and not marked.
fn is_free(history: &[Entry], marks: &[bool], low: usize, receipt: &Receipt) -> bool
    requires { length marks.now ≡ length history.now }
    ensures free { IsTrue result ↔ IsFree history.now marks.now low receipt.now }
    ensures within { IsTrue result → receipt.now.place < length marks.now }
{
    low <= receipt.place && is_recorded(history, receipt) && !marks[receipt.place]
}

// Returns whether the history has the receipt's event and answer at its place.
fn is_recorded(history: &[Entry], receipt: &Receipt) -> bool
    ensures recorded { IsTrue result ↔ IsRecorded history.now receipt.now }
    ensures within { IsTrue result → receipt.now.place < length history.now }
{
    receipt.place < history.len() && is_of(&history[receipt.place], receipt)
}

fn is_of(entry: &Entry, receipt: &Receipt) -> bool
    ensures { IsTrue result ↔ (entry.now ≡ receipt.now.entry) }
{
    entry.is(&receipt.entry)
}

fn count_marked(marks: &[bool]) -> usize
    ensures { result ≡ count_by (λ mark. mark) marks.now }
{
    marks.iter().filter(|mark| **mark).count()
}
