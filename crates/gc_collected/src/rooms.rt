//! The memory of the next collection, and memory that is given back.

ghost use Rattle.std.specs.Prelude.{◌≡◌, ◌≢◌, ◌≤◌, ◌⊎◌, ◌==◌, None, IfOk, OnOk, OnErr, if◌then◌else◌};
ghost use Rattle.std.specs.Option.{option_map};
ghost use Rattle.gc_copy.specs.Words.{held_in};
ghost use Rattle.gc_collected.specs.Collected.{HasBegun, released, rooms_given_back, rooms_given_up, rooms_touched, with_rooms};
ghost use Rattle.gc_collected.specs.Internal.Rooms.{rooms_in};

use crate::collected_heap::CollectedHeap;
use gc_copy::Room;
use gc_graph::NoMemory;
use std::alloc::Global;

/// How many words of memory one call gives back: 256 KiB.
const SLICE: u32 = 32768;

impl CollectedHeap {
    /// Writes to all memory of both spaces and of the monitor's tables once, so that no later write meets a page for the first time. If a
    /// collection is open, its new space is left out. Allocates the space of the next collection, unless a flip or an earlier call has left it.
    /// That collection is taken to be as large as the heap. On `NoMemory` nothing has changed.
    pub fn touch(&mut self) -> Result<(), NoMemory>
        ensures rooms { OnOk result (self.new ≡ with_rooms self.old (rooms_touched self.old)) }
        ensures refused { OnErr result (self.new ≡ self.old) }
    {
        let size = self.heap.space().size();
        if !touch_if(&mut self.former, size) && self.collection.is_none() {
            touch_room(self.alloc, &mut self.spare, size, self.heap.mutators())?;
        }
        self.heap.touch();
        self.watch.touch();
        Ok(())
    }

    /// Returns the room that the last flip left, if it was to stay and no collection has begun since. It tells where each object went.
    pub fn former(&self) -> Option<&Room>
        ensures { option_map (λ room. room.now) result ≡ self.now.beside.former }
    {
        self.former.as_ref()
    }

    /// Frees all memory that waits: what the last flip left, the spare room, and what is given back. The allocator can also give the pages behind the heap's
    /// end back. The heap and an open collection stay as they are. The next collection allocates its space.
    pub fn release(&mut self)
        ensures { self.new ≡ record self.old { beside = released self.old.beside } }
    {
        self.former = None;
        self.spare = None;
        self.leaving = None;
        self.heap.release();
    }

    /// Frees some of the memory that no collection will use, if there is any: at most 32,768 words of it. The heap stays as it is.
    #[inline(always)]
    pub fn give_back(&mut self)
        ensures { self.new ≡ with_rooms self.old (rooms_given_back self.old.beside.rooms) }
    {
        if self.leaving.is_some() {
            self.free_slice();
        }
    }

    // Frees the next slice.
    fn free_slice(&mut self)
        ensures { self.new ≡ with_rooms self.old (rooms_given_back self.old.beside.rooms) }
    {
        if let Some(room) = self.leaving.take() {
            self.leaving = room.without(SLICE);
        }
    }
}

// Writes to all memory of this room, if there is room of this size, at least 1. Returns whether there is.
fn touch_if(room: &mut Option<Room>, size: u32) -> bool
    requires { 1 ≤ size }
    ensures room { room.new ≡ room.old }
    ensures size { result ≡ (held_in room.old == size) }
{
    match room {
        Some(room) if room.size() == size => {
            room.touch();
            true
        }
        _ => false,
    }
}

// Writes to all memory of this room, or of new room where this one has another size. On `NoMemory` nothing has changed.
fn touch_room(
    alloc: Global,
    room: &mut Option<Room>,
    size: u32,
    mutators: u8,
) -> Result<(), NoMemory>
    requires { 1 ≤ size }
    ensures held { OnOk result (held_in room.new ≡ size) }
    ensures refused { OnErr result (room.new ≡ room.old) }
{
    if words_of(room) != size {
        *room = Some(Room::new(alloc, size, mutators)?);
    }
    if let Some(room) = room {
        room.touch();
    }
    Ok(())
}

/// Frees this room at once, if that is due.
pub(crate) fn free_if(room: &mut Option<Room>, due: bool)
    ensures { held_in room.new ≡ (if due then 0 else held_in room.old) }
{
    if due {
        *room = None;
    }
}

/// Takes room for a collection of this size: what the last flip left, or else the spare room, if that has this size, or else new memory. Of the
/// room that is not taken, some leaves from then on: what the flip left, or else the spare room. If memory is refused, frees the spare room and
/// asks once more.
pub(crate) fn room_for(
    alloc: Global,
    size: u32,
    mutators: u8,
    left: &mut Option<Room>,
    spare: &mut Option<Room>,
    leaving: &mut Option<Room>,
) -> Result<Room, NoMemory>
    requires low { 1 ≤ size }
    ensures size { IfOk result (λ room. room.size ≡ size) }
    ensures mutators { IfOk result (λ room. room.mutators ≡ mutators) }
    ensures rooms { OnOk result (HasBegun size (held_in left.old) (rooms_in spare.old leaving.old) (rooms_in spare.new leaving.new)) }
    ensures left { OnOk result (left.new ≡ None) }
    ensures refused { OnErr result ((left.new ≡ left.old) × (leaving.new ≡ leaving.old)) }
    ensures freed { OnErr result ((spare.new ≡ spare.old) ⊎ (spare.new ≡ None)) }
{
    if words_of(left) == size {
        let room = taken_or_new(alloc, size, mutators, left)?;
        *leaving = spare.take();
        return Ok(room);
    }
    if words_of(spare) == size {
        let room = taken_or_new(alloc, size, mutators, spare)?;
        leave(left, spare, leaving);
        return Ok(room);
    }
    let room = new_room(alloc, size, mutators, spare)?;
    leave(left, spare, leaving);
    Ok(room)
}

// Takes this room, which has this size, if it is for so many mutators, and otherwise allocates room, and frees this one.
fn taken_or_new(
    alloc: Global,
    size: u32,
    mutators: u8,
    room: &mut Option<Room>,
) -> Result<Room, NoMemory>
    requires low { 1 ≤ size }
    requires held { held_in room.old ≡ size }
    ensures size { IfOk result (λ taken. taken.size ≡ size) }
    ensures mutators { IfOk result (λ taken. taken.mutators ≡ mutators) }
    ensures gone { OnOk result (room.new ≡ None) }
    ensures refused { OnErr result (room.new ≡ room.old) }
{
    match room.take() {
        Some(taken) if taken.mutators() == usize::from(mutators) => Ok(taken),
        other => {
            *room = other;
            let new = Room::new(alloc, size, mutators)?;
            *room = None;
            Ok(new)
        }
    }
}

// Allocates room. If memory is refused, frees the spare room and asks once more.
fn new_room(
    alloc: Global,
    size: u32,
    mutators: u8,
    spare: &mut Option<Room>,
) -> Result<Room, NoMemory>
    requires { 1 ≤ size }
    ensures size { IfOk result (λ room. room.size ≡ size) }
    ensures mutators { IfOk result (λ room. room.mutators ≡ mutators) }
    ensures spare { (spare.new ≡ spare.old) ⊎ (spare.new ≡ None) }
{
    match Room::new(alloc, size, mutators) {
        Err(NoMemory) if spare.is_some() => {
            *spare = None;
            Room::new(alloc, size, mutators)
        }
        answer => answer,
    }
}

/// Keeps the room of a collection that was given up as the spare room, or has it leave if there is a spare room already.
pub(crate) fn keep_room(room: Room, spare: &mut Option<Room>, leaving: &mut Option<Room>)
    ensures { rooms_in spare.new leaving.new ≡ rooms_given_up room.size (rooms_in spare.old leaving.old) }
{
    if words_of(spare) == 0 {
        *spare = Some(room);
    } else {
        *leaving = Some(room);
    }
}

// Has the room leave that a begin did not take: what is left of the last flip's old space, or else the spare room.
fn leave(left: &mut Option<Room>, spare: &mut Option<Room>, leaving: &mut Option<Room>)
    ensures left { left.new ≡ None }
    ensures none { held_in left.old ≡ 0 → (spare.new ≡ None) × (held_in leaving.new ≡ held_in spare.old) }
    ensures some { held_in left.old ≢ 0 → (spare.new ≡ spare.old) × (leaving.new ≡ left.old) }
{
    let room = left.take();
    if words_of(&room) == 0 {
        *leaving = spare.take();
    } else {
        *leaving = room;
    }
}

// How many words this room has: 0 if there is none.
fn words_of(room: &Option<Room>) -> u32
    ensures { result ≡ held_in room.now }
{
    match room {
        None => 0,
        Some(room) => room.size(),
    }
}
