//! What each call of the handshake does, in one thread.
use gc_check::{CheckFault, Checks, Sequential, Yes};
use gc_concurrent::{
    Collector, Holding, NoFlip, Runner, Waiting, Work, open, open_checked, open_with,
};
use gc_graph::{Number, Op, Reply, View};
use gc_words::{ImageRef, NewAddr, OldAddr, Pair, Value};
use std::alloc::Global;
use std::test::Fail;
use test_kit::commands::{get, new, num, own, put, saw};

/// The steps that a test lets a collector perform at most.
const MOST_STEPS: u32 = 1_000_000;

/// Performs steps beside the mutator until nothing is left to do. Returns whether there was an end.
fn ends(collector: &mut Collector) -> bool {
    for _ in 0..MOST_STEPS {
        if collector.work() == Work::Done {
            return true;
        }
    }
    false
}

/// The same for a collector that holds the mutator.
fn ends_held(holding: &mut Holding) -> bool {
    for _ in 0..MOST_STEPS {
        if holding.work() == Work::Done {
            return true;
        }
    }
    false
}

/// Stops the mutator, and lets its collector take it.
fn taken(runner: Runner, mut collector: Collector) -> Result<(Waiting, Holding), Fail> {
    if !ends(&mut collector) || runner.is_asked() {
        return Err(Fail::from("a collection ends, and nobody is asked"));
    }
    let asking = collector.ask().ok().ok_or("the mutator runs")?;
    if !runner.is_asked() {
        return Err(Fail::from("the mutator is asked"));
    }
    let asking = asking.take().err().ok_or("the mutator has not stopped")?;
    let waiting = runner.stop().ok().ok_or("the mutator is asked")?;
    let holding = asking.take().ok().ok_or("the mutator has stopped")?;
    Ok((waiting, holding))
}

/// Gives the roots' targets replicas, and performs the steps that are left.
fn ready(holding: &mut Holding) -> Result<(), Fail> {
    if holding.place_roots() && ends_held(holding) {
        return Ok(());
    }
    Err(Fail::from("it has room, and ends"))
}

/// Begins the collection anew, in a new space of `size` words.
fn prepared(alloc: Global, mut collector: Collector, size: u32) -> Result<Collector, Fail> {
    collector.prepare(alloc, size.max(1))?;
    Ok(collector)
}

/// Flips, after as many steps as are wanted, and makes the memory of the next flip, whose new space has `size` words.
fn flipped(alloc: Global, mut holding: Holding, size: u32) -> Result<Collector, Fail> {
    ready(&mut holding)?;
    let flipped = holding.flip(alloc, &Sequential);
    prepared(alloc, flipped.ok().ok_or("it flips")?, size)
}

/// Flips, and makes no memory for the next flip.
fn finished(alloc: Global, holding: Holding) -> Result<Collector, Fail> {
    let flipped = holding.finish(alloc, &Sequential);
    Ok(flipped.ok().ok_or("it flips")?)
}

/// Fails to flip, since an object has no room, and lets the mutator go on in the same space.
fn without_room(alloc: Global, holding: Holding) -> Result<Collector, Fail> {
    let refused = holding
        .finish(alloc, &Sequential)
        .err()
        .ok_or("there is no room")?;
    if refused.why == NoFlip::NotReady {
        return Ok(refused.holding.go());
    }
    Err(Fail::from("it lacks room"))
}

/// A checker that never has enough memory. A flip that passes has not asked it.
struct WithoutMemory;

impl Checks for WithoutMemory {
    ghost use Rattle.std.specs.Prelude.{⊥};

    ghost says_yes = { λ _ _. ⊥ };

    fn check(
        &self,
        _alloc: Global,
        _old: ImageRef,
        _new: ImageRef,
        _cert: &[Pair],
    ) -> Result<Yes, CheckFault> {
        Err(CheckFault::NoMemory)
    }
}

/// Flips a heap that the standing checker vouches for.
fn vouched_for(alloc: Global, mut holding: Holding) -> Result<Collector, Fail> {
    ready(&mut holding)?;
    let collector = holding
        .flip(alloc, &WithoutMemory)
        .ok()
        .ok_or("the standing checker vouches for it")?;
    Ok(collector)
}

/// Performs a command, and returns its reply.
fn told(runner: &mut Runner, op: Op) -> Option<Reply> {
    let _named = View::Nil;
    runner.commander.apply(&op).ok()
}

#[test]
fn a_flip_keeps_what_the_roots_reach(rt: HostRuntime) -> Result<(), Fail> {
    let _named = View::Nil;
    let alloc = rt.alloc();
    let (mut runner, collector) = open(alloc, 64)?;
    assert!(rt; told(&mut runner, new(own(0), 3, 2)) == Some(Reply::Made));
    assert!(rt; told(&mut runner, num(own(1), 9)) == Some(Reply::Done));
    assert!(rt; told(&mut runner, put(own(0), 1, own(1))) == Some(Reply::Done));
    let (waiting, holding) = taken(runner, collector)?;
    let waiting = waiting.resume().err().ok_or("the collector holds it")?;
    let collector = flipped(alloc, holding, 64)?;
    let mut runner = waiting.resume().ok().ok_or("it may go on")?;
    assert!(rt; told(&mut runner, get(own(2), own(0), 1)) == Some(saw(9)));
    // The mutator has gone on, so it can be asked again.
    let (waiting, holding) = taken(runner, collector)?;
    let collector = holding.finish(alloc, &Sequential).ok().ok_or("it flips")?;
    let mut runner = waiting.wait(&rt);
    assert!(rt; told(&mut runner, get(own(3), own(0), 1)) == Some(saw(9)));
    let _still = collector.ask().ok().ok_or("it has gone on")?;
    Ok(())
}

// A heap of 64 words has 32 slots and five extra roots, from 32 to 36. Root 36 refers to an object of two fields, the second of which refers to one that
// holds 9.
#[test]
fn a_flip_moves_extra_roots(rt: HostRuntime) -> Result<(), Fail> {
    let _named = View::Nil;
    let alloc = rt.alloc();
    let (mut runner, collector) = open_with(alloc, 64, 5)?;
    let heap = &mut runner.commander;
    assert!(rt; heap.count_roots() == 37);
    assert!(rt; heap.new_root(36, 3, 2) == Reply::Made);
    assert!(rt; heap.new_root(35, 4, 1) == Reply::Made);
    assert!(rt; heap.num_root(34, Number::new(9).ok_or("a number")?) == Reply::Done);
    assert!(rt; heap.put_root(35, 0, 34) == Ok(Reply::Done));
    assert!(rt; heap.put_root(36, 1, 35) == Ok(Reply::Done));
    assert!(rt; heap.new_raw_root(33, 5, 1) == Reply::Made);
    assert!(rt; heap.put_root(33, 0, 36) == Ok(Reply::NoNumber));
    assert!(rt; heap.nil_root(35) == Reply::Done);
    let (waiting, holding) = taken(runner, collector)?;
    let _collector = flipped(alloc, holding, 64)?;
    let mut runner = waiting.resume().ok().ok_or("it may go on")?;
    let heap = &mut runner.commander;
    assert!(rt; heap.look_root(36) == Reply::Saw(View::Obj { kind: 3, len: 2 }));
    assert!(rt; heap.look_root(33) == Reply::Saw(View::RawObj { kind: 5, len: 1 }));
    assert!(rt; heap.look_root(35) == Reply::Saw(View::Nil));
    assert!(rt; heap.get_root(35, 36, 1) == Reply::Saw(View::Obj { kind: 4, len: 1 }));
    assert!(rt; heap.get_root(32, 35, 0) == saw(9));
    assert!(rt; heap.same_root(32, 34) == Reply::Yes);
    assert!(rt; heap.copy_root(0, 36) == Reply::Done);
    assert!(rt; heap.same_root(0, 36) == Reply::Yes);
    assert!(rt; heap.same_root(35, 36) == Reply::No);
    assert!(rt; heap.get_root(1, 36, 2) == Reply::NoField);
    assert!(rt; heap.get_root(1, 34, 0) == Reply::NoObject);
    Ok(())
}

// The objects start at 1 and 4 and end before 8. A reference from its address leads to the second one when no root does, so a flip keeps it. Afterwards
// it starts at 1, since no root refers to the first one.
#[test]
fn an_object_is_reached_by_its_address(rt: HostRuntime) -> Result<(), Fail> {
    let _named = View::Nil;
    let alloc = rt.alloc();
    let (mut runner, collector) = open(alloc, 64)?;
    let heap = &mut runner.commander;
    let nine = Number::new(9).ok_or("a number")?;
    assert!(rt; heap.new_root(0, 3, 1) == Reply::Made);
    assert!(rt; heap.new_root(1, 4, 2) == Reply::Made);
    assert!(rt; heap.put_number_root(1, 1, nine) == Ok(Reply::Done));
    assert!(rt; heap.address_root(1) == Some(OldAddr(4)));
    assert!(rt; heap.nil_root(1) == Reply::Done);
    assert!(rt; heap.address_root(1) == None);
    for other in [0, 2, 3, 5, 8, 64, 4096, u32::MAX] {
        assert!(rt; heap.refer_root(1, OldAddr(other)) == Reply::NoObject);
        assert!(rt; heap.view_at(OldAddr(other)) == View::Nil);
        assert!(rt; heap.field_at(OldAddr(other), 0) == None);
    }
    assert!(rt; heap.view_at(OldAddr(4)) == View::Obj { kind: 4, len: 2 });
    assert!(rt; heap.field_at(OldAddr(4), 1) == Some(Value::Num(nine)));
    assert!(rt; heap.field_at(OldAddr(4), 2) == None);
    assert!(rt; heap.refer_root(1, OldAddr(4)) == Reply::Done);
    assert!(rt; heap.nil_root(0) == Reply::Done);
    let (waiting, holding) = taken(runner, collector)?;
    let _collector = flipped(alloc, holding, 64)?;
    let mut runner = waiting.resume().ok().ok_or("it may go on")?;
    let heap = &mut runner.commander;
    assert!(rt; heap.address_root(1) == Some(OldAddr(1)));
    assert!(rt; heap.field_at(OldAddr(1), 1) == Some(Value::Num(nine)));
    assert!(rt; heap.view_at(OldAddr(4)) == View::Nil);
    assert!(rt; heap.refer_root(2, OldAddr(1)) == Reply::Done);
    assert!(rt; heap.same_root(1, 2) == Reply::Yes);
    Ok(())
}

// The object has a replica when its field is written, so the collector learns of the write by the log alone.
/// Goes through a flip.
fn through_a_flip(
    alloc: Global,
    runner: Runner,
    collector: Collector,
) -> Result<(Runner, Collector), Fail> {
    let (waiting, holding) = taken(runner, collector)?;
    let collector = flipped(alloc, holding, 64)?;
    let runner = waiting.resume().ok().ok_or("it may go on")?;
    Ok((runner, collector))
}

/// Where the last flip moved the objects that were at these addresses.
fn moved(runner: &Runner, one: u32, two: u32, three: u32) -> [Option<NewAddr>; 3] {
    [
        runner.commander.moved(OldAddr(one)),
        runner.commander.moved(OldAddr(two)),
        runner.commander.moved(OldAddr(three)),
    ]
}

#[test]
fn each_flip_tells_its_moves(rt: HostRuntime) -> Result<(), Fail> {
    let _named = View::Nil;
    let alloc = rt.alloc();
    let (mut runner, collector) = open(alloc, 64)?;
    // An object takes two words more than it has fields, and the first one starts at 1.
    assert!(rt; told(&mut runner, new(own(0), 3, 2)) == Some(Reply::Made));
    assert!(rt; told(&mut runner, new(own(1), 3, 0)) == Some(Reply::Made));
    assert!(rt; told(&mut runner, new(own(2), 3, 1)) == Some(Reply::Made));
    assert!(rt; told(&mut runner, num(own(1), 9)) == Some(Reply::Done));
    assert!(rt; runner.commander.flips() == 0);
    assert!(rt; moved(&runner, 1, 5, 7) == [None, None, None]);
    let (mut runner, collector) = through_a_flip(alloc, runner, collector)?;
    assert!(rt; runner.commander.flips() == 1);
    assert!(rt; moved(&runner, 1, 5, 7) == [Some(NewAddr(1)), None, Some(NewAddr(5))]);
    assert!(rt; moved(&runner, 64, 65, u32::MAX) == [None, None, None]);
    assert!(rt; told(&mut runner, num(own(0), 9)) == Some(Reply::Done));
    let (runner, collector) = through_a_flip(alloc, runner, collector)?;
    assert!(rt; runner.commander.flips() == 2);
    assert!(rt; moved(&runner, 1, 5, 7) == [None, Some(NewAddr(1)), None]);
    // A safepoint without a flip.
    let (waiting, holding) = taken(runner, collector)?;
    let _collector = holding.go();
    let runner = waiting.wait(&rt);
    assert!(rt; runner.commander.flips() == 2);
    assert!(rt; moved(&runner, 1, 5, 7) == [None, Some(NewAddr(1)), None]);
    Ok(())
}

#[test]
fn a_write_beside_the_collector_is_in_the_new_space(rt: HostRuntime) -> Result<(), Fail> {
    let _named = View::Nil;
    let alloc = rt.alloc();
    let (mut runner, collector) = open(alloc, 64)?;
    assert!(rt; told(&mut runner, new(own(0), 3, 1)) == Some(Reply::Made));
    let (waiting, mut holding) = taken(runner, collector)?;
    let refused = holding
        .flip(alloc, &Sequential)
        .err()
        .ok_or("the root has no replica")?;
    assert!(rt; refused.why == NoFlip::NotReady);
    holding = refused.holding;
    ready(&mut holding)?;
    let collector = holding.go();
    let collector = collector.ask().err().ok_or("it has not gone on")?;
    let mut runner = waiting.resume().ok().ok_or("it may go on")?;
    assert!(rt; told(&mut runner, num(own(1), 5)) == Some(Reply::Done));
    assert!(rt; told(&mut runner, put(own(0), 0, own(1))) == Some(Reply::Done));
    let (waiting, holding) = taken(runner, collector)?;
    let _collector = flipped(alloc, holding, 64)?;
    let mut runner = waiting.resume().ok().ok_or("it may go on")?;
    assert!(rt; told(&mut runner, get(own(2), own(0), 0)) == Some(saw(5)));
    Ok(())
}

// Everything is copied and scanned when the mutator writes. So the collector takes it with one entry, and does not flip before it has applied that.
#[test]
fn a_flip_waits_for_the_last_entry(rt: HostRuntime) -> Result<(), Fail> {
    let _named = View::Nil;
    let alloc = rt.alloc();
    let (mut runner, collector) = open(alloc, 64)?;
    assert!(rt; told(&mut runner, new(own(0), 3, 1)) == Some(Reply::Made));
    let (waiting, mut holding) = taken(runner, collector)?;
    ready(&mut holding)?;
    let collector = holding.go();
    let mut runner = waiting.resume().ok().ok_or("it may go on")?;
    assert!(rt; told(&mut runner, num(own(1), 5)) == Some(Reply::Done));
    assert!(rt; told(&mut runner, put(own(0), 0, own(1))) == Some(Reply::Done));
    let (waiting, holding) = taken(runner, collector)?;
    let refused = holding
        .flip(alloc, &Sequential)
        .err()
        .ok_or("an entry is due")?;
    assert!(rt; refused.why == NoFlip::NotReady);
    let _collector = flipped(alloc, refused.holding, 64)?;
    let mut runner = waiting.resume().ok().ok_or("it may go on")?;
    assert!(rt; told(&mut runner, get(own(2), own(0), 0)) == Some(saw(5)));
    Ok(())
}

// The standing checker vouches for each flip, so that both spaces are never checked whole: with writes beside the collector, raw objects, objects that
// are made after the last stop, cycles, and a heap whose objects are all garbage.
#[test]
fn no_flip_asks_another_checker(rt: HostRuntime) -> Result<(), Fail> {
    let _named = View::Nil;
    let alloc = rt.alloc();
    let (mut runner, collector) = open(alloc, 64)?;
    assert!(rt; told(&mut runner, new(own(0), 3, 2)) == Some(Reply::Made));
    assert!(rt; told(&mut runner, num(own(1), 9)) == Some(Reply::Done));
    assert!(rt; told(&mut runner, put(own(0), 1, own(1))) == Some(Reply::Done));
    let (waiting, mut holding) = taken(runner, collector)?;
    assert!(rt; holding.place_roots());
    let mut collector = holding.go();
    let mut runner = waiting.resume().ok().ok_or("it may go on")?;
    assert!(rt; told(&mut runner, new(own(3), 4, 1)) == Some(Reply::Made));
    assert!(rt; told(&mut runner, put(own(0), 0, own(3))) == Some(Reply::Done));
    assert!(rt; told(&mut runner, put(own(3), 0, own(0))) == Some(Reply::Done));
    assert!(rt; collector.work() == Work::Step);
    assert!(rt;
        told(
            &mut runner,
            Op::NewRaw {
                d: own(4),
                kind: 5,
                len: 3
            }
        ) == Some(Reply::Made)
    );
    assert!(rt; told(&mut runner, put(own(4), 2, own(1))) == Some(Reply::Done));
    assert!(rt; told(&mut runner, num(own(1), 5)) == Some(Reply::Done));
    assert!(rt; told(&mut runner, put(own(0), 1, own(1))) == Some(Reply::Done));
    let (waiting, holding) = taken(runner, collector)?;
    let collector = vouched_for(alloc, holding)?;
    let mut runner = waiting.resume().ok().ok_or("it may go on")?;
    assert!(rt; told(&mut runner, get(own(2), own(0), 1)) == Some(saw(5)));
    assert!(rt; told(&mut runner, get(own(2), own(4), 2)) == Some(saw(9)));
    assert!(rt;
        told(&mut runner, get(own(2), own(0), 0)) == Some(Reply::Saw(View::Obj { kind: 4, len: 1 }))
    );
    for k in 0..5 {
        assert!(rt; told(&mut runner, Op::Nil { d: own(k) }) == Some(Reply::Done));
    }
    let collector = prepared(alloc, collector, 64)?;
    let (waiting, holding) = taken(runner, collector)?;
    let _collector = vouched_for(alloc, holding)?;
    let mut runner = waiting.resume().ok().ok_or("it may go on")?;
    assert!(rt; runner.commander.room() == 63);
    assert!(rt; told(&mut runner, new(own(0), 3, 2)) == Some(Reply::Made));
    Ok(())
}

// Each third flip asks the whole checker, counted from the last one that did. This one never has the memory, so such a flip is not made, and not counted. The
// others rest on the standing checker.
#[test]
fn each_third_flip_asks_the_whole_checker(rt: HostRuntime) -> Result<(), Fail> {
    let _named = View::Nil;
    let alloc = rt.alloc();
    let (mut runner, mut collector) = open_checked(alloc, 64, 0, 3)?;
    assert!(rt; told(&mut runner, new(own(0), 3, 2)) == Some(Reply::Made));
    for flip in 1..11u64 {
        let (waiting, mut holding) = taken(runner, collector)?;
        ready(&mut holding)?;
        let made = if flip % 3 == 0 {
            let refused = holding
                .flip(alloc, &WithoutMemory)
                .err()
                .ok_or("the whole checker is asked")?;
            assert!(rt; refused.why == NoFlip::NoMemory);
            assert!(rt; refused.holding.turns.whole == (flip - 1) / 3);
            refused.holding.flip(alloc, &Sequential)
        } else {
            holding.flip(alloc, &WithoutMemory)
        };
        collector = prepared(alloc, made.ok().ok_or("it flips")?, 64)?;
        assert!(rt; collector.turns.whole == flip / 3);
        assert!(rt; collector.turns.along == flip - flip / 3);
        runner = waiting.resume().ok().ok_or("it may go on")?;
        assert!(rt; told(&mut runner, get(own(2), own(0), 1)) == Some(Reply::Saw(View::Nil)));
    }
    Ok(())
}

// Each flip makes room again: what no root reaches is not copied.
#[test]
fn unreachable_objects_make_room(rt: HostRuntime) -> Result<(), Fail> {
    let _named = View::Nil;
    let alloc = rt.alloc();
    let (mut runner, mut collector) = open(alloc, 16)?;
    for _ in 0..20 {
        assert!(rt; told(&mut runner, new(own(0), 3, 4)) == Some(Reply::Made));
        assert!(rt; told(&mut runner, new(own(0), 3, 4)) == Some(Reply::Made));
        assert!(rt; told(&mut runner, new(own(0), 3, 4)) == Some(Reply::Full));
        let (waiting, holding) = taken(runner, collector)?;
        collector = flipped(alloc, holding, 16)?;
        runner = waiting.resume().ok().ok_or("it may go on")?;
        assert!(rt; told(&mut runner, Op::Nil { d: own(0) }) == Some(Reply::Done));
        let (waiting, holding) = taken(runner, collector)?;
        collector = flipped(alloc, holding, 16)?;
        runner = waiting.resume().ok().ok_or("it may go on")?;
    }
    Ok(())
}

// An object of four words lives in a heap of 16 words, then of 1000, and then of the five that it needs. In a new space of four words it has no room.
#[test]
fn a_heap_changes_its_size_at_a_flip(rt: HostRuntime) -> Result<(), Fail> {
    let _named = View::Nil;
    let alloc = rt.alloc();
    let (mut runner, mut collector) = open(alloc, 16)?;
    assert!(rt; told(&mut runner, new(own(0), 3, 2)) == Some(Reply::Made));
    // The size of the next new space, and the room after the flip into the last one.
    for (size, room) in [(1000, 11), (5, 995), (4, 0)] {
        let (waiting, holding) = taken(runner, collector)?;
        collector = flipped(alloc, holding, size)?;
        runner = waiting.resume().ok().ok_or("it may go on")?;
        assert!(rt; runner.commander.room() == room);
    }
    let (waiting, holding) = taken(runner, collector)?;
    collector = prepared(alloc, without_room(alloc, holding)?, 64)?;
    runner = waiting.resume().ok().ok_or("it may go on")?;
    let (waiting, holding) = taken(runner, collector)?;
    let _collector = flipped(alloc, holding, 64)?;
    runner = waiting.resume().ok().ok_or("it may go on")?;
    assert!(rt; runner.commander.room() == 59);
    assert!(rt; told(&mut runner, get(own(2), own(0), 1)) == Some(Reply::Saw(View::Nil)));
    Ok(())
}

// Until the memory of the next flip is made, the new space has no room for an object.
#[test]
fn nothing_is_copied_unprepared(rt: HostRuntime) -> Result<(), Fail> {
    let _named = View::Nil;
    let alloc = rt.alloc();
    let (mut runner, collector) = open(alloc, 16)?;
    assert!(rt; told(&mut runner, new(own(0), 3, 2)) == Some(Reply::Made));
    let (waiting, holding) = taken(runner, collector)?;
    let collector = finished(alloc, holding)?;
    let runner = waiting.resume().ok().ok_or("it may go on")?;
    let (waiting, holding) = taken(runner, collector)?;
    let _collector = without_room(alloc, holding)?;
    let mut runner = waiting.resume().ok().ok_or("it may go on")?;
    assert!(rt; told(&mut runner, get(own(2), own(0), 1)) == Some(Reply::Saw(View::Nil)));
    Ok(())
}

#[test]
fn nobody_stops_unasked(rt: HostRuntime) -> Result<(), Fail> {
    let alloc = rt.alloc();
    let (runner, _collector) = open(alloc, 8)?;
    let runner = runner.stop().err().ok_or("nobody asks")?;
    let _runner = runner.poll(&rt);
    Ok(())
}

#[test]
fn a_question_is_withdrawn(rt: HostRuntime) -> Result<(), Fail> {
    let _named = View::Nil;
    let (mut runner, collector) = open(rt.alloc(), 64)?;
    assert!(rt; runner.commander.room() == 63);
    assert!(rt; told(&mut runner, new(own(0), 3, 2)) == Some(Reply::Made));
    assert!(rt; runner.commander.room() == 59);
    // Before the mutator has stopped.
    let asking = collector.ask().ok().ok_or("the mutator runs")?;
    assert!(rt; runner.is_asked());
    let collector = asking.withdraw();
    assert!(rt; !runner.is_asked());
    let runner = runner.stop().err().ok_or("nobody is asked")?;
    // And after it.
    let asking = collector.ask().ok().ok_or("it runs again")?;
    let waiting = runner.stop().ok().ok_or("it is asked")?;
    let waiting = waiting.resume().err().ok_or("it has to wait")?;
    let collector = asking.withdraw();
    let mut runner = waiting.resume().ok().ok_or("it may go on")?;
    assert!(rt; told(&mut runner, num(own(1), 9)) == Some(Reply::Done));
    let (waiting, holding) = taken(runner, collector)?;
    let _collector = holding
        .finish(rt.alloc(), &Sequential)
        .ok()
        .ok_or("it flips")?;
    let runner = waiting.resume().ok().ok_or("it may go on")?;
    assert!(rt; runner.commander.room() == 59);
    Ok(())
}
