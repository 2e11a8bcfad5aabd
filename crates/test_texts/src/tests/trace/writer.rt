use crate::tests::trace::expectations::expect_bytes;
use crate::tests::trace::rows::{ROWS, WRITE_WHILE_SCANNING};
use crate::tests::trace::texts::{flips, played};
use crate::tests::trace::worlds::run_of;
use gc_cert::WriteFault;
use gc_copy::{Step, StepReply};
use gc_graph::{NoMemory, Number, Op, Reply, Sink, Slot, Source};
use gc_trace::{read_trace, run_trace, write_trace};
use gc_world::{Entry, World};
use std::alloc::Global;
use std::process::Abort;
use std::test::Fail;
use std::thread::Threads;
use test_kit::streams::{End, Narrow, Taking};

/// Plays the text and returns the trace text of the run's history.
fn written_back(alloc: Global, text: &[u8]) -> Result<Vec<u8>, Fail> {
    let trace = read_trace(alloc, &mut Source::new(text))?;
    let world = run_trace(alloc, &trace)?;
    Ok(written_of(alloc, &world)?)
}

/// Returns the text that is written of the world's history.
fn written_of(alloc: Global, world: &World) -> Result<Vec<u8>, WriteFault> {
    let mut sink = Sink::new(Vec::new(alloc));
    write_trace(&mut sink, world.size(), world.mutators(), world.history())?;
    Ok(sink.into_inner())
}

/// Returns the text that is written of one entry. Its answer does not matter.
fn written_alone(alloc: Global, entry: Entry) -> Result<Vec<u8>, WriteFault> {
    let mut sink = Sink::new(Vec::new(alloc));
    write_trace(&mut sink, 9, 16, &[entry])?;
    Ok(sink.into_inner())
}

#[test]
fn worked_rows_are_written_as_they_stand(rt: HostRuntime) -> Result<(), Fail> {
    for row in ROWS {
        let found = written_back(rt.alloc(), row.trace)?;
        expect_bytes(&rt, found.as_slice(), row.trace, row.name);
    }
    Ok(())
}

#[test]
fn each_command_has_its_line_in_the_least_version(rt: HostRuntime) -> Result<(), Fail> {
    let alloc = rt.alloc();
    let _named: Option<Op> = None;
    let r0 = Slot::own(0).ok_or("slot")?;
    let r15 = Slot::own(15).ok_or("slot")?;
    let g0 = Slot::shared(0).ok_or("slot")?;
    let g10 = Slot::shared(10).ok_or("slot")?;
    let greatest = Number::new(9223372036854775807).ok_or("number")?;
    let new = Op::New {
        d: r0,
        kind: 255,
        len: 65535,
    };
    let raw = Op::NewRaw {
        d: g10,
        kind: 255,
        len: 65535,
    };
    for (op, version, line) in [
        (new, 1, "m 15 new r0 255 65535"),
        (raw, 3, "m 15 raw g10 255 65535"),
        (
            Op::Num {
                d: r15,
                n: greatest,
            },
            1,
            "m 15 num r15 9223372036854775807",
        ),
        (Op::Nil { d: g10 }, 1, "m 15 nil g10"),
        (Op::Move { d: g0, s: r15 }, 1, "m 15 move g0 r15"),
        (
            Op::Get {
                d: r0,
                s: g10,
                i: 0,
            },
            1,
            "m 15 get r0 g10 0",
        ),
        (
            Op::Put {
                s: g0,
                i: 7,
                t: r15,
            },
            1,
            "m 15 put g0 7 r15",
        ),
        (Op::Same { s: r15, t: g0 }, 1, "m 15 same r15 g0"),
        (Op::Look { s: g10 }, 1, "m 15 look g10"),
    ] {
        let found = written_alone(alloc, Entry::command(15, &op, &Reply::Done))?;
        let want = format!(in alloc; "heaptrace {version}\nspace 9 mutators 16\n{line}\n")?;
        expect_bytes(&rt, found.as_slice(), want.as_bytes(), "");
    }
    Ok(())
}

#[test]
fn each_step_has_its_line_in_the_least_version(rt: HostRuntime) -> Result<(), Fail> {
    let alloc = rt.alloc();
    let _named: Option<Op> = None;
    for (step, version, line) in [
        (Step::Begin, 1, "c begin"),
        (Step::BeginSized(1), 2, "c begin 1"),
        (Step::BeginSized(1048576), 2, "c begin 1048576"),
        (Step::Roots, 1, "c roots"),
        (Step::Scan, 1, "c scan"),
        (Step::Apply(15), 1, "c apply 15"),
        (Step::Flip, 1, "c flip"),
        (Step::Drop, 1, "c drop"),
    ] {
        let found = written_alone(alloc, Entry::step(step, StepReply::Idle))?;
        let want = format!(in alloc; "heaptrace {version}\nspace 9 mutators 16\n{line}\n")?;
        expect_bytes(&rt, found.as_slice(), want.as_bytes(), "");
    }
    Ok(())
}

#[test]
fn a_version_that_no_line_needs_is_not_written(rt: HostRuntime) -> Result<(), Fail> {
    for (version, least, lines) in [
        (2, 1, "c begin\nm 2 nil g3\n"),
        (3, 1, "c begin\nm 2 nil g3\n"),
        (3, 2, "m 2 nil g3\nc begin 8\n"),
        (3, 3, "m 2 raw g3 0 1\nc begin 8\nm 1 new r0 0 0\n"),
    ] {
        let alloc = rt.alloc();
        let text = format!(in alloc; "heaptrace {version}\nspace 8 mutators 3\n{lines}")?;
        let want = format!(in alloc; "heaptrace {least}\nspace 8 mutators 3\n{lines}")?;
        let found = written_back(alloc, text.as_bytes())?;
        expect_bytes(&rt, found.as_slice(), want.as_bytes(), "");
    }
    Ok(())
}

#[test]
fn more_lines_than_wait_at_once(rt: HostRuntime) -> Result<(), Fail> {
    let mut text = Vec::from_slice(rt.alloc(), b"heaptrace 1\nspace 8 mutators 16\n")?;
    for _ in 0..3000 {
        text.extend_from_slice(b"m 15 look r15\n")?;
    }
    expect_bytes(
        &rt,
        written_back(rt.alloc(), &text)?.as_slice(),
        text.as_slice(),
        "",
    );
    Ok(())
}

/// Performs the useful step this often.
fn useful_often(rt: &(impl Threads + Sync), world: &mut World, count: u32) -> Result<(), NoMemory> {
    for _ in 0..count {
        world.collect_useful(rt)?;
    }
    Ok(())
}

/// Returns a world in which the useful step was made six times.
fn useful_world(rt: &(impl Threads + Sync + Abort), alloc: Global) -> Result<World, Fail> {
    let before = b"heaptrace 1\nspace 8 mutators 1\nm 0 new r0 0 1\nc scan\nc apply 0\n";
    let r0 = Slot::own(0).expect(rt, "a slot");
    let mut world = run_of(alloc, before)?;
    useful_often(rt, &mut world, 4)?;
    assert!(rt; world.mutators() == 1);
    world.mutate(0, &Op::Put { s: r0, i: 0, t: r0 })?;
    useful_often(rt, &mut world, 2)?;
    Ok(world)
}

#[test]
fn useful_steps_are_written_as_the_steps_that_they_were(rt: HostRuntime) -> Result<(), Fail> {
    let world = useful_world(&rt, rt.alloc())?;
    let text = written_of(rt.alloc(), &world)?;
    let want =
        b"heaptrace 1\nspace 8 mutators 1\nm 0 new r0 0 1\nc scan\nc apply 0\nc begin\nc roots\n\
        c scan\nc scan\nm 0 put r0 0 r0\nc apply 0\nc flip\n";
    expect_bytes(&rt, text.as_slice(), want.as_slice(), "");
    let replies = b"made\nidle\nidle\nbegun\ncopied\nscanned\npassed\ndone\napplied\nflipped 1\n";
    expect_bytes(
        &rt,
        played(rt.alloc(), &text)?.as_slice(),
        replies.as_slice(),
        "",
    );
    Ok(())
}

#[test]
fn a_front_of_the_trace_goes_out_before_the_writer_fails(rt: HostRuntime) -> Result<(), Fail> {
    let mut source = Source::new(WRITE_WHILE_SCANNING.trace);
    let trace = read_trace(rt.alloc(), &mut source)?;
    let world = run_trace(rt.alloc(), &trace)?;
    for end in [End::Silent, End::Broken, End::Interrupted] {
        let mut sink = Sink::new(Narrow::new(7, end));
        let found = write_trace(&mut sink, world.size(), world.mutators(), world.history());
        assert_eq!(rt; found, Err(WriteFault::Write));
        assert!(rt; sink.failed());
        expect_bytes(&rt, sink.into_inner().taken(), b"heaptra".as_slice(), "");
    }
    Ok(())
}

#[test]
fn a_trace_is_written_in_few_calls(rt: HostRuntime) -> Result<(), Fail> {
    let text = flips(rt.alloc(), 9000)?;
    let trace = read_trace(rt.alloc(), &mut Source::new(text.as_slice()))?;
    let world = run_trace(rt.alloc(), &trace)?;
    let mut writer = Taking::new();
    write_trace(
        &mut Sink::new(&mut writer),
        world.size(),
        world.mutators(),
        world.history(),
    )?;
    assert_eq!(rt; writer.bytes, 63031);
    assert!(rt; writer.calls < 8, "{} calls", writer.calls);
    Ok(())
}
