//! An entry returns the event and the answer that it was made from, and `is` sees a difference in any part.

use gc_copy::{Step, StepReply};
use gc_graph::{Number, Op, Reply, Slot, View};
use gc_world::{Answer, Entry, Event};
use std::test::Fail;

/// Returns one command of each kind, with the greatest value in each field.
fn commands() -> Result<[Op; 9], Fail> {
    let d = Slot::shared(15).ok_or("slot")?;
    let s = Slot::own(15).ok_or("slot")?;
    let t = Slot::own(14).ok_or("slot")?;
    let n = Number::new(9223372036854775807).ok_or("number")?;
    Ok([
        Op::New {
            d,
            kind: 255,
            len: 65535,
        },
        Op::NewRaw {
            d,
            kind: 255,
            len: 65535,
        },
        Op::Num { d, n },
        Op::Nil { d },
        Op::Move { d, s },
        Op::Get { d, s, i: 65535 },
        Op::Put { s, i: 65535, t },
        Op::Same { s, t },
        Op::Look { s },
    ])
}

/// Returns one reply of each kind, with the greatest value in each field.
fn replies() -> Result<[Reply; 12], Fail> {
    let n = Number::new(9223372036854775806).ok_or("number")?;
    let (kind, len) = (255, 65535);
    Ok([
        Reply::Full,
        Reply::Made,
        Reply::Done,
        Reply::NoObject,
        Reply::NoField,
        Reply::NoNumber,
        Reply::Saw(View::Nil),
        Reply::Saw(View::Num(n)),
        Reply::Saw(View::Obj { kind, len }),
        Reply::Saw(View::RawObj { kind, len }),
        Reply::Yes,
        Reply::No,
    ])
}

#[test]
fn each_command_with_each_reply(rt: HostRuntime) -> Result<(), Fail> {
    let first = Entry::command(0, &commands()?[0], &replies()?[0]);
    let mut same: u32 = 0;
    for op in commands()? {
        for reply in replies()? {
            let entry = Entry::command(15, &op, &reply);
            assert!(rt; entry.event() == Event::Mutate { m: 15, op });
            assert!(rt; entry.answer() == Answer::Mutator(reply));
            assert!(rt; entry.is(&entry) && !entry.is(&first));
            if entry.is(&Entry::command(15, &op, &Reply::Done)) {
                same = same.saturating_add(1);
            }
        }
    }
    assert_eq!(rt; same, 9);
    Ok(())
}

#[test]
fn a_step_is_marked_as_useful(rt: HostRuntime) {
    let reply = StepReply::Flipped { pairs: 4294967295 };
    let step = Step::BeginSized(1048576);
    let asked = Entry::step(step, reply);
    let useful = Entry::useful(step, reply);
    assert!(rt; asked.event() == Event::Collect(step) && useful.event() == Event::Collect(step));
    assert!(rt; asked.answer() == Answer::Collector(reply));
    assert!(rt; useful.answer() == Answer::Useful(reply));
    assert!(rt; asked.is(&Entry::step(step, reply)) && !asked.is(&useful));
    assert!(rt; !asked.is(&Entry::step(Step::Begin, reply)));
}
