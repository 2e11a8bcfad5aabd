use crate::tests::trace::rows::LOG_ACROSS_TWO_MUTATORS;
use gc_copy::Step;
use gc_graph::{Number, Op, Slot, Source};
use gc_trace::{Trace, read_trace, scripts_of};
use gc_world::Event;
use std::test::Fail;

fn new(d: Slot) -> Op {
    Op::New { d, kind: 1, len: 1 }
}

fn num(d: Slot, n: Number) -> Op {
    Op::Num { d, n }
}

fn put(s: Slot, t: Slot) -> Op {
    Op::Put { s, i: 0, t }
}

fn get(d: Slot, s: Slot) -> Op {
    Op::Get { d, s, i: 0 }
}

fn look(s: Slot) -> Op {
    Op::Look { s }
}

#[test]
fn each_mutator_has_its_commands(rt: HostRuntime) -> Result<(), Fail> {
    let _named: Option<Op> = None;
    let g0 = Slot::shared(0).expect(&rt, "a slot");
    let r0 = Slot::own(0).expect(&rt, "a slot");
    let r1 = Slot::own(1).expect(&rt, "a slot");
    let seven = Number::new(7).expect(&rt, "a number");
    let eight = Number::new(8).expect(&rt, "a number");
    let trace = read_trace(rt.alloc(), &mut Source::new(LOG_ACROSS_TWO_MUTATORS.trace))?;
    let scripts = scripts_of(rt.alloc(), &trace)?;
    assert_eq!(rt; scripts.len(), 2);
    let of_first = scripts.first().ok_or("no first")?;
    let want = [new(g0), num(r0, seven), put(g0, r0), get(r1, g0)];
    assert_eq!(rt; of_first.as_slice(), want.as_slice());
    let of_second = scripts.last().ok_or("no second")?;
    let want = [look(r0), num(r0, eight), put(g0, r0)];
    assert_eq!(rt; of_second.as_slice(), want.as_slice());
    Ok(())
}

#[test]
fn a_mutator_may_have_no_command(rt: HostRuntime) -> Result<(), Fail> {
    let _named: Option<Op> = None;
    let op = look(Slot::own(0).expect(&rt, "a slot"));
    let trace = Trace {
        version: 1,
        size: 8,
        mutators: 3,
        events: vec![in rt.alloc(); Event::Mutate { m: 1, op }, Event::Collect(Step::Begin)]?,
    };
    let scripts = scripts_of(rt.alloc(), &trace)?;
    let mut lengths = Vec::new(rt.alloc());
    for script in &scripts {
        lengths.push(script.len())?;
    }
    assert_eq!(rt; lengths.as_slice(), [0, 1, 0].as_slice());
    Ok(())
}
