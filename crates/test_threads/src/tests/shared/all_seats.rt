//! Tests of the seats of 16 mutators: each command from each seat is one event with one receipt.

use gc_graph::{Op, Reply, View};
use gc_shared::{Seat, Shared};
use std::process::Abort;
use std::sync::Wait;
use std::test::Fail;
use test_kit::commands::{get, new, num, own, put, saw};

/// Returns the nine commands with their replies. They use a mutator's own slots alone, so each mutator gets the same.
fn commands(rt: &impl Abort) -> [(Op, Reply); 9] {
    let r0 = own(0);
    let r1 = own(1);
    let r2 = own(2);
    let raw = Op::NewRaw {
        d: r1,
        kind: 2,
        len: 1,
    };
    [
        (new(r0, 1, 2), Reply::Made),
        (num(r1, 7), Reply::Done),
        (put(r0, 1, r1), Reply::Done),
        (get(r2, r0, 1), saw(7)),
        (Op::Move { d: r2, s: r0 }, Reply::Done),
        (Op::Same { s: r2, t: r0 }, Reply::Yes),
        (raw, Reply::Made),
        (
            Op::Look { s: r0 },
            Reply::Saw(View::Obj { kind: 1, len: 2 }),
        ),
        (Op::Nil { d: r0 }, Reply::Done),
    ]
}

/// Performs the commands with a seat, and asserts their replies and receipts.
fn perform(rt: &(impl Wait + Abort), shared: &Shared, seat: &mut Seat, rows: &[(Op, Reply)]) {
    for (n, (op, reply)) in rows.iter().enumerate() {
        assert!(rt; shared.call(rt, seat, op) == Ok(*reply), "command {n}");
    }
    assert_eq!(rt; seat.receipts().len(), rows.len());
}

#[test]
fn each_command_from_each_of_sixteen_seats(rt: HostRuntime) -> Result<(), Fail> {
    let rows = commands(&rt);
    let (shared, seats) = Shared::open(rt.alloc(), 512, 16, 0)?;
    let mut done = Vec::new(rt.alloc());
    for mut seat in seats {
        perform(&rt, &shared, &mut seat, &rows);
        done.push(seat)?;
    }
    let world = shared.close(done).map_err(|fault| fault.kind)?;
    assert_eq!(rt; world.history().len(), 144);
    Ok(())
}
