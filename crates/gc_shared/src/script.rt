ghost use Rattle.std.specs.Prelude.{◌≡◌, [], IfOk};
ghost use Rattle.gc_shared.specs.Internal.Scripts.{HasPerformed, HasTurned};

use crate::fault::ThreadsFault;
use crate::gate::Gate;
use crate::seat::Seat;
use crate::shared::Shared;
use gc_graph::Op;
use std::sync::Wait;
use std::thread::Threads;

/// Performs the commands of a script with a seat, in order.
pub(crate) fn play<R: Wait, G: Gate>(
    rt: &R,
    shared: &Shared,
    mut seat: Seat,
    script: &[Op],
    gate: &G,
) -> Result<Seat, ThreadsFault>
    requires { seat.receipts ≡ [] }
    ensures { IfOk result (HasPerformed seat.number script.now) }
{
    let number = u32::from(seat.number());
    for n in 0..script.len() {
        let call = n as u64;
        if !gate.before(number, call) {
            return Err(ThreadsFault::Gate {
                seat: number,
                n: call,
            });
        }
        shared.call(rt, &mut seat, &script[n])?;
        gate.after(number, call);
    }
    Ok(seat)
}

/// Performs this many useful steps with a seat.
pub(crate) fn turn<R: Threads + Wait + Sync, G: Gate>(
    rt: &R,
    shared: &Shared,
    mut seat: Seat,
    turns: u64,
    gate: &G,
) -> Result<Seat, ThreadsFault>
    requires { seat.receipts ≡ [] }
    ensures { IfOk result (HasTurned seat.number turns) }
{
    let number = u32::from(seat.number());
    for n in 0..turns {
        if !gate.before(number, n) {
            return Err(ThreadsFault::Gate { seat: number, n });
        }
        shared.useful(rt, &mut seat)?;
        gate.after(number, n);
    }
    Ok(seat)
}
