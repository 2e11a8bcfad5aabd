//! A test of how often a gate is called, and in which order.

ghost use Rattle.std.specs.Prelude.{◌≡◌, IfOk, vec_len};

use gc_graph::Op;
use gc_shared::{Gate, run_threads};
use std::alloc::{AllocError, Global};
use std::sync::atomic::{AtomicU64, Ordering};
use std::test::Fail;
use test_kit::commands::own;

/// How many calls each seat makes.
const CALLS: usize = 20;

/// The count of a seat whose gate was called out of turn.
const OUT_OF_TURN: u64 = u64::MAX;

/// Counts its calls for the mutator's seat 0 and the collector's seat 1. For each call of a seat it is called twice:
/// before it and after it.
#[derive(Drop)]
struct Counting {
    mutator: AtomicU64,
    collector: AtomicU64,
}

impl Counting {
    /// Counts a call of the gate for this seat, which is in turn if there were `earlier` before it.
    fn count(&self, seat: u32, earlier: u64) {
        let counted = if seat == 0 {
            &self.mutator
        } else {
            &self.collector
        };
        let is_in_turn = counted.load(Ordering::SeqCst) == earlier;
        let now = if is_in_turn {
            earlier.saturating_add(1)
        } else {
            OUT_OF_TURN
        };
        counted.store(now, Ordering::SeqCst);
    }
}

impl Gate for Counting {
    fn before(&self, seat: u32, n: u64) -> bool {
        self.count(seat, n.saturating_mul(2));
        true
    }

    fn after(&self, seat: u32, n: u64) {
        self.count(seat, n.saturating_mul(2).saturating_add(1));
    }
}

/// Returns one script.
fn script_of(alloc: Global, op: Op) -> Result<Vec<Vec<Op>>, AllocError>
    ensures { IfOk result (λ scripts. vec_len scripts ≡ 1) }
{
    let mut scripts = Vec::new(alloc);
    scripts.push(vec![in alloc; op; CALLS]?)?;
    Ok(scripts)
}

#[test]
fn a_gate_is_called_before_and_after_each_call(rt: HostRuntime) -> Result<(), Fail> {
    let scripts = script_of(rt.alloc(), Op::Nil { d: own(0) })?;
    let gate = Counting {
        mutator: AtomicU64::new(0),
        collector: AtomicU64::new(0),
    };
    run_threads(&rt, rt.alloc(), 8, scripts, CALLS as u64, &gate)?;
    assert_eq!(rt; gate.mutator.load(Ordering::SeqCst), 40);
    assert_eq!(rt; gate.collector.load(Ordering::SeqCst), 40);
    Ok(())
}
