//! Tests with readers and writers that give or take few bytes, and then fail.

use super::texts::{LEAST, TEXT_CHECKS, line};
use gc_cert::PairFault;
use gc_check::RunFault;
use gc_graph::{Sink, Source};
use std::test::Fail;
use test_kit::streams::{End, Narrow, Slow};

#[test]
fn a_reader_that_fails_is_named(rt: HostRuntime) -> Result<(), Fail> {
    for check in TEXT_CHECKS {
        for end in [End::Broken, End::Interrupted] {
            let broken = Slow {
                bytes: &LEAST[..20],
                step: 1,
                end,
            };
            let found = line(&rt, check, rt.alloc(), broken);
            assert_eq!(rt; found.err(), Some(RunFault::Pair(PairFault::Read)));
        }
    }
    Ok(())
}

#[test]
fn a_slow_reader_changes_no_answer(rt: HostRuntime) -> Result<(), Fail> {
    for check in TEXT_CHECKS {
        let slow = Slow {
            bytes: LEAST,
            step: 1,
            end: End::Silent,
        };
        let found = line(&rt, check, rt.alloc(), slow)?;
        assert_eq!(rt; found.as_slice(), b"yes 0\n".as_slice());
    }
    Ok(())
}

#[test]
fn a_front_goes_out_before_the_writer_fails(rt: HostRuntime) -> Result<(), Fail> {
    for check in TEXT_CHECKS {
        for end in [End::Silent, End::Broken, End::Interrupted] {
            let mut sink = Sink::new(Narrow::new(3, end));
            let found = check.run(&rt, rt.alloc(), &mut Source::new(LEAST), &mut sink);
            assert_eq!(rt; found.err(), Some(RunFault::Write));
            assert_eq!(rt; sink.into_inner().taken(), b"yes".as_slice());
        }
    }
    Ok(())
}
