//! The lines that `check_text` and `check_text_par` write, and the faults that they name.

use super::rows::{RAW_ROWS, ROWS, text_of};
use gc_cert::PairFault;
use gc_check::{RunFault, Verdict, check_text};
use gc_graph::{Sink, Source};
use gc_par::check_text_par;
use std::alloc::Global;
use std::io::{Read, Write};
use std::test::Fail;
use std::thread::Threads;

/// A checker of texts.
#[derive(Clone, Copy, Debug)]
pub(super) enum TextCheck {
    Sequential,
    Parallel,
}

pub(super) const TEXT_CHECKS: [TextCheck; 2] = [TextCheck::Sequential, TextCheck::Parallel];

impl TextCheck {
    pub(super) fn run<R: Read, W: Write>(
        self,
        rt: &(impl Threads + Sync),
        alloc: Global,
        source: &mut Source<R>,
        sink: &mut Sink<W>,
    ) -> Result<Verdict, RunFault> {
        match self {
            TextCheck::Sequential => check_text(alloc, source, sink),
            TextCheck::Parallel => check_text_par(rt, alloc, source, sink),
        }
    }
}

/// Returns the bytes that the check writes for this text.
pub(super) fn line<R: Read + Drop>(
    rt: &(impl Threads + Sync),
    check: TextCheck,
    alloc: Global,
    reader: R,
) -> Result<Vec<u8>, RunFault> {
    let mut sink = Sink::new(Vec::new(alloc));
    check.run(rt, alloc, &mut Source::new(reader), &mut sink)?;
    Ok(sink.into_inner())
}

#[test]
fn texts_get_their_lines(rt: HostRuntime) -> Result<(), Fail> {
    for (lines, answer) in ROWS {
        let text = text_of(rt.alloc(), 1, lines)?;
        for check in TEXT_CHECKS {
            let found = line(&rt, check, rt.alloc(), text.as_bytes())?;
            assert_eq!(rt; found.as_slice(), answer.as_bytes(), "of {lines}");
        }
    }
    Ok(())
}

#[test]
fn texts_with_raw_objects_get_their_lines(rt: HostRuntime) -> Result<(), Fail> {
    for (version, lines, answer) in RAW_ROWS {
        let text = text_of(rt.alloc(), version, lines)?;
        for check in TEXT_CHECKS {
            let found = line(&rt, check, rt.alloc(), text.as_bytes())?;
            assert_eq!(rt; found.as_slice(), answer.as_bytes(), "of {version} {lines}");
        }
    }
    Ok(())
}

/// The smallest text: two images without objects.
pub(super) const LEAST: &[u8] =
    b"heappair 1\nold 1 1\n0\nroots 1\n0\nnew 1 1\n0\nroots 1\n0\npairs 0\nend\n";

#[test]
fn bad_texts_are_named(rt: HostRuntime) -> Result<(), Fail> {
    let alloc = rt.alloc();
    let mut behind = Vec::from_slice(alloc, LEAST)?;
    behind.extend_from_slice(b"x\n")?;
    for check in TEXT_CHECKS {
        for len in 0..LEAST.len() {
            let early = RunFault::Pair(PairFault::EndsEarly);
            let found = line(&rt, check, alloc, &LEAST[..len]);
            assert_eq!(rt; found.err(), Some(early), "of {len} bytes");
        }
        let bad = RunFault::Pair(PairFault::BadLine(12));
        let found = line(&rt, check, alloc, behind.as_slice());
        assert_eq!(rt; found.err(), Some(bad));
    }
    Ok(())
}
