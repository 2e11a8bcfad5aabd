use crate::commands::ThreadsRunFault;
use crate::faults::{Fault, write_fault};
use gc_cert::PairFault;
use gc_check::RunFault;
use gc_graph::Sink;
use gc_shared::{CloseKind, ThreadsFault};
use gc_trace::{PlayFault, TraceFault};
use std::alloc::Global;
use std::process::Abort;
use std::test::Fail;

/// A fault, its line, and its status.
type FaultRow = (Fault, &'static str, u8);

fn of_the_program() -> [FaultRow; 2] {
    [
        (Fault::Open, "cannot read\n", 4),
        (Fault::NoMemory, "no memory\n", 5),
    ]
}

/// Returns the faults of traces, which every command that reads a trace shares.
fn of_traces() -> [(TraceFault, &'static str, u8); 6] {
    [
        (TraceFault::Read, "cannot read\n", 4),
        (TraceFault::TooLarge, "trace: too large\n", 3),
        (TraceFault::BadHeader, "trace: bad header\n", 3),
        (TraceFault::BadLine(3), "trace: bad line 3\n", 3),
        (
            TraceFault::NoSuchMutator(u64::MAX),
            "trace: no such mutator at line 18446744073709551615\n",
            3,
        ),
        (TraceFault::NoMemory, "no memory\n", 5),
    ]
}

fn of_plays() -> [FaultRow; 3] {
    [
        (
            Fault::Play(PlayFault::NoSuchFlip),
            "trace: no such flip\n",
            3,
        ),
        (Fault::Play(PlayFault::NoMemory), "no memory\n", 5),
        (Fault::Play(PlayFault::Write), "cannot write\n", 4),
    ]
}

fn of_checks() -> [FaultRow; 7] {
    let pair = |fault| Fault::Check(RunFault::Pair(fault));
    [
        (pair(PairFault::Read), "cannot read\n", 4),
        (pair(PairFault::TooLarge), "pair: too large\n", 3),
        (
            pair(PairFault::BadLine(u64::MAX)),
            "pair: bad line 18446744073709551615\n",
            3,
        ),
        (pair(PairFault::EndsEarly), "pair: ends early\n", 3),
        (pair(PairFault::NoMemory), "no memory\n", 5),
        (Fault::Check(RunFault::NoMemory), "no memory\n", 5),
        (Fault::Check(RunFault::Write), "cannot write\n", 4),
    ]
}

fn of_threads() -> [FaultRow; 5] {
    let threads = |fault| Fault::Threads(ThreadsRunFault::Threads(fault));
    let gate = ThreadsFault::Gate {
        seat: u32::MAX,
        n: u64::MAX,
    };
    [
        (
            threads(ThreadsFault::NotStarted),
            "threads: not started\n",
            6,
        ),
        (
            threads(gate),
            "threads: gate at seat 4294967295 call 18446744073709551615\n",
            6,
        ),
        (threads(ThreadsFault::NoMemory), "no memory\n", 5),
        (Fault::Threads(ThreadsRunFault::NoMemory), "no memory\n", 5),
        (Fault::Threads(ThreadsRunFault::Write), "cannot write\n", 4),
    ]
}

fn of_closing() -> [FaultRow; 4] {
    let close = |kind| Fault::Threads(ThreadsRunFault::Threads(ThreadsFault::Close(kind)));
    let torn = CloseKind::Torn {
        seat: u8::MAX,
        n: usize::MAX,
    };
    [
        (close(CloseKind::Seats), "close: seats\n", 6),
        (
            close(torn),
            "close: torn seat 255 receipt 18446744073709551615\n",
            6,
        ),
        (close(CloseKind::Extra), "close: extra\n", 6),
        (close(CloseKind::NoMemory), "no memory\n", 5),
    ]
}

fn has_its_line_and_status(rt: &impl Abort, alloc: Global, told: &FaultRow) -> Result<(), Fail> {
    let (fault, line, status) = told;
    let mut sink = Sink::new(Vec::new(alloc));
    assert_eq!(rt; write_fault(&mut sink, fault), *status, "of {fault:?}");
    let written = sink.into_inner();
    assert_eq!(rt; written.as_slice(), line.as_bytes(), "of {fault:?}");
    let displayed = format!(in alloc; "{fault}\n")?;
    assert_eq!(rt; displayed.as_str(), *line, "of {fault:?}");
    Ok(())
}

/// Tests that the status is returned even if the line cannot be written.
fn keeps_its_status_without_room(rt: &impl Abort, told: &FaultRow) {
    let (fault, line, status) = told;
    let mut room = [0u8; 5];
    let mut sink = Sink::new(room.as_mut_slice());
    assert_eq!(rt; write_fault(&mut sink, fault), *status, "of {fault:?}");
    assert!(rt; sink.failed(), "of {fault:?}");
    assert!(rt; line.as_bytes().starts_with(&room), "of {fault:?}");
}

fn are_told(rt: &impl Abort, alloc: Global, faults: &[FaultRow]) -> Result<(), Fail> {
    for told in faults {
        has_its_line_and_status(rt, alloc, told)?;
        keeps_its_status_without_room(rt, told);
    }
    Ok(())
}

#[test]
fn faults_of_the_program_are_told(rt: HostRuntime) -> Result<(), Fail> {
    are_told(&rt, rt.alloc(), &of_the_program())
}

#[test]
fn faults_of_traces_are_told(rt: HostRuntime) -> Result<(), Fail> {
    for (fault, line, status) in of_traces() {
        let played = Fault::Play(PlayFault::Trace(fault));
        let in_threads = Fault::Threads(ThreadsRunFault::Trace(fault));
        are_told(
            &rt,
            rt.alloc(),
            &[(played, line, status), (in_threads, line, status)],
        )?;
    }
    Ok(())
}

#[test]
fn faults_of_plays_are_told(rt: HostRuntime) -> Result<(), Fail> {
    are_told(&rt, rt.alloc(), &of_plays())
}

#[test]
fn faults_of_checks_are_told(rt: HostRuntime) -> Result<(), Fail> {
    are_told(&rt, rt.alloc(), &of_checks())
}

#[test]
fn faults_of_threads_are_told(rt: HostRuntime) -> Result<(), Fail> {
    are_told(&rt, rt.alloc(), &of_threads())?;
    are_told(&rt, rt.alloc(), &of_closing())
}
