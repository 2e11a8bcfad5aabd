ghost use Rattle.std.specs.Prelude.{◌≡◌};
ghost use Rattle.gcflip.specs.Statuses.{trace_fault_status, play_fault_status, run_fault_status, threads_run_fault_status};

use crate::commands::ThreadsRunFault;
use gc_cert::PairFault;
use gc_check::RunFault;
use gc_shared::{CloseKind, ThreadsFault};
use gc_trace::{PlayFault, TraceFault};

fn trace_status(fault: &TraceFault) -> u8
    ensures { result ≡ trace_fault_status fault.now }
{
    match fault {
        TraceFault::TooLarge
        | TraceFault::BadHeader
        | TraceFault::BadLine(_)
        | TraceFault::NoSuchMutator(_) => 3,
        TraceFault::Read => 4,
        TraceFault::NoMemory => 5,
    }
}

pub fn play_status(fault: &PlayFault) -> u8
    ensures { result ≡ play_fault_status fault.now }
{
    match fault {
        PlayFault::Trace(fault) => trace_status(fault),
        PlayFault::NoSuchFlip => 3,
        PlayFault::Write => 4,
        PlayFault::NoMemory => 5,
    }
}

pub fn run_status(fault: &RunFault) -> u8
    ensures { result ≡ run_fault_status fault.now }
{
    match fault {
        RunFault::Pair(PairFault::TooLarge)
        | RunFault::Pair(PairFault::BadLine(_))
        | RunFault::Pair(PairFault::EndsEarly) => 3,
        RunFault::Pair(PairFault::Read) | RunFault::Write => 4,
        RunFault::Pair(PairFault::NoMemory) | RunFault::NoMemory => 5,
    }
}

pub fn threads_run_status(fault: &ThreadsRunFault) -> u8
    ensures { result ≡ threads_run_fault_status fault.now }
{
    match fault {
        ThreadsRunFault::Trace(fault) => trace_status(fault),
        ThreadsRunFault::Write => 4,
        ThreadsRunFault::NoMemory
        | ThreadsRunFault::Threads(ThreadsFault::NoMemory)
        | ThreadsRunFault::Threads(ThreadsFault::Close(CloseKind::NoMemory)) => 5,
        ThreadsRunFault::Threads(ThreadsFault::NotStarted)
        | ThreadsRunFault::Threads(ThreadsFault::Gate { .. })
        | ThreadsRunFault::Threads(ThreadsFault::Close(CloseKind::Seats))
        | ThreadsRunFault::Threads(ThreadsFault::Close(CloseKind::Torn { .. }))
        | ThreadsRunFault::Threads(ThreadsFault::Close(CloseKind::Extra)) => 6,
    }
}
