ghost use Rattle.std.specs.Prelude.{◌≡◌, ◌≢◌, ◌⊎◌, Contains, IfOk, IfErr};
ghost use Rattle.clap.specs.Values.{kind_of};
ghost use Rattle.gcflip.specs.CommandLine.{HasNumberInRange};
ghost use Rattle.gcflip.specs.Statuses.{status_of};
ghost use Rattle.gcflip.specs.Internal.Outcomes.{IsTaskFault, IsOfOpening, IsStatusOf};
ghost use Rattle.gcflip.specs.Statuses.{statuses};

use crate::commands::{check_from, pair_from, play_from, report_from, threads_from};
use crate::faults::{Fault, write_fault};
use crate::task::{Task, refusal_of_no_text, task_of};
use clap::Error;
use clap::error::ErrorKind;
use gc_graph::{Sink, Source};
use gc_trace::PlayFault;
use std::alloc::AllocError;
use std::env::Env;
use std::rt::Files;
use std::sync::Wait;
use std::thread::Threads;
use std::{env, fs, io};

fn open<R: Files>(rt: &R, path: &str) -> Result<R::File, Fault>
    ensures { IfErr result IsOfOpening }
{
    match fs::open(rt, path) {
        Ok(file) => Ok(file),
        Err(error) if error.kind() == io::ErrorKind::OutOfMemory => Err(Fault::NoMemory),
        Err(_) => Err(Fault::Open),
    }
}

/// Performs the task, and returns its exit status.
fn perform<R: Files + Input + Print + AllocGlobal + Threads + Wait + Sync>(
    rt: &R,
    task: Task<'_>,
) -> Result<u8, Fault>
    requires { HasNumberInRange task }
    ensures done { IfOk result (IsStatusOf task.entry) }
    ensures failed { IfErr result (IsTaskFault task.entry) }
{
    let alloc = rt.alloc();
    // Each command buffers its own output.
    let mut sink = Sink::new(io::writer(rt));
    match task {
        Task::PlayInput => play_from(alloc, &mut Source::new(rt.reader()), &mut sink),
        Task::Play(path) => play_from(alloc, &mut Source::new(open(rt, path)?), &mut sink),
        Task::Check(path) => check_from(rt, alloc, &mut Source::new(open(rt, path)?), &mut sink),
        Task::Report(path) => report_from(alloc, &mut Source::new(open(rt, path)?), &mut sink),
        Task::Pair { file, n } => pair_from(alloc, n, &mut Source::new(open(rt, file)?), &mut sink),
        Task::Threads { file, turns } => {
            threads_from(
                rt,
                alloc,
                turns,
                &mut Source::new(open(rt, file)?),
                &mut sink,
            )
        }
    }
}

/// Returns the arguments of the command line.
fn arguments<R: Env + AllocGlobal>(rt: &R) -> Result<Vec<String>, Error>
    ensures { IfErr result (λ e. (kind_of e ≡ ErrorKind.InvalidValue) ⊎ (kind_of e ≡ ErrorKind.OutOfMemory)) }
{
    match env::args(rt) {
        Ok(arguments) => Ok(arguments.collect(rt.alloc())?),
        Err(error) if error.kind() == io::ErrorKind::OutOfMemory => Err(Error::from(AllocError)),
        Err(_) => Err(refusal_of_no_text(rt.alloc())),
    }
}

/// Writes the fault's line to standard error, and returns its status.
#[tactic(auto, using(crate::proofs::Statuses::fault_has_status))]
fn tell<E: Print>(errors: &E, fault: &Fault) -> u8
    ensures status { result ≡ status_of fault.now }
    ensures listed { Contains statuses result }
{
    write_fault(&mut Sink::new(io::writer(errors)), fault)
}

/// Returns the exit status of a task's outcome. If it is a fault, writes the fault's line.
fn finish<E: Print>(errors: &E, outcome: Result<u8, Fault>) -> u8
    ensures done { IfOk outcome (λ status. result ≡ status) }
    ensures failed { IfErr outcome (λ fault. result ≡ status_of fault) }
{
    match outcome {
        Ok(status) => status,
        Err(fault) => tell(errors, &fault),
    }
}

/// Prints `clap`'s text for arguments that ask for no task, which is an error message or help. Returns the exit status.
#[tactic(auto, using(crate::proofs::Statuses::done_is_status, crate::proofs::Statuses::mistake_is_status))]
fn refuse<R: Print + Eprint, E: Print>(rt: &R, errors: &E, error: &Error) -> u8
    ensures memory { kind_of error.now ≡ ErrorKind.OutOfMemory → result ≡ 5 }
    ensures shown { (kind_of error.now ≡ ErrorKind.DisplayHelp)
        ⊎ (kind_of error.now ≡ ErrorKind.DisplayVersion) → (result ≡ 0) ⊎ (result ≡ 4) }
    ensures mistake { kind_of error.now ≢ ErrorKind.OutOfMemory → kind_of error.now ≢ ErrorKind.DisplayHelp
        → kind_of error.now ≢ ErrorKind.DisplayVersion → result ≡ 2 }
    ensures listed { Contains statuses result }
{
    if error.kind() == ErrorKind::OutOfMemory {
        return tell(errors, &Fault::NoMemory);
    }
    let printed = error.print(rt);
    if error.use_stderr() {
        2
    } else if printed.is_err() {
        // Help that cannot be written has the same status as any other failed write.
        tell(errors, &Fault::Play(PlayFault::Write))
    } else {
        0
    }
}

/// Does what the command line asks for, and returns the exit status. `errors` prints to standard error, because `R` has
/// no writer for it.
#[tactic(auto, using(crate::proofs::Statuses::outcome_has_status))]
pub fn run<R: Files + Env + Input + Print + Eprint + AllocGlobal + Threads + Wait + Sync, E: Print>(
    rt: &R,
    errors: &E,
) -> u8
    ensures { Contains statuses result }
{
    let arguments = match arguments(rt) {
        Ok(arguments) => arguments,
        Err(error) => return refuse(rt, errors, &error),
    };
    let task = match task_of(rt.alloc(), &arguments) {
        Ok(task) => task,
        Err(error) => return refuse(rt, errors, &error),
    };
    finish(errors, perform(rt, task))
}
