ghost use Rattle.std.specs.Prelude.{◌≡◌, ◌⊎◌, ℕ, List, [], ◌∷◌, codes, drop, map, string_bytes, false};
ghost use Rattle.std.specs.Prelude.{Some, None, IfSome, IfOk, IfErr, IsSomeAnd, MatchResult};
ghost use Rattle.clap.specs.Words.{Row, app_of, fault_of, first_of, kind_of, rule_of, subcommand_of, subcommand_rows_of, with_rule};
ghost use Rattle.clap.specs.declared.builder.Command.TheViews.{out-Command};
ghost use Rattle.gcflip.specs.CommandLine.{asked, file_of, IsFor, HasNumberInRange, IsPlainArgument, command_line, file_command, files_line, flip_rule, turns_rule};

use clap::error::ErrorKind;
use clap::{Arg, ArgMatches, Command, Error, value_parser};
use std::alloc::Global;

/// A task for the program.
#[derive(Clone, Copy, Debug, PartialEq, Eq)]
pub enum Task<'a> {
    /// Play the trace on standard input.
    PlayInput,
    /// Play the trace in this file.
    Play(&'a str),
    /// Check the pair of heaps in this file.
    Check(&'a str),
    /// Report the run of the trace in this file.
    Report(&'a str),
    /// Write the pair of the n-th flip of the trace in this file, counted from 1.
    Pair { file: &'a str, n: u32 },
    /// Run the scripts of the trace in this file in threads, together with `turns` useful steps, at most 1000000.
    Threads { file: &'a str, turns: u64 },
}

/// Returns a subcommand that reads a file.
fn on_file<'a>(alloc: Global, name: &'a str, about: &'a str) -> Result<Command<'a>, Error>
    ensures shape { IfOk result (λ c. app_of c ≡ file_command name.entry.now) }
    ensures local { IfOk result (λ c. (out-Command c).has_globals ≡ false) }
    ensures memory { IfErr result (λ e. kind_of e ≡ ErrorKind.OutOfMemory) }
{
    let file = Arg::new(alloc, "FILE")
        .required(true)
        .help("The path of the file to read");
    Ok(Command::new(alloc, name).about(about).arg(file)?)
}

/// Returns the argument N, the number of a flip, 1 or more.
fn flip_number<'a>(alloc: Global) -> Arg<'a>
    ensures rule { rule_of result ≡ flip_rule }
    ensures local { result.global ≡ false }
{
    Arg::new(alloc, "N")
        .required(true)
        .value_parser(value_parser!(u32).range(1..=4294967295))
        .help("Which flip, counted from 1")
}

/// Returns the argument TURNS, the number of collector steps.
fn turns<'a>(alloc: Global) -> Arg<'a>
    ensures rule { rule_of result ≡ turns_rule }
    ensures local { result.global ≡ false }
{
    Arg::new(alloc, "TURNS")
        .required(true)
        .value_parser(value_parser!(u64).range(0..=1000000))
        .help("How many steps the collector makes, 1000000 at most")
}

/// Returns a subcommand that reads a file and takes a number.
fn on_file_with<'a>(
    alloc: Global,
    name: &'a str,
    about: &'a str,
    number: Arg<'a>,
) -> Result<Command<'a>, Error>
    requires { number.global ≡ false }
    ensures shape { IfOk result (λ c. app_of c ≡ with_rule (file_command name.entry.now) (rule_of number.entry)) }
    ensures local { IfOk result (λ c. (out-Command c).has_globals ≡ false) }
    ensures memory { IfErr result (λ e. kind_of e ≡ ErrorKind.OutOfMemory) }
{
    Ok(on_file(alloc, name, about)?.arg(number)?)
}

/// Returns the definition of the command line with the subcommands that take nothing but a file.
fn files<'a>(alloc: Global) -> Result<Command<'a>, Error>
    ensures shape { IfOk result (λ c. app_of c ≡ files_line) }
    ensures memory { IfErr result (λ e. kind_of e ≡ ErrorKind.OutOfMemory) }
{
    let play = on_file(alloc, "play", "Plays a trace: writes a line for each reply")?;
    let with_play = Command::new(alloc, "gcflip")
        .about("gcflip 0.2.0: plays the trace on standard input, or does what a subcommand says")
        .subcommand(play)?;
    let check = on_file(
        alloc,
        "check",
        "Checks a pair of heaps: writes the line of the verdict",
    )?;
    let with_check = with_play.subcommand(check)?;
    let report = on_file(alloc, "report", "Plays a trace: writes a report of its run")?;
    Ok(with_check.subcommand(report)?)
}

/// Returns the definition of the program's command line.
fn command<'a>(alloc: Global) -> Result<Command<'a>, Error>
    ensures shape { IfOk result (λ c. app_of c ≡ command_line) }
    ensures memory { IfErr result (λ e. kind_of e ≡ ErrorKind.OutOfMemory) }
{
    let files = files(alloc)?;
    let pair = on_file_with(
        alloc,
        "pair",
        "Plays a trace: writes the pair of its N-th flip",
        flip_number(alloc),
    )?;
    let with_pair = files.subcommand(pair)?;
    let threads = on_file_with(
        alloc,
        "threads",
        "Runs a trace's mutators in threads, beside a collector: writes the trace of what happened",
        turns(alloc),
    )?;
    Ok(with_pair.subcommand(threads)?)
}

/// Returns the task of `pair FILE N`. Clap has checked the number's range; the check here proves it.
fn pair_task<'a>(matches: &ArgMatches<'_>, file: &'a str) -> Option<Task<'a>>
    ensures { IfSome result (λ task. IsFor (codes "pair") file.entry.now task × HasNumberInRange task) }
{
    let n = matches.get_one::<u32>("N")?;
    if n == 0 {
        return None;
    }
    Some(Task::Pair { file, n })
}

/// Returns the task of `threads FILE TURNS`.
fn threads_task<'a>(matches: &ArgMatches<'_>, file: &'a str) -> Option<Task<'a>>
    ensures { IfSome result (λ task. IsFor (codes "threads") file.entry.now task × HasNumberInRange task) }
{
    let turns = matches.get_one::<u64>("TURNS")?;
    if turns > 1000000 {
        return None;
    }
    Some(Task::Threads { file, turns })
}

/// Returns the task that the matches ask for, or `None` if the program has no such task.
fn found_task<'a>(matches: &ArgMatches<'a>) -> Option<Task<'a>>
    ensures input { subcommand_rows_of matches.now ≡ None → result ≡ Some Task.PlayInput }
    ensures play { (rows : List Row) (path : List ℕ)
        → subcommand_rows_of matches.now ≡ Some (codes "play", rows)
        → first_of (codes "FILE") rows ≡ Some path → IsSomeAnd result (IsFor (codes "play") path) }
    ensures check { (rows : List Row) (path : List ℕ)
        → subcommand_rows_of matches.now ≡ Some (codes "check", rows)
        → first_of (codes "FILE") rows ≡ Some path → IsSomeAnd result (IsFor (codes "check") path) }
    ensures report { (rows : List Row) (path : List ℕ)
        → subcommand_rows_of matches.now ≡ Some (codes "report", rows)
        → first_of (codes "FILE") rows ≡ Some path → IsSomeAnd result (IsFor (codes "report") path) }
    ensures asked { IfSome result (λ task. asked task ≡ file_of (subcommand_rows_of matches.now)) }
    ensures range { IfSome result HasNumberInRange }
{
    let Some((name, matches)) = matches.subcommand() else {
        return Some(Task::PlayInput);
    };
    let file = matches.get_str("FILE")?;
    match name {
        "play" => Some(Task::Play(file)),
        "check" => Some(Task::Check(file)),
        "report" => Some(Task::Report(file)),
        "pair" => pair_task(matches, file),
        "threads" => threads_task(matches, file),
        _ => None,
    }
}

/// Returns the task that the arguments ask for, or `clap`'s error, which may be a request for help.
pub fn task_of<'a>(alloc: Global, arguments: &'a [String]) -> Result<Task<'a>, Error>
    // The first argument is the program's own name.
    ensures input { drop 1 (map string_bytes arguments.now) ≡ [] →
        MatchResult result (λ task. task ≡ Task.PlayInput) (λ e. kind_of e ≡ ErrorKind.OutOfMemory) }
    ensures play { (path : List ℕ) → IsPlainArgument path
        → drop 1 (map string_bytes arguments.now) ≡ codes "play" ∷ path ∷ [] →
        MatchResult result (IsFor (codes "play") path) (λ e. kind_of e ≡ ErrorKind.OutOfMemory) }
    ensures check { (path : List ℕ) → IsPlainArgument path
        → drop 1 (map string_bytes arguments.now) ≡ codes "check" ∷ path ∷ [] →
        MatchResult result (IsFor (codes "check") path) (λ e. kind_of e ≡ ErrorKind.OutOfMemory) }
    ensures report { (path : List ℕ) → IsPlainArgument path
        → drop 1 (map string_bytes arguments.now) ≡ codes "report" ∷ path ∷ [] →
        MatchResult result (IsFor (codes "report") path) (λ e. kind_of e ≡ ErrorKind.OutOfMemory) }
    // The task is the one that clap's definitions find in the arguments.
    ensures asked { IfOk result (λ task. asked task ≡ file_of (subcommand_of command_line (map string_bytes arguments.now))) }
    ensures range { IfOk result HasNumberInRange }
    // Arguments in which clap finds an error, or a request for help, give no task.
    ensures faultless { IfOk result (λ _. fault_of command_line (map string_bytes arguments.now) ≡ []) }
{
    let mut command = command(alloc)?;
    let matches = command.try_get_matches_from_mut(arguments)?;
    match found_task(&matches) {
        Some(task) => Ok(task),
        None => Err(command.error(ErrorKind::InvalidSubcommand, "unrecognized subcommand")?),
    }
}

fn no_text(alloc: Global) -> Result<Error, Error>
    ensures text { IfOk result (λ e. kind_of e ≡ ErrorKind.InvalidValue) }
    ensures memory { IfErr result (λ e. kind_of e ≡ ErrorKind.OutOfMemory) }
{
    let message = "invalid UTF-8 was detected in one or more arguments";
    Ok(command(alloc)?.error(ErrorKind::InvalidValue, message)?)
}

/// Returns the error for arguments that are not UTF-8.
pub fn refusal_of_no_text(alloc: Global) -> Error
    ensures { (kind_of result ≡ ErrorKind.InvalidValue) ⊎ (kind_of result ≡ ErrorKind.OutOfMemory) }
{
    match no_text(alloc) {
        Ok(error) => error,
        Err(error) => error,
    }
}
