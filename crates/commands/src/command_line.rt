// The words of a command line.
ghost use Rattle.std.specs.Prelude.{◌≡◌, ◌⊎◌, map, codes, string_bytes, [], IfErr, IfOk, IfSome};
ghost use Rattle.std.specs.Prelude.{IsErr, IsNone, OnOk};
ghost use Rattle.clap.specs.Words.{HasKind, fault_of, found_of, rows_of, subcommand_of, subcommand_rows_of};
ghost use Rattle.commands.specs.CommandLine.{IsCommandOf, IsMistake, IsRunOf, KeepsRanges};
ghost use Rattle.commands.specs.CommandLine.{NamesBoth, NamesNoRun};
ghost use Rattle.commands.specs.CommandLine.{admission_app};
ghost use Rattle.commands.specs.Values.{is_set};
ghost use Rattle.commands.specs.declared.command_line.Run.{Run as RunValue};

use super::interface::command;
use super::mistakes::{Mistake, mistake_error, mistake_in};
use super::numbers::{number, optional_number};
use super::options::{option_row, read, read_by_row};
use super::serve_options::{ServeOptions, serve_options};
use clap::{ArgMatches, Error};
use std::alloc::Global;

/// What the words ask for: a command, with its path and its numbers.
#[derive(Clone, Copy)]
pub enum Run<'a> {
    /// A text on standard input is answered on standard output, and where `explain` is set, a line
    /// at fault is explained.
    Text {
        task: TextTask,
        explain: bool,
    },
    /// The calls of a trace on standard input are made by threads, and audited. `limit` is the
    /// fixed limit where the trace has no `limit` line, 1 to 10,000 permits; there are 1 to 64
    /// workers. Where `explain` is set, a line at fault is explained.
    Load {
        limit: u32,
        workers: u32,
        explain: bool,
    },
    /// The configuration in the file of this path is checked, and where `explain` is set explained.
    /// Where `exchanges` is given it has to fit into so many exchanges at once, 1 to 4,096.
    Check {
        path: &'a str,
        explain: bool,
        exchanges: Option<u32>,
    },
    /// Clients are served by the configuration in the file of the options.
    Serve(ServeOptions<'a>),
}

/// A command over a text.
#[derive(Clone, Copy)]
pub enum TextTask {
    /// A script is answered. `limit` is the fixed limit where it has no `limit` line: 1 to 10,000
    /// permits.
    Replay { limit: u32 },
    /// A trace is carried out in virtual time. `limit` is the fixed limit where it has no `limit`
    /// line: 1 to 10,000 permits.
    Simulate { limit: u32 },
}

/// Whether a flag is given.
pub(crate) fn is_set(matches: &ArgMatches<'_>, id: &str) -> bool
    ensures { result ≡ is_set id.now (rows_of (found_of matches.now)) }
{
    match matches.get_str(id) {
        Some(text) => text == "true",
        None => false,
    }
}

/// The run of `replay`.
fn replay_run<'a>(matches: &ArgMatches<'a>) -> Option<Run<'a>>
    ensures run { IfSome result (IsCommandOf (codes "replay") (rows_of (found_of matches.now))) }
    ensures none { IsNone result → (run : RunValue)
        → IsCommandOf (codes "replay") (rows_of (found_of matches.now)) run → ⊥ }
{
    let limit = read!(matches, Limit)?;
    let task = TextTask::Replay { limit };
    let explain = is_set(matches, "explain");
    Some(Run::Text { task, explain })
}

/// The run of `simulate`.
fn simulate_run<'a>(matches: &ArgMatches<'a>) -> Option<Run<'a>>
    ensures run { IfSome result (IsCommandOf (codes "simulate") (rows_of (found_of matches.now))) }
    ensures none { IsNone result → (run : RunValue)
        → IsCommandOf (codes "simulate") (rows_of (found_of matches.now)) run → ⊥ }
{
    let limit = read!(matches, Limit)?;
    let task = TextTask::Simulate { limit };
    let explain = is_set(matches, "explain");
    Some(Run::Text { task, explain })
}

/// The run of `load`.
fn load_run<'a>(matches: &ArgMatches<'a>) -> Option<Run<'a>>
    ensures run { IfSome result (IsCommandOf (codes "load") (rows_of (found_of matches.now))) }
    ensures none { IsNone result → (run : RunValue)
        → IsCommandOf (codes "load") (rows_of (found_of matches.now)) run → ⊥ }
{
    let limit = read!(matches, Limit)?;
    let workers = read!(matches, Workers)?;
    let explain = is_set(matches, "explain");
    Some(Run::Load {
        limit,
        workers,
        explain,
    })
}

/// The run of `check`.
fn check_run<'a>(matches: &ArgMatches<'a>) -> Option<Run<'a>>
    ensures run { IfSome result (IsCommandOf (codes "check") (rows_of (found_of matches.now))) }
    ensures none { IsNone result → (run : RunValue)
        → IsCommandOf (codes "check") (rows_of (found_of matches.now)) run → ⊥ }
{
    let path = matches.get_str("config")?;
    let explain = is_set(matches, "explain");
    let exchanges = read!(matches, Exchanges)?;
    Some(Run::Check {
        path,
        explain,
        exchanges,
    })
}

/// The run of `serve`.
fn serve_run<'a>(matches: &ArgMatches<'a>) -> Option<Run<'a>>
    ensures run { IfSome result (IsCommandOf (codes "serve") (rows_of (found_of matches.now))) }
    ensures none { IsNone result → (run : RunValue)
        → IsCommandOf (codes "serve") (rows_of (found_of matches.now)) run → ⊥ }
{
    let options = serve_options(matches)?;
    Some(Run::Serve(options))
}

/// The run of a subcommand.
fn run_of<'a>(name: &str, matches: &ArgMatches<'a>) -> Option<Run<'a>>
    ensures run { IfSome result (IsCommandOf name.now (rows_of (found_of matches.now))) }
    ensures none { IsNone result → (run : RunValue)
        → IsCommandOf name.now (rows_of (found_of matches.now)) run → ⊥ }
{
    if name == "replay" {
        replay_run(matches)
    } else if name == "simulate" {
        simulate_run(matches)
    } else if name == "load" {
        load_run(matches)
    } else if name == "check" {
        check_run(matches)
    } else if name == "serve" {
        serve_run(matches)
    } else {
        None
    }
}

/// The run of the subcommand that was met.
fn named_run<'a>(matches: &ArgMatches<'a>) -> Option<Run<'a>>
    ensures run { IfSome result (IsRunOf (subcommand_rows_of matches.now)) }
    ensures none { IsNone result → (run : RunValue)
        → IsRunOf (subcommand_rows_of matches.now) run → ⊥ }
{
    let (name, found) = matches.subcommand()?;
    run_of(name, found)
}

/// The run of the words, where the subcommand that they name has one; else their mistake.
fn run_among<'a>(alloc: Global, list: &'a [String]) -> Result<Result<Run<'a>, Mistake<'a>>, Error>
    ensures run { IfOk result (λ run.
        IfOk run (IsRunOf (subcommand_of admission_app (map string_bytes list.now)))) }
    ensures none { IfOk result (λ run. IsErr run
        → NamesNoRun (subcommand_of admission_app (map string_bytes list.now))) }
    ensures faultless { OnOk result (fault_of admission_app (map string_bytes list.now) ≡ []) }
    ensures refused { IfErr result (HasKind (fault_of admission_app (map string_bytes list.now))) }
{
    let matches = command(alloc)?.try_get_matches_from(list)?;
    match named_run(&matches) {
        Some(run) => Ok(Ok(run)),
        None => Ok(Err(mistake_in(&matches))),
    }
}

/// Reads the words, the program's name first.
///
/// An error is clap's: its text says which word is wrong, and its exit code is 2, or 0 where help
/// or the version was asked for. Out of memory is an error of the code 2 too.
pub fn parse_args<'a>(alloc: Global, list: &'a [String]) -> Result<Run<'a>, Error>
    ensures run { IfOk result (IsRunOf (subcommand_of admission_app (map string_bytes list.now))) }
    ensures faultless { OnOk result (fault_of admission_app (map string_bytes list.now) ≡ []) }
    ensures ranges { IfOk result KeepsRanges }

    // With both `--workers` and `--exchanges`, nothing is served.
    ensures once { NamesBoth (subcommand_of admission_app (map string_bytes list.now))
        → IsErr result }

    // An error is of a kind that the words are at fault by, or says out of memory; or the parser
    // took the words, they name no run, and it is that of a mistake.
    ensures refused { IfErr result (λ error.
        HasKind (fault_of admission_app (map string_bytes list.now)) error
        ⊎ (IsMistake error
        × NamesNoRun (subcommand_of admission_app (map string_bytes list.now)))) }
{
    match run_among(alloc, list)? {
        Ok(run) => Ok(run),
        Err(mistake) => Err(mistake_error(alloc, mistake)?),
    }
}
