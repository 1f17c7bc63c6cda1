// Mistakes in words that the parser lets pass.
ghost use Rattle.std.specs.Prelude.{◌≡◌, IfOk};
ghost use Rattle.clap.specs.Words.{kind_of};
ghost use Rattle.commands.specs.CommandLine.{IsMistake};

use super::addresses::{optional_address, optional_loopback};
use super::interface::{command, serve_command};
use super::rows::{OptionRow, SERVE_ROWS, Takes};
use super::serve_options::{gives_both, log_lines};
use clap::error::ErrorKind;
use clap::{ArgMatches, Error};
use std::alloc::{AllocError, Global};

/// Why words name no run.
pub(crate) enum Mistake<'a> {
    /// The text isn't a value of this option of `serve`.
    Value { text: &'a str, row: OptionRow },
    /// `serve` is given both options that say how many threads serve.
    Both,
    /// No command is named.
    NoCommand,
}

/// The text of an option, where it isn't a value of it.
fn wrong_text<'a>(matches: &ArgMatches<'a>, row: &OptionRow) -> Option<&'a str> {
    let text = matches.get_str(row.word)?;
    let is_wrong = match row.takes {
        Takes::Number { .. } => false,
        Takes::Address => optional_address(matches, row.word).is_none(),
        Takes::Loopback => optional_loopback(matches, row.word).is_none(),
        Takes::LogLines => log_lines(matches, row.word).is_none(),
        Takes::Flag => false,
    };
    if is_wrong { Some(text) } else { None }
}

/// The mistake in words that name no run. Of several it is the first value that is wrong, in the
/// order of the help.
pub(crate) fn mistake_in<'a>(matches: &ArgMatches<'a>) -> Mistake<'a> {
    let Some((_, found)) = matches.subcommand() else {
        return Mistake::NoCommand;
    };
    for row in &SERVE_ROWS {
        if let Some(text) = wrong_text(found, row) {
            return Mistake::Value { text, row: *row };
        }
    }
    if gives_both(found) {
        Mistake::Both
    } else {
        Mistake::NoCommand
    }
}

/// The error of a mistake: a value that isn't what its option wants, two options that exclude each
/// other, or no command.
pub(crate) fn mistake_error(alloc: Global, mistake: Mistake<'_>) -> Result<Error, AllocError>
    ensures { IfOk result IsMistake }
{
    match mistake {
        Mistake::Value { text, row } => {
            let fault = format!(in alloc;
                "invalid value '{}' for '--{} <{}>': {}",
                text,
                row.word,
                row.value_name,
                row.takes.wanted()
            )?;
            serve_error(alloc, ErrorKind::ValueValidation, fault.as_str())
        }
        Mistake::Both => serve_error(
            alloc,
            ErrorKind::ArgumentConflict,
            "the argument '--workers <W>' cannot be used with '--exchanges <N>'",
        ),
        Mistake::NoCommand => {
            command(alloc)?.error(ErrorKind::MissingSubcommand, "no command is named")
        }
    }
}

/// An error of the words of `serve`, with its usage behind the text.
fn serve_error(alloc: Global, kind: ErrorKind, text: &str) -> Result<Error, AllocError>
    ensures { IfOk result (λ error. kind_of error ≡ kind) }
{
    serve_command(alloc)?
        .bin_name("admission serve")?
        .error(kind, text)
}
