// The commands, and the words that each takes.
ghost use Rattle.std.specs.Prelude.{◌≡◌, false, Ok, IfOk};
ghost use Rattle.clap.specs.Words.{App, Rule, app_of, new_app, rule_of, with_rule, with_subcommand};
ghost use Rattle.commands.specs.CommandLine.{IsWithoutGlobals, admission_app, check_app, limited_app};
ghost use Rattle.commands.specs.CommandLine.{load_app, offline_app, replay_app, serve_app, simulate_app};
ghost use Rattle.commands.specs.CommandLine.{text_app};
ghost use Rattle.commands.specs.Rows.{with_rows};
ghost use Rattle.commands.specs.Rules.{config_rule, explain_rule, limit_rule};

use super::help::{
    ABOUT, CHECK_ABOUT, CHECK_HELP, LOAD_ABOUT, LOAD_HELP, REPLAY_ABOUT, REPLAY_HELP, SERVE_ABOUT,
    SERVE_HELP, SIMULATE_ABOUT, SIMULATE_HELP,
};
use super::rows::{CHECKED_EXCHANGES, LIMIT, OptionRow, SERVE_ROWS, WORKERS};
use clap::{Arg, ArgAction, Command};
use release::version;
use std::alloc::{AllocError, Global};

/// `--explain`.
fn explain_flag<'a>(alloc: Global, help: &'a str) -> Arg<'a>
    ensures rule { rule_of result ≡ explain_rule }
    ensures local { result.global ≡ false }
{
    Arg::new(alloc, "explain")
        .long("explain")
        .help(help)
        .action(ArgAction::SetTrue)
}

/// `CONFIG`.
fn config_argument<'a>(alloc: Global) -> Arg<'a>
    ensures rule { rule_of result ≡ config_rule }
    ensures local { result.global ≡ false }
{
    Arg::new(alloc, "config")
        .value_name("CONFIG")
        .help("The file of the configuration; - reads standard input")
        .required(true)
}

/// A command of this name, with its texts in help.
fn described<'a>(alloc: Global, name: &'a str, about: &'a str, help: &'a str) -> Command<'a>
    ensures { IsWithoutGlobals (new_app name.now) result }
{
    Command::new(alloc, name).about(about).after_help(help)
}

/// A command of this name, whose text is in its long help alone: `-h` lists what it takes.
fn described_at_length<'a>(
    alloc: Global,
    name: &'a str,
    about: &'a str,
    help: &'a str,
) -> Command<'a>
    ensures { IsWithoutGlobals (new_app name.now) result }
{
    Command::new(alloc, name).about(about).after_long_help(help)
}

/// A command of this name that takes `--limit N`.
fn limited_alone<'a>(
    alloc: Global,
    name: &'a str,
    about: &'a str,
    help: &'a str,
) -> Result<Command<'a>, AllocError>
    ensures { IfOk result (IsWithoutGlobals (with_rule (new_app name.now) limit_rule)) }
{
    described(alloc, name, about, help).arg(LIMIT.argument(alloc))
}

/// A command of this name that takes `--limit N` and `--explain`.
fn limited<'a>(
    alloc: Global,
    name: &'a str,
    about: &'a str,
    help: &'a str,
) -> Result<Command<'a>, AllocError>
    ensures { IfOk result (IsWithoutGlobals (limited_app name.now)) }
{
    let says = "Says more after a line's fault: which word is wrong, and what is wanted there";
    let limited = limited_alone(alloc, name, about, help);
    with_argument(limited, explain_flag(alloc, says))
}

/// A command that takes nothing so far, and now takes `CONFIG`.
fn configured<'a>(alloc: Global, command: Command<'a>) -> Result<Command<'a>, AllocError>
    ensures { (app : App) → IsWithoutGlobals app command.entry
        → IfOk result (IsWithoutGlobals (with_rule app config_rule)) }
{
    command.arg(config_argument(alloc))
}

/// Two values, where both were made: what they are made of isn't told apart here.
fn both<A: Drop, B: Drop>(
    one: Result<A, AllocError>,
    other: Result<B, AllocError>,
) -> Result<(A, B), AllocError>
    ensures one { IfOk result (λ made. one ≡ Ok made.0) }
    ensures other { IfOk result (λ made. other ≡ Ok made.1) }
{
    Ok((one?, other?))
}

/// The command, where it was made, with one more argument.
fn with_argument<'a>(
    command: Result<Command<'a>, AllocError>,
    argument: Arg<'a>,
) -> Result<Command<'a>, AllocError>
    ensures { (app : App) (rule : Rule) → IfOk command.entry (IsWithoutGlobals app)
        → rule_of argument.entry ≡ rule → argument.entry.global ≡ false
        → IfOk result (IsWithoutGlobals (with_rule app rule)) }
{
    let (command, argument) = both(command, Ok(argument))?;
    command.arg(argument)
}

/// `replay [--limit N] [--explain]`.
fn replay_command<'a>(alloc: Global) -> Result<Command<'a>, AllocError>
    ensures { IfOk result (IsWithoutGlobals replay_app) }
{
    limited(alloc, "replay", REPLAY_ABOUT, REPLAY_HELP)
}

/// `simulate [--limit N] [--explain]`.
fn simulate_command<'a>(alloc: Global) -> Result<Command<'a>, AllocError>
    ensures { IfOk result (IsWithoutGlobals simulate_app) }
{
    limited(alloc, "simulate", SIMULATE_ABOUT, SIMULATE_HELP)
}

/// `load [--limit N] [--explain] [--workers W]`.
fn load_command<'a>(alloc: Global) -> Result<Command<'a>, AllocError>
    ensures { IfOk result (IsWithoutGlobals load_app) }
{
    let load = limited(alloc, "load", LOAD_ABOUT, LOAD_HELP);
    with_argument(load, WORKERS.argument(alloc))
}

/// `check CONFIG [--explain] [--exchanges N]`.
fn check_command<'a>(alloc: Global) -> Result<Command<'a>, AllocError>
    ensures { IfOk result (IsWithoutGlobals check_app) }
{
    let check = configured(alloc, described(alloc, "check", CHECK_ABOUT, CHECK_HELP));
    let help = "Says more before: where the first fault is, and what is wanted there";
    let check = with_argument(check, explain_flag(alloc, help));
    with_argument(check, CHECKED_EXCHANGES.argument(alloc))
}

/// The command, where it was made, with the options of these rows, one behind the other: the text
/// of its long help explains them.
fn with_rows<'a>(
    alloc: Global,
    mut command: Result<Command<'a>, AllocError>,
    rows: &[OptionRow],
) -> Result<Command<'a>, AllocError>
    ensures { (app : App) → IfOk command.entry (IsWithoutGlobals app)
        → IfOk result (IsWithoutGlobals (with_rows app rows.now)) }
{
    for row in rows {
        command = with_argument(command, row.summary(alloc));
    }
    command
}

/// `serve CONFIG`, with the options of its rows.
pub(crate) fn serve_command<'a>(alloc: Global) -> Result<Command<'a>, AllocError>
    ensures { IfOk result (IsWithoutGlobals serve_app) }
{
    let described = described_at_length(alloc, "serve", SERVE_ABOUT, SERVE_HELP);
    let serve = configured(alloc, described);
    with_rows(alloc, serve, &SERVE_ROWS)
}

/// The command, with a subcommand, where both were made.
fn with_leaf<'a>(
    whole: Result<Command<'a>, AllocError>,
    leaf: Result<Command<'a>, AllocError>,
) -> Result<Command<'a>, AllocError>
    ensures { (outer : App) (inner : App) → IfOk whole.entry (λ command. app_of command ≡ outer)
        → IfOk leaf.entry (IsWithoutGlobals inner)
        → IfOk result (λ larger. app_of larger ≡ with_subcommand outer inner.top) }
{
    let (whole, leaf) = both(whole, leaf)?;
    whole.subcommand(leaf)
}

/// The command, with its subcommands over texts.
fn text_command<'a>(alloc: Global) -> Result<Command<'a>, AllocError>
    ensures { IfOk result (λ whole. app_of whole ≡ text_app) }
{
    let whole = Command::new(alloc, "admission")
        .about(ABOUT)
        .version(version())
        .subcommand_required(true);
    let whole = with_leaf(Ok(whole), replay_command(alloc));
    with_leaf(whole, simulate_command(alloc))
}

/// The command, with the subcommands that serve nobody.
fn offline_command<'a>(alloc: Global) -> Result<Command<'a>, AllocError>
    ensures { IfOk result (λ whole. app_of whole ≡ offline_app) }
{
    let whole = with_leaf(text_command(alloc), load_command(alloc));
    with_leaf(whole, check_command(alloc))
}

/// The whole command.
pub(crate) fn command<'a>(alloc: Global) -> Result<Command<'a>, AllocError>
    ensures { IfOk result (λ whole. app_of whole ≡ admission_app) }
{
    with_leaf(offline_command(alloc), serve_command(alloc))
}
