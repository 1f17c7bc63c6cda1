// The words of `serve`.
ghost use Rattle.std.specs.Prelude.{◌≡◌, IfSome, IsNone};
ghost use Rattle.clap.specs.Words.{found_of, rows_of};
ghost use Rattle.commands.specs.Options.{log_lines as any_form};
ghost use Rattle.commands.specs.ServeOptions.{AreGiven, AreServeOptions, body_rate_of, gives_both};
ghost use Rattle.commands.specs.ServeOptions.{threads_of};
ghost use Rattle.commands.specs.Values.{HasLogLines, Lacks, is_given};

use super::addresses::{optional_address, optional_loopback};
use super::command_line::is_set;
use super::numbers::{number, optional_number};
use super::options::{option_row, read, read_by_row};
use clap::ArgMatches;
use clap::parser::ValueSource;
use std::net::SocketAddrV4;

/// The least rate of a body in bytes per second with `--exchanges`, if none is given.
const USUAL_BODY_RATE: u32 = 500;

/// How each line of the log begins.
#[derive(Clone, Copy)]
pub enum LogLines {
    /// With its level alone.
    Plain,
    /// With the time in UTC, as RFC 3339 has it.
    Time,
    /// With its priority, as sd-daemon(3) has it.
    Journal,
}

/// What a gateway is asked to do: the values of its options, each in the range of its row.
#[derive(Clone, Copy)]
pub struct ServeOptions<'a> {
    /// The path of its configuration.
    pub path: &'a str,
    /// How many workers serve clients where `exchanges` isn't given, each on a thread of its own.
    pub workers: u32,
    /// How many exchanges are served at once, 1 to 4,096, each on a thread of its own. Without it
    /// the workers serve.
    pub exchanges: Option<u32>,
    /// How many exchanges each worker carries out before it ends.
    pub per_worker: u32,
    /// How many milliseconds a client may take for its request, and again for its answer.
    pub client_timeout_ms: u32,
    /// For how many milliseconds a client whose head isn't whole may hold a worker where no other
    /// one is free. It isn't longer than the client's time.
    pub head_timeout_ms: u32,
    /// The least rate at which the body of a request has to arrive, in bytes per second, if it is
    /// given. 0 sets no rate.
    pub body_rate: Option<u32>,
    /// How many milliseconds the backend may take, from the connect to the end of its answer; as
    /// long as it likes without it.
    pub backend_timeout_ms: Option<u32>,
    /// How many seconds there are from one line of the report to the next; there is none without
    /// it.
    pub report_seconds: Option<u32>,
    /// Where an operator sees the state and changes it: a loopback address with a port from 1 up.
    /// There is none without it.
    pub admin: Option<SocketAddrV4>,
    /// Where anybody sees the state, and changes nothing: an address with a port from 1 up. There
    /// is none without it.
    pub status: Option<SocketAddrV4>,
    /// How each line of the log begins.
    pub log_lines: LogLines,
    /// Whether each of the gateway's own answers has the line `X-Admission` with its word.
    pub marks: bool,
    /// The id of the process with which it drains, if it is given: that one started this process,
    /// and once it has ended, another one is the parent.
    pub parent: Option<u32>,
}

impl ServeOptions<'_> {
    /// Returns how many threads serve clients: the exchanges at once, 1 to 4,096, where they are
    /// given, and otherwise the workers, 1 to 64.
    pub fn threads(&self) -> u32
        ensures { result ≡ threads_of self.now }
    {
        self.exchanges.unwrap_or(self.workers)
    }

    /// Returns the least rate at which the body of a request has to arrive, in bytes per second: if
    /// none is given 500 with a number of exchanges, and otherwise 0, which sets none.
    pub fn body_rate(&self) -> u32
        ensures { result ≡ body_rate_of self.now }
    {
        let usual = if self.exchanges.is_some() {
            USUAL_BODY_RATE
        } else {
            0
        };
        self.body_rate.unwrap_or(usual)
    }
}

/// Whether the words give an option: its value isn't the default.
fn is_given(matches: &ArgMatches<'_>, id: &str) -> bool
    ensures { result ≡ is_given id.now (rows_of (found_of matches.now)) }
{
    match matches.value_source(id) {
        Some(ValueSource::CommandLine) => true,
        Some(ValueSource::DefaultValue) => false,
        None => false,
    }
}

/// Whether the words give both options that say how many threads serve.
pub(crate) fn gives_both(matches: &ArgMatches<'_>) -> bool
    ensures { result ≡ gives_both (rows_of (found_of matches.now)) }
{
    is_given(matches, "workers") && is_given(matches, "exchanges")
}

/// How lines of the log are to begin.
pub(crate) fn log_lines(matches: &ArgMatches<'_>, id: &str) -> Option<LogLines>
    ensures value { IfSome result (HasLogLines (rows_of (found_of matches.now)) id.now) }
    ensures none { IsNone result → Lacks (rows_of (found_of matches.now)) id.now any_form }
{
    match matches.get_str(id)? {
        "plain" => Some(LogLines::Plain),
        "time" => Some(LogLines::Time),
        "journal" => Some(LogLines::Journal),
        _ => None,
    }
}

/// The options of `serve`, where each is in its range, and one alone says how many threads serve.
pub(crate) fn serve_options<'a>(matches: &ArgMatches<'a>) -> Option<ServeOptions<'a>>
    ensures value { IfSome result (AreServeOptions (rows_of (found_of matches.now))) }
    ensures none { IsNone result → AreGiven (rows_of (found_of matches.now)) → ⊥ }
{
    let path = matches.get_str("config")?;
    let workers = read!(matches, Workers)?;
    let exchanges = read!(matches, Exchanges)?;
    let per_worker = read!(matches, PerWorker)?;
    let client_timeout_ms = read!(matches, ClientTimeoutMs)?;
    let head_timeout_ms = read!(matches, HeadTimeoutMs)?;
    let body_rate = read!(matches, BodyRate)?;
    let backend_timeout_ms = read!(matches, BackendTimeoutMs)?;
    let report_seconds = read!(matches, ReportSeconds)?;
    let admin = read!(matches, Admin)?;
    let status = read!(matches, Status)?;
    let log_lines = read!(matches, LogLines)?;
    let marks = read!(matches, Mark);
    let parent = read!(matches, Parent)?;
    if gives_both(matches) {
        return None;
    }
    Some(ServeOptions {
        path,
        workers,
        exchanges,
        per_worker,
        client_timeout_ms,
        head_timeout_ms,
        body_rate,
        backend_timeout_ms,
        report_seconds,
        admin,
        status,
        log_lines,
        marks,
        parent,
    })
}
