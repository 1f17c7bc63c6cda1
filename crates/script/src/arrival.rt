// What a trace says of one call.
ghost use Rattle.std.specs.Prelude.{◌≡◌, option_map};
ghost use Rattle.script.specs.Words.{words, result_map};
ghost use Rattle.script.specs.Arrival.{arrive_with, arrive_of, arrival_words, within_an_hour};
ghost use Rattle.script.specs.Arrival.{arrival_of, arrival_bytes};

use super::fault_kind::FaultKind;
use super::numbers::{next_number, read_lone_number};
use super::request::{read_outcome, read_wait};
use super::words::{is_word, next_word};
use limit_laws::HOUR;
use limiter_core::Outcome;

/// What a trace says of one call. A class is told by a `C`, as a line is read by its name; times
/// are in nanoseconds.
#[derive(Drop)]
pub enum ArrivalLine<C> {
    /// It comes at a moment, and holds its permit for so long, if it gets one.
    Arrive {
        class: C,
        at: u64,
        duration: u64,
        outcome: Outcome,
        wait: bool,
    },
    /// It goes past the limit.
    Bypass {
        at: u64,
    },
}

/// What follows the times of `arrive`: an outcome, and `wait` or nothing.
fn read_held<'a>(
    class: &'a [u8],
    at: u64,
    duration: u64,
    line: &[u8],
) -> Option<ArrivalLine<&'a [u8]>>
    ensures { option_map arrival_bytes result
        ≡ arrive_with class.now at duration (words line.now) }
{
    let (outcome, line) = next_word(line)?;
    let outcome = read_outcome(outcome)?;
    let wait = read_wait(line)?;
    Some(ArrivalLine::Arrive {
        class,
        at,
        duration,
        outcome,
        wait,
    })
}

/// What follows `arrive`.
fn read_arrive(line: &[u8]) -> Option<ArrivalLine<&[u8]>>
    ensures { option_map arrival_bytes result ≡ arrive_of (words line.now) }
{
    let (class, line) = next_word(line)?;
    let (at, line) = next_number(line)?;
    let (duration, line) = next_number(line)?;
    read_held(class, at, duration, line)
}

/// What a line says of a call by its first word and the rest, however long its permit is held.
fn read_words<'a>(first: &[u8], line: &'a [u8]) -> Option<ArrivalLine<&'a [u8]>>
    ensures { option_map arrival_bytes result ≡ arrival_words first.now (words line.now) }
{
    if is_word(first, "arrive") {
        read_arrive(line)
    } else if is_word(first, "bypass") {
        let at = read_lone_number(line)?;
        Some(ArrivalLine::Bypass { at })
    } else {
        None
    }
}

/// A call whose permit is held for an hour at most.
fn check_duration(arrival: ArrivalLine<&[u8]>) -> Result<ArrivalLine<&[u8]>, FaultKind>
    ensures { result_map arrival_bytes result ≡ within_an_hour (arrival_bytes arrival.entry) }
{
    match arrival {
        ArrivalLine::Arrive { duration, .. } if duration > HOUR => Err(FaultKind::Value),
        _ => Ok(arrival),
    }
}

/// What a line says of a call, by its first word and the rest; or the fault of its words or its
/// value.
pub(crate) fn read_arrival<'a>(
    first: &[u8],
    line: &'a [u8],
) -> Result<ArrivalLine<&'a [u8]>, FaultKind>
    ensures { result_map arrival_bytes result ≡ arrival_of first.now (words line.now) }
{
    check_duration(read_words(first, line).ok_or(FaultKind::Words)?)
}
