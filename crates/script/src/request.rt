// What lines ask of a limiter.
ghost use Rattle.std.specs.Prelude.{◌≡◌, option_map};
ghost use Rattle.script.specs.Words.{words, result_map};
ghost use Rattle.script.specs.Request.{outcome_of, wait_of, acquire_of, end_of, look_of};
ghost use Rattle.script.specs.Request.{set_of, short_of, request_of, request_bytes};

use super::fault_kind::FaultKind;
use super::numbers::{next_number, read_lone_number, read_number_pair};
use super::words::{is_word, next_word};
use limiter_core::Outcome;

/// What is asked of a limiter. A class is told by a `C`, as a line is read by its name; moments are
/// in nanoseconds.
#[derive(Drop)]
pub enum Request<C> {
    /// A permit, at once or after waiting for it.
    Acquire {
        class: C,
        wait: bool,
        now: u64,
    },
    /// The way past the limit.
    Bypass {
        now: u64,
    },
    /// The end of the permit with this number, where one is open.
    End {
        number: u64,
        outcome: Outcome,
        now: u64,
    },
    /// The permit of the waiter with this number.
    Claim {
        number: u64,
    },
    /// The end of this number's waiting.
    GiveUp {
        number: u64,
    },
    /// Another limit, in permits.
    SetLimit {
        n: u32,
        now: u64,
    },
    /// The algorithm's first state.
    Reset {
        now: u64,
    },
    /// A look at the state.
    Look {
        class: C,
    },
}

/// Whether the rest of a line says `wait`; nothing where it says anything else.
pub(crate) fn read_wait(line: &[u8]) -> Option<bool>
    ensures { result ≡ wait_of (words line.now) }
{
    let Some((word, line)) = next_word(line) else {
        return Some(false);
    };
    if next_word(line).is_some() || !is_word(word, "wait") {
        return None;
    }
    Some(true)
}

/// What follows `acquire`.
fn read_acquire(line: &[u8]) -> Option<Request<&[u8]>>
    ensures { option_map request_bytes result ≡ acquire_of (words line.now) }
{
    let (class, line) = next_word(line)?;
    let (now, line) = next_number(line)?;
    let wait = read_wait(line)?;
    Some(Request::Acquire { class, wait, now })
}

/// The outcome that a word names.
pub(crate) fn read_outcome(word: &[u8]) -> Option<Outcome>
    ensures { result ≡ outcome_of word.now }
{
    if is_word(word, "success") {
        Some(Outcome::Success)
    } else if is_word(word, "ignored") {
        Some(Outcome::Ignored)
    } else if is_word(word, "dropped") {
        Some(Outcome::Dropped)
    } else {
        None
    }
}

/// What follows `end`.
fn read_end(line: &[u8]) -> Option<Request<&[u8]>>
    ensures { option_map request_bytes result ≡ end_of (words line.now) }
{
    let (number, line) = next_number(line)?;
    let (outcome, line) = next_word(line)?;
    let outcome = read_outcome(outcome)?;
    let now = read_lone_number(line)?;
    Some(Request::End {
        number,
        outcome,
        now,
    })
}

/// What follows `look`.
fn read_look(line: &[u8]) -> Option<Request<&[u8]>>
    ensures { option_map request_bytes result ≡ look_of (words line.now) }
{
    let (class, line) = next_word(line)?;
    if next_word(line).is_some() {
        return None;
    }
    Some(Request::Look { class })
}

/// What follows `set`.
fn read_set(line: &[u8]) -> Result<Request<&[u8]>, FaultKind>
    ensures { result_map request_bytes result ≡ set_of (words line.now) }
{
    let (limit, now) = read_number_pair(line).ok_or(FaultKind::Words)?;
    let Ok(n) = u32::try_from(limit) else {
        return Err(FaultKind::Value);
    };
    Ok(Request::SetLimit { n, now })
}

/// What a line of one number asks, by its first word and the rest.
fn read_short<'a>(first: &[u8], line: &'a [u8]) -> Option<Request<&'a [u8]>>
    ensures { option_map request_bytes result ≡ short_of first.now (words line.now) }
{
    let number = read_lone_number(line)?;
    if is_word(first, "bypass") {
        Some(Request::Bypass { now: number })
    } else if is_word(first, "claim") {
        Some(Request::Claim { number })
    } else if is_word(first, "giveup") {
        Some(Request::GiveUp { number })
    } else if is_word(first, "reset") {
        Some(Request::Reset { now: number })
    } else {
        None
    }
}

/// What a line asks, by its first word and the rest; or the fault of its words or its value.
pub(crate) fn read_request<'a>(first: &[u8], line: &'a [u8]) -> Result<Request<&'a [u8]>, FaultKind>
    ensures { result_map request_bytes result ≡ request_of first.now (words line.now) }
{
    if is_word(first, "acquire") {
        read_acquire(line).ok_or(FaultKind::Words)
    } else if is_word(first, "end") {
        read_end(line).ok_or(FaultKind::Words)
    } else if is_word(first, "set") {
        read_set(line)
    } else if is_word(first, "look") {
        read_look(line).ok_or(FaultKind::Words)
    } else {
        read_short(first, line).ok_or(FaultKind::Words)
    }
}
