// What a line asks of a session.
ghost use Rattle.std.specs.Prelude.{◌≡◌, IfOk};
ghost use Rattle.script.specs.Words.{words};
ghost use Rattle.script.specs.Request.{request_bytes};
ghost use Rattle.script.specs.Line.{line_of};
ghost use Rattle.load_driver.specs.Replay.{ending_of, request_asks, line_asks, IfEvent};
ghost use Rattle.load_driver.specs.Session.{open_in};
ghost use Rattle.load_driver.specs.Stretches.{IsOpen};

use super::session::Session;
use limit_laws::Limit;
use limiter_core::{Event, Outcome};
use partitions::Part;
use script::{FaultKind, Line, Request, read_line, read_part};

/// What a line asks once the settings are over.
#[derive(Clone, Copy)]
pub enum SessionCall {
    /// It is skipped.
    Nothing,
    /// The end of a permit that isn't open.
    NotOpen,
    /// An answer to this event.
    Event(Event),
}

/// The end of a permit, where it is open. `now` is in nanoseconds.
pub fn read_end<L: Limit>(
    session: &Session<L>,
    number: u64,
    outcome: Outcome,
    now: u64,
) -> SessionCall
    ensures asked { result ≡ ending_of (open_in session.now number) outcome now }
    ensures named { IfEvent result (IsOpen (open_in session.now)) }
{
    match session.permit(number) {
        Some(permit) => SessionCall::Event(Event::End {
            permit,
            outcome,
            now,
        }),
        None => SessionCall::NotOpen,
    }
}

/// What a request asks, or that the table has no such class.
fn read_request<L: Limit>(
    session: &Session<L>,
    request: Request<&[u8]>,
) -> Result<SessionCall, FaultKind>
    ensures asked { result
        ≡ request_asks session.now.journal.rows (open_in session.now)
        (request_bytes request.entry) }
    ensures named { IfOk result (λ asked. IfEvent asked (IsOpen (open_in session.now))) }
{
    let event = match request {
        Request::Acquire { class, wait, now } => Event::Acquire {
            part: read_part(session.table(), class)?,
            bypass: false,
            wait,
            now,
        },
        Request::Bypass { now } => Event::Acquire {
            part: Part::Unknown,
            bypass: true,
            wait: false,
            now,
        },
        Request::End {
            number,
            outcome,
            now,
        } => return Ok(read_end(session, number, outcome, now)),
        Request::Claim { number } => Event::Claim { number },
        Request::GiveUp { number } => Event::GiveUp { number },
        Request::SetLimit { n, now } => Event::SetLimit { n, now },
        Request::Reset { now } => Event::Reset { now },
        Request::Look { class } => Event::Look {
            part: read_part(session.table(), class)?,
        },
    };
    Ok(SessionCall::Event(event))
}

/// What a line asks behind the settings, or why it is at fault.
pub(crate) fn read_asked<L: Limit>(
    session: &Session<L>,
    line: &[u8],
) -> Result<SessionCall, FaultKind>
    ensures asked { result
        ≡ line_asks session.now.journal.rows (open_in session.now) (line_of (words line.now)) }
    ensures named { IfOk result (λ asked. IfEvent asked (IsOpen (open_in session.now))) }
{
    match read_line(line)? {
        None => Ok(SessionCall::Nothing),
        Some(Line::Setting(_)) => Err(FaultKind::Late),
        Some(Line::Request(request)) => read_request(session, request),
    }
}
