// A client's end that failed is called no more, whether it would fail again or not; what was asked
// until then is ended, and nothing else is begun.
use crate::checks::check;
use crate::devices::{Failing, Says};
use crate::exchanged::{Came, Case, exchanged};
use limiter_core::Outcome;
use std::alloc::Global;
use std::process::Abort;
use wire::WireFault;

const GET: &[u8] = b"GET /a HTTP/1.1\r\nHost: h\r\n\r\n";

const ASKING: &[u8] =
    b"POST /a HTTP/1.1\r\nHost: h\r\nExpect: 100-continue\r\nContent-Length: 3\r\n\r\nabc";

/// A request to a backend that answers 200.
fn unfailing(sent: &[u8]) -> Case<'_> {
    Case::new(sent, Says::Status(200))
}

/// What a client is sent that waits to be asked for its body.
const CONTINUE: &[u8] = b"HTTP/1.1 100 Continue\r\n\r\n";

/// Neither gate nor backend heard of the request.
fn is_unasked(came: &Came) -> bool {
    !came.is_asked && came.learnt.is_none() && came.forwards == 0 && came.told.outcome.is_none()
}

/// The request was forwarded once, and its permit ended as the backend's answer has it.
fn is_settled(came: &Came) -> bool {
    came.forwards == 1
        && came.learnt == Some(Outcome::Success)
        && came.told.outcome == Some(Outcome::Success)
}

/// A client whose reads fail at this one is read no more, and isn't answered: it is sent nothing,
/// unless it was asked for its body before. Nobody else hears of it.
fn is_read_no_more(
    rt: &impl Abort,
    alloc: Global,
    mut case: Case,
    at: u64,
    failing: Failing,
) -> bool {
    case.failing_read = failing;
    let came = exchanged(rt, alloc, case);
    came.reads == at.saturating_add(1)
        && came.told.answer.is_none()
        && came.told.written_fault.is_none()
        && (came.sent == 0 || came.first == *b"HTTP/1.1 100" && came.sent == CONTINUE.len())
        && is_unasked(&came)
}

/// A client whose writes fail at this one is written no more, and that is told. Where it was asked
/// for its body by then, nobody else hears of it; else it was settled before.
fn is_written_no_more(
    rt: &impl Abort,
    alloc: Global,
    mut case: Case,
    at: u64,
    failing: Failing,
    asking: u64,
) -> bool {
    case.failing_write = failing;
    let came = exchanged(rt, alloc, case);
    came.writes == at.saturating_add(1)
        && came.told.written_fault == Some(WireFault::Write)
        && if at < asking {
            is_unasked(&came)
        } else {
            is_settled(&came)
        }
}

/// A request was served, and its client read and written.
fn is_served(came: &Came) -> bool {
    is_settled(came) && came.reads > 0 && came.writes > 1
}

/// How often a client is read and written in an exchange.
fn calls_of(rt: &impl Abort, alloc: Global, case: Case) -> (u64, u64) {
    let whole = exchanged(rt, alloc, case);
    check(rt, is_served(&whole));
    (whole.reads, whole.writes)
}

/// Each read and each write fails by itself, and then with all calls after it; so many of the
/// writes ask the client for its body.
fn fails(rt: &impl Abort, alloc: Global, case: Case, asking: u64) {
    let (reads, writes) = calls_of(rt, alloc, case);
    for at in 0..reads {
        check(rt, is_read_no_more(rt, alloc, case, at, Failing::Once(at)));
        check(rt, is_read_no_more(rt, alloc, case, at, Failing::From(at)));
    }
    for at in 0..writes {
        check(
            rt,
            is_written_no_more(rt, alloc, case, at, Failing::Once(at), asking),
        );
        check(
            rt,
            is_written_no_more(rt, alloc, case, at, Failing::From(at), asking),
        );
    }
}

#[test]
fn an_end_of_a_client_that_failed_is_called_no_more(rt: HostRuntime) {
    fails(&rt, rt.alloc(), unfailing(GET), 0);
    fails(&rt, rt.alloc(), unfailing(ASKING), 2);
}
