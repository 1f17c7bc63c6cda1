// What comes of each answer of a backend: what the client gets, and what the gate learns.
use crate::checks::check;
use crate::devices::{KEPT, Says};
use crate::exchanged::{Came, Case, exchanged};
use limiter_core::Outcome;
use std::alloc::Global;
use std::process::Abort;
use wire::WireFault;

const GET: &[u8] = b"GET /a HTTP/1.1\r\nHost: h\r\n\r\n";

/// A backend that isn't there, one that is late, one without memory, and each class of a status:
/// what the client gets, and what the gate learns.
const ANSWERS: [(Says, &[u8; KEPT], u16, Outcome); 22] = [
    (Says::NotConnected, b"HTTP/1.1 502", 502, Outcome::Ignored),
    (Says::Late, b"HTTP/1.1 504", 504, Outcome::Dropped),
    (Says::Memory, b"HTTP/1.1 500", 500, Outcome::Ignored),
    (Says::Bodies, b"HTTP/1.1 502", 502, Outcome::Ignored),
    (Says::Status(100), b"HTTP/1.1 502", 502, Outcome::Dropped),
    (Says::Status(199), b"HTTP/1.1 502", 502, Outcome::Dropped),
    (Says::Status(200), b"HTTP/1.1 200", 200, Outcome::Success),
    (Says::Status(204), b"HTTP/1.1 204", 204, Outcome::Success),
    (Says::Status(304), b"HTTP/1.1 304", 304, Outcome::Success),
    (Says::Status(399), b"HTTP/1.1 399", 399, Outcome::Success),
    (Says::Status(404), b"HTTP/1.1 404", 404, Outcome::Success),
    (Says::Status(428), b"HTTP/1.1 428", 428, Outcome::Success),
    (Says::Status(429), b"HTTP/1.1 429", 429, Outcome::Dropped),
    (Says::Status(430), b"HTTP/1.1 430", 430, Outcome::Success),
    (Says::Status(499), b"HTTP/1.1 499", 499, Outcome::Success),
    (Says::Status(500), b"HTTP/1.1 500", 500, Outcome::Ignored),
    (Says::Status(502), b"HTTP/1.1 502", 502, Outcome::Ignored),
    (Says::Status(503), b"HTTP/1.1 503", 503, Outcome::Dropped),
    (Says::Status(504), b"HTTP/1.1 504", 504, Outcome::Dropped),
    (Says::Status(505), b"HTTP/1.1 505", 505, Outcome::Ignored),
    (Says::Status(599), b"HTTP/1.1 599", 599, Outcome::Ignored),
    (Says::Status(999), b"HTTP/1.1 999", 999, Outcome::Ignored),
];

/// Each fault of a message. A backend whose connection breaks by it has dropped the request.
const FAULTS: [WireFault; 12] = [
    WireFault::Memory,
    WireFault::Read,
    WireFault::Write,
    WireFault::Early,
    WireFault::Malformed,
    WireFault::HeadTooLarge,
    WireFault::BodyTooLarge,
    WireFault::Coding,
    WireFault::BothLengths,
    WireFault::TurnLimit,
    WireFault::Method,
    WireFault::Bodies,
];

/// What came of a request to a backend that says so.
fn answered(rt: &impl Abort, alloc: Global, says: Says) -> Came {
    exchanged(rt, alloc, Case::new(GET, says))
}

/// The client got this and nothing failed; the request was forwarded once, and its permit ended
/// with this outcome, which is told.
fn came_so(came: &Came, first: &[u8; KEPT], status: u16, outcome: Outcome) -> bool {
    came.first == *first
        && came.told.answer == Some(status)
        && came.told.written_fault.is_none()
        && came.forwards == 1
        && came.learnt == Some(outcome)
        && came.told.outcome == Some(outcome)
}

#[test]
fn each_answer_of_a_backend_is_told_to_its_client_and_the_gate(rt: HostRuntime) {
    for (says, first, status, outcome) in ANSWERS {
        let came = answered(&rt, rt.alloc(), says);
        check(&rt, came_so(&came, first, status, outcome));
    }
}

#[test]
fn each_fault_behind_a_connection_is_502_and_a_drop(rt: HostRuntime) {
    for fault in FAULTS {
        let came = answered(&rt, rt.alloc(), Says::Broken(fault));
        check(&rt, came_so(&came, b"HTTP/1.1 502", 502, Outcome::Dropped));
        let came = answered(&rt, rt.alloc(), Says::Stale(fault));
        check(&rt, came_so(&came, b"HTTP/1.1 502", 502, Outcome::Dropped));
    }
}
