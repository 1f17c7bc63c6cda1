// Exchanges over a port with a book of its own: what they leave in the book doesn't rest on whether
// the client gets its answer.
use crate::books::{BookTrial, try_book};
use crate::checks::check;
use crate::devices::{Failing, Says};
use crate::entries::{acquired, ended};
use crate::exchanged::{Case, exchanged_over};
use gate_history::{Book, BookPass, Journal, Naming};
use limit_laws::Limit;
use ports::SoloPort;
use std::alloc::Global;
use std::process::Abort;
use wire::WireFault;

/// The moments of the first two looks at the clock, in nanoseconds.
const FIRST: u64 = 7_000_000_000;

const SECOND: u64 = 8_000_000_000;

#[test]
fn a_client_that_is_gone_leaves_the_entries_of_one_that_is_answered(rt: HostRuntime) {
    let answered = Case::new(b"GET /a HTTP/1.1\r\nHost: h\r\n\r\n", Says::Status(200));
    let gone = Case {
        failing_write: Failing::From(0),
        ..answered
    };
    try_book(&rt, rt.alloc(), BookTrial::Serve(answered, None));
    try_book(
        &rt,
        rt.alloc(),
        BookTrial::Serve(gone, Some(WireFault::Write)),
    );
}

/// A client to whom writing fails so, or doesn't, leaves an acquire and its ending.
pub(crate) fn leaves_both<L: Limit, N: Naming, R: Abort>(
    rt: &R,
    alloc: Global,
    port: &mut SoloPort<L, N>,
    case: Case,
    fault: Option<WireFault>,
) {
    let came = exchanged_over(rt, alloc, port, case);
    check(rt, came.told.written_fault == fault);
    check(rt, has_both(port.book().journal()));
}

fn has_both<L: Limit>(journal: &Journal<L>) -> bool {
    journal.entries() == [acquired(true, FIRST), ended(FIRST, SECOND)].as_slice()
}

/// The first pass of a book.
pub(crate) fn first_pass<L: Limit, N: Naming, R: Abort>(
    rt: &R,
    book: &mut Book<L, N>,
) -> BookPass<N> {
    book.pass().expect(rt, "a pass")
}
