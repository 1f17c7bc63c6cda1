// A port over a gate that threads share, whose one permit is out.
use crate::checks::check;
use crate::gates::{Trial, fixed, try_at};
use crate::test_clocks::TestClock;
use limit_kinds::AnyLimit;
use limit_laws::Limit;
use limiter_core::{Counters, Outcome};
use partitions::Part;
use ports::{Admission, GatePort, Port, Receipts, Why};
use shared_gate::{Clock, GateNaming, Pass, SharedGate};
use std::process::Abort;
use std::sync::Wait;
use std::sync::atomic::AtomicU64;
use std::time::Clock as SystemClock;

/// In nanoseconds.
const SECOND: u64 = 1_000_000_000;

#[test]
fn a_full_gate_refuses_by_a_deadline(rt: HostRuntime) {
    let making = fixed(&rt, 1, 100, false, 1);
    try_at(&rt, rt.alloc(), making, Trial::RefuseByADeadline);
}

/// Refused at once without a deadline, and else as timed out, once the clock has reached it.
pub(crate) fn refuses<M: GateNaming, R: Wait + SystemClock + Abort>(
    rt: &R,
    gate: &SharedGate<AnyLimit, M>,
    pass: Pass<M>,
) {
    let clock: TestClock<'_, R> = TestClock::GoesOn {
        nanos: AtomicU64::new(7 * SECOND),
        step: SECOND,
    };
    let mut port = Port::new(rt, gate, pass, &clock);
    asks_three_times(rt, &mut port);
    has_one_of_each(rt, gate.counters(rt));
}

/// Gets the only permit, and ends it behind two askings for another.
fn asks_three_times<L: Limit, M: GateNaming, R: Wait + SystemClock + Abort, C: Clock>(
    rt: &R,
    port: &mut Port<'_, L, M, R, C>,
) {
    let permit = admitted(rt, port);
    check_refused(rt, port, None, Why::Full);
    check(rt, matches!(port.asked(), Receipts::Answered(_)));
    check_refused(rt, port, Some(9 * SECOND), Why::TimedOut);
    check(rt, matches!(port.asked(), Receipts::GaveUp(_, _)));
    port.end(permit, Outcome::Ignored, 9);
}

/// One was refused, one timed out, and one permit's ending was ignored.
fn has_one_of_each(rt: &impl Abort, counters: Counters) {
    check(rt, counters.full == 1);
    check(rt, counters.timed_out == 1);
    check(rt, counters.ignored == 1);
}

/// The permit of an asking that is admitted.
fn admitted<P: GatePort>(rt: &impl Abort, port: &mut P) -> P::Permit {
    match port.admit(Part::Unknown, false, None, 0) {
        Admission::Admitted(permit) => permit,
        _ => rt.abort(),
    }
}

/// An asking is refused for this cause.
fn check_refused<P: GatePort>(rt: &impl Abort, port: &mut P, deadline: Option<u64>, why: Why) {
    match port.admit(Part::Unknown, false, deadline, 0) {
        Admission::Refused(told) => check(rt, told == why),
        _ => rt.abort(),
    }
}
