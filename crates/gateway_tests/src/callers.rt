// Callers of a gate who keep their receipts, and calls that are answered in one way.
use crate::checks::check;
use crate::gates::two_of;
use crate::test_clocks::TestClock;
use gate_history::{Naming, Permit, Receipt, Ticket};
use limit_kinds::AnyLimit;
use limiter_core::Outcome;
use partitions::Part;
use shared_gate::{GateNaming, Got, MonotonicClock, Pass, SharedGate, Waited};
use std::alloc::Global;
use std::process::Abort;
use std::sync::Wait;
use std::thread::{Threads, join};
use std::time::Clock as SystemClock;

/// No receipts, with room for those of so many calls.
pub(crate) fn no_receipts<M: Naming, R: Abort>(
    rt: &R,
    alloc: Global,
    calls: usize,
) -> Vec<Receipt<M>> {
    Vec::with_capacity(alloc, calls).expect(rt, "memory for receipts")
}

/// Keeps a receipt, whose number the pass hadn't seen before the call, and has seen now.
fn keep<M: GateNaming, R: Abort>(
    rt: &R,
    pass: &Pass<M>,
    receipts: &mut Vec<Receipt<M>>,
    before: u64,
    receipt: Receipt<M>,
) {
    check(rt, is_between(before, receipt.number(), pass.seen()));
    receipts.push(receipt).expect(rt, "memory for receipts");
}

/// A number is one of those from this one on, below another.
fn is_between(from: u64, number: u64, below: u64) -> bool {
    from <= number && number < below
}

/// An acquire at one moment, and its ending at another.
pub(crate) fn acquire_and_end<M: GateNaming, R: Wait + Abort>(
    rt: &R,
    gate: &SharedGate<AnyLimit, M>,
    pass: &mut Pass<M>,
    receipts: &mut Vec<Receipt<M>>,
    (from, to): (u64, u64),
) {
    let before = pass.seen();
    let (receipt, permit) = acquired(rt, gate, pass, from);
    keep(rt, pass, receipts, before, receipt);
    let before = pass.seen();
    let receipt = gate.end(rt, pass, permit, Outcome::Success, to);
    keep(rt, pass, receipts, before, receipt);
}

/// The permit of an acquire that is admitted at once.
pub(crate) fn admitted<M: GateNaming, R: Wait + Abort>(
    rt: &R,
    gate: &SharedGate<AnyLimit, M>,
    pass: &mut Pass<M>,
    now: u64,
) -> Permit<M> {
    acquired(rt, gate, pass, now).1
}

/// The receipt and the permit of an acquire that is admitted at once.
fn acquired<M: GateNaming, R: Wait + Abort>(
    rt: &R,
    gate: &SharedGate<AnyLimit, M>,
    pass: &mut Pass<M>,
    now: u64,
) -> (Receipt<M>, Permit<M>) {
    match gate.acquire(rt, pass, Part::Unknown, false, false, now) {
        Got::Admitted(receipt, permit) => (receipt, permit),
        _ => rt.abort(),
    }
}

/// The ticket of an acquire that waits.
pub(crate) fn queued<M: GateNaming, R: Wait + Abort>(
    rt: &R,
    gate: &SharedGate<AnyLimit, M>,
    pass: &mut Pass<M>,
    now: u64,
) -> Ticket<M> {
    match gate.acquire(rt, pass, Part::Unknown, false, true, now) {
        Got::Waiting(_receipt, ticket) => ticket,
        _ => rt.abort(),
    }
}

/// The permit that who waits gets, by a clock that stands still.
pub(crate) fn promoted<M: GateNaming, R: Wait + SystemClock + Abort>(
    rt: &R,
    gate: &SharedGate<AnyLimit, M>,
    pass: &mut Pass<M>,
) -> Permit<M> {
    let still = TestClock::<R>::Stands(0);
    let mut looks = MonotonicClock::new(&still);
    match gate.acquire_wait(rt, pass, Part::Unknown, 0, &mut looks, 1 << 62) {
        Waited::Promoted(_first, _second, permit) => permit,
        _ => rt.abort(),
    }
}

/// The numbers of a wait in vain, and of its giving up.
pub(crate) fn timed_out<M: Naming, R: Abort>(rt: &R, waited: Waited<M>) -> (u64, u64) {
    match waited {
        Waited::TimedOut(first, second) => (first.number(), second.number()),
        _ => rt.abort(),
    }
}

/// A look at the state.
pub(crate) fn look<M: GateNaming, R: Wait + Abort>(
    rt: &R,
    gate: &SharedGate<AnyLimit, M>,
    pass: &mut Pass<M>,
    receipts: &mut Vec<Receipt<M>>,
) {
    let before = pass.seen();
    let looked = gate.look(rt, pass, Part::Unknown);
    keep(
        rt,
        pass,
        receipts,
        before,
        looked.ok().expect(rt, "an answer"),
    );
}

/// 100 acquires with an ending each, by each of two passes on threads of their own.
pub(crate) fn by_two_threads<M: GateNaming + Send + Sync, R: Threads + Wait + Abort + Sync>(
    rt: &R,
    gate: &SharedGate<AnyLimit, M>,
    passes: &mut [Pass<M>],
    one: &mut Vec<Receipt<M>>,
    two: &mut Vec<Receipt<M>>,
) {
    let (first, second) = two_of(rt, passes);
    join(
        rt,
        || call_often(rt, gate, first, one),
        || call_often(rt, gate, second, two),
    );
}

/// 100 acquires with an ending each.
fn call_often<M: GateNaming, R: Wait + Abort>(
    rt: &R,
    gate: &SharedGate<AnyLimit, M>,
    pass: &mut Pass<M>,
    receipts: &mut Vec<Receipt<M>>,
) {
    for now in 0..100 {
        acquire_and_end(rt, gate, pass, receipts, (now, now));
    }
}
