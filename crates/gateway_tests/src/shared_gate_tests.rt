// A shared gate by worked rows, and by two threads of which one waits for the other.
use crate::callers::{admitted, promoted, queued};
use crate::checks::check;
use crate::gates::{Trial, fixed, try_at, two_of};
use gate_history::{Naming, Permit, Receipt, Spent, Ticket};
use limit_kinds::AnyLimit;
use limiter_core::{Outcome, Reply};
use partitions::Part;
use shared_gate::{Claimed, GateNaming, GaveUp, Pass, SharedGate};
use std::process::Abort;
use std::sync::Wait;
use std::thread::{Threads, join};
use std::time::Clock as SystemClock;

#[test]
fn one_waits_and_one_is_promoted(rt: HostRuntime) {
    let making = fixed(&rt, 1, 1_000_000, false, 1);
    try_at(&rt, rt.alloc(), making, Trial::PromoteTheNewest);
}

#[test]
fn a_roll_keeps_who_waits_and_what_lies_granted(rt: HostRuntime) {
    let making = fixed(&rt, 1, 1, true, 1);
    try_at(&rt, rt.alloc(), making, Trial::PromoteTheNewest);
}

/// Two wait; the newer one is promoted, and the other one gives up.
pub(crate) fn promotes_the_newest<M: GateNaming, R: Wait + Abort>(
    rt: &R,
    gate: &SharedGate<AnyLimit, M>,
    pass: &mut Pass<M>,
) {
    let (first, second) = two_wait(rt, gate, pass);
    let first = still_waits(rt, gate, pass, first);
    let permit = granted(rt, gate, pass, second);
    check(rt, times_out(rt, gate, pass, first) == 7);
    let ended = gate.end(rt, pass, permit, Outcome::Ignored, 9);
    check(rt, ended.number() == 8);
    check(rt, pass.count() == 8);
    has_one_of_each(rt, gate);
}

/// One was admitted, one promoted, and one timed out.
fn has_one_of_each<M: GateNaming, R: Wait + Abort>(rt: &R, gate: &SharedGate<AnyLimit, M>) {
    let counters = gate.counters(rt);
    check(rt, counters.admitted == 1);
    check(rt, counters.promoted == 1);
    check(rt, counters.timed_out == 1);
}

/// Numbers 1 and 2 wait, and the ending of number 0 promotes one of them.
fn two_wait<M: GateNaming, R: Wait + Abort>(
    rt: &R,
    gate: &SharedGate<AnyLimit, M>,
    pass: &mut Pass<M>,
) -> (Ticket<M>, Ticket<M>) {
    let permit = admitted(rt, gate, pass, 0);
    let first = queued(rt, gate, pass, 1);
    let second = queued(rt, gate, pass, 2);
    let ended = gate.end(rt, pass, permit, Outcome::Success, 5);
    check(rt, ended.reply() == Reply::Ended { promoted: 1 });
    (first, second)
}

/// A claim hands the ticket back.
fn still_waits<M: GateNaming, R: Wait + Abort>(
    rt: &R,
    gate: &SharedGate<AnyLimit, M>,
    pass: &mut Pass<M>,
    ticket: Ticket<M>,
) -> Ticket<M> {
    match gate.claim(rt, pass, ticket) {
        Claimed::StillWaiting(_receipt, ticket) => ticket,
        _ => rt.abort(),
    }
}

/// A giving up gets the permit that the waiter was given.
fn granted<M: GateNaming, R: Wait + Abort>(
    rt: &R,
    gate: &SharedGate<AnyLimit, M>,
    pass: &mut Pass<M>,
    ticket: Ticket<M>,
) -> Permit<M> {
    match gate.give_up(rt, pass, ticket) {
        GaveUp::Granted(_receipt, permit) => permit,
        _ => rt.abort(),
    }
}

/// A giving up without a permit, and its receipt's number.
pub(crate) fn times_out<M: GateNaming, R: Wait + Abort>(
    rt: &R,
    gate: &SharedGate<AnyLimit, M>,
    pass: &mut Pass<M>,
    ticket: Ticket<M>,
) -> u64 {
    match gate.give_up(rt, pass, ticket) {
        GaveUp::TimedOut(receipt) => receipt.number(),
        _ => rt.abort(),
    }
}

#[test]
fn who_waits_gets_the_permit_that_another_ends(rt: HostRuntime) {
    let making = fixed(&rt, 1, 1_000_000, false, 2);
    try_at(&rt, rt.alloc(), making, Trial::Wait);
}

/// One holds the only permit until another one waits for it.
pub(crate) fn one_waits_for_another<
    M: GateNaming + Send + Sync,
    R: Threads + Wait + SystemClock + Abort + Sync,
>(rt: &R, gate: &SharedGate<AnyLimit, M>, passes: &mut [Pass<M>]) {
    let (one, two) = two_of(rt, passes);
    let counts = join(rt, || holds(rt, gate, one), || waits(rt, gate, two));
    check(rt, counts.0 >= 2);
    check(rt, counts.1 == 3);
}

/// Holds the only permit until somebody waits for it. Tells how many calls the pass has made.
fn holds<M: GateNaming, R: Wait + Abort>(
    rt: &R,
    gate: &SharedGate<AnyLimit, M>,
    pass: &mut Pass<M>,
) -> u64 {
    let permit = admitted(rt, gate, pass, 0);
    until_one_waits(rt, gate, pass);
    let _receipt = gate.end(rt, pass, permit, Outcome::Success, 1);
    pass.count()
}

/// Looks until one waits.
fn until_one_waits<M: GateNaming, R: Wait + Abort>(
    rt: &R,
    gate: &SharedGate<AnyLimit, M>,
    pass: &mut Pass<M>,
) {
    for _ in 0..900_000 {
        if shows_waiter(gate.look(rt, pass, Part::Unknown)) {
            break;
        }
    }
}

/// A look was answered, and shows that one waits.
fn shows_waiter<M: Naming>(looked: Result<Receipt<M>, Spent<M>>) -> bool {
    match looked {
        Ok(receipt) => matches!(receipt.reply(), Reply::Seen { waiting: 1, .. }),
        Err(_spent) => false,
    }
}

/// Waits for a permit, once the only one is held. Tells how many calls the pass has made.
fn waits<M: GateNaming, R: Wait + SystemClock + Abort>(
    rt: &R,
    gate: &SharedGate<AnyLimit, M>,
    pass: &mut Pass<M>,
) -> u64 {
    for _ in rt.forever() {
        if gate.counters(rt).admitted == 1 {
            break;
        }
    }
    let permit = promoted(rt, gate, pass);
    let _receipt = gate.end(rt, pass, permit, Outcome::Success, 2);
    pass.count()
}
