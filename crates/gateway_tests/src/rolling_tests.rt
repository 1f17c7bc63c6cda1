// Gates whose history rolls, through the lock: the worked rows by one pass.
use crate::callers::admitted;
use crate::checks::check;
use crate::gates::{Making, Trial, settable, try_at};
use gate_history::{Naming, Receipt, Spent};
use limit_kinds::AnyLimit;
use limit_laws::SetFault;
use limiter_core::{Outcome, Promote, Reply};
use partitions::Part;
use shared_gate::{GateNaming, Pass, SharedGate};
use std::process::Abort;
use std::sync::Wait;

#[test]
fn a_roll_keeps_the_algorithms_state(rt: HostRuntime) {
    let making = rolling(&rt, 1, 20, 100);
    try_at(&rt, rt.alloc(), making, Trial::SetAndSee);
}

#[test]
fn a_limit_that_is_reset_is_the_first_after_rolls(rt: HostRuntime) {
    let making = rolling(&rt, 5, 10, 20);
    try_at(&rt, rt.alloc(), making, Trial::SetAndReset);
}

/// A gate over a limit of these least, first and greatest numbers, which keeps two entries and
/// rolls.
fn rolling<R: Abort>(rt: &R, lo: u32, first: u32, hi: u32) -> Making {
    let limit = settable(rt, lo, first, hi);
    Making::plain(limit, Promote::Newest, 2, true, 1)
}

/// The limit that was set is seen by all looks behind it.
pub(crate) fn is_seen<M: GateNaming, R: Wait + Abort>(
    rt: &R,
    gate: &SharedGate<AnyLimit, M>,
    pass: &mut Pass<M>,
) {
    tells(rt, gate.set_limit(rt, pass, 30, 0), 0, Reply::LimitSet);
    for number in 1..4 {
        tells(rt, gate.look(rt, pass, Part::Unknown), number, seen(30, 0));
    }
}

/// The limit that is reset while a permit is out is the first one.
pub(crate) fn is_reset<M: GateNaming, R: Wait + Abort>(
    rt: &R,
    gate: &SharedGate<AnyLimit, M>,
    pass: &mut Pass<M>,
) {
    let refused = Reply::Refused(SetFault::OutOfRange);
    tells(rt, gate.set_limit(rt, pass, 4, 0), 0, refused);
    tells(rt, gate.set_limit(rt, pass, 20, 0), 1, Reply::LimitSet);
    let permit = admitted(rt, gate, pass, 0);
    tells(rt, gate.reset(rt, pass, 0), 3, Reply::ResetDone);
    tells(rt, gate.look(rt, pass, Part::Unknown), 4, seen(10, 1));
    let ended = gate.end(rt, pass, permit, Outcome::Ignored, 0);
    check(rt, ended.number() == 5);
}

/// It is told with this number and reply.
fn tells<M: Naming, R: Abort>(
    rt: &R,
    told: Result<Receipt<M>, Spent<M>>,
    number: u64,
    reply: Reply,
) {
    let receipt = told.ok().expect(rt, "an answer");
    check(rt, receipt.number() == number);
    check(rt, receipt.reply() == reply);
}

/// What a look shows at this limit, with so many in flight.
fn seen(limit: u32, inflight: u32) -> Reply {
    Reply::Seen {
        limit,
        total: inflight,
        waiting: 0,
        granted: 0,
        inflight,
        share: 0,
    }
}
