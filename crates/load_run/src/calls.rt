// The calls of one arrival.
ghost use Rattle.std.specs.Prelude.{◌≡◌, ◌≤◌, ◌<◌, ◌++◌, true, false, OnOk};
ghost use Rattle.shared_gate.specs.Calls.{seen_by};
ghost use Rattle.load_run.specs.Worker.{LieBetween, Makes, ending, waits};
ghost use Rattle.load_run.specs.Made.{made_of, refused_of};

use gate_history::{Naming, Permit, Receipt, Spent};
use limit_laws::{LAST_MOMENT, Limit};
use shared_gate::{Clock, GateNaming, Got, MonotonicClock, Pass, SharedGate, Waited};
use std::alloc::AllocError;
use std::sync::Wait;
use std::time::Clock as SystemClock;
use trace::Arrival;

/// The receipts of an arrival, in the order of its calls, and the refusal that ended them.
#[derive(Drop)]
pub(crate) enum Made<M: Naming> {
    Exhausted(Spent<M>),
    One(Receipt<M>),
    Stuck(Receipt<M>, Spent<M>),
    Two(Receipt<M>, Receipt<M>),
    Three(Receipt<M>, Receipt<M>, Receipt<M>),
}

impl<M: Naming> Made<M> {
    /// Puts the receipts at the end of a list, and the refusal at the end of another.
    pub(crate) fn push_to(
        self,
        receipts: &mut Vec<Receipt<M>>,
        refusals: &mut Vec<Spent<M>>,
    ) -> Result<(), AllocError>
        ensures made { OnOk result (receipts.new.items ≡ receipts.old.items ++ made_of self) }
        ensures refused { OnOk result (refusals.new.items
            ≡ refusals.old.items ++ refused_of self) }
    {
        receipts.reserve(3)?;
        refusals.reserve(1)?;
        match self {
            Made::Exhausted(spent) => refusals.push_reserved(spent),
            Made::One(first) => receipts.push_reserved(first),
            Made::Stuck(first, spent) => {
                receipts.push_reserved(first);
                refusals.push_reserved(spent);
            }
            Made::Two(first, second) => {
                receipts.push_reserved(first);
                receipts.push_reserved(second);
            }
            Made::Three(first, second, third) => {
                receipts.push_reserved(first);
                receipts.push_reserved(second);
                receipts.push_reserved(third);
            }
        }
        Ok(())
    }
}

/// Ends the permit of an arrival, at once.
fn finish<L: Limit, M: GateNaming>(
    rt: &impl Wait,
    gate: &SharedGate<L, M>,
    pass: &mut Pass<M>,
    arrival: Arrival,
    permit: Permit<M>,
) -> Receipt<M>
    ensures event { result.event ≡ ending arrival permit }
    ensures unseen { seen_by pass.old ≤ result.number }
    ensures seen { result.number < seen_by pass.new }
{
    let start = permit.facts().start;
    let now = start.saturating_add(arrival.duration).min(LAST_MOMENT);
    gate.end(rt, pass, permit, arrival.outcome, now)
}

/// The calls of an arrival that doesn't wait.
fn call_once<L: Limit, M: GateNaming>(
    rt: &impl Wait,
    gate: &SharedGate<L, M>,
    pass: &mut Pass<M>,
    arrival: Arrival,
) -> Made<M>
    requires { waits arrival ≡ false }
    ensures made { Makes arrival (made_of result) (refused_of result) }
    ensures order { LieBetween (seen_by pass.old) (seen_by pass.new)
        (made_of result) (refused_of result) }
{
    let Arrival {
        part,
        bypass,
        at,
        ..
    } = arrival;
    match gate.acquire(rt, pass, part, bypass, false, at) {
        Got::Admitted(receipt, permit) => {
            Made::Two(receipt, finish(rt, gate, pass, arrival, permit))
        }
        Got::Bypassed(receipt) => Made::One(receipt),
        Got::Full(receipt) => Made::One(receipt),
        Got::BacklogFull(receipt) => Made::One(receipt),
        Got::Waiting(_receipt, _ticket) => unreachable!(),
        Got::Exhausted(spent) => {
            // What was held tells why.
            let _held = spent.held();
            Made::Exhausted(spent)
        }
    }
}

/// The calls of an arrival that waits, up to the deadline of its own clock.
fn call_and_wait<L: Limit, M: GateNaming, R: Wait + SystemClock, C: Clock>(
    rt: &R,
    gate: &SharedGate<L, M>,
    pass: &mut Pass<M>,
    arrival: Arrival,
    clock: &C,
    timeout: u64,
) -> Made<M>
    requires { waits arrival ≡ true }
    ensures made { Makes arrival (made_of result) (refused_of result) }
    ensures order { LieBetween (seen_by pass.old) (seen_by pass.new)
        (made_of result) (refused_of result) }
{
    let mut looks = MonotonicClock::new(clock);
    let deadline = looks.look().saturating_add(timeout).min(LAST_MOMENT);
    call_until(rt, gate, pass, arrival, &mut looks, deadline)
}

/// The calls of an arrival that waits until this deadline.
fn call_until<L: Limit, M: GateNaming, R: Wait + SystemClock, C: Clock>(
    rt: &R,
    gate: &SharedGate<L, M>,
    pass: &mut Pass<M>,
    arrival: Arrival,
    looks: &mut MonotonicClock<'_, C, ()>,
    deadline: u64,
) -> Made<M>
    requires { waits arrival ≡ true }
    ensures made { Makes arrival (made_of result) (refused_of result) }
    ensures order { LieBetween (seen_by pass.old) (seen_by pass.new)
        (made_of result) (refused_of result) }
{
    match gate.acquire_wait(rt, pass, arrival.part, arrival.at, looks, deadline) {
        Waited::Admitted(receipt, permit) => {
            Made::Two(receipt, finish(rt, gate, pass, arrival, permit))
        }
        Waited::Promoted(first, second, permit) => {
            Made::Three(first, second, finish(rt, gate, pass, arrival, permit))
        }
        Waited::TimedOut(first, second) => Made::Two(first, second),
        Waited::BacklogFull(receipt) => Made::One(receipt),
        Waited::Lost(first, second) => match second {
            Ok(second) => Made::Two(first, second),
            Err(spent) => {
                // What was held tells why, here and below.
                let _held = spent.held();
                Made::Stuck(first, spent)
            }
        },
        Waited::Exhausted(spent) => {
            let _held = spent.held();
            Made::Exhausted(spent)
        }
    }
}

/// An arrival waits where it says so and doesn't go past the limit.
fn waits(arrival: Arrival) -> bool
    ensures { result ≡ waits arrival }
{
    arrival.wait && !arrival.bypass
}

/// The calls of an arrival, which ends at once what it gets.
pub(crate) fn make_calls<L: Limit, M: GateNaming, R: Wait + SystemClock, C: Clock>(
    rt: &R,
    gate: &SharedGate<L, M>,
    pass: &mut Pass<M>,
    arrival: Arrival,
    clock: &C,
    timeout: u64,
) -> Made<M>
    ensures made { Makes arrival (made_of result) (refused_of result) }
    ensures order { LieBetween (seen_by pass.old) (seen_by pass.new)
        (made_of result) (refused_of result) }
{
    if waits(arrival) {
        call_and_wait(rt, gate, pass, arrival, clock, timeout)
    } else {
        call_once(rt, gate, pass, arrival)
    }
}
