// The calls of one worker.
ghost use Rattle.std.specs.Prelude.{◌<◌, ◌+◌, IfOk, OnOk, length, take};
ghost use Rattle.shared_gate.specs.Calls.{seen_by};
ghost use Rattle.load_run.specs.Worker.{IsWork};

use crate::calls::make_calls;
use gate_history::{Receipt, Spent};
use limit_laws::Limit;
use shared_gate::{Clock, GateNaming, Pass, SharedGate};
use std::alloc::AllocError;
use std::sync::Wait;
use std::time::Clock as SystemClock;
use trace::Arrival;

/// What a worker calls with: its pass, and lists with room for its receipts and its refusals.
#[derive(Drop)]
pub(crate) struct Worker<M: GateNaming> {
    pub(crate) pass: Pass<M>,
    pub(crate) receipts: Vec<Receipt<M>>,
    pub(crate) refusals: Vec<Spent<M>>,
}

/// The gate and the trace that all workers share, with how long a caller waits, and how many
/// workers there are.
#[derive(Drop)]
pub(crate) struct RunContext<'a, L: Limit, M: GateNaming, R, C> {
    pub(crate) rt: &'a R,
    pub(crate) gate: &'a SharedGate<L, M>,
    pub(crate) arrivals: &'a Vec<Arrival>,
    pub(crate) clock: &'a C,
    pub(crate) timeout: u64,
    pub(crate) workers: usize,
    ghost some: { 0 < workers },
}

/// Makes the calls of the arrival at a place, where it falls to the worker of this number, and
/// keeps their receipts and refusals.
fn take_turn<L: Limit, M: GateNaming, R: Wait + SystemClock, C: Clock>(
    context: &RunContext<L, M, R, C>,
    number: usize,
    place: usize,
    pass: &mut Pass<M>,
    receipts: &mut Vec<Receipt<M>>,
    refusals: &mut Vec<Spent<M>>,
) -> Result<(), AllocError>
    requires inside { place < length context.now.arrivals.now.items }
    ensures { OnOk result (
        IsWork context.now.workers number
        (take place context.now.arrivals.now.items) receipts.old.items refusals.old.items
        (seen_by pass.old) →
        IsWork context.now.workers number
        (take (place + 1) context.now.arrivals.now.items) receipts.new.items refusals.new.items
        (seen_by pass.new)) }
{
    if place % context.workers != number {
        return Ok(());
    }
    let arrival = context.arrivals[place];
    let made = make_calls(
        context.rt,
        context.gate,
        pass,
        arrival,
        context.clock,
        context.timeout,
    );
    made.push_to(receipts, refusals)
}

/// Makes the calls of the worker of this number, one arrival after the other.
pub(crate) fn work<L: Limit, M: GateNaming, R: Wait + SystemClock, C: Clock>(
    context: &RunContext<L, M, R, C>,
    number: usize,
    worker: Worker<M>,
) -> Result<Worker<M>, AllocError>
    ensures { IfOk result (λ done.
        IsWork context.now.workers number context.now.arrivals.now.items
        done.receipts.items done.refusals.items (seen_by done.pass)) }
{
    let Worker {
        mut pass,
        mut receipts,
        mut refusals,
    } = worker;
    receipts.clear();
    refusals.clear();
    for place in 0..context.arrivals.len() {
        take_turn(
            context,
            number,
            place,
            &mut pass,
            &mut receipts,
            &mut refusals,
        )?;
    }
    Ok(Worker {
        pass,
        receipts,
        refusals,
    })
}
