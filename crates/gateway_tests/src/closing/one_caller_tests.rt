// A gate of two calls is closed: each fault of what is handed in is told, and history and lists
// come back. The calls are an acquire and its ending, or two looks at a gate that rolls, of which
// one entry is kept: it isn't accepted.
use super::handing::{Handing, are_handed_back, hand_in, lists_of};
use crate::callers::{acquire_and_end, look, no_receipts};
use crate::checks::check;
use crate::entries::{acquired, ended};
use crate::gates::{Trial, first_of, fixed, try_at};
use gate_history::{History, Naming, Receipt};
use limit_kinds::AnyLimit;
use shared_gate::{AuditFault, Cause, GateNaming, Pass, SharedGate};
use std::alloc::Global;
use std::process::Abort;
use std::sync::Wait;

/// Missing passes come before the order.
fn of_two_calls() -> [Handing; 7] {
    let turned = Cause::Order { list: 1, place: 1 };
    let first = Cause::Uncovered { number: 0 };
    let second = Cause::Uncovered { number: 1 };
    let missing = Cause::PassesMissing { book: 2, sum: 0 };
    [
        Handing::new(false, true, false, 2, None),
        Handing::new(false, true, true, 2, Some(turned)),
        Handing::new(false, true, false, 1, Some(second)),
        Handing::new(false, true, true, 1, Some(first)),
        Handing::new(false, true, false, 0, Some(first)),
        Handing::new(false, false, false, 2, Some(missing)),
        Handing::new(false, false, true, 2, Some(missing)),
    ]
}

/// Missing passes come before the base, and that before the order.
fn of_a_roll() -> [Handing; 3] {
    let rolled = Cause::Rolled { base: 1 };
    let missing = Cause::PassesMissing { book: 2, sum: 0 };
    [
        Handing::new(true, true, false, 2, Some(rolled)),
        Handing::new(true, true, true, 2, Some(rolled)),
        Handing::new(true, false, false, 2, Some(missing)),
    ]
}

#[test]
fn each_fault_of_two_calls_is_told(rt: HostRuntime) {
    for handing in &of_two_calls() {
        let making = fixed(&rt, 10, 1_000, false, 1);
        try_at(&rt, rt.alloc(), making, Trial::Close(*handing));
    }
}

#[test]
fn a_gate_that_rolled_is_not_accepted(rt: HostRuntime) {
    for handing in &of_a_roll() {
        let making = fixed(&rt, 10, 1, true, 1);
        try_at(&rt, rt.alloc(), making, Trial::Close(*handing));
    }
}

/// One makes two calls, and the gate is closed.
pub(crate) fn one_closes<M: GateNaming, R: Wait + Abort>(
    rt: &R,
    alloc: Global,
    gate: SharedGate<AnyLimit, M>,
    mut passes: Vec<Pass<M>>,
    handing: Handing,
) {
    let mut receipts = no_receipts(rt, alloc, 2);
    calls_twice(rt, &gate, first_of(rt, &mut passes), &mut receipts, handing);
    hand_in(&mut passes, handing);
    let kept = lists_of(rt, alloc, receipts, handing);
    check(rt, is_told(gate.close(alloc, passes, kept), handing));
}

/// Two looks at a gate that rolls, or else an acquire and its ending.
fn calls_twice<M: GateNaming, R: Wait + Abort>(
    rt: &R,
    gate: &SharedGate<AnyLimit, M>,
    pass: &mut Pass<M>,
    receipts: &mut Vec<Receipt<M>>,
    handing: Handing,
) {
    if handing.is_rolling {
        look(rt, gate, pass, receipts);
        look(rt, gate, pass, receipts);
    } else {
        acquire_and_end(rt, gate, pass, receipts, (0, 5));
    }
}

/// The cause is as wanted; history and lists come back.
fn is_told<M: Naming>(
    closed: Result<History<AnyLimit>, AuditFault<AnyLimit, M>>,
    handing: Handing,
) -> bool {
    match closed {
        Ok(history) => handing.cause.is_none() && has_calls(&history, handing),
        Err(fault) => {
            handing.cause == Some(fault.cause)
                && has_calls(&fault.history, handing)
                && are_handed_back(&fault.kept, handing)
        }
    }
}

/// The history is that of an acquire and of its ending, and of nothing else; where the gate rolled
/// it begins with the second look.
fn has_calls(history: &History<AnyLimit>, handing: Handing) -> bool {
    if handing.is_rolling {
        return history.base == 1 && history.entries.len() == 1;
    }
    history.base == 0
        && history.opening.next_number() == 0
        && history.entries.as_slice() == [acquired(false, 0), ended(0, 5)].as_slice()
}
