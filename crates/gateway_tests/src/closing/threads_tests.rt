// Two threads make 100 acquires and 100 endings each, and their gate is accepted.
use super::handing::two_lists;
use crate::callers::{by_two_threads, no_receipts};
use crate::checks::check;
use crate::gates::{Trial, fixed, try_at};
use gate_history::{Entry, History};
use limit_kinds::AnyLimit;
use limit_laws::Limit;
use shared_gate::{GateNaming, Pass, SharedGate};
use std::alloc::Global;
use std::process::Abort;
use std::sync::Wait;
use std::thread::Threads;

#[test]
fn four_hundred_calls_of_two_threads_are_accepted(rt: HostRuntime) {
    let making = fixed(&rt, 10, 1_000, false, 2);
    try_at(&rt, rt.alloc(), making, Trial::CallAndClose);
}

pub(crate) fn two_threads_close<M: GateNaming + Send + Sync, R: Threads + Wait + Abort + Sync>(
    rt: &R,
    alloc: Global,
    gate: SharedGate<AnyLimit, M>,
    mut passes: Vec<Pass<M>>,
) {
    let mut one = no_receipts(rt, alloc, 200);
    let mut two = no_receipts(rt, alloc, 200);
    by_two_threads(rt, &gate, &mut passes, &mut one, &mut two);
    let kept = two_lists(rt, alloc, one, two);
    let closed = gate.close(alloc, passes, kept);
    is_whole(rt, &closed.ok().expect(rt, "an accepted history"));
}

/// The history has the 400 calls, and nothing else.
fn is_whole<L: Limit, R: Abort>(rt: &R, history: &History<L>) {
    check(rt, history.base == 0);
    check(rt, history.entries.len() == 400);
    check(rt, are_calls(&history.entries));
}

/// None of the entries is a promotion.
fn are_calls(entries: &[Entry]) -> bool {
    for entry in entries {
        if let Entry::Promotion { .. } = entry {
            return false;
        }
    }
    true
}
