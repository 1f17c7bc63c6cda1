// What a pass has seen, over gates that keep one entry: a worked row, calls by two threads, two
// workers whose receipts are compared by number alone, and a telling while the lock is held.
use crate::callers::{admitted, by_two_threads, no_receipts, timed_out};
use crate::checks::check;
use crate::gates::{Trial, fixed, try_at, two_of};
use gate_history::Receipt;
use limit_kinds::AnyLimit;
use limiter_core::Outcome;
use partitions::Part;
use shared_gate::{Clock, GateNaming, MonotonicClock, Pass, SharedGate};
use std::alloc::Global;
use std::process::Abort;
use std::sync::{Mutex, Wait};
use std::thread::Threads;
use std::time::Clock as SystemClock;

#[test]
fn what_is_told_is_seen(rt: HostRuntime) {
    try_at(&rt, rt.alloc(), fixed(&rt, 2, 1, true, 2), Trial::Tell);
}

/// Looks 0 and 1 by two passes, of which the first is told what the second has seen, and look 2.
pub(crate) fn one_looks_and_is_told<M: GateNaming, R: Wait + Abort>(
    rt: &R,
    gate: &SharedGate<AnyLimit, M>,
    passes: &mut [Pass<M>],
) {
    let (one, two) = two_of(rt, passes);
    have_seen(rt, one, two, 0, 0);
    looks(rt, gate, one, 0);
    looks(rt, gate, two, 1);
    have_seen(rt, one, two, 1, 2);
    gate.told(one, two);
    have_seen(rt, one, two, 2, 2);
    looks(rt, gate, one, 2);
    have_seen(rt, one, two, 3, 2);
    check(rt, one.count() == 2);
    check(rt, two.count() == 1);
}

/// So many entries each of two passes has seen.
fn have_seen<M: GateNaming, R: Abort>(
    rt: &R,
    one: &Pass<M>,
    two: &Pass<M>,
    by_one: u64,
    by_two: u64,
) {
    check(rt, one.seen() == by_one);
    check(rt, two.seen() == by_two);
}

/// A look that is answered by this number.
fn looks<M: GateNaming, R: Wait + Abort>(
    rt: &R,
    gate: &SharedGate<AnyLimit, M>,
    pass: &mut Pass<M>,
    number: u64,
) {
    let receipt = gate.look(rt, pass, Part::Unknown).ok();
    check(rt, receipt.expect(rt, "an answer").number() == number);
}

#[test]
fn two_threads_have_seen_each_call_and_are_compared_by_number_alone(rt: HostRuntime) {
    try_at(&rt, rt.alloc(), fixed(&rt, 2, 1, true, 2), Trial::Work);
}

/// Each number is above the one before it.
fn is_rising<M: GateNaming>(receipts: &[Receipt<M>]) -> bool {
    let mut next = 0;
    for receipt in receipts {
        if receipt.number() < next {
            return false;
        }
        next = receipt.number().saturating_add(1);
    }
    true
}

/// Two workers at the same time: each call is seen as it comes, and the numbers rise. Once the
/// first has done 200 calls it tells the second, and all that the second does from there on has
/// greater numbers, whatever the first does meanwhile.
pub(crate) fn both_work<M: GateNaming + Send + Sync, R: Threads + Wait + Abort + Sync>(
    rt: &R,
    alloc: Global,
    gate: &SharedGate<AnyLimit, M>,
    passes: &mut [Pass<M>],
) {
    let mut one = no_receipts(rt, alloc, 400);
    let mut two = no_receipts(rt, alloc, 400);
    by_two_threads(rt, gate, passes, &mut one, &mut two);
    are_rising(rt, &one, &two);
    let (first, second) = two_of(rt, passes);
    gate.told(second, first);
    by_two_threads(rt, gate, passes, &mut one, &mut two);
    check(rt, go_on_behind(&one, &two));
}

/// The 200 receipts of each of two callers rise.
fn are_rising<M: GateNaming, R: Abort>(rt: &R, one: &[Receipt<M>], two: &[Receipt<M>]) {
    check(rt, one.len() == 200);
    check(rt, two.len() == 200);
    check(rt, is_rising(one));
    check(rt, is_rising(two));
}

/// Both rise, and behind its 200 calls the second goes on above the last of the first one's 200.
fn go_on_behind<M: GateNaming>(one: &[Receipt<M>], two: &[Receipt<M>]) -> bool {
    let (Some(before), Some(behind)) = (one.get(199), two.get(200)) else {
        return false;
    };
    is_rising(one) && is_rising(two) && before.number() < behind.number()
}

#[test]
fn a_telling_takes_no_lock(rt: HostRuntime) {
    try_at(
        &rt,
        rt.alloc(),
        fixed(&rt, 1, 1, true, 3),
        Trial::TellUnderTheLock,
    );
}

/// Two passes, of which one is told what the other has seen.
#[derive(Drop)]
struct Pair<'p, M: GateNaming> {
    one: &'p mut Pass<M>,
    two: &'p mut Pass<M>,
}

/// A clock that tells a pass what another has seen, whenever it is looked at. A gate looks at the
/// clock of whoever waits under its lock.
#[derive(Drop)]
struct Telling<'a, 'p, M: GateNaming, R> {
    rt: &'a R,
    gate: &'a SharedGate<AnyLimit, M>,
    pair: Mutex<Pair<'p, M>>,
}

impl<'a, 'p, M: GateNaming, R: Wait> Clock for Telling<'a, 'p, M, R> {
    fn now(&self) -> u64 {
        let mut pair = self.pair.lock(self.rt);
        tell(self.gate, &mut *pair);
        u64::MAX
    }
}

/// The first pass is told what the second has seen.
fn tell<M: GateNaming>(gate: &SharedGate<AnyLimit, M>, pair: &mut Pair<'_, M>) {
    gate.told(pair.one, pair.two);
}

/// Numbers 0 to 2 are looks and the only permit; then somebody waits in vain, by such a clock.
pub(crate) fn tells_under_the_lock<M: GateNaming, R: Wait + SystemClock + Abort>(
    rt: &R,
    gate: &SharedGate<AnyLimit, M>,
    passes: &mut [Pass<M>],
) {
    let (waiter, others) = passes.split_first_mut().expect(rt, "a pass");
    let (one, two) = two_of(rt, others);
    looks(rt, gate, one, 0);
    let permit = admitted(rt, gate, waiter, 0);
    looks(rt, gate, two, 2);
    waits_and_tells(rt, gate, waiter, one, two);
    check(rt, one.seen() >= two.seen());
    check(rt, two.seen() == 3);
    let _receipt = gate.end(rt, waiter, permit, Outcome::Ignored, 0);
}

/// Somebody waits in vain, by a clock that tells the first of two passes what the other has seen.
fn waits_and_tells<M: GateNaming, R: Wait + SystemClock + Abort>(
    rt: &R,
    gate: &SharedGate<AnyLimit, M>,
    waiter: &mut Pass<M>,
    one: &mut Pass<M>,
    two: &mut Pass<M>,
) {
    let pair = Mutex::new(Pair { one, two });
    let clock = Telling { rt, gate, pair };
    let mut looks = MonotonicClock::new(&clock);
    let waited = gate.acquire_wait(rt, waiter, Part::Unknown, 0, &mut looks, 1);
    check(rt, timed_out(rt, waited).0 == 3);
}
