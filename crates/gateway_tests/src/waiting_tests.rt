// Waiting at a shared gate by clocks of several kinds, and a gate whose history is exhausted.
use crate::callers::{admitted, queued, timed_out};
use crate::checks::check;
use crate::gates::{Trial, fixed, try_at};
use crate::shared_gate_tests::times_out;
use crate::test_clocks::{TestClock, Waiting};
use gate_history::{Naming, Receipt, Spent, Ticket};
use limit_kinds::AnyLimit;
use limiter_core::{Counters, Event, Outcome, Reply};
use partitions::Part;
use shared_gate::{Claimed, Clock, GateNaming, Got, MonotonicClock, Pass, SharedGate, Waited};
use std::alloc::Global;
use std::process::Abort;
use std::sync::Wait;
use std::sync::atomic::AtomicU64;
use std::thread::Threads;
use std::time::Clock as SystemClock;

const UNKNOWN: Part = Part::Unknown;

/// What a clock tells after a wait in vain, that told `first` before and goes on by `step`.
fn told_after<R: Threads + Wait + SystemClock + Abort + Sync>(
    rt: &R,
    alloc: Global,
    first: u64,
    step: u64,
    deadline: u64,
) -> u64 {
    let clock = TestClock::GoesOn {
        nanos: AtomicU64::new(first),
        step,
    };
    waits(rt, alloc, 0, &clock, deadline);
    clock.now()
}

const SECOND: u64 = 1_000_000_000;

#[test]
fn who_waits_gives_up_at_the_deadline(rt: HostRuntime) {
    let told = told_after(&rt, rt.alloc(), 0, SECOND, 3 * SECOND);
    check(&rt, told == 4 * SECOND);
}

#[test]
fn after_the_deadline_one_look_at_the_clock_is_enough(rt: HostRuntime) {
    let told = told_after(&rt, rt.alloc(), 9 * SECOND, SECOND, 3 * SECOND);
    check(&rt, told == 10 * SECOND);
}

// Whoever slept until the deadline would sleep for an hour, and a test has a minute.
#[test]
fn a_far_deadline_is_looked_for_meanwhile(rt: HostRuntime) {
    let told = told_after(&rt, rt.alloc(), 0, 1_000 * SECOND, 3_000 * SECOND);
    check(&rt, told == 4_000 * SECOND);
}

// A thousand pauses of 100 ms would take 100 seconds, and a test has a minute.
#[test]
fn a_near_deadline_is_waited_for_in_short_pauses(rt: HostRuntime) {
    let told = told_after(&rt, rt.alloc(), 0, 1_000, 1_000_000);
    check(&rt, told == 1_001_000);
}

#[test]
fn a_clock_may_stand_still_at_the_deadline_or_tell_more_than_the_last_moment(rt: HostRuntime) {
    waits(&rt, rt.alloc(), 0, &TestClock::Stands(0), 0);
    waits(
        &rt,
        rt.alloc(),
        u64::MAX,
        &TestClock::Stands(u64::MAX),
        u64::MAX,
    );
}

/// A caller holds the only permit and waits for another, until its clock has reached the deadline.
pub(crate) fn waits<R: Threads + Wait + SystemClock + Abort + Sync>(
    rt: &R,
    alloc: Global,
    now: u64,
    clock: &TestClock<'_, R>,
    deadline: u64,
) {
    let waiting = Waiting {
        now,
        clock,
        deadline,
    };
    try_at(
        rt,
        alloc,
        fixed(rt, 1, 1_000, false, 1),
        Trial::WaitInVain(waiting),
    );
}

/// A wait in vain.
pub(crate) fn waits_in_vain<M: GateNaming, R: Wait + SystemClock + Abort>(
    rt: &R,
    gate: &SharedGate<AnyLimit, M>,
    pass: &mut Pass<M>,
    waiting: Waiting<'_, R>,
) {
    let now = waiting.now;
    let permit = admitted(rt, gate, pass, now);
    check(rt, permit.facts().start == now.min(1 << 62));
    let mut looks = MonotonicClock::new(waiting.clock);
    let waited = gate.acquire_wait(rt, pass, UNKNOWN, now, &mut looks, waiting.deadline);
    are_one_and_two(rt, timed_out(rt, waited));
    let ended = gate.end(rt, pass, permit, Outcome::Success, now);
    check(rt, ended.reply() == Reply::Ended { promoted: 0 });
    is_the_fourth(rt, &ended, pass);
}

/// An acquire's number and that of its giving up, right behind a first acquire.
fn are_one_and_two<R: Abort>(rt: &R, (first, second): (u64, u64)) {
    check(rt, first == 1);
    check(rt, second == 2);
}

/// A pass has made four calls, of which this was the last, and nobody else has called.
fn is_the_fourth<M: GateNaming, R: Abort>(rt: &R, receipt: &Receipt<M>, pass: &Pass<M>) {
    check(rt, receipt.number() == 3);
    check(rt, pass.count() == 4);
}

#[test]
fn an_exhausted_gate_answers_what_is_owed(rt: HostRuntime) {
    let making = fixed(&rt, 1, 2, false, 1);
    try_at(&rt, rt.alloc(), making, Trial::AnswerWhatIsOwed);
}

/// One is admitted and one waits; then nothing but a giving up and an ending is answered.
pub(crate) fn answers_what_is_owed<M: GateNaming, R: Wait + SystemClock + Abort>(
    rt: &R,
    gate: &SharedGate<AnyLimit, M>,
    pass: &mut Pass<M>,
) {
    let permit = admitted(rt, gate, pass, 0);
    let ticket = queued(rt, gate, pass, 1);
    let ticket = refuses_the_rest(rt, gate, pass, ticket);
    check(rt, times_out(rt, gate, pass, ticket) == 2);
    let ended = gate.end(rt, pass, permit, Outcome::Success, 3);
    is_the_fourth(rt, &ended, pass);
}

/// No acquire, no change and no claim is answered, and the claim's ticket comes back.
fn refuses_the_rest<M: GateNaming, R: Wait + SystemClock + Abort>(
    rt: &R,
    gate: &SharedGate<AnyLimit, M>,
    pass: &mut Pass<M>,
    ticket: Ticket<M>,
) -> Ticket<M> {
    refuses_acquires(rt, gate, pass);
    refuses_changes(rt, gate, pass);
    let ticket = handed_back(rt, gate, pass, ticket);
    is_as_before(rt, gate, pass);
    ticket
}

/// No acquire is answered.
fn refuses_acquires<M: GateNaming, R: Wait + SystemClock + Abort>(
    rt: &R,
    gate: &SharedGate<AnyLimit, M>,
    pass: &mut Pass<M>,
) {
    match gate.acquire(rt, pass, UNKNOWN, true, false, 2) {
        Got::Exhausted(spent) => check(rt, is_spent(&spent, acquire(true, false, 2))),
        _ => rt.abort(),
    }
    let still = TestClock::<R>::Stands(0);
    let mut looks = MonotonicClock::new(&still);
    match gate.acquire_wait(rt, pass, UNKNOWN, 3, &mut looks, 0) {
        Waited::Exhausted(spent) => check(rt, is_spent(&spent, acquire(false, true, 3))),
        _ => rt.abort(),
    }
}

const fn acquire(bypass: bool, wait: bool, now: u64) -> Event {
    Event::Acquire {
        part: UNKNOWN,
        bypass,
        wait,
        now,
    }
}

/// Neither settings nor a look are answered.
fn refuses_changes<M: GateNaming, R: Wait + Abort>(
    rt: &R,
    gate: &SharedGate<AnyLimit, M>,
    pass: &mut Pass<M>,
) {
    let set = gate.set_limit(rt, pass, 7, 4);
    is_refused(rt, set, Event::SetLimit { n: 7, now: 4 });
    let reset = gate.reset(rt, pass, 5);
    is_refused(rt, reset, Event::Reset { now: 5 });
    let seen = gate.look(rt, pass, UNKNOWN);
    is_refused(rt, seen, Event::Look { part: UNKNOWN });
}

/// A claim isn't answered, and its ticket comes back.
fn handed_back<M: GateNaming, R: Wait + Abort>(
    rt: &R,
    gate: &SharedGate<AnyLimit, M>,
    pass: &mut Pass<M>,
    ticket: Ticket<M>,
) -> Ticket<M> {
    match gate.claim(rt, pass, ticket) {
        Claimed::Exhausted(spent, ticket) => {
            check(rt, is_spent(&spent, Event::Claim { number: 1 }));
            ticket
        }
        _ => rt.abort(),
    }
}

/// The call of this event isn't answered.
fn is_refused<M: Naming, R: Abort>(rt: &R, told: Result<Receipt<M>, Spent<M>>, event: Event) {
    let spent = told.err().expect(rt, "no answer");
    check(rt, is_spent(&spent, event));
}

/// It tells this event, that two entries are held of two that are kept, and that the next number
/// is 2.
fn is_spent<M: Naming>(spent: &Spent<M>, event: Event) -> bool {
    spent.event() == event
        && spent.held() == 2
        && spent.kept() == 2
        && spent.next() == 2
        && !spent.is_rolling()
}

/// One was admitted and one waits, and the pass counts these two calls.
fn is_as_before<M: GateNaming, R: Wait + Abort>(
    rt: &R,
    gate: &SharedGate<AnyLimit, M>,
    pass: &Pass<M>,
) {
    let two = Counters {
        admitted: 1,
        waiting: 1,
        ..Counters::default()
    };
    check(rt, gate.counters(rt) == two);
    check(rt, pass.count() == 2);
}
