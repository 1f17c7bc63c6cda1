// A thousand callers that wait at once: a promotion wakes the promoted waiter, and no other. Real
// time is looked at here, so each bound has room to spare.
use crate::callers::admitted;
use crate::checks::check;
use crate::gates::{Making, Trial, settable, try_at};
use crate::test_clocks::{Counts, TestClock, looks_at, real};
use gate_history::{GateSettings, Permit};
use limit_kinds::AnyLimit;
use limiter_core::{Outcome, Promote};
use partitions::{Part, PartitionTable};
use shared_gate::{GateNaming, MonotonicClock, Pass, SharedGate, Waited};
use std::alloc::Global;
use std::process::Abort;
use std::sync::Wait;
use std::sync::atomic::{AtomicU64, Ordering};
use std::thread::{Threads, for_each_mut, join, sleep};
use std::time::{Clock as SystemClock, Duration};

/// How many callers wait at once.
const CROWD: u32 = 1_000;

/// Each 40th promoted waiter raises the limit from 1 to 21, by hand or by a reset, and sets it
/// back. So half of all waiters are promoted by one step with others, and half by an ending.
const TURNS: u64 = 40;

const RAISED: u32 = 21;

/// The most nanoseconds of real time from a promotion to where its waiter goes on: 20 ms. Of the
/// waiters that no wake reaches four of five take longer, as they look every 100 ms.
const AT_ONCE: u64 = 20_000_000;

/// How many of a thousand may take longer all the same in one of some tries: other work on the
/// machine makes some late in a try, and those whom no wake reaches are late in each. With ten busy
/// threads beside a machine of four processors 8 to 49 were late. If a step wakes only the first
/// waiter that it promotes, some 380 are; if a reset wakes none, some 200.
const MOST_LATE: u64 = 20;

const TRIES: u32 = 5;

/// The most looks at the clock: 50 for each waiter. A waiter looks ten times a second by itself,
/// and once more for each wake in vain: where each ending wakes all waiters, some 100 times.
const MOST_LOOKS: u64 = 50_000;

/// A gate, the clock of all its waiters, how many were promoted, and how many of them went on late.
#[derive(Drop)]
struct Crowd<'g, M: GateNaming, R> {
    gate: &'g SharedGate<AnyLimit, M>,
    clock: TestClock<'g, R>,
    promoted: AtomicU64,
    late: AtomicU64,
}

impl<'g, M: GateNaming, R: Wait + SystemClock + Abort> Crowd<'g, M, R> {
    /// Waits for a permit once the only one is held, notes whether it came late, and ends it.
    fn waits(&self, rt: &R, pass: &mut Pass<M>) {
        for _ in rt.forever() {
            if self.gate.counters(rt).admitted == 1 {
                break;
            }
            sleep(rt, Duration::from_millis(1));
        }
        let permit = self.promoted(rt, pass);
        if real(rt).saturating_sub(permit.facts().start) > AT_ONCE {
            self.late.fetch_add(1, Ordering::SeqCst);
        }
        let turn = self.promoted.fetch_add(1, Ordering::SeqCst);
        if turn % TURNS == 0 {
            self.promotes_twenty(rt, pass, turn % (2 * TURNS) == 0);
        }
        self.ends(rt, pass, permit);
    }

    /// The permit of a waiter that is promoted.
    fn promoted(&self, rt: &R, pass: &mut Pass<M>) -> Permit<M> {
        let mut looks = MonotonicClock::new(&self.clock);
        match self
            .gate
            .acquire_wait(rt, pass, Part::Unknown, 0, &mut looks, 1 << 62)
        {
            Waited::Promoted(_first, _second, permit) => permit,
            _ => rt.abort(),
        }
    }

    /// Raises the limit, by a reset or by hand, and sets it back.
    fn promotes_twenty(&self, rt: &R, pass: &mut Pass<M>, is_reset: bool) {
        let raised = if is_reset {
            self.gate.reset(rt, pass, real(rt))
        } else {
            self.gate.set_limit(rt, pass, RAISED, real(rt))
        };
        check(rt, raised.is_ok());
        self.sets_one(rt, pass);
    }

    /// Sets a limit of 1.
    fn sets_one(&self, rt: &R, pass: &mut Pass<M>) {
        check(rt, self.gate.set_limit(rt, pass, 1, real(rt)).is_ok());
    }

    /// Ends a permit now.
    fn ends(&self, rt: &R, pass: &mut Pass<M>, permit: Permit<M>) {
        let _receipt = self.gate.end(rt, pass, permit, Outcome::Success, real(rt));
    }

    /// Holds the only permit until all others wait for it, and a moment longer: they sleep then.
    fn holds(&self, rt: &R, pass: &mut Pass<M>) {
        self.sets_one(rt, pass);
        let permit = admitted(rt, self.gate, pass, 0);
        for _ in rt.forever() {
            if self.gate.report(rt).waiters == CROWD {
                break;
            }
            sleep(rt, Duration::from_millis(1));
        }
        sleep(rt, Duration::from_millis(20));
        self.ends(rt, pass, permit);
    }
}

#[test]
fn each_of_a_thousand_waiters_is_woken_as_it_is_promoted(rt: HostRuntime) {
    let late = AtomicU64::new(0);
    for _ in 0..TRIES {
        try_crowd(&rt, rt.alloc(), &late);
        if late.load(Ordering::SeqCst) <= MOST_LATE {
            return;
        }
    }
    check(&rt, false);
}

/// Notes how many of a crowd went on late.
fn try_crowd<R: Threads + Wait + SystemClock + Abort + Sync>(
    rt: &R,
    alloc: Global,
    late: &AtomicU64,
) {
    let settings = GateSettings {
        limit: settable(rt, 1, RAISED, RAISED),
        table: PartitionTable::unknown_only(),
        room: CROWD,
        promote: Promote::All,
        kept: 1_000_000,
        is_rolling: false,
    };
    let making = Making {
        settings,
        passes: 1_001,
    };
    try_at(rt, alloc, making, Trial::Crowd(late));
}

/// One holds the only permit until all others wait for it, each on a thread of its own. Notes how
/// many of these went on late.
pub(crate) fn all_others_wait<
    M: GateNaming + Send + Sync,
    R: Threads + Wait + SystemClock + Abort + Sync,
>(rt: &R, gate: &SharedGate<AnyLimit, M>, passes: &mut [Pass<M>], late: &AtomicU64) {
    let (one, others) = passes.split_first_mut().expect(rt, "a pass");
    let crowd = Crowd {
        gate,
        clock: TestClock::Counts(Counts::still(rt)),
        promoted: AtomicU64::new(0),
        late: AtomicU64::new(0),
    };
    let wait = |_place: usize, pass: &mut Pass<M>| crowd.waits(rt, pass);
    let _done = join(
        rt,
        || crowd.holds(rt, one),
        || for_each_mut(rt, others, CROWD as usize, &wait),
    );
    check(
        rt,
        crowd.promoted.load(Ordering::SeqCst) == u64::from(CROWD),
    );
    check(rt, looks_at(&crowd.clock) <= MOST_LOOKS);
    late.store(crowd.late.load(Ordering::SeqCst), Ordering::SeqCst);
}
