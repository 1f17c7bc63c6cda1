// How often a waiter looks at its clock. Real time is looked at here, so each bound has room to
// spare.
use crate::checks::check;
use crate::test_clocks::{Counts, TestClock, looks_at, real};
use crate::waiting_tests::waits;
use std::alloc::Global;
use std::process::Abort;
use std::sync::Wait;
use std::sync::atomic::AtomicU64;
use std::thread::Threads;
use std::time::Clock as SystemClock;

/// A second, in nanoseconds.
const SECOND: u64 = 1_000_000_000;

/// How often who waits in vain looks at a clock, and for how many nanoseconds it waits.
fn looked<R: Threads + Wait + SystemClock + Abort + Sync>(
    rt: &R,
    alloc: Global,
    (most_looks, most_time): (u64, u64),
    first: u64,
    deadline: u64,
) -> (u64, u64) {
    let start = real(rt);
    let clock = TestClock::Counts(Counts {
        rt,
        start,
        looks: AtomicU64::new(0),
        most_looks,
        most_time,
        first,
        then: deadline,
    });
    waits(rt, alloc, 0, &clock, deadline);
    let time = real(rt).saturating_sub(start);
    (looks_at(&clock), time)
}

#[test]
fn who_waits_looks_three_times_in_a_second(rt: HostRuntime) {
    let (looks, time) = looked(&rt, rt.alloc(), (3, 0), 0, 3_600 * SECOND);
    check(&rt, looks == 4 && time < SECOND);
}

#[test]
fn who_waits_keeps_no_processor_busy(rt: HostRuntime) {
    let (looks, _time) = looked(&rt, rt.alloc(), (0, SECOND / 10), SECOND - 1, SECOND);
    check(&rt, looks <= 300);
}
