// Clocks of the tests' own, and waiting by one of them.
use shared_gate::Clock;
use std::sync::atomic::{AtomicU64, Ordering};
use std::time::Clock as SystemClock;

/// The nanoseconds that the system's clock tells.
pub(crate) fn real<R: SystemClock>(rt: &R) -> u64 {
    match rt.monotonic() {
        Ok(now) => u64::try_from(now.as_nanos()).unwrap_or(u64::MAX),
        Err(_) => 0,
    }
}

/// A clock that counts how often it is looked at. It stands at `first` for so many looks and for so
/// many nanoseconds of real time since its start, and then tells `then`.
#[derive(Drop)]
pub(crate) struct Counts<'r, R> {
    pub(crate) rt: &'r R,
    pub(crate) start: u64,
    pub(crate) looks: AtomicU64,
    pub(crate) most_looks: u64,
    pub(crate) most_time: u64,
    pub(crate) first: u64,
    pub(crate) then: u64,
}

impl<'r, R> Counts<'r, R> {
    /// A clock that stands at 0 for good.
    pub(crate) fn still(rt: &'r R) -> Counts<'r, R> {
        Counts {
            rt,
            start: 0,
            looks: AtomicU64::new(0),
            most_looks: 0,
            most_time: 0,
            first: 0,
            then: 0,
        }
    }
}

/// A clock of a test.
#[derive(Drop)]
pub(crate) enum TestClock<'r, R> {
    /// It stands at this moment.
    Stands(u64),
    /// It goes on by a step at each look.
    GoesOn { nanos: AtomicU64, step: u64 },
    /// It counts how often it is looked at.
    Counts(Counts<'r, R>),
}

impl<'r, R: SystemClock> Clock for TestClock<'r, R> {
    fn now(&self) -> u64 {
        match self {
            TestClock::Stands(now) => *now,
            TestClock::GoesOn { nanos, step } => nanos.fetch_add(*step, Ordering::SeqCst),
            TestClock::Counts(counts) => {
                let looks = counts.looks.fetch_add(1, Ordering::SeqCst);
                let time = real(counts.rt).saturating_sub(counts.start);
                if looks < counts.most_looks || time < counts.most_time {
                    counts.first
                } else {
                    counts.then
                }
            }
        }
    }
}

/// How often a clock was looked at that counts it.
pub(crate) fn looks_at<R>(clock: &TestClock<'_, R>) -> u64 {
    match clock {
        TestClock::Counts(counts) => counts.looks.load(Ordering::SeqCst),
        _ => 0,
    }
}

/// Who waits: from a moment on, by a clock, until a deadline.
#[derive(Drop)]
pub(crate) struct Waiting<'c, R> {
    pub(crate) now: u64,
    pub(crate) clock: &'c TestClock<'c, R>,
    pub(crate) deadline: u64,
}
