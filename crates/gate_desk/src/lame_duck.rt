// A gateway that is to be drained, and still takes clients.
use crate::desk_listener::DeskListener;
use clocks::Clock;
use limit_laws::LAST_MOMENT;
use listening::Listener;
use std::sync::atomic::{AtomicU64, Ordering};
use std::thread;
use std::time::{Clock as SystemClock, Duration};

/// From one look at the clock to the next, in milliseconds.
const PAUSE_MS: u32 = 20;

/// The nanoseconds of a millisecond.
const MILLI: u64 = 1_000_000;

/// When a gateway is to be drained, which all who may ask for it share. Until then it is a lame
/// duck: it serves whoever comes, and tells that it isn't healthy, so that whatever balances load
/// sends clients elsewhere.
#[derive(Drop)]
pub struct LameDuck {
    // In nanoseconds, by the clock of the gate's moments; none is above 2^62.
    until: AtomicU64,
}

impl LameDuck {
    /// Nobody has asked for a drain.
    pub fn new() -> LameDuck {
        LameDuck {
            until: AtomicU64::new(u64::MAX),
        }
    }

    /// Whether a drain was asked for.
    pub fn has_begun(&self) -> bool {
        self.until.load(Ordering::SeqCst) <= LAST_MOMENT
    }

    /// The gateway is to be drained at this moment, where that isn't to be before already.
    pub(crate) fn begin(&self, until: u64) {
        self.until
            .fetch_min(until.min(LAST_MOMENT), Ordering::SeqCst);
    }

    /// Waits until the gateway is to be drained, for so many milliseconds at most, and no longer
    /// than connections come from a listener.
    pub(crate) fn rest<R: SystemClock, C: Clock, L: Listener>(
        &self,
        rt: &R,
        clock: &C,
        listener: &DeskListener<'_, L>,
        most_ms: u32,
    ) {
        for _ in 0..=most_ms / PAUSE_MS {
            let left_ns = self
                .until
                .load(Ordering::SeqCst)
                .saturating_sub(clock.now());
            if left_ns == 0 || !listener.is_open() {
                return;
            }
            let pause_ns = left_ns.min(u64::from(PAUSE_MS) * MILLI);
            thread::sleep(rt, Duration::from_nanos(pause_ns));
        }
    }
}
