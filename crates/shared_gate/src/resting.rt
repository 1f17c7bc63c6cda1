// Rests of who waits.
ghost use Rattle.std.specs.Prelude.{◌≡◌, ◌≤◌, true};

use clocks::{Clock, MonotonicClock};
use std::sync::Wait;
use std::thread;
use std::time::{Clock as SystemClock, Duration};

/// The most nanoseconds from one look at the clock of a waiter to the next: 100 ms, since the clock
/// that it looks at need not go as the system's does.
const LONGEST_PAUSE_NS: u64 = 100_000_000;

/// The fewest that it asks to sleep: 1 ms, so that a clock that stands still before the deadline
/// keeps no processor busy.
const SHORTEST_PAUSE_NS: u64 = 1_000_000;

/// How long to sleep where so many nanoseconds are left.
pub(crate) fn pause_for(left: u64) -> Duration {
    Duration::from_nanos(left.clamp(SHORTEST_PAUSE_NS, LONGEST_PAUSE_NS))
}

/// Rests until the clock has reached the deadline, unless it has. Who was granted a permit isn't
/// told that the time is over, so nobody rests here; but a look at the limiter tells nothing of the
/// steps behind it.
pub(crate) fn rest<R: Wait + SystemClock, C: Clock>(
    rt: &R,
    looks: &mut MonotonicClock<'_, C, ()>,
    deadline: u64,
    is_over: bool,
)
    requires { is_over ≡ true → deadline ≤ looks.old.latest }
    ensures { deadline ≤ looks.new.latest }
{
    if is_over {
        return;
    }
    for _ in rt.forever() {
        let now = looks.look();
        if now >= deadline {
            return;
        }
        thread::sleep(rt, pause_for(deadline - now));
    }
    unreachable!()
}
