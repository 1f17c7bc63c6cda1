// The time that one call has.
ghost use Rattle.std.specs.Prelude.{◌≡◌, ◌≤◌, IfSome, is_some, None, true};
ghost use Rattle.tcp_backend.specs.CallTime.{call_deadline, countdown_to, is_over};

use clocks::Clock;
use std::time::Duration;
use timed_io::Countdown;

/// How long a connect may take, in nanoseconds: five seconds. The system alone would try for two
/// minutes.
const CONNECT_NS: u64 = 5_000_000_000;

/// A clock, and the moment by which a call is to have its whole answer, in nanoseconds of that
/// clock, where there is one.
#[derive(Drop)]
pub(crate) struct CallTime<'c, C> {
    clock: &'c C,
    deadline: Option<u64>,
}

impl<'c, C: Clock> CallTime<'c, C> {
    // A call begins that may take so many nanoseconds, where it is limited.
    pub(crate) fn begin(clock: &'c C, most_ns: Option<u64>) -> CallTime<'c, C>
        ensures limited { is_some (call_deadline result) ≡ is_some most_ns }
        ensures whole { IfSome most_ns (λ most.
            IfSome (call_deadline result) (λ deadline. most ≤ deadline)) }
    {
        let deadline = match most_ns {
            Some(most_ns) => Some(clock.now().saturating_add(most_ns)),
            None => None,
        };
        CallTime { clock, deadline }
    }

    // A countdown to its deadline, where it has one.
    pub(crate) fn countdown(&self) -> Option<Countdown<'c, C>>
        ensures { countdown_to result ≡ call_deadline self.now }
    {
        match self.deadline {
            Some(deadline) => Some(Countdown::until(self.clock, deadline)),
            None => None,
        }
    }

    // Whether the deadline was reached, where the clock told this.
    pub(crate) fn is_over(&self, looked: u64) -> bool
        ensures { result ≡ is_over (call_deadline self.now) looked }
    {
        match self.deadline {
            Some(deadline) => deadline <= looked,
            None => false,
        }
    }

    // Whether a look at the clock now finds the deadline reached. A call without one looks at none.
    pub(crate) fn is_over_now(&self) -> bool
        ensures { call_deadline self.now ≡ None → ¬ (result ≡ true) }
    {
        self.deadline.is_some() && self.is_over(self.clock.now())
    }
}

// How long the connect of a call may take that may take so many nanoseconds, where it is limited.
pub(crate) fn connect_time(most_ns: Option<u64>) -> Duration {
    Duration::from_nanos(most_ns.unwrap_or(CONNECT_NS).min(CONNECT_NS))
}
