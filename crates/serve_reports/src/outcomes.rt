// How many permits of each class ended, by their outcome.
ghost use Rattle.std.specs.Prelude.{◌≡◌, ◌<◌};
ghost use Rattle.serve_reports.specs.Outcomes.{ended, ended_at, ended_by, waited_at, waited_by};

use crate::refusals::{raise, told_place};
use limiter_core::Outcome;
use proxy::{ExchangeSummary, Verdict};

/// How many permits of each class ended since the start, by what the limit learned: of `Known(0)`
/// to `Known(3)`, and last of all other callers, as a report tells its counts. The three outcomes
/// of a class together are its requests that got a permit. A count stays at `u64::MAX`.
#[derive(Clone, Copy, Default)]
pub struct OutcomeTally {
    /// The backend answered.
    pub success: [u64; 5],
    /// What came of the request says nothing of the backend's load.
    pub ignored: [u64; 5],
    /// The backend had too much to do.
    pub dropped: [u64; 5],
    /// Whatever the outcome, the permit was waited for: it started after it was asked for.
    pub promoted: [u64; 5],
}

impl OutcomeTally {
    /// Counts an exchange, where its request got a permit.
    pub fn count(&mut self, exchange: &ExchangeSummary)
        ensures { self.new ≡ ended exchange.now self.old }
    {
        self.count_outcome(exchange);
        self.count_wait(exchange);
    }

    /// Counts with which outcome the permit ended.
    fn count_outcome(&mut self, exchange: &ExchangeSummary)
        ensures { self.new ≡ ended_by exchange.now.class exchange.now.admission
            exchange.now.outcome self.old }
    {
        if let (Some(class), Verdict::Admitted) = (exchange.class, exchange.admission) {
            if let Some(outcome) = exchange.outcome {
                self.count_at(told_place(class.part), outcome);
            }
        }
    }

    /// Counts whether the permit was waited for.
    fn count_wait(&mut self, exchange: &ExchangeSummary)
        ensures { self.new ≡ waited_by exchange.now.class exchange.now.permit self.old }
    {
        if let (Some(class), Some(permit)) = (exchange.class, exchange.permit) {
            self.count_wait_at(told_place(class.part), permit.waited);
        }
    }

    /// Counts a permit of a class that was waited for so long, in nanoseconds.
    fn count_wait_at(&mut self, place: usize, waited: u64)
        requires { place < 5 }
        ensures { self.new ≡ waited_at place waited self.old }
    {
        if 0 < waited {
            raise(&mut self.promoted, place);
        }
    }

    /// Counts an outcome of a class.
    fn count_at(&mut self, place: usize, outcome: Outcome)
        requires { place < 5 }
        ensures { self.new ≡ ended_at place outcome self.old }
    {
        match outcome {
            Outcome::Success => raise(&mut self.success, place),
            Outcome::Ignored => raise(&mut self.ignored, place),
            Outcome::Dropped => raise(&mut self.dropped, place),
        }
    }
}
