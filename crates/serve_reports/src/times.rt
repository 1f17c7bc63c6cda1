// How long exchanges took, and what they waited for.
ghost use Rattle.std.specs.Prelude.{◌≡◌, ℕ, List, [], ◌∷◌, ◌++◌};
ghost use Rattle.histogram.specs.Histogram.{IsHistogramOf};
ghost use Rattle.serve_reports.specs.Times.{round_trip_in, waited_in};

use histogram::Histogram;
use proxy::ExchangeSummary;

/// The times of the exchanges since the start.
#[derive(Clone, Copy)]
pub struct TimeTally {
    /// How long each permit was waited for, from its asking to its start.
    pub waited: Histogram,
    /// How long each permit was held: the backend's round trip, as the limit learns of it.
    pub round_trip: Histogram,
    /// How long each exchange took, from when its client was accepted until its connection was
    /// closed.
    pub exchange: Histogram,
}

impl TimeTally {
    /// There was no exchange.
    pub fn new() -> TimeTally
        ensures waited { IsHistogramOf [] result.waited }
        ensures round_trip { IsHistogramOf [] result.round_trip }
        ensures exchange { IsHistogramOf [] result.exchange }
    {
        TimeTally {
            waited: Histogram::new(),
            round_trip: Histogram::new(),
            exchange: Histogram::new(),
        }
    }

    /// Counts an exchange that took so many nanoseconds.
    pub fn count(&mut self, exchange: &ExchangeSummary, took: u64)
        ensures waited { (times : List ℕ) → IsHistogramOf times self.old.waited
            → IsHistogramOf (waited_in exchange.now ++ times) self.new.waited }
        ensures round_trip { (times : List ℕ) → IsHistogramOf times self.old.round_trip
            → IsHistogramOf (round_trip_in exchange.now ++ times) self.new.round_trip }
        ensures exchange { (times : List ℕ) → IsHistogramOf times self.old.exchange
            → IsHistogramOf (took ∷ times) self.new.exchange }
    {
        if let Some(permit) = exchange.permit {
            self.waited.note(permit.waited);
            self.round_trip.note(permit.round_trip);
        }
        self.exchange.note(took);
    }
}
