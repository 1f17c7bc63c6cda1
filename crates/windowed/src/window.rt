// Totals of samples.
ghost use Rattle.std.specs.Prelude.{◌≡◌, ◌/◌, ◌<◌, ◌≤◌, List, [], ◌∷◌, ◌++◌};
ghost use Rattle.limit_laws.specs.Facts.{SampleFacts, hour};
ghost use Rattle.windowed.specs.Totals.{totals, with_sample, most_samples};

use limit_laws::Sample;
use std::marker::Model;

/// The totals of the samples added, 1,000,000 of them at most.
#[derive(Clone, Copy)]
pub struct Window {
    count: u32,
    sum: u64,
    least: u64,
    greatest_inflight: u32,
    dropped: bool,
}

impl Model for Window {
    ghost use Rattle.windowed.specs.Totals.{WindowTotals, AreTotals};

    ghost Value = { WindowTotals };

    ghost view = { λ w. record {
      count = w.count;
      sum = w.sum;
      least = w.least;
      greatest_inflight = w.greatest_inflight;
      dropped = w.dropped;
    } };

    ghost invariant = { λ w. AreTotals (record {
      count = w.count;
      sum = w.sum;
      least = w.least;
      greatest_inflight = w.greatest_inflight;
      dropped = w.dropped;
    }) };

    ghost inverse = { λ t. record {
      count = t.count;
      sum = t.sum;
      least = t.least;
      greatest_inflight = t.greatest_inflight;
      dropped = t.dropped;
    } };
}

impl Window {
    /// A window of no samples.
    pub fn empty() -> Window
        ensures { result ≡ totals [] }
    {
        Window {
            count: 0,
            sum: 0,
            least: 0,
            greatest_inflight: 0,
            dropped: false,
        }
    }

    /// Adds a sample.
    pub fn add(&mut self, sample: &Sample)
        requires { self.old.count < most_samples }
        ensures adds { self.new ≡ with_sample self.old sample.now }
        ensures totals { (xs : List SampleFacts) →
            self.old ≡ totals xs → self.new ≡ totals (xs ++ sample.now ∷ []) }
    {
        let rtt = sample.rtt();
        let least = if self.count == 0 {
            rtt
        } else {
            self.least.min(rtt)
        };
        *self = Window {
            count: self.count + 1,
            sum: self.sum + rtt,
            least,
            greatest_inflight: self.greatest_inflight.max(sample.inflight()),
            dropped: self.dropped || sample.dropped(),
        };
    }

    /// How many samples were added: 1,000,000 at most.
    pub fn count(&self) -> u32
        ensures value { result ≡ self.now.count }
        ensures most { result ≤ most_samples }
    {
        self.count
    }

    /// The sum of their round trips, in nanoseconds.
    pub fn sum(&self) -> u64
        ensures { result ≡ self.now.sum }
    {
        self.sum
    }

    /// The least of their round trips, in nanoseconds; 0 without samples.
    pub fn least(&self) -> u64
        ensures value { result ≡ self.now.least }
        ensures most { result ≤ hour }
    {
        self.least
    }

    /// The greatest number of permits in flight that any of them tells of; 0 without samples.
    pub fn greatest_inflight(&self) -> u32
        ensures { result ≡ self.now.greatest_inflight }
    {
        self.greatest_inflight
    }

    /// Whether any of them was dropped.
    pub fn dropped(&self) -> bool
        ensures { result ≡ self.now.dropped }
    {
        self.dropped
    }

    /// The mean of their round trips, in whole nanoseconds: from 1 to one hour.
    pub fn mean(&self) -> u64
        requires { 0 < self.now.count }
        ensures value { result ≡ self.now.sum / self.now.count }
        ensures least { 1 ≤ result }
        ensures most { result ≤ hour }
    {
        self.sum / u64::from(self.count)
    }
}
