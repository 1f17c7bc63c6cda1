// A limit that follows the queue behind it.
ghost use Rattle.std.specs.Prelude.{◌≡◌, ◌≤◌, ◌↔◌, IfOk, IsOk};
ghost use Rattle.limit_laws.specs.Facts.{hour};
ghost use Rattle.limit_laws.specs.Algorithm.{greatest_limit};
ghost use Rattle.vegas.specs.VegasRules.{AreThresholds, IsInRange, count_after, measured, probes};
ghost use Rattle.vegas.specs.VegasRules.{queue as queue_lem, queue_now, vegas_from, vegas_made};
ghost use Rattle.vegas.specs.VegasRules.{vegas_of, vegas_rules, with_greatest};
ghost use Rattle.vegas.specs.VegasLaws.{IsLawful-vegas};

use crate::numbers::{MOST_PROBE, MOST_QUEUE, VegasNumbers};
use limit_laws::{GREATEST_LIMIT, Limit, LimitView, MakeFault, Sample, SetFault};
use std::marker::Model;

/// Rises by one permit while the queue behind it is short, and falls by one where it is long or a
/// call was dropped.
///
/// The base round trip is the least one seen; every `probe_every` samples it is measured anew, so
/// that a backend which became slower is not taken for a queue for good.
#[derive(Clone, Copy)]
pub struct Vegas {
    lo: u32,
    limit: u32,
    hi: u32,
    first: u32,
    alpha: u32,
    beta: u32,
    probe_every: u32,
    base: Option<u64>,
    last: u64,
    count: u32,
}

impl Model for Vegas {
    ghost use Rattle.vegas.specs.VegasRules.{VegasState, IsVegas};

    ghost Value = { VegasState };

    ghost view = { λ v. record {
      lo = v.lo;
      limit = v.limit;
      hi = v.hi;
      first = v.first;
      alpha = v.alpha;
      beta = v.beta;
      probe_every = v.probe_every;
      base = v.base;
      last = v.last;
      count = v.count;
    } };

    ghost invariant = { λ v. IsVegas (record {
      lo = v.lo;
      limit = v.limit;
      hi = v.hi;
      first = v.first;
      alpha = v.alpha;
      beta = v.beta;
      probe_every = v.probe_every;
      base = v.base;
      last = v.last;
      count = v.count;
    }) };

    ghost inverse = { λ s. record {
      lo = s.lo;
      limit = s.limit;
      hi = s.hi;
      first = s.first;
      alpha = s.alpha;
      beta = s.beta;
      probe_every = s.probe_every;
      base = s.base;
      last = s.last;
      count = s.count;
    } };
}

impl Vegas {
    /// The limit `first`, between `lo` and `hi` permits. A queue below `alpha` permits raises it
    /// and one above `beta` lowers it; every `probe_every` samples the base round trip is measured
    /// anew, never where that is 0.
    ///
    /// The faults, the first that applies: [`MakeFault::Range`] unless
    /// `1 <= lo <= first <= hi <= 10,000` and `probe_every` is at most 1,000,000;
    /// [`MakeFault::Alpha`] unless `1 <= alpha <= beta <= 100`.
    pub fn new(
        lo: u32,
        first: u32,
        hi: u32,
        alpha: u32,
        beta: u32,
        probe_every: u32,
    ) -> Result<Vegas, MakeFault>
        ensures made { IsOk result
            ↔ (IsInRange lo first hi probe_every × AreThresholds alpha beta) }
        ensures value { IfOk result
            (λ vegas. vegas ≡ vegas_from lo first hi alpha beta probe_every) }
        ensures range { ¬ IsInRange lo first hi probe_every → result ≡ Err MakeFault.Range }
        ensures alpha { IsInRange lo first hi probe_every → ¬ AreThresholds alpha beta →
            result ≡ Err MakeFault.Alpha }
    {
        Vegas::of(VegasNumbers {
            lo,
            first,
            hi,
            alpha,
            beta,
            probe_every,
        })
    }

    /// The limit of these numbers, with the faults of [`Vegas::new`].
    pub fn of(numbers: VegasNumbers) -> Result<Vegas, MakeFault>
        ensures made { result ≡ vegas_made numbers }
        ensures value { IfOk result (λ vegas. vegas ≡ vegas_of numbers) }
    {
        let VegasNumbers {
            lo,
            first,
            hi,
            alpha,
            beta,
            probe_every,
        } = numbers;
        if lo < 1 || first < lo || hi < first || GREATEST_LIMIT < hi {
            return Err(MakeFault::Range);
        }
        if MOST_PROBE < probe_every {
            return Err(MakeFault::Range);
        }
        if alpha < 1 || beta < alpha || MOST_QUEUE < beta {
            return Err(MakeFault::Alpha);
        }
        Ok(Vegas {
            lo,
            limit: first,
            hi,
            first,
            alpha,
            beta,
            probe_every,
            base: None,
            last: 0,
            count: 0,
        })
    }

    /// The same limit in its first state with a greatest limit of `hi`, brought between its least
    /// and 10,000 permits. It begins at no more than that.
    pub fn with_greatest(&self, hi: u32) -> Vegas
        ensures { result ≡ with_greatest hi self.now }
    {
        let hi = hi.min(GREATEST_LIMIT).max(self.lo);
        let first = self.first.min(hi);
        Vegas {
            lo: self.lo,
            limit: first,
            hi,
            first,
            alpha: self.alpha,
            beta: self.beta,
            probe_every: self.probe_every,
            base: None,
            last: 0,
            count: 0,
        }
    }

    /// Counts a sample, and says whether the base is to be measured anew by it.
    fn count_sample(&mut self) -> bool
        ensures probes { result ≡ probes self.old }
        ensures counted { self.new ≡ record self.old { count = count_after self.old } }
    {
        if self.probe_every == 0 {
            return false;
        }
        self.count += 1;
        if self.count < self.probe_every {
            return false;
        }
        self.count = 0;
        true
    }

    /// The queue that the last round trip stands for under the limit now, where there is a base.
    fn queue_now(&self) -> Option<u64>
        ensures { result ≡ queue_now self.now }
    {
        match self.base {
            None => None,
            Some(base) => Some(queue(self.limit, self.last, base)),
        }
    }

    /// The limit after a sample that took no less than the base, before it is brought into bounds.
    fn measured(&self, base: u64, sample: &Sample) -> u32
        requires { base ≤ sample.now.rtt }
        ensures { result ≡ measured self.now base sample.now }
    {
        if sample.dropped() {
            return self.limit - 1;
        }
        if 2 * u64::from(sample.inflight()) < u64::from(self.limit) {
            return self.limit;
        }
        let queue = queue(self.limit, sample.rtt(), base);
        if queue < u64::from(self.alpha) {
            self.limit + 1
        } else if u64::from(self.beta) < queue {
            self.limit - 1
        } else {
            self.limit
        }
    }
}

impl Limit for Vegas {
    ghost rules = { vegas_rules };

    fn lo(&self) -> u32 {
        self.lo
    }

    fn hi(&self) -> u32 {
        self.hi
    }

    fn limit(&self) -> u32 {
        self.limit
    }

    fn view(&self) -> LimitView {
        LimitView {
            by_hand: false,
            base_ns: self.base,
            window: None,
            queue: self.queue_now(),
        }
    }

    fn on_sample(&mut self, sample: &Sample) {
        let probes = self.count_sample();
        match self.base {
            Some(base) if !probes && base <= sample.rtt() => {
                let next = self.measured(base, sample);
                self.limit = next.max(self.lo).min(self.hi);
            }
            _ => self.base = Some(sample.rtt()),
        }
        self.last = sample.rtt();
    }

    fn set(&mut self, _n: u32) -> Result<(), SetFault> {
        Err(SetFault::NotSettable)
    }

    fn reset(&mut self) {
        self.limit = self.first;
        self.base = None;
        self.last = 0;
        self.count = 0;
    }

    fn copy(&self) -> Self {
        *self
    }

    ghost lawful = { IsLawful-vegas };
}

/// How many of the permits of a limit wait in a queue, rounded up: the part of the round trip that
/// is above the base, as a part of the limit.
#[tactic(auto, using(crate::proofs::Least::queues))]
fn queue(limit: u32, rtt: u64, base: u64) -> u64
    requires limit { limit ≤ greatest_limit }
    requires base { base ≤ rtt }
    requires least { 1 ≤ rtt }
    requires most { rtt ≤ hour }
    ensures { result ≡ queue_lem limit rtt base }
{
    (u64::from(limit) * (rtt - base)).div_ceil(rtt)
}
