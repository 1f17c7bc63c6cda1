// A limit that rises by one and falls by a ratio.
ghost use Rattle.std.specs.Prelude.{◌≡◌, ◌≤◌, ◌↔◌, IfOk, IsOk};
ghost use Rattle.limit_laws.specs.Algorithm.{greatest_limit};
ghost use Rattle.aimd.specs.AimdRules.{IsDecrease, IsInRange, IsRatio, aimd_from, aimd_made, aimd_of};
ghost use Rattle.aimd.specs.AimdRules.{aimd_rules, decreased, greatest_ratio, with_greatest};
ghost use Rattle.aimd.specs.AimdLaws.{IsLawful-aimd};

use crate::numbers::{AimdNumbers, GREATEST_RATIO, LEAST_RATIO};
use limit_laws::{GREATEST_LIMIT, HOUR, Limit, LimitView, MakeFault, Sample, SetFault};
use std::marker::Model;

/// Rises by one permit after a sample that found at least half of the limit in use, and falls to
/// its ratio after a drop or a round trip above the timeout.
#[derive(Clone, Copy)]
pub struct Aimd {
    lo: u32,
    limit: u32,
    hi: u32,
    first: u32,
    ratio: u32,
    timeout: u64,
}

impl Model for Aimd {
    ghost use Rattle.aimd.specs.AimdRules.{AimdState, IsAimd};

    ghost Value = { AimdState };

    ghost view = { λ a. record {
      lo = a.lo;
      limit = a.limit;
      hi = a.hi;
      first = a.first;
      ratio = a.ratio;
      timeout = a.timeout;
    } };

    ghost invariant = { λ a. IsAimd (record {
      lo = a.lo;
      limit = a.limit;
      hi = a.hi;
      first = a.first;
      ratio = a.ratio;
      timeout = a.timeout;
    }) };

    ghost inverse = { λ v. record {
      lo = v.lo;
      limit = v.limit;
      hi = v.hi;
      first = v.first;
      ratio = v.ratio;
      timeout = v.timeout;
    } };
}

impl Aimd {
    /// The limit `first`, between `lo` and `hi` permits, which a drop leaves at `ratio` thousandths
    /// of itself; a round trip above `timeout` nanoseconds counts as a drop.
    ///
    /// The faults, the first that applies: [`MakeFault::Range`] unless
    /// `1 <= lo <= first <= hi <= 10,000` and `timeout` is 1 ns to one hour; [`MakeFault::Ratio`]
    /// unless `ratio` is 500 to 999.
    pub fn new(lo: u32, first: u32, hi: u32, ratio: u32, timeout: u64) -> Result<Aimd, MakeFault>
        ensures made { IsOk result ↔ (IsInRange lo first hi timeout × IsRatio ratio) }
        ensures value { IfOk result (λ aimd. aimd ≡ aimd_from lo first hi ratio timeout) }
        ensures range { ¬ IsInRange lo first hi timeout → result ≡ Err MakeFault.Range }
        ensures ratio { IsInRange lo first hi timeout → ¬ IsRatio ratio →
            result ≡ Err MakeFault.Ratio }
    {
        Aimd::of(AimdNumbers {
            lo,
            first,
            hi,
            ratio_thousandths: ratio,
            timeout_ns: timeout,
        })
    }

    /// The limit of these numbers, with the faults of [`Aimd::new`].
    pub fn of(numbers: AimdNumbers) -> Result<Aimd, MakeFault>
        ensures made { result ≡ aimd_made numbers }
        ensures value { IfOk result (λ aimd. aimd ≡ aimd_of numbers) }
    {
        let AimdNumbers { lo, first, hi, .. } = numbers;
        let ratio = numbers.ratio_thousandths;
        let timeout = numbers.timeout_ns;
        if lo < 1 || first < lo || hi < first || GREATEST_LIMIT < hi {
            return Err(MakeFault::Range);
        }
        if timeout < 1 || HOUR < timeout {
            return Err(MakeFault::Range);
        }
        if ratio < LEAST_RATIO || GREATEST_RATIO < ratio {
            return Err(MakeFault::Ratio);
        }
        Ok(Aimd {
            lo,
            limit: first,
            hi,
            first,
            ratio,
            timeout,
        })
    }

    /// The same limit in its first state with a greatest limit of `hi`, brought between its least
    /// and 10,000 permits. It begins at no more than that.
    pub fn with_greatest(&self, hi: u32) -> Aimd
        ensures { result ≡ with_greatest hi self.now }
    {
        let hi = hi.min(GREATEST_LIMIT).max(self.lo);
        let first = self.first.min(hi);
        Aimd {
            lo: self.lo,
            limit: first,
            hi,
            first,
            ratio: self.ratio,
            timeout: self.timeout,
        }
    }
}

impl Limit for Aimd {
    ghost rules = { aimd_rules };

    fn lo(&self) -> u32 {
        self.lo
    }

    fn hi(&self) -> u32 {
        self.hi
    }

    fn limit(&self) -> u32 {
        self.limit
    }

    fn view(&self) -> LimitView {
        LimitView::unmeasured(false)
    }

    fn on_sample(&mut self, sample: &Sample) {
        let next = if sample.dropped() || self.timeout < sample.rtt() {
            decrease(self.limit, self.ratio)
        } else if u64::from(self.limit) <= 2 * u64::from(sample.inflight()) {
            self.limit + 1
        } else {
            self.limit
        };
        self.limit = next.max(self.lo).min(self.hi);
    }

    fn set(&mut self, _n: u32) -> Result<(), SetFault> {
        Err(SetFault::NotSettable)
    }

    fn reset(&mut self) {
        self.limit = self.first;
    }

    fn copy(&self) -> Self {
        *self
    }

    ghost lawful = { IsLawful-aimd };
}

/// What a drop leaves of a limit: the greatest number of permits whose thousandfold is at most the
/// limit times the ratio.
#[tactic(auto, using(crate::proofs::Decrease::decreases))]
fn decrease(limit: u32, ratio: u32) -> u32
    requires limit { limit ≤ greatest_limit }
    requires ratio { ratio ≤ greatest_ratio }
    ensures value { result ≡ decreased limit ratio }
    ensures greatest { IsDecrease limit ratio result }
{
    limit * ratio / 1000
}
