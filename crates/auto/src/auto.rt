// A limit that needs no numbers.
ghost use Rattle.std.specs.Prelude.{◌≡◌, ◌↔◌, IfOk, IsOk, OnErr};
ghost use Rattle.auto.specs.AutoState.{IsInRange};
ghost use Rattle.auto.specs.AutoRules.{auto_from, auto_rules, up_to};
ghost use Rattle.auto.specs.AutoLaws.{IsLawful-auto};

use crate::learned::Learned;
use limit_laws::{GREATEST_LIMIT, Limit, LimitView, MakeFault, Sample, SetFault};
use std::marker::Model;

/// Finds the limit by what answers take and how many are in flight.
#[derive(Clone, Copy)]
pub struct Auto {
    lo: u32,
    first: u32,
    hi: u32,
    learned: Learned,
}

impl Model for Auto {
    ghost use Rattle.auto.specs.AutoState.{AutoState, IsAuto};

    ghost Value = { AutoState };

    ghost view = { λ a. record { lo = a.lo; first = a.first; hi = a.hi; learned = a.learned } };

    ghost invariant = { λ a. IsAuto (record {
      lo = a.lo;
      first = a.first;
      hi = a.hi;
      learned = a.learned;
    }) };

    ghost inverse = { λ s. record { lo = s.lo; first = s.first; hi = s.hi; learned = s.learned } };
}

impl Auto {
    /// The limit `first`, between `lo` and `hi` permits; [`MakeFault::Range`] unless
    /// `1 <= lo <= first <= hi <= 10,000`.
    pub fn new(lo: u32, first: u32, hi: u32) -> Result<Auto, MakeFault>
        ensures made { IsOk result ↔ IsInRange lo first hi }
        ensures value { IfOk result (λ auto. auto ≡ auto_from lo first hi) }
        ensures range { OnErr result (result ≡ Err MakeFault.Range) }
    {
        if lo < 1 || first < lo || hi < first || GREATEST_LIMIT < hi {
            return Err(MakeFault::Range);
        }
        Ok(Auto {
            lo,
            first,
            hi,
            learned: Learned::none(first),
        })
    }

    /// The same limit in its first state with a greatest limit of `hi`, unless its own is less; of
    /// `lo` where `hi` is less than that.
    pub fn up_to(&self, hi: u32) -> Auto
        ensures { result ≡ up_to hi self.now }
    {
        let hi = self.hi.min(hi).max(self.lo);
        let first = self.first.min(hi);
        Auto {
            lo: self.lo,
            first,
            hi,
            learned: Learned::none(first),
        }
    }
}

impl Limit for Auto {
    ghost rules = { auto_rules };

    fn lo(&self) -> u32 {
        self.lo
    }

    fn hi(&self) -> u32 {
        self.hi
    }

    fn limit(&self) -> u32 {
        self.learned.shown(self.lo, self.hi)
    }

    fn view(&self) -> LimitView {
        self.learned.view(self.lo, self.hi)
    }

    fn on_sample(&mut self, sample: &Sample) {
        self.learned.learn(self.lo, self.hi, sample);
    }

    fn set(&mut self, _n: u32) -> Result<(), SetFault> {
        Err(SetFault::NotSettable)
    }

    fn reset(&mut self) {
        self.learned = Learned::none(self.first);
    }

    fn copy(&self) -> Self {
        *self
    }

    ghost lawful = { IsLawful-auto };
}
