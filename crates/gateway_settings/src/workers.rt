// The limit that workers can serve.
ghost use Rattle.std.specs.Prelude.{◌≡◌, ◌≤◌};
ghost use Rattle.gateway_settings.specs.Settings.{AreSound};
ghost use Rattle.gateway_settings.specs.Workers.{left_over, limit_for, waiting};

use crate::settings::Settings;
use limit_kinds::{AnyLimit, BaseLimit};
use limit_laws::Limit;

/// The limit of which the shares are taken that come to the parts of a whole.
const WHOLE: u32 = 1_000;

impl Settings {
    /// How many callers can wait: nobody where refused callers don't.
    pub fn waiting(&self) -> u32
        ensures { result ≡ waiting self.now }
    {
        if self.wait { self.backlog } else { 0 }
    }

    /// How many permits so many workers leave over for a limit: they serve those in flight, by the
    /// limit or by a share of it, and those who wait, and one refuses the rest. At least half of
    /// the workers, even where more may wait than that leaves.
    pub fn left_over(&self, workers: u32) -> u32
        requires { AreSound self.now }
        ensures { result ≡ left_over workers self.now }
    {
        let taken = 1 + self.waiting() + self.table.len() as u32;
        let left = u64::from(workers.saturating_sub(taken)) * u64::from(WHOLE);
        let part = (left / self.table.most(WHOLE)).min(u64::from(workers)) as u32;
        part.max(workers / 2)
    }

    /// The limit before so many workers, in its first state: one that finds itself goes up to what
    /// they leave over, unless its own greatest limit is less. A limit that was made for a number
    /// of exchanges stays.
    pub fn limit_for(&self, workers: u32) -> AnyLimit
        requires { AreSound self.now }
        ensures { result ≡ limit_for workers self.now }
    {
        if self.exchanges.is_some() {
            return self.limit.copy();
        }
        match &self.limit {
            AnyLimit::Plain(BaseLimit::Auto(auto)) => {
                AnyLimit::Plain(BaseLimit::Auto(auto.up_to(self.left_over(workers))))
            }
            limit => limit.copy(),
        }
    }
}
