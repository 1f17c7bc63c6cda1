// The settings for a number of exchanges at once.
ghost use Rattle.std.specs.Prelude.{◌≡◌, ℕ, ◌+◌, ◌≤◌, ◌↔◌, IfErr, IfOk, IsOk};
ghost use Rattle.limit_laws.specs.Algorithm.{IsWithin, greatest_limit};
ghost use Rattle.limit_kinds.specs.AnyKinds.{any_rules, any_with_greatest};
ghost use Rattle.partitions.specs.Table.{bound};
ghost use Rattle.gateway_settings.specs.Exchanges.{AreEnough, backlog_for, bodies_bound, bodies_for};
ghost use Rattle.gateway_settings.specs.Exchanges.{gives_way, greatest_hi};
ghost use Rattle.gateway_settings.specs.Exchanges.{AreEnoughFor, AreTooFew, least_hi, settings_by};
ghost use Rattle.gateway_settings.specs.Exchanges.{settings_for, waiting_for};
ghost use Rattle.gateway_settings.specs.Settings.{AreSound};
ghost use Rattle.gateway_settings.specs.Workers.{waiting};

use crate::settings::Settings;
use limit_kinds::{AnyLimit, LimitKind};
use limit_laws::{GREATEST_LIMIT, Limit};

/// How many bytes a MiB is.
const MIB: u64 = 1 << 20;

/// How many MiB all bodies of a number of exchanges may have, where that isn't written.
const BODIES_OF_EXCHANGES_MIB: u32 = 1_024;

/// Why settings are not those for a number of exchanges: there are too few.
#[derive(Clone, Copy)]
pub struct TooFewExchanges {
    /// How many are wanted at least.
    pub wanted: u32,
}

impl Settings {
    /// The settings for so many exchanges at once, one of which refuses what is more than those in
    /// flight and those that wait.
    ///
    /// An omitted backlog is a fourth of the exchanges at most. A limit with an omitted greatest
    /// one goes up to what is left, one that finds itself no further than by its own, and begins
    /// at no more than that.
    pub fn for_exchanges(self, exchanges: u32) -> Result<Settings, TooFewExchanges>
        requires { AreSound self }
        ensures settings { IfOk result (λ settings. settings ≡ settings_for exchanges self) }
        ensures fit { IfOk result (λ settings. bound settings.table (any_rules.hi settings.limit)
            + waiting settings + 1 ≤ exchanges) }
        ensures sound { IfOk result AreSound }
        ensures enough { IsOk result ↔ AreEnough exchanges self }
        ensures wanted { IfErr result (λ fault. AreEnough fault.wanted self) }
        ensures least { IfErr result (λ fault. (n : ℕ) → AreEnough n self → fault.wanted ≤ n) }
    {
        let wanted = self.least_exchanges();
        if exchanges < wanted {
            return Err(TooFewExchanges { wanted });
        }
        let backlog = self.backlog_for(exchanges);
        let limit = self.limit_within(exchanges);
        Ok(Settings {
            backlog,
            bodies_mib: self.bodies_for(),
            limit,
            exchanges: Some(exchanges),
            ..self
        })
    }

    /// The settings by which clients are served: those of [`Settings::for_exchanges`] where a
    /// number of exchanges is given, and otherwise these.
    pub fn by_exchanges(self, exchanges: Option<u32>) -> Result<Settings, TooFewExchanges>
        requires { AreSound self }
        ensures settings { IfOk result (λ settings. settings ≡ settings_by exchanges self) }
        ensures enough { IfOk result (λ _. AreEnoughFor exchanges self) }
        ensures sound { IfOk result AreSound }
        ensures too_few { IfErr result (λ few. AreTooFew exchanges self few.wanted) }
    {
        match exchanges {
            Some(exchanges) => self.for_exchanges(exchanges),
            None => Ok(self),
        }
    }

    /// How many bytes all bodies that are held may have together; none where there is no bound.
    pub fn bodies_bound(&self) -> Option<u64>
        requires { AreSound self.now }
        ensures { result ≡ bodies_bound self.now }
    {
        if self.omitted.bodies && self.exchanges.is_none() {
            None
        } else {
            Some(u64::from(self.bodies_mib) * MIB)
        }
    }

    /// How many MiB they may have for a number of exchanges.
    fn bodies_for(&self) -> u32
        ensures { result ≡ bodies_for self.now }
    {
        if self.omitted.bodies {
            BODIES_OF_EXCHANGES_MIB
        } else {
            self.bodies_mib
        }
    }

    /// The least number of exchanges that is enough.
    fn least_exchanges(&self) -> u32
        requires { AreSound self.now }
        ensures enough { AreEnough result self.now }
        ensures least { (n : ℕ) → AreEnough n self.now → result ≤ n }
    {
        let permits = self.table.most(self.least_hi());
        if !self.wait {
            return permits as u32 + 1;
        }
        let all = permits + u64::from(self.backlog);
        if !self.omitted.backlog {
            return all as u32 + 1;
        }
        // Everybody's places are a fourth of the exchanges at most, so that the others are three.
        let others = permits + self.table.placed();
        (others * 4 / 3).min(all) as u32 + 1
    }

    /// The least greatest limit that the settings allow, in permits.
    fn least_hi(&self) -> u32
        ensures value { result ≡ least_hi self.now }
        ensures small { result ≤ 10000 }
    {
        if self.gives_way() {
            self.limit.lo()
        } else {
            self.limit.hi()
        }
    }

    /// Whether the limit takes what is left of the exchanges.
    fn gives_way(&self) -> bool
        ensures { result ≡ gives_way self.now }
    {
        match self.limit.kind() {
            LimitKind::Fixed | LimitKind::Settable => false,
            LimitKind::Aimd | LimitKind::Vegas => self.omitted.limit_max,
            LimitKind::Auto => true,
        }
    }

    /// The backlog for so many exchanges.
    fn backlog_for(&self, exchanges: u32) -> u32
        requires { AreSound self.now }
        ensures { result ≡ backlog_for exchanges self.now }
    {
        if !self.omitted.backlog {
            return self.backlog;
        }
        let own = self.table.placed() as u32;
        self.backlog.min(exchanges / 4 + own)
    }

    /// How many of so many exchanges can wait.
    fn waiting_for(&self, exchanges: u32) -> u32
        requires { AreSound self.now }
        ensures value { result ≡ waiting_for exchanges self.now }
        ensures most { result ≤ 10000 }
    {
        if self.wait {
            self.backlog_for(exchanges)
        } else {
            0
        }
    }

    /// The limit for so many exchanges.
    fn limit_within(&self, exchanges: u32) -> AnyLimit
        requires sound { AreSound self.now }
        requires enough { AreEnough exchanges self.now }
        ensures value { result ≡ (settings_for exchanges self.now).limit }
        ensures fits { bound self.now.table (any_rules.hi result)
            + waiting_for exchanges self.now + 1 ≤ exchanges }
    {
        if self.gives_way() {
            self.limit.with_greatest(self.greatest_hi(exchanges))
        } else {
            self.limit.copy()
        }
    }

    /// The greatest limit that so many exchanges can serve, as far as the limit goes at all.
    fn greatest_hi(&self, exchanges: u32) -> u32
        requires { AreSound self.now }
        ensures value { result ≡ greatest_hi exchanges self.now }
        ensures within { IsWithin any_rules (any_with_greatest greatest_limit self.now.limit) }
    {
        let others = u64::from(self.waiting_for(exchanges)) + 1;
        let mut hi = self.limit.with_greatest(GREATEST_LIMIT).hi();
        while hi > 0 && u64::from(exchanges) < self.table.most(hi) + others {
            hi -= 1;
        }
        hi
    }
}
