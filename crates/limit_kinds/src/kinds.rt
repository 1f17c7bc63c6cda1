// The kinds of limit: their list, the limit of a kind, and a kind with its numbers.
ghost use Rattle.std.specs.List.{list_any};
ghost use Rattle.std.specs.Prelude.{◌≡◌, IfOk, None, Some, bytes_eq, option_map};
ghost use Rattle.std.specs.Prelude.{if◌then◌else◌};
ghost use Rattle.limit_kinds.specs.AnyKinds.{any_from, any_kind, any_with_greatest};
ghost use Rattle.limit_kinds.specs.Kinds.{base_kind, base_with_greatest, first_limit, kind_named};
ghost use Rattle.limit_kinds.specs.Kinds.{kind_word, kind_words, limit_made};

use aimd::{Aimd, AimdNumbers};
use auto::Auto;
use limit_laws::{Fixed, Limit, LimitView, MakeFault, Sample, SetFault, Settable};
use vegas::{Vegas, VegasNumbers};
use windowed::{WindowSettings, Windowed};

/// A kind of limit.
#[derive(Clone, Copy)]
pub enum LimitKind {
    /// A limit that never changes.
    Fixed,
    /// One that changes by hand alone.
    Settable,
    /// One that changes by AIMD.
    Aimd,
    /// One that changes by Vegas.
    Vegas,
    /// One that finds itself.
    Auto,
}

/// All of them.
const KINDS: [LimitKind; 5] = [
    LimitKind::Fixed,
    LimitKind::Settable,
    LimitKind::Aimd,
    LimitKind::Vegas,
    LimitKind::Auto,
];

impl LimitKind {
    /// What the kind is called.
    pub fn word(self) -> &'static str
        ensures { result.now ≡ kind_word self }
    {
        match self {
            LimitKind::Fixed => "fixed",
            LimitKind::Settable => "settable",
            LimitKind::Aimd => "aimd",
            LimitKind::Vegas => "vegas",
            LimitKind::Auto => "auto",
        }
    }

    /// The kind that is called so.
    pub fn named(word: &[u8]) -> Option<LimitKind>
        ensures kind { result ≡ kind_named word.now }
        ensures word { option_map kind_word result
            ≡ if list_any (bytes_eq word.now) kind_words then Some word.now else None }
    {
        KINDS.iter().copied().find(|kind| kind.is_called(word))
    }

    /// Whether the kind is called so.
    fn is_called(self, word: &[u8]) -> bool
        ensures { result ≡ bytes_eq word.now (kind_word self) }
    {
        word == self.word().as_bytes()
    }
}

/// A limit of one of the kinds.
#[derive(Clone, Copy)]
pub enum BaseLimit {
    Fixed(Fixed),
    Settable(Settable),
    Aimd(Aimd),
    Vegas(Vegas),
    Auto(Auto),
}

impl BaseLimit {
    /// The kind of the limit.
    pub fn kind(&self) -> LimitKind
        ensures { result ≡ base_kind self.now }
    {
        match self {
            BaseLimit::Fixed(_) => LimitKind::Fixed,
            BaseLimit::Settable(_) => LimitKind::Settable,
            BaseLimit::Aimd(_) => LimitKind::Aimd,
            BaseLimit::Vegas(_) => LimitKind::Vegas,
            BaseLimit::Auto(_) => LimitKind::Auto,
        }
    }

    /// The limit in its first state with a greatest limit of `hi` permits, by
    /// [`Aimd::with_greatest`], [`Vegas::with_greatest`] and [`Auto::up_to`]. A limit that no
    /// sample moves stays as it is.
    pub fn with_greatest(&self, hi: u32) -> BaseLimit
        ensures { result ≡ base_with_greatest hi self.now }
    {
        match self {
            BaseLimit::Fixed(_) | BaseLimit::Settable(_) => *self,
            BaseLimit::Aimd(limit) => BaseLimit::Aimd(limit.with_greatest(hi)),
            BaseLimit::Vegas(limit) => BaseLimit::Vegas(limit.with_greatest(hi)),
            BaseLimit::Auto(limit) => BaseLimit::Auto(limit.up_to(hi)),
        }
    }
}

impl Limit for BaseLimit {
    ghost use Rattle.limit_kinds.specs.Kinds.{base_rules};
    ghost use Rattle.limit_kinds.specs.KindsLaws.{IsLawful-base};

    ghost rules = { base_rules };

    fn lo(&self) -> u32 {
        match self {
            BaseLimit::Fixed(limit) => limit.lo(),
            BaseLimit::Settable(limit) => limit.lo(),
            BaseLimit::Aimd(limit) => limit.lo(),
            BaseLimit::Vegas(limit) => limit.lo(),
            BaseLimit::Auto(limit) => limit.lo(),
        }
    }

    fn hi(&self) -> u32 {
        match self {
            BaseLimit::Fixed(limit) => limit.hi(),
            BaseLimit::Settable(limit) => limit.hi(),
            BaseLimit::Aimd(limit) => limit.hi(),
            BaseLimit::Vegas(limit) => limit.hi(),
            BaseLimit::Auto(limit) => limit.hi(),
        }
    }

    fn limit(&self) -> u32 {
        match self {
            BaseLimit::Fixed(limit) => limit.limit(),
            BaseLimit::Settable(limit) => limit.limit(),
            BaseLimit::Aimd(limit) => limit.limit(),
            BaseLimit::Vegas(limit) => limit.limit(),
            BaseLimit::Auto(limit) => limit.limit(),
        }
    }

    fn view(&self) -> LimitView {
        match self {
            BaseLimit::Fixed(limit) => limit.view(),
            BaseLimit::Settable(limit) => limit.view(),
            BaseLimit::Aimd(limit) => limit.view(),
            BaseLimit::Vegas(limit) => limit.view(),
            BaseLimit::Auto(limit) => limit.view(),
        }
    }

    fn on_sample(&mut self, sample: &Sample) {
        match self {
            BaseLimit::Fixed(limit) => limit.on_sample(sample),
            BaseLimit::Settable(limit) => limit.on_sample(sample),
            BaseLimit::Aimd(limit) => limit.on_sample(sample),
            BaseLimit::Vegas(limit) => limit.on_sample(sample),
            BaseLimit::Auto(limit) => limit.on_sample(sample),
        }
    }

    fn set(&mut self, n: u32) -> Result<(), SetFault> {
        match self {
            BaseLimit::Fixed(limit) => limit.set(n),
            BaseLimit::Settable(limit) => limit.set(n),
            BaseLimit::Aimd(limit) => limit.set(n),
            BaseLimit::Vegas(limit) => limit.set(n),
            BaseLimit::Auto(limit) => limit.set(n),
        }
    }

    fn reset(&mut self) {
        match self {
            BaseLimit::Fixed(limit) => limit.reset(),
            BaseLimit::Settable(limit) => limit.reset(),
            BaseLimit::Aimd(limit) => limit.reset(),
            BaseLimit::Vegas(limit) => limit.reset(),
            BaseLimit::Auto(limit) => limit.reset(),
        }
    }

    fn copy(&self) -> Self {
        *self
    }

    ghost lawful = { IsLawful-base };
}

/// A limit to begin with and the ends of its range, in permits, whichever they are.
#[derive(Clone, Copy)]
pub struct Limits {
    /// The least limit.
    pub lo: u32,
    /// The limit to begin with.
    pub first: u32,
    /// The greatest limit.
    pub hi: u32,
}

/// A kind of limit with its numbers, whichever they are.
#[derive(Clone, Copy)]
pub enum LimitSpec {
    Fixed { permits: u32 },
    Settable(Limits),
    Aimd(AimdNumbers),
    Vegas(VegasNumbers),
    Auto(Limits),
}

impl LimitSpec {
    /// The limit of these numbers, in its first state; else the fault that its kind has first.
    ///
    /// [`MakeFault::Range`] unless a fixed limit has 1 to 10,000 permits, and one that is set by
    /// hand, or finds itself, `1 <= lo <= first <= hi <= 10,000`. The others are made by
    /// [`Aimd::of`] and [`Vegas::of`].
    pub fn make(self) -> Result<BaseLimit, MakeFault>
        ensures made { result ≡ limit_made self }
        ensures value { IfOk result (λ limit. limit ≡ first_limit self) }
    {
        match self {
            LimitSpec::Fixed { permits } => Ok(BaseLimit::Fixed(Fixed::new(permits)?)),
            LimitSpec::Settable(Limits { lo, first, hi }) => {
                Ok(BaseLimit::Settable(Settable::new(lo, first, hi)?))
            }
            LimitSpec::Aimd(numbers) => Ok(BaseLimit::Aimd(Aimd::of(numbers)?)),
            LimitSpec::Vegas(numbers) => Ok(BaseLimit::Vegas(Vegas::of(numbers)?)),
            LimitSpec::Auto(Limits { lo, first, hi }) => {
                Ok(BaseLimit::Auto(Auto::new(lo, first, hi)?))
            }
        }
    }
}

/// A limit that learns from each sample, or from windows of samples.
#[derive(Drop)]
pub enum AnyLimit {
    Plain(BaseLimit),
    Windowed(Windowed<BaseLimit>),
}

impl AnyLimit {
    /// `base` over windows of these settings, before their first sample, and without settings over
    /// each sample.
    pub fn new(base: BaseLimit, windows: Option<WindowSettings>) -> AnyLimit
        ensures { result ≡ any_from base windows }
    {
        match windows {
            None => AnyLimit::Plain(base),
            Some(settings) => AnyLimit::Windowed(Windowed::with_settings(base, settings)),
        }
    }

    /// The kind of the limit; over windows, that of the limit inside.
    pub fn kind(&self) -> LimitKind
        ensures { result ≡ any_kind self.now }
    {
        match self {
            AnyLimit::Plain(limit) => limit.kind(),
            AnyLimit::Windowed(limit) => limit.inner().kind(),
        }
    }

    /// The limit in its first state with a greatest limit of `hi` permits, by
    /// [`BaseLimit::with_greatest`]; over windows of the same numbers, before their first sample.
    pub fn with_greatest(&self, hi: u32) -> AnyLimit
        ensures { result ≡ any_with_greatest hi self.now }
    {
        match self {
            AnyLimit::Plain(limit) => AnyLimit::Plain(limit.with_greatest(hi)),
            AnyLimit::Windowed(limit) => {
                let base = limit.inner().with_greatest(hi);
                AnyLimit::Windowed(Windowed::with_settings(base, limit.settings()))
            }
        }
    }
}

impl Limit for AnyLimit {
    ghost use Rattle.limit_kinds.specs.AnyKinds.{any_rules};
    ghost use Rattle.limit_kinds.specs.AnyKindsLaws.{IsLawful-any};

    ghost rules = { any_rules };

    fn lo(&self) -> u32 {
        match self {
            AnyLimit::Plain(limit) => limit.lo(),
            AnyLimit::Windowed(limit) => limit.lo(),
        }
    }

    fn hi(&self) -> u32 {
        match self {
            AnyLimit::Plain(limit) => limit.hi(),
            AnyLimit::Windowed(limit) => limit.hi(),
        }
    }

    fn limit(&self) -> u32 {
        match self {
            AnyLimit::Plain(limit) => limit.limit(),
            AnyLimit::Windowed(limit) => limit.limit(),
        }
    }

    fn view(&self) -> LimitView {
        match self {
            AnyLimit::Plain(limit) => limit.view(),
            AnyLimit::Windowed(limit) => limit.view(),
        }
    }

    fn on_sample(&mut self, sample: &Sample) {
        match self {
            AnyLimit::Plain(limit) => limit.on_sample(sample),
            AnyLimit::Windowed(limit) => limit.on_sample(sample),
        }
    }

    fn set(&mut self, n: u32) -> Result<(), SetFault> {
        match self {
            AnyLimit::Plain(limit) => limit.set(n),
            AnyLimit::Windowed(limit) => limit.set(n),
        }
    }

    fn reset(&mut self) {
        match self {
            AnyLimit::Plain(limit) => limit.reset(),
            AnyLimit::Windowed(limit) => limit.reset(),
        }
    }

    fn copy(&self) -> Self {
        match self {
            AnyLimit::Plain(limit) => AnyLimit::Plain(limit.copy()),
            AnyLimit::Windowed(limit) => AnyLimit::Windowed(limit.copy()),
        }
    }

    ghost lawful = { IsLawful-any };
}
