// The keys and their sections.
ghost use Rattle.std.specs.Prelude.{◌≡◌, Some};
ghost use Rattle.gate_config.specs.Rows.{name_of, path_of, prefix_of, section_of};

use std::fmt;

/// A part of the configuration: its top, or one of its tables.
#[derive(Clone, Copy)]
pub enum Section {
    Top,
    Limit,
    Window,
    Class,
    Resolver,
    Bypass,
}

impl Section {
    /// What the section's keys begin with in their dotted path.
    pub fn prefix(self) -> &'static str
        ensures { result.now ≡ prefix_of self }
    {
        match self {
            Section::Top => "",
            Section::Limit => "limit.",
            Section::Window => "window.",
            Section::Class => "class.",
            Section::Resolver => "resolver.",
            Section::Bypass => "bypass.",
        }
    }
}

/// A key of the configuration, printed as its dotted path without places in arrays.
#[derive(Clone, Copy)]
pub enum Key {
    Version,
    Listen,
    Backend,
    Backlog,
    Wait,
    TimeoutMs,
    Clients,
    ClientIdleMs,
    Backends,
    BackendIdleMs,
    BodiesMib,
    Keep,
    Promote,
    Limit,
    LimitKind,
    LimitMin,
    LimitMax,
    LimitInitial,
    LimitRatio,
    LimitTimeoutUs,
    LimitAlpha,
    LimitBeta,
    LimitProbeEvery,
    Window,
    WindowSize,
    WindowMinUs,
    WindowMaxUs,
    WindowMinRttUs,
    Class,
    ClassName,
    ClassPercent,
    ClassShare,
    ClassPlaces,
    Resolver,
    ResolverKind,
    ResolverHeader,
    ResolverMethod,
    ResolverClass,
    ResolverRoutes,
    Bypass,
    BypassKind,
    BypassMethod,
    BypassPrefix,
    BypassHeader,
    BypassEquals,
}

impl Key {
    /// The section that has the key.
    pub fn section(self) -> Section
        ensures { result ≡ section_of self }
    {
        match self {
            Key::Version
            | Key::Listen
            | Key::Backend
            | Key::Backlog
            | Key::Wait
            | Key::TimeoutMs
            | Key::Clients
            | Key::ClientIdleMs
            | Key::Backends
            | Key::BackendIdleMs
            | Key::BodiesMib
            | Key::Keep
            | Key::Promote
            | Key::Limit
            | Key::Window
            | Key::Class
            | Key::Resolver
            | Key::Bypass => Section::Top,
            Key::LimitKind
            | Key::LimitMin
            | Key::LimitMax
            | Key::LimitInitial
            | Key::LimitRatio
            | Key::LimitTimeoutUs
            | Key::LimitAlpha
            | Key::LimitBeta
            | Key::LimitProbeEvery => Section::Limit,
            Key::WindowSize | Key::WindowMinUs | Key::WindowMaxUs | Key::WindowMinRttUs => {
                Section::Window
            }
            Key::ClassName | Key::ClassPercent | Key::ClassShare | Key::ClassPlaces => {
                Section::Class
            }
            Key::ResolverKind
            | Key::ResolverHeader
            | Key::ResolverMethod
            | Key::ResolverClass
            | Key::ResolverRoutes => Section::Resolver,
            Key::BypassKind
            | Key::BypassMethod
            | Key::BypassPrefix
            | Key::BypassHeader
            | Key::BypassEquals => Section::Bypass,
        }
    }

    /// The key's name in its section.
    pub fn name(self) -> &'static str
        ensures { result.now ≡ name_of self }
    {
        match self {
            Key::Version => "version",
            Key::Listen => "listen",
            Key::Backend => "backend",
            Key::Backlog => "backlog",
            Key::Wait => "wait",
            Key::TimeoutMs => "timeout_ms",
            Key::Clients => "clients",
            Key::ClientIdleMs => "client_idle_ms",
            Key::Backends => "backends",
            Key::BackendIdleMs => "backend_idle_ms",
            Key::BodiesMib => "bodies_mib",
            Key::Keep => "keep",
            Key::Promote => "promote",
            Key::Limit => "limit",
            Key::LimitKind | Key::ResolverKind | Key::BypassKind => "kind",
            Key::LimitMin => "min",
            Key::LimitMax => "max",
            Key::LimitInitial => "initial",
            Key::LimitRatio => "ratio",
            Key::LimitTimeoutUs => "timeout_us",
            Key::LimitAlpha => "alpha",
            Key::LimitBeta => "beta",
            Key::LimitProbeEvery => "probe_every",
            Key::Window => "window",
            Key::WindowSize => "size",
            Key::WindowMinUs => "min_us",
            Key::WindowMaxUs => "max_us",
            Key::WindowMinRttUs => "min_rtt_us",
            Key::Class | Key::ResolverClass => "class",
            Key::ClassName => "name",
            Key::ClassPercent => "percent",
            Key::ClassShare => "share",
            Key::ClassPlaces => "places",
            Key::Resolver => "resolver",
            Key::ResolverHeader | Key::BypassHeader => "header",
            Key::ResolverMethod | Key::BypassMethod => "method",
            Key::ResolverRoutes => "routes",
            Key::Bypass => "bypass",
            Key::BypassPrefix => "prefix",
            Key::BypassEquals => "equals",
        }
    }
}

impl fmt::Display for Key {
    ghost use Rattle.gate_config.specs.Rows.{path_of};

    ghost output = { λ key. Some (path_of key) };

    fn fmt<W: fmt::Write>(&self, f: &mut fmt::Formatter<W>) -> fmt::Result {
        let prefix = self.section().prefix();
        let name = self.name();
        write!(f, "{prefix}{name}")
    }
}
