// What lies at the paths of an operator's address.
ghost use Rattle.std.specs.Prelude.{◌≡◌};
ghost use Rattle.operator_calls.specs.Calls.{allowed_by, endpoint_at, is_taken_by, is_open};
ghost use Rattle.operator_calls.specs.Calls.{verb_of};

/// A method that a path takes.
#[derive(Clone, Copy)]
pub enum Verb {
    /// `GET`, which changes nothing, or `HEAD`, the same without the text (RFC 9110, section
    /// 9.3.2).
    Get,
    /// `POST`, which changes something.
    Post,
}

impl Verb {
    /// The methods themselves, as a line `Allow` lists them.
    pub fn allowed(&self) -> &'static str
        ensures { result.now ≡ allowed_by self.now }
    {
        match self {
            Verb::Get => "GET, HEAD",
            Verb::Post => "POST",
        }
    }

    /// Whether this method is one of them.
    pub(crate) fn takes(&self, method: &[u8]) -> bool
        ensures { result ≡ is_taken_by self.now method.now }
    {
        match self {
            Verb::Get => method == b"GET".as_slice() || method == b"HEAD".as_slice(),
            Verb::Post => method == b"POST".as_slice(),
        }
    }
}

/// What lies at a path.
#[derive(Clone, Copy)]
pub(crate) enum Endpoint {
    Page,
    Metrics,
    Health,
    Limit,
    Reset,
    Drain,
}

impl Endpoint {
    /// What lies at this path.
    pub(crate) fn at(path: &str) -> Option<Endpoint>
        ensures { result ≡ endpoint_at path.now }
    {
        match path {
            "/" => Some(Endpoint::Page),
            "/metrics" => Some(Endpoint::Metrics),
            "/health" => Some(Endpoint::Health),
            "/limit" => Some(Endpoint::Limit),
            "/reset" => Some(Endpoint::Reset),
            "/drain" => Some(Endpoint::Drain),
            _ => None,
        }
    }

    /// The method that it takes.
    pub(crate) fn verb(&self) -> Verb
        ensures { result ≡ verb_of self.now }
    {
        match self {
            Endpoint::Page | Endpoint::Metrics | Endpoint::Health => Verb::Get,
            Endpoint::Limit | Endpoint::Reset | Endpoint::Drain => Verb::Post,
        }
    }

    /// Whether it is there for whoever comes.
    pub(crate) fn is_open(&self) -> bool
        ensures { result ≡ is_open self.now }
    {
        matches!(self, Endpoint::Metrics | Endpoint::Health)
    }
}
