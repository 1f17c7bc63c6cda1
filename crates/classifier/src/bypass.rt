// Which requests go past the limit.
ghost use Rattle.std.specs.Prelude.{◌≡◌};
ghost use Rattle.classifier.specs.Class.{is_bypassed_by};

use crate::header::has_value;
use message_parts::{Bytes, Request};

/// Which requests bypass the limit.
#[derive(Drop)]
pub enum Bypass {
    /// Those of this method.
    Method(Bytes),
    /// Those whose path begins with these bytes.
    Prefix(Bytes),
    /// Those with a header line of this name, compared without ASCII case, and exactly this value.
    HeaderEquals(Bytes, Bytes),
}

impl Bypass {
    /// Whether the rule holds for a request.
    pub fn holds(&self, request: &Request) -> bool
        ensures { result ≡ is_bypassed_by request.now self.now }
    {
        match self {
            Bypass::Method(method) => request.method.as_slice() == method.as_slice(),
            Bypass::Prefix(prefix) => request
                .path
                .as_str()
                .as_bytes()
                .starts_with(prefix.as_slice()),
            Bypass::HeaderEquals(name, value) => {
                has_value(&request.headers, name.as_slice(), value.as_slice())
            }
        }
    }
}
