// All resolvers and bypass rules of a gateway.
ghost use Rattle.std.specs.Prelude.{◌≡◌};
ghost use Rattle.classifier.specs.Rules.{RulesValue};

use crate::bypass::Bypass;
use crate::resolver::Resolver;
use std::marker::Model;

/// How requests are told apart: resolvers, asked in their order, and the rules of which any one
/// bypasses the limit. A contract sees the two lists.
#[derive(Drop)]
pub struct Rules {
    resolvers: Vec<Resolver>,
    bypass: Vec<Bypass>,
}

impl Model for Rules {
    ghost use Rattle.classifier.specs.Rules.{RulesValue};

    ghost Value = { RulesValue };

    ghost view = { λ r. record { resolvers = r.resolvers.items; bypass = r.bypass.items } };
}

impl Rules {
    /// These rules. Takes no memory.
    pub fn new(resolvers: Vec<Resolver>, bypass: Vec<Bypass>) -> Rules
        ensures { result ≡ record { resolvers = resolvers.items; bypass = bypass.items } }
    {
        Rules { resolvers, bypass }
    }

    /// The resolvers in the order in which they are asked.
    pub fn resolvers(&self) -> &[Resolver]
        ensures { result.now ≡ self.now.resolvers }
    {
        self.resolvers.as_slice()
    }

    /// The rules that let requests bypass the limit.
    pub fn bypass(&self) -> &[Bypass]
        ensures { result.now ≡ self.now.bypass }
    {
        self.bypass.as_slice()
    }
}
