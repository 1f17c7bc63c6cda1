// From a key to a rule of promotion.
ghost use Rattle.std.specs.Prelude.{◌≡◌};
ghost use Rattle.gate_config.specs.Promote.{rule_word};
ghost use Rattle.gate_config.specs.Settings.{promote_named};

use crate::PromoteRule;
use limiter_core::Promote;

/// The limiter's rule of promotion.
pub fn promote_of(rule: PromoteRule) -> Promote
    ensures { result ≡ promote_named (rule_word rule) }
{
    match rule {
        PromoteRule::Newest => Promote::Newest,
        PromoteRule::All => Promote::All,
    }
}
