// The headroom of a limit.
ghost use Rattle.std.specs.Prelude.{◌≡◌, ◌≤◌};
ghost use Rattle.limit_laws.specs.Algorithm.{greatest_limit};
ghost use Rattle.auto.specs.AutoRules.{root};

/// The root of a limit, rounded down.
pub(crate) fn headroom_of(limit: u32) -> u32
    requires least { 1 ≤ limit }
    requires most { limit ≤ greatest_limit }
    ensures value { result ≡ root limit }
    ensures least { 1 ≤ result }
    ensures most { result ≤ 100 }
{
    limit.isqrt()
}
