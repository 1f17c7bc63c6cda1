// What a query tells of a drain, or of a look at the health.
ghost use Rattle.std.specs.Prelude.{◌≡◌, codes, option_map};
ghost use Rattle.operator_calls.specs.Calls.{delay_of, drain_by, health_by, query_of};

use crate::call::{Change, Look};
use crate::number::number_in;
use crate::refusal::Refusal;

/// The query of a look at the health that asks for the backend too.
const DEEP: &str = "deep";

/// How a query that tells a delay begins.
const DELAY: &[u8] = b"after-ms=";

/// The longest delay, in milliseconds: an hour.
const LONGEST_MS: u32 = 3_600_000;

/// What stands behind the first `?` of a target, where there is one.
fn query(target: &str) -> Option<&str>
    ensures { option_map (λ query. query.now) result ≡ query_of target.now }
{
    let (_, query) = target.split_once('?')?;
    Some(query)
}

/// The delay in milliseconds that a query tells, where it is in range.
fn delay(query: &[u8]) -> Option<u32>
    ensures { result ≡ delay_of query.now }
{
    let delay_ms = number_in(query.strip_prefix(DELAY)?)?;
    if 1 <= delay_ms && delay_ms <= LONGEST_MS {
        Some(delay_ms)
    } else {
        None
    }
}

/// The drain that a target asks for: at once, or after the delay that its query tells.
pub(crate) fn drain_by(target: &str) -> Result<Change, Refusal>
    ensures { result ≡ drain_by (query_of target.now) }
{
    let Some(query) = query(target) else {
        return Ok(Change::Drain);
    };
    match delay(query.as_bytes()) {
        Some(delay_ms) => Ok(Change::DrainAfter(delay_ms)),
        None => Err(Refusal::OtherQuery),
    }
}

/// Returns the look at the health that a target asks for: at that of the gateway, whatever its
/// query is, or with the query `deep` at whether the backend can be connected to, too.
pub(crate) fn health_by(target: &str) -> Look
    ensures { result ≡ health_by (query_of target.now) }
{
    match query(target) {
        Some(DEEP) => Look::DeepHealth,
        _ => Look::Health,
    }
}
