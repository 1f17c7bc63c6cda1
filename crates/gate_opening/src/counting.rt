// What a gate counted, once its callers are done.
ghost use Rattle.std.specs.Prelude.{◌≡◌, true, false, IfNone, IfOk, IfSome, Ok};
ghost use Rattle.gate_opening.specs.Counting.{AreEnded, calls_told};

use audit::Calls;
use limiter_core::Counters;

/// The counters of all calls, where they tell of just so many, and that each permit was ended and
/// nobody waits; or none.
pub fn balanced(counted: Result<Counters, Calls>, calls: u128) -> Option<Counters>
    ensures some { IfSome result (λ told.
        (counted ≡ Ok told) × (calls_told told ≡ calls) × AreEnded told) }
    ensures none { IfNone result (IfOk counted (λ counters.
        ¬ ((calls_told counters ≡ calls) × AreEnded counters))) }
{
    let Ok(counters) = counted else {
        return None;
    };
    if calls_told(counters) == calls && are_ended(counters) {
        Some(counters)
    } else {
        None
    }
}

/// Whether counters tell that each permit was ended, and that nobody waits.
fn are_ended(counters: Counters) -> bool
    ensures ended { result ≡ true → AreEnded counters }
    ensures left { result ≡ false → ¬ AreEnded counters }
{
    let got = u128::from(counters.admitted) + u128::from(counters.promoted);
    let ended = u128::from(counters.success)
        + u128::from(counters.ignored)
        + u128::from(counters.dropped);
    let served = u128::from(counters.promoted) + u128::from(counters.timed_out);
    got == ended && u128::from(counters.waiting) == served
}

/// How many calls counters tell of. Settings and resets of the limit aren't among them.
fn calls_told(counters: Counters) -> u128
    ensures { result ≡ calls_told counters }
{
    let asked = u128::from(counters.admitted)
        + u128::from(counters.bypassed)
        + u128::from(counters.full)
        + u128::from(counters.backlog_full)
        + u128::from(counters.waiting);
    let given_up = u128::from(counters.promoted) + u128::from(counters.timed_out);
    let ended = u128::from(counters.success)
        + u128::from(counters.ignored)
        + u128::from(counters.dropped);
    asked + given_up + ended
}
