// The time that a line tells.
use jiff::Timestamp;
use std::time::Clock;

/// The second of UTC that it is now, which is shown as RFC 3339 has it, `2026-11-28T09:54:45Z`;
/// none where the clock fails, or is set beyond the year 9999.
pub(crate) fn second_now<R: Clock>(clock: &R) -> Option<Timestamp> {
    let seconds = clock.since_1970().ok()?.as_secs();
    Timestamp::from_second(i64::try_from(seconds).ok()?).ok()
}
