// What a clock reads the time from.
ghost use Rattle.std.specs.Prelude.{◌≤◌, ◌^◌, IfSome};

use limit_laws::LAST_MOMENT;
use std::time::Clock as SystemClock;

/// What a clock reads the time from: the system's clock, to which std gives no contract.
pub trait TimeSource {
    ghost use Rattle.std.specs.Prelude.{ℕ, Option};

    // A reading of it showed so many nanoseconds, or failed.
    ghost shown: { Self → Option ℕ → Type 0 };

    /// The nanoseconds that it shows, at most 2^62 (146 years); none where it fails.
    fn read(&self) -> Option<u64>
        ensures most { IfSome result (λ nanos. nanos ≤ 2 ^ 62) }
        ensures shown { shown self.now result };
}

impl<R: SystemClock> TimeSource for R {
    ghost use Rattle.std.specs.Prelude.{⊤};

    ghost shown = { λ _ _. ⊤ };

    fn read(&self) -> Option<u64> {
        match self.monotonic() {
            Ok(time) => Some(time.as_nanos().min(LAST_MOMENT as u128) as u64),
            Err(_) => None,
        }
    }
}
