// A moment that a clock has reached.
ghost use Rattle.std.specs.Prelude.{◌≡◌, ◌≤◌};

use clocks::{Clock, MonotonicClock};
use std::marker::Model;

/// A moment that a clock has reached, in nanoseconds, or the first of all. Only a look at a clock
/// gives a later one.
#[derive(Drop)]
pub(crate) struct Reached {
    nanos: u64,
}

impl Model for Reached {
    ghost use Rattle.std.specs.Prelude.{ℕ};

    ghost Value = { ℕ };

    ghost view = { λ r. r.nanos };

    ghost invariant = { λ r. Unit {0} };
}

impl Reached {
    /// The first moment of all.
    pub(crate) fn first() -> Reached
        ensures { result ≡ 0 }
    {
        Reached { nanos: 0 }
    }

    /// What the clock tells by one look more, or by an earlier one.
    pub(crate) fn by<C: Clock>(looks: &mut MonotonicClock<'_, C, ()>) -> Reached
        ensures { looks.old.latest ≤ result }
    {
        Reached {
            nanos: looks.look(),
        }
    }
}
