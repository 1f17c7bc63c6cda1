// Looks at a clock.
ghost use Rattle.std.specs.Prelude.{◌≡◌, ◌≤◌, None, Some};
ghost use Rattle.clocks.specs.Looks.{looked, shown_in, unlooked};

use crate::clock::Clock;
use std::marker::Model;
use std::snapshot::Snapshot;

/// A clock as one caller looks at it, in nanoseconds: each look tells a moment that is no earlier
/// than the one before, however the clock goes. Contracts see how many looks there were, the last
/// two, and what was known at the last one. To know what was known takes no memory and no time.
#[derive(Drop)]
pub struct MonotonicClock<'c, C, T> {
    clock: &'c C,
    count: u64,
    before: u64,
    latest: u64,
    known: Option<Snapshot<T>>,
}

impl<'c, C, T> Model for MonotonicClock<'c, C, T> {
    ghost use Rattle.clocks.specs.Looks.{Looked, shown_in};

    ghost Value = { Looked T };

    ghost view = { λ p. record {
      count = p.count;
      before = p.before;
      latest = p.latest;
      known = shown_in p.known;
    } };

    ghost invariant = { λ p. Unit {0} };
}

impl<'c, C: Clock, T> MonotonicClock<'c, C, T> {
    /// Looks at this clock, of which there were none yet.
    pub fn new(clock: &'c C) -> MonotonicClock<'c, C, T>
        ensures { result ≡ unlooked }
    {
        MonotonicClock {
            clock,
            count: 0,
            before: 0,
            latest: 0,
            known: None,
        }
    }

    /// The moment now, and that of the look before where the clock tells an earlier one.
    pub fn look(&mut self) -> u64
        ensures looked { self.new ≡ looked self.old result None }
        ensures no_earlier { self.old.latest ≤ result }
    {
        self.go_on(None)
    }

    /// The same, once this is known.
    pub fn look_knowing(&mut self, known: &T) -> u64
        ensures looked { self.new ≡ looked self.old result (Some known.now) }
        ensures no_earlier { self.old.latest ≤ result }
    {
        self.go_on(Some(Snapshot::of(known)))
    }

    /// One look more.
    fn go_on(&mut self, known: Option<Snapshot<T>>) -> u64
        ensures looked { self.new ≡ looked self.old result (shown_in known) }
        ensures no_earlier { self.old.latest ≤ result }
    {
        let now = self.clock.now().max(self.latest);
        self.count = self.count.saturating_add(1);
        self.before = self.latest;
        self.latest = now;
        self.known = known;
        now
    }
}
