// Numbers without a pattern, the same in each run, and what is drawn by them.
ghost use Rattle.std.specs.Prelude.{◌<◌};

use limiter_core::Outcome;
use partitions::Part;

/// Numbers that follow from a seed.
#[derive(Drop)]
pub(crate) struct Dice {
    state: u64,
}

impl Dice {
    pub(crate) fn new(seed: u64) -> Dice {
        Dice { state: seed }
    }

    /// A number below `sides`.
    pub(crate) fn roll(&mut self, sides: u64) -> u64
        requires { 0 < sides }
        ensures { result < sides }
    {
        self.state = self
            .state
            .wrapping_mul(6_364_136_223_846_793_005)
            .wrapping_add(1_442_695_040_888_963_407);
        (self.state >> 33) % sides
    }

    /// One of three classes or the unknown one, most often the first.
    pub(crate) fn part(&mut self) -> Part {
        match self.roll(5) {
            0 => Part::Unknown,
            1 => Part::Known(1),
            2 => Part::Known(2),
            _ => Part::Known(0),
        }
    }

    pub(crate) fn outcome(&mut self) -> Outcome {
        match self.roll(8) {
            0 => Outcome::Dropped,
            1 => Outcome::Ignored,
            _ => Outcome::Success,
        }
    }
}
