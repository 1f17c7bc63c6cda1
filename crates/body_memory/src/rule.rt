// The rule of the bytes that are held, and the steps that keep it.
use atomic_table::{Play, TableRule};

/// What a seat of the table knows. No value of it is made.
pub struct Holding {
    /// How many bytes it holds.
    pub held: u64,
}

/// The word is how many bytes all seats hold, which is at most the bound.
pub struct Bounded;

impl TableRule<u64, Holding, u64> for Bounded {
    ghost use Rattle.body_memory.specs.Rule.{IsBounded, holding};

    ghost holds = { λ bound s. IsBounded bound s.words s.views };

    ghost first = { λ _. holding 0 };
}

/// A seat is new, and holds nothing.
pub struct Enters;

impl Play<u64, Holding> for Enters {
    ghost use Rattle.body_memory.specs.Rule.{Entered};

    ghost then = { Entered };
}

/// A seat looks how many bytes are held.
pub struct Looks;

impl Play<u64, Holding> for Looks {
    ghost use Rattle.body_memory.specs.Rule.{Looked};

    ghost then = { Looked };
}

/// A seat holds more, where the word is as it was found.
pub struct Grows;

impl Play<u64, Holding> for Grows {
    ghost use Rattle.body_memory.specs.Rule.{Grew};

    ghost then = { Grew };
}

/// A seat gives all back that it holds.
pub struct Empties;

impl Play<u64, Holding> for Empties {
    ghost use Rattle.body_memory.specs.Rule.{Emptied};

    ghost then = { Emptied };
}
