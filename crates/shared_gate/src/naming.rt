// The names of a gate.
use gate_history::Naming;
use std::marker::Brand;

/// Names the table of the word beside a gate's lock, with the ledgers of its book, and says how
/// many passes it has and which logs are legal.
pub trait GateNaming: Naming {
    ghost use Rattle.std.specs.Prelude.{ℕ, List};
    ghost use Rattle.atomic_table.specs.Seated.{TableId};
    ghost use Rattle.limiter_core.specs.declared.event.Entry.{Entry};

    /// The table of the word.
    ghost word: { TableId };

    /// How many passes the gate has. Nobody else calls it.
    ghost passes: { ℕ };

    /// Which logs are legal. The maker of a gate picks it.
    ghost legal: { List Entry → Type 0 };
}

impl GateNaming for Brand {
    ghost use Rattle.gate_word.specs.Seats.{no_table};

    ghost word = { no_table };

    ghost passes = { 0 };

    ghost legal = { λ log. Unit {0} };
}
