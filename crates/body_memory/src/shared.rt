// The bytes that all share.
ghost use Rattle.std.specs.Prelude.{◌≡◌, ◌≤◌, ◌+◌, ◌-◌, [], true, false, IfOk};
ghost use Rattle.body_memory.specs.Rule.{holding};

use crate::rule::{Bounded, Empties, Enters, Grows, Holding, Looks};
use atomic_table::Table;
use std::alloc::{AllocError, Global};
use std::marker::Model;

/// Who holds bytes.
pub(crate) type Seat = atomic_table::Seat<u64, Holding>;

/// So many bytes, which all share who hold some. Contracts see how many.
#[derive(Drop)]
pub struct SharedBodies {
    table: Table<u64, Holding, u64, Bounded, Global>,
    bound: u64,
}

impl Model for SharedBodies {
    ghost use Rattle.std.specs.Prelude.{◌≡◌};
    ghost use Rattle.body_memory.specs.Bodies.{IsTable, Shared};

    ghost Value = { Shared };

    ghost view = { λ s. record { table = s.table.shared.table_id; bound = s.bound } };

    ghost invariant = { λ s. IsTable s.table.shared.table_id × (s.table.shared.key ≡ s.bound) };
}

impl SharedBodies {
    /// So many bytes, of which nobody holds any. It fails only out of memory.
    pub fn new(alloc: Global, bound: u64) -> Result<SharedBodies, AllocError>
        ensures { IfOk result (λ shared. shared.bound ≡ bound) }
    {
        let (table, _) = Table::of_words(alloc, &[0], &bound)?;
        Ok(SharedBodies { table, bound })
    }

    /// How many bytes all may hold.
    pub fn bound(&self) -> u64
        ensures { result ≡ self.now.bound }
    {
        self.bound
    }

    /// A seat that holds nothing.
    pub(crate) fn seat(&self) -> Seat
        ensures table { result.table_id ≡ self.now.table }
        ensures empty { result.me ≡ (holding 0, []) }
    {
        let (_, seat) = self.table.shared.load_new_seat::<Enters>(0);
        seat
    }

    /// How many bytes all hold, at some moment of the call.
    pub(crate) fn look(&self, seat: &mut Seat) -> u64
        requires table { seat.old.table_id ≡ self.now.table }
        ensures table { seat.new.table_id ≡ seat.old.table_id }
        ensures same { seat.new.me ≡ seat.old.me }
        ensures own { seat.old.me.0.held ≤ result }
    {
        self.table.shared.load::<Looks>(seat, 0)
    }

    /// Whether all held the first number of bytes, so that they hold the second now: what is more
    /// is the seat's.
    pub(crate) fn raise(&self, seat: &mut Seat, from: u64, to: u64) -> bool
        requires table { seat.old.table_id ≡ self.now.table }
        requires more { from ≤ to }
        requires bounded { to ≤ self.now.bound }
        ensures table { seat.new.table_id ≡ seat.old.table_id }
        ensures raised { result ≡ true →
            seat.new.me ≡ (holding (seat.old.me.0.held + (to - from)), seat.old.me.1) }
        ensures left { result ≡ false → seat.new.me ≡ seat.old.me }
    {
        self.table
            .shared
            .compare_exchange::<Grows>(seat, 0, from, to)
            == from
    }

    /// The seat gives all bytes back that it holds, which are so many.
    pub(crate) fn empty(&self, seat: &mut Seat, held: u64)
        requires table { seat.old.table_id ≡ self.now.table }
        requires all { held ≡ seat.old.me.0.held }
        ensures table { seat.new.table_id ≡ seat.old.table_id }
        ensures empty { seat.new.me ≡ (holding 0, seat.old.me.1) }
    {
        self.table.shared.fetch_sub::<Empties>(seat, 0, held);
    }
}
