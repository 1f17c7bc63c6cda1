// How many wait of each partition, and whether a place is free for one more.
ghost use Rattle.std.specs.Prelude.{◌≡◌, ℕ, ◌+◌, ◌-◌, ◌<◌, ◌==◌, cond, [], ◌∷◌, slice_index};
ghost use Rattle.lifo_backlog.specs.Waiters.{most_waiters};
ghost use Rattle.lifo_backlog.specs.Sharing.{has_place, in_everybodys, everybodys};

use partitions::PartitionTable;
use std::marker::Model;

/// How many places of a table there are.
const PLACES: usize = 5;

/// How many wait at each of the five places of a table: of the known partitions, then of the
/// unknown one.
#[derive(Drop)]
pub struct Occupancy {
    counts: [u32; 5],
}

impl Model for Occupancy {
    ghost use Rattle.std.specs.Prelude.{ℕ, List};

    ghost Value = { List ℕ };

    ghost view = { λ occupancy. occupancy.counts };
}

impl Occupancy {
    /// Nobody waits.
    pub fn new() -> Occupancy
        ensures { result ≡ 0 ∷ 0 ∷ 0 ∷ 0 ∷ 0 ∷ [] }
    {
        Occupancy {
            counts: [0; PLACES],
        }
    }

    /// One more waits at a place.
    pub fn enter(&mut self, place: usize)
        requires place { place < 5 }
        requires few { slice_index self.old place < most_waiters }
        ensures { (p : ℕ) → slice_index self.new p
            ≡ slice_index self.old p + cond (place == p) 1 0 }
    {
        self.counts[place] += 1;
    }

    /// One less waits at a place.
    pub fn leave(&mut self, place: usize)
        requires place { place < 5 }
        requires some { 0 < slice_index self.old place }
        ensures { (p : ℕ) → slice_index self.new p
            ≡ slice_index self.old p - cond (place == p) 1 0 }
    {
        self.counts[place] -= 1;
    }

    /// How many wait at a place.
    pub fn count(&self, place: usize) -> u32
        requires { place < 5 }
        ensures { result ≡ slice_index self.now place }
    {
        self.counts[place]
    }

    /// Whether a place of a backlog of this room is free for one more of a partition: one of its
    /// own places, or one of everybody's.
    pub fn has_place(&self, table: &PartitionTable, place: usize, room: u32) -> bool
        requires { place < 5 }
        ensures { result ≡ has_place table.now room (λ p. slice_index self.now p) place }
    {
        self.counts[place] < table.own_places(place)
            || self.in_everybodys(table) < everybodys(table, room)
    }

    /// How many wait in everybody's places.
    fn in_everybodys(&self, table: &PartitionTable) -> u64
        ensures { result ≡ in_everybodys table.now (λ p. slice_index self.now p) }
    {
        let mut past = 0;
        for place in 0..PLACES {
            past += u64::from(self.counts[place].saturating_sub(table.own_places(place)));
        }
        past
    }
}

/// How many places are everybody's.
fn everybodys(table: &PartitionTable, room: u32) -> u64
    ensures { result ≡ everybodys table.now room }
{
    u64::from(room).saturating_sub(table.placed())
}
