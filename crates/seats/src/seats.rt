// Who waits, in two rows: those who have sent nothing yet, and those who are kept.
ghost use Rattle.std.specs.Prelude.{◌≡◌, ◌≢◌, ◌⊎◌, ℕ, ◌+◌, ◌-◌, ◌^◌, ◌<◌, ◌==◌, [], All, Some};
ghost use Rattle.std.specs.Prelude.{length, Bool, option_map, IfErr, IfNone, IfOk, IfSome, IsErr};
ghost use Rattle.std.specs.Prelude.{IsSome, OnErr, OnSome};
ghost use Rattle.std.specs.Duration.{as_nanos};
ghost use Rattle.std.specs.Map.{lookup, remove_entry};
ghost use Rattle.seats.specs.Seats.{HasLeft, HasLeftRows, JoinedRows, LeavesFirst};
ghost use Rattle.seats.specs.Seats.{MadeRoom, comes_first, empty_row, is_full, joined, left_at};
ghost use Rattle.seats.specs.Seats.{taken_in};

use crate::row::{Row, Seated};
use std::alloc::{AllocError, Global};
use std::marker::Model;
use std::time::Duration;

/// How many may wait, and for how long.
#[derive(Clone, Copy)]
pub struct Places {
    /// How many places there are; without one nobody waits.
    pub count: u32,
    /// For how long one may wait who has sent nothing yet.
    pub silent: Duration,
    /// For how long one may wait who is kept.
    pub idle: Duration,
}

/// A seat that was taken.
#[derive(Drop)]
pub struct Seat<T> {
    /// Its number.
    pub number: u64,
    /// Who had to leave, by the number of its seat.
    pub displaced: Option<(u64, Seated<T>)>,
}

/// Those who wait, each by the number of its seat, which nobody else ever has: in one row who has
/// sent nothing yet, in the other who is kept. They share the places.
#[derive(Drop)]
pub struct Seats<T> {
    silent: Row<T>,
    kept: Row<T>,
    count: u32,
    next: u64,
}

impl<T> Model for Seats<T> {
    ghost use Rattle.seats.specs.Seats.{AreSeats, Seating};

    ghost Value = { Seating T };

    ghost view = { λ seats. record {
      silent = seats.silent;
      kept = seats.kept;
      places = seats.count;
      next = seats.next;
    } };

    ghost invariant = { λ seats. AreSeats seats.silent seats.kept seats.next seats.count };
}

impl<T: Drop> Seats<T> {
    /// So many places, which are free. It fails only out of memory, of which no later call takes
    /// any: each row has room for all, and for one who comes before another one leaves.
    pub fn new(alloc: Global, places: Places) -> Result<Seats<T>, AllocError>
        ensures { IfOk result (λ seats. seats ≡ record {
          silent = empty_row (as_nanos places.silent) (places.count + 1);
          kept = empty_row (as_nanos places.idle) (places.count + 1);
          places = places.count;
          next = 0;
        }) }
    {
        let room = places.count as usize + 1;
        Ok(Seats {
            silent: Row::new(alloc, room, places.silent)?,
            kept: Row::new(alloc, room, places.idle)?,
            count: places.count,
            next: 0,
        })
    }

    /// Seats one at the end of its row; where all places are taken, who has waited longest of all
    /// leaves. It comes back where there are no places, or no number for one more.
    pub fn seat(&mut self, who: T, since: Duration, is_kept: bool) -> Result<Seat<T>, T>
        ensures seated { IfOk result (λ seat. HasLeft seat.displaced
            (joined is_kept (self.old.next, record { who = who; since = since }) self.old)
            self.new) }
        ensures number { IfOk result (λ seat. seat.number ≡ self.old.next) }
        ensures own { IfOk result (λ seat. All (λ entry. entry.0 < seat.number)
            (taken_in self.old)) }
        ensures full { IfOk result (λ seat.
            IsSome seat.displaced → length (taken_in self.old) ≡ self.old.places) }
        ensures back { IfErr result (λ back. back ≡ who) }
        ensures refused { IsErr result
            → (self.old.places ≡ 0) ⊎ (self.old.next ≡ 2 ^ 64 - 1) }
        ensures unchanged { OnErr result (self.new ≡ self.old) }
    {
        let number = self.next;
        if self.count == 0 || number == u64::MAX {
            return Err(who);
        }
        seat_in(
            &mut self.silent,
            &mut self.kept,
            number,
            who,
            since,
            is_kept,
        );
        self.next = number + 1;
        let displaced = make_room(&mut self.silent, &mut self.kept, self.count as usize);
        Ok(Seat { number, displaced })
    }

    /// Takes the one of this seat who has sent nothing, where it still waits.
    pub fn take_silent(&mut self, number: u64) -> Option<T>
        ensures taken { result ≡ option_map (λ seated. seated.who)
            (lookup (λ one. one == number) self.old.silent.taken) }
        ensures others { self.new ≡ record self.old {
          silent = record self.old.silent {
            taken = remove_entry (λ one. one == number) self.old.silent.taken;
          };
        } }
    {
        self.silent.take(number)
    }

    /// Takes the one of this seat who is kept, where it still waits.
    pub fn take_kept(&mut self, number: u64) -> Option<T>
        ensures taken { result ≡ option_map (λ seated. seated.who)
            (lookup (λ one. one == number) self.old.kept.taken) }
        ensures others { self.new ≡ record self.old {
          kept = record self.old.kept {
            taken = remove_entry (λ one. one == number) self.old.kept.taken;
          };
        } }
    {
        self.kept.take(number)
    }

    /// Takes the first one of a row whose time is over.
    pub fn take_late(&mut self, now: Duration) -> Option<T>
        ensures first { IfSome result (LeavesFirst self.old self.new) }
        ensures late { OnSome result (left_at (as_nanos now) self.old ≡ Some 0) }
        ensures unchanged { IfNone result (self.new ≡ self.old) }
        ensures early { IfNone result (left_at (as_nanos now) self.old ≢ Some 0) }
    {
        if let Some(who) = self.silent.take_late(now) {
            return Some(who);
        }
        self.kept.take_late(now)
    }

    /// How much time is left to the first one whose time is over.
    pub fn left(&self, now: Duration) -> Option<Duration>
        ensures { option_map as_nanos result ≡ left_at (as_nanos now) self.now }
    {
        match (self.silent.left(now), self.kept.left(now)) {
            (Some(silent), Some(kept)) => Some(silent.min(kept)),
            (Some(silent), None) => Some(silent),
            (None, kept) => kept,
        }
    }

    /// For how long the last one has waited who has sent nothing.
    pub fn last_waited(&self, now: Duration) -> Option<Duration> {
        self.silent.last_waited(now)
    }

    /// Whether all places are taken.
    pub fn is_full(&self) -> bool
        ensures { result ≡ is_full self.now }
    {
        let free = (self.count as usize).saturating_sub(self.silent.len());
        free <= self.kept.len()
    }

    /// How many have sent nothing, and how many are kept.
    pub fn lens(&self) -> (usize, usize)
        ensures silent { result.0 ≡ length self.now.silent.taken }
        ensures kept { result.1 ≡ length self.now.kept.taken }
    {
        (self.silent.len(), self.kept.len())
    }
}

/// Seats one at the end of one of two rows, by a number above all others.
fn seat_in<T: Drop>(
    silent: &mut Row<T>,
    kept: &mut Row<T>,
    number: u64,
    who: T,
    since: Duration,
    is_kept: bool,
)
    requires above_silent { All (λ entry. entry.0 < number) silent.old.taken }
    requires above_kept { All (λ entry. entry.0 < number) kept.old.taken }
    requires room_silent { length silent.old.taken < silent.old.room }
    requires room_kept { length kept.old.taken < kept.old.room }
    ensures { JoinedRows is_kept (number, record { who = who; since = since })
        silent.old kept.old silent.new kept.new }
{
    if is_kept {
        kept.seat(number, who, since);
    } else {
        silent.seat(number, who, since);
    }
}

/// Takes the one who has waited longest in two rows, where they have more than so many.
fn make_room<T: Drop>(
    silent: &mut Row<T>,
    kept: &mut Row<T>,
    most: usize,
) -> Option<(u64, Seated<T>)>
    ensures { MadeRoom most result silent.old kept.old silent.new kept.new }
{
    let seated = silent.len();
    if seated <= most && kept.len() <= most - seated {
        return None;
    }
    take_longest(silent, kept)
}

/// Takes the one who has waited longest in two rows.
fn take_longest<T: Drop>(silent: &mut Row<T>, kept: &mut Row<T>) -> Option<(u64, Seated<T>)>
    ensures { HasLeftRows result silent.old kept.old silent.new kept.new }
{
    if comes_first(silent, kept) {
        silent.take_first()
    } else {
        kept.take_first()
    }
}

/// Whether the first one of a row was seated before that of another one.
fn comes_first<T>(one: &Row<T>, other: &Row<T>) -> bool
    ensures { result ≡ comes_first one.now.taken other.now.taken }
{
    match (one.first_number(), other.first_number()) {
        (Some(one), Some(other)) => one < other,
        (Some(_), None) => true,
        (None, _) => false,
    }
}
