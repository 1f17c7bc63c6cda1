// Who waits in a row, in the order in which they came.
ghost use Rattle.std.specs.Prelude.{◌≡◌, ◌≢◌, ℕ, ◌<◌, ◌==◌, [], ◌∷◌, All, Some, length};
ghost use Rattle.std.specs.Prelude.{option_map, IfNone, IfOk, IfSome, OnSome};
ghost use Rattle.std.specs.Duration.{as_nanos};
ghost use Rattle.std.specs.Map.{lookup, remove_entry};
ghost use Rattle.std.specs.VecDeque.{deque_capacity, deque_len};
ghost use Rattle.seats.specs.Numbers.{IsFirstFrom, IsRow, IsSeatAt, NoneHas};
ghost use Rattle.seats.specs.Seats.{behind, first_number, left_of_first};

use std::alloc::{AllocError, Global};
use std::collections::VecDeque;
use std::marker::Model;
use std::time::Duration;

/// One who waits, and since when.
#[derive(Drop)]
pub struct Seated<T> {
    /// Who it is.
    pub who: T,
    /// Since when, by the clock that tells the moments.
    pub since: Duration,
}

/// Those who wait in a row, the first who came first, each by a number that rises. What room the
/// row has was reserved when it was made.
#[derive(Drop)]
pub(crate) struct Row<T> {
    seated: VecDeque<(u64, Seated<T>)>,
    most: Duration,
}

impl<T> Model for Row<T> {
    ghost use Rattle.std.specs.Duration.{as_nanos};
    ghost use Rattle.std.specs.VecDeque.{deque_capacity, deque_len};
    ghost use Rattle.seats.specs.Numbers.{IsRow};
    ghost use Rattle.seats.specs.Seats.{Waiting};

    ghost Value = { Waiting T };

    ghost view = { λ row. record {
      taken = row.seated.items;
      limit = as_nanos row.most;
      room = deque_capacity row.seated;
    } };

    ghost invariant = { λ row. IsRow row.seated.items (deque_len row.seated) };
}

impl<T: Drop> Row<T> {
    /// Nobody waits; one may for so long, and there is room for so many.
    pub(crate) fn new(alloc: Global, room: usize, most: Duration) -> Result<Row<T>, AllocError>
        ensures { IfOk result (λ row.
            row ≡ record { taken = []; limit = as_nanos most; room = room }) }
    {
        Ok(Row {
            seated: VecDeque::with_capacity(alloc, room)?,
            most,
        })
    }

    /// Seats one behind all others, by a number above theirs.
    pub(crate) fn seat(&mut self, number: u64, who: T, since: Duration)
        requires above { All (λ entry. entry.0 < number) self.old.taken }
        requires room { length self.old.taken < self.old.room }
        ensures { self.new ≡ behind (number, record { who = who; since = since }) self.old }
    {
        self.seated
            .push_back_reserved((number, Seated { who, since }));
    }

    /// Takes the one of this number, where it still waits.
    pub(crate) fn take(&mut self, number: u64) -> Option<T>
        ensures taken { result
            ≡ option_map (λ seated. seated.who) (lookup (λ one. one == number) self.old.taken) }
        ensures others { self.new ≡ record self.old {
          taken = remove_entry (λ one. one == number) self.old.taken;
        } }
    {
        let seated = take_from(&mut self.seated, number)?;
        Some(seated.who)
    }

    /// Takes the first one.
    pub(crate) fn take_first(&mut self) -> Option<(u64, Seated<T>)>
        ensures first { IfSome result (λ first. self.old.taken ≡ first ∷ self.new.taken) }
        ensures limit { self.new.limit ≡ self.old.limit }
        ensures room { self.new.room ≡ self.old.room }
        ensures none { IfNone result (self.old.taken ≡ []) }
        ensures unchanged { IfNone result (self.new ≡ self.old) }
    {
        self.seated.pop_front()
    }

    /// Takes the first one, where its time is over.
    pub(crate) fn take_late(&mut self, now: Duration) -> Option<T>
        ensures first { IfSome result (λ who. (number : ℕ) × (since : Duration)
            × (self.old.taken ≡ (number, record { who = who; since = since }) ∷ self.new.taken)) }
        ensures limit { self.new.limit ≡ self.old.limit }
        ensures room { self.new.room ≡ self.old.room }
        ensures late { OnSome result
            (left_of_first (as_nanos now) self.old.limit self.old.taken ≡ Some 0) }
        ensures unchanged { IfNone result (self.new ≡ self.old) }
        ensures early { IfNone result
            (left_of_first (as_nanos now) self.old.limit self.old.taken ≢ Some 0) }
    {
        if !self.left(now)?.is_zero() {
            return None;
        }
        let (_, first) = self.seated.pop_front()?;
        Some(first.who)
    }

    /// How much time the first one has left.
    pub(crate) fn left(&self, now: Duration) -> Option<Duration>
        ensures { option_map as_nanos result
            ≡ left_of_first (as_nanos now) self.now.limit self.now.taken }
    {
        let (_, first) = self.seated.front()?;
        let waited = now.saturating_sub(first.since);
        Some(self.most.saturating_sub(waited))
    }

    /// For how long the last one has waited.
    pub(crate) fn last_waited(&self, now: Duration) -> Option<Duration> {
        let (_, last) = self.seated.back()?;
        Some(now.saturating_sub(last.since))
    }

    /// How many wait.
    pub(crate) fn len(&self) -> usize
        ensures { result ≡ length self.now.taken }
    {
        self.seated.len()
    }
}

impl<T> Row<T> {
    /// The number of the first one.
    pub(crate) fn first_number(&self) -> Option<u64>
        ensures { result ≡ first_number self.now.taken }
    {
        let (number, _) = self.seated.front()?;
        Some(*number)
    }
}

/// The first place in the row whose number isn't below this one, by binary search.
fn first_from<T>(seated: &VecDeque<(u64, Seated<T>)>, number: u64) -> usize
    requires row { IsRow seated.now.items (deque_len seated.now) }
    ensures { IsFirstFrom seated.now.items number result }
{
    seated.partition_point(|entry| entry.0 < number)
}

/// Where in the row the one of this number waits.
fn place_of<T>(seated: &VecDeque<(u64, Seated<T>)>, number: u64) -> Option<usize>
    requires row { IsRow seated.now.items (deque_len seated.now) }
    ensures found { IfSome result (λ at. IsSeatAt seated.now.items at number) }
    ensures absent { IfNone result (NoneHas seated.now.items number) }
{
    let at = first_from(seated, number);
    let (found, _) = seated.get(at)?;
    if *found == number { Some(at) } else { None }
}

/// Takes the one of this number out of the row, where it waits there.
fn take_from<T>(seated: &mut VecDeque<(u64, Seated<T>)>, number: u64) -> Option<Seated<T>>
    requires row { IsRow seated.old.items (deque_len seated.old) }
    ensures taken { result ≡ lookup (λ one. one == number) seated.old.items }
    ensures others { seated.new.items ≡ remove_entry (λ one. one == number) seated.old.items }
    ensures row { IsRow seated.new.items (deque_len seated.new) }
    ensures room { deque_capacity seated.new ≡ deque_capacity seated.old }
{
    let at = place_of(seated, number)?;
    let (_, taken) = seated.remove(at)?;
    Some(taken)
}
