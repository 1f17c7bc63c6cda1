// Each step over seats alone.
ghost use Rattle.std.specs.Prelude.{◌≡◌, ◌++◌, [], true, false, length};
ghost use mathlib.Core.List.{IsPrefix};
ghost use Rattle.gate_word.specs.Rule.{AreApart, keeper_view, reader_view, handed_by};
ghost use Rattle.gate_word.specs.Rule.{left_by, longer, noted, raised};

use crate::rule::{Added, Compares, Hands, Notes, Raises, Rises, Takes, Tells, View};
use atomic_table::Table;
use std::alloc::Global;

pub(crate) type Seat<E> = atomic_table::Seat<u64, View<E>>;

pub(crate) type WordTable<E> = Table<u64, View<E>, (), Rises, Global>;

pub(crate) type Shared<E> = atomic_table::Shared<u64, View<E>, (), Rises>;

/// A new seat that knows what this one does.
#[inline(always)]
pub(crate) fn told_by<E>(shared: &Shared<E>, seat: &mut Seat<E>) -> Seat<E>
    requires table { seat.old.table_id ≡ shared.now.table_id }
    requires word { shared.now.table_id.words ≡ 1 }
    ensures table { seat.new.table_id ≡ seat.old.table_id }
    ensures same { seat.new.me ≡ seat.old.me }
    ensures told_table { result.table_id ≡ seat.old.table_id }
    ensures told { result.me ≡ (reader_view seat.old.me.0.log [], []) }
{
    shared.split_seat::<Tells>(seat)
}

/// A new seat that knows what this one does, and has the numbers that it noted.
#[inline(always)]
pub(crate) fn hand<E>(shared: &Shared<E>, seat: &mut Seat<E>) -> Seat<E>
    requires table { seat.old.table_id ≡ shared.now.table_id }
    requires word { shared.now.table_id.words ≡ 1 }
    ensures table { seat.new.table_id ≡ seat.old.table_id }
    ensures left { seat.new.me ≡ (left_by seat.old.me.0, seat.old.me.1) }
    ensures handed_table { result.table_id ≡ seat.old.table_id }
    ensures handed { result.me ≡ (handed_by seat.old.me.0, []) }
{
    shared.split_seat::<Hands>(seat)
}

/// A seat notes what another knows and its numbers, and that is spent.
#[inline(always)]
pub(crate) fn note<E>(shared: &Shared<E>, seat: &mut Seat<E>, other: Seat<E>)
    requires table { seat.old.table_id ≡ shared.now.table_id }
    requires other_table { other.table_id ≡ shared.now.table_id }
    requires word { shared.now.table_id.words ≡ 1 }
    requires other { other.me ≡ (reader_view other.me.0.log other.me.0.own, []) }
    ensures table { seat.new.table_id ≡ seat.old.table_id }
    ensures seat { seat.new.me ≡ (noted seat.old.me.0 other.me.0, seat.old.me.1) }
{
    shared.join_seat::<Notes>(seat, other);
}

/// A reader's seat takes in what another knows, which is spent.
#[inline(always)]
pub(crate) fn learn<E>(shared: &Shared<E>, seat: &mut Seat<E>, other: Seat<E>)
    requires table { seat.old.table_id ≡ shared.now.table_id }
    requires other_table { other.table_id ≡ shared.now.table_id }
    requires word { shared.now.table_id.words ≡ 1 }
    requires reader { seat.old.me ≡ (reader_view seat.old.me.0.log seat.old.me.0.own, []) }
    requires other { other.me ≡ (reader_view other.me.0.log other.me.0.own, []) }
    ensures table { seat.new.table_id ≡ seat.old.table_id }
    ensures reader { seat.new.me
        ≡ (reader_view (longer seat.old.me.0.log other.me.0.log) seat.old.me.0.own, []) }
    ensures own { IsPrefix seat.old.me.0.log (longer seat.old.me.0.log other.me.0.log) }
    ensures told { IsPrefix other.me.0.log (longer seat.old.me.0.log other.me.0.log) }
{
    note(shared, seat, other);
    shared.load::<Takes>(seat, 0);
}

/// The keeper's seat takes in what another knows and its numbers, and that is spent: it was a
/// beginning of the log, and all numbers are apart.
#[inline(always)]
pub(crate) fn compare<E>(shared: &Shared<E>, keeper: &mut Seat<E>, other: Seat<E>)
    requires table { keeper.old.table_id ≡ shared.now.table_id }
    requires other_table { other.table_id ≡ shared.now.table_id }
    requires word { shared.now.table_id.words ≡ 1 }
    requires keeper { keeper.old.me
        ≡ (keeper_view keeper.old.me.0.log keeper.old.me.0.own, []) }
    requires other { other.me ≡ (reader_view other.me.0.log other.me.0.own, []) }
    ensures table { keeper.new.table_id ≡ keeper.old.table_id }
    ensures keeper { keeper.new.me
        ≡ (keeper_view keeper.old.me.0.log (other.me.0.own ++ keeper.old.me.0.own), []) }
    ensures begins { IsPrefix other.me.0.log keeper.old.me.0.log }
    ensures apart { AreApart (other.me.0.own ++ keeper.old.me.0.own) }
{
    note(shared, keeper, other);
    shared.load::<Compares>(keeper, 0);
}

/// The keeper's seat adds the picked entries and numbers them for whom it noted, who knew a
/// beginning of the log before.
#[inline(always)]
pub(crate) fn lift<E, G: Added<E>>(shared: &Shared<E>, keeper: &mut Seat<E>, next: u64)
    requires table { keeper.old.table_id ≡ shared.now.table_id }
    requires word { shared.now.table_id.words ≡ 1 }
    requires keeps { keeper.old.me.0.keeps ≡ true }
    requires alone { keeper.old.me.1 ≡ [] }
    requires next { next ≡ length (keeper.old.me.0.log ++ G.added) }
    ensures table { keeper.new.table_id ≡ keeper.old.table_id }
    ensures keeper { keeper.new.me ≡ (raised G.added keeper.old.me.0, []) }
    ensures noted { IsPrefix keeper.old.me.0.note keeper.old.me.0.log }
{
    shared.store::<Raises<G>>(keeper, 0, next);
}
