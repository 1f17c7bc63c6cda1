// Who knows the log.
use crate::steps::Seat;
use std::marker::Model;

/// What lies under the lock: it knows the log exactly. Contracts see the name of the table, the
/// log, and the numbers of the readers that it took back.
#[derive(Drop)]
pub struct Keeper<E> {
    pub(crate) seat: Seat<E>,
}

impl<E> Model for Keeper<E> {
    ghost use Rattle.std.specs.Prelude.{◌≡◌, []};
    ghost use Rattle.gate_word.specs.Rule.{keeper_view};
    ghost use Rattle.gate_word.specs.Seats.{Knows};

    ghost Value = { Knows E };

    ghost view = { λ k. record {
      table = k.seat.table_id;
      log = k.seat.me.0.log;
      own = k.seat.me.0.own;
    } };

    ghost invariant = { λ k.
        k.seat.me ≡ (keeper_view k.seat.me.0.log k.seat.me.0.own, []) };
}

/// What a caller has: it knows a beginning of the log. Contracts see the name of the table, what it
/// knows, and the numbers of its own raises, the last one first.
#[derive(Drop)]
pub struct Reader<E> {
    pub(crate) seat: Seat<E>,
}

impl<E> Model for Reader<E> {
    ghost use Rattle.std.specs.Prelude.{◌≡◌, []};
    ghost use Rattle.gate_word.specs.Rule.{reader_view};
    ghost use Rattle.gate_word.specs.Seats.{Knows};

    ghost Value = { Knows E };

    ghost view = { λ r. record {
      table = r.seat.table_id;
      log = r.seat.me.0.log;
      own = r.seat.me.0.own;
    } };

    ghost invariant = { λ r.
        r.seat.me ≡ (reader_view r.seat.me.0.log r.seat.me.0.own, []) };
}
