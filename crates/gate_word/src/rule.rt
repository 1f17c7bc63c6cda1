// The rule of the log, and the steps that keep it.
use atomic_table::{Join, Play, Split, TableRule};
use std::collections::LinkedList;
use std::marker::{Brand, PhantomData};

/// What a seat of the table knows. No value of it is made.
pub struct View<E> {
    /// Whether it is the keeper's.
    pub keeps: bool,
    /// The log for the keeper, and for a reader a beginning of it.
    pub log: LinkedList<E>,
    /// A beginning that was taken in from another seat, to compare it with the log.
    pub note: LinkedList<E>,
    /// The numbers of the raises by a reader; for the keeper, by those that it took back.
    pub own: LinkedList<u64>,
    /// The numbers that were taken in from another seat.
    pub came: LinkedList<u64>,
}

/// One view is the keeper's and has the whole log, each other has a beginning of it, a number of
/// the log is in one view at most, and the word is the log's length: the number of the next entry.
pub struct Rises;

impl<E> TableRule<u64, View<E>, ()> for Rises {
    ghost use Rattle.std.specs.Prelude.{[]};
    ghost use Rattle.gate_word.specs.Rule.{keeper_view, Kept};

    ghost holds = { λ key s. Kept s.words s.views };

    ghost first = { λ _. keeper_view [] [] };
}

/// The entries that a raise adds. Each call of it picks them.
pub trait Added<E> {
    ghost use Rattle.std.specs.Prelude.{List};

    ghost added: { List E };
}

impl<E> Added<E> for Brand {
    ghost use Rattle.std.specs.Prelude.{[]};

    ghost added = { [] };
}

/// The keeper raises the log by these entries, for whom it noted.
pub struct Raises<G> {
    of: PhantomData<G>,
}

impl<E, G: Added<E>> Play<u64, View<E>> for Raises<G> {
    ghost use Rattle.gate_word.specs.Rule.{Raised};

    ghost then = { Raised G.added };
}

/// The keeper compares what it noted with the log, and takes back whom it noted.
pub struct Compares;

impl<E> Play<u64, View<E>> for Compares {
    ghost use Rattle.gate_word.specs.Rule.{Compared};

    ghost then = { Compared };
}

/// A reader takes in what it noted.
pub struct Takes;

impl<E> Play<u64, View<E>> for Takes {
    ghost use Rattle.gate_word.specs.Rule.{Took};

    ghost then = { Took };
}

/// A new seat that knows what another does.
pub struct Tells;

impl<E> Split<View<E>> for Tells {
    ghost use Rattle.gate_word.specs.Rule.{note_of};

    ghost left = { λ v. v };

    ghost right = { note_of };
}

/// A new seat that knows what the keeper does, and has the numbers that it noted.
pub struct Hands;

impl<E> Split<View<E>> for Hands {
    ghost use Rattle.gate_word.specs.Rule.{handed_by, left_by};

    ghost left = { left_by };

    ghost right = { handed_by };
}

/// A seat notes what another knows, which is spent.
pub struct Notes;

impl<E> Join<View<E>> for Notes {
    ghost use Rattle.std.specs.Prelude.{[]};
    ghost use Rattle.gate_word.specs.Rule.{noted, reader_view};

    ghost both = { noted };

    ghost spent = { reader_view [] [] };
}
