// A log, and the calls of those who share it.
ghost use Rattle.std.specs.Prelude.{◌≡◌, ◌⊎◌, ◌++◌, [], length};
ghost use mathlib.Core.List.{IsPrefix};
ghost use Rattle.gate_word.specs.Rule.{AreApart, numbered};

use crate::rule::Added;
use crate::seats::{Keeper, Reader};
use crate::steps::{Seat, WordTable, compare, hand, learn, lift, note, told_by};
use std::alloc::{AllocError, Global};
use std::marker::Model;
use std::mem;

/// An empty log that nobody shares yet. Contracts see the name of its table.
#[derive(Drop)]
pub struct LogLength<E> {
    table: WordTable<E>,
    seat: Seat<E>,
}

impl<E> Model for LogLength<E> {
    ghost use Rattle.std.specs.Prelude.{◌≡◌, []};
    ghost use Rattle.atomic_table.specs.Seated.{TableId};
    ghost use Rattle.gate_word.specs.Rule.{keeper_view};
    ghost use Rattle.gate_word.specs.Seats.{IsTable};

    ghost Value = { TableId };

    ghost view = { λ w. w.table.shared.table_id };

    ghost invariant = { λ w. IsTable w.table.shared.table_id
        × (w.seat.table_id ≡ w.table.shared.table_id) × (w.seat.me ≡ (keeper_view [] [], [])) };
}

impl<E> LogLength<E> {
    /// An empty log. Fails where memory for its word can't be had.
    pub fn new(alloc: Global) -> Result<LogLength<E>, AllocError> {
        let (table, seat) = WordTable::of_words(alloc, &[0], &())?;
        Ok(LogLength { table, seat })
    }

    /// The log that threads share, and its keeper.
    pub fn share(self) -> (SharedLogLength<E>, Keeper<E>)
        ensures shared { result.0 ≡ self }
        ensures keeper { result.1 ≡ record { table = self; log = []; own = [] } }
    {
        let LogLength { table, seat } = self;
        (SharedLogLength { table }, Keeper { seat })
    }
}

/// A log that threads share. Contracts see the name of its table.
#[derive(Drop)]
pub struct SharedLogLength<E> {
    table: WordTable<E>,
}

impl<E> Model for SharedLogLength<E> {
    ghost use Rattle.atomic_table.specs.Seated.{TableId};
    ghost use Rattle.gate_word.specs.Seats.{IsTable};

    ghost Value = { TableId };

    ghost view = { λ w. w.table.shared.table_id };

    ghost invariant = { λ w. IsTable w.table.shared.table_id };
}

impl<E> SharedLogLength<E> {
    /// A new reader, who knows the log as it stands and has raised nothing.
    pub fn reader(&self, keeper: &mut Keeper<E>) -> Reader<E>
        requires table { keeper.old.table ≡ self.now }
        ensures reader { result ≡ record keeper.old { own = [] } }
        ensures same { keeper.new ≡ keeper.old }
    {
        let seat = told_by(&self.table.shared, &mut keeper.seat);
        Reader { seat }
    }

    /// Adds the picked entries, of which `about` tells. What the reader knew was a beginning of the
    /// log before, and now it knows the log; the first of the entries is its own.
    pub fn raise<X, G: Added<E>>(
        &self,
        keeper: &mut Keeper<E>,
        reader: &mut Reader<E>,
        _about: &X,
        next: u64,
    )
        requires table { keeper.old.table ≡ self.now }
        requires reader_table { reader.old.table ≡ self.now }
        requires next { next ≡ length (keeper.old.log ++ G.added) }
        ensures keeper { keeper.new ≡ record keeper.old { log = keeper.old.log ++ G.added } }
        ensures table { reader.new.table ≡ reader.old.table }
        ensures reader { reader.new.log ≡ keeper.new.log }
        ensures own { reader.new.own ≡ numbered keeper.old.log G.added reader.old.own }
        ensures before { IsPrefix reader.old.log keeper.old.log }
    {
        let shared = &self.table.shared;
        let blank = told_by(shared, &mut keeper.seat);
        let seat = mem::replace(&mut reader.seat, blank);
        note(shared, &mut keeper.seat, seat);
        lift::<E, G>(shared, &mut keeper.seat, next);
        reader.seat = hand(shared, &mut keeper.seat);
    }

    /// Shows the log to a reader, who knew a beginning of it.
    pub fn show(&self, keeper: &mut Keeper<E>, reader: &mut Reader<E>)
        requires table { keeper.old.table ≡ self.now }
        requires reader_table { reader.old.table ≡ self.now }
        ensures keeper { keeper.new ≡ keeper.old }
        ensures table { reader.new.table ≡ reader.old.table }
        ensures reader { reader.new.log ≡ keeper.old.log }
        ensures own { reader.new.own ≡ reader.old.own }
        ensures before { IsPrefix reader.old.log keeper.old.log }
    {
        let shared = &self.table.shared;
        let told = told_by(shared, &mut reader.seat);
        compare(shared, &mut keeper.seat, told);
        let told = told_by(shared, &mut keeper.seat);
        learn(shared, &mut reader.seat, told);
    }

    /// Lets a reader know what another knows: the longer of the two beginnings, which the other
    /// begins.
    pub fn tell(&self, reader: &mut Reader<E>, other: &mut Reader<E>)
        requires table { reader.old.table ≡ self.now }
        requires other_table { other.old.table ≡ self.now }
        ensures table { reader.new.table ≡ reader.old.table }
        ensures told { IsPrefix other.old.log reader.new.log }
        ensures kept { IsPrefix reader.old.log reader.new.log }
        ensures one { (reader.new.log ≡ reader.old.log) ⊎ (reader.new.log ≡ other.old.log) }
        ensures own { reader.new.own ≡ reader.old.own }
        ensures other { other.new ≡ other.old }
    {
        let told = told_by(&self.table.shared, &mut other.seat);
        learn(&self.table.shared, &mut reader.seat, told);
    }

    /// Takes a reader back, which knew a beginning of the log. Its numbers are apart from those of
    /// the readers that came back before.
    pub fn take_back(&self, keeper: &mut Keeper<E>, reader: Reader<E>)
        requires table { keeper.old.table ≡ self.now }
        requires reader_table { reader.table ≡ self.now }
        ensures begins { IsPrefix reader.log keeper.old.log }
        ensures keeper { keeper.new
            ≡ record keeper.old { own = reader.own ++ keeper.old.own } }
        ensures apart { AreApart (reader.own ++ keeper.old.own) }
    {
        let Reader { seat } = reader;
        compare(&self.table.shared, &mut keeper.seat, seat);
    }
}
