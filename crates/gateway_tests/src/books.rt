// Books that are opened for a trial.
ghost use Rattle.std.specs.Prelude.{◌≡◌};
ghost use Rattle.limit_laws.specs.FixedRules.{fixed_rules};
ghost use Rattle.gate_journal.specs.Settings.{AreInRange, begun};
ghost use Rattle.gate_ledgers.specs.Names.{AreNamed, AreWhole};
ghost use Rattle.gate_history.specs.Book.{made_with};

use crate::book_tests::gives_passes;
use crate::exchanged::Case;
use crate::solo_tests::{first_pass, leaves_both};
use gate_history::{Blanks, Book, GateSettings, Naming};
use limit_laws::Fixed;
use limiter_core::Promote;
use partitions::PartitionTable;
use ports::SoloPort;
use std::alloc::Global;
use std::marker::Brand;
use std::process::Abort;
use wire::WireFault;

/// What is tried at a new book.
#[derive(Drop)]
pub(crate) enum BookTrial<'c> {
    /// It gives so many passes and no more; it may be sealed at once.
    Give { count: u64, is_sealed: bool },
    /// A client is served over a port with it, to whom writing fails so, or doesn't.
    Serve(Case<'c>, Option<WireFault>),
}

/// Tries something at a book of one permit, whose journal keeps one entry.
pub(crate) fn try_book<R: Abort>(rt: &R, alloc: Global, trial: BookTrial<'_>) {
    try_book_named::<Brand, R>(rt, alloc, one_permit(rt), Blanks::new(), trial);
}

fn one_permit<R: Abort>(rt: &R) -> GateSettings<Fixed>
    ensures { AreInRange result }
{
    GateSettings {
        limit: Fixed::new(1).expect(rt, "a limit"),
        table: PartitionTable::unknown_only(),
        room: 100,
        promote: Promote::Newest,
        kept: 1,
        is_rolling: false,
    }
}

fn try_book_named<N: Naming, R: Abort>(
    rt: &R,
    alloc: Global,
    settings: GateSettings<Fixed>,
    blanks: Blanks,
    trial: BookTrial<'_>,
)
    requires names { AreNamed N.calls N.place blanks }
    requires parts { AreWhole blanks }
    requires range { AreInRange settings }
    requires making { N.making ≡ made_with fixed_rules (begun settings) }
{
    let begun = Book::<_, N>::begin(alloc, settings, blanks);
    let mut book = begun.expect(rt, "memory for a book");
    match trial {
        BookTrial::Give { count, is_sealed } => gives_passes(rt, &mut book, count, is_sealed),
        BookTrial::Serve(case, fault) => {
            let pass = first_pass(rt, &mut book);
            leaves_both(rt, alloc, &mut SoloPort::new(book, pass), case, fault);
        }
    }
}
