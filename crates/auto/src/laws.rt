// What an operator may rely on.
ghost use Rattle.auto.specs.Moves.{DropsNeverRaise, MovesByTwiceAtMost, RisesOnlyWhereMet};
ghost use Rattle.auto.specs.Moves.{WindowsEnd};
ghost use Rattle.auto.specs.Rises.{DipsEnd, RisesAtTheBase, RoofsEnd};

/// No dropped sample raises the limit.
pub fn drops_never_raise()
    ensures { DropsNeverRaise }
{}

/// A sample makes the limit outside a dip at most twice and at least half of what it was.
pub fn moves_by_twice_at_most()
    ensures { MovesByTwiceAtMost }
{}

/// The limit rises only where an answer of the window met it.
pub fn rises_only_where_met()
    ensures { RisesOnlyWhereMet }
{}

/// The answer that is the 640,000th of a window ends it at the latest.
pub fn windows_end()
    ensures { WindowsEnd }
{}

/// Whatever was learned, a full window that met the limit and whose mean round trip is the base
/// raises it, outside a dip and where no roof holds.
pub fn rises_at_the_base()
    ensures { RisesAtTheBase }
{}

/// One full window ends a dip.
pub fn dips_end()
    ensures { DipsEnd }
{}

/// Each full window takes one off those for which a roof holds.
pub fn roofs_end()
    ensures { RoofsEnd }
{}
