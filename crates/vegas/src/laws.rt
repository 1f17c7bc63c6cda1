// What an operator may rely on.
ghost use Rattle.vegas.specs.Queues.{EstimatesTheLeastQueue, NeverFallsAtTheBase, RisesAtTheBase};

/// The estimated queue is the least q with `q * rtt >= limit * (rtt - base)`.
pub fn estimates_the_least_queue()
    ensures { EstimatesTheLeastQueue }
{}

/// Without a drop, and with every round trip at the base, the limit never falls.
pub fn never_falls_at_the_base()
    ensures { NeverFallsAtTheBase }
{}

/// After n samples at the base, not dropped and with no probe among them, each of which found at
/// least half of the limit in use, the limit is n higher, or at the greatest.
pub fn rises_at_the_base()
    ensures { RisesAtTheBase }
{}
