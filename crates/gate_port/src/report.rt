// The state of a gate at one moment.
ghost use Rattle.std.specs.Prelude.{◌≡◌};
ghost use Rattle.limiter_core.specs.Limiter.{gate_of, stands};
ghost use Rattle.gate_port.specs.Report.{report_in};

use limit_laws::{Limit, LimitView};
use limiter_core::{Core, Counters};
use partitions::Part;

/// The state of a gate at one moment, in permits and callers, and its counters so far.
#[derive(Clone, Copy)]
pub struct Report {
    /// The limit.
    pub limit: u32,
    /// How many permits aren't ended, those that are granted among them.
    pub inflight: u32,
    /// How many wait.
    pub waiters: u32,
    /// How many promoted permits are granted, which nobody has got yet.
    pub granted: u32,
    /// How many permits of each partition aren't ended: of `Known(0)` to `Known(3)`, and last of
    /// `Unknown`. A partition that the table doesn't hold is read as unknown.
    pub counts: [u32; 5],
    /// The shares of the same partitions at this limit.
    pub shares: [u32; 5],
    /// How many of the same partitions wait.
    pub waiting: [u32; 5],
    /// What the limit reckons with.
    pub view: LimitView,
    /// How many replies, promotions and outcomes of each kind there were so far.
    pub counters: Counters,
}

/// The state of a limiter. It takes no memory.
pub fn report_of<L: Limit>(core: &Core<L>) -> Report
    ensures { result
        ≡ report_in (gate_of L.rules core.now) (stands core.now) core.now.counters }
{
    let limit = core.limit();
    let table = core.table();
    Report {
        limit,
        inflight: core.total(),
        waiters: core.waiting(),
        granted: core.granted(),
        counts: [
            core.inflight(Part::Known(0)),
            core.inflight(Part::Known(1)),
            core.inflight(Part::Known(2)),
            core.inflight(Part::Known(3)),
            core.inflight(Part::Unknown),
        ],
        shares: [
            table.share(Part::Known(0), limit),
            table.share(Part::Known(1), limit),
            table.share(Part::Known(2), limit),
            table.share(Part::Known(3), limit),
            table.share(Part::Unknown, limit),
        ],
        waiting: [
            core.waiting_of(Part::Known(0)),
            core.waiting_of(Part::Known(1)),
            core.waiting_of(Part::Known(2)),
            core.waiting_of(Part::Known(3)),
            core.waiting_of(Part::Unknown),
        ],
        view: core.algorithm().view(),
        counters: core.counters(),
    }
}
