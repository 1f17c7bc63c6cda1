// The desk of a gateway that serves.
ghost use Rattle.std.specs.Prelude.{◌≡◌};
ghost use Rattle.gate_desk.specs.Desk.{outcome_of};

use crate::desk_listener::DeskListener;
use crate::lame_duck::LameDuck;
use crate::watch::DeskWatch;
use clocks::Clock;
use gate_history::{Receipt, Spent};
use gate_port::Report;
use limit_laws::{Limit, SetFault};
use limiter_core::Reply;
use listening::Closable;
use operator_serving::{ChangeFault, Desk};
use partitions::PartitionTable;
use serve_reports::GatewayStats;
use shared_gate::{GateNaming, Pass, SharedGate};
use std::sync::Wait;
use std::time::{Clock as SystemClock, Duration};

/// The nanoseconds of a millisecond.
const MILLI: u64 = 1_000_000;

/// Where an operator looks at a gateway and changes it, by a pass of its own.
#[derive(Drop)]
pub struct GateDesk<'a, G: Limit, M: GateNaming, R, L, C, W> {
    /// What locks and tells the time.
    pub rt: &'a R,
    /// The gate that stands between clients and the backend.
    pub gate: &'a SharedGate<G, M>,
    /// The pass by which its limit is changed, and its state is told.
    pub pass: Pass<M>,
    /// What noted exchanges and troubles, and hears of what is changed.
    pub watch: W,
    /// Where clients come from.
    pub front: DeskListener<'a, L>,
    /// Where those come from who are served at this desk.
    pub own: DeskListener<'a, L>,
    /// When the gateway is to be drained.
    pub lame_duck: &'a LameDuck,
    /// The clock of the gate's moments.
    pub clock: &'a C,
    /// The classes of callers, with their shares.
    pub table: PartitionTable,
    /// How long a connection that waits may still be accepted as the gateway drains.
    pub most: Duration,
}

impl<'a, G: Limit, M: GateNaming, R, L, C, W: Drop> GateDesk<'a, G, M, R, L, C, W> {
    /// Its pass, once nothing more is done at the desk.
    pub(crate) fn into_pass(self) -> Pass<M>
        ensures { result ≡ self.entry.pass }
    {
        let GateDesk { pass, .. } = self;
        pass
    }
}

impl<'a, G, M, R, L, C, W> Desk for GateDesk<'a, G, M, R, L, C, W>
where
    G: Limit,
    M: GateNaming,
    R: SystemClock + Wait,
    L: Closable,
    C: Clock,
    W: DeskWatch,
{
    ghost use Rattle.gate_desk.specs.Desk.{DoneBy, ShownBy};
    ghost use Rattle.gate_desk.specs.Listeners.{is_shut};

    ghost rows = { λ desk. desk.table };

    ghost shows = { λ desk sight. ShownBy (is_shut desk.front) sight };

    ghost does = { DoneBy G.rules M.making L.closed };

    fn table(&self) -> &PartitionTable {
        &self.table
    }

    fn report(&mut self) -> Report {
        self.gate.report_to(self.rt, &mut self.pass)
    }

    fn noted(&self) -> GatewayStats {
        GatewayStats {
            clients: self.front.connections(),
            ..self.watch.noted()
        }
    }

    fn is_accepting(&self) -> bool {
        self.front.is_open() && !self.lame_duck.has_begun()
    }

    fn set_limit(&mut self, n: u32) -> Result<(), ChangeFault> {
        let now = self.clock.now();
        let told = self.gate.set_limit(self.rt, &mut self.pass, n, now);
        let outcome = outcome_of(told);
        if outcome.is_ok() {
            self.watch.limit_set(n);
        }
        outcome
    }

    fn reset(&mut self) -> Result<(), ChangeFault> {
        let now = self.clock.now();
        let told = self.gate.reset(self.rt, &mut self.pass, now);
        let outcome = outcome_of(told);
        if outcome.is_ok() {
            self.watch.limit_reset();
        }
        outcome
    }

    fn drain(&mut self) {
        self.watch.draining();
        self.lame_duck.begin(0);
        self.front.close(self.rt, self.most);
    }

    fn drain_after(&mut self, delay_ms: u32) {
        self.watch.draining_after(delay_ms);
        let until = self.clock.now().saturating_add(u64::from(delay_ms) * MILLI);
        self.lame_duck.begin(until);
        self.lame_duck
            .rest(self.rt, self.clock, &self.own, delay_ms);
        self.front.close(self.rt, self.most);
    }
}

/// What became of a change, by what the gate told.
fn outcome_of<M: GateNaming>(told: Result<Receipt<M>, Spent<M>>) -> Result<(), ChangeFault>
    ensures { result ≡ outcome_of told }
{
    match told {
        Ok(receipt) => match receipt.reply() {
            Reply::Refused(SetFault::NotSettable) => Err(ChangeFault::NotSettable),
            Reply::Refused(SetFault::OutOfRange) => Err(ChangeFault::OutOfRange),
            _ => Ok(()),
        },
        Err(_) => Err(ChangeFault::Exhausted),
    }
}
