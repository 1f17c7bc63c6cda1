// What hears of a gateway that serves, and has it drain where the process that started it is gone.
use crate::parent::ParentProcess;
use gate_port::Report;
use listening::Closable;
use log::{Log, warn};
use partitions::PartitionTable;
use proxy::{ExchangeSummary, Watch};
use seats::ClientConnections;
use serve_reports::Watcher;
use std::io::Error;
use std::sync::Wait;
use std::time::{Clock as SystemClock, Duration};
use tcp_backend::{BackendWatch, ConnectionEvent};
use wire::WireFault;

/// A gateway's watcher, which hears of everything. With each report it is also looked whether the
/// parent is still the process with which the gateway is to drain.
#[derive(Drop)]
pub(crate) struct GatewayWatch<'a, R: SystemClock, L> {
    pub(crate) rt: &'a R,
    pub(crate) watcher: &'a Watcher<'a, R>,
    /// Where clients come from.
    pub(crate) front: &'a L,
    /// The id of the process with which it is to drain, if there is one.
    pub(crate) parent: Option<u32>,
    /// How long a connection that waits may still be accepted as the gateway drains.
    pub(crate) most: Duration,
}

impl<R: SystemClock + Log + ParentProcess, L: Closable> GatewayWatch<'_, R, L> {
    /// Drains the gateway, if the process with which it is to drain isn't its parent any more.
    fn follow_parent(&self) {
        let Some(parent) = self.parent else {
            return;
        };
        if self.rt.parent_id() != parent && self.front.is_open() {
            warn!(self.rt; target: "admission", parent;
                "the process that started the gateway has ended: the gateway drains");
            self.front.close(self.rt, self.most);
        }
    }
}

impl<R: SystemClock + Log + Wait + ParentProcess, L: Closable> Watch for GatewayWatch<'_, R, L> {
    fn accepted(&self) -> u64 {
        self.watcher.accepted()
    }

    fn ended(&self, exchange: &ExchangeSummary, since: u64) {
        self.watcher.ended(exchange, since);
    }

    fn has_free_worker(&self) -> bool {
        self.watcher.has_free_worker()
    }

    fn unaccepted(&self, error: &Error) {
        self.watcher.unaccepted(error);
    }

    fn report(&self, table: &PartitionTable, report: &Report, clients: &ClientConnections) {
        self.watcher.report(table, report, clients);
        self.follow_parent();
    }
}

impl<R: SystemClock + Log + Wait, L> BackendWatch for GatewayWatch<'_, R, L> {
    fn unreached(&self, error: &Error) {
        self.watcher.unreached(error);
    }

    fn broken(&self, fault: WireFault) {
        self.watcher.broken(fault);
    }

    fn late(&self) {
        self.watcher.late();
    }

    fn unheld(&self) {
        self.watcher.unheld();
    }

    fn connection(&self, event: ConnectionEvent) {
        self.watcher.connection(event);
    }
}
