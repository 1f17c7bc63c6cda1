// Connections to the backend, counted.
use std::sync::atomic::{AtomicU64, Ordering};
use tcp_backend::ConnectionEvent;

/// How many connections to the backend there are, and what became of those that there were.
#[derive(Clone, Copy)]
pub struct BackendConnections {
    /// How many are open at this moment.
    pub open: u64,
    /// How many of them wait for another request.
    pub idle: u64,
    /// How many were made.
    pub opened: u64,
    /// How often one was taken for another request.
    pub reused: u64,
    /// How many were closed while they waited: they had waited for too long, or the backend had
    /// closed them or sent something.
    pub stale: u64,
}

/// What became of connections so far, counted from several threads.
#[derive(Drop)]
pub(crate) struct ConnectionCounts {
    opened: AtomicU64,
    kept: AtomicU64,
    reused: AtomicU64,
    stale: AtomicU64,
    closed: AtomicU64,
}

impl ConnectionCounts {
    /// There was none yet.
    pub(crate) fn new() -> ConnectionCounts {
        ConnectionCounts {
            opened: AtomicU64::new(0),
            kept: AtomicU64::new(0),
            reused: AtomicU64::new(0),
            stale: AtomicU64::new(0),
            closed: AtomicU64::new(0),
        }
    }

    /// This became of one.
    pub(crate) fn count(&self, event: ConnectionEvent) {
        let count = match event {
            ConnectionEvent::Dialing | ConnectionEvent::Unreached => return,
            ConnectionEvent::Opened => &self.opened,
            ConnectionEvent::Kept => &self.kept,
            ConnectionEvent::Reused => &self.reused,
            ConnectionEvent::Stale => &self.stale,
            ConnectionEvent::Closed => &self.closed,
        };
        count.fetch_add(1, Ordering::SeqCst);
    }

    /// What was counted. Threads go on meanwhile, so numbers of one moment may be one apart.
    pub(crate) fn counted(&self) -> BackendConnections {
        let stale = self.stale.load(Ordering::SeqCst);
        let reused = self.reused.load(Ordering::SeqCst);
        let closed = self.closed.load(Ordering::SeqCst);
        let kept = self.kept.load(Ordering::SeqCst);
        let opened = self.opened.load(Ordering::SeqCst);
        BackendConnections {
            open: opened.saturating_sub(closed).saturating_sub(stale),
            idle: kept.saturating_sub(reused).saturating_sub(stale),
            opened,
            reused,
            stale,
        }
    }
}
