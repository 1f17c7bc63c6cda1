// What the log says of an operator's changes.

use gate_desk::DeskWatch;
use log::{Log, warn};
use serve_reports::{GatewayStats, Watcher};
use std::sync::Wait;
use std::time::Clock as SystemClock;

/// The watch of a gateway for its operator's desk: what is changed there is logged.
#[derive(Drop)]
pub(crate) struct DeskLog<'a, R: SystemClock> {
    pub(crate) rt: &'a R,
    pub(crate) watch: &'a Watcher<'a, R>,
}

impl<R: SystemClock + Log + Wait> DeskWatch for DeskLog<'_, R> {
    fn noted(&self) -> GatewayStats {
        self.watch.noted()
    }

    fn limit_set(&self, n: u32) {
        warn!(self.rt; target: "admission", limit = n; "the operator set the limit");
    }

    fn limit_reset(&self) {
        warn!(self.rt; target: "admission", "the operator reset the limit");
    }

    fn draining(&self) {
        warn!(self.rt; target: "admission", "the operator drains the gateway");
    }

    fn draining_after(&self, delay_ms: u32) {
        warn!(self.rt; target: "admission", after_ms = delay_ms;
            "the operator drains the gateway");
    }
}
