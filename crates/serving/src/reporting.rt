// What is told of a gate while its workers serve.
ghost use Rattle.std.specs.Prelude.{◌≡◌};
ghost use Rattle.serving.specs.Reports.{next_report};

use clocks::Clock;
use gate_port::GateView;
use limit_laws::LAST_MOMENT;
use listening::Listener;
use partitions::PartitionTable;
use proxy::Watch;
use std::sync::{Condvar, Mutex, Wait};
use std::time::{Clock as SystemClock, Duration};
use tasks::Task;

/// The most nanoseconds from one look at the clock to the next: a second, since the clock that is
/// looked at need not go as the system's does.
const LONGEST_REST_NS: u64 = 1_000_000_000;

/// The fewest that are slept: 1 ms, so that a clock that stands still keeps no processor busy.
const SHORTEST_REST_NS: u64 = 1_000_000;

/// How many workers haven't ended.
#[derive(Drop)]
pub(crate) struct ActiveWorkers {
    count: Mutex<usize>,
    left: Condvar,
}

impl ActiveWorkers {
    /// So many workers.
    pub(crate) fn new(count: usize) -> ActiveWorkers {
        ActiveWorkers {
            count: Mutex::new(count),
            left: Condvar::new(),
        }
    }

    /// One of them ends; with the last one whoever rests here wakes. Whether it is the last one.
    pub(crate) fn leave(&self, rt: &impl Wait) -> bool {
        let mut count = self.count.lock(rt);
        *count = count.saturating_sub(1);
        if *count > 0 {
            return false;
        }
        self.left.notify_all();
        true
    }

    /// Rests until the clock has reached a moment, or all workers have ended; whether some haven't.
    /// A clock that fails is answered as if all had.
    fn rest<R: Wait + SystemClock, C: Clock>(&self, rt: &R, clock: &C, until: u64) -> bool {
        for _ in rt.forever() {
            if let Some(some_have_not) = self.pause(rt, clock.now(), until) {
                return some_have_not;
            }
        }
        true
    }

    /// The answer of a rest, where it has come to its end by now; else a pause was made.
    fn pause<R: Wait + SystemClock>(&self, rt: &R, now: u64, until: u64) -> Option<bool> {
        let count = self.count.lock(rt);
        if *count == 0 || LAST_MOMENT <= now {
            return Some(false);
        }
        if until <= now {
            return Some(true);
        }
        let rest = Duration::from_nanos((until - now).clamp(SHORTEST_REST_NS, LONGEST_REST_NS));
        let _woken = self.left.wait_timeout(rt, count, rest);
        None
    }
}

/// Whoever looks at the gate while its workers serve, every so many nanoseconds where that is
/// wanted, until all workers have ended.
#[derive(Drop)]
pub(crate) struct Reporter<'a, R, G, C, W, L> {
    pub(crate) rt: &'a R,
    pub(crate) active: &'a ActiveWorkers,
    pub(crate) gate: G,
    pub(crate) table: &'a PartitionTable,
    pub(crate) clock: &'a C,
    pub(crate) watch: &'a W,
    pub(crate) listener: &'a L,
    pub(crate) every_ns: Option<u64>,
}

impl<'a, R, G, C, W, L> Task for Reporter<'a, R, G, C, W, L>
where
    R: Wait + SystemClock,
    G: GateView + Drop,
    C: Clock,
    W: Watch,
    L: Listener,
{
    type Done = ();

    fn run(self) {
        if let Some(every_ns) = self.every_ns {
            let mut reporter = self;
            reporter.report_every(every_ns);
        }
    }
}

impl<'a, R, G, C, W, L> Reporter<'a, R, G, C, W, L>
where
    R: Wait + SystemClock,
    G: GateView,
    C: Clock,
    W: Watch,
    L: Listener,
{
    fn report_every(&mut self, every_ns: u64) {
        let mut next = self.clock.now().saturating_add(every_ns);
        for _ in self.rt.forever() {
            if !self.active.rest(self.rt, self.clock, next) {
                return;
            }
            let report = self.gate.report();
            let clients = self.listener.connections();
            self.watch.report(self.table, &report, &clients);
            next = after(next, every_ns, self.clock.now());
        }
    }
}

/// When the next report comes: so long behind the last one, or behind now where that has gone by.
fn after(last: u64, every_ns: u64, now: u64) -> u64
    ensures { result ≡ next_report last every_ns now }
{
    let next = last.saturating_add(every_ns);
    if next <= now {
        now.saturating_add(every_ns)
    } else {
        next
    }
}
