// What the log says while a gateway serves.
ghost use Rattle.std.specs.Prelude.{◌≡◌};
ghost use Rattle.serve_reports.specs.Spells.{is_minute_over};

use crate::connections::ConnectionCounts;
use crate::noted::{GatewayStats, LimitRange};
use crate::outcomes::OutcomeTally;
use crate::outstanding::{Moments, Outstanding};
use crate::pace::Pace;
use crate::reaching::{Reaching, is_try};
use crate::refusals::RefusalTally;
use crate::report_line::report_text;
use crate::responses::ResponseTally;
use crate::tally::AnswerTally;
use crate::times::TimeTally;
use crate::troubles::{TROUBLES, Trouble, TroubleLogs};
use crate::workers::Workers;
use clocks::{Clock, ProgramClock};
use gate_port::Report;
use log::{Log, info, warn};
use partitions::PartitionTable;
use proxy::{ExchangeSummary, Watch};
use seats::ClientConnections;
use std::alloc::{AllocError, Global};
use std::io::Error;
use std::sync::atomic::{AtomicU32, AtomicU64, Ordering};
use std::sync::{Mutex, Wait};
use std::time::Clock as SystemClock;
use tcp_backend::{BackendWatch, ConnectionEvent};
use wire::WireFault;

/// The nanoseconds of a second.
const SECOND: u64 = 1_000_000_000;

/// Those of a minute.
const MINUTE: u64 = 60 * SECOND;

/// The system's numbers of the faults that say that no descriptor was free: of the whole system,
/// and of this program.
const ENFILE: i32 = 23;

const EMFILE: i32 = 24;

/// What was noted of exchanges and of troubles.
#[derive(Clone, Copy)]
struct Notes {
    answers: AnswerTally,
    refusals: RefusalTally,
    troubles: TroubleLogs,
    // When the log last told of old permits, by the watcher's clock in nanoseconds.
    old_told: Option<u64>,
}

/// What was measured of each exchange.
#[derive(Clone, Copy)]
struct Measures {
    responses: ResponseTally,
    outcomes: OutcomeTally,
    times: TimeTally,
}

/// Logs what workers and their backends meet: a trouble at most once in ten seconds, with how often
/// it came since it was last told, permits that are out for a minute once a minute, and the state
/// as often as it is asked to.
#[derive(Drop)]
pub struct Watcher<'a, R: SystemClock> {
    rt: &'a R,
    alloc: Global,
    // That of the gate's moments too.
    clock: &'a ProgramClock<&'a R>,
    notes: Mutex<Notes>,
    connections: ConnectionCounts,
    reaching: Mutex<Reaching>,
    // Of every exchange, so that most take no other lock here.
    measures: Mutex<Measures>,
    limit: LimitRange,
    workers: u32,
    busy: AtomicU32,
    moments: Moments,
    pace: Pace,
    looks: AtomicU64,
}

impl<'a, R: SystemClock> Watcher<'a, R> {
    /// Nothing has been noted, the limit may be this, and so many workers are free. The state is
    /// logged every so many seconds, or never without them. It fails only out of memory.
    pub fn new(
        rt: &'a R,
        alloc: Global,
        clock: &'a ProgramClock<&'a R>,
        limit: LimitRange,
        workers: u32,
        report_seconds: Option<u32>,
    ) -> Result<Watcher<'a, R>, AllocError> {
        let notes = Notes {
            answers: AnswerTally::default(),
            refusals: RefusalTally::default(),
            troubles: TroubleLogs::new(),
            old_told: None,
        };
        let measures = Measures {
            responses: ResponseTally::default(),
            outcomes: OutcomeTally::default(),
            times: TimeTally::new(),
        };
        Ok(Watcher {
            rt,
            alloc,
            clock,
            notes: Mutex::new(notes),
            connections: ConnectionCounts::new(),
            reaching: Mutex::new(Reaching::new()),
            measures: Mutex::new(measures),
            limit,
            workers,
            busy: AtomicU32::new(0),
            moments: Moments::new(alloc, workers)?,
            pace: Pace::new(report_seconds),
            looks: AtomicU64::new(0),
        })
    }

    /// Where the worker of this number, from 0 on, notes since when it has a permit, by the clock
    /// of the gate's moments.
    pub fn moment(&self, number: usize) -> Option<&AtomicU64> {
        self.moments.place(number)
    }

    /// How often it is to be told of the state.
    pub fn pace(&self) -> &Pace {
        &self.pace
    }

    /// How many workers serve a client, and of how many.
    fn workers(&self) -> Workers {
        Workers {
            busy: self.busy.load(Ordering::SeqCst),
            count: self.workers,
        }
    }
}

impl<R: SystemClock + Log + Wait> Watcher<'_, R> {
    /// What was noted so far.
    pub fn noted(&self) -> GatewayStats {
        let notes = *self.notes.lock(self.rt);
        let measures = *self.measures.lock(self.rt);
        let now = self.clock.now();
        GatewayStats {
            limit: self.limit,
            answers: notes.answers,
            responses: measures.responses,
            refusals: notes.refusals,
            outcomes: measures.outcomes,
            times: measures.times,
            troubles: notes.troubles.totals(),
            connections: self.connections.counted(),
            clients: ClientConnections::none(),
            workers: self.workers(),
            outstanding: self.moments.outstanding(now),
            is_unreached: self.reaching.lock(self.rt).is_unreached(now),
            seconds: now / SECOND,
        }
    }

    /// Counts an exchange that took so many nanoseconds.
    fn measure(&self, exchange: &ExchangeSummary, took: u64) {
        let mut measures = self.measures.lock(self.rt);
        measures.responses.count(exchange);
        measures.outcomes.count(exchange);
        measures.times.count(exchange, took);
    }

    /// Notes that a trouble came once more. If the log is to tell of it now, returns how often it
    /// came since it was last told.
    fn note(&self, trouble: Trouble) -> Option<u64> {
        let now = self.clock.now();
        let mut notes = self.notes.lock(self.rt);
        notes.troubles.of(trouble).note(now)
    }

    /// A descriptor was wanted, and none was free.
    fn lack_descriptor(&self, error: &Error) {
        if let Some(count) = self.note(Trouble::WithoutDescriptor) {
            warn!(self.rt; target: "admission", count, error:%; "no descriptor was free");
        }
    }

    /// The last free worker was taken: who comes now waits unseen in the system's accept queue.
    fn lack_worker(&self) {
        if let Some(count) = self.note(Trouble::AllTaken) {
            let workers = self.workers;
            warn!(self.rt; target: "admission", count, workers; "all workers are taken");
        }
    }

    /// The body of a request or of an answer wasn't held: all bodies together have as many bytes as
    /// they may.
    fn lack_bodies(&self) {
        if let Some(count) = self.note(Trouble::Bodies) {
            warn!(self.rt; target: "admission", count; "bodies are at their bound");
        }
    }
}

impl<R: SystemClock + Log + Wait> Watcher<'_, R> {
    /// Tells the log of permits that are old, where there are some and it wasn't told for a minute.
    fn tell_old(&self) {
        let now = self.clock.now();
        let Outstanding {
            oldest_seconds,
            old,
        } = self.moments.outstanding(now);
        if old > 0 && self.may_tell_old(now) {
            warn!(self.rt; target: "admission", count = old, oldest_seconds;
                "permits are older than a minute");
        }
    }

    /// Tells the log of each trouble that is over: it came last ten seconds ago or earlier.
    fn tell_ended(&self) {
        for trouble in TROUBLES {
            if let Some(count) = self.end(trouble) {
                let trouble = trouble.word();
                info!(self.rt; target: "admission", trouble, count; "a trouble is over");
            }
        }
    }

    /// If a trouble is over and the log is to tell that now, returns how often it came since it was
    /// last told.
    fn end(&self, trouble: Trouble) -> Option<u64> {
        let now = self.clock.now();
        let mut notes = self.notes.lock(self.rt);
        notes.troubles.of(trouble).end(now)
    }

    /// Whether the log wasn't told of old permits for a minute; it is now.
    fn may_tell_old(&self, now: u64) -> bool {
        let mut notes = self.notes.lock(self.rt);
        let is_due = is_minute_over(notes.old_told, now);
        if is_due {
            notes.old_told = Some(now);
        }
        is_due
    }
}

/// Whether a minute is over since something was told, or it never was.
fn is_minute_over(told: Option<u64>, now: u64) -> bool
    ensures { result ≡ is_minute_over told now }
{
    match told {
        Some(told) => MINUTE <= now.saturating_sub(told),
        None => true,
    }
}

impl<R: SystemClock + Log + Wait> Watch for Watcher<'_, R> {
    fn accepted(&self) -> u64 {
        let others = self.busy.fetch_add(1, Ordering::SeqCst);
        if self.workers <= others.saturating_add(1) {
            self.lack_worker();
        }
        self.clock.now()
    }

    fn ended(&self, exchange: &ExchangeSummary, since: u64) {
        self.busy.fetch_sub(1, Ordering::SeqCst);
        self.measure(exchange, self.clock.now().saturating_sub(since));
        if exchange.is_own {
            let mut notes = self.notes.lock(self.rt);
            notes.answers.count(exchange);
            notes.refusals.count(exchange);
        }
        if exchange.is_own && exchange.answer == Some(503) {
            self.lack_bodies();
        }
    }

    fn has_free_worker(&self) -> bool {
        self.busy.load(Ordering::SeqCst) < self.workers
    }

    fn unaccepted(&self, error: &Error) {
        if lacks_descriptor(error) {
            self.lack_descriptor(error);
        }
    }

    fn report(&self, table: &PartitionTable, report: &Report, clients: &ClientConnections) {
        self.tell_old();
        self.tell_ended();
        let look = self.looks.fetch_add(1, Ordering::SeqCst).saturating_add(1);
        if !self.pace.is_due(look) {
            return;
        }
        let answers = self.notes.lock(self.rt).answers;
        let (workers, connections) = (self.workers(), self.connections.counted());
        let text = report_text(
            self.alloc,
            report,
            &workers,
            table,
            &answers,
            &connections,
            clients,
        );
        if let Ok(text) = text {
            info!(self.rt; target: "admission", "report {text}");
        }
    }
}

impl<R: SystemClock + Log + Wait> BackendWatch for Watcher<'_, R> {
    fn unreached(&self, error: &Error) {
        if lacks_descriptor(error) {
            return self.lack_descriptor(error);
        }
        if let Some(count) = self.note(Trouble::Unreached) {
            warn!(self.rt; target: "admission", count, error:%; "the backend can't be reached");
        }
    }

    fn broken(&self, fault: WireFault) {
        if let Some(count) = self.note(Trouble::Broken) {
            let cause = cause_of(fault);
            warn!(self.rt; target: "admission", count, cause; "the backend broke an answer");
        }
    }

    fn late(&self) {
        if let Some(count) = self.note(Trouble::Late) {
            warn!(self.rt; target: "admission", count; "the backend didn't answer in time");
        }
    }

    fn unheld(&self) {
        self.lack_bodies();
    }

    fn connection(&self, event: ConnectionEvent) {
        self.connections.count(event);
        if is_try(&event) {
            let now = self.clock.now();
            self.reaching.lock(self.rt).note(event, now);
        }
    }
}

/// Whether the fault says that no descriptor was free.
fn lacks_descriptor(error: &Error) -> bool {
    match error.raw_os_error() {
        Some(code) => code == ENFILE || code == EMFILE,
        None => false,
    }
}

/// What was wrong with an answer, in a word or two.
fn cause_of(fault: WireFault) -> &'static str {
    match fault {
        WireFault::Early | WireFault::Read => "cut off",
        WireFault::Malformed | WireFault::BothLengths | WireFault::Coding | WireFault::Method =>
            "malformed",
        WireFault::HeadTooLarge | WireFault::BodyTooLarge => "too large",
        WireFault::Write => "closed before the request was written",
        WireFault::TurnLimit => "too slow",
        WireFault::Memory => "out of memory",
        WireFault::Bodies => "above the bound on bodies",
    }
}
