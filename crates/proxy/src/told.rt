// What is told of an exchange.
ghost use Rattle.std.specs.Prelude.{◌≡◌};
ghost use Rattle.proxy.specs.Made.{counts_of, is_all_sent, is_kept, summary_of, with_sent};
ghost use Rattle.proxy.specs.Settling.{times_between};

use classifier::Class;
use counted_io::Counted;
use gate_port::Why;
use limiter_core::Outcome;
use wire::{Persistence, WireFault};

/// What the gate said of a request.
#[derive(Clone, Copy)]
pub enum Verdict {
    /// No request was read, so the gate wasn't asked.
    NotAsked,
    /// It was admitted, and is ended by now.
    Admitted,
    /// It bypassed the limit.
    Bypassed,
    /// It was refused, for this cause.
    Refused(Why),
}

/// How long a permit was waited for and held, in nanoseconds.
#[derive(Clone, Copy)]
pub struct PermitTimes {
    /// From the asking to the permit's start: 0 of one that was got at once.
    pub waited: u64,
    /// From its start to its end, at which the backend has answered: the round trip that the limit
    /// learns of.
    pub round_trip: u64,
}

impl PermitTimes {
    /// Those of a permit that was asked for, started and ended at these moments; 0 from a moment
    /// to one before it.
    pub(crate) fn between(asked: u64, start: u64, end: u64) -> PermitTimes
        ensures { result ≡ times_between asked start end }
    {
        PermitTimes {
            waited: start.saturating_sub(asked),
            round_trip: end.saturating_sub(start),
        }
    }
}

/// What became of an exchange.
#[derive(Clone, Copy)]
pub struct ExchangeSummary {
    /// The request's class, where one was read.
    pub class: Option<Class>,
    /// What the gate said.
    pub admission: Verdict,
    /// How long its permit was waited for and held, where it got one.
    pub permit: Option<PermitTimes>,
    /// The status of the text meant for the client; none where nothing more is written.
    pub answer: Option<u16>,
    /// Whether that text is an answer of the gateway's own, and not the backend's response.
    pub is_own: bool,
    /// Whether the client ended what it sends before a byte of a request, as who only looks whether
    /// the gateway is there does.
    pub is_empty: bool,
    /// What the backend's answer means to the gate, where the request was forwarded. The gate is
    /// told it as a permit is ended, and so nothing of a request that bypasses it.
    pub outcome: Option<Outcome>,
    /// Whether nothing was taken of the client's connection that isn't read.
    pub is_drained: bool,
    /// What the text meant for the client says of its connection; `Close` where there is none.
    pub persistence: Persistence,
    /// `Write` where the writer failed.
    pub written_fault: Option<WireFault>,
}

/// How a reader or a writer had been called at some moment.
#[derive(Clone, Copy)]
pub struct CallCounts {
    /// How many reads or writes were made.
    pub calls: u64,
    /// How many flushes were made.
    pub flushes: u64,
    /// How many of all these failed.
    pub failures: u64,
    /// Whether a flush succeeded after the last write.
    pub is_flushed: bool,
}

impl CallCounts {
    /// The counts as they are.
    pub(crate) fn of<T>(counted: &Counted<T>) -> CallCounts
        ensures { result ≡ counts_of counted.now }
    {
        CallCounts {
            calls: counted.calls(),
            flushes: counted.flushes(),
            failures: counted.failures(),
            is_flushed: counted.is_flushed(),
        }
    }
}

/// An exchange that was carried out, with the counts that its reader and its writer had at its end.
///
/// [`exchange`](crate::exchange) alone makes one, and nobody can copy it or let it go: so who has
/// to hand one over for each client has carried out as many. It ends where it is told.
pub struct Exchange {
    pub(crate) told: ExchangeSummary,
    pub(crate) reads: CallCounts,
    pub(crate) writes: CallCounts,
    pub(crate) is_sent: bool,
}

impl Exchange {
    /// What became of it.
    pub fn summary(&self) -> &ExchangeSummary
        ensures { result.now ≡ summary_of self.now }
    {
        &self.told
    }

    /// Whether its caller tells that all that was written to the client was sent. A new one isn't
    /// told so: what was written may lie in a buffer.
    pub fn is_sent(&self) -> bool
        ensures { result ≡ is_all_sent self.now }
    {
        self.is_sent
    }

    /// Whether the client is kept: its answer says that its connection goes on, no write failed,
    /// and all was sent. Then nothing was taken of its connection that isn't read.
    pub fn is_kept(&self) -> bool
        ensures { result ≡ is_kept self.now }
    {
        match self.told.persistence {
            Persistence::Close => false,
            Persistence::Keep => self.is_sent && self.told.written_fault.is_none(),
        }
    }

    /// The same, of which its caller tells whether all was sent.
    pub fn with_sent(self, is_sent: bool) -> Exchange
        ensures { result ≡ with_sent is_sent self }
    {
        let Exchange {
            told,
            reads,
            writes,
            is_sent: _,
        } = self;
        Exchange {
            told,
            reads,
            writes,
            is_sent,
        }
    }

    /// Ends it, and tells what became of it.
    pub fn end(self) -> ExchangeSummary
        ensures { result ≡ summary_of self }
    {
        let Exchange {
            told,
            reads: _,
            writes: _,
            is_sent: _,
        } = self;
        told
    }
}
