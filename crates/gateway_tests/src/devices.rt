// A reader and a writer that fail once or from a call on, a gate that has room, a backend that
// answers what it was told to, and a clock.
ghost use Rattle.std.specs.Prelude.{◌≡◌};
ghost use Rattle.counted_io.specs.Count.{raised};

use clocks::Clock;
use gate_port::{Admission, GatePort};
use lent_io::ReadAhead;
use limiter_core::{Outcome, PermitFacts};
use message_parts::{Headers, Request};
use partitions::Part;
use std::alloc::Global;
use std::cell::Cell;
use std::io::{BufRead, Error, ErrorKind, Read, Result, Write};
use wire::{Backend, BackendAnswer, Response, Reuse, WireFault};

/// Which calls of a device fail, counted from 0.
#[derive(Clone, Copy, Drop)]
pub(crate) enum Failing {
    Never,
    /// This call alone.
    Once(u64),
    /// This call and all calls after it.
    From(u64),
}

impl Failing {
    fn fails(self, call: u64) -> bool {
        match self {
            Failing::Never => false,
            Failing::Once(only) => call == only,
            Failing::From(first) => first <= call,
        }
    }
}

/// Gives its bytes, or shows them, at most `most` in a call.
#[derive(Drop)]
pub(crate) struct Source<'a> {
    pub(crate) left: &'a [u8],
    pub(crate) most: usize,
    pub(crate) calls: u64,
    pub(crate) failing: Failing,
}

impl<'a> Source<'a> {
    // One more call, which may fail.
    fn count_call(&mut self) -> Result<()> {
        let call = self.calls;
        self.calls = call.saturating_add(1);
        if self.failing.fails(call) {
            return Err(Error::from(ErrorKind::ConnectionReset));
        }
        Ok(())
    }

    // What the next read shows.
    fn shown(&self) -> &[u8] {
        &self.left[..self.most.min(self.left.len())]
    }
}

impl<'a> Read for Source<'a> {
    fn read(&mut self, buf: &mut [u8]) -> Result<usize> {
        self.count_call()?;
        let shown = self.shown();
        let count = shown.len().min(buf.len());
        buf[..count].copy_from_slice(&shown[..count]);
        self.consume(count);
        Ok(count)
    }
}

impl<'a> BufRead for Source<'a> {
    fn fill_buf(&mut self) -> Result<&[u8]> {
        self.count_call()?;
        Ok(self.shown())
    }

    fn consume(&mut self, amount: usize) {
        self.left = &self.left[amount.min(self.left.len())..];
    }
}

/// All that it has left lies there already.
impl<'a> ReadAhead for Source<'a> {
    ghost ahead = { λ source. source.left.now };

    fn is_drained(&self) -> bool {
        self.left.is_empty()
    }
}

/// How many bytes of what is written are kept: up to the end of a status.
pub(crate) const KEPT: usize = 12;

/// Takes what is written, and keeps how much it was and what it began with. Flushes are calls like
/// writes.
#[derive(Drop)]
pub(crate) struct Sink {
    pub(crate) calls: u64,
    pub(crate) failing: Failing,
    pub(crate) taken: usize,
    pub(crate) first: [u8; KEPT],
}

impl Sink {
    fn next_call(&mut self) -> Result<()> {
        let call = self.calls;
        self.calls = call.saturating_add(1);
        if self.failing.fails(call) {
            return Err(Error::from(ErrorKind::BrokenPipe));
        }
        Ok(())
    }
}

impl Write for Sink {
    fn write(&mut self, buf: &[u8]) -> Result<usize> {
        self.next_call()?;
        for byte in buf {
            if let Some(place) = self.first.get_mut(self.taken) {
                *place = *byte;
            }
            self.taken = self.taken.saturating_add(1);
        }
        Ok(buf.len())
    }

    fn flush(&mut self) -> Result<()> {
        self.next_call()
    }
}

/// A gate that has room, and keeps whether it was asked and what an ending told it.
#[derive(Drop)]
pub(crate) struct Watched {
    pub(crate) is_asked: bool,
    pub(crate) learnt: Option<Outcome>,
}

impl GatePort for Watched {
    type Permit = PermitFacts;

    type Receipt = ();

    ghost use Rattle.std.specs.Prelude.{None};

    ghost shown = { λ _. None };

    ghost known = { λ _. None };

    ghost facts = { λ permit. permit };

    fn admit(
        &mut self,
        part: Part,
        bypass: bool,
        _deadline: Option<u64>,
        now: u64,
    ) -> Admission<PermitFacts> {
        self.is_asked = true;
        if bypass {
            return Admission::Bypassed;
        }
        Admission::Admitted(PermitFacts {
            number: 0,
            part,
            start: now,
            inflight: 1,
        })
    }

    fn start(permit: &PermitFacts) -> u64 {
        permit.start
    }

    fn end(&mut self, _permit: PermitFacts, outcome: Outcome, _now: u64) {
        self.learnt = Some(outcome);
    }
}

/// What a backend answers.
#[derive(Clone, Copy, Drop)]
pub(crate) enum Says {
    /// A response of this status, without a body.
    Status(u16),
    NotConnected,
    Broken(WireFault),
    Stale(WireFault),
    Late,
    Memory,
    Bodies,
}

/// A backend that answers what it was told to.
#[derive(Drop)]
pub(crate) struct Told {
    pub(crate) alloc: Global,
    pub(crate) says: Says,
    pub(crate) count: u64,
}

impl Told {
    // A response of this status.
    fn answered(&self, status: u16) -> BackendAnswer {
        let headers = Headers::new(Vec::new(self.alloc));
        let status = status.clamp(100, 999);
        BackendAnswer::Answered(Response::new(status, headers, None, Reuse::Closing))
    }
}

impl Backend for Told {
    ghost use Rattle.std.specs.Prelude.{[], None};

    ghost forwarded = { λ b. b.count };

    ghost shown = { λ b. None };

    ghost written = { λ b. None };

    ghost host = { λ b. [] };

    fn forward(&mut self, _request: &Request) -> BackendAnswer
        ensures { self.new.count ≡ raised self.old.count }
    {
        self.count = self.count.saturating_add(1);
        match self.says {
            Says::Status(status) => self.answered(status),
            Says::NotConnected => BackendAnswer::NotConnected,
            Says::Broken(fault) => BackendAnswer::Broken(fault),
            Says::Stale(fault) => BackendAnswer::Stale(fault),
            Says::Late => BackendAnswer::Late,
            Says::Memory => BackendAnswer::Memory,
            Says::Bodies => BackendAnswer::Bodies,
        }
    }

    fn leave(&mut self) {}

    fn forwards(&self) -> u64
        ensures { result ≡ self.now.count }
    {
        self.count
    }
}

/// In nanoseconds.
const SECOND: u64 = 1_000_000_000;

/// A clock that tells 7 seconds first, and goes on by a second at each look.
#[derive(Drop)]
pub(crate) struct Ticking {
    nanos: Cell<u64>,
}

impl Ticking {
    /// A clock that nobody has looked at.
    pub(crate) fn new() -> Ticking {
        Ticking {
            nanos: Cell::new(7 * SECOND),
        }
    }
}

impl Clock for Ticking {
    fn now(&self) -> u64 {
        let nanos = self.nanos.get();
        self.nanos.set(nanos.saturating_add(SECOND));
        nanos
    }
}
