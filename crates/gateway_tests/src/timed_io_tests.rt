// Connections whose limits can't be set, which are ready, whose calls are interrupted, and how long
// each call may take.

use crate::checks::check;
use clocks::Clock;
use std::cell::Cell;
use std::io::{Error, ErrorKind, Read, Result, Write};
use std::time::Duration;
use timed_io::{Connection, Inlet, Lent, Outlet, TimedReader, TimedWriter, Uninterrupted};

/// A connection that gives and takes one byte a call, once it was interrupted so often. It is ready
/// for each call, or has to be waited for. It keeps how long the last call may wait, unless that
/// fails.
#[derive(Drop)]
struct Fake {
    takes_limits: bool,
    is_ready: bool,
    interruptions: Cell<u64>,
    calls: Cell<u64>,
    limit: Cell<u64>,
}

/// A connection that wasn't called yet, and has to be waited for.
fn fake_of(takes_limits: bool, interruptions: u64) -> Fake {
    Fake {
        takes_limits,
        is_ready: false,
        interruptions: Cell::new(interruptions),
        calls: Cell::new(0),
        limit: Cell::new(0),
    }
}

impl Fake {
    fn call(&self, room: usize) -> Result<usize> {
        self.calls.set(self.calls.get().saturating_add(1));
        let left = self.interruptions.get();
        if left > 0 {
            self.interruptions.set(left - 1);
            return Err(Error::from(ErrorKind::Interrupted));
        }
        Ok(room.min(1))
    }

    fn call_ready(&self, room: usize) -> Result<usize> {
        if !self.is_ready {
            return Err(Error::from(ErrorKind::WouldBlock));
        }
        self.call(room)
    }

    fn limit(&self, most: Duration) -> Result<()> {
        if !self.takes_limits {
            return Err(Error::from(ErrorKind::InvalidInput));
        }
        self.limit.set(most.as_secs());
        Ok(())
    }
}

impl Connection for Fake {
    fn has_unread(&self) -> bool {
        false
    }

    fn has_left(&self) -> bool {
        false
    }

    fn is_behind(&self, _most: Duration) -> bool {
        false
    }

    fn finish(&self) -> Result<()> {
        Ok(())
    }
}

/// An end of it, which tells no bytes.
#[derive(Drop)]
struct End {}

impl Inlet<Fake> for End {
    ghost use Rattle.std.specs.Prelude.{⊤, None};

    ghost remaining = { λ _. None };

    ghost limited = { λ _ _. ⊤ };

    ghost allowed = { λ _. 0 };

    fn limit_reads(&self, stream: &Fake, most: Duration) -> Result<()> {
        stream.limit(most)
    }

    fn receive(&mut self, stream: &Fake, _most: Duration, buf: &mut [u8]) -> Result<usize> {
        stream.call(buf.len()).map(|count| count.min(buf.len()))
    }

    fn receive_ready(&mut self, stream: &Fake, buf: &mut [u8]) -> Result<usize> {
        stream
            .call_ready(buf.len())
            .map(|count| count.min(buf.len()))
    }
}

impl Outlet<Fake> for End {
    ghost use Rattle.std.specs.Prelude.{⊤, None};

    ghost contents = { λ _. None };

    ghost limited = { λ _ _. ⊤ };

    ghost allowed = { λ _. 0 };

    fn limit_writes(&self, stream: &Fake, most: Duration) -> Result<()> {
        stream.limit(most)
    }

    fn send(&mut self, stream: &Fake, _most: Duration, buf: &[u8]) -> Result<usize> {
        stream.call(buf.len()).map(|count| count.min(buf.len()))
    }

    fn send_ready(&mut self, stream: &Fake, buf: &[u8]) -> Result<usize> {
        stream
            .call_ready(buf.len())
            .map(|count| count.min(buf.len()))
    }
}

/// In nanoseconds.
const SECOND: u64 = 1_000_000_000;

/// A clock that goes on by a second at each look.
#[derive(Drop)]
struct Ticking {
    nanos: Cell<u64>,
}

/// A clock that nobody has looked at.
fn fresh_ticking() -> Ticking {
    Ticking {
        nanos: Cell::new(SECOND),
    }
}

impl Clock for Ticking {
    fn now(&self) -> u64 {
        let nanos = self.nanos.get();
        self.nanos.set(nanos.saturating_add(SECOND));
        nanos
    }
}

/// How many calls are made of a connection that takes no limit, by a read and a write which succeed
/// just where it is ready.
fn calls_without_limits(is_ready: bool) -> u64 {
    let mut fake = fake_of(false, 0);
    fake.is_ready = is_ready;
    let clock = fresh_ticking();
    let mut reader = TimedReader::new(Lent::new(&fake, End {}), &clock, 5 * SECOND);
    let mut writer = TimedWriter::new(Lent::new(&fake, End {}), &clock, 5 * SECOND);
    let is_read = reader.read(&mut [0u8; 4]).is_ok();
    let is_written = writer.write(b"four").is_ok();
    if is_read != is_ready || is_written != is_ready {
        return u64::MAX;
    }
    fake.calls.get()
}

#[test]
fn a_call_that_cannot_be_limited_is_not_waited_for(rt: HostRuntime) {
    check(&rt, calls_without_limits(false) == 0);
}

#[test]
fn a_call_that_need_not_wait_needs_no_limit(rt: HostRuntime) {
    check(&rt, calls_without_limits(true) == 2);
}

/// How many seconds four reads, and four writes, may wait, by a second's look each.
fn seconds_left(is_reading: bool) -> [u64; 4] {
    let (fake, clock) = (fake_of(true, 0), fresh_ticking());
    let mut reader = TimedReader::new(Lent::new(&fake, End {}), &clock, 4 * SECOND);
    let mut writer = TimedWriter::new(Lent::new(&fake, End {}), &clock, 4 * SECOND);
    let mut found = [9; 4];
    for place in &mut found {
        let outcome = if is_reading {
            reader.read(&mut [0u8; 4])
        } else {
            writer.write(b"four")
        };
        *place = match outcome {
            Ok(_) => fake.limit.get(),
            Err(_) => 9,
        };
    }
    found
}

#[test]
fn each_call_waits_for_what_is_left(rt: HostRuntime) {
    check(&rt, seconds_left(true) == [4, 3, 2, 1]);
    check(&rt, seconds_left(false) == [4, 3, 2, 1]);
}

/// What a read and a write give that are interrupted five times, and how often each was called.
fn read_through(seconds: u64) -> (Option<usize>, u64) {
    let (fake, clock) = (fake_of(true, 5), fresh_ticking());
    let timed = TimedReader::new(
        Lent::new(&fake, End {}),
        &clock,
        seconds.saturating_mul(SECOND),
    );
    let found = Uninterrupted::new(timed).read(&mut [0u8; 4]).ok();
    (found, fake.calls.get())
}

fn written_through(seconds: u64) -> (Option<usize>, u64) {
    let (fake, clock) = (fake_of(true, 5), fresh_ticking());
    let timed = TimedWriter::new(
        Lent::new(&fake, End {}),
        &clock,
        seconds.saturating_mul(SECOND),
    );
    let found = Uninterrupted::new(timed).write(b"four").ok();
    (found, fake.calls.get())
}

#[test]
fn an_interrupted_call_begins_anew_within_its_time(rt: HostRuntime) {
    check(&rt, read_through(9) == (Some(1), 6));
    check(&rt, written_through(9) == (Some(1), 6));
    check(&rt, read_through(2) == (None, 2));
    check(&rt, written_through(2) == (None, 2));
}
