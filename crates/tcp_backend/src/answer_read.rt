// Reading an answer within the time of its call.
ghost use Rattle.std.specs.Prelude.{◌≡◌, ◌||◌, false, IsErr, None};
ghost use Rattle.std.specs.Io.{ReadsAtMost};
ghost use Rattle.std.specs.Io.KnownBytes.{ReadConsumes};
ghost use Rattle.tcp_backend.specs.CallTime.{IsLate, Stands, countdown_to, looked_at};
ghost use Rattle.tcp_backend.specs.Reading.{gives_bytes, is_heard, reader_time};

use clocks::Clock;
use std::io::{Error, ErrorKind, Read, Result};
use std::net::{OpenStream, Shutdown};
use std::os::fd::AsRawFd;
use std::time::Duration;
use timed_io::{Countdown, read_ready};

/// How often one read may be interrupted, or find that there is time left.
const MOST_TURNS: u32 = 1 << 24;

/// A connection from which an answer is read, up to the deadline of its call where that has one: a
/// read that finds it reached fails and reads nothing, and another waits no longer than until it.
#[derive(Drop)]
pub(crate) struct AnswerRead<'c, S, C> {
    stream: S,
    time: Option<Countdown<'c, C>>,
    pause: Option<Duration>,
    // Whether a read gave bytes.
    is_heard: bool,
}

impl<'c, S, C> AnswerRead<'c, S, C> {
    // The connection, by value.
    pub(crate) fn into_stream(self) -> S {
        let AnswerRead {
            stream,
            time: _,
            pause: _,
            is_heard: _,
        } = self;
        stream
    }

    // Whether a byte of the answer came.
    pub(crate) fn is_heard(&self) -> bool
        ensures { result ≡ is_heard self.now }
    {
        self.is_heard
    }
}

impl<'c, S: Read + OpenStream + AsRawFd, C: Clock> AnswerRead<'c, S, C> {
    // A connection, and the time that is left for reading it.
    pub(crate) fn new(stream: S, time: Option<Countdown<'c, C>>) -> AnswerRead<'c, S, C>
        ensures time { reader_time result ≡ time.entry }
        ensures unheard { is_heard result ≡ false }
    {
        AnswerRead {
            stream,
            time,
            pause: None,
            is_heard: false,
        }
    }

    // What the clock told when a read last looked at it; 0 where none did.
    pub(crate) fn looked(&self) -> u64
        ensures { result ≡ looked_at (reader_time self.now) }
    {
        match &self.time {
            Some(time) => time.looked(),
            None => 0,
        }
    }

    // From now on a read that waits for so long fails with `WouldBlock`, or none does so.
    pub(crate) fn pause_after(&mut self, pause: Option<Duration>) -> Result<()>
        ensures time { reader_time self.new ≡ reader_time self.old }
        ensures heard { is_heard self.new ≡ is_heard self.old }
    {
        self.pause = pause;
        self.stream.set_read_timeout(pause)
    }

    // Tells the backend that nothing more is written.
    pub(crate) fn end_request(&self) -> Result<()> {
        self.stream.shutdown(Shutdown::Write)
    }

    // One read. What has come already is had by one call of the system.
    fn read_once(&mut self, buf: &mut [u8]) -> Result<usize>
        ensures bound { ReadsAtMost result buf.new }
        ensures deadline { Stands (countdown_to (reader_time self.old))
            (countdown_to (reader_time self.new)) }
        ensures late { IsLate (reader_time self.new) → IsErr result }
        ensures heard { is_heard self.new ≡ is_heard self.old }
    {
        let Some(time) = &mut self.time else {
            return self.stream.read(buf);
        };
        let left = time.left()?;
        match read_ready(&self.stream, buf) {
            Err(fault) if fault.kind() == ErrorKind::WouldBlock => {}
            outcome => return outcome,
        }
        let most = left.min(self.pause.unwrap_or(left));
        self.stream.set_read_timeout(Some(most))?;
        self.stream.read(buf)
    }

    // Whether a read that failed so is begun anew: it was interrupted, or it waited until the
    // deadline, and the next look says so.
    fn goes_on(&self, fault: &Error) -> bool {
        match fault.kind() {
            ErrorKind::Interrupted => true,
            ErrorKind::WouldBlock => self.time.is_some() && self.pause.is_none(),
            _ => false,
        }
    }
}

impl<'c, S: Read + OpenStream + AsRawFd, C: Clock> Read for AnswerRead<'c, S, C> {
    ghost use Rattle.std.specs.Prelude.{None};

    ghost remaining = { λ _. None };

    #[tactic(auto, using(crate::proofs::RepeatedCalls::anew))]
    fn read(&mut self, buf: &mut [u8]) -> Result<usize>
        ensures bound { ReadsAtMost result buf.new }
        ensures bytes { ReadConsumes None None result buf.new }
        ensures deadline { Stands (countdown_to (reader_time self.old))
            (countdown_to (reader_time self.new)) }
        ensures late { IsLate (reader_time self.new) → IsErr result }
        ensures heard { is_heard self.new ≡ (is_heard self.old || gives_bytes result) }
    {
        for _ in 0..MOST_TURNS {
            match self.read_once(buf) {
                Err(fault) if self.goes_on(&fault) => {}
                outcome => {
                    self.is_heard = self.is_heard || gives_bytes(&outcome);
                    return outcome;
                }
            }
        }
        Err(Error::new(ErrorKind::TimedOut, "nothing came"))
    }
}

// Whether a read gave bytes: neither a fault nor the end.
fn gives_bytes(outcome: &Result<usize>) -> bool
    ensures { result ≡ gives_bytes outcome.now }
{
    match outcome {
        Ok(count) => *count != 0,
        Err(_) => false,
    }
}
