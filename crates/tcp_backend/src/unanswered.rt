// Writing a request as long as it isn't answered.
ghost use Rattle.std.specs.Prelude.{◌≡◌, IsErr};
ghost use Rattle.std.specs.Io.{WritesAtMost};
ghost use Rattle.std.specs.Io.KnownBytes.{Keeps, WriteAppends};
ghost use Rattle.tcp_backend.specs.CallTime.{IsLate, Stands, countdown_to};
ghost use Rattle.tcp_backend.specs.Sent.{end_of, writer_time};

use crate::ends::RequestOutlet;
use clocks::Clock;
use std::io::{Error, ErrorKind, Result, Write};
use std::net::OpenStream;
use std::time::Duration;
use timed_io::Countdown;

/// How long a write waits that makes no progress, in milliseconds.
const STALL_MILLIS: u64 = 250;

/// A new connection has room for so many bytes, and takes them without waiting.
const FIRST_ROOM: usize = 4_096;

/// How often one write may make no progress, or be interrupted: for weeks.
const MOST_TURNS: u32 = 1 << 24;

/// Where the status begins in the first line of a response.
const STATUS_PLACE: usize = 9;

/// A connection to which a request is written. A write that makes no progress twice in a row while
/// an answer lies there fails: a backend may answer before it has read the whole request, and would
/// wait for its answer to be read while the gateway waits for the request to be. One without an
/// answer goes on for as long as the backend takes, up to the deadline of the call where that has
/// one: a write that finds it reached fails.
#[derive(Drop)]
pub(crate) struct UnansweredWrite<'c, S, E, C> {
    stream: S,
    end: E,
    time: Option<Countdown<'c, C>>,
    // What is left of the first room, until a write may have to wait.
    room: Option<usize>,
}

impl<'c, S: OpenStream, E, C: Clock> UnansweredWrite<'c, S, E, C> {
    // A new connection, and the time that is left for the call.
    pub(crate) fn new(
        stream: S,
        end: E,
        time: Option<Countdown<'c, C>>,
    ) -> UnansweredWrite<'c, S, E, C>
        ensures end { end_of result ≡ end }
        ensures time { writer_time result ≡ time.entry }
    {
        UnansweredWrite {
            stream,
            end,
            time,
            room: Some(FIRST_ROOM),
        }
    }

    // Before a write of so many bytes: the first that may have to wait gives all from then on their
    // limit, which ends with the call's time. A connection whose writes can't be given one is
    // written to as ever. It fails where a look at the clock finds the time over.
    fn limit(&mut self, count: usize) -> Result<()>
        ensures end { end_of self.new ≡ end_of self.old }
        ensures deadline { Stands (countdown_to (writer_time self.old))
            (countdown_to (writer_time self.new)) }
        ensures late { IsLate (writer_time self.new) → IsErr result }
    {
        let stall = Duration::from_millis(STALL_MILLIS);
        let most = match &mut self.time {
            Some(time) => time.left()?.min(stall),
            None => stall,
        };
        match self.room {
            Some(room) if count <= room => self.room = Some(room - count),
            None if most == stall => {}
            Some(_) | None => {
                self.room = None;
                let _ = self.stream.set_write_timeout(Some(most));
            }
        }
        Ok(())
    }
}

impl<'c, S, E, C> UnansweredWrite<'c, S, E, C> {
    // The connection and its end, by value: the end is what the last write left.
    pub(crate) fn into_parts(self) -> (S, E)
        ensures { result.1 ≡ end_of self.entry }
    {
        let UnansweredWrite {
            stream,
            end,
            time: _,
            room: _,
        } = self;
        (stream, end)
    }
}

impl<'c, S: OpenStream, E: RequestOutlet<S>, C: Clock> Write for UnansweredWrite<'c, S, E, C> {
    ghost contents = { λ writer. E.contents (end_of writer) };

    #[tactic(auto, using(crate::proofs::RepeatedCalls::anew))]
    fn write(&mut self, buf: &[u8]) -> Result<usize>
        ensures bound { WritesAtMost result buf.now }
        ensures bytes { WriteAppends (E.contents (end_of self.old)) (E.contents (end_of self.new))
            result buf.now }
        ensures deadline { Stands (countdown_to (writer_time self.old))
            (countdown_to (writer_time self.new)) }
        ensures late { IsLate (writer_time self.new) → IsErr result }
    {
        let mut has_stalled = false;
        for _ in 0..MOST_TURNS {
            self.limit(buf.len())?;
            match self.end.send(&mut self.stream, buf) {
                Ok(count) => return Ok(count),
                Err(fault) if fault.kind() == ErrorKind::Interrupted => {}
                Err(fault) if fault.kind() == ErrorKind::WouldBlock => {
                    if has_stalled && is_answered(&self.stream) {
                        return Err(fault);
                    }
                    has_stalled = true;
                }
                Err(fault) => return Err(fault),
            }
        }
        Err(Error::new(ErrorKind::TimedOut, "nothing was taken"))
    }

    fn flush(&mut self) -> Result<()>
        ensures { Keeps (E.contents (end_of self.old)) (E.contents (end_of self.new)) }
    {
        self.end.flush(&mut self.stream)
    }
}

// Whether a final response, or the end, lies unread. It waits for nothing, and reads nothing.
fn is_answered<S: OpenStream>(stream: &S) -> bool {
    if stream.set_nonblocking(true).is_err() {
        return false;
    }
    let mut seen = [0u8; 1024];
    let found = stream.peek(&mut seen);
    let _ = stream.set_nonblocking(false);
    match found {
        Ok(0) => true,
        Ok(count) => has_final(&seen[..count]),
        Err(_) => false,
    }
}

// Whether a final response begins in these bytes, behind any interim ones: behind those alone the
// backend still wants the request.
fn has_final(seen: &[u8]) -> bool {
    let mut begins = true;
    for line in seen.split(|byte| *byte == b'\n') {
        let is_empty = line.is_empty() || line == b"\r".as_slice();
        if begins && !is_empty {
            match line.get(STATUS_PLACE) {
                Some(b'1') => {}
                status => return status.is_some(),
            }
        }
        begins = is_empty;
    }
    false
}
