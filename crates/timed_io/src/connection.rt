// Connections that several may read and write, each by a loan.
ghost use Rattle.std.specs.Duration.{as_nanos};
ghost use Rattle.std.specs.Prelude.{◌≡◌};
ghost use Rattle.timed_io.specs.Lent.{end_of};

use crate::ends::{Inlet, Outlet};
use crate::reading::LimitedRead;
use crate::writing::LimitedWrite;
use libc::net::{
    MSG_DONTWAIT, MSG_PEEK, POLLIN, POLLOUT, SO_SNDBUF, SOL_SOCKET, poll, recv, setsockopt,
};
use libc::types::pollfd;
use std::io::{Error, ErrorKind, Result};
use std::net::{Shutdown, TcpStream};
use std::os::fd::{AsRawFd, RawFd};
use std::time::Duration;

/// Half of what the system may have taken of memory for what was sent, where nobody waits for it,
/// in bytes: so much is on its way with the first window.
const ON_ITS_WAY: i32 = 16_384;

/// The same where it was more once: the system makes it some two kilobytes, which is the least.
const LEAST: i32 = 1;

/// A connection, as a socket is one: reading and writing it doesn't change its owner's value, so
/// what is known of its bytes is kept at its two ends.
pub trait Connection {
    /// Whether bytes of the other side lie unread. It waits for none, and reads none.
    fn has_unread(&self) -> bool;

    /// Whether the other side has left: it has ended what it sends, and nothing of that lies
    /// unread, or the connection is broken. It waits for nothing, and reads none. Who closes the
    /// connection and who only ends what it sends look alike.
    fn has_left(&self) -> bool;

    /// Whether the other side hasn't acknowledged what was sent, but for a kilobyte or two, and may
    /// lose it where it sends something and the connection is closed. It looks at once whether more
    /// than some kilobytes are left, and where they are waits for so long at most, until they
    /// aren't, or something comes of the other side.
    fn is_behind(&self, most: Duration) -> bool;

    /// Nothing more is sent: the other side finds the end behind what was. It may go on sending.
    fn finish(&self) -> Result<()>;
}

impl Connection for TcpStream {
    // One system call: std would have to make the socket one that doesn't wait before it looks.
    fn has_unread(&self) -> bool {
        peek(self.as_raw_fd()) > 0
    }

    fn has_left(&self) -> bool {
        match peek(self.as_raw_fd()) {
            1.. => false,
            0 => true,
            _ => !is_transient(&Error::from_raw_os_error(os::errno())),
        }
    }

    fn is_behind(&self, most: Duration) -> bool {
        let file = self.as_raw_fd();
        is_held(file, ON_ITS_WAY, Duration::ZERO) && is_held(file, LEAST, most)
    }

    fn finish(&self) -> Result<()> {
        self.shutdown(Shutdown::Write)
    }
}

// How many bytes lie unread, of one that is looked for: none at the end of what was sent, and below
// zero where the call failed.
fn peek(file: RawFd) -> isize {
    let mut first = [0u8; 1];
    unsafe { recv(file, &mut first, MSG_PEEK | MSG_DONTWAIT) }
}

// Whether a call that failed so says nothing of the connection: nothing has come yet, or a signal
// cut it short.
fn is_transient(fault: &Error) -> bool {
    matches!(fault.kind(), ErrorKind::WouldBlock | ErrorKind::Interrupted)
}

// Whether the system holds more of what was sent, after so long at most. How many bytes weren't
// acknowledged can't be had: the calls that tell it, or that wait for them at a close, aren't among
// the library's. But a connection is writable where a third of its room is free, so that is made
// small first.
fn is_held(file: RawFd, half: i32, most: Duration) -> bool {
    let mut room = [0u8; 16];
    room[..4].copy_from_slice(&half.to_ne_bytes());
    if unsafe { setsockopt(file, SOL_SOCKET, SO_SNDBUF, &room, 4) } < 0 {
        return false;
    }
    let mut watched = [pollfd {
        fd: file,
        events: POLLIN | POLLOUT,
        revents: 0,
    }];
    let millis = i32::try_from(most.as_millis()).unwrap_or(i32::MAX);
    poll(&mut watched, millis) >= 0 && watched[0].revents & POLLOUT == 0
}

/// A connection that is lent to a reader or a writer, with the end of it that is read or written.
#[derive(Drop)]
pub struct Lent<'s, S, E> {
    connection: &'s S,
    end: E,
    sent: u64,
}

impl<'s, S: Connection, E> Lent<'s, S, E> {
    /// The connection on loan, and its end.
    pub fn new(connection: &'s S, end: E) -> Lent<'s, S, E>
        ensures { end_of result ≡ end }
    {
        Lent {
            connection,
            end,
            sent: 0,
        }
    }
}

impl<'s, S, E> Lent<'s, S, E> {
    /// The end alone, by value: it is what its last read or write left.
    pub fn into_end(self) -> E
        ensures { result ≡ end_of self.entry }
    {
        let Lent {
            connection: _,
            end,
            sent: _,
        } = self;
        end
    }

    // How many bytes were written to it, up to the greatest u64. No contract says so: it decides
    // how closely an answer is looked after, and nothing else.
    pub(crate) fn sent(&self) -> u64 {
        self.sent
    }
}

impl<'s, S: Connection, E: Inlet<S>> LimitedRead for Lent<'s, S, E> {
    ghost use Rattle.timed_io.specs.Lent.{end_of};

    ghost remaining = { λ lent. E.remaining (end_of lent) };

    ghost allowed = { λ lent. E.allowed (end_of lent) };

    // What has come is had by one call of the system; a limit on waiting would take another.
    #[tactic(auto, using(crate::proofs::KnownBytes::anew))]
    fn read_within(&mut self, most: Duration, buf: &mut [u8]) -> Result<usize> {
        match self.end.receive_ready(self.connection, buf) {
            Ok(count) => return Ok(count),
            Err(fault) if fault.kind() == ErrorKind::WouldBlock => {}
            Err(fault) => return Err(fault),
        }
        self.end.limit_reads(self.connection, most)?;
        self.end.receive(self.connection, most, buf)
    }
}

impl<'s, S: Connection, E: Outlet<S>> LimitedWrite for Lent<'s, S, E> {
    ghost use Rattle.timed_io.specs.Lent.{end_of};

    ghost contents = { λ lent. E.contents (end_of lent) };

    ghost allowed = { λ lent. E.allowed (end_of lent) };

    #[tactic(auto, using(crate::proofs::KnownBytes::anew))]
    fn write_within(&mut self, most: Duration, buf: &[u8]) -> Result<usize> {
        let count = match self.end.send_ready(self.connection, buf) {
            Ok(count) => count,
            Err(fault) if fault.kind() == ErrorKind::WouldBlock => {
                self.end.limit_writes(self.connection, most)?;
                self.end.send(self.connection, most, buf)?
            }
            Err(fault) => return Err(fault),
        };
        self.sent = self.sent.saturating_add(count as u64);
        Ok(count)
    }
}
