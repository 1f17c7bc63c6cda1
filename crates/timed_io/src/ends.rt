// The two ends of a connection.
ghost use Rattle.std.specs.Prelude.{◌≡◌, ◌≤◌, IfOk, OnOk, pos};
ghost use Rattle.std.specs.Duration.{as_nanos};
ghost use Rattle.std.specs.Io.{ReadsAtMost, WritesAtMost};
ghost use Rattle.std.specs.Io.KnownBytes.{ReadConsumes, WriteAppends};

use libc::net::{MSG_DONTWAIT, MSG_NOSIGNAL, recv, send};
use std::io::{Error, Result};
use std::os::fd::AsRawFd;
use std::time::Duration;

/// What is kept of a connection's bytes where it is read.
pub trait Inlet<S> {
    ghost use Rattle.std.specs.Prelude.{ℕ, List, Option};

    // What the other side has yet to send, where that is known.
    ghost remaining: { Self → Option (List ℕ) };

    // The connection's reads were given this limit, in nanoseconds.
    ghost limited: { S → ℕ → Type 0 };

    // For how many nanoseconds the last read was allowed to wait, at most.
    ghost allowed: { Self → ℕ };

    /// From now on a read of the connection waits for no longer than this, which is more than
    /// nothing.
    fn limit_reads(&self, stream: &S, most: Duration) -> Result<()>
        ensures { OnOk result (limited stream.now (as_nanos most)) };

    /// Reads the connection once, and waits until something comes, or for so long, which is the
    /// limit that its reads have.
    fn receive(&mut self, stream: &S, most: Duration, buf: &mut [u8]) -> Result<usize>
        requires limited { limited stream.now (as_nanos most) }
        ensures bound { ReadsAtMost result buf.new }
        ensures bytes { ReadConsumes (remaining self.old) (remaining self.new) result buf.new }
        ensures allowed { allowed self.new ≤ as_nanos most };

    /// Reads what has come already. It waits for nothing, and fails with
    /// [`ErrorKind::WouldBlock`](std::io::ErrorKind) where nothing has come.
    fn receive_ready(&mut self, stream: &S, buf: &mut [u8]) -> Result<usize>
        ensures bound { ReadsAtMost result buf.new }
        ensures bytes { ReadConsumes (remaining self.old) (remaining self.new) result buf.new }
        ensures allowed { allowed self.new ≡ 0 };
}

/// What is kept of a connection's bytes where it is written.
pub trait Outlet<S> {
    ghost use Rattle.std.specs.Prelude.{ℕ, List, Option};

    // What was written, where that is known.
    ghost contents: { Self → Option (List ℕ) };

    // The connection's writes were given this limit, in nanoseconds.
    ghost limited: { S → ℕ → Type 0 };

    // For how many nanoseconds the last write was allowed to wait, at most.
    ghost allowed: { Self → ℕ };

    /// From now on a write to the connection waits for no longer than this, which is more than
    /// nothing.
    fn limit_writes(&self, stream: &S, most: Duration) -> Result<()>
        ensures { OnOk result (limited stream.now (as_nanos most)) };

    /// Writes to the connection once, and waits for room, or for so long, which is the limit that
    /// its writes have.
    fn send(&mut self, stream: &S, most: Duration, buf: &[u8]) -> Result<usize>
        requires limited { limited stream.now (as_nanos most) }
        ensures bound { WritesAtMost result buf.now }
        ensures bytes { WriteAppends (contents self.old) (contents self.new) result buf.now }
        ensures allowed { allowed self.new ≤ as_nanos most };

    /// Writes what there is room for already. It waits for nothing, and fails with
    /// [`ErrorKind::WouldBlock`](std::io::ErrorKind) where there is no room.
    fn send_ready(&mut self, stream: &S, buf: &[u8]) -> Result<usize>
        ensures bound { WritesAtMost result buf.now }
        ensures bytes { WriteAppends (contents self.old) (contents self.new) result buf.now }
        ensures allowed { allowed self.new ≡ 0 };
}

/// Reads what has come to a socket already. It waits for nothing, and fails with
/// [`ErrorKind::WouldBlock`](std::io::ErrorKind) where nothing has come. std reads so only from a
/// socket that never waits, and making it one is a call of the system more.
pub fn read_ready<S: AsRawFd>(socket: &S, buf: &mut [u8]) -> Result<usize>
    ensures { ReadsAtMost result buf.new }
{
    moved(unsafe { recv(socket.as_raw_fd(), buf, MSG_DONTWAIT) })
}

/// Writes what a socket has room for already. It waits for nothing, and fails with
/// [`ErrorKind::WouldBlock`](std::io::ErrorKind) where there is no room.
pub fn write_ready<S: AsRawFd>(socket: &S, buf: &[u8]) -> Result<usize>
    ensures { WritesAtMost result buf.now }
{
    moved(unsafe { send(socket.as_raw_fd(), buf, MSG_DONTWAIT | MSG_NOSIGNAL) })
}

// How many bytes a call of the system moved, or why it failed.
fn moved(count: isize) -> Result<usize>
    ensures { IfOk result (λ n. pos n ≡ count) }
{
    usize::try_from(count).map_err(|_| Error::from_raw_os_error(os::errno()))
}
