// What is written to a connection.
ghost use Rattle.std.specs.Prelude.{◌≡◌, true};
ghost use Rattle.std.specs.Io.{WritesAtMost};
ghost use Rattle.std.specs.Io.KnownBytes.{Keeps, WriteAppends};

use std::io::{Result, Write};
use std::net::SocketAddrV4;

/// The end of a connection that is written to. It may show what was written; a stream of std, which
/// is read and written by one owner, can't.
pub trait RequestOutlet<S> {
    ghost use Rattle.std.specs.Prelude.{ℕ, List, Option};

    // What was written, where that is shown.
    ghost contents: { Self → Option (List ℕ) };

    // The text of the address at which its connection was made.
    ghost dialed: { Self → List ℕ };

    /// One write.
    fn send(&mut self, stream: &mut S, buf: &[u8]) -> Result<usize>
        ensures bound { WritesAtMost result buf.now }
        ensures bytes { WriteAppends (contents self.old) (contents self.new) result buf.now };

    /// One flush.
    fn flush(&mut self, stream: &mut S) -> Result<()>
        ensures bytes { Keeps (contents self.old) (contents self.new) };
}

/// The end of a socket. It shows nothing but the address at which it was dialed. Only a
/// [`Dialer`](crate::Dialer) makes one, and nobody can copy it.
#[derive(Drop)]
pub struct OpaqueEnd {
    pub(crate) address: SocketAddrV4,
}

impl OpaqueEnd {
    // Whether its connection was dialed at this address.
    pub(crate) fn is_at(&self, address: SocketAddrV4) -> bool
        ensures { result ≡ true → self.now.address ≡ address }
    {
        self.address == address
    }
}

impl<S: Write> RequestOutlet<S> for OpaqueEnd {
    ghost use Rattle.std.specs.Prelude.{None};
    ghost use Rattle.tcp_backend.specs.Kept.{dialed_at};

    ghost contents = { λ _. None };

    ghost dialed = { dialed_at };

    fn send(&mut self, stream: &mut S, buf: &[u8]) -> Result<usize> {
        stream.write(buf)
    }

    fn flush(&mut self, stream: &mut S) -> Result<()> {
        stream.flush()
    }
}
