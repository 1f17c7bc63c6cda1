// The two ends of a client's connection.
ghost use Rattle.std.specs.Prelude.{◌≡◌};
ghost use Rattle.timed_io.specs.Client.{from_of, to_of};

use crate::client::ClientTime;
use crate::connection::Connection;
use crate::ends::Inlet;
use crate::lingering::linger;
use clocks::Clock;

/// The two ends of a client's connection, which have one owner and can't be copied. A
/// [`Client`](crate::Client) takes them and gives them back; nobody else reads or writes by them,
/// so whatever is written to a client shows here.
#[derive(Drop)]
pub struct ClientEnds<I, O> {
    pub(crate) from: I,
    pub(crate) to: O,
}

impl<I, O> ClientEnds<I, O> {
    /// The end that is read, and the one that is written.
    pub fn new(from: I, to: O) -> ClientEnds<I, O>
        ensures from { from_of result ≡ from }
        ensures to { to_of result ≡ to }
    {
        ClientEnds { from, to }
    }

    /// Sees that a client that was answered gets to read its answer, by [`linger`], and gives the
    /// ends back. What the client still sends is dropped, and nothing is written to it.
    pub fn linger<S: Connection, C: Clock>(
        self,
        stream: &S,
        time: &ClientTime<'_, C>,
        is_unread: bool,
        sent: u64,
    ) -> ClientEnds<I, O>
    where
        I: Inlet<S>,
        ensures { to_of result ≡ to_of self }
    {
        let ClientEnds { from, to } = self;
        let from = linger(stream, from, time.clock, time.most_ns, is_unread, sent);
        ClientEnds { from, to }
    }
}
