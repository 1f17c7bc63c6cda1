// What serves the request of a client.
ghost use Rattle.std.specs.Prelude.{◌≡◌, [], Bool, true};
ghost use Rattle.counted_io.specs.Counted.{inner_of};
ghost use Rattle.handling.specs.Handled.{ends_at};

use crate::protocol::Protocol;
use counted_io::Counted;
use lent_io::ReadAhead;
use std::io::{BufRead, Write};
use timed_io::Connection;

/// Serves the request of a client, by what is given with each request.
pub trait Handler<X> {
    /// What a request came to.
    type Told;

    /// Decides, by what a request came to, whether its client is kept.
    type Protocol: Protocol<Self::Told>;

    ghost use Rattle.handling.specs.Handled.{Ends};

    // How it serves a request: by what is given with it, before and after, over the two ends of the
    // connection before and after, and what the request came to.
    ghost handles: { X → Self → Self → Ends → Ends → Self.Told → Type 0 };

    /// Serves a request of the client at the other side of the connection. Where the client is
    /// kept, nothing that was taken of its connection is left.
    fn handle<S: Connection, R: BufRead + ReadAhead, W: Write>(
        &mut self,
        by: &X,
        stream: &S,
        reader: &mut Counted<R>,
        writer: &mut Counted<W>,
    ) -> Self::Told
        ensures handled { handles by.now self.old self.new
            (ends_at R.remaining W.contents reader.old writer.old)
            (ends_at R.remaining W.contents reader.new writer.new)
            result }
        ensures drained { (sent : Bool)
            → Self.Protocol.kept (Self.Protocol.told_sent sent result) ≡ true
            → R.ahead (inner_of reader.new) ≡ [] };
}
