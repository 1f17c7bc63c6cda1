// What may come of a connection behind a response.
ghost use Rattle.std.specs.Prelude.{◌≡◌};
ghost use Rattle.wire.specs.Reuse.{reuse_of};

use message_fields::asks_close;
use message_reading::{Framing, ResponseHead};

/// What may come of a connection behind a response that was read from it (RFC 9112, sections 6.3
/// and 9.3).
#[derive(Clone, Copy, Drop, PartialEq, Eq)]
pub enum Reuse {
    /// Who sent it closes the connection: it speaks HTTP/1.0, has the option `close`, or ends its
    /// body so.
    Closing = 1,
    /// The connection may carry another request: the response has a length or came in chunks, and
    /// none came before it.
    Ready = 2,
    /// It stays open, but more may follow that belongs to this request: the response is one to
    /// HEAD, has the status 204 or 304, or had interim ones before it.
    Doubtful = 3,
}

/// What may come of the connection behind a response with this head, whose body is delimited so.
pub(crate) fn reuse_of(head: &ResponseHead, framing: Framing) -> Reuse
    ensures { result ≡ reuse_of head.now framing }
{
    if head.minor == 0 || asks_close(head.lines.as_slice()) {
        return Reuse::Closing;
    }
    match framing {
        Framing::ToEnd => Reuse::Closing,
        Framing::Bodiless => Reuse::Doubtful,
        Framing::Sized(_) | Framing::Chunked => {
            if head.interim == 0 {
                Reuse::Ready
            } else {
                Reuse::Doubtful
            }
        }
    }
}
