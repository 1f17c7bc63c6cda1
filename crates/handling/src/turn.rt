// One client served.
ghost use Rattle.std.specs.Prelude.{◌≡◌, true};
ghost use Rattle.timed_io.specs.Client.{from_of, to_of};
ghost use Rattle.listening.specs.Seen.{seen_at};
ghost use Rattle.handling.specs.Handled.{IsHandled};

use crate::handler::Handler;
use crate::protocol::Protocol;
use clocks::Clock;
use listening::AcceptedClient;
use timed_io::{
    Client, ClientBuffers, ClientEnds, ClientTime, Connection, Inlet, Outlet, Patience,
    ServedClient,
};

/// Has a handler serve one request of a client over the two ends of its connection, which last as
/// long as the client may take. The patience decides how long a slow client is waited for. If the
/// client isn't kept, and has more to send than was read, that is dropped for a while, so that it
/// gets to read its answer. A signal that cuts a read or a write short changes nothing. The client
/// and the buffers are returned.
pub fn serve_client<X, H, T, I, O, C, A>(
    handler: &mut H,
    by: &X,
    client: AcceptedClient<T, I, O>,
    patience: &A,
    time: &ClientTime<'_, C>,
    buffers: ClientBuffers,
) -> (AcceptedClient<T, I, O>, H::Told, ClientBuffers)
where
    H: Handler<X>,
    T: Connection,
    I: Inlet<T>,
    O: Outlet<T>,
    C: Clock,
    A: Patience,
    ensures { IsHandled (H.handles by.now handler.old handler.new) H.Protocol.told_sent
        H.Protocol.kept (seen_at I.remaining O.contents client.ends)
        (seen_at I.remaining O.contents result.0.ends) result.1 }
{
    let AcceptedClient {
        stream,
        is_kept,
        ends,
    } = client;
    let opened = Client::open(&stream, ends, patience, time, buffers);
    let Client {
        mut reader,
        mut writer,
    } = opened;
    let told = handler.handle(by, &stream, &mut reader, &mut writer);
    let served = Client { reader, writer };
    let left = served.close();
    let told = H::Protocol::with_sent(told, left.is_sent);
    let (ends, buffers) = linger_behind::<H::Told, H::Protocol, T, I, O, C>(
        left, &told, &stream, time,
    );
    let client = AcceptedClient {
        stream,
        is_kept,
        ends,
    };
    (client, told, buffers)
}

/// Sees that a client that is answered and isn't kept gets to read its answer, and returns the ends
/// of its connection, with the buffers. Nothing more is written to it, and of a client that is kept
/// nothing more is read.
fn linger_behind<R, P: Protocol<R>, T: Connection, I: Inlet<T>, O, C: Clock>(
    left: ServedClient<I, O>,
    told: &R,
    stream: &T,
    time: &ClientTime<'_, C>,
) -> (ClientEnds<I, O>, ClientBuffers)
    ensures to { to_of result.0 ≡ to_of left.ends }
    ensures kept { P.kept told.now ≡ true → from_of result.0 ≡ from_of left.ends }
{
    let ServedClient {
        ends,
        buffers,
        is_sent: _,
        sent,
    } = left;
    if P::is_kept(told) || !P::is_answered(told) {
        return (ends, buffers);
    }
    let is_unread = !P::is_read(told) || buffers.has_unread();
    (ends.linger(stream, time, is_unread, sent), buffers)
}
