// A client while it is served.
ghost use Rattle.std.specs.Prelude.{◌≡◌, [], IsTrue, length};
ghost use Rattle.counted_io.specs.Counted.{fresh, inner_of};
ghost use Rattle.lent_io.specs.Through.{held_of, pending_of};
ghost use Rattle.timed_io.specs.Client.{from_of, inlet_in, outlet_in, to_of};
ghost use Rattle.timed_io.specs.Client.{unread_of, written_of};

use crate::client_ends::ClientEnds;
use crate::connection::{Connection, Lent};
use crate::ends::{Inlet, Outlet};
use crate::patience::Patience;
use crate::patient_read::PatientRead;
use crate::reading::TimedReader;
use crate::uninterrupted::Uninterrupted;
use crate::writing::TimedWriter;
use clocks::Clock;
use counted_io::{Counted, PIECE};
use lent_io::{BufferedRead, BufferedWrite, ReadBuffer, WriteBuffer};
use std::alloc::{AllocError, Global};

/// What reads a client: through a buffer, on through interruptions, within its time.
pub type ClientReader<'s, 'c, S, I, C, P> = BufferedRead<
    Uninterrupted<TimedReader<'c, PatientRead<'s, Lent<'s, S, I>, P>, C>>,
>;

/// What writes to a client: the same, but for the patience.
pub type ClientWriter<'s, 'c, S, O, C> = BufferedWrite<
    Uninterrupted<TimedWriter<'c, Lent<'s, S, O>, C>>,
>;

/// The buffers that are handed from one client to the next.
#[derive(Drop)]
pub struct ClientBuffers {
    ahead: ReadBuffer,
    behind: WriteBuffer,
}

impl ClientBuffers {
    /// New buffers. It fails only out of memory.
    pub fn new(alloc: Global) -> Result<ClientBuffers, AllocError> {
        Ok(ClientBuffers {
            ahead: ReadBuffer::new(alloc, PIECE)?,
            behind: WriteBuffer::new(alloc, PIECE)?,
        })
    }

    /// Whether bytes lie here that the client sent behind its request.
    pub fn has_unread(&self) -> bool {
        self.ahead.left() > 0
    }
}

/// How long a client may take.
#[derive(Drop)]
pub struct ClientTime<'c, C> {
    /// The clock of its deadlines.
    pub clock: &'c C,
    /// How long it may take to send its request, and again to take its answer, in nanoseconds.
    pub most_ns: u64,
}

/// A client that is served: its reader and its writer, each with its counts. They own the two ends
/// of its connection, and the buffers, until it is closed.
#[derive(Drop)]
pub struct Client<'s, 'c, S, I, O, C, P> {
    /// What it sends.
    pub reader: Counted<ClientReader<'s, 'c, S, I, C, P>>,
    /// What is written to it.
    pub writer: Counted<ClientWriter<'s, 'c, S, O, C>>,
}

/// What a client leaves that was served.
#[derive(Drop)]
pub struct ServedClient<I, O> {
    /// The ends of its connection, as they were left.
    pub ends: ClientEnds<I, O>,
    /// Its buffers, with what it sent behind its request.
    pub buffers: ClientBuffers,
    /// Whether all that was written to it was sent.
    pub is_sent: bool,
    /// How many bytes were sent to it, up to the greatest u64. No contract says so: it decides how
    /// closely an answer is looked after, and nothing else.
    pub sent: u64,
}

impl<'s, 'c, S, I, O, C, P> Client<'s, 'c, S, I, O, C, P>
where
    S: Connection,
    I: Inlet<S>,
    O: Outlet<S>,
    C: Clock,
    P: Patience,
{
    /// The client at the other side of a connection, by the two ends of it. As long as its head
    /// isn't whole it is waited for as the patience says.
    pub fn open(
        stream: &'s S,
        ends: ClientEnds<I, O>,
        patience: &'s P,
        time: &ClientTime<'c, C>,
        buffers: ClientBuffers,
    ) -> Client<'s, 'c, S, I, O, C, P>
        ensures from { inlet_in result.reader ≡ from_of ends }
        ensures to { outlet_in result.writer ≡ to_of ends }
        ensures reader { unread_of I.remaining (inner_of result.reader)
            ≡ I.remaining (from_of ends) }
        ensures writer { written_of O.contents (inner_of result.writer)
            ≡ O.contents (to_of ends) }
        ensures unread { result.reader ≡ fresh (inner_of result.reader) }
        ensures unwritten { result.writer ≡ fresh (inner_of result.writer) }
    {
        let ClientEnds { from, to } = ends;
        let ClientBuffers { ahead, behind } = buffers;
        let patient = PatientRead::new(Lent::new(stream, from), patience);
        let timed = TimedReader::new(patient, time.clock, time.most_ns);
        let reader = BufferedRead::new(Uninterrupted::new(timed), ahead);
        let timed = TimedWriter::new(Lent::new(stream, to), time.clock, time.most_ns);
        let writer = BufferedWrite::new(Uninterrupted::new(timed), behind);
        Client {
            reader: Counted::new(reader),
            writer: Counted::new(writer),
        }
    }

    /// Gives the ends back, as they are now, and the buffers. What wasn't sent is lost. Where the
    /// reader holds nothing, what the client has left to send is what wasn't read.
    pub fn close(self) -> ServedClient<I, O>
        ensures from { from_of result.ends ≡ inlet_in self.entry.reader }
        ensures unread { length (held_of (inner_of self.entry.reader)) ≡ 0
            → unread_of I.remaining (inner_of self.entry.reader)
            ≡ I.remaining (from_of result.ends) }
        ensures to { to_of result.ends ≡ outlet_in self.entry.writer }
        ensures sent { IsTrue result.is_sent → pending_of (inner_of self.entry.writer) ≡ [] }
    {
        let Client { reader, writer } = self;
        let (reader, ahead) = reader.into_inner().into_parts();
        let from = reader.into_inner().into_inner().into_inner().into_end();
        let writer = writer.into_inner();
        let is_sent = writer.is_sent();
        let (writer, behind) = writer.into_parts();
        let to = writer.into_inner().into_inner();
        let sent = to.sent();
        ServedClient {
            ends: ClientEnds::new(from, to.into_end()),
            buffers: ClientBuffers { ahead, behind },
            is_sent,
            sent,
        }
    }
}
