// A backend whose answers can be passed on as they arrive.
ghost use Rattle.std.specs.Prelude.{◌≡◌, ℕ};
ghost use Rattle.counted_io.specs.Count.{raised};
ghost use Rattle.answer_streaming.specs.Openings.{Closes, LogsClosing, LogsOpening, Sends, seen};
ghost use Rattle.answer_streaming.specs.Passed.{body_end_of};

use crate::ended::{End, Passed};
use counted_io::Counted;
use lent_io::ReadAhead;
use message_parts::Request;
use std::io::BufRead;
use wire::{BackendAnswer, BegunResponse};

/// An answer that has begun: its head, where its body is read from, of which nothing was read yet,
/// and what else the backend needs to close it.
pub struct BegunAnswer<B, L> {
    pub head: BegunResponse,
    pub body: Counted<B>,
    pub call: L,
}

/// What a backend gives for a request.
pub enum Opened<B, L> {
    /// An answer that was read whole, or why there is none.
    Whole(BackendAnswer),
    /// An answer of which the head was read.
    Begun(BegunAnswer<B, L>),
}

/// How far the body of an answer was read.
#[derive(Clone, Copy, Drop, PartialEq, Eq)]
pub enum BodyEnd {
    /// To its end, or there is none.
    Reached = 1,
    /// Not to its end: bytes of it may be left.
    Ahead = 2,
}

impl Passed {
    /// Returns how far the body was read.
    pub fn body_end(&self) -> BodyEnd
        ensures { result ≡ body_end_of self.now }
    {
        match self {
            Passed::Read(_) => BodyEnd::Reached,
            Passed::Unread(_) => BodyEnd::Ahead,
            Passed::Streamed(end) => match end {
                End::Whole | End::Unwritten => BodyEnd::Reached,
                End::Broken(_) | End::Left => BodyEnd::Ahead,
            },
        }
    }
}

/// A server behind the gateway that hands out an answer as soon as its head was read. It counts the
/// requests that it was given.
///
/// An answer that has begun holds a connection. Its body and its call can't be let go: both are
/// given back to the backend, which closes the connection or keeps it. So the caller holds them
/// beside its permit, and each path of it ends both.
pub trait StreamingBackend {
    /// Where the body of an answer is read from.
    type Body: BufRead + ReadAhead;

    /// What else is held of a request whose answer has begun.
    type Call;

    ghost use Rattle.std.specs.Prelude.{Option, List};
    ghost use Rattle.answer_streaming.specs.Openings.{Deed};

    // How many requests it was given.
    ghost forwarded: { Self → ℕ };

    // What it was given, what it gave, and how far bodies were read that it got back, in order, if
    // it shows that.
    ghost shown: { Self → Option (List Deed) };

    // All bytes that were written to it over connections that it has back, if it shows them.
    ghost written: { Self → Option (List ℕ) };

    // The bytes that were written over the connection of a call, if they are shown.
    ghost sent: { Self.Call → Option (List ℕ) };

    // The host of a request that names none.
    ghost host: { Self → List ℕ };

    /// Gives it the request once, and waits for the head of its answer. A body with a length has at
    /// most `most` bytes. Nothing is written but a beginning of the text of that request: all of
    /// it if an answer begins, and nothing if there was no connection.
    fn open(&mut self, request: &Request, most: u64) -> Opened<Self::Body, Self::Call>
        ensures count { forwarded self.new ≡ raised (forwarded self.old) }
        ensures log { LogsOpening (shown self.old) (shown self.new) request.now
            (seen Self.Body.remaining result) }
        ensures written { Sends sent (host self.old) (written self.old) (written self.new)
            request.now result }
        ensures host { host self.new ≡ host self.old };

    /// Takes an answer back whose body was read so far. Its connection carries another request only
    /// if that is to its end. Nothing more is written.
    fn close(&mut self, body: Counted<Self::Body>, call: Self::Call, end: BodyEnd)
        ensures count { forwarded self.new ≡ forwarded self.old }
        ensures log { LogsClosing (shown self.old) (shown self.new) end }
        ensures written { Closes (written self.old) (sent call) (written self.new) }
        ensures host { host self.new ≡ host self.old };

    /// Lets go of what the last request left, as a connection that the backend is to close. It is
    /// called once the client was answered, so that nobody waits for it. Nothing is given to the
    /// backend.
    fn leave(&mut self)
        ensures count { forwarded self.new ≡ forwarded self.old }
        ensures log { shown self.new ≡ shown self.old }
        ensures written { written self.new ≡ written self.old }
        ensures host { host self.new ≡ host self.old };

    /// Returns how many requests it was given; the count stays at `u64::MAX`.
    fn forwards(&self) -> u64
        ensures { result ≡ forwarded self.now };
}
