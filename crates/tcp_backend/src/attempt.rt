// What came of a request over a connection.
ghost use Rattle.std.specs.Prelude.{◌≡◌};
ghost use Rattle.tcp_backend.specs.Kept.{carries_on, end_left, is_drained, is_kept, leaves_ready};

use crate::call_buffers::CallBuffers;
use crate::pool::ReadyConnection;
use wire::{Persistence, Response, Reuse, WireFault};

/// What came of a request over a connection, whether it was written whole, whether a byte of an
/// answer came, and what the clock told when the answer was last read for; and the connection, with
/// its end and the buffers, as the call leaves them.
pub(crate) struct Attempt<S, E> {
    pub(crate) answer: Result<Response, WireFault>,
    pub(crate) is_sent: bool,
    pub(crate) is_heard: bool,
    pub(crate) looked: u64,
    pub(crate) stream: S,
    pub(crate) end: E,
    pub(crate) buffers: CallBuffers,
}

/// What is left of a connection behind an attempt, with the end that was written to.
pub(crate) enum Leftover<S, E> {
    /// It may carry another request.
    Ready(ReadyConnection<S, E>),
    /// The backend is to close it.
    Ending(S, E),
    /// It was closed.
    Closed(E),
}

/// An attempt whose connection was looked after.
pub(crate) struct Settled<S, E> {
    pub(crate) answer: Result<Response, WireFault>,
    pub(crate) is_heard: bool,
    pub(crate) looked: u64,
    pub(crate) left: Leftover<S, E>,
    pub(crate) buffers: CallBuffers,
}

impl<S: Drop, E> Attempt<S, E> {
    // What becomes of the connection, whose request said so of it: it carries on only where it is
    // drained.
    pub(crate) fn settle(self, persistence: Persistence) -> Settled<S, E>
        ensures answer { result.answer ≡ self.answer }
        ensures heard { result.is_heard ≡ self.is_heard }
        ensures looked { result.looked ≡ self.looked }
        ensures kept { is_kept result.left ≡ carries_on persistence self }
        ensures end { end_left result.left ≡ self.end }
    {
        let carries_on = self.carries_on(persistence);
        let is_ended = self.is_ended_there(persistence);
        let Attempt {
            answer,
            is_sent: _,
            is_heard,
            looked,
            stream,
            end,
            buffers,
        } = self;
        let left = if carries_on {
            Leftover::Ready(ReadyConnection { stream, end })
        } else if is_ended {
            Leftover::Ending(stream, end)
        } else {
            Leftover::Closed(end)
        };
        Settled {
            answer,
            is_heard,
            looked,
            left,
            buffers,
        }
    }
}

impl<S, E> Attempt<S, E> {
    // Whether the connection carries another request.
    fn carries_on(&self, persistence: Persistence) -> bool
        ensures { result ≡ carries_on persistence self.now }
    {
        match persistence {
            Persistence::Close => false,
            Persistence::Keep => self.is_drained(),
        }
    }

    // Whether the request was written whole, its answer leaves the connection ready, and nothing
    // that came with it is left over.
    fn is_drained(&self) -> bool
        ensures { result ≡ is_drained self.now }
    {
        self.is_sent && leaves_ready(&self.answer) && self.buffers.ahead.left() == 0
    }

    // Whether there is an answer, behind which the backend closes the connection: it was asked to,
    // says so, or still waits for the rest of the request.
    fn is_ended_there(&self, persistence: Persistence) -> bool {
        match &self.answer {
            Ok(response) => {
                persistence == Persistence::Close
                    || response.reuse() == Reuse::Closing
                    || !self.is_sent
            }
            Err(_) => false,
        }
    }
}

// Whether what was read leaves the connection ready for another request.
fn leaves_ready(answer: &Result<Response, WireFault>) -> bool
    ensures { result ≡ leaves_ready answer.now }
{
    match answer {
        Ok(response) => match response.reuse() {
            Reuse::Ready => true,
            Reuse::Closing | Reuse::Doubtful => false,
        },
        Err(_) => false,
    }
}
