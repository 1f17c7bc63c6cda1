// What hears of clients.
use crate::protocol::Protocol;
use std::io::Error;

/// Hears of the clients of a door, from the thread that serves them.
pub trait ClientWatch {
    /// What the request of a client came to.
    type Told;

    /// Decides by that whether the client is kept.
    type Protocol: Protocol<Self::Told>;

    /// Hears that a client was accepted, and returns the moment, in nanoseconds.
    fn accepted(&self) -> u64;

    /// Hears that no connection could be accepted, for this cause.
    fn unaccepted(&self, error: &Error);

    /// Hears what the request of a client came to that was accepted at this moment. By now its
    /// connection is closed or waits for its next request.
    fn ended(&self, told: Self::Told, since: u64);
}
