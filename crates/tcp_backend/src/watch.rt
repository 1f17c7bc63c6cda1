// What hears of a backend's troubles and connections.
use std::io::Error;
use wire::WireFault;

/// What became of a connection to a backend.
#[derive(Clone, Copy, Drop)]
pub enum ConnectionEvent {
    /// It is about to be made.
    Dialing,
    /// It couldn't be made.
    Unreached,
    /// It was made.
    Opened,
    /// It was put back, to wait for another request.
    Kept,
    /// It was taken for another request.
    Reused,
    /// It had waited for too long, or was found closed or with bytes that belong to no request, and
    /// was closed.
    Stale,
    /// It was closed behind its request.
    Closed,
}

/// What hears of a backend's troubles and connections, from each thread that forwards.
pub trait BackendWatch {
    /// There was no connection to be had, for this cause.
    fn unreached(&self, error: &Error);

    /// A response wasn't read, or the request wasn't written, for this cause.
    fn broken(&self, fault: WireFault);

    /// The time for a call was over before its response was read whole.
    fn late(&self);

    /// The body of a response may not be held: all bodies together have as many bytes as they may.
    fn unheld(&self);

    /// This became of a connection.
    fn connection(&self, event: ConnectionEvent);
}
