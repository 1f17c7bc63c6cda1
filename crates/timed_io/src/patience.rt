// How long a client is waited for that is slow to send its request.
use std::time::Duration;

/// How long a client is waited for whose body arrives.
#[derive(Clone, Copy)]
pub enum BodyWait {
    /// As long as its whole request may take.
    Unlimited,
    /// For so long; then it is decided anew.
    UpTo(Duration),
    /// No longer: its connection is closed.
    TooSlow,
}

/// Decides how long a client is waited for that is slow to send its request.
pub trait Patience {
    /// How long the head of a request is waited for in any case.
    fn least(&self) -> Duration;

    /// Whether a head may be waited for longer: it keeps no other client waiting.
    fn may_wait(&self) -> bool;

    /// A read of a request begins, which may have to wait.
    fn begin_read(&self);

    /// A read of a request has ended.
    fn end_read(&self);

    /// How long a client is waited for, of whose body so many bytes have arrived since it began, so
    /// long ago.
    fn wait_for_body(&self, bytes: u64, elapsed: Duration) -> BodyWait;
}
