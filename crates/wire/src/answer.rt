// What a backend answers.
use crate::fault::WireFault;
use crate::response::Response;

/// What became of a request that was forwarded.
#[derive(Drop)]
pub enum BackendAnswer {
    /// The backend's response, read whole.
    Answered(Response),
    /// There was no connection, so nothing was sent.
    NotConnected,
    /// There was one, and then the request wasn't written or no response was read, for this cause.
    Broken(WireFault),
    /// The same of one that had been kept, before a byte of a response came: the backend may have
    /// ended it before the request was there.
    Stale(WireFault),
    /// The time for the whole call was over before a response was read whole.
    Late,
    /// A growth was refused.
    Memory,
    /// Bytes of the response's body were refused by the memory that they were asked of.
    Bodies,
}
