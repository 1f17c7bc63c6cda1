//! A backend over TCP.
//!
//! [`TcpBackend`] asks its [`Connector`], a [`Dialer`] over TCP, for one connection for each
//! request, and for no second one whatever fails. It writes the request, reads one response, even
//! one that comes before all of the request is written, and then the connection to its end, so that
//! the backend closes first and the gateway's own ports are free again. A backend that keeps the
//! connection open isn't waited for, and one that answers before it reads isn't written to until it
//! has: where a write stands still and an answer lies there, the answer is read. The end of a
//! connection that is written can't be copied, and comes back with the answer: what was written to
//! it is what its value tells. Buffers are made once and serve all connections.
#![tactic(auto)]

mod answer_read;
mod asking;
mod attempt;
mod call_buffers;
mod call_time;
mod connecting;
mod dialing;
mod early;
mod ends;
mod pool;
mod unanswered;
mod watch;

pub use connecting::{BackendFault, TcpBackend};
pub use dialing::{Connected, Connector, Dialer};
pub use ends::{OpaqueEnd, RequestOutlet};
pub use pool::{ConnectionPool, ReadyConnection};
pub use watch::{BackendWatch, ConnectionEvent};
