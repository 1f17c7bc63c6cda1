//! Workers that serve clients through the ports of one gate.
//!
//! [`serve`] runs a worker for each port, each on a thread with a `Door` (`handling`), a backend
//! and buffers of its own. A worker takes one turn after the other: a client comes, new or kept, is
//! served by one exchange of `proxy`, over readers and writers that last as long as it may take
//! (`timed_io`), and is let go, or left to wait for its next request; or none is to be had. Its
//! contract is `specs/Turns.antt`: for each client that comes one exchange, and nothing else is
//! asked of the gate or forwarded. Which gate it is isn't known here. What an exchange does is said
//! in `proxy`, and what a port does in `gate_port`.
//!
//! Of a socket nothing tells what came and went; a door in memory may show its visits, and then
//! each client's bytes are those of its exchanges. What a kept client has yet to send is just what
//! its exchange left unread, so the bytes of a connection are cut into requests in one way:
//! [`a_visit_reads_each_byte_once`]. No contract says how long a call takes, or that a client
//! comes at all.
#![tactic(auto)]

mod exchanging;
mod fault;
mod jobs;
mod laws;
mod reporting;
mod watching;
mod workers;
mod working;

pub use exchanging::Exchanger;
pub use fault::ServeFault;
pub use jobs::{JobResult, WorkerExit};
pub use laws::a_visit_reads_each_byte_once;
pub use watching::{ExchangeWatch, Exchanges};
pub use workers::serve;
pub use working::{TurnCounts, WorkerSettings, work};
