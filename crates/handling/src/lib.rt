//! How a thread comes to its clients, serves each of them, and leaves it.
//!
//! A thread accepts clients at a door of its own ([`Accepts`]), one after the other. Generic code
//! can't let a client go: it has to leave it at the door, with what its request came to. A
//! [`Protocol`] decides by that whether the client is kept for another request; otherwise its
//! connection is closed. [`Door`] is the door to a listener that several threads share; a
//! [`ClientWatch`] hears of its clients. It counts each accept (`specs/Doors.antt`), and the
//! listener's roll lists who was given and left by its token. A door in memory may show its visits
//! (`specs/Visits.antt`). [`if_gave_all`] returns a value only if a listener's tokens account for
//! all clients that it gave.
//!
//! [`serve_client`] serves one client, whatever its request is: a [`Handler`] reads the request and
//! answers it over a reader and a writer with counts. The contract is `specs/Handled.antt`: what
//! the handler does is its own, and what it was given and what became of its bytes is said here.
#![tactic(auto)]

mod accepts;
mod door;
mod gave_all;
mod handler;
mod protocol;
mod turn;
mod watch;

pub use accepts::Accepts;
pub use door::Door;
pub use gave_all::if_gave_all;
pub use handler::Handler;
pub use protocol::Protocol;
pub use turn::serve_client;
pub use watch::ClientWatch;
