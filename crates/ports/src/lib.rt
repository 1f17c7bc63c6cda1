//! Ports of a gate, and a view of one that threads share.
//!
//! A [`Port`] asks the gate by a pass of its own, and keeps the promises of `gate_port`. It shows
//! no entries, since other threads add theirs meanwhile, but knows of the gate's log what its pass
//! knows: there its calls stand, behind all that it knew before. It keeps the receipts of its last
//! asking too: `specs/Asked.antt` says which calls these are of and what is answered by them, and
//! `specs/AskReplies.antt` what else its calls tell. A [`View`] gives the gate's reports.
//!
//! A [`SoloPort`] is for those who drive a gate from a single thread: it has a book of its own and
//! shows all entries of its history, so what an exchange adds to it is known to the entry.
#![tactic(auto)]

mod asked;
mod reached;
mod shared;
mod solo;
mod view;

pub use asked::Receipts;
pub use gate_port::{Admission, GatePort, Why};
pub use shared::Port;
pub use solo::SoloPort;
pub use view::View;
