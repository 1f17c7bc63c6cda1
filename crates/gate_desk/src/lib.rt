//! The desk of a gateway that serves, and the thread of its operator.
//!
//! [`GateDesk`] shows the state of a gate that threads share, and changes its limit by steps of a
//! pass of its own: `specs/Desk.antt` says which step each deed is. A [`DeskWatch`] hears of them.
//! [`Operator`] serves one operator after the other at a desk of its own; several serve at once. A
//! [`LameDuck`] is what their desks share of a drain that is to come.
#![tactic(auto)]

mod desk;
mod desk_listener;
mod lame_duck;
mod operator;
mod watch;

pub use desk::GateDesk;
pub use desk_listener::DeskListener;
pub use lame_duck::LameDuck;
pub use operator::Operator;
pub use watch::DeskWatch;
