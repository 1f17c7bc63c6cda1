//! Operators, and whoever looks, served one after the other by a thread beside a gateway's workers.
//!
//! [`operate`] accepts from a listener until that is closed, and attends to each client once
//! ([`attend`]): a request is read by `wire`, its call is told by `operator_calls`, carried out at
//! a [`Desk`], and answered. `specs/Attending.antt` says what is answered, and what reaches the
//! desk: a look for a call that looks, a change for a call that changes and whose [`Caller`] hasn't
//! left, and nothing for a refusal or a fault. At an address for anyone nothing is changed. Which
//! gateway lies behind the desk isn't known here, nor how many threads serve an address.
#![tactic(auto)]

mod answering;
mod attending;
mod caller;
mod desk;
mod lines;
mod memory;
mod operating;
mod protocol;
mod response;
mod served_desk;
mod telling;

pub use attending::{Attended, attend};
pub use caller::Caller;
pub use desk::{ChangeFault, Desk};
pub use memory::AnswerMemory;
pub use operating::{Operating, operate};
pub use protocol::{OperatorCalls, Unwatched};
pub use served_desk::ServedDesk;
