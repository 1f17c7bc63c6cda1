//! The trace of a load: settings first, and then the calls that come, in their order.
//!
//! [`read_trace`] reads one whole, up to its end or to the first line at fault. Its contract is
//! exact, by `specs/Trace.antt`. What is done with the calls is for its users: they are carried out
//! in virtual time, or by threads.
#![tactic(auto)]

mod arrival;
mod calls;
mod reading;

pub use arrival::Arrival;
pub use reading::{Trace, read_trace};
