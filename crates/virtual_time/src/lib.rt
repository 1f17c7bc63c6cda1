//! Runs a trace of arrivals through the sequential limiter in virtual time: what becomes of each
//! arrival is done at its moment, and no clock is read.
//!
//! [`simulate`] does it whole. Its contract says that it writes exactly the text of the trace's one
//! course (`specs/Course.antt`): each action is the next one after those before it
//! (`specs/Next.antt`), and what is pending is read off the trace and the steps so far
//! (`specs/Pending.antt`). The calendar, a queue, is the code's business alone.
#![tactic(auto)]

mod action;
mod calendar;
mod course;
mod driver;
mod laws;
mod pending;

pub use action::{Action, Kind, Step};
pub use driver::simulate;
pub use laws::a_trace_has_one_course;
