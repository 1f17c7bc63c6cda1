//! The gate's verdict on each request: that of one thread's limiter, at its place in one log.
//!
//! An exchange tells by its clause what its port knew of the gate's log before and behind it, and
//! which calls stand there. [`exchanges_are_one_threads`] says what that is worth in the whole log
//! of a gate that other threads ask meanwhile: `specs/Decided.antt` has the words.
#![tactic(auto)]

mod laws;

pub use laws::{exchanges_are_one_threads, limits_recover_at_the_base, reports_balance};
