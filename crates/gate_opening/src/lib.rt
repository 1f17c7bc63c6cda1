//! The opening of the gate that stands between clients and the backend, and its last count.
//!
//! [`open_gate`] makes the book of a configuration's settings, of which nothing was asked yet and
//! which rolls, gives the passes of its workers, and puts it behind a lock. Once all have ended,
//! [`balanced`] looks whether its counters tell of their calls alone, and of no permit that is
//! left.
#![tactic(auto)]

mod counting;
mod opening;

pub use counting::balanced;
pub use opening::open_gate;
