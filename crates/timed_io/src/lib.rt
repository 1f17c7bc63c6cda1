//! Reading and writing one connection, each within a time.
//!
//! A [`Connection`] has two ends: an [`Inlet`], which may tell what is still to come, and an
//! [`Outlet`], which may tell what was written. A reader or a writer has it on loan ([`Lent`]).
//!
//! [`TimedReader`] and [`TimedWriter`] go round what reads and writes a connection. All reads of a
//! request together, and all writes of an answer up to its flush, each have so long, counted from
//! the first of them; past that a read or a write fails and touches nothing below. One that has to
//! wait does so under the connection's own limit, which is set to the time that is left; what has
//! come, and what there is room for, takes no limit, so a short exchange takes two calls of the
//! system less. A [`PatientRead`] gives a client up that is slow to send its request, where a
//! [`Patience`] says so; [`BodyRates`] knows which bodies of all threads arrive slowest. An
//! [`Uninterrupted`] reader or writer begins a call anew that a signal cut short. A [`Client`] is
//! all of these over one connection, behind buffers (`lent_io`), for an exchange or for an
//! operator's call: it owns the two ends, which can't be copied, and gives them back. [`linger`]
//! sees that a client gets to read its answer. `specs/` has the words. Nothing is promised of what
//! a clock tells, or of how long a call takes.
#![tactic(auto)]

mod body_rates;
mod client;
mod client_ends;
mod connection;
mod countdown;
mod ends;
mod head_end;
mod keeping;
mod lingering;
mod patience;
mod patient_read;
mod reading;
mod uninterrupted;
mod writing;

pub use body_rates::{BodyRates, BodyReader};
pub use client::{Client, ClientBuffers, ClientReader, ClientTime, ClientWriter, ServedClient};
pub use client_ends::ClientEnds;
pub use connection::{Connection, Lent};
pub use countdown::Countdown;
pub use ends::{Inlet, Outlet, read_ready, write_ready};
pub use keeping::{ask_after, end_untaken, send_at_once};
pub use lingering::linger;
pub use patience::{BodyWait, Patience};
pub use patient_read::PatientRead;
pub use reading::{LimitedRead, TimedReader};
pub use uninterrupted::Uninterrupted;
pub use writing::{LimitedWrite, TimedWriter};
