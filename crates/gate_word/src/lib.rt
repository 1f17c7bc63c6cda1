//! A log beside a lock: a list of entries that only grows, which exists in proofs alone.
//!
//! The [`Keeper`] lies under the lock and knows the log exactly. Each caller has a [`Reader`],
//! which knows a beginning of it. A raise adds entries that the caller picks, and the reader knows
//! the log then; its beginning before was one of the log before. The first of the entries is the
//! reader's own: its number stands with the reader, and with no other. One reader may be told what
//! another knows, without the lock: of two beginnings, one begins the other. What stands at run
//! time is the log's length, the number of the next entry.
#![tactic(auto)]

mod rule;
mod seats;
mod steps;
mod word;

pub use rule::{Added, Compares, Hands, Notes, Raises, Rises, Takes, Tells, View};
pub use seats::{Keeper, Reader};
pub use word::{LogLength, SharedLogLength};
