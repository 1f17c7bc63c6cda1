//! Where clients come from.
//!
//! A [`Listener`] gives one connection after another, each with its two ends (`timed_io`). A
//! [`BoundListener`] is one over TCP; the ends of a socket tell nothing. That a connection is a
//! client's own is the system's word: contracts say nothing of it. A [`Binder`] tells of a listener
//! at which address it was bound, and only its `bind` can tell that, or that it couldn't be.
//!
//! Clients who have sent nothing hold nobody who serves: where a listener is offered
//! [`Places`](seats::Places), they wait in its room (`room.rt`), one set of epoll(7) that all who
//! serve them wait at, until they send something, or have left; and so do those who were served and
//! are kept for another request. No thread polls for the others. Who goes when a time is over, or
//! somebody needs a place, is the word of `seats`. `specs/` has the words.
#![tactic(auto)]

mod binding;
mod bound_listener;
mod counted_listener;
mod descriptors;
mod listener;
mod opaque_end;
mod room;

pub use binding::{Binder, SystemAddresses};
pub use bound_listener::BoundListener;
pub use counted_listener::CountedListener;
pub use descriptors::spare_descriptors;
pub use listener::{AcceptedClient, Closable, Listener};
pub use opaque_end::OpaqueEnd;
