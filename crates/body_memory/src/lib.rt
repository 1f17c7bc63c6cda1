//! One bound on the bytes of all bodies that are held whole.
//!
//! Whoever reads a body has a [`BodyMemory`] hold each piece of it, and drops the piece that it
//! refuses. [`Global`] has no bound. [`HeldBodies`] are what one reader holds of the bytes of
//! [`SharedBodies`], whose bound all share: never do all together hold more, on whatever threads
//! they are (`specs/Rule.antt`). No call waits, and one without a bound changes nothing that is
//! shared.
//!
//! [`Global`]: std::alloc::Global
#![tactic(auto)]

mod held;
mod memory;
mod rule;
mod shared;

pub use held::HeldBodies;
pub use memory::{BodiesFull, BodyMemory};
pub use shared::SharedBodies;
