//! A limit found by the queue that it makes: [`Vegas`], after TCP Vegas (Brakmo, O'Malley and
//! Peterson, SIGCOMM 1994), in whole numbers.
//!
//! The shortest round trip seen is taken as that of an empty backend. What a round trip takes
//! longer than it is time spent in a queue, whose length in permits is compared with two
//! thresholds. [`Vegas::of`] makes it of [`VegasNumbers`]; where some are meant alone, the others
//! are [`USUAL`]. The rule is `specs/VegasRules.antt`, and each call's contract is that of
//! [`limit_laws::Limit`] at that rule. What an operator may rely on stands on the functions of
//! `laws`.
#![tactic(auto)]

mod laws;
mod numbers;
mod vegas;

pub use laws::{estimates_the_least_queue, never_falls_at_the_base, rises_at_the_base};
pub use numbers::{USUAL, VegasNumbers};
pub use vegas::Vegas;
