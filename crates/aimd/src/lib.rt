//! Additive increase, multiplicative decrease: [`Aimd`], a limit that rises by one while it is in
//! use and falls by a ratio at a drop or a slow answer. Its role is that of the limit of this name
//! in Netflix's concurrency-limits (README); the rule is this project's own.
//!
//! [`Aimd::of`] makes it of [`AimdNumbers`]; where some are meant alone, the others are [`USUAL`].
//! Its rule is `specs/AimdRules.antt`, and each call's contract is that of [`limit_laws::Limit`] at
//! that rule. What an operator may rely on stands on the functions of `laws`: how fast the limit
//! falls at most, whatever the samples, and how fast it recovers where it is in use.
#![tactic(auto)]

mod aimd;
mod laws;
mod numbers;

pub use aimd::Aimd;
pub use laws::{
    decreases_to_the_greatest, falls_by_the_ratio_at_most, falls_no_faster_than_drops,
    rises_by_one_a_sample,
};
pub use numbers::{AimdNumbers, USUAL};
