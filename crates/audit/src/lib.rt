//! The audit of a kept history: is it the history of just the calls whose receipts were kept?
//!
//! [`verdict`] answers that, or the first cause why not. Its contract is `specs/Verdict.antt`,
//! which speaks of the whole history and of all lists of receipts at once, and
//! `specs/Accepted.antt`, which says what an accepted audit means. The code goes over the receipts
//! twice and over the entries three times, with marks by entry number.
//!
//! `cause` has what is answered. `strange` and `order` look at the receipts, `cover` and `matching`
//! at the entries, and `judge` at all of it; `permits` says which permits an entry hands out and
//! ends, and `equal` when two values are one. `laws` has what holds of every audit, and of the
//! histories that a gate keeps.
#![tactic(auto)]

mod cause;
mod cover;
mod equal;
mod judge;
mod laws;
mod matching;
mod order;
mod permits;
mod strange;

pub use cause::Cause;
pub use judge::{Calls, verdict};
pub use laws::{
    handed_out_is_named, legal_histories_are_matched_plainly, legal_histories_hand_out_named,
    one_verdict,
};
