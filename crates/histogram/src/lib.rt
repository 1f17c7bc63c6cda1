//! Histograms of times: how many of those that were noted are at most each of some bounds, how many
//! there are, and their sum.
//!
//! A [`Histogram`] takes no memory beyond itself. `specs/Histogram.antt` says what it is of which
//! times.
#![tactic(auto)]

mod histogram;

pub use histogram::Histogram;
