//! The kinds of limit, as one: a [`BaseLimit`] is of one of the kinds in [`LimitKind`], and an
//! [`AnyLimit`] learns from each sample or from windows of samples.
//!
//! A [`LimitSpec`] is a kind with its numbers, whichever they are. Its `make` gives the limit, or
//! says which number is out of its range.
//!
//! A limit passes each call on to what it holds. That each is a lawful limit again is proved in
//! `specs/KindsLaws.antt` and `specs/AnyKindsLaws.antt`.
#![tactic(auto)]

mod kinds;

pub use kinds::{AnyLimit, BaseLimit, LimitKind, LimitSpec, Limits};
