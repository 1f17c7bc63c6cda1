//! The class of a request: which partition it belongs to, and whether it bypasses the limit.
//!
//! `classify` is the crate's one call for the layers above. Its contract is the definition
//! `class_of` in `specs/Class.antt`.
#![tactic(auto)]

mod bypass;
mod class;
mod header;
mod resolver;
mod rules;

pub use bypass::Bypass;
pub use class::{Class, classify};
pub use resolver::Resolver;
pub use rules::Rules;
