//! What `check --explain` says of a configuration to a person.
//!
//! [`Explainer`] says where the first fault stands and what is wanted there, or what is worth
//! knowing of a configuration without fault. Which key a contract says, with its table, its path
//! and the numbers that it was judged by, and of bytes that aren't UTF-8 the line; of other words
//! none says anything. How often it had no memory for them it counts. [`odd_routes`] lists the
//! routes that don't match what they seem to, of which a gateway warns as it starts.
#![tactic(auto)]

mod about;
mod callers;
mod exchanges;
mod explain;
mod explainer;
mod faults;
mod finding;
mod limits;
mod members;
mod place;
mod route_flaws;
mod routes;
mod settings;
mod unknown;

pub use explainer::Explainer;
pub use route_flaws::{OddRoute, RouteFlaw, odd_routes};
