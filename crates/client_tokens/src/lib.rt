//! Tokens by which a bound listener gives its clients.
//!
//! A listener gives each client by a [`BoundToken`], which counts who was given by it and who was
//! left. Tokens are put together again, and [`TokensOut::close`] alone tells that this was
//! everybody: no other token is out then, and each client who was given was left. Counts stand for
//! the lists of `specs/Roll.antt`, of clients of whom no bytes are known.
#![tactic(auto)]

mod token;

pub use token::{BoundToken, TokensOut};
