//! What a gateway is told by its configuration.
//!
//! [`Settings`] are what a configuration says: `gate_config` reads them from TOML text, and whoever
//! serves by them needs none of that. An [`Address`] is an IPv4 address with a port, in the one way
//! in which a configuration writes it. [`Settings::limit_for`] tells how far a limit without
//! numbers may go before so many workers, [`Settings::keepalive`] which connections are kept.
//! [`Settings::for_exchanges`] makes of settings those for a number of exchanges at once, where
//! they leave numbers out.
#![tactic(auto)]

mod address;
mod exchanges;
mod keepalive;
mod omitted;
mod settings;
mod workers;

pub use address::Address;
pub use exchanges::TooFewExchanges;
pub use keepalive::Keepalive;
pub use omitted::OmittedKeys;
pub use settings::Settings;
