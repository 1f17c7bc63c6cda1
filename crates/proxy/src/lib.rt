//! One exchange: a request is read, asked for at a gate, forwarded, ended and answered.
//!
//! [`exchange`] is the crate's one call. Its contract is `specs/Exchanges.antt`: what was read is
//! classified and asked for; it is forwarded once where the gate lets it through, and else not at
//! all; an admitted permit is ended with the outcome of the backend's answer, before anything is
//! written to the client; and the client gets what the table of answers says
//! (`specs/Table.antt`). Whether the client's connection ends with its answer is decided before
//! that is written (`specs/Keeping.antt`); a [`Keeper`] has a say in it. An [`Exchange`] is made by
//! that call alone, with the counts that the client's ends had behind it. A [`Watch`] hears of what
//! came of exchanges.
#![tactic(auto)]

mod exchanging;
mod keeping;
mod replying;
mod settling;
mod told;
mod watch;

pub use classifier::Class;
pub use exchanging::exchange;
pub use gate_port::{GatePort, Why};
pub use keeping::{ExchangePolicy, Keeper};
pub use replying::fault_status;
pub use told::{CallCounts, Exchange, ExchangeSummary, PermitTimes, Verdict};
pub use watch::Watch;
pub use wire::{Backend, BackendAnswer, Persistence};
