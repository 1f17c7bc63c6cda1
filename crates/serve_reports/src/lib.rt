//! What `serve` tells of what it does: in its log, and at its end.
//!
//! A [`Watcher`] hears of each exchange and trouble, and logs what is to be logged. A
//! [`RateLimitedLog`] tells what happens often once in ten seconds, with how often it happened. An
//! [`AnswerTally`] counts the gateway's own answers, a [`ResponseTally`] all answers by the kind of
//! their status, a [`RefusalTally`] whom the gate refused, an [`OutcomeTally`] with which outcomes
//! permits ended, and a [`TimeTally`] has histograms of their times; [`Moments`] know since when
//! permits are out, and [`Reaching`] whether the backend can be connected to. [`report_text`] makes
//! the text of a report, as the log has it every so often, and [`write_counters`] writes the line
//! of a gate's counters at the end, without memory. `specs/` has both texts.
#![tactic(auto)]

mod connections;
mod counters_line;
mod noted;
mod outcomes;
mod outstanding;
mod pace;
mod reaching;
mod refusals;
mod report_line;
mod responses;
mod spell;
mod tally;
mod times;
mod troubles;
mod watching;
mod workers;

pub use connections::BackendConnections;
pub use counters_line::write_counters;
pub use noted::{GatewayStats, LimitRange, Troubles};
pub use outcomes::OutcomeTally;
pub use outstanding::{Moments, Outstanding};
pub use pace::Pace;
pub use reaching::Reaching;
pub use refusals::RefusalTally;
pub use report_line::report_text;
pub use responses::ResponseTally;
pub use spell::RateLimitedLog;
pub use tally::AnswerTally;
pub use times::TimeTally;
pub use watching::Watcher;
pub use workers::Workers;
