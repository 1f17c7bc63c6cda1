//! What the operator's address shows.
//!
//! [`metrics_text`] tells a scraper the state of a gate and what its gateway noted, as
//! `specs/Metrics.antt` has it, family by family. [`PAGE`] draws it in a browser.
#![tactic(auto)]

mod answers;
mod by_class;
mod exposition;
mod families;
mod limit_view;
mod page;
mod times;

pub use exposition::metrics_text;
pub use page::PAGE;
