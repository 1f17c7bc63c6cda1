//! The commands over a text: what each reads, writes and ends with, over readers and writers of any
//! kind.
//!
//! [`run_text`] answers a script or carries a trace out, and [`run_load`] carries one out by
//! threads. Both tell their fault and answer the exit status; their contracts pin the lines that
//! are written.
#![tactic(auto)]

mod line_fault;
mod loads;
mod scripts;

pub use loads::run_load;
pub use scripts::run_text;
