//! What `check` says of a configuration, over writers of any kind.
//!
//! [`check_file`] and [`check_text`] say whether a configuration is right, behind an explanation if
//! one is asked for, and whether it fits into a number of exchanges at once. Each contract pins the
//! line that is written and the exit status; of the words of the explanation it says that these are
//! written whole, and first.
#![tactic(auto)]

mod accepted;
mod check;
mod check_fault;
mod explained;
mod options;

pub use check::{check_file, check_text};
pub use check_fault::CheckFault;
pub use options::CheckOptions;
