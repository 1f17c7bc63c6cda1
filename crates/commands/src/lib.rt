//! The words of the program's command line, and its helps.
//!
//! [`parse_args`] reads the command line. Its contract pins the run that the words name, with its
//! numbers in their ranges, and which words are a fault.
#![tactic(auto)]

mod addresses;
mod command_line;
mod help;
mod interface;
mod mistakes;
mod numbers;
mod options;
mod rows;
mod serve_options;

pub use command_line::{Run, TextTask, parse_args};
pub use serve_options::{LogLines, ServeOptions};
