//! Lines that are told without memory, and the exit statuses.
//!
//! [`write_line`] writes a line a piece at a time, and [`report_fault`] the line of a fault;
//! [`tell_unread_words`] tells a command line that can't be read at all. Each contract pins the
//! line that is written.
#![tactic(auto)]

mod fault_line;
mod status;
mod unread_words;

pub use fault_line::{report_fault, write_line};
pub use status::{DONE, FAULT, WORDS_FAULT};
pub use unread_words::tell_unread_words;
