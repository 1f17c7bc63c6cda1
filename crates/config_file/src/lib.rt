//! A configuration's file, read.
//!
//! [`read_file_text`] and [`read_text`] give the text of a file or a reader, and [`read_bytes`] the
//! settings that it holds. [`report_file_fault`] tells why there are none, [`report_too_few`] that
//! they want more exchanges than are given, and [`why_unread`] what the system says of a file that
//! can't be read, of which no contract speaks.
#![tactic(auto)]

mod file_fault;
mod opening;
mod reading;
mod unread;
mod unread_file;

pub use file_fault::{FileFault, report_file_fault, report_too_few};
pub use opening::{Opener, SystemFiles};
pub use reading::{read_bytes, read_file_text, read_text};
pub use unread::why_unread;
pub use unread_file::UnreadFile;
