//! The fields and the target of an HTTP message, as its rules ask for them.
//!
//! Each call is a pure function of header lines or of bytes, and takes no memory unless it says so.
//! `specs/` has what each one tells: the lines of a name (`Lines`), the parts of values with commas
//! (`Parts`), the length that lines give (`Lengths`), the lines that are passed on (`Passed`) and
//! the target (`Target`).
#![tactic(auto)]

mod fields;
mod length;
mod lines;
mod parts;
mod passed;
mod passing;
mod target;

pub use fields::is_host;
pub use length::{LengthFault, MOST_BODY, length_digits, length_of, length_of_one};
pub use lines::{
    asks_continue, count_codings_and_lengths, count_hosts, count_named, first_value, has_host,
    is_chunked_alone,
};
pub use passed::asks_close;
pub use passing::Passing;
pub use target::{authority, is_target, is_whole_server, local_part, wants_slash};
