//! What each key of a configuration holds: the one table of its words, its range and its default.
//!
//! The help of `check` and the words of `check --explain` are made of all rows, and
//! `config_sections` reads a key by the range in its row. A row has
//!
//! - the key, and how its line of the help begins, with the kinds or the version that have it;
//! - what the key holds, with its unit;
//! - of numbers and of true or false the range and the default, in brackets.
//!   `[0 to 9; default 5]` is said as it stands there, and an end may be the name of an earlier key
//!   of the section;
//! - what is said behind that in the help alone, and when it is explained alone.
//!
//! The row of a table has its heading.
#![tactic(auto)]

mod ranges;
mod table;
