//! The texts of HTTP messages, and the writing of them.
//!
//! A request is forwarded by [`Forwarded::write`], a response is passed on by [`Answer::write`],
//! and [`write_local_answer`] answers for the gateway itself. On success exactly the text of the
//! definitions (`specs/Forwarded`, `specs/Answer`) was written behind what the writer held, with
//! one flush. [`write_front`] writes the beginning of an answer whose body comes later, and doesn't
//! flush. A [`Persistence`] says whether the connection ends with the message. No call takes
//! memory. Texts go out in pieces, so a buffer lies below the counts.
#![tactic(auto)]

mod answer;
mod forwarded;
mod laws;
mod lines;
mod number;
mod persistence;
mod phrase;

pub use answer::{Answer, write_front, write_local_answer, write_marked_answer};
pub use forwarded::Forwarded;
pub use laws::{answered_in_one_way, answers_begin_with_their_front, forwarded_in_one_way};
pub use persistence::Persistence;
