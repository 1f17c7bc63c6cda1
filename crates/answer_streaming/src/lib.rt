//! Answers that are streamed: their bodies are passed on to the client as they arrive.
//!
//! [`pass_on`] reads a body from the backend in pieces, writes it to the client, and ends the
//! permit once: when the body was read to its end, when it broke, or when the client can't be
//! written to. An [`End`] says which. A body that arrives whole before anything has to be written
//! is handed back instead, so that a small answer can be written as one that isn't streamed. A
//! [`Delimiting`] says how the client finds the end of the body: by a length, by chunks, or by the
//! end of the connection.
//!
//! A permit of a streamed answer stands for the client's time too. So the clock is looked at before
//! and after each write, and a success isn't measured if the client was waited for longer than 100
//! milliseconds in all. Each look knows a [`Progress`], which shows after how many reads and writes
//! it came.
//!
//! A [`StreamingBackend`] is where such an answer comes from: it hands out an answer as soon as its
//! head was read, as a [`BegunAnswer`], and takes it back with a [`BodyEnd`].
//!
//! `specs/Texts.antt` defines what is written, `specs/Passed.antt` what was read and written,
//! `specs/Waits.antt` for how long the client was waited for, `specs/Permits.antt` how the permit
//! is ended, and `specs/Openings.antt` what a backend was given and gave.
#![tactic(auto)]

mod backend;
mod chunk;
mod delimiting;
mod ended;
mod head;
mod passing;
mod progress;
mod source;
mod streaming;
mod taken;
mod waiting;

pub use backend::{BegunAnswer, BodyEnd, Opened, StreamingBackend};
pub use delimiting::{Delimiting, delimiting_for, finish, write_piece};
pub use ended::{End, Passed};
pub use passing::{StreamedAnswer, pass_on};
pub use progress::Progress;
pub use source::Source;
