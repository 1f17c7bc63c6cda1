//! Bodies of HTTP/1 messages that are read a piece at a time.
//!
//! [`next_piece`] reads the next bytes of a body as soon as some have arrived, with those that were
//! read ahead. So a body of any size needs the memory of one piece, and a small one is one piece. A
//! [`Rest`] says what is still to be read. `specs/Rests.antt` defines what reading the rest of a
//! body gives, as `message_reading` defines it for whole bodies, but without a limit on the size.
//! `specs/Beginnings.antt` defines a piece: whatever follows its bytes, reading both gives the same
//! behind the piece's payload. `specs/ChunkTexts.antt` defines how pieces are written in chunks,
//! and the laws say that they are read back.
#![tactic(auto)]

mod chunk;
mod laws;
mod piece;
mod plain;
mod rest;
mod step;

pub use laws::{chunks_are_read_back, pieces_are_the_whole, rests_have_one_reading};
pub use piece::{Piece, next_piece};
pub use rest::Rest;
