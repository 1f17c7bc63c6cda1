//! The parts of HTTP messages: bytes, text, methods, header lines, and requests made of them.
//!
//! They are plain values. A contract sees each text and each run of bytes as its list of bytes, and
//! the header lines as a list in their order.
#![tactic(auto)]

mod bytes;
mod field;
mod headers;
mod method;
mod names;
mod piece;
mod request;
mod text;
mod text_piece;

pub use bytes::Bytes;
pub use field::Field;
pub use headers::{Header, Headers};
pub use method::Method;
pub use names::is_same_name;
pub use piece::{HeadText, Piece};
pub use request::{Request, Version};
pub use text::Text;
pub use text_piece::TextPiece;
