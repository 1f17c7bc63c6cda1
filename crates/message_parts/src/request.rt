// A request.
use crate::bytes::Bytes;
use crate::headers::Headers;
use crate::method::Method;
use crate::text_piece::TextPiece;

/// The version of HTTP that a request is in.
#[derive(Clone, Copy)]
pub enum Version {
    Http10,
    Http11,
}

/// A request that was read whole.
#[derive(Drop)]
pub struct Request {
    pub method: Method,
    /// The target as it was sent: a path with or without a query, an absolute URI, or `*`.
    pub target: TextPiece,
    /// The target up to its query, and of an absolute URI the part behind its authority.
    pub path: TextPiece,
    pub version: Version,
    pub headers: Headers,
    /// The body, where the request has a length.
    pub body: Option<Bytes>,
}
