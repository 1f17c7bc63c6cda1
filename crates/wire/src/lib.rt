//! HTTP/1 messages: what they are, how they are read and written, and who answers them.
//!
//! `Request` and `Response` are plain values over the parts of `message_parts`. A contract sees
//! each text and each body as its list of bytes, and the header lines as a list in their order.
//! [`read_request`] and [`read_response`] give the value that `specs/Messages.antt` has for the
//! bytes of a reader, or the fault that comes first, and leave what follows the message unread.
//! [`begin_response`] and [`finish_response`] are the two parts of [`read_response`]: the head, and
//! the body.
//! [`write_request`] and [`write_response`] write the texts of `specs/Written.antt`.
//!
//! A [`Backend`] is a server that answers one request at a time. It counts what it was given, and
//! may show it together with its answers (`specs/Forwards.antt`), so that a caller's contract can
//! say what was forwarded, and that nothing was.
#![tactic(auto)]

mod answer;
mod answering;
mod backend;
mod begun;
mod fault;
mod forwarding;
mod laws;
mod path;
mod request_reading;
mod response;
mod response_reading;
mod reuse;

pub use answer::BackendAnswer;
pub use answering::write_response;
pub use backend::Backend;
pub use begun::BegunResponse;
pub use fault::WireFault;
pub use forwarding::write_request;
pub use laws::{messages_are_unambiguous, messages_have_one_reading};
pub use message_parts::{Request, Version};
pub use message_text::Persistence;
pub use request_reading::read_request;
pub use response::Response;
pub use response_reading::{begin_response, finish_response, read_response};
pub use reuse::Reuse;
