//! What is asked of a gateway that serves, by a request to an address of its own.
//!
//! [`read_call`] tells the [`Call`] of a request, or the [`Refusal`] that comes first:
//! `specs/Calls` has both, as a function of the request and of the [`Audience`] of the address. No
//! page that a browser shows can make a call that changes anything: one from elsewhere can't send
//! the header that such a call needs, and one whose name leads to the address names itself as the
//! host. At an address for anyone nothing can be changed at all.
#![tactic(auto)]

mod audience;
mod call;
mod endpoint;
mod hearing;
mod host;
mod number;
mod query;
mod reading;
mod refusal;

pub use audience::Audience;
pub use call::{Call, Change, Look};
pub use endpoint::Verb;
pub use hearing::heard;
pub use host::host_name;
pub use reading::read_call;
pub use refusal::Refusal;
