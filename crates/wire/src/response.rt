// A response.
ghost use Rattle.std.specs.Prelude.{◌≡◌, ◌≤◌, option_map};
ghost use Rattle.wire.specs.Response.{ResponseValue};

use crate::reuse::Reuse;
use message_parts::{Bytes, Headers};
use std::marker::Model;

/// A final response that was read whole. A contract sees its status, its header lines, its body,
/// and what may come of its connection.
#[derive(Drop)]
pub struct Response {
    status: u16,
    headers: Headers,
    body: Option<Bytes>,
    reuse: Reuse,
}

impl Model for Response {
    ghost use Rattle.std.specs.Prelude.{◌≤◌};
    ghost use Rattle.wire.specs.Response.{ResponseValue};

    ghost Value = { ResponseValue };

    ghost view = { λ r. record {
      status = r.status;
      headers = r.headers;
      body = r.body;
      reuse = r.reuse;
    } };

    ghost invariant = { λ r. (100 ≤ r.status) × (r.status ≤ 999) };
}

impl Response {
    /// The response of these parts, and what may come of the connection that it was read from. A
    /// status has three digits.
    pub fn new(status: u16, headers: Headers, body: Option<Bytes>, reuse: Reuse) -> Response
        requires three_digits { (100 ≤ status) × (status ≤ 999) }
        ensures { result
            ≡ record { status = status; headers = headers; body = body; reuse = reuse } }
    {
        Response {
            status,
            headers,
            body,
            reuse,
        }
    }

    /// The status code, from 100 to 999.
    pub fn status(&self) -> u16
        ensures value { result ≡ self.now.status }
        ensures three_digits { (100 ≤ result) × (result ≤ 999) }
    {
        self.status
    }

    /// The header lines in place.
    pub fn headers(&self) -> &Headers
        ensures { result.now ≡ self.now.headers }
    {
        &self.headers
    }

    /// The body in place, where there is one.
    pub fn body(&self) -> Option<&Bytes>
        ensures { option_map (λ body. body.now) result ≡ self.now.body }
    {
        self.body.as_ref()
    }

    /// What may come of the connection that it was read from.
    pub fn reuse(&self) -> Reuse
        ensures { result ≡ self.now.reuse }
    {
        self.reuse
    }
}
