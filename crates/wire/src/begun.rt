// The beginning of a response.
ghost use Rattle.std.specs.Prelude.{◌≡◌, ◌≤◌};
ghost use Rattle.wire.specs.Response.{BegunValue, finished};

use crate::response::Response;
use crate::reuse::Reuse;
use message_parts::{Bytes, Headers};
use message_reading::Framing;
use std::marker::Model;

/// A final response of which the head was read, and nothing of the body. A contract sees its
/// status, its header lines, how its body is delimited, and what may come of its connection behind
/// that.
#[derive(Drop)]
pub struct BegunResponse {
    status: u16,
    headers: Headers,
    framing: Framing,
    reuse: Reuse,
}

impl Model for BegunResponse {
    ghost use Rattle.std.specs.Prelude.{◌≤◌};
    ghost use Rattle.wire.specs.Response.{BegunValue};

    ghost Value = { BegunValue };

    ghost view = { λ b. record {
      status = b.status;
      headers = b.headers;
      framing = b.framing;
      reuse = b.reuse;
    } };

    ghost invariant = { λ b. (100 ≤ b.status) × (b.status ≤ 999) };
}

impl BegunResponse {
    /// Returns the beginning of a response with these parts. A status has three digits.
    pub(crate) fn new(
        status: u16,
        headers: Headers,
        framing: Framing,
        reuse: Reuse,
    ) -> BegunResponse
        requires three_digits { (100 ≤ status) × (status ≤ 999) }
        ensures { result
            ≡ record { status = status; headers = headers; framing = framing; reuse = reuse } }
    {
        BegunResponse {
            status,
            headers,
            framing,
            reuse,
        }
    }

    /// Returns the status code, from 100 to 999.
    pub fn status(&self) -> u16
        ensures value { result ≡ self.now.status }
        ensures three_digits { (100 ≤ result) × (result ≤ 999) }
    {
        self.status
    }

    /// Lends the header lines.
    pub fn headers(&self) -> &Headers
        ensures { result.now ≡ self.now.headers }
    {
        &self.headers
    }

    /// Returns how the body is delimited.
    pub fn framing(&self) -> Framing
        ensures { result ≡ self.now.framing }
    {
        self.framing
    }

    /// Returns what may come of the connection once the body was read.
    pub fn reuse(&self) -> Reuse
        ensures { result ≡ self.now.reuse }
    {
        self.reuse
    }

    /// Returns the response that begins so, with this body.
    pub fn with_body(self, body: Option<Bytes>) -> Response
        ensures { result ≡ finished self body }
    {
        let BegunResponse {
            status,
            headers,
            framing: _,
            reuse,
        } = self;
        Response::new(status, headers, body, reuse)
    }
}
