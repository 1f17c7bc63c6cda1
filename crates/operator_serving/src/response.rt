// A status with a text.
ghost use Rattle.std.specs.Prelude.{◌≡◌, ◌≤◌, string_bytes};
ghost use Rattle.operator_serving.specs.Words.{words};

use std::marker::Model;

/// A text that is told.
#[derive(Drop)]
pub(crate) enum ResponseText<'a> {
    /// A text that stands.
    Standing(&'a str),
    /// A text that was made.
    Made(String),
}

/// A status, which has three digits, with a text. A contract sees both.
#[derive(Drop)]
pub(crate) struct OperatorResponse<'a> {
    status: u16,
    text: ResponseText<'a>,
}

impl<'a> Model for OperatorResponse<'a> {
    ghost use Rattle.std.specs.Prelude.{◌≤◌};
    ghost use Rattle.operator_serving.specs.Words.{Words, words};
    ghost use Rattle.operator_serving.specs.OperatorResponse.{text_of};

    ghost Value = { Words };

    ghost view = { λ t. words t.status (text_of t.text) };

    ghost invariant = { λ t. (100 ≤ t.status) × (t.status ≤ 999) };
}

impl<'a> OperatorResponse<'a> {
    /// A status with a text that stands.
    pub(crate) fn new(status: u16, text: &'a str) -> OperatorResponse<'a>
        requires three_digits { (100 ≤ status) × (status ≤ 999) }
        ensures { result ≡ words status text.now }
    {
        OperatorResponse {
            status,
            text: ResponseText::Standing(text),
        }
    }

    /// The status of success, with a text that was made.
    pub(crate) fn made(text: String) -> OperatorResponse<'a>
        ensures { result ≡ words 200 (string_bytes text) }
    {
        OperatorResponse {
            status: 200,
            text: ResponseText::Made(text),
        }
    }

    /// The status.
    pub(crate) fn status(&self) -> u16
        ensures value { result ≡ self.now.status }
        ensures three_digits { (100 ≤ result) × (result ≤ 999) }
    {
        self.status
    }

    /// The text in place.
    pub(crate) fn as_bytes(&self) -> &[u8]
        ensures { result.now ≡ self.now.text }
    {
        match &self.text {
            ResponseText::Standing(text) => text.as_bytes(),
            ResponseText::Made(text) => text.as_bytes(),
        }
    }
}
