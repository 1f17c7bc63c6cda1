// The laws of messages. These functions make nothing: each is there for its contract.
ghost use Rattle.std.specs.Prelude.{ℕ, List};
ghost use Rattle.message_reading.specs.Laws.{IsOne};
ghost use Rattle.wire.specs.Laws.{RequestsAreUnambiguous, RequestsHaveOneHost};
ghost use Rattle.wire.specs.Laws.{ResponsesAreUnambiguous};
ghost use Rattle.wire.specs.Messages.{IsRequest, IsResponse};

use message_reading::{chunks_have_one_reading, heads_have_one_reading};

/// Bytes are one request at most, and one response to a request of a method, or else have one
/// fault: they have one reading.
pub fn messages_have_one_reading()
    ensures requests { IsOne IsRequest }
    ensures responses { (method : List ℕ) → IsOne (IsResponse method) }
{
    heads_have_one_reading();
    chunks_have_one_reading();
}

/// A message that is read says in one way where its body ends (RFC 9112, section 6.3).
///
/// It has no Transfer-Encoding beside a Content-Length, no coding but `chunked` alone, and no two
/// lengths that differ. So has each response that isn't bodiless by its request's method or by its
/// status, where lengths tell nothing. A request has one line of Host at most.
pub fn messages_are_unambiguous()
    ensures requests { RequestsAreUnambiguous }
    ensures hosts { RequestsHaveOneHost }
    ensures responses { ResponsesAreUnambiguous }
{}
