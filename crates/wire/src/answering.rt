// A response that is passed on.
ghost use Rattle.std.specs.Prelude.{◌≡◌, true, OnOk, OnErr, option_map};
ghost use Rattle.counted_io.specs.Counted.{failures_of, flushes_of, is_flushed};
ghost use Rattle.counted_io.specs.Count.{raised};
ghost use Rattle.counted_io.specs.Effects.{Wrote};
ghost use Rattle.counted_io.specs.Causes.{IsWriteCause};
ghost use Rattle.message_text.specs.Fronts.{WroteFront};
ghost use Rattle.wire.specs.Written.{response_text};

use crate::response::Response;
use counted_io::{Counted, WriteFault};
use message_parts::Method;
use message_text::{Answer, Persistence};
use std::io::Write;

/// The bytes of a response's body, in place.
fn body_of(response: &Response) -> Option<&[u8]>
    ensures { option_map (λ body. body.now) result ≡ response.now.body }
{
    match response.body() {
        Some(body) => Some(body.as_slice()),
        None => None,
    }
}

/// Writes a response to a client that asked by this method, and whose connection ends with it or is
/// kept, and flushes once. Takes no memory.
///
/// To HEAD, and with status 204 or 304, no body is written, and to HEAD and with 304 the length
/// that came is passed on. The one fault comes where the writer failed; then a beginning of the
/// text was written.
pub fn write_response<W: Write>(
    writer: &mut Counted<W>,
    response: &Response,
    method: &Method,
    persistence: Persistence,
) -> Result<(), WriteFault>
    ensures all { OnOk result
        (Wrote W.contents writer.old writer.new
        (response_text persistence method.now response.now)) }
    ensures unfailing { OnOk result (failures_of writer.new ≡ failures_of writer.old) }
    ensures flushed { OnOk result (is_flushed writer.new ≡ true) }
    ensures flushes { OnOk result (flushes_of writer.new ≡ raised (flushes_of writer.old)) }
    ensures front { OnErr result (WroteFront W.contents writer.old writer.new
        (response_text persistence method.now response.now)) }
    ensures failed { OnErr result (IsWriteCause writer.old writer.new) }
{
    let answer = Answer {
        method: method.as_slice(),
        status: response.status(),
        headers: response.headers().as_slice(),
        body: body_of(response),
        persistence,
    };
    answer.write(writer)
}
