// A request that is forwarded.
ghost use Rattle.std.specs.Prelude.{◌≡◌, true, OnOk, OnErr, option_map};
ghost use Rattle.counted_io.specs.Counted.{failures_of, flushes_of, is_flushed};
ghost use Rattle.counted_io.specs.Count.{raised};
ghost use Rattle.counted_io.specs.Effects.{Wrote};
ghost use Rattle.counted_io.specs.Causes.{IsWriteCause};
ghost use Rattle.message_text.specs.Fronts.{WroteFront};
ghost use Rattle.wire.specs.Written.{is_old, request_text};

use counted_io::{Counted, WriteFault};
use message_parts::{Bytes, Request, Version};
use message_text::{Forwarded, Persistence};
use std::io::Write;

/// Whether the version is HTTP/1.0.
fn is_old(version: Version) -> bool
    ensures { result ≡ is_old version }
{
    match version {
        Version::Http10 => true,
        Version::Http11 => false,
    }
}

/// The bytes of a body, in place.
fn bytes_of(body: &Option<Bytes>) -> Option<&[u8]>
    ensures { option_map (λ bytes. bytes.now) result ≡ body.now }
{
    match body {
        Some(bytes) => Some(bytes.as_slice()),
        None => None,
    }
}

/// Writes a request as it is forwarded to a backend, whose address stands in for a host where the
/// request names none, by a connection that ends with the exchange or is kept, and flushes once.
/// Takes no memory.
///
/// The one fault comes where the writer failed; then a beginning of the text was written.
pub fn write_request<W: Write>(
    writer: &mut Counted<W>,
    request: &Request,
    backend: &str,
    persistence: Persistence,
) -> Result<(), WriteFault>
    ensures all { OnOk result
        (Wrote W.contents writer.old writer.new
        (request_text persistence backend.now request.now)) }
    ensures unfailing { OnOk result (failures_of writer.new ≡ failures_of writer.old) }
    ensures flushed { OnOk result (is_flushed writer.new ≡ true) }
    ensures flushes { OnOk result (flushes_of writer.new ≡ raised (flushes_of writer.old)) }
    ensures front { OnErr result (WroteFront W.contents writer.old writer.new
        (request_text persistence backend.now request.now)) }
    ensures failed { OnErr result (IsWriteCause writer.old writer.new) }
{
    let forwarded = Forwarded {
        method: &request.method,
        target: request.target.as_bytes(),
        is_old: is_old(request.version),
        headers: request.headers.as_slice(),
        body: bytes_of(&request.body),
        backend: backend.as_bytes(),
        persistence,
    };
    forwarded.write(writer)
}
