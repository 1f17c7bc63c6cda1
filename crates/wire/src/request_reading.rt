// Requests that are read.
ghost use Rattle.std.specs.Prelude.{◌≡◌, ◌≤◌, ◌+◌, IfOk, IsErrOf, OnOk};
ghost use Rattle.counted_io.specs.Causes.{HasRead, IsWriteCause};
ghost use Rattle.counted_io.specs.Counted.{calls_of, failures_of, inner_of};
ghost use Rattle.body_memory.specs.Memory.{more};
ghost use Rattle.message_fields.specs.Target.{path_of};
ghost use Rattle.message_reading.specs.Body.{size_of};
ghost use Rattle.message_reading.specs.Holding.{Refuses};
ghost use Rattle.message_reading.specs.Reading.{HasFailed};
ghost use Rattle.message_reading.specs.Continue.{IsSeen};
ghost use Rattle.wire.specs.Fault.{IsUsedUp, Reads, most_reads};
ghost use Rattle.wire.specs.Messages.{IsRequest, Said, SaidFront, request_of, version_of};

use crate::fault::WireFault;
use crate::path::path_of;
use body_memory::BodyMemory;
use counted_io::Counted;
use message_parts::{Bytes, Request, TextPiece, Version};
use message_reading::{RequestHead, read_body, read_checked_head, say_continue};
use std::io::{BufRead, Write};

/// The greatest number of reads for one message.
pub(crate) const MOST_READS: u64 = 100_000_000;

// The version of this minor number.
fn version_of(minor: u8) -> Version
    ensures { result ≡ version_of minor }
{
    if minor == 0 {
        Version::Http10
    } else {
        Version::Http11
    }
}

// The request with this head, path and body.
fn request_of(head: RequestHead, path: TextPiece, body: Option<Bytes>) -> Request
    requires { path ≡ path_of head.target }
    ensures { result ≡ request_of head body }
{
    let RequestHead {
        method,
        target,
        minor,
        lines,
    } = head;
    Request {
        method,
        target,
        path,
        version: version_of(minor),
        headers: lines,
        body,
    }
}

/// The request that the reader's bytes begin with; what follows it stays unread.
///
/// A client that waits to be asked for the body is asked, once the head passed all checks, and what
/// asks it is flushed before the body is read; nothing else is written. `Memory`, `Read`, `Write`
/// and `TurnLimit` come where a growth was refused, the reader or the writer failed, or 100,000,000
/// reads were made; each other fault where the bytes have it first: in the head, in its checks, in
/// the lengths or in the body. The body's bytes are held by the memory as they come, and `Bodies`
/// comes where it refuses some.
#[tactic(auto, using(crate::proofs::SaidTexts::request_told))]
pub fn read_request<R: BufRead, W: Write, M: BodyMemory>(
    memory: &mut M,
    reader: &mut Counted<R>,
    writer: &mut Counted<W>,
) -> Result<Request, WireFault>
    ensures request { Reads R.remaining reader.old reader.new (λ request. request)
        IsRequest result }
    ensures said { ¬ (IsErrOf result WireFault.Write) → Said (R.remaining (inner_of reader.old))
        (W.contents (inner_of writer.old)) (W.contents (inner_of writer.new)) result }
    ensures seen { ¬ (IsErrOf result WireFault.Write) → IsSeen writer.old writer.new }
    ensures reads_well { OnOk result (failures_of reader.new ≡ failures_of reader.old) }
    ensures unfailing { ¬ (IsErrOf result WireFault.Write) →
        failures_of writer.new ≡ failures_of writer.old }
    ensures read { IsErrOf result WireFault.Read → HasFailed reader.old reader.new }
    ensures write { IsErrOf result WireFault.Write → IsWriteCause writer.old writer.new }
    ensures front { IsErrOf result WireFault.Write → SaidFront (R.remaining (inner_of reader.old))
        (W.contents (inner_of writer.old)) (W.contents (inner_of writer.new)) }
    ensures turns { IsErrOf result WireFault.TurnLimit → IsUsedUp reader.old reader.new }
    ensures few { calls_of reader.new ≤ calls_of reader.old + most_reads }
    ensures reads { HasRead reader.old reader.new }
    ensures held { IfOk result (λ request. M.held memory.new
        ≡ more (size_of request.body) (M.held memory.old)) }
    ensures bodies { IsErrOf result WireFault.Bodies →
        Refuses (M.refused memory.old) (M.refused memory.new) }
    ensures accepted { ¬ (IsErrOf result WireFault.Bodies) →
        M.refused memory.new ≡ M.refused memory.old }
{
    let limit = reader.calls().saturating_add(MOST_READS);
    let alloc = memory.alloc();
    let (head, framing) = read_checked_head(alloc, reader, limit)?;
    let path = path_of(alloc, &head.target)?;
    say_continue(writer, &head, framing)?;
    let body = read_body(memory, reader, limit, framing)?;
    Ok(request_of(head, path, body))
}
