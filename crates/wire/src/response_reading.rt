// Responses that are read.
ghost use Rattle.std.specs.Prelude.{◌≡◌, ◌≤◌, ◌+◌, max, IfOk, IsErrOf, OnOk};
ghost use Rattle.counted_io.specs.Causes.{HasRead};
ghost use Rattle.counted_io.specs.Counted.{calls_of, failures_of};
ghost use Rattle.body_memory.specs.Memory.{more};
ghost use Rattle.message_reading.specs.Body.{size_of};
ghost use Rattle.message_reading.specs.Holding.{Refuses};
ghost use Rattle.message_reading.specs.Reading.{HasFailed, once_more};
ghost use Rattle.wire.specs.Fault.{IsUsedUp, Reads, most_reads};
ghost use Rattle.wire.specs.Messages.{IsBegun, IsFinish, IsResponse};

use crate::begun::BegunResponse;
use crate::fault::WireFault;
use crate::request_reading::MOST_READS;
use crate::response::Response;
use crate::reuse::reuse_of;
use body_memory::BodyMemory;
use counted_io::Counted;
use message_fields::MOST_BODY;
use message_parts::Method;
use message_reading::{frame_response, read_body, read_final_head};
use std::alloc::Global;
use std::io::BufRead;

/// Reads the head of the final response that the reader's bytes begin with, to a request of this
/// method, and says how its body is delimited; the body stays unread. A response without lengths
/// runs to the end of the connection.
///
/// At most 16 interim responses before it are read and dropped. `Memory`, `Read` and `TurnLimit`
/// come where a growth was refused, the reader failed, or it made `limit` reads in all; each other
/// fault where the bytes have it first: in a head, in its status or in the lengths, of which
/// `BodyTooLarge` is one above `most` bytes.
#[tactic(auto, using(crate::proofs::BegunResponses::begun_steps))]
pub fn begin_response<R: BufRead>(
    alloc: Global,
    reader: &mut Counted<R>,
    limit: u64,
    method: &Method,
    most: u64,
) -> Result<BegunResponse, WireFault>
    ensures begun { Reads R.remaining reader.old reader.new (λ begun. begun)
        (IsBegun most method.now) result }
    ensures reads_well { OnOk result (failures_of reader.new ≡ failures_of reader.old) }
    ensures read { IsErrOf result WireFault.Read → HasFailed reader.old reader.new }
    ensures write { ¬ (IsErrOf result WireFault.Write) }
    ensures bodies { ¬ (IsErrOf result WireFault.Bodies) }
    ensures turns { IsErrOf result WireFault.TurnLimit → limit ≤ calls_of reader.new }
    ensures few { calls_of reader.new ≤ max limit (calls_of reader.old) }
    ensures reads { once_more limit (calls_of reader.old) ≤ calls_of reader.new }
{
    let head = read_final_head(alloc, reader, limit)?;
    let framing = frame_response(method, &head, most)?;
    let reuse = reuse_of(&head, framing);
    Ok(BegunResponse::new(head.status, head.lines, framing, reuse))
}

/// Reads the body of a response that begins so; what follows it stays unread.
///
/// The faults are those of [`read_response`], but of the body alone: `TurnLimit` comes once the
/// reader made `limit` reads in all.
#[tactic(auto, using(crate::proofs::BegunResponses::finish_steps))]
pub fn finish_response<R: BufRead, M: BodyMemory>(
    memory: &mut M,
    reader: &mut Counted<R>,
    limit: u64,
    begun: BegunResponse,
) -> Result<Response, WireFault>
    ensures response { Reads R.remaining reader.old reader.new (λ response. response)
        (IsFinish begun) result }
    ensures reads_well { OnOk result (failures_of reader.new ≡ failures_of reader.old) }
    ensures read { IsErrOf result WireFault.Read → HasFailed reader.old reader.new }
    ensures write { ¬ (IsErrOf result WireFault.Write) }
    ensures turns { IsErrOf result WireFault.TurnLimit → limit ≤ calls_of reader.new }
    ensures few { calls_of reader.new ≤ max limit (calls_of reader.old) }
    ensures goes_on { calls_of reader.old ≤ calls_of reader.new }
    ensures held { IfOk result (λ response. M.held memory.new
        ≡ more (size_of response.body) (M.held memory.old)) }
    ensures bodies { IsErrOf result WireFault.Bodies →
        Refuses (M.refused memory.old) (M.refused memory.new) }
    ensures accepted { ¬ (IsErrOf result WireFault.Bodies) →
        M.refused memory.new ≡ M.refused memory.old }
{
    let body = read_body(memory, reader, limit, begun.framing())?;
    Ok(begun.with_body(body))
}

/// The final response that the reader's bytes begin with, to a request of this method; what follows
/// it stays unread. A response without lengths runs to the end of the connection. It tells what may
/// come of the connection behind it.
///
/// At most 16 interim responses before it are read and dropped. `Memory`, `Read` and `TurnLimit`
/// come where a growth was refused, the reader failed, or 100,000,000 reads were made; each other
/// fault where the bytes have it first: in a head, in its status, in the lengths or in the body.
/// The body's bytes are held by the memory as they come, and `Bodies` comes where it refuses some.
#[tactic(auto, using(crate::proofs::BegunResponses::response_steps))]
pub fn read_response<R: BufRead, M: BodyMemory>(
    memory: &mut M,
    reader: &mut Counted<R>,
    method: &Method,
) -> Result<Response, WireFault>
    ensures response { Reads R.remaining reader.old reader.new (λ response. response)
        (IsResponse method.now) result }
    ensures reads_well { OnOk result (failures_of reader.new ≡ failures_of reader.old) }
    ensures read { IsErrOf result WireFault.Read → HasFailed reader.old reader.new }
    ensures write { ¬ (IsErrOf result WireFault.Write) }
    ensures turns { IsErrOf result WireFault.TurnLimit → IsUsedUp reader.old reader.new }
    ensures few { calls_of reader.new ≤ calls_of reader.old + most_reads }
    ensures reads { HasRead reader.old reader.new }
    ensures held { IfOk result (λ response. M.held memory.new
        ≡ more (size_of response.body) (M.held memory.old)) }
    ensures bodies { IsErrOf result WireFault.Bodies →
        Refuses (M.refused memory.old) (M.refused memory.new) }
    ensures accepted { ¬ (IsErrOf result WireFault.Bodies) →
        M.refused memory.new ≡ M.refused memory.old }
{
    let limit = reader.calls().saturating_add(MOST_READS);
    let begun = begin_response(memory.alloc(), reader, limit, method, MOST_BODY)?;
    finish_response(memory, reader, limit, begun)
}
