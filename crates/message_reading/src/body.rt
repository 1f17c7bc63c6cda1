// Bodies, as they are delimited.
ghost use Rattle.std.specs.Prelude.{◌≤◌};
ghost use Rattle.counted_io.specs.Counted.{calls_of};
ghost use Rattle.message_reading.specs.Body.{IsBody, size_of};
ghost use Rattle.message_reading.specs.Holding.{Holds, Refuses};
ghost use Rattle.message_reading.specs.Reading.{Reads, ReadsBy};

use crate::chunks::read_chunked;
use crate::fault::MessageFault;
use crate::framing::Framing;
use crate::plain_body::{read_sized, read_to_end};
use body_memory::BodyMemory;
use counted_io::Counted;
use message_parts::Bytes;
use std::io::BufRead;

/// The body that is delimited so, and nothing behind it. Its bytes are held by the memory as they
/// come, before more of them are read; `Bodies` comes where it refuses some.
#[tactic(auto, using(crate::proofs::Bodies::body_steps))]
pub fn read_body<R: BufRead, M: BodyMemory>(
    memory: &mut M,
    reader: &mut Counted<R>,
    limit: u64,
    framing: Framing,
) -> Result<Option<Bytes>, MessageFault>
    ensures body { Reads R.remaining reader.old reader.new (λ body. body) (IsBody framing) result }
    ensures within { ReadsBy (Refuses (M.refused memory.old) (M.refused memory.new))
        limit result reader.old reader.new }
    ensures held { Holds (λ body. size_of body) result (M.held memory.old) (M.held memory.new)
        (M.refused memory.old) (M.refused memory.new) }
    ensures goes_on { calls_of reader.old ≤ calls_of reader.new }
{
    let body = match framing {
        Framing::Bodiless => return Ok(None),
        Framing::Sized(size) => read_sized(memory, reader, limit, size)?,
        Framing::Chunked => read_chunked(memory, reader, limit)?,
        Framing::ToEnd => read_to_end(memory, reader, limit)?,
    };
    Ok(Some(Bytes::new(body)))
}
