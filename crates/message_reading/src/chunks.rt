// Chunked bodies.
ghost use Rattle.std.specs.Prelude.{◌≡◌, ◌≤◌, ◌+◌, ◌++◌, drop, length, IfOk};
ghost use Rattle.counted_io.specs.Counted.{calls_of};
ghost use Rattle.message_reading.specs.Holding.{Holds, Refuses};
ghost use Rattle.message_reading.specs.Reading.{By, Reads, ReadsBy};
ghost use Rattle.message_reading.specs.Chunks.{IsChunks, piece_of};

use crate::byte::read_crlf;
use crate::chunk_size::read_size;
use crate::fault::{Fault, MessageFault};
use crate::plain_body::fill;
use crate::trailers::read_trailers;
use body_memory::BodyMemory;
use counted_io::Counted;
use message_fields::MOST_BODY;
use std::io::BufRead;

// A chunk's bytes, behind those of the body, and the CR LF behind them.
fn read_piece<R: BufRead, M: BodyMemory>(
    memory: &mut M,
    reader: &mut Counted<R>,
    limit: u64,
    mut body: Vec<u8>,
    size: usize,
) -> Result<Vec<u8>, MessageFault>
    ensures piece { Reads R.remaining reader.old reader.new
        (λ longer. drop (length body.items) longer.items) (By (piece_of size)) result }
    ensures kept { IfOk result (λ longer.
        longer.items ≡ body.items ++ drop (length body.items) longer.items) }
    ensures length { IfOk result (λ longer. length longer.items ≡ length body.items + size) }
    ensures within { ReadsBy (Refuses (M.refused memory.old) (M.refused memory.new))
        limit result reader.old reader.new }
    ensures held { Holds (λ _. size) result (M.held memory.old) (M.held memory.new)
        (M.refused memory.old) (M.refused memory.new) }
    ensures goes_on { calls_of reader.old ≤ calls_of reader.new }
{
    fill(memory, reader, limit, &mut body, size)?;
    read_crlf(reader, limit)?;
    Ok(body)
}

/// A chunked body: the bytes of all chunks. The lines behind the last chunk are read and dropped.
///
/// A size line over 4,096 bytes, or one that gives no size, is `Malformed`, and so is a chunk that
/// no CR LF follows; a size with which the sum passes 8,388,608 is `BodyTooLarge`, before the
/// chunk's bytes are read; more than 65,536 bytes behind the last chunk are `HeadTooLarge`.
#[tactic(auto, using(crate::proofs::JoinedChunks::chunk_steps))]
pub(crate) fn read_chunked<R: BufRead, M: BodyMemory>(
    memory: &mut M,
    reader: &mut Counted<R>,
    limit: u64,
) -> Result<Vec<u8>, MessageFault>
    ensures body { Reads R.remaining reader.old reader.new (λ body. body.items)
        (IsChunks 0) result }
    ensures within { ReadsBy (Refuses (M.refused memory.old) (M.refused memory.new))
        limit result reader.old reader.new }
    ensures held { Holds (λ body. length body.items) result (M.held memory.old) (M.held memory.new)
        (M.refused memory.old) (M.refused memory.new) }
    ensures goes_on { calls_of reader.old ≤ calls_of reader.new }
{
    let mut body = Vec::new(memory.alloc());
    loop {
        let size = read_size(memory.alloc(), reader, limit)?;
        if size == 0 {
            read_trailers(reader, limit)?;
            return Ok(body);
        }
        if size > MOST_BODY - body.len() as u64 {
            return Err(MessageFault::Bytes(Fault::BodyTooLarge));
        }
        body = read_piece(memory, reader, limit, body, size as usize)?;
    }
}
