// More bytes of chunks.
ghost use Rattle.std.specs.Prelude.{◌≡◌, ◌≤◌, ◌<◌, true, false, [], length, IfOk, IfErr, OnOk};
ghost use Rattle.counted_io.specs.Counted.{calls_of, inner_of};
ghost use Rattle.message_reading.specs.Reading.{ReadsWithin};
ghost use Rattle.body_pieces.specs.Beginnings.{GaveBeginning, GaveFault, GivesMore, IsAtItsEnd, StepsOn, opened};
ghost use Rattle.body_pieces.specs.Rests.{is_ended};

use crate::piece::Piece;
use crate::rest::Rest;
use counted_io::Counted;
use message_reading::{Fault, MessageFault, read_crlf, read_size, read_some, read_trailers};
use std::alloc::Global;
use std::io::BufRead;

/// Reads the size of the next chunk, and if it is 0 the lines behind that last chunk too.
#[tactic(auto, using(crate::proofs::ChunkPieces::size_steps))]
fn open_chunk<R: BufRead>(
    alloc: Global,
    reader: &mut Counted<R>,
    limit: u64,
) -> Result<u64, MessageFault>
    ensures open { IfOk result (λ size. GaveBeginning Rest.Size
        (R.remaining (inner_of reader.old)) (R.remaining (inner_of reader.new)) []
        (opened size)) }
    ensures fault { IfErr result (GaveFault Rest.Size (R.remaining (inner_of reader.old))) }
    ensures within { ReadsWithin limit result reader.old reader.new }
    ensures goes_on { calls_of reader.old ≤ calls_of reader.new }
{
    let size = read_size(alloc, reader, limit)?;
    if size == 0 {
        read_trailers(reader, limit)?;
    }
    Ok(size)
}

/// Reads the CR LF behind all bytes of a chunk.
#[tactic(auto, using(crate::proofs::ChunkPieces::end_steps))]
fn end_chunk<R: BufRead>(reader: &mut Counted<R>, limit: u64) -> Result<(), MessageFault>
    ensures ended { OnOk result (GaveBeginning (Rest.Chunk 0)
        (R.remaining (inner_of reader.old)) (R.remaining (inner_of reader.new)) [] Rest.Size) }
    ensures fault { IfErr result (GaveFault (Rest.Chunk 0) (R.remaining (inner_of reader.old))) }
    ensures within { ReadsWithin limit result reader.old reader.new }
    ensures goes_on { calls_of reader.old ≤ calls_of reader.new }
{
    read_crlf(reader, limit)
}

/// Reads the next bytes of chunks, if the size of one comes next, behind those of `bytes`.
#[tactic(auto, using(crate::proofs::ChunkPieces::chunk_steps))]
pub(crate) fn more_chunk<R: BufRead>(
    alloc: Global,
    reader: &mut Counted<R>,
    limit: u64,
    room: usize,
    bytes: Vec<u8>,
) -> Result<Piece, MessageFault>
    requires some_room { length bytes.items < room }
    ensures more { GivesMore bytes.items Rest.Size (R.remaining (inner_of reader.old))
        (R.remaining (inner_of reader.new)) result }
    ensures step { IfOk result (StepsOn bytes.items Rest.Size) }
    ensures fits { IfOk result (λ piece. length piece.bytes.items ≤ room) }
    ensures some { IfOk result (λ piece.
        piece.is_last ≡ false → length bytes.items < length piece.bytes.items) }
    ensures last { IfOk result (λ piece. piece.is_last ≡ true
        → IsAtItsEnd piece.rest (R.remaining (inner_of reader.old))
        (R.remaining (inner_of reader.new))) }
    ensures prompt { IfOk result (λ piece. is_ended piece.rest ≡ true → piece.is_last ≡ true) }
    ensures within { ReadsWithin limit result reader.old reader.new }
    ensures goes_on { calls_of reader.old ≤ calls_of reader.new }
{
    let size = open_chunk(alloc, reader, limit)?;
    if size == 0 {
        return Ok(Piece {
            bytes,
            rest: Rest::Sized(0),
            is_last: true,
        });
    }
    more_in_chunk(reader, limit, size, room, bytes)
}

/// Reads the next bytes of chunks, after all bytes of one, behind those of `bytes`.
#[tactic(auto, using(crate::proofs::ChunkPieces::chunk_steps))]
pub(crate) fn more_behind<R: BufRead>(
    alloc: Global,
    reader: &mut Counted<R>,
    limit: u64,
    room: usize,
    bytes: Vec<u8>,
) -> Result<Piece, MessageFault>
    requires some_room { length bytes.items < room }
    ensures more { GivesMore bytes.items (Rest.Chunk 0) (R.remaining (inner_of reader.old))
        (R.remaining (inner_of reader.new)) result }
    ensures step { IfOk result (StepsOn bytes.items (Rest.Chunk 0)) }
    ensures fits { IfOk result (λ piece. length piece.bytes.items ≤ room) }
    ensures some { IfOk result (λ piece.
        piece.is_last ≡ false → length bytes.items < length piece.bytes.items) }
    ensures last { IfOk result (λ piece. piece.is_last ≡ true
        → IsAtItsEnd piece.rest (R.remaining (inner_of reader.old))
        (R.remaining (inner_of reader.new))) }
    ensures prompt { IfOk result (λ piece. is_ended piece.rest ≡ true → piece.is_last ≡ true) }
    ensures within { ReadsWithin limit result reader.old reader.new }
    ensures goes_on { calls_of reader.old ≤ calls_of reader.new }
{
    end_chunk(reader, limit)?;
    more_chunk(alloc, reader, limit, room, bytes)
}

/// Reads the next bytes of a chunk of which so many are left, behind those of `bytes`.
#[tactic(auto, using(crate::proofs::ChunkPieces::inner_steps))]
pub(crate) fn more_in_chunk<R: BufRead>(
    reader: &mut Counted<R>,
    limit: u64,
    left: u64,
    room: usize,
    mut bytes: Vec<u8>,
) -> Result<Piece, MessageFault>
    requires some_room { length bytes.items < room }
    requires some_left { 0 < left }
    ensures more { GivesMore bytes.items (Rest.Chunk left) (R.remaining (inner_of reader.old))
        (R.remaining (inner_of reader.new)) result }
    ensures step { IfOk result (StepsOn bytes.items (Rest.Chunk left)) }
    ensures fits { IfOk result (λ piece. length piece.bytes.items ≤ room) }
    ensures some { IfOk result (λ piece.
        piece.is_last ≡ false → length bytes.items < length piece.bytes.items) }
    ensures last { IfOk result (λ piece. piece.is_last ≡ true
        → IsAtItsEnd piece.rest (R.remaining (inner_of reader.old))
        (R.remaining (inner_of reader.new))) }
    ensures prompt { IfOk result (λ piece. is_ended piece.rest ≡ true → piece.is_last ≡ true) }
    ensures within { ReadsWithin limit result reader.old reader.new }
    ensures goes_on { calls_of reader.old ≤ calls_of reader.new }
{
    let free = room - bytes.len();
    let most = left.min(free as u64) as usize;
    let count = read_some(reader, limit, most, &mut bytes)?;
    if count == 0 {
        return Err(MessageFault::Bytes(Fault::Early));
    }
    Ok(Piece {
        bytes,
        rest: Rest::Chunk(left - count as u64),
        is_last: false,
    })
}

/// Reads the size of the next chunk, and no bytes of it.
#[tactic(auto, using(crate::proofs::ChunkPieces::empty_steps))]
pub(crate) fn step_into_chunk<R: BufRead>(
    alloc: Global,
    reader: &mut Counted<R>,
    limit: u64,
    bytes: Vec<u8>,
) -> Result<Piece, MessageFault>
    ensures more { GivesMore bytes.items Rest.Size (R.remaining (inner_of reader.old))
        (R.remaining (inner_of reader.new)) result }
    ensures same { IfOk result (λ piece. piece.bytes.items ≡ bytes.items) }
    ensures last { IfOk result (λ piece. piece.is_last ≡ true
        → IsAtItsEnd piece.rest (R.remaining (inner_of reader.old))
        (R.remaining (inner_of reader.new))) }
    ensures prompt { IfOk result (λ piece. is_ended piece.rest ≡ true → piece.is_last ≡ true) }
    ensures within { ReadsWithin limit result reader.old reader.new }
    ensures goes_on { calls_of reader.old ≤ calls_of reader.new }
{
    let size = open_chunk(alloc, reader, limit)?;
    if size == 0 {
        return Ok(Piece {
            bytes,
            rest: Rest::Sized(0),
            is_last: true,
        });
    }
    Ok(Piece {
        bytes,
        rest: Rest::Chunk(size),
        is_last: false,
    })
}

/// Reads the CR LF behind a chunk.
#[tactic(auto, using(crate::proofs::ChunkPieces::empty_steps))]
pub(crate) fn step_behind_chunk<R: BufRead>(
    reader: &mut Counted<R>,
    limit: u64,
    bytes: Vec<u8>,
) -> Result<Piece, MessageFault>
    ensures more { GivesMore bytes.items (Rest.Chunk 0) (R.remaining (inner_of reader.old))
        (R.remaining (inner_of reader.new)) result }
    ensures same { IfOk result (λ piece. piece.bytes.items ≡ bytes.items) }
    ensures last { IfOk result (λ piece. piece.is_last ≡ true
        → IsAtItsEnd piece.rest (R.remaining (inner_of reader.old))
        (R.remaining (inner_of reader.new))) }
    ensures prompt { IfOk result (λ piece. is_ended piece.rest ≡ true → piece.is_last ≡ true) }
    ensures within { ReadsWithin limit result reader.old reader.new }
    ensures goes_on { calls_of reader.old ≤ calls_of reader.new }
{
    end_chunk(reader, limit)?;
    Ok(Piece {
        bytes,
        rest: Rest::Size,
        is_last: false,
    })
}
