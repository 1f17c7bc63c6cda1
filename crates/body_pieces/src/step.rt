// Steps through a body: the first bytes of a piece, and more of them.
ghost use Rattle.std.specs.Prelude.{◌≡◌, ◌≤◌, ◌<◌, true, false, length, IfOk};
ghost use Rattle.counted_io.specs.Counted.{calls_of, inner_of};
ghost use Rattle.message_reading.specs.Reading.{ReadsWithin};
ghost use Rattle.body_pieces.specs.Beginnings.{GivesMore, IsAtItsEnd, StepsOn};
ghost use Rattle.body_pieces.specs.Rests.{is_ended};

use crate::chunk::{more_behind, more_chunk, more_in_chunk, step_behind_chunk, step_into_chunk};
use crate::piece::Piece;
use crate::plain::{more_sized, more_to_end};
use crate::rest::Rest;
use counted_io::Counted;
use message_reading::MessageFault;
use std::alloc::Global;
use std::io::BufRead;

/// Reads as far as the next bytes of a body, and puts them behind those of the piece.
pub(crate) fn first_bytes<R: BufRead>(
    alloc: Global,
    reader: &mut Counted<R>,
    limit: u64,
    room: usize,
    piece: Piece,
) -> Result<Piece, MessageFault>
    requires some_room { length piece.bytes.items < room }
    ensures more { GivesMore piece.bytes.items piece.rest (R.remaining (inner_of reader.old))
        (R.remaining (inner_of reader.new)) result }
    ensures step { IfOk result (StepsOn piece.bytes.items piece.rest) }
    ensures fits { IfOk result (λ next. length next.bytes.items ≤ room) }
    ensures some { IfOk result (λ next.
        next.is_last ≡ false → length piece.bytes.items < length next.bytes.items) }
    ensures last { IfOk result (λ next. next.is_last ≡ true
        → IsAtItsEnd next.rest (R.remaining (inner_of reader.old))
        (R.remaining (inner_of reader.new))) }
    ensures prompt { IfOk result (λ next. is_ended next.rest ≡ true → next.is_last ≡ true) }
    ensures within { ReadsWithin limit result reader.old reader.new }
    ensures goes_on { calls_of reader.old ≤ calls_of reader.new }
{
    let Piece {
        bytes,
        rest,
        is_last: _,
    } = piece;
    match rest {
        Rest::Sized(left) => more_sized(reader, limit, left, room, bytes),
        Rest::ToEnd => more_to_end(reader, limit, room, bytes),
        Rest::Size => more_chunk(alloc, reader, limit, room, bytes),
        Rest::Chunk(0) => more_behind(alloc, reader, limit, room, bytes),
        Rest::Chunk(left) => more_in_chunk(reader, limit, left, room, bytes),
    }
}

/// Takes one step further: reads the next bytes of a body and puts them behind those of the piece,
/// or reads the size of a chunk, or the CR LF behind one.
pub(crate) fn step_on<R: BufRead>(
    alloc: Global,
    reader: &mut Counted<R>,
    limit: u64,
    room: usize,
    piece: Piece,
) -> Result<Piece, MessageFault>
    requires some_room { length piece.bytes.items < room }
    ensures more { GivesMore piece.bytes.items piece.rest (R.remaining (inner_of reader.old))
        (R.remaining (inner_of reader.new)) result }
    ensures step { IfOk result (StepsOn piece.bytes.items piece.rest) }
    ensures fits { IfOk result (λ next. length next.bytes.items ≤ room) }
    ensures kept { IfOk result (λ next. length piece.bytes.items ≤ length next.bytes.items) }
    ensures last { IfOk result (λ next. next.is_last ≡ true
        → IsAtItsEnd next.rest (R.remaining (inner_of reader.old))
        (R.remaining (inner_of reader.new))) }
    ensures prompt { IfOk result (λ next. is_ended next.rest ≡ true → next.is_last ≡ true) }
    ensures within { ReadsWithin limit result reader.old reader.new }
    ensures goes_on { calls_of reader.old ≤ calls_of reader.new }
{
    let Piece {
        bytes,
        rest,
        is_last: _,
    } = piece;
    match rest {
        Rest::Sized(left) => more_sized(reader, limit, left, room, bytes),
        Rest::ToEnd => more_to_end(reader, limit, room, bytes),
        Rest::Size => step_into_chunk(alloc, reader, limit, bytes),
        Rest::Chunk(0) => step_behind_chunk(reader, limit, bytes),
        Rest::Chunk(left) => more_in_chunk(reader, limit, left, room, bytes),
    }
}
