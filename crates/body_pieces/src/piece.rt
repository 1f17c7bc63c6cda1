// The next piece of a body.
ghost use Rattle.std.specs.Prelude.{◌≡◌, ◌≤◌, ◌<◌, true, false, length, IfOk};
ghost use Rattle.counted_io.specs.Counted.{calls_of, inner_of};
ghost use Rattle.message_reading.specs.Reading.{ReadsWithin};
ghost use Rattle.body_pieces.specs.Beginnings.{GivesPiece, IsAtItsEnd, Steps};
ghost use Rattle.body_pieces.specs.Rests.{is_ended};

use crate::rest::Rest;
use crate::step::{first_bytes, step_on};
use counted_io::Counted;
use lent_io::ReadAhead;
use message_reading::MessageFault;
use std::alloc::Global;
use std::io::BufRead;

/// How many steps a piece may take behind its first bytes: more than there will be.
const MOST_STEPS: u64 = 1 << 62;

/// Some bytes of a payload, and what is still to be read behind them.
#[derive(Drop)]
pub struct Piece {
    pub bytes: Vec<u8>,
    pub rest: Rest,
    /// Whether the body was found to end here.
    pub is_last: bool,
}

/// Reads the next bytes of a body, at most `room` of them, as soon as some have arrived: with them
/// those that the reader has read ahead.
///
/// They replace those of `bytes`, in the same memory. There are none only if the body was found to
/// end. The faults are those of reading the body whole, but without `BodyTooLarge` and `Bodies`;
/// after one of them what was read behind it is lost.
pub fn next_piece<R: BufRead + ReadAhead>(
    alloc: Global,
    reader: &mut Counted<R>,
    limit: u64,
    rest: Rest,
    room: usize,
    mut bytes: Vec<u8>,
) -> Result<Piece, MessageFault>
    requires some_room { 0 < room }
    ensures piece { GivesPiece rest (R.remaining (inner_of reader.old))
        (R.remaining (inner_of reader.new)) result }
    ensures step { IfOk result (Steps rest) }
    ensures fits { IfOk result (λ piece. length piece.bytes.items ≤ room) }
    ensures some { IfOk result (λ piece.
        piece.is_last ≡ false → 0 < length piece.bytes.items) }
    ensures last { IfOk result (λ piece. piece.is_last ≡ true
        → IsAtItsEnd piece.rest (R.remaining (inner_of reader.old))
        (R.remaining (inner_of reader.new))) }
    ensures prompt { IfOk result (λ piece. is_ended piece.rest ≡ true → piece.is_last ≡ true) }
    ensures within { ReadsWithin limit result reader.old reader.new }
    ensures goes_on { calls_of reader.old ≤ calls_of reader.new }
{
    bytes.clear();
    let begun = Piece {
        bytes,
        rest,
        is_last: rest.is_ended(),
    };
    if begun.is_last {
        return Ok(begun);
    }
    let mut piece = first_bytes(alloc, reader, limit, room, begun)?;
    for _ in 0..MOST_STEPS {
        if piece.is_last || piece.bytes.len() >= room || reader.inner().is_drained() {
            return Ok(piece);
        }
        piece = step_on(alloc, reader, limit, room, piece)?;
    }
    Ok(piece)
}
