// More bytes of a body with a length, or of one that runs to the reader's end.
ghost use Rattle.std.specs.Prelude.{◌≡◌, ◌≤◌, ◌<◌, true, false, length, IfOk};
ghost use Rattle.counted_io.specs.Counted.{calls_of, inner_of};
ghost use Rattle.message_reading.specs.Reading.{ReadsWithin};
ghost use Rattle.body_pieces.specs.Beginnings.{GivesMore, IsAtItsEnd, StepsOn};
ghost use Rattle.body_pieces.specs.Rests.{is_ended};

use crate::piece::Piece;
use crate::rest::Rest;
use counted_io::Counted;
use message_reading::{Fault, MessageFault, read_some};
use std::io::BufRead;

/// Reads the next bytes of a body of which so many are left, behind those of `bytes`.
#[tactic(auto, using(crate::proofs::PlainPieces::sized_steps))]
pub(crate) fn more_sized<R: BufRead>(
    reader: &mut Counted<R>,
    limit: u64,
    left: u64,
    room: usize,
    mut bytes: Vec<u8>,
) -> Result<Piece, MessageFault>
    requires some_room { length bytes.items < room }
    ensures more { GivesMore bytes.items (Rest.Sized left) (R.remaining (inner_of reader.old))
        (R.remaining (inner_of reader.new)) result }
    ensures step { IfOk result (StepsOn bytes.items (Rest.Sized left)) }
    ensures fits { IfOk result (λ piece. length piece.bytes.items ≤ room) }
    ensures some { IfOk result (λ piece.
        piece.is_last ≡ false → length bytes.items < length piece.bytes.items) }
    ensures last { IfOk result (λ piece. piece.is_last ≡ true
        → IsAtItsEnd piece.rest (R.remaining (inner_of reader.old))
        (R.remaining (inner_of reader.new))) }
    ensures prompt { IfOk result (λ piece. is_ended piece.rest ≡ true → piece.is_last ≡ true) }
    ensures within { ReadsWithin limit result reader.old reader.new }
    ensures goes_on { calls_of reader.old ≤ calls_of reader.new }
{
    if left == 0 {
        return Ok(Piece {
            bytes,
            rest: Rest::Sized(0),
            is_last: true,
        });
    }
    let free = room - bytes.len();
    let most = left.min(free as u64) as usize;
    let count = read_some(reader, limit, most, &mut bytes)?;
    if count == 0 {
        return Err(MessageFault::Bytes(Fault::Early));
    }
    let behind = left - count as u64;
    Ok(Piece {
        bytes,
        rest: Rest::Sized(behind),
        is_last: behind == 0,
    })
}

/// Reads the next bytes of a body that runs to the reader's end, behind those of `bytes`.
#[tactic(auto, using(crate::proofs::PlainPieces::end_steps))]
pub(crate) fn more_to_end<R: BufRead>(
    reader: &mut Counted<R>,
    limit: u64,
    room: usize,
    mut bytes: Vec<u8>,
) -> Result<Piece, MessageFault>
    requires some_room { length bytes.items < room }
    ensures more { GivesMore bytes.items Rest.ToEnd (R.remaining (inner_of reader.old))
        (R.remaining (inner_of reader.new)) result }
    ensures step { IfOk result (StepsOn bytes.items Rest.ToEnd) }
    ensures fits { IfOk result (λ piece. length piece.bytes.items ≤ room) }
    ensures some { IfOk result (λ piece.
        piece.is_last ≡ false → length bytes.items < length piece.bytes.items) }
    ensures last { IfOk result (λ piece. piece.is_last ≡ true
        → IsAtItsEnd piece.rest (R.remaining (inner_of reader.old))
        (R.remaining (inner_of reader.new))) }
    ensures prompt { IfOk result (λ piece. is_ended piece.rest ≡ true → piece.is_last ≡ true) }
    ensures within { ReadsWithin limit result reader.old reader.new }
    ensures goes_on { calls_of reader.old ≤ calls_of reader.new }
{
    let free = room - bytes.len();
    let count = read_some(reader, limit, free, &mut bytes)?;
    Ok(Piece {
        bytes,
        rest: Rest::ToEnd,
        is_last: count == 0,
    })
}
