// A body on its way to the client.
ghost use Rattle.std.specs.Prelude.{◌≡◌, ◌≤◌, ◌<◌, ℕ, length, take, true, OnOk, OnErr};
ghost use Rattle.counted_io.specs.Causes.{IsWriteCause};
ghost use Rattle.counted_io.specs.Counted.{calls_of, failures_of, inner_of, is_flushed};
ghost use Rattle.counted_io.specs.Effects.{Wrote};
ghost use Rattle.message_text.specs.Answer.{front_text};
ghost use Rattle.answer_streaming.specs.Passed.{HasCause, IsStreamed};
ghost use Rattle.answer_streaming.specs.Permits.{IsEndedAfter, outcome_streamed};
ghost use Rattle.answer_streaming.specs.Texts.{Agrees, IsDone, Takes, behind, last_text, opening_text};

use crate::delimiting::{Delimiting, finish, write_piece};
use crate::ended::End;
use crate::head::Head;
use crate::progress::Progress;
use crate::source::Source;
use crate::taken::{Due, Taken, end_permit, take_piece};
use crate::waiting::{open_timed, patient, write_timed};
use clocks::{Clock, MonotonicClock};
use counted_io::{Counted, WriteFault};
use gate_port::GatePort;
use lent_io::ReadAhead;
use limiter_core::Outcome;
use message_reading::MessageFault;
use std::io::{BufRead, Write};

/// How many pieces a body may have: more than there will be.
const MOST_PIECES: u64 = 1 << 62;

/// An answer of which the first piece was read, and nothing was written.
#[derive(Drop)]
pub(crate) struct Begun<'a> {
    pub(crate) head: Head<'a>,
    pub(crate) outcome: Outcome,
    // What is to be read behind the first piece, which is in its memory.
    pub(crate) source: Source,
}

/// Writes and flushes the last piece of a body, and what ends it.
fn write_last<W: Write>(
    writer: &mut Counted<W>,
    delimiting: Delimiting,
    piece: &[u8],
) -> Result<(), WriteFault>
    requires room { Takes delimiting (length piece.now) }
    requires done { IsDone (behind delimiting (length piece.now)) }
    ensures all { OnOk result (Wrote W.contents writer.old writer.new
        (last_text delimiting piece.now)) }
    ensures flushed { OnOk result (is_flushed writer.new ≡ true) }
    ensures unfailing { OnOk result (failures_of writer.new ≡ failures_of writer.old) }
    ensures front { OnErr result ((count : ℕ) × Wrote W.contents writer.old writer.new
        (take count (last_text delimiting piece.now))) }
    ensures failed { OnErr result (IsWriteCause writer.old writer.new) }
{
    let behind = write_piece(writer, delimiting, piece)?;
    finish(writer, behind)
}

/// Writes the head of an answer with the first piece of its body, and then its body as it arrives.
/// Each piece is flushed before more is read.
pub(crate) fn stream<P, C, T, R, W>(
    port: &mut P,
    permit: P::Permit,
    looks: &mut MonotonicClock<'_, C, T>,
    reader: &mut Counted<R>,
    writer: &mut Counted<W>,
    begun: Begun<'_>,
) -> End
where
    P: GatePort,
    C: Clock,
    T: From<Progress> + Drop,
    R: BufRead + ReadAhead,
    W: Write,
    requires three_digits { (100 ≤ begun.head.status) × (begun.head.status ≤ 999) }
    requires some_room { 0 < begun.source.room }
    requires takes { Takes begun.head.delimiting (length begun.source.bytes.items) }
    requires agree { Agrees begun.source.rest
        (behind begun.head.delimiting (length begun.source.bytes.items)) }
    ensures streamed { IsStreamed begun.entry.source.rest begun.entry.head.delimiting
        (opening_text begun.entry.head.delimiting begun.entry.head.persistence
        (front_text begun.entry.head.status begun.entry.head.headers.now)
        begun.entry.source.bytes.items)
        (R.remaining (inner_of reader.old)) (R.remaining (inner_of reader.new))
        (W.contents (inner_of writer.old)) (W.contents (inner_of writer.new)) result }
    ensures cause { HasCause result reader.old reader.new writer.old writer.new }
    ensures ended { IsEndedAfter T.from_gives (P.facts permit)
        (outcome_streamed begun.entry.outcome result) (calls_of reader.new) (calls_of writer.old)
        (record { shown = P.shown port.old; known = P.known port.old; looks = looks.old })
        (record { shown = P.shown port.new; known = P.known port.new; looks = looks.new }) }
{
    let (head, outcome, mut source) = (begun.head, begun.outcome, begun.source);
    let mut waited = 0;
    let opened = open_timed(looks, &mut waited, reader, writer, head, &source.bytes);
    let Ok(mut delimiting) = opened else {
        end_permit(port, permit, looks, Outcome::Ignored, reader, writer);
        return End::Left;
    };
    let mut held = permit;
    for _ in 0..MOST_PIECES {
        let (alloc, room) = (source.alloc, source.room);
        let due = Due {
            source,
            outcome: patient(outcome, waited),
        };
        match take_piece(port, held, looks, reader, writer, due) {
            Taken::Broken(fault) => return End::Broken(fault),
            Taken::Last(last) => {
                let Ok(()) = write_last(writer, delimiting, &last.bytes) else {
                    return End::Unwritten;
                };
                return End::Whole;
            }
            Taken::More(still, piece) => {
                let (on, bytes) = (delimiting, &piece.bytes);
                let written = write_timed(looks, &mut waited, reader, writer, on, bytes);
                let Ok(behind) = written else {
                    end_permit(port, still, looks, Outcome::Ignored, reader, writer);
                    return End::Left;
                };
                held = still;
                delimiting = behind;
                source = Source {
                    alloc,
                    rest: piece.rest,
                    room,
                    bytes: piece.bytes,
                };
            }
        }
    }
    end_permit(port, held, looks, Outcome::Dropped, reader, writer);
    End::Broken(MessageFault::TurnLimit)
}
