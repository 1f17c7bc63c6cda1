// A piece that is read, and the permit that it may end.
ghost use Rattle.std.specs.Prelude.{◌≡◌, ◌<◌};
ghost use Rattle.counted_io.specs.Counted.{calls_of, inner_of};
ghost use Rattle.limiter_core.specs.declared.event.Outcome.TheVariants.{Dropped};
ghost use Rattle.answer_streaming.specs.Permits.{IsEnded, EndsBy};
ghost use Rattle.answer_streaming.specs.Taken.{IsTaken, IsTakenWell};

use crate::progress::Progress;
use crate::source::Source;
use body_pieces::{Piece, next_piece};
use clocks::{Clock, MonotonicClock};
use counted_io::Counted;
use gate_port::GatePort;
use lent_io::ReadAhead;
use limiter_core::Outcome;
use message_reading::MessageFault;
use std::io::BufRead;

/// How many reads a piece may take.
const MOST_READS: u64 = 100_000_000;

/// What became of a permit as a piece was read.
pub(crate) enum Taken<M> {
    /// It is held: more is to be read behind the piece.
    More(M, Piece),
    /// It was ended: the piece is the last one.
    Last(Piece),
    /// It was ended: nothing more can be read.
    Broken(MessageFault),
}

/// What is read next, and the outcome of the permit if that is the last piece.
#[derive(Drop)]
pub(crate) struct Due {
    pub(crate) source: Source,
    pub(crate) outcome: Outcome,
}

/// Ends a permit after what was read and written so far.
pub(crate) fn end_permit<P, C, T, R, W>(
    port: &mut P,
    permit: P::Permit,
    looks: &mut MonotonicClock<'_, C, T>,
    outcome: Outcome,
    reader: &Counted<R>,
    writer: &Counted<W>,
)
where
    P: GatePort,
    C: Clock,
    T: From<Progress> + Drop,
    ensures { IsEnded T.from_gives (P.facts permit) outcome
        (calls_of reader.now) (calls_of writer.now)
        (record { shown = P.shown port.old; known = P.known port.old; looks = looks.old })
        (record { shown = P.shown port.new; known = P.known port.new; looks = looks.new }) }
{
    let known = T::from(Progress::now(reader, writer, Some(outcome)));
    let now = looks.look_knowing(&known);
    let _receipt = port.end(permit, outcome, now);
}

/// Reads a piece, and ends the permit if it is the last one, with this outcome, or if there is
/// none. It can't write to the client, so nothing is written between the last read and the end of
/// the permit.
pub(crate) fn take_piece<P, C, T, R, W>(
    port: &mut P,
    permit: P::Permit,
    looks: &mut MonotonicClock<'_, C, T>,
    reader: &mut Counted<R>,
    writer: &Counted<W>,
    due: Due,
) -> Taken<P::Permit>
where
    P: GatePort,
    C: Clock,
    T: From<Progress> + Drop,
    R: BufRead + ReadAhead,
    requires some_room { 0 < due.source.room }
    ensures taken { IsTaken due.source.rest (R.remaining (inner_of reader.old))
        (R.remaining (inner_of reader.new)) result }
    ensures well { IsTakenWell result reader.old reader.new }
    ensures ended { EndsBy T.from_gives P.facts permit due.outcome
        (calls_of reader.new) (calls_of writer.now)
        (record { shown = P.shown port.old; known = P.known port.old; looks = looks.old })
        (record { shown = P.shown port.new; known = P.known port.new; looks = looks.new })
        result }
{
    let limit = reader.calls().saturating_add(MOST_READS);
    let Due { source, outcome } = due;
    let Source {
        alloc,
        rest,
        room,
        bytes,
    } = source;
    match next_piece(alloc, reader, limit, rest, room, bytes) {
        Ok(piece) => {
            if !piece.is_last {
                return Taken::More(permit, piece);
            }
            end_permit(port, permit, looks, outcome, reader, writer);
            Taken::Last(piece)
        }
        Err(fault) => {
            end_permit(port, permit, looks, Outcome::Dropped, reader, writer);
            Taken::Broken(fault)
        }
    }
}
