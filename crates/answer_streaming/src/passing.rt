// An answer that is passed on.
ghost use Rattle.std.specs.Prelude.{◌≡◌, ◌≤◌, ◌<◌};
ghost use Rattle.counted_io.specs.Counted.{calls_of, inner_of};
ghost use Rattle.message_text.specs.Answer.{front_text};
ghost use Rattle.answer_streaming.specs.Passed.{HasPassedCause, IsPassed};
ghost use Rattle.answer_streaming.specs.Permits.{IsEndedAfter, outcome_of};
ghost use Rattle.answer_streaming.specs.Texts.{delimited, head_text};

use crate::delimiting::delimiting_for;
use crate::ended::Passed;
use crate::head::Head;
use crate::progress::Progress;
use crate::source::Source;
use crate::streaming::{Begun, stream};
use crate::taken::{Due, Taken, take_piece};
use clocks::{Clock, MonotonicClock};
use counted_io::Counted;
use gate_port::GatePort;
use lent_io::ReadAhead;
use limiter_core::Outcome;
use message_parts::Header;
use message_text::Persistence;
use std::io::{BufRead, Write};

/// An answer that is to be streamed.
#[derive(Drop)]
pub struct StreamedAnswer<'a> {
    /// Its status, from 100 to 999.
    pub status: u16,
    /// The header lines of the response as they came. Those that say how its body ends and whether
    /// the connection does aren't passed on.
    pub headers: &'a [Header],
    /// Whether the client speaks HTTP/1.0.
    pub is_old: bool,
    /// Whether the connection goes on after it. It doesn't if the body ends with the connection.
    pub persistence: Persistence,
    /// The outcome of its permit if the body is read to its end.
    pub outcome: Outcome,
    /// What is to be read of the body.
    pub source: Source,
}

/// Passes an answer on to the client: writes its head, and then its body as it arrives. If the
/// whole body arrives before anything has to be written, nothing is: the caller gets the body.
///
/// The permit is ended once: as the body is read to its end or can't be read further, before
/// anything more is written, or else as the writer fails. If the client was waited for longer than
/// 100 milliseconds in all by then, a success is ended as ignored.
#[tactic(auto, using(crate::proofs::OnTheWay::piece_steps))]
pub fn pass_on<P, C, T, R, W>(
    port: &mut P,
    permit: P::Permit,
    looks: &mut MonotonicClock<'_, C, T>,
    reader: &mut Counted<R>,
    writer: &mut Counted<W>,
    answer: StreamedAnswer<'_>,
) -> Passed
where
    P: GatePort,
    C: Clock,
    T: From<Progress> + Drop,
    R: BufRead + ReadAhead,
    W: Write,
    requires three_digits { (100 ≤ answer.status) × (answer.status ≤ 999) }
    requires some_room { 0 < answer.source.room }
    ensures passed { IsPassed answer.entry.source.rest
        (delimited answer.entry.source.rest answer.entry.is_old)
        (head_text (delimited answer.entry.source.rest answer.entry.is_old)
        answer.entry.persistence (front_text answer.entry.status answer.entry.headers.now))
        (R.remaining (inner_of reader.old)) (R.remaining (inner_of reader.new))
        (W.contents (inner_of writer.old)) (W.contents (inner_of writer.new)) result }
    ensures cause { HasPassedCause result reader.old reader.new writer.old writer.new }
    ensures ended { IsEndedAfter T.from_gives (P.facts permit)
        (outcome_of answer.entry.outcome result) (calls_of reader.new) (calls_of writer.old)
        (record { shown = P.shown port.old; known = P.known port.old; looks = looks.old })
        (record { shown = P.shown port.new; known = P.known port.new; looks = looks.new }) }
{
    let StreamedAnswer {
        status,
        headers,
        is_old,
        persistence,
        outcome,
        source,
    } = answer;
    let (alloc, rest, room) = (source.alloc, source.rest, source.room);
    match take_piece(port, permit, looks, reader, writer, Due { source, outcome }) {
        Taken::Last(piece) => Passed::Read(piece.bytes),
        Taken::Broken(fault) => Passed::Unread(fault),
        Taken::More(held, first) => {
            let delimiting = delimiting_for(rest, is_old);
            let head = Head {
                status,
                headers,
                delimiting,
                persistence,
            };
            let source = Source {
                alloc,
                rest: first.rest,
                room,
                bytes: first.bytes,
            };
            let begun = Begun {
                head,
                outcome,
                source,
            };
            Passed::Streamed(stream(port, held, looks, reader, writer, begun))
        }
    }
}
