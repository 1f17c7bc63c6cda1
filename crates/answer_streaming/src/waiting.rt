// Writes whose time is taken.
ghost use Rattle.std.specs.Prelude.{◌≡◌, ◌≤◌, ℕ, length, take, IfOk, OnOk, OnErr};
ghost use Rattle.counted_io.specs.Causes.{IsWriteCause};
ghost use Rattle.counted_io.specs.Counted.{calls_of, failures_of};
ghost use Rattle.counted_io.specs.Effects.{Wrote};
ghost use Rattle.message_text.specs.Answer.{front_text};
ghost use Rattle.answer_streaming.specs.Texts.{Takes, behind, opening_text, piece_text};
ghost use Rattle.answer_streaming.specs.Waits.{IsLook, WaitsOnce, patient};

use crate::delimiting::{Delimiting, write_piece};
use crate::head::{Head, write_opening};
use crate::progress::Progress;
use clocks::{Clock, MonotonicClock};
use counted_io::{Counted, WriteFault};
use limiter_core::Outcome;
use std::io::Write;

/// The longest wait for a client, in nanoseconds, whose answer's time is measured.
const MOST_WAIT: u64 = 100_000_000;

/// Returns the outcome of a body that was read to its end, if the client was waited for so long in
/// all. A success isn't measured if the client was slow, because its permit then stood for the
/// client and not for the backend.
pub(crate) fn patient(outcome: Outcome, waited: u64) -> Outcome
    ensures { result ≡ patient outcome waited }
{
    match outcome {
        Outcome::Success if waited > MOST_WAIT => Outcome::Ignored,
        Outcome::Success | Outcome::Ignored | Outcome::Dropped => outcome,
    }
}

/// Looks at the clock once it is known how far an answer was passed on.
fn look<C, T, R, W>(
    looks: &mut MonotonicClock<'_, C, T>,
    reader: &Counted<R>,
    writer: &Counted<W>,
) -> u64
where
    C: Clock,
    T: From<Progress> + Drop,
    ensures { IsLook T.from_gives (calls_of reader.now) (calls_of writer.now) result
        looks.old looks.new }
{
    let known = T::from(Progress::now(reader, writer, None));
    looks.look_knowing(&known)
}

/// Writes and flushes some bytes of a payload, and adds the nanoseconds that this took to those
/// that the client was waited for. It returns what is to be written behind them.
pub(crate) fn write_timed<C, T, R, W>(
    looks: &mut MonotonicClock<'_, C, T>,
    waited: &mut u64,
    reader: &Counted<R>,
    writer: &mut Counted<W>,
    delimiting: Delimiting,
    piece: &[u8],
) -> Result<Delimiting, WriteFault>
where
    C: Clock,
    T: From<Progress> + Drop,
    W: Write,
    requires room { Takes delimiting (length piece.now) }
    ensures all { OnOk result (Wrote W.contents writer.old writer.new
        (piece_text delimiting piece.now)) }
    ensures after { IfOk result (λ after. after ≡ behind delimiting (length piece.now)) }
    ensures unfailing { OnOk result (failures_of writer.new ≡ failures_of writer.old) }
    ensures front { OnErr result ((count : ℕ) × Wrote W.contents writer.old writer.new
        (take count (piece_text delimiting piece.now))) }
    ensures failed { OnErr result (IsWriteCause writer.old writer.new) }
    ensures waits { WaitsOnce T.from_gives (calls_of writer.old) (calls_of writer.new)
        waited.old waited.new looks.old looks.new }
{
    let before = look(looks, reader, writer);
    let written = write_piece(writer, delimiting, piece);
    let after = look(looks, reader, writer);
    *waited = waited.saturating_add(after.saturating_sub(before));
    written
}

/// Writes and flushes the head of an answer and the first piece of its payload, and adds the
/// nanoseconds that this took to those that the client was waited for. It returns what is to be
/// written behind them.
pub(crate) fn open_timed<C, T, R, W>(
    looks: &mut MonotonicClock<'_, C, T>,
    waited: &mut u64,
    reader: &Counted<R>,
    writer: &mut Counted<W>,
    head: Head<'_>,
    first: &[u8],
) -> Result<Delimiting, WriteFault>
where
    C: Clock,
    T: From<Progress> + Drop,
    W: Write,
    requires three_digits { (100 ≤ head.status) × (head.status ≤ 999) }
    requires room { Takes head.delimiting (length first.now) }
    ensures all { OnOk result (Wrote W.contents writer.old writer.new
        (opening_text head.entry.delimiting head.entry.persistence
        (front_text head.entry.status head.entry.headers.now) first.now)) }
    ensures after { IfOk result (λ after.
        after ≡ behind head.entry.delimiting (length first.now)) }
    ensures unfailing { OnOk result (failures_of writer.new ≡ failures_of writer.old) }
    ensures front { OnErr result ((count : ℕ) × Wrote W.contents writer.old writer.new
        (take count (opening_text head.entry.delimiting head.entry.persistence
        (front_text head.entry.status head.entry.headers.now) first.now))) }
    ensures failed { OnErr result (IsWriteCause writer.old writer.new) }
    ensures waits { WaitsOnce T.from_gives (calls_of writer.old) (calls_of writer.new)
        waited.old waited.new looks.old looks.new }
{
    let before = look(looks, reader, writer);
    let written = write_opening(writer, head, first);
    let after = look(looks, reader, writer);
    *waited = waited.saturating_add(after.saturating_sub(before));
    written
}
