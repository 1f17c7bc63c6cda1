// An answer to a call.
ghost use Rattle.std.specs.Prelude.{◌≡◌, ◌≤◌, true, false};
ghost use Rattle.counted_io.specs.Causes.{IsWriteCause};
ghost use Rattle.counted_io.specs.Effects.{Wrote};
ghost use Rattle.message_text.specs.declared.persistence.Persistence.TheVariants.{Close};
ghost use Rattle.message_text.specs.Answer.{local_text};
ghost use Rattle.operator_serving.specs.Attending.{IsAnswered, IsTold, told_length, told_text_by};
ghost use Rattle.operator_serving.specs.Memory.{refused_of};

use crate::desk::Desk;
use crate::memory::AnswerMemory;
use crate::response::OperatorResponse;
use crate::telling::{carry_out, refused, tell};
use counted_io::Counted;
use message_parts::{Headers, Method};
use message_text::{Answer, Persistence, write_local_answer};
use operator_calls::{Call, Refusal};
use std::io::Write;

/// Carries a call out at a desk and answers it, or answers a refusal; tells the status, and whether
/// the whole answer was written. Where memory is refused, that is answered, and nothing was
/// changed.
pub(crate) fn answer<D: Desk, W: Write>(
    memory: &mut AnswerMemory,
    page: &str,
    desk: &mut D,
    call: &Result<Call, Refusal>,
    method: &Method,
    writer: &mut Counted<W>,
) -> (u16, bool)
    ensures answered { IsAnswered D.rows D.shows D.does W.contents page.now call.now method.now
        desk.old desk.new writer.old writer.new (refused_of memory.old) (refused_of memory.new)
        result.0 result.1 }
    ensures broken { result.1 ≡ false → IsWriteCause writer.old writer.new }
{
    match call {
        Ok(Call::Change(change)) => {
            let Ok(lines) = memory.lines(call, None) else {
                return (500, write_local(writer, 500));
            };
            let told = carry_out(desk, change);
            (told.status(), write_told(writer, method, &lines, &told))
        }
        Ok(Call::Look(look)) => match tell(memory, page, desk, look) {
            Ok(told) => answer_told(memory, call, method, &told, writer),
            Err(_) => (500, write_local(writer, 500)),
        },
        Err(refusal) => answer_told(memory, call, method, &refused(refusal), writer),
    }
}

/// Answers with what is told of a call that changed nothing, or of a refusal: to HEAD by its lines
/// alone, which tell the length of the text.
fn answer_told<W: Write>(
    memory: &mut AnswerMemory,
    call: &Result<Call, Refusal>,
    method: &Method,
    told: &OperatorResponse<'_>,
    writer: &mut Counted<W>,
) -> (u16, bool)
    ensures told { IsTold W.contents call.now method.now told.now writer.old writer.new
        (refused_of memory.old) (refused_of memory.new) result.0 result.1 }
    ensures broken { result.1 ≡ false → IsWriteCause writer.old writer.new }
{
    let length = told_length(method, told);
    match memory.lines(call, length) {
        Ok(lines) => (told.status(), write_told(writer, method, &lines, told)),
        Err(_) => (500, write_local(writer, 500)),
    }
}

/// The length of a text that isn't written, since it was asked for by HEAD.
fn told_length(method: &Method, told: &OperatorResponse<'_>) -> Option<usize>
    ensures { result ≡ told_length method.now told.now }
{
    if method.as_slice() == b"HEAD".as_slice() {
        Some(told.as_bytes().len())
    } else {
        None
    }
}

/// Writes and flushes what is told, to a client that asked by this method; whether that was written
/// whole.
fn write_told<W: Write>(
    writer: &mut Counted<W>,
    method: &Method,
    lines: &Headers,
    told: &OperatorResponse<'_>,
) -> bool
    ensures whole { result ≡ true → Wrote W.contents writer.old writer.new
        (told_text_by method.now lines.now told.now) }
    ensures broken { result ≡ false → IsWriteCause writer.old writer.new }
{
    let answer = Answer {
        method: method.as_slice(),
        status: told.status(),
        headers: lines.as_slice(),
        body: Some(told.as_bytes()),
        persistence: Persistence::Close,
    };
    match answer.write(writer) {
        Ok(()) => true,
        Err(_) => false,
    }
}

/// Writes and flushes a status without a text; whether that was written whole.
pub(crate) fn write_local<W: Write>(writer: &mut Counted<W>, status: u16) -> bool
    requires three_digits { (100 ≤ status) × (status ≤ 999) }
    ensures whole { result ≡ true → Wrote W.contents writer.old writer.new
        (local_text Close status) }
    ensures broken { result ≡ false → IsWriteCause writer.old writer.new }
{
    match write_local_answer(writer, status, Persistence::Close) {
        Ok(()) => true,
        Err(_) => false,
    }
}
