// The header lines of an answer.
ghost use Rattle.std.specs.Prelude.{◌≡◌, IfOk, codes, decimal};
ghost use Rattle.message_text.specs.Line.{line_of};
ghost use Rattle.operator_serving.specs.Telling.{lines_of, media_of};

use message_parts::{Header, Headers};
use operator_calls::{Call, Look, Refusal};
use std::alloc::{AllocError, Global};

/// The header lines of what is told of a call or a refusal, and of a text's length where that is
/// to be told by a line of its own. It fails only out of memory.
pub(crate) fn make_lines(
    alloc: Global,
    call: &Result<Call, Refusal>,
    length: Option<usize>,
) -> Result<Headers, AllocError>
    ensures { IfOk result (λ lines. lines ≡ lines_of call.now length) }
{
    let mut lines = Vec::new(alloc);
    lines.push(line(alloc, "Content-Type", media(call))?)?;
    lines.push(line(alloc, "Cache-Control", "no-store")?)?;
    if let Err(Refusal::OtherMethod(verb)) = call {
        lines.push(line(alloc, "Allow", verb.allowed())?)?;
    }
    if let Some(length) = length {
        lines.push(length_line(alloc, length)?)?;
    }
    Ok(Headers::new(lines))
}

/// The line that tells a length, in bytes. It fails only out of memory.
fn length_line(alloc: Global, length: usize) -> Result<Header, AllocError>
    ensures { IfOk result (λ line. line ≡ line_of (codes "Content-Length") (decimal length)) }
{
    let digits = format!(in alloc; "{length}")?;
    line(alloc, "Content-Length", &digits)
}

/// The type of what is told.
fn media(call: &Result<Call, Refusal>) -> &'static str
    ensures { result.now ≡ media_of call.now }
{
    match call {
        Ok(Call::Look(Look::Page)) => "text/html; charset=utf-8",
        Ok(Call::Look(Look::Metrics)) => "text/plain; version=0.0.4; charset=utf-8",
        _ => "text/plain; charset=utf-8",
    }
}

/// A header line. It fails only out of memory.
fn line(alloc: Global, name: &str, value: &str) -> Result<Header, AllocError>
    ensures { IfOk result (λ line. line ≡ line_of name.now value.now) }
{
    Header::new(alloc, name.as_bytes(), value.as_bytes())
}
