// The lines of a head, in its bytes.
ghost use Rattle.std.specs.Prelude.{◌≡◌, IfOk, length, map, All};
ghost use Rattle.httparse.specs.Spans.{IsHeaderWithin};
ghost use Rattle.message_reading.specs.WholeHeads.{line_at};

use httparse::spans::HeaderSpan;
use message_parts::{HeadText, Header, Headers};
use std::alloc::{AllocError, Global};

/// The greatest number of lines between the first one and the empty one.
pub(crate) const MOST_LINES: usize = 100;

/// The number of them that a head has at most, but for a few heads.
pub(crate) const FEW_LINES: usize = 16;

// The line that the spans cover.
#[inline(always)]
fn line_at(text: &HeadText, span: HeaderSpan) -> Result<Header, AllocError>
    requires { IsHeaderWithin (length text.now) span }
    ensures { IfOk result (λ line. line ≡ line_at text.now span) }
{
    let (name, value) = (span.name, span.value);
    text.line(name.start..name.end, value.start..value.end)
}

// The lines that the spans cover, in their order.
pub(crate) fn lines_at(
    alloc: Global,
    text: &HeadText,
    spans: &[HeaderSpan],
) -> Result<Headers, AllocError>
    requires { All (IsHeaderWithin (length text.now)) spans.now }
    ensures { IfOk result (λ lines. lines ≡ map (line_at text.now) spans.now) }
{
    let mut lines = Vec::with_capacity(alloc, spans.len())?;
    for at in 0..spans.len() {
        lines.push_reserved(line_at(text, spans[at])?);
    }
    Ok(Headers::new(lines))
}
