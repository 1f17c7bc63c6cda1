// The head of a request, in its bytes.
ghost use Rattle.std.specs.Prelude.{◌≡◌, ◌≤◌, ◌⊎◌, length, IfSome, IfOk, IfErr, IsNone, IsErrOf};
ghost use Rattle.httparse.specs.Grammar.{RequestHead as GrammarHead};
ghost use Rattle.message_reading.specs.HeadBytes.{line_ends};
ghost use Rattle.message_reading.specs.declared.fault.Fault.TheVariants.{Malformed};
ghost use Rattle.message_reading.specs.WholeHeads.{AreRequestParts, HasNoWholeRequest, IsWholeRequest, request_head};

use crate::fault::{Fault, MessageFault};
use crate::head_lines::{MOST_LINES, lines_at};
use crate::head_parts::HeadParts;
use httparse::Status;
use httparse::spans::{EMPTY_HEADER_SPAN, HeaderSpan, RequestSpans, parse_request as find_request};
use message_parts::{HeadText, Headers, Method, TextPiece};
use std::alloc::{AllocError, Global};

/// The head of a request: its first line and the lines behind it.
#[derive(Drop)]
pub struct RequestHead {
    pub method: Method,
    /// The target as it was sent.
    pub target: TextPiece,
    /// The minor version: 0 for `HTTP/1.0` and 1 for `HTTP/1.1`.
    pub minor: u8,
    pub lines: Headers,
}

impl HeadParts for RequestSpans {
    ghost use Rattle.message_reading.specs.WholeHeads.{AreRequestParts, HasNoRequestOf};

    ghost are_of = { AreRequestParts };

    ghost has_none = { HasNoRequestOf };

    #[inline(always)]
    fn find(shown: &[u8], spans: &mut [HeaderSpan]) -> Option<(RequestSpans, usize)> {
        match find_request(shown, spans) {
            Ok(Status::Complete(found)) => Some((found, found.len)),
            _ => None,
        }
    }
}

// The parts of a request head that is all of `text`.
fn whole_request(text: &[u8], spans: &mut [HeaderSpan]) -> Option<RequestSpans>
    ensures parts { IfSome result (λ parts. AreRequestParts parts spans.new text.now) }
    ensures none { IsNone result → (h : GrammarHead) → IsWholeRequest text.now h
        → length h.fields ≤ length spans.old → ⊥ }
{
    match find_request(text, spans) {
        Ok(Status::Complete(found)) if found.len == text.len() => Some(found),
        _ => None,
    }
}

/// The head that was found in `text`, where the spans cover its lines. They lie in these bytes,
/// which aren't copied.
pub(crate) fn head_at(
    alloc: Global,
    text: Vec<u8>,
    found: RequestSpans,
    spans: &[HeaderSpan],
) -> Result<RequestHead, AllocError>
    requires { AreRequestParts found spans.now text.items }
    ensures { IfOk result (λ head.
        (h : GrammarHead) × IsWholeRequest text.items h × (head ≡ request_head h)) }
{
    let kept = HeadText::new(alloc, text)?;
    let method = Method::new(kept.piece(found.method.start, found.method.end)?);
    let target = TextPiece::new(kept.piece(found.path.start, found.path.end)?);
    let lines = lines_at(alloc, &kept, &spans[..found.headers])?;
    Ok(RequestHead {
        method,
        target,
        minor: found.version,
        lines,
    })
}

// The same as `parse_request`, with room for as many lines as a head may have.
#[tactic(auto, using(crate::proofs::LineCounts::request_lines))]
#[cold]
#[inline(never)]
fn parse_long(alloc: Global, text: Vec<u8>) -> Result<RequestHead, MessageFault>
    requires { line_ends text.items ≤ 102 }
    ensures head { IfOk result (λ head.
        (h : GrammarHead) × IsWholeRequest text.items h × (head ≡ request_head h)) }
    ensures malformed { IsErrOf result (MessageFault.Bytes Malformed)
        → HasNoWholeRequest text.items }
    ensures faults { IfErr result (λ fault.
        (fault ≡ MessageFault.Memory) ⊎ (fault ≡ MessageFault.Bytes Malformed)) }
{
    let mut spans = [EMPTY_HEADER_SPAN; MOST_LINES];
    match whole_request(&text, &mut spans) {
        Some(found) => Ok(head_at(alloc, text, found, &spans)?),
        None => Err(MessageFault::Bytes(Fault::Malformed)),
    }
}

/// The head that the bytes are, which have at most 102 lines, the first and the empty one among
/// them, but for the empty ones in front. Its lines lie in these bytes, which aren't copied.
///
/// `Malformed` where they are no head and nothing else, `Memory` where a growth was refused.
#[cold]
#[inline(never)]
pub(crate) fn parse_request(
    alloc: Global,
    text: Vec<u8>,
    spans: &mut [HeaderSpan],
) -> Result<RequestHead, MessageFault>
    requires { line_ends text.items ≤ 102 }
    ensures head { IfOk result (λ head.
        (h : GrammarHead) × IsWholeRequest text.items h × (head ≡ request_head h)) }
    ensures malformed { IsErrOf result (MessageFault.Bytes Malformed)
        → HasNoWholeRequest text.items }
    ensures faults { IfErr result (λ fault.
        (fault ≡ MessageFault.Memory) ⊎ (fault ≡ MessageFault.Bytes Malformed)) }
{
    match whole_request(&text, spans) {
        Some(found) => Ok(head_at(alloc, text, found, spans)?),
        None => parse_long(alloc, text),
    }
}
