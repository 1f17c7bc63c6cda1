// The head of a response, in its bytes.
ghost use Rattle.std.specs.Prelude.{◌≡◌, ◌≤◌, ◌⊎◌, length, IfSome, IfOk, IfErr, IsNone, IsErrOf};
ghost use Rattle.httparse.specs.Grammar.{ResponseHead as GrammarHead};
ghost use Rattle.message_reading.specs.HeadBytes.{line_ends};
ghost use Rattle.message_reading.specs.declared.fault.Fault.TheVariants.{Malformed};
ghost use Rattle.message_reading.specs.WholeHeads.{AreResponseParts, HasNoWholeResponse, IsWholeResponse, response_head};

use crate::fault::{Fault, MessageFault};
use crate::head_lines::{MOST_LINES, lines_at};
use crate::head_parts::HeadParts;
use httparse::Status;
use httparse::spans::{
    EMPTY_HEADER_SPAN, HeaderSpan, ResponseSpans, parse_response as find_response,
};
use message_parts::{HeadText, Headers};
use std::alloc::{AllocError, Global};

/// The head of a response: its status and the lines behind it.
#[derive(Drop)]
pub struct ResponseHead {
    /// The three digits of its status, from 0 to 999.
    pub status: u16,
    /// The minor version: 0 for `HTTP/1.0` and 1 for `HTTP/1.1`.
    pub minor: u8,
    /// How many interim heads came before it, at most 16.
    pub interim: u8,
    pub lines: Headers,
}

impl HeadParts for ResponseSpans {
    ghost use Rattle.message_reading.specs.WholeHeads.{AreResponseParts, HasNoResponseOf};

    ghost are_of = { AreResponseParts };

    ghost has_none = { HasNoResponseOf };

    #[inline(always)]
    fn find(shown: &[u8], spans: &mut [HeaderSpan]) -> Option<(ResponseSpans, usize)> {
        match find_response(shown, spans) {
            Ok(Status::Complete(found)) => Some((found, found.len)),
            _ => None,
        }
    }
}

// The parts of a response head that is all of `text`.
fn whole_response(text: &[u8], spans: &mut [HeaderSpan]) -> Option<ResponseSpans>
    ensures parts { IfSome result (λ parts. AreResponseParts parts spans.new text.now) }
    ensures none { IsNone result → (h : GrammarHead) → IsWholeResponse text.now h
        → length h.fields ≤ length spans.old → ⊥ }
{
    match find_response(text, spans) {
        Ok(Status::Complete(found)) if found.len == text.len() => Some(found),
        _ => None,
    }
}

/// The head that was found in `text`, where the spans cover its lines. They lie in these bytes,
/// which aren't copied.
pub(crate) fn head_at(
    alloc: Global,
    text: Vec<u8>,
    found: ResponseSpans,
    spans: &[HeaderSpan],
) -> Result<ResponseHead, AllocError>
    requires { AreResponseParts found spans.now text.items }
    ensures head { IfOk result (λ head.
        (h : GrammarHead) × IsWholeResponse text.items h × (head ≡ response_head h)) }
    ensures three_digits { IfOk result (λ head. head.status ≤ 999) }
{
    let kept = HeadText::new(alloc, text)?;
    let lines = lines_at(alloc, &kept, &spans[..found.headers])?;
    Ok(ResponseHead {
        status: found.code,
        minor: found.version,
        interim: 0,
        lines,
    })
}

// The same as `parse_response`, with room for as many lines as a head may have.
#[tactic(auto, using(crate::proofs::LineCounts::response_lines))]
#[cold]
#[inline(never)]
fn parse_long(alloc: Global, text: Vec<u8>) -> Result<ResponseHead, MessageFault>
    requires { line_ends text.items ≤ 102 }
    ensures head { IfOk result (λ head.
        (h : GrammarHead) × IsWholeResponse text.items h × (head ≡ response_head h)) }
    ensures malformed { IsErrOf result (MessageFault.Bytes Malformed)
        → HasNoWholeResponse text.items }
    ensures faults { IfErr result (λ fault.
        (fault ≡ MessageFault.Memory) ⊎ (fault ≡ MessageFault.Bytes Malformed)) }
    ensures three_digits { IfOk result (λ head. head.status ≤ 999) }
{
    let mut spans = [EMPTY_HEADER_SPAN; MOST_LINES];
    match whole_response(&text, &mut spans) {
        Some(found) => Ok(head_at(alloc, text, found, &spans)?),
        None => Err(MessageFault::Bytes(Fault::Malformed)),
    }
}

/// The head that the bytes are, which have at most 102 lines, the first and the empty one among
/// them, but for the empty ones in front. Its lines lie in these bytes, which aren't copied.
///
/// `Malformed` where they are no head and nothing else, `Memory` where a growth was refused.
#[cold]
#[inline(never)]
pub(crate) fn parse_response(
    alloc: Global,
    text: Vec<u8>,
    spans: &mut [HeaderSpan],
) -> Result<ResponseHead, MessageFault>
    requires { line_ends text.items ≤ 102 }
    ensures head { IfOk result (λ head.
        (h : GrammarHead) × IsWholeResponse text.items h × (head ≡ response_head h)) }
    ensures malformed { IsErrOf result (MessageFault.Bytes Malformed)
        → HasNoWholeResponse text.items }
    ensures faults { IfErr result (λ fault.
        (fault ≡ MessageFault.Memory) ⊎ (fault ≡ MessageFault.Bytes Malformed)) }
    ensures three_digits { IfOk result (λ head. head.status ≤ 999) }
{
    match whole_response(&text, spans) {
        Some(found) => Ok(head_at(alloc, text, found, spans)?),
        None => parse_long(alloc, text),
    }
}
