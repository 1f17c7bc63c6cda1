// How the body of a message is delimited, and the checks of a head before that.
ghost use Rattle.std.specs.Prelude.{◌≡◌, codes};
ghost use Rattle.message_fields.specs.Lines.{count_named};
ghost use Rattle.message_fields.specs.Lengths.{length_within};
ghost use Rattle.message_reading.specs.Framing.{coded, hosts_fit, is_refused, lengths_of, sized};
ghost use Rattle.message_reading.specs.Framing.{request_framing_within, response_framing_within};

use crate::fault::Fault;
use crate::request_head::RequestHead;
use crate::response_head::ResponseHead;
use message_fields::{
    LengthFault, count_codings_and_lengths, count_hosts, is_chunked_alone, is_target, length_of,
    length_of_one,
};
use message_parts::{Header, Method};

/// How the body of a message is delimited.
#[derive(Clone, Copy, Drop)]
pub enum Framing {
    /// There is no body.
    Bodiless,
    /// The body has so many bytes, at most the number that was given as the greatest one.
    Sized(usize),
    /// The body comes in chunks.
    Chunked,
    /// The body runs to the end of the connection.
    ToEnd,
}

// By a coding: `chunked` alone, in a version that has it.
fn coded(minor: u8, lines: &[Header]) -> Result<Framing, Fault>
    ensures { result ≡ coded minor lines.now }
{
    if minor == 0 {
        return Err(Fault::Malformed);
    }
    if is_chunked_alone(lines) {
        Ok(Framing::Chunked)
    } else {
        Err(Fault::Coding)
    }
}

// The length that so many lines give.
fn length_by(lines: &[Header], lengths: usize, most: u64) -> Result<usize, LengthFault>
    requires { lengths ≡ count_named (codes "content-length") lines.now }
    ensures { result ≡ length_within most lines.now }
{
    if lengths == 1 {
        length_of_one(lines, most)
    } else {
        length_of(lines, most)
    }
}

// By a length, which so many lines tell.
fn sized(lines: &[Header], lengths: usize, most: u64) -> Result<Framing, Fault>
    requires { lengths ≡ count_named (codes "content-length") lines.now }
    ensures { result ≡ sized most lines.now }
{
    match length_by(lines, lengths, most) {
        Ok(size) => Ok(Framing::Sized(size)),
        Err(LengthFault::TooLarge) => Err(Fault::BodyTooLarge),
        Err(LengthFault::Malformed) => Err(Fault::Malformed),
    }
}

// By the lines of a head; `without` where they say nothing.
fn lengths_of(minor: u8, lines: &[Header], without: Framing, most: u64) -> Result<Framing, Fault>
    ensures { result ≡ lengths_of most minor lines.now without }
{
    let (codings, lengths) = count_codings_and_lengths(lines);
    if codings > 0 && lengths > 0 {
        return Err(Fault::BothLengths);
    }
    if codings > 0 {
        return coded(minor, lines);
    }
    if lengths > 0 {
        return sized(lines, lengths, most);
    }
    Ok(without)
}

// The method isn't served.
fn is_refused(method: &[u8]) -> bool
    ensures { result ≡ is_refused method.now }
{
    method == b"CONNECT".as_slice() || method == b"TRACE".as_slice()
}

// There are as many lines of Host as the version wants.
fn hosts_fit(minor: u8, hosts: usize) -> bool
    ensures { result ≡ hosts_fit minor hosts }
{
    hosts == 1 || (hosts == 0 && minor == 0)
}

/// Returns how the body of a request is delimited, which has at most `most` bytes, once its head
/// passes the checks.
///
/// `Method` for CONNECT and TRACE; then `Malformed` for a target that doesn't fit the method; then
/// `Malformed` for another number of Host lines than the version wants; then the faults of lengths.
pub(crate) fn frame_request(head: &RequestHead, most: u64) -> Result<Framing, Fault>
    ensures { result ≡ request_framing_within most head.now }
{
    let method = head.method.as_slice();
    let lines = head.lines.as_slice();
    if is_refused(method) {
        return Err(Fault::Method);
    }
    if !is_target(method, head.target.as_bytes()) {
        return Err(Fault::Malformed);
    }
    if !hosts_fit(head.minor, count_hosts(lines)) {
        return Err(Fault::Malformed);
    }
    lengths_of(head.minor, lines, Framing::Bodiless, most)
}

/// Returns how the body of a response to a request of this method is delimited, which has at most
/// `most` bytes.
///
/// To HEAD, and with the status 204 or 304, there is none, whatever the lines say. Otherwise the
/// faults are those of lengths: `BodyTooLarge` is a `Content-Length` above `most`. Chunks, and a
/// body that runs to the end of the connection, say no length.
pub fn frame_response(method: &Method, head: &ResponseHead, most: u64) -> Result<Framing, Fault>
    ensures { result ≡ response_framing_within most method.now head.now }
{
    let is_head = method.as_slice() == b"HEAD".as_slice();
    if is_head || head.status == 204 || head.status == 304 {
        return Ok(Framing::Bodiless);
    }
    lengths_of(head.minor, head.lines.as_slice(), Framing::ToEnd, most)
}
