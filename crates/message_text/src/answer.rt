// A response as it is written to the client.
ghost use Rattle.std.specs.Prelude.{◌≡◌, ◌≤◌, true, OnOk, OnErr, IfSome, codes, option_map, unwrap_or, if◌then◌else◌, [], ◌∷◌, ◌++◌};
ghost use Rattle.counted_io.specs.Counted.{failures_of, flushes_of, is_flushed};
ghost use Rattle.counted_io.specs.Count.{raised};
ghost use Rattle.counted_io.specs.Effects.{Wrote};
ghost use Rattle.counted_io.specs.Causes.{IsWriteCause};
ghost use Rattle.message_text.specs.Line.{close_lines, line_of, lines_text};
ghost use Rattle.message_text.specs.Fronts.{WroteFront};
ghost use Rattle.message_fields.specs.Lengths.{length_digits};
ghost use Rattle.message_text.specs.Forwarded.{lent};
ghost use Rattle.message_text.specs.Answer.{seen, is_bodiless, written_body, received_lines, told_lines};
ghost use Rattle.message_text.specs.Answer.{answer_text, front_text, local_text, marked_text, status_text};

use super::lines::{bytes_of, write_length, write_line, write_response_lines};
use super::number::write_decimal;
use super::persistence::{Persistence, head_end};
use super::phrase::phrase_of;
use counted_io::{Counted, WriteFault, write_all, write_and_flush};
use message_fields::length_digits;
use message_parts::Header;
use std::io::Write;

/// The last lines of the gateway's own answer, and the empty line behind them.
const WITHOUT_A_BODY: &[u8] = b"Content-Length: 0\r\nConnection: close\r\n\r\n";

/// What an answer to the client is written from.
#[derive(Drop)]
pub struct Answer<'a> {
    /// The method of the request that is answered.
    pub method: &'a [u8],
    /// The status, from 100 to 999.
    pub status: u16,
    /// The header lines of the response as they came.
    pub headers: &'a [Header],
    /// The body, where the response has one.
    pub body: Option<&'a [u8]>,
    /// What it says of its connection.
    pub persistence: Persistence,
}

/// The first line of an answer with one of the commonest statuses.
#[tactic(auto, unfolding(crate::specs::Answer::status_text, crate::specs::Answer::phrase_of))]
fn common_line(status: u16) -> Option<&'static [u8]>
    ensures { IfSome result (λ line. line.now ≡ status_text status) }
{
    match status {
        200 => Some(b"HTTP/1.1 200 OK\r\n"),
        204 => Some(b"HTTP/1.1 204 No Content\r\n"),
        302 => Some(b"HTTP/1.1 302 Found\r\n"),
        304 => Some(b"HTTP/1.1 304 Not Modified\r\n"),
        404 => Some(b"HTTP/1.1 404 Not Found\r\n"),
        429 => Some(b"HTTP/1.1 429 Too Many Requests\r\n"),
        _ => None,
    }
}

/// Writes the first line of an answer: in one piece, where it is a common one.
#[tactic(auto, unfolding(crate::specs::Answer::status_text))]
fn write_status<W: Write>(writer: &mut Counted<W>, status: u16) -> Result<(), WriteFault>
    requires three_digits { (100 ≤ status) × (status ≤ 999) }
    ensures all { OnOk result (Wrote W.contents writer.old writer.new (status_text status)) }
    ensures unfailing { OnOk result (failures_of writer.new ≡ failures_of writer.old) }
    ensures front { OnErr result (WroteFront W.contents writer.old writer.new
        (status_text status)) }
    ensures failed { OnErr result (IsWriteCause writer.old writer.new) }
    ensures flushes { flushes_of writer.new ≡ flushes_of writer.old }
{
    if let Some(line) = common_line(status) {
        return write_all(writer, line);
    }
    write_all(writer, b"HTTP/1.1 ")?;
    write_decimal(writer, u64::from(status))?;
    write_all(writer, b" ")?;
    write_all(writer, phrase_of(status).as_bytes())?;
    write_all(writer, b"\r\n")
}

/// Writes the beginning of an answer with this status: its first line, and those header lines that
/// are passed on. It doesn't flush.
///
/// Lines that tell how the body ends and whether the connection does aren't among them. The one
/// fault comes where the writer failed; then a beginning of the text was written.
pub fn write_front<W: Write>(
    writer: &mut Counted<W>,
    status: u16,
    headers: &[Header],
) -> Result<(), WriteFault>
    requires three_digits { (100 ≤ status) × (status ≤ 999) }
    ensures all { OnOk result (Wrote W.contents writer.old writer.new
        (front_text status headers.now)) }
    ensures unfailing { OnOk result (failures_of writer.new ≡ failures_of writer.old) }
    ensures front { OnErr result (WroteFront W.contents writer.old writer.new
        (front_text status headers.now)) }
    ensures failed { OnErr result (IsWriteCause writer.old writer.new) }
    ensures flushes { flushes_of writer.new ≡ flushes_of writer.old }
{
    write_status(writer, status)?;
    write_response_lines(writer, headers)
}

/// Whether no body is written to this method or with this status.
fn is_bodiless(method: &[u8], status: u16) -> bool
    ensures { result ≡ is_bodiless method.now status }
{
    method == b"HEAD".as_slice() || status == 204 || status == 304
}

impl Answer<'_> {
    /// The body that is written.
    fn written_body(&self) -> Option<&[u8]>
        ensures { lent result ≡ written_body (seen self.now) }
    {
        if is_bodiless(self.method, self.status) {
            None
        } else {
            self.body
        }
    }

    /// Writes the length that came, where its lines give one, and what stands behind it.
    #[tactic(auto, using(crate::proofs::Kept::one_line), unfolding(crate::specs::Line::lines_text))]
    fn write_received<W: Write>(
        &self,
        writer: &mut Counted<W>,
        rest: &[u8],
    ) -> Result<(), WriteFault>
        ensures all { OnOk result (Wrote W.contents writer.old writer.new
            (lines_text (received_lines (length_digits self.now.headers.now)) ++ rest.now)) }
        ensures unfailing { OnOk result (failures_of writer.new ≡ failures_of writer.old) }
        ensures front { OnErr result (WroteFront W.contents writer.old writer.new
            (lines_text (received_lines (length_digits self.now.headers.now)) ++ rest.now)) }
        ensures failed { OnErr result (IsWriteCause writer.old writer.new) }
        ensures flushes { flushes_of writer.new ≡ flushes_of writer.old }
    {
        if let Some(digits) = length_digits(self.headers) {
            write_line(writer, b"Content-Length", digits)?;
            return write_all(writer, rest);
        }
        write_all(writer, rest)
    }

    /// Writes the length that is told, the line that ends the connection where it ends, and the
    /// empty line behind them.
    #[tactic(auto, using(crate::proofs::Kept::one_line), unfolding(crate::specs::Line::lines_text))]
    fn write_last<W: Write>(&self, writer: &mut Counted<W>) -> Result<(), WriteFault>
        ensures all { OnOk result (Wrote W.contents writer.old writer.new
            (lines_text (told_lines (seen self.now))
            ++ (lines_text (close_lines self.now.persistence) ++ codes "\r\n"))) }
        ensures unfailing { OnOk result (failures_of writer.new ≡ failures_of writer.old) }
        ensures front { OnErr result (WroteFront W.contents writer.old writer.new
            (lines_text (told_lines (seen self.now))
            ++ (lines_text (close_lines self.now.persistence) ++ codes "\r\n"))) }
        ensures failed { OnErr result (IsWriteCause writer.old writer.new) }
        ensures flushes { flushes_of writer.new ≡ flushes_of writer.old }
    {
        let end = head_end(self.persistence);
        if self.status == 204 {
            return write_all(writer, end);
        }
        if is_bodiless(self.method, self.status) {
            return self.write_received(writer, end);
        }
        match self.body {
            Some(body) => write_length(writer, body, end),
            None => write_all(writer, end),
        }
    }

    /// Writes the answer, and flushes once.
    ///
    /// The one fault comes where the writer failed; then a beginning of the text was written.
    pub fn write<W: Write>(&self, writer: &mut Counted<W>) -> Result<(), WriteFault>
        requires three_digits { (100 ≤ self.now.status) × (self.now.status ≤ 999) }
        ensures all { OnOk result
            (Wrote W.contents writer.old writer.new (answer_text (seen self.now))) }
        ensures unfailing { OnOk result (failures_of writer.new ≡ failures_of writer.old) }
        ensures flushed { OnOk result (is_flushed writer.new ≡ true) }
        ensures flushes { OnOk result (flushes_of writer.new ≡ raised (flushes_of writer.old)) }
        ensures front { OnErr result (WroteFront W.contents writer.old writer.new
            (answer_text (seen self.now))) }
        ensures failed { OnErr result (IsWriteCause writer.old writer.new) }
    {
        write_front(writer, self.status, self.headers)?;
        self.write_last(writer)?;
        write_and_flush(writer, bytes_of(self.written_body()))
    }
}

/// What stands behind the first line of an answer without a body.
#[tactic(auto, unfolding(crate::specs::Line::lines_text, crate::specs::Line::line_text))]
fn local_rest(persistence: Persistence) -> &'static [u8]
    ensures { result.now
        ≡ lines_text (line_of (codes "Content-Length") (codes "0") ∷ close_lines persistence)
        ++ codes "\r\n" }
{
    match persistence {
        Persistence::Close => b"Content-Length: 0\r\nConnection: close\r\n\r\n",
        Persistence::Keep => b"Content-Length: 0\r\n\r\n",
    }
}

/// Writes the gateway's own answer of a status, without a body. It flushes once.
///
/// The one fault comes where the writer failed; then a beginning of the text was written.
pub fn write_local_answer<W: Write>(
    writer: &mut Counted<W>,
    status: u16,
    persistence: Persistence,
) -> Result<(), WriteFault>
    requires three_digits { (100 ≤ status) × (status ≤ 999) }
    ensures all { OnOk result
        (Wrote W.contents writer.old writer.new (local_text persistence status)) }
    ensures unfailing { OnOk result (failures_of writer.new ≡ failures_of writer.old) }
    ensures flushed { OnOk result (is_flushed writer.new ≡ true) }
    ensures flushes { OnOk result (flushes_of writer.new ≡ raised (flushes_of writer.old)) }
    ensures front { OnErr result (WroteFront W.contents writer.old writer.new
        (local_text persistence status)) }
    ensures failed { OnErr result (IsWriteCause writer.old writer.new) }
{
    write_status(writer, status)?;
    write_and_flush(writer, local_rest(persistence))
}

/// Writes the same with a mark: the line `X-Admission` with a word that needs no escape.
///
/// The one fault comes where the writer failed; then a beginning of the text was written.
pub fn write_marked_answer<W: Write>(
    writer: &mut Counted<W>,
    status: u16,
    mark: &str,
    persistence: Persistence,
) -> Result<(), WriteFault>
    requires three_digits { (100 ≤ status) × (status ≤ 999) }
    ensures all { OnOk result (Wrote W.contents writer.old writer.new
        (marked_text persistence status mark.now)) }
    ensures unfailing { OnOk result (failures_of writer.new ≡ failures_of writer.old) }
    ensures flushed { OnOk result (is_flushed writer.new ≡ true) }
    ensures flushes { OnOk result (flushes_of writer.new ≡ raised (flushes_of writer.old)) }
    ensures front { OnErr result (WroteFront W.contents writer.old writer.new
        (marked_text persistence status mark.now)) }
    ensures failed { OnErr result (IsWriteCause writer.old writer.new) }
{
    write_status(writer, status)?;
    write_line(writer, b"X-Admission", mark.as_bytes())?;
    write_and_flush(writer, local_rest(persistence))
}
