// Header lines as they are written.
ghost use Rattle.std.specs.Prelude.{◌≡◌, ◌≤◌, ◌+◌, ◌++◌, OnOk, OnErr, codes, decimal, length, map, if◌then◌else◌, [], option_map, unwrap_or};
ghost use Rattle.arrayvec.specs.ArrayVec.{array_vec_len};
ghost use Rattle.std.specs.List.{flat_map};
ghost use Rattle.counted_io.specs.Counted.{failures_of, flushes_of};
ghost use Rattle.counted_io.specs.Effects.{Wrote};
ghost use Rattle.counted_io.specs.Causes.{IsWriteCause};
ghost use Rattle.message_fields.specs.Lines.{is_named};
ghost use Rattle.message_fields.specs.Passed.{is_passed, is_passed_in_request, request_lines, response_lines};
ghost use Rattle.message_fields.specs.Passing.{lines_of};
ghost use Rattle.message_text.specs.Line.{line_of, line_text, lines_text, length_line};
ghost use Rattle.message_text.specs.Fronts.{WroteFront};
ghost use Rattle.message_text.specs.Forwarded.{hosted, length_lines, lent};

use arrayvec::ArrayVec;
use counted_io::{Counted, WriteFault, write_all};
use itoa::Buffer;
use message_fields::{Passing, is_host};
use message_parts::Header;
use std::io::Write;

/// The bytes, or none.
pub fn bytes_of(bytes: Option<&[u8]>) -> &[u8]
    ensures { result.now ≡ unwrap_or (lent bytes.entry) [] }
{
    bytes.unwrap_or(b"")
}

/// Writes a line of this name and value.
#[tactic(auto, unfolding(crate::specs::Line::line_text))]
pub fn write_line<W: Write>(
    writer: &mut Counted<W>,
    name: &[u8],
    value: &[u8],
) -> Result<(), WriteFault>
    ensures all { OnOk result
        (Wrote W.contents writer.old writer.new (line_text (line_of name.now value.now))) }
    ensures unfailing { OnOk result (failures_of writer.new ≡ failures_of writer.old) }
    ensures front { OnErr result (WroteFront W.contents writer.old writer.new
        (line_text (line_of name.now value.now))) }
    ensures failed { OnErr result (IsWriteCause writer.old writer.new) }
    ensures flushes { flushes_of writer.new ≡ flushes_of writer.old }
{
    write_all(writer, name)?;
    write_all(writer, b": ")?;
    write_all(writer, value)?;
    write_all(writer, b"\r\n")
}

/// Writes a line as it came: in one piece, where its head has it as it is written.
#[tactic(auto, unfolding(crate::specs::Line::line_text))]
fn write_kept<W: Write>(writer: &mut Counted<W>, line: &Header) -> Result<(), WriteFault>
    ensures all { OnOk result (Wrote W.contents writer.old writer.new (line_text line.now)) }
    ensures unfailing { OnOk result (failures_of writer.new ≡ failures_of writer.old) }
    ensures front { OnErr result (WroteFront W.contents writer.old writer.new
        (line_text line.now)) }
    ensures failed { OnErr result (IsWriteCause writer.old writer.new) }
    ensures flushes { flushes_of writer.new ≡ flushes_of writer.old }
{
    match line.line() {
        Some(text) => write_all(writer, text),
        None => write_line(writer, line.name(), line.value()),
    }
}

/// Puts the bytes behind a text that has room for them.
fn put(text: &mut ArrayVec<u8, 64>, bytes: &[u8])
    requires { array_vec_len text.old + length bytes.now ≤ 64 }
    ensures items { text.new.items ≡ text.old.items ++ bytes.now }
    ensures len { array_vec_len text.new ≡ array_vec_len text.old + length bytes.now }
{
    let Ok(()) = text.try_extend_from_slice(bytes) else {
        unreachable!()
    };
}

/// The line that tells a length, and what stands behind it.
#[tactic(auto, unfolding(crate::specs::Line::line_text))]
fn length_text(size: u64, rest: &[u8]) -> ArrayVec<u8, 64>
    requires short { length rest.now ≤ 26 }
    ensures { result.items
        ≡ line_text (line_of (codes "Content-Length") (decimal size)) ++ rest.now }
{
    let mut text = ArrayVec::new();
    let mut digits = Buffer::new();
    put(&mut text, b"Content-Length: ");
    put(&mut text, digits.format(size).as_bytes());
    put(&mut text, b"\r\n");
    put(&mut text, rest);
    text
}

/// Writes the line that tells the length of a body, and what stands behind it, in one piece.
pub fn write_length<W: Write>(
    writer: &mut Counted<W>,
    body: &[u8],
    rest: &[u8],
) -> Result<(), WriteFault>
    requires short { length rest.now ≤ 26 }
    ensures all { OnOk result (Wrote W.contents writer.old writer.new
        (line_text (length_line body.now) ++ rest.now)) }
    ensures unfailing { OnOk result (failures_of writer.new ≡ failures_of writer.old) }
    ensures front { OnErr result (WroteFront W.contents writer.old writer.new
        (line_text (length_line body.now) ++ rest.now)) }
    ensures failed { OnErr result (IsWriteCause writer.old writer.new) }
    ensures flushes { flushes_of writer.new ≡ flushes_of writer.old }
{
    write_all(writer, length_text(body.len() as u64, rest).as_slice())
}

/// Writes the length of a body, where there is one.
#[tactic(auto, using(crate::proofs::Kept::one_line), unfolding(crate::specs::Line::lines_text))]
pub fn write_body_length<W: Write>(
    writer: &mut Counted<W>,
    body: Option<&[u8]>,
) -> Result<(), WriteFault>
    ensures all { OnOk result (Wrote W.contents writer.old writer.new
        (lines_text (length_lines (lent body.entry)))) }
    ensures unfailing { OnOk result (failures_of writer.new ≡ failures_of writer.old) }
    ensures front { OnErr result (WroteFront W.contents writer.old writer.new
        (lines_text (length_lines (lent body.entry)))) }
    ensures failed { OnErr result (IsWriteCause writer.old writer.new) }
    ensures flushes { flushes_of writer.new ≡ flushes_of writer.old }
{
    match body {
        Some(body) => write_length(writer, body, b""),
        None => Ok(()),
    }
}

/// Writes a line of a request: Host tells the authority, where the target has one.
fn write_hosted<W: Write>(
    writer: &mut Counted<W>,
    line: &Header,
    authority: Option<&[u8]>,
) -> Result<(), WriteFault>
    ensures all { OnOk result (Wrote W.contents writer.old writer.new
        (line_text (hosted (lent authority.entry) line.now))) }
    ensures unfailing { OnOk result (failures_of writer.new ≡ failures_of writer.old) }
    ensures front { OnErr result (WroteFront W.contents writer.old writer.new
        (line_text (hosted (lent authority.entry) line.now))) }
    ensures failed { OnErr result (IsWriteCause writer.old writer.new) }
    ensures flushes { flushes_of writer.new ≡ flushes_of writer.old }
{
    let Some(authority) = authority else {
        return write_kept(writer, line);
    };
    if is_host(line) {
        write_line(writer, line.name(), authority)
    } else {
        write_kept(writer, line)
    }
}

/// Writes a line of a request with these lines, where it is passed on.
fn write_passed_in_request<W: Write>(
    writer: &mut Counted<W>,
    passing: &Passing<'_>,
    line: &Header,
    authority: Option<&[u8]>,
) -> Result<(), WriteFault>
    ensures all { OnOk result (Wrote W.contents writer.old writer.new
        (if is_passed_in_request (lines_of passing.now) line.now
        then line_text (hosted (lent authority.entry) line.now)
        else [])) }
    ensures unfailing { OnOk result (failures_of writer.new ≡ failures_of writer.old) }
    ensures front { OnErr result (WroteFront W.contents writer.old writer.new
        (if is_passed_in_request (lines_of passing.now) line.now
        then line_text (hosted (lent authority.entry) line.now)
        else [])) }
    ensures failed { OnErr result (IsWriteCause writer.old writer.new) }
    ensures flushes { flushes_of writer.new ≡ flushes_of writer.old }
{
    if !passing.is_passed_in_request(line) {
        return Ok(());
    }
    write_hosted(writer, line, authority)
}

/// Writes the lines of a request that are passed on.
pub fn write_request_lines<W: Write>(
    writer: &mut Counted<W>,
    lines: &[Header],
    authority: Option<&[u8]>,
) -> Result<(), WriteFault>
    ensures all { OnOk result (Wrote W.contents writer.old writer.new
        (lines_text (map (hosted (lent authority.entry))
        (request_lines lines.now)))) }
    ensures unfailing { OnOk result (failures_of writer.new ≡ failures_of writer.old) }
    ensures front { OnErr result (WroteFront W.contents writer.old writer.new
        (lines_text (map (hosted (lent authority.entry))
        (request_lines lines.now)))) }
    ensures failed { OnErr result (IsWriteCause writer.old writer.new) }
    ensures flushes { flushes_of writer.new ≡ flushes_of writer.old }
{
    let passing = Passing::new(lines);
    for line in lines {
        write_passed_in_request(writer, &passing, line, authority)?;
    }
    Ok(())
}

/// Writes a line of a response with these lines, where it is passed on.
fn write_passed<W: Write>(
    writer: &mut Counted<W>,
    passing: &Passing<'_>,
    line: &Header,
) -> Result<(), WriteFault>
    ensures all { OnOk result (Wrote W.contents writer.old writer.new
        (if is_passed (lines_of passing.now) line.now then line_text line.now else [])) }
    ensures unfailing { OnOk result (failures_of writer.new ≡ failures_of writer.old) }
    ensures front { OnErr result (WroteFront W.contents writer.old writer.new
        (if is_passed (lines_of passing.now) line.now then line_text line.now else [])) }
    ensures failed { OnErr result (IsWriteCause writer.old writer.new) }
    ensures flushes { flushes_of writer.new ≡ flushes_of writer.old }
{
    if !passing.is_passed(line) {
        return Ok(());
    }
    write_kept(writer, line)
}

/// Writes the lines of a response that are passed on.
pub fn write_response_lines<W: Write>(
    writer: &mut Counted<W>,
    lines: &[Header],
) -> Result<(), WriteFault>
    ensures all { OnOk result
        (Wrote W.contents writer.old writer.new (lines_text (response_lines lines.now))) }
    ensures unfailing { OnOk result (failures_of writer.new ≡ failures_of writer.old) }
    ensures front { OnErr result (WroteFront W.contents writer.old writer.new
        (lines_text (response_lines lines.now))) }
    ensures failed { OnErr result (IsWriteCause writer.old writer.new) }
    ensures flushes { flushes_of writer.new ≡ flushes_of writer.old }
{
    let passing = Passing::new(lines);
    for line in lines {
        write_passed(writer, &passing, line)?;
    }
    Ok(())
}
