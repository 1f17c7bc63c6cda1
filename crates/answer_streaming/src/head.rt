// The head of a streamed answer, whose last lines say how its body ends, and the first piece.
ghost use Rattle.std.specs.Prelude.{◌≡◌, ◌≤◌, ◌+◌, ◌++◌, ℕ, length, take, IfOk, OnOk, OnErr};
ghost use Rattle.arrayvec.specs.ArrayVec.{array_vec_len};
ghost use Rattle.counted_io.specs.Causes.{IsWriteCause};
ghost use Rattle.counted_io.specs.Counted.{failures_of};
ghost use Rattle.counted_io.specs.Effects.{Wrote};
ghost use Rattle.message_text.specs.Answer.{front_text};
ghost use Rattle.answer_streaming.specs.Texts.{Takes, behind, head_text, last_lines, length_text, opening_text, told_text};

use crate::delimiting::{Delimiting, write_piece};
use arrayvec::ArrayVec;
use counted_io::{Counted, WriteFault, write_all};
use itoa::Buffer;
use message_parts::Header;
use message_text::{Persistence, write_front};
use std::io::Write;

/// What the head of a streamed answer is written from.
#[derive(Clone, Copy, Drop)]
pub(crate) struct Head<'a> {
    /// The status, from 100 to 999.
    pub(crate) status: u16,
    /// The header lines of the response as they came.
    pub(crate) headers: &'a [Header],
    pub(crate) delimiting: Delimiting,
    pub(crate) persistence: Persistence,
}

/// Writes a head.
fn write_head<W: Write>(writer: &mut Counted<W>, head: Head<'_>) -> Result<(), WriteFault>
    requires three_digits { (100 ≤ head.status) × (head.status ≤ 999) }
    ensures all { OnOk result (Wrote W.contents writer.old writer.new
        (head_text head.entry.delimiting head.entry.persistence
        (front_text head.entry.status head.entry.headers.now))) }
    ensures unfailing { OnOk result (failures_of writer.new ≡ failures_of writer.old) }
    ensures front { OnErr result ((count : ℕ) × Wrote W.contents writer.old writer.new
        (take count (head_text head.entry.delimiting head.entry.persistence
        (front_text head.entry.status head.entry.headers.now)))) }
    ensures failed { OnErr result (IsWriteCause writer.old writer.new) }
{
    write_front(writer, head.status, head.headers)?;
    write_all(writer, told(head.delimiting, head.persistence).as_slice())
}

/// Writes a head and the first piece of the payload, flushes them, and returns what is to be
/// written behind them.
pub(crate) fn write_opening<W: Write>(
    writer: &mut Counted<W>,
    head: Head<'_>,
    first: &[u8],
) -> Result<Delimiting, WriteFault>
    requires three_digits { (100 ≤ head.status) × (head.status ≤ 999) }
    requires room { Takes head.delimiting (length first.now) }
    ensures all { OnOk result (Wrote W.contents writer.old writer.new
        (opening_text head.entry.delimiting head.entry.persistence
        (front_text head.entry.status head.entry.headers.now) first.now)) }
    ensures after { IfOk result (λ after.
        after ≡ behind head.entry.delimiting (length first.now)) }
    ensures unfailing { OnOk result (failures_of writer.new ≡ failures_of writer.old) }
    ensures front { OnErr result ((count : ℕ) × Wrote W.contents writer.old writer.new
        (take count (opening_text head.entry.delimiting head.entry.persistence
        (front_text head.entry.status head.entry.headers.now) first.now))) }
    ensures failed { OnErr result (IsWriteCause writer.old writer.new) }
{
    write_head(writer, head)?;
    write_piece(writer, head.delimiting, first)
}

/// Returns the lines that say how a body ends and whether the connection ends, and the empty line.
fn told(delimiting: Delimiting, persistence: Persistence) -> ArrayVec<u8, 64>
    ensures { result.items ≡ told_text delimiting persistence }
{
    match delimiting {
        Delimiting::Length(length) => told_length(length, persistence),
        Delimiting::Chunks => told_coding(persistence),
        Delimiting::ToEnd => told_close(),
    }
}

/// Returns the line of a length, and the lines behind it.
#[tactic(auto, unfolding(crate::specs::Texts::length_text))]
fn told_length(length: u64, persistence: Persistence) -> ArrayVec<u8, 64>
    ensures { result.items ≡ length_text length persistence }
{
    let mut text = ArrayVec::new();
    let mut digits = Buffer::new();
    put(&mut text, b"Content-Length: ");
    put(&mut text, digits.format(length).as_bytes());
    put(&mut text, last_lines(persistence));
    text
}

/// Returns the line of a coding, and the lines behind it.
fn told_coding(persistence: Persistence) -> ArrayVec<u8, 64>
    ensures { result.items ≡ told_text Delimiting.Chunks persistence }
{
    let mut text = ArrayVec::new();
    put(&mut text, b"Transfer-Encoding: chunked");
    put(&mut text, last_lines(persistence));
    text
}

/// Returns the line that ends the connection, and the empty line.
fn told_close() -> ArrayVec<u8, 64>
    ensures { (persistence : Persistence) → result.items ≡ told_text Delimiting.ToEnd persistence }
{
    let mut text = ArrayVec::new();
    put(&mut text, b"Connection: close\r\n\r\n");
    text
}

/// Puts the bytes behind a text that has room for them.
fn put(text: &mut ArrayVec<u8, 64>, bytes: &[u8])
    requires { array_vec_len text.old + length bytes.now ≤ 64 }
    ensures items { text.new.items ≡ text.old.items ++ bytes.now }
    ensures len { array_vec_len text.new ≡ array_vec_len text.old + length bytes.now }
{
    let Ok(()) = text.try_extend_from_slice(bytes) else {
        unreachable!()
    };
}

/// Returns the end of a line, the line that ends the connection if it ends, and the empty line.
fn last_lines(persistence: Persistence) -> &'static [u8]
    ensures text { result.now ≡ last_lines persistence }
    ensures short { length result.now ≤ 25 }
{
    match persistence {
        Persistence::Close => b"\r\nConnection: close\r\n\r\n",
        Persistence::Keep => b"\r\n\r\n",
    }
}
