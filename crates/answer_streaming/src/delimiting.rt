// Bodies that are written a piece at a time.
ghost use Rattle.std.specs.Prelude.{◌≡◌, ℕ, length, take, true, IfOk, OnOk, OnErr};
ghost use Rattle.counted_io.specs.Causes.{IsWriteCause};
ghost use Rattle.counted_io.specs.Counted.{failures_of, is_flushed};
ghost use Rattle.counted_io.specs.Effects.{Wrote};
ghost use Rattle.answer_streaming.specs.Texts.{Agrees, IsDone, Takes, behind, delimited, end_text, piece_text};

use crate::chunk::write_chunk;
use body_pieces::Rest;
use counted_io::{Counted, WriteFault, write_and_flush};
use std::io::Write;

/// How the client finds the end of a body, and how much of it is still to be written.
#[derive(Clone, Copy, Drop, PartialEq, Eq)]
pub enum Delimiting {
    /// By its length, of which so many bytes are still to be written.
    Length(u64),
    /// By chunks, of which the last one is empty.
    Chunks,
    /// By the end of the connection.
    ToEnd,
}

/// Returns how the client finds the end of a body of which this is to be read: by its length if it
/// has one, else by chunks, or by the end of the connection if the client has no chunks because it
/// speaks HTTP/1.0.
pub fn delimiting_for(rest: Rest, is_old: bool) -> Delimiting
    ensures value { result ≡ delimited rest is_old }
    ensures agree { Agrees rest result }
{
    match rest {
        Rest::Sized(left) => Delimiting::Length(left),
        Rest::ToEnd | Rest::Size | Rest::Chunk(_) => {
            if is_old {
                Delimiting::ToEnd
            } else {
                Delimiting::Chunks
            }
        }
    }
}

/// Writes and flushes some bytes of a payload, and returns what is to be written behind them.
pub fn write_piece<W: Write>(
    writer: &mut Counted<W>,
    delimiting: Delimiting,
    piece: &[u8],
) -> Result<Delimiting, WriteFault>
    requires room { Takes delimiting (length piece.now) }
    ensures all { OnOk result (Wrote W.contents writer.old writer.new
        (piece_text delimiting piece.now)) }
    ensures after { IfOk result (λ after. after ≡ behind delimiting (length piece.now)) }
    ensures flushed { OnOk result (is_flushed writer.new ≡ true) }
    ensures unfailing { OnOk result (failures_of writer.new ≡ failures_of writer.old) }
    ensures front { OnErr result ((count : ℕ) × Wrote W.contents writer.old writer.new
        (take count (piece_text delimiting piece.now))) }
    ensures failed { OnErr result (IsWriteCause writer.old writer.new) }
{
    match delimiting {
        Delimiting::Length(left) => {
            write_and_flush(writer, piece)?;
            Ok(Delimiting::Length(left - piece.len() as u64))
        }
        Delimiting::Chunks => {
            write_if_some(writer, piece)?;
            Ok(delimiting)
        }
        Delimiting::ToEnd => {
            write_and_flush(writer, piece)?;
            Ok(delimiting)
        }
    }
}

/// Writes and flushes a chunk. An empty one would be the last one, so it isn't written.
fn write_if_some<W: Write>(writer: &mut Counted<W>, piece: &[u8]) -> Result<(), WriteFault>
    ensures all { OnOk result (Wrote W.contents writer.old writer.new
        (piece_text Delimiting.Chunks piece.now)) }
    ensures flushed { OnOk result (is_flushed writer.new ≡ true) }
    ensures unfailing { OnOk result (failures_of writer.new ≡ failures_of writer.old) }
    ensures front { OnErr result ((count : ℕ) × Wrote W.contents writer.old writer.new
        (take count (piece_text Delimiting.Chunks piece.now))) }
    ensures failed { OnErr result (IsWriteCause writer.old writer.new) }
{
    if piece.is_empty() {
        return write_and_flush(writer, b"");
    }
    write_chunk(writer, piece)
}

/// Writes and flushes what ends a body of which nothing is left.
pub fn finish<W: Write>(writer: &mut Counted<W>, delimiting: Delimiting) -> Result<(), WriteFault>
    requires done { IsDone delimiting }
    ensures all { OnOk result (Wrote W.contents writer.old writer.new (end_text delimiting)) }
    ensures flushed { OnOk result (is_flushed writer.new ≡ true) }
    ensures unfailing { OnOk result (failures_of writer.new ≡ failures_of writer.old) }
    ensures front { OnErr result ((count : ℕ) × Wrote W.contents writer.old writer.new
        (take count (end_text delimiting))) }
    ensures failed { OnErr result (IsWriteCause writer.old writer.new) }
{
    match delimiting {
        Delimiting::Chunks => write_and_flush(writer, b"0\r\n\r\n"),
        Delimiting::Length(_) | Delimiting::ToEnd => write_and_flush(writer, b""),
    }
}
