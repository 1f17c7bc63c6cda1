// Chunks that are written.
ghost use Rattle.std.specs.Prelude.{◌≡◌, ◌<◌, ◌++◌, ℕ, codes, length, take, true, OnOk, OnErr};
ghost use Rattle.counted_io.specs.Causes.{IsWriteCause};
ghost use Rattle.counted_io.specs.Counted.{failures_of, is_flushed};
ghost use Rattle.counted_io.specs.Effects.{Wrote};
ghost use Rattle.http1.specs.Encoder.{frame_prefix};
ghost use Rattle.http1.specs.Text.{numeral};
ghost use Rattle.body_pieces.specs.ChunkTexts.{chunk_text};

use counted_io::{Counted, WriteFault, write_all, write_and_flush};
use http1::encode::{Encoder, Frame};
use std::io::Write;

/// Returns what frames a chunk of so many bytes.
fn chunk_frame(len: usize) -> Frame
    requires some { 0 < len }
    ensures { frame_prefix result ≡ numeral 16 len ++ codes "\r\n" }
{
    let Ok(frame) = Encoder::Chunked.frame(len) else {
        unreachable!()
    };
    frame
}

/// Writes and flushes some bytes as a chunk.
pub(crate) fn write_chunk<W: Write>(writer: &mut Counted<W>, piece: &[u8]) -> Result<(), WriteFault>
    requires some { 0 < length piece.now }
    ensures all { OnOk result (Wrote W.contents writer.old writer.new (chunk_text piece.now)) }
    ensures flushed { OnOk result (is_flushed writer.new ≡ true) }
    ensures unfailing { OnOk result (failures_of writer.new ≡ failures_of writer.old) }
    ensures front { OnErr result ((count : ℕ) × Wrote W.contents writer.old writer.new
        (take count (chunk_text piece.now))) }
    ensures failed { OnErr result (IsWriteCause writer.old writer.new) }
{
    let frame = chunk_frame(piece.len());
    write_all(writer, frame.prefix())?;
    write_all(writer, piece)?;
    write_and_flush(writer, b"\r\n")
}
