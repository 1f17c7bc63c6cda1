// Lines that take no memory: their pieces are written one after the other.
ghost use Rattle.std.specs.Prelude.{◌≡◌, true, map, OnErr, OnOk};
ghost use Rattle.std.specs.List.{concat};
ghost use Rattle.counted_io.specs.Counted.{failures_of, is_flushed};
ghost use Rattle.counted_io.specs.Effects.{Wrote};
ghost use Rattle.counted_io.specs.Causes.{IsWriteCause};
ghost use Rattle.fault_lines.specs.FaultLine.{IsTold, fault_line, line};

use counted_io::{Counted, WriteFault, write_all, write_and_flush};
use std::io::Write;

/// Writes the pieces of a text.
fn write_pieces<W: Write>(writer: &mut Counted<W>, pieces: &[&str]) -> Result<(), WriteFault>
    ensures all { OnOk result
        (Wrote W.contents writer.old writer.new (concat (map (λ piece. piece.now) pieces.now))) }
    ensures unfailing { OnOk result (failures_of writer.new ≡ failures_of writer.old) }
    ensures failed { OnErr result (IsWriteCause writer.old writer.new) }
{
    for piece in pieces {
        write_all(writer, piece.as_bytes())?;
    }
    Ok(())
}

/// Writes the pieces of a line, ends it, and flushes. It takes no memory.
pub fn write_line<W: Write>(writer: &mut Counted<W>, pieces: &[&str]) -> Result<(), WriteFault>
    ensures all { OnOk result (Wrote W.contents writer.old writer.new
        (line (concat (map (λ piece. piece.now) pieces.now)))) }
    ensures unfailing { OnOk result (failures_of writer.new ≡ failures_of writer.old) }
    ensures flushed { OnOk result (is_flushed writer.new ≡ true) }
    ensures failed { OnErr result (IsWriteCause writer.old writer.new) }
{
    write_pieces(writer, pieces)?;
    write_and_flush(writer, b"\n")
}

/// Tells a fault: writes its line, which begins with `admission: `, and flushes. Where the line
/// can't be written, it is dropped. It takes no memory.
pub fn report_fault<E: Write>(errors: &mut Counted<E>, pieces: &[&str])
    ensures { IsTold E.contents errors.old errors.new
        (fault_line (concat (map (λ piece. piece.now) pieces.now))) }
{
    let _ = tell_line(errors, pieces);
}

/// Writes the line of a fault.
fn tell_line<E: Write>(errors: &mut Counted<E>, pieces: &[&str]) -> Result<(), WriteFault>
    ensures told { IsTold E.contents errors.old errors.new
        (fault_line (concat (map (λ piece. piece.now) pieces.now))) }
{
    write_all(errors, b"admission: ")?;
    write_line(errors, pieces)
}
