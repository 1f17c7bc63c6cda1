// Numbers as they are written.
ghost use Rattle.std.specs.Prelude.{◌≡◌, decimal, OnOk, OnErr};
ghost use Rattle.counted_io.specs.Counted.{failures_of, flushes_of};
ghost use Rattle.counted_io.specs.Effects.{Wrote};
ghost use Rattle.counted_io.specs.Causes.{IsWriteCause};
ghost use Rattle.message_text.specs.Fronts.{WroteFront};

use counted_io::{Counted, WriteFault, write_all};
use itoa::Buffer;
use std::io::Write;

/// Writes a number in decimal digits.
pub fn write_decimal<W: Write>(writer: &mut Counted<W>, number: u64) -> Result<(), WriteFault>
    ensures all { OnOk result (Wrote W.contents writer.old writer.new (decimal number)) }
    ensures unfailing { OnOk result (failures_of writer.new ≡ failures_of writer.old) }
    ensures front { OnErr result (WroteFront W.contents writer.old writer.new (decimal number)) }
    ensures failed { OnErr result (IsWriteCause writer.old writer.new) }
    ensures flushes { flushes_of writer.new ≡ flushes_of writer.old }
{
    let mut digits = Buffer::new();
    write_all(writer, digits.format(number).as_bytes())
}
