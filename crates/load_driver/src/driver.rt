// The drivers: a whole input in, a whole text out.
ghost use Rattle.std.specs.Prelude.{◌≡◌, ◌<◌, ◌≤◌, ◌+◌, length, true, None, Some, OnOk, IfErr, IsErrOf};
ghost use Rattle.counted_io.specs.Counted.{calls_of, failures_of, is_flushed};
ghost use Rattle.counted_io.specs.Effects.{IfLeft, Wrote};
ghost use Rattle.counted_io.specs.Causes.{HasRead, IsReadCause, IsWriteCause};
ghost use Rattle.limit_laws.specs.Algorithm.{greatest_limit};
ghost use Rattle.load_driver.specs.Limits.{most_script, most_reads};
ghost use Rattle.load_driver.specs.Driver.{IfLine, IsAnswer, IsOutOfMemory, OnAnswer};

use super::opening::answer_script;
use counted_io::{Counted, ReadFault, WriteFault, read_all, write_and_flush};
use script::LineFault;
use std::alloc::{AllocError, Global};
use std::io::{Read, Write};

/// The most bytes of a script.
pub const MOST_BYTES: usize = 16_777_216;

/// The most reads that an input may take.
pub const MOST_READS: u64 = 33_554_432;

/// How many entries of a history are kept where no line says it; past them only what is owed is
/// answered.
pub const KEPT: usize = 100_000;

/// Why a driver stops.
#[derive(Clone, Copy)]
pub enum DriverFault {
    /// Out of memory.
    Memory,
    /// The reader failed, or wasn't at its end after 2^25 reads.
    Read,
    /// The input has more than 16 MiB.
    TooLarge,
    /// A line is at fault; what the lines before it are answered was written.
    Line(LineFault),
    /// The writer failed; how much it took isn't said.
    Write,
}

impl From<AllocError> for DriverFault {
    ghost use Rattle.load_driver.specs.declared.driver.DriverFault.TheVariants.{Memory};

    ghost from_gives = { λ _ told. told ≡ Memory };

    fn from(_error: AllocError) -> DriverFault {
        DriverFault::Memory
    }
}

impl From<ReadFault> for DriverFault {
    ghost use Rattle.load_driver.specs.Driver.{told_of_read};

    ghost from_gives = { λ fault told. told ≡ told_of_read fault };

    fn from(fault: ReadFault) -> DriverFault {
        match fault {
            ReadFault::Memory => DriverFault::Memory,
            ReadFault::Read => DriverFault::Read,
            ReadFault::TooLarge => DriverFault::TooLarge,
        }
    }
}

impl From<WriteFault> for DriverFault {
    ghost use Rattle.load_driver.specs.declared.driver.DriverFault.TheVariants.{Write};

    ghost from_gives = { λ _ told. told ≡ Write };

    fn from(_fault: WriteFault) -> DriverFault {
        DriverFault::Write
    }
}

/// Answers the script that the reader gives, line by line, and writes the text of the answers.
///
/// `n` is the limit, in permits, where the script has no `limit` line. The script is read whole, in
/// at most 2^25 reads, and the text written at once and flushed, so `Memory`, `Read` and `TooLarge`
/// write nothing.
pub fn replay<R: Read, W: Write>(
    alloc: Global,
    reader: &mut Counted<R>,
    writer: &mut Counted<W>,
    n: u32,
) -> Result<(), DriverFault>
    requires least { 1 ≤ n }
    requires most { n ≤ greatest_limit }

    // The script's whole text is written, or the text of the lines before the one at fault.
    ensures ok { OnOk result (IfLeft R.remaining reader.old (λ script.
        IsAnswer n script None (Wrote W.contents writer.old writer.new))) }
    ensures line { IfErr result (λ fault. IfLine fault (λ at.
        IfLeft R.remaining reader.old (λ script.
        IsAnswer n script (Some at) (Wrote W.contents writer.old writer.new)))) }
    ensures flushed { OnAnswer result (is_flushed writer.new ≡ true) }

    // Each other fault comes only for its cause.
    ensures memory { IsErrOf result DriverFault.Memory →
        IsOutOfMemory R.remaining reader.old reader.new }
    ensures read { IsErrOf result DriverFault.Read → IsReadCause most_reads reader.old reader.new }
    ensures too_large { IsErrOf result DriverFault.TooLarge →
        IfLeft R.remaining reader.old (λ script. most_script < length script) }
    ensures write { IsErrOf result DriverFault.Write → IsWriteCause writer.old writer.new }
    ensures only_read_fails { ¬ IsErrOf result DriverFault.Read →
        failures_of reader.new ≡ failures_of reader.old }
    ensures only_write_fails { ¬ IsErrOf result DriverFault.Write →
        failures_of writer.new ≡ failures_of writer.old }
    ensures few { calls_of reader.new ≤ calls_of reader.old + most_reads }
    ensures reads { HasRead reader.old reader.new }

    // Then nothing is written.
    ensures memory_writes_nothing { IsErrOf result DriverFault.Memory → writer.new ≡ writer.old }
    ensures read_writes_nothing { IsErrOf result DriverFault.Read → writer.new ≡ writer.old }
    ensures too_large_writes_nothing { IsErrOf result DriverFault.TooLarge →
        writer.new ≡ writer.old }
{
    let script = read_all(alloc, reader, MOST_BYTES, MOST_READS)?;
    let (text, fault) = answer_script(alloc, n, KEPT, &script)?;
    write_and_flush(writer, text.as_bytes())?;
    match fault {
        None => Ok(()),
        Some(fault) => Err(DriverFault::Line(fault)),
    }
}
