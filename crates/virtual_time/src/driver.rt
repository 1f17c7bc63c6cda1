// The driver of traces: a whole trace in, a whole text out.
ghost use Rattle.std.specs.Prelude.{◌≡◌, ◌<◌, ◌≤◌, ◌+◌, length, string_bytes, true, None, Some, IfOk};
ghost use Rattle.std.specs.Prelude.{OnOk, IfErr, IsErrOf};
ghost use Rattle.counted_io.specs.Counted.{calls_of, failures_of, is_flushed};
ghost use Rattle.counted_io.specs.Effects.{IfLeft, Wrote};
ghost use Rattle.counted_io.specs.Causes.{HasRead, IsReadCause, IsWriteCause};
ghost use Rattle.limit_laws.specs.Algorithm.{greatest_limit};
ghost use Rattle.gate_journal.specs.Journal.{most_kept};
ghost use Rattle.load_driver.specs.Limits.{most_script, most_reads};
ghost use Rattle.load_driver.specs.Driver.{IfLine, IsOutOfMemory, OnAnswer};
ghost use Rattle.trace.specs.Trace.{trace_of};
ghost use Rattle.virtual_time.specs.Simulation.{IsRunOf, IsSimulated};

use super::course::run;
use counted_io::{Counted, read_all, write_and_flush};
use load_driver::{DriverFault, KEPT, LineFault, MOST_BYTES, MOST_READS, Session};
use script_gate::gate_settings;
use std::alloc::{AllocError, Global};
use std::io::{Read, Write};
use trace::{Trace, read_trace};

/// What is written of the calls of a trace, and the line at fault that ended them, if one did.
fn run_trace(
    alloc: Global,
    n: u32,
    kept: usize,
    text: &[u8],
) -> Result<(String, Option<LineFault>), AllocError>
    requires least { 1 ≤ n }
    requires most { n ≤ greatest_limit }
    requires some_kept { 1 ≤ kept }
    requires few_kept { kept ≤ most_kept }
    requires short { length text.now ≤ most_script }
    ensures run { IfOk result (λ told.
        IsRunOf n kept (trace_of text.now) (string_bytes told.0)) }
    ensures fault { IfOk result (λ told. (trace_of text.now).calls.fault ≡ told.1) }
{
    let Trace {
        settings,
        arrivals,
        fault,
    } = read_trace(alloc, text)?;
    let timeout = settings.timeout();
    let mut session = Session::new(alloc, gate_settings(settings, n, kept))?;
    let told = run(alloc, &mut session, &arrivals, timeout)?;
    Ok((told, fault))
}

/// Carries the calls of the trace that the reader gives out in virtual time, and writes the text of
/// what they are answered: no clock is read, and no thread is started.
///
/// `n` is the limit, in permits, where the trace has no `limit` line. A line at fault ends the
/// trace: the calls before it are carried out to their end, and then the fault is answered. The
/// trace is read whole, in at most 2^25 reads, and the text written at once and flushed, so
/// `Memory`, `Read` and `TooLarge` write nothing.
pub fn simulate<R: Read, W: Write>(
    alloc: Global,
    reader: &mut Counted<R>,
    writer: &mut Counted<W>,
    n: u32,
) -> Result<(), DriverFault>
    requires least { 1 ≤ n }
    requires most { n ≤ greatest_limit }

    // The whole text is written, or that of the calls before the line at fault.
    ensures ok { OnOk result (IfLeft R.remaining reader.old (λ text.
        IsSimulated n text None (Wrote W.contents writer.old writer.new))) }
    ensures line { IfErr result (λ fault. IfLine fault (λ at.
        IfLeft R.remaining reader.old (λ text.
        IsSimulated n text (Some at) (Wrote W.contents writer.old writer.new)))) }
    ensures flushed { OnAnswer result (is_flushed writer.new ≡ true) }

    // Each other fault comes only for its cause.
    ensures memory { IsErrOf result DriverFault.Memory →
        IsOutOfMemory R.remaining reader.old reader.new }
    ensures read { IsErrOf result DriverFault.Read → IsReadCause most_reads reader.old reader.new }
    ensures too_large { IsErrOf result DriverFault.TooLarge →
        IfLeft R.remaining reader.old (λ text. most_script < length text) }
    ensures write { IsErrOf result DriverFault.Write → IsWriteCause writer.old writer.new }
    ensures only_read_fails { ¬ IsErrOf result DriverFault.Read →
        failures_of reader.new ≡ failures_of reader.old }
    ensures only_write_fails { ¬ IsErrOf result DriverFault.Write →
        failures_of writer.new ≡ failures_of writer.old }
    ensures few { calls_of reader.new ≤ calls_of reader.old + most_reads }
    ensures reads { HasRead reader.old reader.new }

    // Then nothing is written.
    ensures memory_writes_nothing { IsErrOf result DriverFault.Memory → writer.new ≡ writer.old }
    ensures read_writes_nothing { IsErrOf result DriverFault.Read → writer.new ≡ writer.old }
    ensures too_large_writes_nothing { IsErrOf result DriverFault.TooLarge →
        writer.new ≡ writer.old }
{
    let text = read_all(alloc, reader, MOST_BYTES, MOST_READS)?;
    let (told, fault) = run_trace(alloc, n, KEPT, &text)?;
    write_and_flush(writer, told.as_bytes())?;
    match fault {
        None => Ok(()),
        Some(fault) => Err(DriverFault::Line(fault)),
    }
}
