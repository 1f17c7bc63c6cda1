// The driver of loads: a whole trace in, the two lines of its audited run out.
ghost use Rattle.std.specs.Prelude.{◌≡◌, ◌<◌, ◌≤◌, ◌+◌, length, string_bytes, true, None};
ghost use Rattle.std.specs.Prelude.{IfErr, IfOk, IsErrOf, OnErr, OnOk};
ghost use Rattle.counted_io.specs.Counted.{calls_of, failures_of, is_flushed};
ghost use Rattle.counted_io.specs.Effects.{IfLeft, Wrote};
ghost use Rattle.counted_io.specs.Causes.{HasRead, IsReadCause, IsWriteCause};
ghost use Rattle.counted_io.specs.Count.{raised};
ghost use Rattle.tasks.specs.Refused.{refused_of};
ghost use Rattle.limit_laws.specs.Algorithm.{greatest_limit};
ghost use Rattle.load_driver.specs.Driver.{IsOutOfMemory};
ghost use Rattle.load_driver.specs.Limits.{most_reads, most_script};
ghost use Rattle.trace.specs.Trace.{trace_of};
ghost use Rattle.load_run.specs.Driver.{IfAudit, IfLine, IsAtFault, IsLoaded, IsRefused};
ghost use Rattle.load_run.specs.Driver.{LacksThread, StopsTrace};
ghost use Rattle.load_run.specs.Load.{IsRun};
ghost use Rattle.load_run.specs.Summary.{summary_text};

use crate::fault::LoadFault;
use crate::run::{RunSize, run_named};
use crate::summary::Summary;
use counted_io::{Counted, read_all, write_and_flush};
use gate_history::Blanks;
use load_driver::{MOST_BYTES, MOST_READS};
use shared_gate::{Clock, LogLength, ProgramClock};
use std::alloc::{AllocError, Global};
use std::io::{Read, Write};
use std::marker::Brand;
use std::sync::Wait;
use std::thread::Threads;
use std::time::Clock as SystemClock;
use tasks::Spawner;
use trace::{Trace, read_trace};

/// What is counted of an audited run of a trace's calls. A line at fault starts no worker.
fn run_trace<T, C>(
    rt: &T,
    spawner: &mut Spawner<'_, T>,
    alloc: Global,
    size: RunSize,
    text: &[u8],
    clock: &C,
) -> Result<Summary, LoadFault>
where
    T: Threads + Wait + SystemClock + Sync,
    C: Clock + Sync,
    requires least { 1 ≤ size.limit }
    requires most { size.limit ≤ greatest_limit }
    requires some { 1 ≤ size.workers }
    requires few { size.workers ≤ 64 }
    requires short { length text.now ≤ most_script }
    ensures whole { OnOk result ((trace_of text.now).calls.fault ≡ None) }
    ensures run { IfOk result (IsRun size.workers size.limit
        (trace_of text.now).settings (trace_of text.now).calls.arrivals) }
    ensures stops { IfErr result (StopsTrace size.workers size.limit (trace_of text.now)) }
    ensures thread { IsErrOf result LoadFault.Thread → (trace_of text.now).calls.fault ≡ None }
    ensures lacking { IsErrOf result LoadFault.Thread →
        refused_of spawner.new ≡ raised (refused_of spawner.old) }
{
    let Trace {
        settings,
        arrivals,
        fault,
    } = read_trace(alloc, text)?;
    if let Some(fault) = fault {
        return Err(LoadFault::Line(fault));
    }
    let word = LogLength::new(alloc)?;
    run_named::<Brand, T, C>(
        rt,
        spawner,
        alloc,
        Blanks::new(),
        word,
        settings,
        arrivals,
        size,
        clock,
    )
}

/// The two lines of an audited run.
fn text_of(alloc: Global, summary: Summary) -> Result<String, AllocError>
    ensures { IfOk result (λ text. string_bytes text ≡ summary_text summary) }
{
    let mut text = String::new(alloc);
    write!(text, "{summary}")?;
    Ok(text)
}

/// Carries the calls of the trace that the reader gives out by so many workers, each on a thread of
/// its own, through one gate; closes and audits the gate, and writes the two lines of what the
/// history holds: its calls, and its replies, promotions and outcomes by their kinds.
///
/// `n` is the limit, in permits, where the trace has no `limit` line. The arrival at each place,
/// counted from 0, is made by the worker whose number that leaves, divided by `workers`; each
/// worker makes its own in their order. One that waits does so until `clock`, which is read once
/// for it before, has come on by the trace's `timeout`; one that gets a permit ends it at once, as
/// if after its duration.
///
/// A line at fault starts no worker. Nothing is written on any fault but `Write`.
pub fn load_with<T, C, R: Read, W: Write>(
    rt: &T,
    spawner: &mut Spawner<'_, T>,
    alloc: Global,
    reader: &mut Counted<R>,
    writer: &mut Counted<W>,
    n: u32,
    workers: usize,
    clock: &C,
) -> Result<(), LoadFault>
where
    T: Threads + Wait + SystemClock + Sync,
    C: Clock + Sync,
    requires least { 1 ≤ n }
    requires most { n ≤ greatest_limit }
    requires some { 1 ≤ workers }
    requires few { workers ≤ 64 }

    // Both lines are written, of a run that the audit accepted.
    ensures done { OnOk result (IfLeft R.remaining reader.old (λ text.
        IsLoaded workers n text (Wrote W.contents writer.old writer.new))) }
    ensures flushed { OnOk result (is_flushed writer.new ≡ true) }

    // Each fault comes only for its cause.
    ensures line { IfErr result (λ fault. IfLine fault (λ at.
        IfLeft R.remaining reader.old (λ text. IsAtFault text at))) }
    ensures audit { IfErr result (λ fault. IfAudit fault (λ cause.
        IfLeft R.remaining reader.old (λ text. IsRefused workers n text cause))) }
    ensures memory { IsErrOf result LoadFault.Memory →
        IsOutOfMemory R.remaining reader.old reader.new }
    ensures thread { IsErrOf result LoadFault.Thread →
        LacksThread R.remaining reader.old reader.new }
    ensures lacking { IsErrOf result LoadFault.Thread →
        refused_of spawner.new ≡ raised (refused_of spawner.old) }
    ensures read { IsErrOf result LoadFault.Read → IsReadCause most_reads reader.old reader.new }
    ensures too_large { IsErrOf result LoadFault.TooLarge →
        IfLeft R.remaining reader.old (λ text. most_script < length text) }
    ensures write { IsErrOf result LoadFault.Write → IsWriteCause writer.old writer.new }
    ensures only_read_fails { ¬ IsErrOf result LoadFault.Read →
        failures_of reader.new ≡ failures_of reader.old }
    ensures only_write_fails { ¬ IsErrOf result LoadFault.Write →
        failures_of writer.new ≡ failures_of writer.old }
    ensures few_reads { calls_of reader.new ≤ calls_of reader.old + most_reads }
    ensures reads { HasRead reader.old reader.new }

    // Nothing is written on any other fault.
    ensures writes_nothing { OnErr result (¬ IsErrOf result LoadFault.Write →
        writer.new ≡ writer.old) }
{
    let text = read_all(alloc, reader, MOST_BYTES, MOST_READS)?;
    let size = RunSize { limit: n, workers };
    let summary = run_trace(rt, spawner, alloc, size, &text, clock)?;
    let told = text_of(alloc, summary)?;
    write_and_flush(writer, told.as_bytes())?;
    Ok(())
}

/// What [`load_with`] does, by the program's own clock, which it starts.
pub fn load<T, R: Read, W: Write>(
    rt: &T,
    spawner: &mut Spawner<'_, T>,
    alloc: Global,
    reader: &mut Counted<R>,
    writer: &mut Counted<W>,
    n: u32,
    workers: usize,
) -> Result<(), LoadFault>
where
    T: Threads + Wait + SystemClock + Sync,
    requires least { 1 ≤ n }
    requires most { n ≤ greatest_limit }
    requires some { 1 ≤ workers }
    requires few { workers ≤ 64 }

    // Both lines are written, of a run that the audit accepted.
    ensures done { OnOk result (IfLeft R.remaining reader.old (λ text.
        IsLoaded workers n text (Wrote W.contents writer.old writer.new))) }
    ensures flushed { OnOk result (is_flushed writer.new ≡ true) }

    // Each fault comes only for its cause.
    ensures line { IfErr result (λ fault. IfLine fault (λ at.
        IfLeft R.remaining reader.old (λ text. IsAtFault text at))) }
    ensures audit { IfErr result (λ fault. IfAudit fault (λ cause.
        IfLeft R.remaining reader.old (λ text. IsRefused workers n text cause))) }
    ensures memory { IsErrOf result LoadFault.Memory →
        IsOutOfMemory R.remaining reader.old reader.new }
    ensures thread { IsErrOf result LoadFault.Thread →
        LacksThread R.remaining reader.old reader.new }
    ensures lacking { IsErrOf result LoadFault.Thread →
        refused_of spawner.new ≡ raised (refused_of spawner.old) }
    ensures read { IsErrOf result LoadFault.Read → IsReadCause most_reads reader.old reader.new }
    ensures too_large { IsErrOf result LoadFault.TooLarge →
        IfLeft R.remaining reader.old (λ text. most_script < length text) }
    ensures write { IsErrOf result LoadFault.Write → IsWriteCause writer.old writer.new }
    ensures only_read_fails { ¬ IsErrOf result LoadFault.Read →
        failures_of reader.new ≡ failures_of reader.old }
    ensures only_write_fails { ¬ IsErrOf result LoadFault.Write →
        failures_of writer.new ≡ failures_of writer.old }
    ensures few_reads { calls_of reader.new ≤ calls_of reader.old + most_reads }
    ensures reads { HasRead reader.old reader.new }

    // Nothing is written on any other fault.
    ensures writes_nothing { OnErr result (¬ IsErrOf result LoadFault.Write →
        writer.new ≡ writer.old) }
{
    let clock = ProgramClock::start(rt);
    load_with(rt, spawner, alloc, reader, writer, n, workers, &clock)
}
