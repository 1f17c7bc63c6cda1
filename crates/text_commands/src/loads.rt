// A load as a command.
ghost use Rattle.std.specs.Prelude.{◌≡◌, ◌≤◌, ◌+◌, ◌⊎◌, true, IfErr, OnOk};
ghost use Rattle.counted_io.specs.Causes.{HasRead};
ghost use Rattle.counted_io.specs.Counted.{calls_of, failures_of, inner_of, is_flushed};
ghost use Rattle.counted_io.specs.Effects.{IfLeft, Wrote};
ghost use Rattle.tasks.specs.Refused.{refused_of};
ghost use Rattle.limit_laws.specs.Algorithm.{greatest_limit};
ghost use Rattle.audit.specs.Text.{cause_text};
ghost use Rattle.load_driver.specs.Limits.{most_reads};
ghost use Rattle.fault_lines.specs.FaultLine.{IsTold, fault_line};
ghost use Rattle.line_explain.specs.BehindFault.{IsToldAnd};
ghost use Rattle.line_explain.specs.Kept.{kept_of, remaining_of};
ghost use Rattle.line_explain.specs.Lacking.{HasLacked};
ghost use Rattle.load_run.specs.Driver.{IsLoaded};
ghost use Rattle.text_commands.specs.Loads.{IsLoadStop, IsMore, load_fault_text};

use crate::line_fault::report_line_fault;
use counted_io::Counted;
use fault_lines::{DONE, FAULT, report_fault};
use line_explain::{Kept, LineExplainer, tell_explained};
use load_run::{LoadFault, load};
use script::TextKind;
use shared_gate::Cause;
use std::alloc::Global;
use std::io::{Read, Write};
use std::sync::Wait;
use std::thread::Threads;
use std::time::Clock as SystemClock;
use tasks::Spawner;

/// Carries a trace out by so many workers on threads of their own, tells its fault on `errors`, and
/// answers the exit status.
///
/// `limit` is in permits, where the trace has no `limit` line. The line of the fault comes after
/// all output, is flushed and takes no memory; where it can't be written itself, it is dropped.
/// Behind it, where an explanation is asked for and a line is at fault, it is said which of its
/// words is wrong and what is wanted there, by the text that the reader kept. Where the explainer
/// is out of memory for that, nothing is, and it counts that.
pub fn run_load<T, R: Read, W: Write, E: Write>(
    rt: &T,
    spawner: &mut Spawner<'_, T>,
    explainer: &mut LineExplainer,
    alloc: Global,
    limit: u32,
    workers: usize,
    explain: bool,
    reader: &mut Counted<Kept<R>>,
    writer: &mut Counted<W>,
    errors: &mut Counted<E>,
) -> u8
where
    T: Threads + Wait + SystemClock + Sync,
    requires least { 1 ≤ limit }
    requires most { limit ≤ greatest_limit }
    requires some { 1 ≤ workers }
    requires few { workers ≤ 64 }
    ensures status { (result ≡ 0) ⊎ (result ≡ 1) }

    // Both lines are written and flushed.
    ensures done { result ≡ 0 → IfLeft (remaining_of R.remaining) reader.old (λ text.
        IsLoaded workers limit text (Wrote W.contents writer.old writer.new)) }
    ensures flushed { result ≡ 0 → is_flushed writer.new ≡ true }
    ensures read { result ≡ 0 → failures_of reader.new ≡ failures_of reader.old }
    ensures unfailing { result ≡ 0 → failures_of writer.new ≡ failures_of writer.old }
    ensures quiet { result ≡ 0 → errors.new ≡ errors.old }

    // The fault is reported, and behind it nothing but an explanation, which is left out only where
    // the explainer lacked memory.
    ensures stopped { result ≡ 1 → (fault : LoadFault)
        × IsLoadStop (remaining_of R.remaining) workers limit (refused_of spawner.old)
        (refused_of spawner.new) reader.old reader.new writer.old writer.new fault
        × IsToldAnd explain E.contents errors.old errors.new (fault_line (load_fault_text fault))
        (IsMore (HasLacked explainer.old explainer.new) (kept_of (inner_of reader.new)) E.contents
        fault) }

    // Whatever it answers.
    ensures few_reads { calls_of reader.new ≤ calls_of reader.old + most_reads }
    ensures reads { HasRead reader.old reader.new }
{
    match carry_out(rt, spawner, alloc, limit, workers, reader, writer) {
        Ok(()) => DONE,
        Err(fault) => {
            tell(explainer, alloc, explain, reader.inner(), fault, errors);
            FAULT
        }
    }
}

/// Tells why a load stopped, and says more of it if that is asked for.
fn tell<R, E: Write>(
    explainer: &mut LineExplainer,
    alloc: Global,
    explain: bool,
    reader: &Kept<R>,
    fault: LoadFault,
    errors: &mut Counted<E>,
)
    ensures { IsToldAnd explain E.contents errors.old errors.new
        (fault_line (load_fault_text fault)) (IsMore (HasLacked explainer.old explainer.new)
        (kept_of reader.now) E.contents fault) }
{
    report_load_fault(errors, fault);
    if !explain {
        return;
    }
    explain_fault(explainer, alloc, reader, fault, errors);
}

/// Says more of a fault, where a line has it.
fn explain_fault<R, E: Write>(
    explainer: &mut LineExplainer,
    alloc: Global,
    reader: &Kept<R>,
    fault: LoadFault,
    errors: &mut Counted<E>,
)
    ensures { IsMore (HasLacked explainer.old explainer.new) (kept_of reader.now) E.contents fault
        errors.old errors.new }
{
    if let LoadFault::Line(at) = fault {
        tell_explained(explainer, alloc, TextKind::Trace, reader, at, errors);
    }
}

/// Carries a trace out.
fn carry_out<T, R: Read, W: Write>(
    rt: &T,
    spawner: &mut Spawner<'_, T>,
    alloc: Global,
    limit: u32,
    workers: usize,
    reader: &mut Counted<R>,
    writer: &mut Counted<W>,
) -> Result<(), LoadFault>
where
    T: Threads + Wait + SystemClock + Sync,
    requires least { 1 ≤ limit }
    requires most { limit ≤ greatest_limit }
    requires some { 1 ≤ workers }
    requires few { workers ≤ 64 }
    ensures done { OnOk result (IfLeft R.remaining reader.old (λ text.
        IsLoaded workers limit text (Wrote W.contents writer.old writer.new))) }
    ensures flushed { OnOk result (is_flushed writer.new ≡ true) }
    ensures read { OnOk result (failures_of reader.new ≡ failures_of reader.old) }
    ensures unfailing { OnOk result (failures_of writer.new ≡ failures_of writer.old) }
    ensures stopped { IfErr result (IsLoadStop R.remaining workers limit
        (refused_of spawner.old) (refused_of spawner.new)
        reader.old reader.new writer.old writer.new) }
    ensures few_reads { calls_of reader.new ≤ calls_of reader.old + most_reads }
    ensures reads { HasRead reader.old reader.new }
{
    load(rt, spawner, alloc, reader, writer, limit, workers)
}

/// Tells why a load stopped.
fn report_load_fault<E: Write>(errors: &mut Counted<E>, fault: LoadFault)
    ensures { IsTold E.contents errors.old errors.new (fault_line (load_fault_text fault)) }
{
    match fault {
        LoadFault::Memory => report_fault(errors, &["memory"]),
        LoadFault::Read => report_fault(errors, &["read"]),
        LoadFault::TooLarge => report_fault(errors, &["too large"]),
        LoadFault::Line(fault) => report_line_fault(errors, fault),
        LoadFault::Write => report_fault(errors, &["write"]),
        LoadFault::Thread => report_fault(errors, &["thread"]),
        LoadFault::Audit(cause) => tell_cause(errors, cause),
    }
}

/// Tells why an audit fails.
fn tell_cause<E: Write>(errors: &mut Counted<E>, cause: Cause)
    ensures { IsTold E.contents errors.old errors.new
        (fault_line (load_fault_text (LoadFault.Audit cause))) }
{
    report_fault(errors, &["audit: ", cause_word(cause)]);
}

/// The word of a cause.
fn cause_word(cause: Cause) -> &'static str
    ensures { result.now ≡ cause_text cause }
{
    match cause {
        Cause::Memory => "memory",
        Cause::PassesMissing { .. } => "passes missing",
        Cause::Rolled { .. } => "rolled",
        Cause::Strange { .. } => "strange",
        Cause::Order { .. } => "order",
        Cause::Uncovered { .. } => "uncovered",
        Cause::Unmatched { .. } => "unmatched",
    }
}
