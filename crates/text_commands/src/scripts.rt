// A command over a text.
ghost use Rattle.std.specs.Prelude.{◌≡◌, ◌≤◌, ◌+◌, ◌⊎◌, true, None, OnOk, IfErr};
ghost use Rattle.counted_io.specs.Causes.{HasRead};
ghost use Rattle.counted_io.specs.Counted.{calls_of, failures_of, inner_of, is_flushed};
ghost use Rattle.counted_io.specs.Effects.{IfLeft, Wrote};
ghost use Rattle.limit_laws.specs.Algorithm.{greatest_limit};
ghost use Rattle.load_driver.specs.Driver.{fault_text};
ghost use Rattle.load_driver.specs.Limits.{most_reads};
ghost use Rattle.commands.specs.CommandLine.{limit_of};
ghost use Rattle.fault_lines.specs.FaultLine.{IsTold, fault_line};
ghost use Rattle.line_explain.specs.BehindFault.{IsToldAnd};
ghost use Rattle.line_explain.specs.Kept.{kept_of, remaining_of};
ghost use Rattle.line_explain.specs.Lacking.{HasLacked};
ghost use Rattle.text_commands.specs.Scripts.{IsAnswerOf, IsMore, IsStop, kind_of};

use crate::line_fault::report_line_fault;
use commands::TextTask;
use counted_io::Counted;
use fault_lines::{DONE, FAULT, report_fault};
use line_explain::{Kept, LineExplainer, tell_explained};
use load_driver::{DriverFault, replay};
use script::TextKind;
use std::alloc::Global;
use std::io::{Read, Write};
use virtual_time::simulate;

/// Carries out a command over a text, tells its fault on `errors`, and answers the exit status.
///
/// The line of the fault comes after all output, is flushed and takes no memory; where it can't be
/// written itself, it is dropped. Behind it, where an explanation is asked for and a line is at
/// fault, it is said which of its words is wrong and what is wanted there, by the text that the
/// reader kept. Where the explainer is out of memory for that, nothing is, and it counts that.
pub fn run_text<R: Read, W: Write, E: Write>(
    explainer: &mut LineExplainer,
    alloc: Global,
    task: TextTask,
    explain: bool,
    reader: &mut Counted<Kept<R>>,
    writer: &mut Counted<W>,
    errors: &mut Counted<E>,
) -> u8
    requires least { 1 ≤ limit_of task }
    requires most { limit_of task ≤ greatest_limit }
    ensures status { (result ≡ 0) ⊎ (result ≡ 1) }

    // The whole text is written and flushed.
    ensures done { result ≡ 0 → IfLeft (remaining_of R.remaining) reader.old (λ text.
        IsAnswerOf task text None (Wrote W.contents writer.old writer.new)) }
    ensures flushed { result ≡ 0 → is_flushed writer.new ≡ true }
    ensures read { result ≡ 0 → failures_of reader.new ≡ failures_of reader.old }
    ensures unfailing { result ≡ 0 → failures_of writer.new ≡ failures_of writer.old }
    ensures quiet { result ≡ 0 → errors.new ≡ errors.old }

    // The fault is reported, and behind it nothing but an explanation, which is left out only where
    // the explainer lacked memory.
    ensures stopped { result ≡ 1 → (fault : DriverFault)
        × IsStop (remaining_of R.remaining) W.contents task
        reader.old reader.new writer.old writer.new fault
        × IsToldAnd explain E.contents errors.old errors.new (fault_line (fault_text fault))
        (IsMore (HasLacked explainer.old explainer.new) (kind_of task)
        (kept_of (inner_of reader.new)) E.contents fault) }

    // Whatever it answers.
    ensures few { calls_of reader.new ≤ calls_of reader.old + most_reads }
    ensures reads { HasRead reader.old reader.new }
{
    match carry_out(alloc, task, reader, writer) {
        Ok(()) => DONE,
        Err(fault) => {
            tell(
                explainer,
                alloc,
                task,
                explain,
                reader.inner(),
                fault,
                errors,
            );
            FAULT
        }
    }
}

/// Tells why a driver stopped, and says more of it if that is asked for.
fn tell<R, E: Write>(
    explainer: &mut LineExplainer,
    alloc: Global,
    task: TextTask,
    explain: bool,
    reader: &Kept<R>,
    fault: DriverFault,
    errors: &mut Counted<E>,
)
    ensures { IsToldAnd explain E.contents errors.old errors.new (fault_line (fault_text fault))
        (IsMore (HasLacked explainer.old explainer.new) (kind_of task) (kept_of reader.now)
        E.contents fault) }
{
    report_driver_fault(errors, fault);
    if !explain {
        return;
    }
    explain_fault(explainer, alloc, task, reader, fault, errors);
}

/// Says more of a fault, where a line has it.
fn explain_fault<R, E: Write>(
    explainer: &mut LineExplainer,
    alloc: Global,
    task: TextTask,
    reader: &Kept<R>,
    fault: DriverFault,
    errors: &mut Counted<E>,
)
    ensures { IsMore (HasLacked explainer.old explainer.new) (kind_of task) (kept_of reader.now)
        E.contents fault errors.old errors.new }
{
    if let DriverFault::Line(at) = fault {
        tell_explained(explainer, alloc, kind_of(task), reader, at, errors);
    }
}

/// What a command reads.
fn kind_of(task: TextTask) -> TextKind
    ensures { result ≡ kind_of task }
{
    match task {
        TextTask::Replay { .. } => TextKind::Script,
        TextTask::Simulate { .. } => TextKind::Trace,
    }
}

/// Carries out a command over a text.
fn carry_out<R: Read, W: Write>(
    alloc: Global,
    task: TextTask,
    reader: &mut Counted<R>,
    writer: &mut Counted<W>,
) -> Result<(), DriverFault>
    requires least { 1 ≤ limit_of task }
    requires most { limit_of task ≤ greatest_limit }
    ensures done { OnOk result (IfLeft R.remaining reader.old (λ text.
        IsAnswerOf task text None (Wrote W.contents writer.old writer.new))) }
    ensures flushed { OnOk result (is_flushed writer.new ≡ true) }
    ensures read { OnOk result (failures_of reader.new ≡ failures_of reader.old) }
    ensures unfailing { OnOk result (failures_of writer.new ≡ failures_of writer.old) }
    ensures stopped { IfErr result (IsStop R.remaining W.contents task
        reader.old reader.new writer.old writer.new) }
    ensures few { calls_of reader.new ≤ calls_of reader.old + most_reads }
    ensures reads { HasRead reader.old reader.new }
{
    match task {
        TextTask::Replay { limit } => replay(alloc, reader, writer, limit),
        TextTask::Simulate { limit } => simulate(alloc, reader, writer, limit),
    }
}

/// Tells why a driver stopped.
fn report_driver_fault<E: Write>(errors: &mut Counted<E>, fault: DriverFault)
    ensures { IsTold E.contents errors.old errors.new (fault_line (fault_text fault)) }
{
    match fault {
        DriverFault::Memory => report_fault(errors, &["memory"]),
        DriverFault::Read => report_fault(errors, &["read"]),
        DriverFault::TooLarge => report_fault(errors, &["too large"]),
        DriverFault::Line(fault) => report_line_fault(errors, fault),
        DriverFault::Write => report_fault(errors, &["write"]),
    }
}
