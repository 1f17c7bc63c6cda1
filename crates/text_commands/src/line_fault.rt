// The line that tells of a line at fault.
ghost use Rattle.script.specs.Faults.{line_fault_text};
ghost use Rattle.fault_lines.specs.FaultLine.{IsTold, fault_line};

use counted_io::Counted;
use fault_lines::report_fault;
use itoa::Buffer;
use script::LineFault;
use std::io::Write;

/// Tells which line is at fault, and why.
pub(crate) fn report_line_fault<E: Write>(errors: &mut Counted<E>, fault: LineFault)
    ensures { IsTold E.contents errors.old errors.new (fault_line (line_fault_text fault)) }
{
    let mut number = Buffer::new();
    let pieces = ["line ", number.format(fault.line), ": ", fault.why.text()];
    report_fault(errors, &pieces);
}
