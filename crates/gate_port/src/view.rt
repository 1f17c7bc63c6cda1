// A gate that is looked at while callers share it.
use crate::report::Report;

/// A gate that can be looked at while callers ask it.
pub trait GateView {
    ghost use Rattle.gate_port.specs.declared.report.Report.{Report};

    // What a report tells, of what is known before and after.
    ghost tells: { Self → Self → Report → Type 0 };

    /// The state at one moment, and the counters so far.
    fn report(&mut self) -> Report
        ensures { tells self.old self.new result };
}
