// A line at fault.
use super::fault_kind::FaultKind;
use std::fmt;

/// A line at fault.
#[derive(Clone, Copy, PartialEq, Eq)]
pub struct LineFault {
    /// The number of the line in its text, from 1.
    pub line: u64,
    /// What is wrong with it.
    pub why: FaultKind,
}

impl fmt::Display for LineFault {
    ghost use Rattle.std.specs.Prelude.{Some};
    ghost use Rattle.script.specs.Faults.{line_fault_text};

    ghost output = { λ fault. Some (line_fault_text fault) };

    fn fmt<W: fmt::Write>(&self, f: &mut fmt::Formatter<W>) -> fmt::Result {
        let LineFault { line, why } = self;
        write!(f, "line {line}: {why}")
    }
}
