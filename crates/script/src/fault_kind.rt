// Why a line is at fault.
ghost use Rattle.std.specs.Prelude.{◌≡◌};
ghost use Rattle.script.specs.Faults.{kind_text};

use limit_laws::MakeFault;
use std::fmt;

/// Why a line is at fault. Where several apply, the first in this order is answered.
#[derive(Clone, Copy, PartialEq, Eq)]
pub enum FaultKind {
    /// No line has this format.
    Words,
    /// A setting behind a line that is none.
    Late,
    /// A setting that was given before.
    Twice,
    /// A number out of its range, or a setting that is refused.
    Value,
    /// A class that isn't in the table.
    Class,
}

impl FaultKind {
    /// The word for what is wrong with a line, as a fault's text has it.
    pub fn text(self) -> &'static str
        ensures { result.now ≡ kind_text self }
    {
        match self {
            FaultKind::Words => "words",
            FaultKind::Late => "late",
            FaultKind::Twice => "twice",
            FaultKind::Value => "value",
            FaultKind::Class => "class",
        }
    }
}

impl fmt::Display for FaultKind {
    ghost use Rattle.std.specs.Prelude.{Some};
    ghost use Rattle.script.specs.Faults.{kind_text};

    ghost output = { λ why. Some (kind_text why) };

    fn fmt<W: fmt::Write>(&self, f: &mut fmt::Formatter<W>) -> fmt::Result {
        f.write_str(self.text())
    }
}

impl From<MakeFault> for FaultKind {
    ghost use Rattle.std.specs.Prelude.{◌≡◌};
    ghost use Rattle.script.specs.declared.fault_kind.FaultKind.TheVariants.{Value};

    ghost from_gives = { λ _ why. why ≡ Value };

    fn from(_: MakeFault) -> FaultKind {
        FaultKind::Value
    }
}
