// Why a configuration isn't accepted, and the line that says so.
ghost use Rattle.config_check.specs.CheckFault.{check_fault_text};
ghost use Rattle.fault_lines.specs.FaultLine.{IsTold, fault_line};

use config_file::{FileFault, report_file_fault, report_too_few};
use counted_io::{Counted, WriteFault};
use fault_lines::report_fault;
use gateway_settings::TooFewExchanges;
use std::io::Write;

/// Why a configuration isn't accepted.
#[derive(Drop)]
pub enum CheckFault {
    /// Its file gives no settings.
    File(FileFault),
    /// The settings don't fit into the number of exchanges that was given.
    Exchanges(TooFewExchanges),
    /// The line on standard output can't be written.
    Write,
}

impl From<FileFault> for CheckFault {
    ghost use Rattle.std.specs.Prelude.{◌≡◌};
    ghost use Rattle.config_check.specs.declared.check_fault.CheckFault.TheVariants.{File};

    ghost from_gives = { λ fault given. given ≡ File fault };

    fn from(fault: FileFault) -> CheckFault {
        CheckFault::File(fault)
    }
}

impl From<TooFewExchanges> for CheckFault {
    ghost use Rattle.std.specs.Prelude.{◌≡◌};
    ghost use Rattle.config_check.specs.declared.check_fault.CheckFault.TheVariants.{Exchanges};

    ghost from_gives = { λ few given. given ≡ Exchanges few };

    fn from(few: TooFewExchanges) -> CheckFault {
        CheckFault::Exchanges(few)
    }
}

impl From<WriteFault> for CheckFault {
    ghost use Rattle.std.specs.Prelude.{◌≡◌};
    ghost use Rattle.config_check.specs.declared.check_fault.CheckFault.TheVariants.{Write};

    ghost from_gives = { λ _ given. given ≡ Write };

    fn from(_: WriteFault) -> CheckFault {
        CheckFault::Write
    }
}

/// Tells why a configuration isn't accepted, in one line that is flushed. Where it can't be
/// written, it is dropped. It takes no memory.
pub(crate) fn report_check_fault<E: Write>(errors: &mut Counted<E>, fault: &CheckFault)
    ensures { IsTold E.contents errors.old errors.new (fault_line (check_fault_text fault.now)) }
{
    match fault {
        CheckFault::File(fault) => report_file_fault(errors, fault),
        CheckFault::Exchanges(few) => report_too_few(errors, *few),
        CheckFault::Write => report_fault(errors, &["write"]),
    }
}
