// Why a file gives no settings, and the line that says so.
ghost use Rattle.config_file.specs.FileFault.{config_fault_text, file_fault_text, too_few_text};
ghost use Rattle.fault_lines.specs.FaultLine.{IsTold, fault_line};

use counted_io::{Counted, ReadFault};
use fault_lines::report_fault;
use gate_config::ConfigFault;
use gateway_settings::TooFewExchanges;
use itoa::Buffer;
use std::io::Write;

/// Why a file gives no settings.
#[derive(Drop)]
pub enum FileFault {
    /// The file can't be opened or read, isn't at its end after 2^25 reads, or has more than 1 MiB.
    Read,
    /// The file's bytes aren't those of a configuration, or out of memory.
    Config(ConfigFault),
}

impl From<ReadFault> for FileFault {
    ghost use Rattle.std.specs.Prelude.{◌≡◌};
    ghost use Rattle.config_file.specs.FileFault.{read_fault};

    ghost from_gives = { λ fault given. given ≡ read_fault fault };

    fn from(fault: ReadFault) -> FileFault {
        match fault {
            ReadFault::Memory => FileFault::Config(ConfigFault::Memory),
            ReadFault::Read | ReadFault::TooLarge => FileFault::Read,
        }
    }
}

impl From<ConfigFault> for FileFault {
    ghost use Rattle.std.specs.Prelude.{◌≡◌};
    ghost use Rattle.config_file.specs.declared.file_fault.FileFault.TheVariants.{Config};

    ghost from_gives = { λ fault given. given ≡ Config fault };

    fn from(fault: ConfigFault) -> FileFault {
        FileFault::Config(fault)
    }
}

/// Tells why a file gives no settings, in one line that is flushed. Where it can't be written, it
/// is dropped. It takes no memory.
pub fn report_file_fault<E: Write>(errors: &mut Counted<E>, fault: &FileFault)
    ensures { IsTold E.contents errors.old errors.new (fault_line (file_fault_text fault.now)) }
{
    match fault {
        FileFault::Read => report_fault(errors, &["config: read"]),
        FileFault::Config(fault) => report_config_fault(errors, fault),
    }
}

/// Reports that settings want more exchanges at once than are given, in one line that is flushed. A
/// line that can't be written is dropped. It takes no memory.
pub fn report_too_few<E: Write>(errors: &mut Counted<E>, few: TooFewExchanges)
    ensures { IsTold E.contents errors.old errors.new (fault_line (too_few_text few)) }
{
    let mut wanted = Buffer::new();
    report_fault(
        errors,
        &["exchanges: ", wanted.format(few.wanted), " are wanted"],
    );
}

/// Tells the fault of a configuration's bytes.
fn report_config_fault<E: Write>(errors: &mut Counted<E>, fault: &ConfigFault)
    ensures { IsTold E.contents errors.old errors.new (fault_line (config_fault_text fault.now)) }
{
    let (cause, section, name) = fault.pieces();
    report_fault(errors, &["config: ", cause, section, name]);
}
