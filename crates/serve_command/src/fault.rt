// Why a gateway ended, or didn't begin, and the line that says so.
ghost use Rattle.fault_lines.specs.FaultLine.{IsTold, fault_line};
ghost use Rattle.serve_command.specs.Descriptors.{few_descriptors_text};
ghost use Rattle.serve_command.specs.ServiceFault.{service_fault_text};

use crate::descriptors::TooFewDescriptors;
use config_file::{FileFault, report_file_fault, report_too_few};
use counted_io::{Counted, WriteFault};
use fault_lines::report_fault;
use gateway_settings::TooFewExchanges;
use itoa::Buffer;
use serving::ServeFault;
use std::io::Write;

/// Why a gateway ended with a fault.
#[derive(Drop)]
pub enum ServiceFault {
    /// The configuration can't be read, or isn't one.
    Config(FileFault),
    /// The settings want more exchanges at once than are given.
    Exchanges(TooFewExchanges),
    /// The exchanges at once want more descriptors than the system gives.
    Descriptors(TooFewDescriptors),
    /// The address can't be bound.
    Listen,
    /// A growth was refused, before any worker was started.
    Memory,
    /// A thread couldn't be started; the workers that were have ended.
    Thread,
    /// All workers have ended, and the gate's counters tell of calls that none of them made, or of
    /// permits that weren't ended; or the listener can't tell whom it gave.
    Miscounted,
    /// The counters can't be written.
    Write,
}

impl From<FileFault> for ServiceFault {
    ghost use Rattle.std.specs.Prelude.{◌≡◌};
    ghost use Rattle.serve_command.specs.declared.fault.ServiceFault.TheVariants.{Config};

    ghost from_gives = { λ fault given. given ≡ Config fault };

    fn from(fault: FileFault) -> ServiceFault {
        ServiceFault::Config(fault)
    }
}

impl From<TooFewExchanges> for ServiceFault {
    ghost use Rattle.std.specs.Prelude.{◌≡◌};
    ghost use Rattle.serve_command.specs.declared.fault.ServiceFault.TheVariants.{Exchanges};

    ghost from_gives = { λ fault given. given ≡ Exchanges fault };

    fn from(fault: TooFewExchanges) -> ServiceFault {
        ServiceFault::Exchanges(fault)
    }
}

impl From<TooFewDescriptors> for ServiceFault {
    ghost use Rattle.std.specs.Prelude.{◌≡◌};
    ghost use Rattle.serve_command.specs.declared.fault.ServiceFault.TheVariants.{Descriptors};

    ghost from_gives = { λ fault given. given ≡ Descriptors fault };

    fn from(fault: TooFewDescriptors) -> ServiceFault {
        ServiceFault::Descriptors(fault)
    }
}

impl From<ServeFault> for ServiceFault {
    ghost use Rattle.std.specs.Prelude.{◌≡◌};
    ghost use Rattle.serve_command.specs.ServiceFault.{of_workers};

    ghost from_gives = { λ fault given. given ≡ of_workers fault };

    fn from(fault: ServeFault) -> ServiceFault {
        match fault {
            ServeFault::Memory => ServiceFault::Memory,
            ServeFault::Thread => ServiceFault::Thread,
        }
    }
}

impl From<WriteFault> for ServiceFault {
    ghost use Rattle.std.specs.Prelude.{◌≡◌};
    ghost use Rattle.serve_command.specs.declared.fault.ServiceFault.TheVariants.{Write};

    ghost from_gives = { λ _ given. given ≡ Write };

    fn from(_: WriteFault) -> ServiceFault {
        ServiceFault::Write
    }
}

/// Tells a fault.
pub(crate) fn report_service_fault<E: Write>(errors: &mut Counted<E>, fault: &ServiceFault)
    ensures { IsTold E.contents errors.old errors.new
        (fault_line (service_fault_text fault.now)) }
{
    match fault {
        ServiceFault::Config(fault) => report_file_fault(errors, fault),
        ServiceFault::Exchanges(few) => report_too_few(errors, *few),
        ServiceFault::Descriptors(few) => report_descriptors(errors, *few),
        ServiceFault::Listen => report_fault(errors, &["listen"]),
        ServiceFault::Memory => report_fault(errors, &["memory"]),
        ServiceFault::Thread => report_fault(errors, &["thread"]),
        ServiceFault::Miscounted => report_fault(errors, &["miscounted"]),
        ServiceFault::Write => report_fault(errors, &["write"]),
    }
}

/// Reports that the exchanges at once want more descriptors than the system gives, in one line that
/// is flushed. A line that can't be written is dropped. It takes no memory.
fn report_descriptors<E: Write>(errors: &mut Counted<E>, few: TooFewDescriptors)
    ensures { IsTold E.contents errors.old errors.new
        (fault_line (few_descriptors_text few)) }
{
    let (mut wanted, mut given) = (Buffer::new(), Buffer::new());
    report_fault(
        errors,
        &[
            "descriptors: ",
            wanted.format(few.wanted),
            " are wanted, ",
            given.format(few.given),
            " are given",
        ],
    );
}
