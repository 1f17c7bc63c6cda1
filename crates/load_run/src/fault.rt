// Why a load stops.
ghost use Rattle.std.specs.Prelude.{◌≡◌};

use counted_io::{ReadFault, WriteFault};
use script::LineFault;
use shared_gate::Cause;
use std::alloc::AllocError;
use tasks::TasksFault;

/// Why a load stops.
#[derive(Clone, Copy, PartialEq, Eq)]
pub enum LoadFault {
    /// Out of memory.
    Memory,
    /// The reader failed, or wasn't at its end after 2^25 reads.
    Read,
    /// The input has more than 16 MiB.
    TooLarge,
    /// A line is at fault: no worker was started.
    Line(LineFault),
    /// The writer failed; how much it took isn't said.
    Write,
    /// A worker can't be started; those that were have ended.
    Thread,
    /// The audit of the run failed.
    Audit(Cause),
}

impl From<AllocError> for LoadFault {
    ghost use Rattle.load_run.specs.declared.fault.LoadFault.TheVariants.{Memory};

    ghost from_gives = { λ _ fault. fault ≡ Memory };

    fn from(_error: AllocError) -> LoadFault {
        LoadFault::Memory
    }
}

impl From<TasksFault> for LoadFault {
    ghost use Rattle.load_run.specs.Driver.{told_of_tasks};

    ghost from_gives = { λ fault told. told ≡ told_of_tasks fault };

    fn from(fault: TasksFault) -> LoadFault {
        match fault {
            TasksFault::Memory => LoadFault::Memory,
            TasksFault::Thread => LoadFault::Thread,
        }
    }
}

impl From<ReadFault> for LoadFault {
    ghost use Rattle.load_run.specs.Driver.{told_of_read};

    ghost from_gives = { λ fault told. told ≡ told_of_read fault };

    fn from(fault: ReadFault) -> LoadFault {
        match fault {
            ReadFault::Memory => LoadFault::Memory,
            ReadFault::Read => LoadFault::Read,
            ReadFault::TooLarge => LoadFault::TooLarge,
        }
    }
}

impl From<WriteFault> for LoadFault {
    ghost use Rattle.load_run.specs.declared.fault.LoadFault.TheVariants.{Write};

    ghost from_gives = { λ _ told. told ≡ Write };

    fn from(_fault: WriteFault) -> LoadFault {
        LoadFault::Write
    }
}

impl From<Cause> for LoadFault {
    ghost use Rattle.load_run.specs.declared.fault.LoadFault.TheVariants.{Audit};

    ghost from_gives = { λ cause told. told ≡ Audit cause };

    fn from(cause: Cause) -> LoadFault {
        LoadFault::Audit(cause)
    }
}
