// Why nothing was served.

use std::alloc::AllocError;
use tasks::TasksFault;
use tcp_backend::BackendFault;

/// Why a gateway stopped, or didn't begin.
#[derive(Clone, Copy, Drop)]
pub enum ServeFault {
    /// A growth was refused, before any worker was started.
    Memory = 1,
    /// A thread couldn't be started. The workers that were started have ended.
    Thread = 2,
}

impl From<AllocError> for ServeFault {
    ghost use Rattle.std.specs.Prelude.{◌≡◌};
    ghost use Rattle.serving.specs.declared.fault.ServeFault.TheVariants.{Memory};

    ghost from_gives = { λ _ fault. fault ≡ Memory };

    fn from(_: AllocError) -> ServeFault {
        ServeFault::Memory
    }
}

impl From<BackendFault> for ServeFault {
    ghost use Rattle.std.specs.Prelude.{◌≡◌};
    ghost use Rattle.serving.specs.declared.fault.ServeFault.TheVariants.{Memory};

    ghost from_gives = { λ _ fault. fault ≡ Memory };

    fn from(_: BackendFault) -> ServeFault {
        ServeFault::Memory
    }
}

impl From<TasksFault> for ServeFault {
    ghost use Rattle.std.specs.Prelude.{◌≡◌};
    ghost use Rattle.serving.specs.Faults.{of_tasks};

    ghost from_gives = { λ tasks fault. fault ≡ of_tasks tasks };

    fn from(fault: TasksFault) -> ServeFault {
        match fault {
            TasksFault::Memory => ServeFault::Memory,
            TasksFault::Thread => ServeFault::Thread,
        }
    }
}
