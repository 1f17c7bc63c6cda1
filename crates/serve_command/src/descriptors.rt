// How many descriptors a gateway wants, and whether the system gives them.
ghost use Rattle.std.specs.Prelude.{◌≡◌, ◌<◌, IfErr};
ghost use Rattle.serve_command.specs.Descriptors.{LackDescriptors, wanted_by};

use crate::limits::{FILES, limit_on};
use config_file::Opener;
use gateway_settings::Settings;
use std::alloc::Global;

/// How many descriptors the program itself wants: its streams, its listeners, and what it reads.
const OWN: u64 = 8;

/// The system gives fewer descriptors than the exchanges at once want.
#[derive(Clone, Copy)]
pub struct TooFewDescriptors {
    /// How many are wanted: two for each exchange, for its client and its backend, one for each
    /// connection to the backend that may be kept, and 8 for the program itself.
    pub wanted: u64,
    /// How many the system gives.
    pub given: u64,
}

/// How many descriptors so many threads want that serve clients, of which so many connections to
/// the backend may be kept.
pub(crate) fn wanted_by(threads: u32, backends: u32) -> u64
    ensures { result ≡ wanted_by threads backends }
{
    2 * u64::from(threads) + u64::from(backends) + OWN
}

/// Whether the system gives as many descriptors as the exchanges of the settings want, if these
/// have a number of them, and if it tells how many it gives.
pub(crate) fn check_descriptors<F: Opener>(
    files: &F,
    alloc: Global,
    settings: &Settings,
) -> Result<(), TooFewDescriptors>
    ensures { IfErr result (LackDescriptors settings.now) }
{
    let Some(exchanges) = settings.exchanges else {
        return Ok(());
    };
    let wanted = wanted_by(exchanges, settings.backends);
    match limit_on(files, alloc, FILES) {
        Some(given) if given < wanted => Err(TooFewDescriptors { wanted, given }),
        _ => Ok(()),
    }
}
