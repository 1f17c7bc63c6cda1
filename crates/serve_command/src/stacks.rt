// Whether there is memory for the stacks of all threads.
ghost use Rattle.std.specs.Prelude.{◌≡◌, IfErr};
ghost use Rattle.serve_command.specs.declared.fault.ServiceFault.TheVariants.{Memory};

use crate::fault::ServiceFault;
use crate::limits::{ADDRESSES, STACK, limit_on};
use commands::ServeOptions;
use config_file::{Opener, read_file_text};
use log::{Log, error};
use std::alloc::{AllocError, Global};

/// How many threads serve at each of the addresses beside that of clients.
const AT_EACH: u64 = 4;

/// The bytes of a thread's stack where the system sets no limit on it.
const USUAL_STACK: u64 = 2 * 1024 * 1024;

/// Where Linux tells whether it gives more memory than there is; it doesn't where this begins with
/// a 2.
const OVERCOMMIT: &str = "/proc/sys/vm/overcommit_memory";

/// About how many bytes are asked for at once: more than the C library ever keeps for later once
/// they are given back, 32 MiB, and few enough that a large sum is no reason to refuse them.
const PIECE: u64 = 64 * 1024 * 1024;

/// Looks whether there is memory for the stacks of all threads, where a number of exchanges is
/// given and the system bounds memory that isn't touched, and logs where there isn't. The system
/// refuses a thread by the same number whether memory or threads are lacking; so the memory is
/// asked for before any thread is started, and given back.
pub(crate) fn check_stacks<R: Log, F: Opener>(
    rt: &R,
    files: &F,
    alloc: Global,
    service: &ServeOptions<'_>,
) -> Result<(), ServiceFault>
    ensures { IfErr result (λ fault. fault ≡ Memory) }
{
    if service.exchanges.is_none() || !is_bounded(files, alloc) {
        return Ok(());
    }
    let threads = count_of(service);
    let stack = limit_on(files, alloc, STACK).unwrap_or(USUAL_STACK);
    match reserve(alloc, threads.saturating_mul(stack)) {
        Ok(()) => Ok(()),
        Err(_) => {
            let stack_kib = stack / 1024;
            error!(rt; target: "admission", threads, stack_kib;
                "there is no memory for the stacks of all threads");
            Err(ServiceFault::Memory)
        }
    }
}

/// Whether the system bounds the memory that this program may have without touching it: by a limit
/// on its addresses, or since it gives no more than there is.
fn is_bounded<F: Opener>(files: &F, alloc: Global) -> bool {
    let is_strict = match read_file_text(files, alloc, OVERCOMMIT) {
        Ok(text) => text.as_slice().starts_with(b"2"),
        Err(_) => false,
    };
    is_strict || limit_on(files, alloc, ADDRESSES).is_some()
}

/// How many threads are started: those that serve clients, and those at the other addresses.
fn count_of(service: &ServeOptions<'_>) -> u64 {
    let admins = if service.admin.is_some() { AT_EACH } else { 0 };
    let lookers = if service.status.is_some() { AT_EACH } else { 0 };
    u64::from(service.threads()) + admins + lookers
}

/// Asks for so many bytes in pieces, and gives them back; for less than one piece it doesn't ask.
fn reserve(alloc: Global, bytes: u64) -> Result<(), AllocError> {
    let count = bytes / PIECE;
    if count == 0 {
        return Ok(());
    }
    let piece = usize::try_from(bytes / count).unwrap_or(usize::MAX);
    let mut pieces: Vec<Vec<u8>> = Vec::new(alloc);
    for _ in 0..count {
        let made = Vec::with_capacity(alloc, piece)?;
        pieces.push(made)?;
    }
    Ok(())
}
