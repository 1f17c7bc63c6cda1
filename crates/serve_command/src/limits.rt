// The limits that the system sets this program.
use config_file::{Opener, read_file_text};
use std::alloc::Global;

/// Where Linux tells a process its limits, a line each.
const LIMITS: &str = "/proc/self/limits";

/// How the line begins that tells of open files.
pub(crate) const FILES: &str = "Max open files";

/// How the line begins that tells of the addresses that the program may have, in bytes.
pub(crate) const ADDRESSES: &str = "Max address space";

/// How the line begins that tells of a thread's stack, in bytes.
pub(crate) const STACK: &str = "Max stack size";

/// The limit that holds for this program, of which a line that begins so tells: none where there is
/// no limit, or where the system doesn't tell it.
pub(crate) fn limit_on<F: Opener>(files: &F, alloc: Global, line: &str) -> Option<u64> {
    let text = read_file_text(files, alloc, LIMITS).ok()?;
    told_in(str::from_utf8(&text).ok()?, line)
}

/// The number that a list of limits tells in a line that begins so: the one that holds comes first.
fn told_in(limits: &str, begin: &str) -> Option<u64> {
    for line in limits.lines() {
        if let Some(rest) = line.strip_prefix(begin) {
            return rest.split_whitespace().next()?.parse().ok();
        }
    }
    None
}
