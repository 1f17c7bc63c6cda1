// How many descriptors the system gives this program.
use libc::types::rlimit;
use libc::{RLIMIT_NOFILE, getrlimit};

/// How many descriptors this program may have beside so many that it wants otherwise, by its limit
/// (`RLIMIT_NOFILE` of getrlimit(2)); none where the system doesn't tell that.
pub fn spare_descriptors(wanted: u64) -> u64 {
    let mut limit = rlimit {
        rlim_cur: 0,
        rlim_max: 0,
    };
    if getrlimit(RLIMIT_NOFILE, &mut limit) < 0 {
        return 0;
    }
    limit.rlim_cur.saturating_sub(wanted)
}
