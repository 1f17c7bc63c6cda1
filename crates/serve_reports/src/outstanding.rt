// Permits that haven't ended.
ghost use Rattle.std.specs.Prelude.{◌≡◌, ◌≤◌};
ghost use Rattle.serve_reports.specs.Outstanding.{nothing_out, one_more};

use std::alloc::{AllocError, Global};
use std::sync::atomic::{AtomicU64, Ordering};

/// The nanoseconds of a second.
const SECOND: u64 = 1_000_000_000;

/// A permit is old after so many seconds.
const OLD_SECONDS: u64 = 60;

/// How old the permits are at one moment that haven't ended.
#[derive(Clone, Copy)]
pub struct Outstanding {
    /// The whole seconds since the oldest of them was got; 0 where none is out.
    pub oldest_seconds: u64,
    /// How many of them were got a minute ago or earlier.
    pub old: u32,
}

impl Outstanding {
    /// None is out.
    pub fn new() -> Outstanding
        ensures { result ≡ nothing_out }
    {
        Outstanding {
            oldest_seconds: 0,
            old: 0,
        }
    }

    /// One more is out since a moment, now, both in nanoseconds.
    pub fn with(self, since: u64, now: u64) -> Outstanding
        ensures { result ≡ one_more self since now }
    {
        let seconds = now.saturating_sub(since) / SECOND;
        let old = if OLD_SECONDS <= seconds {
            self.old.saturating_add(1)
        } else {
            self.old
        };
        Outstanding {
            oldest_seconds: self.oldest_seconds.max(seconds),
            old,
        }
    }
}

/// When callers got the permits that they have out, a place for each of them: in nanoseconds from 1
/// on, and 0 where one has none. A caller changes its own alone.
#[derive(Drop)]
pub struct Moments {
    since: Vec<AtomicU64>,
}

impl Moments {
    /// So many callers, who have none. It fails only out of memory.
    pub fn new(alloc: Global, callers: u32) -> Result<Moments, AllocError> {
        let mut since = Vec::new(alloc);
        for _ in 0..callers {
            since.push(AtomicU64::new(0))?;
        }
        Ok(Moments { since })
    }

    /// The place of a caller, where there is one of this number, from 0 on.
    pub fn place(&self, number: usize) -> Option<&AtomicU64> {
        self.since.get(number)
    }

    /// How old those are now that are out.
    pub fn outstanding(&self, now: u64) -> Outstanding {
        let mut out = Outstanding::new();
        for since in &self.since {
            let since = since.load(Ordering::Relaxed);
            if since > 0 {
                out = out.with(since, now);
            }
        }
        out
    }
}
