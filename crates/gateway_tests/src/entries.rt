// The entries that one caller leaves.
use limiter_core::{Entry, Event, Outcome, PermitFacts, Reply};
use partitions::Part;

/// An acquire of the first permit at this moment, which was admitted.
pub(crate) const fn acquired(wait: bool, now: u64) -> Entry {
    Entry::Call {
        event: Event::Acquire {
            part: Part::Unknown,
            bypass: false,
            wait,
            now,
        },
        reply: Reply::Admitted { inflight: 1 },
    }
}

/// The ending of that permit at another moment.
pub(crate) const fn ended(start: u64, now: u64) -> Entry {
    Entry::Call {
        event: Event::End {
            permit: PermitFacts {
                number: 0,
                part: Part::Unknown,
                start,
                inflight: 1,
            },
            outcome: Outcome::Success,
            now,
        },
        reply: Reply::Ended { promoted: 0 },
    }
}
