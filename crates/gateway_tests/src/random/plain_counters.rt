// Counters that are counted of all that came.
use limiter_core::{Counters, Entry, Event, Outcome, Reply};

/// How many entries there are of each kind.
pub(crate) fn counters_of(entries: &[Entry]) -> Counters {
    let mut counters = Counters::default();
    for entry in entries {
        count(&mut counters, entry);
    }
    counters
}

/// Counts an entry: a promotion, an ending by its outcome, or a call by its reply.
fn count(counters: &mut Counters, entry: &Entry) {
    let Entry::Call { event, reply } = entry else {
        raise(&mut counters.promoted);
        return;
    };
    match (event, reply) {
        (Event::End { outcome, .. }, _) => count_ending(counters, *outcome),
        (_, Reply::Admitted { .. }) => raise(&mut counters.admitted),
        (_, Reply::Bypassed) => raise(&mut counters.bypassed),
        (_, Reply::Full) => raise(&mut counters.full),
        (_, Reply::BacklogFull) => raise(&mut counters.backlog_full),
        (_, Reply::Waiting) => raise(&mut counters.waiting),
        (_, Reply::TimedOut) => raise(&mut counters.timed_out),
        _ => {}
    }
}

fn count_ending(counters: &mut Counters, outcome: Outcome) {
    match outcome {
        Outcome::Success => raise(&mut counters.success),
        Outcome::Ignored => raise(&mut counters.ignored),
        Outcome::Dropped => raise(&mut counters.dropped),
    }
}

fn raise(count: &mut u64) {
    *count = count.saturating_add(1);
}
