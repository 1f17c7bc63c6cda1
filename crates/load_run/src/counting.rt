// What is counted of a history.
ghost use Rattle.std.specs.Prelude.{◌≡◌, count_by};
ghost use Rattle.load_run.specs.Kinds.{ends_in, is_of};
ghost use Rattle.load_run.specs.Summary.{summary_of};

use crate::summary::Summary;
use limiter_core::{Counters, Entry, Event, Outcome, Reply};

/// The kinds of entries that are counted: calls, replies, promotions, and outcomes of endings.
#[derive(Clone, Copy)]
pub(crate) enum Kind {
    Called,
    Admitted,
    Bypassed,
    Full,
    BacklogFull,
    Waiting,
    Promoted,
    TimedOut,
    Success,
    Ignored,
    Dropped,
}

/// The entry is of a kind.
fn is_of(kind: Kind, entry: &Entry) -> bool
    ensures { result ≡ is_of kind entry.now }
{
    let Entry::Call { event, reply } = entry else {
        return matches!(kind, Kind::Promoted);
    };
    match kind {
        Kind::Called => true,
        Kind::Admitted => matches!(reply, Reply::Admitted { .. }),
        Kind::Bypassed => matches!(reply, Reply::Bypassed),
        Kind::Full => matches!(reply, Reply::Full),
        Kind::BacklogFull => matches!(reply, Reply::BacklogFull),
        Kind::Waiting => matches!(reply, Reply::Waiting),
        Kind::Promoted => false,
        Kind::TimedOut => matches!(reply, Reply::TimedOut),
        Kind::Success => ends_in(event, Outcome::Success),
        Kind::Ignored => ends_in(event, Outcome::Ignored),
        Kind::Dropped => ends_in(event, Outcome::Dropped),
    }
}

/// The event is an ending with this outcome.
fn ends_in(event: &Event, wanted: Outcome) -> bool
    ensures { result ≡ ends_in wanted event.now }
{
    matches!(event, Event::End { outcome, .. } if *outcome == wanted)
}

/// How many entries are of a kind.
fn count_of(entries: &[Entry], kind: Kind) -> u64
    ensures { result ≡ count_by (is_of kind) entries.now }
{
    let mut count = 0;
    for entry in entries {
        if is_of(kind, entry) {
            count += 1;
        }
    }
    count
}

/// What is counted of a history.
pub(crate) fn count_entries(entries: &[Entry]) -> Summary
    ensures { result ≡ summary_of entries.now }
{
    Summary {
        calls: count_of(entries, Kind::Called),
        counters: Counters {
            admitted: count_of(entries, Kind::Admitted),
            bypassed: count_of(entries, Kind::Bypassed),
            full: count_of(entries, Kind::Full),
            backlog_full: count_of(entries, Kind::BacklogFull),
            waiting: count_of(entries, Kind::Waiting),
            promoted: count_of(entries, Kind::Promoted),
            timed_out: count_of(entries, Kind::TimedOut),
            success: count_of(entries, Kind::Success),
            ignored: count_of(entries, Kind::Ignored),
            dropped: count_of(entries, Kind::Dropped),
        },
    }
}
