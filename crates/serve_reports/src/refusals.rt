// How many requests of each class the gate refused.
ghost use Rattle.std.specs.Prelude.{◌≡◌, ◌<◌};
ghost use Rattle.serve_reports.specs.Refusals.{raised_at, refused, refused_at, told_place};

use gate_port::Why;
use partitions::Part;
use proxy::{ExchangeSummary, Verdict};

/// How many requests of each class the gate refused since the start, by the cause: of `Known(0)` to
/// `Known(3)`, and last of all other callers, as a report tells its counts. Each was answered 429.
/// A count stays at `u64::MAX`.
#[derive(Clone, Copy, Default)]
pub struct RefusalTally {
    /// There was no room, and the request wasn't to wait.
    pub full: [u64; 5],
    /// There was no room, and no place of the backlog was free for it.
    pub backlog: [u64; 5],
    /// It waited, and got no permit in time.
    pub timed_out: [u64; 5],
}

impl RefusalTally {
    /// Counts an exchange, where the gate refused its request.
    pub fn count(&mut self, exchange: &ExchangeSummary)
        ensures { self.new ≡ refused exchange.now self.old }
    {
        if let Some(class) = exchange.class {
            if let Verdict::Refused(why) = exchange.admission {
                self.count_at(told_place(class.part), why);
            }
        }
    }

    /// Counts a refusal of a class.
    fn count_at(&mut self, place: usize, why: Why)
        requires { place < 5 }
        ensures { self.new ≡ refused_at place why self.old }
    {
        match why {
            Why::Full => raise(&mut self.full, place),
            Why::BacklogFull => raise(&mut self.backlog, place),
            Why::TimedOut => raise(&mut self.timed_out, place),
            Why::Lost | Why::Exhausted => {}
        }
    }
}

/// The place at which a class is told of.
pub(crate) fn told_place(part: Part) -> usize
    ensures place { result ≡ told_place part }
    ensures among_five { result < 5 }
{
    match part {
        Part::Known(row) if row < 4 => usize::from(row),
        Part::Known(_) | Part::Unknown => 4,
    }
}

/// One more at a place.
pub(crate) fn raise(counts: &mut [u64; 5], place: usize)
    requires { place < 5 }
    ensures { counts.new ≡ raised_at place counts.old }
{
    counts[place] = counts[place].saturating_add(1);
}
