// What happens often, told seldom.
ghost use Rattle.std.specs.Prelude.{◌≡◌, None};
ghost use Rattle.serve_reports.specs.Spells.{ended, is_due, is_over, noted, rested, told};

/// The least time from one telling to the next, in nanoseconds: ten seconds. What doesn't happen
/// for so long is over.
const LENGTH_NS: u64 = 10_000_000_000;

/// How often something happened: since it was last told, and at all.
#[derive(Clone, Copy)]
pub struct RateLimitedLog {
    // When it was last told.
    last: Option<u64>,
    // When it happened last, unless it was told since that it is over.
    seen: Option<u64>,
    count: u64,
    total: u64,
}

impl RateLimitedLog {
    /// Nothing has happened.
    pub fn new() -> RateLimitedLog
        ensures last { result.last ≡ None }
        ensures seen { result.seen ≡ None }
        ensures count { result.count ≡ 0 }
        ensures total { result.total ≡ 0 }
    {
        RateLimitedLog {
            last: None,
            seen: None,
            count: 0,
            total: 0,
        }
    }

    /// How often it happened.
    pub fn total(&self) -> u64
        ensures { result ≡ self.now.total }
    {
        self.total
    }

    /// It happens once more, at this moment in nanoseconds. Where it was never told, or last ten
    /// seconds ago or earlier, it is told now: how often it happened since, this time among them.
    pub fn note(&mut self, now: u64) -> Option<u64>
        ensures told { result ≡ told self.old now }
        ensures noted { self.new ≡ noted self.old now }
    {
        self.seen = Some(now);
        self.total = self.total.saturating_add(1);
        let count = self.count.saturating_add(1);
        if is_due(self.last, now) {
            self.last = Some(now);
            self.count = 0;
            Some(count)
        } else {
            self.count = count;
            None
        }
    }

    /// Returns how often it happened since it was last told, if it is over at this moment and that
    /// wasn't told yet: it happened last ten seconds ago or earlier.
    pub fn end(&mut self, now: u64) -> Option<u64>
        ensures ended { result ≡ ended self.old now }
        ensures rested { self.new ≡ rested self.old now }
    {
        if !is_over(self.seen, now) {
            return None;
        }
        let count = self.count;
        self.seen = None;
        self.count = 0;
        Some(count)
    }
}

/// Returns whether what happened last at a moment is over at this one.
fn is_over(seen: Option<u64>, now: u64) -> bool
    ensures { result ≡ is_over seen now }
{
    match seen {
        Some(seen) => LENGTH_NS <= now.saturating_sub(seen),
        None => false,
    }
}

/// Whether it is told at this moment.
fn is_due(last: Option<u64>, now: u64) -> bool
    ensures { result ≡ is_due last now }
{
    match last {
        Some(last) => LENGTH_NS <= now.saturating_sub(last),
        None => true,
    }
}
