// How often the state is looked at and reported.
ghost use Rattle.std.specs.Prelude.{◌≡◌};
ghost use Rattle.serve_reports.specs.Pace.{is_due_at, pace_of};

/// From one look at the state to the next, in nanoseconds: a second, so that it is told in time
/// what is over, and which permits are old.
const LOOK_NS: u64 = 1_000_000_000;

/// How often the state is looked at, and at each of how many looks it is reported.
#[derive(Clone, Copy)]
pub struct Pace {
    /// From one look to the next, in nanoseconds: a second.
    pub look_ns: u64,
    /// It is reported at each of so many looks; never without it.
    pub looks: Option<u64>,
}

impl Pace {
    /// Returns the pace of a report every so many seconds, one at least; of none without it.
    pub fn new(report_seconds: Option<u32>) -> Pace
        ensures { result ≡ pace_of report_seconds }
    {
        let looks = match report_seconds {
            Some(seconds) => Some(u64::from(seconds).max(1)),
            None => None,
        };
        Pace {
            look_ns: LOOK_NS,
            looks,
        }
    }

    /// Whether it is reported at a look, counted from 1 on.
    pub fn is_due(&self, look: u64) -> bool
        ensures { result ≡ is_due_at self.now look }
    {
        match self.looks {
            Some(looks) if looks > 0 => look % looks == 0,
            _ => false,
        }
    }
}
