// The troubles that the log tells of.
use crate::noted::Troubles;
use crate::spell::RateLimitedLog;

/// What goes wrong often if it goes wrong at all: the log tells of it once in ten seconds.
#[derive(Clone, Copy)]
pub(crate) enum Trouble {
    /// No connection to the backend could be made.
    Unreached,
    /// The backend's answer couldn't be passed on.
    Broken,
    /// The backend's answer wasn't there in time.
    Late,
    /// No descriptor was free for a connection.
    WithoutDescriptor,
    /// The last free worker was taken.
    AllTaken,
    /// The body of a request or of an answer wasn't held.
    Bodies,
}

/// All troubles.
pub(crate) const TROUBLES: [Trouble; 6] = [
    Trouble::Unreached,
    Trouble::Broken,
    Trouble::Late,
    Trouble::WithoutDescriptor,
    Trouble::AllTaken,
    Trouble::Bodies,
];

impl Trouble {
    /// The word by which the log tells that it is over, which is that of its counter.
    pub(crate) fn word(&self) -> &'static str {
        match self {
            Trouble::Unreached => "unreached",
            Trouble::Broken => "broken",
            Trouble::Late => "backend-timeout",
            Trouble::WithoutDescriptor => "without-descriptor",
            Trouble::AllTaken => "all-taken",
            Trouble::Bodies => "bodies",
        }
    }
}

/// How often each trouble came, and when the log told of it.
#[derive(Clone, Copy)]
pub(crate) struct TroubleLogs {
    unreached: RateLimitedLog,
    broken: RateLimitedLog,
    late: RateLimitedLog,
    without_descriptor: RateLimitedLog,
    all_taken: RateLimitedLog,
    bodies: RateLimitedLog,
}

impl TroubleLogs {
    /// No trouble came yet.
    pub(crate) fn new() -> TroubleLogs {
        TroubleLogs {
            unreached: RateLimitedLog::new(),
            broken: RateLimitedLog::new(),
            late: RateLimitedLog::new(),
            without_descriptor: RateLimitedLog::new(),
            all_taken: RateLimitedLog::new(),
            bodies: RateLimitedLog::new(),
        }
    }

    /// Returns what is noted of a trouble.
    pub(crate) fn of(&mut self, trouble: Trouble) -> &mut RateLimitedLog {
        match trouble {
            Trouble::Unreached => &mut self.unreached,
            Trouble::Broken => &mut self.broken,
            Trouble::Late => &mut self.late,
            Trouble::WithoutDescriptor => &mut self.without_descriptor,
            Trouble::AllTaken => &mut self.all_taken,
            Trouble::Bodies => &mut self.bodies,
        }
    }

    /// Returns how often each trouble came.
    pub(crate) fn totals(&self) -> Troubles {
        Troubles {
            unreached: self.unreached.total(),
            broken: self.broken.total(),
            late: self.late.total(),
            without_descriptor: self.without_descriptor.total(),
            all_taken: self.all_taken.total(),
            bodies: self.bodies.total(),
        }
    }
}
