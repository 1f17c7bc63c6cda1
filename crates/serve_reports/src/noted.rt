// What was noted while serving.
use crate::connections::BackendConnections;
use crate::outcomes::OutcomeTally;
use crate::outstanding::Outstanding;
use crate::refusals::RefusalTally;
use crate::responses::ResponseTally;
use crate::tally::AnswerTally;
use crate::times::TimeTally;
use crate::workers::Workers;
use seats::ClientConnections;

/// How often each trouble came since the start. A count stays at `u64::MAX`.
#[derive(Clone, Copy)]
pub struct Troubles {
    /// No connection to the backend could be made.
    pub unreached: u64,
    /// The backend's answer couldn't be passed on.
    pub broken: u64,
    /// The backend's answer wasn't there in time.
    pub late: u64,
    /// No descriptor was free for a connection.
    pub without_descriptor: u64,
    /// The last free worker was taken.
    pub all_taken: u64,
    /// The body of a request or of an answer wasn't held.
    pub bodies: u64,
}

/// What the limit of a gateway may be.
#[derive(Clone, Copy)]
pub struct LimitRange {
    /// The word of its kind in a configuration.
    pub kind: &'static str,
    /// The least limit, in permits.
    pub least: u32,
    /// The greatest.
    pub greatest: u32,
}

/// What was noted of a gateway's exchanges since its start.
#[derive(Clone, Copy)]
pub struct GatewayStats {
    /// What its limit may be, as long as it serves.
    pub limit: LimitRange,
    /// How many exchanges ended in each of its own answers.
    pub answers: AnswerTally,
    /// How many exchanges ended in which kind of status.
    pub responses: ResponseTally,
    /// How many requests of each class the gate refused.
    pub refusals: RefusalTally,
    /// How many permits of each class ended, by their outcome.
    pub outcomes: OutcomeTally,
    /// How long exchanges took, and what they waited for.
    pub times: TimeTally,
    /// How often each trouble came.
    pub troubles: Troubles,
    /// How many connections to the backend there are, and what became of those that there were.
    pub connections: BackendConnections,
    /// How many connections of clients wait, and what became of those that there were; none where
    /// whoever notes doesn't see where they wait.
    pub clients: ClientConnections,
    /// How many workers serve a client at this moment.
    pub workers: Workers,
    /// How old the permits are that haven't ended.
    pub outstanding: Outstanding,
    /// Whether no connection to the backend could be made for ten seconds, although some were tried
    /// all the time.
    pub is_unreached: bool,
    /// For how many whole seconds it has served.
    pub seconds: u64,
}
