// What became of an acquire that may wait.
use gate_history::{Naming, Permit, Receipt, Spent};

/// What became of an acquire that may wait: the first receipt is the acquire's, the second that of
/// the giving up.
pub enum Waited<M: Naming> {
    /// A permit was got at once.
    Admitted(Receipt<M>, Permit<M>),
    /// It waited, and got a permit.
    Promoted(Receipt<M>, Receipt<M>, Permit<M>),
    /// It waited, and got none.
    TimedOut(Receipt<M>, Receipt<M>),
    /// As many wait as may.
    BacklogFull(Receipt<M>),
    /// It waited, and then its number neither waited nor lay granted, or the history was exhausted.
    Lost(Receipt<M>, Result<Receipt<M>, Spent<M>>),
    /// The history is exhausted.
    Exhausted(Spent<M>),
}
