// What a gate told of an asking.
ghost use Rattle.std.specs.Prelude.{◌≡◌};
ghost use Rattle.gate_history.specs.Refusal.{exhausted_from};
ghost use Rattle.ports.specs.Asked.{IsOver, asked_by};

use gate_history::{Naming, Receipt, Spent};

/// What the gate told a port of an asking, call by call.
#[derive(Drop)]
pub enum Receipts<M: Naming> {
    /// Nothing was asked yet.
    Nothing,
    /// The acquire wasn't answered, since the history is exhausted.
    Exhausted(Spent<M>),
    /// The acquire was answered at once.
    Answered(Receipt<M>),
    /// The acquire waited, and then its number was given up.
    GaveUp(Receipt<M>, Receipt<M>),
    /// The acquire waited, and the giving up wasn't answered, since the history is exhausted.
    Missed(Receipt<M>, Spent<M>),
}

impl<M: Naming> Receipts<M> {
    /// An acquire that waited, and what its giving up was answered.
    pub(crate) fn waited(first: Receipt<M>, second: Result<Receipt<M>, Spent<M>>) -> Receipts<M>
        ensures asked { result ≡ asked_by first second }
        ensures over { IsOver (exhausted_from M.making) result }
    {
        match second {
            Ok(second) => Receipts::GaveUp(first, second),
            Err(spent) => {
                spent.invariant();
                Receipts::Missed(first, spent)
            }
        }
    }
}
