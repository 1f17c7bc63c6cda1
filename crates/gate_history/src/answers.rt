// What became of a call: what a step gives, by what it was asked.
ghost use Rattle.std.specs.Prelude.{◌≡◌};
ghost use Rattle.gate_history.specs.Answers.{GivesClaimed, GivesGaveUp, GivesGot, GivesNothing};
ghost use Rattle.gate_history.specs.Answers.{TurnsAway, claimed_of, gave_up_of, got_of};
ghost use Rattle.gate_history.specs.Answers.{turned_away};
ghost use Rattle.gate_history.specs.Handing.{told_of};

use crate::permit::Permit;
use crate::spent::Spent;
use crate::step::Step;
use crate::ticket::Ticket;
use gate_ledgers::{Naming, Receipt};
use limiter_core::Reply;

/// What became of an acquire.
pub enum Got<N: Naming> {
    /// A permit was got.
    Admitted(Receipt<N>, Permit<N>),
    /// It is neither limited nor counted.
    Bypassed(Receipt<N>),
    /// There is no room, and it doesn't wait.
    Full(Receipt<N>),
    /// There is no room, and as many wait as may.
    BacklogFull(Receipt<N>),
    /// It waits.
    Waiting(Receipt<N>, Ticket<N>),
    /// The history is exhausted.
    Exhausted(Spent<N>),
}

/// What became of a claim.
pub enum Claimed<N: Naming> {
    /// The permit lay granted.
    Granted(Receipt<N>, Permit<N>),
    /// Its waiter waits still.
    StillWaiting(Receipt<N>, Ticket<N>),
    /// Its number neither waits nor is granted.
    Lost(Receipt<N>),
    /// The history is exhausted.
    Exhausted(Spent<N>, Ticket<N>),
}

/// What became of a giving up.
pub enum GaveUp<N: Naming> {
    /// The permit lay granted, and is the caller's.
    Granted(Receipt<N>, Permit<N>),
    /// Its waiter waits no longer.
    TimedOut(Receipt<N>),
    /// Its number neither waits nor is granted.
    Lost(Receipt<N>),
    /// The history is exhausted, and the ticket spent.
    Exhausted(Spent<N>),
}

impl<N: Naming> Step<N> {
    /// What an acquire got.
    #[inline(always)]
    pub fn into_got(self) -> Got<N>
        requires { GivesGot self }
        ensures { result ≡ got_of self }
    {
        match self {
            Step::Permit(receipt, permit) => Got::Admitted(receipt, permit),
            Step::Ticket(receipt, ticket) => Got::Waiting(receipt, ticket),
            Step::Done(receipt) => turn_away(receipt),
            Step::Exhausted(spent) => Got::Exhausted(spent),
            Step::Returned(_spent, _ticket) => unreachable!(),
        }
    }

    /// What a claim got.
    pub fn into_claimed(self) -> Claimed<N>
        requires { GivesClaimed self }
        ensures { result ≡ claimed_of self }
    {
        match self {
            Step::Permit(receipt, permit) => Claimed::Granted(receipt, permit),
            Step::Ticket(receipt, ticket) => Claimed::StillWaiting(receipt, ticket),
            Step::Done(receipt) => Claimed::Lost(receipt),
            Step::Returned(spent, ticket) => Claimed::Exhausted(spent, ticket),
            Step::Exhausted(_spent) => unreachable!(),
        }
    }

    /// What a giving up got.
    pub fn into_gave_up(self) -> GaveUp<N>
        requires { GivesGaveUp self }
        ensures { result ≡ gave_up_of self }
    {
        match self {
            Step::Permit(receipt, permit) => GaveUp::Granted(receipt, permit),
            Step::Done(receipt) => match receipt.reply() {
                Reply::TimedOut => GaveUp::TimedOut(receipt),
                _ => GaveUp::Lost(receipt),
            },
            Step::Exhausted(spent) => GaveUp::Exhausted(spent),
            Step::Ticket(_receipt, _ticket) => unreachable!(),
            Step::Returned(_spent, _ticket) => unreachable!(),
        }
    }

    /// The receipt of a call that hands nothing out.
    #[inline(always)]
    pub fn into_receipt(self) -> Result<Receipt<N>, Spent<N>>
        requires { GivesNothing self }
        ensures { result ≡ told_of self }
    {
        match self {
            Step::Done(receipt) => Ok(receipt),
            Step::Exhausted(spent) => Err(spent),
            Step::Permit(_receipt, _permit) => unreachable!(),
            Step::Ticket(_receipt, _ticket) => unreachable!(),
            Step::Returned(_spent, _ticket) => unreachable!(),
        }
    }
}

/// What became of an acquire that got neither a permit nor a ticket.
#[inline(always)]
fn turn_away<N: Naming>(receipt: Receipt<N>) -> Got<N>
    requires { TurnsAway receipt.reply }
    ensures { result ≡ turned_away receipt receipt.reply }
{
    match receipt.reply() {
        Reply::Bypassed => Got::Bypassed(receipt),
        Reply::Full => Got::Full(receipt),
        Reply::BacklogFull => Got::BacklogFull(receipt),
        _ => unreachable!(),
    }
}
