// What a step leaves pending.
ghost use Rattle.std.specs.Prelude.{◌≡◌, ◌≤◌, ◌^◌};
ghost use Rattle.virtual_time.specs.Pending.{arriving, giving_up, ending, left};

use super::action::{Action, Kind, Step};
use limit_laws::LAST_MOMENT;
use limiter_core::Reply;
use trace::Arrival;

/// An arrival comes.
pub(crate) fn arriving(arrival: &Arrival, place: usize) -> Action
    ensures { result ≡ arriving arrival.now place }
{
    Action {
        moment: arrival.at.min(LAST_MOMENT),
        kind: Kind::Arriving,
        place,
        number: 0,
    }
}

/// A waiting arrival, whose acquire has this number, gives up.
fn giving_up(timeout: u64, arrival: &Arrival, place: usize, number: u64) -> Action
    ensures { result ≡ giving_up timeout arrival.now place number }
{
    Action {
        moment: arrival.at.saturating_add(timeout).min(LAST_MOMENT),
        kind: Kind::GivingUp,
        place,
        number,
    }
}

/// The permit that an arrival got at this moment is given back.
fn ending(arrival: &Arrival, start: u64, place: usize, number: u64) -> Action
    ensures { result ≡ ending arrival.now start place number }
{
    Action {
        moment: start.saturating_add(arrival.duration).min(LAST_MOMENT),
        kind: Kind::Ending,
        place,
        number,
    }
}

/// The action that a step leaves pending, if it leaves one.
pub(crate) fn left(timeout: u64, arrival: &Arrival, step: Step) -> Option<Action>
    ensures { result ≡ left timeout arrival.now step }
{
    let action = step.action;
    match (action.kind, step.reply) {
        (Kind::Arriving, Some(Reply::Admitted { .. })) => {
            Some(ending(arrival, action.moment, action.place, step.first))
        }
        (Kind::Arriving, Some(Reply::Waiting)) => {
            Some(giving_up(timeout, arrival, action.place, step.first))
        }
        (Kind::GivingUp, Some(Reply::Granted { start, .. })) => {
            Some(ending(arrival, start, action.place, action.number))
        }
        _ => None,
    }
}
