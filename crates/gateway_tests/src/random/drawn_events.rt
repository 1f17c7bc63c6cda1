// Events that are drawn at random of the state of a limiter.
use super::dice::Dice;
use super::plain_limiter::PlainLimiter;
use limiter_core::Event;

/// The next event at some moment after this one: most often an acquire or an ending.
pub(crate) fn drawn(dice: &mut Dice, plain: &PlainLimiter, after: u64) -> Event {
    let now = moment(dice, after);
    match dice.roll(64) {
        0 => Event::SetLimit { n: 4, now },
        1 | 2 => Event::Reset { now },
        3..=6 => Event::Look { part: dice.part() },
        7..=12 => Event::Claim {
            number: number(dice, plain),
        },
        13..=20 => Event::GiveUp {
            number: number(dice, plain),
        },
        21..=38 => ending(dice, plain, now),
        _ => acquire(dice, now),
    }
}

/// A moment a little later, and now and then one after the last.
fn moment(dice: &mut Dice, after: u64) -> u64 {
    if dice.roll(128) == 0 {
        return u64::MAX;
    }
    after.saturating_add(dice.roll(4000))
}

fn acquire(dice: &mut Dice, now: u64) -> Event {
    Event::Acquire {
        part: dice.part(),
        bypass: dice.roll(16) == 0,
        wait: dice.roll(3) > 0,
        now,
    }
}

/// The ending of a permit that somebody has, or an acquire where nobody has one.
fn ending(dice: &mut Dice, plain: &PlainLimiter, now: u64) -> Event {
    let place = place_in(dice, plain.open.len());
    match plain.open.get(place) {
        Some(permit) => Event::End {
            permit: *permit,
            outcome: dice.outcome(),
            now,
        },
        None => acquire(dice, now),
    }
}

/// The number of somebody who waits, of a permit that is granted, or any one.
fn number(dice: &mut Dice, plain: &PlainLimiter) -> u64 {
    let any = dice.roll(plain.next_number().saturating_add(2));
    let waits = place_in(dice, plain.waiting.len());
    let lies = place_in(dice, plain.granted.len());
    let drawn = match dice.roll(8) {
        0 => None,
        1..=3 => plain.granted.get(lies).map(|permit| permit.number),
        _ => plain.waiting.get(waits).map(|waiter| waiter.number),
    };
    drawn.unwrap_or(any)
}

/// A place in a list of this length.
fn place_in(dice: &mut Dice, length: usize) -> usize {
    dice.roll(length.max(1) as u64) as usize
}
