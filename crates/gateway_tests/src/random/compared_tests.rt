// A limiter beside one over plain lists: 2,000 events that are drawn at random are answered alike,
// and after them what the limiter shows is what the plain one has.
use super::dice::Dice;
use super::drawn_events::drawn;
use super::four_threads_tests::reply_of;
use super::plain_counters::counters_of;
use super::plain_limiter::{PlainLimiter, ROOM, few};
use crate::checks::check;
use crate::limits::LEARNING;
use aimd::{Aimd, AimdNumbers};
use limiter_core::{Core, Counters, Event, Promote};
use partitions::{Part, PartitionTable};
use std::alloc::Global;
use std::process::Abort;

/// How many events are asked.
const EVENTS: u64 = 2_000;

#[test]
fn a_limiter_that_promotes_the_newest_is_as_a_plain_one(rt: HostRuntime) {
    check(
        &rt,
        is_as_a_plain_one(&rt, rt.alloc(), Promote::Newest, false),
    );
}

#[test]
fn a_limiter_that_promotes_all_is_as_a_plain_one(rt: HostRuntime) {
    check(&rt, is_as_a_plain_one(&rt, rt.alloc(), Promote::All, true));
}

/// A limiter of three classes, whose limit is one that learns.
fn limiter<R: Abort>(rt: &R, alloc: Global, promote: Promote) -> Core<Aimd> {
    let rows = [(b"live".as_slice(), 500), (b"batch", 300), (b"scan", 100)];
    let table = PartitionTable::new(alloc, &rows).expect(rt, "a table");
    let numbers = AimdNumbers {
        hi: 6,
        timeout_ns: 20_000,
        ..LEARNING
    };
    let limit = Aimd::of(numbers).expect(rt, "a limit");
    Core::new(alloc, limit, table, ROOM, promote).expect(rt, "a limiter")
}

fn is_as_a_plain_one<R: Abort>(rt: &R, alloc: Global, promote: Promote, all: bool) -> bool {
    let mut core = limiter(rt, alloc, promote);
    let mut plain = PlainLimiter::new(alloc, all);
    let mut dice = Dice::new(38);
    let mut from_the_middle = 0;
    for turn in 0..EVENTS {
        let event = drawn(&mut dice, &plain, turn.saturating_mul(2_000));
        if is_from_the_middle(&plain, event) {
            from_the_middle = u64::saturating_add(from_the_middle, 1);
        }
        let is_alike = is_answered_alike(rt, &mut core, &mut plain, event);
        if !is_alike || turn % 100 == 99 && !shows_all(&core, &plain) {
            return false;
        }
    }
    from_the_middle >= 10 && has_seen_all(core.counters())
}

/// An event is answered alike, and the same is shown then.
fn is_answered_alike<R: Abort>(
    rt: &R,
    core: &mut Core<Aimd>,
    plain: &mut PlainLimiter,
    event: Event,
) -> bool {
    plain.answer(rt, event) == reply_of(rt, core, event) && shows_the_same(core, plain)
}

/// Somebody gives up while others wait before and behind it.
fn is_from_the_middle(plain: &PlainLimiter, event: Event) -> bool {
    let Event::GiveUp { number } = event else {
        return false;
    };
    match plain.waiting.get(1) {
        Some(waiter) => waiter.number == number && plain.waiting.len() == 3,
        None => false,
    }
}

/// Each kind of reply, of promotion and of ending came a few times.
fn has_seen_all(counters: Counters) -> bool {
    let Counters {
        admitted,
        bypassed,
        full,
        backlog_full,
        waiting,
        promoted,
        timed_out,
        success,
        ignored,
        dropped,
    } = counters;
    let entered = admitted
        .min(bypassed)
        .min(full)
        .min(backlog_full)
        .min(waiting);
    let left = promoted
        .min(timed_out)
        .min(success)
        .min(ignored)
        .min(dropped);
    entered.min(left) >= 20
}

/// What the limiter shows is what the plain one has; of the numbers, those of who waits, of what
/// is granted, and the last few.
fn shows_the_same(core: &Core<Aimd>, plain: &PlainLimiter) -> bool {
    shows_numbers(core, plain)
        && shows_parts(core, plain)
        && shows_lists(core, plain)
        && plain
            .waiting
            .iter()
            .all(|waiter| shows_number(core, plain, waiter.number))
        && plain
            .granted
            .iter()
            .all(|permit| shows_number(core, plain, permit.number))
        && shows_numbers_from(core, plain, plain.next_number().saturating_sub(4))
}

/// The same of the counters, and of all numbers.
fn shows_all(core: &Core<Aimd>, plain: &PlainLimiter) -> bool {
    core.counters() == counters_of(&plain.entries) && shows_numbers_from(core, plain, 0)
}

fn shows_numbers(core: &Core<Aimd>, plain: &PlainLimiter) -> bool {
    core.next_number() == plain.next_number()
        && core.limit() == plain.limit
        && core.total() == plain.total()
        && core.waiting() == few(plain.waiting.len())
        && core.granted() == few(plain.granted.len())
}

fn shows_parts(core: &Core<Aimd>, plain: &PlainLimiter) -> bool {
    let counts = core.counts();
    has_count(core, plain, Part::Known(0), counts[0])
        && has_count(core, plain, Part::Known(1), counts[1])
        && has_count(core, plain, Part::Known(2), counts[2])
        && has_count(core, plain, Part::Unknown, counts[4])
        && counts[3] == 0
}

fn has_count(core: &Core<Aimd>, plain: &PlainLimiter, part: Part, count: u32) -> bool {
    core.inflight(part) == count && plain.inflight(part) == count
}

fn shows_lists(core: &Core<Aimd>, plain: &PlainLimiter) -> bool {
    core.granted_permits() == plain.granted.as_slice()
        && core.promotions() == plain.promotions.as_slice()
}

/// Each number from this one on, and two that aren't given out yet, waits and is granted as in
/// the plain one.
fn shows_numbers_from(core: &Core<Aimd>, plain: &PlainLimiter, first: u64) -> bool {
    for number in first..plain.next_number().saturating_add(2) {
        if !shows_number(core, plain, number) {
            return false;
        }
    }
    true
}

fn shows_number(core: &Core<Aimd>, plain: &PlainLimiter, number: u64) -> bool {
    let granted = plain.granted_permit(number);
    core.is_waiting(number) == plain.is_waiting(number)
        && core.is_granted(number) == granted.is_some()
        && core.granted_permit(number) == granted
}
