// Four threads make random calls of one gate: what they are told is what one thread is told.
ghost use Rattle.std.specs.Prelude.{◌≡◌};
ghost use Rattle.limiter_core.specs.Answer.{granted_at};
ghost use Rattle.limiter_core.specs.Limiter.{gate_of, stands};

use super::random_calls::{Caller, Told, call_at_random};
use crate::checks::check;
use crate::gates::{Making, Trial, next_of, try_at};
use crate::limits::LEARNING;
use aimd::Aimd;
use gate_history::GateSettings;
use limit_kinds::{AnyLimit, BaseLimit};
use limit_laws::Limit;
use limiter_core::{Core, Counters, Event, Promote, Reply};
use partitions::PartitionTable;
use shared_gate::{GateNaming, Pass, SharedGate};
use std::alloc::Global;
use std::process::Abort;
use std::sync::{Mutex, Wait};
use std::thread::{Threads, join};

/// How many may wait.
const ROOM: u32 = 2;

/// Three classes.
fn classes<R: Abort>(rt: &R, alloc: Global) -> PartitionTable {
    let rows = [(b"live".as_slice(), 500), (b"batch", 300), (b"scan", 100)];
    PartitionTable::new(alloc, &rows).expect(rt, "a table")
}

/// A limit of 1 to 5, which begins with 3.
fn limit<R: Abort>(rt: &R) -> Aimd {
    Aimd::of(LEARNING).expect(rt, "a limit")
}

/// A limiter that is asked by one thread.
fn limiter<R: Abort>(rt: &R, alloc: Global, promote: Promote) -> Core<Aimd> {
    Core::new(alloc, limit(rt), classes(rt, alloc), ROOM, promote).expect(rt, "a limiter")
}

#[test]
fn four_threads_are_told_what_one_is(rt: HostRuntime) {
    let making = making(&rt, rt.alloc(), Promote::Newest, 1_000_000, false);
    try_at(
        &rt,
        rt.alloc(),
        making,
        Trial::CallAtRandom(Promote::Newest),
    );
}

#[test]
fn four_threads_over_a_rolling_gate_are_told_what_one_is(rt: HostRuntime) {
    let making = making(&rt, rt.alloc(), Promote::Newest, 100, true);
    try_at(
        &rt,
        rt.alloc(),
        making,
        Trial::CallAtRandom(Promote::Newest),
    );
}

#[test]
fn four_threads_over_a_rolling_gate_of_all_are_told_what_one_is(rt: HostRuntime) {
    let making = making(&rt, rt.alloc(), Promote::All, 100, true);
    try_at(&rt, rt.alloc(), making, Trial::CallAtRandom(Promote::All));
}

/// A gate that promotes so.
fn making<R: Abort>(
    rt: &R,
    alloc: Global,
    promote: Promote,
    kept: usize,
    is_rolling: bool,
) -> Making {
    let settings = GateSettings {
        limit: AnyLimit::Plain(BaseLimit::Aimd(limit(rt))),
        table: classes(rt, alloc),
        room: ROOM,
        promote,
        kept,
        is_rolling,
    };
    Making {
        settings,
        passes: 5,
    }
}

/// Four threads call by four passes, and tell one another by a fifth, by which nobody calls.
pub(crate) fn told_by_four<M: GateNaming + Send + Sync, R: Threads + Wait + Abort + Sync>(
    rt: &R,
    alloc: Global,
    promote: Promote,
    gate: &SharedGate<AnyLimit, M>,
    passes: &mut Vec<Pass<M>>,
) {
    let common = Mutex::new(next_of(rt, passes));
    let one = Caller::new(rt, alloc, next_of(rt, passes), 1);
    let two = Caller::new(rt, alloc, next_of(rt, passes), 2);
    let three = Caller::new(rt, alloc, next_of(rt, passes), 3);
    let four = Caller::new(rt, alloc, next_of(rt, passes), 4);
    let (left, right) = join(
        rt,
        || told_by_two(rt, gate, &common, one, two),
        || told_by_two(rt, gate, &common, three, four),
    );
    let mut told = both_told(rt, left, right);
    told.sort_unstable_by_key(|told| told.number);
    let mut core = limiter(rt, alloc, promote);
    is_told_to_one(rt, &mut core, &told, gate.counters(rt));
}

/// What two threads are told, each of which makes random calls.
fn told_by_two<M: GateNaming + Send + Sync, R: Threads + Wait + Abort + Sync>(
    rt: &R,
    gate: &SharedGate<AnyLimit, M>,
    common: &Mutex<Pass<M>>,
    one: Caller<M>,
    two: Caller<M>,
) -> Vec<Told> {
    let (left, right) = join(
        rt,
        || call_at_random(rt, gate, common, one),
        || call_at_random(rt, gate, common, two),
    );
    both_told(rt, left, right)
}

/// What one was told, and another.
fn both_told<R: Abort>(rt: &R, mut left: Vec<Told>, right: Vec<Told>) -> Vec<Told> {
    left.extend_from_slice(&right)
        .expect(rt, "memory for what is told");
    left
}

/// One limiter, which is asked the same in order of number, answers the same and counts the same;
/// nothing is left in flight.
fn is_told_to_one<L: Limit, R: Abort>(
    rt: &R,
    core: &mut Core<L>,
    told: &[Told],
    counters: Counters,
) {
    check(rt, told.len() >= 20_000);
    for told in told {
        replay(rt, core, *told);
    }
    check(rt, core.counters() == counters);
    check(rt, is_idle(core));
}

/// Nothing is in flight, nobody waits and nothing lies granted.
fn is_idle<L: Limit>(core: &Core<L>) -> bool {
    core.total() == 0 && core.waiting() == 0 && core.granted() == 0
}

/// A limiter gives an event the number and the reply that its caller was told.
fn replay<L: Limit, R: Abort>(rt: &R, core: &mut Core<L>, told: Told) {
    check(rt, core.next_number() == told.number);
    let reply = reply_of(rt, core, told.event);
    check(rt, reply == told.reply);
}

/// Asks an event that may come: an ending where more of its place are in flight than are granted.
pub(super) fn reply_of<L: Limit, R: Abort>(rt: &R, core: &mut Core<L>, event: Event) -> Reply {
    assert!(rt; core.next_number() < 1_000_000);
    let Event::End { permit, .. } = event else {
        return core.apply(event);
    };
    let place = core.table().place(permit.part);
    assert!(rt; lying_at(core, place) < core.inflight(permit.part) as usize);
    core.apply(event)
}

/// How many permits are granted at a place.
fn lying_at<L: Limit>(core: &Core<L>, place: usize) -> usize
    ensures { result ≡ granted_at (gate_of L.rules core.now) (stands core.now) place }
{
    let mut found = 0;
    for permit in core.granted_permits() {
        if core.table().place(permit.part) == place {
            found += 1;
        }
    }
    found
}
