// A caller that makes random calls of a shared gate, keeps what it is told, and lets other callers
// know what it has seen.
use super::dice::Dice;
use crate::checks::check;
use gate_history::{Naming, Permit, Receipt, Spent, Ticket};
use limit_kinds::AnyLimit;
use limiter_core::{Event, Reply};
use partitions::Part;
use shared_gate::{Claimed, GateNaming, GaveUp, Got, Pass, SharedGate};
use std::alloc::Global;
use std::process::Abort;
use std::sync::{Mutex, Wait};

/// How many calls a caller makes, before it gives back what it holds.
const CALLS: u64 = 5_000;

/// What a receipt tells.
#[derive(Clone, Copy)]
pub(crate) struct Told {
    pub(crate) number: u64,
    pub(crate) event: Event,
    pub(crate) reply: Reply,
}

/// Who calls: by its pass, by its dice.
#[derive(Drop)]
pub(crate) struct Caller<M: GateNaming> {
    pass: Pass<M>,
    dice: Dice,
    /// What the pass has seen so far.
    seen: u64,
    /// What it was told, in the order of its calls.
    told: Vec<Told>,
}

impl<M: GateNaming> Caller<M> {
    pub(crate) fn new<R: Abort>(rt: &R, alloc: Global, pass: Pass<M>, seed: u64) -> Caller<M> {
        let told = Vec::with_capacity(alloc, CALLS as usize + 4);
        let seen = pass.seen();
        Caller {
            pass,
            dice: Dice::new(seed),
            seen,
            told: told.expect(rt, "memory for what is told"),
        }
    }

    /// Keeps what a receipt tells, whose number the pass hadn't seen before, and has seen now.
    fn keep<R: Abort>(&mut self, rt: &R, receipt: Receipt<M>) {
        let seen = self.pass.seen();
        check(rt, self.seen <= receipt.number() && receipt.number() < seen);
        self.seen = seen;
        add(rt, &mut self.told, told_by(&receipt));
    }

    /// Keeps what a call tells that hands nothing out.
    fn keep_of<R: Abort>(&mut self, rt: &R, told: Result<Receipt<M>, Spent<M>>) {
        self.keep(rt, told.ok().expect(rt, "an answer"));
    }
}

fn told_by<M: Naming>(receipt: &Receipt<M>) -> Told {
    Told {
        number: receipt.number(),
        event: receipt.event(),
        reply: receipt.reply(),
    }
}

fn add<R: Abort>(rt: &R, list: &mut Vec<Told>, told: Told) {
    list.push(told).expect(rt, "memory for what is told");
}

/// What a caller holds.
enum Held<M: Naming> {
    Nothing,
    Permit(Permit<M>),
    Ticket(Ticket<M>),
}

/// Both things that a caller holds.
struct Both<M: Naming> {
    one: Held<M>,
    two: Held<M>,
}

/// Makes random calls and tellings, gives back what it holds in the end, and says what it was told.
pub(crate) fn call_at_random<M: GateNaming, R: Wait + Abort>(
    rt: &R,
    gate: &SharedGate<AnyLimit, M>,
    common: &Mutex<Pass<M>>,
    mut caller: Caller<M>,
) -> Vec<Told> {
    let mut both = Both {
        one: Held::Nothing,
        two: Held::Nothing,
    };
    for now in 0..CALLS {
        both = turn(rt, gate, &mut caller, both, now);
        tell(rt, gate, common, &mut caller);
    }
    let Both { one, two } = both;
    leave(rt, gate, &mut caller, one);
    leave(rt, gate, &mut caller, two);
    caller.told
}

/// Now and then the pass that all share is told what the caller has seen, or the caller what that
/// has.
fn tell<M: GateNaming, R: Wait + Abort>(
    rt: &R,
    gate: &SharedGate<AnyLimit, M>,
    common: &Mutex<Pass<M>>,
    caller: &mut Caller<M>,
) {
    match caller.dice.roll(16) {
        0 => {
            let mut common = common.lock(rt);
            is_told(rt, gate, &mut *common, &mut caller.pass);
        }
        1 => {
            let mut common = common.lock(rt);
            is_told(rt, gate, &mut caller.pass, &mut *common);
        }
        _ => {}
    }
    caller.seen = caller.pass.seen();
}

/// A pass that was told has seen what the other had, and no less than before.
fn is_told<M: GateNaming, R: Abort>(
    rt: &R,
    gate: &SharedGate<AnyLimit, M>,
    pass: &mut Pass<M>,
    other: &mut Pass<M>,
) {
    let (own, others) = (pass.seen(), other.seen());
    gate.told(pass, other);
    check(rt, pass.seen() >= own && pass.seen() >= others);
    check(rt, other.seen() == others);
}

/// One call, for one of the two things.
fn turn<M: GateNaming, R: Wait + Abort>(
    rt: &R,
    gate: &SharedGate<AnyLimit, M>,
    caller: &mut Caller<M>,
    both: Both<M>,
    now: u64,
) -> Both<M> {
    let Both { one, two } = both;
    if caller.dice.roll(2) == 0 {
        let one = call(rt, gate, caller, one, now);
        return Both { one, two };
    }
    let two = call(rt, gate, caller, two, now);
    Both { one, two }
}

/// One call: what is held before it, and after it.
fn call<M: GateNaming, R: Wait + Abort>(
    rt: &R,
    gate: &SharedGate<AnyLimit, M>,
    caller: &mut Caller<M>,
    held: Held<M>,
    now: u64,
) -> Held<M> {
    match held {
        Held::Nothing => call_with_nothing(rt, gate, caller, now),
        Held::Permit(permit) => call_with_permit(rt, gate, caller, permit, now),
        Held::Ticket(ticket) => call_with_ticket(rt, gate, caller, ticket),
    }
}

/// Most often an acquire, else a setting, a reset or a look.
fn call_with_nothing<M: GateNaming, R: Wait + Abort>(
    rt: &R,
    gate: &SharedGate<AnyLimit, M>,
    caller: &mut Caller<M>,
    now: u64,
) -> Held<M> {
    let told = match caller.dice.roll(32) {
        0 => gate.set_limit(rt, &mut caller.pass, 3, now),
        1 => gate.reset(rt, &mut caller.pass, now),
        2 => gate.look(rt, &mut caller.pass, Part::Known(0)),
        _ => return acquire(rt, gate, caller, now),
    };
    caller.keep_of(rt, told);
    Held::Nothing
}

fn acquire<M: GateNaming, R: Wait + Abort>(
    rt: &R,
    gate: &SharedGate<AnyLimit, M>,
    caller: &mut Caller<M>,
    now: u64,
) -> Held<M> {
    let part = caller.dice.part();
    let bypass = caller.dice.roll(16) == 0;
    let wait = caller.dice.roll(2) == 0;
    let (receipt, held) = match gate.acquire(rt, &mut caller.pass, part, bypass, wait, now) {
        Got::Admitted(receipt, permit) => (receipt, Held::Permit(permit)),
        Got::Waiting(receipt, ticket) => (receipt, Held::Ticket(ticket)),
        Got::Bypassed(receipt) | Got::Full(receipt) | Got::BacklogFull(receipt) => {
            (receipt, Held::Nothing)
        }
        _ => rt.abort(),
    };
    caller.keep(rt, receipt);
    held
}

/// An ending, or a look.
fn call_with_permit<M: GateNaming, R: Wait + Abort>(
    rt: &R,
    gate: &SharedGate<AnyLimit, M>,
    caller: &mut Caller<M>,
    permit: Permit<M>,
    now: u64,
) -> Held<M> {
    if caller.dice.roll(3) == 0 {
        let seen = gate.look(rt, &mut caller.pass, permit.facts().part);
        caller.keep_of(rt, seen);
        return Held::Permit(permit);
    }
    end(rt, gate, caller, permit, now);
    Held::Nothing
}

fn end<M: GateNaming, R: Wait + Abort>(
    rt: &R,
    gate: &SharedGate<AnyLimit, M>,
    caller: &mut Caller<M>,
    permit: Permit<M>,
    now: u64,
) {
    let outcome = caller.dice.outcome();
    let receipt = gate.end(rt, &mut caller.pass, permit, outcome, now);
    caller.keep(rt, receipt);
}

/// A claim, or a giving up.
fn call_with_ticket<M: GateNaming, R: Wait + Abort>(
    rt: &R,
    gate: &SharedGate<AnyLimit, M>,
    caller: &mut Caller<M>,
    ticket: Ticket<M>,
) -> Held<M> {
    if caller.dice.roll(3) == 0 {
        return give_up(rt, gate, caller, ticket);
    }
    let (receipt, held) = match gate.claim(rt, &mut caller.pass, ticket) {
        Claimed::Granted(receipt, permit) => (receipt, Held::Permit(permit)),
        Claimed::StillWaiting(receipt, ticket) => (receipt, Held::Ticket(ticket)),
        _ => rt.abort(),
    };
    caller.keep(rt, receipt);
    held
}

fn give_up<M: GateNaming, R: Wait + Abort>(
    rt: &R,
    gate: &SharedGate<AnyLimit, M>,
    caller: &mut Caller<M>,
    ticket: Ticket<M>,
) -> Held<M> {
    let (receipt, held) = match gate.give_up(rt, &mut caller.pass, ticket) {
        GaveUp::Granted(receipt, permit) => (receipt, Held::Permit(permit)),
        GaveUp::TimedOut(receipt) => (receipt, Held::Nothing),
        _ => rt.abort(),
    };
    caller.keep(rt, receipt);
    held
}

/// Ends the permit that is held, or that a giving up gets.
fn leave<M: GateNaming, R: Wait + Abort>(
    rt: &R,
    gate: &SharedGate<AnyLimit, M>,
    caller: &mut Caller<M>,
    held: Held<M>,
) {
    let held = match held {
        Held::Ticket(ticket) => give_up(rt, gate, caller, ticket),
        other => other,
    };
    match held {
        Held::Nothing => {}
        Held::Permit(permit) => end(rt, gate, caller, permit, CALLS),
        _ => rt.abort(),
    }
}
