// A port over a gate that threads share.
ghost use Rattle.std.specs.Prelude.{◌≡◌, ◌+◌, ◌≤◌, Some, true, false, is_some, if◌then◌else◌};
ghost use Rattle.gate_history.specs.Refusal.{exhausted_from};
ghost use Rattle.shared_gate.specs.Calls.{Ends};
ghost use Rattle.gate_port.specs.Asking.{ask_of};
ghost use Rattle.gate_port.specs.Log.{AdmitsIn, EndsIn, IsLate};
ghost use Rattle.ports.specs.declared.asked.Receipts.TheVariants.{Nothing};
ghost use Rattle.ports.specs.Asked.{IsAnswered, IsOver, known_by, port_in};
ghost use Rattle.ports.specs.AskReplies.{IsTold};

use crate::asked::Receipts;
use crate::reached::Reached;
use clocks::{Clock, MonotonicClock};
use gate_history::{Permit, Receipt};
use gate_port::{Admission, GatePort, Why};
use limit_laws::Limit;
use limiter_core::Outcome;
use partitions::Part;
use shared_gate::{GateNaming, Got, Pass, SharedGate, Waited};
use std::marker::Model;
use std::sync::Wait;
use std::sync::atomic::{AtomicU64, Ordering};
use std::time::Clock as SystemClock;

/// A port over a gate that threads share, with a pass of its own. It shows no entries; what it
/// knows of the gate's log is what its pass knows, and it keeps the receipts of its last asking.
/// Contracts see these, its pass, and the moment at which its last wait in vain was over.
#[derive(Drop)]
pub struct Port<'a, L: Limit, M: GateNaming, R, C> {
    rt: &'a R,
    gate: &'a SharedGate<L, M>,
    pass: Pass<M>,
    asked: Receipts<M>,
    clock: &'a C,
    reached: Reached,
    // Where the moment is noted at which its permit was got, in nanoseconds from 1 on; 0 where it
    // has none.
    since: Option<&'a AtomicU64>,
}

impl<'a, L: Limit, M: GateNaming, R, C> Model for Port<'a, L, M, R, C> {
    ghost use Rattle.ports.specs.Asked.{Shared, port_in};

    ghost Value = { Shared M };

    ghost view = { λ p. port_in p.pass p.asked p.reached };

    ghost invariant = { λ p. Unit {0} };
}

impl<'a, L: Limit, M: GateNaming, R, C> Port<'a, L, M, R, C> {
    /// A port that calls the gate by this pass; the clock says when a wait is over.
    pub fn new(
        rt: &'a R,
        gate: &'a SharedGate<L, M>,
        pass: Pass<M>,
        clock: &'a C,
    ) -> Port<'a, L, M, R, C>
        ensures { result ≡ port_in pass Nothing 0 }
    {
        Port {
            rt,
            gate,
            pass,
            asked: Receipts::Nothing,
            clock,
            reached: Reached::first(),
            since: None,
        }
    }

    /// The port, which notes in this place when the permit was got that it has out, by its clock in
    /// nanoseconds and from 1 on, and 0 while it has none. Nothing else is changed by that.
    pub fn noting(self, since: &'a AtomicU64) -> Port<'a, L, M, R, C>
        ensures { result ≡ self.entry }
    {
        let Port {
            rt,
            gate,
            pass,
            asked,
            clock,
            reached,
            since: _,
        } = self;
        Port {
            rt,
            gate,
            pass,
            asked,
            clock,
            reached,
            since: Some(since),
        }
    }

    /// What the gate told of the last asking.
    pub fn asked(&self) -> &Receipts<M>
        ensures { result.now ≡ self.now.asked }
    {
        &self.asked
    }

    /// Its pass.
    pub fn into_pass(self) -> Pass<M>
        ensures { result ≡ self.entry.pass }
    {
        let Port {
            rt: _,
            gate: _,
            pass,
            asked: _,
            clock: _,
            reached: _,
            since: _,
        } = self;
        pass
    }
}

impl<'a, L: Limit, M: GateNaming, R: Wait + SystemClock, C: Clock> Port<'a, L, M, R, C> {
    /// Asks without waiting.
    #[inline(always)]
    fn ask(&mut self, part: Part, bypass: bool, now: u64) -> Admission<Permit<M>>
        ensures told { IsTold self.old.pass self.new.pass
            (record { part = part; bypass = bypass; wait = false }) now result }
        ensures answered { IsAnswered self.old.pass self.new.pass
            (record { part = part; bypass = bypass; wait = false }) now self.new.asked result }
        ensures over { IsOver (exhausted_from M.making) self.new.asked }
    {
        let pass = &mut self.pass;
        let (asked, answer) = match self.gate.acquire(self.rt, pass, part, bypass, false, now) {
            Got::Admitted(receipt, permit) => {
                (Receipts::Answered(receipt), Admission::Admitted(permit))
            }
            Got::Bypassed(receipt) => (Receipts::Answered(receipt), Admission::Bypassed),
            Got::Full(receipt) => (Receipts::Answered(receipt), Admission::Refused(Why::Full)),
            Got::BacklogFull(receipt) => {
                (
                    Receipts::Answered(receipt),
                    Admission::Refused(Why::BacklogFull),
                )
            }
            Got::Waiting(_receipt, _ticket) => unreachable!(),
            Got::Exhausted(spent) => {
                spent.invariant();
                (
                    Receipts::Exhausted(spent),
                    Admission::Refused(Why::Exhausted),
                )
            }
        };
        self.asked = asked;
        answer
    }

    /// Asks, and where there is no room waits until the deadline.
    fn ask_and_wait(&mut self, part: Part, now: u64, deadline: u64) -> Admission<Permit<M>>
        ensures told { IsTold self.old.pass self.new.pass
            (record { part = part; bypass = false; wait = true }) now result }
        ensures answered { IsAnswered self.old.pass self.new.pass
            (record { part = part; bypass = false; wait = true }) now self.new.asked result }
        ensures over { IsOver (exhausted_from M.making) self.new.asked }
        ensures late { IsLate (Some deadline) (Some (known_by M.making self.new)) result }
    {
        let mut looks = MonotonicClock::new(self.clock);
        self.ask_until(part, now, &mut looks, deadline)
    }

    /// The same, by these looks at the clock.
    fn ask_until(
        &mut self,
        part: Part,
        now: u64,
        looks: &mut MonotonicClock<'a, C, ()>,
        deadline: u64,
    ) -> Admission<Permit<M>>
        ensures told { IsTold self.old.pass self.new.pass
            (record { part = part; bypass = false; wait = true }) now result }
        ensures answered { IsAnswered self.old.pass self.new.pass
            (record { part = part; bypass = false; wait = true }) now self.new.asked result }
        ensures over { IsOver (exhausted_from M.making) self.new.asked }
        ensures late { IsLate (Some deadline) (Some (known_by M.making self.new)) result }
    {
        let (rt, pass) = (self.rt, &mut self.pass);
        let (asked, answer) = match self.gate.acquire_wait(rt, pass, part, now, looks, deadline) {
            Waited::Admitted(receipt, permit) => {
                (Receipts::Answered(receipt), Admission::Admitted(permit))
            }
            Waited::Promoted(first, second, permit) => {
                (Receipts::GaveUp(first, second), Admission::Admitted(permit))
            }
            Waited::TimedOut(first, second) => {
                self.reached = Reached::by(looks);
                (
                    Receipts::GaveUp(first, second),
                    Admission::Refused(Why::TimedOut),
                )
            }
            Waited::BacklogFull(receipt) => {
                (
                    Receipts::Answered(receipt),
                    Admission::Refused(Why::BacklogFull),
                )
            }
            Waited::Lost(first, second) => {
                (
                    Receipts::waited(first, second),
                    Admission::Refused(Why::Lost),
                )
            }
            Waited::Exhausted(spent) => {
                spent.invariant();
                (
                    Receipts::Exhausted(spent),
                    Admission::Refused(Why::Exhausted),
                )
            }
        };
        self.asked = asked;
        answer
    }

    /// Asks, and with a deadline waits until then.
    #[inline(always)]
    fn ask_by(
        &mut self,
        part: Part,
        bypass: bool,
        deadline: Option<u64>,
        now: u64,
    ) -> Admission<Permit<M>>
        ensures told { IsTold self.old.pass self.new.pass (ask_of part bypass deadline) now
            result }
        ensures answered { IsAnswered self.old.pass self.new.pass
            (ask_of part bypass deadline) now self.new.asked result }
        ensures late { IsLate deadline (Some (known_by M.making self.new)) result }
        ensures log { AdmitsIn part bypass deadline now (Some (known_by M.making self.old))
            (Some (known_by M.making self.new)) (λ permit. permit) result }
        ensures few { self.new.pass.count
            ≤ self.old.pass.count + (if is_some deadline then 2 else 1) }
    {
        match deadline {
            Some(until) if !bypass => self.ask_and_wait(part, now, until),
            _ => self.ask(part, bypass, now),
        }
    }

    /// Notes that a permit was got, where one was.
    #[inline(always)]
    fn note(&self, admission: &Admission<Permit<M>>) {
        if let Some(since) = self.since {
            if let Admission::Admitted(_) = admission {
                since.store(self.clock.now().max(1), Ordering::Relaxed);
            }
        }
    }

    /// Notes that no permit is out.
    #[inline(always)]
    fn note_end(&self) {
        if let Some(since) = self.since {
            since.store(0, Ordering::Relaxed);
        }
    }
}

impl<'a, L: Limit, M: GateNaming, R: Wait + SystemClock, C: Clock> GatePort
    for Port<'a, L, M, R, C> {
    type Permit = Permit<M>;

    type Receipt = Receipt<M>;

    ghost use Rattle.std.specs.Prelude.{None, Some};
    ghost use Rattle.ports.specs.Asked.{known_by};

    ghost shown = { λ p. None };

    ghost known = { λ p. Some (known_by M.making p) };

    ghost facts = { λ p. p };

    /// Asks the gate once, and where that waits gives up once: a call by the pass each, unless
    /// the history is exhausted.
    #[inline(always)]
    fn admit(
        &mut self,
        part: Part,
        bypass: bool,
        deadline: Option<u64>,
        now: u64,
    ) -> Admission<Permit<M>>
        ensures told { IsTold self.old.pass self.new.pass (ask_of part bypass deadline) now
            result }
        ensures answered { IsAnswered self.old.pass self.new.pass
            (ask_of part bypass deadline) now self.new.asked result }
        ensures late { IsLate deadline (Some (known_by M.making self.new)) result }
        ensures log { AdmitsIn part bypass deadline now (Some (known_by M.making self.old))
            (Some (known_by M.making self.new)) (λ permit. permit) result }
        ensures few { self.new.pass.count
            ≤ self.old.pass.count + (if is_some deadline then 2 else 1) }
    {
        let admission = self.ask_by(part, bypass, deadline, now);
        self.note(&admission);
        admission
    }

    #[inline(always)]
    fn start(permit: &Permit<M>) -> u64 {
        permit.facts().start
    }

    /// Ends a permit, in one call by the pass.
    #[inline(always)]
    fn end(&mut self, permit: Permit<M>, outcome: Outcome, now: u64) -> Receipt<M>
        ensures told { Ends self.old.pass self.new.pass permit outcome now result }
        ensures log { EndsIn permit outcome now (Some (known_by M.making self.old))
            (Some (known_by M.making self.new)) }
        ensures asked { self.new.asked ≡ self.old.asked }
        ensures few { self.new.pass.count ≤ self.old.pass.count + 1 }
    {
        self.note_end();
        self.gate.end(self.rt, &mut self.pass, permit, outcome, now)
    }
}
