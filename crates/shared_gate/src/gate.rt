// A gate that threads share.
ghost use Rattle.std.specs.Prelude.{◌≡◌, ◌≤◌, true, false, All, IfOk, IfErr, is_ok, map, vec_len};
ghost use mathlib.Core.List.{IsPrefix};
ghost use Rattle.limiter_core.specs.declared.event.Event.TheVariants.{SetLimit, Reset, Look};
ghost use Rattle.audit.specs.Accepted.{IsHistoryOf};
ghost use Rattle.gate_journal.specs.Journal.{gate, next_number, opening};
ghost use Rattle.gate_history.specs.Book.{calls_of};
ghost use Rattle.gate_history.specs.Handing.{IsChange};
ghost use Rattle.gate_history.specs.Steps.{event_of};
ghost use Rattle.shared_gate.specs.Calls.{Tells, Gets, Waits, Claims, GivesUp, Ends, Changes};
ghost use Rattle.shared_gate.specs.Calls.{pass_of};
ghost use Rattle.shared_gate.specs.Closing.{FailsBy, IsKept, calls_by, is_missing};
ghost use Rattle.shared_gate.specs.Log.{CallsLegal};
ghost use Rattle.shared_gate.specs.Reported.{AreCountersOf, AreCountersOfAll};
ghost use Rattle.shared_gate.specs.Reported.{ArePassesMissing, IsReportOf, IsReportTo};

use crate::answers::Waited;
use crate::closing::{AuditFault, count_calls, judge};
use crate::conditions::NumberedConditions;
use crate::naming::GateNaming;
use crate::pass::{Pass, with_readers};
use crate::resting::{pause_for, rest};
use crate::sealed::Sealed;
use crate::word::LogLength;
use audit::Calls;
use clocks::{Clock, MonotonicClock};
use gate_history::{
    Book, Call, Claimed, Entry, GaveUp, Got, History, Permit, Receipt, Spent, Step, Ticket,
};
use gate_port::Report;
use gate_word::SharedLogLength;
use limit_laws::Limit;
use limiter_core::{Counters, Outcome, Promotion};
use partitions::Part;
use std::alloc::{AllocError, Global};
use std::sync::{Mutex, Wait};
use std::time::Clock as SystemClock;

/// A gate that threads share. A call that takes the lock keeps its promise if it returns. Every
/// moment is in nanoseconds; one above 2^62 is taken as 2^62.
#[derive(Drop)]
pub struct SharedGate<L: Limit, M: GateNaming> {
    book: Mutex<Sealed<L, M>>,
    pub(crate) word: SharedLogLength<Entry>,
    conditions: NumberedConditions,
    ghost named: { word ≡ M.word },
}

impl<L: Limit, M: GateNaming> SharedGate<L, M> {
    /// A gate over a sealed book of which nothing was asked, with a word beside its lock. The
    /// passes of the book come back in their places, with the calls that were made by them; none
    /// knows of an entry. Fails where memory for them can't be had, which drops book and passes.
    pub fn new(
        alloc: Global,
        word: LogLength,
        book: Book<L, M>,
        passes: Vec<gate_history::BookPass<M>>,
    ) -> Result<(SharedGate<L, M>, Vec<Pass<M>>), AllocError>
        requires word { word ≡ M.word }
        requires sealed { book.is_sealed ≡ true }
        requires unasked { next_number book.journal ≡ 0 }
        requires few { book.tally.passes ≡ M.passes }
        requires legal { CallsLegal L.rules book.journal M.legal }
        ensures passes { IfOk result (λ made. made.1.items ≡ map pass_of passes.items) }
    {
        book.invariant();
        let (word, mut keeper) = word.share();
        let passes = with_readers(alloc, &word, &mut keeper, passes);
        let conditions = NumberedConditions::new(alloc);
        let gate = SharedGate {
            book: Mutex::new(Sealed { book, keeper }),
            word,
            conditions: conditions?,
        };
        Ok((gate, passes?))
    }

    /// One step of the book under the lock, which wakes each waiter that it promotes.
    #[inline(always)]
    fn step(&self, rt: &impl Wait, pass: &mut Pass<M>, call: Call<M>) -> Step<M>
        ensures { Tells pass.old pass.new (event_of call) result }
    {
        let mut sealed = self.book.lock(rt);
        let step = sealed.step(&self.word, pass, call);
        self.wake(sealed.promoted_by(&step));
        step
    }

    /// Wakes promoted waiters, each at the condition of its number. The lock is held meanwhile: a
    /// waiter that looked before the step has begun to wait by then.
    #[inline(always)]
    fn wake(&self, promotions: &[Promotion]) {
        for promotion in promotions {
            self.conditions.wake(promotion.waiter);
        }
    }

    /// How many replies, promotions and outcomes of each kind there were so far.
    pub fn counters(&self, rt: &impl Wait) -> Counters
        ensures { AreCountersOf L.rules M.making result }
    {
        self.report(rt).counters
    }

    /// The same where nobody else has called: these are counters of their calls alone, each of
    /// which has a number of its own, as they are where these are all passes of the gate. Else how
    /// many calls there were, and how many of them by these passes.
    pub fn counters_of_all(&self, rt: &impl Wait, passes: Vec<Pass<M>>) -> Result<Counters, Calls>
        ensures all { IfOk result (AreCountersOfAll L.rules M.making passes.items) }
        ensures whole { vec_len passes ≡ M.passes → is_ok result ≡ true }
        ensures missing { IfErr result (ArePassesMissing L.rules M.making passes.items) }
    {
        let mut sealed = self.book.lock(rt);
        let calls = sealed.take_back(&self.word, passes);
        let counters = sealed.report().counters;
        if calls.sum != calls.book {
            return Err(calls);
        }
        Ok(counters)
    }

    /// The state at one moment, and the counters so far. It makes no step of the history, and
    /// takes no memory.
    pub fn report(&self, rt: &impl Wait) -> Report
        ensures { IsReportOf L.rules M.making result }
    {
        self.book.lock(rt).report()
    }

    /// The same by a pass: the log of the report begins with what the pass knew, and the pass knows
    /// that log then. So what was changed by the pass before is in it, and the log of its next
    /// report begins with this one.
    pub fn report_to(&self, rt: &impl Wait, pass: &mut Pass<M>) -> Report
        ensures { IsReportTo L.rules M.making pass.old pass.new result }
    {
        self.book.lock(rt).report_to(&self.word, pass)
    }

    /// Asks for a permit, or with `wait` for a place in line.
    #[inline(always)]
    pub fn acquire(
        &self,
        rt: &impl Wait,
        pass: &mut Pass<M>,
        part: Part,
        bypass: bool,
        wait: bool,
        now: u64,
    ) -> Got<M>
        ensures { Gets pass.old pass.new part bypass wait now result }
    {
        let call = Call::Acquire {
            part,
            bypass,
            wait,
            now,
        };
        self.step(rt, pass, call).into_got()
    }

    /// Asks for a permit, and where there is no room waits for one until the clock reaches the
    /// deadline: one step, and where that waits one giving up, once its permit is granted or the
    /// deadline has come. It looks at the clock at least every 100 ms.
    pub fn acquire_wait<R: Wait + SystemClock, C: Clock>(
        &self,
        rt: &R,
        pass: &mut Pass<M>,
        part: Part,
        now: u64,
        looks: &mut MonotonicClock<'_, C, ()>,
        deadline: u64,
    ) -> Waited<M>
        ensures { Waits pass.old pass.new part now deadline looks.new.latest result }
    {
        match self.acquire(rt, pass, part, false, true, now) {
            Got::Admitted(receipt, permit) => Waited::Admitted(receipt, permit),
            Got::Bypassed(_receipt) => unreachable!(),
            Got::Full(_receipt) => unreachable!(),
            Got::BacklogFull(receipt) => Waited::BacklogFull(receipt),
            Got::Exhausted(spent) => Waited::Exhausted(spent),
            Got::Waiting(receipt, ticket) => {
                let is_over = self.wait_for(rt, ticket.number(), looks, deadline);
                match self.give_up(rt, pass, ticket) {
                    GaveUp::Granted(second, permit) => Waited::Promoted(receipt, second, permit),
                    GaveUp::TimedOut(second) => {
                        rest(rt, looks, deadline, is_over);
                        Waited::TimedOut(receipt, second)
                    }
                    GaveUp::Lost(second) => Waited::Lost(receipt, Ok(second)),
                    GaveUp::Exhausted(spent) => Waited::Lost(receipt, Err(spent)),
                }
            }
        }
    }

    /// Waits until a permit of this number is granted, or the clock has reached the deadline, and
    /// tells whether it has.
    fn wait_for<R: Wait + SystemClock, C: Clock>(
        &self,
        rt: &R,
        number: u64,
        looks: &mut MonotonicClock<'_, C, ()>,
        deadline: u64,
    ) -> bool
        ensures { result ≡ true → deadline ≤ looks.new.latest }
    {
        let mut locked = self.book.lock(rt);
        for _ in rt.forever() {
            if locked.book.journal().core().is_granted(number) {
                return false;
            }
            let now = looks.look();
            if now >= deadline {
                return true;
            }
            let pause = pause_for(deadline - now);
            locked = self.conditions.wait(rt, locked, number, pause);
        }
        unreachable!()
    }

    /// Ends a permit, and wakes the waiters that this promotes.
    #[inline(always)]
    pub fn end(
        &self,
        rt: &impl Wait,
        pass: &mut Pass<M>,
        permit: Permit<M>,
        outcome: Outcome,
        now: u64,
    ) -> Receipt<M>
        ensures { Ends pass.old pass.new permit outcome now result }
    {
        let call = Call::End {
            permit,
            outcome,
            now,
        };
        let step = self.step(rt, pass, call);
        match step.into_receipt() {
            Ok(receipt) => receipt,
            Err(_spent) => unreachable!(),
        }
    }

    /// Asks for the permit of a waiter.
    pub fn claim(&self, rt: &impl Wait, pass: &mut Pass<M>, ticket: Ticket<M>) -> Claimed<M>
        ensures { Claims pass.old pass.new ticket result }
    {
        self.step(rt, pass, Call::Claim { ticket }).into_claimed()
    }

    /// Ends the wait of a waiter; a permit that it was given meanwhile is the caller's.
    pub fn give_up(&self, rt: &impl Wait, pass: &mut Pass<M>, ticket: Ticket<M>) -> GaveUp<M>
        ensures { GivesUp pass.old pass.new ticket result }
    {
        self.step(rt, pass, Call::GiveUp { ticket }).into_gave_up()
    }

    /// Sets the limit by hand, and wakes the waiters that this promotes.
    pub fn set_limit(
        &self,
        rt: &impl Wait,
        pass: &mut Pass<M>,
        n: u32,
        now: u64,
    ) -> Result<Receipt<M>, Spent<M>>
        ensures { Changes pass.old pass.new (SetLimit n now) result }
    {
        self.change(rt, pass, Call::SetLimit { n, now })
    }

    /// Puts the algorithm back into its first state, and wakes the waiters that this promotes. What
    /// is in flight stays.
    pub fn reset(
        &self,
        rt: &impl Wait,
        pass: &mut Pass<M>,
        now: u64,
    ) -> Result<Receipt<M>, Spent<M>>
        ensures { Changes pass.old pass.new (Reset now) result }
    {
        self.change(rt, pass, Call::Reset { now })
    }

    /// Shows the state.
    pub fn look(
        &self,
        rt: &impl Wait,
        pass: &mut Pass<M>,
        part: Part,
    ) -> Result<Receipt<M>, Spent<M>>
        ensures { Changes pass.old pass.new (Look part) result }
    {
        self.change(rt, pass, Call::Look { part })
    }

    /// Closes the gate and audits it: its history, where that is whole and has just the calls whose
    /// receipts were kept, one list for each caller, each call once and each list in order.
    ///
    /// Else the first [`Cause`](audit::Cause) that applies, with the history and the lists; the
    /// passes are spent. None is missing where these are all passes of the gate. It takes memory
    /// for three marks an entry before all else, and goes over the receipts twice and over the
    /// entries three times.
    pub fn close(
        self,
        alloc: Global,
        passes: Vec<Pass<M>>,
        kept: Vec<Vec<Receipt<M>>>,
    ) -> Result<History<L>, AuditFault<L, M>>
        ensures whole { IfOk result (λ history. history.base ≡ 0) }
        ensures legal { IfOk result (λ history. IsKept L.rules M.making
            history.opening.standing history.base history.entries.items) }
        ensures counted { IfOk result (λ history.
            calls_by passes.items ≡ calls_of history.entries.items) }
        ensures accepted { IfOk result (λ history.
            IsHistoryOf history.entries.items kept.items) }
        ensures begun { IfOk result (λ history.
            All (λ pass. IsPrefix pass.log history.entries.items) passes.items) }
        ensures first { IfErr result (λ fault. FailsBy L.rules M.making passes.items
            fault.history.base fault.history.entries.items fault.kept.items fault.cause) }
        ensures none_missing { IfErr result (λ fault.
            vec_len passes ≡ M.passes → is_missing fault.cause ≡ false) }
        ensures history { IfErr result (λ fault. IsKept L.rules M.making
            fault.history.opening.standing fault.history.base fault.history.entries.items) }
        ensures kept { IfErr result (λ fault. fault.kept ≡ kept) }
    {
        let SharedGate {
            book,
            word,
            conditions: _,
        } = self;
        let Sealed {
            mut book,
            mut keeper,
        } = book.into_inner();
        let calls = count_calls(&mut book, &word, &mut keeper, passes);
        judge(alloc, Sealed { book, keeper }, calls, kept)
    }

    /// A call that hands nothing out.
    fn change(
        &self,
        rt: &impl Wait,
        pass: &mut Pass<M>,
        call: Call<M>,
    ) -> Result<Receipt<M>, Spent<M>>
        requires { IsChange (event_of call) }
        ensures { Changes pass.old pass.new (event_of call) result }
    {
        self.step(rt, pass, call).into_receipt()
    }
}
