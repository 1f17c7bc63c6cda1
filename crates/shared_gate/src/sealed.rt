// What lies under the lock.
ghost use Rattle.std.specs.Prelude.{◌≡◌, ◌≤◌, All, vec_len};
ghost use mathlib.Core.List.{IsPrefix};
ghost use Rattle.gate_history.specs.Book.{calls_of};
ghost use Rattle.gate_history.specs.Steps.{event_of};
ghost use Rattle.shared_gate.specs.Calls.{Tells};
ghost use Rattle.shared_gate.specs.Closing.{HaveOwnCalls, calls_by};
ghost use Rattle.shared_gate.specs.Reported.{IsReportAfter, IsReportTo};

use crate::closing::count_calls;
use crate::naming::GateNaming;
use crate::pass::Pass;
use audit::Calls;
use gate_history::{Book, Call, Entry, Journal, Step};
use gate_journal::rolling_runs_are_legal;
use gate_port::{Report, report_of};
use gate_word::{Keeper, SharedLogLength};
use limit_laws::Limit;
use limiter_core::{Promotion, counters_add_up};
use std::marker::{Brand, Model};

/// A book that gave as many passes as its gate has, and gives no more, and the keeper of the log of
/// all its entries. Contracts see the log.
#[derive(Drop)]
pub(crate) struct Sealed<L: Limit, M: GateNaming> {
    pub(crate) book: Book<L, M>,
    pub(crate) keeper: Keeper<Entry>,
}

impl<L: Limit, M: GateNaming> Model for Sealed<L, M> {
    ghost use Rattle.std.specs.Prelude.{◌≡◌, List, true};
    ghost use Rattle.limiter_core.specs.declared.event.Entry.{Entry};
    ghost use Rattle.shared_gate.specs.Log.{IsBehind};

    ghost Value = { List Entry };

    ghost view = { λ s. s.keeper.log };

    ghost invariant = { λ s. (s.keeper.table ≡ M.word) × (s.book.is_sealed ≡ true)
        × IsBehind L.rules M.making.limit M.legal s.keeper.log s.book
        × (s.book.tally.passes ≡ M.passes) };
}

impl<L: Limit, M: GateNaming> Sealed<L, M> {
    /// One step of the book. Its entries are added to the log, none where the history is exhausted,
    /// and the pass knows the log then.
    #[inline(always)]
    pub(crate) fn step(
        &mut self,
        word: &SharedLogLength<Entry>,
        pass: &mut Pass<M>,
        call: Call<M>,
    ) -> Step<M>
        requires { word.now ≡ M.word }
        ensures { Tells pass.old pass.new (event_of call) result }
    {
        rolling_runs_are_legal::<L>();
        counters_add_up();
        self.book.journal().invariant();
        let step = self.book.step(&mut pass.pass, call);
        let journal = self.book.journal();
        let next = journal.number();
        word.raise::<Journal<L>, Brand>(&mut self.keeper, &mut pass.reader, journal, next);
        pass.seen = next;
        step
    }

    /// Returns the promotions of the step that was just made: none if the history was exhausted.
    #[inline(always)]
    pub(crate) fn promoted_by(&self, step: &Step<M>) -> &[Promotion] {
        match step {
            Step::Done(_) | Step::Permit(..) | Step::Ticket(..) => self
                .book
                .journal()
                .core()
                .promotions(),
            Step::Exhausted(_) | Step::Returned(..) => &[],
        }
    }

    /// Takes passes back, by which no more calls are made, and tells how many calls there were and
    /// how many were made by these: they are in the log, each at a number of its own, and are all
    /// calls where these are all passes.
    pub(crate) fn take_back(&mut self, word: &SharedLogLength<Entry>, passes: Vec<Pass<M>>) -> Calls
        requires { word.now ≡ M.word }
        ensures book { result.book ≡ calls_of self.old }
        ensures sum { result.sum ≡ calls_by passes.items }
        ensures begun { All (λ pass. IsPrefix pass.log self.old) passes.items }
        ensures enough { result.sum ≤ result.book }
        ensures all { vec_len passes ≡ M.passes → result.sum ≡ result.book }
        ensures once { HaveOwnCalls passes.items }
        ensures same { self.new ≡ self.old }
    {
        count_calls(&mut self.book, word, &mut self.keeper, passes)
    }

    /// The state, and what was counted by then.
    pub(crate) fn report(&self) -> Report
        ensures { IsReportAfter L.rules M.making self.now result }
    {
        self.book.invariant();
        let journal = self.book.journal();
        journal.invariant();
        report_of(journal.core())
    }

    /// The same to a pass, which knows the log then. The log stays as it is.
    pub(crate) fn report_to(&mut self, word: &SharedLogLength<Entry>, pass: &mut Pass<M>) -> Report
        requires { word.now ≡ M.word }
        ensures { IsReportTo L.rules M.making pass.old pass.new result }
    {
        word.show(&mut self.keeper, &mut pass.reader);
        pass.seen = self.book.journal().number();
        self.report()
    }
}
