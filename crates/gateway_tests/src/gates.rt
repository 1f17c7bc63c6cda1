// Gates that are opened for a trial.
ghost use Rattle.std.specs.Prelude.{◌≡◌};
ghost use Rattle.limit_kinds.specs.AnyKinds.{any_rules};
ghost use Rattle.gate_journal.specs.Settings.{begun};
ghost use Rattle.gate_ledgers.specs.Names.{AreNamed, AreWhole};
ghost use Rattle.gate_history.specs.Book.{made_with};
ghost use Rattle.shared_gate.specs.Log.{CallsAllLegal};

use crate::closing::{Handing, one_closes, two_threads_close};
use crate::crowd_tests::all_others_wait;
use crate::port_tests::refuses;
use crate::random::told_by_four;
use crate::rolling_tests::{is_reset, is_seen};
use crate::seen_tests::{both_work, one_looks_and_is_told, tells_under_the_lock};
use crate::shared_gate_tests::{one_waits_for_another, promotes_the_newest};
use crate::test_clocks::Waiting;
use crate::waiting_tests::{answers_what_is_owed, waits_in_vain};
use gate_history::{Blanks, Book, GateSettings};
use limit_kinds::{AnyLimit, BaseLimit};
use limit_laws::{Fixed, Settable};
use limiter_core::Promote;
use partitions::PartitionTable;
use shared_gate::{GateNaming, LogLength, Pass, SharedGate};
use std::alloc::Global;
use std::marker::Brand;
use std::process::Abort;
use std::sync::Wait;
use std::sync::atomic::AtomicU64;
use std::thread::Threads;
use std::time::Clock as SystemClock;

/// What is tried at a gate that was just opened, by its passes. What a thread is sent can't rest on
/// a bound of a trait's method, so it is told by an enum.
#[derive(Drop)]
pub(crate) enum Trial<'t, R> {
    /// The newer one of two who wait is promoted, and the other one gives up.
    PromoteTheNewest,
    /// One waits in vain.
    WaitInVain(Waiting<'t, R>),
    /// What an exhausted gate still answers.
    AnswerWhatIsOwed,
    /// A limit that was set is seen behind rolls.
    SetAndSee,
    /// It is reset behind rolls.
    SetAndReset,
    /// One looks, and is told what another has seen.
    Tell,
    /// One is told so while the lock is held.
    TellUnderTheLock,
    /// One makes two calls, and the gate is closed.
    Close(Handing),
    /// Two threads call, and the gate is closed.
    CallAndClose,
    /// Two threads call, what each has seen is looked at, and one is told and both call again.
    Work,
    /// One thread waits for the permit that another one ends.
    Wait,
    /// All but one wait, and are promoted; it is noted how many of them went on late.
    Crowd(&'t AtomicU64),
    /// A port asks a full gate, at once and by a deadline.
    RefuseByADeadline,
    /// Four make random calls, at a gate that promotes so.
    CallAtRandom(Promote),
}

/// How a gate is made, and how many passes it gives.
#[derive(Drop)]
pub(crate) struct Making {
    pub(crate) settings: GateSettings<AnyLimit>,
    pub(crate) passes: usize,
}

impl Making {
    /// A gate without classes, at which 100 may wait.
    pub(crate) fn plain(
        limit: AnyLimit,
        promote: Promote,
        kept: usize,
        is_rolling: bool,
        passes: usize,
    ) -> Making {
        let settings = GateSettings {
            limit,
            table: PartitionTable::unknown_only(),
            room: 100,
            promote,
            kept,
            is_rolling,
        };
        Making { settings, passes }
    }
}

/// A gate of so many permits, without classes, which promotes the newest.
pub(crate) fn fixed<R: Abort>(
    rt: &R,
    permits: u32,
    kept: usize,
    is_rolling: bool,
    passes: usize,
) -> Making {
    let limit = BaseLimit::Fixed(Fixed::new(permits).expect(rt, "a limit"));
    Making::plain(
        AnyLimit::Plain(limit),
        Promote::Newest,
        kept,
        is_rolling,
        passes,
    )
}

/// A limit of these least, first and greatest numbers, which may be set.
pub(crate) fn settable<R: Abort>(rt: &R, lo: u32, first: u32, hi: u32) -> AnyLimit {
    AnyLimit::Plain(BaseLimit::Settable(Settable::new(lo, first, hi).expect(rt, "a limit")))
}

/// Tries something at a gate that is made so.
pub(crate) fn try_at<R: Threads + Wait + SystemClock + Abort + Sync>(
    rt: &R,
    alloc: Global,
    making: Making,
    trial: Trial<'_, R>,
) {
    let word = LogLength::new(alloc).expect(rt, "memory for a word");
    try_at_named::<Brand, R>(rt, alloc, Blanks::new(), word, making, trial);
}

fn try_at_named<M: GateNaming + Send + Sync, R: Threads + Wait + SystemClock + Abort + Sync>(
    rt: &R,
    alloc: Global,
    blanks: Blanks,
    word: LogLength,
    making: Making,
    trial: Trial<'_, R>,
)
    requires names { AreNamed M.calls M.place blanks }
    requires parts { AreWhole blanks }
    requires word { word ≡ M.word }
    requires passes { M.passes ≡ making.passes }
    requires legal { CallsAllLegal M.legal }
    requires making { M.making ≡ made_with any_rules (begun making.settings) }
{
    let Making { settings, passes } = making;
    assert!(rt; settings.room <= 10_000);
    assert!(rt; 1 <= settings.kept && settings.kept <= 1_000_000);
    let book = Book::<AnyLimit, M>::begin(alloc, settings, blanks);
    let book = book.expect(rt, "memory for a book");
    let made = SharedGate::open(alloc, word, book, passes);
    let (gate, passes) = made.expect(rt, "memory for a gate");
    try_open(rt, alloc, gate, passes, trial);
}

fn try_open<M: GateNaming + Send + Sync, R: Threads + Wait + SystemClock + Abort + Sync>(
    rt: &R,
    alloc: Global,
    gate: SharedGate<AnyLimit, M>,
    mut passes: Vec<Pass<M>>,
    trial: Trial<'_, R>,
) {
    match trial {
        Trial::Close(handing) => one_closes(rt, alloc, gate, passes, handing),
        Trial::CallAndClose => two_threads_close(rt, alloc, gate, passes),
        other => try_lent(rt, alloc, &gate, &mut passes, other),
    }
}

/// Tries something at a gate that is only lent.
fn try_lent<M: GateNaming + Send + Sync, R: Threads + Wait + SystemClock + Abort + Sync>(
    rt: &R,
    alloc: Global,
    gate: &SharedGate<AnyLimit, M>,
    passes: &mut Vec<Pass<M>>,
    trial: Trial<'_, R>,
) {
    match trial {
        Trial::PromoteTheNewest => promotes_the_newest(rt, gate, first_of(rt, passes)),
        Trial::WaitInVain(waiting) => waits_in_vain(rt, gate, first_of(rt, passes), waiting),
        Trial::AnswerWhatIsOwed => answers_what_is_owed(rt, gate, first_of(rt, passes)),
        Trial::SetAndSee => is_seen(rt, gate, first_of(rt, passes)),
        Trial::SetAndReset => is_reset(rt, gate, first_of(rt, passes)),
        Trial::Tell => one_looks_and_is_told(rt, gate, passes),
        Trial::TellUnderTheLock => tells_under_the_lock(rt, gate, passes),
        Trial::Work => both_work(rt, alloc, gate, passes),
        Trial::Wait => one_waits_for_another(rt, gate, passes),
        Trial::Crowd(late) => all_others_wait(rt, gate, passes, late),
        Trial::RefuseByADeadline => refuses(rt, gate, next_of(rt, passes)),
        Trial::CallAtRandom(promote) => told_by_four(rt, alloc, promote, gate, passes),
        _ => rt.abort(),
    }
}

/// The next of some passes.
pub(crate) fn next_of<M: GateNaming, R: Abort>(rt: &R, passes: &mut Vec<Pass<M>>) -> Pass<M> {
    passes.pop().expect(rt, "a pass")
}

/// The first of some passes.
pub(crate) fn first_of<'p, M: GateNaming, R: Abort>(
    rt: &R,
    passes: &'p mut [Pass<M>],
) -> &'p mut Pass<M> {
    passes.first_mut().expect(rt, "a pass")
}

/// The first two of some passes.
pub(crate) fn two_of<'p, M: GateNaming, R: Abort>(
    rt: &R,
    passes: &'p mut [Pass<M>],
) -> (&'p mut Pass<M>, &'p mut Pass<M>) {
    let (one, others) = passes.split_first_mut().expect(rt, "a pass");
    (one, first_of(rt, others))
}
