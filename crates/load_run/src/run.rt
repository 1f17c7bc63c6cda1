// A run of the calls of a trace, and its audit.
ghost use Rattle.std.specs.Prelude.{◌≡◌, ◌≤◌, IfErr, IfOk, IsErrOf, vec_len};
ghost use Rattle.counted_io.specs.Count.{raised};
ghost use Rattle.tasks.specs.Refused.{refused_of};
ghost use Rattle.limit_laws.specs.Algorithm.{greatest_limit};
ghost use Rattle.limit_kinds.specs.AnyKinds.{any_rules};
ghost use Rattle.gate_journal.specs.Settings.{AreInRange, begun};
ghost use Rattle.gate_ledgers.specs.Names.{AreNamed, AreWhole};
ghost use Rattle.gate_history.specs.Book.{made_with};
ghost use Rattle.shared_gate.specs.Log.{CallsLegal};
ghost use Rattle.script_gate.specs.Settings.{journal_of};
ghost use Rattle.load_driver.specs.Limits.{kept_entries};
ghost use Rattle.load_run.specs.Driver.{StopsRun};
ghost use Rattle.load_run.specs.Load.{IsAccepted, IsRejected, IsRun, making_of};

use crate::counting::count_entries;
use crate::fault::LoadFault;
use crate::fitting::all_fit;
use crate::making::make_workers;
use crate::summary::Summary;
use crate::worker::{RunContext, Worker};
use crate::workers::{Worked, run_all};
use gate_history::{Blanks, Book, GateSettings};
use limit_kinds::AnyLimit;
use limit_laws::Limit;
use load_driver::KEPT;
use script::ScriptSettings;
use script_gate::gate_settings;
use shared_gate::{Cause, Clock, GateNaming, LogLength, SharedGate};
use std::alloc::{AllocError, Global};
use std::sync::Wait;
use std::thread::Threads;
use std::time::Clock as SystemClock;
use tasks::Spawner;
use trace::Arrival;

/// How the run is made: the limit where no line gives one, and how many workers there are.
#[derive(Clone, Copy)]
pub(crate) struct RunSize {
    pub(crate) limit: u32,
    pub(crate) workers: usize,
}

/// Runs the calls by workers on threads of their own, and audits the run.
pub(crate) fn run_named<M: GateNaming + Send + Sync, R, C>(
    rt: &R,
    spawner: &mut Spawner<'_, R>,
    alloc: Global,
    blanks: Blanks,
    word: LogLength,
    settings: ScriptSettings,
    arrivals: Vec<Arrival>,
    size: RunSize,
    clock: &C,
) -> Result<Summary, LoadFault>
where
    R: Threads + Wait + SystemClock + Sync,
    C: Clock + Sync,
    requires least { 1 ≤ size.limit }
    requires most { size.limit ≤ greatest_limit }
    requires some { 1 ≤ size.workers }
    requires few { size.workers ≤ 64 }
    requires making { M.making ≡ making_of size.limit settings }
    requires names { AreNamed M.calls M.place blanks }
    requires parts { AreWhole blanks }
    requires word { word ≡ M.word }
    requires passes { size.workers ≡ M.passes }
    requires legal { CallsLegal any_rules (journal_of size.limit kept_entries settings) M.legal }
    ensures run { IfOk result (IsRun size.workers size.limit settings.entry arrivals.items) }
    ensures stops { IfErr result
        (StopsRun size.workers size.limit settings.entry arrivals.items) }
    ensures thread { IsErrOf result LoadFault.Thread →
        refused_of spawner.new ≡ raised (refused_of spawner.old) }
{
    let timeout = settings.timeout();
    let turns = (arrivals.len() / size.workers).saturating_add(1);
    let (gate, workers) = open_gate::<M>(alloc, blanks, word, settings, size, turns)?;
    let context = RunContext {
        rt,
        gate: &gate,
        arrivals: &arrivals,
        clock,
        timeout,
        workers: size.workers,
    };
    let worked = run_all(spawner, alloc, &context, workers)?;
    Ok(close(alloc, gate, worked)?)
}

/// The gate of a run, and its workers, each with room for so many turns.
fn open_gate<M: GateNaming>(
    alloc: Global,
    blanks: Blanks,
    word: LogLength,
    settings: ScriptSettings,
    size: RunSize,
    turns: usize,
) -> Result<(SharedGate<AnyLimit, M>, Vec<Worker<M>>), AllocError>
    requires least { 1 ≤ size.limit }
    requires most { size.limit ≤ greatest_limit }
    requires making { M.making ≡ making_of size.limit settings }
    requires names { AreNamed M.calls M.place blanks }
    requires parts { AreWhole blanks }
    requires word { word ≡ M.word }
    requires passes { size.workers ≡ M.passes }
    requires legal { CallsLegal any_rules (journal_of size.limit kept_entries settings) M.legal }
    ensures { IfOk result (λ opened. vec_len opened.1 ≡ size.workers) }
{
    let settings = gate_settings(settings, size.limit, KEPT);
    open_over(alloc, blanks, word, settings, size.workers, turns)
}

/// The gate of these settings, whichever its limit is, and so many workers, each with room for so
/// many turns.
fn open_over<L: Limit, M: GateNaming>(
    alloc: Global,
    blanks: Blanks,
    word: LogLength,
    settings: GateSettings<L>,
    workers: usize,
    turns: usize,
) -> Result<(SharedGate<L, M>, Vec<Worker<M>>), AllocError>
    requires range { AreInRange settings }
    requires making { M.making ≡ made_with L.rules (begun settings) }
    requires names { AreNamed M.calls M.place blanks }
    requires parts { AreWhole blanks }
    requires word { word ≡ M.word }
    requires passes { workers ≡ M.passes }
    requires legal { CallsLegal L.rules (begun settings) M.legal }
    ensures { IfOk result (λ opened. vec_len opened.1 ≡ workers) }
{
    let book = Book::begin(alloc, settings, blanks)?;
    let (gate, passes) = SharedGate::open(alloc, word, book, workers)?;
    let workers = make_workers(alloc, passes, turns)?;
    Ok((gate, workers))
}

/// What is counted of the history of a gate that is closed, where its audit accepts it and the
/// refusals fit it. They do, since a history that doesn't roll never gets shorter; but a step tells
/// nothing of what comes after it, so it is looked at, and a misfit reported as an audit out of
/// memory.
fn close<M: GateNaming>(
    alloc: Global,
    gate: SharedGate<AnyLimit, M>,
    worked: Worked<M>,
) -> Result<Summary, Cause>
    requires { vec_len worked.passes ≡ M.passes }
    ensures accepted { IfOk result (IsAccepted M.making
        worked.kept.items worked.spent.items) }
    ensures rejected { IfErr result (IsRejected M.making worked.kept.items) }
{
    let Worked {
        passes,
        kept,
        spent,
    } = worked;
    match gate.close(alloc, passes, kept) {
        Ok(history) => {
            if all_fit(&spent, history.entries.len() as u64) {
                Ok(count_entries(&history.entries))
            } else {
                Err(Cause::Memory)
            }
        }
        Err(fault) => Err(fault.cause),
    }
}
