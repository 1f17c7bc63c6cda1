// A run: the gate is made, called by two threads, and closed.
ghost use Rattle.std.specs.Prelude.{◌≡◌, replicate, IfOk};
ghost use Rattle.aimd.specs.AimdRules.{aimd_rules};
ghost use Rattle.gate_journal.specs.Settings.{AreInRange, begun};
ghost use Rattle.gate_ledgers.specs.Names.{AreNamed, AreWhole};
ghost use Rattle.gate_history.specs.Book.{made_with};
ghost use Rattle.shared_gate.specs.Calls.{pass_of};
ghost use Rattle.shared_gate.specs.Log.{CallsLegal};
ghost use Rattle.embedding.specs.Run.{IsAudited};

use crate::caller::Caller;
use aimd::Aimd;
use gate_history::{Blanks, Book, GateSettings, History};
use partitions::Part;
use shared_gate::{
    GateNaming, LogLength, Pass, ProgramClock, SharedGate, accepted_histories_are_one_threads,
};
use std::alloc::Global;
use std::sync::Wait;
use std::thread::{Threads, join};
use std::time::Clock as SystemClock;

/// Makes a gate of these settings, has two threads call it, one for the first class and one for the
/// second, and closes it. The answer is the history of all calls.
pub(crate) fn run<M: GateNaming + Send + Sync, R: Threads + Wait + SystemClock + Sync>(
    rt: &R,
    alloc: Global,
    blanks: Blanks,
    word: LogLength,
    settings: GateSettings<Aimd>,
) -> anyhow::Result<History<Aimd>>
    requires names { AreNamed M.calls M.place blanks }
    requires parts { AreWhole blanks }
    requires word { word ≡ M.word }
    requires passes { M.passes ≡ 2 }
    requires range { AreInRange settings }
    requires making { M.making ≡ made_with aimd_rules (begun settings) }
    requires legal { CallsLegal aimd_rules (begun settings) M.legal }
    ensures { IfOk result (λ history. IsAudited (made_with aimd_rules (begun settings))
        history.opening.standing history.entries.items) }
{
    let book = Book::begin(alloc, settings, blanks)?;
    let (gate, passes) = SharedGate::<Aimd, M>::open(alloc, word, book, 2)?;
    call_and_close(rt, alloc, gate, passes)
}

/// Has a thread call by each of two new passes, and closes the gate.
fn call_and_close<M: GateNaming + Send + Sync, R: Threads + Wait + SystemClock + Sync>(
    rt: &R,
    alloc: Global,
    gate: SharedGate<Aimd, M>,
    mut passes: Vec<Pass<M>>,
) -> anyhow::Result<History<Aimd>>
    requires new { passes.items ≡ replicate 2 (pass_of 0) }
    ensures { IfOk result (λ history. IsAudited M.making
        history.opening.standing history.entries.items) }
{
    let (Some(two), Some(one)) = (passes.pop(), passes.pop()) else {
        unreachable!()
    };
    let clock = ProgramClock::start(rt);
    let live = Caller::new(alloc, one, Part::Known(0));
    let batch = Caller::new(alloc, two, Part::Known(1));
    let (live, batch) = join(
        rt,
        || live.call_often(rt, &gate, &clock),
        || batch.call_often(rt, &gate, &clock),
    );
    audit(alloc, gate, live?, batch?)
}

/// Closes the gate, and audits its history against the receipts of both callers.
fn audit<M: GateNaming>(
    alloc: Global,
    gate: SharedGate<Aimd, M>,
    one: Caller<M>,
    two: Caller<M>,
) -> anyhow::Result<History<Aimd>>
    ensures { IfOk result (λ history. IsAudited M.making
        history.opening.standing history.entries.items) }
{
    accepted_histories_are_one_threads::<Aimd>();
    let passes = vec![in alloc; one.pass, two.pass]?;
    let kept = vec![in alloc; one.kept, two.kept]?;
    match gate.close(alloc, passes, kept) {
        Ok(history) => Ok(history),
        Err(fault) => Err(fault.cause)?,
    }
}
