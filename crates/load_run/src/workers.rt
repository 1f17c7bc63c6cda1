// All workers, each on a thread of its own.
ghost use Rattle.std.specs.Prelude.{◌≡◌, ◌+◌, ◌++◌, ◌∷◌, [], IfOk, IsErrOf, vec_len};
ghost use Rattle.counted_io.specs.Count.{raised};
ghost use Rattle.tasks.specs.Refused.{refused_of};
ghost use Rattle.audit.specs.Firsts.{EachHas};
ghost use Rattle.load_run.specs.Gathered.{IsKeptAt};
ghost use Rattle.load_run.specs.Workers.{AreWork};

use crate::worker::{RunContext, Worker, work};
use gate_history::{Receipt, Spent};
use limit_laws::Limit;
use shared_gate::{Clock, GateNaming, Pass};
use std::alloc::{AllocError, Global};
use std::sync::Wait;
use std::thread::Threads;
use std::time::Clock as SystemClock;
use tasks::{Spawner, Task, TasksFault, run_tasks};

/// The passes, the receipts and the refusals of the workers, in order of their numbers.
#[derive(Drop)]
pub(crate) struct Worked<M: GateNaming> {
    pub(crate) passes: Vec<Pass<M>>,
    pub(crate) kept: Vec<Vec<Receipt<M>>>,
    pub(crate) spent: Vec<Vec<Spent<M>>>,
}

/// A worker of a shop, with its number.
#[derive(Drop)]
struct Hand<'a, M: GateNaming, X> {
    context: &'a X,
    number: usize,
    worker: Worker<M>,
}

impl<'a, L, M, R, C> Task for Hand<'a, M, RunContext<'a, L, M, R, C>>
where
    L: Limit + Send,
    M: GateNaming + Send + Sync,
    R: Wait + SystemClock + Sync,
    C: Clock + Sync,
{
    ghost use Rattle.std.specs.Prelude.{IfOk};
    ghost use Rattle.shared_gate.specs.Calls.{seen_by};
    ghost use Rattle.load_run.specs.Worker.{IsWork};

    // What the worker brings back.
    type Done = Result<Worker<M>, AllocError>;

    ghost makes = { λ hand done. IfOk done (λ worker.
        IsWork hand.context.now.workers hand.number hand.context.now.arrivals.now.items
        worker.receipts.items worker.refusals.items (seen_by worker.pass)) };

    fn run(self) -> Result<Worker<M>, AllocError> {
        work(self.context, self.number, self.worker)
    }
}

/// The workers of a shop, with their numbers.
fn hands_of<'a, M: GateNaming, X>(
    alloc: Global,
    context: &'a X,
    workers: Vec<Worker<M>>,
) -> Result<Vec<Hand<'a, M, X>>, AllocError>
    ensures all { IfOk result (λ hands. vec_len hands ≡ vec_len workers) }
    ensures each { IfOk result (λ hands. EachHas
        (λ place hand. (hand.number ≡ place) × (hand.context.now ≡ context.now)) hands.items) }
{
    let mut hands = Vec::with_capacity(alloc, workers.len())?;
    for worker in workers {
        let number = hands.len();
        hands.push_reserved(Hand {
            context,
            number,
            worker,
        });
    }
    Ok(hands)
}

/// What the workers brought back, where all of them had the memory.
fn gather<M: GateNaming>(
    alloc: Global,
    done: Vec<Result<Worker<M>, AllocError>>,
) -> Result<Worked<M>, AllocError>
    ensures count { IfOk result (λ worked. vec_len worked.kept ≡ vec_len done) }
    ensures passes { IfOk result (λ worked. vec_len worked.passes ≡ vec_len done) }
    ensures each { IfOk result (λ worked. EachHas
        (IsKeptAt worked.kept.items worked.spent.items) done.items) }
{
    let mut worked = Worked {
        passes: Vec::new(alloc),
        kept: Vec::new(alloc),
        spent: Vec::new(alloc),
    };
    for worker in done {
        worked = worked.add(worker?)?;
    }
    Ok(worked)
}

/// Runs all workers: once they have ended, their passes, receipts and refusals. `Memory` may also
/// come once they have.
pub(crate) fn run_all<L: Limit + Send, M: GateNaming + Send + Sync, R, C>(
    spawner: &mut Spawner<'_, R>,
    alloc: Global,
    context: &RunContext<L, M, R, C>,
    workers: Vec<Worker<M>>,
) -> Result<Worked<M>, TasksFault>
where
    R: Threads + Wait + SystemClock + Sync,
    C: Clock + Sync,
    ensures count { IfOk result (λ worked. vec_len worked.kept ≡ vec_len workers) }
    ensures passes { IfOk result (λ worked. vec_len worked.passes ≡ vec_len workers) }
    ensures work { IfOk result (λ worked. AreWork context.now.workers
        context.now.arrivals.now.items worked.kept.items worked.spent.items) }
    ensures thread { IsErrOf result TasksFault.Thread →
        refused_of spawner.new ≡ raised (refused_of spawner.old) }
{
    let Ok(hands) = hands_of(alloc, context, workers) else {
        return Err(TasksFault::Memory);
    };
    let done = run_tasks(spawner, alloc, hands)?;
    let Ok(worked) = gather(alloc, done) else {
        return Err(TasksFault::Memory);
    };
    Ok(worked)
}

impl<M: GateNaming> Worked<M> {
    /// With what one more worker brings back.
    fn add(self, worker: Worker<M>) -> Result<Worked<M>, AllocError>
        ensures passes { IfOk result (λ worked.
            vec_len worked.passes ≡ vec_len self.passes + 1) }
        ensures kept { IfOk result (λ worked.
            worked.kept.items ≡ self.kept.items ++ worker.receipts ∷ []) }
        ensures spent { IfOk result (λ worked.
            worked.spent.items ≡ self.spent.items ++ worker.refusals ∷ []) }
    {
        let Worked {
            mut passes,
            mut kept,
            mut spent,
        } = self;
        let Worker {
            pass,
            receipts,
            refusals,
        } = worker;
        passes.push(pass)?;
        kept.push(receipts)?;
        spent.push(refusals)?;
        Ok(Worked {
            passes,
            kept,
            spent,
        })
    }
}
