// Who has a thread, and what each leaves.
use crate::exchanging::Exchanger;
use crate::reporting::ActiveWorkers;
use crate::watching::Exchanges;
use crate::working::{TurnCounts, WorkerSettings, work};
use clocks::Clock;
use gate_port::GatePort;
use handling::Accepts;
use listening::{Closable, Listener};
use proxy::{Exchange, Watch};
use std::sync::Wait;
use std::time::{Clock as SystemClock, Duration};
use tasks::Task;
use timed_io::ClientBuffers;
use wire::Backend;

/// What a worker owns.
#[derive(Drop)]
pub(crate) struct Worker<A, P, B> {
    pub(crate) door: A,
    pub(crate) port: P,
    pub(crate) backend: B,
    pub(crate) buffers: ClientBuffers,
}

/// What a worker leaves.
#[derive(Drop)]
pub struct WorkerExit<A, P, B> {
    /// The way that its clients came.
    pub door: A,
    /// Where it asked for permits.
    pub port: P,
    /// Where it forwarded requests.
    pub backend: B,
    /// What came of its turns.
    pub tally: TurnCounts,
}

/// What all workers have in common.
#[derive(Drop)]
pub(crate) struct Context<'a, R, L, E, C, W> {
    pub(crate) rt: &'a R,
    pub(crate) common: &'a WorkerSettings<'a, L, C, W>,
    pub(crate) active: &'a ActiveWorkers,
    /// The listener of the task beside them, where there is one.
    pub(crate) side_listener: Option<&'a E>,
}

/// What a thread does: runs a task beside the workers, or is a worker in a context.
#[derive(Drop)]
pub(crate) enum Job<'a, A, P, B, T, X> {
    SideTask(T),
    Worker(&'a X, Worker<A, P, B>),
}

/// What is left of a job.
#[derive(Drop)]
pub enum JobResult<A, P, B, D> {
    /// It was a task beside the workers, which made this.
    SideTask(D),
    /// It served.
    Worked(WorkerExit<A, P, B>),
}

impl<'a, R, A, P, B, T, L, E, C, W> Task for Job<'a, A, P, B, T, Context<'a, R, L, E, C, W>>
where
    R: Wait + SystemClock + Sync,
    A: Accepts<Told = Exchange, Protocol = Exchanges> + Send + Drop,
    P: GatePort + Send + Drop,
    B: Backend + Send + Drop,
    T: Task + Send + Drop,
    L: Listener + Sync,
    E: Closable + Sync,
    C: Clock + Sync,
    W: Watch + Sync,
{
    type Done = JobResult<A, P, B, T::Done>;

    ghost use Rattle.serving.specs.Served.{back_of};
    ghost use Rattle.serving.specs.Turns.{place_of};
    ghost use Rattle.serving.specs.Workers.{Makes, WorksIn};

    ghost makes = { Makes (WorksIn (place_of A.given A.failed A.closed A.visits A.roll
        (back_of P.shown P.known B.forwarded B.shown)) A.came A.shut A.source) T.makes };

    fn run(self) -> JobResult<A, P, B, T::Done> {
        match self {
            Job::SideTask(task) => JobResult::SideTask(task.run()),
            Job::Worker(context, worker) => {
                let Worker {
                    mut door,
                    port,
                    backend,
                    buffers,
                } = worker;
                let mut exchanger = Exchanger { port, backend };
                let common = context.common;
                let tally = work(context.rt, common, &mut door, &mut exchanger, buffers);
                leave(context);
                let Exchanger { port, backend } = exchanger;
                JobResult::Worked(WorkerExit {
                    door,
                    port,
                    backend,
                    tally,
                })
            }
        }
    }
}

/// One worker ends. The last one closes the listener of the task beside the workers.
fn leave<R, L, E, C, W>(context: &Context<'_, R, L, E, C, W>)
where
    R: Wait + SystemClock,
    E: Closable,
{
    if context.active.leave(context.rt) {
        if let Some(listener) = context.side_listener {
            listener.close(context.rt, Duration::from_millis(0));
        }
    }
}
