// Workers that serve through one gate.
ghost use Rattle.std.specs.Prelude.{◌≡◌, [], false, IfOk, IfSome, IsErrOf, OnErr};
ghost use Rattle.std.specs.List.{AllZip};
ghost use Rattle.counted_io.specs.Count.{raised};
ghost use Rattle.tasks.specs.Refused.{refused_of};
ghost use Rattle.serving.specs.Served.{back_of, policy_of};
ghost use Rattle.serving.specs.Turns.{place_of};
ghost use Rattle.serving.specs.Workers.{AreWithin, Begins, HasRun, HasWorked};
ghost use Rattle.serving.specs.Workers.{ended_in, made_in, tasks_in, workers_in};

use crate::fault::ServeFault;
use crate::jobs::{Context, Job, JobResult, Worker};
use crate::reporting::{ActiveWorkers, Reporter};
use crate::watching::{ExchangeWatch, Exchanges};
use crate::working::WorkerSettings;
use body_memory::HeldBodies;
use clocks::Clock;
use gate_port::{GatePort, GateView};
use gateway_settings::Settings;
use handling::{Accepts, Door};
use listening::{Closable, Listener, spare_descriptors};
use proxy::{Exchange, Watch};
use seats::Places;
use std::alloc::{AllocError, Global};
use std::net::Net;
use std::sync::{Arc, Wait};
use std::thread::Threads;
use std::time::{Clock as SystemClock, Duration};
use tasks::{Spawner, Task, run_tasks_beside};
use tcp_backend::{BackendWatch, ConnectionPool, Dialer, TcpBackend};
use timed_io::ClientBuffers;
use wire::Backend;

/// For how long a client takes nothing of its answer, in nanoseconds, before the system ends its
/// connection, at least: five seconds. It isn't less than the client's time.
const UNTAKEN_NS: u64 = 5_000_000_000;

/// How many descriptors a gateway wants beside those of its workers and of connections to the
/// backend that are kept: of its streams, its listeners, and those who are served beside its
/// workers.
const OTHER_DESCRIPTORS: u64 = 24;

/// Serves clients by one worker for each port, each on a thread of its own with a door, and with a
/// connection of its own to the backend of the settings, until all have ended; and tells what they
/// left, in the order of the ports. Each task beside them has one more thread: these are started
/// last, once all workers were, the last task first, and tell what they made first. They are to
/// end once the last worker has closed their listener, and no other can be closed here. Where
/// reports are wanted, the thread of the caller makes them once all others were started.
///
/// All of them share one value of the settings. `Memory` comes before any worker is started, and
/// `Thread` once those that were started have ended.
pub fn serve<'l, R, G, P, T, L, E, C, W>(
    rt: &'l R,
    spawner: &mut Spawner<'_, R>,
    common: &WorkerSettings<'l, L, C, W>,
    gate: G,
    ports: Vec<P>,
    side_tasks: Vec<T>,
    side_listener: Option<&E>,
) -> Result<
    Vec<
        JobResult<
            Door<'l, L, L::Token, ExchangeWatch<'l, W>>,
            P,
            TcpBackend<'l, Dialer<&'l R, R::Stream>, R::Stream, &'l W, C>,
            T::Done,
        >,
    >,
    ServeFault,
>
where
    R: Net + Threads + Wait + SystemClock + Sync,
    G: GateView + Drop,
    P: GatePort + Send + Drop,
    T: Task + Send + Drop,
    L: Listener + Sync,
    E: Closable + Sync,
    C: Clock + Sync,
    W: Watch + BackendWatch + Sync,
    P::Permit: Send,
    P::Receipt: Send,
    L::Stream: Send + Sync + Drop,
    L::From: Send + Sync,
    L::To: Send + Sync,
    L::Token: Send + Sync,
    E::Stream: Send + Sync,
    E::From: Send + Sync,
    E::To: Send + Sync,
    E::Token: Send + Sync,
    R::Stream: Send + Sync,
    R::Listener: Send + Sync,
    ensures ran { IfOk result (λ lefts.
        AllZip (HasRun L.came L.found L.roll P.shown P.known common.now) ports.items
        (ended_in lefts.items)) }
    ensures side_tasks { IfOk result (λ lefts.
        AllZip T.makes side_tasks.items (made_in lefts.items)) }

    // A thread is lacking only where the system refused one.
    ensures thread { IsErrOf result ServeFault.Thread →
        refused_of spawner.new ≡ raised (refused_of spawner.old) }
    ensures started { ¬ IsErrOf result ServeFault.Thread →
        refused_of spawner.new ≡ refused_of spawner.old }
{
    let settings = common.settings;
    let workers = make_workers(rt, common, ports)?;
    let wanted = wanted_descriptors(workers.len(), settings.backends);
    prepare(common, wanted)?;
    let active = ActiveWorkers::new(workers.len());
    let reporter = Reporter {
        rt,
        active: &active,
        gate,
        table: &settings.table,
        clock: common.clock,
        watch: common.watch,
        listener: common.listener,
        every_ns: common.report_every_ns,
    };
    serve_by(
        rt,
        spawner,
        common,
        &active,
        reporter,
        workers,
        side_tasks,
        side_listener,
    )
}

/// How many descriptors are wanted, two for each worker, for its client and its backend, and one
/// for each connection to the backend that is kept.
fn wanted_descriptors(workers: usize, backends: u32) -> u64 {
    let of_workers = (workers as u64).saturating_mul(2);
    let kept = u64::from(backends);
    of_workers
        .saturating_add(kept)
        .saturating_add(OTHER_DESCRIPTORS)
}

/// Has the listener keep clients who have sent nothing, and those who were served where the
/// settings keep some, as far as there are descriptors for them beside so many that are wanted, and
/// end those who take nothing. It fails only out of memory for their places.
fn prepare<L: Listener, C, W>(
    common: &WorkerSettings<'_, L, C, W>,
    wanted: u64,
) -> Result<(), AllocError> {
    let settings = common.settings;
    let most_ns = common.client_timeout_ns;
    let asked = match settings.clients {
        0 => common.client_places,
        places => places,
    };
    let places = Places {
        count: u32::try_from(spare_descriptors(wanted))
            .unwrap_or(u32::MAX)
            .min(asked),
        silent: Duration::from_nanos(most_ns),
        idle: Duration::from_nanos(settings.client_idle_ns),
    };
    common.listener.offer_places(common.alloc, places)?;
    let untaken = Duration::from_nanos(most_ns.max(UNTAKEN_NS));
    common.listener.end_untaken(untaken);
    Ok(())
}

/// A worker for each port, with a door, and with a backend at the address of the settings.
fn make_workers<'l, R: Net + Wait, P: Drop, L: Listener, C, W>(
    rt: &'l R,
    common: &WorkerSettings<'l, L, C, W>,
    ports: Vec<P>,
) -> Result<
    Vec<
        Worker<
            Door<'l, L, L::Token, ExchangeWatch<'l, W>>,
            P,
            TcpBackend<'l, Dialer<&'l R, R::Stream>, R::Stream, &'l W, C>,
        >,
    >,
    ServeFault,
>
    ensures workers { IfOk result (λ workers.
        AllZip (Begins common.now.listener.now L.roll common.now.backend_timeout_ns
        common.now.settings.now.backend) ports.items workers.items) }
    ensures lacking { OnErr result (IsErrOf result ServeFault.Memory) }
{
    let (alloc, watch, settings) = (common.alloc, common.watch, common.settings);
    let (clock, most_ns) = (common.clock, common.backend_timeout_ns);
    let address = settings.backend.socket();
    let pool = make_pool(alloc, settings)?;
    let mut workers = Vec::with_capacity(alloc, ports.len())?;
    for port in ports {
        let dialer = Dialer::new(rt, address, share(&pool)?);
        let bodies = HeldBodies::new(alloc, common.bodies.as_ref());
        let door = Door::new(common.listener, ExchangeWatch { watch });
        let worker = Worker {
            door,
            port,
            backend: TcpBackend::new(dialer, bodies, watch, clock, most_ns)?,
            buffers: ClientBuffers::new(alloc)?,
        };
        workers.push_reserved(worker);
    }
    Ok(workers)
}

/// Where connections to the backend wait for another request, by settings that keep some.
fn make_pool<S: Drop>(
    alloc: Global,
    settings: &Settings,
) -> Result<Option<Arc<ConnectionPool<S>, Global>>, AllocError> {
    if settings.backends == 0 {
        return Ok(None);
    }
    let places = settings.backends as usize;
    let pool = ConnectionPool::new(alloc, places, settings.backend_idle_ns)?;
    Ok(Some(Arc::new(alloc, pool)?))
}

/// One share more of a pool, where there is one.
fn share<S: Drop>(
    pool: &Option<Arc<ConnectionPool<S>, Global>>,
) -> Result<Option<Arc<ConnectionPool<S>, Global>>, AllocError> {
    match pool {
        Some(pool) => Ok(Some(Arc::try_clone(pool)?)),
        None => Ok(None),
    }
}

/// Serves clients by these workers, with tasks beside them and a reporter on this thread. Which
/// doors and backends they have isn't told apart here.
fn serve_by<R, O, A, P, B, T, L, E, C, W>(
    rt: &R,
    spawner: &mut Spawner<'_, R>,
    common: &WorkerSettings<'_, L, C, W>,
    active: &ActiveWorkers,
    reporter: O,
    workers: Vec<Worker<A, P, B>>,
    side_tasks: Vec<T>,
    side_listener: Option<&E>,
) -> Result<Vec<JobResult<A, P, B, T::Done>>, ServeFault>
where
    R: Threads + Wait + SystemClock + Sync,
    O: Task<Done = ()> + Drop,
    A: Accepts<Told = Exchange, Protocol = Exchanges> + Send + Drop,
    P: GatePort + Send + Drop,
    B: Backend + Send + Drop,
    T: Task + Send + Drop,
    L: Listener + Sync,
    E: Closable + Sync,
    C: Clock + Sync,
    W: Watch + Sync,
    P::Permit: Send,
    P::Receipt: Send,
    A::Stream: Send + Sync,
    A::From: Send + Sync,
    A::To: Send + Sync,
    L::Stream: Send + Sync,
    L::From: Send + Sync,
    L::To: Send + Sync,
    L::Token: Send + Sync,
    E::Stream: Send + Sync,
    E::From: Send + Sync,
    E::To: Send + Sync,
    E::Token: Send + Sync,
    ensures worked { IfOk result (λ lefts. AllZip
        (HasWorked (place_of A.given A.failed A.closed A.visits A.roll
        (back_of P.shown P.known B.forwarded B.shown)) A.came A.shut A.source
        (policy_of common.now.settings.now common.now.marks) common.now.per_worker)
        workers.items (ended_in lefts.items)) }
    ensures side_tasks { IfOk result (λ lefts.
        AllZip T.makes side_tasks.items (made_in lefts.items)) }
    ensures thread { IsErrOf result ServeFault.Thread →
        refused_of spawner.new ≡ raised (refused_of spawner.old) }
    ensures started { ¬ IsErrOf result ServeFault.Thread →
        refused_of spawner.new ≡ refused_of spawner.old }
{
    let context = Context {
        rt,
        common,
        active,
        side_listener,
    };
    let jobs = make_jobs(common.alloc, &context, side_tasks, workers)?;
    let lefts = run_tasks_beside(spawner, common.alloc, reporter, jobs)?;
    Ok(lefts)
}

/// The tasks beside the workers, and the workers.
fn make_jobs<'a, A: Drop, P: Drop, B: Drop, T: Drop, X>(
    alloc: Global,
    context: &'a X,
    side_tasks: Vec<T>,
    workers: Vec<Worker<A, P, B>>,
) -> Result<Vec<Job<'a, A, P, B, T, X>>, AllocError>
    ensures all { IfOk result (λ jobs. workers_in jobs.items ≡ workers.items) }
    ensures side_tasks { IfOk result (λ jobs. tasks_in jobs.items ≡ side_tasks.items) }
    ensures within { IfOk result (λ jobs. AreWithin context.now jobs.items) }
{
    let mut jobs = make_others(alloc, side_tasks)?;
    jobs.reserve(workers.len())?;
    for worker in workers {
        jobs.push_reserved(Job::Worker(context, worker));
    }
    Ok(jobs)
}

/// The tasks beside the workers.
fn make_others<'a, A: Drop, P: Drop, B: Drop, T: Drop, X>(
    alloc: Global,
    side_tasks: Vec<T>,
) -> Result<Vec<Job<'a, A, P, B, T, X>>, AllocError>
    ensures none { IfOk result (λ jobs. workers_in jobs.items ≡ []) }
    ensures side_tasks { IfOk result (λ jobs. tasks_in jobs.items ≡ side_tasks.items) }
{
    let mut jobs = Vec::with_capacity(alloc, side_tasks.len())?;
    for task in side_tasks {
        jobs.push_reserved(Job::SideTask(task));
    }
    Ok(jobs)
}
