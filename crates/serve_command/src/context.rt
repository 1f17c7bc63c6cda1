// What a gateway stands on while it serves.
ghost use Rattle.std.specs.Prelude.{◌≡◌, ◌≤◌, IfErr, IfNone, IfOk, IfSome, IsErrOf, option_map};
ghost use Rattle.counted_io.specs.Count.{raised};
ghost use Rattle.tasks.specs.Refused.{refused_of};
ghost use Rattle.limit_kinds.specs.AnyKinds.{any_rules};
ghost use Rattle.gateway_settings.specs.Exchanges.{bodies_bound};
ghost use Rattle.gateway_settings.specs.Settings.{AreSound};
ghost use Rattle.commands.specs.ServeOptions.{threads_of};
ghost use Rattle.gate_opening.specs.Opening.{making_of};
ghost use Rattle.serving.specs.Served.{policy_of};
ghost use Rattle.gate_desk.specs.State.{new_desk};
ghost use Rattle.serve_command.specs.declared.fault.ServiceFault.TheVariants.{Memory};
ghost use Rattle.serve_command.specs.GatewayRun.{AreMiscounted, HasServedAt};

use crate::admin::SideAddresses;
use crate::binding::BoundAddresses;
use crate::fault::ServiceFault;
use crate::gateway::{Gateway, serve_named};
use crate::gateway_watch::GatewayWatch;
use crate::parent::ParentProcess;
use body_memory::SharedBodies;
use clocks::ProgramClock;
use commands::ServeOptions;
use gate_desk::LameDuck;
use gate_history::Blanks;
use gateway_settings::Settings;
use limit_laws::Limit;
use limiter_core::Counters;
use listening::Closable;
use log::Log;
use serve_reports::{LimitRange, Watcher};
use serving::{ServeFault, WorkerSettings};
use shared_gate::LogLength;
use std::alloc::{AllocError, Global};
use std::marker::Brand;
use std::net::Net;
use std::sync::Wait;
use std::thread::Threads;
use std::time::{Clock as SystemClock, Duration};
use tasks::Spawner;
use timed_io::BodyRates;

/// How many clients that have sent nothing may wait beside those who are served.
const CLIENT_PLACES: u32 = 1_000;

/// The nanoseconds of a millisecond.
const MILLI: u64 = 1_000_000;

/// What is had before a gate is opened, and outlasts it.
#[derive(Drop)]
pub(crate) struct ServeContext<'a, R: SystemClock, L> {
    /// What listens at each of the gateway's addresses.
    pub(crate) bound: &'a BoundAddresses<L>,
    /// What the configuration says.
    pub(crate) settings: &'a Settings,
    /// The clock of the gate's moments and of deadlines.
    pub(crate) clock: &'a ProgramClock<&'a R>,
    /// When the gateway is to be drained.
    pub(crate) lame_duck: &'a LameDuck,
    /// What notes and logs what happens.
    pub(crate) watch: &'a Watcher<'a, R>,
    pub(crate) alloc: Global,
}

/// Serves by the settings, and tells the gate's counters; or none, where it has calls that nobody
/// made who served, where these tell of others than the workers made, or of permits that weren't
/// ended, or where the listener can't tell whom it gave.
pub(crate) fn serve_in<'c, R, L>(
    rt: &'c R,
    spawner: &mut Spawner<'_, R>,
    context: &ServeContext<'c, R, L>,
    service: &ServeOptions<'_>,
) -> Result<Option<Counters>, ServeFault>
where
    R: Net + Threads + Wait + SystemClock + Log + ParentProcess + Sync,
    L: Closable + Sync,
    L::Stream: Send + Sync + Drop,
    L::From: Send + Sync,
    L::To: Send + Sync,
    L::Token: Send + Sync,
    R::Stream: Send + Sync,
    R::Listener: Send + Sync,
    requires sound { AreSound context.now.settings.now }
    requires few { threads_of service.now ≤ 4096 }
    ensures served { IfOk result (λ told. IfSome told (HasServedAt any_rules
        (making_of (threads_of service.now) context.now.settings.now) L.closed L.came L.found
        L.gave
        (policy_of context.now.settings.now service.now.marks)
        (new_desk context.now.settings.now.table context.now.bound.now.front)
        context.now.bound.now.admin context.now.bound.now.status (threads_of service.now)
        service.now.per_worker)) }
    ensures miscounted { IfOk result (λ told. IfNone told (AreMiscounted any_rules
        (making_of (threads_of service.now) context.now.settings.now) (threads_of service.now)
        (L.lost context.now.bound.now.front))) }
    ensures thread { IsErrOf result ServeFault.Thread →
        refused_of spawner.new ≡ raised (refused_of spawner.old) }
{
    let (alloc, bound, clock) = (context.alloc, context.bound, context.clock);
    let shared = SharedLimits::new(alloc, context.settings, service)?;
    let side = SideAddresses::new(alloc, &bound.admin, &bound.status, clock, context.lame_duck);
    let client_timeout_ns = u64::from(service.client_timeout_ms) * MILLI;
    let watch = GatewayWatch {
        rt,
        watcher: context.watch,
        front: &bound.front,
        parent: service.parent,
        most: Duration::from_nanos(client_timeout_ns),
    };
    let common = WorkerSettings {
        listener: &bound.front,
        settings: context.settings,
        clock,
        per_worker: u64::from(service.per_worker),
        client_timeout_ns,
        head_timeout_ns: u64::from(service.head_timeout_ms) * MILLI,
        rates: &shared.rates,
        client_places: CLIENT_PLACES,
        backend_timeout_ns: call_time(service.backend_timeout_ms),
        marks: service.marks,
        report_every_ns: Some(context.watch.pace().look_ns),
        watch: &watch,
        alloc,
        bodies: &shared.bodies,
    };
    let gateway = Gateway {
        rt,
        common: &common,
        workers: service.threads(),
        side: &side,
    };
    let word = LogLength::new(alloc)?;
    let others = side.count() + 1;
    serve_named::<Brand, _, _, _>(spawner, &gateway, Blanks::new(), word, others)
}

/// What notes and logs what happens. It fails only out of memory.
pub(crate) fn make_watch<'a, R: SystemClock>(
    rt: &'a R,
    alloc: Global,
    clock: &'a ProgramClock<&'a R>,
    settings: &Settings,
    service: &ServeOptions<'_>,
) -> Result<Watcher<'a, R>, ServiceFault>
    requires sound { AreSound settings.now }
    ensures lacking { IfErr result (λ fault. fault ≡ Memory) }
{
    let workers = service.threads();
    let limit = settings.limit_for(workers);
    let range = LimitRange {
        kind: settings.limit.kind().word(),
        least: limit.lo(),
        greatest: limit.hi(),
    };
    match Watcher::new(rt, alloc, clock, range, workers, service.report_seconds) {
        Ok(watch) => Ok(watch),
        Err(_) => Err(ServiceFault::Memory),
    }
}

/// What bounds the bodies of all exchanges together.
#[derive(Drop)]
struct SharedLimits {
    /// How fast those of requests arrive.
    rates: BodyRates,
    /// The bytes that all share, if the settings have a bound.
    bodies: Option<SharedBodies>,
}

impl SharedLimits {
    /// Returns the limits of these settings and options. It fails only out of memory.
    fn new(
        alloc: Global,
        settings: &Settings,
        service: &ServeOptions<'_>,
    ) -> Result<SharedLimits, AllocError>
        requires { AreSound settings.now }
        ensures { IfOk result (λ shared.
            option_map (λ bodies. bodies.bound) shared.bodies ≡ bodies_bound settings.now) }
    {
        let bodies = make_bodies(alloc, settings);
        let rates = BodyRates::new(alloc, service.threads(), service.body_rate());
        Ok(SharedLimits {
            bodies: bodies?,
            rates: rates?,
        })
    }
}

/// Returns the bytes that the bodies of all exchanges share, if the settings have a bound. It fails
/// only out of memory.
fn make_bodies(alloc: Global, settings: &Settings) -> Result<Option<SharedBodies>, AllocError>
    requires { AreSound settings.now }
    ensures { IfOk result (λ made.
        option_map (λ bodies. bodies.bound) made ≡ bodies_bound settings.now) }
{
    match settings.bodies_bound() {
        Some(bound) => Ok(Some(SharedBodies::new(alloc, bound)?)),
        None => Ok(None),
    }
}

/// So many milliseconds in nanoseconds.
fn call_time(millis: Option<u32>) -> Option<u64> {
    match millis {
        Some(millis) => Some(u64::from(millis) * MILLI),
        None => None,
    }
}
