// The gateway of a configuration, from its file to its counters.
ghost use Rattle.std.specs.Prelude.{◌≡◌, ◌≤◌, ◌⊎◌, IfErr, IfOk, OnOk};
ghost use Rattle.tasks.specs.Refused.{refused_of};
ghost use Rattle.gateway_settings.specs.Settings.{AreSound};
ghost use Rattle.fault_lines.specs.FaultLine.{IsTold, fault_line};
ghost use Rattle.commands.specs.ServeOptions.{threads_of};
ghost use Rattle.serve_command.specs.Command.{HasServed, IsOfServing, IsServedBy};
ghost use Rattle.serve_command.specs.Command.{IsWhyOfService, Miscounts};
ghost use Rattle.serve_command.specs.ServiceFault.{service_fault_text};

use crate::binding::bind_all;
use crate::context::{ServeContext, make_watch, serve_in};
use crate::fault::{ServiceFault, report_service_fault};
use crate::parent::ParentProcess;
use crate::reading::read_settings;
use crate::stacks::check_stacks;
use crate::startup_lines::log_listening;
use clocks::ProgramClock;
use commands::ServeOptions;
use config_file::Opener;
use counted_io::Counted;
use fault_lines::{DONE, FAULT};
use gate_desk::LameDuck;
use gateway_settings::Settings;
use limiter_core::Counters;
use listening::{Binder, Listener};
use log::Log;
use serve_reports::write_counters;
use std::alloc::Global;
use std::io::Write;
use std::net::Net;
use std::sync::Wait;
use std::thread::Threads;
use std::time::Clock as SystemClock;
use tasks::Spawner;

/// Serves clients by the configuration in the file that is opened at the path, and at the end of
/// all workers writes the line of the gate's counters to `writer`; or the line of the first fault
/// to `errors`. Answers the exit status.
///
/// Once the address is bound the log says so. Either line is flushed. Where the line of a fault
/// can't be written itself, it is dropped.
pub fn serve_file<R, F, B, W, E>(
    rt: &R,
    spawner: &mut Spawner<'_, R>,
    files: &F,
    addresses: &B,
    alloc: Global,
    service: &ServeOptions<'_>,
    writer: &mut Counted<W>,
    errors: &mut Counted<E>,
) -> u8
where
    R: Net + Threads + Wait + SystemClock + Log + ParentProcess + Sync,
    F: Opener,
    B: Binder,
    W: Write,
    E: Write,
    B::Bound: Sync,
    <B::Bound as Listener>::Stream: Send + Sync + Drop,
    <B::Bound as Listener>::From: Send + Sync,
    <B::Bound as Listener>::To: Send + Sync,
    <B::Bound as Listener>::Token: Send + Sync,
    R::Stream: Send + Sync,
    R::Listener: Send + Sync,
    requires some { 1 ≤ threads_of service.now }
    requires few { threads_of service.now ≤ 4096 }
    ensures status { (result ≡ 0) ⊎ (result ≡ 1) }

    // The line of counters is written, and nothing else.
    ensures served { result ≡ 0 → HasServed (F.opened service.now.path.now) F.File.remaining
        B.bound B.Bound.came B.Bound.found B.Bound.gave B.Bound.closed W.contents service.now
        writer.old writer.new }
    ensures quiet { result ≡ 0 → errors.new ≡ errors.old }

    // The first fault is reported.
    ensures refused { result ≡ 1 → (fault : ServiceFault)
        × IsTold E.contents errors.old errors.new (fault_line (service_fault_text fault))
        × IsWhyOfService (F.unopened service.now.path.now)
        (F.opened service.now.path.now) F.File.remaining service.now.exchanges
        (λ s. IsOfServing B.bound B.unbound s.listen service.now.admin service.now.status
        (refused_of spawner.old) (refused_of spawner.new)
        (Miscounts B.bound B.Bound.lost (threads_of service.now) s))
        writer.old writer.new fault }
{
    match serve_and_count(rt, spawner, files, addresses, alloc, service, writer) {
        Ok(()) => DONE,
        Err(fault) => report(errors, fault),
    }
}

/// Serves, and writes the counters.
fn serve_and_count<R, F, B, W>(
    rt: &R,
    spawner: &mut Spawner<'_, R>,
    files: &F,
    addresses: &B,
    alloc: Global,
    service: &ServeOptions<'_>,
    writer: &mut Counted<W>,
) -> Result<(), ServiceFault>
where
    R: Net + Threads + Wait + SystemClock + Log + ParentProcess + Sync,
    F: Opener,
    B: Binder,
    W: Write,
    B::Bound: Sync,
    <B::Bound as Listener>::Stream: Send + Sync + Drop,
    <B::Bound as Listener>::From: Send + Sync,
    <B::Bound as Listener>::To: Send + Sync,
    <B::Bound as Listener>::Token: Send + Sync,
    R::Stream: Send + Sync,
    R::Listener: Send + Sync,
    requires some { 1 ≤ threads_of service.now }
    requires few { threads_of service.now ≤ 4096 }
    ensures served { OnOk result (HasServed (F.opened service.now.path.now) F.File.remaining
        B.bound B.Bound.came B.Bound.found B.Bound.gave B.Bound.closed W.contents service.now
        writer.old writer.new) }
    ensures refused { IfErr result (IsWhyOfService (F.unopened service.now.path.now)
        (F.opened service.now.path.now) F.File.remaining service.now.exchanges
        (λ s. IsOfServing B.bound B.unbound s.listen service.now.admin service.now.status
        (refused_of spawner.old) (refused_of spawner.new)
        (Miscounts B.bound B.Bound.lost (threads_of service.now) s))
        writer.old writer.new) }
{
    let settings = read_settings(rt, files, alloc, service)?;
    let counters = serve_settings(rt, spawner, files, addresses, alloc, &settings, service)?;
    write_counters(writer, &counters)?;
    Ok(())
}

/// Serves by these settings.
fn serve_settings<R, F, B>(
    rt: &R,
    spawner: &mut Spawner<'_, R>,
    files: &F,
    addresses: &B,
    alloc: Global,
    settings: &Settings,
    service: &ServeOptions<'_>,
) -> Result<Counters, ServiceFault>
where
    R: Net + Threads + Wait + SystemClock + Log + ParentProcess + Sync,
    F: Opener,
    B: Binder,
    B::Bound: Sync,
    <B::Bound as Listener>::Stream: Send + Sync + Drop,
    <B::Bound as Listener>::From: Send + Sync,
    <B::Bound as Listener>::To: Send + Sync,
    <B::Bound as Listener>::Token: Send + Sync,
    R::Stream: Send + Sync,
    R::Listener: Send + Sync,
    requires sound { AreSound settings.now }
    requires some { 1 ≤ threads_of service.now }
    requires few { threads_of service.now ≤ 4096 }
    ensures served { IfOk result (IsServedBy B.bound B.Bound.came B.Bound.found B.Bound.gave
        B.Bound.closed service.now settings.now) }
    ensures refused { IfErr result (IsOfServing B.bound B.unbound settings.now.listen
        service.now.admin service.now.status
        (refused_of spawner.old) (refused_of spawner.new)
        (Miscounts B.bound B.Bound.lost (threads_of service.now) settings.now)) }
{
    let bound = bind_all(rt, addresses, alloc, settings.listen.socket(), service)?;
    check_stacks(rt, files, alloc, service)?;
    log_listening(rt, files, alloc, settings, service);
    let clock = ProgramClock::start(rt);
    let watch = make_watch(rt, alloc, &clock, settings, service)?;
    let context = ServeContext {
        bound: &bound,
        settings,
        clock: &clock,
        lame_duck: &LameDuck::new(),
        watch: &watch,
        alloc,
    };
    match serve_in(rt, spawner, &context, service)? {
        Some(counters) => Ok(counters),
        None => Err(ServiceFault::Miscounted),
    }
}

/// Tells a fault, and answers the status after it.
fn report<E: Write>(errors: &mut Counted<E>, fault: ServiceFault) -> u8
    ensures status { result ≡ 1 }
    ensures told { IsTold E.contents errors.old errors.new
        (fault_line (service_fault_text fault)) }
{
    report_service_fault(errors, &fault);
    FAULT
}
