// The gate of a configuration, and its workers.
ghost use Rattle.std.specs.Prelude.{◌≡◌, ◌≤◌, ◌+◌, ◌⊎◌, [], ◌∷◌, map, replicate, vec_len, None, Some};
ghost use Rattle.std.specs.Prelude.{All, IfNone, IfOk, IfSome, IsErrOf, OnOk};
ghost use Rattle.counted_io.specs.Count.{raised};
ghost use Rattle.tasks.specs.Refused.{refused_of};
ghost use Rattle.client_tokens.specs.Roll.{Roll};
ghost use Rattle.limit_kinds.specs.AnyKinds.{any_rules};
ghost use Rattle.gate_ledgers.specs.Names.{AreNamed, AreWhole};
ghost use Rattle.gateway_settings.specs.Settings.{AreSound};
ghost use Rattle.shared_gate.specs.Calls.{pass_of};
ghost use Rattle.shared_gate.specs.Closing.{calls_by};
ghost use Rattle.shared_gate.specs.Log.{CallsLegal};
ghost use Rattle.gate_opening.specs.Opening.{journal_of, making_of};
ghost use Rattle.ports.specs.declared.asked.Receipts.TheVariants.{Nothing};
ghost use Rattle.ports.specs.Asked.{port_in};
ghost use Rattle.serving.specs.Served.{policy_of};
ghost use Rattle.gate_desk.specs.State.{new_desk};
ghost use Rattle.serve_command.specs.Beside.{IsUnused, count_beside};
ghost use Rattle.serve_command.specs.GatewayRun.{AreMiscounted, HasServedAll};
ghost use Rattle.serve_command.specs.GatewayRun.{all_joined, joined, passes_in, rolls_left};
ghost use Rattle.serve_command.specs.GatewayRun.{served_by};

use crate::admin::SideAddresses;
use crate::gateway_watch::GatewayWatch;
use crate::operators::make_operators;
use crate::parent::ParentProcess;
use clocks::Clock;
use gate_history::Blanks;
use gate_laws::{exchanges_are_one_threads, reports_balance};
use gate_opening::{balanced, open_gate};
use handling::{Door, if_gave_all};
use limit_laws::Limit;
use limiter_core::Counters;
use listening::{Closable, Listener};
use log::Log;
use ports::{Port, View};
use serve_reports::Watcher;
use serving::{JobResult, ServeFault, WorkerSettings, serve};
use shared_gate::{GateNaming, LogLength, Pass, SharedGate};
use std::alloc::AllocError;
use std::net::Net;
use std::sync::Wait;
use std::thread::Threads;
use std::time::Clock as SystemClock;
use tasks::Spawner;

/// A gateway that is to serve.
#[derive(Drop)]
pub(crate) struct Gateway<'g, R: SystemClock, L, C> {
    /// The system that it runs on.
    pub(crate) rt: &'g R,
    /// What its workers share, its settings among that, and what each of them is asked to do.
    pub(crate) common: &'g WorkerSettings<'g, L, C, GatewayWatch<'g, R, L>>,
    /// How many workers it has: 1 to 4,096.
    pub(crate) workers: u32,
    /// What serves beside them.
    pub(crate) side: &'g SideAddresses<'g, L, C>,
}

/// Serves clients through the gate of the gateway's settings, by its workers, and tells the gate's
/// counters once all have ended; or none, where it has calls that nobody made who served, where
/// these tell of others than the workers made, or where the listener can't tell whom it gave. The
/// gate has these names, and so many passes beside those of its workers: one for each who serves
/// beside them, and one for reports.
pub(crate) fn serve_named<M, R, L, C>(
    spawner: &mut Spawner<'_, R>,
    gateway: &Gateway<'_, R, L, C>,
    blanks: Blanks,
    word: LogLength,
    others: usize,
) -> Result<Option<Counters>, ServeFault>
where
    M: GateNaming + Send + Sync,
    R: Net + Threads + Wait + SystemClock + Log + ParentProcess + Sync,
    L: Closable + Sync,
    C: Clock + Sync,
    L::Stream: Send + Sync + Drop,
    L::From: Send + Sync,
    L::To: Send + Sync,
    L::Token: Send + Sync,
    R::Stream: Send + Sync,
    R::Listener: Send + Sync,
    requires names { AreNamed M.calls M.place blanks }
    requires parts { AreWhole blanks }
    requires word { word ≡ M.word }
    requires passes { M.passes ≡ gateway.now.workers + others }
    requires beside { others ≡ count_beside gateway.now.side.now + 1 }
    requires few_beside { others ≤ 9 }
    requires making { M.making ≡ making_of gateway.now.workers gateway.now.common.now.settings.now }
    requires sound { AreSound gateway.now.common.now.settings.now }
    requires legal { CallsLegal any_rules
        (journal_of gateway.now.workers gateway.now.common.now.settings.now) M.legal }
    requires few { gateway.now.workers ≤ 4096 }
    ensures served { IfOk result (λ told. IfSome told (HasServedAll any_rules
        (making_of gateway.now.workers gateway.now.common.now.settings.now) L.closed L.came L.found
        L.gave
        (policy_of gateway.now.common.now.settings.now gateway.now.common.now.marks)
        (new_desk gateway.now.common.now.settings.now.table gateway.now.common.now.listener.now)
        gateway.now.side.now gateway.now.workers gateway.now.common.now.per_worker)) }
    ensures miscounted { IfOk result (λ told. IfNone told (AreMiscounted any_rules
        (making_of gateway.now.workers gateway.now.common.now.settings.now) gateway.now.workers
        (L.lost gateway.now.common.now.listener.now))) }
    ensures thread { IsErrOf result ServeFault.Thread →
        refused_of spawner.new ≡ raised (refused_of spawner.old) }
{
    let workers = gateway.workers as usize;
    let (gate, mut passes) = open_gate::<M>(
        gateway.common.alloc,
        gateway.common.settings,
        gateway.workers,
        blanks,
        word,
        workers + others,
    )?;
    let own = take_own(&mut passes, workers, others)?;
    serve_through(spawner, gateway, &gate, passes, own)
}

/// Serves clients through a gate, by one worker for each pass, and those at the addresses beside
/// theirs by passes of their own, the last of which is for reports. Nobody has called by any of
/// these. Which limit the gate has isn't told apart here.
fn serve_through<M, R, G, L, C>(
    spawner: &mut Spawner<'_, R>,
    gateway: &Gateway<'_, R, L, C>,
    gate: &SharedGate<G, M>,
    passes: Vec<Pass<M>>,
    mut own: Vec<Pass<M>>,
) -> Result<Option<Counters>, ServeFault>
where
    M: GateNaming + Send + Sync,
    R: Net + Threads + Wait + SystemClock + Log + ParentProcess + Sync,
    G: Limit + Send,
    L: Closable + Sync,
    C: Clock + Sync,
    L::Stream: Send + Sync + Drop,
    L::From: Send + Sync,
    L::To: Send + Sync,
    L::Token: Send + Sync,
    R::Stream: Send + Sync,
    R::Listener: Send + Sync,
    requires unused { All IsUnused passes.items }
    requires unused_beside { All IsUnused own.items }
    requires beside { vec_len own ≡ count_beside gateway.now.side.now + 1 }
    ensures served { IfOk result (λ told. IfSome told (HasServedAll G.rules M.making
        L.closed L.came L.found
        L.gave
        (policy_of gateway.now.common.now.settings.now gateway.now.common.now.marks)
        (new_desk gateway.now.common.now.settings.now.table gateway.now.common.now.listener.now)
        gateway.now.side.now (vec_len passes) gateway.now.common.now.per_worker)) }
    ensures miscounted { IfOk result (λ told. IfNone told
        (AreMiscounted G.rules M.making (vec_len passes)
        (L.lost gateway.now.common.now.listener.now))) }
    ensures thread { IsErrOf result ServeFault.Thread →
        refused_of spawner.new ≡ raised (refused_of spawner.old) }
{
    let (rt, common) = (gateway.rt, gateway.common);
    let kept = Vec::with_capacity(common.alloc, passes.len().saturating_add(own.len()))?;
    let Some(last) = own.pop() else {
        unreachable!()
    };
    let view = View::new(rt, gate, last);
    let operators = make_operators(gateway, gate, own)?;
    let ports = make_ports(gateway, gate, passes)?;
    let lefts = serve(
        rt,
        spawner,
        common,
        view,
        ports,
        operators,
        gateway.side.side_listener(),
    )?;
    let back = passes_of(common.listener, kept, lefts)?;
    exchanges_are_one_threads::<G>();
    reports_balance::<G>();
    let told = balanced(gate.counters_of_all(rt, back.passes), back.calls);
    Ok(if_gave_all(common.listener, back.token, told))
}

/// The passes behind the first ones, so many of them. It fails only out of memory.
fn take_own<M: GateNaming>(
    passes: &mut Vec<Pass<M>>,
    first: usize,
    others: usize,
) -> Result<Vec<Pass<M>>, AllocError>
    requires { passes.old.items ≡ replicate (first + others) (pass_of 0) }
    ensures all { OnOk result (vec_len passes.new ≡ first) }
    ensures unused { OnOk result (All IsUnused passes.new.items) }
    ensures others { IfOk result (λ own. vec_len own ≡ others) }
    ensures unused_too { IfOk result (λ own. All IsUnused own.items) }
{
    passes.split_off(first)
}

/// A port for each pass.
fn make_ports<'g, M: GateNaming, R: SystemClock, G: Limit, L, C>(
    gateway: &Gateway<'g, R, L, C>,
    gate: &'g SharedGate<G, M>,
    passes: Vec<Pass<M>>,
) -> Result<Vec<Port<'g, G, M, R, C>>, AllocError>
    ensures { IfOk result (λ ports.
        ports.items ≡ map (λ pass. port_in pass Nothing 0) passes.items) }
{
    let common = gateway.common;
    let mut ports = Vec::new(common.alloc);
    for pass in passes {
        let port = Port::new(gateway.rt, gate, pass, common.clock);
        ports.push(noting(port, common.watch.watcher, ports.len()))?;
    }
    Ok(ports)
}

/// The port of the worker of this number, which notes for the watch when its permit was got.
fn noting<'a, M: GateNaming, R: SystemClock, G: Limit, C>(
    port: Port<'a, G, M, R, C>,
    watch: &'a Watcher<'a, R>,
    number: usize,
) -> Port<'a, G, M, R, C>
    ensures { result ≡ port.entry }
{
    match watch.moment(number) {
        Some(since) => port.noting(since),
        None => port,
    }
}

/// What comes back once all have ended.
#[derive(Drop)]
struct Back<M: GateNaming, K> {
    /// The passes of all who served.
    passes: Vec<Pass<M>>,
    /// How many calls were made by those of workers.
    calls: u128,
    /// The tokens of all workers, put together.
    token: K,
}

/// The passes of all who served, in their order, in a list that is empty at first; and the tokens
/// of the workers.
fn passes_of<M: GateNaming, R, G: Limit, C, L: Listener, N: Drop, B: Drop>(
    listener: &L,
    mut passes: Vec<Pass<M>>,
    lefts: Vec<JobResult<Door<'_, L, L::Token, N>, Port<'_, G, M, R, C>, B, Pass<M>>>,
) -> Result<Back<M, L::Token>, AllocError>
    requires { passes.items ≡ [] }
    ensures passes { IfOk result (λ back. back.passes.items ≡ passes_in lefts.entry.items) }
    ensures calls { IfOk result (λ back. back.calls ≡ calls_by (served_by lefts.entry.items)) }
    ensures token { IfOk result (λ back. IfSome (L.roll listener.now back.token) (λ all.
        all_joined (rolls_left L.roll listener.now lefts.entry.items) ≡ Some all)) }
{
    let mut calls = 0;
    let mut token = listener.token();
    for left in lefts {
        let (pass, made) = pass_in(listener, &mut token, left);
        passes.push(pass)?;
        calls += u128::from(made);
    }
    Ok(Back {
        passes,
        calls,
        token,
    })
}

/// The pass of whoever left this, and how many calls a worker made by it, whose token is put into
/// this one.
fn pass_in<M: GateNaming, R, G: Limit, C, L: Listener, N: Drop, B: Drop>(
    listener: &L,
    token: &mut L::Token,
    left: JobResult<Door<'_, L, L::Token, N>, Port<'_, G, M, R, C>, B, Pass<M>>,
) -> (Pass<M>, u64)
    ensures pass { passes_in (left.entry ∷ []) ≡ result.0 ∷ [] }
    ensures calls { result.1 ≡ calls_by (served_by (left.entry ∷ [])) }
    ensures token { IfSome (L.roll listener.now token.new) (λ all.
        joined (L.roll listener.now token.old)
        (all_joined (rolls_left L.roll listener.now (left.entry ∷ []))) ≡ Some all) }
{
    match left {
        JobResult::Worked(ended) => {
            let pass = ended.port.into_pass();
            let calls = pass.count();
            listener.join(token, ended.door.into_token());
            (pass, calls)
        }
        JobResult::SideTask(pass) => (pass, 0),
    }
}
