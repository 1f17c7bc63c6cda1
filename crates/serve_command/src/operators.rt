// Who serves at the addresses beside that of clients.
ghost use Rattle.std.specs.Prelude.{◌≡◌, All, IfOk, vec_len};
ghost use Rattle.gate_desk.specs.State.{new_desk, state_of};
ghost use Rattle.shared_gate.specs.Calls.{pass_of};
ghost use Rattle.serve_command.specs.Beside.{AreAt, AreBeside, IsUnused, StandsAt, count_at};
ghost use Rattle.serve_command.specs.Beside.{count_beside};

use crate::admin::count_at;
use crate::desk_log::DeskLog;
use crate::gateway::Gateway;
use gate_desk::{DeskListener, GateDesk, Operator};
use limit_laws::Limit;
use operator_serving::Operating;
use shared_gate::{GateNaming, Pass, SharedGate};
use std::alloc::AllocError;
use std::time::{Clock as SystemClock, Duration};

/// Those for whoever looks, where there is an address for that, and then the operator's, who close
/// the listener of the former as they end. So where a thread is refused to one of the latter, none
/// of the former has begun: the last is begun first. There is a pass for each who serves there, and
/// nobody has called by any of them. It fails only out of memory.
pub(crate) fn make_operators<'g, M: GateNaming, R: SystemClock, G: Limit, L, C>(
    gateway: &Gateway<'g, R, L, C>,
    gate: &'g SharedGate<G, M>,
    mut passes: Vec<Pass<M>>,
) -> Result<Vec<Operator<'g, G, M, R, L, C, DeskLog<'g, R>>>, AllocError>
    requires unused { All IsUnused passes.items }
    requires count { vec_len passes ≡ count_beside gateway.now.side.now }
    ensures { IfOk result (λ made. AreBeside
        (new_desk gateway.now.common.now.settings.now.table gateway.now.common.now.listener.now)
        gateway.now.side.now made.items) }
{
    let side = gateway.side;
    let own = passes.split_off(count_at(&side.status))?;
    let mut operators = make_at(gateway, gate, &side.status, None, passes)?;
    let mut admins = make_at(gateway, gate, &side.admin, listener_at(&side.status), own)?;
    operators.append(&mut admins)?;
    Ok(operators)
}

/// Those at an address, where there is one. It fails only out of memory.
fn make_at<'g, M: GateNaming, R: SystemClock, G: Limit, L, C>(
    gateway: &Gateway<'g, R, L, C>,
    gate: &'g SharedGate<G, M>,
    address: &'g Option<Operating<'g, L, C>>,
    also: Option<&'g L>,
    passes: Vec<Pass<M>>,
) -> Result<Vec<Operator<'g, G, M, R, L, C, DeskLog<'g, R>>>, AllocError>
    requires unused { All IsUnused passes.items }
    requires count { vec_len passes ≡ count_at address.now }
    ensures { IfOk result (λ made. AreAt
        (new_desk gateway.now.common.now.settings.now.table gateway.now.common.now.listener.now)
        address.now made.items) }
{
    match address {
        Some(operating) => make_each(gateway, gate, operating, also, passes),
        None => Ok(Vec::new(gateway.common.alloc)),
    }
}

/// One for each pass, each at a desk of its own. It fails only out of memory.
fn make_each<'g, M: GateNaming, R: SystemClock, G: Limit, L, C>(
    gateway: &Gateway<'g, R, L, C>,
    gate: &'g SharedGate<G, M>,
    operating: &'g Operating<'g, L, C>,
    also: Option<&'g L>,
    passes: Vec<Pass<M>>,
) -> Result<Vec<Operator<'g, G, M, R, L, C, DeskLog<'g, R>>>, AllocError>
    requires { All IsUnused passes.items }
    ensures count { IfOk result (λ made. vec_len made ≡ vec_len passes) }
    ensures begin { IfOk result (λ made. All (StandsAt
        (new_desk gateway.now.common.now.settings.now.table gateway.now.common.now.listener.now)
        operating.now) made.items) }
{
    let mut operators = Vec::with_capacity(gateway.common.alloc, passes.len())?;
    for pass in passes {
        let desk = make_desk(gateway, gate, operating, pass)?;
        let operator = Operator::new(operating, desk, also)?;
        operators.push(operator)?;
    }
    Ok(operators)
}

/// Where those come from who are served at an address, where there is one.
fn listener_at<'a, L, C>(operating: &Option<Operating<'a, L, C>>) -> Option<&'a L> {
    match operating {
        Some(operating) => Some(operating.listener),
        None => None,
    }
}

/// The desk of one who serves at an address, by a pass. It fails only out of memory.
fn make_desk<'g, M: GateNaming, R: SystemClock, G: Limit, L, C>(
    gateway: &Gateway<'g, R, L, C>,
    gate: &'g SharedGate<G, M>,
    operating: &Operating<'g, L, C>,
    pass: Pass<M>,
) -> Result<GateDesk<'g, G, M, R, L, C, DeskLog<'g, R>>, AllocError>
    ensures pass { IfOk result (λ desk. desk.pass ≡ pass) }
    ensures state { IfOk result (λ desk. pass ≡ pass_of 0 → state_of desk
        ≡ new_desk gateway.now.common.now.settings.now.table gateway.now.common.now.listener.now) }
{
    let common = gateway.common;
    let Ok(table) = common.settings.table.copy() else {
        return Err(AllocError);
    };
    Ok(GateDesk {
        rt: gateway.rt,
        gate,
        pass,
        watch: DeskLog {
            rt: gateway.rt,
            watch: common.watch.watcher,
        },
        front: DeskListener::new(common.listener),
        own: DeskListener::new(operating.listener),
        lame_duck: gateway.side.lame_duck,
        clock: common.clock,
        table,
        most: Duration::from_nanos(common.client_timeout_ns),
    })
}
