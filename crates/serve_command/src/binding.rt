// The addresses at which a gateway listens.
ghost use Rattle.std.specs.Prelude.{◌≡◌, IfErr, IfOk};
ghost use Rattle.std.specs.Net.Text.{socket_v4_text};
ghost use Rattle.serve_command.specs.declared.fault.ServiceFault.TheVariants.{Listen};
ghost use Rattle.serve_command.specs.Beside.{IsAdminBound, IsStatusBound};
ghost use Rattle.serve_command.specs.Binding.{AreBound, IsOfAdmin, IsOfBinding, IsUnboundToo};

use crate::admin::AdminAddress;
use crate::fault::ServiceFault;
use crate::startup_lines::{log_admin, log_status, log_unbound};
use commands::ServeOptions;
use listening::Binder;
use log::Log;
use operator_calls::host_name;
use std::alloc::Global;
use std::net::SocketAddrV4;

/// What listens at each address of a gateway.
#[derive(Drop)]
pub(crate) struct BoundAddresses<L> {
    /// At that of clients.
    pub(crate) front: L,
    /// At that of an operator, where there is one.
    pub(crate) admin: Option<AdminAddress<L>>,
    /// At that of whoever looks at the state, where there is one.
    pub(crate) status: Option<L>,
}

/// Binds the address of clients, and those beside it that the options have. The log says so, or why
/// one can't be bound.
pub(crate) fn bind_all<R: Log, B: Binder>(
    rt: &R,
    addresses: &B,
    alloc: Global,
    listen: SocketAddrV4,
    service: &ServeOptions<'_>,
) -> Result<BoundAddresses<B::Bound>, ServiceFault>
    ensures bound { IfOk result (AreBound B.bound (socket_v4_text listen) service.now.admin
        service.now.status) }
    ensures unbound { IfErr result (IsOfBinding B.bound B.unbound (socket_v4_text listen)
        service.now.admin service.now.status) }
{
    let front = bind(rt, addresses, listen)?;
    let admin = bind_admin(rt, addresses, alloc, service.admin)?;
    let status = bind_status(rt, addresses, service.status)?;
    Ok(BoundAddresses {
        front,
        admin,
        status,
    })
}

/// What listens at an address; where it can't be bound, the log has the system's reason.
fn bind<R: Log, B: Binder>(
    rt: &R,
    addresses: &B,
    address: SocketAddrV4,
) -> Result<B::Bound, ServiceFault>
    ensures bound { IfOk result (B.bound (socket_v4_text address)) }
    ensures unbound { IfErr result (λ fault.
        (fault ≡ Listen) × B.unbound (socket_v4_text address)) }
{
    match addresses.bind(address) {
        Ok(listener) => Ok(listener),
        Err(error) => {
            log_unbound(rt, address, &error);
            Err(ServiceFault::Listen)
        }
    }
}

/// The operator's address, where there is one, once it is bound; the log says so.
fn bind_admin<R: Log, B: Binder>(
    rt: &R,
    addresses: &B,
    alloc: Global,
    address: Option<SocketAddrV4>,
) -> Result<Option<AdminAddress<B::Bound>>, ServiceFault>
    ensures bound { IfOk result (IsAdminBound B.bound address) }
    ensures unbound { IfErr result (IsOfAdmin B.unbound address) }
{
    let Some(address) = address else {
        return Ok(None);
    };
    let Ok(host) = host_name(alloc, address) else {
        return Err(ServiceFault::Memory);
    };
    let listener = bind(rt, addresses, address)?;
    log_admin(rt, address);
    Ok(Some(AdminAddress { listener, host }))
}

/// What listens at the address of whoever looks at the state, where there is one; the log says so.
fn bind_status<R: Log, B: Binder>(
    rt: &R,
    addresses: &B,
    address: Option<SocketAddrV4>,
) -> Result<Option<B::Bound>, ServiceFault>
    ensures bound { IfOk result (IsStatusBound B.bound address) }
    ensures unbound { IfErr result (λ fault. (fault ≡ Listen) × IsUnboundToo B.unbound address) }
{
    let Some(address) = address else {
        return Ok(None);
    };
    let listener = bind(rt, addresses, address)?;
    log_status(rt, address);
    Ok(Some(listener))
}
