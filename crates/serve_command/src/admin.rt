// The addresses beside that of clients: a gateway's operator's, and that of whoever looks.
ghost use Rattle.std.specs.Prelude.{◌≡◌, ◌≤◌};
ghost use Rattle.serve_command.specs.Beside.{IsLookingAt, IsOperatingAt, count_at, count_beside};

use gate_desk::LameDuck;
use metrics::PAGE;
use operator_calls::Audience;
use operator_serving::Operating;
use std::alloc::Global;

/// How many are served at once at each of these addresses, each on a thread of its own.
const AT_ONCE: usize = 4;

/// How long a client there may take to send its request, and again to take its answer: a second,
/// in nanoseconds. So nobody waits for long behind clients that are silent.
const TIMEOUT_NS: u64 = 1_000_000_000;

/// An operator's address that is bound.
#[derive(Drop)]
pub(crate) struct AdminAddress<L> {
    /// Where operators come from.
    pub(crate) listener: L,
    /// How the address is named by a client.
    pub(crate) host: String,
}

/// What serves at the addresses beside that of clients.
#[derive(Drop)]
pub(crate) struct SideAddresses<'a, L, C> {
    /// When the gateway is to be drained, which their desks share.
    pub(crate) lame_duck: &'a LameDuck,
    /// At the operator's, where there is one.
    pub(crate) admin: Option<Operating<'a, L, C>>,
    /// At that of whoever looks, where there is one.
    pub(crate) status: Option<Operating<'a, L, C>>,
}

impl<'a, L, C> SideAddresses<'a, L, C> {
    /// What serves at the addresses that there are.
    pub(crate) fn new(
        alloc: Global,
        admin: &'a Option<AdminAddress<L>>,
        status: &'a Option<L>,
        clock: &'a C,
        lame_duck: &'a LameDuck,
    ) -> SideAddresses<'a, L, C>
        ensures admin { IsOperatingAt admin.now result.admin }
        ensures status { IsLookingAt status.now result.status }
    {
        SideAddresses {
            lame_duck,
            admin: operating_at(alloc, admin, clock),
            status: looking_at(alloc, status, clock),
        }
    }

    /// How many serve at them together.
    pub(crate) fn count(&self) -> usize
        ensures few { result ≤ 8 }
        ensures all { result ≡ count_beside self.now }
    {
        count_at(&self.admin) + count_at(&self.status)
    }

    /// The listener that the end of the last worker closes: the operator's, where there is one.
    /// Whoever serves there then closes that of whoever looks.
    pub(crate) fn side_listener(&self) -> Option<&'a L> {
        match (&self.admin, &self.status) {
            (Some(operating), _) | (None, Some(operating)) => Some(operating.listener),
            (None, None) => None,
        }
    }
}

/// How many serve at an address, where there is one.
pub(crate) fn count_at<L, C>(operating: &Option<Operating<'_, L, C>>) -> usize
    ensures few { result ≤ 4 }
    ensures all { result ≡ count_at operating.now }
{
    if operating.is_some() { AT_ONCE } else { 0 }
}

/// What serves operators at their address.
fn operating_at<'a, L, C>(
    alloc: Global,
    admin: &'a Option<AdminAddress<L>>,
    clock: &'a C,
) -> Option<Operating<'a, L, C>>
    ensures { IsOperatingAt admin.now result }
{
    match admin {
        Some(admin) => Some(Operating {
            listener: &admin.listener,
            clock,
            audience: Audience::Operator(admin.host.as_str()),
            page: PAGE,
            timeout_ns: TIMEOUT_NS,
            alloc,
        }),
        None => None,
    }
}

/// What serves whoever looks at their address.
fn looking_at<'a, L, C>(
    alloc: Global,
    status: &'a Option<L>,
    clock: &'a C,
) -> Option<Operating<'a, L, C>>
    ensures { IsLookingAt status.now result }
{
    match status {
        Some(listener) => Some(Operating {
            listener,
            clock,
            audience: Audience::Anyone,
            page: "",
            timeout_ns: TIMEOUT_NS,
            alloc,
        }),
        None => None,
    }
}
