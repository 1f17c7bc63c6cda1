// Where addresses are bound.
ghost use Rattle.std.specs.Prelude.{IfOk, OnErr};
ghost use Rattle.std.specs.Net.Text.{socket_v4_text};

use crate::bound_listener::BoundListener;
use crate::listener::Closable;
use std::io::Result;
use std::net::{Net, SocketAddr, SocketAddrV4};
use std::sync::Wait;
use std::time::Clock;

/// Where addresses are bound, to listen there.
pub trait Binder {
    /// What listens at an address.
    type Bound: Closable + Drop;

    ghost use Rattle.std.specs.Prelude.{ℕ, List};

    // It was bound at the address of this text.
    ghost bound: { List ℕ → Self.Bound → Type 0 };

    // Nothing could be bound at the address of this text.
    ghost unbound: { List ℕ → Type 0 };

    /// Binds an address; the fault is the system's, mostly that another program has it.
    fn bind(&self, address: SocketAddrV4) -> Result<Self::Bound>
        ensures listener { IfOk result (bound (socket_v4_text address)) }
        ensures fault { OnErr result (unbound (socket_v4_text address)) };
}

/// The addresses of the system. Std doesn't tell which of them was bound, or why it couldn't be.
#[derive(Clone, Copy)]
pub struct SystemAddresses<'a, N> {
    net: &'a N,
}

impl<'a, N> SystemAddresses<'a, N> {
    /// The addresses of this system.
    pub fn new(net: &'a N) -> SystemAddresses<'a, N> {
        SystemAddresses { net }
    }
}

impl<'a, N: Net + Wait + Clock> Binder for SystemAddresses<'a, N> {
    type Bound = BoundListener<'a, N>;

    ghost use Rattle.std.specs.Prelude.{⊤};

    ghost bound = { λ _ _. ⊤ };

    ghost unbound = { λ _. ⊤ };

    fn bind(&self, address: SocketAddrV4) -> Result<BoundListener<'a, N>> {
        BoundListener::bind(self.net, SocketAddr::V4(address))
    }
}
