// A view of a gate that threads share.
ghost use Rattle.std.specs.Prelude.{◌≡◌};
ghost use Rattle.shared_gate.specs.Calls.{pass_of};

use gate_port::{GateView, Report};
use limit_laws::Limit;
use shared_gate::{GateNaming, Pass, SharedGate};
use std::sync::Wait;

/// A gate that threads share, to be looked at by a pass.
#[derive(Drop)]
pub struct View<'a, L: Limit, M: GateNaming, R> {
    rt: &'a R,
    gate: &'a SharedGate<L, M>,
    pass: Pass<M>,
}

impl<'a, L: Limit, M: GateNaming, R> View<'a, L, M, R> {
    /// A view of a gate by a pass by which nobody has called.
    pub fn new(rt: &'a R, gate: &'a SharedGate<L, M>, pass: Pass<M>) -> View<'a, L, M, R>
        requires { pass ≡ pass_of 0 }
    {
        View { rt, gate, pass }
    }
}

impl<'a, L: Limit, M: GateNaming, R: Wait> GateView for View<'a, L, M, R> {
    ghost use Rattle.shared_gate.specs.Reported.{IsReportTo};

    ghost tells = { λ before after report.
        IsReportTo L.rules M.making before.pass after.pass report };

    fn report(&mut self) -> Report {
        self.gate.report_to(self.rt, &mut self.pass)
    }
}
