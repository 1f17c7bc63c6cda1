// What a thread does with its pass.
ghost use Rattle.std.specs.Prelude.{◌≡◌, OnOk, IfOk, vec_len};

use aimd::Aimd;
use gate_history::Receipt;
use limiter_core::Outcome;
use partitions::Part;
use shared_gate::{Clock, GateNaming, Got, Pass, SharedGate};
use std::alloc::{AllocError, Global};
use std::sync::Wait;

/// A thread's pass, the class that it calls for, and the receipts of its calls in their order.
#[derive(Drop)]
pub(crate) struct Caller<M: GateNaming> {
    pub(crate) pass: Pass<M>,
    part: Part,
    pub(crate) kept: Vec<Receipt<M>>,
}

impl<M: GateNaming> Caller<M> {
    pub(crate) fn new(alloc: Global, pass: Pass<M>, part: Part) -> Caller<M>
        ensures pass { result.pass ≡ pass }
        ensures kept { vec_len result.kept ≡ 0 }
    {
        let kept = Vec::new(alloc);
        Caller { pass, part, kept }
    }

    /// Asks three times. It keeps the receipt of each call.
    pub(crate) fn call_often<C: Clock>(
        mut self,
        rt: &impl Wait,
        gate: &SharedGate<Aimd, M>,
        clock: &C,
    ) -> Result<Caller<M>, AllocError>
        requires { self.pass.count ≡ vec_len self.kept }
        ensures { IfOk result (λ done. done.pass.count ≡ vec_len done.kept) }
    {
        for _ in 0..3 {
            self.call(rt, gate, clock)?;
        }
        Ok(self)
    }

    /// Asks for a permit; where it gets one, works and ends it.
    fn call<C: Clock>(
        &mut self,
        rt: &impl Wait,
        gate: &SharedGate<Aimd, M>,
        clock: &C,
    ) -> Result<(), AllocError>
        requires { self.old.pass.count ≡ vec_len self.old.kept }
        ensures { OnOk result (self.new.pass.count ≡ vec_len self.new.kept) }
    {
        match gate.acquire(rt, &mut self.pass, self.part, false, false, clock.now()) {
            Got::Admitted(receipt, permit) => {
                let outcome = work();
                let ended = gate.end(rt, &mut self.pass, permit, outcome, clock.now());
                self.kept.push(receipt)?;
                self.kept.push(ended)?;
            }
            Got::Full(receipt) => self.kept.push(receipt)?,
            Got::Exhausted(_spent) => {}
            Got::Bypassed(_receipt) => unreachable!(),
            Got::BacklogFull(_receipt) => unreachable!(),
            Got::Waiting(_receipt, _ticket) => unreachable!(),
        }
        Ok(())
    }
}

/// The work that a permit is for, and how it ended.
fn work() -> Outcome {
    Outcome::Success
}
