// The thread of an operator.
ghost use Rattle.std.specs.Prelude.{◌≡◌, IfOk};
ghost use Rattle.shared_gate.specs.Calls.{pass_of};
ghost use Rattle.gate_desk.specs.Operator.{desk_of, serves_at};
ghost use Rattle.gate_desk.specs.State.{state_of};

use crate::desk::GateDesk;
use crate::watch::DeskWatch;
use clocks::Clock;
use handling::Door;
use limit_laws::Limit;
use listening::Closable;
use operator_serving::{AnswerMemory, Operating, ServedDesk, Unwatched, operate};
use shared_gate::{GateNaming, Pass};
use std::alloc::AllocError;
use std::sync::Wait;
use std::time::{Clock as SystemClock, Duration};
use tasks::Task;
use timed_io::ClientBuffers;

/// Serves one operator after the other at a gateway's desk, until their listener is closed; and
/// then closes another one too, where there is one.
#[derive(Drop)]
pub struct Operator<'a, G: Limit, M: GateNaming, R, L, C, W> {
    common: &'a Operating<'a, L, C>,
    desk: GateDesk<'a, G, M, R, L, C, W>,
    buffers: ClientBuffers,
    also: Option<&'a L>,
}

impl<'a, G: Limit, M: GateNaming, R, L, C, W: Drop> Operator<'a, G, M, R, L, C, W> {
    /// One who was asked nothing yet, and by whose pass nobody has called. It fails only out of
    /// memory.
    pub fn new(
        common: &'a Operating<'a, L, C>,
        desk: GateDesk<'a, G, M, R, L, C, W>,
        also: Option<&'a L>,
    ) -> Result<Operator<'a, G, M, R, L, C, W>, AllocError>
        requires { desk.pass ≡ pass_of 0 }
        ensures desk { IfOk result (λ operator.
            desk_of operator ≡ state_of desk.entry) }
        ensures address { IfOk result (λ operator. serves_at operator ≡ common.now) }
    {
        let buffers = ClientBuffers::new(common.alloc)?;
        Ok(Operator {
            common,
            desk,
            buffers,
            also,
        })
    }
}

impl<'a, G, M, R, L, C, W> Task for Operator<'a, G, M, R, L, C, W>
where
    G: Limit,
    M: GateNaming + Send + Sync,
    R: SystemClock + Wait,
    L: Closable,
    L::Stream: Drop,
    C: Clock,
    W: DeskWatch + Drop,
{
    // The desk's pass, by which no more calls are made.
    type Done = Pass<M>;

    ghost use Rattle.gate_desk.specs.Desk.{IsDone};
    ghost use Rattle.gate_desk.specs.Operator.{HasLeft, desk_of, serves_at};

    ghost makes = { λ operator pass. HasLeft
        (IsDone G.rules M.making L.closed) (L.came (serves_at operator).listener.now)
        (L.found (serves_at operator).listener.now) (serves_at operator).audience
        (serves_at operator).page.now (desk_of operator) pass };

    fn run(self) -> Pass<M> {
        let Operator {
            common,
            desk,
            buffers,
            also,
        } = self;
        let rt = desk.rt;
        let memory = AnswerMemory::new(common.alloc);
        let mut door = Door::new(common.listener, Unwatched {});
        let mut served = ServedDesk { desk, memory };
        operate(rt, common, &mut door, &mut served, buffers);
        close_too(rt, also);
        let ServedDesk { desk, memory: _ } = served;
        desk.into_pass()
    }
}

/// Closes a listener, where there is one.
fn close_too<R: SystemClock, L: Closable>(rt: &R, also: Option<&L>) {
    if let Some(also) = also {
        also.close(rt, Duration::ZERO);
    }
}
