// The workers of a run.
ghost use Rattle.std.specs.Prelude.{◌≡◌, IfOk, vec_len};

use crate::worker::Worker;
use shared_gate::{GateNaming, Pass};
use std::alloc::{AllocError, Global};

/// A worker with a pass and room for so many turns: three receipts and one refusal each.
fn a_worker<M: GateNaming>(
    alloc: Global,
    pass: Pass<M>,
    turns: usize,
) -> Result<Worker<M>, AllocError> {
    let receipts = Vec::with_capacity(alloc, turns.saturating_mul(3))?;
    let refusals = Vec::with_capacity(alloc, turns)?;
    Ok(Worker {
        pass,
        receipts,
        refusals,
    })
}

/// A worker for each pass, each with room for so many turns.
pub(crate) fn make_workers<M: GateNaming>(
    alloc: Global,
    passes: Vec<Pass<M>>,
    turns: usize,
) -> Result<Vec<Worker<M>>, AllocError>
    ensures { IfOk result (λ workers. vec_len workers ≡ vec_len passes) }
{
    let mut workers = Vec::with_capacity(alloc, passes.len())?;
    for pass in passes {
        workers.push_reserved(a_worker(alloc, pass, turns)?);
    }
    Ok(workers)
}
