// What is told of a call.
ghost use Rattle.std.specs.Prelude.{◌≡◌, [], IfOk, OnErr};
ghost use Rattle.counted_io.specs.Count.{raised_by_err};
ghost use Rattle.operator_calls.specs.declared.call.Look.TheVariants.{Metrics};
ghost use Rattle.operator_serving.specs.Desk.{HasLooked};
ghost use Rattle.operator_serving.specs.Memory.{refused_of};
ghost use Rattle.operator_serving.specs.Telling.{IsCarriedOut, Shows, changed};
ghost use Rattle.operator_serving.specs.Telling.{deep_health, health};
ghost use Rattle.operator_serving.specs.Telling.{refusal_text, refused};

use crate::desk::{ChangeFault, Desk};
use crate::memory::AnswerMemory;
use crate::response::OperatorResponse;
use operator_calls::{Change, Look, Refusal};
use serve_reports::{GatewayStats, Workers};
use std::alloc::AllocError;

/// What a look shows of a desk. It fails only out of memory.
pub(crate) fn tell<'a, D: Desk>(
    memory: &mut AnswerMemory,
    page: &'a str,
    desk: &mut D,
    look: &Look,
) -> Result<OperatorResponse<'a>, AllocError>
    ensures told { IfOk result
        (Shows D.rows D.shows D.does page.now look.now desk.old desk.new) }
    ensures untold { OnErr result (HasLooked D.does desk.old desk.new) }
    ensures refused { refused_of memory.new ≡ raised_by_err result (refused_of memory.old) }
{
    match look {
        Look::Page => Ok(OperatorResponse::new(200, page)),
        Look::Metrics => tell_metrics(memory, desk),
        Look::Health => {
            let (is_accepting, noted) = (desk.is_accepting(), desk.noted());
            Ok(health(is_accepting, &noted.workers))
        }
        Look::DeepHealth => {
            let (is_accepting, noted) = (desk.is_accepting(), desk.noted());
            Ok(deep_health(is_accepting, &noted))
        }
    }
}

/// The state at a desk, as a scraper reads it. It fails only out of memory.
fn tell_metrics<'a, D: Desk>(
    memory: &mut AnswerMemory,
    desk: &mut D,
) -> Result<OperatorResponse<'a>, AllocError>
    ensures told { IfOk result (Shows D.rows D.shows D.does [] Metrics desk.old desk.new) }
    ensures untold { OnErr result (HasLooked D.does desk.old desk.new) }
    ensures refused { refused_of memory.new ≡ raised_by_err result (refused_of memory.old) }
{
    let (report, noted) = (desk.report(), desk.noted());
    let text = memory.metrics(&report, desk.table(), &noted)?;
    Ok(OperatorResponse::made(text))
}

/// Carries a change out at a desk, and tells what came of it. It takes no memory.
pub(crate) fn carry_out<'a, D: Desk>(desk: &mut D, change: &Change) -> OperatorResponse<'a>
    ensures { IsCarriedOut D.does change.now desk.old desk.new result }
{
    match change {
        Change::SetLimit(n) => changed(desk.set_limit(*n)),
        Change::Reset => changed(desk.reset()),
        Change::Drain => {
            desk.drain();
            OperatorResponse::new(200, "draining\n")
        }
        Change::DrainAfter(delay_ms) => {
            desk.drain_after(*delay_ms);
            OperatorResponse::new(200, "draining\n")
        }
    }
}

/// What is told of a refusal.
pub(crate) fn refused<'a>(refusal: &Refusal) -> OperatorResponse<'a>
    ensures { result ≡ refused refusal.now }
{
    OperatorResponse::new(refusal.status(), refusal_text(refusal))
}

/// The text of a refusal.
fn refusal_text(refusal: &Refusal) -> &'static str
    ensures { result.now ≡ refusal_text refusal.now }
{
    match refusal {
        Refusal::ForeignHost => "the host isn't this address\n",
        Refusal::UnknownPath => "nothing is here\n",
        Refusal::OtherMethod(_) => "another method is wanted\n",
        Refusal::WithoutMark => "a POST wants the line X-Admission: yes\n",
        Refusal::NoNumber => "the body isn't a number\n",
        Refusal::OtherQuery => "the query isn't after-ms=N with N from 1 to 3600000\n",
        Refusal::CallerLeft => "the caller has left: nothing was changed\n",
    }
}

/// What is told of whether clients are accepted, and a worker is free for them.
fn health<'a>(is_accepting: bool, workers: &Workers) -> OperatorResponse<'a>
    ensures { result ≡ health is_accepting workers.now }
{
    if !is_accepting {
        OperatorResponse::new(503, "draining\n")
    } else if workers.count <= workers.busy {
        OperatorResponse::new(503, "busy\n")
    } else {
        OperatorResponse::new(200, "ok\n")
    }
}

/// Returns what is told of the same, and of whether the backend can be connected to: a drain is
/// told first.
fn deep_health<'a>(is_accepting: bool, noted: &GatewayStats) -> OperatorResponse<'a>
    ensures { result ≡ deep_health is_accepting noted.now }
{
    if is_accepting && noted.is_unreached {
        OperatorResponse::new(503, "the backend can't be reached\n")
    } else {
        health(is_accepting, &noted.workers)
    }
}

/// What is told of a change of the limit.
fn changed<'a>(outcome: Result<(), ChangeFault>) -> OperatorResponse<'a>
    ensures { result ≡ changed outcome }
{
    match outcome {
        Ok(()) => OperatorResponse::new(200, "ok\n"),
        Err(ChangeFault::NotSettable) => {
            OperatorResponse::new(409, "the limit isn't of the kind settable\n")
        }
        Err(ChangeFault::OutOfRange) => {
            OperatorResponse::new(400, "the number is out of the limit's range\n")
        }
        Err(ChangeFault::Exhausted) => OperatorResponse::new(503, "the history is exhausted\n"),
    }
}
