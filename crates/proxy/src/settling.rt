// A request on its way through the gate.
ghost use Rattle.std.specs.Prelude.{◌≡◌};
ghost use Rattle.proxy.specs.Table.{outcome_at, outcome_of, status_outcome};
ghost use Rattle.proxy.specs.Settling.{IsSettled, waits_until};

use crate::told::{PermitTimes, Verdict};
use classifier::{Class, classify};
use clocks::{Clock, MonotonicClock};
use gate_port::{Admission, GatePort};
use gateway_settings::Settings;
use limit_laws::LAST_MOMENT;
use limiter_core::Outcome;
use message_parts::Request;
use wire::{Backend, BackendAnswer};

/// What became of a request before its answer is written. No permit is out any more.
#[derive(Drop)]
pub(crate) struct Settled {
    pub(crate) class: Class,
    pub(crate) admission: Verdict,
    pub(crate) permit: Option<PermitTimes>,
    pub(crate) answer: Option<BackendAnswer>,
}

/// What a status tells the gate: 429, 503 and 504 say that the backend had too much to do, any
/// other status from 500 on nothing of its load.
fn status_outcome(status: u16) -> Outcome
    ensures { result ≡ status_outcome status }
{
    match status {
        0..=199 | 429 | 503 | 504 => Outcome::Dropped,
        200..=499 => Outcome::Success,
        _ => Outcome::Ignored,
    }
}

/// What a backend's answer tells the gate.
fn outcome(answer: &BackendAnswer) -> Outcome
    ensures { result ≡ outcome_of answer.now }
{
    match answer {
        BackendAnswer::Answered(response) => status_outcome(response.status()),
        BackendAnswer::NotConnected => Outcome::Ignored,
        BackendAnswer::Broken(_) => Outcome::Dropped,
        BackendAnswer::Stale(_) => Outcome::Dropped,
        BackendAnswer::Late => Outcome::Dropped,
        BackendAnswer::Memory => Outcome::Ignored,
        BackendAnswer::Bodies => Outcome::Ignored,
    }
}

/// The same, where the backend answered.
pub(crate) fn outcome_at(answer: &Option<BackendAnswer>) -> Option<Outcome>
    ensures { result ≡ outcome_at answer.now }
{
    match answer {
        Some(answer) => Some(outcome(answer)),
        None => None,
    }
}

/// Until when a request may wait that is read now, at most 2^62; none where it may not.
fn deadline(settings: &Settings, now: u64) -> Option<u64>
    ensures { result ≡ waits_until settings.now now }
{
    if settings.wait {
        Some(now.saturating_add(settings.timeout_ns).min(LAST_MOMENT))
    } else {
        None
    }
}

/// Asks the gate, forwards once where it lets the request through, and ends the permit. It is lent
/// no writer, so nothing is written to the client before its permit is ended.
#[inline(always)]
pub(crate) fn settle<P: GatePort, B: Backend, C: Clock>(
    port: &mut P,
    backend: &mut B,
    settings: &Settings,
    looks: &mut MonotonicClock<'_, C, BackendAnswer>,
    request: &Request,
) -> Settled
    ensures { IsSettled settings.now request.now (P.shown port.old) (P.shown port.new)
        (P.known port.old) (P.known port.new) looks.old looks.new
        (B.forwarded backend.old) (B.forwarded backend.new)
        (B.shown backend.old) (B.shown backend.new)
        result.class result.admission result.permit result.answer }
{
    let class = classify(&settings.rules, &settings.table, request);
    let now = looks.look();
    match port.admit(class.part, class.bypass, deadline(settings, now), now) {
        Admission::Admitted(permit) => {
            let start = P::start(&permit);
            let answer = backend.forward(request);
            let end = looks.look_knowing(&answer);
            let _receipt = port.end(permit, outcome(&answer), end);
            Settled {
                class,
                admission: Verdict::Admitted,
                permit: Some(PermitTimes::between(now, start, end)),
                answer: Some(answer),
            }
        }
        Admission::Bypassed => {
            let answer = backend.forward(request);
            Settled {
                class,
                admission: Verdict::Bypassed,
                permit: None,
                answer: Some(answer),
            }
        }
        Admission::Refused(why) => Settled {
            class,
            admission: Verdict::Refused(why),
            permit: None,
            answer: None,
        },
    }
}
