// An exchange.
ghost use Rattle.std.specs.Prelude.{◌≡◌, ◌==◌, ◌⊎◌, None, Some, IfSome, is_some, true, false, length};
ghost use Rattle.counted_io.specs.Causes.{IsWriteCause};
ghost use Rattle.counted_io.specs.Counted.{failures_of, inner_of, is_flushed};
ghost use Rattle.counted_io.specs.Effects.{Wrote};
ghost use Rattle.message_reading.specs.Holding.{Refuses};
ghost use Rattle.message_text.specs.Fronts.{WroteFront};
ghost use Rattle.message_text.specs.declared.persistence.Persistence.TheVariants.{Close};
ghost use Rattle.proxy.specs.Table.{fault_mark, fault_status, if_marked, own_or_nothing};
ghost use Rattle.proxy.specs.Exchanges.{IsExchange, IsUnheld, is_empty, told_by};
ghost use Rattle.proxy.specs.Made.{counts_of, is_all_sent, reads_of, summary_of, writes_of};

use crate::keeping::{ExchangePolicy, Keeper, persistence_behind};
use crate::replying::{
    fault_mark, fault_status, is_own, reply, reply_mark, reply_status, write_own,
};
use crate::settling::{outcome_at, settle};
use crate::told::{CallCounts, Exchange, ExchangeSummary, Verdict};
use body_memory::BodyMemory;
use clocks::{Clock, MonotonicClock};
use counted_io::Counted;
use gate_port::GatePort;
use gateway_settings::Settings;
use lent_io::ReadAhead;
use message_text::Persistence;
use std::io::{BufRead, Write};
use wire::{Backend, BackendAnswer, WireFault, read_request};

/// Serves one request of a connection: reads it, asks the gate for it, forwards it once where it is
/// let through, ends its permit, and answers the client.
///
/// After a fault of reading the gate isn't asked and nothing is forwarded; the client gets the
/// fault's own status, or after `Read`, `Write` and `TurnLimit` nothing. The clock is looked at as
/// the gate is asked, and where a permit was got once more as the backend has answered. Where the
/// client is answered and no write fails, a flush comes last. With `marks` each of the gateway's
/// own answers has the line `X-Admission` with its word. `written_fault` comes only where the
/// writer failed; by then an admitted permit is ended.
///
/// The answer has no line `Connection: close`, and `persistence` is `Keep`, where the request is in
/// HTTP/1.1 and has no such option (RFC 9112, section 9.3), it was read and nothing behind it, the
/// answer tells where it ends, and the policy's keeper lets the client be kept; it is asked as the
/// permit is ended. A request whose body the memory refuses to hold is answered 503, like one that
/// can't be read. A later request of a connection gets no answer, and `persistence` is `Close`,
/// where the backend's connection was stale.
pub fn exchange<M, P, B, C, R, W, K>(
    memory: &mut M,
    port: &mut P,
    backend: &mut B,
    settings: &Settings,
    policy: &ExchangePolicy<'_, K>,
    looks: &mut MonotonicClock<'_, C, BackendAnswer>,
    reader: &mut Counted<R>,
    writer: &mut Counted<W>,
) -> Exchange
where
    M: BodyMemory,
    P: GatePort,
    B: Backend,
    C: Clock,
    R: BufRead + ReadAhead,
    W: Write,
    K: Keeper,
    ensures exchanged { IsExchange
        (record {
          settings = settings.now;
          marks = policy.now.marks;
          keeps = K.tells policy.now.keeper.now;
          later = policy.now.is_later;
        })
        (record {
          reader = told_by R.remaining reader.old;
          writer = told_by W.contents writer.old;
          shown = P.shown port.old;
          known = P.known port.old;
          looks = looks.old;
          count = B.forwarded backend.old;
          log = B.shown backend.old;
        })
        (record {
          reader = told_by R.remaining reader.new;
          writer = told_by W.contents writer.new;
          shown = P.shown port.new;
          known = P.known port.new;
          looks = looks.new;
          count = B.forwarded backend.new;
          log = B.shown backend.new;
        })
        (summary_of result) }
    ensures reads { reads_of result ≡ counts_of reader.new }
    ensures writes { writes_of result ≡ counts_of writer.new }
    ensures unsent { is_all_sent result ≡ false }
    ensures drained { (summary_of result).is_drained
        ≡ (length (R.ahead (inner_of reader.new)) == 0) }
    ensures flushed { (summary_of result).written_fault ≡ None
        → is_some (summary_of result).answer ≡ true → is_flushed writer.new ≡ true }
    ensures unfailing { (summary_of result).written_fault ≡ None →
        failures_of writer.new ≡ failures_of writer.old }
    ensures written { IfSome (summary_of result).written_fault (λ fault.
        (fault ≡ WireFault.Write) × IsWriteCause writer.old writer.new) }
    ensures full { (¬ (M.refused memory.new ≡ M.refused memory.old))
        → IsUnheld (summary_of result) }
    ensures refused { IsUnheld (summary_of result)
        → Refuses (M.refused memory.old) (M.refused memory.new) }
{
    let before = reader.calls();
    let request = match read_request(memory, reader, writer) {
        Ok(request) => request,
        Err(fault) => {
            let is_empty = is_empty(fault, before, reader.calls());
            let is_drained = reader.inner().is_drained();
            let told = unread(fault, is_empty, is_drained, policy.marks, writer);
            return Exchange {
                told,
                reads: CallCounts::of(reader),
                writes: CallCounts::of(writer),
                is_sent: false,
            };
        }
    };
    let settled = settle(port, backend, settings, looks, &request);
    let is_drained = reader.inner().is_drained();
    let keeps = policy.keeper.may_keep();
    let is_later = policy.is_later;
    let persistence = persistence_behind(keeps, is_drained, is_later, &request, &settled.answer);
    let mark = reply_mark(policy.marks, settled.admission, &settled.answer);
    let (answer, method) = (&settled.answer, &request.method);
    let written_fault = reply(writer, is_later, mark, persistence, answer, method);
    let told = ExchangeSummary {
        class: Some(settled.class),
        admission: settled.admission,
        permit: settled.permit,
        answer: reply_status(is_later, &settled.answer),
        is_own: is_own(is_later, &settled.answer),
        is_empty: false,
        outcome: outcome_at(&settled.answer),
        is_drained,
        persistence,
        written_fault,
    };
    Exchange {
        told,
        reads: CallCounts::of(reader),
        writes: CallCounts::of(writer),
        is_sent: false,
    }
}

/// Whether what a client sent was at its end as it was first read: the fault is that of a cut, and
/// one read more was made than before.
fn is_empty(fault: WireFault, before: u64, reads: u64) -> bool
    ensures { result ≡ is_empty fault before reads }
{
    match fault {
        WireFault::Early => reads == before.saturating_add(1),
        _ => false,
    }
}

/// Answers a request that was not read, of which nothing came at all where it is empty. The
/// client's connection ends.
fn unread<W: Write>(
    fault: WireFault,
    is_empty: bool,
    is_drained: bool,
    marks: bool,
    writer: &mut Counted<W>,
) -> ExchangeSummary
    ensures empty { result.is_empty ≡ is_empty }
    ensures class { result.class ≡ None }
    ensures admission { result.admission ≡ Verdict.NotAsked }
    ensures permit { result.permit ≡ None }
    ensures answer { result.answer ≡ fault_status fault }
    ensures own { result.is_own ≡ is_some (fault_status fault) }
    ensures outcome { result.outcome ≡ None }
    ensures drained { result.is_drained ≡ is_drained }
    ensures persistence { result.persistence ≡ Close }
    ensures text { result.written_fault ≡ None → Wrote W.contents writer.old writer.new
        (own_or_nothing result.persistence (if_marked marks (Some (fault_mark fault)))
        (fault_status fault)) }
    ensures flushed { result.written_fault ≡ None → is_some result.answer ≡ true
        → is_flushed writer.new ≡ true }
    ensures unfailing { result.written_fault ≡ None →
        failures_of writer.new ≡ failures_of writer.old }
    ensures begun { IfSome result.written_fault (λ written. WroteFront W.contents
        writer.old writer.new (own_or_nothing result.persistence
        (if_marked marks (Some (fault_mark fault))) (fault_status fault))) }
    ensures written { IfSome result.written_fault (λ written. (written ≡ WireFault.Write)
        × ((fault ≡ WireFault.Write) ⊎ IsWriteCause writer.old writer.new)) }
    ensures untouched { fault ≡ WireFault.Write → writer.new ≡ writer.old }
    ensures told { fault ≡ WireFault.Write → result.written_fault ≡ Some WireFault.Write }
{
    let answer = fault_status(fault);
    let written_fault = write_unread(fault, marks, writer);
    ExchangeSummary {
        class: None,
        admission: Verdict::NotAsked,
        permit: None,
        answer,
        is_own: answer.is_some(),
        is_empty,
        outcome: None,
        is_drained,
        persistence: Persistence::Close,
        written_fault,
    }
}

/// Writes the answer to a request that was not read, where it has one, and tells a fault of
/// writing: this one, where it is why.
#[tactic(auto, using(crate::proofs::Begun::nothing_begun))]
fn write_unread<W: Write>(
    fault: WireFault,
    marks: bool,
    writer: &mut Counted<W>,
) -> Option<WireFault>
    ensures text { result ≡ None → Wrote W.contents writer.old writer.new
        (own_or_nothing Close (if_marked marks (Some (fault_mark fault))) (fault_status fault)) }
    ensures begun { IfSome result (λ written. WroteFront W.contents writer.old writer.new
        (own_or_nothing Close (if_marked marks (Some (fault_mark fault))) (fault_status fault))) }
    ensures flushed { result ≡ None → is_some (fault_status fault) ≡ true
        → is_flushed writer.new ≡ true }
    ensures unfailing { result ≡ None → failures_of writer.new ≡ failures_of writer.old }
    ensures written { IfSome result (λ written. (written ≡ WireFault.Write)
        × ((fault ≡ WireFault.Write) ⊎ IsWriteCause writer.old writer.new)) }
    ensures untouched { fault ≡ WireFault.Write → writer.new ≡ writer.old }
    ensures told { fault ≡ WireFault.Write → result ≡ Some WireFault.Write }
{
    let Some(status) = fault_status(fault) else {
        return (fault == WireFault::Write).then_some(fault);
    };
    match write_own(writer, status, fault_mark(marks, fault), Persistence::Close) {
        Ok(()) => None,
        Err(_) => Some(WireFault::Write),
    }
}
