// What the client gets.
ghost use Rattle.std.specs.Prelude.{◌≡◌, ◌≤◌, None, Some, option_map, OnOk, OnErr, IfOk, IfErr, IfSome, true};
ghost use Rattle.std.specs.Prelude.{is_some};
ghost use Rattle.counted_io.specs.Causes.{IsWriteCause};
ghost use Rattle.counted_io.specs.Counted.{failures_of, is_flushed};
ghost use Rattle.counted_io.specs.Effects.{Wrote};
ghost use Rattle.message_text.specs.Fronts.{WroteFront};
ghost use Rattle.proxy.specs.Table.{backend_mark, fault_mark, fault_status, if_marked, is_own, mark_of};
ghost use Rattle.proxy.specs.Table.{is_stale, is_unanswered, own_text, refusal_mark, reply_of};
ghost use Rattle.proxy.specs.Table.{reply_status, reply_text, text_of};

use crate::told::Verdict;
use counted_io::{Counted, WriteFault};
use gate_port::Why;
use message_parts::Method;
use message_text::{Persistence, write_local_answer, write_marked_answer};
use std::io::Write;
use wire::{BackendAnswer, Response, WireFault, write_response};

/// What the client gets of a backend that answered so or wasn't asked: the response, where it is
/// passed on, or else the status of the gateway's own answer. A status below 200 is of no final
/// response, and isn't passed on.
pub(crate) fn reply_of(answer: &Option<BackendAnswer>) -> Result<&Response, u16>
    ensures passed { IfOk result (λ response. reply_of answer.now ≡ Ok response.now) }
    ensures own { IfErr result (λ status. reply_of answer.now ≡ Err status) }
    ensures three_digits { IfErr result (λ status. (100 ≤ status) × (status ≤ 999)) }
{
    match answer {
        Some(BackendAnswer::Answered(response)) => {
            if response.status() < 200 {
                Err(502)
            } else {
                Ok(response)
            }
        }
        Some(BackendAnswer::NotConnected) => Err(502),
        Some(BackendAnswer::Broken(_)) => Err(502),
        Some(BackendAnswer::Stale(_)) => Err(502),
        Some(BackendAnswer::Late) => Err(504),
        Some(BackendAnswer::Memory) => Err(500),
        Some(BackendAnswer::Bodies) => Err(502),
        None => Err(429),
    }
}

/// Whether the backend's connection was stale.
fn is_stale(answer: &Option<BackendAnswer>) -> bool
    ensures { result ≡ is_stale answer.now }
{
    match answer {
        Some(BackendAnswer::Stale(_)) => true,
        _ => false,
    }
}

/// Whether the client gets no reply: on a later request of its connection, where the backend's was
/// stale.
pub(crate) fn is_unanswered(is_later: bool, answer: &Option<BackendAnswer>) -> bool
    ensures { result ≡ is_unanswered is_later answer.now }
{
    is_later && is_stale(answer)
}

/// The status of what the client gets, where it gets a reply.
pub(crate) fn reply_status(is_later: bool, answer: &Option<BackendAnswer>) -> Option<u16>
    ensures { result ≡ reply_status is_later answer.now }
{
    if is_unanswered(is_later, answer) {
        return None;
    }
    match reply_of(answer) {
        Ok(response) => Some(response.status()),
        Err(status) => Some(status),
    }
}

/// Whether what the client gets is the gateway's own answer.
pub(crate) fn is_own(is_later: bool, answer: &Option<BackendAnswer>) -> bool
    ensures { result ≡ is_own is_later answer.now }
{
    !is_unanswered(is_later, answer) && reply_of(answer).is_err()
}

/// The word of a refusal.
fn refusal_mark(why: Why) -> &'static str
    ensures { result.now ≡ refusal_mark why }
{
    match why {
        Why::Full => "full",
        Why::BacklogFull => "backlog",
        Why::TimedOut => "waited",
        Why::Lost => "lost",
        Why::Exhausted => "exhausted",
    }
}

/// The word of a backend that gave no response which may be passed on.
fn backend_mark(answer: &BackendAnswer) -> &'static str
    ensures { result.now ≡ backend_mark answer.now }
{
    match answer {
        BackendAnswer::Answered(_) | BackendAnswer::Broken(_) | BackendAnswer::Stale(_) => "broken",
        BackendAnswer::NotConnected => "unreached",
        BackendAnswer::Late => "late",
        BackendAnswer::Memory => "memory",
        BackendAnswer::Bodies => "bodies",
    }
}

/// The mark of the gateway's own answer to a request that was read, where marks are asked for.
pub(crate) fn reply_mark(
    marks: bool,
    admission: Verdict,
    answer: &Option<BackendAnswer>,
) -> Option<&'static str>
    ensures { option_map (λ mark. mark.now) result
        ≡ if_marked marks (mark_of admission answer.now) }
{
    if !marks {
        return None;
    }
    match (answer, admission) {
        (Some(answer), _) => Some(backend_mark(answer)),
        (None, Verdict::Refused(why)) => Some(refusal_mark(why)),
        (None, _) => None,
    }
}

/// The mark of the gateway's own answer after a fault of reading, where marks are asked for.
pub(crate) fn fault_mark(marks: bool, fault: WireFault) -> Option<&'static str>
    ensures { option_map (λ mark. mark.now) result ≡ if_marked marks (Some (fault_mark fault)) }
{
    if !marks {
        return None;
    }
    match fault {
        WireFault::Memory => Some("memory"),
        WireFault::Bodies => Some("bodies"),
        _ => Some("unread"),
    }
}

/// Writes and flushes the gateway's own answer of a status, with this mark, to a client whose
/// connection ends with it or goes on.
pub(crate) fn write_own<W: Write>(
    writer: &mut Counted<W>,
    status: u16,
    mark: Option<&'static str>,
    persistence: Persistence,
) -> Result<(), WriteFault>
    requires three_digits { (100 ≤ status) × (status ≤ 999) }
    ensures all { OnOk result (Wrote W.contents writer.old writer.new
        (own_text persistence (option_map (λ mark. mark.now) mark.entry) status)) }
    ensures flushed { OnOk result (is_flushed writer.new ≡ true) }
    ensures unfailing { OnOk result (failures_of writer.new ≡ failures_of writer.old) }
    ensures front { OnErr result (WroteFront W.contents writer.old writer.new
        (own_text persistence (option_map (λ mark. mark.now) mark.entry) status)) }
    ensures failed { OnErr result (IsWriteCause writer.old writer.new) }
{
    match mark {
        Some(mark) => write_marked_answer(writer, status, mark, persistence),
        None => write_local_answer(writer, status, persistence),
    }
}

/// Writes and flushes what the client gets on its first request or a later one, and tells a fault
/// of writing. The gateway's own answer has this mark. Who gets no reply is written nothing.
pub(crate) fn reply<W: Write>(
    writer: &mut Counted<W>,
    is_later: bool,
    mark: Option<&'static str>,
    persistence: Persistence,
    answer: &Option<BackendAnswer>,
    method: &Method,
) -> Option<WireFault>
    ensures all { result ≡ None → Wrote W.contents writer.old writer.new
        (reply_text is_later persistence (option_map (λ mark. mark.now) mark.entry) method.now
        answer.now) }
    ensures flushed { result ≡ None → is_some (reply_status is_later answer.now) ≡ true
        → is_flushed writer.new ≡ true }
    ensures unfailing { result ≡ None → failures_of writer.new ≡ failures_of writer.old }
    ensures begun { IfSome result (λ fault. WroteFront W.contents writer.old writer.new
        (reply_text is_later persistence (option_map (λ mark. mark.now) mark.entry) method.now
        answer.now)) }
    ensures failed { IfSome result (λ fault.
        (fault ≡ WireFault.Write) × IsWriteCause writer.old writer.new) }
{
    if is_unanswered(is_later, answer) {
        return None;
    }
    match write_reply(writer, mark, persistence, answer, method) {
        Ok(()) => None,
        Err(_) => Some(WireFault::Write),
    }
}

/// Writes the backend's response where it is passed on, else the gateway's own answer, whole
/// whatever the method.
fn write_reply<W: Write>(
    writer: &mut Counted<W>,
    mark: Option<&'static str>,
    persistence: Persistence,
    answer: &Option<BackendAnswer>,
    method: &Method,
) -> Result<(), WriteFault>
    ensures all { OnOk result (Wrote W.contents writer.old writer.new
        (text_of persistence (option_map (λ mark. mark.now) mark.entry) method.now
        (reply_of answer.now))) }
    ensures flushed { OnOk result (is_flushed writer.new ≡ true) }
    ensures unfailing { OnOk result (failures_of writer.new ≡ failures_of writer.old) }
    ensures front { OnErr result (WroteFront W.contents writer.old writer.new
        (text_of persistence (option_map (λ mark. mark.now) mark.entry) method.now
        (reply_of answer.now))) }
    ensures failed { OnErr result (IsWriteCause writer.old writer.new) }
{
    match reply_of(answer) {
        Ok(response) => write_response(writer, response, method, persistence),
        Err(status) => write_own(writer, status, mark, persistence),
    }
}

/// The status that a fault of reading is answered with; none where nothing more is written.
pub fn fault_status(fault: WireFault) -> Option<u16>
    ensures status { result ≡ fault_status fault }
    ensures three_digits { IfSome result (λ status. (100 ≤ status) × (status ≤ 999)) }
{
    match fault {
        WireFault::Early | WireFault::Malformed | WireFault::BothLengths => Some(400),
        WireFault::HeadTooLarge => Some(431),
        WireFault::BodyTooLarge => Some(413),
        WireFault::Coding | WireFault::Method => Some(501),
        WireFault::Memory => Some(500),
        WireFault::Bodies => Some(503),
        WireFault::Read | WireFault::Write | WireFault::TurnLimit => None,
    }
}
