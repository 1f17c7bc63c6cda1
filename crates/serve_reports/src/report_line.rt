// The text of a report.
ghost use Rattle.std.specs.Prelude.{◌≡◌, ◌++◌, ◌<◌, IfOk, OnOk, string_bytes};
ghost use Rattle.serve_reports.specs.Report.{acquires_text, answers_text, class_text, classes_text};
ghost use Rattle.serve_reports.specs.Report.{clients_text, connections_text, events_text};
ghost use Rattle.serve_reports.specs.Report.{waiting_text};
ghost use Rattle.serve_reports.specs.Report.{counters_text, outcomes_text, report_text, stands_text};
ghost use Rattle.serve_reports.specs.Report.{unheld_text, unknown_text, waits_text, workers_text};

use crate::connections::BackendConnections;
use crate::tally::AnswerTally;
use crate::workers::Workers;
use gate_port::Report;
use limiter_core::Counters;
use partitions::{Part, PartitionTable};
use seats::ClientConnections;
use std::alloc::{AllocError, Global};

/// The text of the state of a gate over these classes, of how many of its workers serve a client,
/// of how many exchanges ended in each of the gateway's own answers, and of the connections to the
/// backend and of clients. It fails only out of memory.
pub fn report_text(
    alloc: Global,
    report: &Report,
    workers: &Workers,
    table: &PartitionTable,
    answers: &AnswerTally,
    connections: &BackendConnections,
    clients: &ClientConnections,
) -> Result<String, AllocError>
    ensures { IfOk result (λ text. string_bytes text ≡ report_text report.now workers.now
        table.now answers.now connections.now clients.now) }
{
    let mut text = String::new(alloc);
    push_stands(&mut text, report)?;
    push_workers(&mut text, workers)?;
    push_classes(&mut text, report, table)?;
    push_counters(&mut text, &report.counters)?;
    push_answers(&mut text, answers)?;
    push_connections(&mut text, connections)?;
    push_clients(&mut text, clients)?;
    Ok(text)
}

/// Adds the limit, and how many are in flight, wait and are granted.
fn push_stands(text: &mut String, report: &Report) -> Result<(), AllocError>
    ensures { OnOk result (string_bytes text.new
        ≡ string_bytes text.old ++ stands_text report.now) }
{
    let (limit, inflight) = (report.limit, report.inflight);
    let (waiters, granted) = (report.waiters, report.granted);
    write!(
        text,
        "limit={limit} inflight={inflight} waiters={waiters} granted={granted}"
    )
}

/// Adds how many workers serve a client, and of how many.
fn push_workers(text: &mut String, workers: &Workers) -> Result<(), AllocError>
    ensures { OnOk result (string_bytes text.new
        ≡ string_bytes text.old ++ workers_text workers.now) }
{
    let (busy, count) = (workers.busy, workers.count);
    write!(text, " busy={busy}/{count}")
}

/// Adds each class with its count and its share, and the callers of no class.
fn push_classes(
    text: &mut String,
    report: &Report,
    table: &PartitionTable,
) -> Result<(), AllocError>
    ensures { OnOk result (string_bytes text.new
        ≡ string_bytes text.old ++ classes_text report.now table.now) }
{
    push_class(text, report, table, 0)?;
    push_class(text, report, table, 1)?;
    push_class(text, report, table, 2)?;
    push_class(text, report, table, 3)?;
    push_unknown(text, report)
}

/// Adds the callers of no class.
fn push_unknown(text: &mut String, report: &Report) -> Result<(), AllocError>
    ensures { OnOk result (string_bytes text.new
        ≡ string_bytes text.old ++ unknown_text report.now) }
{
    let unknown = report.counts[4];
    write!(text, " class.unknown={unknown}")
}

/// Adds the class in a row of the table, where it has one.
fn push_class(
    text: &mut String,
    report: &Report,
    table: &PartitionTable,
    row: u8,
) -> Result<(), AllocError>
    requires { row < 4 }
    ensures { OnOk result (string_bytes text.new
        ≡ string_bytes text.old ++ class_text report.now table.now row) }
{
    let place = usize::from(row);
    if table.len() <= place {
        return Ok(());
    }
    let name = table.name(Part::Known(row));
    let (count, share) = (report.counts[place], report.shares[place]);
    write!(text, " class.{name}={count}/{share}")
}

/// Adds how often each reply, promotion and outcome was.
fn push_counters(text: &mut String, counters: &Counters) -> Result<(), AllocError>
    ensures { OnOk result (string_bytes text.new
        ≡ string_bytes text.old ++ counters_text counters.now) }
{
    push_acquires(text, counters)?;
    push_waits(text, counters)?;
    push_outcomes(text, counters)
}

/// Adds how often an acquire was answered at once.
fn push_acquires(text: &mut String, counters: &Counters) -> Result<(), AllocError>
    ensures { OnOk result (string_bytes text.new
        ≡ string_bytes text.old ++ acquires_text counters.now) }
{
    let (admitted, bypassed) = (counters.admitted, counters.bypassed);
    let (full, backlog) = (counters.full, counters.backlog_full);
    write!(
        text,
        " admitted={admitted} bypassed={bypassed} full={full} backlog={backlog}"
    )
}

/// Adds how often a wait began, and how it ended.
fn push_waits(text: &mut String, counters: &Counters) -> Result<(), AllocError>
    ensures { OnOk result (string_bytes text.new
        ≡ string_bytes text.old ++ waits_text counters.now) }
{
    let (waiting, promoted) = (counters.waiting, counters.promoted);
    let timed_out = counters.timed_out;
    write!(
        text,
        " waiting={waiting} promoted={promoted} timed-out={timed_out}"
    )
}

/// Adds how often each outcome was.
fn push_outcomes(text: &mut String, counters: &Counters) -> Result<(), AllocError>
    ensures { OnOk result (string_bytes text.new
        ≡ string_bytes text.old ++ outcomes_text counters.now) }
{
    let (success, ignored, dropped) = (counters.success, counters.ignored, counters.dropped);
    write!(
        text,
        " success={success} ignored={ignored} dropped={dropped}"
    )
}

/// Adds how many exchanges ended in each of the gateway's own answers.
fn push_answers(text: &mut String, answers: &AnswerTally) -> Result<(), AllocError>
    ensures { OnOk result (string_bytes text.new
        ≡ string_bytes text.old ++ answers_text answers.now) }
{
    let (bad, large, refused) = (answers.bad_request, answers.too_large, answers.refused);
    write!(text, " 400={bad} 413={large} 429={refused}")?;
    let (head, memory) = (answers.head_too_large, answers.out_of_memory);
    let (not_taken, gateway, late) = (answers.not_taken, answers.bad_gateway, answers.timed_out);
    write!(
        text,
        " 431={head} 500={memory} 501={not_taken} 502={gateway} 504={late}"
    )?;
    push_unheld(text, answers.bodies)
}

/// Adds how many requests had a body that wasn't held, where there is one: there is none without a
/// bound.
fn push_unheld(text: &mut String, count: u64) -> Result<(), AllocError>
    ensures { OnOk result (string_bytes text.new ≡ string_bytes text.old ++ unheld_text count) }
{
    if count == 0 {
        return Ok(());
    }
    write!(text, " 503={count}")
}

/// Adds how many connections to the backend are open, how many of them are idle, how many were made
/// and taken again, and how many were closed while they were idle.
fn push_connections(text: &mut String, connections: &BackendConnections) -> Result<(), AllocError>
    ensures { OnOk result (string_bytes text.new
        ≡ string_bytes text.old ++ connections_text connections.now) }
{
    let (open, idle) = (connections.open, connections.idle);
    let (opened, reused) = (connections.opened, connections.reused);
    let stale = connections.stale;
    write!(
        text,
        " open={open} idle={idle} opened={opened} reused={reused} stale={stale}"
    )
}

/// Adds how many clients wait, and what became of their connections.
fn push_clients(text: &mut String, clients: &ClientConnections) -> Result<(), AllocError>
    ensures { OnOk result (string_bytes text.new
        ≡ string_bytes text.old ++ clients_text clients.now) }
{
    push_waiting(text, clients)?;
    push_events(text, clients)
}

/// Adds how many clients have sent nothing yet, and how many are kept.
fn push_waiting(text: &mut String, clients: &ClientConnections) -> Result<(), AllocError>
    ensures { OnOk result (string_bytes text.new
        ≡ string_bytes text.old ++ waiting_text clients.now) }
{
    let (silent, idle) = (clients.silent, clients.idle);
    write!(text, " clients.silent={silent} clients.idle={idle}")
}

/// Adds how often each thing happened to a client's connection.
fn push_events(text: &mut String, clients: &ClientConnections) -> Result<(), AllocError>
    ensures { OnOk result (string_bytes text.new
        ≡ string_bytes text.old ++ events_text clients.now) }
{
    let (opened, reused) = (clients.opened, clients.reused);
    let (late, displaced) = (clients.late, clients.displaced);
    write!(
        text,
        " clients.opened={opened} clients.reused={reused} clients.late={late} \
         clients.displaced={displaced}"
    )
}
