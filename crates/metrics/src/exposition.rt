// The text of the metrics, in the format that scrapers read.
ghost use Rattle.std.specs.Prelude.{◌≡◌, ◌++◌, ◌<◌, IfOk, OnOk, codes, string_bytes};
ghost use Rattle.release.specs.Release.{version};
ghost use Rattle.metrics.specs.Families.{sample_text};
ghost use Rattle.metrics.specs.Metrics.{by_class_text, class_text, classes_text};
ghost use Rattle.metrics.specs.Metrics.{decisions_text, metrics_text, oldest_text};
ghost use Rattle.metrics.specs.Metrics.{outcomes_text, program_text, standing_text};
ghost use Rattle.metrics.specs.Metrics.{troubles_text};
ghost use Rattle.metrics.specs.Metrics.{clients_text, connections_text, durations_text, range_text};
ghost use Rattle.metrics.specs.Metrics.{unreached_text, workers_text};

use crate::answers::{push_answers, push_empty, push_responses, push_seen};
use crate::by_class::{push_class_outcomes, push_class_promoted, push_refusals};
use crate::families::{push_gauge, push_head, push_number, push_sample, push_samples};
use crate::limit_view::push_view;
use crate::times::push_durations;
use gate_port::Report;
use limiter_core::Counters;
use partitions::{Part, PartitionTable};
use release::version;
use seats::ClientConnections;
use serve_reports::{BackendConnections, GatewayStats, LimitRange, Outstanding, Troubles, Workers};
use std::alloc::{AllocError, Global};

/// The text of the metrics in the text format of Prometheus, version 0.0.4: of the state in a
/// gate over these classes, in permits and callers, and of what was noted since the start. It fails
/// only out of memory.
pub fn metrics_text(
    alloc: Global,
    report: &Report,
    table: &PartitionTable,
    noted: &GatewayStats,
) -> Result<String, AllocError>
    ensures { IfOk result (λ text.
        string_bytes text ≡ metrics_text report.now table.now noted.now) }
{
    let mut text = String::new(alloc);
    push_standing(&mut text, report)?;
    push_range(&mut text, &noted.limit)?;
    push_view(&mut text, &report.view)?;
    push_by_class(&mut text, report, table, noted)?;
    push_decisions(&mut text, &report.counters)?;
    push_outcomes(&mut text, &report.counters)?;
    push_responses(&mut text, &noted.responses)?;
    push_answers(&mut text, &noted.answers)?;
    push_empty(&mut text, &noted.answers)?;
    push_troubles(&mut text, &noted.troubles)?;
    push_connections(&mut text, &noted.connections)?;
    push_unreached(&mut text, noted.is_unreached)?;
    push_clients(&mut text, &noted.clients)?;
    push_workers(&mut text, &noted.workers)?;
    push_oldest(&mut text, &noted.outstanding)?;
    push_durations(&mut text, &noted.times)?;
    push_program(&mut text, noted.seconds)?;
    Ok(text)
}

/// Adds the limit, and how many are in flight, wait and are granted.
fn push_standing(text: &mut String, report: &Report) -> Result<(), AllocError>
    ensures { OnOk result (string_bytes text.new
        ≡ string_bytes text.old ++ standing_text report.now) }
{
    push_gauge(
        text,
        "admission_limit",
        "The limit, in permits.",
        report.limit as u64,
    )?;
    let help = "Permits that haven't ended.";
    push_gauge(text, "admission_in_flight", help, report.inflight as u64)?;
    let help = "Callers that wait for a permit.";
    push_gauge(text, "admission_waiting", help, report.waiters as u64)?;
    let help = "Permits of waiters that were promoted and haven't taken them yet.";
    push_gauge(text, "admission_granted", help, report.granted as u64)
}

/// Adds what the limit may be.
fn push_range(text: &mut String, limit: &LimitRange) -> Result<(), AllocError>
    ensures { OnOk result (string_bytes text.new
        ≡ string_bytes text.old ++ range_text limit.now) }
{
    let help = "The least limit, in permits.";
    push_gauge(text, "admission_limit_least", help, limit.least as u64)?;
    let help = "The greatest limit, in permits.";
    push_gauge(
        text,
        "admission_limit_greatest",
        help,
        limit.greatest as u64,
    )?;
    let name = "admission_limit_info";
    let help = "Always 1, labelled with the kind of the limit.";
    push_head(text, name, "gauge", help)?;
    push_sample(text, name, "kind", limit.kind, 1)
}

/// Adds how many of each class are in flight, its share, how many of it wait, whom of it the gate
/// refused, how its permits ended, and how many of these were waited for.
fn push_by_class(
    text: &mut String,
    report: &Report,
    table: &PartitionTable,
    noted: &GatewayStats,
) -> Result<(), AllocError>
    ensures { OnOk result (string_bytes text.new ≡ string_bytes text.old
        ++ by_class_text report.now table.now noted.now.refusals noted.now.outcomes) }
{
    let help = "Permits of a class that haven't ended.";
    push_classes(
        text,
        "admission_class_in_flight",
        help,
        table,
        &report.counts,
    )?;
    let help = "The share of a class at this limit, in permits.";
    push_classes(text, "admission_class_share", help, table, &report.shares)?;
    let help = "Callers of a class that wait for a permit.";
    push_classes(
        text,
        "admission_class_waiting",
        help,
        table,
        &report.waiting,
    )?;
    push_refusals(text, table, &noted.refusals)?;
    push_class_outcomes(text, table, &noted.outcomes)?;
    push_class_promoted(text, table, &noted.outcomes)
}

/// Adds a family with a sample for each class, and for the callers of none.
fn push_classes(
    text: &mut String,
    name: &str,
    help: &str,
    table: &PartitionTable,
    numbers: &[u32; 5],
) -> Result<(), AllocError>
    ensures { OnOk result (string_bytes text.new
        ≡ string_bytes text.old ++ classes_text name.now help.now table.now numbers.now) }
{
    push_head(text, name, "gauge", help)?;
    push_class(text, name, table, numbers, 0)?;
    push_class(text, name, table, numbers, 1)?;
    push_class(text, name, table, numbers, 2)?;
    push_class(text, name, table, numbers, 3)?;
    push_sample(text, name, "class", "unknown", numbers[4] as u64)
}

/// Adds the sample of the class in a row of the table, where it has one.
fn push_class(
    text: &mut String,
    name: &str,
    table: &PartitionTable,
    numbers: &[u32; 5],
    row: u8,
) -> Result<(), AllocError>
    requires { row < 4 }
    ensures { OnOk result (string_bytes text.new
        ≡ string_bytes text.old ++ class_text name.now table.now numbers.now row) }
{
    let place = usize::from(row);
    if table.len() <= place {
        return Ok(());
    }
    let class = table.name(Part::Known(row));
    push_sample(text, name, "class", class, numbers[place] as u64)
}

/// Adds how often each reply and promotion was.
fn push_decisions(text: &mut String, counters: &Counters) -> Result<(), AllocError>
    ensures { OnOk result (string_bytes text.new
        ≡ string_bytes text.old ++ decisions_text counters.now) }
{
    let name = "admission_decisions_total";
    let help = "Replies to callers, and promotions of those who waited.";
    push_head(text, name, "counter", help)?;
    let samples = [
        ("admitted", counters.admitted),
        ("bypassed", counters.bypassed),
        ("full", counters.full),
        ("backlog", counters.backlog_full),
        ("waiting", counters.waiting),
        ("promoted", counters.promoted),
        ("timed-out", counters.timed_out),
    ];
    push_samples(text, name, "decision", &samples)
}

/// Adds how often each outcome was.
fn push_outcomes(text: &mut String, counters: &Counters) -> Result<(), AllocError>
    ensures { OnOk result (string_bytes text.new
        ≡ string_bytes text.old ++ outcomes_text counters.now) }
{
    let name = "admission_outcomes_total";
    let help = "Permits that ended, by what the limit learned.";
    push_head(text, name, "counter", help)?;
    let samples = [
        ("success", counters.success),
        ("ignored", counters.ignored),
        ("dropped", counters.dropped),
    ];
    push_samples(text, name, "outcome", &samples)
}

/// Adds how often each trouble came.
fn push_troubles(text: &mut String, troubles: &Troubles) -> Result<(), AllocError>
    ensures { OnOk result (string_bytes text.new
        ≡ string_bytes text.old ++ troubles_text troubles.now) }
{
    let name = "admission_troubles_total";
    let help = "Troubles that the log tells of.";
    push_head(text, name, "counter", help)?;
    let samples = [
        ("unreached", troubles.unreached),
        ("broken", troubles.broken),
        ("backend-timeout", troubles.late),
        ("without-descriptor", troubles.without_descriptor),
        ("all-taken", troubles.all_taken),
    ];
    push_samples(text, name, "trouble", &samples)?;
    push_seen(text, name, "trouble", "bodies", troubles.bodies)
}

/// Adds how many connections to the backend there are, and what became of those that there were.
fn push_connections(text: &mut String, connections: &BackendConnections) -> Result<(), AllocError>
    ensures { OnOk result (string_bytes text.new
        ≡ string_bytes text.old ++ connections_text connections.now) }
{
    let name = "admission_backend_connections_total";
    let help = "Connections to the backend, by what became of them.";
    push_head(text, name, "counter", help)?;
    let samples = [
        ("opened", connections.opened),
        ("reused", connections.reused),
        ("stale", connections.stale),
    ];
    push_samples(text, name, "event", &samples)?;
    let help = "Connections to the backend that are open.";
    push_gauge(
        text,
        "admission_open_backend_connections",
        help,
        connections.open,
    )?;
    let help = "Open connections to the backend that wait for another request.";
    push_gauge(
        text,
        "admission_idle_backend_connections",
        help,
        connections.idle,
    )
}

/// Adds whether no connection to the backend could be made for a while.
fn push_unreached(text: &mut String, is_unreached: bool) -> Result<(), AllocError>
    ensures { OnOk result (string_bytes text.new
        ≡ string_bytes text.old ++ unreached_text is_unreached) }
{
    let help = "1 if connections to the backend were tried for ten seconds and none was made.";
    let value = if is_unreached { 1 } else { 0 };
    push_gauge(text, "admission_backend_unreached", help, value)
}

/// Adds how many connections of clients wait, and what became of those that there were.
fn push_clients(text: &mut String, clients: &ClientConnections) -> Result<(), AllocError>
    ensures { OnOk result (string_bytes text.new
        ≡ string_bytes text.old ++ clients_text clients.now) }
{
    let name = "admission_client_connections_total";
    let help = "Connections of clients, by what became of them.";
    push_head(text, name, "counter", help)?;
    let samples = [
        ("opened", clients.opened),
        ("reused", clients.reused),
        ("late", clients.late),
        ("displaced", clients.displaced),
    ];
    push_samples(text, name, "event", &samples)?;
    let help = "Open connections of clients that have sent nothing yet.";
    push_gauge(
        text,
        "admission_silent_client_connections",
        help,
        clients.silent,
    )?;
    let help = "Open connections of clients that wait for their next request.";
    push_gauge(
        text,
        "admission_idle_client_connections",
        help,
        clients.idle,
    )
}

/// Adds how many workers there are, and how many of them serve a client.
fn push_workers(text: &mut String, workers: &Workers) -> Result<(), AllocError>
    ensures { OnOk result (string_bytes text.new
        ≡ string_bytes text.old ++ workers_text workers.now) }
{
    let help = "Workers that the gateway was started with.";
    push_gauge(text, "admission_workers", help, workers.count as u64)?;
    let help = "Workers that serve a client.";
    push_gauge(text, "admission_busy_workers", help, workers.busy as u64)
}

/// Adds for how long the oldest permit has been out, in seconds.
fn push_oldest(text: &mut String, outstanding: &Outstanding) -> Result<(), AllocError>
    ensures { OnOk result (string_bytes text.new
        ≡ string_bytes text.old ++ oldest_text outstanding.now) }
{
    let help = "Whole seconds since the oldest permit was got that hasn't ended.";
    push_gauge(
        text,
        "admission_oldest_permit_seconds",
        help,
        outstanding.oldest_seconds,
    )
}

/// Adds for how long it has served, in seconds, and which version it is.
fn push_program(text: &mut String, seconds: u64) -> Result<(), AllocError>
    ensures { OnOk result (string_bytes text.new
        ≡ string_bytes text.old ++ program_text seconds) }
{
    let help = "Whole seconds since the start.";
    push_gauge(text, "admission_uptime_seconds", help, seconds)?;
    let name = "admission_build_info";
    let help = "Always 1, labelled with the version of the program.";
    push_head(text, name, "gauge", help)?;
    push_version(text, name)
}

/// Adds the sample of the version.
fn push_version(text: &mut String, name: &str) -> Result<(), AllocError>
    ensures { OnOk result (string_bytes text.new
        ≡ string_bytes text.old ++ sample_text name.now (codes "version") version 1) }
{
    push_sample(text, name, "version", version(), 1)
}
