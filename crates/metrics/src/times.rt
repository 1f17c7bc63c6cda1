// How long exchanges took, and what they waited for.
ghost use Rattle.std.specs.Prelude.{◌≡◌, ◌++◌, OnOk, string_bytes};
ghost use Rattle.metrics.specs.Metrics.{durations_text, times_text};

use crate::families::push_histogram;
use histogram::Histogram;
use serve_reports::TimeTally;
use std::alloc::AllocError;

/// Adds how long permits were waited for and held, and how long exchanges took.
pub(crate) fn push_durations(text: &mut String, times: &TimeTally) -> Result<(), AllocError>
    ensures { OnOk result (string_bytes text.new
        ≡ string_bytes text.old ++ durations_text times.now) }
{
    let help = "How long each permit was waited for, from its asking to its start.";
    push_times(text, "admission_permit_wait_seconds", help, &times.waited)?;
    let help = "How long each permit was held, until the backend had answered.";
    push_times(
        text,
        "admission_round_trip_seconds",
        help,
        &times.round_trip,
    )?;
    let help = "How long each client kept its worker, from its accept to its close.";
    push_times(text, "admission_exchange_seconds", help, &times.exchange)
}

/// Adds a histogram, with the bounds of its buckets in seconds.
#[tactic(auto, unfolding(crate::specs::Metrics::times_text))]
fn push_times(
    text: &mut String,
    name: &str,
    help: &str,
    histogram: &Histogram,
) -> Result<(), AllocError>
    ensures { OnOk result (string_bytes text.new
        ≡ string_bytes text.old ++ times_text name.now help.now histogram.now) }
{
    let buckets = [
        ("0.0005", histogram.counts[0]),
        ("0.001", histogram.counts[1]),
        ("0.0025", histogram.counts[2]),
        ("0.005", histogram.counts[3]),
        ("0.01", histogram.counts[4]),
        ("0.025", histogram.counts[5]),
        ("0.05", histogram.counts[6]),
        ("0.1", histogram.counts[7]),
        ("0.25", histogram.counts[8]),
        ("0.5", histogram.counts[9]),
        ("1", histogram.counts[10]),
        ("2.5", histogram.counts[11]),
        ("5", histogram.counts[12]),
        ("10", histogram.counts[13]),
        ("+Inf", histogram.count),
    ];
    push_histogram(text, name, help, &buckets, histogram.sum, histogram.count)
}
