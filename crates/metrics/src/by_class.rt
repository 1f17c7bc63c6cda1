// What became of the requests of each class.
ghost use Rattle.std.specs.Prelude.{◌≡◌, ◌++◌, ◌<◌, OnOk, string_bytes};
ghost use Rattle.metrics.specs.Metrics.{class_ended_text, class_outcomes_text, class_promoted_text};
ghost use Rattle.metrics.specs.Metrics.{class_refused_text, ended_text, promoted_text};
ghost use Rattle.metrics.specs.Metrics.{refusals_text, refused_text};

use crate::families::{push_head, push_of_class, push_sample};
use partitions::{Part, PartitionTable};
use serve_reports::{OutcomeTally, RefusalTally};
use std::alloc::AllocError;

/// Adds how many requests of each class the gate refused for each cause, and of callers of none.
pub(crate) fn push_refusals(
    text: &mut String,
    table: &PartitionTable,
    tally: &RefusalTally,
) -> Result<(), AllocError>
    ensures { OnOk result (string_bytes text.new
        ≡ string_bytes text.old ++ refusals_text table.now tally.now) }
{
    let help = "Requests of a class that the gate refused, by the cause.";
    push_head(text, "admission_class_refused_total", "counter", help)?;
    push_class_refused(text, table, tally, 0)?;
    push_class_refused(text, table, tally, 1)?;
    push_class_refused(text, table, tally, 2)?;
    push_class_refused(text, table, tally, 3)?;
    push_refused(text, "unknown", tally, 4)
}

/// Adds the refusals of the class in a row of the table, where it has one.
fn push_class_refused(
    text: &mut String,
    table: &PartitionTable,
    tally: &RefusalTally,
    row: u8,
) -> Result<(), AllocError>
    requires { row < 4 }
    ensures { OnOk result (string_bytes text.new
        ≡ string_bytes text.old ++ class_refused_text table.now tally.now row) }
{
    let place = usize::from(row);
    if table.len() <= place {
        return Ok(());
    }
    push_refused(text, table.name(Part::Known(row)), tally, place)
}

/// Adds the refusals of a class, by the cause.
fn push_refused(
    text: &mut String,
    class: &str,
    tally: &RefusalTally,
    place: usize,
) -> Result<(), AllocError>
    requires { place < 5 }
    ensures { OnOk result (string_bytes text.new
        ≡ string_bytes text.old ++ refused_text class.now tally.now place) }
{
    let name = "admission_class_refused_total";
    push_of_class(text, name, class, "cause", "full", tally.full[place])?;
    push_of_class(text, name, class, "cause", "backlog", tally.backlog[place])?;
    push_of_class(
        text,
        name,
        class,
        "cause",
        "timed-out",
        tally.timed_out[place],
    )
}

/// Adds how many permits of each class ended with each outcome, and of callers of none.
pub(crate) fn push_class_outcomes(
    text: &mut String,
    table: &PartitionTable,
    tally: &OutcomeTally,
) -> Result<(), AllocError>
    ensures { OnOk result (string_bytes text.new
        ≡ string_bytes text.old ++ class_outcomes_text table.now tally.now) }
{
    let help = "Permits of a class that ended, by what the limit learned.";
    push_head(text, "admission_class_outcomes_total", "counter", help)?;
    push_class_ended(text, table, tally, 0)?;
    push_class_ended(text, table, tally, 1)?;
    push_class_ended(text, table, tally, 2)?;
    push_class_ended(text, table, tally, 3)?;
    push_ended(text, "unknown", tally, 4)
}

/// Adds how many permits of each class were waited for, and of callers of none.
pub(crate) fn push_class_promoted(
    text: &mut String,
    table: &PartitionTable,
    tally: &OutcomeTally,
) -> Result<(), AllocError>
    ensures { OnOk result (string_bytes text.new
        ≡ string_bytes text.old ++ class_promoted_text table.now tally.now) }
{
    let name = "admission_class_promoted_total";
    let help = "Permits of a class that their callers waited for.";
    push_head(text, name, "counter", help)?;
    push_promoted(text, table, tally, 0)?;
    push_promoted(text, table, tally, 1)?;
    push_promoted(text, table, tally, 2)?;
    push_promoted(text, table, tally, 3)?;
    push_sample(text, name, "class", "unknown", tally.promoted[4])
}

/// Adds those of the class in a row of the table, where it has one.
fn push_promoted(
    text: &mut String,
    table: &PartitionTable,
    tally: &OutcomeTally,
    row: u8,
) -> Result<(), AllocError>
    requires { row < 4 }
    ensures { OnOk result (string_bytes text.new
        ≡ string_bytes text.old ++ promoted_text table.now tally.now row) }
{
    let place = usize::from(row);
    if table.len() <= place {
        return Ok(());
    }
    let name = "admission_class_promoted_total";
    let class = table.name(Part::Known(row));
    push_sample(text, name, "class", class, tally.promoted[place])
}

/// Adds the permits of the class in a row of the table, where it has one.
fn push_class_ended(
    text: &mut String,
    table: &PartitionTable,
    tally: &OutcomeTally,
    row: u8,
) -> Result<(), AllocError>
    requires { row < 4 }
    ensures { OnOk result (string_bytes text.new
        ≡ string_bytes text.old ++ class_ended_text table.now tally.now row) }
{
    let place = usize::from(row);
    if table.len() <= place {
        return Ok(());
    }
    push_ended(text, table.name(Part::Known(row)), tally, place)
}

/// Adds how many permits of a class ended, by the outcome.
fn push_ended(
    text: &mut String,
    class: &str,
    tally: &OutcomeTally,
    place: usize,
) -> Result<(), AllocError>
    requires { place < 5 }
    ensures { OnOk result (string_bytes text.new
        ≡ string_bytes text.old ++ ended_text class.now tally.now place) }
{
    let name = "admission_class_outcomes_total";
    push_of_class(
        text,
        name,
        class,
        "outcome",
        "success",
        tally.success[place],
    )?;
    push_of_class(
        text,
        name,
        class,
        "outcome",
        "ignored",
        tally.ignored[place],
    )?;
    push_of_class(
        text,
        name,
        class,
        "outcome",
        "dropped",
        tally.dropped[place],
    )
}
