// One call of a trace.
ghost use Rattle.std.specs.Prelude.{◌≡◌, ok_or, option_map};
ghost use Rattle.script.specs.Words.{words, result_map};
ghost use Rattle.script.specs.Arrival.{arrival_bytes};
ghost use Rattle.script.specs.TraceLine.{trace_line_of};
ghost use Rattle.trace.specs.Calls.{call_of, call_at};

use limiter_core::Outcome;
use partitions::{Part, PartitionTable};
use script::{ArrivalLine, FaultKind, TraceLine, read_part, read_trace_line};

/// A call that comes at a moment, and holds its permit for so long, if it gets one.
#[derive(Clone, Copy)]
pub struct Arrival {
    /// The part of its class.
    pub part: Part,
    /// It goes past the limit, neither limited nor counted.
    pub bypass: bool,
    /// It waits where it finds no room.
    pub wait: bool,
    /// When it comes, in nanoseconds.
    pub at: u64,
    /// How long it holds a permit, in nanoseconds: at most an hour.
    pub duration: u64,
    /// How it ends.
    pub outcome: Outcome,
}

/// The call of a line, or that the table has no such class.
fn make_arrival(table: &PartitionTable, line: ArrivalLine<&[u8]>) -> Result<Arrival, FaultKind>
    ensures { result ≡ call_of table.now (arrival_bytes line.entry) }
{
    match line {
        ArrivalLine::Arrive {
            class,
            at,
            duration,
            outcome,
            wait,
        } => {
            let part = read_part(table, class)?;
            Ok(Arrival {
                part,
                bypass: false,
                wait,
                at,
                duration,
                outcome,
            })
        }
        ArrivalLine::Bypass { at } => Ok(Arrival {
            part: Part::Unknown,
            bypass: true,
            wait: false,
            at,
            duration: 0,
            outcome: Outcome::Success,
        }),
    }
}

/// The call of a line behind the settings; nothing where it is skipped, or why it is at fault.
pub(crate) fn read_arrival(
    table: &PartitionTable,
    line: &[u8],
) -> Result<Option<Arrival>, FaultKind>
    ensures { result ≡ call_at table.now (trace_line_of (words line.now)) }
{
    match read_trace_line(line)? {
        None => Ok(None),
        Some(TraceLine::Setting(_)) => Err(FaultKind::Late),
        Some(TraceLine::Arrival(line)) => Ok(Some(make_arrival(table, line)?)),
    }
}
