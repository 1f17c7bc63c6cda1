// The calls of a trace once its settings are over.
ghost use Rattle.std.specs.Prelude.{◌≡◌, ◌<◌, ◌+◌, ◌^◌, length, IfOk};
ghost use Rattle.std.specs.Str.Lines.{lines};
ghost use Rattle.trace.specs.Calls.{after_calls, calls_of};

use super::arrival::{Arrival, read_arrival};
use partitions::PartitionTable;
use script::{LineFault, next_line};
use std::alloc::AllocError;

/// Adds the calls of lines, the first of which has this number, up to their end or to the first one
/// at fault.
pub(crate) fn read_calls(
    arrivals: &mut Vec<Arrival>,
    table: &PartitionTable,
    text: &[u8],
    first: u64,
) -> Result<Option<LineFault>, AllocError>
    requires { first + length text.now < 2 ^ 64 }
    ensures { IfOk result (λ fault. record { arrivals = arrivals.new.items; fault = fault }
        ≡ after_calls arrivals.old.items (calls_of table.now first (lines text.now))) }
{
    let mut rest = text;
    let mut number = first;
    while let Some((line, after)) = next_line(rest) {
        match read_arrival(table, line) {
            Ok(None) => {}
            Ok(Some(arrival)) => arrivals.push(arrival)?,
            Err(why) => return Ok(Some(LineFault { line: number, why })),
        }
        rest = after;
        number += 1;
    }
    Ok(None)
}
