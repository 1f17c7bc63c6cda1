// What a line of a trace says.
ghost use Rattle.std.specs.Prelude.{◌≡◌, option_map};
ghost use Rattle.script.specs.Words.{words, result_map};
ghost use Rattle.script.specs.TraceLine.{trace_line_of, trace_line_bytes};

use super::arrival::{ArrivalLine, read_arrival};
use super::fault_kind::FaultKind;
use super::setting::{Setting, read_setting};
use super::words::{is_comment, next_word};

/// A line of a trace that isn't skipped. A class is told by a `C`, as a line is read by its name.
#[derive(Drop)]
pub enum TraceLine<C> {
    /// A setting, as a script has it.
    Setting(Setting<C>),
    /// A call.
    Arrival(ArrivalLine<C>),
}

/// What a line of a trace says: nothing where it has no words or is a comment, whose first word
/// begins with `#`.
///
/// [`FaultKind::Words`] where no line of a trace has this format, and [`FaultKind::Value`] where a
/// permit is held for longer than an hour. The numbers of a setting may be out of their ranges yet.
pub fn read_trace_line(line: &[u8]) -> Result<Option<TraceLine<&[u8]>>, FaultKind>
    ensures { result_map (option_map trace_line_bytes) result ≡ trace_line_of (words line.now) }
{
    let Some((first, line)) = next_word(line) else {
        return Ok(None);
    };
    if is_comment(first) {
        return Ok(None);
    }
    if let Some(setting) = read_setting(first, line) {
        return Ok(Some(TraceLine::Setting(setting)));
    }
    Ok(Some(TraceLine::Arrival(read_arrival(first, line)?)))
}
