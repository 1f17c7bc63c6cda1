// What a line says.
ghost use Rattle.std.specs.Prelude.{◌≡◌, option_map};
ghost use Rattle.script.specs.Words.{words, result_map};
ghost use Rattle.script.specs.Line.{line_of, line_bytes};

use super::fault_kind::FaultKind;
use super::request::{Request, read_request};
use super::setting::{Setting, read_setting};
use super::words::{is_comment, next_word};

/// A line that isn't skipped. A class is told by a `C`, as a line is read by its name.
#[derive(Drop)]
pub enum Line<C> {
    /// A setting.
    Setting(Setting<C>),
    /// What is asked of the limiter.
    Request(Request<C>),
}

/// What a line says: nothing where it has no words or is a comment, whose first word begins with
/// `#`.
///
/// [`FaultKind::Words`] where no line has this format, and [`FaultKind::Value`] where a `set` has a
/// limit past 32 bits. The numbers of a setting may be out of their ranges yet.
pub fn read_line(line: &[u8]) -> Result<Option<Line<&[u8]>>, FaultKind>
    ensures { result_map (option_map line_bytes) result ≡ line_of (words line.now) }
{
    let Some((first, line)) = next_word(line) else {
        return Ok(None);
    };
    if is_comment(first) {
        return Ok(None);
    }
    if let Some(setting) = read_setting(first, line) {
        return Ok(Some(Line::Setting(setting)));
    }
    Ok(Some(Line::Request(read_request(first, line)?)))
}
