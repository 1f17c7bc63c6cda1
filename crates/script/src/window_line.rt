// The lines that give windows, with their numbers as they stand.
ghost use Rattle.std.specs.Prelude.{◌≡◌};
ghost use Rattle.script.specs.Words.{words};
ghost use Rattle.script.specs.WindowLine.{window_line};

use super::numbers::{next_count, next_number, read_number_pair};
use windowed::WindowNumbers;

/// What follows `window`.
pub(crate) fn read_window(line: &[u8]) -> Option<WindowNumbers>
    ensures { result ≡ window_line (words line.now) }
{
    let (size, line) = next_count(line)?;
    let (min_window_ns, line) = next_number(line)?;
    let (max_window_ns, min_rtt_ns) = read_number_pair(line)?;
    Some(WindowNumbers {
        size,
        min_window_ns,
        max_window_ns,
        min_rtt_ns,
    })
}
