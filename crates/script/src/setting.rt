// The lines that set.
ghost use Rattle.std.specs.Prelude.{◌≡◌, option_map};
ghost use Rattle.script.specs.Words.{words};
ghost use Rattle.script.specs.Setting.{class_line, share_line, places_line, rolling_of, keep_line, rule_of, setting_of, setting_bytes};

use super::limit_line::read_limit;
use super::numbers::{next_number, read_lone_number};
use super::window_line::read_window;
use super::words::{is_word, next_word};
use limit_kinds::LimitSpec;
use limiter_core::Promote;
use windowed::WindowNumbers;

/// A setting, whose numbers may be out of their ranges. A class is told by a `C`, as a line is read
/// by its name.
#[derive(Drop)]
pub enum Setting<C> {
    /// The limit.
    Limit(LimitSpec),
    /// Windows over it.
    Window(WindowNumbers),
    /// One more class, and its percentage of the limit.
    Class { name: C, percent: u64 },
    /// One more class, and its share of the limit in thousandths.
    Share { name: C, thousandths: u64 },
    /// How many places of the backlog are a class's own.
    Places { name: C, places: u64 },
    /// How many may wait, beside the classes' own places.
    Backlog { room: u64 },
    /// How many entries of the history are kept, and whether it rolls.
    Keep { entries: u64, is_rolling: bool },
    /// How long a caller of a trace waits, in nanoseconds; a script may say it, and it counts for
    /// nothing there.
    Timeout { nanos: u64 },
    /// Which waiters are promoted.
    Promotion { rule: Promote },
}

/// What follows `class`: a name, and a percentage.
fn read_class(line: &[u8]) -> Option<Setting<&[u8]>>
    ensures { option_map setting_bytes result ≡ class_line (words line.now) }
{
    let (name, line) = next_word(line)?;
    let percent = read_lone_number(line)?;
    Some(Setting::Class { name, percent })
}

/// What follows `share`: a name, and thousandths.
fn read_share(line: &[u8]) -> Option<Setting<&[u8]>>
    ensures { option_map setting_bytes result ≡ share_line (words line.now) }
{
    let (name, line) = next_word(line)?;
    let thousandths = read_lone_number(line)?;
    Some(Setting::Share { name, thousandths })
}

/// What follows `places`: a name, and how many.
fn read_places(line: &[u8]) -> Option<Setting<&[u8]>>
    ensures { option_map setting_bytes result ≡ places_line (words line.now) }
{
    let (name, line) = next_word(line)?;
    let places = read_lone_number(line)?;
    Some(Setting::Places { name, places })
}

/// Whether the rest of a line says `rolling`; nothing where it says anything else.
fn read_rolling(line: &[u8]) -> Option<bool>
    ensures { result ≡ rolling_of (words line.now) }
{
    let Some((word, line)) = next_word(line) else {
        return Some(false);
    };
    if next_word(line).is_some() || !is_word(word, "rolling") {
        return None;
    }
    Some(true)
}

/// What follows `keep`: a number, and `rolling` or nothing.
fn read_keep(line: &[u8]) -> Option<Setting<&[u8]>>
    ensures { option_map setting_bytes result ≡ keep_line (words line.now) }
{
    let (entries, line) = next_number(line)?;
    let is_rolling = read_rolling(line)?;
    Some(Setting::Keep {
        entries,
        is_rolling,
    })
}

/// The rule of promotion that a line names; nothing where it says anything else.
fn read_rule(line: &[u8]) -> Option<Promote>
    ensures { result ≡ rule_of (words line.now) }
{
    let (word, line) = next_word(line)?;
    if next_word(line).is_some() {
        return None;
    }
    if is_word(word, "newest") {
        Some(Promote::Newest)
    } else if is_word(word, "all") {
        Some(Promote::All)
    } else {
        None
    }
}

/// The setting of a line by its first word and the rest; nothing where it has no setting's format.
pub(crate) fn read_setting<'a>(first: &[u8], line: &'a [u8]) -> Option<Setting<&'a [u8]>>
    ensures { option_map setting_bytes result ≡ setting_of first.now (words line.now) }
{
    if is_word(first, "limit") {
        Some(Setting::Limit(read_limit(line)?))
    } else if is_word(first, "window") {
        Some(Setting::Window(read_window(line)?))
    } else if is_word(first, "class") {
        read_class(line)
    } else if is_word(first, "share") {
        read_share(line)
    } else if is_word(first, "places") {
        read_places(line)
    } else if is_word(first, "backlog") {
        let room = read_lone_number(line)?;
        Some(Setting::Backlog { room })
    } else if is_word(first, "keep") {
        read_keep(line)
    } else if is_word(first, "timeout") {
        let nanos = read_lone_number(line)?;
        Some(Setting::Timeout { nanos })
    } else if is_word(first, "promote") {
        let rule = read_rule(line)?;
        Some(Setting::Promotion { rule })
    } else {
        None
    }
}
