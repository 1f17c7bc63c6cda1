// What is said of the first fault of a configuration that is TOML.
ghost use Rattle.std.specs.Prelude.{◌≡◌, ◌++◌, OnOk, string_bytes};
ghost use Rattle.config_explain.specs.Explained.{ExplainsFault, ExplainsKey, ShowsPlace, key_line, member_line, range_line};

use crate::about::{about, hangs_on_others};
use crate::finding::{Line, Wanted, find_line, section_name};
use crate::members::{Member, member_of};
use crate::routes::explain_route;
use crate::unknown::explain_unknown;
use gate_config::{ConfigFault, Key, KeyAtFault, Range, Section};
use std::alloc::{AllocError, Global};
use toml::Table;

/// How many bytes of a line are shown.
const SHOWN: usize = 120;

/// A configuration: its text, and the table that it holds.
#[derive(Clone, Copy)]
pub(crate) struct Source<'a> {
    pub(crate) text: &'a str,
    pub(crate) table: &'a Table,
}

/// Says where the fault is, and what is wanted there.
pub(crate) fn explain_fault(
    out: &mut String,
    source: Source<'_>,
    fault: &ConfigFault,
) -> Result<(), AllocError>
    ensures { OnOk result
        (ExplainsFault fault.now (string_bytes out.old) (string_bytes out.new)) }
{
    match fault {
        ConfigFault::Memory | ConfigFault::Toml => Ok(()),
        ConfigFault::Version => explain_key(out, source, KeyAtFault::plain(Key::Version), false),
        ConfigFault::Missing(at) => explain_key(out, source, *at, true),
        ConfigFault::Kind(at) | ConfigFault::Value(at) => explain_key(out, source, *at, false),
        ConfigFault::Unknown(at) => explain_unknown(out, source, at),
        ConfigFault::Route => explain_route(out, source),
    }
}

/// Says where a key stands, or the table that wants it, and what the key holds.
fn explain_key(
    out: &mut String,
    source: Source<'_>,
    at: KeyAtFault,
    is_missing: bool,
) -> Result<(), AllocError>
    ensures { OnOk result
        (ExplainsKey at is_missing (string_bytes out.old) (string_bytes out.new)) }
{
    let section = at.key.section();
    let member = member_of(source.table, section, at.member);
    show_place(out, source.text, section, member, at.key.name())?;
    push_key(out, at.key, is_missing, about(at.key))?;
    push_range(out, at)
}

/// Says of a key whether it isn't there, and what it holds.
fn push_key(out: &mut String, key: Key, is_missing: bool, held: &str) -> Result<(), AllocError>
    ensures { OnOk result
        (string_bytes out.new ≡ string_bytes out.old ++ key_line key is_missing held.now) }
{
    let (prefix, name) = (key.section().prefix(), key.name());
    let absent = if is_missing { " isn't there" } else { "" };
    write!(out, "{prefix}{name}{absent}: {held}\n")
}

/// Says which numbers a key may hold here, where that hangs on other keys.
fn push_range(out: &mut String, at: KeyAtFault) -> Result<(), AllocError>
    ensures { OnOk result (string_bytes out.new ≡ string_bytes out.old ++ range_line at) }
{
    if !hangs_on_others(at.key) {
        return Ok(());
    }
    match at.range {
        Some(Range { low, high, .. }) => write!(out, "here from {low} to {high}\n"),
        None => Ok(()),
    }
}

/// Shows of an array which member it is, and the line of a key or that at which its table begins.
pub(crate) fn show_place(
    out: &mut String,
    text: &str,
    section: Section,
    member: Option<Member>,
    name: &str,
) -> Result<(), AllocError>
    ensures { OnOk result
        (ShowsPlace section member (string_bytes out.old) (string_bytes out.new)) }
{
    push_member(out, section, member)?;
    let wanted = Wanted {
        section,
        member: member.map_or(0, |member| member.place),
        name,
    };
    let line = line_shown(*out.allocator(), find_line(text, wanted))?;
    out.push_str(&line)
}

/// Says which member of its array it is, and how many there are.
fn push_member(out: &mut String, section: Section, member: Option<Member>) -> Result<(), AllocError>
    ensures { OnOk result
        (string_bytes out.new ≡ string_bytes out.old ++ member_line section member) }
{
    match member {
        Some(Member { place, count }) => {
            let (array, number) = (section_name(section), place.saturating_add(1));
            write!(out, "{array} {number} of {count}\n")
        }
        None => Ok(()),
    }
}

/// A line with its number; nothing where there is none.
fn line_shown(alloc: Global, line: Option<Line<'_>>) -> Result<String, AllocError> {
    let mut shown = String::new(alloc);
    if let Some(Line { number, text }) = line {
        write!(shown, "line {number}: ")?;
        for c in text.trim().chars().take(SHOWN) {
            shown.push(if c.is_control() { ' ' } else { c })?;
        }
        shown.push_str("\n")?;
    }
    Ok(shown)
}
