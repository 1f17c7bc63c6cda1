// Which key isn't allowed where it stands.
use crate::faults::{Source, show_place};
use crate::members::member_of;
use gate_config::{AllowedKeys, Section, UnknownAtFault};
use std::alloc::AllocError;

/// Says where the key stands that isn't allowed, and which are.
pub(crate) fn explain_unknown(
    out: &mut String,
    source: Source<'_>,
    at: &UnknownAtFault,
) -> Result<(), AllocError> {
    let section = at.section();
    let member = member_of(source.table, section, at.member());
    show_place(out, source.text, section, member, at.name())?;
    let path = at.path();
    write!(out, "{path} isn't a key here; those that are:")?;
    say_keys(out, at.keys())?;
    explain_window(out, section, path)
}

/// Says which keys a section may have, to the end of the line.
fn say_keys(out: &mut String, keys: AllowedKeys) -> Result<(), AllocError> {
    for key in keys.listed() {
        if keys.allows(*key) {
            let name = key.name();
            write!(out, " {name}")?;
        }
    }
    out.push_str("\n")
}

/// Says of a table of windows, which stands beside each limit but one, why it doesn't here.
fn explain_window(out: &mut String, section: Section, path: &str) -> Result<(), AllocError> {
    match (section, path) {
        (Section::Top, "window") => out.push_str(
            "limit.kind = \"auto\" counts windows of its own, of as many answers as the limit\n",
        ),
        _ => Ok(()),
    }
}
