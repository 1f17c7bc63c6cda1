// The keys of bypass rules.
ghost use Rattle.std.specs.Prelude.{◌≡◌, [], Ok, Some, None, codes, map, option_map, if◌then◌else◌};
ghost use Rattle.toml.specs.Data.{get_member};
ghost use Rattle.toml.specs.View.{table_view};
ghost use Rattle.gate_config.specs.Rows.{bypass_kinds, bypass_rows, name_of};
ghost use Rattle.gate_config.specs.Outcomes.{Answers, Settles, of_member, result_map};
ghost use Rattle.gate_config.specs.Table.{tables_among};
ghost use Rattle.gate_config.specs.Text.{is_among, text_from};
ghost use Rattle.gate_config.specs.Bypass.{bypass_after, bypass_member, bypass_values, bypass_word};
ghost use Rattle.gate_config.specs.Section.{names_of, read_each, section_values};

use crate::{ConfigFault, Key, KeyAtFault, read_prefix, read_text, read_token};
use std::alloc::{AllocError, Global};
use toml::{Table, Value};

/// What a bypass rule looks at.
#[derive(Clone, Copy)]
pub enum BypassKind {
    Method,
    Prefix,
    Header,
}

impl BypassKind {
    /// The kind of this word.
    fn named(word: &str) -> Option<BypassKind>
        ensures { option_map bypass_word result
            ≡ if is_among bypass_kinds word.now then Some word.now else None }
    {
        match word {
            "method" => Some(BypassKind::Method),
            "prefix" => Some(BypassKind::Prefix),
            "header" => Some(BypassKind::Header),
            _ => None,
        }
    }
}

/// The keys of a bypass rule, by its kind, as they stand in the text.
#[derive(Clone, Copy)]
pub enum BypassKeys<'a> {
    /// The method.
    Method(&'a str),
    /// What the path begins with.
    Prefix(&'a str),
    Header {
        /// The header's name.
        header: &'a str,
        /// The header's value.
        equals: &'a str,
    },
}

impl BypassKeys<'_> {
    /// The keys that a rule of this kind has.
    pub fn keys(&self) -> &'static [Key]
        ensures { map name_of result.now ≡ names_of bypass_rows (bypass_values self.now) }
    {
        match self {
            BypassKeys::Method(_) => &[Key::BypassKind, Key::BypassMethod],
            BypassKeys::Prefix(_) => &[Key::BypassKind, Key::BypassPrefix],
            BypassKeys::Header { .. } => &[Key::BypassKind, Key::BypassHeader, Key::BypassEquals],
        }
    }
}

/// Answers the first fault of the keys of bypass rules. Takes no memory.
pub fn check_bypasses(items: &[Value]) -> Result<(), ConfigFault>
    ensures { Settles (read_each bypass_after [] (tables_among items.now)) result }
{
    let mut place = 0;
    for item in items {
        if let Some(table) = item.as_table() {
            read_member(place, table)?;
            place += 1;
        }
    }
    Ok(())
}

/// The bypass rules, each with its table.
pub fn read_bypasses<'a>(
    alloc: Global,
    items: &'a [Value],
) -> Result<Vec<(&'a Table, BypassKeys<'a>)>, ConfigFault>
    ensures { Answers (λ rules. map bypass_member rules.items)
        (read_each bypass_after [] (tables_among items.now)) result }
{
    let mut rules = Vec::new(alloc);
    for item in items {
        if let Some(table) = item.as_table() {
            let keys = read_member(rules.len(), table)?;
            rules.push((table, keys)).map_err(AllocError::from)?;
        }
    }
    Ok(rules)
}

/// The keys of a bypass rule, and of a fault which rule it is, counted from 0.
fn read_member<'a>(place: usize, table: &'a Table) -> Result<BypassKeys<'a>, ConfigFault>
    ensures { result_map bypass_values result
        ≡ of_member place (section_values [] bypass_rows (table_view table.now)) }
{
    match read_bypass(table) {
        Ok(keys) => Ok(keys),
        Err(fault) => Err(fault.of_member(place)),
    }
}

/// The keys of a bypass rule.
fn read_bypass<'a>(table: &'a Table) -> Result<BypassKeys<'a>, ConfigFault>
    ensures { result_map bypass_values result
        ≡ section_values [] bypass_rows (table_view table.now) }
{
    match bypass_kind(table)? {
        BypassKind::Method => Ok(BypassKeys::Method(read_token(table, Key::BypassMethod)?)),
        BypassKind::Prefix => Ok(BypassKeys::Prefix(read_prefix(table, Key::BypassPrefix)?)),
        BypassKind::Header => read_header(table),
    }
}

/// The word at `bypass.kind`.
fn bypass_kind(table: &Table) -> Result<BypassKind, ConfigFault>
    ensures { result_map bypass_word result
        ≡ text_from Key.BypassKind (is_among bypass_kinds)
        (get_member (name_of Key.BypassKind) (table_view table.now)) }
{
    match BypassKind::named(read_text(table, Key::BypassKind)?) {
        Some(kind) => Ok(kind),
        None => Err(ConfigFault::Value(KeyAtFault::plain(Key::BypassKind))),
    }
}

/// The keys of a rule by header.
fn read_header<'a>(table: &'a Table) -> Result<BypassKeys<'a>, ConfigFault>
    requires { text_from Key.BypassKind (is_among bypass_kinds)
        (get_member (name_of Key.BypassKind) (table_view table.now)) ≡ Ok (codes "header") }
    ensures { result_map bypass_values result
        ≡ section_values [] bypass_rows (table_view table.now) }
{
    let header = read_token(table, Key::BypassHeader)?;
    let equals = read_text(table, Key::BypassEquals)?;
    Ok(BypassKeys::Header { header, equals })
}
