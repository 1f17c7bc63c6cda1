// The keys of resolvers.
ghost use Rattle.std.specs.BTreeMap.{values};
ghost use Rattle.std.specs.List.{list_all};
ghost use Rattle.std.specs.Prelude.{◌≡◌, [], codes, Ok, Some, None, is_some, length, map, option_map, if◌then◌else◌};
ghost use Rattle.toml.specs.Data.{as_str, get_member};
ghost use Rattle.toml.specs.View.{table_view, view};
ghost use Rattle.gate_config.specs.Rows.{name_of, resolver_kinds, resolver_rows};
ghost use Rattle.gate_config.specs.Outcomes.{Answers, Settles, of_member, result_map};
ghost use Rattle.gate_config.specs.Table.{pairs_of, tables_among};
ghost use Rattle.gate_config.specs.Text.{is_among, string_of, text_from};
ghost use Rattle.gate_config.specs.ClassRows.{class_row, is_class};
ghost use Rattle.gate_config.specs.Resolver.{resolver_after, resolver_member, resolver_values, resolver_word};
ghost use Rattle.gate_config.specs.Routes.{routes_from, routes_of};
ghost use Rattle.gate_config.specs.Section.{names_of, read_each, section_values};

use crate::class::{ClassKeys, class_name, is_class};
use crate::{ConfigFault, Key, KeyAtFault, read_table, read_text, read_token, string_of};
use std::alloc::{AllocError, Global};
use toml::{Table, Value};

/// The most routes of a resolver.
const MOST_ROUTES: usize = 256;

/// What a resolver reads.
#[derive(Clone, Copy)]
pub enum ResolverKind {
    Header,
    Method,
    Route,
}

impl ResolverKind {
    /// The kind of this word.
    fn named(word: &str) -> Option<ResolverKind>
        ensures { option_map resolver_word result
            ≡ if is_among resolver_kinds word.now then Some word.now else None }
    {
        match word {
            "header" => Some(ResolverKind::Header),
            "method" => Some(ResolverKind::Method),
            "route" => Some(ResolverKind::Route),
            _ => None,
        }
    }
}

/// The keys of a resolver, by its kind, as they stand in the text.
#[derive(Clone, Copy)]
pub enum ResolverKeys<'a> {
    /// The header's name.
    Header(&'a str),
    Method {
        method: &'a str,
        /// The class's name.
        class: &'a str,
    },
    /// The patterns, each with its class's name.
    Route(&'a Table),
}

impl ResolverKeys<'_> {
    /// The keys that a resolver of this kind has.
    pub fn keys(&self) -> &'static [Key]
        ensures { map name_of result.now ≡ names_of resolver_rows (resolver_values self.now) }
    {
        match self {
            ResolverKeys::Header(_) => &[Key::ResolverKind, Key::ResolverHeader],
            ResolverKeys::Method { .. } => &[
                Key::ResolverKind,
                Key::ResolverMethod,
                Key::ResolverClass,
            ],
            ResolverKeys::Route(_) => &[Key::ResolverKind, Key::ResolverRoutes],
        }
    }
}

/// Answers the first fault of the keys of resolvers. Takes no memory.
pub fn check_resolvers(classes: &[ClassKeys], items: &[Value]) -> Result<(), ConfigFault>
    ensures { Settles
        (read_each (resolver_after (map class_row classes.now)) [] (tables_among items.now))
        result }
{
    let mut place = 0;
    for item in items {
        if let Some(table) = item.as_table() {
            read_member(classes, place, table)?;
            place += 1;
        }
    }
    Ok(())
}

/// The resolvers, each with its table.
pub fn read_resolvers<'a>(
    alloc: Global,
    classes: &[ClassKeys],
    items: &'a [Value],
) -> Result<Vec<(&'a Table, ResolverKeys<'a>)>, ConfigFault>
    ensures { Answers (λ resolvers. map resolver_member resolvers.items)
        (read_each (resolver_after (map class_row classes.now)) [] (tables_among items.now))
        result }
{
    let mut resolvers = Vec::new(alloc);
    for item in items {
        if let Some(table) = item.as_table() {
            let keys = read_member(classes, resolvers.len(), table)?;
            resolvers.push((table, keys)).map_err(AllocError::from)?;
        }
    }
    Ok(resolvers)
}

/// The keys of a resolver among these classes, and of a fault which resolver it is, counted from 0.
fn read_member<'a>(
    classes: &[ClassKeys],
    place: usize,
    table: &'a Table,
) -> Result<ResolverKeys<'a>, ConfigFault>
    ensures { result_map resolver_values result ≡ of_member place
        (section_values (map class_row classes.now) resolver_rows (table_view table.now)) }
{
    match read_resolver(classes, table) {
        Ok(keys) => Ok(keys),
        Err(fault) => Err(fault.of_member(place)),
    }
}

/// The keys of a resolver among these classes.
fn read_resolver<'a>(
    classes: &[ClassKeys],
    table: &'a Table,
) -> Result<ResolverKeys<'a>, ConfigFault>
    ensures { result_map resolver_values result
        ≡ section_values (map class_row classes.now) resolver_rows (table_view table.now) }
{
    match resolver_kind(table)? {
        ResolverKind::Header => Ok(ResolverKeys::Header(read_token(table, Key::ResolverHeader)?)),
        ResolverKind::Method => read_method(classes, table),
        ResolverKind::Route => Ok(ResolverKeys::Route(routes_at(classes, table)?)),
    }
}

/// The word at `resolver.kind`.
fn resolver_kind(table: &Table) -> Result<ResolverKind, ConfigFault>
    ensures { result_map resolver_word result
        ≡ text_from Key.ResolverKind (is_among resolver_kinds)
        (get_member (name_of Key.ResolverKind) (table_view table.now)) }
{
    match ResolverKind::named(read_text(table, Key::ResolverKind)?) {
        Some(kind) => Ok(kind),
        None => Err(ConfigFault::Value(KeyAtFault::plain(Key::ResolverKind))),
    }
}

/// The keys of a resolver by method.
fn read_method<'a>(classes: &[ClassKeys], table: &'a Table) -> Result<ResolverKeys<'a>, ConfigFault>
    requires { text_from Key.ResolverKind (is_among resolver_kinds)
        (get_member (name_of Key.ResolverKind) (table_view table.now)) ≡ Ok (codes "method") }
    ensures { result_map resolver_values result
        ≡ section_values (map class_row classes.now) resolver_rows (table_view table.now) }
{
    let method = read_token(table, Key::ResolverMethod)?;
    let class = class_name(classes, table, Key::ResolverClass)?;
    Ok(ResolverKeys::Method { method, class })
}

/// The table of patterns, each with the name of a class.
fn routes_at<'a>(classes: &[ClassKeys], table: &'a Table) -> Result<&'a Table, ConfigFault>
    ensures { result_map (λ t. routes_of (table_view t.now)) result
        ≡ routes_from Key.ResolverRoutes (map class_row classes.now)
        (get_member (name_of Key.ResolverRoutes) (table_view table.now)) }
{
    let routes = read_table(table, Key::ResolverRoutes)?;
    if !are_strings(routes) {
        return Err(ConfigFault::Kind(KeyAtFault::plain(Key::ResolverRoutes)));
    }
    if count_of(routes) <= MOST_ROUTES && are_classes(classes, routes) {
        Ok(routes)
    } else {
        Err(ConfigFault::Value(KeyAtFault::plain(Key::ResolverRoutes)))
    }
}

/// How many patterns there are.
fn count_of(routes: &Table) -> usize
    ensures { result ≡ length (pairs_of (table_view routes.now)) }
{
    routes.len()
}

/// Whether each pattern has a text.
fn are_strings(routes: &Table) -> bool
    ensures { result
        ≡ list_all (λ pair. is_some (as_str pair.1)) (pairs_of (table_view routes.now)) }
{
    have_strings(routes)
}

/// Whether each value is a text.
fn have_strings(routes: &Table) -> bool
    ensures { result ≡ list_all (λ value. is_some (as_str (view value))) (values routes.now) }
{
    routes.values().all(|value| value.is_str())
}

/// Whether each pattern has the name of a class.
fn are_classes(classes: &[ClassKeys], routes: &Table) -> bool
    ensures { result ≡ list_all (λ pair. is_class (map class_row classes.now) (string_of pair.1))
        (pairs_of (table_view routes.now)) }
{
    have_classes(classes, routes)
}

/// Whether each value is the name of a class.
fn have_classes(classes: &[ClassKeys], routes: &Table) -> bool
    ensures { result
        ≡ list_all (λ value. is_class (map class_row classes.now) (string_of (view value)))
        (values routes.now) }
{
    routes
        .values()
        .all(|value| is_class(classes, string_of(value)))
}
