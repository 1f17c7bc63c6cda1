// All keys of a configuration, section by section.
ghost use Rattle.std.specs.Option.{ForSome};
ghost use Rattle.std.specs.Prelude.{◌≡◌, ◌+◌, ◌≤◌, [], Err, IfErr, IfOk, IsErrOf, IsOk, map, option_map};
ghost use Rattle.toml.specs.View.{table_view};
ghost use Rattle.partitions.specs.Table.{placed};
ghost use Rattle.windowed.specs.WindowedRules.{windows_made};
ghost use Rattle.limit_kinds.specs.Kinds.{limit_made};
ghost use Rattle.gate_config.specs.declared.fault.ConfigFault.{ConfigFault as FaultValue};
ghost use Rattle.gate_config.specs.Outcomes.{Answers, result_map};
ghost use Rattle.gate_config.specs.Table.{tables_among};
ghost use Rattle.gate_config.specs.Bypass.{bypass_after};
ghost use Rattle.gate_config.specs.ClassRows.{class_row};
ghost use Rattle.gate_config.specs.Resolver.{resolver_after};
ghost use Rattle.gate_config.specs.Section.{read_each};
ghost use Rattle.gate_config.specs.Top.{IsTop};
ghost use Rattle.gate_config.specs.Document.{bypasses_of, classes_in, document_of, document_values, limit_member, limit_of, resolvers_of, rule_values, rules_of, tables_and_rows, window_member, window_of};

use crate::{
    BypassKeys, ClassKeys, ConfigFault, Key, ResolverKeys, TopKeys, Version, check_bypasses,
    check_resolvers, read_bypasses, read_classes, read_limit, read_optional_table, read_resolvers,
    read_table, read_tables, read_top, read_window,
};
use arrayvec::ArrayVec;
use limit_kinds::LimitSpec;
use std::alloc::Global;
use toml::{Table, Value};
use windowed::WindowNumbers;

/// The most resolvers, and the most bypass rules.
const MOST_RULES: usize = 32;

/// Every key of a configuration, with the tables that hold them.
#[derive(Drop)]
pub struct Document<'a> {
    pub top: TopKeys,
    pub limit: (&'a Table, LimitSpec),
    pub window: Option<(&'a Table, WindowNumbers)>,
    pub rules: RuleKeys<'a>,
}

/// The keys by which requests are told apart, with the tables that hold them.
#[derive(Drop)]
pub struct RuleKeys<'a> {
    pub classes: (&'a [Value], ArrayVec<ClassKeys<'a>, 4>),
    pub resolvers: Vec<(&'a Table, ResolverKeys<'a>)>,
    pub bypasses: Vec<(&'a Table, BypassKeys<'a>)>,
}

/// The keys of a configuration of a version, read in their order. The first fault of a key is
/// reported whatever the memory.
pub fn read_document<'a>(
    alloc: Global,
    version: Version,
    table: &'a Table,
) -> Result<Document<'a>, ConfigFault>
    ensures top { IfOk result (λ d. IsTop d.top) }
    ensures limit { IfOk result (λ d. IsOk (limit_made d.limit.1)) }
    ensures window { IfOk result
        (λ d. ForSome d.window (λ window. IsOk (windows_made window.1))) }
    ensures places { IfOk result (λ d.
        d.top.front.backlog + placed (map class_row d.rules.classes.1.items) ≤ 10000) }
    ensures said { Answers document_values (document_of version (table_view table.now)) result }
    ensures fault { (fault : FaultValue) →
        document_of version (table_view table.now) ≡ Err fault → IsErrOf result fault }
{
    let top = read_top(version, table)?;
    let limit = limit_in(version, table)?;
    let window = window_in(table)?;
    let rules = rules_in(alloc, version, top.front.backlog, table)?;
    Ok(Document {
        top,
        limit,
        window,
        rules,
    })
}

/// The table `limit` and the limit of its keys in a version.
fn limit_in<'a>(version: Version, table: &'a Table) -> Result<(&'a Table, LimitSpec), ConfigFault>
    ensures sound { IfOk result (λ limit. IsOk (limit_made limit.1)) }
    ensures said { result_map limit_member result ≡ limit_of version (table_view table.now) }
{
    let limit = read_table(table, Key::Limit)?;
    Ok((limit, read_limit(version, limit)?))
}

/// The table `window` and the windows of its keys, where there is one.
fn window_in<'a>(table: &'a Table) -> Result<Option<(&'a Table, WindowNumbers)>, ConfigFault>
    ensures sound { IfOk result (λ window. ForSome window (λ w. IsOk (windows_made w.1))) }
    ensures said { result_map (option_map window_member) result ≡ window_of (table_view table.now) }
{
    match read_optional_table(table, Key::Window)? {
        Some(window) => Ok(Some((window, read_window(window)?))),
        None => Ok(None),
    }
}

/// The tables of the arrays `class`, `resolver` and `bypass`, and their keys.
fn rules_in<'a>(
    alloc: Global,
    version: Version,
    backlog: u32,
    table: &'a Table,
) -> Result<RuleKeys<'a>, ConfigFault>
    requires { backlog ≤ 10000 }
    ensures places { IfOk result (λ rules.
        backlog + placed (map class_row rules.classes.1.items) ≤ 10000) }
    ensures said { Answers rule_values (rules_of version backlog (table_view table.now)) result }
    ensures fault { (fault : FaultValue) →
        rules_of version backlog (table_view table.now) ≡ Err fault → IsErrOf result fault }
{
    let classes = classes_in(version, backlog, table)?;
    let resolvers = resolvers_in(&classes.1, table)?;
    let bypasses = bypasses_in(table)?;
    // No key is at fault: from here on it fails only out of memory.
    let resolvers = read_resolvers(alloc, &classes.1, resolvers)?;
    let bypasses = read_bypasses(alloc, bypasses)?;
    Ok(RuleKeys {
        classes,
        resolvers,
        bypasses,
    })
}

/// The tables of the array `class`, and their keys.
fn classes_in<'a>(
    version: Version,
    backlog: u32,
    table: &'a Table,
) -> Result<(&'a [Value], ArrayVec<ClassKeys<'a>, 4>), ConfigFault>
    requires { backlog ≤ 10000 }
    ensures places { IfOk result (λ classes.
        backlog + placed (map class_row classes.1.items) ≤ 10000) }
    ensures said { result_map tables_and_rows result
        ≡ classes_in version backlog (table_view table.now) }
{
    let tables = read_tables(table, Key::Class, 4)?;
    let classes = read_classes(version, backlog, tables)?;
    Ok((tables, classes))
}

/// The tables of the array `resolver`, whose keys are not at fault.
fn resolvers_in<'a>(classes: &[ClassKeys], table: &'a Table) -> Result<&'a [Value], ConfigFault>
    ensures settled { IfOk result (λ _.
        IsOk (resolvers_of (map class_row classes.now) (table_view table.now))) }
    ensures tables { IfOk result (λ tables.
        resolvers_of (map class_row classes.now) (table_view table.now)
        ≡ read_each (resolver_after (map class_row classes.now)) [] (tables_among tables.now)) }
    ensures fault { IfErr result (λ fault.
        resolvers_of (map class_row classes.now) (table_view table.now) ≡ Err fault) }
{
    let tables = read_tables(table, Key::Resolver, MOST_RULES)?;
    check_resolvers(classes, tables)?;
    Ok(tables)
}

/// The tables of the array `bypass`, whose keys are not at fault.
fn bypasses_in<'a>(table: &'a Table) -> Result<&'a [Value], ConfigFault>
    ensures settled { IfOk result (λ _. IsOk (bypasses_of (table_view table.now))) }
    ensures tables { IfOk result (λ tables. bypasses_of (table_view table.now)
        ≡ read_each bypass_after [] (tables_among tables.now)) }
    ensures fault { IfErr result (λ fault. bypasses_of (table_view table.now) ≡ Err fault) }
{
    let tables = read_tables(table, Key::Bypass, MOST_RULES)?;
    check_bypasses(tables)?;
    Ok(tables)
}
