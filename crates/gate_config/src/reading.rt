// From bytes to settings.
ghost use Rattle.std.specs.Option.{ForSome};
ghost use Rattle.std.specs.Prelude.{◌≡◌, ◌+◌, ◌≤◌, [], ◌≢◌, ◌⊎◌, IfOk, IfErr, IsErrOf, IsOk, Err, IsUtf8, codes, map};
ghost use Rattle.toml.specs.Data.{Members, get_member};
ghost use Rattle.toml.specs.Errors.{IsBlank};
ghost use Rattle.toml.specs.View.{table_view};
ghost use Rattle.partitions.specs.Table.{placed};
ghost use Rattle.windowed.specs.WindowedRules.{windows_made};
ghost use Rattle.limit_kinds.specs.Kinds.{limit_made};
ghost use Rattle.gate_config.specs.declared.fault.ConfigFault.{ConfigFault as FaultValue};
ghost use Rattle.gate_config.specs.Outcomes.{Answers};
ghost use Rattle.gate_config.specs.Bypass.{bypass_member};
ghost use Rattle.gate_config.specs.ClassRows.{class_row};
ghost use Rattle.gate_config.specs.Resolver.{resolver_member};
ghost use Rattle.gate_config.specs.Section.{number_at};
ghost use Rattle.gate_config.specs.Top.{AreKept, IsTop, kept_values};
ghost use Rattle.gate_config.specs.Document.{document_values, rule_values};
ghost use Rattle.gate_config.specs.Rules.{Makes, bypass_from, resolvers_after};
ghost use Rattle.gate_config.specs.Settings.{IsOfKey, Reads, made_of, omitted_from, settings_of};
ghost use Rattle.gate_config.specs.Settings.{version_of};
ghost use Rattle.gateway_settings.specs.Settings.{AreSound};

use crate::build::limit::any_limit;
use crate::build::promote::promote_of;
use crate::build::rules::{add, make_bypass, make_resolver, partitions_of};
use crate::document::{Document, RuleKeys, read_document};
use crate::unknown_keys::least_unknown_key;
use crate::{BypassKeys, ConfigFault, KeptKeys, Key, ResolverKeys, TopKeys, Version, value_at};
use classifier::{Bypass, Resolver, Rules};
use gateway_settings::{OmittedKeys, Settings};
use partitions::PartitionTable;
use std::alloc::{AllocError, Global};
use toml::Table;

/// The nanoseconds of a millisecond.
const MILLI: u64 = 1_000_000;

/// The settings that a text of version 1 or 2 holds.
///
/// The faults, of which the first is reported: [`ConfigFault::Toml`] for a text that isn't TOML in
/// UTF-8; [`ConfigFault::Version`] unless `version` is 1 or 2; then key by key in the order of
/// the keys, an array's members one after the other, [`ConfigFault::Missing`],
/// [`ConfigFault::Kind`] and [`ConfigFault::Value`]; [`ConfigFault::Unknown`] for the least path
/// that isn't allowed; [`ConfigFault::Route`] for patterns that can't stand together.
/// [`ConfigFault::Memory`] comes where it is out of memory for the table of the text, and otherwise
/// as [`settings_in`] says; a text of white space and comments alone never asks for any.
pub fn read(alloc: Global, bytes: &[u8]) -> Result<Settings, ConfigFault>
    ensures settings { (t : Members) → Reads bytes.now t →
        Answers (λ settings. settings) (settings_of t) result }
    ensures sound { IfOk result AreSound }
    ensures read { IsOk result → (t : Members) × Reads bytes.now t }
    ensures blank { IsBlank bytes.now → IsUtf8 bytes.now → IsErrOf result ConfigFault.Version }
    ensures refused { IfErr result (λ fault. fault ≢ ConfigFault.Memory → fault ≢ ConfigFault.Toml →
        (t : Members) × Reads bytes.now t) }
{
    let table = table_of(alloc, bytes)?;
    settings_in(alloc, &table)
}

/// The table that a text holds.
fn table_of(alloc: Global, bytes: &[u8]) -> Result<Table, ConfigFault>
    ensures ok { IfOk result (λ t. Reads bytes.now (table_view t)) }
    ensures blank { IsBlank bytes.now → IsUtf8 bytes.now → IsOk result }
    ensures toml { result ≡ Err ConfigFault.Toml → (t : Members) → Reads bytes.now t → ⊥ }
    ensures others { IfErr result (λ fault.
        (fault ≡ ConfigFault.Memory) ⊎ (fault ≡ ConfigFault.Toml)) }
{
    match toml::table_from_slice(alloc, bytes) {
        Ok(table) => Ok(table),
        Err(error) => {
            if error.is_memory() {
                Err(ConfigFault::Memory)
            } else {
                Err(ConfigFault::Toml)
            }
        }
    }
}

/// The settings that a table holds. Faults are as for [`read`]; the version's and those of keys are
/// told whatever the memory, which is taken only for settings, an unknown key's path and routes.
pub fn settings_in(alloc: Global, table: &Table) -> Result<Settings, ConfigFault>
    ensures sound { IfOk result AreSound }
    ensures said { Answers (λ settings. settings) (settings_of (table_view table.now)) result }
    ensures fault { (fault : FaultValue) → IsOfKey fault →
        settings_of (table_view table.now) ≡ Err fault → IsErrOf result fault }
{
    let Some(version) = version_of(table) else {
        return Err(ConfigFault::Version);
    };
    let document = read_document(alloc, version, table)?;
    match least_unknown_key(version, table, &document) {
        Some(key) => Err(ConfigFault::Unknown(key.at_fault(alloc)?)),
        None => made_of(alloc, table, document),
    }
}

/// The version of a table, where it is the whole number 1 or 2.
pub fn version_of(table: &Table) -> Option<Version>
    ensures { result ≡ version_of (get_member (codes "version") (table_view table.now)) }
{
    match value_at(table, Key::Version)?.as_integer()? {
        1 => Some(Version::One),
        2 => Some(Version::Two),
        _ => None,
    }
}

/// The settings that the keys of a document make, which its table holds.
fn made_of(alloc: Global, top_table: &Table, document: Document) -> Result<Settings, ConfigFault>
    requires top { IsTop document.top }
    requires limit { IsOk (limit_made document.limit.1) }
    requires window { ForSome document.window (λ window. IsOk (windows_made window.1)) }
    requires places { document.top.front.backlog
        + placed (map class_row document.rules.classes.1.items) ≤ 10000 }
    ensures sound { IfOk result AreSound }
    ensures said { Makes (λ settings. settings)
        (made_of (table_view top_table.now) (document_values document.entry)) result }
{
    let omitted = omitted_from(top_table, document.limit.0);
    let (table, rules) = rules_made(alloc, &document.rules)?;
    let Document {
        top,
        limit,
        window,
        rules: _,
    } = document;
    let limit = any_limit(limit.1, window.map(|window| window.1));
    let places = table.placed() as u32;
    let TopKeys { front, kept, gate } = top;
    let KeptKeys {
        clients,
        client_idle_ms,
        backends,
        backend_idle_ms,
        bodies_mib,
    } = kept_of(kept);
    Ok(Settings {
        listen: front.listen,
        backend: front.backend,
        backlog: front.backlog + places,
        wait: front.wait,
        timeout_ns: u64::from(front.timeout_ms) * MILLI,
        clients,
        client_idle_ns: u64::from(client_idle_ms) * MILLI,
        backends,
        backend_idle_ns: u64::from(backend_idle_ms) * MILLI,
        bodies_mib,
        keep: gate.keep,
        promote: promote_of(gate.promote),
        limit,
        table,
        rules,
        omitted,
        exchanges: None,
    })
}

/// Which keys are left out of a table and of its table `limit`.
fn omitted_from(table: &Table, limit: &Table) -> OmittedKeys
    ensures { result ≡ omitted_from (table_view table.now) (table_view limit.now) }
{
    OmittedKeys {
        backlog: value_at(table, Key::Backlog).is_none(),
        limit_max: value_at(limit, Key::LimitMax).is_none(),
        bodies: value_at(table, Key::BodiesMib).is_none(),
    }
}

/// The connections that are kept and the bodies that are held: none where the version has no keys
/// for them.
fn kept_of(kept: Option<KeptKeys>) -> KeptKeys
    ensures most { ForSome kept AreKept → AreKept result }
    ensures clients { result.clients ≡ number_at (codes "clients") (kept_values kept) }
    ensures client_idle { result.client_idle_ms
        ≡ number_at (codes "client_idle_ms") (kept_values kept) }
    ensures backends { result.backends ≡ number_at (codes "backends") (kept_values kept) }
    ensures backend_idle { result.backend_idle_ms
        ≡ number_at (codes "backend_idle_ms") (kept_values kept) }
    ensures bodies { result.bodies_mib ≡ number_at (codes "bodies_mib") (kept_values kept) }
{
    match kept {
        Some(kept) => kept,
        None => KeptKeys {
            clients: 0,
            client_idle_ms: 0,
            backends: 0,
            backend_idle_ms: 0,
            bodies_mib: 0,
        },
    }
}

/// The classes, and the rules among them.
fn rules_made(alloc: Global, keys: &RuleKeys) -> Result<(PartitionTable, Rules), ConfigFault>
    ensures table { IfOk result (λ made. made.0 ≡ (rule_values keys.now).classes.1) }
    ensures resolvers { Makes (λ made. made.1.resolvers)
        (resolvers_after (rule_values keys.now).classes.1 [] (rule_values keys.now).resolvers)
        result }
    ensures bypass { IfOk result (λ made.
        made.1.bypass ≡ map (λ rule. bypass_from rule.1) (rule_values keys.now).bypasses) }
{
    let table = partitions_of(alloc, &keys.classes.1)?;
    let resolvers = resolvers_made(alloc, &table, &keys.resolvers)?;
    let bypass = bypasses_made(alloc, &keys.bypasses)?;
    Ok((table, Rules::new(resolvers, bypass)))
}

/// The resolvers of all their keys.
fn resolvers_made(
    alloc: Global,
    table: &PartitionTable,
    members: &[(&Table, ResolverKeys)],
) -> Result<Vec<Resolver>, ConfigFault>
    ensures { Makes (λ resolvers. resolvers.items)
        (resolvers_after table.now [] (map resolver_member members.now)) result }
{
    let mut resolvers = Vec::new(alloc);
    for (_, keys) in members {
        add(&mut resolvers, make_resolver(alloc, table, keys)?)?;
    }
    Ok(resolvers)
}

/// The bypass rules of all their keys. Fails where it is out of memory.
fn bypasses_made(alloc: Global, members: &[(&Table, BypassKeys)]) -> Result<Vec<Bypass>, AllocError>
    ensures { IfOk result (λ rules. rules.items
        ≡ map (λ rule. bypass_from rule.1) (map bypass_member members.now)) }
{
    let mut rules = Vec::new(alloc);
    for (_, keys) in members {
        add(&mut rules, make_bypass(alloc, keys)?)?;
    }
    Ok(rules)
}
