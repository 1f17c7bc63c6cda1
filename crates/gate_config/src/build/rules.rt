// From keys to partitions, resolvers and bypass rules.
ghost use Rattle.std.specs.Prelude.{◌≡◌, ◌≢◌, ◌≤◌, ◌++◌, [], ◌∷◌, length, map, Some, None, IfOk, OnOk, IfErr};
ghost use Rattle.toml.specs.View.{table_view};
ghost use Rattle.partitions.specs.Faults.{given};
ghost use Rattle.partitions.specs.Table.{unplaced};
ghost use Rattle.gate_config.specs.Bypass.{bypass_values};
ghost use Rattle.gate_config.specs.ClassRows.{class_row};
ghost use Rattle.gate_config.specs.Resolver.{resolver_values};
ghost use Rattle.gate_config.specs.Routes.{routes_of};
ghost use Rattle.gate_config.specs.Rules.{Makes, bypass_from, part_named, resolver_from, route_with, router_from};

use crate::{BypassKeys, ClassKeys, ConfigFault, ResolverKeys, string_of};
use classifier::{Bypass, Resolver};
use matchit::Router;
use message_parts::Bytes;
use partitions::{Part, PartitionTable};
use std::alloc::{AllocError, Global};
use toml::Table;

/// The partitions that the classes name. Fails where it is out of memory.
pub fn partitions_of(alloc: Global, classes: &[ClassKeys]) -> Result<PartitionTable, AllocError>
    ensures { IfOk result (λ table. table ≡ map class_row classes.now) }
{
    if classes.is_empty() {
        return Ok(PartitionTable::unknown_only());
    }
    let rows = class_pairs(alloc, classes)?;
    match PartitionTable::new(alloc, &rows) {
        Ok(mut table) => {
            set_places(&mut table, classes);
            Ok(table)
        }
        Err(_) => Err(AllocError),
    }
}

/// Gives each class of a table its places of the backlog.
fn set_places(table: &mut PartitionTable, classes: &[ClassKeys])
    requires { table.old ≡ unplaced (map class_row classes.now) }
    ensures { table.new ≡ map class_row classes.now }
{
    for row in 0..table.len() {
        table.set_places(Part::Known(row as u8), classes[row].places);
    }
}

/// The classes as pairs of a name and a share in thousandths.
fn class_pairs<'a>(
    alloc: Global,
    classes: &'a [ClassKeys],
) -> Result<Vec<(&'a [u8], u32)>, AllocError>
    ensures { IfOk result (λ pairs. given pairs.items ≡ unplaced (map class_row classes.now)) }
{
    let mut pairs = Vec::new(alloc);
    for class in classes {
        add(&mut pairs, (class.name.as_bytes(), class.thousandths))?;
    }
    Ok(pairs)
}

/// Adds an item to a list. What the item is made of isn't told apart here.
pub fn add<T: Drop>(list: &mut Vec<T>, item: T) -> Result<(), AllocError>
    ensures { OnOk result (list.new.items ≡ list.old.items ++ item ∷ []) }
{
    Ok(list.push(item)?)
}

/// The resolver of these keys.
pub fn make_resolver(
    alloc: Global,
    table: &PartitionTable,
    keys: &ResolverKeys,
) -> Result<Resolver, ConfigFault>
    ensures { Makes (λ resolver. resolver)
        (resolver_from table.now (resolver_values keys.now)) result }
{
    match keys {
        ResolverKeys::Header(name) => Ok(Resolver::Header(bytes_of(alloc, name)?)),
        ResolverKeys::Method { method, class } => {
            let method = bytes_of(alloc, method)?;
            Ok(Resolver::Method(method, part_named(table, class)))
        }
        ResolverKeys::Route(routes) => Ok(Resolver::Route(router_of(alloc, table, routes)?)),
    }
}

/// The bypass rule of these keys.
pub fn make_bypass(alloc: Global, keys: &BypassKeys) -> Result<Bypass, AllocError>
    ensures { IfOk result (λ rule. rule ≡ bypass_from (bypass_values keys.now)) }
{
    match keys {
        BypassKeys::Method(method) => Ok(Bypass::Method(bytes_of(alloc, method)?)),
        BypassKeys::Prefix(prefix) => Ok(Bypass::Prefix(bytes_of(alloc, prefix)?)),
        BypassKeys::Header { header, equals } => {
            let name = bytes_of(alloc, header)?;
            Ok(Bypass::HeaderEquals(name, bytes_of(alloc, equals)?))
        }
    }
}

/// A copy of a text's bytes.
fn bytes_of(alloc: Global, text: &str) -> Result<Bytes, AllocError>
    ensures { IfOk result (λ bytes. bytes ≡ text.now) }
{
    Bytes::from_slice(alloc, text.as_bytes())
}

/// The partition of this name, or unknown.
fn part_named(table: &PartitionTable, name: &str) -> Part
    ensures { result ≡ part_named table.now name.now }
{
    match table.find(name.as_bytes()) {
        Some(part) => part,
        None => Part::Unknown,
    }
}

/// The router of these patterns, added in their order.
fn router_of(
    alloc: Global,
    table: &PartitionTable,
    routes: &Table,
) -> Result<Router<Part>, ConfigFault>
    ensures { Makes (λ router. router)
        (router_from table.now (routes_of (table_view routes.now))) result }
{
    let mut router = Router::new(alloc);
    for (pattern, class) in routes {
        let part = part_named(table, string_of(class));
        add_route(&mut router, pattern.as_str(), part)?;
    }
    Ok(router)
}

/// Adds a pattern with its partition.
fn add_route(router: &mut Router<Part>, pattern: &str, part: Part) -> Result<(), ConfigFault>
    ensures ok { OnOk result (route_with pattern.now part router.old ≡ Some router.new) }
    ensures route { IfErr result (λ fault. fault ≢ ConfigFault.Memory →
        (fault ≡ ConfigFault.Route) × (route_with pattern.now part router.old ≡ None)) }
{
    Ok(router.insert(pattern, part)?)
}
