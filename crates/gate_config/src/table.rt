// Tables and arrays of tables at keys.
ghost use Rattle.std.specs.List.{list_all};
ghost use Rattle.std.specs.Prelude.{◌≡◌, ◌≤◌, IfOk, is_some, length, map, option_map};
ghost use Rattle.toml.specs.Data.{as_array, as_table, get_member};
ghost use Rattle.toml.specs.View.{table_view, view};
ghost use Rattle.gate_config.specs.Rows.{name_of};
ghost use Rattle.gate_config.specs.Outcomes.{result_map};
ghost use Rattle.gate_config.specs.Table.{items_in, optional_from, table_from, tables_among, tables_from, tables_in};

use crate::entry::value_at;
use crate::fault::{ConfigFault, KeyAtFault};
use crate::key::Key;
use toml::{Table, Value};

/// The table at a key.
pub fn read_table<'a>(table: &'a Table, key: Key) -> Result<&'a Table, ConfigFault>
    ensures { result_map (λ t. table_view t.now) result
        ≡ table_from key (get_member (name_of key) (table_view table.now)) }
{
    match value_at(table, key) {
        Some(value) => match value.as_table() {
            Some(section) => Ok(section),
            None => Err(ConfigFault::Kind(KeyAtFault::plain(key))),
        },
        None => Err(ConfigFault::Missing(KeyAtFault::plain(key))),
    }
}

/// The table at a key that may be absent.
pub fn read_optional_table<'a>(table: &'a Table, key: Key) -> Result<Option<&'a Table>, ConfigFault>
    ensures { result_map (option_map (λ t. table_view t.now)) result
        ≡ optional_from key (get_member (name_of key) (table_view table.now)) }
{
    match value_at(table, key) {
        Some(value) => match value.as_table() {
            Some(section) => Ok(Some(section)),
            None => Err(ConfigFault::Kind(KeyAtFault::plain(key))),
        },
        None => Ok(None),
    }
}

/// The items of the array at a key, which all are to be tables, and at most `most`; none where it
/// is absent.
pub fn read_tables<'a>(table: &'a Table, key: Key, most: usize) -> Result<&'a [Value], ConfigFault>
    ensures few { IfOk result (λ items. length items.now ≤ most) }
    ensures value { result_map (λ items. tables_among items.now) result
        ≡ tables_from key most (get_member (name_of key) (table_view table.now)) }
{
    let Some(value) = value_at(table, key) else {
        return Ok(&[]);
    };
    let Some(items) = items_of(value) else {
        return Err(ConfigFault::Kind(KeyAtFault::plain(key)));
    };
    tables_in(items, key, most)
}

/// The items, which all are to be tables, and at most `most`.
fn tables_in<'a>(items: &'a [Value], key: Key, most: usize) -> Result<&'a [Value], ConfigFault>
    ensures few { IfOk result (λ items. length items.now ≤ most) }
    ensures value { result_map (λ items. tables_among items.now) result
        ≡ tables_in key most (map view items.now) }
{
    if !are_tables(items) {
        return Err(ConfigFault::Kind(KeyAtFault::plain(key)));
    }
    if items.len() <= most {
        Ok(items)
    } else {
        Err(ConfigFault::Value(KeyAtFault::plain(key)))
    }
}

/// The items of an array.
fn items_of<'a>(value: &'a Value) -> Option<&'a [Value]>
    ensures { option_map (λ items. map view items.now) result
        ≡ option_map items_in (as_array (view value.now)) }
{
    match value.as_array() {
        Some(array) => Some(array.as_slice()),
        None => None,
    }
}

/// Whether each item is a table.
fn are_tables(items: &[Value]) -> bool
    ensures { result ≡ list_all (λ item. is_some (as_table item)) (map view items.now) }
{
    have_tables(items)
}

/// Whether each value is a table.
fn have_tables(items: &[Value]) -> bool
    ensures { result ≡ list_all (λ item. is_some (as_table (view item))) items.now }
{
    items.iter().all(|item| item.is_table())
}
