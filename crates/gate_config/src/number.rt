// Numbers and booleans at keys.
ghost use Rattle.std.specs.Prelude.{◌≡◌, ◌≤◌, Some, None, IfOk};
ghost use Rattle.toml.specs.Data.{get_member};
ghost use Rattle.toml.specs.View.{table_view};
ghost use Rattle.gate_config.specs.Rows.{name_of};
ghost use Rattle.gate_config.specs.Number.{flag_from, in_range, number_from};

use crate::entry::value_at;
use crate::fault::{ConfigFault, KeyAtFault};
use crate::key::Key;
use toml::Table;

/// The numbers that a key may hold, and the one that stands for it where it is absent: its default,
/// or none where the key is required.
#[derive(Clone, Copy)]
pub struct Range {
    pub low: u32,
    pub high: u32,
    pub default: Option<u32>,
}

impl Range {
    /// The numbers from `low` to `high`, and a default.
    pub fn new(low: u32, high: u32, default: u32) -> Range
        ensures { result ≡ record { low = low; high = high; default = Some default } }
    {
        Range {
            low,
            high,
            default: Some(default),
        }
    }

    /// The numbers from `low` to `high`, of which one is required.
    pub fn required(low: u32, high: u32) -> Range
        ensures { result ≡ record { low = low; high = high; default = None } }
    {
        Range {
            low,
            high,
            default: None,
        }
    }
}

/// The whole number at a key, or where the key is absent the number of its range nearest to its
/// default.
pub fn read_number(table: &Table, key: Key, range: Range) -> Result<u32, ConfigFault>
    ensures within { range.low ≤ range.high →
        IfOk result (λ n. (range.low ≤ n) × (n ≤ range.high)) }
    ensures value { result ≡ number_from key range.low range.high range.default
        (get_member (name_of key) (table_view table.now)) }
{
    let Some(value) = value_at(table, key) else {
        return match range.default {
            Some(default) => Ok(default.min(range.high).max(range.low)),
            None => Err(ConfigFault::Missing(KeyAtFault::ranged(key, range))),
        };
    };
    match value.as_integer() {
        Some(number) => in_range(key, range, number),
        None => Err(ConfigFault::Kind(KeyAtFault::ranged(key, range))),
    }
}

/// The number, where the range has it.
fn in_range(key: Key, range: Range, number: i64) -> Result<u32, ConfigFault>
    ensures within { IfOk result (λ n. (range.low ≤ n) × (n ≤ range.high)) }
    ensures value { result ≡ in_range key range.low range.high range.default number }
{
    if i64::from(range.low) <= number && number <= i64::from(range.high) {
        Ok(number as u32)
    } else {
        Err(ConfigFault::Value(KeyAtFault::ranged(key, range)))
    }
}

/// The boolean at a key, or its default.
pub fn read_flag(table: &Table, key: Key, default: bool) -> Result<bool, ConfigFault>
    ensures { result ≡ flag_from key default (get_member (name_of key) (table_view table.now)) }
{
    match value_at(table, key) {
        Some(value) => value
            .as_bool()
            .ok_or(ConfigFault::Kind(KeyAtFault::plain(key))),
        None => Ok(default),
    }
}
