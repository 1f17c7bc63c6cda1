// The address at a key.
ghost use Rattle.std.specs.Prelude.{◌≡◌};
ghost use Rattle.toml.specs.Data.{get_member};
ghost use Rattle.toml.specs.View.{table_view};
ghost use Rattle.gateway_settings.specs.Address.{is_address};
ghost use Rattle.gate_config.specs.Rows.{name_of};
ghost use Rattle.gate_config.specs.Text.{text_from};

use crate::fault::{ConfigFault, KeyAtFault};
use crate::key::Key;
use crate::text::read_text;
use gateway_settings::Address;
use toml::Table;

/// The address at a key.
pub fn read_address(table: &Table, key: Key) -> Result<Address, ConfigFault>
    ensures { result
        ≡ text_from key is_address (get_member (name_of key) (table_view table.now)) }
{
    match Address::parse(read_text(table, key)?) {
        Some(address) => Ok(address),
        None => Err(ConfigFault::Value(KeyAtFault::plain(key))),
    }
}
