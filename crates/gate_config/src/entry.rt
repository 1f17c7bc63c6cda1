// The value at a key.
ghost use Rattle.std.specs.Prelude.{◌≡◌, option_map};
ghost use Rattle.toml.specs.Data.{get_member};
ghost use Rattle.toml.specs.View.{table_view, view};
ghost use Rattle.gate_config.specs.Rows.{name_of};

use crate::key::Key;
use toml::{Table, Value};

/// What a section holds at a key.
pub fn value_at<'a>(table: &'a Table, key: Key) -> Option<&'a Value>
    ensures { option_map (λ v. view v.now) result
        ≡ get_member (name_of key) (table_view table.now) }
{
    table.get(key.name())
}
