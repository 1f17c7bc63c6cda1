// The key of the rule of promotion.
ghost use Rattle.std.specs.Prelude.{◌≡◌, Some, None, option_map, if◌then◌else◌};
ghost use Rattle.toml.specs.Data.{get_member};
ghost use Rattle.toml.specs.View.{table_view};
ghost use Rattle.gate_config.specs.Rows.{name_of, newest, promote_rules};
ghost use Rattle.gate_config.specs.Outcomes.{result_map};
ghost use Rattle.gate_config.specs.Text.{choice_from, is_among};
ghost use Rattle.gate_config.specs.Promote.{rule_word};

use crate::{ConfigFault, Key, KeyAtFault, read_text, value_at};
use toml::Table;

/// Which waiters get the room that falls free.
#[derive(Clone, Copy)]
pub enum PromoteRule {
    /// The newest, where it has room.
    Newest,
    /// All who have room, the newest first.
    All,
}

impl PromoteRule {
    /// The rule of this word.
    fn named(word: &str) -> Option<PromoteRule>
        ensures { option_map rule_word result
            ≡ if is_among promote_rules word.now then Some word.now else None }
    {
        match word {
            "newest" => Some(PromoteRule::Newest),
            "all" => Some(PromoteRule::All),
            _ => None,
        }
    }
}

/// The rule at `promote`; the newest alone where the key is absent.
pub fn read_promote(table: &Table) -> Result<PromoteRule, ConfigFault>
    ensures { result_map rule_word result
        ≡ choice_from Key.Promote promote_rules newest
        (get_member (name_of Key.Promote) (table_view table.now)) }
{
    if value_at(table, Key::Promote).is_none() {
        return Ok(PromoteRule::Newest);
    }
    match PromoteRule::named(read_text(table, Key::Promote)?) {
        Some(rule) => Ok(rule),
        None => Err(ConfigFault::Value(KeyAtFault::plain(Key::Promote))),
    }
}
