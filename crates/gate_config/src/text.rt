// Texts at keys.
ghost use Rattle.std.specs.List.{list_all};
ghost use Rattle.std.specs.Prelude.{◌≡◌, true};
ghost use Rattle.http_header.specs.Token.{is_token_byte};
ghost use Rattle.toml.specs.Data.{get_member};
ghost use Rattle.toml.specs.View.{table_view, view};
ghost use Rattle.gate_config.specs.Rows.{name_of};
ghost use Rattle.gate_config.specs.Outcomes.{result_map};
ghost use Rattle.gate_config.specs.Text.{begins_path, is_token, string_of, text_from};

use crate::entry::value_at;
use crate::fault::{ConfigFault, KeyAtFault};
use crate::key::Key;
use http_header::is_token_char;
use toml::{Table, Value};

/// The text at a key.
pub fn read_text<'a>(table: &'a Table, key: Key) -> Result<&'a str, ConfigFault>
    ensures { result_map (λ s. s.now) result
        ≡ text_from key (λ _. true) (get_member (name_of key) (table_view table.now)) }
{
    match value_at(table, key) {
        Some(value) => match value.as_str() {
            Some(text) => Ok(text),
            None => Err(ConfigFault::Kind(KeyAtFault::plain(key))),
        },
        None => Err(ConfigFault::Missing(KeyAtFault::plain(key))),
    }
}

/// The token at a key.
pub fn read_token<'a>(table: &'a Table, key: Key) -> Result<&'a str, ConfigFault>
    ensures { result_map (λ s. s.now) result
        ≡ text_from key is_token (get_member (name_of key) (table_view table.now)) }
{
    let text = read_text(table, key)?;
    if is_token(text.as_bytes()) {
        Ok(text)
    } else {
        Err(ConfigFault::Value(KeyAtFault::plain(key)))
    }
}

/// The beginning of a path at a key.
pub fn read_prefix<'a>(table: &'a Table, key: Key) -> Result<&'a str, ConfigFault>
    ensures { result_map (λ s. s.now) result
        ≡ text_from key begins_path (get_member (name_of key) (table_view table.now)) }
{
    let text = read_text(table, key)?;
    if text.as_bytes().starts_with(b"/") {
        Ok(text)
    } else {
        Err(ConfigFault::Value(KeyAtFault::plain(key)))
    }
}

/// Whether the bytes are a token.
fn is_token(text: &[u8]) -> bool
    ensures { result ≡ is_token text.now }
{
    1 <= text.len() && has_token_bytes(text)
}

/// Whether each byte may stand in a token.
fn has_token_bytes(text: &[u8]) -> bool
    ensures { result ≡ list_all is_token_byte text.now }
{
    text.iter().all(|byte| is_token_char(*byte))
}

/// The text of a value that is one, and else the empty text, which no class has for its name.
pub fn string_of(value: &Value) -> &str
    ensures { result.now ≡ string_of (view value.now) }
{
    match value.as_str() {
        Some(text) => text,
        None => "",
    }
}
