// Keys as a fault tells them: bare, or quoted so that a key of any characters is one line and can't
// pass for another text. The form is TOML's own (https://toml.io/en/v1.0.0#keys and #string).
ghost use Rattle.std.specs.Fmt.{digit_glyph};
ghost use Rattle.std.specs.List.{list_all};
ghost use Rattle.std.specs.Prelude.{◌≡◌, ◌++◌, ◌<◌, true, IfOk, OnOk, string_bytes};
ghost use Rattle.gate_config.specs.KeyText.{control_text, escaped, is_bare, is_bare_byte, key_text, quoted};

use std::alloc::{AllocError, Global};

/// The key's name as a text has it, quoted unless it is bare. Fails where it is out of memory.
pub fn key_text(alloc: Global, name: &str) -> Result<String, AllocError>
    ensures { IfOk result (λ text. string_bytes text ≡ key_text name.now) }
{
    if is_bare(name.as_bytes()) {
        String::from_str(alloc, name)
    } else {
        quoted(alloc, name)
    }
}

/// Whether the name can stand with no quotes.
fn is_bare(name: &[u8]) -> bool
    ensures { result ≡ is_bare name.now }
{
    1 <= name.len() && has_bare_bytes(name)
}

/// Whether each byte may stand with no quotes.
fn has_bare_bytes(name: &[u8]) -> bool
    ensures { result ≡ list_all is_bare_byte name.now }
{
    name.iter().all(|byte| is_bare_byte(*byte))
}

/// Whether the byte may stand with no quotes.
fn is_bare_byte(byte: u8) -> bool
    ensures { result ≡ is_bare_byte byte }
{
    matches!(byte, b'a'..=b'z' | b'A'..=b'Z' | b'0'..=b'9' | b'-' | b'_')
}

/// The basic string of a text.
fn quoted(alloc: Global, name: &str) -> Result<String, AllocError>
    ensures { IfOk result (λ text. string_bytes text ≡ quoted name.now) }
{
    let mut text = String::from_str(alloc, "\"")?;
    for c in name.chars() {
        push_escaped(&mut text, c)?;
    }
    text.push_str("\"")?;
    Ok(text)
}

/// Adds a character of a basic string.
fn push_escaped(text: &mut String, c: char) -> Result<(), AllocError>
    ensures { OnOk result (string_bytes text.new ≡ string_bytes text.old ++ escaped c) }
{
    match c {
        '"' => text.push_str("\\\""),
        '\\' => text.push_str("\\\\"),
        '\u{8}' => text.push_str("\\b"),
        '\t' => text.push_str("\\t"),
        '\n' => text.push_str("\\n"),
        '\u{c}' => text.push_str("\\f"),
        '\r' => text.push_str("\\r"),
        '\0'..='\u{1f}' | '\u{7f}'..='\u{9f}' => push_code(text, c as u8),
        _ => text.push(c),
    }
}

/// Adds the code of a control character.
fn push_code(text: &mut String, code: u8) -> Result<(), AllocError>
    ensures { OnOk result (string_bytes text.new ≡ string_bytes text.old ++ control_text code) }
{
    text.push_str("\\u00")?;
    text.push(hex_digit(code / 16))?;
    text.push(hex_digit(code % 16))
}

/// A hexadecimal digit.
fn hex_digit(digit: u8) -> char
    requires { digit < 16 }
    ensures digit { result ≡ digit_glyph true digit }
    ensures ascii { result < 128 }
{
    if digit < 10 {
        char::from(b'0' + digit)
    } else {
        char::from(b'A' - 10 + digit)
    }
}
