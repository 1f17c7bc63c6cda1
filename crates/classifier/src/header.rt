// The header lines of a request, by name.
ghost use Rattle.std.specs.Prelude.{◌≡◌, option_map};
ghost use Rattle.std.specs.List.{list_any};
ghost use Rattle.classifier.specs.Class.{header_value, has_line};

use message_parts::{Header, Headers, is_same_name};

/// The value of the first line of this name.
pub fn first_value<'a>(headers: &'a Headers, name: &[u8]) -> Option<&'a [u8]>
    ensures { option_map (λ value. value.now) result ≡ header_value name.now headers.now }
{
    let line = headers
        .as_slice()
        .iter()
        .find(|line| is_same_name(line.name(), name));
    match line {
        Some(line) => Some(line.value()),
        None => None,
    }
}

/// Whether some line of this name has exactly this value.
pub fn has_value(headers: &Headers, name: &[u8], value: &[u8]) -> bool
    ensures { result ≡ list_any (has_line name.now value.now) headers.now }
{
    headers
        .as_slice()
        .iter()
        .any(|line| is_line(line, name, value))
}

fn is_line(line: &Header, name: &[u8], value: &[u8]) -> bool
    ensures { result ≡ has_line name.now value.now line.now }
{
    is_same_name(line.name(), name) && line.value() == value
}
