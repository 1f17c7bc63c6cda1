// Values that are lists with commas.
ghost use Rattle.std.specs.Prelude.{◌≡◌, ◌≤◌, ◌-◌, ◌==◌, length, bytes_eq};
ghost use Rattle.std.specs.List.{prefix_len, suffix_len, list_all, list_any, position, position_or_len, slice_get};
ghost use Rattle.message_parts.specs.Names.{same_name};
ghost use Rattle.message_fields.specs.Parts.{is_blank, trimmed, trimmed_start, trimmed_end, parts};

use message_parts::is_same_name;

/// Whether the byte is a space or a tab.
fn is_blank(byte: u8) -> bool
    ensures { result ≡ is_blank byte }
{
    byte == b' ' || byte == b'\t'
}

/// How many blanks stand in front.
fn blanks_before(text: &[u8]) -> usize
    ensures value { result ≡ prefix_len is_blank text.now }
    ensures inside { result ≤ length text.now }
{
    for (at, byte) in text.iter().enumerate() {
        if !is_blank(*byte) {
            return at;
        }
    }
    text.len()
}

/// Where the blanks at the end begin.
fn end_of(text: &[u8]) -> usize
    ensures value { result ≡ length text.now - suffix_len is_blank text.now }
    ensures inside { result ≤ length text.now }
{
    let mut end = text.len();
    while end > 0 && is_blank(text[end - 1]) {
        end -= 1;
    }
    end
}

/// The text without the blanks at its end.
fn trimmed_end(text: &[u8]) -> &[u8]
    ensures { result.now ≡ trimmed_end text.now }
{
    &text[..end_of(text)]
}

/// The text without the blanks in front.
fn trimmed_start(text: &[u8]) -> &[u8]
    ensures { result.now ≡ trimmed_start text.now }
{
    &text[blanks_before(text)..]
}

/// The text without the blanks at both ends.
fn trimmed(text: &[u8]) -> &[u8]
    ensures { result.now ≡ trimmed text.now }
{
    trimmed_end(trimmed_start(text))
}

/// Where the first comma stands.
fn first_comma(value: &[u8]) -> Option<usize>
    ensures { result ≡ position (λ byte. byte == 44) value.now }
{
    value.iter().position(|byte| *byte == b',')
}

/// Where the first part of the value ends.
#[tactic(auto, using(lemmas::proofs::Tests::place_is))]
fn first_end(value: &[u8]) -> usize
    ensures value { result ≡ position_or_len (λ byte. byte == 44) value.now }
    ensures inside { result ≤ length value.now }
{
    first_comma(value).unwrap_or(value.len())
}

/// The first part of the value.
pub(crate) fn first_part(value: &[u8]) -> &[u8]
    ensures { slice_get (parts value.now) 0 ≡ Some result.now }
{
    trimmed(&value[..first_end(value)])
}

/// Whether the text, without its blanks, is this one.
fn is_trimmed(text: &[u8], part: &[u8]) -> bool
    ensures { result ≡ bytes_eq part.now (trimmed text.now) }
{
    part == trimmed(text)
}

/// Whether each part of the value is this one.
pub(crate) fn is_every_part(value: &[u8], part: &[u8]) -> bool
    ensures { result ≡ list_all (bytes_eq part.now) (parts value.now) }
{
    value
        .split(|byte| *byte == b',')
        .all(|text| is_trimmed(text, part))
}

/// Whether the text, without its blanks, is the name.
fn is_trimmed_name(text: &[u8], name: &[u8]) -> bool
    ensures { result ≡ same_name (trimmed text.now) name.now }
{
    is_same_name(trimmed(text), name)
}

/// Whether some part of the value is the name.
pub(crate) fn has_part(value: &[u8], name: &[u8]) -> bool
    ensures { result ≡ list_any (λ part. same_name part name.now) (parts value.now) }
{
    value
        .split(|byte| *byte == b',')
        .any(|text| is_trimmed_name(text, name))
}
