// The number that a body tells.
ghost use Rattle.std.specs.Prelude.{◌≡◌, ◌&&◌, ◌^◌, nat_lt, length, None, Some, true, if◌then◌else◌};
ghost use Rattle.std.specs.Char.{is_ascii_digit};
ghost use Rattle.std.specs.List.{list_all};
ghost use Rattle.std.specs.Str.Parse.{digits_value};
ghost use Rattle.message_fields.specs.Lengths.{is_digits};
ghost use Rattle.operator_calls.specs.Calls.{number_of};

/// Whether each byte is a decimal digit.
fn all_digits(text: &[u8]) -> bool
    ensures { result ≡ list_all is_ascii_digit text.now }
{
    text.iter().all(|byte| byte.is_ascii_digit())
}

/// Whether the text is one or more decimal digits.
fn is_digits(text: &[u8]) -> bool
    ensures { result ≡ is_digits text.now }
{
    !text.is_empty() && all_digits(text)
}

/// The number that digits spell, where it fits.
fn parse_digits(text: &str) -> Option<u32>
    requires { list_all is_ascii_digit text.now ≡ true }
    ensures { result
        ≡ (if nat_lt 0 (length text.now) && nat_lt (digits_value 10 text.now) (2 ^ 32)
        then Some (digits_value 10 text.now) else None) }
{
    text.parse().ok()
}

/// The number below 2^32 that the text spells in decimal digits alone.
pub(crate) fn number_in(text: &[u8]) -> Option<u32>
    ensures { result ≡ number_of text.now }
{
    if !is_digits(text) {
        return None;
    }
    let Ok(text) = str::from_utf8(text) else {
        return None;
    };
    parse_digits(text)
}
