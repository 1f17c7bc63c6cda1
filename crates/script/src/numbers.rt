// Numbers in decimal digits.
ghost use Rattle.std.specs.Prelude.{◌≡◌, true, nat_lt, ◌&&◌, ◌^◌, length, if◌then◌else◌, IfSome};
ghost use Rattle.std.specs.Prelude.{IfNone};
ghost use Rattle.std.specs.Char.{is_ascii_digit};
ghost use Rattle.std.specs.List.{list_all};
ghost use Rattle.std.specs.Str.Parse.{digits_value};
ghost use Rattle.script.specs.Words.{words, number_of, first_number, first_count, in_32_bits, lone_number, number_pair};

use super::words::next_word;

/// Whether each byte is a decimal digit.
fn all_digits(word: &[u8]) -> bool
    ensures { result ≡ list_all is_ascii_digit word.now }
{
    word.iter().all(|byte| byte.is_ascii_digit())
}

/// The number that digits spell, where it fits.
fn parse_digits(text: &str) -> Option<u64>
    requires { list_all is_ascii_digit text.now ≡ true }
    ensures { result
        ≡ (if nat_lt 0 (length text.now) && nat_lt (digits_value 10 text.now) (2 ^ 64)
        then Some (digits_value 10 text.now) else None) }
{
    text.parse().ok()
}

/// The number that a word spells in 1 to 20 digits, where it fits a `u64`; leading zeros are
/// allowed.
pub fn read_number(word: &[u8]) -> Option<u64>
    ensures { result ≡ number_of word.now }
{
    if word.len() > 20 || !all_digits(word) {
        return None;
    }
    match str::from_utf8(word) {
        Ok(text) => parse_digits(text),
        Err(_) => None,
    }
}

/// The number in front, and what follows it; nothing where no word is left, or the first one spells
/// no number.
pub(crate) fn next_number(line: &[u8]) -> Option<(u64, &[u8])>
    ensures none { IfNone result (first_number (words line.now) ≡ None) }
    ensures first { IfSome result
        (λ cut. first_number (words line.now) ≡ Some (cut.0, words cut.1.now)) }
{
    let (word, line) = next_word(line)?;
    Some((read_number(word)?, line))
}

/// A number in 32 bits. One of 2^32 or more is in no range of a count, and neither is what it
/// becomes.
pub(crate) fn in_32_bits(number: u64) -> u32
    ensures { result ≡ in_32_bits number }
{
    u32::try_from(number).unwrap_or(u32::MAX)
}

/// The count in front, in 32 bits, and what follows it; nothing where no number is in front.
pub(crate) fn next_count(line: &[u8]) -> Option<(u32, &[u8])>
    ensures none { IfNone result (first_count (words line.now) ≡ None) }
    ensures first { IfSome result
        (λ cut. first_count (words line.now) ≡ Some (cut.0, words cut.1.now)) }
{
    let (number, line) = next_number(line)?;
    Some((in_32_bits(number), line))
}

/// The number of a line that has no other word.
pub(crate) fn read_lone_number(line: &[u8]) -> Option<u64>
    ensures { result ≡ lone_number (words line.now) }
{
    let (number, line) = next_number(line)?;
    if next_word(line).is_some() {
        return None;
    }
    Some(number)
}

/// The two numbers of a line that has no other word.
pub(crate) fn read_number_pair(line: &[u8]) -> Option<(u64, u64)>
    ensures { result ≡ number_pair (words line.now) }
{
    let (first, line) = next_number(line)?;
    Some((first, read_lone_number(line)?))
}
