// The length that the lines of Content-Length give.
ghost use Rattle.std.specs.Prelude.{◌≡◌, ◌&&◌, ◌||◌, not, bytes_eq, option_map, true, codes};
ghost use Rattle.std.specs.Char.{is_ascii_digit};
ghost use Rattle.std.specs.List.{list_all};
ghost use Rattle.std.specs.Str.Parse.{digits_value};
ghost use Rattle.message_fields.specs.Lines.{count_named, is_named};
ghost use Rattle.message_fields.specs.Parts.{parts, parts_named};
ghost use Rattle.message_fields.specs.Lengths.{is_digits, limited, length_digits, length_within};

use super::fields::is_content_length;
use super::lines::first_length;
use super::parts::{first_part, is_every_part};
use message_parts::Header;

/// The greatest number of bytes of a body that is read whole.
pub const MOST_BODY: u64 = 8_388_608;

/// Why the lines of Content-Length give no length.
#[derive(Clone, Copy)]
pub enum LengthFault {
    /// Their parts are not all the same string of digits, or there is no line.
    Malformed,
    /// The length is above the greatest one that a body may have.
    TooLarge,
}

/// Whether each byte is a decimal digit.
fn all_digits(text: &[u8]) -> bool
    ensures { result ≡ list_all is_ascii_digit text.now }
{
    text.iter().all(|byte| byte.is_ascii_digit())
}

/// Whether the text is one or more decimal digits.
fn is_digits(text: &[u8]) -> bool
    ensures { result ≡ is_digits text.now }
{
    !text.is_empty() && all_digits(text)
}

/// The line is of another field, or each of its parts is this one.
fn agrees(line: &Header, part: &[u8]) -> bool
    ensures { result ≡ (not (is_named (codes "content-length") line.now)
        || list_all (bytes_eq part.now) (parts line.now.value)) }
{
    !is_content_length(line) || is_every_part(line.value(), part)
}

/// Whether each part of each line of Content-Length is this one.
fn all_agree(lines: &[Header], part: &[u8]) -> bool
    ensures { result
        ≡ list_all (bytes_eq part.now) (parts_named (codes "content-length") lines.now) }
{
    lines.iter().all(|line| agrees(line, part))
}

/// Whether the part is digits, and each part of each line of Content-Length is this one.
fn is_length(lines: &[Header], part: &[u8]) -> bool
    ensures { result ≡ (is_digits part.now
        && list_all (bytes_eq part.now) (parts_named (codes "content-length") lines.now)) }
{
    is_digits(part) && all_agree(lines, part)
}

/// The one string of digits that all parts of all lines of Content-Length are, with the blanks
/// around them left out; nothing where there is no line or its parts are no such string.
#[tactic(auto, using(crate::proofs::First::digits_none, crate::proofs::First::digits_some))]
pub fn length_digits(lines: &[Header]) -> Option<&[u8]>
    ensures { option_map (λ digits. digits.now) result ≡ length_digits lines.now }
{
    let first = first_part(first_length(lines)?);
    if is_length(lines, first) {
        Some(first)
    } else {
        None
    }
}

/// Returns the length of the body behind lines with a Content-Length, at most `most` bytes.
///
/// It returns `Malformed` if their parts, cut at commas, are not all the same string of one or more
/// digits, and then `TooLarge` if the length is above `most`.
pub fn length_of(lines: &[Header], most: u64) -> Result<usize, LengthFault>
    ensures { result ≡ length_within most lines.now }
{
    let Some(digits) = length_digits(lines) else {
        return Err(LengthFault::Malformed);
    };
    value_of(digits, most)
}

/// Returns what [`length_of`] does if one line alone is Content-Length, as in most heads. A value
/// that is digits alone, as most are, isn't cut at commas, and no other line has to agree with it.
#[tactic(auto, using(crate::proofs::OnePart::length_alone))]
pub fn length_of_one(lines: &[Header], most: u64) -> Result<usize, LengthFault>
    requires one { count_named (codes "content-length") lines.now ≡ 1 }
    ensures { result ≡ length_within most lines.now }
{
    match first_length(lines) {
        Some(value) if is_digits(value) => value_of(value, most),
        _ => length_of(lines, most),
    }
}

/// Returns the value of digits, which is at most `most`.
fn value_of(digits: &[u8], most: u64) -> Result<usize, LengthFault>
    requires { is_digits digits.now ≡ true }
    ensures { result ≡ limited most (digits_value 10 digits.now) }
{
    let mut size = 0;
    for digit in digits {
        size = size * 10 + u128::from(*digit - b'0');
        if size > u128::from(most) {
            return Err(LengthFault::TooLarge);
        }
    }
    Ok(size as usize)
}
