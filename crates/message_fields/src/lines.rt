// The lines of a name.
ghost use Rattle.std.specs.Prelude.{◌≡◌, ◌&&◌, codes, nat_lt, option_map};
ghost use Rattle.message_parts.specs.Names.{same_name};
ghost use Rattle.message_fields.specs.Lines.{is_named, count_named, first_value, has_word, is_chunked_alone, asks_continue};

use super::fields::{is_content_length, is_host};
use message_parts::{Field, Header, is_same_name};

/// Whether the line has the name.
fn is_named(line: &Header, name: &[u8]) -> bool
    ensures { result ≡ is_named name.now line.now }
{
    is_same_name(line.name(), name)
}

/// How many lines have the name.
pub fn count_named(lines: &[Header], name: &[u8]) -> usize
    ensures { result ≡ count_named name.now lines.now }
{
    lines.iter().filter(|line| is_named(line, name)).count()
}

/// How many lines are Host.
pub fn count_hosts(lines: &[Header]) -> usize
    ensures { result ≡ count_named (codes "host") lines.now }
{
    lines.iter().filter(|line| is_host(line)).count()
}

/// Whether some line is Host. Most requests have it in front, and then no other line is looked at.
pub fn has_host(lines: &[Header]) -> bool
    ensures { result ≡ nat_lt 0 (count_named (codes "host") lines.now) }
{
    lines.iter().any(|line| is_host(line))
}

/// How many lines are Transfer-Encoding, and how many are Content-Length: each is looked at once.
pub fn count_codings_and_lengths(lines: &[Header]) -> (usize, usize)
    ensures codings { result.0 ≡ count_named (codes "transfer-encoding") lines.now }
    ensures lengths { result.1 ≡ count_named (codes "content-length") lines.now }
{
    let mut codings = 0;
    let mut lengths = 0;
    for line in lines {
        match line.field() {
            Field::TransferEncoding => codings += 1,
            Field::ContentLength => lengths += 1,
            _ => {}
        }
    }
    (codings, lengths)
}

/// The value of the first line of Content-Length.
pub(crate) fn first_length(lines: &[Header]) -> Option<&[u8]>
    ensures { option_map (λ value. value.now) result
        ≡ first_value (codes "content-length") lines.now }
{
    match lines.iter().find(|line| is_content_length(line)) {
        Some(line) => Some(line.value()),
        None => None,
    }
}

/// The value of the first line of the name.
pub fn first_value<'a>(lines: &'a [Header], name: &[u8]) -> Option<&'a [u8]>
    ensures { option_map (λ value. value.now) result ≡ first_value name.now lines.now }
{
    match lines.iter().find(|line| is_named(line, name)) {
        Some(line) => Some(line.value()),
        None => None,
    }
}

/// Whether the line has the name, and the word as its value.
fn is_line(line: &Header, name: &[u8], word: &[u8]) -> bool
    ensures { result ≡ (is_named name.now line.now && same_name line.now.value word.now) }
{
    is_named(line, name) && is_same_name(line.value(), word)
}

/// Whether some line of the name has the word as its value.
fn has_word(lines: &[Header], name: &[u8], word: &[u8]) -> bool
    ensures { result ≡ has_word name.now word.now lines.now }
{
    lines.iter().any(|line| is_line(line, name, word))
}

/// Whether one line alone is Transfer-Encoding, with the value `chunked` without ASCII case.
pub fn is_chunked_alone(lines: &[Header]) -> bool
    ensures { result ≡ is_chunked_alone lines.now }
{
    count_named(lines, b"transfer-encoding") == 1
        && has_word(lines, b"transfer-encoding", b"chunked")
}

/// Whether some line is `Expect: 100-continue`, without ASCII case.
pub fn asks_continue(lines: &[Header]) -> bool
    ensures { result ≡ asks_continue lines.now }
{
    has_word(lines, b"expect", b"100-continue")
}
