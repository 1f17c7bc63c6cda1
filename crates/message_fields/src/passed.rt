// The lines that are passed on.
ghost use Rattle.std.specs.Prelude.{◌≡◌, ◌<◌, ◌&&◌, ℕ, List, codes, false, length};
ghost use Rattle.std.specs.List.{list_any};
ghost use Rattle.message_parts.specs.Names.{same_name};
ghost use Rattle.message_fields.specs.Lines.{is_named};
ghost use Rattle.message_fields.specs.Parts.{parts};
ghost use Rattle.message_fields.specs.Passed.{asks_close, is_connection_option, is_passed, is_passed_in_request};
ghost use Rattle.message_fields.specs.Passing.{lines_of};

use super::fields::{is_connection, is_expect, is_host, is_own};
use super::parts::has_part;
use super::passing::Passing;
use message_parts::Header;

/// Whether the line is a Connection line that names the field. Most values are shorter than most
/// names, and such a line is passed by at once.
fn names_field(line: &Header, name: &[u8]) -> bool
    ensures { result ≡ (is_named (codes "connection") line.now
        && list_any (λ part. same_name part name.now) (parts line.now.value)) }
{
    if !is_connection(line) {
        return false;
    }
    let value = line.value();
    if value.len() < name.len() {
        return false;
    }
    has_part(value, name)
}

/// Whether a Connection line names the field. Few names are short enough to be asked for.
#[inline(never)]
fn is_connection_option(lines: &[Header], name: &[u8]) -> bool
    ensures { result ≡ is_connection_option lines.now name.now }
{
    lines.iter().any(|line| names_field(line, name))
}

/// Whether a Connection line has the option `close`: the connection ends with the message
/// (RFC 9112, section 9.6).
pub fn asks_close(lines: &[Header]) -> bool
    ensures { result ≡ asks_close lines.now }
{
    is_connection_option(lines, b"close")
}

/// How long the value of a Connection line is; 0 of any other line.
fn options_len(line: &Header) -> usize
    ensures { (name : List ℕ) → result < length name → (is_named (codes "connection") line.now
        && list_any (λ part. same_name part name) (parts line.now.value)) ≡ false }
{
    if is_connection(line) {
        line.value().len()
    } else {
        0
    }
}

/// How long a name is at least that is the value, or a part of it: of the two that most have it is
/// told, and else that is 0.
fn least_part(value: &[u8]) -> usize
    ensures { (name : List ℕ) → length name < result
        → list_any (λ part. same_name part name) (parts value.now) ≡ false }
{
    if value == b"close".as_slice() {
        5
    } else if value == b"keep-alive".as_slice() {
        10
    } else {
        0
    }
}

/// How long a name is at least that the line gives as a Connection line.
fn least_option(line: &Header) -> usize
    ensures { (name : List ℕ) → length name < result → (is_named (codes "connection") line.now
        && list_any (λ part. same_name part name) (parts line.now.value)) ≡ false }
{
    if is_connection(line) {
        least_part(line.value())
    } else {
        usize::MAX
    }
}

/// How long the names are, at least and at most, that Connection lines give.
fn option_lengths(lines: &[Header]) -> (usize, usize)
    ensures shortest { (name : List ℕ) → length name < result.0
        → is_connection_option lines.now name ≡ false }
    ensures longest { (name : List ℕ) → result.1 < length name
        → is_connection_option lines.now name ≡ false }
{
    let mut shortest = usize::MAX;
    let mut longest = 0;
    for line in lines {
        shortest = shortest.min(least_option(line));
        longest = longest.max(options_len(line));
    }
    (shortest, longest)
}

impl<'a> Passing<'a> {
    /// These lines, of which the Connection lines are looked at once.
    pub fn new(lines: &'a [Header]) -> Passing<'a>
        ensures { lines_of result ≡ lines.now }
    {
        let (shortest, longest) = option_lengths(lines);
        Passing {
            lines,
            shortest,
            longest,
        }
    }

    // Whether a Connection line names the field.
    fn is_option(&self, name: &[u8]) -> bool
        ensures { result ≡ is_connection_option (lines_of self.now) name.now }
    {
        let len = name.len();
        self.shortest <= len && len <= self.longest && is_connection_option(self.lines, name)
    }

    /// Whether a line of the message is passed on: Host always, and another line where its field is
    /// not of one connection alone and no Connection line names it. Content-Length is not passed
    /// on, since it is written anew.
    #[inline(always)]
    pub fn is_passed(&self, line: &Header) -> bool
        ensures { result ≡ is_passed (lines_of self.now) line.now }
    {
        is_host(line) || (!is_own(line) && !self.is_option(line.name()))
    }

    /// Whether a line is passed on where the message is a request: as in any, and Expect never.
    #[inline(always)]
    pub fn is_passed_in_request(&self, line: &Header) -> bool
        ensures { result ≡ is_passed_in_request (lines_of self.now) line.now }
    {
        self.is_passed(line) && !is_expect(line)
    }
}
