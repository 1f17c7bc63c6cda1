// The lines of a field.
ghost use Rattle.std.specs.Prelude.{◌≡◌, codes};
ghost use Rattle.message_fields.specs.Lines.{is_named};
ghost use Rattle.message_fields.specs.Passed.{is_own};

use message_parts::{Field, Header};

/// Whether the line is Host.
#[inline(always)]
pub fn is_host(line: &Header) -> bool
    ensures { result ≡ is_named (codes "host") line.now }
{
    match line.field() {
        Field::Host => true,
        _ => false,
    }
}

/// Whether the line is Expect.
#[inline(always)]
pub(crate) fn is_expect(line: &Header) -> bool
    ensures { result ≡ is_named (codes "expect") line.now }
{
    match line.field() {
        Field::Expect => true,
        _ => false,
    }
}

/// Whether the line is Connection.
#[inline(always)]
pub(crate) fn is_connection(line: &Header) -> bool
    ensures { result ≡ is_named (codes "connection") line.now }
{
    match line.field() {
        Field::Connection => true,
        _ => false,
    }
}

/// Whether the line is Content-Length.
#[inline(always)]
pub(crate) fn is_content_length(line: &Header) -> bool
    ensures { result ≡ is_named (codes "content-length") line.now }
{
    match line.field() {
        Field::ContentLength => true,
        _ => false,
    }
}

/// Whether the line's field is of one connection alone.
#[inline(always)]
pub(crate) fn is_own(line: &Header) -> bool
    ensures { result ≡ is_own line.now.name }
{
    match line.field() {
        Field::Host | Field::Expect | Field::Other => false,
        _ => true,
    }
}
