// Words that are compared without ASCII case.
ghost use Rattle.std.specs.Prelude.{◌≡◌, ◌↔◌, IsTrue, codes};
ghost use Rattle.message_parts.specs.Names.{same_name};

/// Whether two field names, or other words, are the same without ASCII case (RFC 9110,
/// section 5.1).
#[inline(always)]
pub fn is_same_name(one: &[u8], other: &[u8]) -> bool
    ensures { result ≡ same_name one.now other.now }
{
    one.len() == other.len() && one.eq_ignore_ascii_case(other)
}

/// Whether the bytes are this word, letter for letter. The word is a constant wherever this is
/// called, so a byte takes two instructions; std's equality of slices takes a call from eight bytes
/// on.
#[inline(always)]
pub(crate) fn is_word(name: &[u8], word: &[u8]) -> bool
    ensures { IsTrue result ↔ (name.now ≡ word.now) }
{
    if name.len() != word.len() {
        return false;
    }
    for at in 0..word.len() {
        if name[at] != word[at] {
            return false;
        }
    }
    true
}

/// Whether the name is `connection`. It is compared as most write it first, and so are the two
/// below.
#[inline(always)]
pub(crate) fn is_connection(name: &[u8]) -> bool
    ensures { result ≡ same_name name.now (codes "connection") }
{
    is_word(name, b"Connection") || is_same_name(name, b"connection")
}

/// Whether the name is `content-length`.
#[inline(always)]
pub(crate) fn is_content_length(name: &[u8]) -> bool
    ensures { result ≡ same_name name.now (codes "content-length") }
{
    is_word(name, b"Content-Length") || is_same_name(name, b"content-length")
}

/// Whether the name is `host`.
#[inline(always)]
pub(crate) fn is_host(name: &[u8]) -> bool
    ensures { result ≡ same_name name.now (codes "host") }
{
    is_word(name, b"Host") || is_same_name(name, b"host")
}
