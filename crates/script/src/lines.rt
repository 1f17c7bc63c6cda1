// The lines of a text, one at a time.
ghost use Rattle.std.specs.Prelude.{◌≡◌, ◌<◌, ◌≤◌, ◌==◌, [], ◌∷◌, length, IfSome, IfNone};
ghost use Rattle.std.specs.List.{position, position_or_len};
ghost use Rattle.std.specs.Str.Lines.{lines, strip_carriage_return};

/// Where a byte first stands.
fn find_byte(bytes: &[u8], byte: u8) -> Option<usize>
    ensures { result ≡ position (λ found. found == byte) bytes.now }
{
    bytes.iter().position(|found| *found == byte)
}

/// Where a byte first stands, or the length of the text without one.
#[tactic(auto, using(lemmas::proofs::Tests::place_is))]
pub(crate) fn place_of(bytes: &[u8], byte: u8) -> usize
    ensures value { result ≡ position_or_len (λ found. found == byte) bytes.now }
    ensures inside { result ≤ length bytes.now }
{
    find_byte(bytes, byte).unwrap_or(bytes.len())
}

/// A line without the one carriage return at its end.
fn without_return(line: &[u8]) -> &[u8]
    ensures { result.now ≡ strip_carriage_return line.now }
{
    match line.split_last() {
        Some((b'\r', front)) => front,
        _ => line,
    }
}

/// The first line, without its end, and what follows it; nothing where the text is at its end.
///
/// A line ends in a line feed, or in a carriage return and a line feed; at the last line both may
/// be missing, and a carriage return alone is a byte of the line.
#[tactic(auto, using(crate::proofs::Parts::lines_whole, crate::proofs::Parts::lines_first))]
pub fn next_line(text: &[u8]) -> Option<(&[u8], &[u8])>
    ensures none { IfNone result (lines text.now ≡ []) }
    ensures first { IfSome result (λ cut. lines text.now ≡ cut.0.now ∷ lines cut.1.now) }
    ensures shorter { IfSome result (λ cut. length cut.1.now < length text.now) }
{
    if text.is_empty() {
        return None;
    }
    let end = place_of(text, b'\n');
    if end == text.len() {
        return Some((text, &[]));
    }
    Some((without_return(&text[..end]), &text[end + 1..]))
}
